// Why the first refused body is refused, with the offset; or `nothing`.

use crate::cases::read_case;
use link_capture_refusals::why;
use std::alloc::Global;
use std::io::{self, ErrorKind, Write};

/// Writes the result of a case: a limit in decimal, a space, and a capture in hex.
///
/// # Errors
///
/// `InvalidInput` if `fields` isn't a case; otherwise a write failed.
pub fn write_result<W: Write>(alloc: Global, fields: &str, out: &mut W) -> io::Result<()> {
    let case = read_case(alloc, fields, 0).ok_or(ErrorKind::InvalidInput)?;
    match why(case.capture.as_slice(), case.limit) {
        Some(refusal) => writeln!(out, "{refusal}"),
        None => writeln!(out, "nothing"),
    }
}
