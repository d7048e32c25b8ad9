// The encoding quirks of a capture, each with its offset; and then `legal` or the first fault.

use crate::cases::{Case, read_case};
use link_capture_quirks::quirks;
use std::alloc::Global;
use std::io::{self, ErrorKind, Write};

/// Writes the quirks of a capture in a line.
fn write_case<W: Write>(out: &mut W, case: &Case) -> io::Result<()> {
    for found in quirks(case.capture.as_slice(), case.limit) {
        match found {
            Ok(quirk_at) => write!(out, "{quirk_at}; ")?,
            Err(fault) => return writeln!(out, "{fault}"),
        }
    }
    writeln!(out, "legal")
}

/// Writes the result of a case: a limit in decimal, a space, and a capture in hex.
///
/// # Errors
///
/// `InvalidInput` if `fields` isn't a case; otherwise a write failed.
pub fn write_result<W: Write>(alloc: Global, fields: &str, out: &mut W) -> io::Result<()> {
    let case = read_case(alloc, fields, 0).ok_or(ErrorKind::InvalidInput)?;
    write_case(out, &case)
}
