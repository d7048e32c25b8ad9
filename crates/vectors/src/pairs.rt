// Whether each of some legal captures means the same as each of them. Their texts are equal if and
// only if they do.

ghost use Rattle.std.specs.Prelude.{◌≤◌, IfSome};

use crate::cases::{Case, LEAST_LIMIT, read_limit, read_words};
use link_capture_checks::same;
use link_capture_reader::normalize_bytes;
use std::alloc::Global;
use std::io::{self, ErrorKind, Write};

/// A capture, and its normal text.
#[derive(Drop)]
struct Legal {
    capture: Vec<u8>,
    text: Vec<u8>,
}

/// Returns a capture with its normal text. Returns None if it isn't legal, or if an allocation
/// fails.
fn with_text(alloc: Global, case: Case) -> Option<Legal>
    requires { 16 ≤ case.limit }
{
    let mut text = Vec::new(alloc);
    normalize_bytes(case.capture.as_slice(), case.limit, &mut text).ok()?;
    let Case { capture, .. } = case;
    Some(Legal { capture, text })
}

/// Returns the captures of words in hex, with spaces between.
fn read_captures(alloc: Global, limit: &str, words: &str) -> Option<Vec<Legal>> {
    let mut captures = Vec::new(alloc);
    for word in words.split(' ') {
        let case = read_words(alloc, limit, word, LEAST_LIMIT)?;
        captures.push(with_text(alloc, case)?).ok()?;
    }
    Some(captures)
}

/// Returns a character for each capture: `=` if it means the same as the first, else `-`. Returns
/// None if a comparison differs from that of the texts, or if an allocation fails.
fn compared(alloc: Global, first: &Legal, captures: &[Legal], limit: u32) -> Option<String>
    requires { 16 ≤ limit }
{
    let mut marks = String::new(alloc);
    for second in captures {
        let is_same = same(first.capture.as_slice(), second.capture.as_slice(), limit).ok()?;
        if is_same != (first.text == second.text) {
            return None;
        }
        marks.push(if is_same { '=' } else { '-' }).ok()?;
    }
    Some(marks)
}

/// Writes the result of a case: a limit in decimal, and legal captures in hex, with spaces between.
///
/// # Errors
///
/// `InvalidInput` if `fields` isn't a case; `InvalidData` if a comparison differs from that of the
/// texts; otherwise an allocation or a write failed.
pub fn write_result<W: Write>(alloc: Global, fields: &str, out: &mut W) -> io::Result<()> {
    let (limit, words) = fields.split_once(' ').ok_or(ErrorKind::InvalidInput)?;
    let captures = read_captures(alloc, limit, words).ok_or(ErrorKind::InvalidInput)?;
    let limit = read_limit(limit, LEAST_LIMIT).ok_or(ErrorKind::InvalidInput)?;
    for first in captures.as_slice() {
        let marks = compared(alloc, first, captures.as_slice(), limit);
        let marks = marks.ok_or(ErrorKind::InvalidData)?;
        write!(out, "{marks} ")?;
    }
    writeln!(out)
}
