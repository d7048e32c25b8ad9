// Whether two captures mean the same: `same`, `different`, or the first fault and which capture has
// it. Each pair is also compared in the other order, and each legal capture with itself and with
// its normal text.

ghost use Rattle.std.specs.Prelude.{◌≤◌, IfSome};

use crate::cases::{LEAST_LIMIT, read_limit};
use hex::decode;
use link_capture_checks::{SideFault, same};
use link_capture_reader::normalize_bytes;
use std::alloc::{AllocError, Global};
use std::io::{self, ErrorKind, Write};

/// Two captures, and the greatest length in bytes of a message in them.
#[derive(Drop)]
struct Pair {
    limit: u32,
    first: Vec<u8>,
    second: Vec<u8>,
}

/// Returns the case of a limit from 16 to 4294967295 in decimal, and two captures in hex, with
/// spaces between. Returns None if `fields` is anything else, or if an allocation fails.
fn read_pair(alloc: Global, fields: &str) -> Option<Pair>
    ensures { IfSome result (λ pair. 16 ≤ pair.limit) }
{
    let (limit, captures) = fields.split_once(' ')?;
    let limit = read_limit(limit, LEAST_LIMIT)?;
    let (first, second) = captures.split_once(' ')?;
    let first = decode(alloc, first).ok()?;
    let second = decode(alloc, second).ok()?;
    Some(Pair {
        limit,
        first,
        second,
    })
}

/// Returns whether the captures in the other order have the same result; if both have a fault, that
/// of the other capture.
fn agrees_swapped(pair: &Pair, compared: Result<bool, SideFault>) -> bool {
    match same(pair.second.as_slice(), pair.first.as_slice(), pair.limit) {
        Ok(is_same) => compared == Ok(is_same),
        Err(_) => compared.is_err(),
    }
}

/// Returns whether a legal capture means the same as itself and as its normal text.
fn agrees_with_its_text(alloc: Global, capture: &[u8], limit: u32) -> bool
    requires { 16 ≤ limit }
{
    let mut text = Vec::new(alloc);
    if normalize_bytes(capture, limit, &mut text).is_err() {
        return same(capture, capture, limit).is_err();
    }
    same(capture, capture, limit) == Ok(true) && same(capture, text.as_slice(), limit) == Ok(true)
}

fn pair_result(alloc: Global, compared: Result<bool, SideFault>) -> Result<String, AllocError> {
    match compared {
        Ok(true) => format!(in alloc; "same"),
        Ok(false) => format!(in alloc; "different"),
        Err(fault) => format!(in alloc; "{fault}"),
    }
}

/// Writes the result of a case: a limit in decimal, and two captures in hex, with spaces between.
///
/// # Errors
///
/// `InvalidInput` if `fields` isn't a case; `InvalidData` if another comparison has another result;
/// otherwise an allocation or a write failed.
pub fn write_result<W: Write>(alloc: Global, fields: &str, out: &mut W) -> io::Result<()> {
    let pair = read_pair(alloc, fields).ok_or(ErrorKind::InvalidInput)?;
    let compared = same(pair.first.as_slice(), pair.second.as_slice(), pair.limit);
    if !agrees_swapped(&pair, compared)
        || !agrees_with_its_text(alloc, pair.first.as_slice(), pair.limit)
    {
        return Err(io::Error::from(ErrorKind::InvalidData));
    }
    let compared = pair_result(alloc, compared)?;
    writeln!(out, "{compared}")
}
