// Cases of a limit and a capture.

ghost use Rattle.std.specs.Prelude.{◌≤◌, IfSome};

use hex::decode;
use std::alloc::Global;

/// A capture, and the greatest length in bytes of a message in it.
#[derive(Drop)]
pub struct Case {
    pub limit: u32,
    pub capture: Vec<u8>,
}

/// The least limit under which captures are normalised: the length of a message's header in bytes.
pub const LEAST_LIMIT: u32 = 16;

/// The sizes in bytes of the pieces that a capture is read in.
pub const PIECES: [usize; 3] = [1, 7, 100];

/// Returns the limit that a word writes in decimal, from `least` to 4294967295. Returns None for
/// any other word.
pub fn read_limit(word: &str, least: u32) -> Option<u32>
    ensures { IfSome result (λ limit. least ≤ limit) }
{
    let limit = word.parse::<u32>().ok()?;
    if limit < least {
        return None;
    }
    Some(limit)
}

/// Returns the case of a limit in decimal, from `least` to 4294967295, and a capture in hex.
/// Returns None if one of them is anything else, or if an allocation fails.
pub fn read_words(alloc: Global, limit: &str, capture: &str, least: u32) -> Option<Case>
    ensures { IfSome result (λ case. least ≤ case.limit) }
{
    let limit = read_limit(limit, least)?;
    let capture = decode(alloc, capture).ok()?;
    Some(Case { limit, capture })
}

/// Returns the case of a limit and a capture with a space between.
pub fn read_case(alloc: Global, fields: &str, least: u32) -> Option<Case>
    ensures { IfSome result (λ case. least ≤ case.limit) }
{
    let (limit, capture) = fields.split_once(' ')?;
    read_words(alloc, limit, capture, least)
}
