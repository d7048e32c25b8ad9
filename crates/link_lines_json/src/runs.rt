//! Runs of bytes that need no decision.

ghost use Rattle.std.specs.Prelude.{◌≡◌, ◌+◌, ◌≤◌, length, take, drop};
ghost use Rattle.std.specs.List.{prefix_len};
ghost use Rattle.link_lines_json.specs.Runs.{first_set, is_simple};

use std::simd::prelude::*;

/// The number of bytes that are compared at once.
const LANES: usize = 8;

/// Returns whether a byte stands for itself in a string, and neither ends a word or the name before
/// `=` nor begins a text in quotes or brackets.
fn is_simple(byte: u8) -> bool
    ensures { result ≡ is_simple byte }
{
    byte > b'(' && byte < 127 && !(byte == b'=' || byte == b'\\')
}

/// Returns the number of simple bytes before the first other one, byte by byte.
fn simple_len_of_few(text: &[u8]) -> usize
    ensures { result ≡ prefix_len is_simple text.now }
{
    for (i, byte) in text.iter().enumerate() {
        if !is_simple(*byte) {
            return i;
        }
    }
    text.len()
}

/// Returns the index of the lowest bit that is set, or `LANES`.
fn first_set(mask: u64) -> usize
    ensures { result ≡ first_set mask }
{
    if mask == 0 {
        LANES
    } else {
        mask.trailing_zeros() as usize
    }
}

/// Returns the number of simple bytes before the first other one, of `LANES` bytes.
fn simple_run(text: &[u8], at: usize) -> usize
    requires { at + LANES ≤ length text.now }
    ensures { result ≡ prefix_len is_simple (take LANES (drop at text.now)) }
{
    let bytes = u8x8::from_slice(&text[at..]);
    let others = (bytes - u8x8::splat(b')')).simd_ge(u8x8::splat(127 - b')'))
        | bytes.simd_eq(u8x8::splat(b'='))
        | bytes.simd_eq(u8x8::splat(b'\\'));
    first_set(others.to_bitmask())
}

/// Returns the number of simple bytes before the first other one.
#[tactic(auto, using(crate::proofs::SimpleRuns::run_dropped, crate::proofs::SimpleRuns::run_cut))]
pub(crate) fn simple_len(text: &[u8]) -> usize
    ensures { result ≡ prefix_len is_simple text.now }
{
    if text.len() < LANES {
        return simple_len_of_few(text);
    }
    let last = text.len() - LANES;
    let mut at = 0;
    while at < last {
        let run = simple_run(text, at);
        if run < LANES {
            return at + run;
        }
        at += LANES;
    }
    // The last load may begin before `at`, where all bytes are simple.
    last + simple_run(text, last)
}
