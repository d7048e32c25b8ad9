//! Whether the captures of two sources mean the same.

ghost use Rattle.std.specs.Prelude.{◌≡◌, ◌<◌, ◌≤◌, ◌^◌, ◌↔◌, ℕ, List, [], true, false, length, IfOk, IfErr, None};
ghost use Rattle.link_capture_grammar.specs.Same.{SameCapture};
ghost use Rattle.link_capture_reader.specs.States.{SourceState, source_state};
ghost use Rattle.link_capture_comparing.specs.Comparisons.{Sources, ComparesSources, sources_of};
ghost use Rattle.link_capture_comparing.specs.Partings.{SidesHaveParted, PartingFails};
ghost use Rattle.link_capture_comparing.specs.Sides.{state_of, new_side};
ghost use Rattle.link_capture_grammar.specs.Body.{link_body};

use super::side::Side;
use link_capture_checks::{SideFault, same};
use link_capture_grammar::fault::CaptureFault;
use link_capture_grammar::laws::{
    captures_are_counted, captures_unfold_by_frames, frames_are_independent,
    same_captures_are_legal, sameness_unfolds_by_frames, texts_determine_meanings,
};
use link_capture_reader::Source;
use netlink_packet_core_grammar::laws::numbers_are_independent;
use std::alloc::Global;

/// Returns a fault of the first capture.
fn of_first(fault: CaptureFault) -> SideFault
    ensures { result ≡ record { second = false; fault = fault } }
{
    SideFault {
        second: false,
        fault,
    }
}

/// Returns a fault of the second capture.
fn of_second(fault: CaptureFault) -> SideFault
    ensures { result ≡ record { second = true; fault = fault } }
{
    SideFault {
        second: true,
        fault,
    }
}

/// Returns whether two captures are legal and mean the same.
fn are_same(left: &[u8], right: &[u8], limit: u32) -> bool
    ensures { (result ≡ true) ↔ SameCapture link_body limit left.now right.now }
{
    same_captures_are_legal();
    match same(left, right, limit) {
        Ok(is_same) => is_same,
        Err(_) => false,
    }
}

/// Compares frame by frame until both captures end, a frame differs, or a side has a fault. Returns
/// whether all frames were the same; if a side has a fault, the result means nothing.
///
/// # Errors
///
/// `Read` or `TooLong`, if one of the sources can't be read.
fn part<S: Source, T: Source>(
    left: &mut Side,
    left_source: &mut S,
    right: &mut Side,
    right_source: &mut T,
    limit: u32,
) -> Result<bool, SideFault>
    requires left { state_of left.old ≡ new_side limit }
    requires right { state_of right.old ≡ new_side limit }
    ensures parted { IfOk result (λ is_same. (a b : List ℕ) × SidesHaveParted
        (sources_of (source_state S.to_come S.failures S.ends_reported)
        (source_state T.to_come T.failures T.ends_reported)
        left_source.old left_source.new right_source.old right_source.new)
        limit (state_of left.new) (state_of right.new) a b is_same) }
    ensures unread { IfErr result (λ e. PartingFails
        (sources_of (source_state S.to_come S.failures S.ends_reported)
        (source_state T.to_come T.failures T.ends_reported)
        left_source.old left_source.new right_source.old right_source.new)
        (state_of left.new) e.second e.fault) }
    ensures left { (length (state_of left.new).window ≤ left.new.read) × (left.new.read < 2 ^ 64)
        × (left.new.limit ≡ limit) }
    ensures right { (length (state_of right.new).window ≤ right.new.read) × (right.new.read < 2 ^ 64)
        × (right.new.limit ≡ limit) }
{
    captures_are_counted();
    captures_unfold_by_frames();
    frames_are_independent();
    numbers_are_independent();
    same_captures_are_legal();
    sameness_unfolds_by_frames();
    texts_determine_meanings();
    'frames: loop {
        let first = match left.frame(left_source) {
            Ok(first) => first,
            Err(fault) => return Err(of_first(fault)),
        };
        let second = match right.frame(right_source) {
            Ok(second) => second,
            Err(fault) => return Err(of_second(fault)),
        };
        let Some(first) = first else {
            return Ok(second.is_none());
        };
        let Some(second) = second else {
            return Ok(false);
        };
        if !are_same(&left.rest()[..first], &right.rest()[..second], limit) {
            return Ok(false);
        }
        left.pass(first);
        right.pass(second);
    }
}

/// Returns the result for two sides that have parted.
fn judged<S: Source, T: Source>(
    left: &mut Side,
    left_source: &mut S,
    right: &mut Side,
    right_source: &mut T,
    is_same: bool,
) -> Result<bool, SideFault>
    requires left { (length (state_of left.old).window ≤ left.old.read) × (left.old.read < 2 ^ 64) }
    requires right { (length (state_of right.old).window ≤ right.old.read) × (right.old.read < 2 ^ 64) }
    ensures { (from to : SourceState) (a b : List ℕ) → left.old.limit ≡ right.old.limit
        → SidesHaveParted (record {
          left_before = from;
          left_after = source_state S.to_come S.failures S.ends_reported left_source.old;
          right_before = to;
          right_after = source_state T.to_come T.failures T.ends_reported right_source.old;
        }) left.old.limit (state_of left.old) (state_of right.old) a b is_same
        → ComparesSources (record {
          left_before = from;
          left_after = source_state S.to_come S.failures S.ends_reported left_source.new;
          right_before = to;
          right_after = source_state T.to_come T.failures T.ends_reported right_source.new;
        }) left.old.limit result }
{
    if let Err(fault) = left.judge_rest(left_source) {
        return Err(of_first(fault));
    }
    if let Some(fault) = left.fault() {
        return match right.read_rest(right_source) {
            Ok(()) => Err(of_first(fault)),
            Err(fault) => Err(of_second(fault)),
        };
    }
    if let Err(fault) = right.judge_rest(right_source) {
        return Err(of_second(fault));
    }
    match right.fault() {
        Some(fault) => Err(of_second(fault)),
        None => Ok(is_same),
    }
}

/// Returns whether the captures of two sources mean the same under a limit. Reads both in step,
/// frame by frame, and each to its end, even after a fault or a difference. It needs memory only
/// for the bytes of a frame that is cut in what was read, so at most for one frame of each.
///
/// # Errors
///
/// The first of these faults, with the source that has it:
///
/// - `Read` at the number of bytes read, if the first source fails, else if the second does;
///   `TooLong`, at the number of bytes before the last piece, if more than `u64::MAX` bytes come.
/// - The first fault of the first capture, or that of the second if the first is legal; `Memory`,
///   if an allocation fails at a frame that was cut in what had been read, and before which there
///   is no fault.
pub fn same_sources<S: Source, T: Source>(
    alloc: Global,
    left: &mut S,
    right: &mut T,
    limit: u32,
) -> Result<bool, SideFault>
    ensures { ComparesSources (sources_of (source_state S.to_come S.failures S.ends_reported)
        (source_state T.to_come T.failures T.ends_reported) left.old left.new right.old right.new)
        limit result }
{
    let mut first = Side::new(alloc, limit);
    let mut second = Side::new(alloc, limit);
    match part(&mut first, left, &mut second, right, limit) {
        Ok(is_same) => judged(&mut first, left, &mut second, right, is_same),
        Err(unread) => {
            if !unread.second {
                return Err(unread);
            }
            match first.read_rest(left) {
                Ok(()) => Err(unread),
                Err(fault) => Err(of_first(fault)),
            }
        }
    }
}
