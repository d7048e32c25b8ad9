//! The encoding quirks of a capture, as an iterator.

ghost use Rattle.std.specs.Prelude.{◌≡◌, ◌≤◌, ◌+◌, ◌++◌, length};
ghost use Rattle.std.specs.Iterator.{YieldsFirst, item_count};
ghost use Rattle.link_capture_grammar.specs.Captures.{first_fault};
ghost use Rattle.link_capture_quirks.specs.CaptureQuirks.{capture_quirks, QuirksLeft, items_left};
ghost use Rattle.link_capture_quirks.specs.QuirkWalks.{walk_quirks, AreWithin, rest_quirks, rest_fault, IsStep};
ghost use Rattle.link_message_grammar.specs.Body.{link_body};

use crate::laws::quirks_unfold_by_frames;
use crate::quirk_at::QuirkAt;
use crate::walk::Walk;
use link_capture_checks::measure_frame;
use link_capture_grammar::fault::CaptureFault;
use link_capture_grammar::laws::{
    captures_are_counted, captures_unfold_by_frames, sameness_unfolds_by_frames,
};
use netlink_packet_core::nla_align;
use std::marker::Model;

/// An iterator over the encoding quirks of a capture: each encoding that some kernels treat
/// differently from its normal text, with its offset, in the order of the bytes. If the capture
/// isn't legal, its first fault follows as an Err; then `None` for ever. Allocates nothing.
#[derive(Drop)]
pub struct CaptureQuirks<'a> {
    limit: u32,
    bytes: &'a [u8],
    position: usize,
    walk: Walk<'a>,
}

impl<'a> Model for CaptureQuirks<'a> {
    ghost Value = { QuirksLeft };

    ghost view = { λ m. record {
      quirks_left = walk_quirks m.walk.first m.walk.second m.walk.levels.items
          ++ rest_quirks m.limit m.bytes.now m.position;
      fault = rest_fault m.limit m.bytes.now m.position;
    } };

    ghost invariant = { λ m. (m.position ≤ length m.bytes.now + 3)
        × AreWithin 0 m.walk.levels.items };
}

/// Returns an iterator over the encoding quirks of a capture, and its first fault, if it has one.
/// `limit` is the greatest length in bytes of a frame and of its text. Allocates nothing.
pub fn quirks(bytes: &[u8], limit: u32) -> CaptureQuirks<'_>
    ensures quirks_left { result.quirks_left ≡ capture_quirks limit bytes.now }
    ensures fault { result.fault ≡ first_fault link_body limit bytes.now }
{
    CaptureQuirks {
        limit,
        bytes,
        position: 0,
        walk: Walk::new(),
    }
}

/// Returns the next item, and the offset after the frames begun so far.
fn advance<'a>(
    limit: u32,
    bytes: &'a [u8],
    start: usize,
    walk: &mut Walk<'a>,
) -> (Option<Result<QuirkAt, CaptureFault>>, usize)
    requires near { start ≤ length bytes.now + 3 }
    requires within { AreWithin 0 walk.old.levels.items }
    ensures near { result.1 ≤ length bytes.now + 3 }
    ensures within { AreWithin 0 walk.new.levels.items }
    ensures next { IsStep limit bytes.now
        (walk_quirks walk.old.first walk.old.second walk.old.levels.items) start
        (walk_quirks walk.new.first walk.new.second walk.new.levels.items) result.1 result.0 }
{
    quirks_unfold_by_frames();
    captures_are_counted();
    captures_unfold_by_frames();
    sameness_unfolds_by_frames();
    let mut position = start;
    'frames: loop {
        if let Some(found) = walk.next() {
            return (Some(Ok(found)), position);
        }
        if position >= bytes.len() {
            return (None, position);
        }
        let frame = &bytes[position..];
        match measure_frame(frame, limit) {
            Ok(text) => {
                walk.enter(frame, position);
                position += nla_align(text.len);
            }
            Err(kind) => {
                let offset = position as u64;
                return (Some(Err(CaptureFault { kind, offset })), position);
            }
        }
    }
}

impl<'a> Iterator for CaptureQuirks<'a> {
    type Item = Result<QuirkAt, CaptureFault>;

    ghost next_gives = { YieldsFirst items_left };

    ghost remaining = { item_count items_left };

    fn next(&mut self) -> Option<Result<QuirkAt, CaptureFault>> {
        captures_are_counted();
        quirks_unfold_by_frames();
        let (found, position) = advance(self.limit, self.bytes, self.position, &mut self.walk);
        self.position = position;
        if matches!(found, Some(Err(_))) {
            self.bytes = &[];
            self.position = 0;
        }
        found
    }
}
