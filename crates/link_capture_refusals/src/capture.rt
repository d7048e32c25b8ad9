//! Why the body of a capture's first faulty frame is refused.

ghost use Rattle.std.specs.Prelude.{◌≡◌, ◌<◌, ◌+◌, ◌^◌, length};
ghost use Rattle.netlink_packet_core.specs.Frames.{BeginsWithFrame};
ghost use Rattle.link_capture_refusals.specs.Refusals.{frame_refusal, refusal};
ghost use Rattle.link_capture_refusals.specs.RefusalViews.{optional_found};

use crate::laws::refused_frames_are_whole;
use crate::reason::Reason;
use crate::refusal::Refusal;
use crate::walk::link_refusal;
use arrayvec::ArrayVec;
use link_capture_checks::{check, frame_body};
use link_capture_grammar::fault::{CaptureFault, FaultKind};
use link_capture_grammar::laws::faults_are_at_frames;
use link_capture_grammar::link_types::is_link_type;
use link_capture_walks::following;
use netlink_packet_core::{NETLINK_HEADER_LEN, NetlinkBuffer};

/// Returns the reason why the first frame of `frame`, whose fault is a refused body, is refused.
/// `offset` is the frame's offset in the capture, in bytes. Bytes after the frame change nothing
/// (`refusals_are_independent`). Allocates nothing.
#[tactic(auto, unfolding(crate::specs::Refusals::frame_refusal))]
pub fn why_frame(frame: &[u8], offset: u64) -> Option<Refusal>
    requires frame { BeginsWithFrame frame.now }
    requires near { offset + length frame.now < 2 ^ 63 }
    ensures { optional_found result ≡ frame_refusal offset frame.now }
{
    let body = frame_body(frame);
    let start = offset + NETLINK_HEADER_LEN as u64;
    if is_link_type(NetlinkBuffer::new(frame).message_type()) {
        return link_refusal(true, start, start, body);
    }
    Some(Refusal {
        path: ArrayVec::new(),
        offset: None,
        reason: Reason::CutCode(body.len()),
    })
}

/// Returns the first attribute, in the order of the bytes, that isn't accepted in the capture's
/// first faulty frame, with the reason and the offset, if the fault is a refused body. Returns None
/// if the capture is legal or its first fault is another one. `limit` is the greatest length in
/// bytes of a frame and of its text. Allocates nothing.
pub fn why(bytes: &[u8], limit: u32) -> Option<Refusal>
    ensures { optional_found result ≡ refusal limit bytes.now }
{
    faults_are_at_frames();
    refused_frames_are_whole();
    let Err(CaptureFault { kind, offset }) = check(bytes, limit) else {
        return None;
    };
    match kind {
        FaultKind::Refused => why_frame(following(bytes, offset as usize), offset),
        _ => None,
    }
}
