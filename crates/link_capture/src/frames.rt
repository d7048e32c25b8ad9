//! The message of one frame.

ghost use Rattle.std.specs.Prelude.{◌≡◌, ◌≢◌, ◌≤◌, ℕ, List, length, true, IfOk, IfErr, Ok, Err};
ghost use Rattle.netlink_packet_core.specs.Frames.{frame_type, frame_body};
ghost use Rattle.netlink_packet_core.specs.Payloads.{payload_may_allocate};
ghost use Rattle.link_capture_grammar.specs.Captures.{first_frame};
ghost use Rattle.link_capture.specs.Routes.{route_may_run_out_of_memory};
ghost use Rattle.link_capture.specs.Texts.{IsFirstMessage};
ghost use Rattle.link_message_grammar.specs.Body.{link_body};

use super::route::RouteLink;
use link_capture_checks::measure_frame;
use link_capture_grammar::fault::FaultKind;
use netlink_packet_core::NetlinkMessage;
use netlink_packet_core::laws::read_frames_keep_their_header;
use std::alloc::Global;

/// Reads the first frame of `bytes`: returns its length in bytes, without padding, and its message.
/// `limit` is the greatest length in bytes of a message, as read and as written. Allocates the
/// message.
///
/// # Errors
///
/// The fault of the frame, as `push_frame` returns it; or `Memory` if an allocation fails, which
/// happens only for an accepted frame, and never for one of which nothing is kept, such as a NOOP.
pub fn read_message(
    alloc: Global,
    bytes: &[u8],
    limit: u32,
) -> Result<(usize, NetlinkMessage<RouteLink>), FaultKind>
    ensures message { IfOk result (λ frame. IsFirstMessage limit bytes.now frame.0 frame.1) }
    ensures bounds { IfOk result
        (λ frame. (16 ≤ frame.0) × (frame.0 ≤ limit) × (frame.0 ≤ length bytes.now)) }
    ensures refused { IfErr result
        (λ kind. kind ≢ FaultKind.Memory → first_frame link_body limit bytes.now ≡ Err kind) }
    ensures memory { IfErr result (λ kind. kind ≡ FaultKind.Memory
        → (n : ℕ) × (text : List ℕ) × (first_frame link_body limit bytes.now ≡ Ok (n, text))) }
    ensures kept { IfErr result (λ kind. kind ≡ FaultKind.Memory
        → payload_may_allocate route_may_run_out_of_memory (frame_type bytes.now)
        (frame_body bytes.now) ≡ true) }
{
    let frame = measure_frame(bytes, limit)?;
    match NetlinkMessage::<RouteLink>::deserialize(alloc, bytes) {
        Ok(message) => {
            read_frames_keep_their_header(&message, bytes);
            Ok((frame.len, message))
        }
        Err(_) => Err(FaultKind::Memory),
    }
}

/// Reads the first frame as `read_message` does; its contract leaves out which frames need memory,
/// since an iterator over a capture doesn't use that.
pub(super) fn read_first_message(
    alloc: Global,
    bytes: &[u8],
    limit: u32,
) -> Result<(usize, NetlinkMessage<RouteLink>), FaultKind>
    ensures message { IfOk result (λ frame. IsFirstMessage limit bytes.now frame.0 frame.1) }
    ensures bounds { IfOk result
        (λ frame. (16 ≤ frame.0) × (frame.0 ≤ limit) × (frame.0 ≤ length bytes.now)) }
    ensures refused { IfErr result
        (λ kind. kind ≢ FaultKind.Memory → first_frame link_body limit bytes.now ≡ Err kind) }
    ensures memory { IfErr result (λ kind. kind ≡ FaultKind.Memory
        → (n : ℕ) × (text : List ℕ) × (first_frame link_body limit bytes.now ≡ Ok (n, text))) }
{
    read_message(alloc, bytes, limit)
}
