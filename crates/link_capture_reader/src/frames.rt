//! The frames of bytes, one after the other.

ghost use Rattle.std.specs.Prelude.{◌≡◌, ◌≢◌, ◌+◌, ◌≤◌, ◌<◌, length, take, Some, IfErr, OnOk};
ghost use Rattle.link_capture_grammar.specs.Captures.{first_fault, IsLegal, ReachesFrameAt};
ghost use Rattle.link_capture_reader.specs.Readers.{GainsTexts, IsFrameOffsetOf, LacksCapacityAt};
ghost use Rattle.link_capture_grammar.specs.Body.{link_body};

use link_capture_checks::push_frame;
use link_capture_grammar::fault::{CaptureFault, FaultKind};
use link_capture_grammar::laws::{captures_unfold_by_frames, frames_are_independent};
use netlink_packet_core::nla_align;

/// Appends the texts of these bytes to `out`. Fails with their first fault if they aren't legal,
/// where a cut frame is a fault, or with `Memory` at a frame if an allocation fails.
pub(crate) fn push_frames(bytes: &[u8], limit: u32, out: &mut Vec<u8>) -> Result<(), CaptureFault>
    requires { 16 ≤ limit }
    ensures legal { OnOk result (IsLegal link_body limit bytes.now × GainsTexts limit bytes.now out.old out.new) }
    ensures fault { IfErr result
        (λ fault. fault.kind ≢ FaultKind.Memory → (first_fault link_body limit bytes.now ≡ Some fault)
        × GainsTexts limit bytes.now out.old out.new) }
    ensures offset { IfErr result (λ fault. IsFrameOffsetOf bytes.now fault.offset) }
    ensures memory { IfErr result
        (λ fault. fault.kind ≡ FaultKind.Memory → ReachesFrameAt link_body limit bytes.now fault.offset
        × GainsTexts limit (take fault.offset bytes.now) out.old out.new) }
    ensures capacity { IfErr result
        (λ fault. fault.kind ≡ FaultKind.Memory → LacksCapacityAt limit bytes.now fault.offset out.old) }
{
    captures_unfold_by_frames();
    frames_are_independent();
    let mut at = 0usize;
    while at < bytes.len() {
        match push_frame(&bytes[at..], limit, out) {
            Ok(length) => {
                let size = nla_align(length);
                if size >= bytes.len() - at {
                    return Ok(());
                }
                at += size;
            }
            Err(kind) => {
                return Err(CaptureFault {
                    kind,
                    offset: at as u64,
                });
            }
        }
    }
    Ok(())
}
