//! The normal text of a whole capture.

ghost use Rattle.std.specs.Prelude.{◌≡◌, ◌≢◌, ◌≤◌, take, Some, IfErr, OnOk};
ghost use Rattle.link_capture_grammar.specs.Captures.{first_fault, IsLegal, ReachesFrameAt};
ghost use Rattle.link_capture_reader.specs.NormalTexts.{HasLawfulTexts};
ghost use Rattle.link_capture_reader.specs.Readers.{GainsTexts, IsFrameOffsetOf, LacksCapacityAt};
ghost use Rattle.link_capture_grammar.specs.Body.{link_body};

use super::frames::push_frames;
use link_capture_grammar::fault::{CaptureFault, FaultKind};
use link_capture_grammar::laws::{
    joined_captures_are_legal, joined_captures_have_joined_texts, texts_are_canonical,
    texts_are_legal, texts_are_small, texts_mean_the_same,
};

/// Appends the normal text of a capture to `out`.
///
/// `bytes` is any byte string, read as netlink messages of which each starts at a multiple of 4.
/// `limit` is the greatest length in bytes of a message, as read and as written.
///
/// # Errors
///
/// The first fault of the capture, with its offset; `out` has gained the texts of the messages
/// before it. `Memory` if `out` has to grow and an allocation fails: at a message before which the
/// capture is legal, whose texts `out` has gained.
pub fn normalize_bytes(bytes: &[u8], limit: u32, out: &mut Vec<u8>) -> Result<(), CaptureFault>
    requires { 16 ≤ limit }
    // It succeeds only on legal captures, and writes their normal text.
    ensures legal { OnOk result (IsLegal link_body limit bytes.now × GainsTexts limit bytes.now out.old out.new) }
    // Else it returns the first fault, unless memory ran out, and writes the texts before it.
    ensures fault { IfErr result
        (λ fault. fault.kind ≢ FaultKind.Memory → (first_fault link_body limit bytes.now ≡ Some fault)
        × GainsTexts limit bytes.now out.old out.new) }
    // A fault is inside the capture, at a multiple of 4.
    ensures offset { IfErr result (λ fault. IsFrameOffsetOf bytes.now fault.offset) }
    // The normal text is legal, canonical, equivalent, and at most 77 times as long.
    ensures text { HasLawfulTexts limit bytes.now }
    // If memory ran out, the bytes before the offset are legal, and their texts are written.
    ensures memory { IfErr result
        (λ fault. fault.kind ≡ FaultKind.Memory → ReachesFrameAt link_body limit bytes.now fault.offset
        × GainsTexts limit (take fault.offset bytes.now) out.old out.new) }
    // Memory runs out only for the text of an accepted frame, if `out` had less capacity than that
    // and the texts before it need.
    ensures capacity { IfErr result
        (λ fault. fault.kind ≡ FaultKind.Memory → LacksCapacityAt limit bytes.now fault.offset out.old) }
{
    texts_are_legal();
    texts_are_canonical();
    texts_mean_the_same();
    texts_are_small();
    joined_captures_are_legal();
    joined_captures_have_joined_texts();
    // Not by a `CaptureReader`, which would copy a cut frame.
    push_frames(bytes, limit, out)
}
