//! Whole captures.

ghost use Rattle.std.specs.Prelude.{◌≡◌, IfOk, IfErr, None, Some, length};
ghost use Rattle.link_capture_grammar.specs.Captures.{first_fault, texts, IsLegal};
ghost use Rattle.link_capture_checks.specs.Measures.{IsMeasure};
ghost use Rattle.link_message_grammar.specs.Body.{link_body};

use crate::frames::measure_frame;
use crate::texts::Measure;
use link_capture_grammar::fault::CaptureFault;
use link_capture_grammar::laws::{
    captures_are_counted, captures_unfold_by_frames, texts_are_small,
};
use netlink_packet_core::nla_align;

/// Returns the numbers of frames, attributes and bytes of text of a legal capture. `limit` is the
/// greatest length in bytes of a frame and of its text. Allocates nothing.
///
/// # Errors
///
/// The first fault of the capture, with its offset.
pub fn measure(bytes: &[u8], limit: u32) -> Result<Measure, CaptureFault>
    ensures legal { IfOk result (λ m. IsLegal link_body limit bytes.now) }
    ensures numbers { IfOk result (λ m. IsMeasure limit bytes.now m) }
    ensures fault { IfErr result (λ fault. first_fault link_body limit bytes.now ≡ Some fault) }
{
    captures_are_counted();
    captures_unfold_by_frames();
    texts_are_small();
    let mut measure = Measure {
        frames: 0,
        attributes: 0,
        text_len: 0,
    };
    let mut at = 0usize;
    while at < bytes.len() {
        match measure_frame(&bytes[at..], limit) {
            Ok(frame) => {
                at += nla_align(frame.len);
                measure.frames += 1;
                measure.attributes += frame.attributes;
                measure.text_len += frame.text_len as u128;
            }
            Err(kind) => {
                return Err(CaptureFault {
                    kind,
                    offset: at as u64,
                });
            }
        }
    }
    Ok(measure)
}

/// Returns Ok if a capture is legal under a limit. Allocates nothing.
///
/// # Errors
///
/// The first fault of the capture, with its offset.
pub fn check(bytes: &[u8], limit: u32) -> Result<(), CaptureFault>
    ensures legal { IfOk result (λ _. IsLegal link_body limit bytes.now) }
    ensures fault { IfErr result (λ fault. first_fault link_body limit bytes.now ≡ Some fault) }
{
    measure(bytes, limit)?;
    Ok(())
}

/// Returns the length in bytes of a legal capture's normal text. Allocates nothing.
///
/// # Errors
///
/// The first fault of the capture, with its offset.
pub fn normal_len(bytes: &[u8], limit: u32) -> Result<u128, CaptureFault>
    ensures legal { IfOk result (λ _. IsLegal link_body limit bytes.now) }
    ensures len { IfOk result (λ n. n ≡ length (texts link_body limit bytes.now)) }
    ensures fault { IfErr result (λ fault. first_fault link_body limit bytes.now ≡ Some fault) }
{
    Ok(measure(bytes, limit)?.text_len)
}
