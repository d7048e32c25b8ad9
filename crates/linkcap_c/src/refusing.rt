//! What of a refused body is refused, for C.

ghost use Rattle.std.specs.Prelude.{◌≡◌, ◌≢◌, ◌+◌, ◌^◌, ◌<◌, ◌≤◌, ◌⊎◌, drop, length, None, Some};
ghost use Rattle.link_capture_grammar.specs.Captures.{first_fault};
ghost use Rattle.link_capture_refusals.specs.Refusals.{Found, refusal};
ghost use Rattle.link_capture_refusals.specs.RefusalTexts.{refusal_text};
ghost use Rattle.link_capture_refusals.specs.RefusalViews.{optional_found, found};
ghost use Rattle.linkcap_c.specs.Buffers.{Holds, Lacks};
ghost use Rattle.linkcap_c.specs.Findings.{offset_number};
ghost use Rattle.linkcap_c.specs.Options.{AreInvalid, AreValid, limit_of};
ghost use Rattle.linkcap_c.specs.Reasons.{refusal_in, refusal_of};
ghost use Rattle.link_capture_grammar.specs.Body.{link_body};

use crate::buffers::copy_text;
use crate::options::{LinkcapOptions, read_limit};
use crate::statuses::{NO_MEMORY, NONE, OK, WRONG};
use crate::writing::LinkcapPiece;
use link_capture_checks::check;
use link_capture_grammar::fault::{CaptureFault, FaultKind};
use link_capture_grammar::laws::faults_are_at_frames;
use link_capture_refusals::laws::refused_frames_are_whole;
use link_capture_refusals::{Refusal, why_frame};
use std::alloc::Global;

/// A piece of whose bodies reasons are given ends before this offset.
const END: u64 = 1 << 63;

/// The number for an offset: 2^64 - 1 if there is none.
fn number_of(offset: Option<u64>) -> u64
    ensures { result ≡ offset_number offset }
{
    match offset {
        Some(offset) => offset,
        None => u64::MAX,
    }
}

/// The bytes after the first `skipped`.
fn following(bytes: &[u8], skipped: u64) -> &[u8]
    requires { skipped ≤ length bytes.now }
    ensures { result.now ≡ drop skipped bytes.now }
{
    &bytes[skipped as usize..]
}

/// Why the first fault of bytes at an offset of a capture is a refused body, if it is one.
fn why_in(bytes: &[u8], offset: u64, limit: u32) -> Option<Refusal>
    requires { offset + length bytes.now < 2 ^ 63 }
    ensures { optional_found result ≡ refusal_in offset bytes.now (first_fault link_body limit bytes.now) }
{
    faults_are_at_frames();
    refused_frames_are_whole();
    let Err(CaptureFault { kind, offset: at }) = check(bytes, limit) else {
        return None;
    };
    match kind {
        FaultKind::Refused => why_frame(following(bytes, at), offset + at),
        _ => None,
    }
}

/// Writes a reason to the start of `out`.
fn write_reason(
    alloc: Global,
    reason: Refusal,
    out: &mut [u8],
    written: &mut u64,
    offset: &mut u64,
) -> u32
    ensures ok { result ≡ 0 → Holds (refusal_text (found reason)) written.new out.old out.new
        × (offset.new ≡ offset_number (found reason).offset) }
    ensures room { result ≡ 4 → Lacks (refusal_text (found reason)) written.new out.old }
    ensures kept { (result ≡ 4) ⊎ (result ≡ 5) → (out.new ≡ out.old) × (offset.new ≡ offset.old) }
    ensures kept_length { result ≡ 5 → written.new ≡ written.old }
    ensures status { (result ≡ 0) ⊎ ((4 ≤ result) × (result ≤ 5)) }
{
    let Ok(text) = reason.to_string(alloc) else {
        return NO_MEMORY;
    };
    let status = copy_text(text.as_bytes(), OK, out, written);
    if status == OK {
        *offset = number_of(reason.offset);
    }
    status
}

/// Writes the reason of a refused body to the start of `out`, if the piece's first fault is one: the names of
/// attributes from outside in, why, and the offset in the capture. If `out` is too small, it and `offset` are
/// unchanged, and `written` is the length that is needed; all three are unchanged if memory runs out. If the first
/// fault is another one or there is none, the length is 0, and there is no offset.
#[unsafe(no_mangle)]
pub extern "C" fn linkcap_why(
    alloc: Global,
    options: &LinkcapOptions<'_>,
    piece: &LinkcapPiece<'_>,
    out: &mut [u8],
    written: &mut u64,
    offset: &mut u64,
) -> u32
    ensures reason { result ≡ 0 → (why : Found) × (refusal_of (limit_of options.now) piece.now ≡ Some why)
        × Holds (refusal_text why) written.new out.old out.new × (offset.new ≡ offset_number why.offset) }
    ensures nothing { result ≡ 6 → (refusal_of (limit_of options.now) piece.now ≡ None)
        × (written.new ≡ 0) × (offset.new ≡ offset_number None) }
    ensures room { result ≡ 4 → (why : Found) × (refusal_of (limit_of options.now) piece.now ≡ Some why)
        × Lacks (refusal_text why) written.new out.old }
    ensures memory { result ≡ 5 → (why : Found) × (refusal_of (limit_of options.now) piece.now ≡ Some why) }
    ensures wrong { result ≡ 3 → AreInvalid options.now
        ⊎ ((piece.now.reserved ≢ 0) ⊎ (2 ^ 63 ≤ piece.now.offset + length piece.now.bytes.now)) }
    ensures valid { result ≢ 3 → AreValid options.now }
    ensures near { result ≢ 3 → (piece.now.reserved ≡ 0) × (piece.now.offset + length piece.now.bytes.now < 2 ^ 63) }
    ensures kept { (result ≡ 3) ⊎ (result ≡ 4) ⊎ (result ≡ 5) ⊎ (result ≡ 6) → out.new ≡ out.old }
    ensures offset { (result ≡ 3) ⊎ (result ≡ 4) ⊎ (result ≡ 5) → offset.new ≡ offset.old }
    ensures kept_length { (result ≡ 3) ⊎ (result ≡ 5) → written.new ≡ written.old }
    ensures status { (result ≡ 0) ⊎ ((3 ≤ result) × (result ≤ 6)) }
    // Of a whole capture it is the capture's refusal.
    ensures whole { piece.now.offset ≡ 0
        → refusal_of (limit_of options.now) piece.now ≡ refusal (limit_of options.now) piece.now.bytes.now }
{
    let Some(limit) = read_limit(options) else {
        return WRONG;
    };
    if piece.reserved != 0 || piece.offset >= END - piece.bytes.len() as u64 {
        return WRONG;
    }
    match why_in(piece.bytes, piece.offset, limit) {
        Some(reason) => write_reason(alloc, reason, out, written, offset),
        None => {
            *written = 0;
            *offset = number_of(None);
            NONE
        }
    }
}
