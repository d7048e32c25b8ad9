//! The first frame of some bytes.

ghost use Rattle.std.specs.Prelude.{◌≡◌, ◌≢◌, ◌≤◌, ◌<◌, ◌+◌, ◌^◌, ◌++◌, ℕ, List, true, length, take, drop};
ghost use Rattle.std.specs.Prelude.{is_ok, vec_capacity, IfOk, IfErr, OnErr, Ok, Err};
ghost use Rattle.netlink_packet_core_grammar.specs.Attributes.{nla_align};
ghost use Rattle.netlink_packet_core.specs.Numbers.{le4};
ghost use Rattle.netlink_packet_core.specs.Messages.{unpadded_text};
ghost use Rattle.netlink_packet_core.specs.Frames.{BeginsWithFrame, frame_length, frame_type, frame_body, frame_text};
ghost use Rattle.link_message_grammar.specs.Body.{link_peer, link_body};
ghost use Rattle.link_message_checks.specs.Prefixes.{IsBodyPrefix};
ghost use Rattle.link_capture_grammar.specs.Bodies.{body_text};
ghost use Rattle.link_capture_grammar.specs.Captures.{IsOfFrames, Judged, first_frame, checked_header};
ghost use Rattle.link_capture_checks.specs.Measures.{IsMeasuredFrame, LacksCapacity, text_or_empty};

use crate::bodies::{measure_body, write_frame_body};
use crate::texts::{MeasuredBody, MeasuredFrame};
use link_capture_grammar::fault::FaultKind;
use link_capture_grammar::laws::frames_are_judged;
use link_interpreter::{append, append_padding};
use netlink_packet_core::{NETLINK_HEADER_LEN, NetlinkBuffer, nla_align};

/// Judges the header of the first frame, and returns the frame's length.
///
/// # Errors
///
/// The fault of the header: `Cut`, `ShortLength` or `OverLimit`.
pub fn frame_len(bytes: &[u8], limit: u32) -> Result<usize, FaultKind>
    ensures ok { IfOk result (λ n. (n ≡ frame_length bytes.now) × (n ≤ limit) × BeginsWithFrame bytes.now) }
    ensures err { IfErr result
        (λ kind. (judged : Judged) → checked_header limit (length bytes.now) (frame_length bytes.now) judged
        ≡ Err kind) }
    ensures of_frames { IfErr result (λ kind. IsOfFrames kind) }
{
    if bytes.len() < NETLINK_HEADER_LEN {
        return Err(FaultKind::Cut);
    }
    let size = NetlinkBuffer::new(bytes).length();
    if (size as usize) < NETLINK_HEADER_LEN {
        return Err(FaultKind::ShortLength);
    }
    if size > limit {
        return Err(FaultKind::OverLimit);
    }
    if size as usize > bytes.len() {
        return Err(FaultKind::Cut);
    }
    Ok(size as usize)
}

/// Returns the body of the first frame.
pub fn frame_body(bytes: &[u8]) -> &[u8]
    requires { BeginsWithFrame bytes.now }
    ensures { result.now ≡ frame_body bytes.now }
{
    &bytes[NETLINK_HEADER_LEN..NetlinkBuffer::new(bytes).length() as usize]
}

/// Judges the first frame, and returns the measure of its text. Allocates nothing.
///
/// # Errors
///
/// The fault of the frame.
#[inline(always)]
pub fn measure_frame(bytes: &[u8], limit: u32) -> Result<MeasuredFrame, FaultKind>
    ensures ok { IfOk result (λ m. IsMeasuredFrame limit bytes.now m) }
    ensures bounds { IfOk result (λ m. (16 ≤ m.len) × (m.len ≤ length bytes.now)) }
    ensures err { IfErr result (λ kind. first_frame link_body limit bytes.now ≡ Err kind) }
    ensures of_frames { IfErr result (λ kind. IsOfFrames kind) }
{
    frames_are_judged();
    let len = frame_len(bytes, limit)?;
    let message_type = NetlinkBuffer::new(bytes).message_type();
    let MeasuredBody {
        len: body_len,
        attributes,
        is_canonical,
        canonical_prefix,
    } = measure_body(message_type, frame_body(bytes))?;
    if body_len > (limit as usize - NETLINK_HEADER_LEN) as u128 {
        return Err(FaultKind::TextOverLimit);
    }
    let size = NETLINK_HEADER_LEN + body_len as usize;
    Ok(MeasuredFrame {
        len,
        size,
        text_len: nla_align(size),
        attributes,
        is_canonical,
        canonical_prefix,
    })
}

// Returns the header at the start of `bytes`, with this length in it.
fn header_with(size: u32, bytes: &[u8]) -> [u8; NETLINK_HEADER_LEN]
    requires { 16 ≤ length bytes.now }
    ensures { result ≡ le4 size ++ take 12 (drop 4 bytes.now) }
{
    let mut header = [0u8; NETLINK_HEADER_LEN];
    header.copy_from_slice(&bytes[..NETLINK_HEADER_LEN]);
    header[..4].copy_from_slice(&size.to_le_bytes());
    header
}

// Appends the text of the first frame, whose body has one, with this size in its header, without
// the padding. If the body is canonical, the frame is already canonical too. `out` must have
// capacity for the text.
fn write_unpadded(
    bytes: &[u8],
    size: u32,
    is_canonical: bool,
    canonical_prefix: usize,
    out: &mut Vec<u8>,
)
    requires frame { BeginsWithFrame bytes.now }
    requires text { is_ok (body_text link_body (frame_type bytes.now) (frame_body bytes.now)) ≡ true }
    requires canonical { is_canonical ≡ true
        → body_text link_body (frame_type bytes.now) (frame_body bytes.now) ≡ Ok (frame_body bytes.now) }
    requires canonical_prefix { IsBodyPrefix link_peer (frame_body bytes.now) canonical_prefix }
    requires size { size
        ≡ 16 + length (text_or_empty (body_text link_body (frame_type bytes.now) (frame_body bytes.now))) }
    requires capacity { length out.old.items + size ≤ vec_capacity out.old }
    ensures text { out.new.items ≡ out.old.items
        ++ unpadded_text bytes.now (text_or_empty (body_text link_body (frame_type bytes.now) (frame_body bytes.now))) }
    ensures capacity { vec_capacity out.old ≤ vec_capacity out.new }
{
    if is_canonical {
        return append(&bytes[..size as usize], out);
    }
    append(&header_with(size, bytes), out);
    let message_type = NetlinkBuffer::new(bytes).message_type();
    write_frame_body(message_type, frame_body(bytes), canonical_prefix, out);
}

/// Judges the first frame, appends its text to `out`, and returns its length.
///
/// # Errors
///
/// The fault of the frame, or `Memory` if an allocation fails, which happens only for an accepted
/// frame for whose text `out` lacked capacity; `out` is unchanged. All capacity for a text is
/// allocated at once.
pub fn push_frame(bytes: &[u8], limit: u32, out: &mut Vec<u8>) -> Result<usize, FaultKind>
    ensures ok { IfOk result
        (λ n. (text : List ℕ) × (first_frame link_body limit bytes.now ≡ Ok (n, text))
        × (out.new.items ≡ out.old.items ++ text)) }
    ensures bounds { IfOk result (λ n. (16 ≤ n) × (n ≤ limit) × (n ≤ length bytes.now)) }
    ensures refused { IfErr result
        (λ kind. kind ≢ FaultKind.Memory → first_frame link_body limit bytes.now ≡ Err kind) }
    ensures err { OnErr result (out.new.items ≡ out.old.items) }
    ensures memory { IfErr result
        (λ kind. kind ≡ FaultKind.Memory → LacksCapacity limit bytes.now out.old) }
    ensures capacity { vec_capacity out.old ≤ vec_capacity out.new }
{
    let MeasuredFrame {
        len,
        size,
        text_len,
        is_canonical,
        canonical_prefix,
        ..
    } = measure_frame(bytes, limit)?;
    let Ok(()) = out.reserve(text_len) else {
        return Err(FaultKind::Memory);
    };
    write_unpadded(bytes, size as u32, is_canonical, canonical_prefix, out);
    append_padding(size, out);
    Ok(len)
}
