//! Whether two captures mean the same.

ghost use Rattle.std.specs.Prelude.{◌≡◌, ◌≤◌, ◌<◌, ◌↔◌, true, length, drop, cond, Some, IfOk, IfErr, OnOk};
ghost use Rattle.netlink_packet_core_grammar.specs.Attributes.{nla_align};
ghost use Rattle.netlink_packet_core.specs.Frames.{BeginsWithFrame, frame_length, frame_type, frame_body};
ghost use Rattle.link_capture_grammar.specs.Bodies.{is_link_type};
ghost use Rattle.link_capture_grammar.specs.Captures.{first_fault, texts, IsLegal};
ghost use Rattle.link_capture_grammar.specs.Laws.{LegalFrame};
ghost use Rattle.link_capture_grammar.specs.Same.{done_body, same_body, SameFrame, SameCapture};
ghost use Rattle.link_capture_checks.specs.Partings.{ReducesComparison, ComparisonStops};
ghost use Rattle.link_capture_checks.specs.Sides.{side_text};
ghost use Rattle.link_message_grammar.specs.Body.{link_body};

use crate::bodies::with_code;
use crate::capture::check;
use crate::frames::{frame_body, measure_frame};
use arrayvec::ArrayString;
use link_capture_grammar::fault::CaptureFault;
use link_capture_grammar::laws::{
    captures_are_counted, faults_are_at_frames, sameness_unfolds_by_frames,
    texts_determine_meanings,
};
use link_capture_grammar::link_types::{RTM_NEWLINK, RTM_SETLINK};
use link_message_checks::same as same_link;
use netlink_packet_core::{NETLINK_HEADER_LEN, NLMSG_DONE, NLMSG_NOOP, NetlinkBuffer, nla_align};
use std::fmt;

/// The first fault of two captures, and which of them has it.
#[derive(Clone, Copy, Debug, PartialEq, Eq, Drop)]
pub struct SideFault {
    /// Whether it is the fault of the second capture. The first one is then legal, unless it could
    /// not be read to its end.
    pub second: bool,
    pub fault: CaptureFault,
}

impl SideFault {
    /// Returns `first: ` or `second: `, followed by the text of the fault and its offset. Allocates
    /// nothing.
    pub fn text(self) -> ArrayString<128>
        ensures text { result.bytes ≡ side_text self }
        ensures fits { length result.bytes < 128 }
    {
        let mut text = ArrayString::new();
        text.push_str(if self.second { "second: " } else { "first: " });
        text.push_str(self.fault.text().as_str());
        text
    }
}

// Format options change nothing.
impl fmt::Display for SideFault {
    ghost output = { λ x. Some (side_text x) };

    ghost styled_output = { λ x _. Some (side_text x) };

    fn fmt<W: fmt::Write>(&self, f: &mut fmt::Formatter<W>) -> fmt::Result {
        f.write_str(self.text().as_str())
    }
}

// Returns the bytes after the first frame and its padding.
fn following(bytes: &[u8]) -> &[u8]
    requires { BeginsWithFrame bytes.now }
    ensures { result.now ≡ drop (nla_align (frame_length bytes.now)) bytes.now }
{
    let len = nla_align(NetlinkBuffer::new(bytes).length() as usize);
    &bytes[len.min(bytes.len())..]
}

// Returns whether two bodies of messages of a type mean the same.
fn same_body(message_type: u16, left: &[u8], right: &[u8]) -> bool
    requires left { is_link_type message_type ≡ true → 16 ≤ length left.now }
    requires right { is_link_type message_type ≡ true → 16 ≤ length right.now }
    ensures { result ≡ same_body link_body message_type left.now right.now }
{
    match message_type {
        NLMSG_NOOP => true,
        NLMSG_DONE => with_code(left) == with_code(right),
        RTM_NEWLINK..=RTM_SETLINK => same_link(left, right),
        _ => left == right,
    }
}

// Returns whether two legal frames mean the same.
fn same_frame(left: &[u8], right: &[u8], limit: u32) -> bool
    requires left { LegalFrame link_body limit left.now }
    requires right { LegalFrame link_body limit right.now }
    ensures { (result ≡ true) ↔ SameFrame link_body left.now right.now }
{
    let message_type = NetlinkBuffer::new(left).message_type();
    &left[4..NETLINK_HEADER_LEN] == &right[4..NETLINK_HEADER_LEN]
        && same_body(message_type, frame_body(left), frame_body(right))
}

// Returns whether the first frame of `right` is legal and means the same as the first frame of
// `left`, which is legal. A frame with equal bytes isn't judged again.
fn is_same_frame(left: &[u8], right: &[u8], limit: u32) -> bool
    requires { LegalFrame link_body limit left.now }
    ensures { (result ≡ true) ↔ (LegalFrame link_body limit right.now × SameFrame link_body left.now right.now) }
{
    sameness_unfolds_by_frames();
    let len = NetlinkBuffer::new(left).length() as usize;
    if right.len() >= len && &left[..len] == &right[..len] {
        return true;
    }
    match measure_frame(right, limit) {
        Ok(_) => same_frame(left, right, limit),
        Err(_) => false,
    }
}

// Passes the frames of `right` that are legal and mean the same as those of `left`, in pairs.
// Returns the rest of `left` after them, and the offset after them in `right`.
fn parting<'a>(left: &'a [u8], right: &[u8], limit: u32) -> (&'a [u8], usize)
    requires { IsLegal link_body limit left.now }
    ensures alike { ReducesComparison limit left.now right.now result.0.now result.1 }
    ensures parts { ComparisonStops limit result.0.now (drop result.1 right.now) }
{
    sameness_unfolds_by_frames();
    captures_are_counted();
    let mut rest = left;
    let mut at = 0;
    while !rest.is_empty() && at < right.len() {
        let other = &right[at..];
        if !is_same_frame(rest, other, limit) {
            return (rest, at);
        }
        at += nla_align(NetlinkBuffer::new(other).length() as usize);
        rest = following(rest);
    }
    (rest, at)
}

// Returns whether a capture means the same as a legal one, or fails with its first fault.
fn same_as(left: &[u8], right: &[u8], limit: u32) -> Result<bool, CaptureFault>
    requires { IsLegal link_body limit left.now }
    ensures legal { OnOk result (IsLegal link_body limit right.now) }
    ensures same { IfOk result
        (λ is_same. (is_same ≡ true) ↔ SameCapture link_body limit left.now right.now) }
    ensures fault { IfErr result (λ fault. first_fault link_body limit right.now ≡ Some fault) }
{
    sameness_unfolds_by_frames();
    faults_are_at_frames();
    let (rest, at) = parting(left, right, limit);
    if at >= right.len() {
        return Ok(rest.is_empty());
    }
    match check(&right[at..], limit) {
        Ok(()) => Ok(false),
        Err(CaptureFault { kind, offset }) => Err(CaptureFault {
            kind,
            offset: at as u64 + offset,
        }),
    }
}

/// Returns whether two legal captures mean the same: whether they have equally many frames, and in
/// pairs equal type, flags, sequence number and port number, and bodies that mean the same.
/// Allocates nothing, and builds no message.
///
/// The frames of the second capture are judged only from the first one on whose bytes differ from
/// those of the first capture's frame.
///
/// # Errors
///
/// The first fault of the first capture, or that of the second if the first is legal.
pub fn same(left: &[u8], right: &[u8], limit: u32) -> Result<bool, SideFault>
    ensures legal { OnOk result (IsLegal link_body limit left.now × IsLegal link_body limit right.now) }
    ensures same { IfOk result
        (λ is_same. (is_same ≡ true) ↔ SameCapture link_body limit left.now right.now) }
    ensures texts { IfOk result
        (λ is_same. (is_same ≡ true) ↔ (texts link_body limit left.now ≡ texts link_body limit right.now)) }
    ensures fault { IfErr result
        (λ e. first_fault link_body limit (cond e.second right.now left.now) ≡ Some e.fault) }
    ensures in_turn { IfErr result (λ e. e.second ≡ true → IsLegal link_body limit left.now) }
{
    texts_determine_meanings();
    if let Err(fault) = check(left, limit) {
        return Err(SideFault {
            second: false,
            fault,
        });
    }
    match same_as(left, right, limit) {
        Ok(is_same) => Ok(is_same),
        Err(fault) => Err(SideFault {
            second: true,
            fault,
        }),
    }
}
