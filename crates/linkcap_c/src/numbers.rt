//! Legal captures compared without their sequence numbers and netlink port IDs, which change from run to run.

ghost use Rattle.std.specs.Prelude.{◌≡◌, ◌≤◌, ◌↔◌, true, length, drop, bytes_eq};
ghost use Rattle.netlink_packet_core_grammar.specs.Attributes.{nla_align};
ghost use Rattle.netlink_packet_core.specs.Frames.{BeginsWithFrame, frame_length};
ghost use Rattle.link_capture_grammar.specs.Bodies.{is_link_type};
ghost use Rattle.link_capture_grammar.specs.Captures.{IsLegal};
ghost use Rattle.link_capture_grammar.specs.Laws.{LegalFrame};
ghost use Rattle.link_capture_grammar.specs.Same.{done_body, same_body, SameFrame};
ghost use Rattle.link_capture_numbers.specs.Cleared.{numbers_cleared};
ghost use Rattle.linkcap_c.specs.Apart.{body_without_numbers, error_cleared, SameButNumbers};
ghost use Rattle.link_capture_grammar.specs.Body.{link_body};

use link_capture_checks::frame_body;
use link_capture_grammar::laws::sameness_unfolds_by_frames;
use link_capture_grammar::link_types::{RTM_NEWLINK, RTM_SETLINK};
use link_capture_numbers::laws::cleared_captures_have_cleared_texts;
use link_message_checks::same as same_link;
use netlink_packet_core::{
    NETLINK_HEADER_LEN, NLMSG_DONE, NLMSG_ERROR, NLMSG_NOOP, NetlinkBuffer, nla_align,
};

/// The body of a DONE message without a code.
const NO_CODE: [u8; 4] = [0; 4];

/// The least body of an NLMSG_ERROR that repeats a request's header, whose numbers are its bytes 12 to 20.
const REPEATED_LEN: usize = 20;

/// The body of a DONE message, with the code 0 if it has none.
fn with_code(body: &[u8]) -> &[u8]
    ensures { result.now ≡ done_body body.now }
{
    if body.is_empty() { &NO_CODE } else { body }
}

/// Whether two bodies of NLMSG_ERROR are equal but for the numbers of the headers that they repeat.
fn same_error(left: &[u8], right: &[u8]) -> bool
    ensures { result ≡ bytes_eq (error_cleared left.now) (error_cleared right.now) }
{
    if left.len() != right.len() || left.len() < REPEATED_LEN {
        return left == right;
    }
    &left[..12] == &right[..12] && &left[REPEATED_LEN..] == &right[REPEATED_LEN..]
}

/// Whether two bodies of messages of a type mean the same but for such numbers.
fn same_body(message_type: u16, left: &[u8], right: &[u8]) -> bool
    requires left { is_link_type message_type ≡ true → 16 ≤ length left.now }
    requires right { is_link_type message_type ≡ true → 16 ≤ length right.now }
    ensures { result ≡ same_body link_body message_type (body_without_numbers message_type left.now)
        (body_without_numbers message_type right.now) }
{
    match message_type {
        NLMSG_NOOP => true,
        NLMSG_ERROR => same_error(left, right),
        NLMSG_DONE => with_code(left) == with_code(right),
        RTM_NEWLINK..=RTM_SETLINK => same_link(left, right),
        _ => left == right,
    }
}

/// Whether two legal frames mean the same but for these numbers.
fn same_frame(left: &[u8], right: &[u8], limit: u32) -> bool
    requires left { LegalFrame link_body limit left.now }
    requires right { LegalFrame link_body limit right.now }
    ensures { (result ≡ true) ↔ SameFrame link_body (numbers_cleared left.now) (numbers_cleared right.now) }
{
    let message_type = NetlinkBuffer::new(left).message_type();
    &left[4..8] == &right[4..8] && same_body(message_type, frame_body(left), frame_body(right))
}

/// The bytes after the first frame and its padding.
fn rest_after_frame(bytes: &[u8]) -> &[u8]
    requires { BeginsWithFrame bytes.now }
    ensures { result.now ≡ drop (nla_align (frame_length bytes.now)) bytes.now }
{
    let len = nla_align(NetlinkBuffer::new(bytes).length() as usize);
    &bytes[len.min(bytes.len())..]
}

/// Whether two legal captures mean the same after zeroing their sequence numbers and netlink port IDs. Allocates
/// nothing.
pub(crate) fn same_but_numbers(left: &[u8], right: &[u8], limit: u32) -> bool
    requires left { IsLegal link_body limit left.now }
    requires right { IsLegal link_body limit right.now }
    ensures { (result ≡ true) ↔ SameButNumbers limit left.now right.now }
{
    cleared_captures_have_cleared_texts();
    sameness_unfolds_by_frames();
    let mut left = left;
    let mut right = right;
    'frames: while !left.is_empty() {
        if right.is_empty() || !same_frame(left, right, limit) {
            return false;
        }
        left = rest_after_frame(left);
        right = rest_after_frame(right);
    }
    right.is_empty()
}
