//! The lines of messages.

ghost use Rattle.std.specs.Prelude.{◌≡◌, ◌<◌, ◌≤◌, ◌+◌, ◌^◌, ◌++◌, true, false, length};
ghost use Rattle.std.specs.Prelude.{drop, take, decimal, OnOk, IfSome, IfNone};
ghost use Rattle.link_lines_values.specs.Appends.{Appends};
ghost use Rattle.link_lines_texts.specs.AppendsWith.{AppendsWith};
ghost use Rattle.netlink_packet_core_grammar.specs.Attributes.{nla_align};
ghost use Rattle.netlink_packet_core.specs.Frames.{frame_length};
ghost use Rattle.link_lines_values.specs.Bytes.{is_zero};
ghost use Rattle.link_lines_values.specs.Names.{text_in};
ghost use Rattle.link_lines_values.specs.NumberTexts.{number_texts};
ghost use Rattle.link_lines_texts.specs.Frames.{type_text, flag_names, has_text, request_flag_names, message_types, numbers_text};
ghost use Rattle.link_lines_texts.specs.Frames.{has_request_flag, header_line, request_line};
ghost use Rattle.link_lines_parts.specs.BytesLines.{bytes_line};
ghost use Rattle.link_lines_texts.specs.Frames.{link_lines, after_code, code_lines, code_rest, has_attributes, is_capped};
ghost use Rattle.link_lines_texts.specs.Frames.{is_followed, request_rest, rest_lines};
ghost use Rattle.link_lines_texts.specs.Frames.{body_lines, frame_lines, in_message, is_property_type};
ghost use Rattle.link_lines_texts.specs.Frames.{other_lines, property_lines};

use crate::attributes::{ListTable, push_list};
use crate::canonical_peers::is_canonical_peer;
use crate::format::Scope;
use crate::links::{push_labelled_decimal, push_labelled_flags, push_link_header};
use link_capture_grammar::link_types::{RTM_NEWLINK, RTM_SETLINK};
use link_lines_parts::push_bytes_line;
use link_lines_raw::{is_acknowledgement, push_acknowledgement, push_body as push_raw_body};
use link_lines_values::{
    ERROR, MESSAGE_ACK_FLAGS, MESSAGE_CREATE_FLAGS, MESSAGE_DELETE_FLAGS, MESSAGE_FLAGS,
    MESSAGE_GET_FLAGS, MESSAGE_TYPE, Numbers, ShownBy, find_text, is_zero, push_decimal,
    push_value,
};
use link_tables::{LINK_HEADER_LEN, family_table};
use netlink_packet_core::{
    CODE_LEN, NETLINK_HEADER_LEN, NLM_F_ACK_TLVS, NLM_F_CAPPED, NLM_F_REQUEST, NLMSG_DONE,
    NLMSG_ERROR, NetlinkBuffer, nla_align,
};
use std::alloc::AllocError;

/// The first type of messages about a link's properties (rtnetlink.h), of which there are three.
const RTM_NEWLINKPROP: u16 = 108;

/// The last type of messages about a link's properties.
const RTM_GETLINKPROP: u16 = 110;

/// Returns the name of a message type; empty if it has none.
fn type_name(message_type: u16) -> &'static [u8]
    ensures { result.now ≡ text_in message_types message_type }
{
    find_text(MESSAGE_TYPE.texts(), message_type as u64)
}

/// Returns the names of the flags of requests of a type, by what they ask for (rtnetlink.h:
/// RTM_NEW*, RTM_DEL*, RTM_GET*, RTM_SET*).
#[tactic(auto, unfolding(crate::specs::Frames::request_flag_names))]
fn request_flag_names(message_type: u16) -> Numbers
    ensures { number_texts result ≡ request_flag_names message_type }
{
    match message_type % 4 {
        1 => MESSAGE_DELETE_FLAGS,
        2 => MESSAGE_GET_FLAGS,
        _ => MESSAGE_CREATE_FLAGS,
    }
}

/// Returns the names of the flags that messages of a type have.
#[tactic(auto, unfolding(crate::specs::Frames::flag_names))]
fn flag_names(message_type: u16) -> Numbers
    ensures { number_texts result ≡ flag_names message_type }
{
    if message_type == NLMSG_ERROR || message_type == NLMSG_DONE {
        MESSAGE_ACK_FLAGS
    } else if message_type >= RTM_NEWLINK && !type_name(message_type).is_empty() {
        request_flag_names(message_type)
    } else {
        MESSAGE_FLAGS
    }
}

/// Appends the name of a message type, or `type` and its number if it has no name.
#[tactic(auto, unfolding(crate::specs::Frames::type_text))]
fn push_type(message_type: u16, out: &mut Vec<u8>) -> Result<(), AllocError>
    ensures { Appends out.old out.new result (type_text message_type) }
{
    let name = type_name(message_type);
    if !name.is_empty() {
        return out.extend_from_slice(name);
    }
    out.extend_from_slice(b"type ")?;
    push_decimal(message_type as u64, out)
}

/// Appends the sequence number and the netlink port ID of a message if `numbers` is true.
fn push_numbers(numbers: bool, frame: &[u8], out: &mut Vec<u8>) -> Result<(), AllocError>
    requires { 16 ≤ length frame.now }
    ensures { Appends out.old out.new result (numbers_text numbers frame.now) }
{
    if !numbers {
        return Ok(());
    }
    let header = NetlinkBuffer::new(frame);
    push_labelled_decimal(b" seq ", header.sequence_number(), out)?;
    push_labelled_decimal(b" port ", header.port_number(), out)
}

/// Appends the line of a message's header (netlink.h, `struct nlmsghdr`).
#[tactic(auto, unfolding(crate::specs::Frames::header_line))]
fn push_header(numbers: bool, frame: &[u8], out: &mut Vec<u8>) -> Result<(), AllocError>
    requires { 16 ≤ length frame.now }
    ensures { Appends out.old out.new result (header_line numbers frame.now) }
{
    let header = NetlinkBuffer::new(frame);
    let message_type = header.message_type();
    push_type(message_type, out)?;
    push_labelled_flags(
        b" flags ",
        flag_names(message_type),
        header.flags() as u32,
        out,
    )?;
    push_numbers(numbers, frame, out)?;
    out.extend_from_slice(b"\n")
}

/// Appends the line of the header of the request that an NLMSG_ERROR is about.
#[tactic(auto, unfolding(crate::specs::Frames::request_line))]
fn push_request(numbers: bool, header: &[u8], out: &mut Vec<u8>) -> Result<(), AllocError>
    requires { 16 ≤ length header.now }
    ensures { Appends out.old out.new result (request_line numbers header.now) }
{
    push_labelled_decimal(
        b"  request length ",
        NetlinkBuffer::new(header).length(),
        out,
    )?;
    out.extend_from_slice(b" ")?;
    push_header(numbers, header, out)
}

/// Appends the lines of the body of a link message, or of a peer.
#[tactic(auto, unfolding(crate::specs::Frames::link_lines))]
fn push_link(scope: Scope, body: &[u8], out: &mut Vec<u8>) -> Result<(), AllocError>
    ensures { AppendsWith (length body.now) out.old out.new result (link_lines scope body.now) }
{
    if body.len() < LINK_HEADER_LEN {
        return push_bytes_line(b"body", body, out);
    }
    push_link_header(1, body, out)?;
    let list_table = ListTable {
        table: family_table(body[0]),
        scope,
    };
    push_list(1, list_table, &body[LINK_HEADER_LEN..], out)
}

/// Appends the lines of the body of a message about a link's properties: those of a link if the body
/// is a canonical peer, or else its bytes. Peers inside it are shown as inside a peer.
#[tactic(auto, unfolding(crate::specs::Frames::property_lines))]
fn push_properties(is_request: bool, body: &[u8], out: &mut Vec<u8>) -> Result<(), AllocError>
    ensures { AppendsWith (length body.now) out.old out.new result (property_lines is_request body.now) }
{
    if !is_canonical_peer(body, out)? {
        return push_bytes_line(b"body", body, out);
    }
    let scope = Scope {
        is_in_peer: true,
        is_request,
    };
    push_link(scope, body, out)
}

/// Returns whether flags say that the attributes of an extended acknowledgement follow.
fn has_attributes(flags: u16) -> bool
    ensures { result ≡ has_attributes flags }
{
    flags & NLM_F_ACK_TLVS != 0
}

/// Returns whether flags say that only the header of the request is repeated.
fn is_capped(flags: u16) -> bool
    ensures { result ≡ is_capped flags }
{
    flags & NLM_F_CAPPED != 0
}

/// Returns the number of bytes between the header of a request of this length and the padding before
/// the attributes, if there are attributes.
fn request_rest(flags: u16, size: u32) -> Option<usize>
    ensures { result ≡ request_rest flags size }
{
    let size = size as usize;
    if !has_attributes(flags) {
        None
    } else if is_capped(flags) {
        Some(0)
    } else if size >= NETLINK_HEADER_LEN {
        Some(size - NETLINK_HEADER_LEN)
    } else {
        None
    }
}

/// Returns the number of bytes between a code without a request and the attributes, if there are
/// attributes.
fn code_rest(message_type: u16, flags: u16) -> Option<usize>
    ensures { result ≡ code_rest message_type flags }
{
    if message_type == NLMSG_DONE && has_attributes(flags) {
        Some(0)
    } else {
        None
    }
}

/// Returns whether the bytes from one offset up to another are zero.
#[tactic(auto, using(link_lines_parts::proofs::WholeLists::cut_part))]
fn are_zeros(start: usize, end: usize, bytes: &[u8]) -> bool
    requires order { start ≤ end }
    requires within { end ≤ length bytes.now }
    ensures { result ≡ is_zero (drop start (take end bytes.now)) }
{
    is_zero(&bytes[start..end])
}

/// Returns whether the first `size` bytes are followed by zeros up to a multiple of 4, and then by
/// attributes up to the end.
fn is_followed(size: usize, rest: &[u8]) -> bool
    ensures { result ≡ is_followed size rest.now }
{
    if size > rest.len() {
        return false;
    }
    let end = nla_align(size);
    end <= rest.len() && are_zeros(size, end, rest) && is_acknowledgement(&rest[end..])
}

/// Appends the remaining bytes of a message with a code, and the attributes after them, which there
/// may be after `size` bytes.
#[tactic(auto, unfolding(crate::specs::Frames::rest_lines))]
fn push_rest(size: Option<usize>, rest: &[u8], out: &mut Vec<u8>) -> Result<(), AllocError>
    ensures { Appends out.old out.new result (rest_lines size rest.now) }
{
    match size {
        Some(size) if is_followed(size, rest) => {
            push_bytes_line(b"rest", &rest[..size], out)?;
            push_acknowledgement(&rest[nla_align(size)..], out)
        }
        _ => push_bytes_line(b"rest", rest, out),
    }
}

/// Appends the lines for what follows the code of an NLMSG_ERROR or NLMSG_DONE.
#[tactic(auto, unfolding(crate::specs::Frames::after_code))]
fn push_after_code(
    numbers: bool,
    message_type: u16,
    flags: u16,
    rest: &[u8],
    out: &mut Vec<u8>,
) -> Result<(), AllocError>
    ensures { Appends out.old out.new result (after_code numbers message_type flags rest.now) }
{
    if message_type == NLMSG_ERROR && rest.len() >= NETLINK_HEADER_LEN {
        push_request(numbers, rest, out)?;
        let size = request_rest(flags, NetlinkBuffer::new(rest).length());
        return push_rest(size, &rest[NETLINK_HEADER_LEN..], out);
    }
    push_rest(code_rest(message_type, flags), rest, out)
}

/// Appends the lines of the body of an NLMSG_ERROR or NLMSG_DONE: its code with the name of the
/// error, and what follows it.
#[tactic(auto, unfolding(crate::specs::Frames::code_lines))]
fn push_code(
    numbers: bool,
    message_type: u16,
    flags: u16,
    body: &[u8],
    out: &mut Vec<u8>,
) -> Result<(), AllocError>
    ensures { Appends out.old out.new result (code_lines numbers message_type flags body.now) }
{
    if body.len() < CODE_LEN {
        return push_bytes_line(b"body", body, out);
    }
    let (code, rest) = body.split_at(CODE_LEN);
    out.extend_from_slice(b"  code")?;
    push_value(ShownBy::Signed(ERROR), code, out)?;
    out.extend_from_slice(b"\n")?;
    push_after_code(numbers, message_type, flags, rest, out)
}

/// Returns whether a message type is one of those about a link's properties.
fn is_property_type(message_type: u16) -> bool
    ensures { result ≡ is_property_type message_type }
{
    RTM_NEWLINKPROP <= message_type && message_type <= RTM_GETLINKPROP
}

/// Appends the lines of the body of a message other than a link: as a link's if it is about the
/// properties of one, else by the row of its type, or else its bytes.
#[tactic(auto, unfolding(crate::specs::Frames::other_lines))]
fn push_other(
    message_type: u16,
    is_request: bool,
    body: &[u8],
    out: &mut Vec<u8>,
) -> Result<(), AllocError>
    ensures { AppendsWith (length body.now) out.old out.new result (other_lines message_type is_request body.now) }
{
    if is_property_type(message_type) {
        return push_properties(is_request, body, out);
    }
    if push_raw_body(message_type, is_request, body, out)? {
        return Ok(());
    }
    push_bytes_line(b"body", body, out)
}

/// Returns what the attributes of a link message are in.
fn in_message(is_request: bool) -> Scope
    ensures { result ≡ in_message is_request }
{
    Scope {
        is_in_peer: false,
        is_request,
    }
}

/// Returns whether flags are those of a request.
#[tactic(auto, unfolding(crate::specs::Frames::has_request_flag))]
fn has_request_flag(flags: u16) -> bool
    ensures { result ≡ has_request_flag flags }
{
    flags & NLM_F_REQUEST != 0
}

/// Appends the lines of a message's body, by the message's type and flags.
#[tactic(auto, unfolding(crate::specs::Frames::body_lines))]
fn push_body(
    numbers: bool,
    message_type: u16,
    flags: u16,
    body: &[u8],
    out: &mut Vec<u8>,
) -> Result<(), AllocError>
    ensures { AppendsWith (length body.now) out.old out.new result (body_lines numbers message_type flags body.now) }
{
    match message_type {
        NLMSG_ERROR | NLMSG_DONE => push_code(numbers, message_type, flags, body, out),
        RTM_NEWLINK..=RTM_SETLINK => push_link(in_message(has_request_flag(flags)), body, out),
        _ => push_other(message_type, has_request_flag(flags), body, out),
    }
}

/// Appends the lines of a frame, given by its bytes without the padding. Its sequence number and
/// netlink port ID, and those of the request's header that an NLMSG_ERROR repeats, are shown only
/// if `numbers` is true.
///
/// # Errors
///
/// `AllocError` if `out` lacked capacity for the lines and as many bytes as the frame has, and can't
/// grow; what it held stays, and a part of the lines may follow.
#[tactic(auto, unfolding(crate::specs::Frames::frame_lines))]
pub fn push_frame(frame: &[u8], numbers: bool, out: &mut Vec<u8>) -> Result<(), AllocError>
    requires { 16 ≤ length frame.now }
    ensures { AppendsWith (length frame.now) out.old out.new result (frame_lines numbers frame.now) }
{
    push_header(numbers, frame, out)?;
    let header = NetlinkBuffer::new(frame);
    push_body(
        numbers,
        header.message_type(),
        header.flags(),
        &frame[NETLINK_HEADER_LEN..],
        out,
    )
}
