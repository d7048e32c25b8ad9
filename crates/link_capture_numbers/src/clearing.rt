//! Clears the sequence numbers and netlink port IDs of messages.

ghost use Rattle.std.specs.Prelude.{◌≡◌, ◌+◌, ◌≤◌, length};
ghost use Rattle.netlink_packet_core_grammar.specs.Frames.{frame_length};
ghost use Rattle.link_capture_numbers.specs.Cleared.{zeros_at, repeats_request, first_frame_cleared, numbers_cleared};

use super::laws::numbers_are_cleared_by_frames;
use netlink_packet_core::{NLMSG_ERROR, NetlinkBuffer, first_frame_len, nla_align};

/// The offset of the sequence number in a message; the port number follows. Both have 4 bytes.
const NUMBERS: usize = 8;

/// The offset of the numbers in the request's header that an NLMSG_ERROR repeats after its own
/// header and a code.
const REQUEST_NUMBERS: usize = 28;

/// The least length of an NLMSG_ERROR that repeats a request's header.
const ERROR_WITH_HEADER_LEN: usize = 36;

/// Writes zeros over the 8 bytes at `offset`.
fn clear_at(bytes: &mut [u8], offset: usize)
    requires { offset + 8 ≤ length bytes.old }
    ensures { bytes.new ≡ zeros_at offset bytes.old }
{
    bytes[offset..offset + 8].copy_from_slice(&[0; 8]);
}

/// Returns whether the first frame, of this length, is an NLMSG_ERROR that repeats a request's
/// header.
fn repeats(bytes: &[u8], size: usize) -> bool
    requires header { 16 ≤ length bytes.now }
    requires size { size ≡ frame_length bytes.now }
    ensures { result ≡ repeats_request bytes.now }
{
    NetlinkBuffer::new(bytes).message_type() == NLMSG_ERROR && size >= ERROR_WITH_HEADER_LEN
}

/// Writes zeros over the numbers of the first frame, of this length.
fn clear_first_frame(bytes: &mut [u8], size: usize)
    requires low { 16 ≤ size }
    requires whole { size ≤ length bytes.old }
    requires size { size ≡ frame_length bytes.old }
    ensures { bytes.new ≡ first_frame_cleared bytes.old }
{
    let has_request = repeats(bytes, size);
    clear_at(bytes, NUMBERS);
    if has_request {
        clear_at(bytes, REQUEST_NUMBERS);
    }
}

/// Writes zeros over the sequence number and the netlink port ID of each message, and over those of
/// the request's header that an NLMSG_ERROR repeats after its code, up to the first offset without a
/// whole message.
///
/// The bytes are read as a capture: each message is at a multiple of 4, and has a header of 16
/// bytes (netlink.h, struct nlmsghdr), with the numbers in the bytes 8 to 16.
pub fn clear_numbers(text: &mut [u8])
    ensures { text.new ≡ numbers_cleared text.old }
{
    numbers_are_cleared_by_frames();
    let mut at = 0;
    'frames: while let Some(size) = first_frame_len(&text[at..]) {
        clear_first_frame(&mut text[at..], size);
        at += nla_align(size).min(text.len() - at);
    }
}
