//! Laws of frames and messages. No function here calls anything but `code_fits`, which reads the
//! code of a parameter: to the prover a number that is reached through a reference is in its type's
//! range only once it was read.

ghost use Rattle.std.specs.Prelude.{◌≡◌, ◌↔◌, true, ◌≤◌, ◌<◌, ◌+◌, ◌-◌, ◌++◌, ℕ, List, Some, None, length, take, drop};
ghost use Rattle.netlink_packet_core_grammar.specs.Attributes.{nla_align, zeros};
ghost use Rattle.netlink_packet_core_grammar.specs.Frames.{BeginsWithFrame, begins_with_frame};
ghost use Rattle.netlink_packet_core_grammar.specs.Frames.{frame_length, frame_type, frame_body, frame_text};
ghost use Rattle.netlink_packet_core_messages.specs.Headers.{header_of, header_text};
ghost use Rattle.netlink_packet_core_messages.specs.Payloads.{OfInner, written_body};
ghost use Rattle.netlink_packet_core_messages.specs.Messages.{message_text, message_size, message_value, read_message};
ghost use Rattle.netlink_packet_core_messages.specs.Messages.{finalized, unpadded_text, IsFinalized};
ghost use Rattle.netlink_packet_core_messages.specs.Laws.{ConstantsAreOfTheHeader};

use super::header::NetlinkHeader;
use super::message::NetlinkMessage;
use super::payload_traits::{NetlinkDeserializable, NetlinkProtocol, NetlinkSerializable};

/// A written header is read back, whatever follows it.
pub fn headers_read_back(header: &NetlinkHeader, rest: &[u8])
    ensures { header_of (header_text header.now ++ rest.now) ≡ header.now }
{}

/// A header that was read is written as the same bytes.
pub fn headers_are_written_back(bytes: &[u8])
    requires { 16 ≤ length bytes.now }
    ensures { header_text (header_of bytes.now) ≡ take 16 bytes.now }
{}

/// `begins_with_frame` decides whether bytes begin with a whole frame: there are at least 16, and the length
/// in the header is at least 16 and within the bytes.
pub fn frames_are_checked(bytes: &[u8])
    ensures { (begins_with_frame bytes.now ≡ true) ↔ BeginsWithFrame bytes.now }
{}

/// Bytes past the length of a frame don't change the message that is read from it.
pub fn bytes_past_a_frame_change_nothing<I: NetlinkDeserializable>(frame: &[u8], rest: &[u8])
    requires { BeginsWithFrame frame.now }
    ensures { read_message I.reads (take (frame_length frame.now) frame.now ++ rest.now)
        ≡ read_message I.reads frame.now }
{}

/// No message is read from bytes that end inside a frame.
pub fn cut_frames_are_refused<I: NetlinkDeserializable>(frame: &[u8], end: usize)
    requires whole { BeginsWithFrame frame.now }
    requires inside { end < frame_length frame.now }
    ensures { read_message I.reads (take end frame.now) ≡ None }
{}

/// The header of a finalized message has its length and its type.
pub fn finalized_headers_match<I: NetlinkSerializable>(message: &NetlinkMessage<I>)
    ensures { IsFinalized I.entry (finalized I.entry message.now) }
{}

/// No message is read if the length in the header is under 16, whatever follows the header.
pub fn short_lengths_are_refused<I: NetlinkDeserializable>(header: &[u8], rest: &[u8])
    requires whole { 16 ≤ length header.now }
    requires short { frame_length header.now < 16 }
    ensures { read_message I.reads (header.now ++ rest.now) ≡ None }
{}

/// The body of a frame is the same whatever follows the frame.
pub fn bodies_end_with_their_frame(frame: &[u8], rest: &[u8])
    requires { BeginsWithFrame frame.now }
    ensures whole { BeginsWithFrame (take (frame_length frame.now) frame.now ++ rest.now) }
    ensures body { frame_body (take (frame_length frame.now) frame.now ++ rest.now)
        ≡ frame_body frame.now }
{}

/// Finalizing is idempotent.
pub fn finalized_twice_is_once<I: NetlinkSerializable>(message: &NetlinkMessage<I>)
    ensures { finalized I.entry (finalized I.entry message.now) ≡ finalized I.entry message.now }
{}

/// A finalized message is read back, whatever follows it.
pub fn messages_read_back<I: NetlinkProtocol>(message: &NetlinkMessage<I>, rest: &[u8])
    requires finalized { IsFinalized I.entry message.now }
    requires fits { OfInner I.fits message.now.payload }
    ensures { read_message I.reads (message_text I.entry message.now ++ rest.now)
        ≡ Some (message_value I.value message.now) }
{
    message.payload.code_fits();
}

/// The bytes of a finalized message begin with a whole frame, whatever follows them, and their
/// number is that of its header and its body.
pub fn messages_are_frames<I: NetlinkProtocol>(message: &NetlinkMessage<I>, rest: &[u8])
    requires { IsFinalized I.entry message.now }
    ensures whole { BeginsWithFrame (message_text I.entry message.now ++ rest.now) }
    ensures length { frame_length (message_text I.entry message.now ++ rest.now)
        ≡ length (message_text I.entry message.now) }
    ensures size { length (message_text I.entry message.now) ≡ message_size I.entry message.now }
{}

/// A message that was read from the bytes of a finalized one is written as the same bytes, once it
/// is finalized itself.
pub fn canonical_frames_are_stable<I: NetlinkProtocol>(
    message: &NetlinkMessage<I>,
    other: &NetlinkMessage<I>,
    rest: &[u8],
)
    requires finalized { IsFinalized I.entry message.now }
    requires fits { OfInner I.fits message.now.payload }
    requires read { read_message I.reads (message_text I.entry message.now ++ rest.now)
        ≡ Some (message_value I.value other.now) }
    ensures { message_text I.entry (finalized I.entry other.now)
        ≡ message_text I.entry message.now }
{
    message.payload.code_fits();
}

/// Messages with equal values have equal bytes.
pub fn equal_messages_have_one_text<I: NetlinkProtocol>(
    message: &NetlinkMessage<I>,
    other: &NetlinkMessage<I>,
)
    requires { message_value I.value message.now ≡ message_value I.value other.now }
    ensures { message_text I.entry message.now ≡ message_text I.entry other.now }
{}

/// Finalized messages with equal bytes have equal values.
pub fn texts_have_one_message<I: NetlinkProtocol>(
    message: &NetlinkMessage<I>,
    other: &NetlinkMessage<I>,
)
    requires finalized { IsFinalized I.entry message.now }
    requires fits { OfInner I.fits message.now.payload }
    requires other_finalized { IsFinalized I.entry other.now }
    requires other_fits { OfInner I.fits other.now.payload }
    requires same { message_text I.entry message.now ≡ message_text I.entry other.now }
    ensures { message_value I.value message.now ≡ message_value I.value other.now }
{
    message.payload.code_fits();
    other.payload.code_fits();
}

/// A message that was read from a frame, once it is finalized, is written as the frame's header
/// with its length set, and the canonical body of its type. Here `inner_body` is the body that the
/// protocol writes for each inner message that the frame's body is read as.
pub fn read_frames_keep_their_header<I: NetlinkProtocol>(message: &NetlinkMessage<I>, frame: &[u8])
    requires { read_message I.reads frame.now ≡ Some (message_value I.value message.now) }
    ensures { (inner_body : List ℕ)
        → ((x : I) → I.reads (frame_type frame.now) (frame_body frame.now) ≡ Some (I.value x)
        → I.entry x ≡ (frame_type frame.now, inner_body))
        → message_text I.entry (finalized I.entry message.now)
        ≡ unpadded_text frame.now
        (written_body inner_body (frame_type frame.now) (frame_body frame.now)) }
{}

/// The text of a frame is its text without padding, followed by zeros up to a multiple of 4.
pub fn padding_ends_a_frame(frame: &[u8], body: &[u8])
    ensures { frame_text frame.now body.now
        ≡ unpadded_text frame.now body.now
        ++ zeros (nla_align (16 + length body.now) - (16 + length body.now)) }
{}

/// The constants of flags and of types have the numbers of `linux/netlink.h`.
pub fn constants_are_of_the_header()
    ensures { ConstantsAreOfTheHeader }
{}
