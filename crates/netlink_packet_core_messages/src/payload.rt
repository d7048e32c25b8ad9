ghost use Rattle.std.specs.Prelude.{◌≡◌, true, false, length, Some, None, IfOk, IfErr};
ghost use Rattle.netlink_packet_core_grammar.specs.Numbers.{as_usize};
ghost use Rattle.netlink_packet_core_messages.specs.Payloads.{payload_entry, payload_value, read_payload};
ghost use Rattle.netlink_packet_core_messages.specs.Payloads.{payload_may_allocate, OfInner, HasCode};
ghost use Rattle.netlink_packet_core_messages.specs.Refusals.{is_out_of_memory, Determines};

use super::byte_vec::ByteVec;
use super::done::DoneMessage;
use super::error::ErrorMessage;
use super::frame_error::FrameError;
use super::header::NetlinkHeader;
use super::payload_traits::{NetlinkDeserializable, NetlinkSerializable};
use netlink_packet_core_attributes::traits::Emitable;
use netlink_packet_core_numbers::error::DecodeError;
use std::alloc::Global;

/// The type of a message to be ignored.
pub const NLMSG_NOOP: u16 = 1;
/// The type of an error message, or of an acknowledgement.
pub const NLMSG_ERROR: u16 = 2;
/// The type of the message that ends a multipart reply.
pub const NLMSG_DONE: u16 = 3;
/// The type of a message that reports lost data.
pub const NLMSG_OVERRUN: u16 = 4;
/// The alignment of frames in bytes.
pub const NLMSG_ALIGNTO: u16 = 4;

/// The body of a message: that of a control message, of the types 1 to 4, or one of the protocol.
#[derive(Debug, Drop, PartialEq, Eq)]
pub enum NetlinkPayload<I> {
    /// The end of a multipart reply.
    Done(DoneMessage),
    /// A failure, or an acknowledgement.
    Error(ErrorMessage),
    /// Nothing: the bytes of the body are dropped.
    Noop,
    /// Data were lost; the bytes are kept as received.
    Overrun(ByteVec),
    /// A message of the protocol.
    InnerMessage(I),
}

impl<I: NetlinkDeserializable> NetlinkPayload<I> {
    /// Reads the body of a frame with this header.
    pub(crate) fn read(
        alloc: Global,
        header: &NetlinkHeader,
        body: &[u8],
    ) -> Result<Self, FrameError<I::Error>>
        ensures ok { IfOk result (λ p. read_payload I.reads header.now.message_type body.now
            ≡ Some (payload_value I.value p)) }
        ensures err { IfErr result (λ e. is_out_of_memory I.is_memory e ≡ false
            → read_payload I.reads header.now.message_type body.now ≡ None) }
        ensures reported { IfErr result (λ e. is_out_of_memory I.is_memory e ≡ false
            → Determines I.determines e header.now.message_type body.now) }
        ensures memory { IfErr result (λ e. is_out_of_memory I.is_memory e ≡ true
            → payload_may_allocate I.may_allocate header.now.message_type body.now ≡ true) }
    {
        match header.message_type {
            NLMSG_NOOP => Ok(NetlinkPayload::Noop),
            NLMSG_ERROR => Ok(NetlinkPayload::Error(ErrorMessage::parse_body(alloc, body)?)),
            NLMSG_DONE => Ok(NetlinkPayload::Done(DoneMessage::parse_body(alloc, body)?)),
            NLMSG_OVERRUN => match ByteVec::from_slice(alloc, body) {
                Ok(bytes) => Ok(NetlinkPayload::Overrun(bytes)),
                Err(error) => Err(FrameError::Frame(DecodeError::from(error))),
            },
            _ => match I::deserialize(alloc, header, body) {
                Ok(message) => Ok(NetlinkPayload::InnerMessage(message)),
                Err(error) => Err(FrameError::Inner(error)),
            },
        }
    }
}

impl<I> NetlinkPayload<I> {
    /// Its code fits 32 bits, and an error's code isn't 0.
    pub(crate) fn code_fits(&self)
        ensures { HasCode self.now }
    {
        match self {
            NetlinkPayload::Done(message) => message.code_fits(),
            NetlinkPayload::Error(message) => message.code_fits(),
            _ => {}
        }
    }
}

impl<I: NetlinkSerializable> NetlinkPayload<I> {
    /// Returns the type of the message: 1 for NOOP, 2 for ERROR, 3 for DONE, 4 for OVERRUN, else
    /// that of the inner message.
    pub fn message_type(&self) -> u16
        ensures { result ≡ (payload_entry I.entry self.now).0 }
    {
        match self {
            NetlinkPayload::Done(_) => NLMSG_DONE,
            NetlinkPayload::Error(_) => NLMSG_ERROR,
            NetlinkPayload::Noop => NLMSG_NOOP,
            NetlinkPayload::Overrun(_) => NLMSG_OVERRUN,
            NetlinkPayload::InnerMessage(message) => message.message_type(),
        }
    }

    /// Returns the size of the body in bytes.
    pub(crate) fn buffer_len(&self) -> usize
        ensures { result ≡ as_usize (length (payload_entry I.entry self.now).1) }
    {
        match self {
            NetlinkPayload::Done(message) => message.buffer_len(),
            NetlinkPayload::Error(message) => message.buffer_len(),
            NetlinkPayload::Noop => 0,
            NetlinkPayload::Overrun(bytes) => bytes.len(),
            NetlinkPayload::InnerMessage(message) => message.buffer_len(),
        }
    }

    /// Writes the body, into a buffer of its size.
    #[tactic(auto, using(crate::proofs::Texts::drop_exactly))]
    pub(crate) fn serialize(&self, buffer: &mut [u8])
        requires fits { OfInner I.fits self.now }
        requires capacity { length buffer.old ≡ length (payload_entry I.entry self.now).1 }
        ensures { buffer.new ≡ (payload_entry I.entry self.now).1 }
    {
        match self {
            NetlinkPayload::Done(message) => message.emit(buffer),
            NetlinkPayload::Error(message) => message.emit(buffer),
            NetlinkPayload::Noop => {}
            NetlinkPayload::Overrun(bytes) => buffer.copy_from_slice(bytes.as_slice()),
            NetlinkPayload::InnerMessage(message) => message.serialize(buffer),
        }
    }
}
