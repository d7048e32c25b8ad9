ghost use Rattle.std.specs.Prelude.{◌≡◌, ◌≤◌, ◌<◌, ◌^◌, ◌++◌, Some, None, true, false, length, drop, IfOk, IfErr};
ghost use Rattle.netlink_packet_core_grammar.specs.Frames.{BeginsWithFrame, frame_type, frame_body};
ghost use Rattle.netlink_packet_core_grammar.specs.Numbers.{as_usize};
ghost use Rattle.netlink_packet_core_messages.specs.NetlinkBuffers.{storage};
ghost use Rattle.netlink_packet_core_messages.specs.Payloads.{payload_may_allocate, OfInner};
ghost use Rattle.netlink_packet_core_messages.specs.Messages.{message_text, message_size, message_value};
ghost use Rattle.netlink_packet_core_messages.specs.Messages.{read_message, finalized, IsFinalized};
ghost use Rattle.netlink_packet_core_messages.specs.Refusals.{is_out_of_memory, Determines};

use super::buffer::{NETLINK_HEADER_LEN, NetlinkBuffer};
use super::frame_error::FrameError;
use super::header::NetlinkHeader;
use super::payload::NetlinkPayload;
use super::payload_traits::{NetlinkDeserializable, NetlinkSerializable};
use netlink_packet_core_attributes::traits::{Emitable, Parseable};
use std::alloc::Global;

/// A message: its header and its body.
#[derive(Debug, Drop, PartialEq, Eq)]
pub struct NetlinkMessage<I> {
    /// The header.
    pub header: NetlinkHeader,
    /// The body.
    pub payload: NetlinkPayload<I>,
}

impl<I> NetlinkMessage<I> {
    /// Returns a message of these parts. The length and the type in its header may differ from
    /// those of its body: `finalize` sets them.
    pub fn new(header: NetlinkHeader, payload: NetlinkPayload<I>) -> Self
        ensures header { result.header ≡ header }
        ensures payload { result.payload ≡ payload }
    {
        Self { header, payload }
    }

    /// Returns the header and the body.
    pub fn into_parts(self) -> (NetlinkHeader, NetlinkPayload<I>)
        ensures header { result.0 ≡ self.header }
        ensures payload { result.1 ≡ self.payload }
    {
        (self.header, self.payload)
    }
}

impl<I> From<I> for NetlinkMessage<I> {
    ghost use Rattle.netlink_packet_core_messages.specs.declared.payload.NetlinkPayload.TheVariants.{InnerMessage};

    ghost from_gives = { λ i m. (m.header
        ≡ record { length = 0; message_type = 0; flags = 0; sequence_number = 0; port_number = 0 })
        × (m.payload ≡ InnerMessage i) };

    fn from(inner: I) -> Self {
        NetlinkMessage {
            header: NetlinkHeader::default(),
            payload: NetlinkPayload::InnerMessage(inner),
        }
    }
}

impl<I: NetlinkDeserializable> NetlinkMessage<I> {
    /// Reads the frame in a view that was checked.
    ///
    /// # Errors
    ///
    /// [`FrameError::Frame`] if the body of a control message is invalid; [`FrameError::Inner`] if
    /// the protocol rejects the body. Either may be out of memory, and only if the value allocates.
    #[tactic(auto, using(crate::proofs::Frames::frames), unfolding(crate::specs::Headers::header_of))]
    pub fn parse(alloc: Global, buf: &NetlinkBuffer<&[u8]>) -> Result<Self, FrameError<I::Error>>
        requires { BeginsWithFrame (storage buf.now).now }
        ensures ok { IfOk result (λ m. read_message I.reads (storage buf.now).now
            ≡ Some (message_value I.value m)) }
        ensures err { IfErr result (λ e. is_out_of_memory I.is_memory e ≡ false
            → read_message I.reads (storage buf.now).now ≡ None) }
        ensures reported { IfErr result (λ e. is_out_of_memory I.is_memory e ≡ false
            → Determines I.determines e (frame_type (storage buf.now).now)
            (frame_body (storage buf.now).now)) }
        ensures memory { IfErr result (λ e. is_out_of_memory I.is_memory e ≡ true
            → payload_may_allocate I.may_allocate (frame_type (storage buf.now).now)
            (frame_body (storage buf.now).now) ≡ true) }
    {
        let header = NetlinkHeader::parse(alloc, buf)?;
        let payload = NetlinkPayload::read(alloc, &header, buf.payload())?;
        Ok(NetlinkMessage { header, payload })
    }

    /// Reads the frame at the start of the bytes; those after it are ignored.
    ///
    /// # Errors
    ///
    /// [`FrameError::Frame`] if the bytes begin with no whole frame, or the body of a control
    /// message is invalid; [`FrameError::Inner`] if the protocol rejects the body. Either may be
    /// out of memory, and only for a whole frame whose value allocates.
    #[tactic(auto, using(crate::proofs::Frames::frames))]
    pub fn deserialize(alloc: Global, buffer: &[u8]) -> Result<Self, FrameError<I::Error>>
        ensures ok { IfOk result (λ m. read_message I.reads buffer.now
            ≡ Some (message_value I.value m)) }
        ensures err { IfErr result (λ e. is_out_of_memory I.is_memory e ≡ false
            → read_message I.reads buffer.now ≡ None) }
        ensures reported { IfErr result (λ e. is_out_of_memory I.is_memory e ≡ false
            → BeginsWithFrame buffer.now → Determines I.determines e (frame_type buffer.now)
            (frame_body buffer.now)) }
        ensures memory { IfErr result (λ e. is_out_of_memory I.is_memory e ≡ true → BeginsWithFrame buffer.now
            × (payload_may_allocate I.may_allocate (frame_type buffer.now)
            (frame_body buffer.now) ≡ true)) }
    {
        let buf = NetlinkBuffer::new_checked(buffer)?;
        NetlinkMessage::parse(alloc, &buf)
    }
}

impl<I: NetlinkSerializable> NetlinkMessage<I> {
    /// Returns the size of the message in bytes, header and body; it saturates at `usize::MAX`.
    pub fn buffer_len(&self) -> usize
        ensures { result ≡ as_usize (message_size I.entry self.now) }
    {
        self.payload.buffer_len().saturating_add(NETLINK_HEADER_LEN)
    }

    /// Sets the header's length and type to those of the message. Its size fits 32 bits if and only
    /// if `buffer_len` is at most `u32::MAX`.
    pub fn finalize(&mut self)
        requires { message_size I.entry self.old < 2 ^ 32 }
        ensures { self.new ≡ finalized I.entry self.old }
    {
        self.header.length = self.buffer_len() as u32;
        self.header.message_type = self.payload.message_type();
    }

    /// Writes a finalized message at the start of a buffer; the rest of the buffer is left
    /// unchanged.
    #[tactic(auto, using(crate::proofs::Headers::header_sizes))]
    pub fn serialize(&self, buffer: &mut [u8])
        requires finalized { IsFinalized I.entry self.now }
        requires fits { OfInner I.fits self.now.payload }
        requires capacity { self.now.header.length ≤ length buffer.old }
        ensures { buffer.new
            ≡ message_text I.entry self.now ++ drop self.now.header.length buffer.old }
    {
        let size = self.header.length as usize;
        let (head, rest) = buffer.split_at_mut(NETLINK_HEADER_LEN);
        let (body, _) = rest.split_at_mut(size - NETLINK_HEADER_LEN);
        self.header.emit(head);
        self.payload.serialize(body);
    }
}

impl<I: NetlinkSerializable> Emitable for NetlinkMessage<I> {
    ghost text = { message_text I.entry };

    ghost can_emit = { λ m. IsFinalized I.entry m × OfInner I.fits m.payload };

    fn buffer_len(&self) -> usize {
        NetlinkMessage::buffer_len(self)
    }

    fn emit(&self, buffer: &mut [u8]) {
        self.serialize(buffer);
    }
}
