ghost use Rattle.std.specs.Prelude.{◌≡◌, ◌≤◌, length, drop, IfOk, IfErr, ◌<◌, nat_lt, true, ⊤, Some, is_some};
ghost use Rattle.std.specs.Borrow.{Lends, Array, sem, u8};
ghost use denote.Param.{number};
ghost use Rattle.netlink_packet_core_numbers.specs.Errors.{is_memory};
ghost use Rattle.netlink_packet_core_messages.specs.NetlinkBuffers.{storage, view_of};
ghost use Rattle.netlink_packet_core_messages.specs.Codes.{code_of};
ghost use Rattle.netlink_packet_core_messages.specs.ControlMessages.{done_message_text, done_of, read_done};
ghost use Rattle.std.specs.Int.{w32};
ghost use Rattle.std.specs.Int.RustNames.{FitsSigned};

use super::buffer::MessageBuffer;
use super::byte_vec::ByteVec;
use super::code::{emit_code, read_code};
use super::payload::NLMSG_DONE;
use netlink_packet_core_attributes::traits::{Emitable, Parseable};
use netlink_packet_core_attributes::view::{ByteLend, ByteView};
use netlink_packet_core_numbers::error::DecodeError;
use std::alloc::Global;

/// The body of a DONE message: a code of 4 bytes, little-endian, and the attributes that the kernel
/// adds to it.
pub type DoneBuffer<T> = MessageBuffer<T, 4, NLMSG_DONE>;

impl<T: ByteView> DoneBuffer<T> {
    /// Returns the code: 0, or a negative error number.
    pub fn code(&self) -> i32
        requires { 4 ≤ length (T.bytes (storage self.now)) }
        ensures { result ≡ code_of (T.bytes (storage self.now)) }
    {
        read_code(self.buffer.as_bytes())
    }
}

impl<'a> DoneBuffer<&'a [u8]> {
    /// Returns the bytes after the code, the attributes of an extended acknowledgement, for as long
    /// as the storage lives.
    pub fn extended_ack(&self) -> &'a [u8]
        requires { 4 ≤ length (storage self.now).now }
        ensures { result.now ≡ drop 4 (storage self.now).now }
    {
        let buffer = self.buffer;
        &buffer[4..]
    }
}

impl<'a> DoneBuffer<&'a mut [u8]> {
    /// Returns the bytes after the code: the attributes of an extended acknowledgement.
    pub fn extended_ack(&self) -> &[u8]
        requires { 4 ≤ length (storage self.now).now }
        ensures { result.now ≡ drop 4 (storage self.now).now }
    {
        &self.buffer[4..]
    }
}

impl DoneBuffer<Vec<u8>> {
    /// Returns the bytes after the code: the attributes of an extended acknowledgement.
    pub fn extended_ack(&self) -> &[u8]
        requires { 4 ≤ length (storage self.now).items }
        ensures { result.now ≡ drop 4 (storage self.now).items }
    {
        &self.buffer.as_slice()[4..]
    }
}

impl<T: ByteLend> DoneBuffer<T> {
    ghost use Rattle.netlink_packet_core_messages.specs.contracts.buffer.MessageBuffer.{the_row};

    /// Borrows the bytes after the code, for writing. For a `&mut [u8]` write through `inner_mut`
    /// instead.
    pub fn extended_ack_mut(&mut self) -> &mut [u8]
        requires { 4 ≤ length (T.ByteView.bytes (storage self.old)) }
        ensures* writes_back { sem 𝓛 (Lends (the_row T.row (number 4) (number 3)) (Array u8 0)
            self.entry result (λ w. view_of (T.with_part (storage self.old) 4 w))) }
        ensures value { result.now ≡ drop 4 (T.ByteView.bytes (storage self.old)) }
    {
        let end = self.buffer.as_bytes().len();
        self.buffer.part_mut(4, end)
    }
}

/// The end of a multipart reply.
#[derive(Debug, Drop, PartialEq, Eq)]
pub struct DoneMessage {
    /// 0, or a negative error number.
    pub code: i32,
    /// The attributes of an extended acknowledgement, as received.
    pub extended_ack: ByteVec,
}

impl<'a> Parseable<DoneBuffer<&'a [u8]>> for DoneMessage {
    ghost can_parse = { λ b. 4 ≤ length (storage b).now };

    ghost accepts = { λ _. true };

    ghost may_allocate = { λ b. nat_lt 4 (length (storage b).now) };

    ghost gives = { λ b m. m ≡ done_of (storage b).now };

    fn parse(alloc: Global, buf: &DoneBuffer<&'a [u8]>) -> Result<Self, DecodeError> {
        Ok(DoneMessage {
            code: buf.code(),
            extended_ack: ByteVec::from_slice(alloc, buf.extended_ack())?,
        })
    }
}

impl Emitable for DoneMessage {
    ghost text = { done_message_text };

    ghost can_emit = { λ _. ⊤ };

    #[tactic(auto, using(netlink_packet_core_grammar::proofs::Sizes::sizes))]
    fn buffer_len(&self) -> usize {
        self.extended_ack.len().saturating_add(4)
    }

    #[tactic(auto, using(netlink_packet_core_grammar::proofs::Sizes::sizes))]
    fn emit(&self, buffer: &mut [u8]) {
        emit_code(self.code, self.extended_ack.as_slice(), buffer);
    }
}

impl DoneMessage {
    /// Reads the body of a DONE message. An empty body has the code 0.
    ///
    /// # Errors
    ///
    /// [`DecodeError::invalid_buffer`] if the body has 1 to 3 bytes; [`DecodeError::memory`] if it
    /// is valid, bytes follow the code, and their allocation fails.
    pub fn parse_body(alloc: Global, body: &[u8]) -> Result<Self, DecodeError>
        ensures ok { IfOk result (λ m. read_done body.now ≡ Some m) }
        ensures err { IfErr result (λ e. is_some (read_done body.now) ≡ is_memory e) }
        ensures memory { IfErr result (λ e. is_memory e ≡ true → 4 < length body.now) }
    {
        if body.is_empty() {
            return Ok(DoneMessage {
                code: 0,
                extended_ack: ByteVec::new(alloc),
            });
        }
        let buf = DoneBuffer::new_checked(body)?;
        DoneMessage::parse(alloc, &buf)
    }

    /// Its code fits 32 bits.
    pub(crate) fn code_fits(&self)
        ensures { FitsSigned w32 self.now.code }
    {
        let _code = self.code;
    }
}
