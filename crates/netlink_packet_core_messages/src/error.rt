ghost use Rattle.std.specs.Prelude.{◌≡◌, ◌≤◌, length, drop, IfOk, IfErr, ◌≢◌};
ghost use Rattle.std.specs.Prelude.{pos, ◌<◌, nat_lt, true, ⊤, Some, is_some, nat_abs};
ghost use Rattle.std.specs.Borrow.{Lends, Array, sem, u8};
ghost use denote.Param.{number};
ghost use Rattle.netlink_packet_core_numbers.specs.Errors.{is_memory};
ghost use Rattle.netlink_packet_core_messages.specs.NetlinkBuffers.{storage, view_of};
ghost use Rattle.netlink_packet_core_messages.specs.Codes.{code_of, nonzero_code, raw_code, IsCode};
ghost use Rattle.std.specs.Int.{w32};
ghost use Rattle.std.specs.Int.RustNames.{FitsSigned};
ghost use Rattle.netlink_packet_core_messages.specs.ControlMessages.{error_message_text, error_of, read_error};

use super::buffer::MessageBuffer;
use super::byte_vec::ByteVec;
use super::code::{emit_code, read_code};
use super::payload::NLMSG_ERROR;
use netlink_packet_core_attributes::traits::{Emitable, Parseable};
use netlink_packet_core_attributes::view::{ByteLend, ByteView};
use netlink_packet_core_numbers::error::DecodeError;
use std::alloc::Global;
use std::marker::Model;

/// The code of an error: any 32-bit number except 0. The kernel's are negative error numbers.
#[derive(Clone, Copy, Debug, PartialEq, Eq, Drop)]
pub struct ErrorCode {
    code: i32,
}

impl Model for ErrorCode {
    ghost use Rattle.std.specs.Prelude.{◌≢◌, ℤ, pos};

    ghost Value = { ℤ };

    ghost view = { λ e. e.code };

    ghost invariant = { λ e. e.code ≢ pos 0 };

    ghost inverse = { λ z. record { code = z } };
}

impl ErrorCode {
    /// Returns the code of this number, or `None` for 0.
    pub fn new(code: i32) -> Option<Self>
        ensures { result ≡ nonzero_code code }
    {
        if code == 0 {
            None
        } else {
            Some(ErrorCode { code })
        }
    }

    /// Returns the number.
    pub fn get(&self) -> i32
        ensures value { result ≡ self.now }
        ensures not_zero { self.now ≢ pos 0 }
        ensures fits { FitsSigned w32 self.now }
    {
        self.code
    }
}

/// The body of an ERROR message (netlink.h, `struct nlmsgerr`): a code of 4 bytes, little-endian,
/// and the header of the request, with the bytes that the kernel adds.
pub type ErrorBuffer<T> = MessageBuffer<T, 4, NLMSG_ERROR>;

impl<T: ByteView> ErrorBuffer<T> {
    /// Returns the code, if it isn't 0: an ERROR message with the code 0 is an acknowledgement.
    pub fn code(&self) -> Option<ErrorCode>
        requires { 4 ≤ length (T.bytes (storage self.now)) }
        ensures { result ≡ nonzero_code (code_of (T.bytes (storage self.now))) }
    {
        ErrorCode::new(read_code(self.buffer.as_bytes()))
    }
}

impl<'a> ErrorBuffer<&'a [u8]> {
    /// Returns the bytes after the code, which begin with the header of the request, for as long as
    /// the storage lives.
    pub fn payload(&self) -> &'a [u8]
        requires { 4 ≤ length (storage self.now).now }
        ensures { result.now ≡ drop 4 (storage self.now).now }
    {
        let buffer = self.buffer;
        &buffer[4..]
    }
}

impl<'a> ErrorBuffer<&'a mut [u8]> {
    /// Returns the bytes after the code, which begin with the header of the request.
    pub fn payload(&self) -> &[u8]
        requires { 4 ≤ length (storage self.now).now }
        ensures { result.now ≡ drop 4 (storage self.now).now }
    {
        &self.buffer[4..]
    }
}

impl ErrorBuffer<Vec<u8>> {
    /// Returns the bytes after the code, which begin with the header of the request.
    pub fn payload(&self) -> &[u8]
        requires { 4 ≤ length (storage self.now).items }
        ensures { result.now ≡ drop 4 (storage self.now).items }
    {
        &self.buffer.as_slice()[4..]
    }
}

impl<T: ByteLend> ErrorBuffer<T> {
    ghost use Rattle.netlink_packet_core_messages.specs.contracts.buffer.MessageBuffer.{the_row};

    /// Borrows the bytes after the code, for writing. For a `&mut [u8]` write through `inner_mut`
    /// instead.
    pub fn payload_mut(&mut self) -> &mut [u8]
        requires { 4 ≤ length (T.ByteView.bytes (storage self.old)) }
        ensures* writes_back { sem 𝓛 (Lends (the_row T.row (number 4) (number 2)) (Array u8 0)
            self.entry result (λ w. view_of (T.with_part (storage self.old) 4 w))) }
        ensures value { result.now ≡ drop 4 (T.ByteView.bytes (storage self.old)) }
    {
        let end = self.buffer.as_bytes().len();
        self.buffer.part_mut(4, end)
    }
}

/// A failure, or an acknowledgement if there is no code.
#[derive(Debug, Drop, PartialEq, Eq)]
pub struct ErrorMessage {
    /// A negative error number; `None` is written as 0.
    pub code: Option<ErrorCode>,
    /// The header of the request and the bytes after it, as received.
    pub header: ByteVec,
}

impl<'a> Parseable<ErrorBuffer<&'a [u8]>> for ErrorMessage {
    ghost can_parse = { λ b. 4 ≤ length (storage b).now };

    ghost accepts = { λ _. true };

    ghost may_allocate = { λ b. nat_lt 4 (length (storage b).now) };

    ghost gives = { λ b m. m ≡ error_of (storage b).now };

    fn parse(alloc: Global, buf: &ErrorBuffer<&'a [u8]>) -> Result<Self, DecodeError> {
        Ok(ErrorMessage {
            code: buf.code(),
            header: ByteVec::from_slice(alloc, buf.payload())?,
        })
    }
}

impl Emitable for ErrorMessage {
    ghost text = { error_message_text };

    ghost can_emit = { λ _. ⊤ };

    #[tactic(auto, using(netlink_packet_core_grammar::proofs::Sizes::sizes))]
    fn buffer_len(&self) -> usize {
        self.header.len().saturating_add(4)
    }

    #[tactic(auto, using(netlink_packet_core_grammar::proofs::Sizes::sizes))]
    fn emit(&self, buffer: &mut [u8]) {
        emit_code(self.raw_code(), self.header.as_slice(), buffer);
    }
}

impl ErrorMessage {
    /// Returns the code as a number: 0 if there is none.
    pub fn raw_code(&self) -> i32
        ensures { result ≡ raw_code self.now.code }
    {
        match &self.code {
            Some(code) => code.get(),
            None => 0,
        }
    }

    /// Returns the error number, which is the code's absolute value: 0 if there is no code.
    pub fn errno(&self) -> u32
        ensures { result ≡ nat_abs (raw_code self.now.code) }
    {
        self.raw_code().unsigned_abs()
    }

    /// Reads the body of an ERROR message.
    ///
    /// # Errors
    ///
    /// [`DecodeError::invalid_buffer`] if the body has fewer than 4 bytes; [`DecodeError::memory`]
    /// if it is valid, bytes follow the code, and their allocation fails.
    pub fn parse_body(alloc: Global, body: &[u8]) -> Result<Self, DecodeError>
        ensures ok { IfOk result (λ m. read_error body.now ≡ Some m) }
        ensures err { IfErr result (λ e. is_some (read_error body.now) ≡ is_memory e) }
        ensures memory { IfErr result (λ e. is_memory e ≡ true → 4 < length body.now) }
    {
        let buf = ErrorBuffer::new_checked(body)?;
        ErrorMessage::parse(alloc, &buf)
    }

    /// Its code fits 32 bits, and isn't 0.
    pub(crate) fn code_fits(&self)
        ensures { IsCode self.now.code }
    {
        if let Some(code) = &self.code {
            let _code = code.get();
        }
    }
}
