ghost use Rattle.std.specs.Prelude.{◌≡◌, ◌↔◌, ◌-◌, ◌≤◌, length, false, IfOk, IfErr, IsOk};
ghost use Rattle.std.specs.Borrow.{Lends, Array, sem, u8};
ghost use denote.Param.{number};
ghost use Rattle.netlink_packet_core_grammar.specs.Bytes.{put_at};
ghost use Rattle.netlink_packet_core_grammar.specs.Frames.{BeginsWithFrame, frame_length, frame_type, frame_body};
ghost use Rattle.netlink_packet_core_grammar.specs.Numbers.{u16_at, u32_at, le2, le4};
ghost use Rattle.netlink_packet_core_numbers.specs.Errors.{is_memory};
ghost use Rattle.netlink_packet_core_messages.specs.NetlinkBuffers.{storage, view_of};

use netlink_packet_core_attributes::view::{
    ByteLend, ByteView, ByteViewMut, read_u16, read_u32, write_u16, write_u32,
};
use netlink_packet_core_numbers::error::DecodeError;

/// The size of a frame's header in bytes.
pub const NETLINK_HEADER_LEN: usize = 16;

/// The bytes of a frame or of a control message's body, in some storage: `HEADER` bytes, and what
/// follows them. `TYPE` is the type of the control message, 0 for a frame.
#[derive(Clone, Copy, Debug, Drop)]
pub struct MessageBuffer<T, const HEADER: usize, const TYPE: u16> {
    pub(crate) buffer: T,
}

/// The bytes of one frame: a header of 16 bytes (netlink.h, `struct nlmsghdr`) and a body.
/// Its numbers are little-endian.
pub type NetlinkBuffer<T> = MessageBuffer<T, NETLINK_HEADER_LEN, 0>;

impl<T, const HEADER: usize, const TYPE: u16> MessageBuffer<T, HEADER, TYPE> {
    /// Returns a view of some storage, without checking it.
    pub fn new(buffer: T) -> Self
        ensures { storage result ≡ buffer }
    {
        MessageBuffer { buffer }
    }

    /// Returns the storage.
    pub fn into_inner(self) -> T
        ensures { result ≡ storage self }
    {
        self.buffer
    }

    ghost use Rattle.netlink_packet_core_messages.specs.contracts.buffer.MessageBuffer.{the_row};

    /// Borrows the storage, for writing.
    pub fn inner_mut(&mut self) -> &mut T
        ensures* writes_back { sem 𝓛
            (Lends (the_row T.row HEADER.row TYPE.row) T.row self.entry result view_of) }
        ensures value { result.now ≡ storage self.old }
    {
        &mut self.buffer
    }
}

impl<T: ByteView> NetlinkBuffer<T> {
    /// Returns a view of bytes that begin with a whole frame: they have a header of 16 bytes, and
    /// the length in it is at least 16 and within the bytes.
    ///
    /// # Errors
    ///
    /// [`DecodeError::invalid_buffer`] if they don't. Allocates nothing.
    pub fn new_checked(buffer: T) -> Result<Self, DecodeError>
    where
        T: Drop,
        ensures whole { IsOk result ↔ BeginsWithFrame (T.bytes buffer) }
        ensures ok { IfOk result (λ view. storage view ≡ buffer) }
        ensures err { IfErr result (λ e. is_memory e ≡ false) }
    {
        let bytes = buffer.as_bytes();
        let size = bytes.len();
        if size < NETLINK_HEADER_LEN {
            return Err(DecodeError::invalid_buffer("NetlinkBuffer", size, NETLINK_HEADER_LEN));
        }
        let length = read_u32(bytes, 0) as usize;
        if length < NETLINK_HEADER_LEN || length > size {
            return Err(DecodeError::invalid_buffer("NetlinkBuffer", size, length));
        }
        Ok(MessageBuffer { buffer })
    }

    /// Returns the length of the frame in bytes, which counts the header (`nlmsg_len`).
    pub fn length(&self) -> u32
        requires { 4 ≤ length (T.bytes (storage self.now)) }
        ensures { result ≡ frame_length (T.bytes (storage self.now)) }
    {
        read_u32(self.buffer.as_bytes(), 0)
    }

    /// Returns the type of the message (`nlmsg_type`).
    pub fn message_type(&self) -> u16
        requires { 6 ≤ length (T.bytes (storage self.now)) }
        ensures { result ≡ frame_type (T.bytes (storage self.now)) }
    {
        read_u16(self.buffer.as_bytes(), 4)
    }

    /// Returns the flags, `NLM_F_` values joined (`nlmsg_flags`).
    pub fn flags(&self) -> u16
        requires { 8 ≤ length (T.bytes (storage self.now)) }
        ensures { result ≡ u16_at 6 (T.bytes (storage self.now)) }
    {
        read_u16(self.buffer.as_bytes(), 6)
    }

    /// Returns the sequence number (`nlmsg_seq`).
    pub fn sequence_number(&self) -> u32
        requires { 12 ≤ length (T.bytes (storage self.now)) }
        ensures { result ≡ u32_at 8 (T.bytes (storage self.now)) }
    {
        read_u32(self.buffer.as_bytes(), 8)
    }

    /// Returns the port of the sender (`nlmsg_pid`).
    pub fn port_number(&self) -> u32
        requires { 16 ≤ length (T.bytes (storage self.now)) }
        ensures { result ≡ u32_at 12 (T.bytes (storage self.now)) }
    {
        read_u32(self.buffer.as_bytes(), 12)
    }

    /// Returns the size of the body in bytes.
    pub fn payload_length(&self) -> usize
        requires { BeginsWithFrame (T.bytes (storage self.now)) }
        ensures { result ≡ frame_length (T.bytes (storage self.now)) - 16 }
    {
        self.length() as usize - NETLINK_HEADER_LEN
    }
}

impl<'a> NetlinkBuffer<&'a [u8]> {
    /// Returns the body, the bytes after the header up to the length of the frame, for as long as
    /// the storage lives.
    pub fn payload(&self) -> &'a [u8]
        requires { BeginsWithFrame (storage self.now).now }
        ensures { result.now ≡ frame_body (storage self.now).now }
    {
        let buffer = self.buffer;
        &buffer[NETLINK_HEADER_LEN..self.length() as usize]
    }
}

impl<'a> NetlinkBuffer<&'a mut [u8]> {
    /// Returns the body: the bytes after the header, up to the length of the frame.
    pub fn payload(&self) -> &[u8]
        requires { BeginsWithFrame (storage self.now).now }
        ensures { result.now ≡ frame_body (storage self.now).now }
    {
        &self.buffer[NETLINK_HEADER_LEN..self.length() as usize]
    }
}

impl NetlinkBuffer<Vec<u8>> {
    /// Returns the body: the bytes after the header, up to the length of the frame.
    pub fn payload(&self) -> &[u8]
        requires { BeginsWithFrame (storage self.now).items }
        ensures { result.now ≡ frame_body (storage self.now).items }
    {
        &self.buffer.as_slice()[NETLINK_HEADER_LEN..self.length() as usize]
    }
}

impl<T: ByteViewMut> NetlinkBuffer<T> {
    /// Sets the length of the frame in bytes, which counts the header.
    pub fn set_length(&mut self, value: u32)
        requires { 4 ≤ length (T.ByteView.bytes (storage self.old)) }
        ensures bytes { T.ByteView.bytes (storage self.new)
            ≡ put_at 0 (le4 value) (T.ByteView.bytes (storage self.old)) }
        ensures same { T.same_storage (storage self.old) (storage self.new) }
    {
        write_u32(&mut self.buffer, 0, value);
    }

    /// Sets the type of the message.
    pub fn set_message_type(&mut self, value: u16)
        requires { 6 ≤ length (T.ByteView.bytes (storage self.old)) }
        ensures bytes { T.ByteView.bytes (storage self.new)
            ≡ put_at 4 (le2 value) (T.ByteView.bytes (storage self.old)) }
        ensures same { T.same_storage (storage self.old) (storage self.new) }
    {
        write_u16(&mut self.buffer, 4, value);
    }

    /// Sets the flags.
    pub fn set_flags(&mut self, value: u16)
        requires { 8 ≤ length (T.ByteView.bytes (storage self.old)) }
        ensures bytes { T.ByteView.bytes (storage self.new)
            ≡ put_at 6 (le2 value) (T.ByteView.bytes (storage self.old)) }
        ensures same { T.same_storage (storage self.old) (storage self.new) }
    {
        write_u16(&mut self.buffer, 6, value);
    }

    /// Sets the sequence number.
    pub fn set_sequence_number(&mut self, value: u32)
        requires { 12 ≤ length (T.ByteView.bytes (storage self.old)) }
        ensures bytes { T.ByteView.bytes (storage self.new)
            ≡ put_at 8 (le4 value) (T.ByteView.bytes (storage self.old)) }
        ensures same { T.same_storage (storage self.old) (storage self.new) }
    {
        write_u32(&mut self.buffer, 8, value);
    }

    /// Sets the port of the sender.
    pub fn set_port_number(&mut self, value: u32)
        requires { 16 ≤ length (T.ByteView.bytes (storage self.old)) }
        ensures bytes { T.ByteView.bytes (storage self.new)
            ≡ put_at 12 (le4 value) (T.ByteView.bytes (storage self.old)) }
        ensures same { T.same_storage (storage self.old) (storage self.new) }
    {
        write_u32(&mut self.buffer, 12, value);
    }
}

impl<T: ByteLend> NetlinkBuffer<T> {
    ghost use Rattle.netlink_packet_core_messages.specs.contracts.buffer.MessageBuffer.{the_row};

    /// Borrows the body, for writing. For a `&mut [u8]` write through `inner_mut` instead.
    pub fn payload_mut(&mut self) -> &mut [u8]
        requires { BeginsWithFrame (T.ByteView.bytes (storage self.old)) }
        ensures* writes_back { sem 𝓛 (Lends (the_row T.row (number 16) (number 0)) (Array u8 0)
            self.entry result (λ w. view_of (T.with_part (storage self.old) 16 w))) }
        ensures value { result.now ≡ frame_body (T.ByteView.bytes (storage self.old)) }
    {
        let end = self.length() as usize;
        self.buffer.part_mut(NETLINK_HEADER_LEN, end)
    }
}
