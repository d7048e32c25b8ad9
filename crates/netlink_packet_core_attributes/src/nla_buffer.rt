ghost use Rattle.std.specs.Prelude.{◌≡◌, ◌↔◌, ◌-◌, ◌≤◌, length, false, IfOk, IfErr, IsOk};
ghost use Rattle.std.specs.Borrow.{Lends, Array, sem, u8};
ghost use Rattle.netlink_packet_core_grammar.specs.Attributes.{proper_kind};
ghost use Rattle.netlink_packet_core_grammar.specs.AttributeViews.{viewed_length, viewed_kind, viewed_payload, BeginsWithAttribute};
ghost use Rattle.netlink_packet_core_grammar.specs.Bytes.{put_at};
ghost use Rattle.netlink_packet_core_grammar.specs.Numbers.{le2};
ghost use Rattle.netlink_packet_core_numbers.specs.Errors.{is_memory};
ghost use Rattle.netlink_packet_core_attributes.specs.Kinds.{has_nested_flag, has_byte_order_flag, with_nested_flag};
ghost use Rattle.netlink_packet_core_attributes.specs.Kinds.{with_byte_order_flag, with_kind};
ghost use Rattle.netlink_packet_core_attributes.specs.NlaBuffers.{storage, view_of, with_value};

use super::nla::{NLA_F_NESTED, NLA_F_NET_BYTEORDER, NLA_HEADER_SIZE, NLA_TYPE_MASK};
use super::view::{ByteLend, ByteView, ByteViewMut, read_u16, write_u16};
use netlink_packet_core_numbers::error::DecodeError;

/// The bytes of one attribute: a little-endian length of 2 bytes, which counts the header, a
/// little-endian kind of 2 bytes (netlink.h, `struct nlattr`), and the payload.
#[derive(Clone, Copy, Debug, PartialEq, Eq, Drop)]
pub struct NlaBuffer<T> {
    buffer: T,
}

impl<T> NlaBuffer<T> {
    /// Returns a view of some storage, without checking it.
    pub fn new(buffer: T) -> Self
        ensures { storage result ≡ buffer }
    {
        NlaBuffer { buffer }
    }

    /// Returns the storage.
    pub fn into_inner(self) -> T
        ensures { result ≡ storage self }
    {
        self.buffer
    }

    /// Borrows the storage.
    pub fn inner(&self) -> &T
        ensures { result.now ≡ storage self.now }
    {
        &self.buffer
    }

    ghost use Rattle.netlink_packet_core_attributes.specs.contracts.nla_buffer.NlaBuffer.{the_row};

    /// Borrows the storage, for writing.
    pub fn inner_mut(&mut self) -> &mut T
        ensures* writes_back { sem 𝓛 (Lends (the_row T.row) T.row self.entry result view_of) }
        ensures value { result.now ≡ storage self.old }
    {
        &mut self.buffer
    }
}

impl<T: ByteView> NlaBuffer<T> {
    /// Returns a view of storage that begins with a whole attribute: it has a header of 4 bytes,
    /// and the length in it is at least 4 and within the storage.
    ///
    /// # Errors
    ///
    /// [`DecodeError::nla_buffer_too_small`], [`DecodeError::nla_length_mismatch`] or
    /// [`DecodeError::nla_invalid_length`] if it doesn't. Allocates nothing.
    pub fn new_checked(buffer: T) -> Result<Self, DecodeError>
    where
        T: Drop,
        ensures whole { IsOk result ↔ BeginsWithAttribute (T.bytes buffer) }
        ensures ok { IfOk result (λ view. storage view ≡ buffer) }
        ensures err { IfErr result (λ e. is_memory e ≡ false) }
    {
        let view = NlaBuffer::new(buffer);
        view.check_buffer_length()?;
        Ok(view)
    }

    /// Checks that the storage begins with a whole attribute, as the accessors of the payload
    /// require.
    ///
    /// # Errors
    ///
    /// [`DecodeError::nla_buffer_too_small`] if there are fewer than 4 bytes;
    /// [`DecodeError::nla_length_mismatch`] if the length exceeds the storage;
    /// [`DecodeError::nla_invalid_length`] if it is under 4. Allocates nothing.
    pub fn check_buffer_length(&self) -> Result<(), DecodeError>
        ensures whole { IsOk result ↔ BeginsWithAttribute (T.bytes (storage self.now)) }
        ensures err { IfErr result (λ e. is_memory e ≡ false) }
    {
        let bytes = self.buffer.as_bytes();
        let size = bytes.len();
        if size < NLA_HEADER_SIZE {
            return Err(DecodeError::nla_buffer_too_small(size, NLA_HEADER_SIZE));
        }
        let length = read_u16(bytes, 0) as usize;
        if size < length {
            return Err(DecodeError::nla_length_mismatch(size, length));
        }
        if length < NLA_HEADER_SIZE {
            return Err(DecodeError::nla_invalid_length(size, length));
        }
        Ok(())
    }

    /// Returns the length in the header, which counts the header itself.
    pub fn length(&self) -> u16
        requires { 4 ≤ length (T.bytes (storage self.now)) }
        ensures { result ≡ viewed_length (T.bytes (storage self.now)) }
    {
        read_u16(self.buffer.as_bytes(), 0)
    }

    /// Returns the length of the payload.
    pub fn value_length(&self) -> usize
        requires { BeginsWithAttribute (T.bytes (storage self.now)) }
        ensures { result ≡ viewed_length (T.bytes (storage self.now)) - 4 }
    {
        self.length() as usize - NLA_HEADER_SIZE
    }

    /// Returns all 16 bits of the kind.
    pub fn raw_kind(&self) -> u16
        requires { 4 ≤ length (T.bytes (storage self.now)) }
        ensures { result ≡ viewed_kind (T.bytes (storage self.now)) }
    {
        read_u16(self.buffer.as_bytes(), 2)
    }

    /// Returns the kind without its flags: the low 14 bits.
    pub fn kind(&self) -> u16
        requires { 4 ≤ length (T.bytes (storage self.now)) }
        ensures { result ≡ proper_kind (viewed_kind (T.bytes (storage self.now))) }
    {
        self.raw_kind() & NLA_TYPE_MASK
    }

    /// Returns whether the nested flag is set, which marks the payload as a list of attributes.
    pub fn nested_flag(&self) -> bool
        requires { 4 ≤ length (T.bytes (storage self.now)) }
        ensures { result ≡ has_nested_flag (viewed_kind (T.bytes (storage self.now))) }
    {
        self.raw_kind() & NLA_F_NESTED != 0
    }

    /// Returns whether the flag of network byte order is set.
    #[tactic(auto, using(crate::proofs::Flags::byte_order_flag))]
    pub fn network_byte_order_flag(&self) -> bool
        requires { 4 ≤ length (T.bytes (storage self.now)) }
        ensures { result ≡ has_byte_order_flag (viewed_kind (T.bytes (storage self.now))) }
    {
        self.raw_kind() & NLA_F_NET_BYTEORDER != 0
    }
}

impl<'a> NlaBuffer<&'a [u8]> {
    /// Returns the payload, for as long as the storage lives.
    pub fn value(&self) -> &'a [u8]
        requires { BeginsWithAttribute (storage self.now).now }
        ensures { result.now ≡ viewed_payload (storage self.now).now }
    {
        let buffer = self.buffer;
        &buffer[NLA_HEADER_SIZE..self.length() as usize]
    }
}

impl<'a> NlaBuffer<&'a mut [u8]> {
    /// Returns the payload.
    pub fn value(&self) -> &[u8]
        requires { BeginsWithAttribute (storage self.now).now }
        ensures { result.now ≡ viewed_payload (storage self.now).now }
    {
        &self.buffer[NLA_HEADER_SIZE..self.length() as usize]
    }
}

impl NlaBuffer<Vec<u8>> {
    /// Returns the payload.
    pub fn value(&self) -> &[u8]
        requires { BeginsWithAttribute (storage self.now).items }
        ensures { result.now ≡ viewed_payload (storage self.now).items }
    {
        &self.buffer.as_slice()[NLA_HEADER_SIZE..self.length() as usize]
    }
}

impl<T: ByteViewMut> NlaBuffer<T> {
    /// Writes the header's length, which counts the header itself.
    pub fn set_length(&mut self, value: u16)
        requires { 4 ≤ length (T.ByteView.bytes (storage self.old)) }
        ensures bytes { T.ByteView.bytes (storage self.new)
            ≡ put_at 0 (le2 value) (T.ByteView.bytes (storage self.old)) }
        ensures same { T.same_storage (storage self.old) (storage self.new) }
    {
        write_u16(&mut self.buffer, 0, value);
    }

    /// Writes the low 14 bits of `kind`, and clears both flags.
    pub fn set_kind(&mut self, kind: u16)
        requires { 4 ≤ length (T.ByteView.bytes (storage self.old)) }
        ensures bytes { T.ByteView.bytes (storage self.new)
            ≡ with_kind (proper_kind kind) (T.ByteView.bytes (storage self.old)) }
        ensures same { T.same_storage (storage self.old) (storage self.new) }
    {
        write_u16(&mut self.buffer, 2, kind & NLA_TYPE_MASK);
    }

    /// Sets the nested flag and clears the other one; the low 14 bits of the kind are kept.
    pub fn set_nested_flag(&mut self)
        requires { 4 ≤ length (T.ByteView.bytes (storage self.old)) }
        ensures bytes { T.ByteView.bytes (storage self.new)
            ≡ with_kind (with_nested_flag (viewed_kind (T.ByteView.bytes (storage self.old))))
            (T.ByteView.bytes (storage self.old)) }
        ensures same { T.same_storage (storage self.old) (storage self.new) }
    {
        let kind = self.kind() | NLA_F_NESTED;
        write_u16(&mut self.buffer, 2, kind);
    }

    /// Sets the flag of network byte order and clears the other one; the low 14 bits of the kind
    /// are kept.
    pub fn set_network_byte_order_flag(&mut self)
        requires { 4 ≤ length (T.ByteView.bytes (storage self.old)) }
        ensures bytes { T.ByteView.bytes (storage self.new)
            ≡ with_kind (with_byte_order_flag (viewed_kind (T.ByteView.bytes (storage self.old))))
            (T.ByteView.bytes (storage self.old)) }
        ensures same { T.same_storage (storage self.old) (storage self.new) }
    {
        let kind = self.kind() | NLA_F_NET_BYTEORDER;
        write_u16(&mut self.buffer, 2, kind);
    }
}

impl<T: ByteLend> NlaBuffer<T> {
    ghost use Rattle.netlink_packet_core_attributes.specs.contracts.nla_buffer.NlaBuffer.{the_row};

    /// Borrows the payload, for writing.
    pub fn value_mut(&mut self) -> &mut [u8]
        requires { BeginsWithAttribute (T.ByteView.bytes (storage self.old)) }
        ensures* writes_back { sem 𝓛 (Lends (the_row T.row) (Array u8 0) self.entry result
            (with_value T.with_part self.old)) }
        ensures value { result.now ≡ viewed_payload (T.ByteView.bytes (storage self.old)) }
    {
        let end = self.length() as usize;
        self.buffer.part_mut(NLA_HEADER_SIZE, end)
    }
}
