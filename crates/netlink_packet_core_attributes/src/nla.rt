ghost use Rattle.std.specs.Prelude.{◌≡◌, ◌==◌, ◌&&◌, ◌+◌, ◌≤◌, ◌++◌, nat_le, nat_lt, Bool, true, length, drop};
ghost use Rattle.std.specs.Ordering.{on, eq_of_both};
ghost use Rattle.std.specs.Cmp.Lexicographic.{pointwise};
ghost use Rattle.std.specs.Cmp.Rules.{comparing};
ghost use Rattle.std.proofs.Common.{rules};
ghost use Rattle.netlink_packet_core_grammar.specs.Attributes.{nla_align, Attribute, attribute_length, attribute_text};
ghost use Rattle.netlink_packet_core_grammar.specs.AttributeViews.{viewed_attribute, viewed_payload, BeginsWithAttribute};
ghost use Rattle.netlink_packet_core_grammar.specs.Fits.{attribute_fits};
ghost use Rattle.netlink_packet_core_grammar.specs.Numbers.{as_usize};
ghost use Rattle.netlink_packet_core_attributes.specs.AttributeHeaders.{with_header};
ghost use Rattle.netlink_packet_core_attributes.specs.Kinds.{has_nested_flag, has_byte_order_flag};
ghost use Rattle.netlink_packet_core_attributes.specs.NlaBuffers.{storage};

use super::nla_buffer::NlaBuffer;
use super::traits::Parseable;
use netlink_packet_core_numbers::error::DecodeError;
use std::alloc::Global;
use std::marker::Model;

/// The flag of a kind whose payload is a list of attributes (netlink.h).
pub const NLA_F_NESTED: u16 = 0x8000;
/// The flag of a kind whose payload is a number in network byte order (netlink.h).
pub const NLA_F_NET_BYTEORDER: u16 = 0x4000;
/// The mask of a kind without its flags: the low 14 bits.
pub const NLA_TYPE_MASK: u16 = 0x3fff;
/// The alignment of attributes in bytes.
pub const NLA_ALIGNTO: usize = 4;
/// The size of an attribute's header in bytes: length and kind.
pub const NLA_HEADER_SIZE: usize = 4;

/// Returns the least multiple of 4 that is at least `n`.
pub fn nla_align(n: usize) -> usize
    requires { n ≤ 18446744073709551611 }
    ensures { result ≡ nla_align n }
{
    (n + NLA_ALIGNTO - 1) / NLA_ALIGNTO * NLA_ALIGNTO
}

/// Returns the encoded length of an attribute with a payload of `value_len` bytes: header, payload
/// and padding. A greater length saturates at `usize::MAX`.
pub fn attribute_len(value_len: usize) -> usize
    ensures { result ≡ as_usize (nla_align (4 + value_len)) }
{
    // Beyond this, adding the header and aligning would overflow.
    if value_len > usize::MAX - 7 {
        return usize::MAX;
    }
    NLA_HEADER_SIZE + nla_align(value_len)
}

/// Returns whether a payload of `value_len` bytes fits the 2 bytes of the header's length.
pub fn length_fits(value_len: usize) -> bool
    ensures { result ≡ nat_le (4 + value_len) 65535 }
{
    value_len <= u16::MAX as usize - NLA_HEADER_SIZE
}

/// Writes the header and the padding of an attribute whose payload has `value_len` bytes. The bytes
/// of the payload and the rest of the buffer are left unchanged.
#[tactic(auto, using(crate::proofs::Headers::headers))]
pub fn emit_header(buffer: &mut [u8], kind: u16, value_len: usize)
    requires fits { 4 + value_len ≤ 65535 }
    requires capacity { nla_align (4 + value_len) ≤ length buffer.old }
    ensures { buffer.new ≡ with_header kind value_len buffer.old }
{
    let (prefix, _) = buffer.split_at_mut(attribute_len(value_len));
    let (header, rest) = prefix.split_at_mut(NLA_HEADER_SIZE);
    let (length, kind_bytes) = header.split_at_mut(2);
    length.copy_from_slice(&((NLA_HEADER_SIZE + value_len) as u16).to_le_bytes());
    kind_bytes.copy_from_slice(&kind.to_le_bytes());
    let (_, padding) = rest.split_at_mut(value_len);
    padding.fill(0);
}

/// A value that is written as an attribute: a header of 4 bytes, the payload, and zeros up to a
/// multiple of 4 (netlink.h, `struct nlattr`).
pub trait Nla {
    /// The kind with its flags, and the bytes of the payload.
    ghost entry: { Self → Attribute };

    /// Whether each attribute inside the payload fits its header.
    ghost inside_fits: { Self → Bool };

    /// Returns the length of the payload; it saturates at `usize::MAX`.
    fn value_len(&self) -> usize
        ensures { result ≡ as_usize (length (entry self.now).payload) };

    /// Returns the kind, all 16 bits.
    fn kind(&self) -> u16
        ensures { result ≡ (entry self.now).kind };

    /// Writes the payload into a buffer of its size.
    fn emit_value(&self, buffer: &mut [u8])
        requires fits { inside_fits self.now ≡ true }
        requires capacity { length buffer.old ≡ length (entry self.now).payload }
        ensures { buffer.new ≡ (entry self.now).payload };

    /// Returns whether each attribute inside the payload fits its header; true if there is none.
    fn contents_fit(&self) -> bool
        ensures { result ≡ inside_fits self.now };

    /// Returns whether the kind has the nested flag.
    fn is_nested(&self) -> bool
        ensures { result ≡ has_nested_flag (entry self.now).kind }
    {
        self.kind() & NLA_F_NESTED != 0
    }

    /// Returns whether the kind has the flag of network byte order.
    #[tactic(auto, using(crate::proofs::Flags::byte_order_flag))]
    fn is_network_byteorder(&self) -> bool
        ensures { result ≡ has_byte_order_flag (entry self.now).kind }
    {
        self.kind() & NLA_F_NET_BYTEORDER != 0
    }

    /// Returns whether the length fits the 2 bytes of the header, here and in each attribute
    /// inside.
    fn fits(&self) -> bool
        ensures { result ≡ (attribute_fits (entry self.now) && inside_fits self.now) }
    {
        length_fits(self.value_len()) && self.contents_fit()
    }

    /// Returns the length of header, payload and padding; it saturates at `usize::MAX`.
    fn buffer_len(&self) -> usize
        ensures { result ≡ as_usize (nla_align (attribute_length (entry self.now))) }
    {
        attribute_len(self.value_len())
    }

    /// Writes header, payload and padding at the start of a buffer; the rest of the buffer is left
    /// unchanged.
    fn emit(&self, buffer: &mut [u8])
        requires fits { (attribute_fits (entry self.now) && inside_fits self.now) ≡ true }
        requires capacity { nla_align (attribute_length (entry self.now)) ≤ length buffer.old }
        ensures { buffer.new
            ≡ attribute_text (entry self.now)
            ++ drop (nla_align (attribute_length (entry self.now))) buffer.old }
    {
        let size = self.value_len();
        emit_header(buffer, self.kind(), size);
        self.emit_value(&mut buffer[NLA_HEADER_SIZE..NLA_HEADER_SIZE + size]);
    }
}

/// An attribute kept as it is: all 16 bits of its kind, and its payload.
#[derive(Clone, Debug, Drop)]
pub struct DefaultNla {
    kind: u16,
    value: Vec<u8>,
}

impl Model for DefaultNla {
    ghost Value = { Attribute };

    ghost view = { λ a. record { kind = a.kind; payload = a.value.items } };
}

impl PartialEq for DefaultNla {
    ghost eq = { eq_of_both (on (λ a. a.kind) ◌==◌) (on (λ a. a.payload) (pointwise ◌==◌)) };

    ghost laws = { Prim.search (comparing, rules) };

    fn eq(&self, other: &DefaultNla) -> bool {
        self.kind == other.kind && self.value == other.value
    }
}

impl Eq for DefaultNla {
    ghost laws = { Prim.search (comparing, rules) };
}

impl DefaultNla {
    /// Returns an attribute of this kind, flags included, and this payload.
    pub fn new(kind: u16, value: Vec<u8>) -> Self
        ensures { result ≡ record { kind = kind; payload = value.items } }
    {
        DefaultNla { kind, value }
    }

    /// Returns the payload.
    pub fn value(&self) -> &[u8]
        ensures { result.now ≡ self.now.payload }
    {
        self.value.as_slice()
    }
}

impl Nla for DefaultNla {
    ghost entry = { λ a. a };

    ghost inside_fits = { λ _. true };

    fn value_len(&self) -> usize {
        self.value.len()
    }

    fn kind(&self) -> u16 {
        self.kind
    }

    fn emit_value(&self, buffer: &mut [u8]) {
        buffer.copy_from_slice(self.value());
    }

    fn contents_fit(&self) -> bool {
        true
    }
}

impl<'a> Parseable<NlaBuffer<&'a [u8]>> for DefaultNla {
    ghost can_parse = { λ b. BeginsWithAttribute (storage b).now };

    ghost accepts = { λ _. true };

    ghost may_allocate = { λ b. nat_lt 0 (length (viewed_payload (storage b).now)) };

    ghost gives = { λ b v. v ≡ viewed_attribute (storage b).now };

    fn parse(alloc: Global, buf: &NlaBuffer<&'a [u8]>) -> Result<Self, DecodeError> {
        let payload = buf.value();
        if payload.is_empty() {
            return Ok(DefaultNla::new(buf.raw_kind(), Vec::new(alloc)));
        }
        let value = Vec::from_slice(alloc, payload)?;
        Ok(DefaultNla::new(buf.raw_kind(), value))
    }
}
