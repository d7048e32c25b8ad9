//! Payloads that hold no attributes.

ghost use Rattle.std.specs.Prelude.{◌≡◌, length};
ghost use Rattle.netlink_packet_core_grammar.specs.Numbers.{as_usize};
ghost use Rattle.netlink_packet_core_attributes.specs.Fields.{field_bytes};

use netlink_packet_core_numbers::{
    fill_bool, fill_ip, fill_range, fill_text, fill_u8, fill_u16, fill_u16_be, fill_u32,
    fill_u32_be, fill_u64, fill_u64_be, ip_len,
};
use std::net::{IpAddr, Ipv4Addr, Ipv6Addr};

/// A payload that holds no attributes: a number, a boolean, an address, a text or bytes.
#[derive(Clone, Copy)]
pub enum Field<'a> {
    /// No bytes.
    Empty,
    /// 1 byte.
    U8(u8),
    /// 2 bytes, little-endian.
    U16(u16),
    /// 4 bytes, little-endian.
    U32(u32),
    /// 8 bytes, little-endian.
    U64(u64),
    /// 2 bytes, big-endian.
    U16Be(u16),
    /// 4 bytes, big-endian.
    U32Be(u32),
    /// 8 bytes, big-endian.
    U64Be(u64),
    /// 1 byte, 0 or 1.
    Bool(bool),
    /// A range of ports, 2 bytes each, big-endian.
    Range((u16, u16)),
    /// Two numbers of 4 bytes, little-endian.
    U32Pair(u32, u32),
    /// 4 bytes.
    Ipv4(Ipv4Addr),
    /// 16 bytes.
    Ipv6(Ipv6Addr),
    /// 4 or 16 bytes.
    Ip(IpAddr),
    /// A text and a NUL.
    Text(&'a str),
    /// Bytes as they are.
    Bytes(&'a [u8]),
}

impl<'a> Field<'a> {
    ghost use Rattle.std.specs.Prelude.{◌≡◌};

    /// Returns the length in bytes.
    #[tactic(auto, using(netlink_packet_core_grammar::proofs::Sizes::sizes, netlink_packet_core_numbers::proofs::Sizes::range))]
    pub fn len(self) -> usize
        ensures { result ≡ as_usize (length (field_bytes self.entry)) }
    {
        match self {
            Field::Empty => 0,
            Field::U8(_) | Field::Bool(_) => 1,
            Field::U16(_) | Field::U16Be(_) => 2,
            Field::U32(_) | Field::U32Be(_) | Field::Range(_) => 4,
            Field::U64(_) | Field::U64Be(_) | Field::U32Pair(_, _) => 8,
            Field::Ipv4(address) => address.octets().len(),
            Field::Ipv6(address) => address.octets().len(),
            Field::Ip(address) => ip_len(&address),
            Field::Text(text) => text.len() + 1,
            Field::Bytes(bytes) => bytes.len(),
        }
    }

    /// Writes the bytes into a buffer of their size.
    #[tactic(auto, using(netlink_packet_core_grammar::proofs::Sizes::sizes, netlink_packet_core_numbers::proofs::Sizes::range))]
    pub fn fill(self, buffer: &mut [u8])
        requires { length buffer.old ≡ length (field_bytes self) }
        ensures { buffer.new ≡ field_bytes self.entry }
    {
        match self {
            Field::Empty => {}
            Field::U8(number) => fill_u8(buffer, number),
            Field::U16(number) => fill_u16(buffer, number),
            Field::U32(number) => fill_u32(buffer, number),
            Field::U64(number) => fill_u64(buffer, number),
            Field::U16Be(number) => fill_u16_be(buffer, number),
            Field::U32Be(number) => fill_u32_be(buffer, number),
            Field::U64Be(number) => fill_u64_be(buffer, number),
            Field::Bool(boolean) => fill_bool(buffer, boolean),
            Field::Range(range) => fill_range(buffer, range),
            Field::U32Pair(first, second) => {
                let (prefix, back) = buffer.split_at_mut(4);
                fill_u32(prefix, first);
                fill_u32(back, second);
            }
            Field::Ipv4(address) => buffer.copy_from_slice(&address.octets()),
            Field::Ipv6(address) => buffer.copy_from_slice(&address.octets()),
            Field::Ip(address) => fill_ip(buffer, &address),
            Field::Text(text) => fill_text(buffer, text),
            Field::Bytes(bytes) => buffer.copy_from_slice(bytes),
        }
    }
}
