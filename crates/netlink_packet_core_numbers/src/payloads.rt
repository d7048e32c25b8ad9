//! Writes whole payloads, into buffers that have exactly the value's size.

ghost use Rattle.std.specs.Prelude.{◌≡◌, ◌+◌, ◌∷◌, ◌++◌, [], length};
ghost use Rattle.netlink_packet_core_grammar.specs.Numbers.{le2, le4, le8, be2, be4, be8};
ghost use Rattle.netlink_packet_core_grammar.specs.Booleans.{boolean_byte};
ghost use Rattle.netlink_packet_core_numbers.specs.Addresses.{ip_octets};

use std::net::IpAddr;

/// Writes a byte.
pub fn fill_u8(buffer: &mut [u8], value: u8)
    requires { length buffer.old ≡ 1 }
    ensures { buffer.new ≡ value ∷ [] }
{
    buffer.copy_from_slice(&[value]);
}

/// Writes a boolean as a byte, 1 or 0.
pub fn fill_bool(buffer: &mut [u8], value: bool)
    requires { length buffer.old ≡ 1 }
    ensures { buffer.new ≡ boolean_byte value }
{
    buffer.copy_from_slice(&[if value { 1 } else { 0 }]);
}

/// Writes a number of 2 bytes, little-endian.
#[tactic(auto, using(netlink_packet_core_grammar::proofs::Numbers::digits))]
pub fn fill_u16(buffer: &mut [u8], value: u16)
    requires { length buffer.old ≡ 2 }
    ensures { buffer.new ≡ le2 value }
{
    buffer.copy_from_slice(&u16::to_le_bytes(value));
}

/// Writes a number of 4 bytes, little-endian.
#[tactic(auto, using(netlink_packet_core_grammar::proofs::Numbers::digits))]
pub fn fill_u32(buffer: &mut [u8], value: u32)
    requires { length buffer.old ≡ 4 }
    ensures { buffer.new ≡ le4 value }
{
    buffer.copy_from_slice(&u32::to_le_bytes(value));
}

/// Writes a number of 8 bytes, little-endian.
#[tactic(auto, using(netlink_packet_core_grammar::proofs::Numbers::digits))]
pub fn fill_u64(buffer: &mut [u8], value: u64)
    requires { length buffer.old ≡ 8 }
    ensures { buffer.new ≡ le8 value }
{
    buffer.copy_from_slice(&u64::to_le_bytes(value));
}

/// Writes a number of 2 bytes, big-endian.
#[tactic(auto, using(netlink_packet_core_grammar::proofs::Numbers::digits))]
pub fn fill_u16_be(buffer: &mut [u8], value: u16)
    requires { length buffer.old ≡ 2 }
    ensures { buffer.new ≡ be2 value }
{
    buffer.copy_from_slice(&u16::to_be_bytes(value));
}

/// Writes a number of 4 bytes, big-endian.
#[tactic(auto, using(netlink_packet_core_grammar::proofs::Numbers::digits))]
pub fn fill_u32_be(buffer: &mut [u8], value: u32)
    requires { length buffer.old ≡ 4 }
    ensures { buffer.new ≡ be4 value }
{
    buffer.copy_from_slice(&u32::to_be_bytes(value));
}

/// Writes a number of 8 bytes, big-endian.
#[tactic(auto, using(netlink_packet_core_grammar::proofs::Numbers::digits))]
pub fn fill_u64_be(buffer: &mut [u8], value: u64)
    requires { length buffer.old ≡ 8 }
    ensures { buffer.new ≡ be8 value }
{
    buffer.copy_from_slice(&u64::to_be_bytes(value));
}

/// Writes a range of ports: the first and the last one, 2 bytes each, big-endian.
#[tactic(auto, using(netlink_packet_core_grammar::proofs::Sizes::sizes))]
pub fn fill_range(buffer: &mut [u8], range: (u16, u16))
    requires { length buffer.old ≡ 4 }
    ensures { buffer.new ≡ be2 range.0 ++ be2 range.1 }
{
    let (low, high) = buffer.split_at_mut(2);
    fill_u16_be(low, range.0);
    fill_u16_be(high, range.1);
}

/// Writes a hardware address.
pub fn fill_mac(buffer: &mut [u8], address: &[u8; 6])
    requires { length buffer.old ≡ 6 }
    ensures { buffer.new ≡ address.now }
{
    buffer.copy_from_slice(address);
}

/// Returns the length of an address: 4 (IPv4) or 16 (IPv6).
pub fn ip_len(address: &IpAddr) -> usize
    ensures { result ≡ length (ip_octets address.now) }
{
    match address {
        IpAddr::V4(address) => address.octets().len(),
        IpAddr::V6(address) => address.octets().len(),
    }
}

/// Writes the bytes of an address.
pub fn fill_ip(buffer: &mut [u8], address: &IpAddr)
    requires { length buffer.old ≡ length (ip_octets address.now) }
    ensures { buffer.new ≡ ip_octets address.now }
{
    match address {
        IpAddr::V4(address) => buffer.copy_from_slice(&address.octets()),
        IpAddr::V6(address) => buffer.copy_from_slice(&address.octets()),
    }
}

/// Writes a text and one NUL.
pub fn fill_text(buffer: &mut [u8], text: &str)
    requires { length buffer.old ≡ length text.now + 1 }
    ensures { buffer.new ≡ text.now ++ 0 ∷ [] }
{
    let (prefix, last) = buffer.split_at_mut(text.len());
    prefix.copy_from_slice(text.as_bytes());
    last.copy_from_slice(&[0]);
}
