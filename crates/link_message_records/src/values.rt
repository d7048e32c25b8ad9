//! Records of many numbers of one size.

ghost use Rattle.std.specs.Prelude.{◌≡◌, ◌*◌, ◌≤◌, ◌++◌, ⊤, ℕ, length, take, drop, true, false, IsOk, IfOk, IfErr};
ghost use Rattle.std.specs.List.{flat_map};
ghost use Rattle.netlink_packet_core.specs.Attributes.{zeros};
ghost use Rattle.netlink_packet_core.specs.Errors.{is_memory};
ghost use Rattle.netlink_packet_core.specs.Numbers.{le4, le8, as_usize, signed_bits};
ghost use Rattle.attribute_tables_grammar.specs.Shapes.{meaning, encoding, resized};
ghost use Rattle.link_message_records.specs.Numbers.{le4_size, le8_size};
ghost use Rattle.link_message_records.specs.ValueRecords.{settings_rule};

use super::fields::Fields;
use super::vf::filled;
use link_message_types::{Record, RecordBuffer};
use netlink_packet_core::{DecodeError, Emitable, parse_u32, parse_u64};

/// A little-endian number of a fixed size.
pub trait Number: Fields {
    /// Returns the size of the number in bytes.
    fn len() -> usize
        ensures { result ≡ Self.size };

    /// Reads the number at the start of some bytes, with zeros for missing bytes, and returns it
    /// with the bytes that follow.
    fn read_filled(prefix: &[u8]) -> (Self, &[u8])
        ensures number { Self.bytes result.0 ≡ take Self.size (prefix.now ++ zeros Self.size) }
        ensures rest { result.1.now ≡ drop Self.size prefix.now };

    /// Every number has the same size.
    ghost has_size: { (v : Self) → length (Self.bytes v) ≡ Self.size };
}

impl Number for u32 {
    fn len() -> usize {
        4
    }

    fn read_filled(prefix: &[u8]) -> (Self, &[u8]) {
        let bytes: [u8; 4] = filled(prefix);
        let number = match parse_u32(&bytes) {
            Ok(number) => number,
            Err(_) => unreachable!(),
        };
        let (_, rest) = prefix.split_at(prefix.len().min(4));
        (number, rest)
    }

    ghost has_size = { le4_size };
}

impl Number for u64 {
    fn len() -> usize {
        8
    }

    fn read_filled(prefix: &[u8]) -> (Self, &[u8]) {
        let bytes: [u8; 8] = filled(prefix);
        let number = match parse_u64(&bytes) {
            Ok(number) => number,
            Err(_) => unreachable!(),
        };
        let (_, rest) = prefix.split_at(prefix.len().min(8));
        (number, rest)
    }

    ghost has_size = { le8_size };
}

/// A signed number of 4 bytes, little-endian.
impl Fields for i32 {
    ghost bytes = { λ z. le4 (signed_bits z) };

    ghost size = { 4 };

    #[tactic(auto, using(netlink_packet_core_grammar::proofs::Numbers::signs))]
    fn read_prefix(prefix: &[u8]) -> Option<(Self, &[u8])> {
        let (number, rest) = u32::read_prefix(prefix)?;
        Some((number.cast_signed(), rest))
    }

    #[tactic(auto, using(netlink_packet_core_grammar::proofs::Numbers::signs))]
    fn write_prefix(&self, buffer: &mut [u8]) -> usize {
        self.cast_unsigned().write_prefix(buffer)
    }
}

impl Number for i32 {
    fn len() -> usize {
        4
    }

    #[tactic(auto, using(netlink_packet_core_grammar::proofs::Numbers::signs))]
    fn read_filled(prefix: &[u8]) -> (Self, &[u8]) {
        let (number, rest) = u32::read_filled(prefix);
        (number.cast_signed(), rest)
    }

    ghost has_size = { λ z. le4_size (signed_bits z) };
}

/// Numbers in the order of the bytes. What newer kernels append is dropped; numbers that are
/// missing are 0.
#[derive(Debug, PartialEq, Eq, Clone, Copy)]
pub struct Values<T, const N: usize> {
    /// The numbers.
    pub values: [T; N],
}

impl<T: Number, const N: usize> Values<T, N> {
    /// Reads numbers from any bytes: excess bytes are dropped, and missing ones are read as zeros.
    /// Allocates nothing.
    ///
    /// # Errors
    ///
    /// Never fails.
    pub fn parse(payload: &[u8]) -> Result<Self, DecodeError>
        ensures size { IsOk result }
        ensures text { IfOk result
            (λ v. flat_map T.bytes v.values
            ≡ encoding (resized (T.size * N)) (meaning (resized (T.size * N)) payload.now)) }
        ensures err { IfErr result (λ e. is_memory e ≡ false) }
    {
        let (zero, _) = T::read_filled(&[]);
        let mut values = [zero; N];
        let mut rest = payload;
        for i in 0..N {
            let (number, after) = T::read_filled(rest);
            values[i] = number;
            rest = after;
        }
        Ok(Values { values })
    }
}

/// Reads the numbers of a row of settings; any bytes are accepted.
#[tactic(auto, unfolding(link_message_grammar::specs::NestedTables::resized))]
pub fn read_settings<T: Number, const N: usize>(payload: &[u8]) -> Values<T, N>
    ensures accepted { (settings_rule (T.size * N)).accepted payload.now ≡ true }
    ensures text { flat_map T.bytes result.values
        ≡ (settings_rule (T.size * N)).canonical payload.now }
    ensures fits { (settings_rule (T.size * N)).fits payload.now ≡ true }
{
    match Values::parse(payload) {
        Ok(values) => values,
        Err(_) => unreachable!(),
    }
}

impl<T: Number, const N: usize> Emitable for Values<T, N> {
    ghost text = { λ v. flat_map T.bytes v.values };

    ghost can_emit = { λ _. ⊤ };

    fn buffer_len(&self) -> usize {
        T::len().saturating_mul(self.values.as_slice().len())
    }

    fn emit(&self, buffer: &mut [u8]) {
        write_values(self.values.as_slice(), buffer);
    }
}

/// Writes numbers, one after the other, to the start of a buffer, and leaves the rest of the buffer
/// unchanged.
fn write_values<T: Number>(values: &[T], buffer: &mut [u8])
    requires { length (flat_map T.bytes values.now) ≤ length buffer.old }
    ensures { buffer.new
        ≡ flat_map T.bytes values.now ++ drop (length (flat_map T.bytes values.now)) buffer.old }
{
    let mut at = 0usize;
    for value in values {
        let (_, rest) = buffer.split_at_mut(at);
        at += value.write_prefix(rest);
    }
}

/// Returns the bytes of numbers.
fn values_to_bytes<T: Number, const N: usize, const M: usize>(numbers: &Values<T, N>) -> [u8; M]
    requires { T.size * N ≡ M }
    ensures { result ≡ flat_map T.bytes numbers.now.values }
{
    let mut bytes = [0; M];
    write_values(numbers.values.as_slice(), &mut bytes);
    bytes
}

/// The statistics of a link, `struct rtnl_link_stats` of `linux/if_link.h`: 24 numbers of 4 bytes.
pub type Stats = Values<u32, 24>;

/// The statistics of a link, `struct rtnl_link_stats64` of `linux/if_link.h`: 25 numbers of 8
/// bytes.
pub type Stats64 = Values<u64, 25>;

/// Settings of IPv4 on a link, `IPV4_DEVCONF_*` of `linux/ip.h`: 33 signed numbers of 4 bytes.
pub type InetDevConf = Values<i32, 33>;

/// Settings of IPv6 on a link, `DEVCONF_*` of `linux/ipv6.h`: 59 signed numbers of 4 bytes.
pub type Inet6DevConf = Values<i32, 59>;

/// Statistics of IPv6 on a link, `IPSTATS_MIB_*` of `linux/snmp.h`: 38 numbers of 8 bytes.
pub type Inet6Stats = Values<u64, 38>;

/// Statistics of ICMPv6 on a link, `ICMP6_MIB_*` of `linux/snmp.h`: 7 numbers of 8 bytes.
pub type Icmp6Stats = Values<u64, 7>;

impl Record<96> for Stats {
    fn to_bytes(&self) -> [u8; 96] {
        values_to_bytes(self)
    }
}

/// The 96 bytes of a `Stats`.
pub type StatsBuffer = RecordBuffer<Stats, 96>;

impl Record<200> for Stats64 {
    fn to_bytes(&self) -> [u8; 200] {
        values_to_bytes(self)
    }
}

/// The 200 bytes of a `Stats64`.
pub type Stats64Buffer = RecordBuffer<Stats64, 200>;

impl Record<132> for InetDevConf {
    fn to_bytes(&self) -> [u8; 132] {
        values_to_bytes(self)
    }
}

/// The 132 bytes of a `InetDevConf`.
pub type InetDevConfBuffer = RecordBuffer<InetDevConf, 132>;

impl Record<236> for Inet6DevConf {
    fn to_bytes(&self) -> [u8; 236] {
        values_to_bytes(self)
    }
}

/// The 236 bytes of a `Inet6DevConf`.
pub type Inet6DevConfBuffer = RecordBuffer<Inet6DevConf, 236>;

impl Record<304> for Inet6Stats {
    fn to_bytes(&self) -> [u8; 304] {
        values_to_bytes(self)
    }
}

/// The 304 bytes of a `Inet6Stats`.
pub type Inet6StatsBuffer = RecordBuffer<Inet6Stats, 304>;

impl Record<56> for Icmp6Stats {
    fn to_bytes(&self) -> [u8; 56] {
        values_to_bytes(self)
    }
}

/// The 56 bytes of a `Icmp6Stats`.
pub type Icmp6StatsBuffer = RecordBuffer<Icmp6Stats, 56>;
