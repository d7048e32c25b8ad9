//! The IPv6 state and settings of a link (if_link.h, IFLA_INET6_*). Numbers are little-endian.

ghost use Rattle.std.specs.Prelude.{◌≡◌, true};
ghost use Rattle.netlink_packet_core.specs.AttributeViews.{BeginsWithAttribute};
ghost use Rattle.netlink_packet_core.specs.Families.{Gives, accepts, may_allocate};
ghost use Rattle.netlink_packet_core.specs.NlaBuffers.{storage};
ghost use Rattle.attribute_tables_grammar.specs.LookUps.{table_row};
ghost use Rattle.attribute_tables_grammar.specs.Peers.{bytes_peer};
ghost use Rattle.link_message_grammar.specs.NestedTables.{inet6};
ghost use Rattle.link_message_nested.specs.Inet6Settings.{af_spec_inet_6_entry, af_spec_inet_6_names_row};

use attribute_tables::Reader;
use link_message_records::{
    FieldRecord, Icmp6Stats, Inet6CacheInfo, Inet6DevConf, Inet6Stats, emit_record, read_settings,
};
use link_message_types::{Flags, In6AddrGenMode, Inet6IfaceFlags};
use netlink_packet_core::{
    DecodeError, DefaultNla, Emitable, Nla, NlaBuffer, Parseable, fill_u8, fill_u32,
    parse_ipv6_addr, parse_u8, parse_u32,
};
use std::alloc::Global;
use std::net::Ipv6Addr;

const IFLA_INET6_FLAGS: u16 = 1;

const IFLA_INET6_CONF: u16 = 2;

const IFLA_INET6_STATS: u16 = 3;

const IFLA_INET6_CACHEINFO: u16 = 5;

const IFLA_INET6_ICMP6STATS: u16 = 6;

const IFLA_INET6_TOKEN: u16 = 7;

const IFLA_INET6_ADDR_GEN_MODE: u16 = 8;

const IFLA_INET6_RA_MTU: u16 = 9;

/// An attribute of the IPv6 state and settings of a link.
#[derive(Debug, PartialEq, Eq, Drop)]
pub enum AfSpecInet6 {
    /// `IFLA_INET6_FLAGS`: the state of router discovery; 4 bytes, of which every bit is kept.
    Flags(Inet6IfaceFlags),
    /// `IFLA_INET6_CACHEINFO`: timers; 16 bytes, and any bytes after them are dropped when reading.
    CacheInfo(Inet6CacheInfo),
    /// `IFLA_INET6_CONF`: all settings, written as 236 bytes and read from any number of bytes.
    DevConf(Inet6DevConf),
    /// `IFLA_INET6_STATS`: statistics, written as 304 bytes and read from any number of bytes.
    Stats(Inet6Stats),
    /// `IFLA_INET6_ICMP6STATS`: statistics of ICMPv6, written as 56 bytes and read from any number
    /// of bytes.
    Icmp6Stats(Icmp6Stats),
    /// `IFLA_INET6_TOKEN`: the interface identifier of the addresses that the link generates; 16
    /// bytes.
    Token(Ipv6Addr),
    /// `IFLA_INET6_ADDR_GEN_MODE`: how the link generates its addresses; 1 byte.
    AddrGenMode(In6AddrGenMode),
    /// `IFLA_INET6_RA_MTU`: the MTU that a router advertised; 4 bytes.
    RaMtu(u32),
    /// Any other kind, kept unchanged.
    Other(DefaultNla),
}

impl Nla for AfSpecInet6 {
    ghost entry = { af_spec_inet_6_entry };

    ghost inside_fits = { λ _. true };

    #[tactic(auto, using(netlink_packet_core_grammar::proofs::Sizes::sizes))]
    fn value_len(&self) -> usize {
        match self {
            Self::Flags(_) | Self::RaMtu(_) => 4,
            Self::CacheInfo(record) => record.buffer_len(),
            Self::DevConf(record) => record.buffer_len(),
            Self::Stats(record) => record.buffer_len(),
            Self::Icmp6Stats(record) => record.buffer_len(),
            Self::Token(address) => address.octets().len(),
            Self::AddrGenMode(_) => 1,
            Self::Other(nla) => nla.value_len(),
        }
    }

    fn kind(&self) -> u16 {
        match self {
            Self::Flags(_) => IFLA_INET6_FLAGS,
            Self::CacheInfo(_) => IFLA_INET6_CACHEINFO,
            Self::DevConf(_) => IFLA_INET6_CONF,
            Self::Stats(_) => IFLA_INET6_STATS,
            Self::Icmp6Stats(_) => IFLA_INET6_ICMP6STATS,
            Self::Token(_) => IFLA_INET6_TOKEN,
            Self::AddrGenMode(_) => IFLA_INET6_ADDR_GEN_MODE,
            Self::RaMtu(_) => IFLA_INET6_RA_MTU,
            Self::Other(nla) => nla.kind(),
        }
    }

    #[tactic(auto, using(netlink_packet_core_grammar::proofs::Sizes::sizes))]
    fn emit_value(&self, buffer: &mut [u8]) {
        match self {
            Self::Flags(flags) => fill_u32(buffer, flags.bits()),
            Self::CacheInfo(record) => emit_record(record, buffer),
            Self::DevConf(record) => emit_record(record, buffer),
            Self::Stats(record) => emit_record(record, buffer),
            Self::Icmp6Stats(record) => emit_record(record, buffer),
            Self::Token(address) => buffer.copy_from_slice(&address.octets()),
            Self::AddrGenMode(mode) => fill_u8(buffer, u8::from(mode)),
            Self::RaMtu(number) => fill_u32(buffer, *number),
            Self::Other(nla) => nla.emit_value(buffer),
        }
    }

    fn contents_fit(&self) -> bool {
        true
    }
}

/// The reader of the attributes of IPv6.
pub struct AfSpecInet6Reader;

impl Reader for AfSpecInet6Reader {
    type Value = AfSpecInet6;

    ghost row_of = { λ _. table_row bytes_peer inet6 };

    ghost is_row_variant = { λ _. af_spec_inet_6_names_row };

    ghost may_allocate = { λ _. may_allocate inet6 };

    fn read(&self, alloc: Global, buf: &NlaBuffer<&[u8]>) -> Result<AfSpecInet6, DecodeError> {
        let payload = buf.value();
        match buf.kind() {
            IFLA_INET6_FLAGS => Ok(AfSpecInet6::Flags(Inet6IfaceFlags::from_bits_retain(parse_u32(
                payload,
            )?))),
            IFLA_INET6_CONF => Ok(AfSpecInet6::DevConf(read_settings(payload))),
            IFLA_INET6_STATS => Ok(AfSpecInet6::Stats(read_settings(payload))),
            IFLA_INET6_CACHEINFO => Ok(AfSpecInet6::CacheInfo(Inet6CacheInfo::parse(payload)?)),
            IFLA_INET6_ICMP6STATS => Ok(AfSpecInet6::Icmp6Stats(read_settings(payload))),
            IFLA_INET6_TOKEN => Ok(AfSpecInet6::Token(parse_ipv6_addr(payload)?)),
            IFLA_INET6_ADDR_GEN_MODE => Ok(AfSpecInet6::AddrGenMode(In6AddrGenMode::from(parse_u8(
                payload,
            )?))),
            IFLA_INET6_RA_MTU => Ok(AfSpecInet6::RaMtu(parse_u32(payload)?)),
            _ => Ok(AfSpecInet6::Other(DefaultNla::parse(alloc, buf)?)),
        }
    }
}

impl<'a> Parseable<NlaBuffer<&'a [u8]>> for AfSpecInet6 {
    ghost can_parse = { λ b. BeginsWithAttribute (storage b).now };

    ghost accepts = { λ b. accepts inet6 (storage b).now };

    ghost may_allocate = { λ b. may_allocate inet6 (storage b).now };

    ghost gives = { λ b v. Gives inet6 (storage b).now (af_spec_inet_6_entry v)
        × af_spec_inet_6_names_row v };

    fn parse(alloc: Global, buf: &NlaBuffer<&'a [u8]>) -> Result<Self, DecodeError> {
        AfSpecInet6Reader.read(alloc, buf)
    }
}
