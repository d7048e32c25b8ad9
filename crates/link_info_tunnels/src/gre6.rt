//! Data of the kinds `ip6gre`, `ip6gretap` and `ip6erspan` (if_tunnel.h, IFLA_GRE_*). Numbers are
//! little-endian unless noted.

ghost use Rattle.std.specs.Prelude.{refl, IfNone, IfSome, [], ◌∷◌, ◌≡◌, ◌≢◌};
ghost use Rattle.std.specs.Net.Addr.{ipv6_octets};
ghost use Rattle.netlink_packet_core.specs.Numbers.{be2, be4, le2, le4};
ghost use Rattle.netlink_packet_core.specs.Families.{attribute};
ghost use Rattle.link_info_grammar.specs.Families.{gre6};
ghost use Rattle.link_info_tunnels.specs.Gre6.{gre6_entry, gre6_is_row_variant};

use super::gre_common::{
    IFLA_GRE_COLLECT_METADATA, IFLA_GRE_ENCAP_DPORT, IFLA_GRE_ENCAP_FLAGS, IFLA_GRE_ENCAP_LIMIT,
    IFLA_GRE_ENCAP_SPORT, IFLA_GRE_ENCAP_TYPE, IFLA_GRE_ERSPAN_DIR, IFLA_GRE_ERSPAN_HWID,
    IFLA_GRE_ERSPAN_INDEX, IFLA_GRE_ERSPAN_VER, IFLA_GRE_FLOWINFO, IFLA_GRE_FWMARK,
    IFLA_GRE_IFLAGS, IFLA_GRE_IKEY, IFLA_GRE_LINK, IFLA_GRE_LOCAL, IFLA_GRE_OFLAGS, IFLA_GRE_OKEY,
    IFLA_GRE_REMOTE, IFLA_GRE_TOS, IFLA_GRE_TTL,
};
use attribute_tables::typed;
use link_info_types::{ErSpanDir, Flags, GreEncapFlags, GreEncapType, GreIOFlags};
use netlink_packet_core::{
    DecodeError, DefaultNla, Family, Field, FieldNla, Nla, parse_ipv6_addr, parse_u8, parse_u16,
    parse_u16_be, parse_u32, parse_u32_be,
};
use std::alloc::Global;
use std::net::Ipv6Addr;

/// An attribute of the data of `ip6gre`, `ip6gretap` and `ip6erspan`: generic routing encapsulation
/// over IPv6, and ERSPAN, which mirrors frames.
#[derive(Debug, PartialEq, Eq, Drop)]
pub enum InfoGre6 {
    /// `IFLA_GRE_LINK`: the index of the underlying link; 4 bytes.
    Link(u32),
    /// `IFLA_GRE_IFLAGS`: the fields in the GRE headers of received packets; 2 bytes, big-endian,
    /// of which every bit is kept.
    IFlags(GreIOFlags),
    /// `IFLA_GRE_OFLAGS`: the fields in the GRE headers of sent packets; 2 bytes, big-endian, of
    /// which every bit is kept.
    OFlags(GreIOFlags),
    /// `IFLA_GRE_IKEY`: the key of received packets; 4 bytes, big-endian.
    IKey(u32),
    /// `IFLA_GRE_OKEY`: the key of sent packets; 4 bytes, big-endian.
    OKey(u32),
    /// `IFLA_GRE_LOCAL`: the local address of the tunnel; 16 bytes.
    Local(Ipv6Addr),
    /// `IFLA_GRE_REMOTE`: the remote address of the tunnel; 16 bytes.
    Remote(Ipv6Addr),
    /// `IFLA_GRE_TTL`: the hop limit of outer packets; 1 byte.
    Ttl(u8),
    /// `IFLA_GRE_ENCAP_LIMIT`: the tunnel encapsulation limit, how many more tunnels a packet may
    /// enter; 1 byte.
    EncapLimit(u8),
    /// `IFLA_GRE_FLOWINFO`: the flow label of outer packets; 4 bytes, big-endian.
    FlowLabel(u32),
    /// `IFLA_GRE_ENCAP_TYPE`: the encapsulation; 2 bytes.
    EncapType(GreEncapType),
    /// `IFLA_GRE_ENCAP_FLAGS`: the checksums in the outer UDP header; 2 bytes, of which every bit
    /// is kept.
    EncapFlags(GreEncapFlags),
    /// `IFLA_GRE_ENCAP_SPORT`: the source UDP port; 2 bytes, big-endian.
    SourcePort(u16),
    /// `IFLA_GRE_ENCAP_DPORT`: the destination UDP port; 2 bytes, big-endian.
    DestinationPort(u16),
    /// `IFLA_GRE_COLLECT_METADATA`: collect metadata mode, in which the tunnel's parameters are
    /// taken from each packet. A flag set by presence: any payload is accepted, and none is
    /// written.
    CollectMetadata,
    /// `IFLA_GRE_FWMARK`: the firewall mark; 4 bytes.
    FwMask(u32),
    /// `IFLA_GRE_TOS`: the traffic class of outer packets; 1 byte.
    Tos(u8),
    /// `IFLA_GRE_ERSPAN_INDEX`: the index of the mirrored port, in version 1 of ERSPAN; 4 bytes.
    ErSpanIndex(u32),
    /// `IFLA_GRE_ERSPAN_VER`: the version of ERSPAN; 1 byte.
    ErSpanVer(u8),
    /// `IFLA_GRE_ERSPAN_DIR`: the direction of mirrored frames, in version 2 of ERSPAN; 1 byte.
    ErSpanDir(ErSpanDir),
    /// `IFLA_GRE_ERSPAN_HWID`: the number of the mirroring engine, in version 2 of ERSPAN; 2
    /// bytes.
    ErSpanHwId(u16),
    /// Any other kind, kept as it is.
    Other(DefaultNla),
}

impl FieldNla for InfoGre6 {
    ghost field_entry = { gre6_entry };

    fn field(&self) -> (u16, Field<'_>) {
        match self {
            Self::Link(number) => (IFLA_GRE_LINK, Field::U32(*number)),
            Self::IFlags(flags) => (IFLA_GRE_IFLAGS, Field::U16Be(flags.bits())),
            Self::OFlags(flags) => (IFLA_GRE_OFLAGS, Field::U16Be(flags.bits())),
            Self::IKey(key) => (IFLA_GRE_IKEY, Field::U32Be(*key)),
            Self::OKey(key) => (IFLA_GRE_OKEY, Field::U32Be(*key)),
            Self::Local(address) => (IFLA_GRE_LOCAL, Field::Ipv6(*address)),
            Self::Remote(address) => (IFLA_GRE_REMOTE, Field::Ipv6(*address)),
            Self::Ttl(number) => (IFLA_GRE_TTL, Field::U8(*number)),
            Self::Tos(number) => (IFLA_GRE_TOS, Field::U8(*number)),
            Self::EncapLimit(number) => (IFLA_GRE_ENCAP_LIMIT, Field::U8(*number)),
            Self::FlowLabel(label) => (IFLA_GRE_FLOWINFO, Field::U32Be(*label)),
            Self::EncapType(encapsulation) => (
                IFLA_GRE_ENCAP_TYPE,
                Field::U16(u16::from(encapsulation)),
            ),
            Self::EncapFlags(flags) => (IFLA_GRE_ENCAP_FLAGS, Field::U16(flags.bits())),
            Self::SourcePort(port) => (IFLA_GRE_ENCAP_SPORT, Field::U16Be(*port)),
            Self::DestinationPort(port) => (IFLA_GRE_ENCAP_DPORT, Field::U16Be(*port)),
            Self::CollectMetadata => (IFLA_GRE_COLLECT_METADATA, Field::Empty),
            Self::FwMask(mark) => (IFLA_GRE_FWMARK, Field::U32(*mark)),
            Self::ErSpanIndex(number) => (IFLA_GRE_ERSPAN_INDEX, Field::U32(*number)),
            Self::ErSpanVer(number) => (IFLA_GRE_ERSPAN_VER, Field::U8(*number)),
            Self::ErSpanDir(direction) => (IFLA_GRE_ERSPAN_DIR, Field::U8(u8::from(direction))),
            Self::ErSpanHwId(number) => (IFLA_GRE_ERSPAN_HWID, Field::U16(*number)),
            Self::Other(nla) => (nla.kind(), Field::Bytes(nla.value())),
        }
    }
}

impl InfoGre6 {
    // The attribute of a kind that holds 4 bytes, little-endian. Each payload type has a function
    // of its own, since the prover's time for one match is its paths times the variants of its
    // type.
    fn of_u32(kind: u16, number: u32) -> Option<Self>
        ensures value { IfSome result (λ v. gre6_entry v ≡ attribute kind (le4 number)) }
        ensures is_row_variant { IfSome result (λ v. gre6_is_row_variant v) }
        ensures none { IfNone result (kind ≢ 1 × kind ≢ 20 × kind ≢ 21) }
    {
        match kind {
            IFLA_GRE_LINK => Some(Self::Link(number)),
            IFLA_GRE_FWMARK => Some(Self::FwMask(number)),
            IFLA_GRE_ERSPAN_INDEX => Some(Self::ErSpanIndex(number)),
            _ => None,
        }
    }

    // The attribute of a kind that holds 2 bytes, big-endian.
    fn of_u16_be(kind: u16, number: u16) -> Option<Self>
        ensures value { IfSome result (λ v. gre6_entry v ≡ attribute kind (be2 number)) }
        ensures is_row_variant { IfSome result (λ v. gre6_is_row_variant v) }
        ensures none { IfNone result (kind ≢ 2 × kind ≢ 3 × kind ≢ 16 × kind ≢ 17) }
    {
        match kind {
            IFLA_GRE_IFLAGS => Some(Self::IFlags(GreIOFlags::from_bits_retain(number))),
            IFLA_GRE_OFLAGS => Some(Self::OFlags(GreIOFlags::from_bits_retain(number))),
            IFLA_GRE_ENCAP_SPORT => Some(Self::SourcePort(number)),
            IFLA_GRE_ENCAP_DPORT => Some(Self::DestinationPort(number)),
            _ => None,
        }
    }

    // The attribute of a kind that holds 4 bytes, big-endian.
    fn of_u32_be(kind: u16, number: u32) -> Option<Self>
        ensures value { IfSome result (λ v. gre6_entry v ≡ attribute kind (be4 number)) }
        ensures is_row_variant { IfSome result (λ v. gre6_is_row_variant v) }
        ensures none { IfNone result (kind ≢ 4 × kind ≢ 5 × kind ≢ 12) }
    {
        match kind {
            IFLA_GRE_IKEY => Some(Self::IKey(number)),
            IFLA_GRE_OKEY => Some(Self::OKey(number)),
            IFLA_GRE_FLOWINFO => Some(Self::FlowLabel(number)),
            _ => None,
        }
    }

    // The attribute of a kind that holds an IPv6 address.
    fn of_ipv6(kind: u16, address: Ipv6Addr) -> Option<Self>
        ensures value { IfSome result (λ v. gre6_entry v ≡ attribute kind (ipv6_octets address)) }
        ensures is_row_variant { IfSome result (λ v. gre6_is_row_variant v) }
        ensures none { IfNone result (kind ≢ 6 × kind ≢ 7) }
    {
        match kind {
            IFLA_GRE_LOCAL => Some(Self::Local(address)),
            IFLA_GRE_REMOTE => Some(Self::Remote(address)),
            _ => None,
        }
    }

    // The attribute of a kind that holds 1 byte.
    fn of_u8(kind: u16, number: u8) -> Option<Self>
        ensures value { IfSome result (λ v. gre6_entry v ≡ attribute kind (number ∷ [])) }
        ensures is_row_variant { IfSome result (λ v. gre6_is_row_variant v) }
        ensures none { IfNone result (kind ≢ 8 × kind ≢ 9 × kind ≢ 11 × kind ≢ 22 × kind ≢ 23) }
    {
        match kind {
            IFLA_GRE_TTL => Some(Self::Ttl(number)),
            IFLA_GRE_TOS => Some(Self::Tos(number)),
            IFLA_GRE_ENCAP_LIMIT => Some(Self::EncapLimit(number)),
            IFLA_GRE_ERSPAN_VER => Some(Self::ErSpanVer(number)),
            IFLA_GRE_ERSPAN_DIR => Some(Self::ErSpanDir(ErSpanDir::from(number))),
            _ => None,
        }
    }

    // The attribute of a kind that holds 2 bytes, little-endian.
    fn of_u16(kind: u16, number: u16) -> Option<Self>
        ensures value { IfSome result (λ v. gre6_entry v ≡ attribute kind (le2 number)) }
        ensures is_row_variant { IfSome result (λ v. gre6_is_row_variant v) }
        ensures none { IfNone result (kind ≢ 14 × kind ≢ 15 × kind ≢ 24) }
    {
        match kind {
            IFLA_GRE_ENCAP_TYPE => Some(Self::EncapType(GreEncapType::from(number))),
            IFLA_GRE_ENCAP_FLAGS => Some(Self::EncapFlags(GreEncapFlags::from_bits_retain(number))),
            IFLA_GRE_ERSPAN_HWID => Some(Self::ErSpanHwId(number)),
            _ => None,
        }
    }
}

impl Family for InfoGre6 {
    ghost rows = { gre6 };

    ghost is_row_variant = { gre6_is_row_variant };

    fn read_row(_alloc: Global, kind: u16, payload: &[u8]) -> Result<Option<Self>, DecodeError> {
        match kind {
            IFLA_GRE_LINK | IFLA_GRE_FWMARK | IFLA_GRE_ERSPAN_INDEX => typed!(
                of_u32(kind),
                parse_u32(payload)
            ),
            IFLA_GRE_IFLAGS | IFLA_GRE_OFLAGS | IFLA_GRE_ENCAP_SPORT | IFLA_GRE_ENCAP_DPORT =>
                typed!(of_u16_be(kind), parse_u16_be(payload)),
            IFLA_GRE_IKEY | IFLA_GRE_OKEY | IFLA_GRE_FLOWINFO => typed!(
                of_u32_be(kind),
                parse_u32_be(payload)
            ),
            IFLA_GRE_LOCAL | IFLA_GRE_REMOTE => typed!(of_ipv6(kind), parse_ipv6_addr(payload)),
            IFLA_GRE_TTL
            | IFLA_GRE_TOS
            | IFLA_GRE_ENCAP_LIMIT
            | IFLA_GRE_ERSPAN_VER
            | IFLA_GRE_ERSPAN_DIR => typed!(of_u8(kind), parse_u8(payload)),
            IFLA_GRE_ENCAP_TYPE | IFLA_GRE_ENCAP_FLAGS | IFLA_GRE_ERSPAN_HWID => typed!(
                of_u16(kind),
                parse_u16(payload)
            ),
            IFLA_GRE_COLLECT_METADATA => Ok(Some(Self::CollectMetadata)),
            _ => Ok(None),
        }
    }

    fn other(nla: DefaultNla) -> Self {
        Self::Other(nla)
    }

    ghost plain = { refl };
}
