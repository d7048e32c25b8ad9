//! Data of the kind `geneve` (if_link.h, IFLA_GENEVE_*). Numbers are little-endian unless noted; a
//! boolean is 1 byte, false if and only if it is 0.

ghost use Rattle.std.specs.Prelude.{refl, IfNone, IfSome, [], ◌∷◌, ◌≡◌, ◌≢◌};
ghost use Rattle.std.specs.Net.Addr.{ipv4_octets, ipv6_octets};
ghost use Rattle.netlink_packet_core.specs.Booleans.{boolean_byte};
ghost use Rattle.netlink_packet_core.specs.Families.{attribute};
ghost use Rattle.link_info_grammar.specs.Families.{geneve};
ghost use Rattle.link_info_tunnels.specs.Geneve.{geneve_entry, geneve_is_row_variant};

use attribute_tables::typed;
use link_info_types::GeneveDf;
use netlink_packet_core::{
    DecodeError, DefaultNla, Family, Field, FieldNla, Nla, parse_bool, parse_ipv4_addr,
    parse_ipv6_addr, parse_u8, parse_u16_be, parse_u32, parse_u32_be,
};
use std::alloc::Global;
use std::net::{Ipv4Addr, Ipv6Addr};

const IFLA_GENEVE_ID: u16 = 1;

const IFLA_GENEVE_REMOTE: u16 = 2;

const IFLA_GENEVE_TTL: u16 = 3;

const IFLA_GENEVE_TOS: u16 = 4;

const IFLA_GENEVE_PORT: u16 = 5;

const IFLA_GENEVE_COLLECT_METADATA: u16 = 6;

const IFLA_GENEVE_REMOTE6: u16 = 7;

const IFLA_GENEVE_UDP_CSUM: u16 = 8;

const IFLA_GENEVE_UDP_ZERO_CSUM6_TX: u16 = 9;

const IFLA_GENEVE_UDP_ZERO_CSUM6_RX: u16 = 10;

const IFLA_GENEVE_LABEL: u16 = 11;

const IFLA_GENEVE_TTL_INHERIT: u16 = 12;

const IFLA_GENEVE_DF: u16 = 13;

const IFLA_GENEVE_INNER_PROTO_INHERIT: u16 = 14;

const IFLA_GENEVE_LOCAL: u16 = 17;

const IFLA_GENEVE_LOCAL6: u16 = 18;

/// An attribute of the data of `geneve`: generic network virtualization (RFC 8926).
#[derive(Debug, PartialEq, Eq, Drop)]
pub enum InfoGeneve {
    /// `IFLA_GENEVE_ID`: the virtual network identifier (VNI); 4 bytes.
    Id(u32),
    /// `IFLA_GENEVE_REMOTE`: the address of the remote end; 4 bytes.
    Remote(Ipv4Addr),
    /// `IFLA_GENEVE_REMOTE6`: the address of the remote end; 16 bytes.
    Remote6(Ipv6Addr),
    /// `IFLA_GENEVE_LOCAL`: the local address; 4 bytes.
    Local(Ipv4Addr),
    /// `IFLA_GENEVE_LOCAL6`: the local address; 16 bytes.
    Local6(Ipv6Addr),
    /// `IFLA_GENEVE_TTL`: the hop limit of outer packets; 1 byte.
    Ttl(u8),
    /// `IFLA_GENEVE_TOS`: the type of service of outer packets; 1 byte.
    Tos(u8),
    /// `IFLA_GENEVE_PORT`: the destination UDP port; 2 bytes, big-endian.
    Port(u16),
    /// `IFLA_GENEVE_COLLECT_METADATA`: collect metadata mode, in which the tunnel's parameters are
    /// taken from each packet. A flag set by presence: any payload is accepted, and none is
    /// written.
    CollectMetadata,
    /// `IFLA_GENEVE_UDP_CSUM`: outer IPv4 packets have UDP checksums.
    UdpCsum(bool),
    /// `IFLA_GENEVE_UDP_ZERO_CSUM6_TX`: outer IPv6 packets are sent without UDP checksums.
    UdpZeroCsum6Tx(bool),
    /// `IFLA_GENEVE_UDP_ZERO_CSUM6_RX`: outer IPv6 packets without UDP checksums are accepted.
    UdpZeroCsum6Rx(bool),
    /// `IFLA_GENEVE_LABEL`: the flow label of outer IPv6 packets; 4 bytes, big-endian.
    Label(u32),
    /// `IFLA_GENEVE_TTL_INHERIT`: the hop limit is copied from the inner packet.
    TtlInherit(bool),
    /// `IFLA_GENEVE_DF`: the "don't fragment" bit of outer IPv4 packets; 1 byte.
    Df(GeneveDf),
    /// `IFLA_GENEVE_INNER_PROTO_INHERIT`: inner packets have no Ethernet header. A flag set by
    /// presence: any payload is accepted, and none is written.
    InnerProtoInherit,
    /// Any other kind, kept as it is.
    Other(DefaultNla),
}

impl FieldNla for InfoGeneve {
    ghost field_entry = { geneve_entry };

    fn field(&self) -> (u16, Field<'_>) {
        match self {
            Self::Id(number) => (IFLA_GENEVE_ID, Field::U32(*number)),
            Self::Remote(address) => (IFLA_GENEVE_REMOTE, Field::Ipv4(*address)),
            Self::Ttl(number) => (IFLA_GENEVE_TTL, Field::U8(*number)),
            Self::Tos(number) => (IFLA_GENEVE_TOS, Field::U8(*number)),
            Self::Port(port) => (IFLA_GENEVE_PORT, Field::U16Be(*port)),
            Self::CollectMetadata => (IFLA_GENEVE_COLLECT_METADATA, Field::Empty),
            Self::Remote6(address) => (IFLA_GENEVE_REMOTE6, Field::Ipv6(*address)),
            Self::UdpCsum(boolean) => (IFLA_GENEVE_UDP_CSUM, Field::Bool(*boolean)),
            Self::UdpZeroCsum6Tx(boolean) => (IFLA_GENEVE_UDP_ZERO_CSUM6_TX, Field::Bool(*boolean)),
            Self::UdpZeroCsum6Rx(boolean) => (IFLA_GENEVE_UDP_ZERO_CSUM6_RX, Field::Bool(*boolean)),
            Self::Label(label) => (IFLA_GENEVE_LABEL, Field::U32Be(*label)),
            Self::TtlInherit(boolean) => (IFLA_GENEVE_TTL_INHERIT, Field::Bool(*boolean)),
            Self::Df(setting) => (IFLA_GENEVE_DF, Field::U8(u8::from(*setting))),
            Self::InnerProtoInherit => (IFLA_GENEVE_INNER_PROTO_INHERIT, Field::Empty),
            Self::Local(address) => (IFLA_GENEVE_LOCAL, Field::Ipv4(*address)),
            Self::Local6(address) => (IFLA_GENEVE_LOCAL6, Field::Ipv6(*address)),
            Self::Other(nla) => (nla.kind(), Field::Bytes(nla.value())),
        }
    }
}

impl InfoGeneve {
    // The attribute of a kind that holds an IPv4 address. Each payload type has a function of its
    // own, since the prover's time for one match is its paths times the variants of its type.
    fn of_ipv4(kind: u16, address: Ipv4Addr) -> Option<Self>
        ensures value { IfSome result (λ v. geneve_entry v ≡ attribute kind (ipv4_octets address)) }
        ensures is_row_variant { IfSome result (λ v. geneve_is_row_variant v) }
        ensures none { IfNone result (kind ≢ 2 × kind ≢ 17) }
    {
        match kind {
            IFLA_GENEVE_REMOTE => Some(Self::Remote(address)),
            IFLA_GENEVE_LOCAL => Some(Self::Local(address)),
            _ => None,
        }
    }

    // The attribute of a kind that holds 1 byte.
    fn of_u8(kind: u16, number: u8) -> Option<Self>
        ensures value { IfSome result (λ v. geneve_entry v ≡ attribute kind (number ∷ [])) }
        ensures is_row_variant { IfSome result (λ v. geneve_is_row_variant v) }
        ensures none { IfNone result (kind ≢ 3 × kind ≢ 4 × kind ≢ 13) }
    {
        match kind {
            IFLA_GENEVE_TTL => Some(Self::Ttl(number)),
            IFLA_GENEVE_TOS => Some(Self::Tos(number)),
            IFLA_GENEVE_DF => Some(Self::Df(GeneveDf::from(number))),
            _ => None,
        }
    }

    // The attribute of a kind that holds an IPv6 address.
    fn of_ipv6(kind: u16, address: Ipv6Addr) -> Option<Self>
        ensures value { IfSome result (λ v. geneve_entry v ≡ attribute kind (ipv6_octets address)) }
        ensures is_row_variant { IfSome result (λ v. geneve_is_row_variant v) }
        ensures none { IfNone result (kind ≢ 7 × kind ≢ 18) }
    {
        match kind {
            IFLA_GENEVE_REMOTE6 => Some(Self::Remote6(address)),
            IFLA_GENEVE_LOCAL6 => Some(Self::Local6(address)),
            _ => None,
        }
    }

    // The attribute of a kind that holds a boolean.
    fn of_boolean(kind: u16, boolean: bool) -> Option<Self>
        ensures value { IfSome result (λ v. geneve_entry v ≡ attribute kind (boolean_byte boolean)) }
        ensures is_row_variant { IfSome result (λ v. geneve_is_row_variant v) }
        ensures none { IfNone result (kind ≢ 8 × kind ≢ 9 × kind ≢ 10 × kind ≢ 12) }
    {
        match kind {
            IFLA_GENEVE_UDP_CSUM => Some(Self::UdpCsum(boolean)),
            IFLA_GENEVE_UDP_ZERO_CSUM6_TX => Some(Self::UdpZeroCsum6Tx(boolean)),
            IFLA_GENEVE_UDP_ZERO_CSUM6_RX => Some(Self::UdpZeroCsum6Rx(boolean)),
            IFLA_GENEVE_TTL_INHERIT => Some(Self::TtlInherit(boolean)),
            _ => None,
        }
    }
}

impl Family for InfoGeneve {
    ghost rows = { geneve };

    ghost is_row_variant = { geneve_is_row_variant };

    fn read_row(_alloc: Global, kind: u16, payload: &[u8]) -> Result<Option<Self>, DecodeError> {
        match kind {
            IFLA_GENEVE_ID => typed!(Id, parse_u32(payload)),
            IFLA_GENEVE_REMOTE | IFLA_GENEVE_LOCAL => typed!(
                of_ipv4(kind),
                parse_ipv4_addr(payload)
            ),
            IFLA_GENEVE_TTL | IFLA_GENEVE_TOS | IFLA_GENEVE_DF => typed!(
                of_u8(kind),
                parse_u8(payload)
            ),
            IFLA_GENEVE_PORT => typed!(Port, parse_u16_be(payload)),
            IFLA_GENEVE_COLLECT_METADATA => Ok(Some(Self::CollectMetadata)),
            IFLA_GENEVE_REMOTE6 | IFLA_GENEVE_LOCAL6 => typed!(
                of_ipv6(kind),
                parse_ipv6_addr(payload)
            ),
            IFLA_GENEVE_UDP_CSUM
            | IFLA_GENEVE_UDP_ZERO_CSUM6_TX
            | IFLA_GENEVE_UDP_ZERO_CSUM6_RX
            | IFLA_GENEVE_TTL_INHERIT => typed!(of_boolean(kind), parse_bool(payload)),
            IFLA_GENEVE_LABEL => typed!(Label, parse_u32_be(payload)),
            IFLA_GENEVE_INNER_PROTO_INHERIT => Ok(Some(Self::InnerProtoInherit)),
            _ => Ok(None),
        }
    }

    fn other(nla: DefaultNla) -> Self {
        Self::Other(nla)
    }

    ghost plain = { refl };
}
