//! Data of the kind `vxlan` (if_link.h, IFLA_VXLAN_*). Numbers are little-endian unless noted; a
//! boolean is 1 byte, false if and only if it is 0.

ghost use Rattle.std.specs.Prelude.{refl, IfNone, IfSome, [], ◌∷◌, ◌≡◌, ◌≢◌};
ghost use Rattle.std.specs.Net.Addr.{ipv4_octets, ipv6_octets};
ghost use Rattle.netlink_packet_core.specs.Booleans.{boolean_byte};
ghost use Rattle.netlink_packet_core.specs.Numbers.{le4};
ghost use Rattle.netlink_packet_core.specs.Families.{attribute};
ghost use Rattle.link_info_grammar.specs.Families.{vxlan};
ghost use Rattle.link_info_tunnels.specs.Vxlan.{vxlan_entry, vxlan_is_row_variant};

use attribute_tables::typed;
use link_info_types::VxlanDf;
use netlink_packet_core::{
    DecodeError, DefaultNla, Family, Field, FieldNla, Nla, parse_bool, parse_ipv4_addr,
    parse_ipv6_addr, parse_range, parse_u8, parse_u16_be, parse_u32, parse_u32_be, parse_u64_be,
};
use std::alloc::Global;
use std::net::{Ipv4Addr, Ipv6Addr};

const IFLA_VXLAN_ID: u16 = 1;

const IFLA_VXLAN_GROUP: u16 = 2;

const IFLA_VXLAN_LINK: u16 = 3;

const IFLA_VXLAN_LOCAL: u16 = 4;

const IFLA_VXLAN_TTL: u16 = 5;

const IFLA_VXLAN_TOS: u16 = 6;

const IFLA_VXLAN_LEARNING: u16 = 7;

const IFLA_VXLAN_AGEING: u16 = 8;

const IFLA_VXLAN_LIMIT: u16 = 9;

const IFLA_VXLAN_PORT_RANGE: u16 = 10;

const IFLA_VXLAN_PROXY: u16 = 11;

const IFLA_VXLAN_RSC: u16 = 12;

const IFLA_VXLAN_L2MISS: u16 = 13;

const IFLA_VXLAN_L3MISS: u16 = 14;

const IFLA_VXLAN_PORT: u16 = 15;

const IFLA_VXLAN_GROUP6: u16 = 16;

const IFLA_VXLAN_LOCAL6: u16 = 17;

const IFLA_VXLAN_UDP_CSUM: u16 = 18;

const IFLA_VXLAN_UDP_ZERO_CSUM6_TX: u16 = 19;

const IFLA_VXLAN_UDP_ZERO_CSUM6_RX: u16 = 20;

const IFLA_VXLAN_REMCSUM_TX: u16 = 21;

const IFLA_VXLAN_REMCSUM_RX: u16 = 22;

const IFLA_VXLAN_GBP: u16 = 23;

const IFLA_VXLAN_REMCSUM_NOPARTIAL: u16 = 24;

const IFLA_VXLAN_COLLECT_METADATA: u16 = 25;

const IFLA_VXLAN_LABEL: u16 = 26;

const IFLA_VXLAN_GPE: u16 = 27;

const IFLA_VXLAN_TTL_INHERIT: u16 = 28;

const IFLA_VXLAN_DF: u16 = 29;

const IFLA_VXLAN_VNIFILTER: u16 = 30;

const IFLA_VXLAN_LOCALBYPASS: u16 = 31;

const IFLA_VXLAN_LABEL_POLICY: u16 = 32;

const IFLA_VXLAN_RESERVED_BITS: u16 = 33;

const IFLA_VXLAN_MC_ROUTE: u16 = 34;

/// An attribute of the data of `vxlan`: virtual extensible local area networks (RFC 7348).
#[derive(Debug, PartialEq, Eq, Drop)]
pub enum InfoVxlan {
    /// `IFLA_VXLAN_ID`: the virtual network identifier (VNI); 4 bytes.
    Id(u32),
    /// `IFLA_VXLAN_GROUP`: the multicast group, or the address of the remote end; 4 bytes.
    Group(Ipv4Addr),
    /// `IFLA_VXLAN_GROUP6`: the multicast group, or the address of the remote end; 16 bytes.
    Group6(Ipv6Addr),
    /// `IFLA_VXLAN_LINK`: the index of the underlying link; 4 bytes.
    Link(u32),
    /// `IFLA_VXLAN_LOCAL`: the local address; 4 bytes.
    Local(Ipv4Addr),
    /// `IFLA_VXLAN_LOCAL6`: the local address; 16 bytes.
    Local6(Ipv6Addr),
    /// `IFLA_VXLAN_TOS`: the type of service of outer packets; 1 byte.
    Tos(u8),
    /// `IFLA_VXLAN_TTL`: the hop limit of outer packets; 1 byte.
    Ttl(u8),
    /// `IFLA_VXLAN_LABEL`: the flow label of outer IPv6 packets; 4 bytes, big-endian.
    Label(u32),
    /// `IFLA_VXLAN_LEARNING`: source addresses are learned from received packets.
    Learning(bool),
    /// `IFLA_VXLAN_AGEING`: the lifetime of a learned address, in seconds; 4 bytes.
    Ageing(u32),
    /// `IFLA_VXLAN_LIMIT`: the maximum number of learned addresses; 4 bytes.
    Limit(u32),
    /// `IFLA_VXLAN_PORT_RANGE`: the first and the last source UDP port; 2 bytes each, big-endian.
    PortRange((u16, u16)),
    /// `IFLA_VXLAN_PROXY`: the link replies to neighbour requests on behalf of remote hosts (ARP
    /// proxy).
    Proxy(bool),
    /// `IFLA_VXLAN_RSC`: route short-circuiting.
    Rsc(bool),
    /// `IFLA_VXLAN_L2MISS`: the kernel notifies user space of hardware addresses that it can't
    /// resolve.
    L2Miss(bool),
    /// `IFLA_VXLAN_L3MISS`: the kernel notifies user space of IP addresses that it can't resolve.
    L3Miss(bool),
    /// `IFLA_VXLAN_COLLECT_METADATA`: collect metadata mode, in which the tunnel's parameters are
    /// taken from each packet.
    CollectMetadata(bool),
    /// `IFLA_VXLAN_PORT`: the destination UDP port; 2 bytes, big-endian.
    Port(u16),
    /// `IFLA_VXLAN_UDP_CSUM`: outer IPv4 packets have UDP checksums.
    UDPCsum(bool),
    /// `IFLA_VXLAN_UDP_ZERO_CSUM6_TX`: outer IPv6 packets are sent without UDP checksums.
    UDPZeroCsumTX(bool),
    /// `IFLA_VXLAN_UDP_ZERO_CSUM6_RX`: outer IPv6 packets without UDP checksums are accepted.
    UDPZeroCsumRX(bool),
    /// `IFLA_VXLAN_REMCSUM_TX`: remote checksum offload of sent packets: their inner checksums are
    /// left to the receiver.
    RemCsumTX(bool),
    /// `IFLA_VXLAN_REMCSUM_RX`: remote checksum offload of received packets: their inner checksums
    /// are filled in.
    RemCsumRX(bool),
    /// `IFLA_VXLAN_GBP`: the group policy extension. A flag set by presence: any payload is
    /// accepted, and none is written.
    Gbp,
    /// `IFLA_VXLAN_GPE`: the generic protocol extension. A flag set by presence: any payload is
    /// accepted, and none is written.
    Gpe,
    /// `IFLA_VXLAN_REMCSUM_NOPARTIAL`: remote checksum offload fills in whole checksums, never
    /// partial ones. A flag set by presence: any payload is accepted, and none is written.
    RemCsumNoPartial,
    /// `IFLA_VXLAN_TTL_INHERIT`: the hop limit is copied from the inner packet, as requests encode
    /// it; no bytes.
    TtlInheritFlag,
    /// `IFLA_VXLAN_TTL_INHERIT`: whether the hop limit is copied from the inner packet, as kernels
    /// encode it; 1 byte.
    TtlInherit(u8),
    /// `IFLA_VXLAN_DF`: the "don't fragment" bit of outer IPv4 packets; 1 byte.
    Df(VxlanDf),
    /// `IFLA_VXLAN_VNIFILTER`: packets are filtered by their VNI.
    Vnifilter(bool),
    /// `IFLA_VXLAN_LOCALBYPASS`: packets to a remote end on this host are delivered locally.
    Localbypass(bool),
    /// `IFLA_VXLAN_LABEL_POLICY`: how the flow label of outer IPv6 packets is chosen; 4 bytes.
    LabelPolicy(u32),
    /// `IFLA_VXLAN_RESERVED_BITS`: the reserved bits of the VXLAN header that may be set; 8 bytes,
    /// big-endian.
    ReservedBits(u64),
    /// `IFLA_VXLAN_MC_ROUTE`: multicast packets are routed.
    McRoute(bool),
    /// Any other kind, kept as it is.
    Other(DefaultNla),
}

impl FieldNla for InfoVxlan {
    ghost field_entry = { vxlan_entry };

    fn field(&self) -> (u16, Field<'_>) {
        match self {
            Self::Id(number) => (IFLA_VXLAN_ID, Field::U32(*number)),
            Self::Group(address) => (IFLA_VXLAN_GROUP, Field::Ipv4(*address)),
            Self::Link(number) => (IFLA_VXLAN_LINK, Field::U32(*number)),
            Self::Local(address) => (IFLA_VXLAN_LOCAL, Field::Ipv4(*address)),
            Self::Ttl(number) => (IFLA_VXLAN_TTL, Field::U8(*number)),
            Self::Tos(number) => (IFLA_VXLAN_TOS, Field::U8(*number)),
            Self::Learning(boolean) => (IFLA_VXLAN_LEARNING, Field::Bool(*boolean)),
            Self::Ageing(number) => (IFLA_VXLAN_AGEING, Field::U32(*number)),
            Self::Limit(number) => (IFLA_VXLAN_LIMIT, Field::U32(*number)),
            Self::PortRange(range) => (IFLA_VXLAN_PORT_RANGE, Field::Range(*range)),
            Self::Proxy(boolean) => (IFLA_VXLAN_PROXY, Field::Bool(*boolean)),
            Self::Rsc(boolean) => (IFLA_VXLAN_RSC, Field::Bool(*boolean)),
            Self::L2Miss(boolean) => (IFLA_VXLAN_L2MISS, Field::Bool(*boolean)),
            Self::L3Miss(boolean) => (IFLA_VXLAN_L3MISS, Field::Bool(*boolean)),
            Self::Port(port) => (IFLA_VXLAN_PORT, Field::U16Be(*port)),
            Self::Group6(address) => (IFLA_VXLAN_GROUP6, Field::Ipv6(*address)),
            Self::Local6(address) => (IFLA_VXLAN_LOCAL6, Field::Ipv6(*address)),
            Self::UDPCsum(boolean) => (IFLA_VXLAN_UDP_CSUM, Field::Bool(*boolean)),
            Self::UDPZeroCsumTX(boolean) => (IFLA_VXLAN_UDP_ZERO_CSUM6_TX, Field::Bool(*boolean)),
            Self::UDPZeroCsumRX(boolean) => (IFLA_VXLAN_UDP_ZERO_CSUM6_RX, Field::Bool(*boolean)),
            Self::RemCsumTX(boolean) => (IFLA_VXLAN_REMCSUM_TX, Field::Bool(*boolean)),
            Self::RemCsumRX(boolean) => (IFLA_VXLAN_REMCSUM_RX, Field::Bool(*boolean)),
            Self::Gbp => (IFLA_VXLAN_GBP, Field::Empty),
            Self::RemCsumNoPartial => (IFLA_VXLAN_REMCSUM_NOPARTIAL, Field::Empty),
            Self::CollectMetadata(boolean) => (IFLA_VXLAN_COLLECT_METADATA, Field::Bool(*boolean)),
            Self::Label(label) => (IFLA_VXLAN_LABEL, Field::U32Be(*label)),
            Self::Gpe => (IFLA_VXLAN_GPE, Field::Empty),
            Self::TtlInheritFlag => (IFLA_VXLAN_TTL_INHERIT, Field::Empty),
            Self::TtlInherit(number) => (IFLA_VXLAN_TTL_INHERIT, Field::U8(*number)),
            Self::Df(setting) => (IFLA_VXLAN_DF, Field::U8(u8::from(*setting))),
            Self::Vnifilter(boolean) => (IFLA_VXLAN_VNIFILTER, Field::Bool(*boolean)),
            Self::Localbypass(boolean) => (IFLA_VXLAN_LOCALBYPASS, Field::Bool(*boolean)),
            Self::LabelPolicy(policy) => (IFLA_VXLAN_LABEL_POLICY, Field::U32(*policy)),
            Self::ReservedBits(bits) => (IFLA_VXLAN_RESERVED_BITS, Field::U64Be(*bits)),
            Self::McRoute(boolean) => (IFLA_VXLAN_MC_ROUTE, Field::Bool(*boolean)),
            Self::Other(nla) => (nla.kind(), Field::Bytes(nla.value())),
        }
    }
}

impl InfoVxlan {
    // The attribute of a kind that holds 4 bytes, little-endian. Each payload type has a function
    // of its own, since the prover's time for one match is its paths times the variants of its
    // type.
    fn of_u32(kind: u16, number: u32) -> Option<Self>
        ensures value { IfSome result (λ v. vxlan_entry v ≡ attribute kind (le4 number)) }
        ensures is_row_variant { IfSome result (λ v. vxlan_is_row_variant v) }
        ensures none { IfNone result (kind ≢ 1 × kind ≢ 3 × kind ≢ 8 × kind ≢ 9 × kind ≢ 32) }
    {
        match kind {
            IFLA_VXLAN_ID => Some(Self::Id(number)),
            IFLA_VXLAN_LINK => Some(Self::Link(number)),
            IFLA_VXLAN_AGEING => Some(Self::Ageing(number)),
            IFLA_VXLAN_LIMIT => Some(Self::Limit(number)),
            IFLA_VXLAN_LABEL_POLICY => Some(Self::LabelPolicy(number)),
            _ => None,
        }
    }

    // The attribute of a kind that holds an IPv4 address.
    fn of_ipv4(kind: u16, address: Ipv4Addr) -> Option<Self>
        ensures value { IfSome result (λ v. vxlan_entry v ≡ attribute kind (ipv4_octets address)) }
        ensures is_row_variant { IfSome result (λ v. vxlan_is_row_variant v) }
        ensures none { IfNone result (kind ≢ 2 × kind ≢ 4) }
    {
        match kind {
            IFLA_VXLAN_GROUP => Some(Self::Group(address)),
            IFLA_VXLAN_LOCAL => Some(Self::Local(address)),
            _ => None,
        }
    }

    // The attribute of a kind that holds 1 byte.
    fn of_u8(kind: u16, number: u8) -> Option<Self>
        ensures value { IfSome result (λ v. vxlan_entry v ≡ attribute kind (number ∷ [])) }
        ensures is_row_variant { IfSome result (λ v. vxlan_is_row_variant v) }
        ensures none { IfNone result (kind ≢ 5 × kind ≢ 6 × kind ≢ 28 × kind ≢ 29) }
    {
        match kind {
            IFLA_VXLAN_TTL => Some(Self::Ttl(number)),
            IFLA_VXLAN_TOS => Some(Self::Tos(number)),
            IFLA_VXLAN_TTL_INHERIT => Some(Self::TtlInherit(number)),
            IFLA_VXLAN_DF => Some(Self::Df(VxlanDf::from(number))),
            _ => None,
        }
    }

    // The attribute of a kind that holds a boolean.
    fn of_boolean(kind: u16, boolean: bool) -> Option<Self>
        ensures value { IfSome result (λ v. vxlan_entry v ≡ attribute kind (boolean_byte boolean)) }
        ensures is_row_variant { IfSome result (λ v. vxlan_is_row_variant v) }
        ensures none { IfNone result
            (kind ≢ 7 × kind ≢ 11 × kind ≢ 12 × kind ≢ 13 × kind ≢ 14 × kind ≢ 18
            × kind ≢ 19 × kind ≢ 20 × kind ≢ 21 × kind ≢ 22 × kind ≢ 25 × kind ≢ 30
            × kind ≢ 31 × kind ≢ 34) }
    {
        match kind {
            IFLA_VXLAN_LEARNING => Some(Self::Learning(boolean)),
            IFLA_VXLAN_PROXY => Some(Self::Proxy(boolean)),
            IFLA_VXLAN_RSC => Some(Self::Rsc(boolean)),
            IFLA_VXLAN_L2MISS => Some(Self::L2Miss(boolean)),
            IFLA_VXLAN_L3MISS => Some(Self::L3Miss(boolean)),
            IFLA_VXLAN_UDP_CSUM => Some(Self::UDPCsum(boolean)),
            IFLA_VXLAN_UDP_ZERO_CSUM6_TX => Some(Self::UDPZeroCsumTX(boolean)),
            IFLA_VXLAN_UDP_ZERO_CSUM6_RX => Some(Self::UDPZeroCsumRX(boolean)),
            IFLA_VXLAN_REMCSUM_TX => Some(Self::RemCsumTX(boolean)),
            IFLA_VXLAN_REMCSUM_RX => Some(Self::RemCsumRX(boolean)),
            IFLA_VXLAN_COLLECT_METADATA => Some(Self::CollectMetadata(boolean)),
            IFLA_VXLAN_VNIFILTER => Some(Self::Vnifilter(boolean)),
            IFLA_VXLAN_LOCALBYPASS => Some(Self::Localbypass(boolean)),
            IFLA_VXLAN_MC_ROUTE => Some(Self::McRoute(boolean)),
            _ => None,
        }
    }

    // The attribute of a kind that holds an IPv6 address.
    fn of_ipv6(kind: u16, address: Ipv6Addr) -> Option<Self>
        ensures value { IfSome result (λ v. vxlan_entry v ≡ attribute kind (ipv6_octets address)) }
        ensures is_row_variant { IfSome result (λ v. vxlan_is_row_variant v) }
        ensures none { IfNone result (kind ≢ 16 × kind ≢ 17) }
    {
        match kind {
            IFLA_VXLAN_GROUP6 => Some(Self::Group6(address)),
            IFLA_VXLAN_LOCAL6 => Some(Self::Local6(address)),
            _ => None,
        }
    }
}

impl Family for InfoVxlan {
    ghost rows = { vxlan };

    ghost is_row_variant = { vxlan_is_row_variant };

    fn read_row(_alloc: Global, kind: u16, payload: &[u8]) -> Result<Option<Self>, DecodeError> {
        match kind {
            IFLA_VXLAN_TTL_INHERIT if payload.is_empty() => Ok(Some(Self::TtlInheritFlag)),
            IFLA_VXLAN_ID | IFLA_VXLAN_LINK => typed!(of_u32(kind), parse_u32(payload)),
            IFLA_VXLAN_GROUP | IFLA_VXLAN_LOCAL => typed!(of_ipv4(kind), parse_ipv4_addr(payload)),
            IFLA_VXLAN_TTL | IFLA_VXLAN_TOS | IFLA_VXLAN_TTL_INHERIT | IFLA_VXLAN_DF => typed!(
                of_u8(kind),
                parse_u8(payload)
            ),
            IFLA_VXLAN_AGEING | IFLA_VXLAN_LIMIT | IFLA_VXLAN_LABEL_POLICY => typed!(
                of_u32(kind),
                parse_u32(payload)
            ),
            IFLA_VXLAN_LEARNING
            | IFLA_VXLAN_PROXY
            | IFLA_VXLAN_RSC
            | IFLA_VXLAN_L2MISS
            | IFLA_VXLAN_L3MISS => typed!(of_boolean(kind), parse_bool(payload)),
            IFLA_VXLAN_UDP_CSUM
            | IFLA_VXLAN_UDP_ZERO_CSUM6_TX
            | IFLA_VXLAN_UDP_ZERO_CSUM6_RX
            | IFLA_VXLAN_REMCSUM_TX
            | IFLA_VXLAN_REMCSUM_RX => typed!(of_boolean(kind), parse_bool(payload)),
            IFLA_VXLAN_COLLECT_METADATA
            | IFLA_VXLAN_VNIFILTER
            | IFLA_VXLAN_LOCALBYPASS
            | IFLA_VXLAN_MC_ROUTE => typed!(of_boolean(kind), parse_bool(payload)),
            IFLA_VXLAN_PORT_RANGE => typed!(PortRange, parse_range(payload)),
            IFLA_VXLAN_PORT => typed!(Port, parse_u16_be(payload)),
            IFLA_VXLAN_GROUP6 | IFLA_VXLAN_LOCAL6 => typed!(
                of_ipv6(kind),
                parse_ipv6_addr(payload)
            ),
            IFLA_VXLAN_GBP => Ok(Some(Self::Gbp)),
            IFLA_VXLAN_REMCSUM_NOPARTIAL => Ok(Some(Self::RemCsumNoPartial)),
            IFLA_VXLAN_LABEL => typed!(Label, parse_u32_be(payload)),
            IFLA_VXLAN_GPE => Ok(Some(Self::Gpe)),
            IFLA_VXLAN_RESERVED_BITS => typed!(ReservedBits, parse_u64_be(payload)),
            _ => Ok(None),
        }
    }

    fn other(nla: DefaultNla) -> Self {
        Self::Other(nla)
    }

    ghost plain = { refl };
}
