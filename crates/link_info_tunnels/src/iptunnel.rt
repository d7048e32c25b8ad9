//! Data of the kinds `ipip`, `ip6tnl` and `sit` (if_tunnel.h, IFLA_IPTUN_*). Numbers are
//! little-endian unless noted.

ghost use Rattle.std.specs.Prelude.{◌≡◌, ◌<◌, true, false, length, Some, IfOk, IfErr, IfSome, IfNone, [], ◌∷◌, ◌≢◌};
ghost use Rattle.netlink_packet_core.specs.Addresses.{ip_octets, HasAddressLength};
ghost use Rattle.netlink_packet_core.specs.Numbers.{be2, le2, le4};
ghost use Rattle.std.specs.List.{All};
ghost use Rattle.netlink_packet_core.specs.Attributes.{proper_kind};
ghost use Rattle.netlink_packet_core.specs.AttributeViews.{BeginsWithAttribute, viewed_kind};
ghost use Rattle.netlink_packet_core.specs.Errors.{is_memory};
ghost use Rattle.netlink_packet_core.specs.Families.{Gives, accepts, family_row, may_allocate, attribute};
ghost use Rattle.netlink_packet_core.specs.NlaBuffers.{storage};
ghost use Rattle.attribute_tables_grammar.specs.Lists.{any, without_context};
ghost use Rattle.attribute_tables_grammar.specs.LookUps.{HasNoRow};
ghost use Rattle.attribute_tables_grammar.specs.Readings.{reading_as};
ghost use Rattle.attribute_tables_grammar.specs.Rules.{shape_rule};
ghost use Rattle.link_info_kinds.specs.declared.info_kind.InfoKind.{InfoKind};
ghost use Rattle.link_info_tunnels.specs.IpTunnel.{ip_tunnel_entry, ip_tunnel_is_row_variant, ip_tunnel_of};
ghost use Rattle.link_info_tunnels.specs.IpTunnel.{ip_tunnel_begins_accepted, ip_tunnel_rule, tunnel_flags};
ghost use Rattle.attribute_tables.specs.Outcomes.{IfMemory, IfRead, ListIsReadAs, ListIsWrittenBy, SucceedsExactlyIf, SucceedsIf};

use attribute_tables::{Reader, parse_list, typed};
use attribute_tables_grammar::laws::{rows_are_looked_up, rows_without_lists_fit};
use link_info_kinds::InfoKind;
use link_info_types::{Flags, Ip6TunnelFlags, IpProtocol, TunnelEncapFlags, TunnelEncapType};
use netlink_packet_core::{
    DecodeError, DefaultNla, Field, FieldNla, Nla, NlaBuffer, Parseable, ParseableParametrized,
    parse_bool, parse_ip, parse_ipv4_addr, parse_ipv6_addr, parse_u8, parse_u16, parse_u16_be,
    parse_u32, parse_u32_be,
};
use std::alloc::Global;
use std::net::{IpAddr, Ipv4Addr, Ipv6Addr};

const IFLA_IPTUN_LINK: u16 = 1;

const IFLA_IPTUN_LOCAL: u16 = 2;

const IFLA_IPTUN_REMOTE: u16 = 3;

const IFLA_IPTUN_TTL: u16 = 4;

const IFLA_IPTUN_TOS: u16 = 5;

const IFLA_IPTUN_ENCAP_LIMIT: u16 = 6;

const IFLA_IPTUN_FLOWINFO: u16 = 7;

const IFLA_IPTUN_FLAGS: u16 = 8;

const IFLA_IPTUN_PROTO: u16 = 9;

const IFLA_IPTUN_PMTUDISC: u16 = 10;

const IFLA_IPTUN_6RD_PREFIX: u16 = 11;

const IFLA_IPTUN_6RD_RELAY_PREFIX: u16 = 12;

const IFLA_IPTUN_6RD_PREFIXLEN: u16 = 13;

const IFLA_IPTUN_6RD_RELAY_PREFIXLEN: u16 = 14;

const IFLA_IPTUN_ENCAP_TYPE: u16 = 15;

const IFLA_IPTUN_ENCAP_FLAGS: u16 = 16;

const IFLA_IPTUN_ENCAP_SPORT: u16 = 17;

const IFLA_IPTUN_ENCAP_DPORT: u16 = 18;

const IFLA_IPTUN_COLLECT_METADATA: u16 = 19;

const IFLA_IPTUN_FWMARK: u16 = 20;

/// An attribute of the data of `ipip`, `ip6tnl` and `sit`: tunnels over IPv4 and IPv6.
#[derive(Debug, PartialEq, Eq, Drop)]
pub enum InfoIpTunnel {
    /// `IFLA_IPTUN_LINK`: the index of the underlying link; 4 bytes.
    Link(u32),
    /// `IFLA_IPTUN_LOCAL`: the local address of the tunnel; 4 or 16 bytes.
    Local(IpAddr),
    /// `IFLA_IPTUN_REMOTE`: the remote address of the tunnel; 4 or 16 bytes.
    Remote(IpAddr),
    /// `IFLA_IPTUN_TTL`: the hop limit of outer packets; 1 byte.
    Ttl(u8),
    /// `IFLA_IPTUN_TOS`: the type of service of outer packets; 1 byte.
    Tos(u8),
    /// `IFLA_IPTUN_ENCAP_LIMIT`: the tunnel encapsulation limit, how many more tunnels a packet may
    /// enter; 1 byte.
    EncapLimit(u8),
    /// `IFLA_IPTUN_FLOWINFO`: the traffic class and the flow label of outer packets; 4 bytes,
    /// big-endian.
    FlowInfo(u32),
    /// `IFLA_IPTUN_FLAGS`: the flags of a tunnel of the kind `sit`; 2 bytes, big-endian.
    Ipv6SitFlags(u16),
    /// `IFLA_IPTUN_FLAGS`: the flags of a tunnel of the kind `ipip`; 2 bytes, big-endian.
    Ipv4Flags(u16),
    /// `IFLA_IPTUN_FLAGS`: the flags of a tunnel of the kind `ip6tnl`; 4 bytes, of which every bit
    /// is kept.
    Ipv6Flags(Ip6TunnelFlags),
    /// `IFLA_IPTUN_PROTO`: the encapsulated protocol; 1 byte.
    Protocol(IpProtocol),
    /// `IFLA_IPTUN_PMTUDISC`: path MTU discovery; 1 byte, false if and only if it is 0.
    PMtuDisc(bool),
    /// `IFLA_IPTUN_6RD_PREFIX`: the IPv6 prefix of a 6rd domain (RFC 5969); 16 bytes.
    Ipv6RdPrefix(Ipv6Addr),
    /// `IFLA_IPTUN_6RD_RELAY_PREFIX`: the IPv4 prefix of a 6rd domain; 4 bytes.
    Ipv6RdRelayPrefix(Ipv4Addr),
    /// `IFLA_IPTUN_6RD_PREFIXLEN`: the length of the IPv6 prefix in bits; 2 bytes.
    Ipv6RdPrefixLen(u16),
    /// `IFLA_IPTUN_6RD_RELAY_PREFIXLEN`: the length of the IPv4 prefix in bits; 2 bytes.
    Ipv6RdRelayPrefixLen(u16),
    /// `IFLA_IPTUN_ENCAP_TYPE`: the encapsulation; 2 bytes.
    EncapType(TunnelEncapType),
    /// `IFLA_IPTUN_ENCAP_FLAGS`: the checksums in the outer UDP header; 2 bytes, of which every bit
    /// is kept.
    EncapFlags(TunnelEncapFlags),
    /// `IFLA_IPTUN_ENCAP_SPORT`: the source UDP port; 2 bytes, big-endian.
    EncapSPort(u16),
    /// `IFLA_IPTUN_ENCAP_DPORT`: the destination UDP port; 2 bytes, big-endian.
    EncapDPort(u16),
    /// `IFLA_IPTUN_COLLECT_METADATA`: collect metadata mode, in which the tunnel's parameters are
    /// taken from each packet. A flag set by presence: any payload is accepted, and none is
    /// written.
    CollectMetadata,
    /// `IFLA_IPTUN_FWMARK`: the firewall mark; 4 bytes.
    FwMark(u32),
    /// Any other kind, kept as it is.
    Other(DefaultNla),
}

impl FieldNla for InfoIpTunnel {
    ghost field_entry = { ip_tunnel_entry };

    fn field(&self) -> (u16, Field<'_>) {
        match self {
            Self::Link(index) => (IFLA_IPTUN_LINK, Field::U32(*index)),
            Self::Local(address) => (IFLA_IPTUN_LOCAL, Field::Ip(*address)),
            Self::Remote(address) => (IFLA_IPTUN_REMOTE, Field::Ip(*address)),
            Self::Ttl(number) => (IFLA_IPTUN_TTL, Field::U8(*number)),
            Self::Tos(number) => (IFLA_IPTUN_TOS, Field::U8(*number)),
            Self::EncapLimit(number) => (IFLA_IPTUN_ENCAP_LIMIT, Field::U8(*number)),
            Self::FlowInfo(number) => (IFLA_IPTUN_FLOWINFO, Field::U32Be(*number)),
            Self::Ipv4Flags(flags) => (IFLA_IPTUN_FLAGS, Field::U16Be(*flags)),
            Self::Ipv6SitFlags(flags) => (IFLA_IPTUN_FLAGS, Field::U16Be(*flags)),
            Self::Ipv6Flags(flags) => (IFLA_IPTUN_FLAGS, Field::U32(flags.bits())),
            Self::Protocol(protocol) => (IFLA_IPTUN_PROTO, Field::U8(u8::from(*protocol))),
            Self::PMtuDisc(boolean) => (IFLA_IPTUN_PMTUDISC, Field::Bool(*boolean)),
            Self::Ipv6RdPrefix(address) => (IFLA_IPTUN_6RD_PREFIX, Field::Ipv6(*address)),
            Self::Ipv6RdRelayPrefix(address) => (
                IFLA_IPTUN_6RD_RELAY_PREFIX,
                Field::Ipv4(*address),
            ),
            Self::Ipv6RdPrefixLen(number) => (IFLA_IPTUN_6RD_PREFIXLEN, Field::U16(*number)),
            Self::Ipv6RdRelayPrefixLen(number) => (
                IFLA_IPTUN_6RD_RELAY_PREFIXLEN,
                Field::U16(*number),
            ),
            Self::EncapType(encapsulation) => (
                IFLA_IPTUN_ENCAP_TYPE,
                Field::U16(u16::from(*encapsulation)),
            ),
            Self::EncapFlags(flags) => (IFLA_IPTUN_ENCAP_FLAGS, Field::U16(flags.bits())),
            Self::EncapSPort(port) => (IFLA_IPTUN_ENCAP_SPORT, Field::U16Be(*port)),
            Self::EncapDPort(port) => (IFLA_IPTUN_ENCAP_DPORT, Field::U16Be(*port)),
            Self::CollectMetadata => (IFLA_IPTUN_COLLECT_METADATA, Field::Empty),
            Self::FwMark(mark) => (IFLA_IPTUN_FWMARK, Field::U32(*mark)),
            Self::Other(nla) => (nla.kind(), Field::Bytes(nla.value())),
        }
    }
}

impl InfoIpTunnel {
    // The attribute of a kind that holds 4 bytes, little-endian. Each payload type has a function
    // of its own, since the prover's time for one match is its paths times the variants of its
    // type.
    fn of_u32(kind: u16, number: u32) -> Option<Self>
        ensures value { IfSome result (λ v. ip_tunnel_entry v ≡ attribute kind (le4 number)) }
        ensures is_row_variant { IfSome result
            (λ v. (link : InfoKind) → ip_tunnel_is_row_variant link v) }
        ensures none { IfNone result (kind ≢ 1 × kind ≢ 20) }
    {
        match kind {
            IFLA_IPTUN_LINK => Some(Self::Link(number)),
            IFLA_IPTUN_FWMARK => Some(Self::FwMark(number)),
            _ => None,
        }
    }

    // The attribute of a kind that holds an address.
    fn of_ip(kind: u16, address: IpAddr) -> Option<Self>
        requires { HasAddressLength address }
        ensures value { IfSome result (λ v. ip_tunnel_entry v ≡ attribute kind (ip_octets address)) }
        ensures is_row_variant { IfSome result
            (λ v. (link : InfoKind) → ip_tunnel_is_row_variant link v) }
        ensures none { IfNone result (kind ≢ 2 × kind ≢ 3) }
    {
        match kind {
            IFLA_IPTUN_LOCAL => Some(Self::Local(address)),
            IFLA_IPTUN_REMOTE => Some(Self::Remote(address)),
            _ => None,
        }
    }

    // The attribute of a kind that holds 1 byte.
    fn of_u8(kind: u16, number: u8) -> Option<Self>
        ensures value { IfSome result (λ v. ip_tunnel_entry v ≡ attribute kind (number ∷ [])) }
        ensures is_row_variant { IfSome result
            (λ v. (link : InfoKind) → ip_tunnel_is_row_variant link v) }
        ensures none { IfNone result (kind ≢ 4 × kind ≢ 5 × kind ≢ 6 × kind ≢ 9) }
    {
        match kind {
            IFLA_IPTUN_TTL => Some(Self::Ttl(number)),
            IFLA_IPTUN_TOS => Some(Self::Tos(number)),
            IFLA_IPTUN_ENCAP_LIMIT => Some(Self::EncapLimit(number)),
            IFLA_IPTUN_PROTO => Some(Self::Protocol(IpProtocol::from(number))),
            _ => None,
        }
    }

    // The attribute of a kind that holds 2 bytes, little-endian.
    fn of_u16(kind: u16, number: u16) -> Option<Self>
        ensures value { IfSome result (λ v. ip_tunnel_entry v ≡ attribute kind (le2 number)) }
        ensures is_row_variant { IfSome result
            (λ v. (link : InfoKind) → ip_tunnel_is_row_variant link v) }
        ensures none { IfNone result (kind ≢ 13 × kind ≢ 14 × kind ≢ 15 × kind ≢ 16) }
    {
        match kind {
            IFLA_IPTUN_6RD_PREFIXLEN => Some(Self::Ipv6RdPrefixLen(number)),
            IFLA_IPTUN_6RD_RELAY_PREFIXLEN => Some(Self::Ipv6RdRelayPrefixLen(number)),
            IFLA_IPTUN_ENCAP_TYPE => Some(Self::EncapType(TunnelEncapType::from(number))),
            IFLA_IPTUN_ENCAP_FLAGS => Some(Self::EncapFlags(TunnelEncapFlags::from_bits_retain(
                number,
            ))),
            _ => None,
        }
    }

    // The attribute of a kind that holds 2 bytes, big-endian.
    fn of_u16_be(kind: u16, number: u16) -> Option<Self>
        ensures value { IfSome result (λ v. ip_tunnel_entry v ≡ attribute kind (be2 number)) }
        ensures is_row_variant { IfSome result
            (λ v. (link : InfoKind) → ip_tunnel_is_row_variant link v) }
        ensures none { IfNone result (kind ≢ 17 × kind ≢ 18) }
    {
        match kind {
            IFLA_IPTUN_ENCAP_SPORT => Some(Self::EncapSPort(number)),
            IFLA_IPTUN_ENCAP_DPORT => Some(Self::EncapDPort(number)),
            _ => None,
        }
    }

    // Reads the payload of `IFLA_IPTUN_FLAGS` under a kind of link.
    fn read_flags(payload: &[u8], link: &InfoKind) -> Result<Self, DecodeError>
        ensures judged { SucceedsExactlyIf result
            ((shape_rule (tunnel_flags link.now)).accepted payload.now) }
        ensures value { IfOk result
            (λ v. ip_tunnel_entry v
            ≡ attribute 8 ((shape_rule (tunnel_flags link.now)).canonical payload.now)) }
        ensures is_row_variant { IfOk result (λ v. ip_tunnel_is_row_variant link.now v) }
        ensures memory { IfErr result (λ e. is_memory e ≡ false) }
    {
        match link {
            InfoKind::IpIp => Ok(Self::Ipv4Flags(parse_u16_be(payload)?)),
            InfoKind::SitTun => Ok(Self::Ipv6SitFlags(parse_u16_be(payload)?)),
            InfoKind::Ip6Tnl => Ok(Self::Ipv6Flags(Ip6TunnelFlags::from_bits_retain(parse_u32(
                payload,
            )?))),
            _ => Err(DecodeError::from("flags of a tunnel under a kind that has none")),
        }
    }

    // Reads one attribute under a kind of link; `None` if the attribute's kind has no row.
    #[tactic(auto, unfolding(crate::specs::IpTunnel::ip_tunnel_of))]
    fn read_row(buf: &NlaBuffer<&[u8]>, link: &InfoKind) -> Result<Option<Self>, DecodeError>
        requires { BeginsWithAttribute (storage buf.now).now }
        ensures judged { SucceedsExactlyIf result
            (accepts (ip_tunnel_of link.now) (storage buf.now).now) }
        ensures none { IfOk result
            (λ o. IfNone o
            (HasNoRow (ip_tunnel_of link.now)
            (proper_kind (viewed_kind (storage buf.now).now)))) }
        ensures value { IfRead result
            (λ v. Gives (ip_tunnel_of link.now) (storage buf.now).now (ip_tunnel_entry v)) }
        ensures is_row_variant { IfRead result (λ v. ip_tunnel_is_row_variant link.now v) }
        ensures memory { IfErr result (λ e. is_memory e ≡ false) }
    {
        let kind = buf.kind();
        let payload = buf.value();
        match kind {
            IFLA_IPTUN_LINK | IFLA_IPTUN_FWMARK => typed!(of_u32(kind), parse_u32(payload)),
            IFLA_IPTUN_LOCAL | IFLA_IPTUN_REMOTE => typed!(of_ip(kind), parse_ip(payload)),
            IFLA_IPTUN_TTL | IFLA_IPTUN_TOS | IFLA_IPTUN_ENCAP_LIMIT | IFLA_IPTUN_PROTO => typed!(
                of_u8(kind),
                parse_u8(payload)
            ),
            IFLA_IPTUN_FLOWINFO => typed!(FlowInfo, parse_u32_be(payload)),
            IFLA_IPTUN_FLAGS => Ok(Some(Self::read_flags(payload, link)?)),
            IFLA_IPTUN_PMTUDISC => typed!(PMtuDisc, parse_bool(payload)),
            IFLA_IPTUN_6RD_PREFIX => typed!(Ipv6RdPrefix, parse_ipv6_addr(payload)),
            IFLA_IPTUN_6RD_RELAY_PREFIX => typed!(Ipv6RdRelayPrefix, parse_ipv4_addr(payload)),
            IFLA_IPTUN_6RD_PREFIXLEN
            | IFLA_IPTUN_6RD_RELAY_PREFIXLEN
            | IFLA_IPTUN_ENCAP_TYPE
            | IFLA_IPTUN_ENCAP_FLAGS => typed!(of_u16(kind), parse_u16(payload)),
            IFLA_IPTUN_ENCAP_SPORT | IFLA_IPTUN_ENCAP_DPORT => typed!(
                of_u16_be(kind),
                parse_u16_be(payload)
            ),
            IFLA_IPTUN_COLLECT_METADATA => Ok(Some(Self::CollectMetadata)),
            _ => Ok(None),
        }
    }
}

impl<'a, 'b> ParseableParametrized<NlaBuffer<&'a [u8]>, &'b InfoKind> for InfoIpTunnel {
    ghost can_parse = { λ b _. BeginsWithAttribute (storage b).now };

    ghost accepts = { λ b k. accepts (ip_tunnel_of k.now) (storage b).now };

    ghost may_allocate = { λ b k. may_allocate (ip_tunnel_of k.now) (storage b).now };

    ghost gives = { λ b k v. Gives (ip_tunnel_of k.now) (storage b).now (ip_tunnel_entry v)
        × ip_tunnel_is_row_variant k.now v };

    fn parse_with_param(
        alloc: Global,
        buf: &NlaBuffer<&'a [u8]>,
        params: &'b InfoKind,
    ) -> Result<Self, DecodeError> {
        match Self::read_row(buf, params) {
            Ok(Some(value)) => Ok(value),
            Ok(None) => Ok(Self::Other(DefaultNla::parse(alloc, buf)?)),
            Err(error) => Err(error),
        }
    }
}

/// A reader of the attributes of the data of a tunnel over IP, under the kind of the link.
///
/// The variant of the kind decides, not its name. `IFLA_IPTUN_FLAGS` is rejected under every kind
/// except `ipip`, `sit` and `ip6tnl`.
#[derive(Drop)]
pub struct InfoIpTunnelReader<'k> {
    /// The kind of the link.
    pub kind: &'k InfoKind,
}

impl<'k> Reader for InfoIpTunnelReader<'k> {
    type Value = InfoIpTunnel;

    ghost row_of = { λ r. family_row (ip_tunnel_of r.kind.now) };

    ghost is_row_variant = { λ r. ip_tunnel_is_row_variant r.kind.now };

    ghost may_allocate = { λ r. may_allocate (ip_tunnel_of r.kind.now) };

    #[tactic(auto, using(attribute_tables::proofs::Families::families, crate::proofs::IpTunnels::ip_tunnels))]
    fn read(&self, alloc: Global, buf: &NlaBuffer<&[u8]>) -> Result<InfoIpTunnel, DecodeError> {
        rows_without_lists_fit();
        InfoIpTunnel::parse_with_param(alloc, buf, self.kind)
    }
}

/// Reads the data of a tunnel over IP, a list of attributes, under the kind of the link. An empty
/// list is accepted.
///
/// # Errors
///
/// Out of memory if an allocation fails; any other [`DecodeError`] only if the list isn't accepted.
#[tactic(auto, using(attribute_tables::proofs::Families::family_lists), unfolding(crate::specs::IpTunnel::ip_tunnel_of))]
pub fn parse_ip_tunnel(
    alloc: Global,
    bytes: &[u8],
    kind: &InfoKind,
) -> Result<Vec<InfoIpTunnel>, DecodeError>
    ensures judged { SucceedsIf result ((ip_tunnel_rule kind.now).accepted bytes.now) }
    ensures read { ListIsReadAs result ip_tunnel_entry (λ _. true)
        (reading_as any (without_context (family_row (ip_tunnel_of kind.now))) bytes.now) }
    ensures written { ListIsWrittenBy result ip_tunnel_entry (λ _. true) (ip_tunnel_rule kind.now)
        bytes.now }
    ensures is_row_variant { IfOk result (λ v. All (ip_tunnel_is_row_variant kind.now) v.items) }
    ensures not_empty { IfErr result (λ _. 0 < length bytes.now) }
    ensures memory { IfMemory result (ip_tunnel_begins_accepted kind.now bytes.now ≡ true) }
{
    rows_are_looked_up();
    parse_list(alloc, &InfoIpTunnelReader { kind }, bytes)
}
