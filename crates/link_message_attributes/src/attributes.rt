//! The attributes of a link (if_link.h, IFLA_*), under the address family of the message's header.
//! Numbers are little-endian.

ghost use Rattle.std.specs.Prelude.{◌≡◌, ◌==◌, ◌<◌, false, true, length, map, Some, IfOk, IfErr};
ghost use Rattle.std.specs.List.{All};
ghost use Rattle.netlink_packet_core.specs.AttributeViews.{BeginsWithAttribute};
ghost use Rattle.netlink_packet_core.specs.NlaBuffers.{storage};
ghost use Rattle.attribute_tables_grammar.specs.Lists.{any, without_context};
ghost use Rattle.attribute_tables_grammar.specs.Readings.{reading_as};
ghost use Rattle.attribute_tables.specs.Views.{is_accepted_by, viewed_row};
ghost use Rattle.netlink_packet_core.specs.AttributeViews.{viewed_attribute};
ghost use Rattle.link_message_grammar.specs.Body.{attribute_row, attributes_rule, link_peer};
ghost use Rattle.link_message_types.specs.AddressFamilies.{table_family};
ghost use Rattle.link_message_attributes.specs.LinkAttributes.{link_attribute_entry, link_attribute_fits, link_attribute_names_row};
ghost use Rattle.link_message_attributes.specs.LinkAttributes.{IsNoText, link_attribute_may_allocate, plain_row};
ghost use Rattle.link_message_attributes.specs.Outcomes.{IsRowRead};
ghost use Rattle.link_message_attributes.specs.Payloads.{link_payload_bytes, link_payload_fits};
ghost use Rattle.attribute_tables.specs.Outcomes.{IfMemory, IsRefusedUnless, IsRewrittenBy, ListIsReadAs};
ghost use Rattle.attribute_tables.specs.Outcomes.{ListIsWrittenBy, SucceedsIf};

use super::families::number_of_table;
use super::kinds::*;
use super::payload::{LinkPayload, parse_extent_masks, parse_link_info};
use attribute_tables::{Reader, parse_bytes, parse_family, parse_list, typed};
use link_info::LinkInfo;
use link_message_checks::{attribute_error, attributes_error};
use link_message_grammar::laws::{attributes_are_looked_up, only_link_info_holds_peers};
use link_message_nested::{
    AfSpecUnspec, DevlinkPort, DpllPin, LinkProtoInfoInet6, LinkProtocolDownReason, LinkVfInfo,
    LinkVfPort, LinkXdp, Prop, parse_families, parse_raw, parse_vf_infos, parse_vf_ports,
};
use link_message_records::{FieldRecord, Map, Stats, Stats64, read_settings};
use link_message_types::{AddressFamily, LinkEvent, LinkExtentMask, LinkMode, LinkPhysId, State};
use netlink_packet_core::laws::typed_rows_write_the_kind;
use netlink_packet_core::{
    DecodeError, DefaultNla, Field, NLA_F_NESTED, Nla, NlaBuffer, Parseable, parse_string,
};
use std::alloc::Global;

/// An attribute of a link.
#[derive(Debug, PartialEq, Eq, Drop)]
pub enum LinkAttribute {
    /// `IFLA_VFINFO_LIST`: virtual functions; a list of attributes, of which those of kind 1 are
    /// kept.
    VfInfoList(Vec<LinkVfInfo>),
    /// `IFLA_VF_PORTS`: the ports of virtual functions; a list of attributes, of which those of
    /// kind 1 are kept. A list without an attribute is refused, so if no attribute is kept, the
    /// list that is written can't be read back.
    VfPorts(Vec<LinkVfPort>),
    /// `IFLA_PORT_SELF`: the port of the link itself; the port's attributes without an attribute
    /// around them.
    PortSelf(LinkVfPort),
    /// `IFLA_PHYS_PORT_ID`: the id of the physical port; any bytes.
    PhysPortId(LinkPhysId),
    /// `IFLA_PHYS_SWITCH_ID`: the id of the switch; any bytes.
    PhysSwitchId(LinkPhysId),
    /// `IFLA_XDP`: the XDP programs; a list of attributes.
    Xdp(Vec<LinkXdp>),
    /// `IFLA_EVENT`: the event for which the message is sent; 4 bytes.
    Event(LinkEvent),
    /// `IFLA_NEW_NETNSID`: the id of the network namespace to which the link was moved; 4 bytes.
    NewNetnsId(u32),
    /// `IFLA_IF_NETNSID`: the id of the network namespace that the link is in; 4 bytes.
    IfNetnsId(u32),
    /// `IFLA_CARRIER_UP_COUNT`: how often the carrier was detected; 4 bytes.
    CarrierUpCount(u32),
    /// `IFLA_CARRIER_DOWN_COUNT`: how often the carrier was lost; 4 bytes.
    CarrierDownCount(u32),
    /// `IFLA_NEW_IFINDEX`: the index of the link in the network namespace to which it was moved; 4
    /// bytes.
    NewIfIndex(u32),
    /// `IFLA_LINKINFO`: the link's kind and its data; a list of one or more attributes.
    LinkInfo(Vec<LinkInfo>),
    /// `IFLA_PROTINFO` of a bridge: the port's settings and state; a list of attributes.
    ProtoInfoBridge(Vec<DefaultNla>),
    /// `IFLA_PROTINFO` of IPv6: the IPv6 state and settings; a list of attributes.
    ProtoInfoInet6(Vec<LinkProtoInfoInet6>),
    /// `IFLA_PROTINFO` of any other family, kept unchanged.
    ProtoInfoUnknown(DefaultNla),
    /// `IFLA_PROP_LIST`: alternative names; a list of attributes, written with the nested bit.
    PropList(Vec<Prop>),
    /// `IFLA_PROTO_DOWN_REASON`: the reasons why a protocol keeps the link down; a list of
    /// attributes, written with the nested bit.
    ProtoDownReason(Vec<LinkProtocolDownReason>),
    /// `IFLA_ADDRESS`: the hardware address; any bytes.
    Address(Vec<u8>),
    /// `IFLA_BROADCAST`: the broadcast hardware address; any bytes.
    Broadcast(Vec<u8>),
    /// `IFLA_PERM_ADDRESS`: the permanent hardware address of the device; any bytes.
    PermAddress(Vec<u8>),
    /// `IFLA_IFNAME`: the name; a text.
    IfName(String),
    /// `IFLA_QDISC`: the queueing discipline; a text.
    Qdisc(String),
    /// `IFLA_IFALIAS`: an alias, for people; a text.
    IfAlias(String),
    /// `IFLA_PHYS_PORT_NAME`: the name of the physical port; a text.
    PhysPortName(String),
    /// `IFLA_LINKMODE`: how the operational state follows the carrier; 1 byte.
    Mode(LinkMode),
    /// `IFLA_CARRIER`: whether there is a carrier; 1 byte.
    Carrier(u8),
    /// `IFLA_PROTO_DOWN`: whether a protocol keeps the link down; 1 byte.
    ProtoDown(u8),
    /// `IFLA_MTU`: the maximum transmission unit in bytes; 4 bytes.
    Mtu(u32),
    /// `IFLA_LINK`: the index of the lower link; 4 bytes.
    Link(u32),
    /// `IFLA_MASTER`: the index of the controller of which this link is a port; 4 bytes.
    Controller(u32),
    /// `IFLA_TXQLEN`: the length of the transmit queue, in packets; 4 bytes.
    TxQueueLen(u32),
    /// `IFLA_NET_NS_PID`: the id of a process to whose network namespace the link is to be moved; 4
    /// bytes.
    NetNsPid(u32),
    /// `IFLA_NUM_VF`: the number of virtual functions; 4 bytes.
    NumVf(u32),
    /// `IFLA_GROUP`: the group of the link; 4 bytes.
    Group(u32),
    /// `IFLA_NET_NS_FD`: a file descriptor of the network namespace to which the link is to be
    /// moved; 4 bytes, signed.
    NetNsFd(i32),
    /// `IFLA_EXT_MASK`: the additional parts that a reply is to have; 4 bytes, whose set bits are
    /// the list.
    ExtMask(Vec<LinkExtentMask>),
    /// `IFLA_PROMISCUITY`: the count of requests for promiscuous mode; 4 bytes.
    Promiscuity(u32),
    /// `IFLA_NUM_TX_QUEUES`: the number of transmit queues; 4 bytes.
    NumTxQueues(u32),
    /// `IFLA_NUM_RX_QUEUES`: the number of receive queues; 4 bytes.
    NumRxQueues(u32),
    /// `IFLA_CARRIER_CHANGES`: how often the carrier changed; 4 bytes.
    CarrierChanges(u32),
    /// `IFLA_GSO_MAX_SEGS`: the maximum number of segments of a packet by generic segmentation
    /// offload; 4 bytes.
    GsoMaxSegs(u32),
    /// `IFLA_GSO_MAX_SIZE`: the maximum size of a packet for generic segmentation offload; 4 bytes.
    GsoMaxSize(u32),
    /// `IFLA_MIN_MTU`: the minimum `Mtu` that may be set; 4 bytes.
    MinMtu(u32),
    /// `IFLA_MAX_MTU`: the maximum `Mtu` that may be set; 4 bytes.
    MaxMtu(u32),
    /// `IFLA_LINK_NETNSID`: the id of the network namespace of the lower link; 4 bytes.
    LinkNetnsId(u32),
    /// `IFLA_OPERSTATE`: the operational state; 1 byte.
    OperState(State),
    /// `IFLA_STATS`: statistics, written as 96 bytes and read from any number of bytes.
    Stats(Stats),
    /// `IFLA_STATS64`: statistics, written as 200 bytes and read from any number of bytes.
    Stats64(Stats64),
    /// `IFLA_MAP`: the memory map of the device, written as 32 bytes and read from at least 28.
    Map(Map),
    /// `IFLA_AF_SPEC` under AF_UNSPEC: the attributes of each address family; a list of attributes.
    AfSpecUnspec(Vec<AfSpecUnspec>),
    /// `IFLA_AF_SPEC` of a bridge; a list of attributes.
    AfSpecBridge(Vec<DefaultNla>),
    /// `IFLA_AF_SPEC` of any other family; any bytes.
    AfSpecUnknown(Vec<u8>),
    /// `IFLA_PARENT_DEV_NAME`: the name of the parent device; a text.
    ParentDevName(String),
    /// `IFLA_PARENT_DEV_BUS_NAME`: the name of the parent device's bus; a text.
    ParentDevBusName(String),
    /// `IFLA_GRO_MAX_SIZE`: the maximum size of a packet by generic receive offload; 4 bytes.
    GroMaxSize(u32),
    /// `IFLA_TSO_MAX_SIZE`: the maximum size of a packet for TCP segmentation offload, by the
    /// device; 4 bytes.
    TsoMaxSize(u32),
    /// `IFLA_TSO_MAX_SEGS`: the maximum number of segments of a packet by TCP segmentation offload,
    /// by the device; 4 bytes.
    TsoMaxSegs(u32),
    /// `IFLA_ALLMULTI`: the count of requests for all multicast packets; 4 bytes.
    AllMulti(u32),
    /// `IFLA_DEVLINK_PORT`: the devlink port; a list of attributes, written with the nested bit.
    DevlinkPort(Vec<DevlinkPort>),
    /// `IFLA_GSO_IPV4_MAX_SIZE`: as `GsoMaxSize`, for IPv4; 4 bytes.
    GsoIpv4MaxSize(u32),
    /// `IFLA_GRO_IPV4_MAX_SIZE`: as `GroMaxSize`, for IPv4; 4 bytes.
    GroIpv4MaxSize(u32),
    /// `IFLA_DPLL_PIN`: the pin of a digital phase-locked loop; a list of attributes, written with
    /// the nested bit.
    DpllPin(Vec<DpllPin>),
    /// Any other kind, kept unchanged.
    Other(DefaultNla),
}

/// A payload that is a number, a text or bytes.
macro_rules! field {
    ($variant:ident, $value:expr) => {
        LinkPayload::Field(Field::$variant($value))
    };
}

impl LinkAttribute {
    // Returns the kind and the payload.
    #[tactic(auto, using(netlink_packet_core_grammar::proofs::Numbers::signs))]
    fn payload(&self) -> (u16, LinkPayload<'_>)
        ensures kind { result.0 ≡ (link_attribute_entry self.now).kind }
        ensures payload { link_payload_bytes result.1 ≡ (link_attribute_entry self.now).payload }
        ensures fits { link_payload_fits result.1 ≡ link_attribute_fits self.now }
    {
        match self {
            Self::VfInfoList(list) => (IFLA_VFINFO_LIST, LinkPayload::VfInfos(list)),
            Self::VfPorts(list) => (IFLA_VF_PORTS, LinkPayload::VfPorts(list)),
            Self::PortSelf(port) => (IFLA_PORT_SELF, LinkPayload::Port(&port.0)),
            Self::PhysPortId(id) => (IFLA_PHYS_PORT_ID, field!(Bytes, id.bytes.as_slice())),
            Self::PhysSwitchId(id) => (IFLA_PHYS_SWITCH_ID, field!(Bytes, id.bytes.as_slice())),
            Self::Xdp(list) => (IFLA_XDP, LinkPayload::Xdp(list)),
            Self::Event(event) => (IFLA_EVENT, field!(U32, u32::from(*event))),
            Self::NewNetnsId(number) => (IFLA_NEW_NETNSID, field!(U32, *number)),
            Self::IfNetnsId(number) => (IFLA_IF_NETNSID, field!(U32, *number)),
            Self::CarrierUpCount(number) => (IFLA_CARRIER_UP_COUNT, field!(U32, *number)),
            Self::CarrierDownCount(number) => (IFLA_CARRIER_DOWN_COUNT, field!(U32, *number)),
            Self::NewIfIndex(number) => (IFLA_NEW_IFINDEX, field!(U32, *number)),
            Self::LinkInfo(list) => (IFLA_LINKINFO, LinkPayload::LinkInfo(list)),
            Self::ProtoInfoBridge(list) => (IFLA_PROTINFO, LinkPayload::Raw(list)),
            Self::ProtoInfoInet6(list) => (IFLA_PROTINFO, LinkPayload::ProtocolInfos(list)),
            Self::ProtoInfoUnknown(nla) => (nla.kind(), field!(Bytes, nla.value())),
            Self::PropList(list) => (IFLA_PROP_LIST | NLA_F_NESTED, LinkPayload::Props(list)),
            Self::ProtoDownReason(list) => (
                IFLA_PROTO_DOWN_REASON | NLA_F_NESTED,
                LinkPayload::DownReasons(list),
            ),
            Self::Address(bytes) => (IFLA_ADDRESS, field!(Bytes, bytes)),
            Self::Broadcast(bytes) => (IFLA_BROADCAST, field!(Bytes, bytes)),
            Self::PermAddress(bytes) => (IFLA_PERM_ADDRESS, field!(Bytes, bytes)),
            Self::IfName(text) => (IFLA_IFNAME, field!(Text, text)),
            Self::Qdisc(text) => (IFLA_QDISC, field!(Text, text)),
            Self::IfAlias(text) => (IFLA_IFALIAS, field!(Text, text)),
            Self::PhysPortName(text) => (IFLA_PHYS_PORT_NAME, field!(Text, text)),
            Self::Mode(mode) => (IFLA_LINKMODE, field!(U8, u8::from(*mode))),
            Self::Carrier(number) => (IFLA_CARRIER, field!(U8, *number)),
            Self::ProtoDown(number) => (IFLA_PROTO_DOWN, field!(U8, *number)),
            Self::Mtu(number) => (IFLA_MTU, field!(U32, *number)),
            Self::Link(number) => (IFLA_LINK, field!(U32, *number)),
            Self::Controller(number) => (IFLA_MASTER, field!(U32, *number)),
            Self::TxQueueLen(number) => (IFLA_TXQLEN, field!(U32, *number)),
            Self::NetNsPid(number) => (IFLA_NET_NS_PID, field!(U32, *number)),
            Self::NumVf(number) => (IFLA_NUM_VF, field!(U32, *number)),
            Self::Group(number) => (IFLA_GROUP, field!(U32, *number)),
            Self::NetNsFd(number) => (IFLA_NET_NS_FD, field!(U32, number.cast_unsigned())),
            Self::ExtMask(list) => (IFLA_EXT_MASK, field!(U32, LinkExtentMask::join(list))),
            Self::Promiscuity(number) => (IFLA_PROMISCUITY, field!(U32, *number)),
            Self::NumTxQueues(number) => (IFLA_NUM_TX_QUEUES, field!(U32, *number)),
            Self::NumRxQueues(number) => (IFLA_NUM_RX_QUEUES, field!(U32, *number)),
            Self::CarrierChanges(number) => (IFLA_CARRIER_CHANGES, field!(U32, *number)),
            Self::GsoMaxSegs(number) => (IFLA_GSO_MAX_SEGS, field!(U32, *number)),
            Self::GsoMaxSize(number) => (IFLA_GSO_MAX_SIZE, field!(U32, *number)),
            Self::MinMtu(number) => (IFLA_MIN_MTU, field!(U32, *number)),
            Self::MaxMtu(number) => (IFLA_MAX_MTU, field!(U32, *number)),
            Self::LinkNetnsId(number) => (IFLA_LINK_NETNSID, field!(U32, *number)),
            Self::OperState(state) => (IFLA_OPERSTATE, field!(U8, u8::from(*state))),
            Self::Stats(numbers) => (IFLA_STATS, LinkPayload::Stats(numbers)),
            Self::Stats64(numbers) => (IFLA_STATS64, LinkPayload::Stats64(numbers)),
            Self::Map(map) => (IFLA_MAP, LinkPayload::Map(map)),
            Self::AfSpecUnspec(list) => (IFLA_AF_SPEC, LinkPayload::Families(list)),
            Self::AfSpecBridge(list) => (IFLA_AF_SPEC, LinkPayload::Raw(list)),
            Self::AfSpecUnknown(bytes) => (IFLA_AF_SPEC, field!(Bytes, bytes)),
            Self::ParentDevName(text) => (IFLA_PARENT_DEV_NAME, field!(Text, text)),
            Self::ParentDevBusName(text) => (IFLA_PARENT_DEV_BUS_NAME, field!(Text, text)),
            Self::GroMaxSize(number) => (IFLA_GRO_MAX_SIZE, field!(U32, *number)),
            Self::TsoMaxSize(number) => (IFLA_TSO_MAX_SIZE, field!(U32, *number)),
            Self::TsoMaxSegs(number) => (IFLA_TSO_MAX_SEGS, field!(U32, *number)),
            Self::AllMulti(number) => (IFLA_ALLMULTI, field!(U32, *number)),
            Self::DevlinkPort(list) => (
                IFLA_DEVLINK_PORT | NLA_F_NESTED,
                LinkPayload::DevlinkPort(list),
            ),
            Self::GsoIpv4MaxSize(number) => (IFLA_GSO_IPV4_MAX_SIZE, field!(U32, *number)),
            Self::GroIpv4MaxSize(number) => (IFLA_GRO_IPV4_MAX_SIZE, field!(U32, *number)),
            Self::DpllPin(list) => (IFLA_DPLL_PIN | NLA_F_NESTED, LinkPayload::DpllPin(list)),
            Self::Other(nla) => (nla.kind(), field!(Bytes, nla.value())),
        }
    }
}

impl Nla for LinkAttribute {
    ghost entry = { link_attribute_entry };

    ghost inside_fits = { link_attribute_fits };

    fn value_len(&self) -> usize {
        self.payload().1.len()
    }

    fn kind(&self) -> u16 {
        self.payload().0
    }

    fn emit_value(&self, buffer: &mut [u8]) {
        self.payload().1.fill(buffer);
    }

    fn contents_fit(&self) -> bool {
        self.payload().1.fits()
    }
}

impl LinkAttribute {
    // Reads IFLA_PROTINFO, whose payload depends on the address family; `None` if it has no row
    // under the family.
    fn parse_protocol_info(
        alloc: Global,
        family: AddressFamily,
        payload: &[u8],
    ) -> Result<Option<Self>, DecodeError>
        ensures { IsRowRead result (table_family family) (plain_row (table_family family) 12) 12 payload.now }
    {
        match family {
            AddressFamily::Bridge => typed!(ProtoInfoBridge, parse_raw(alloc, payload)),
            AddressFamily::Inet6 => typed!(ProtoInfoInet6, parse_family(alloc, payload)),
            AddressFamily::Unspec
            | AddressFamily::Unix
            | AddressFamily::Inet
            | AddressFamily::Netlink
            | AddressFamily::Packet
            | AddressFamily::Mctp
            | AddressFamily::Other(_) => Ok(None),
        }
    }

    // Reads IFLA_AF_SPEC, whose payload depends on the address family.
    fn parse_af_spec(
        alloc: Global,
        family: AddressFamily,
        payload: &[u8],
    ) -> Result<Option<Self>, DecodeError>
        ensures { IsRowRead result (table_family family) (plain_row (table_family family) 26) 26 payload.now }
    {
        match family {
            AddressFamily::Unspec => typed!(AfSpecUnspec, parse_families(alloc, payload)),
            AddressFamily::Bridge => typed!(AfSpecBridge, parse_raw(alloc, payload)),
            AddressFamily::Unix
            | AddressFamily::Inet
            | AddressFamily::Inet6
            | AddressFamily::Netlink
            | AddressFamily::Packet
            | AddressFamily::Mctp
            | AddressFamily::Other(_) => typed!(AfSpecUnknown, parse_bytes(alloc, payload)),
        }
    }

    // Reads the payload of a kind that holds neither link info nor a text nor a number; `None` if the
    // kind has no row. It is out of line, since each call clears the temporaries of every arm: texts
    // and numbers are read without that.
    #[inline(never)]
    fn read_large_row(
        alloc: Global,
        family: AddressFamily,
        kind: u16,
        payload: &[u8],
    ) -> Result<Option<Self>, DecodeError>
        requires { IsNoText kind }
        ensures { IsRowRead result (table_family family) (plain_row (table_family family) kind) kind payload.now }
    {
        match kind {
            IFLA_ADDRESS => typed!(Address, parse_bytes(alloc, payload)),
            IFLA_BROADCAST => typed!(Broadcast, parse_bytes(alloc, payload)),
            IFLA_STATS => Ok(Some(Self::Stats(read_settings(payload)))),
            IFLA_PROTINFO => Self::parse_protocol_info(alloc, family, payload),
            IFLA_MAP => typed!(Map, Map::parse(payload)),
            IFLA_VFINFO_LIST => typed!(VfInfoList, parse_vf_infos(alloc, payload)),
            IFLA_STATS64 => Ok(Some(Self::Stats64(read_settings(payload)))),
            IFLA_VF_PORTS => typed!(VfPorts, parse_vf_ports(alloc, payload)),
            // A `match`, since a `?` in an arm costs the prover more.
            IFLA_PORT_SELF => match parse_family(alloc, payload) {
                Ok(list) => Ok(Some(Self::PortSelf(LinkVfPort(list)))),
                Err(error) => Err(error),
            },
            IFLA_AF_SPEC => Self::parse_af_spec(alloc, family, payload),
            IFLA_EXT_MASK => typed!(ExtMask, parse_extent_masks(alloc, payload)),
            IFLA_PHYS_PORT_ID => typed!(PhysPortId, LinkPhysId::parse(alloc, payload)),
            IFLA_PHYS_SWITCH_ID => typed!(PhysSwitchId, LinkPhysId::parse(alloc, payload)),
            IFLA_XDP => typed!(Xdp, parse_family(alloc, payload)),
            IFLA_PROP_LIST => typed!(PropList, parse_family(alloc, payload)),
            IFLA_PERM_ADDRESS => typed!(PermAddress, parse_bytes(alloc, payload)),
            IFLA_PROTO_DOWN_REASON => typed!(ProtoDownReason, parse_family(alloc, payload)),
            IFLA_DEVLINK_PORT => typed!(DevlinkPort, parse_family(alloc, payload)),
            IFLA_DPLL_PIN => typed!(DpllPin, parse_family(alloc, payload)),
            _ => Self::read_number(family, kind, payload),
        }
    }

    // Reads the payload of a kind other than link info, of texts without the temporaries of others;
    // `None` if the kind has no row.
    #[inline(never)]
    fn read_text(
        alloc: Global,
        family: AddressFamily,
        kind: u16,
        payload: &[u8],
    ) -> Result<Option<Self>, DecodeError>
        requires { (kind == 18) ≡ false }
        ensures { IsRowRead result (table_family family) (plain_row (table_family family) kind) kind payload.now }
    {
        match kind {
            IFLA_IFNAME => typed!(IfName, parse_string(alloc, payload)),
            IFLA_QDISC => typed!(Qdisc, parse_string(alloc, payload)),
            IFLA_IFALIAS => typed!(IfAlias, parse_string(alloc, payload)),
            IFLA_PHYS_PORT_NAME => typed!(PhysPortName, parse_string(alloc, payload)),
            IFLA_PARENT_DEV_NAME => typed!(ParentDevName, parse_string(alloc, payload)),
            IFLA_PARENT_DEV_BUS_NAME => typed!(ParentDevBusName, parse_string(alloc, payload)),
            _ => Self::read_large_row(alloc, family, kind, payload),
        }
    }

    // Reads the payload of a kind other than link info; `None` if the kind has no row. Kinds that
    // hold a number are left to `read_number`, since the prover's time for a match grows with its
    // paths times the variants. With an arm for each kind the prover knows which kinds are left.
    fn read_plain_row(
        alloc: Global,
        family: AddressFamily,
        kind: u16,
        payload: &[u8],
    ) -> Result<Option<Self>, DecodeError>
        requires { (kind == 18) ≡ false }
        ensures { IsRowRead result (table_family family) (plain_row (table_family family) kind) kind payload.now }
    {
        match kind {
            IFLA_ADDRESS => Self::read_large_row(alloc, family, kind, payload),
            IFLA_BROADCAST => Self::read_large_row(alloc, family, kind, payload),
            IFLA_IFNAME => Self::read_text(alloc, family, kind, payload),
            IFLA_QDISC => Self::read_text(alloc, family, kind, payload),
            IFLA_STATS => Self::read_large_row(alloc, family, kind, payload),
            IFLA_PROTINFO => Self::read_large_row(alloc, family, kind, payload),
            IFLA_MAP => Self::read_large_row(alloc, family, kind, payload),
            IFLA_IFALIAS => Self::read_text(alloc, family, kind, payload),
            IFLA_VFINFO_LIST => Self::read_large_row(alloc, family, kind, payload),
            IFLA_STATS64 => Self::read_large_row(alloc, family, kind, payload),
            IFLA_VF_PORTS => Self::read_large_row(alloc, family, kind, payload),
            IFLA_PORT_SELF => Self::read_large_row(alloc, family, kind, payload),
            IFLA_AF_SPEC => Self::read_large_row(alloc, family, kind, payload),
            IFLA_EXT_MASK => Self::read_large_row(alloc, family, kind, payload),
            IFLA_PHYS_PORT_ID => Self::read_large_row(alloc, family, kind, payload),
            IFLA_PHYS_SWITCH_ID => Self::read_large_row(alloc, family, kind, payload),
            IFLA_PHYS_PORT_NAME => Self::read_text(alloc, family, kind, payload),
            IFLA_XDP => Self::read_large_row(alloc, family, kind, payload),
            IFLA_PROP_LIST => Self::read_large_row(alloc, family, kind, payload),
            IFLA_PERM_ADDRESS => Self::read_large_row(alloc, family, kind, payload),
            IFLA_PROTO_DOWN_REASON => Self::read_large_row(alloc, family, kind, payload),
            IFLA_PARENT_DEV_NAME => Self::read_text(alloc, family, kind, payload),
            IFLA_PARENT_DEV_BUS_NAME => Self::read_text(alloc, family, kind, payload),
            IFLA_DEVLINK_PORT => Self::read_large_row(alloc, family, kind, payload),
            IFLA_DPLL_PIN => Self::read_large_row(alloc, family, kind, payload),
            _ => Self::read_number(family, kind, payload),
        }
    }

    // Reads the payload of a kind without its flag bits; `None` if the kind has no row.
    fn read_row(
        alloc: Global,
        family: AddressFamily,
        kind: u16,
        payload: &[u8],
    ) -> Result<Option<Self>, DecodeError>
        ensures { IsRowRead result (table_family family) (attribute_row link_peer (table_family family) kind) kind payload.now }
    {
        only_link_info_holds_peers();
        match kind {
            IFLA_LINKINFO => typed!(LinkInfo, parse_link_info(alloc, payload)),
            _ => Self::read_plain_row(alloc, family, kind, payload),
        }
    }

    // Reads one attribute; out of memory may hide a refusal.
    fn read(
        alloc: Global,
        buf: &NlaBuffer<&[u8]>,
        family: AddressFamily,
    ) -> Result<LinkAttribute, DecodeError>
        requires { BeginsWithAttribute (storage buf.now).now }
        ensures judged { SucceedsIf result
            (is_accepted_by (attribute_row link_peer (table_family family)) (storage buf.now).now) }
        ensures written { IsRewrittenBy result link_attribute_entry link_attribute_fits
            (viewed_row (attribute_row link_peer (table_family family)) (storage buf.now).now)
            (viewed_attribute (storage buf.now).now) }
        ensures is_row_variant { IfOk result
            (λ v. link_attribute_names_row (table_family family) v) }
        ensures memory { IfMemory result
            (link_attribute_may_allocate (table_family family) (storage buf.now).now ≡ true) }
    {
        typed_rows_write_the_kind();
        match Self::read_row(alloc, family, buf.kind(), buf.value()) {
            Ok(Some(value)) => Ok(value),
            Ok(None) => match buf.kind() {
                IFLA_PROTINFO => Ok(Self::ProtoInfoUnknown(DefaultNla::parse(alloc, buf)?)),
                _ => Ok(Self::Other(DefaultNla::parse(alloc, buf)?)),
            },
            Err(error) => Err(error),
        }
    }

    /// Reads one attribute under an address family, of which only the variant counts. Allocates the
    /// returned value.
    ///
    /// # Errors
    ///
    /// A refusal if the attribute's row doesn't accept it; out of memory if an allocation fails for
    /// an accepted attribute. After a failed allocation the rest is checked without allocating.
    pub fn parse_with_param(
        alloc: Global,
        buf: &NlaBuffer<&[u8]>,
        family: AddressFamily,
    ) -> Result<LinkAttribute, DecodeError>
        requires { BeginsWithAttribute (storage buf.now).now }
        ensures judged { IsRefusedUnless result
            (is_accepted_by (attribute_row link_peer (table_family family)) (storage buf.now).now) }
        ensures written { IsRewrittenBy result link_attribute_entry link_attribute_fits
            (viewed_row (attribute_row link_peer (table_family family)) (storage buf.now).now)
            (viewed_attribute (storage buf.now).now) }
        ensures is_row_variant { IfOk result
            (λ v. link_attribute_names_row (table_family family) v) }
        ensures memory { IfMemory result
            (link_attribute_may_allocate (table_family family) (storage buf.now).now ≡ true) }
    {
        match Self::read(alloc, buf, family) {
            Ok(value) => Ok(value),
            Err(error) => {
                let table = number_of_table(family);
                Err(attribute_error(table, buf.raw_kind(), buf.value(), error))
            }
        }
    }

    // Reads attributes; out of memory may hide a refusal.
    #[tactic(auto, using(crate::proofs::Rules::attribute_rules))]
    fn read_list(
        alloc: Global,
        bytes: &[u8],
        family: AddressFamily,
    ) -> Result<Vec<LinkAttribute>, DecodeError>
        ensures judged { SucceedsIf result
            ((attributes_rule link_peer (table_family family)).accepted bytes.now) }
        ensures read { ListIsReadAs result link_attribute_entry link_attribute_fits
            (reading_as any (without_context (attribute_row link_peer (table_family family))) bytes.now) }
        ensures written { ListIsWrittenBy result link_attribute_entry link_attribute_fits
            (attributes_rule link_peer (table_family family)) bytes.now }
        ensures is_row_variant { IfOk result
            (λ v. All (link_attribute_names_row (table_family family)) v.items) }
        ensures not_empty { IfErr result (λ _. 0 < length bytes.now) }
    {
        attributes_are_looked_up();
        parse_list(alloc, &LinkAttributeReader { family }, bytes)
    }

    /// Reads the attributes of a link under an address family, of which only the variant counts.
    /// Allocates the returned list, nothing for no bytes.
    ///
    /// # Errors
    ///
    /// A refusal if the list isn't accepted, which a list of no bytes always is; out of memory if
    /// an allocation fails for an accepted list. After a failed allocation the rest of the list is
    /// checked without allocating.
    pub fn parse_list(
        alloc: Global,
        bytes: &[u8],
        family: AddressFamily,
    ) -> Result<Vec<LinkAttribute>, DecodeError>
        ensures judged { IsRefusedUnless result
            ((attributes_rule link_peer (table_family family)).accepted bytes.now) }
        ensures read { ListIsReadAs result link_attribute_entry link_attribute_fits
            (reading_as any (without_context (attribute_row link_peer (table_family family))) bytes.now) }
        ensures written { ListIsWrittenBy result link_attribute_entry link_attribute_fits
            (attributes_rule link_peer (table_family family)) bytes.now }
        ensures is_row_variant { IfOk result
            (λ v. All (link_attribute_names_row (table_family family)) v.items) }
        ensures not_empty { IfErr result (λ _. 0 < length bytes.now) }
    {
        match Self::read_list(alloc, bytes, family) {
            Ok(list) => Ok(list),
            Err(error) => Err(attributes_error(number_of_table(family), bytes, error)),
        }
    }
}

/// The reader of a link's attributes under an address family, of which only the variant counts.
#[derive(Drop)]
struct LinkAttributeReader {
    family: AddressFamily,
}

impl Reader for LinkAttributeReader {
    type Value = LinkAttribute;

    ghost row_of = { λ r. attribute_row link_peer (table_family r.family) };

    ghost is_row_variant = { λ r. link_attribute_names_row (table_family r.family) };

    ghost may_allocate = { λ r. link_attribute_may_allocate (table_family r.family) };

    fn read(&self, alloc: Global, buf: &NlaBuffer<&[u8]>) -> Result<LinkAttribute, DecodeError> {
        LinkAttribute::read(alloc, buf, self.family)
    }
}
