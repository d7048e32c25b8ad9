//! The names of attributes of link messages, of their nested lists, and of link info.

use crate::attribute_names::AttributeRow;
use crate::format::FormatBy::{Data, LinkInfo, List, PortData, Raw, Settings, Statistics, Value};
use crate::{family_names, list_names, setting_names};
use link_lines_raw::raw_tables::FAMILY_SPECIFIC;
use link_lines_values::ShownBy::{
    Address, Flags, HardwareAddress, NamedFlags, Number, Record as Fields, Signed, SparseRecord,
    Text,
};
use link_lines_values::{
    CACHEINFO, ICMP6_STATS, IN6_ADDR_GEN_MODE, IP6_STATS, IPV4_DEVCONF, IPV6_DEVCONF,
    LINK_EXTENT_MASK, LINK_MODE, MAP, MCTP_PHYS_BINDING, PLAIN, STATE, STATS, STATS64,
    VF_BROADCAST, VF_LINK_STATE, VF_MAC, VF_RATE, VF_SETTING, VF_TX_RATE, VF_VLAN, VF_VLAN_INFO,
};
use link_tables::Form::{Any, OfKindOne, Ports};
use link_tables::table::{
    BRIDGE_PORT, BRIDGE_SPECIFIC, DEVLINK_PORT, DPLL_PIN, INET, INET6, INET6_PROTOCOL, MCTP, PORT,
    PROPS, PROTOCOL_DOWN_REASON, SPECIFIC, VF, VF_INFOS, VF_PORTS, VF_STATS, VF_VLANS, XDP,
};
use link_tables::{
    devlink_port, dpll_pin, inet, inet6, link, link_bridge, link_inet6, link_other, link_unspec,
    mctp, props, protocol_down_reason, specific, vf, vf_infos, vf_ports, vf_stats, vf_vlans, xdp,
};

/// The names of the attributes of each nested table, by the index of the table.
pub const NESTED_NAMES: [&[AttributeRow]; 14] = [
    &xdp!(list_names),
    &props!(list_names),
    &protocol_down_reason!(list_names),
    &devlink_port!(list_names),
    &dpll_pin!(list_names),
    &mctp!(list_names),
    &inet!(setting_names),
    &inet6!(list_names),
    &specific!(list_names),
    &vf_stats!(list_names),
    &vf_vlans!(list_names),
    &vf!(list_names),
    &vf_infos!(list_names),
    &vf_ports!(list_names),
];

/// Links of any address family, without the rows that depend on the family.
pub const LINK_ATTRIBUTE_NAMES: &[AttributeRow] = &link!(
    list_names,
    {
        12;
    },
    {
        26;
    }
);

/// The names of the rows that depend on the address family: of links of no family, of bridges, of
/// IPv6, and of every other family.
pub const FAMILY_NAMES: [&[AttributeRow]; 4] = [
    &link_unspec!(family_names),
    &link_bridge!(family_names),
    &link_inet6!(family_names),
    &link_other!(family_names),
];

/// IFLA_INFO_* (if_link.h).
pub const INFO_ATTRIBUTE_NAMES: &[AttributeRow] = &[
    (1, Some((b"IFLA_INFO_KIND", Value(Text)))),
    (2, Some((b"IFLA_INFO_DATA", Data))),
    (3, Some((b"IFLA_INFO_XSTATS", Statistics))),
    (4, Some((b"IFLA_INFO_SLAVE_KIND", Value(Text)))),
    (5, Some((b"IFLA_INFO_SLAVE_DATA", PortData))),
];
