//! Rows of lists in messages about multicast groups, VLANs and tunnels, and in acknowledgements.

ghost use Rattle.std.specs.Prelude.{◌≡◌, true, [], get_or};
ghost use Rattle.link_lines_values.specs.DenseRows.{are_dense};
ghost use Rattle.link_lines_raw.specs.Rows.{raw_rows_in_code};
ghost use Rattle.link_lines_raw.specs.Tables.{multicast_rows};

use crate::raw_rows_in;
use crate::raw_tables::{
    ATTRIBUTE_POLICY, MULTICAST, MULTICAST_ATTRIBUTES, MULTICAST_ENTRY, MULTICAST_GROUP,
    MULTICAST_GROUPS, MULTICAST_ROUTER, MULTICAST_ROUTERS, MULTICAST_SET_SOURCE,
    MULTICAST_SET_SOURCES, MULTICAST_SOURCE, MULTICAST_SOURCES, QUERIER_STATE, VLAN_ENTRY,
    VLAN_GLOBAL_OPTIONS, VLAN_STATISTICS, VLAN_TUNNEL_INFO, VNIFILTER_ENTRY, VNIFILTER_STATS,
};
use crate::records::{BR_MDB_ENTRY_LINE, ROUTER_PORT_LINE};
use crate::rows::RawBy::{Head, List, Records, Value};
use crate::rows::RawRow;
use link_lines_values::ExactBy::{Address, Bytes, Number, Record, Sized, Text};
use link_lines_values::ShownBy::NamedFlags;
use link_lines_values::bridge_texts::{BR_STATE, MCAST_MODE, MDB_ROUTER_TYPE, VLANDB_DUMP_FLAGS};
use link_lines_values::device_layouts::BRIDGE_VLAN_INFO;
use link_lines_values::route_texts::RT_PROTOCOL;
use link_lines_values::{PLAIN, ShownBy};

/// Multicast (if_bridge.h: MDBA_*).
pub const MULTICAST_ROWS: &[RawRow] = &raw_rows_in! {
    1, b"MDBA_MDB", List(MULTICAST_GROUPS);
    2, b"MDBA_ROUTER", List(MULTICAST_ROUTERS);
};

/// Multicast groups (if_bridge.h: MDBA_MDB_ENTRY).
pub const MULTICAST_GROUPS_ROWS: &[RawRow] = &raw_rows_in! {
    1, b"MDBA_MDB_ENTRY", List(MULTICAST_GROUP);
};

/// Multicast group (if_bridge.h: MDBA_MDB_ENTRY_INFO).
pub const MULTICAST_GROUP_ROWS: &[RawRow] = &raw_rows_in! {
    1, b"MDBA_MDB_ENTRY_INFO", Head(BR_MDB_ENTRY_LINE, MULTICAST_ENTRY);
};

/// Multicast entry (if_bridge.h: MDBA_MDB_EATTR_*).
pub const MULTICAST_ENTRY_ROWS: &[RawRow] = &raw_rows_in! {
    1, b"MDBA_MDB_EATTR_TIMER", Value(Number(4));
    2, b"MDBA_MDB_EATTR_SRC_LIST", List(MULTICAST_SOURCES);
    3, b"MDBA_MDB_EATTR_GROUP_MODE", Value(Sized(1, ShownBy::Number(MCAST_MODE)));
    4, b"MDBA_MDB_EATTR_SOURCE", Value(Address);
    5, b"MDBA_MDB_EATTR_RTPROT", Value(Sized(1, ShownBy::Number(RT_PROTOCOL)));
    6, b"MDBA_MDB_EATTR_DST", Value(Address);
    7, b"MDBA_MDB_EATTR_DST_PORT", Value(Number(2));
    8, b"MDBA_MDB_EATTR_VNI", Value(Number(4));
    9, b"MDBA_MDB_EATTR_IFINDEX", Value(Number(4));
    10, b"MDBA_MDB_EATTR_SRC_VNI", Value(Number(4));
};

/// Multicast sources (if_bridge.h: MDBA_MDB_SRCLIST_ENTRY).
pub const MULTICAST_SOURCES_ROWS: &[RawRow] = &raw_rows_in! {
    1, b"MDBA_MDB_SRCLIST_ENTRY", List(MULTICAST_SOURCE);
};

/// Multicast source (if_bridge.h: MDBA_MDB_SRCATTR_*).
pub const MULTICAST_SOURCE_ROWS: &[RawRow] = &raw_rows_in! {
    1, b"MDBA_MDB_SRCATTR_ADDRESS", Value(Address);
    2, b"MDBA_MDB_SRCATTR_TIMER", Value(Number(4));
};

/// Multicast routers (if_bridge.h: MDBA_ROUTER_PORT).
pub const MULTICAST_ROUTERS_ROWS: &[RawRow] = &raw_rows_in! {
    1, b"MDBA_ROUTER_PORT", Head(ROUTER_PORT_LINE, MULTICAST_ROUTER);
};

/// Multicast router (if_bridge.h: MDBA_ROUTER_PATTR_*).
pub const MULTICAST_ROUTER_ROWS: &[RawRow] = &raw_rows_in! {
    1, b"MDBA_ROUTER_PATTR_TIMER", Value(Number(4));
    2, b"MDBA_ROUTER_PATTR_TYPE", Value(Sized(1, ShownBy::Number(MDB_ROUTER_TYPE)));
    3, b"MDBA_ROUTER_PATTR_INET_TIMER", Value(Number(4));
    4, b"MDBA_ROUTER_PATTR_INET6_TIMER", Value(Number(4));
    5, b"MDBA_ROUTER_PATTR_VID", Value(Number(2));
};

/// Multicast set (if_bridge.h: MDBA_SET_*).
pub const MULTICAST_SET_ROWS: &[RawRow] = &raw_rows_in! {
    1, b"MDBA_SET_ENTRY", Records(BR_MDB_ENTRY_LINE);
    2, b"MDBA_SET_ENTRY_ATTRS", List(MULTICAST_ATTRIBUTES);
};

/// Multicast get (if_bridge.h: MDBA_GET_*).
pub const MULTICAST_GET_ROWS: &[RawRow] = &raw_rows_in! {
    1, b"MDBA_GET_ENTRY", Records(BR_MDB_ENTRY_LINE);
    2, b"MDBA_GET_ENTRY_ATTRS", List(MULTICAST_ATTRIBUTES);
};

/// Multicast attributes (if_bridge.h: MDBE_ATTR_*).
pub const MULTICAST_ATTRIBUTES_ROWS: &[RawRow] = &raw_rows_in! {
    1, b"MDBE_ATTR_SOURCE", Value(Address);
    2, b"MDBE_ATTR_SRC_LIST", List(MULTICAST_SET_SOURCES);
    3, b"MDBE_ATTR_GROUP_MODE", Value(Sized(1, ShownBy::Number(MCAST_MODE)));
    4, b"MDBE_ATTR_RTPROT", Value(Sized(1, ShownBy::Number(RT_PROTOCOL)));
    5, b"MDBE_ATTR_DST", Value(Address);
    6, b"MDBE_ATTR_DST_PORT", Value(Number(2));
    7, b"MDBE_ATTR_VNI", Value(Number(4));
    8, b"MDBE_ATTR_IFINDEX", Value(Number(4));
    9, b"MDBE_ATTR_SRC_VNI", Value(Number(4));
    10, b"MDBE_ATTR_STATE_MASK", Value(Number(1));
};

/// Multicast set sources (if_bridge.h: MDBE_SRC_LIST_ENTRY).
pub const MULTICAST_SET_SOURCES_ROWS: &[RawRow] = &raw_rows_in! {
    1, b"MDBE_SRC_LIST_ENTRY", List(MULTICAST_SET_SOURCE);
};

/// Multicast set source (if_bridge.h: MDBE_SRCATTR_ADDRESS).
pub const MULTICAST_SET_SOURCE_ROWS: &[RawRow] = &raw_rows_in! {
    1, b"MDBE_SRCATTR_ADDRESS", Value(Address);
};

/// Vlans (if_bridge.h: BRIDGE_VLANDB_*).
pub const VLANS_ROWS: &[RawRow] = &raw_rows_in! {
    1, b"BRIDGE_VLANDB_ENTRY", List(VLAN_ENTRY);
    2, b"BRIDGE_VLANDB_GLOBAL_OPTIONS", List(VLAN_GLOBAL_OPTIONS);
};

/// Vlans dump (if_bridge.h: BRIDGE_VLANDB_DUMP_FLAGS).
pub const VLANS_DUMP_ROWS: &[RawRow] = &raw_rows_in! {
    1, b"BRIDGE_VLANDB_DUMP_FLAGS", Value(Sized(4, NamedFlags(VLANDB_DUMP_FLAGS)));
};

/// Vlan entry (if_bridge.h: BRIDGE_VLANDB_ENTRY_*).
pub const VLAN_ENTRY_ROWS: &[RawRow] = &raw_rows_in! {
    1, b"BRIDGE_VLANDB_ENTRY_INFO", Value(Record(BRIDGE_VLAN_INFO));
    2, b"BRIDGE_VLANDB_ENTRY_RANGE", Value(Number(2));
    3, b"BRIDGE_VLANDB_ENTRY_STATE", Value(Sized(1, ShownBy::Number(BR_STATE)));
    4, b"BRIDGE_VLANDB_ENTRY_TUNNEL_INFO", List(VLAN_TUNNEL_INFO);
    5, b"BRIDGE_VLANDB_ENTRY_STATS", List(VLAN_STATISTICS);
    6, b"BRIDGE_VLANDB_ENTRY_MCAST_ROUTER", Value(Number(1));
    7, b"BRIDGE_VLANDB_ENTRY_MCAST_N_GROUPS", Value(Number(4));
    8, b"BRIDGE_VLANDB_ENTRY_MCAST_MAX_GROUPS", Value(Number(4));
    9, b"BRIDGE_VLANDB_ENTRY_NEIGH_SUPPRESS", Value(Number(1));
    10, b"BRIDGE_VLANDB_ENTRY_NEIGH_FORWARD_GRAT", Value(Number(1));
};

/// Vlan tunnel info (if_bridge.h: BRIDGE_VLANDB_TINFO_*).
pub const VLAN_TUNNEL_INFO_ROWS: &[RawRow] = &raw_rows_in! {
    1, b"BRIDGE_VLANDB_TINFO_ID", Value(Number(4));
    2, b"BRIDGE_VLANDB_TINFO_CMD", Value(Number(4));
};

/// Vlan statistics (if_bridge.h: BRIDGE_VLANDB_STATS_*).
pub const VLAN_STATISTICS_ROWS: &[RawRow] = &raw_rows_in! {
    1, b"BRIDGE_VLANDB_STATS_RX_BYTES", Value(Number(8));
    2, b"BRIDGE_VLANDB_STATS_RX_PACKETS", Value(Number(8));
    3, b"BRIDGE_VLANDB_STATS_TX_BYTES", Value(Number(8));
    4, b"BRIDGE_VLANDB_STATS_TX_PACKETS", Value(Number(8));
    5, b"BRIDGE_VLANDB_STATS_PAD", Value(Bytes);
};

/// Vlan global options (if_bridge.h: BRIDGE_VLANDB_GOPTS_*).
pub const VLAN_GLOBAL_OPTIONS_ROWS: &[RawRow] = &raw_rows_in! {
    1, b"BRIDGE_VLANDB_GOPTS_ID", Value(Number(2));
    2, b"BRIDGE_VLANDB_GOPTS_RANGE", Value(Number(2));
    3, b"BRIDGE_VLANDB_GOPTS_MCAST_SNOOPING", Value(Number(1));
    4, b"BRIDGE_VLANDB_GOPTS_MCAST_IGMP_VERSION", Value(Number(1));
    5, b"BRIDGE_VLANDB_GOPTS_MCAST_MLD_VERSION", Value(Number(1));
    6, b"BRIDGE_VLANDB_GOPTS_MCAST_LAST_MEMBER_CNT", Value(Number(4));
    7, b"BRIDGE_VLANDB_GOPTS_MCAST_STARTUP_QUERY_CNT", Value(Number(4));
    8, b"BRIDGE_VLANDB_GOPTS_MCAST_LAST_MEMBER_INTVL", Value(Number(8));
    9, b"BRIDGE_VLANDB_GOPTS_PAD", Value(Bytes);
    10, b"BRIDGE_VLANDB_GOPTS_MCAST_MEMBERSHIP_INTVL", Value(Number(8));
    11, b"BRIDGE_VLANDB_GOPTS_MCAST_QUERIER_INTVL", Value(Number(8));
    12, b"BRIDGE_VLANDB_GOPTS_MCAST_QUERY_INTVL", Value(Number(8));
    13, b"BRIDGE_VLANDB_GOPTS_MCAST_QUERY_RESPONSE_INTVL", Value(Number(8));
    14, b"BRIDGE_VLANDB_GOPTS_MCAST_STARTUP_QUERY_INTVL", Value(Number(8));
    15, b"BRIDGE_VLANDB_GOPTS_MCAST_QUERIER", Value(Number(1));
    16, b"BRIDGE_VLANDB_GOPTS_MCAST_ROUTER_PORTS", List(MULTICAST);
    17, b"BRIDGE_VLANDB_GOPTS_MCAST_QUERIER_STATE", List(QUERIER_STATE);
    18, b"BRIDGE_VLANDB_GOPTS_MSTI", Value(Number(2));
};

/// Tunnel (if_link.h: VXLAN_VNIFILTER_ENTRY).
pub const TUNNEL_ROWS: &[RawRow] = &raw_rows_in! {
    1, b"VXLAN_VNIFILTER_ENTRY", List(VNIFILTER_ENTRY);
};

/// Vnifilter entry (if_link.h: VXLAN_VNIFILTER_ENTRY_*).
pub const VNIFILTER_ENTRY_ROWS: &[RawRow] = &raw_rows_in! {
    1, b"VXLAN_VNIFILTER_ENTRY_START", Value(Number(4));
    2, b"VXLAN_VNIFILTER_ENTRY_END", Value(Number(4));
    3, b"VXLAN_VNIFILTER_ENTRY_GROUP", Value(Sized(4, ShownBy::Address));
    4, b"VXLAN_VNIFILTER_ENTRY_GROUP6", Value(Sized(16, ShownBy::Address));
    5, b"VXLAN_VNIFILTER_ENTRY_STATS", List(VNIFILTER_STATS);
};

/// Vnifilter stats (if_link.h: VNIFILTER_ENTRY_STATS_*).
pub const VNIFILTER_STATS_ROWS: &[RawRow] = &raw_rows_in! {
    1, b"VNIFILTER_ENTRY_STATS_RX_BYTES", Value(Number(8));
    2, b"VNIFILTER_ENTRY_STATS_RX_PKTS", Value(Number(8));
    3, b"VNIFILTER_ENTRY_STATS_RX_DROPS", Value(Number(8));
    4, b"VNIFILTER_ENTRY_STATS_RX_ERRORS", Value(Number(8));
    5, b"VNIFILTER_ENTRY_STATS_TX_BYTES", Value(Number(8));
    6, b"VNIFILTER_ENTRY_STATS_TX_PKTS", Value(Number(8));
    7, b"VNIFILTER_ENTRY_STATS_TX_DROPS", Value(Number(8));
    8, b"VNIFILTER_ENTRY_STATS_TX_ERRORS", Value(Number(8));
    9, b"VNIFILTER_ENTRY_STATS_PAD", Value(Bytes);
};

/// Acknowledgement (netlink.h: NLMSGERR_ATTR_*).
pub const ACKNOWLEDGEMENT_ROWS: &[RawRow] = &raw_rows_in! {
    1, b"NLMSGERR_ATTR_MSG", Value(Text);
    2, b"NLMSGERR_ATTR_OFFS", Value(Number(4));
    3, b"NLMSGERR_ATTR_COOKIE", Value(Bytes);
    4, b"NLMSGERR_ATTR_POLICY", List(ATTRIBUTE_POLICY);
    5, b"NLMSGERR_ATTR_MISS_TYPE", Value(Number(4));
    6, b"NLMSGERR_ATTR_MISS_NEST", Value(Number(4));
};

/// Attribute policy (netlink.h: NL_POLICY_TYPE_ATTR_*).
pub const ATTRIBUTE_POLICY_ROWS: &[RawRow] = &raw_rows_in! {
    1, b"NL_POLICY_TYPE_ATTR_TYPE", Value(Number(4));
    2, b"NL_POLICY_TYPE_ATTR_MIN_VALUE_S", Value(Sized(8, ShownBy::Signed(PLAIN)));
    3, b"NL_POLICY_TYPE_ATTR_MAX_VALUE_S", Value(Sized(8, ShownBy::Signed(PLAIN)));
    4, b"NL_POLICY_TYPE_ATTR_MIN_VALUE_U", Value(Number(8));
    5, b"NL_POLICY_TYPE_ATTR_MAX_VALUE_U", Value(Number(8));
    6, b"NL_POLICY_TYPE_ATTR_MIN_LENGTH", Value(Number(4));
    7, b"NL_POLICY_TYPE_ATTR_MAX_LENGTH", Value(Number(4));
    8, b"NL_POLICY_TYPE_ATTR_POLICY_IDX", Value(Number(4));
    9, b"NL_POLICY_TYPE_ATTR_POLICY_MAXTYPE", Value(Number(4));
    10, b"NL_POLICY_TYPE_ATTR_BITFIELD32_MASK", Value(Sized(4, ShownBy::Flags));
    11, b"NL_POLICY_TYPE_ATTR_PAD", Value(Bytes);
    12, b"NL_POLICY_TYPE_ATTR_MASK", Value(Sized(8, ShownBy::Flags));
};

/// Returns the rows of a table, by its index from that of the first table here on.
#[tactic(auto, unfolding(crate::specs::Tables::multicast_rows))]
pub(crate) fn rows(index: u16) -> &'static [RawRow]
    ensures rows { raw_rows_in_code (λ b. b.now) result.now ≡ get_or multicast_rows index [] }
    ensures dense { are_dense result.now ≡ true }
{
    match index {
        0 => MULTICAST_ROWS,
        1 => MULTICAST_GROUPS_ROWS,
        2 => MULTICAST_GROUP_ROWS,
        3 => MULTICAST_ENTRY_ROWS,
        4 => MULTICAST_SOURCES_ROWS,
        5 => MULTICAST_SOURCE_ROWS,
        6 => MULTICAST_ROUTERS_ROWS,
        7 => MULTICAST_ROUTER_ROWS,
        8 => MULTICAST_SET_ROWS,
        9 => MULTICAST_GET_ROWS,
        10 => MULTICAST_ATTRIBUTES_ROWS,
        11 => MULTICAST_SET_SOURCES_ROWS,
        12 => MULTICAST_SET_SOURCE_ROWS,
        13 => VLANS_ROWS,
        14 => VLANS_DUMP_ROWS,
        15 => VLAN_ENTRY_ROWS,
        16 => VLAN_TUNNEL_INFO_ROWS,
        17 => VLAN_STATISTICS_ROWS,
        18 => VLAN_GLOBAL_OPTIONS_ROWS,
        19 => TUNNEL_ROWS,
        20 => VNIFILTER_ENTRY_ROWS,
        21 => VNIFILTER_STATS_ROWS,
        22 => ACKNOWLEDGEMENT_ROWS,
        23 => ATTRIBUTE_POLICY_ROWS,
        _ => &[],
    }
}
