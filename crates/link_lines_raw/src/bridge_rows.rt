//! Rows of lists about bridges and their ports.

ghost use Rattle.std.specs.Prelude.{◌≡◌, true, [], get_or};
ghost use Rattle.link_lines_values.specs.DenseRows.{are_dense};
ghost use Rattle.link_lines_raw.specs.Rows.{raw_rows_in_code};
ghost use Rattle.link_lines_raw.specs.Tables.{bridge_rows};

use crate::raw_rows_in;
use crate::raw_tables::{
    CFM, MRP, MRP_IN_ROLE, MRP_IN_STATE, MRP_INFO, MRP_INSTANCE, MRP_PORT_ROLE, MRP_PORT_STATE,
    MRP_RING_ROLE, MRP_RING_STATE, MRP_START_IN_TEST, MRP_START_TEST, MST, MST_ENTRY,
    QUERIER_STATE, VLAN_TUNNEL,
};
use crate::rows::RawBy::{List, Value};
use crate::rows::RawRow;
use link_lines_values::ExactBy::{BridgeId, Bytes, Number, Record, Sized};
use link_lines_values::ShownBy::{BigEndian, Flags, FlagsAndMask, NamedFlags, Presence};
use link_lines_values::bridge_texts::{
    BR_BOOLOPT, BR_STATE, BR_STP_MODE, BRIDGE_FLAGS, BRIDGE_MODE, BRIDGE_VLAN_FLAGS,
};
use link_lines_values::device_layouts::BRIDGE_VLAN_INFO;
use link_lines_values::{ETHERNET_PROTOCOL, ShownBy};

/// Data of `bridge` (if_link.h: IFLA_BR_*).
pub const BRIDGE_ROWS: &[RawRow] = &raw_rows_in! {
    1, b"IFLA_BR_FORWARD_DELAY", Value(Number(4));
    2, b"IFLA_BR_HELLO_TIME", Value(Number(4));
    3, b"IFLA_BR_MAX_AGE", Value(Number(4));
    4, b"IFLA_BR_AGEING_TIME", Value(Number(4));
    5, b"IFLA_BR_STP_STATE", Value(Number(4));
    6, b"IFLA_BR_PRIORITY", Value(Number(2));
    7, b"IFLA_BR_VLAN_FILTERING", Value(Number(1));
    8, b"IFLA_BR_VLAN_PROTOCOL", Value(Sized(2, BigEndian(ETHERNET_PROTOCOL)));
    9, b"IFLA_BR_GROUP_FWD_MASK", Value(Sized(2, Flags));
    10, b"IFLA_BR_ROOT_ID", Value(BridgeId);
    11, b"IFLA_BR_BRIDGE_ID", Value(BridgeId);
    12, b"IFLA_BR_ROOT_PORT", Value(Number(2));
    13, b"IFLA_BR_ROOT_PATH_COST", Value(Number(4));
    14, b"IFLA_BR_TOPOLOGY_CHANGE", Value(Number(1));
    15, b"IFLA_BR_TOPOLOGY_CHANGE_DETECTED", Value(Number(1));
    16, b"IFLA_BR_HELLO_TIMER", Value(Number(8));
    17, b"IFLA_BR_TCN_TIMER", Value(Number(8));
    18, b"IFLA_BR_TOPOLOGY_CHANGE_TIMER", Value(Number(8));
    19, b"IFLA_BR_GC_TIMER", Value(Number(8));
    20, b"IFLA_BR_GROUP_ADDR", Value(Sized(6, ShownBy::HardwareAddress));
    21, b"IFLA_BR_FDB_FLUSH", Value(Sized(0, Presence));
    22, b"IFLA_BR_MCAST_ROUTER", Value(Number(1));
    23, b"IFLA_BR_MCAST_SNOOPING", Value(Number(1));
    24, b"IFLA_BR_MCAST_QUERY_USE_IFADDR", Value(Number(1));
    25, b"IFLA_BR_MCAST_QUERIER", Value(Number(1));
    26, b"IFLA_BR_MCAST_HASH_ELASTICITY", Value(Number(4));
    27, b"IFLA_BR_MCAST_HASH_MAX", Value(Number(4));
    28, b"IFLA_BR_MCAST_LAST_MEMBER_CNT", Value(Number(4));
    29, b"IFLA_BR_MCAST_STARTUP_QUERY_CNT", Value(Number(4));
    30, b"IFLA_BR_MCAST_LAST_MEMBER_INTVL", Value(Number(8));
    31, b"IFLA_BR_MCAST_MEMBERSHIP_INTVL", Value(Number(8));
    32, b"IFLA_BR_MCAST_QUERIER_INTVL", Value(Number(8));
    33, b"IFLA_BR_MCAST_QUERY_INTVL", Value(Number(8));
    34, b"IFLA_BR_MCAST_QUERY_RESPONSE_INTVL", Value(Number(8));
    35, b"IFLA_BR_MCAST_STARTUP_QUERY_INTVL", Value(Number(8));
    36, b"IFLA_BR_NF_CALL_IPTABLES", Value(Number(1));
    37, b"IFLA_BR_NF_CALL_IP6TABLES", Value(Number(1));
    38, b"IFLA_BR_NF_CALL_ARPTABLES", Value(Number(1));
    39, b"IFLA_BR_VLAN_DEFAULT_PVID", Value(Number(2));
    40, b"IFLA_BR_PAD", Value(Bytes);
    41, b"IFLA_BR_VLAN_STATS_ENABLED", Value(Number(1));
    42, b"IFLA_BR_MCAST_STATS_ENABLED", Value(Number(1));
    43, b"IFLA_BR_MCAST_IGMP_VERSION", Value(Number(1));
    44, b"IFLA_BR_MCAST_MLD_VERSION", Value(Number(1));
    45, b"IFLA_BR_VLAN_STATS_PER_PORT", Value(Number(1));
    46, b"IFLA_BR_MULTI_BOOLOPT", Value(Sized(8, FlagsAndMask(BR_BOOLOPT)));
    47, b"IFLA_BR_MCAST_QUERIER_STATE", List(QUERIER_STATE);
    48, b"IFLA_BR_FDB_N_LEARNED", Value(Number(4));
    49, b"IFLA_BR_FDB_MAX_LEARNED", Value(Number(4));
    50, b"IFLA_BR_STP_MODE", Value(Sized(4, ShownBy::Number(BR_STP_MODE)));
};

/// Querier state (if_bridge.h: BRIDGE_QUERIER_*).
pub const QUERIER_STATE_ROWS: &[RawRow] = &raw_rows_in! {
    1, b"BRIDGE_QUERIER_IP_ADDRESS", Value(Sized(4, ShownBy::Address));
    2, b"BRIDGE_QUERIER_IP_PORT", Value(Number(4));
    3, b"BRIDGE_QUERIER_IP_OTHER_TIMER", Value(Number(8));
    4, b"BRIDGE_QUERIER_PAD", Value(Bytes);
    5, b"BRIDGE_QUERIER_IPV6_ADDRESS", Value(Sized(16, ShownBy::Address));
    6, b"BRIDGE_QUERIER_IPV6_PORT", Value(Number(4));
    7, b"BRIDGE_QUERIER_IPV6_OTHER_TIMER", Value(Number(8));
};

/// Port data of `bridge`, and IFLA_PROTINFO of bridges (if_link.h: IFLA_BRPORT_*).
pub const BRIDGE_PORT_ROWS: &[RawRow] = &raw_rows_in! {
    1, b"IFLA_BRPORT_STATE", Value(Sized(1, ShownBy::Number(BR_STATE)));
    2, b"IFLA_BRPORT_PRIORITY", Value(Number(2));
    3, b"IFLA_BRPORT_COST", Value(Number(4));
    4, b"IFLA_BRPORT_MODE", Value(Number(1));
    5, b"IFLA_BRPORT_GUARD", Value(Number(1));
    6, b"IFLA_BRPORT_PROTECT", Value(Number(1));
    7, b"IFLA_BRPORT_FAST_LEAVE", Value(Number(1));
    8, b"IFLA_BRPORT_LEARNING", Value(Number(1));
    9, b"IFLA_BRPORT_UNICAST_FLOOD", Value(Number(1));
    10, b"IFLA_BRPORT_PROXYARP", Value(Number(1));
    11, b"IFLA_BRPORT_LEARNING_SYNC", Value(Number(1));
    12, b"IFLA_BRPORT_PROXYARP_WIFI", Value(Number(1));
    13, b"IFLA_BRPORT_ROOT_ID", Value(BridgeId);
    14, b"IFLA_BRPORT_BRIDGE_ID", Value(BridgeId);
    15, b"IFLA_BRPORT_DESIGNATED_PORT", Value(Number(2));
    16, b"IFLA_BRPORT_DESIGNATED_COST", Value(Number(2));
    17, b"IFLA_BRPORT_ID", Value(Number(2));
    18, b"IFLA_BRPORT_NO", Value(Number(2));
    19, b"IFLA_BRPORT_TOPOLOGY_CHANGE_ACK", Value(Number(1));
    20, b"IFLA_BRPORT_CONFIG_PENDING", Value(Number(1));
    21, b"IFLA_BRPORT_MESSAGE_AGE_TIMER", Value(Number(8));
    22, b"IFLA_BRPORT_FORWARD_DELAY_TIMER", Value(Number(8));
    23, b"IFLA_BRPORT_HOLD_TIMER", Value(Number(8));
    24, b"IFLA_BRPORT_FLUSH", Value(Sized(0, Presence));
    25, b"IFLA_BRPORT_MULTICAST_ROUTER", Value(Number(1));
    26, b"IFLA_BRPORT_PAD", Value(Bytes);
    27, b"IFLA_BRPORT_MCAST_FLOOD", Value(Number(1));
    28, b"IFLA_BRPORT_MCAST_TO_UCAST", Value(Number(1));
    29, b"IFLA_BRPORT_VLAN_TUNNEL", Value(Number(1));
    30, b"IFLA_BRPORT_BCAST_FLOOD", Value(Number(1));
    31, b"IFLA_BRPORT_GROUP_FWD_MASK", Value(Sized(2, Flags));
    32, b"IFLA_BRPORT_NEIGH_SUPPRESS", Value(Number(1));
    33, b"IFLA_BRPORT_ISOLATED", Value(Number(1));
    34, b"IFLA_BRPORT_BACKUP_PORT", Value(Number(4));
    35, b"IFLA_BRPORT_MRP_RING_OPEN", Value(Number(1));
    36, b"IFLA_BRPORT_MRP_IN_OPEN", Value(Number(1));
    37, b"IFLA_BRPORT_MCAST_EHT_HOSTS_LIMIT", Value(Number(4));
    38, b"IFLA_BRPORT_MCAST_EHT_HOSTS_CNT", Value(Number(4));
    39, b"IFLA_BRPORT_LOCKED", Value(Number(1));
    40, b"IFLA_BRPORT_MAB", Value(Number(1));
    41, b"IFLA_BRPORT_MCAST_N_GROUPS", Value(Number(4));
    42, b"IFLA_BRPORT_MCAST_MAX_GROUPS", Value(Number(4));
    43, b"IFLA_BRPORT_NEIGH_VLAN_SUPPRESS", Value(Number(1));
    44, b"IFLA_BRPORT_BACKUP_NHID", Value(Number(4));
    45, b"IFLA_BRPORT_NEIGH_FORWARD_GRAT", Value(Number(1));
};

/// IFLA_AF_SPEC of bridges (if_bridge.h: IFLA_BRIDGE_*).
pub const BRIDGE_SPECIFIC_ROWS: &[RawRow] = &raw_rows_in! {
    0, b"IFLA_BRIDGE_FLAGS", Value(Sized(2, NamedFlags(BRIDGE_FLAGS)));
    1, b"IFLA_BRIDGE_MODE", Value(Sized(2, ShownBy::Number(BRIDGE_MODE)));
    2, b"IFLA_BRIDGE_VLAN_INFO", Value(Record(BRIDGE_VLAN_INFO));
    3, b"IFLA_BRIDGE_VLAN_TUNNEL_INFO", List(VLAN_TUNNEL);
    4, b"IFLA_BRIDGE_MRP", List(MRP);
    5, b"IFLA_BRIDGE_CFM", List(CFM);
    6, b"IFLA_BRIDGE_MST", List(MST);
};

/// Vlan tunnel (if_bridge.h: IFLA_BRIDGE_VLAN_TUNNEL_*).
pub const VLAN_TUNNEL_ROWS: &[RawRow] = &raw_rows_in! {
    1, b"IFLA_BRIDGE_VLAN_TUNNEL_ID", Value(Number(4));
    2, b"IFLA_BRIDGE_VLAN_TUNNEL_VID", Value(Number(2));
    3, b"IFLA_BRIDGE_VLAN_TUNNEL_FLAGS", Value(Sized(2, NamedFlags(BRIDGE_VLAN_FLAGS)));
};

/// Mst (if_bridge.h: IFLA_BRIDGE_MST_ENTRY).
pub const MST_ROWS: &[RawRow] = &raw_rows_in! {
    1, b"IFLA_BRIDGE_MST_ENTRY", List(MST_ENTRY);
};

/// Mst entry (if_bridge.h: IFLA_BRIDGE_MST_ENTRY_*).
pub const MST_ENTRY_ROWS: &[RawRow] = &raw_rows_in! {
    1, b"IFLA_BRIDGE_MST_ENTRY_MSTI", Value(Number(2));
    2, b"IFLA_BRIDGE_MST_ENTRY_STATE", Value(Sized(1, ShownBy::Number(BR_STATE)));
};

/// Mrp (if_bridge.h: IFLA_BRIDGE_MRP_*).
pub const MRP_ROWS: &[RawRow] = &raw_rows_in! {
    1, b"IFLA_BRIDGE_MRP_INSTANCE", List(MRP_INSTANCE);
    2, b"IFLA_BRIDGE_MRP_PORT_STATE", List(MRP_PORT_STATE);
    3, b"IFLA_BRIDGE_MRP_PORT_ROLE", List(MRP_PORT_ROLE);
    4, b"IFLA_BRIDGE_MRP_RING_STATE", List(MRP_RING_STATE);
    5, b"IFLA_BRIDGE_MRP_RING_ROLE", List(MRP_RING_ROLE);
    6, b"IFLA_BRIDGE_MRP_START_TEST", List(MRP_START_TEST);
    7, b"IFLA_BRIDGE_MRP_INFO", List(MRP_INFO);
    8, b"IFLA_BRIDGE_MRP_IN_ROLE", List(MRP_IN_ROLE);
    9, b"IFLA_BRIDGE_MRP_IN_STATE", List(MRP_IN_STATE);
    10, b"IFLA_BRIDGE_MRP_START_IN_TEST", List(MRP_START_IN_TEST);
};

/// Mrp instance (if_bridge.h: IFLA_BRIDGE_MRP_INSTANCE_*).
pub const MRP_INSTANCE_ROWS: &[RawRow] = &raw_rows_in! {
    1, b"IFLA_BRIDGE_MRP_INSTANCE_RING_ID", Value(Number(4));
    2, b"IFLA_BRIDGE_MRP_INSTANCE_P_IFINDEX", Value(Number(4));
    3, b"IFLA_BRIDGE_MRP_INSTANCE_S_IFINDEX", Value(Number(4));
    4, b"IFLA_BRIDGE_MRP_INSTANCE_PRIO", Value(Number(2));
};

/// Mrp port state (if_bridge.h: IFLA_BRIDGE_MRP_PORT_STATE_STATE).
pub const MRP_PORT_STATE_ROWS: &[RawRow] = &raw_rows_in! {
    1, b"IFLA_BRIDGE_MRP_PORT_STATE_STATE", Value(Number(4));
};

/// Mrp port role (if_bridge.h: IFLA_BRIDGE_MRP_PORT_ROLE_ROLE).
pub const MRP_PORT_ROLE_ROWS: &[RawRow] = &raw_rows_in! {
    1, b"IFLA_BRIDGE_MRP_PORT_ROLE_ROLE", Value(Number(4));
};

/// Mrp ring state (if_bridge.h: IFLA_BRIDGE_MRP_RING_STATE_*).
pub const MRP_RING_STATE_ROWS: &[RawRow] = &raw_rows_in! {
    1, b"IFLA_BRIDGE_MRP_RING_STATE_RING_ID", Value(Number(4));
    2, b"IFLA_BRIDGE_MRP_RING_STATE_STATE", Value(Number(4));
};

/// Mrp ring role (if_bridge.h: IFLA_BRIDGE_MRP_RING_ROLE_*).
pub const MRP_RING_ROLE_ROWS: &[RawRow] = &raw_rows_in! {
    1, b"IFLA_BRIDGE_MRP_RING_ROLE_RING_ID", Value(Number(4));
    2, b"IFLA_BRIDGE_MRP_RING_ROLE_ROLE", Value(Number(4));
};

/// Mrp start test (if_bridge.h: IFLA_BRIDGE_MRP_START_TEST_*).
pub const MRP_START_TEST_ROWS: &[RawRow] = &raw_rows_in! {
    1, b"IFLA_BRIDGE_MRP_START_TEST_RING_ID", Value(Number(4));
    2, b"IFLA_BRIDGE_MRP_START_TEST_INTERVAL", Value(Number(4));
    3, b"IFLA_BRIDGE_MRP_START_TEST_MAX_MISS", Value(Number(4));
    4, b"IFLA_BRIDGE_MRP_START_TEST_PERIOD", Value(Number(4));
    5, b"IFLA_BRIDGE_MRP_START_TEST_MONITOR", Value(Number(4));
};

/// Mrp info (if_bridge.h: IFLA_BRIDGE_MRP_INFO_*).
pub const MRP_INFO_ROWS: &[RawRow] = &raw_rows_in! {
    1, b"IFLA_BRIDGE_MRP_INFO_RING_ID", Value(Number(4));
    2, b"IFLA_BRIDGE_MRP_INFO_P_IFINDEX", Value(Number(4));
    3, b"IFLA_BRIDGE_MRP_INFO_S_IFINDEX", Value(Number(4));
    4, b"IFLA_BRIDGE_MRP_INFO_PRIO", Value(Number(2));
    5, b"IFLA_BRIDGE_MRP_INFO_RING_STATE", Value(Number(4));
    6, b"IFLA_BRIDGE_MRP_INFO_RING_ROLE", Value(Number(4));
    7, b"IFLA_BRIDGE_MRP_INFO_TEST_INTERVAL", Value(Number(4));
    8, b"IFLA_BRIDGE_MRP_INFO_TEST_MAX_MISS", Value(Number(4));
    9, b"IFLA_BRIDGE_MRP_INFO_TEST_MONITOR", Value(Number(4));
    10, b"IFLA_BRIDGE_MRP_INFO_I_IFINDEX", Value(Number(4));
    11, b"IFLA_BRIDGE_MRP_INFO_IN_STATE", Value(Number(4));
    12, b"IFLA_BRIDGE_MRP_INFO_IN_ROLE", Value(Number(4));
    13, b"IFLA_BRIDGE_MRP_INFO_IN_TEST_INTERVAL", Value(Number(4));
    14, b"IFLA_BRIDGE_MRP_INFO_IN_TEST_MAX_MISS", Value(Number(4));
};

/// Mrp in state (if_bridge.h: IFLA_BRIDGE_MRP_IN_STATE_*).
pub const MRP_IN_STATE_ROWS: &[RawRow] = &raw_rows_in! {
    1, b"IFLA_BRIDGE_MRP_IN_STATE_IN_ID", Value(Number(4));
    2, b"IFLA_BRIDGE_MRP_IN_STATE_STATE", Value(Number(4));
};

/// Mrp in role (if_bridge.h: IFLA_BRIDGE_MRP_IN_ROLE_*).
pub const MRP_IN_ROLE_ROWS: &[RawRow] = &raw_rows_in! {
    1, b"IFLA_BRIDGE_MRP_IN_ROLE_RING_ID", Value(Number(4));
    2, b"IFLA_BRIDGE_MRP_IN_ROLE_IN_ID", Value(Number(2));
    3, b"IFLA_BRIDGE_MRP_IN_ROLE_ROLE", Value(Number(4));
    4, b"IFLA_BRIDGE_MRP_IN_ROLE_I_IFINDEX", Value(Number(4));
};

/// Mrp start in test (if_bridge.h: IFLA_BRIDGE_MRP_START_IN_TEST_*).
pub const MRP_START_IN_TEST_ROWS: &[RawRow] = &raw_rows_in! {
    1, b"IFLA_BRIDGE_MRP_START_IN_TEST_IN_ID", Value(Number(4));
    2, b"IFLA_BRIDGE_MRP_START_IN_TEST_INTERVAL", Value(Number(4));
    3, b"IFLA_BRIDGE_MRP_START_IN_TEST_MAX_MISS", Value(Number(4));
    4, b"IFLA_BRIDGE_MRP_START_IN_TEST_PERIOD", Value(Number(4));
};

/// Returns the rows of a table, by its index from that of the first table here on.
#[tactic(auto, unfolding(crate::specs::Tables::bridge_rows))]
pub(crate) fn rows(index: u16) -> &'static [RawRow]
    ensures rows { raw_rows_in_code (λ b. b.now) result.now ≡ get_or bridge_rows index [] }
    ensures dense { are_dense result.now ≡ true }
{
    match index {
        0 => BRIDGE_ROWS,
        1 => QUERIER_STATE_ROWS,
        2 => BRIDGE_PORT_ROWS,
        3 => BRIDGE_SPECIFIC_ROWS,
        4 => VLAN_TUNNEL_ROWS,
        5 => MST_ROWS,
        6 => MST_ENTRY_ROWS,
        7 => MRP_ROWS,
        8 => MRP_INSTANCE_ROWS,
        9 => MRP_PORT_STATE_ROWS,
        10 => MRP_PORT_ROLE_ROWS,
        11 => MRP_RING_STATE_ROWS,
        12 => MRP_RING_ROLE_ROWS,
        13 => MRP_START_TEST_ROWS,
        14 => MRP_INFO_ROWS,
        15 => MRP_IN_STATE_ROWS,
        16 => MRP_IN_ROLE_ROWS,
        17 => MRP_START_IN_TEST_ROWS,
        _ => &[],
    }
}
