//! Rows of lists in messages about traffic control and statistics.

ghost use Rattle.std.specs.Prelude.{◌≡◌, true, [], get_or};
ghost use Rattle.link_lines_values.specs.DenseRows.{are_dense};
ghost use Rattle.link_lines_raw.specs.Rows.{raw_rows_in_code};
ghost use Rattle.link_lines_raw.specs.Tables.{traffic_rows};

use crate::raw_rows_in;
use crate::raw_tables::{
    BOND_3AD_STAT, BOND_XSTATS, BRIDGE_XSTATS, HW_S_INFO, HW_S_INFO_ENTRY, INDEXED_ACTION,
    MPLS_STATS, OFFLOAD_XSTATS, SIZE_TABLE, STATISTICS_FAMILIES, STATISTICS_FILTERS,
    TRAFFIC_CONTROL_STATISTICS, XSTATS,
};
use crate::rows::RawBy::{Chosen, List, Value};
use crate::rows::{Choice, RawRow};
use link_lines_values::ExactBy::{Bytes, Counters, Number, Numbers, Record, Sized, Text};
use link_lines_values::STATS64;
use link_lines_values::ShownBy::{Flags, FlagsAndMask, Presence};
use link_lines_values::device_layouts::{
    BR_MCAST_STATS, BRIDGE_STP_XSTATS, BRIDGE_VLAN_XSTATS, HW_STATS64, MPLS_LINK_STATS,
};
use link_lines_values::neighbour_texts::{
    TCA_ACT_FLAGS, TCA_ACT_HW_STATS, TCA_DUMP_FLAGS, TCA_ROOT_FLAGS,
};
use link_lines_values::route_layouts::{
    GNET_STATS_BASIC, GNET_STATS_QUEUE, GNET_STATS_RATE_EST, GNET_STATS_RATE_EST64, TC_ESTIMATOR,
    TC_SIZESPEC, TC_STATS,
};

/// Traffic control (rtnetlink.h: TCA_*).
pub const TRAFFIC_CONTROL_ROWS: &[RawRow] = &raw_rows_in! {
    1, b"TCA_KIND", Value(Text);
    2, b"TCA_OPTIONS", Chosen(Choice::Options, 1);
    3, b"TCA_STATS", Value(Record(TC_STATS));
    4, b"TCA_XSTATS", Value(Bytes);
    5, b"TCA_RATE", Value(Record(TC_ESTIMATOR));
    6, b"TCA_FCNT", Value(Number(4));
    7, b"TCA_STATS2", List(TRAFFIC_CONTROL_STATISTICS);
    8, b"TCA_STAB", List(SIZE_TABLE);
    9, b"TCA_PAD", Value(Bytes);
    10, b"TCA_DUMP_INVISIBLE", Value(Sized(0, Presence));
    11, b"TCA_CHAIN", Value(Number(4));
    12, b"TCA_HW_OFFLOAD", Value(Number(1));
    13, b"TCA_INGRESS_BLOCK", Value(Number(4));
    14, b"TCA_EGRESS_BLOCK", Value(Number(4));
    15, b"TCA_DUMP_FLAGS", Value(Sized(8, FlagsAndMask(TCA_DUMP_FLAGS)));
    16, b"TCA_EXT_WARN_MSG", Value(Text);
};

/// Traffic control statistics (gen_stats.h: TCA_STATS_*).
pub const TRAFFIC_CONTROL_STATISTICS_ROWS: &[RawRow] = &raw_rows_in! {
    1, b"TCA_STATS_BASIC", Value(Record(GNET_STATS_BASIC));
    2, b"TCA_STATS_RATE_EST", Value(Record(GNET_STATS_RATE_EST));
    3, b"TCA_STATS_QUEUE", Value(Record(GNET_STATS_QUEUE));
    4, b"TCA_STATS_APP", Value(Bytes);
    5, b"TCA_STATS_RATE_EST64", Value(Record(GNET_STATS_RATE_EST64));
    6, b"TCA_STATS_PAD", Value(Bytes);
    7, b"TCA_STATS_BASIC_HW", Value(Record(GNET_STATS_BASIC));
    8, b"TCA_STATS_PKT64", Value(Number(8));
};

/// Size table (pkt_sched.h: TCA_STAB_*).
pub const SIZE_TABLE_ROWS: &[RawRow] = &raw_rows_in! {
    1, b"TCA_STAB_BASE", Value(Record(TC_SIZESPEC));
    2, b"TCA_STAB_DATA", Value(Numbers(2));
};

/// Actions (rtnetlink.h: TCA_ROOT_*).
pub const ACTIONS_ROWS: &[RawRow] = &raw_rows_in! {
    1, b"TCA_ROOT_TAB", List(INDEXED_ACTION);
    2, b"TCA_ROOT_FLAGS", Value(Sized(8, FlagsAndMask(TCA_ROOT_FLAGS)));
    3, b"TCA_ROOT_COUNT", Value(Number(4));
    4, b"TCA_ROOT_TIME_DELTA", Value(Number(4));
    5, b"TCA_ROOT_EXT_WARN_MSG", Value(Text);
};

/// Each kind is an index.
pub const INDEXED_ACTION_ROWS: &[RawRow] = &[];

/// Action (pkt_cls.h: TCA_ACT_*).
pub const ACTION_ROWS: &[RawRow] = &raw_rows_in! {
    1, b"TCA_ACT_KIND", Value(Text);
    2, b"TCA_ACT_OPTIONS", Chosen(Choice::ActionOptions, 1);
    3, b"TCA_ACT_INDEX", Value(Number(4));
    4, b"TCA_ACT_STATS", List(TRAFFIC_CONTROL_STATISTICS);
    5, b"TCA_ACT_PAD", Value(Bytes);
    6, b"TCA_ACT_COOKIE", Value(Bytes);
    7, b"TCA_ACT_FLAGS", Value(Sized(8, FlagsAndMask(TCA_ACT_FLAGS)));
    8, b"TCA_ACT_HW_STATS", Value(Sized(8, FlagsAndMask(TCA_ACT_HW_STATS)));
    9, b"TCA_ACT_USED_HW_STATS", Value(Sized(8, FlagsAndMask(TCA_ACT_HW_STATS)));
    10, b"TCA_ACT_IN_HW_COUNT", Value(Number(4));
};

/// Statistics (if_link.h: IFLA_STATS_*).
pub const STATISTICS_ROWS: &[RawRow] = &raw_rows_in! {
    1, b"IFLA_STATS_LINK_64", Value(Counters(STATS64));
    2, b"IFLA_STATS_LINK_XSTATS", List(XSTATS);
    3, b"IFLA_STATS_LINK_XSTATS_SLAVE", List(XSTATS);
    4, b"IFLA_STATS_LINK_OFFLOAD_XSTATS", List(OFFLOAD_XSTATS);
    5, b"IFLA_STATS_AF_SPEC", List(STATISTICS_FAMILIES);
};

/// Statistics request (if_link.h: IFLA_STATS_*).
pub const STATISTICS_REQUEST_ROWS: &[RawRow] = &raw_rows_in! {
    1, b"IFLA_STATS_GET_FILTERS", List(STATISTICS_FILTERS);
    2, b"IFLA_STATS_SET_OFFLOAD_XSTATS_L3_STATS", Value(Number(1));
};

/// Statistics filters (if_link.h: IFLA_STATS_*).
pub const STATISTICS_FILTERS_ROWS: &[RawRow] = &raw_rows_in! {
    1, b"IFLA_STATS_LINK_64", Value(Sized(4, Flags));
    2, b"IFLA_STATS_LINK_XSTATS", Value(Sized(4, Flags));
    3, b"IFLA_STATS_LINK_XSTATS_SLAVE", Value(Sized(4, Flags));
    4, b"IFLA_STATS_LINK_OFFLOAD_XSTATS", Value(Sized(4, Flags));
    5, b"IFLA_STATS_AF_SPEC", Value(Sized(4, Flags));
};

/// Xstats (if_link.h: LINK_XSTATS_TYPE_*).
pub const XSTATS_ROWS: &[RawRow] = &raw_rows_in! {
    1, b"LINK_XSTATS_TYPE_BRIDGE", List(BRIDGE_XSTATS);
    2, b"LINK_XSTATS_TYPE_BOND", List(BOND_XSTATS);
};

/// Bridge xstats (if_bridge.h: BRIDGE_XSTATS_*).
pub const BRIDGE_XSTATS_ROWS: &[RawRow] = &raw_rows_in! {
    1, b"BRIDGE_XSTATS_VLAN", Value(Record(BRIDGE_VLAN_XSTATS));
    2, b"BRIDGE_XSTATS_MCAST", Value(Counters(BR_MCAST_STATS));
    3, b"BRIDGE_XSTATS_PAD", Value(Bytes);
    4, b"BRIDGE_XSTATS_STP", Value(Counters(BRIDGE_STP_XSTATS));
};

/// Bond xstats (if_bonding.h: BOND_XSTATS_3AD).
pub const BOND_XSTATS_ROWS: &[RawRow] = &raw_rows_in! {
    1, b"BOND_XSTATS_3AD", List(BOND_3AD_STAT);
};

/// Bond 3ad stat (if_bonding.h: BOND_3AD_STAT_*).
pub const BOND_3AD_STAT_ROWS: &[RawRow] = &raw_rows_in! {
    0, b"BOND_3AD_STAT_LACPDU_RX", Value(Number(8));
    1, b"BOND_3AD_STAT_LACPDU_TX", Value(Number(8));
    2, b"BOND_3AD_STAT_LACPDU_UNKNOWN_RX", Value(Number(8));
    3, b"BOND_3AD_STAT_LACPDU_ILLEGAL_RX", Value(Number(8));
    4, b"BOND_3AD_STAT_MARKER_RX", Value(Number(8));
    5, b"BOND_3AD_STAT_MARKER_TX", Value(Number(8));
    6, b"BOND_3AD_STAT_MARKER_RESP_RX", Value(Number(8));
    7, b"BOND_3AD_STAT_MARKER_RESP_TX", Value(Number(8));
    8, b"BOND_3AD_STAT_MARKER_UNKNOWN_RX", Value(Number(8));
    9, b"BOND_3AD_STAT_PAD", Value(Bytes);
};

/// Offload xstats (if_link.h: IFLA_OFFLOAD_XSTATS_*).
pub const OFFLOAD_XSTATS_ROWS: &[RawRow] = &raw_rows_in! {
    1, b"IFLA_OFFLOAD_XSTATS_CPU_HIT", Value(Counters(STATS64));
    2, b"IFLA_OFFLOAD_XSTATS_HW_S_INFO", List(HW_S_INFO);
    3, b"IFLA_OFFLOAD_XSTATS_L3_STATS", Value(Counters(HW_STATS64));
};

/// Hw s info (if_link.h: IFLA_OFFLOAD_XSTATS_L3_STATS).
pub const HW_S_INFO_ROWS: &[RawRow] = &raw_rows_in! {
    3, b"IFLA_OFFLOAD_XSTATS_L3_STATS", List(HW_S_INFO_ENTRY);
};

/// Hw s info entry (if_link.h: IFLA_OFFLOAD_XSTATS_HW_S_INFO_*).
pub const HW_S_INFO_ENTRY_ROWS: &[RawRow] = &raw_rows_in! {
    1, b"IFLA_OFFLOAD_XSTATS_HW_S_INFO_REQUEST", Value(Number(1));
    2, b"IFLA_OFFLOAD_XSTATS_HW_S_INFO_USED", Value(Number(1));
};

/// Statistics families (socket.h: AF_MPLS).
pub const STATISTICS_FAMILIES_ROWS: &[RawRow] = &raw_rows_in! {
    28, b"AF_MPLS", List(MPLS_STATS);
};

/// Mpls stats (mpls.h: MPLS_STATS_LINK).
pub const MPLS_STATS_ROWS: &[RawRow] = &raw_rows_in! {
    1, b"MPLS_STATS_LINK", Value(Counters(MPLS_LINK_STATS));
};

/// Returns the rows of a table, by its index from that of the first table here on.
#[tactic(auto, unfolding(crate::specs::Tables::traffic_rows))]
pub(crate) fn rows(index: u16) -> &'static [RawRow]
    ensures rows { raw_rows_in_code (λ b. b.now) result.now ≡ get_or traffic_rows index [] }
    ensures dense { are_dense result.now ≡ true }
{
    match index {
        0 => TRAFFIC_CONTROL_ROWS,
        1 => TRAFFIC_CONTROL_STATISTICS_ROWS,
        2 => SIZE_TABLE_ROWS,
        3 => ACTIONS_ROWS,
        4 => INDEXED_ACTION_ROWS,
        5 => ACTION_ROWS,
        6 => STATISTICS_ROWS,
        7 => STATISTICS_REQUEST_ROWS,
        8 => STATISTICS_FILTERS_ROWS,
        9 => XSTATS_ROWS,
        10 => BRIDGE_XSTATS_ROWS,
        11 => BOND_XSTATS_ROWS,
        12 => BOND_3AD_STAT_ROWS,
        13 => OFFLOAD_XSTATS_ROWS,
        14 => HW_S_INFO_ROWS,
        15 => HW_S_INFO_ENTRY_ROWS,
        16 => STATISTICS_FAMILIES_ROWS,
        17 => MPLS_STATS_ROWS,
        _ => &[],
    }
}
