//! Rows of lists in messages about neighbours, rules, next hops and settings.

ghost use Rattle.std.specs.Prelude.{◌≡◌, true, [], get_or};
ghost use Rattle.link_lines_values.specs.DenseRows.{are_dense};
ghost use Rattle.link_lines_raw.specs.Rows.{raw_rows_in_code};
ghost use Rattle.link_lines_raw.specs.Tables.{neighbour_rows};

use crate::raw_rows_in;
use crate::raw_tables::{
    FORWARDING_ENTRY, GROUP_STATISTICS, GROUP_STATISTICS_ENTRY, NEIGHBOUR_TABLE_PARAMETERS,
    RESILIENT_BUCKET, RESILIENT_GROUP,
};
use crate::records::NEXTHOP_GRP_LINE;
use crate::rows::RawBy::{Chosen, List, Records, Value};
use crate::rows::{Choice, RawRow};
use link_lines_values::ExactBy::{
    Address, Bytes, Counters, HardwareAddress, Number, Record, Sized, Text, Uint,
};
use link_lines_values::ShownBy::{BigEndian, NamedFlags, Presence, Signed};
use link_lines_values::neighbour_texts::{
    FDB_NOTIFY, NEIGH_FLAGS, NEIGH_FLAGS_EXT, NEIGH_STATE, NETCONF_IFINDEX, NEXTHOP_GRP_TYPE,
    NHA_OP_FLAGS,
};
use link_lines_values::route_layouts::{
    FIB_RULE_PORT_RANGE, FIB_RULE_UID_RANGE, NDA_CACHEINFO, NDT_CONFIG, NDT_STATS, PREFIX_CACHEINFO,
};
use link_lines_values::route_texts::{ENCAP_TYPE, IP_PROTO, RT_PROTOCOL, RT_TABLE};
use link_lines_values::{PLAIN, ShownBy};

/// Neighbour (neighbour.h: NDA_*).
pub const NEIGHBOUR_ROWS: &[RawRow] = &raw_rows_in! {
    1, b"NDA_DST", Value(Address);
    2, b"NDA_LLADDR", Value(HardwareAddress);
    3, b"NDA_CACHEINFO", Value(Record(NDA_CACHEINFO));
    4, b"NDA_PROBES", Value(Number(4));
    5, b"NDA_VLAN", Value(Number(2));
    6, b"NDA_PORT", Value(Sized(2, BigEndian(PLAIN)));
    7, b"NDA_VNI", Value(Number(4));
    8, b"NDA_IFINDEX", Value(Number(4));
    9, b"NDA_MASTER", Value(Number(4));
    10, b"NDA_LINK_NETNSID", Value(Sized(4, Signed(PLAIN)));
    11, b"NDA_SRC_VNI", Value(Number(4));
    12, b"NDA_PROTOCOL", Value(Sized(1, ShownBy::Number(RT_PROTOCOL)));
    13, b"NDA_NH_ID", Value(Number(4));
    14, b"NDA_FDB_EXT_ATTRS", List(FORWARDING_ENTRY);
    15, b"NDA_FLAGS_EXT", Value(Sized(4, NamedFlags(NEIGH_FLAGS_EXT)));
    16, b"NDA_NDM_STATE_MASK", Value(Sized(2, NamedFlags(NEIGH_STATE)));
    17, b"NDA_NDM_FLAGS_MASK", Value(Sized(1, NamedFlags(NEIGH_FLAGS)));
};

/// Forwarding entry (neighbour.h: NFEA_*).
pub const FORWARDING_ENTRY_ROWS: &[RawRow] = &raw_rows_in! {
    1, b"NFEA_ACTIVITY_NOTIFY", Value(Sized(1, NamedFlags(FDB_NOTIFY)));
    2, b"NFEA_DONT_REFRESH", Value(Sized(0, Presence));
};

/// Rule (fib_rules.h: FRA_*).
pub const RULE_ROWS: &[RawRow] = &raw_rows_in! {
    1, b"FRA_DST", Value(Address);
    2, b"FRA_SRC", Value(Address);
    3, b"FRA_IIFNAME", Value(Text);
    4, b"FRA_GOTO", Value(Number(4));
    5, b"FRA_UNUSED2", Value(Bytes);
    6, b"FRA_PRIORITY", Value(Number(4));
    7, b"FRA_UNUSED3", Value(Bytes);
    8, b"FRA_UNUSED4", Value(Bytes);
    9, b"FRA_UNUSED5", Value(Bytes);
    10, b"FRA_FWMARK", Value(Number(4));
    11, b"FRA_FLOW", Value(Number(4));
    12, b"FRA_TUN_ID", Value(Sized(8, BigEndian(PLAIN)));
    13, b"FRA_SUPPRESS_IFGROUP", Value(Number(4));
    14, b"FRA_SUPPRESS_PREFIXLEN", Value(Sized(4, Signed(PLAIN)));
    15, b"FRA_TABLE", Value(Sized(4, ShownBy::Number(RT_TABLE)));
    16, b"FRA_FWMASK", Value(Number(4));
    17, b"FRA_OIFNAME", Value(Text);
    18, b"FRA_PAD", Value(Bytes);
    19, b"FRA_L3MDEV", Value(Number(1));
    20, b"FRA_UID_RANGE", Value(Record(FIB_RULE_UID_RANGE));
    21, b"FRA_PROTOCOL", Value(Sized(1, ShownBy::Number(RT_PROTOCOL)));
    22, b"FRA_IP_PROTO", Value(Sized(1, ShownBy::Number(IP_PROTO)));
    23, b"FRA_SPORT_RANGE", Value(Record(FIB_RULE_PORT_RANGE));
    24, b"FRA_DPORT_RANGE", Value(Record(FIB_RULE_PORT_RANGE));
    25, b"FRA_DSCP", Value(Number(1));
    26, b"FRA_FLOWLABEL", Value(Sized(4, BigEndian(PLAIN)));
    27, b"FRA_FLOWLABEL_MASK", Value(Sized(4, BigEndian(PLAIN)));
    28, b"FRA_SPORT_MASK", Value(Number(2));
    29, b"FRA_DPORT_MASK", Value(Number(2));
    30, b"FRA_DSCP_MASK", Value(Number(1));
};

/// Prefix (rtnetlink.h: PREFIX_*).
pub const PREFIX_ROWS: &[RawRow] = &raw_rows_in! {
    1, b"PREFIX_ADDRESS", Value(Sized(16, ShownBy::Address));
    2, b"PREFIX_CACHEINFO", Value(Record(PREFIX_CACHEINFO));
};

/// Neighbour table (neighbour.h: NDTA_*).
pub const NEIGHBOUR_TABLE_ROWS: &[RawRow] = &raw_rows_in! {
    1, b"NDTA_NAME", Value(Text);
    2, b"NDTA_THRESH1", Value(Number(4));
    3, b"NDTA_THRESH2", Value(Number(4));
    4, b"NDTA_THRESH3", Value(Number(4));
    5, b"NDTA_CONFIG", Value(Record(NDT_CONFIG));
    6, b"NDTA_PARMS", List(NEIGHBOUR_TABLE_PARAMETERS);
    7, b"NDTA_STATS", Value(Counters(NDT_STATS));
    8, b"NDTA_GC_INTERVAL", Value(Number(8));
    9, b"NDTA_PAD", Value(Bytes);
};

/// Neighbour table parameters (neighbour.h: NDTPA_*).
pub const NEIGHBOUR_TABLE_PARAMETERS_ROWS: &[RawRow] = &raw_rows_in! {
    1, b"NDTPA_IFINDEX", Value(Number(4));
    2, b"NDTPA_REFCNT", Value(Number(4));
    3, b"NDTPA_REACHABLE_TIME", Value(Number(8));
    4, b"NDTPA_BASE_REACHABLE_TIME", Value(Number(8));
    5, b"NDTPA_RETRANS_TIME", Value(Number(8));
    6, b"NDTPA_GC_STALETIME", Value(Number(8));
    7, b"NDTPA_DELAY_PROBE_TIME", Value(Number(8));
    8, b"NDTPA_QUEUE_LEN", Value(Number(4));
    9, b"NDTPA_APP_PROBES", Value(Number(4));
    10, b"NDTPA_UCAST_PROBES", Value(Number(4));
    11, b"NDTPA_MCAST_PROBES", Value(Number(4));
    12, b"NDTPA_ANYCAST_DELAY", Value(Number(8));
    13, b"NDTPA_PROXY_DELAY", Value(Number(8));
    14, b"NDTPA_PROXY_QLEN", Value(Number(4));
    15, b"NDTPA_LOCKTIME", Value(Number(8));
    16, b"NDTPA_QUEUE_LENBYTES", Value(Number(4));
    17, b"NDTPA_MCAST_REPROBES", Value(Number(4));
    18, b"NDTPA_PAD", Value(Bytes);
    19, b"NDTPA_INTERVAL_PROBE_TIME_MS", Value(Number(8));
};

/// Address label (if_addrlabel.h: IFAL_*).
pub const ADDRESS_LABEL_ROWS: &[RawRow] = &raw_rows_in! {
    1, b"IFAL_ADDRESS", Value(Address);
    2, b"IFAL_LABEL", Value(Number(4));
};

/// Nexthop (nexthop.h: NHA_*).
pub const NEXTHOP_ROWS: &[RawRow] = &raw_rows_in! {
    1, b"NHA_ID", Value(Number(4));
    2, b"NHA_GROUP", Records(NEXTHOP_GRP_LINE);
    3, b"NHA_GROUP_TYPE", Value(Sized(2, ShownBy::Number(NEXTHOP_GRP_TYPE)));
    4, b"NHA_BLACKHOLE", Value(Sized(0, Presence));
    5, b"NHA_OIF", Value(Number(4));
    6, b"NHA_GATEWAY", Value(Address);
    7, b"NHA_ENCAP_TYPE", Value(Sized(2, ShownBy::Number(ENCAP_TYPE)));
    8, b"NHA_ENCAP", Chosen(Choice::Encapsulation, 7);
    9, b"NHA_GROUPS", Value(Sized(0, Presence));
    10, b"NHA_MASTER", Value(Number(4));
    11, b"NHA_FDB", Value(Sized(0, Presence));
    12, b"NHA_RES_GROUP", List(RESILIENT_GROUP);
    13, b"NHA_RES_BUCKET", List(RESILIENT_BUCKET);
    14, b"NHA_OP_FLAGS", Value(Sized(4, NamedFlags(NHA_OP_FLAGS)));
    15, b"NHA_GROUP_STATS", List(GROUP_STATISTICS);
    16, b"NHA_HW_STATS_ENABLE", Value(Number(4));
    17, b"NHA_HW_STATS_USED", Value(Number(4));
    18, b"NHA_DST_PORT", Value(Sized(2, BigEndian(PLAIN)));
};

/// Resilient group (nexthop.h: NHA_RES_GROUP_*).
pub const RESILIENT_GROUP_ROWS: &[RawRow] = &raw_rows_in! {
    0, b"NHA_RES_GROUP_PAD", Value(Bytes);
    1, b"NHA_RES_GROUP_BUCKETS", Value(Number(2));
    2, b"NHA_RES_GROUP_IDLE_TIMER", Value(Number(4));
    3, b"NHA_RES_GROUP_UNBALANCED_TIMER", Value(Number(4));
    4, b"NHA_RES_GROUP_UNBALANCED_TIME", Value(Number(8));
};

/// Resilient bucket (nexthop.h: NHA_RES_BUCKET_*).
pub const RESILIENT_BUCKET_ROWS: &[RawRow] = &raw_rows_in! {
    0, b"NHA_RES_BUCKET_PAD", Value(Bytes);
    1, b"NHA_RES_BUCKET_INDEX", Value(Number(2));
    2, b"NHA_RES_BUCKET_IDLE_TIME", Value(Number(8));
    3, b"NHA_RES_BUCKET_NH_ID", Value(Number(4));
};

/// Group statistics (nexthop.h: NHA_GROUP_STATS_ENTRY).
pub const GROUP_STATISTICS_ROWS: &[RawRow] = &raw_rows_in! {
    1, b"NHA_GROUP_STATS_ENTRY", List(GROUP_STATISTICS_ENTRY);
};

/// Group statistics entry (nexthop.h: NHA_GROUP_STATS_ENTRY_*).
pub const GROUP_STATISTICS_ENTRY_ROWS: &[RawRow] = &raw_rows_in! {
    1, b"NHA_GROUP_STATS_ENTRY_ID", Value(Number(4));
    2, b"NHA_GROUP_STATS_ENTRY_PACKETS", Value(Uint);
    3, b"NHA_GROUP_STATS_ENTRY_PACKETS_HW", Value(Uint);
};

/// Netconf (netconf.h: NETCONFA_*).
pub const NETCONF_ROWS: &[RawRow] = &raw_rows_in! {
    1, b"NETCONFA_IFINDEX", Value(Sized(4, Signed(NETCONF_IFINDEX)));
    2, b"NETCONFA_FORWARDING", Value(Sized(4, Signed(PLAIN)));
    3, b"NETCONFA_RP_FILTER", Value(Sized(4, Signed(PLAIN)));
    4, b"NETCONFA_MC_FORWARDING", Value(Sized(4, Signed(PLAIN)));
    5, b"NETCONFA_PROXY_NEIGH", Value(Sized(4, Signed(PLAIN)));
    6, b"NETCONFA_IGNORE_ROUTES_WITH_LINKDOWN", Value(Sized(4, Signed(PLAIN)));
    7, b"NETCONFA_INPUT", Value(Sized(4, Signed(PLAIN)));
    8, b"NETCONFA_BC_FORWARDING", Value(Sized(4, Signed(PLAIN)));
    9, b"NETCONFA_FORCE_FORWARDING", Value(Sized(4, Signed(PLAIN)));
};

/// Namespace (net_namespace.h: NETNSA_*).
pub const NAMESPACE_ROWS: &[RawRow] = &raw_rows_in! {
    1, b"NETNSA_NSID", Value(Sized(4, Signed(PLAIN)));
    2, b"NETNSA_PID", Value(Number(4));
    3, b"NETNSA_FD", Value(Number(4));
    4, b"NETNSA_TARGET_NSID", Value(Sized(4, Signed(PLAIN)));
    5, b"NETNSA_CURRENT_NSID", Value(Sized(4, Signed(PLAIN)));
};

/// Returns the rows of a table, by its index from that of the first table here on.
#[tactic(auto, unfolding(crate::specs::Tables::neighbour_rows))]
pub(crate) fn rows(index: u16) -> &'static [RawRow]
    ensures rows { raw_rows_in_code (λ b. b.now) result.now ≡ get_or neighbour_rows index [] }
    ensures dense { are_dense result.now ≡ true }
{
    match index {
        0 => NEIGHBOUR_ROWS,
        1 => FORWARDING_ENTRY_ROWS,
        2 => RULE_ROWS,
        3 => PREFIX_ROWS,
        4 => NEIGHBOUR_TABLE_ROWS,
        5 => NEIGHBOUR_TABLE_PARAMETERS_ROWS,
        6 => ADDRESS_LABEL_ROWS,
        7 => NEXTHOP_ROWS,
        8 => RESILIENT_GROUP_ROWS,
        9 => RESILIENT_BUCKET_ROWS,
        10 => GROUP_STATISTICS_ROWS,
        11 => GROUP_STATISTICS_ENTRY_ROWS,
        12 => NETCONF_ROWS,
        13 => NAMESPACE_ROWS,
        _ => &[],
    }
}
