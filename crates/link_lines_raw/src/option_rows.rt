//! Rows of lists in the options of queueing disciplines, filters and actions.

ghost use Rattle.std.specs.Prelude.{◌≡◌, true, [], get_or};
ghost use Rattle.link_lines_values.specs.DenseRows.{are_dense};
ghost use Rattle.link_lines_raw.specs.Rows.{raw_rows_in_code};
ghost use Rattle.link_lines_raw.specs.Tables.{option_rows};

use crate::raw_rows_in;
use crate::raw_tables::{INDEXED_ACTION, UNNAMED};
use crate::records::{TC_MIRRED_LINE, TC_U32_KEY_LINE, TC_U32_SEL_LINE};
use crate::rows::RawBy::{HeadAndRecords, List, Records, Value};
use crate::rows::RawRow;
use link_lines_values::ExactBy::{Bytes, Number, Numbers, Record, Sized, Text};
use link_lines_values::ShownBy::{BigEndian, BigEndianFlags, Flags, NamedFlags, Presence};
use link_lines_values::route_texts::IP_PROTO;
use link_lines_values::traffic_layouts::{
    TC_GACT, TC_GACT_P, TC_HANDLE, TC_HTB_GLOB, TC_HTB_OPT, TC_TBF_QOPT, TC_U32_MARK, TCF_T,
};
use link_lines_values::traffic_texts::{BPF_FLAGS, CLS_FLAGS, CT_STATE};
use link_lines_values::{ETHER_TYPE, PLAIN, ShownBy};

/// Token bucket filter (pkt_sched.h: TCA_TBF_*).
pub const TBF_ROWS: &[RawRow] = &raw_rows_in! {
    1, b"TCA_TBF_PARMS", Value(Record(TC_TBF_QOPT));
    2, b"TCA_TBF_RTAB", Value(Numbers(4));
    3, b"TCA_TBF_PTAB", Value(Numbers(4));
    4, b"TCA_TBF_RATE64", Value(Number(8));
    5, b"TCA_TBF_PRATE64", Value(Number(8));
    6, b"TCA_TBF_BURST", Value(Number(4));
    7, b"TCA_TBF_PBURST", Value(Number(4));
    8, b"TCA_TBF_PAD", Value(Bytes);
};

/// Hierarchical token bucket (pkt_sched.h: TCA_HTB_*).
pub const HTB_ROWS: &[RawRow] = &raw_rows_in! {
    1, b"TCA_HTB_PARMS", Value(Record(TC_HTB_OPT));
    2, b"TCA_HTB_INIT", Value(Record(TC_HTB_GLOB));
    3, b"TCA_HTB_CTAB", Value(Numbers(4));
    4, b"TCA_HTB_RTAB", Value(Numbers(4));
    5, b"TCA_HTB_DIRECT_QLEN", Value(Number(4));
    6, b"TCA_HTB_RATE64", Value(Number(8));
    7, b"TCA_HTB_CEIL64", Value(Number(8));
    8, b"TCA_HTB_PAD", Value(Bytes);
    9, b"TCA_HTB_OFFLOAD", Value(Sized(0, Presence));
};

/// Fair queueing with controlled delay (pkt_sched.h: TCA_FQ_CODEL_*).
pub const FQ_CODEL_ROWS: &[RawRow] = &raw_rows_in! {
    1, b"TCA_FQ_CODEL_TARGET", Value(Number(4));
    2, b"TCA_FQ_CODEL_LIMIT", Value(Number(4));
    3, b"TCA_FQ_CODEL_INTERVAL", Value(Number(4));
    4, b"TCA_FQ_CODEL_ECN", Value(Number(4));
    5, b"TCA_FQ_CODEL_FLOWS", Value(Number(4));
    6, b"TCA_FQ_CODEL_QUANTUM", Value(Number(4));
    7, b"TCA_FQ_CODEL_CE_THRESHOLD", Value(Number(4));
    8, b"TCA_FQ_CODEL_DROP_BATCH_SIZE", Value(Number(4));
    9, b"TCA_FQ_CODEL_MEMORY_LIMIT", Value(Number(4));
    10, b"TCA_FQ_CODEL_CE_THRESHOLD_SELECTOR", Value(Number(1));
    11, b"TCA_FQ_CODEL_CE_THRESHOLD_MASK", Value(Number(1));
};

/// Priorities (rtnetlink.h: TCA_OPTIONS).
pub const PRIO_ROWS: &[RawRow] = &raw_rows_in! {
    2, b"TCA_OPTIONS", List(UNNAMED);
};

/// Filter by 32-bit words (pkt_cls.h: TCA_U32_*).
pub const U32_FILTER_ROWS: &[RawRow] = &raw_rows_in! {
    1, b"TCA_U32_CLASSID", Value(Record(TC_HANDLE));
    2, b"TCA_U32_HASH", Value(Sized(4, Flags));
    3, b"TCA_U32_LINK", Value(Sized(4, Flags));
    4, b"TCA_U32_DIVISOR", Value(Number(4));
    5, b"TCA_U32_SEL", HeadAndRecords(TC_U32_SEL_LINE, TC_U32_KEY_LINE);
    6, b"TCA_U32_POLICE", Value(Bytes);
    7, b"TCA_U32_ACT", List(INDEXED_ACTION);
    8, b"TCA_U32_INDEV", Value(Text);
    9, b"TCA_U32_PCNT", Value(Bytes);
    10, b"TCA_U32_MARK", Value(Record(TC_U32_MARK));
    11, b"TCA_U32_FLAGS", Value(Sized(4, NamedFlags(CLS_FLAGS)));
    12, b"TCA_U32_PAD", Value(Bytes);
};

/// Filter by fields of headers (pkt_cls.h: TCA_FLOWER_*).
pub const FLOWER_ROWS: &[RawRow] = &raw_rows_in! {
    1, b"TCA_FLOWER_CLASSID", Value(Record(TC_HANDLE));
    2, b"TCA_FLOWER_INDEV", Value(Text);
    3, b"TCA_FLOWER_ACT", List(INDEXED_ACTION);
    4, b"TCA_FLOWER_KEY_ETH_DST", Value(Sized(6, ShownBy::HardwareAddress));
    5, b"TCA_FLOWER_KEY_ETH_DST_MASK", Value(Sized(6, ShownBy::HardwareAddress));
    6, b"TCA_FLOWER_KEY_ETH_SRC", Value(Sized(6, ShownBy::HardwareAddress));
    7, b"TCA_FLOWER_KEY_ETH_SRC_MASK", Value(Sized(6, ShownBy::HardwareAddress));
    8, b"TCA_FLOWER_KEY_ETH_TYPE", Value(Sized(2, BigEndian(ETHER_TYPE)));
    9, b"TCA_FLOWER_KEY_IP_PROTO", Value(Sized(1, ShownBy::Number(IP_PROTO)));
    10, b"TCA_FLOWER_KEY_IPV4_SRC", Value(Sized(4, ShownBy::Address));
    11, b"TCA_FLOWER_KEY_IPV4_SRC_MASK", Value(Sized(4, ShownBy::Address));
    12, b"TCA_FLOWER_KEY_IPV4_DST", Value(Sized(4, ShownBy::Address));
    13, b"TCA_FLOWER_KEY_IPV4_DST_MASK", Value(Sized(4, ShownBy::Address));
    14, b"TCA_FLOWER_KEY_IPV6_SRC", Value(Sized(16, ShownBy::Address));
    15, b"TCA_FLOWER_KEY_IPV6_SRC_MASK", Value(Sized(16, ShownBy::Address));
    16, b"TCA_FLOWER_KEY_IPV6_DST", Value(Sized(16, ShownBy::Address));
    17, b"TCA_FLOWER_KEY_IPV6_DST_MASK", Value(Sized(16, ShownBy::Address));
    18, b"TCA_FLOWER_KEY_TCP_SRC", Value(Sized(2, BigEndian(PLAIN)));
    19, b"TCA_FLOWER_KEY_TCP_DST", Value(Sized(2, BigEndian(PLAIN)));
    20, b"TCA_FLOWER_KEY_UDP_SRC", Value(Sized(2, BigEndian(PLAIN)));
    21, b"TCA_FLOWER_KEY_UDP_DST", Value(Sized(2, BigEndian(PLAIN)));
    22, b"TCA_FLOWER_FLAGS", Value(Sized(4, NamedFlags(CLS_FLAGS)));
    23, b"TCA_FLOWER_KEY_VLAN_ID", Value(Number(2));
    24, b"TCA_FLOWER_KEY_VLAN_PRIO", Value(Number(1));
    25, b"TCA_FLOWER_KEY_VLAN_ETH_TYPE", Value(Sized(2, BigEndian(ETHER_TYPE)));
    26, b"TCA_FLOWER_KEY_ENC_KEY_ID", Value(Sized(4, BigEndian(PLAIN)));
    27, b"TCA_FLOWER_KEY_ENC_IPV4_SRC", Value(Sized(4, ShownBy::Address));
    28, b"TCA_FLOWER_KEY_ENC_IPV4_SRC_MASK", Value(Sized(4, ShownBy::Address));
    29, b"TCA_FLOWER_KEY_ENC_IPV4_DST", Value(Sized(4, ShownBy::Address));
    30, b"TCA_FLOWER_KEY_ENC_IPV4_DST_MASK", Value(Sized(4, ShownBy::Address));
    31, b"TCA_FLOWER_KEY_ENC_IPV6_SRC", Value(Sized(16, ShownBy::Address));
    32, b"TCA_FLOWER_KEY_ENC_IPV6_SRC_MASK", Value(Sized(16, ShownBy::Address));
    33, b"TCA_FLOWER_KEY_ENC_IPV6_DST", Value(Sized(16, ShownBy::Address));
    34, b"TCA_FLOWER_KEY_ENC_IPV6_DST_MASK", Value(Sized(16, ShownBy::Address));
    35, b"TCA_FLOWER_KEY_TCP_SRC_MASK", Value(Sized(2, BigEndian(PLAIN)));
    36, b"TCA_FLOWER_KEY_TCP_DST_MASK", Value(Sized(2, BigEndian(PLAIN)));
    37, b"TCA_FLOWER_KEY_UDP_SRC_MASK", Value(Sized(2, BigEndian(PLAIN)));
    38, b"TCA_FLOWER_KEY_UDP_DST_MASK", Value(Sized(2, BigEndian(PLAIN)));
    39, b"TCA_FLOWER_KEY_SCTP_SRC_MASK", Value(Sized(2, BigEndian(PLAIN)));
    40, b"TCA_FLOWER_KEY_SCTP_DST_MASK", Value(Sized(2, BigEndian(PLAIN)));
    41, b"TCA_FLOWER_KEY_SCTP_SRC", Value(Sized(2, BigEndian(PLAIN)));
    42, b"TCA_FLOWER_KEY_SCTP_DST", Value(Sized(2, BigEndian(PLAIN)));
    43, b"TCA_FLOWER_KEY_ENC_UDP_SRC_PORT", Value(Sized(2, BigEndian(PLAIN)));
    44, b"TCA_FLOWER_KEY_ENC_UDP_SRC_PORT_MASK", Value(Sized(2, BigEndian(PLAIN)));
    45, b"TCA_FLOWER_KEY_ENC_UDP_DST_PORT", Value(Sized(2, BigEndian(PLAIN)));
    46, b"TCA_FLOWER_KEY_ENC_UDP_DST_PORT_MASK", Value(Sized(2, BigEndian(PLAIN)));
    47, b"TCA_FLOWER_KEY_FLAGS", Value(Sized(4, BigEndianFlags));
    48, b"TCA_FLOWER_KEY_FLAGS_MASK", Value(Sized(4, BigEndianFlags));
    49, b"TCA_FLOWER_KEY_ICMPV4_CODE", Value(Number(1));
    50, b"TCA_FLOWER_KEY_ICMPV4_CODE_MASK", Value(Number(1));
    51, b"TCA_FLOWER_KEY_ICMPV4_TYPE", Value(Number(1));
    52, b"TCA_FLOWER_KEY_ICMPV4_TYPE_MASK", Value(Number(1));
    53, b"TCA_FLOWER_KEY_ICMPV6_CODE", Value(Number(1));
    54, b"TCA_FLOWER_KEY_ICMPV6_CODE_MASK", Value(Number(1));
    55, b"TCA_FLOWER_KEY_ICMPV6_TYPE", Value(Number(1));
    56, b"TCA_FLOWER_KEY_ICMPV6_TYPE_MASK", Value(Number(1));
    57, b"TCA_FLOWER_KEY_ARP_SIP", Value(Sized(4, ShownBy::Address));
    58, b"TCA_FLOWER_KEY_ARP_SIP_MASK", Value(Sized(4, ShownBy::Address));
    59, b"TCA_FLOWER_KEY_ARP_TIP", Value(Sized(4, ShownBy::Address));
    60, b"TCA_FLOWER_KEY_ARP_TIP_MASK", Value(Sized(4, ShownBy::Address));
    61, b"TCA_FLOWER_KEY_ARP_OP", Value(Number(1));
    62, b"TCA_FLOWER_KEY_ARP_OP_MASK", Value(Number(1));
    63, b"TCA_FLOWER_KEY_ARP_SHA", Value(Sized(6, ShownBy::HardwareAddress));
    64, b"TCA_FLOWER_KEY_ARP_SHA_MASK", Value(Sized(6, ShownBy::HardwareAddress));
    65, b"TCA_FLOWER_KEY_ARP_THA", Value(Sized(6, ShownBy::HardwareAddress));
    66, b"TCA_FLOWER_KEY_ARP_THA_MASK", Value(Sized(6, ShownBy::HardwareAddress));
    67, b"TCA_FLOWER_KEY_MPLS_TTL", Value(Number(1));
    68, b"TCA_FLOWER_KEY_MPLS_BOS", Value(Number(1));
    69, b"TCA_FLOWER_KEY_MPLS_TC", Value(Number(1));
    70, b"TCA_FLOWER_KEY_MPLS_LABEL", Value(Number(4));
    71, b"TCA_FLOWER_KEY_TCP_FLAGS", Value(Sized(2, BigEndianFlags));
    72, b"TCA_FLOWER_KEY_TCP_FLAGS_MASK", Value(Sized(2, BigEndianFlags));
    73, b"TCA_FLOWER_KEY_IP_TOS", Value(Number(1));
    74, b"TCA_FLOWER_KEY_IP_TOS_MASK", Value(Number(1));
    75, b"TCA_FLOWER_KEY_IP_TTL", Value(Number(1));
    76, b"TCA_FLOWER_KEY_IP_TTL_MASK", Value(Number(1));
    77, b"TCA_FLOWER_KEY_CVLAN_ID", Value(Number(2));
    78, b"TCA_FLOWER_KEY_CVLAN_PRIO", Value(Number(1));
    79, b"TCA_FLOWER_KEY_CVLAN_ETH_TYPE", Value(Sized(2, BigEndian(ETHER_TYPE)));
    80, b"TCA_FLOWER_KEY_ENC_IP_TOS", Value(Number(1));
    81, b"TCA_FLOWER_KEY_ENC_IP_TOS_MASK", Value(Number(1));
    82, b"TCA_FLOWER_KEY_ENC_IP_TTL", Value(Number(1));
    83, b"TCA_FLOWER_KEY_ENC_IP_TTL_MASK", Value(Number(1));
    84, b"TCA_FLOWER_KEY_ENC_OPTS", Value(Bytes);
    85, b"TCA_FLOWER_KEY_ENC_OPTS_MASK", Value(Bytes);
    86, b"TCA_FLOWER_IN_HW_COUNT", Value(Number(4));
    87, b"TCA_FLOWER_KEY_PORT_SRC_MIN", Value(Sized(2, BigEndian(PLAIN)));
    88, b"TCA_FLOWER_KEY_PORT_SRC_MAX", Value(Sized(2, BigEndian(PLAIN)));
    89, b"TCA_FLOWER_KEY_PORT_DST_MIN", Value(Sized(2, BigEndian(PLAIN)));
    90, b"TCA_FLOWER_KEY_PORT_DST_MAX", Value(Sized(2, BigEndian(PLAIN)));
    91, b"TCA_FLOWER_KEY_CT_STATE", Value(Sized(2, NamedFlags(CT_STATE)));
    92, b"TCA_FLOWER_KEY_CT_STATE_MASK", Value(Sized(2, NamedFlags(CT_STATE)));
    93, b"TCA_FLOWER_KEY_CT_ZONE", Value(Number(2));
    94, b"TCA_FLOWER_KEY_CT_ZONE_MASK", Value(Number(2));
    95, b"TCA_FLOWER_KEY_CT_MARK", Value(Sized(4, Flags));
    96, b"TCA_FLOWER_KEY_CT_MARK_MASK", Value(Sized(4, Flags));
    97, b"TCA_FLOWER_KEY_CT_LABELS", Value(Bytes);
    98, b"TCA_FLOWER_KEY_CT_LABELS_MASK", Value(Bytes);
    99, b"TCA_FLOWER_KEY_MPLS_OPTS", Value(Bytes);
    100, b"TCA_FLOWER_KEY_HASH", Value(Sized(4, Flags));
    101, b"TCA_FLOWER_KEY_HASH_MASK", Value(Sized(4, Flags));
    102, b"TCA_FLOWER_KEY_NUM_OF_VLANS", Value(Number(1));
    103, b"TCA_FLOWER_KEY_PPPOE_SID", Value(Sized(2, BigEndian(PLAIN)));
    104, b"TCA_FLOWER_KEY_PPP_PROTO", Value(Sized(2, BigEndian(PLAIN)));
    105, b"TCA_FLOWER_KEY_L2TPV3_SID", Value(Sized(4, BigEndian(PLAIN)));
};

/// Filter that matches all (pkt_cls.h: TCA_MATCHALL_*).
pub const MATCHALL_ROWS: &[RawRow] = &raw_rows_in! {
    1, b"TCA_MATCHALL_CLASSID", Value(Record(TC_HANDLE));
    2, b"TCA_MATCHALL_ACT", List(INDEXED_ACTION);
    3, b"TCA_MATCHALL_FLAGS", Value(Sized(4, NamedFlags(CLS_FLAGS)));
    4, b"TCA_MATCHALL_PCNT", Value(Number(8));
    5, b"TCA_MATCHALL_PAD", Value(Bytes);
};

/// Filter by a program (pkt_cls.h: TCA_BPF_*).
pub const BPF_FILTER_ROWS: &[RawRow] = &raw_rows_in! {
    1, b"TCA_BPF_ACT", List(INDEXED_ACTION);
    2, b"TCA_BPF_POLICE", Value(Bytes);
    3, b"TCA_BPF_CLASSID", Value(Record(TC_HANDLE));
    4, b"TCA_BPF_OPS_LEN", Value(Number(2));
    5, b"TCA_BPF_OPS", Value(Bytes);
    6, b"TCA_BPF_FD", Value(Number(4));
    7, b"TCA_BPF_NAME", Value(Text);
    8, b"TCA_BPF_FLAGS", Value(Sized(4, NamedFlags(BPF_FLAGS)));
    9, b"TCA_BPF_FLAGS_GEN", Value(Sized(4, NamedFlags(CLS_FLAGS)));
    10, b"TCA_BPF_TAG", Value(Bytes);
    11, b"TCA_BPF_ID", Value(Number(4));
};

/// Generic action (tc_act/tc_gact.h: TCA_GACT_*).
pub const GACT_ROWS: &[RawRow] = &raw_rows_in! {
    1, b"TCA_GACT_TM", Value(Record(TCF_T));
    2, b"TCA_GACT_PARMS", Value(Record(TC_GACT));
    3, b"TCA_GACT_PROB", Value(Record(TC_GACT_P));
    4, b"TCA_GACT_PAD", Value(Bytes);
};

/// Redirecting or mirroring (tc_act/tc_mirred.h: TCA_MIRRED_*).
pub const MIRRED_ROWS: &[RawRow] = &raw_rows_in! {
    1, b"TCA_MIRRED_TM", Value(Record(TCF_T));
    2, b"TCA_MIRRED_PARMS", Records(TC_MIRRED_LINE);
    3, b"TCA_MIRRED_PAD", Value(Bytes);
};

/// Returns the rows of a table, by its index from that of the first table here on.
#[tactic(auto, unfolding(crate::specs::Tables::option_rows))]
pub(crate) fn rows(index: u16) -> &'static [RawRow]
    ensures rows { raw_rows_in_code (λ b. b.now) result.now ≡ get_or option_rows index [] }
    ensures dense { are_dense result.now ≡ true }
{
    match index {
        0 => TBF_ROWS,
        1 => HTB_ROWS,
        2 => FQ_CODEL_ROWS,
        3 => PRIO_ROWS,
        4 => U32_FILTER_ROWS,
        5 => FLOWER_ROWS,
        6 => MATCHALL_ROWS,
        7 => BPF_FILTER_ROWS,
        8 => GACT_ROWS,
        9 => MIRRED_ROWS,
        _ => &[],
    }
}
