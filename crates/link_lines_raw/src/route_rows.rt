//! Rows of lists in messages about addresses and routes.

ghost use Rattle.std.specs.Prelude.{◌≡◌, true, [], get_or};
ghost use Rattle.link_lines_values.specs.DenseRows.{are_dense};
ghost use Rattle.link_lines_raw.specs.Rows.{raw_rows_in_code};
ghost use Rattle.link_lines_raw.specs.Tables.{route_rows};

use crate::raw_rows_in;
use crate::raw_tables::{
    BPF_PROGRAM, ERSPAN_OPTION, GENEVE_OPTION, MPLS_ROUTE, MROUTE, ROUTE, ROUTE_METRICS,
    SEG6_LOCAL_BPF, SEG6_LOCAL_COUNTERS, SEG6_LOCAL_FLAVORS, TUNNEL_OPTIONS, VXLAN_OPTION,
};
use crate::records::{
    IPV6_RPL_SR_HDR_LINE, IPV6_SR_HDR_LINE, SEG6_IPTUNNEL_ENCAP_LINE, SEGMENT_LINE,
};
use crate::rows::RawBy::{Chosen, HeadAndRecords, Hops, List, Value};
use crate::rows::{Choice, RawRow};
use link_lines_values::ExactBy::{
    Address, Bytes, Counters, Labels, Number, Record, Sized, Text, Via,
};
use link_lines_values::ShownBy::{BigEndian, BigEndianFlags, NamedFlags, Signed};
use link_lines_values::route_layouts::{IFA_CACHEINFO, RTA_CACHEINFO, RTA_MFC_STATS};
use link_lines_values::route_texts::{
    ENCAP_TYPE, IFA_FLAGS, IFA_PROTO, IOAM6_MODE, IP_PROTO, ROUTER_PREF, RT_DEL_REASON, RT_TABLE,
    RTAX_FEATURES, RTAX_LOCK, SEG6_FLAVORS, SEG6_LOCAL_ACTION,
};
use link_lines_values::{ER_SPAN_DIR, PLAIN, ShownBy};

/// Address (if_addr.h: IFA_*).
pub const ADDRESS_ROWS: &[RawRow] = &raw_rows_in! {
    1, b"IFA_ADDRESS", Value(Address);
    2, b"IFA_LOCAL", Value(Address);
    3, b"IFA_LABEL", Value(Text);
    4, b"IFA_BROADCAST", Value(Address);
    5, b"IFA_ANYCAST", Value(Address);
    6, b"IFA_CACHEINFO", Value(Record(IFA_CACHEINFO));
    7, b"IFA_MULTICAST", Value(Address);
    8, b"IFA_FLAGS", Value(Sized(4, NamedFlags(IFA_FLAGS)));
    9, b"IFA_RT_PRIORITY", Value(Number(4));
    10, b"IFA_TARGET_NETNSID", Value(Sized(4, Signed(PLAIN)));
    11, b"IFA_PROTO", Value(Sized(1, ShownBy::Number(IFA_PROTO)));
    12, b"IFA_MC_USERS", Value(Number(4));
};

/// The rows of routes, by how destinations and RTA_EXPIRES are shown, and the table of next hops
/// (rtnetlink.h: RTA_*).
macro_rules! route_rows {
    ($destination:expr, $expires:expr, $table:expr) => {
        &raw_rows_in! {
            1, b"RTA_DST", Value($destination);
            2, b"RTA_SRC", Value($destination);
            3, b"RTA_IIF", Value(Number(4));
            4, b"RTA_OIF", Value(Number(4));
            5, b"RTA_GATEWAY", Value(Address);
            6, b"RTA_PRIORITY", Value(Number(4));
            7, b"RTA_PREFSRC", Value(Address);
            8, b"RTA_METRICS", List(ROUTE_METRICS);
            9, b"RTA_MULTIPATH", Hops($table);
            10, b"RTA_PROTOINFO", Value(Bytes);
            11, b"RTA_FLOW", Value(Number(4));
            12, b"RTA_CACHEINFO", Value(Record(RTA_CACHEINFO));
            13, b"RTA_SESSION", Value(Bytes);
            14, b"RTA_MP_ALGO", Value(Bytes);
            15, b"RTA_TABLE", Value(Sized(4, ShownBy::Number(RT_TABLE)));
            16, b"RTA_MARK", Value(Number(4));
            17, b"RTA_MFC_STATS", Value(Counters(RTA_MFC_STATS));
            18, b"RTA_VIA", Value(Via);
            19, b"RTA_NEWDST", Value(Labels);
            20, b"RTA_PREF", Value(Sized(1, ShownBy::Number(ROUTER_PREF)));
            21, b"RTA_ENCAP_TYPE", Value(Sized(2, ShownBy::Number(ENCAP_TYPE)));
            22, b"RTA_ENCAP", Chosen(Choice::Encapsulation, 21);
            23, b"RTA_EXPIRES", Value($expires);
            24, b"RTA_PAD", Value(Bytes);
            25, b"RTA_UID", Value(Number(4));
            26, b"RTA_TTL_PROPAGATE", Value(Number(1));
            27, b"RTA_IP_PROTO", Value(Sized(1, ShownBy::Number(IP_PROTO)));
            28, b"RTA_SPORT", Value(Sized(2, BigEndian(PLAIN)));
            29, b"RTA_DPORT", Value(Sized(2, BigEndian(PLAIN)));
            30, b"RTA_NH_ID", Value(Number(4));
            31, b"RTA_FLOWLABEL", Value(Sized(4, BigEndian(PLAIN)));
            32, b"RTA_DEL_REASON", Value(Sized(4, ShownBy::Number(RT_DEL_REASON)));
        }
    };
}

/// Routes (rtnetlink.h: RTA_*).
pub const ROUTE_ROWS: &[RawRow] = route_rows!(Address, Number(4), ROUTE);

/// Routes of MPLS (rtnetlink.h: RTA_*).
pub const MPLS_ROUTE_ROWS: &[RawRow] = route_rows!(Labels, Number(4), MPLS_ROUTE);

/// Routes of multicast groups (rtnetlink.h: RTA_*).
pub const MROUTE_ROWS: &[RawRow] = route_rows!(Address, Number(8), MROUTE);

/// Route metrics (rtnetlink.h: RTAX_*).
pub const ROUTE_METRICS_ROWS: &[RawRow] = &raw_rows_in! {
    1, b"RTAX_LOCK", Value(Sized(4, NamedFlags(RTAX_LOCK)));
    2, b"RTAX_MTU", Value(Number(4));
    3, b"RTAX_WINDOW", Value(Number(4));
    4, b"RTAX_RTT", Value(Number(4));
    5, b"RTAX_RTTVAR", Value(Number(4));
    6, b"RTAX_SSTHRESH", Value(Number(4));
    7, b"RTAX_CWND", Value(Number(4));
    8, b"RTAX_ADVMSS", Value(Number(4));
    9, b"RTAX_REORDERING", Value(Number(4));
    10, b"RTAX_HOPLIMIT", Value(Number(4));
    11, b"RTAX_INITCWND", Value(Number(4));
    12, b"RTAX_FEATURES", Value(Sized(4, NamedFlags(RTAX_FEATURES)));
    13, b"RTAX_RTO_MIN", Value(Number(4));
    14, b"RTAX_INITRWND", Value(Number(4));
    15, b"RTAX_QUICKACK", Value(Number(4));
    16, b"RTAX_CC_ALGO", Value(Text);
    17, b"RTAX_FASTOPEN_NO_COOKIE", Value(Number(4));
};

/// Encap mpls (mpls_iptunnel.h: MPLS_IPTUNNEL_*).
pub const ENCAP_MPLS_ROWS: &[RawRow] = &raw_rows_in! {
    1, b"MPLS_IPTUNNEL_DST", Value(Labels);
    2, b"MPLS_IPTUNNEL_TTL", Value(Number(1));
};

/// Encap ip (lwtunnel.h: LWTUNNEL_IP_*).
pub const ENCAP_IP_ROWS: &[RawRow] = &raw_rows_in! {
    1, b"LWTUNNEL_IP_ID", Value(Sized(8, BigEndian(PLAIN)));
    2, b"LWTUNNEL_IP_DST", Value(Sized(4, ShownBy::Address));
    3, b"LWTUNNEL_IP_SRC", Value(Sized(4, ShownBy::Address));
    4, b"LWTUNNEL_IP_TTL", Value(Number(1));
    5, b"LWTUNNEL_IP_TOS", Value(Number(1));
    6, b"LWTUNNEL_IP_FLAGS", Value(Sized(2, BigEndianFlags));
    7, b"LWTUNNEL_IP_PAD", Value(Bytes);
    8, b"LWTUNNEL_IP_OPTS", List(TUNNEL_OPTIONS);
};

/// Encap ila (ila.h: ILA_ATTR_*).
pub const ENCAP_ILA_ROWS: &[RawRow] = &raw_rows_in! {
    1, b"ILA_ATTR_LOCATOR", Value(Sized(8, BigEndianFlags));
    2; 3; 4; 5; 6;
    7, b"ILA_ATTR_CSUM_MODE", Value(Number(1));
    8, b"ILA_ATTR_IDENT_TYPE", Value(Number(1));
    9, b"ILA_ATTR_HOOK_TYPE", Value(Number(1));
};

/// Encap ip6 (lwtunnel.h: LWTUNNEL_IP6_*).
pub const ENCAP_IP6_ROWS: &[RawRow] = &raw_rows_in! {
    1, b"LWTUNNEL_IP6_ID", Value(Sized(8, BigEndian(PLAIN)));
    2, b"LWTUNNEL_IP6_DST", Value(Sized(16, ShownBy::Address));
    3, b"LWTUNNEL_IP6_SRC", Value(Sized(16, ShownBy::Address));
    4, b"LWTUNNEL_IP6_HOPLIMIT", Value(Number(1));
    5, b"LWTUNNEL_IP6_TC", Value(Number(1));
    6, b"LWTUNNEL_IP6_FLAGS", Value(Sized(2, BigEndianFlags));
    7, b"LWTUNNEL_IP6_PAD", Value(Bytes);
    8, b"LWTUNNEL_IP6_OPTS", List(TUNNEL_OPTIONS);
};

/// Encap seg6 (seg6_iptunnel.h: SEG6_IPTUNNEL_*).
pub const ENCAP_SEG6_ROWS: &[RawRow] = &raw_rows_in! {
    1, b"SEG6_IPTUNNEL_SRH", HeadAndRecords(SEG6_IPTUNNEL_ENCAP_LINE, SEGMENT_LINE);
    2, b"SEG6_IPTUNNEL_SRC", Value(Sized(16, ShownBy::Address));
    3, b"SEG6_IPTUNNEL_TABLE", Value(Number(4));
};

/// Encap bpf (lwtunnel.h: LWT_BPF_*).
pub const ENCAP_BPF_ROWS: &[RawRow] = &raw_rows_in! {
    1, b"LWT_BPF_IN", List(BPF_PROGRAM);
    2, b"LWT_BPF_OUT", List(BPF_PROGRAM);
    3, b"LWT_BPF_XMIT", List(BPF_PROGRAM);
    4, b"LWT_BPF_XMIT_HEADROOM", Value(Number(4));
};

/// Encap seg6 local (seg6_local.h: SEG6_LOCAL_*).
pub const ENCAP_SEG6_LOCAL_ROWS: &[RawRow] = &raw_rows_in! {
    1, b"SEG6_LOCAL_ACTION", Value(Sized(4, ShownBy::Number(SEG6_LOCAL_ACTION)));
    2, b"SEG6_LOCAL_SRH", HeadAndRecords(IPV6_SR_HDR_LINE, SEGMENT_LINE);
    3, b"SEG6_LOCAL_TABLE", Value(Number(4));
    4, b"SEG6_LOCAL_NH4", Value(Sized(4, ShownBy::Address));
    5, b"SEG6_LOCAL_NH6", Value(Sized(16, ShownBy::Address));
    6, b"SEG6_LOCAL_IIF", Value(Number(4));
    7, b"SEG6_LOCAL_OIF", Value(Number(4));
    8, b"SEG6_LOCAL_BPF", List(SEG6_LOCAL_BPF);
    9, b"SEG6_LOCAL_VRFTABLE", Value(Number(4));
    10, b"SEG6_LOCAL_COUNTERS", List(SEG6_LOCAL_COUNTERS);
    11, b"SEG6_LOCAL_FLAVORS", List(SEG6_LOCAL_FLAVORS);
};

/// Encap rpl (rpl_iptunnel.h: RPL_IPTUNNEL_SRH).
pub const ENCAP_RPL_ROWS: &[RawRow] = &raw_rows_in! {
    1, b"RPL_IPTUNNEL_SRH", HeadAndRecords(IPV6_RPL_SR_HDR_LINE, SEGMENT_LINE);
};

/// Encap ioam6 (ioam6_iptunnel.h: IOAM6_IPTUNNEL_*).
pub const ENCAP_IOAM6_ROWS: &[RawRow] = &raw_rows_in! {
    1, b"IOAM6_IPTUNNEL_MODE", Value(Sized(1, ShownBy::Number(IOAM6_MODE)));
    2, b"IOAM6_IPTUNNEL_DST", Value(Sized(16, ShownBy::Address));
    3, b"IOAM6_IPTUNNEL_TRACE", Value(Bytes);
    4, b"IOAM6_IPTUNNEL_FREQ_K", Value(Number(4));
    5, b"IOAM6_IPTUNNEL_FREQ_N", Value(Number(4));
    6, b"IOAM6_IPTUNNEL_SRC", Value(Sized(16, ShownBy::Address));
};

/// Encap xfrm (lwtunnel.h: LWT_XFRM_*).
pub const ENCAP_XFRM_ROWS: &[RawRow] = &raw_rows_in! {
    1, b"LWT_XFRM_IF_ID", Value(Number(4));
    2, b"LWT_XFRM_LINK", Value(Number(4));
};

/// Tunnel options (lwtunnel.h: LWTUNNEL_IP_OPTS_*).
pub const TUNNEL_OPTIONS_ROWS: &[RawRow] = &raw_rows_in! {
    1, b"LWTUNNEL_IP_OPTS_GENEVE", List(GENEVE_OPTION);
    2, b"LWTUNNEL_IP_OPTS_VXLAN", List(VXLAN_OPTION);
    3, b"LWTUNNEL_IP_OPTS_ERSPAN", List(ERSPAN_OPTION);
};

/// Geneve option (lwtunnel.h: LWTUNNEL_IP_OPT_GENEVE_*).
pub const GENEVE_OPTION_ROWS: &[RawRow] = &raw_rows_in! {
    1, b"LWTUNNEL_IP_OPT_GENEVE_CLASS", Value(Sized(2, BigEndian(PLAIN)));
    2, b"LWTUNNEL_IP_OPT_GENEVE_TYPE", Value(Number(1));
    3, b"LWTUNNEL_IP_OPT_GENEVE_DATA", Value(Bytes);
};

/// Vxlan option (lwtunnel.h: LWTUNNEL_IP_OPT_VXLAN_GBP).
pub const VXLAN_OPTION_ROWS: &[RawRow] = &raw_rows_in! {
    1, b"LWTUNNEL_IP_OPT_VXLAN_GBP", Value(Number(4));
};

/// Erspan option (lwtunnel.h: LWTUNNEL_IP_OPT_ERSPAN_*).
pub const ERSPAN_OPTION_ROWS: &[RawRow] = &raw_rows_in! {
    1, b"LWTUNNEL_IP_OPT_ERSPAN_VER", Value(Number(1));
    2, b"LWTUNNEL_IP_OPT_ERSPAN_INDEX", Value(Sized(4, BigEndian(PLAIN)));
    3, b"LWTUNNEL_IP_OPT_ERSPAN_DIR", Value(Sized(1, ShownBy::Number(ER_SPAN_DIR)));
    4, b"LWTUNNEL_IP_OPT_ERSPAN_HWID", Value(Number(1));
};

/// Bpf program (lwtunnel.h: LWT_BPF_PROG_*).
pub const BPF_PROGRAM_ROWS: &[RawRow] = &raw_rows_in! {
    1, b"LWT_BPF_PROG_FD", Value(Number(4));
    2, b"LWT_BPF_PROG_NAME", Value(Text);
};

/// Seg6 local bpf (seg6_local.h: SEG6_LOCAL_BPF_*).
pub const SEG6_LOCAL_BPF_ROWS: &[RawRow] = &raw_rows_in! {
    1, b"SEG6_LOCAL_BPF_PROG", Value(Number(4));
    2, b"SEG6_LOCAL_BPF_PROG_NAME", Value(Text);
};

/// Seg6 local counters (seg6_local.h: SEG6_LOCAL_CNT_*).
pub const SEG6_LOCAL_COUNTERS_ROWS: &[RawRow] = &raw_rows_in! {
    1, b"SEG6_LOCAL_CNT_PAD", Value(Bytes);
    2, b"SEG6_LOCAL_CNT_PACKETS", Value(Number(8));
    3, b"SEG6_LOCAL_CNT_BYTES", Value(Number(8));
    4, b"SEG6_LOCAL_CNT_ERRORS", Value(Number(8));
};

/// Seg6 local flavors (seg6_local.h: SEG6_LOCAL_FLV_*).
pub const SEG6_LOCAL_FLAVORS_ROWS: &[RawRow] = &raw_rows_in! {
    1, b"SEG6_LOCAL_FLV_OPERATION", Value(Sized(4, NamedFlags(SEG6_FLAVORS)));
    2, b"SEG6_LOCAL_FLV_LCBLOCK_BITS", Value(Number(1));
    3, b"SEG6_LOCAL_FLV_LCNODE_FN_BITS", Value(Number(1));
};

/// Returns the rows of a table, by its index from that of the first table here on.
#[tactic(auto, unfolding(crate::specs::Tables::route_rows))]
pub(crate) fn rows(index: u16) -> &'static [RawRow]
    ensures rows { raw_rows_in_code (λ b. b.now) result.now ≡ get_or route_rows index [] }
    ensures dense { are_dense result.now ≡ true }
{
    match index {
        0 => ADDRESS_ROWS,
        1 => ROUTE_ROWS,
        2 => MPLS_ROUTE_ROWS,
        3 => MROUTE_ROWS,
        4 => ROUTE_METRICS_ROWS,
        5 => ENCAP_MPLS_ROWS,
        6 => ENCAP_IP_ROWS,
        7 => ENCAP_ILA_ROWS,
        8 => ENCAP_IP6_ROWS,
        9 => ENCAP_SEG6_ROWS,
        10 => ENCAP_BPF_ROWS,
        11 => ENCAP_SEG6_LOCAL_ROWS,
        12 => ENCAP_RPL_ROWS,
        13 => ENCAP_IOAM6_ROWS,
        14 => ENCAP_XFRM_ROWS,
        15 => TUNNEL_OPTIONS_ROWS,
        16 => GENEVE_OPTION_ROWS,
        17 => VXLAN_OPTION_ROWS,
        18 => ERSPAN_OPTION_ROWS,
        19 => BPF_PROGRAM_ROWS,
        20 => SEG6_LOCAL_BPF_ROWS,
        21 => SEG6_LOCAL_COUNTERS_ROWS,
        22 => SEG6_LOCAL_FLAVORS_ROWS,
        _ => &[],
    }
}
