//! The layouts of records in raw lists about addresses, routes, neighbours, rules and traffic control.

ghost use Rattle.std.specs.Prelude.{◌≡◌, [], get_or};
ghost use Rattle.link_lines_values.specs.Records.{fields_of};
ghost use Rattle.link_lines_values.specs.Layouts.{route_layouts};

use crate::fields::FieldShownBy::{BigEndian, Flags, Ipv6, Number, Padding, Signed};
use crate::fields::{FieldOf, Fields, Layout};
use crate::number_texts::PLAIN;
use crate::route_texts::{SEG6_FLAGS, SEG6_MODE};
use crate::traffic_texts::LIFETIME;

/// if_addr.h, `struct ifa_cacheinfo`.
pub const IFA_CACHEINFO: Layout = Layout(64);

pub(crate) const IFA_CACHEINFO_FIELDS: Fields = &[
    FieldOf(b"prefered", 4, Number(LIFETIME)),
    FieldOf(b"valid", 4, Number(LIFETIME)),
    FieldOf(b"cstamp", 4, Number(PLAIN)),
    FieldOf(b"tstamp", 4, Number(PLAIN)),
];

/// rtnetlink.h, `struct rta_cacheinfo`.
pub const RTA_CACHEINFO: Layout = Layout(65);

pub(crate) const RTA_CACHEINFO_FIELDS: Fields = &[
    FieldOf(b"clntref", 4, Number(PLAIN)),
    FieldOf(b"lastuse", 4, Number(PLAIN)),
    FieldOf(b"expires", 4, Signed),
    FieldOf(b"error", 4, Number(PLAIN)),
    FieldOf(b"used", 4, Number(PLAIN)),
    FieldOf(b"id", 4, Number(PLAIN)),
    FieldOf(b"ts", 4, Number(PLAIN)),
    FieldOf(b"tsage", 4, Number(PLAIN)),
];

/// rtnetlink.h, `struct rta_mfc_stats`.
pub const RTA_MFC_STATS: Layout = Layout(66);

pub(crate) const RTA_MFC_STATS_FIELDS: Fields = &[
    FieldOf(b"packets", 8, Number(PLAIN)),
    FieldOf(b"bytes", 8, Number(PLAIN)),
    FieldOf(b"wrong_if", 8, Number(PLAIN)),
];

/// neighbour.h, `struct nda_cacheinfo`.
pub const NDA_CACHEINFO: Layout = Layout(67);

pub(crate) const NDA_CACHEINFO_FIELDS: Fields = &[
    FieldOf(b"confirmed", 4, Number(PLAIN)),
    FieldOf(b"used", 4, Number(PLAIN)),
    FieldOf(b"updated", 4, Number(PLAIN)),
    FieldOf(b"refcnt", 4, Number(PLAIN)),
];

/// fib_rules.h, `struct fib_rule_uid_range`.
pub const FIB_RULE_UID_RANGE: Layout = Layout(68);

pub(crate) const FIB_RULE_UID_RANGE_FIELDS: Fields = &[
    FieldOf(b"start", 4, Number(PLAIN)),
    FieldOf(b"end", 4, Number(PLAIN)),
];

/// fib_rules.h, `struct fib_rule_port_range`.
pub const FIB_RULE_PORT_RANGE: Layout = Layout(69);

pub(crate) const FIB_RULE_PORT_RANGE_FIELDS: Fields = &[
    FieldOf(b"start", 2, Number(PLAIN)),
    FieldOf(b"end", 2, Number(PLAIN)),
];

/// pkt_sched.h, `struct tc_stats`.
pub const TC_STATS: Layout = Layout(70);

pub(crate) const TC_STATS_FIELDS: Fields = &[
    FieldOf(b"bytes", 8, Number(PLAIN)),
    FieldOf(b"packets", 4, Number(PLAIN)),
    FieldOf(b"drops", 4, Number(PLAIN)),
    FieldOf(b"overlimits", 4, Number(PLAIN)),
    FieldOf(b"bps", 4, Number(PLAIN)),
    FieldOf(b"pps", 4, Number(PLAIN)),
    FieldOf(b"qlen", 4, Number(PLAIN)),
    FieldOf(b"backlog", 4, Number(PLAIN)),
    FieldOf(b"padding", 4, Padding),
];

/// pkt_sched.h, `struct tc_estimator`.
pub const TC_ESTIMATOR: Layout = Layout(71);

pub(crate) const TC_ESTIMATOR_FIELDS: Fields = &[
    FieldOf(b"interval", 1, Signed),
    FieldOf(b"ewma_log", 1, Number(PLAIN)),
];

/// gen_stats.h, `struct gnet_stats_basic`.
pub const GNET_STATS_BASIC: Layout = Layout(72);

pub(crate) const GNET_STATS_BASIC_FIELDS: Fields = &[
    FieldOf(b"bytes", 8, Number(PLAIN)),
    FieldOf(b"packets", 4, Number(PLAIN)),
    FieldOf(b"padding", 4, Padding),
];

/// gen_stats.h, `struct gnet_stats_rate_est`.
pub const GNET_STATS_RATE_EST: Layout = Layout(73);

pub(crate) const GNET_STATS_RATE_EST_FIELDS: Fields = &[
    FieldOf(b"bps", 4, Number(PLAIN)),
    FieldOf(b"pps", 4, Number(PLAIN)),
];

/// gen_stats.h, `struct gnet_stats_rate_est64`.
pub const GNET_STATS_RATE_EST64: Layout = Layout(74);

pub(crate) const GNET_STATS_RATE_EST64_FIELDS: Fields = &[
    FieldOf(b"bps", 8, Number(PLAIN)),
    FieldOf(b"pps", 8, Number(PLAIN)),
];

/// gen_stats.h, `struct gnet_stats_queue`.
pub const GNET_STATS_QUEUE: Layout = Layout(75);

pub(crate) const GNET_STATS_QUEUE_FIELDS: Fields = &[
    FieldOf(b"qlen", 4, Number(PLAIN)),
    FieldOf(b"backlog", 4, Number(PLAIN)),
    FieldOf(b"drops", 4, Number(PLAIN)),
    FieldOf(b"requeues", 4, Number(PLAIN)),
    FieldOf(b"overlimits", 4, Number(PLAIN)),
];

/// pkt_sched.h, `struct tc_sizespec`.
pub const TC_SIZESPEC: Layout = Layout(76);

pub(crate) const TC_SIZESPEC_FIELDS: Fields = &[
    FieldOf(b"cell_log", 1, Number(PLAIN)),
    FieldOf(b"size_log", 1, Number(PLAIN)),
    FieldOf(b"cell_align", 2, Signed),
    FieldOf(b"overhead", 4, Signed),
    FieldOf(b"linklayer", 4, Number(PLAIN)),
    FieldOf(b"mpu", 4, Number(PLAIN)),
    FieldOf(b"mtu", 4, Number(PLAIN)),
    FieldOf(b"tsize", 4, Number(PLAIN)),
];

/// rtnetlink.h, `struct prefix_cacheinfo`.
pub const PREFIX_CACHEINFO: Layout = Layout(77);

pub(crate) const PREFIX_CACHEINFO_FIELDS: Fields = &[
    FieldOf(b"preferred_time", 4, Number(LIFETIME)),
    FieldOf(b"valid_time", 4, Number(LIFETIME)),
];

/// neighbour.h, `struct ndt_config`.
pub const NDT_CONFIG: Layout = Layout(78);

pub(crate) const NDT_CONFIG_FIELDS: Fields = &[
    FieldOf(b"key_len", 2, Number(PLAIN)),
    FieldOf(b"entry_size", 2, Number(PLAIN)),
    FieldOf(b"entries", 4, Number(PLAIN)),
    FieldOf(b"last_flush", 4, Number(PLAIN)),
    FieldOf(b"last_rand", 4, Number(PLAIN)),
    FieldOf(b"hash_rnd", 4, Number(PLAIN)),
    FieldOf(b"hash_mask", 4, Number(PLAIN)),
    FieldOf(b"hash_chain_gc", 4, Number(PLAIN)),
    FieldOf(b"proxy_qlen", 4, Number(PLAIN)),
];

/// neighbour.h, `struct ndt_stats`.
pub const NDT_STATS: Layout = Layout(79);

pub(crate) const NDT_STATS_FIELDS: Fields = &[
    FieldOf(b"allocs", 8, Number(PLAIN)),
    FieldOf(b"destroys", 8, Number(PLAIN)),
    FieldOf(b"hash_grows", 8, Number(PLAIN)),
    FieldOf(b"res_failed", 8, Number(PLAIN)),
    FieldOf(b"lookups", 8, Number(PLAIN)),
    FieldOf(b"hits", 8, Number(PLAIN)),
    FieldOf(b"rcv_probes_mcast", 8, Number(PLAIN)),
    FieldOf(b"rcv_probes_ucast", 8, Number(PLAIN)),
    FieldOf(b"periodic_gc_runs", 8, Number(PLAIN)),
    FieldOf(b"forced_gc_runs", 8, Number(PLAIN)),
    FieldOf(b"table_fulls", 8, Number(PLAIN)),
];

/// seg6_iptunnel.h, `struct seg6_iptunnel_encap`, with the start of a `struct ipv6_sr_hdr`.
pub const SEG6_IPTUNNEL_ENCAP: Layout = Layout(80);

pub(crate) const SEG6_IPTUNNEL_ENCAP_FIELDS: Fields = &[
    FieldOf(b"mode", 4, Number(SEG6_MODE)),
    FieldOf(b"nexthdr", 1, Number(PLAIN)),
    FieldOf(b"hdrlen", 1, Number(PLAIN)),
    FieldOf(b"type", 1, Number(PLAIN)),
    FieldOf(b"segments_left", 1, Number(PLAIN)),
    FieldOf(b"first_segment", 1, Number(PLAIN)),
    FieldOf(b"flags", 1, Flags(SEG6_FLAGS)),
    FieldOf(b"tag", 2, BigEndian(PLAIN)),
];

/// seg6.h, `struct ipv6_sr_hdr`, without its segments.
pub const IPV6_SR_HDR: Layout = Layout(81);

pub(crate) const IPV6_SR_HDR_FIELDS: Fields = &[
    FieldOf(b"nexthdr", 1, Number(PLAIN)),
    FieldOf(b"hdrlen", 1, Number(PLAIN)),
    FieldOf(b"type", 1, Number(PLAIN)),
    FieldOf(b"segments_left", 1, Number(PLAIN)),
    FieldOf(b"first_segment", 1, Number(PLAIN)),
    FieldOf(b"flags", 1, Flags(SEG6_FLAGS)),
    FieldOf(b"tag", 2, BigEndian(PLAIN)),
];

/// rpl.h, `struct ipv6_rpl_sr_hdr`, without its segments.
pub const IPV6_RPL_SR_HDR: Layout = Layout(82);

pub(crate) const IPV6_RPL_SR_HDR_FIELDS: Fields = &[
    FieldOf(b"nexthdr", 1, Number(PLAIN)),
    FieldOf(b"hdrlen", 1, Number(PLAIN)),
    FieldOf(b"type", 1, Number(PLAIN)),
    FieldOf(b"segments_left", 1, Number(PLAIN)),
    FieldOf(b"cmpr", 1, Flags(PLAIN)),
    FieldOf(b"pad", 1, Flags(PLAIN)),
    FieldOf(b"reserved", 2, Flags(PLAIN)),
];

/// A segment of a routing header (seg6.h, rpl.h: `struct in6_addr`).
pub const SEGMENT: Layout = Layout(83);

pub(crate) const SEGMENT_FIELDS: Fields = &[FieldOf(b"addr", 16, Ipv6)];

/// Returns the fields of a record, by the index of its layout from that of the first layout here on.
pub(crate) fn fields(index: u8) -> Fields
    ensures { fields_of (λ b. b.now) result.now ≡ get_or route_layouts index [] }
{
    match index {
        0 => IFA_CACHEINFO_FIELDS,
        1 => RTA_CACHEINFO_FIELDS,
        2 => RTA_MFC_STATS_FIELDS,
        3 => NDA_CACHEINFO_FIELDS,
        4 => FIB_RULE_UID_RANGE_FIELDS,
        5 => FIB_RULE_PORT_RANGE_FIELDS,
        6 => TC_STATS_FIELDS,
        7 => TC_ESTIMATOR_FIELDS,
        8 => GNET_STATS_BASIC_FIELDS,
        9 => GNET_STATS_RATE_EST_FIELDS,
        10 => GNET_STATS_RATE_EST64_FIELDS,
        11 => GNET_STATS_QUEUE_FIELDS,
        12 => TC_SIZESPEC_FIELDS,
        13 => PREFIX_CACHEINFO_FIELDS,
        14 => NDT_CONFIG_FIELDS,
        15 => NDT_STATS_FIELDS,
        16 => SEG6_IPTUNNEL_ENCAP_FIELDS,
        17 => IPV6_SR_HDR_FIELDS,
        18 => IPV6_RPL_SR_HDR_FIELDS,
        19 => SEGMENT_FIELDS,
        _ => &[],
    }
}
