//! The lines of records in raw lists and in bodies.

use crate::rows::{RecordLine, RecordLineOf};
use link_lines_values::line_layouts::{
    BR_MDB_ENTRY, BR_PORT_MSG, BR_VLAN_MSG, FIB_RULE_HDR, IF_STATS_MSG, IFADDRLBLMSG, IFADDRMSG,
    IFINFOMSG, NDMSG, NDTMSG, NETCONFMSG, NEXTHOP_GRP, NHMSG, PREFIXMSG, ROUTER_PORT, RTGEN,
    RTGENMSG, RTMSG, RTNEXTHOP, TCAMSG, TCMSG, TCMSG_FILTER, TIMESTAMP, TUNNEL_MSG,
};
use link_lines_values::route_layouts::{
    IPV6_RPL_SR_HDR, IPV6_SR_HDR, SEG6_IPTUNNEL_ENCAP, SEGMENT,
};
use link_lines_values::traffic_layouts::{TC_MIRRED, TC_PRIO_QOPT, TC_U32_KEY, TC_U32_SEL};

/// A line of a `nexthop_grp`.
pub const NEXTHOP_GRP_LINE: RecordLine = RecordLineOf(b"nexthop_grp", NEXTHOP_GRP);

/// A line of a `br_mdb_entry`.
pub const BR_MDB_ENTRY_LINE: RecordLine = RecordLineOf(b"br_mdb_entry", BR_MDB_ENTRY);

/// A line of a `router_port`.
pub const ROUTER_PORT_LINE: RecordLine = RecordLineOf(b"router_port", ROUTER_PORT);

/// A line of a `timestamp`.
pub const TIMESTAMP_LINE: RecordLine = RecordLineOf(b"timestamp", TIMESTAMP);

/// A line of a `ifaddrmsg`.
pub const IFADDRMSG_LINE: RecordLine = RecordLineOf(b"ifaddrmsg", IFADDRMSG);

/// A line of a `rtmsg`.
pub const RTMSG_LINE: RecordLine = RecordLineOf(b"rtmsg", RTMSG);

/// A line of a `ndmsg`.
pub const NDMSG_LINE: RecordLine = RecordLineOf(b"ndmsg", NDMSG);

/// A line of a `fib_rule_hdr`.
pub const FIB_RULE_HDR_LINE: RecordLine = RecordLineOf(b"fib_rule_hdr", FIB_RULE_HDR);

/// A line of a `tcmsg`.
pub const TCMSG_LINE: RecordLine = RecordLineOf(b"tcmsg", TCMSG);

/// A line of a `tcmsg`.
pub const TCMSG_FILTER_LINE: RecordLine = RecordLineOf(b"tcmsg", TCMSG_FILTER);

/// A line of a `tcamsg`.
pub const TCAMSG_LINE: RecordLine = RecordLineOf(b"tcamsg", TCAMSG);

/// A line of a `prefixmsg`.
pub const PREFIXMSG_LINE: RecordLine = RecordLineOf(b"prefixmsg", PREFIXMSG);

/// A line of a `ndtmsg`.
pub const NDTMSG_LINE: RecordLine = RecordLineOf(b"ndtmsg", NDTMSG);

/// A line of a `ifaddrlblmsg`.
pub const IFADDRLBLMSG_LINE: RecordLine = RecordLineOf(b"ifaddrlblmsg", IFADDRLBLMSG);

/// A line of a `netconfmsg`.
pub const NETCONFMSG_LINE: RecordLine = RecordLineOf(b"netconfmsg", NETCONFMSG);

/// A line of a `br_port_msg`.
pub const BR_PORT_MSG_LINE: RecordLine = RecordLineOf(b"br_port_msg", BR_PORT_MSG);

/// A line of a `rtgenmsg`.
pub const RTGENMSG_LINE: RecordLine = RecordLineOf(b"rtgenmsg", RTGENMSG);

/// A line of the address family alone.
pub const RTGEN_LINE: RecordLine = RecordLineOf(b"rtgen", RTGEN);

/// A line of an `ifinfomsg` in a request for other objects than links.
pub const IFINFOMSG_LINE: RecordLine = RecordLineOf(b"ifinfomsg", IFINFOMSG);

/// A line of a `if_stats_msg`.
pub const IF_STATS_MSG_LINE: RecordLine = RecordLineOf(b"if_stats_msg", IF_STATS_MSG);

/// A line of a `nhmsg`.
pub const NHMSG_LINE: RecordLine = RecordLineOf(b"nhmsg", NHMSG);

/// A line of a `br_vlan_msg`.
pub const BR_VLAN_MSG_LINE: RecordLine = RecordLineOf(b"br_vlan_msg", BR_VLAN_MSG);

/// A line of a `tunnel_msg`.
pub const TUNNEL_MSG_LINE: RecordLine = RecordLineOf(b"tunnel_msg", TUNNEL_MSG);

/// A line of a `rtnexthop`.
pub const RTNEXTHOP_LINE: RecordLine = RecordLineOf(b"rtnexthop", RTNEXTHOP);

/// A line of a `tc_prio_qopt`.
pub const TC_PRIO_QOPT_LINE: RecordLine = RecordLineOf(b"tc_prio_qopt", TC_PRIO_QOPT);

/// A line of a `tc_mirred`.
pub const TC_MIRRED_LINE: RecordLine = RecordLineOf(b"tc_mirred", TC_MIRRED);

/// A line of a `tc_u32_sel`.
pub const TC_U32_SEL_LINE: RecordLine = RecordLineOf(b"tc_u32_sel", TC_U32_SEL);

/// A line of a `tc_u32_key`.
pub const TC_U32_KEY_LINE: RecordLine = RecordLineOf(b"tc_u32_key", TC_U32_KEY);

/// A line of a `seg6_iptunnel_encap`.
pub const SEG6_IPTUNNEL_ENCAP_LINE: RecordLine = RecordLineOf(
    b"seg6_iptunnel_encap",
    SEG6_IPTUNNEL_ENCAP,
);

/// A line of an `ipv6_sr_hdr`.
pub const IPV6_SR_HDR_LINE: RecordLine = RecordLineOf(b"ipv6_sr_hdr", IPV6_SR_HDR);

/// A line of an `ipv6_rpl_sr_hdr`.
pub const IPV6_RPL_SR_HDR_LINE: RecordLine = RecordLineOf(b"ipv6_rpl_sr_hdr", IPV6_RPL_SR_HDR);

/// A line of a segment of a routing header.
pub const SEGMENT_LINE: RecordLine = RecordLineOf(b"segment", SEGMENT);
