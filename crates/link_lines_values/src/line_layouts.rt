//! The layouts of records that have a line of their own: headers of bodies and of lists, next hops,
//! entries of lists.

ghost use Rattle.std.specs.Prelude.{◌≡◌, [], get_or};
ghost use Rattle.link_lines_values.specs.Records.{fields_of};
ghost use Rattle.link_lines_values.specs.Layouts.{line_layouts};

use crate::bridge_texts::{MDB_FLAGS, MDB_STATE};
use crate::fields::FieldShownBy::{BigEndian, Flags, Group, Handle, Number, Padding, Weight};
use crate::fields::{FieldOf, Fields, Layout};
use crate::flag_names::LINK_FLAGS;
use crate::neighbour_texts::{
    FIB_RULE_FLAGS, FR_ACT, NEIGH_FLAGS, NEIGH_STATE, STATS_FILTER, TC_PARENT, TUNNEL_MSG_FLAGS,
};
use crate::number_texts::{ETHER_TYPE, PLAIN};
use crate::route_texts::{
    FAMILY, IFA_FLAGS, NEXTHOP_FLAGS, ROUTE_FLAGS, RT_PROTOCOL, RT_SCOPE, RT_TABLE, RTN_TYPE,
};

/// if_addr.h, `struct ifaddrmsg`.
pub const IFADDRMSG: Layout = Layout(32);

pub(crate) const IFADDRMSG_FIELDS: Fields = &[
    FieldOf(b"family", 1, Number(FAMILY)),
    FieldOf(b"prefixlen", 1, Number(PLAIN)),
    FieldOf(b"flags", 1, Flags(IFA_FLAGS)),
    FieldOf(b"scope", 1, Number(RT_SCOPE)),
    FieldOf(b"index", 4, Number(PLAIN)),
];

/// rtnetlink.h, `struct rtmsg`.
pub const RTMSG: Layout = Layout(33);

pub(crate) const RTMSG_FIELDS: Fields = &[
    FieldOf(b"family", 1, Number(FAMILY)),
    FieldOf(b"dst_len", 1, Number(PLAIN)),
    FieldOf(b"src_len", 1, Number(PLAIN)),
    FieldOf(b"tos", 1, Number(PLAIN)),
    FieldOf(b"table", 1, Number(RT_TABLE)),
    FieldOf(b"protocol", 1, Number(RT_PROTOCOL)),
    FieldOf(b"scope", 1, Number(RT_SCOPE)),
    FieldOf(b"type", 1, Number(RTN_TYPE)),
    FieldOf(b"flags", 4, Flags(ROUTE_FLAGS)),
];

/// neighbour.h, `struct ndmsg`.
pub const NDMSG: Layout = Layout(34);

pub(crate) const NDMSG_FIELDS: Fields = &[
    FieldOf(b"family", 1, Number(FAMILY)),
    FieldOf(b"padding", 3, Padding),
    FieldOf(b"ifindex", 4, Number(PLAIN)),
    FieldOf(b"state", 2, Flags(NEIGH_STATE)),
    FieldOf(b"flags", 1, Flags(NEIGH_FLAGS)),
    FieldOf(b"type", 1, Number(RTN_TYPE)),
];

/// fib_rules.h, `struct fib_rule_hdr`.
pub const FIB_RULE_HDR: Layout = Layout(35);

pub(crate) const FIB_RULE_HDR_FIELDS: Fields = &[
    FieldOf(b"family", 1, Number(FAMILY)),
    FieldOf(b"dst_len", 1, Number(PLAIN)),
    FieldOf(b"src_len", 1, Number(PLAIN)),
    FieldOf(b"tos", 1, Number(PLAIN)),
    FieldOf(b"table", 1, Number(RT_TABLE)),
    FieldOf(b"padding", 2, Padding),
    FieldOf(b"action", 1, Number(FR_ACT)),
    FieldOf(b"flags", 4, Flags(FIB_RULE_FLAGS)),
];

/// rtnetlink.h, `struct tcmsg`.
pub const TCMSG: Layout = Layout(36);

pub(crate) const TCMSG_FIELDS: Fields = &[
    FieldOf(b"family", 1, Number(FAMILY)),
    FieldOf(b"padding", 3, Padding),
    FieldOf(b"ifindex", 4, Number(PLAIN)),
    FieldOf(b"handle", 4, Handle(PLAIN)),
    FieldOf(b"parent", 4, Handle(TC_PARENT)),
    FieldOf(b"info", 4, Number(PLAIN)),
];

/// rtnetlink.h, `struct tcmsg`.
pub const TCMSG_FILTER: Layout = Layout(37);

pub(crate) const TCMSG_FILTER_FIELDS: Fields = &[
    FieldOf(b"family", 1, Number(FAMILY)),
    FieldOf(b"padding", 3, Padding),
    FieldOf(b"ifindex", 4, Number(PLAIN)),
    FieldOf(b"handle", 4, Flags(PLAIN)),
    FieldOf(b"parent", 4, Handle(TC_PARENT)),
    FieldOf(b"protocol", 2, BigEndian(ETHER_TYPE)),
    FieldOf(b"prio", 2, Number(PLAIN)),
];

/// rtnetlink.h, `struct tcamsg`.
pub const TCAMSG: Layout = Layout(38);

pub(crate) const TCAMSG_FIELDS: Fields = &[
    FieldOf(b"family", 1, Number(FAMILY)),
    FieldOf(b"padding", 3, Padding),
];

/// rtnetlink.h, `struct prefixmsg`.
pub const PREFIXMSG: Layout = Layout(39);

pub(crate) const PREFIXMSG_FIELDS: Fields = &[
    FieldOf(b"family", 1, Number(FAMILY)),
    FieldOf(b"padding", 3, Padding),
    FieldOf(b"ifindex", 4, Number(PLAIN)),
    FieldOf(b"type", 1, Number(PLAIN)),
    FieldOf(b"len", 1, Number(PLAIN)),
    FieldOf(b"flags", 1, Flags(PLAIN)),
    FieldOf(b"pad3", 1, Padding),
];

/// neighbour.h, `struct ndtmsg`.
pub const NDTMSG: Layout = Layout(40);

pub(crate) const NDTMSG_FIELDS: Fields = &[
    FieldOf(b"family", 1, Number(FAMILY)),
    FieldOf(b"padding", 3, Padding),
];

/// if_addrlabel.h, `struct ifaddrlblmsg`.
pub const IFADDRLBLMSG: Layout = Layout(41);

pub(crate) const IFADDRLBLMSG_FIELDS: Fields = &[
    FieldOf(b"family", 1, Number(FAMILY)),
    FieldOf(b"padding", 1, Padding),
    FieldOf(b"prefixlen", 1, Number(PLAIN)),
    FieldOf(b"flags", 1, Flags(PLAIN)),
    FieldOf(b"index", 4, Number(PLAIN)),
    FieldOf(b"seq", 4, Number(PLAIN)),
];

/// netconf.h, `struct netconfmsg`.
pub const NETCONFMSG: Layout = Layout(42);

pub(crate) const NETCONFMSG_FIELDS: Fields = &[
    FieldOf(b"family", 1, Number(FAMILY)),
    FieldOf(b"padding", 3, Padding),
];

/// if_bridge.h, `struct br_port_msg`.
pub const BR_PORT_MSG: Layout = Layout(43);

pub(crate) const BR_PORT_MSG_FIELDS: Fields = &[
    FieldOf(b"family", 1, Number(FAMILY)),
    FieldOf(b"padding", 3, Padding),
    FieldOf(b"ifindex", 4, Number(PLAIN)),
];

/// rtnetlink.h, `struct rtgenmsg`.
pub const RTGENMSG: Layout = Layout(44);

pub(crate) const RTGENMSG_FIELDS: Fields = &[
    FieldOf(b"family", 1, Number(FAMILY)),
    FieldOf(b"padding", 3, Padding),
];

/// The family alone, in a request of 1 byte (rtnetlink.h, `struct rtgenmsg` without padding).
pub const RTGEN: Layout = Layout(45);

pub(crate) const RTGEN_FIELDS: Fields = &[FieldOf(b"family", 1, Number(FAMILY))];

/// rtnetlink.h, `struct ifinfomsg`, in requests for other objects than links.
pub const IFINFOMSG: Layout = Layout(46);

pub(crate) const IFINFOMSG_FIELDS: Fields = &[
    FieldOf(b"family", 1, Number(FAMILY)),
    FieldOf(b"padding", 1, Padding),
    FieldOf(b"type", 2, Number(PLAIN)),
    FieldOf(b"index", 4, Number(PLAIN)),
    FieldOf(b"flags", 4, Flags(LINK_FLAGS)),
    FieldOf(b"change", 4, Flags(LINK_FLAGS)),
];

/// if_link.h, `struct if_stats_msg`.
pub const IF_STATS_MSG: Layout = Layout(47);

pub(crate) const IF_STATS_MSG_FIELDS: Fields = &[
    FieldOf(b"family", 1, Number(FAMILY)),
    FieldOf(b"padding", 3, Padding),
    FieldOf(b"ifindex", 4, Number(PLAIN)),
    FieldOf(b"filter_mask", 4, Flags(STATS_FILTER)),
];

/// nexthop.h, `struct nhmsg`.
pub const NHMSG: Layout = Layout(48);

pub(crate) const NHMSG_FIELDS: Fields = &[
    FieldOf(b"family", 1, Number(FAMILY)),
    FieldOf(b"scope", 1, Number(RT_SCOPE)),
    FieldOf(b"protocol", 1, Number(RT_PROTOCOL)),
    FieldOf(b"padding", 1, Padding),
    FieldOf(b"flags", 4, Flags(NEXTHOP_FLAGS)),
];

/// if_bridge.h, `struct br_vlan_msg`.
pub const BR_VLAN_MSG: Layout = Layout(49);

pub(crate) const BR_VLAN_MSG_FIELDS: Fields = &[
    FieldOf(b"family", 1, Number(FAMILY)),
    FieldOf(b"padding", 3, Padding),
    FieldOf(b"ifindex", 4, Number(PLAIN)),
];

/// if_link.h, `struct tunnel_msg`.
pub const TUNNEL_MSG: Layout = Layout(50);

pub(crate) const TUNNEL_MSG_FIELDS: Fields = &[
    FieldOf(b"family", 1, Number(FAMILY)),
    FieldOf(b"flags", 1, Flags(TUNNEL_MSG_FLAGS)),
    FieldOf(b"padding", 2, Padding),
    FieldOf(b"ifindex", 4, Number(PLAIN)),
];

/// A record `timestamp`.
pub const TIMESTAMP: Layout = Layout(51);

pub(crate) const TIMESTAMP_FIELDS: Fields = &[
    FieldOf(b"seconds", 4, Number(PLAIN)),
    FieldOf(b"microseconds", 4, Number(PLAIN)),
];

/// rtnetlink.h, `struct rtnexthop`.
pub const RTNEXTHOP: Layout = Layout(52);

pub(crate) const RTNEXTHOP_FIELDS: Fields = &[
    FieldOf(b"flags", 1, Flags(NEXTHOP_FLAGS)),
    FieldOf(b"hops", 1, Weight),
    FieldOf(b"ifindex", 4, Number(PLAIN)),
];

/// if_bridge.h, `struct br_mdb_entry`.
pub const BR_MDB_ENTRY: Layout = Layout(53);

pub(crate) const BR_MDB_ENTRY_FIELDS: Fields = &[
    FieldOf(b"ifindex", 4, Number(PLAIN)),
    FieldOf(b"state", 1, Number(MDB_STATE)),
    FieldOf(b"flags", 1, Flags(MDB_FLAGS)),
    FieldOf(b"vid", 2, Number(PLAIN)),
    FieldOf(b"addr", 18, Group(ETHER_TYPE)),
    FieldOf(b"padding", 2, Padding),
];

/// A record `router_port`.
pub const ROUTER_PORT: Layout = Layout(54);

pub(crate) const ROUTER_PORT_FIELDS: Fields = &[FieldOf(b"ifindex", 4, Number(PLAIN))];

/// nexthop.h, `struct nexthop_grp`.
pub const NEXTHOP_GRP: Layout = Layout(55);

pub(crate) const NEXTHOP_GRP_FIELDS: Fields = &[
    FieldOf(b"id", 4, Number(PLAIN)),
    FieldOf(b"weight", 1, Number(PLAIN)),
    FieldOf(b"weight_high", 1, Number(PLAIN)),
    FieldOf(b"resvd2", 2, Number(PLAIN)),
];

/// Returns the fields of a record, by the index of its layout from that of the first layout here on.
pub(crate) fn fields(index: u8) -> Fields
    ensures { fields_of (λ b. b.now) result.now ≡ get_or line_layouts index [] }
{
    match index {
        0 => IFADDRMSG_FIELDS,
        1 => RTMSG_FIELDS,
        2 => NDMSG_FIELDS,
        3 => FIB_RULE_HDR_FIELDS,
        4 => TCMSG_FIELDS,
        5 => TCMSG_FILTER_FIELDS,
        6 => TCAMSG_FIELDS,
        7 => PREFIXMSG_FIELDS,
        8 => NDTMSG_FIELDS,
        9 => IFADDRLBLMSG_FIELDS,
        10 => NETCONFMSG_FIELDS,
        11 => BR_PORT_MSG_FIELDS,
        12 => RTGENMSG_FIELDS,
        13 => RTGEN_FIELDS,
        14 => IFINFOMSG_FIELDS,
        15 => IF_STATS_MSG_FIELDS,
        16 => NHMSG_FIELDS,
        17 => BR_VLAN_MSG_FIELDS,
        18 => TUNNEL_MSG_FIELDS,
        19 => TIMESTAMP_FIELDS,
        20 => RTNEXTHOP_FIELDS,
        21 => BR_MDB_ENTRY_FIELDS,
        22 => ROUTER_PORT_FIELDS,
        23 => NEXTHOP_GRP_FIELDS,
        _ => &[],
    }
}
