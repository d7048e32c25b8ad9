//! The names of numbers and of bits in raw lists and bodies about addresses and routes.

ghost use Rattle.std.specs.Prelude.{◌≡◌, [], get_or};
ghost use Rattle.link_lines_values.specs.Names.{texts_of};
ghost use Rattle.link_lines_values.specs.NumberTexts.{route_texts};

use crate::number_tables::{NumberText, Numbers};

/// Address families (socket.h, AF_*; RTNL_FAMILY_* of rtnetlink.h).
pub const FAMILY: Numbers = Numbers(64);

pub(crate) const FAMILY_TEXTS: &[NumberText] = &[
    (0, b"AF_UNSPEC"),
    (1, b"AF_UNIX"),
    (2, b"AF_INET"),
    (7, b"AF_BRIDGE"),
    (10, b"AF_INET6"),
    (16, b"AF_NETLINK"),
    (17, b"AF_PACKET"),
    (28, b"AF_MPLS"),
    (35, b"AF_PHONET"),
    (45, b"AF_MCTP"),
    (128, b"RTNL_FAMILY_IPMR"),
    (129, b"RTNL_FAMILY_IP6MR"),
];

/// How far the destination of a route or an address is (rtnetlink.h, `enum rt_scope_t`).
pub const RT_SCOPE: Numbers = Numbers(65);

pub(crate) const RT_SCOPE_TEXTS: &[NumberText] = &[
    (0, b"universe"),
    (200, b"site"),
    (253, b"link"),
    (254, b"host"),
    (255, b"nowhere"),
];

/// Routing tables (rtnetlink.h, `enum rt_class_t`).
pub const RT_TABLE: Numbers = Numbers(66);

pub(crate) const RT_TABLE_TEXTS: &[NumberText] = &[
    (0, b"unspec"),
    (252, b"compat"),
    (253, b"default"),
    (254, b"main"),
    (255, b"local"),
];

/// Who made a route (rtnetlink.h, RTPROT_*).
pub const RT_PROTOCOL: Numbers = Numbers(67);

pub(crate) const RT_PROTOCOL_TEXTS: &[NumberText] = &[
    (0, b"unspec"),
    (1, b"redirect"),
    (2, b"kernel"),
    (3, b"boot"),
    (4, b"static"),
    (8, b"gated"),
    (9, b"ra"),
    (10, b"mrt"),
    (11, b"zebra"),
    (12, b"bird"),
    (13, b"dnrouted"),
    (14, b"xorp"),
    (15, b"ntk"),
    (16, b"dhcp"),
    (17, b"mrouted"),
    (18, b"keepalived"),
    (42, b"babel"),
    (84, b"ovn"),
    (99, b"openr"),
    (186, b"bgp"),
    (187, b"isis"),
    (188, b"ospf"),
    (189, b"rip"),
    (192, b"eigrp"),
];

/// Types of routes (rtnetlink.h, RTN_*).
pub const RTN_TYPE: Numbers = Numbers(68);

pub(crate) const RTN_TYPE_TEXTS: &[NumberText] = &[
    (0, b"unspec"),
    (1, b"unicast"),
    (2, b"local"),
    (3, b"broadcast"),
    (4, b"anycast"),
    (5, b"multicast"),
    (6, b"blackhole"),
    (7, b"unreachable"),
    (8, b"prohibit"),
    (9, b"throw"),
    (10, b"nat"),
    (11, b"xresolve"),
];

/// Why a route was deleted (rtnetlink.h, `enum rt_del_reason`).
pub const RT_DEL_REASON: Numbers = Numbers(69);

pub(crate) const RT_DEL_REASON_TEXTS: &[NumberText] = &[
    (0, b"unspec"),
    (1, b"expired"),
    (2, b"ra_withdrawn"),
];

/// Preferences of routers (icmpv6.h, ICMPV6_ROUTER_PREF_*).
pub const ROUTER_PREF: Numbers = Numbers(70);

pub(crate) const ROUTER_PREF_TEXTS: &[NumberText] = &[
    (0, b"medium"),
    (1, b"high"),
    (2, b"invalid"),
    (3, b"low"),
];

/// Who made an address (if_addr.h, IFAPROT_*).
pub const IFA_PROTO: Numbers = Numbers(71);

pub(crate) const IFA_PROTO_TEXTS: &[NumberText] = &[
    (0, b"unspec"),
    (1, b"kernel_lo"),
    (2, b"kernel_ra"),
    (3, b"kernel_ll"),
];

/// Protocols over IP (in.h, IPPROTO_*).
pub const IP_PROTO: Numbers = Numbers(72);

pub(crate) const IP_PROTO_TEXTS: &[NumberText] = &[
    (1, b"icmp"),
    (6, b"tcp"),
    (17, b"udp"),
    (58, b"icmpv6"),
    (132, b"sctp"),
];

/// Encapsulations of a route (lwtunnel.h, `enum lwtunnel_encap_types`).
pub const ENCAP_TYPE: Numbers = Numbers(73);

pub(crate) const ENCAP_TYPE_TEXTS: &[NumberText] = &[
    (0, b"none"),
    (1, b"mpls"),
    (2, b"ip"),
    (3, b"ila"),
    (4, b"ip6"),
    (5, b"seg6"),
    (6, b"bpf"),
    (7, b"seg6_local"),
    (8, b"rpl"),
    (9, b"ioam6"),
    (10, b"xfrm"),
];

/// Actions of a local segment (seg6_local.h, SEG6_LOCAL_ACTION_*).
pub const SEG6_LOCAL_ACTION: Numbers = Numbers(74);

pub(crate) const SEG6_LOCAL_ACTION_TEXTS: &[NumberText] = &[
    (0, b"unspec"),
    (1, b"end"),
    (2, b"end_x"),
    (3, b"end_t"),
    (4, b"end_dx2"),
    (5, b"end_dx6"),
    (6, b"end_dx4"),
    (7, b"end_dt6"),
    (8, b"end_dt4"),
    (9, b"end_b6"),
    (10, b"end_b6_encap"),
    (11, b"end_bm"),
    (12, b"end_s"),
    (13, b"end_as"),
    (14, b"end_am"),
    (15, b"end_bpf"),
    (16, b"end_dt46"),
];

/// How packets get a segment routing header (seg6_iptunnel.h, SEG6_IPTUN_MODE_*).
pub const SEG6_MODE: Numbers = Numbers(75);

pub(crate) const SEG6_MODE_TEXTS: &[NumberText] = &[
    (0, b"inline"),
    (1, b"encap"),
    (2, b"l2encap"),
    (3, b"encap.red"),
    (4, b"l2encap.red"),
];

/// Ways in which IOAM is added (ioam6_iptunnel.h, IOAM6_IPTUNNEL_MODE_*).
pub const IOAM6_MODE: Numbers = Numbers(76);

pub(crate) const IOAM6_MODE_TEXTS: &[NumberText] = &[(1, b"inline"), (2, b"encap"), (3, b"auto")];

/// Flags of addresses (if_addr.h, IFA_F_*).
pub const IFA_FLAGS: Numbers = Numbers(77);

pub(crate) const IFA_FLAGS_TEXTS: &[NumberText] = &[
    (0x1, b"SECONDARY"),
    (0x2, b"NODAD"),
    (0x4, b"OPTIMISTIC"),
    (0x8, b"DADFAILED"),
    (0x10, b"HOMEADDRESS"),
    (0x20, b"DEPRECATED"),
    (0x40, b"TENTATIVE"),
    (0x80, b"PERMANENT"),
    (0x100, b"MANAGETEMPADDR"),
    (0x200, b"NOPREFIXROUTE"),
    (0x400, b"MCAUTOJOIN"),
    (0x800, b"STABLE_PRIVACY"),
];

/// Flags of next hops (rtnetlink.h, RTNH_F_*).
pub const NEXTHOP_FLAGS: Numbers = Numbers(78);

pub(crate) const NEXTHOP_FLAGS_TEXTS: &[NumberText] = &[
    (0x1, b"DEAD"),
    (0x2, b"PERVASIVE"),
    (0x4, b"ONLINK"),
    (0x8, b"OFFLOAD"),
    (0x10, b"LINKDOWN"),
    (0x20, b"UNRESOLVED"),
    (0x40, b"TRAP"),
];

/// Flags of routes (rtnetlink.h, RTM_F_* and RTNH_F_*).
pub const ROUTE_FLAGS: Numbers = Numbers(79);

pub(crate) const ROUTE_FLAGS_TEXTS: &[NumberText] = &[
    (0x1, b"DEAD"),
    (0x2, b"PERVASIVE"),
    (0x4, b"ONLINK"),
    (0x8, b"OFFLOAD"),
    (0x10, b"LINKDOWN"),
    (0x20, b"UNRESOLVED"),
    (0x40, b"TRAP"),
    (0x100, b"NOTIFY"),
    (0x200, b"CLONED"),
    (0x400, b"EQUALIZE"),
    (0x800, b"PREFIX"),
    (0x1000, b"LOOKUP_TABLE"),
    (0x2000, b"FIB_MATCH"),
    (0x4000, b"RTM_F_OFFLOAD"),
    (0x8000, b"RTM_F_TRAP"),
    (0x20000000, b"OFFLOAD_FAILED"),
];

/// Metrics that are locked, by their number as a bit (rtnetlink.h, RTAX_*).
pub const RTAX_LOCK: Numbers = Numbers(80);

pub(crate) const RTAX_LOCK_TEXTS: &[NumberText] = &[
    (0x4, b"MTU"),
    (0x8, b"WINDOW"),
    (0x10, b"RTT"),
    (0x20, b"RTTVAR"),
    (0x40, b"SSTHRESH"),
    (0x80, b"CWND"),
    (0x100, b"ADVMSS"),
    (0x200, b"REORDERING"),
    (0x400, b"HOPLIMIT"),
    (0x800, b"INITCWND"),
    (0x1000, b"FEATURES"),
    (0x2000, b"RTO_MIN"),
    (0x4000, b"INITRWND"),
    (0x8000, b"QUICKACK"),
];

/// Features of a route (rtnetlink.h, RTAX_FEATURE_*).
pub const RTAX_FEATURES: Numbers = Numbers(81);

pub(crate) const RTAX_FEATURES_TEXTS: &[NumberText] = &[
    (0x1, b"ECN"),
    (0x2, b"SACK"),
    (0x4, b"TIMESTAMP"),
    (0x8, b"ALLFRAG"),
    (0x10, b"TCP_USEC_TS"),
];

/// Flavours of a local segment, by their number as a bit (seg6_local.h, SEG6_LOCAL_FLV_OP_*).
pub const SEG6_FLAVORS: Numbers = Numbers(82);

pub(crate) const SEG6_FLAVORS_TEXTS: &[NumberText] = &[
    (0x2, b"PSP"),
    (0x4, b"USP"),
    (0x8, b"USD"),
    (0x10, b"NEXT_CSID"),
];

/// Flags of a segment routing header (seg6.h, SR6_FLAG1_*).
pub const SEG6_FLAGS: Numbers = Numbers(83);

pub(crate) const SEG6_FLAGS_TEXTS: &[NumberText] = &[
    (0x8, b"HMAC"),
    (0x10, b"ALERT"),
    (0x20, b"OAM"),
    (0x40, b"PROTECTED"),
];

/// Returns the numbers of a table with their names, by its index from that of the first table here on.
pub(crate) fn texts(index: u8) -> &'static [NumberText]
    ensures { texts_of (λ b. b.now) result.now ≡ get_or route_texts index [] }
{
    match index {
        0 => FAMILY_TEXTS,
        1 => RT_SCOPE_TEXTS,
        2 => RT_TABLE_TEXTS,
        3 => RT_PROTOCOL_TEXTS,
        4 => RTN_TYPE_TEXTS,
        5 => RT_DEL_REASON_TEXTS,
        6 => ROUTER_PREF_TEXTS,
        7 => IFA_PROTO_TEXTS,
        8 => IP_PROTO_TEXTS,
        9 => ENCAP_TYPE_TEXTS,
        10 => SEG6_LOCAL_ACTION_TEXTS,
        11 => SEG6_MODE_TEXTS,
        12 => IOAM6_MODE_TEXTS,
        13 => IFA_FLAGS_TEXTS,
        14 => NEXTHOP_FLAGS_TEXTS,
        15 => ROUTE_FLAGS_TEXTS,
        16 => RTAX_LOCK_TEXTS,
        17 => RTAX_FEATURES_TEXTS,
        18 => SEG6_FLAVORS_TEXTS,
        19 => SEG6_FLAGS_TEXTS,
        _ => &[],
    }
}
