//! The names of numbers and of bits in raw lists and bodies about neighbours, rules, next hops,
//! settings, traffic control and statistics.

ghost use Rattle.std.specs.Prelude.{◌≡◌, [], get_or};
ghost use Rattle.link_lines_values.specs.Names.{texts_of};
ghost use Rattle.link_lines_values.specs.NumberTexts.{neighbour_texts};

use crate::number_tables::{NumberText, Numbers};

/// Actions of rules (fib_rules.h, FR_ACT_*).
pub const FR_ACT: Numbers = Numbers(96);

pub(crate) const FR_ACT_TEXTS: &[NumberText] = &[
    (0, b"unspec"),
    (1, b"to_tbl"),
    (2, b"goto"),
    (3, b"nop"),
    (4, b"res3"),
    (5, b"res4"),
    (6, b"blackhole"),
    (7, b"unreachable"),
    (8, b"prohibit"),
];

/// Handles with a name (pkt_sched.h, TC_H_*).
pub const TC_PARENT: Numbers = Numbers(97);

pub(crate) const TC_PARENT_TEXTS: &[NumberText] = &[
    (4294967281, b"ingress"),
    (4294967295, b"root"),
];

/// Indexes that stand for no single link (netconf.h, NETCONFA_IFINDEX_*).
pub const NETCONF_IFINDEX: Numbers = Numbers(98);

pub(crate) const NETCONF_IFINDEX_TEXTS: &[NumberText] = &[
    (4294967294, b"default"),
    (4294967295, b"all"),
];

/// Types of groups of next hops (nexthop.h, NEXTHOP_GRP_TYPE_*).
pub const NEXTHOP_GRP_TYPE: Numbers = Numbers(99);

pub(crate) const NEXTHOP_GRP_TYPE_TEXTS: &[NumberText] = &[(0, b"mpath"), (1, b"res")];

/// States of neighbours (neighbour.h, NUD_*).
pub const NEIGH_STATE: Numbers = Numbers(100);

pub(crate) const NEIGH_STATE_TEXTS: &[NumberText] = &[
    (0x1, b"INCOMPLETE"),
    (0x2, b"REACHABLE"),
    (0x4, b"STALE"),
    (0x8, b"DELAY"),
    (0x10, b"PROBE"),
    (0x20, b"FAILED"),
    (0x40, b"NOARP"),
    (0x80, b"PERMANENT"),
];

/// Flags of neighbours (neighbour.h, NTF_*).
pub const NEIGH_FLAGS: Numbers = Numbers(101);

pub(crate) const NEIGH_FLAGS_TEXTS: &[NumberText] = &[
    (0x1, b"USE"),
    (0x2, b"SELF"),
    (0x4, b"MASTER"),
    (0x8, b"PROXY"),
    (0x10, b"EXT_LEARNED"),
    (0x20, b"OFFLOADED"),
    (0x40, b"STICKY"),
    (0x80, b"ROUTER"),
];

/// More flags of neighbours (neighbour.h, NTF_EXT_*).
pub const NEIGH_FLAGS_EXT: Numbers = Numbers(102);

pub(crate) const NEIGH_FLAGS_EXT_TEXTS: &[NumberText] = &[
    (0x1, b"MANAGED"),
    (0x2, b"LOCKED"),
    (0x4, b"EXT_VALIDATED"),
];

/// When a bridge reports a forwarding entry (neighbour.h, FDB_NOTIFY_BIT and
/// FDB_NOTIFY_INACTIVE_BIT).
pub const FDB_NOTIFY: Numbers = Numbers(103);

pub(crate) const FDB_NOTIFY_TEXTS: &[NumberText] = &[(0x1, b"NOTIFY"), (0x2, b"INACTIVE")];

/// Flags of rules (fib_rules.h, FIB_RULE_*).
pub const FIB_RULE_FLAGS: Numbers = Numbers(104);

pub(crate) const FIB_RULE_FLAGS_TEXTS: &[NumberText] = &[
    (0x1, b"PERMANENT"),
    (0x2, b"INVERT"),
    (0x4, b"UNRESOLVED"),
    (0x8, b"IIF_DETACHED"),
    (0x10, b"OIF_DETACHED"),
    (0x10000, b"FIND_SADDR"),
];

/// Flags of a dump of filters (rtnetlink.h, TCA_DUMP_FLAGS_*).
pub const TCA_DUMP_FLAGS: Numbers = Numbers(105);

pub(crate) const TCA_DUMP_FLAGS_TEXTS: &[NumberText] = &[(0x1, b"TERSE")];

/// Flags of a dump of actions (rtnetlink.h, TCA_ACT_FLAG_*).
pub const TCA_ROOT_FLAGS: Numbers = Numbers(106);

pub(crate) const TCA_ROOT_FLAGS_TEXTS: &[NumberText] = &[
    (0x1, b"LARGE_DUMP_ON"),
    (0x2, b"TERSE_DUMP"),
];

/// Flags of actions (pkt_cls.h, TCA_ACT_FLAGS_*).
pub const TCA_ACT_FLAGS: Numbers = Numbers(107);

pub(crate) const TCA_ACT_FLAGS_TEXTS: &[NumberText] = &[
    (0x1, b"NO_PERCPU_STATS"),
    (0x2, b"SKIP_HW"),
    (0x4, b"SKIP_SW"),
];

/// How a device reports statistics of actions (pkt_cls.h, TCA_ACT_HW_STATS_*).
pub const TCA_ACT_HW_STATS: Numbers = Numbers(108);

pub(crate) const TCA_ACT_HW_STATS_TEXTS: &[NumberText] = &[(0x1, b"IMMEDIATE"), (0x2, b"DELAYED")];

/// Statistics that are asked for, by their number as a bit (if_link.h, IFLA_STATS_*).
pub const STATS_FILTER: Numbers = Numbers(109);

pub(crate) const STATS_FILTER_TEXTS: &[NumberText] = &[
    (0x1, b"LINK_64"),
    (0x2, b"LINK_XSTATS"),
    (0x4, b"LINK_XSTATS_SLAVE"),
    (0x8, b"LINK_OFFLOAD_XSTATS"),
    (0x10, b"AF_SPEC"),
];

/// What a dump of next hops has (nexthop.h, NHA_OP_FLAG_*).
pub const NHA_OP_FLAGS: Numbers = Numbers(110);

pub(crate) const NHA_OP_FLAGS_TEXTS: &[NumberText] = &[
    (0x1, b"DUMP_STATS"),
    (0x2, b"DUMP_HW_STATS"),
    (0x80000000, b"RESP_GRP_RESVD_0"),
];

/// Flags of messages about tunnels (if_link.h, TUNNEL_MSG_FLAG_*).
pub const TUNNEL_MSG_FLAGS: Numbers = Numbers(111);

pub(crate) const TUNNEL_MSG_FLAGS_TEXTS: &[NumberText] = &[(0x1, b"STATS")];

/// Returns the numbers of a table with their names, by its index from that of the first table here on.
pub(crate) fn texts(index: u8) -> &'static [NumberText]
    ensures { texts_of (λ b. b.now) result.now ≡ get_or neighbour_texts index [] }
{
    match index {
        0 => FR_ACT_TEXTS,
        1 => TC_PARENT_TEXTS,
        2 => NETCONF_IFINDEX_TEXTS,
        3 => NEXTHOP_GRP_TYPE_TEXTS,
        4 => NEIGH_STATE_TEXTS,
        5 => NEIGH_FLAGS_TEXTS,
        6 => NEIGH_FLAGS_EXT_TEXTS,
        7 => FDB_NOTIFY_TEXTS,
        8 => FIB_RULE_FLAGS_TEXTS,
        9 => TCA_DUMP_FLAGS_TEXTS,
        10 => TCA_ROOT_FLAGS_TEXTS,
        11 => TCA_ACT_FLAGS_TEXTS,
        12 => TCA_ACT_HW_STATS_TEXTS,
        13 => STATS_FILTER_TEXTS,
        14 => NHA_OP_FLAGS_TEXTS,
        15 => TUNNEL_MSG_FLAGS_TEXTS,
        _ => &[],
    }
}
