//! The names of numbers and of bits in the options of queueing disciplines, filters and actions, and
//! of lifetimes.

ghost use Rattle.std.specs.Prelude.{◌≡◌, [], get_or};
ghost use Rattle.link_lines_values.specs.Names.{texts_of};
ghost use Rattle.link_lines_values.specs.NumberTexts.{traffic_texts};

use crate::number_tables::{NumberText, Numbers};

/// What to do with a packet (pkt_cls.h, TC_ACT_*).
pub const TC_ACTION: Numbers = Numbers(192);

pub(crate) const TC_ACTION_TEXTS: &[NumberText] = &[
    (0, b"ok"),
    (1, b"reclassify"),
    (2, b"shot"),
    (3, b"pipe"),
    (4, b"stolen"),
    (5, b"queued"),
    (6, b"repeat"),
    (7, b"redirect"),
    (8, b"trap"),
    (4294967295, b"unspec"),
];

/// Where an action sends packets (tc_act/tc_mirred.h, TCA_EGRESS_*, TCA_INGRESS_*).
pub const MIRRED_ACTION: Numbers = Numbers(193);

pub(crate) const MIRRED_ACTION_TEXTS: &[NumberText] = &[
    (1, b"egress_redir"),
    (2, b"egress_mirror"),
    (3, b"ingress_redir"),
    (4, b"ingress_mirror"),
];

/// Lifetimes of addresses and prefixes (addrconf.h, INFINITY_LIFE_TIME).
pub const LIFETIME: Numbers = Numbers(194);

pub(crate) const LIFETIME_TEXTS: &[NumberText] = &[(4294967295, b"forever")];

/// Flags of filters (pkt_cls.h, TCA_CLS_FLAGS_*).
pub const CLS_FLAGS: Numbers = Numbers(195);

pub(crate) const CLS_FLAGS_TEXTS: &[NumberText] = &[
    (0x1, b"SKIP_HW"),
    (0x2, b"SKIP_SW"),
    (0x4, b"IN_HW"),
    (0x8, b"NOT_IN_HW"),
    (0x10, b"VERBOSE"),
];

/// Flags of `u32` filters (pkt_cls.h, TC_U32_*).
pub const U32_FLAGS: Numbers = Numbers(196);

pub(crate) const U32_FLAGS_TEXTS: &[NumberText] = &[
    (0x1, b"TERMINAL"),
    (0x2, b"OFFSET"),
    (0x4, b"VAROFFSET"),
    (0x8, b"EAT"),
];

/// Flags of filters by a program (pkt_cls.h, TCA_BPF_FLAG_*).
pub const BPF_FLAGS: Numbers = Numbers(197);

pub(crate) const BPF_FLAGS_TEXTS: &[NumberText] = &[(0x1, b"ACT_DIRECT")];

/// States of tracked connections (pkt_cls.h, TCA_FLOWER_KEY_CT_FLAGS_*).
pub const CT_STATE: Numbers = Numbers(198);

pub(crate) const CT_STATE_TEXTS: &[NumberText] = &[
    (0x1, b"NEW"),
    (0x2, b"ESTABLISHED"),
    (0x4, b"RELATED"),
    (0x8, b"TRACKED"),
    (0x10, b"INVALID"),
    (0x20, b"REPLY"),
];

/// Returns the names of numbers, or of bits, by the index of their table from that of the first table
/// here on.
pub(crate) fn texts(index: u8) -> &'static [NumberText]
    ensures { texts_of (λ b. b.now) result.now ≡ get_or traffic_texts index [] }
{
    match index {
        0 => TC_ACTION_TEXTS,
        1 => MIRRED_ACTION_TEXTS,
        2 => LIFETIME_TEXTS,
        3 => CLS_FLAGS_TEXTS,
        4 => U32_FLAGS_TEXTS,
        5 => BPF_FLAGS_TEXTS,
        6 => CT_STATE_TEXTS,
        _ => &[],
    }
}
