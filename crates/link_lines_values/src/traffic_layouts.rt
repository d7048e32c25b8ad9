//! The layouts of records in the options of queueing disciplines, filters and actions.

ghost use Rattle.std.specs.Prelude.{◌≡◌, [], get_or};
ghost use Rattle.link_lines_values.specs.Records.{fields_of};
ghost use Rattle.link_lines_values.specs.Layouts.{traffic_layouts};

use crate::fields::FieldShownBy::{BigEndianFlags, Flags, Handle, Number, Padding, Signed};
use crate::fields::{FieldOf, Fields, Layout};
use crate::neighbour_texts::TC_PARENT;
use crate::number_texts::PLAIN;
use crate::traffic_texts::{MIRRED_ACTION, TC_ACTION, U32_FLAGS};

/// A handle by itself, in an attribute of 4 bytes.
pub const TC_HANDLE: Layout = Layout(128);

pub(crate) const TC_HANDLE_FIELDS: Fields = &[FieldOf(b"handle", 4, Handle(TC_PARENT))];

/// pkt_sched.h, `struct tc_fifo_qopt`.
pub const TC_FIFO_QOPT: Layout = Layout(129);

pub(crate) const TC_FIFO_QOPT_FIELDS: Fields = &[FieldOf(b"limit", 4, Number(PLAIN))];

/// pkt_sched.h, `struct tc_prio_qopt`.
pub const TC_PRIO_QOPT: Layout = Layout(130);

pub(crate) const TC_PRIO_QOPT_FIELDS: Fields = &[
    FieldOf(b"bands", 4, Signed),
    FieldOf(b"priomap0", 1, Number(PLAIN)),
    FieldOf(b"priomap1", 1, Number(PLAIN)),
    FieldOf(b"priomap2", 1, Number(PLAIN)),
    FieldOf(b"priomap3", 1, Number(PLAIN)),
    FieldOf(b"priomap4", 1, Number(PLAIN)),
    FieldOf(b"priomap5", 1, Number(PLAIN)),
    FieldOf(b"priomap6", 1, Number(PLAIN)),
    FieldOf(b"priomap7", 1, Number(PLAIN)),
    FieldOf(b"priomap8", 1, Number(PLAIN)),
    FieldOf(b"priomap9", 1, Number(PLAIN)),
    FieldOf(b"priomap10", 1, Number(PLAIN)),
    FieldOf(b"priomap11", 1, Number(PLAIN)),
    FieldOf(b"priomap12", 1, Number(PLAIN)),
    FieldOf(b"priomap13", 1, Number(PLAIN)),
    FieldOf(b"priomap14", 1, Number(PLAIN)),
    FieldOf(b"priomap15", 1, Number(PLAIN)),
];

/// pkt_sched.h, `struct tc_tbf_qopt`, with two `struct tc_ratespec`.
pub const TC_TBF_QOPT: Layout = Layout(131);

pub(crate) const TC_TBF_QOPT_FIELDS: Fields = &[
    FieldOf(b"rate_cell_log", 1, Number(PLAIN)),
    FieldOf(b"rate_linklayer", 1, Number(PLAIN)),
    FieldOf(b"rate_overhead", 2, Number(PLAIN)),
    FieldOf(b"rate_cell_align", 2, Signed),
    FieldOf(b"rate_mpu", 2, Number(PLAIN)),
    FieldOf(b"rate", 4, Number(PLAIN)),
    FieldOf(b"peakrate_cell_log", 1, Number(PLAIN)),
    FieldOf(b"peakrate_linklayer", 1, Number(PLAIN)),
    FieldOf(b"peakrate_overhead", 2, Number(PLAIN)),
    FieldOf(b"peakrate_cell_align", 2, Signed),
    FieldOf(b"peakrate_mpu", 2, Number(PLAIN)),
    FieldOf(b"peakrate", 4, Number(PLAIN)),
    FieldOf(b"limit", 4, Number(PLAIN)),
    FieldOf(b"buffer", 4, Number(PLAIN)),
    FieldOf(b"mtu", 4, Number(PLAIN)),
];

/// pkt_sched.h, `struct tc_htb_opt`, with two `struct tc_ratespec`.
pub const TC_HTB_OPT: Layout = Layout(132);

pub(crate) const TC_HTB_OPT_FIELDS: Fields = &[
    FieldOf(b"rate_cell_log", 1, Number(PLAIN)),
    FieldOf(b"rate_linklayer", 1, Number(PLAIN)),
    FieldOf(b"rate_overhead", 2, Number(PLAIN)),
    FieldOf(b"rate_cell_align", 2, Signed),
    FieldOf(b"rate_mpu", 2, Number(PLAIN)),
    FieldOf(b"rate", 4, Number(PLAIN)),
    FieldOf(b"ceil_cell_log", 1, Number(PLAIN)),
    FieldOf(b"ceil_linklayer", 1, Number(PLAIN)),
    FieldOf(b"ceil_overhead", 2, Number(PLAIN)),
    FieldOf(b"ceil_cell_align", 2, Signed),
    FieldOf(b"ceil_mpu", 2, Number(PLAIN)),
    FieldOf(b"ceil", 4, Number(PLAIN)),
    FieldOf(b"buffer", 4, Number(PLAIN)),
    FieldOf(b"cbuffer", 4, Number(PLAIN)),
    FieldOf(b"quantum", 4, Number(PLAIN)),
    FieldOf(b"level", 4, Number(PLAIN)),
    FieldOf(b"prio", 4, Number(PLAIN)),
];

/// pkt_sched.h, `struct tc_htb_glob`.
pub const TC_HTB_GLOB: Layout = Layout(133);

pub(crate) const TC_HTB_GLOB_FIELDS: Fields = &[
    FieldOf(b"version", 4, Number(PLAIN)),
    FieldOf(b"rate2quantum", 4, Number(PLAIN)),
    FieldOf(b"defcls", 4, Flags(PLAIN)),
    FieldOf(b"debug", 4, Number(PLAIN)),
    FieldOf(b"direct_pkts", 4, Number(PLAIN)),
];

/// pkt_cls.h, `struct tc_u32_mark`.
pub const TC_U32_MARK: Layout = Layout(134);

pub(crate) const TC_U32_MARK_FIELDS: Fields = &[
    FieldOf(b"val", 4, Flags(PLAIN)),
    FieldOf(b"mask", 4, Flags(PLAIN)),
    FieldOf(b"success", 4, Number(PLAIN)),
];

/// pkt_cls.h, `struct tc_u32_sel`, without its keys.
pub const TC_U32_SEL: Layout = Layout(135);

pub(crate) const TC_U32_SEL_FIELDS: Fields = &[
    FieldOf(b"flags", 1, Flags(U32_FLAGS)),
    FieldOf(b"offshift", 1, Number(PLAIN)),
    FieldOf(b"nkeys", 1, Number(PLAIN)),
    FieldOf(b"padding", 1, Padding),
    FieldOf(b"offmask", 2, BigEndianFlags),
    FieldOf(b"off", 2, Number(PLAIN)),
    FieldOf(b"offoff", 2, Signed),
    FieldOf(b"hoff", 2, Signed),
    FieldOf(b"hmask", 4, BigEndianFlags),
];

/// pkt_cls.h, `struct tc_u32_key`.
pub const TC_U32_KEY: Layout = Layout(136);

pub(crate) const TC_U32_KEY_FIELDS: Fields = &[
    FieldOf(b"mask", 4, BigEndianFlags),
    FieldOf(b"val", 4, BigEndianFlags),
    FieldOf(b"off", 4, Signed),
    FieldOf(b"offmask", 4, Signed),
];

/// pkt_cls.h, `struct tcf_t`.
pub const TCF_T: Layout = Layout(137);

pub(crate) const TCF_T_FIELDS: Fields = &[
    FieldOf(b"install", 8, Number(PLAIN)),
    FieldOf(b"lastuse", 8, Number(PLAIN)),
    FieldOf(b"expires", 8, Number(PLAIN)),
    FieldOf(b"firstuse", 8, Number(PLAIN)),
];

/// tc_act/tc_gact.h, `struct tc_gact`. The index is that of the action, not of a link.
pub const TC_GACT: Layout = Layout(138);

pub(crate) const TC_GACT_FIELDS: Fields = &[
    FieldOf(b"action_index", 4, Number(PLAIN)),
    FieldOf(b"capab", 4, Number(PLAIN)),
    FieldOf(b"action", 4, Number(TC_ACTION)),
    FieldOf(b"refcnt", 4, Signed),
    FieldOf(b"bindcnt", 4, Signed),
];

/// tc_act/tc_gact.h, `struct tc_gact_p`.
pub const TC_GACT_P: Layout = Layout(139);

pub(crate) const TC_GACT_P_FIELDS: Fields = &[
    FieldOf(b"ptype", 2, Number(PLAIN)),
    FieldOf(b"pval", 2, Number(PLAIN)),
    FieldOf(b"paction", 4, Number(TC_ACTION)),
];

/// tc_act/tc_mirred.h, `struct tc_mirred`. The first index is that of the action.
pub const TC_MIRRED: Layout = Layout(140);

pub(crate) const TC_MIRRED_FIELDS: Fields = &[
    FieldOf(b"action_index", 4, Number(PLAIN)),
    FieldOf(b"capab", 4, Number(PLAIN)),
    FieldOf(b"action", 4, Number(TC_ACTION)),
    FieldOf(b"refcnt", 4, Signed),
    FieldOf(b"bindcnt", 4, Signed),
    FieldOf(b"eaction", 4, Number(MIRRED_ACTION)),
    FieldOf(b"ifindex", 4, Number(PLAIN)),
];

/// Returns the fields of a record, by the index of its layout from that of the first layout here on.
pub(crate) fn fields(index: u8) -> Fields
    ensures { fields_of (λ b. b.now) result.now ≡ get_or traffic_layouts index [] }
{
    match index {
        0 => TC_HANDLE_FIELDS,
        1 => TC_FIFO_QOPT_FIELDS,
        2 => TC_PRIO_QOPT_FIELDS,
        3 => TC_TBF_QOPT_FIELDS,
        4 => TC_HTB_OPT_FIELDS,
        5 => TC_HTB_GLOB_FIELDS,
        6 => TC_U32_MARK_FIELDS,
        7 => TC_U32_SEL_FIELDS,
        8 => TC_U32_KEY_FIELDS,
        9 => TCF_T_FIELDS,
        10 => TC_GACT_FIELDS,
        11 => TC_GACT_P_FIELDS,
        12 => TC_MIRRED_FIELDS,
        _ => &[],
    }
}
