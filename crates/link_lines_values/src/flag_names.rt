//! The names of bits in headers and in attributes of links, a table for each type of flags.

ghost use Rattle.std.specs.Prelude.{◌≡◌, [], get_or};
ghost use Rattle.link_lines_values.specs.Names.{texts_of};
ghost use Rattle.link_lines_values.specs.NumberTexts.{link_flag_names};

use crate::number_tables::{NumberText, Numbers};

/// The flags of any message, followed by those given, which only some types have.
macro_rules! message_flags {
    ($($flag:expr),*) => {
        &[
            (0x1, b"REQUEST"),
            (0x2, b"MULTI"),
            (0x4, b"ACK"),
            (0x8, b"ECHO"),
            (0x10, b"DUMP_INTR"),
            (0x20, b"DUMP_FILTERED"),
            $($flag),*
        ]
    };
}

/// Flags of links (if.h: IFF_*).
pub const LINK_FLAGS: Numbers = Numbers(32);

pub(crate) const LINK_FLAGS_TEXTS: &[NumberText] = &[
    (0x1, b"Up"),
    (0x2, b"Broadcast"),
    (0x4, b"Debug"),
    (0x8, b"Loopback"),
    (0x10, b"Pointopoint"),
    (0x20, b"Notrailers"),
    (0x40, b"Running"),
    (0x80, b"Noarp"),
    (0x100, b"Promisc"),
    (0x200, b"Allmulti"),
    (0x400, b"Controller"),
    (0x800, b"Port"),
    (0x1000, b"Multicast"),
    (0x2000, b"Portsel"),
    (0x4000, b"Automedia"),
    (0x8000, b"Dynamic"),
    (0x10000, b"LowerUp"),
    (0x20000, b"Dormant"),
    (0x40000, b"Echo"),
];

/// The mask of a request for links (rtnetlink.h: RTEXT_FILTER_*).
pub const LINK_EXTENT_MASK: Numbers = Numbers(33);

pub(crate) const LINK_EXTENT_MASK_TEXTS: &[NumberText] = &[
    (0x1, b"Vf"),
    (0x2, b"Brvlan"),
    (0x4, b"BrvlanCompressed"),
    (0x8, b"SkipStats"),
    (0x10, b"Mrp"),
    (0x20, b"CfmConfig"),
    (0x40, b"CfmStatus"),
    (0x80, b"Mst"),
];

/// Flags of any message (netlink.h: NLM_F_*).
pub const MESSAGE_FLAGS: Numbers = Numbers(34);

pub(crate) const MESSAGE_FLAGS_TEXTS: &[NumberText] = message_flags!();

/// Flags of requests to get (netlink.h: NLM_F_*).
pub const MESSAGE_GET_FLAGS: Numbers = Numbers(35);

pub(crate) const MESSAGE_GET_FLAGS_TEXTS: &[NumberText] = message_flags!(
    (0x100, b"ROOT"),
    (0x200, b"MATCH"),
    (0x400, b"ATOMIC")
);

/// Flags of requests to create or set (netlink.h: NLM_F_*).
pub const MESSAGE_CREATE_FLAGS: Numbers = Numbers(36);

pub(crate) const MESSAGE_CREATE_FLAGS_TEXTS: &[NumberText] = message_flags!(
    (0x100, b"REPLACE"),
    (0x200, b"EXCL"),
    (0x400, b"CREATE"),
    (0x800, b"APPEND")
);

/// Flags of requests to delete (netlink.h: NLM_F_*).
pub const MESSAGE_DELETE_FLAGS: Numbers = Numbers(37);

pub(crate) const MESSAGE_DELETE_FLAGS_TEXTS: &[NumberText] = message_flags!(
    (0x100, b"NONREC"),
    (0x200, b"BULK")
);

/// Flags of acknowledgements (netlink.h: NLM_F_*).
pub const MESSAGE_ACK_FLAGS: Numbers = Numbers(38);

pub(crate) const MESSAGE_ACK_FLAGS_TEXTS: &[NumberText] = message_flags!(
    (0x100, b"CAPPED"),
    (0x200, b"ACK_TLVS")
);

/// Returns the bits of a table with their names, by its index from that of the first table here on.
pub(crate) fn texts(index: u8) -> &'static [NumberText]
    ensures { texts_of (λ b. b.now) result.now ≡ get_or link_flag_names index [] }
{
    match index {
        0 => LINK_FLAGS_TEXTS,
        1 => LINK_EXTENT_MASK_TEXTS,
        2 => MESSAGE_FLAGS_TEXTS,
        3 => MESSAGE_GET_FLAGS_TEXTS,
        4 => MESSAGE_CREATE_FLAGS_TEXTS,
        5 => MESSAGE_DELETE_FLAGS_TEXTS,
        6 => MESSAGE_ACK_FLAGS_TEXTS,
        _ => &[],
    }
}
