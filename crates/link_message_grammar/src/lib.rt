// The grammar of link messages: the body with its header, the tables by address family, and its
// laws.
#![tactic(auto)]

pub mod laws;

/// The size of a link's header in bytes, which precedes its attributes (rtnetlink.h, `struct
/// ifinfomsg`).
pub const LINK_HEADER_LEN: usize = 16;
