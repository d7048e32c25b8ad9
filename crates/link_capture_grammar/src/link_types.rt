//! The types of link messages (rtnetlink.h).

ghost use Rattle.std.specs.Prelude.{◌≡◌};
ghost use Rattle.link_capture_grammar.specs.Bodies.{is_link_type};

/// The type of a message that reports a link, or asks the kernel to create one (rtnetlink.h).
pub const RTM_NEWLINK: u16 = 16;

/// The type of a message that reports that a link is gone, or asks the kernel to delete one.
pub const RTM_DELLINK: u16 = 17;

/// The type of a message that requests links.
pub const RTM_GETLINK: u16 = 18;

/// The type of a message that changes a link.
pub const RTM_SETLINK: u16 = 19;

/// Returns whether a message type is one of links: `RTM_NEWLINK`, `RTM_DELLINK`, `RTM_GETLINK` or
/// `RTM_SETLINK`.
pub fn is_link_type(message_type: u16) -> bool
    ensures { result ≡ is_link_type message_type }
{
    RTM_NEWLINK <= message_type && message_type <= RTM_SETLINK
}
