//! Modes of links.

ghost use Rattle.std.specs.Prelude.{◌≡◌, Some};
ghost use Rattle.link_message_types.specs.LinkModes.{link_mode_number, link_mode_of, link_mode_text};

use itoa::Buffer;
use std::fmt;

/// How a link's operational state becomes up, `IF_LINK_MODE_*` of `linux/if.h`. On the wire 1 byte.
#[derive(Debug, PartialEq, Eq, Clone, Copy)]
pub enum LinkMode {
    /// The link becomes up by itself: `IF_LINK_MODE_DEFAULT`, 0.
    Default,
    /// The link is dormant before it becomes up: `IF_LINK_MODE_DORMANT`, 1.
    Dormant,
    /// The link is tested before it becomes up: `IF_LINK_MODE_TESTING`, 2.
    Testing,
    /// Every other number.
    Other(u8),
}

impl From<u8> for LinkMode {
    ghost from_gives = { λ n v. v ≡ link_mode_of n };

    fn from(number: u8) -> Self
        ensures named { result ≡ link_mode_of number }
        ensures keeps_the_number { link_mode_number result ≡ number }
    {
        match number {
            0 => Self::Default,
            1 => Self::Dormant,
            2 => Self::Testing,
            _ => Self::Other(number),
        }
    }
}

impl From<LinkMode> for u8 {
    ghost from_gives = { λ v n. n ≡ link_mode_number v };

    fn from(value: LinkMode) -> Self {
        match value {
            LinkMode::Default => 0,
            LinkMode::Dormant => 1,
            LinkMode::Testing => 2,
            LinkMode::Other(number) => number,
        }
    }
}

impl fmt::Display for LinkMode {
    ghost output = { λ v. Some (link_mode_text v) };

    ghost styled_output = { λ v _. Some (link_mode_text v) };

    fn fmt<W: fmt::Write>(&self, f: &mut fmt::Formatter<W>) -> fmt::Result {
        match self {
            Self::Default => f.write_str("default"),
            Self::Dormant => f.write_str("dormant"),
            Self::Testing => f.write_str("testing"),
            Self::Other(number) => f.write_str(Buffer::new().format(*number)),
        }
    }
}
