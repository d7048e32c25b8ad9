//! Numbers and texts of GENEVE.

ghost use Rattle.std.specs.Prelude.{◌≡◌, Some, false, IfOk, IfErr};
ghost use Rattle.std.specs.Result.{result_ok};
ghost use Rattle.netlink_packet_core.specs.Errors.{is_memory};
ghost use Rattle.link_info_types.specs.GeneveTypes.{geneve_df_number, geneve_df_of, geneve_df_text, geneve_df_named};

use itoa::Buffer;
use netlink_packet_core::DecodeError;
use std::fmt;
use std::str::FromStr;

/// The "don't fragment" bit of the outer IPv4 header of a GENEVE tunnel, `GENEVE_DF_*` of
/// `linux/if_link.h`. Encoded in 1 byte.
#[derive(Debug, PartialEq, Eq, Clone, Copy)]
pub enum GeneveDf {
    /// Not set: `GENEVE_DF_UNSET`, 0.
    Unset,
    /// Set: `GENEVE_DF_SET`, 1.
    Set,
    /// Inherited from the inner header: `GENEVE_DF_INHERIT`, 2.
    Inherit,
    /// Any other number.
    Other(u8),
}

impl From<u8> for GeneveDf {
    ghost from_gives = { λ n d. d ≡ geneve_df_of n };

    fn from(number: u8) -> Self
        ensures named { result ≡ geneve_df_of number }
        ensures keeps_the_number { geneve_df_number result ≡ number }
    {
        match number {
            0 => Self::Unset,
            1 => Self::Set,
            2 => Self::Inherit,
            _ => Self::Other(number),
        }
    }
}

impl From<GeneveDf> for u8 {
    ghost from_gives = { λ d n. n ≡ geneve_df_number d };

    fn from(value: GeneveDf) -> Self {
        match value {
            GeneveDf::Unset => 0,
            GeneveDf::Set => 1,
            GeneveDf::Inherit => 2,
            GeneveDf::Other(number) => number,
        }
    }
}

impl fmt::Display for GeneveDf {
    ghost output = { λ d. Some (geneve_df_text d) };

    ghost styled_output = { λ d _. Some (geneve_df_text d) };

    fn fmt<W: fmt::Write>(&self, f: &mut fmt::Formatter<W>) -> fmt::Result {
        match self {
            Self::Unset => f.write_str("unset"),
            Self::Set => f.write_str("set"),
            Self::Inherit => f.write_str("inherit"),
            Self::Other(number) => f.write_str(Buffer::new().format(*number)),
        }
    }
}

impl FromStr for GeneveDf {
    type Err = DecodeError;

    ghost from_str_gives = { λ s r. result_ok r ≡ geneve_df_named s };

    fn from_str(s: &str) -> Result<Self, Self::Err>
        ensures named { result_ok result ≡ geneve_df_named s.now }
        ensures ok { IfOk result (λ d. geneve_df_text d ≡ s.now) }
        ensures err { IfErr result (λ e. is_memory e ≡ false) }
    {
        match s {
            "unset" => Ok(Self::Unset),
            "set" => Ok(Self::Set),
            "inherit" => Ok(Self::Inherit),
            _ => Err(DecodeError::from("unknown GENEVE DF")),
        }
    }
}
