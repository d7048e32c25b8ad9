//! Numbers and texts of GTP.

ghost use Rattle.std.specs.Prelude.{◌≡◌, Some};
ghost use Rattle.link_info_types.specs.GtpTypes.{gtp_role_number, gtp_role_of, gtp_role_text};

use itoa::Buffer;
use std::fmt;

/// Which end of a GTP tunnel the device is, `GTP_ROLE_*` of `linux/if_link.h`. Encoded in 4 bytes,
/// in native byte order.
#[derive(Debug, PartialEq, Eq, Clone, Copy, Default)]
pub enum GtpRole {
    /// The gateway: `GTP_ROLE_GGSN`, 0.
    #[default]
    Ggsn,
    /// The serving node: `GTP_ROLE_SGSN`, 1.
    Sgsn,
    /// Any other number.
    Other(u32),
}

impl From<u32> for GtpRole {
    ghost from_gives = { λ n r. r ≡ gtp_role_of n };

    fn from(number: u32) -> Self
        ensures named { result ≡ gtp_role_of number }
        ensures keeps_the_number { gtp_role_number result ≡ number }
    {
        match number {
            0 => Self::Ggsn,
            1 => Self::Sgsn,
            _ => Self::Other(number),
        }
    }
}

impl From<GtpRole> for u32 {
    ghost from_gives = { λ r n. n ≡ gtp_role_number r };

    fn from(value: GtpRole) -> Self {
        match value {
            GtpRole::Ggsn => 0,
            GtpRole::Sgsn => 1,
            GtpRole::Other(number) => number,
        }
    }
}

impl fmt::Display for GtpRole {
    ghost output = { λ r. Some (gtp_role_text r) };

    ghost styled_output = { λ r _. Some (gtp_role_text r) };

    fn fmt<W: fmt::Write>(&self, f: &mut fmt::Formatter<W>) -> fmt::Result {
        match self {
            Self::Ggsn => f.write_str("ggsn"),
            Self::Sgsn => f.write_str("sgsn"),
            Self::Other(number) => {
                f.write_str("unknown(")?;
                f.write_str(Buffer::new().format(*number))?;
                f.write_str(")")
            }
        }
    }
}
