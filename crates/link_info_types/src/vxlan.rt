//! Numbers and texts of VXLAN.

ghost use Rattle.std.specs.Prelude.{◌≡◌, Some};
ghost use Rattle.link_info_types.specs.VxlanTypes.{vxlan_df_number, vxlan_df_of, vxlan_df_text};

use itoa::Buffer;
use std::fmt;

/// The "don't fragment" bit of the outer IPv4 header of a VXLAN tunnel, `VXLAN_DF_*` of
/// `linux/if_link.h`. Encoded in 1 byte.
#[derive(Debug, PartialEq, Eq, Clone, Copy)]
pub enum VxlanDf {
    /// Not set: `VXLAN_DF_UNSET`, 0.
    Unset,
    /// Set: `VXLAN_DF_SET`, 1.
    Set,
    /// Inherited from the inner header: `VXLAN_DF_INHERIT`, 2.
    Inherit,
    /// Any other number.
    Other(u8),
}

impl From<u8> for VxlanDf {
    ghost from_gives = { λ n d. d ≡ vxlan_df_of n };

    fn from(number: u8) -> Self
        ensures named { result ≡ vxlan_df_of number }
        ensures keeps_the_number { vxlan_df_number result ≡ number }
    {
        match number {
            0 => Self::Unset,
            1 => Self::Set,
            2 => Self::Inherit,
            _ => Self::Other(number),
        }
    }
}

impl From<VxlanDf> for u8 {
    ghost from_gives = { λ d n. n ≡ vxlan_df_number d };

    fn from(value: VxlanDf) -> Self {
        match value {
            VxlanDf::Unset => 0,
            VxlanDf::Set => 1,
            VxlanDf::Inherit => 2,
            VxlanDf::Other(number) => number,
        }
    }
}

impl fmt::Display for VxlanDf {
    ghost output = { λ d. Some (vxlan_df_text d) };

    ghost styled_output = { λ d _. Some (vxlan_df_text d) };

    fn fmt<W: fmt::Write>(&self, f: &mut fmt::Formatter<W>) -> fmt::Result {
        match self {
            Self::Unset => f.write_str("unset"),
            Self::Set => f.write_str("set"),
            Self::Inherit => f.write_str("inherit"),
            Self::Other(number) => f.write_str(Buffer::new().format(*number)),
        }
    }
}
