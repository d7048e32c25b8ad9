//! Numbers and texts of automatic multicast tunnels.

ghost use Rattle.std.specs.Prelude.{◌≡◌, Some, false, IfOk, IfErr};
ghost use Rattle.std.specs.Result.{result_ok};
ghost use Rattle.netlink_packet_core.specs.Errors.{is_memory};
ghost use Rattle.link_info_types.specs.AmtTypes.{amt_mode_number, amt_mode_of, amt_mode_text, amt_mode_named};

use itoa::Buffer;
use netlink_packet_core::DecodeError;
use std::fmt;
use std::str::FromStr;

/// Which end of an AMT tunnel the device is, `AMT_MODE_*` of `linux/amt.h`. Encoded in 4 bytes, in
/// native byte order.
#[derive(Debug, PartialEq, Eq, Clone, Copy)]
pub enum AmtMode {
    /// The gateway, at the receivers of multicast: `AMT_MODE_GATEWAY`, 0.
    Gateway,
    /// The relay, at the source of multicast: `AMT_MODE_RELAY`, 1.
    Relay,
    /// Any other number.
    Other(u32),
}

impl From<u32> for AmtMode {
    ghost from_gives = { λ n m. m ≡ amt_mode_of n };

    fn from(number: u32) -> Self
        ensures named { result ≡ amt_mode_of number }
        ensures keeps_the_number { amt_mode_number result ≡ number }
    {
        match number {
            0 => Self::Gateway,
            1 => Self::Relay,
            _ => Self::Other(number),
        }
    }
}

impl From<AmtMode> for u32 {
    ghost from_gives = { λ m n. n ≡ amt_mode_number m };

    fn from(value: AmtMode) -> Self {
        match value {
            AmtMode::Gateway => 0,
            AmtMode::Relay => 1,
            AmtMode::Other(number) => number,
        }
    }
}

impl fmt::Display for AmtMode {
    ghost output = { λ m. Some (amt_mode_text m) };

    ghost styled_output = { λ m _. Some (amt_mode_text m) };

    fn fmt<W: fmt::Write>(&self, f: &mut fmt::Formatter<W>) -> fmt::Result {
        match self {
            Self::Gateway => f.write_str("gateway"),
            Self::Relay => f.write_str("relay"),
            Self::Other(number) => f.write_str(Buffer::new().format(*number)),
        }
    }
}

impl FromStr for AmtMode {
    type Err = DecodeError;

    ghost from_str_gives = { λ s r. result_ok r ≡ amt_mode_named s };

    fn from_str(s: &str) -> Result<Self, Self::Err>
        ensures named { result_ok result ≡ amt_mode_named s.now }
        ensures ok { IfOk result (λ m. amt_mode_text m ≡ s.now) }
        ensures err { IfErr result (λ e. is_memory e ≡ false) }
    {
        match s {
            "gateway" => Ok(Self::Gateway),
            "relay" => Ok(Self::Relay),
            _ => Err(DecodeError::from("unknown AMT mode")),
        }
    }
}
