//! States of links.

ghost use Rattle.std.specs.Prelude.{◌≡◌, Some, false, IfOk, IfErr};
ghost use Rattle.std.specs.Result.{result_ok};
ghost use Rattle.netlink_packet_core.specs.Errors.{is_memory};
ghost use Rattle.link_message_types.specs.LinkStates.{state_number, state_of, state_text, state_named};

use itoa::Buffer;
use netlink_packet_core::DecodeError;
use std::fmt;
use std::str::FromStr;

/// The operational state of a link, `IF_OPER_*` of `linux/if.h`. On the wire 1 byte.
#[derive(Debug, PartialEq, Eq, Clone, Copy)]
pub enum State {
    /// Unknown: `IF_OPER_UNKNOWN`, 0.
    Unknown,
    /// Some part of the device is missing: `IF_OPER_NOTPRESENT`, 1.
    NotPresent,
    /// It can't transfer data: `IF_OPER_DOWN`, 2.
    Down,
    /// The link below is down: `IF_OPER_LOWERLAYERDOWN`, 3.
    LowerLayerDown,
    /// It is being tested: `IF_OPER_TESTING`, 4.
    Testing,
    /// It waits for an external event, such as authentication: `IF_OPER_DORMANT`, 5.
    Dormant,
    /// It can transfer data: `IF_OPER_UP`, 6.
    Up,
    /// Every other number.
    Other(u8),
}

impl From<u8> for State {
    ghost from_gives = { λ n v. v ≡ state_of n };

    fn from(number: u8) -> Self
        ensures named { result ≡ state_of number }
        ensures keeps_the_number { state_number result ≡ number }
    {
        match number {
            0 => Self::Unknown,
            1 => Self::NotPresent,
            2 => Self::Down,
            3 => Self::LowerLayerDown,
            4 => Self::Testing,
            5 => Self::Dormant,
            6 => Self::Up,
            _ => Self::Other(number),
        }
    }
}

impl From<State> for u8 {
    ghost from_gives = { λ v n. n ≡ state_number v };

    fn from(value: State) -> Self {
        match value {
            State::Unknown => 0,
            State::NotPresent => 1,
            State::Down => 2,
            State::LowerLayerDown => 3,
            State::Testing => 4,
            State::Dormant => 5,
            State::Up => 6,
            State::Other(number) => number,
        }
    }
}

impl fmt::Display for State {
    ghost output = { λ v. Some (state_text v) };

    ghost styled_output = { λ v _. Some (state_text v) };

    fn fmt<W: fmt::Write>(&self, f: &mut fmt::Formatter<W>) -> fmt::Result {
        match self {
            Self::Unknown => f.write_str("UNKNOWN"),
            Self::NotPresent => f.write_str("NOTPRESENT"),
            Self::Down => f.write_str("DOWN"),
            Self::LowerLayerDown => f.write_str("LOWERLAYERDOWN"),
            Self::Testing => f.write_str("TESTING"),
            Self::Dormant => f.write_str("DORMANT"),
            Self::Up => f.write_str("UP"),
            Self::Other(number) => f.write_str(Buffer::new().format(*number)),
        }
    }
}

impl FromStr for State {
    type Err = DecodeError;

    ghost from_str_gives = { λ s r. result_ok r ≡ state_named s };

    fn from_str(s: &str) -> Result<Self, Self::Err>
        ensures named { result_ok result ≡ state_named s.now }
        ensures ok { IfOk result (λ v. state_text v ≡ s.now) }
        ensures err { IfErr result (λ e. is_memory e ≡ false) }
    {
        match s {
            "UNKNOWN" => Ok(Self::Unknown),
            "NOTPRESENT" => Ok(Self::NotPresent),
            "DOWN" => Ok(Self::Down),
            "LOWERLAYERDOWN" => Ok(Self::LowerLayerDown),
            "TESTING" => Ok(Self::Testing),
            "DORMANT" => Ok(Self::Dormant),
            "UP" => Ok(Self::Up),
            _ => Err(DecodeError::from("unknown state of a link")),
        }
    }
}
