//! Numbers and texts of NETKIT.

ghost use Rattle.std.specs.Prelude.{◌≡◌, Some, false, IfOk, IfErr};
ghost use Rattle.std.specs.Result.{result_ok};
ghost use Rattle.netlink_packet_core.specs.Errors.{is_memory};
ghost use Rattle.link_info_types.specs.NetkitTypes.{netkit_mode_number, netkit_mode_of, netkit_mode_text};
ghost use Rattle.link_info_types.specs.NetkitTypes.{netkit_mode_named, netkit_policy_number, netkit_policy_of};
ghost use Rattle.link_info_types.specs.NetkitTypes.{netkit_policy_text, netkit_policy_named, netkit_scrub_number};
ghost use Rattle.link_info_types.specs.NetkitTypes.{netkit_scrub_of, netkit_scrub_text, netkit_scrub_named};

use itoa::Buffer;
use netlink_packet_core::DecodeError;
use std::fmt;
use std::str::FromStr;

/// At which layer a NETKIT pair works, `NETKIT_L2` and `NETKIT_L3` of `linux/if_link.h`. Encoded in
/// 4 bytes, in native byte order.
#[derive(Debug, PartialEq, Eq, Clone, Copy)]
pub enum NetkitMode {
    /// With Ethernet headers: `NETKIT_L2`, 0.
    L2,
    /// Without Ethernet headers: `NETKIT_L3`, 1.
    L3,
    /// Any other number.
    Other(u32),
}

impl From<u32> for NetkitMode {
    ghost from_gives = { λ n m. m ≡ netkit_mode_of n };

    fn from(number: u32) -> Self
        ensures named { result ≡ netkit_mode_of number }
        ensures keeps_the_number { netkit_mode_number result ≡ number }
    {
        match number {
            0 => Self::L2,
            1 => Self::L3,
            _ => Self::Other(number),
        }
    }
}

impl From<NetkitMode> for u32 {
    ghost from_gives = { λ m n. n ≡ netkit_mode_number m };

    fn from(value: NetkitMode) -> Self {
        match value {
            NetkitMode::L2 => 0,
            NetkitMode::L3 => 1,
            NetkitMode::Other(number) => number,
        }
    }
}

impl fmt::Display for NetkitMode {
    ghost output = { λ m. Some (netkit_mode_text m) };

    ghost styled_output = { λ m _. Some (netkit_mode_text m) };

    fn fmt<W: fmt::Write>(&self, f: &mut fmt::Formatter<W>) -> fmt::Result {
        match self {
            Self::L2 => f.write_str("l2"),
            Self::L3 => f.write_str("l3"),
            Self::Other(number) => f.write_str(Buffer::new().format(*number)),
        }
    }
}

impl FromStr for NetkitMode {
    type Err = DecodeError;

    ghost from_str_gives = { λ s r. result_ok r ≡ netkit_mode_named s };

    fn from_str(s: &str) -> Result<Self, Self::Err>
        ensures named { result_ok result ≡ netkit_mode_named s.now }
        ensures ok { IfOk result (λ m. netkit_mode_text m ≡ s.now) }
        ensures err { IfErr result (λ e. is_memory e ≡ false) }
    {
        match s {
            "l2" => Ok(Self::L2),
            "l3" => Ok(Self::L3),
            _ => Err(DecodeError::from("unknown netkit mode")),
        }
    }
}

/// The policy for packets if no program decides, `NETKIT_PASS`, `NETKIT_DROP` and `NETKIT_REDIRECT`
/// of `linux/if_link.h`. Encoded in 4 bytes, in native byte order.
#[derive(Debug, PartialEq, Eq, Clone, Copy)]
pub enum NetkitPolicy {
    /// They pass: `NETKIT_PASS`, 0.
    Pass,
    /// They are dropped: `NETKIT_DROP`, 2.
    Drop,
    /// They are redirected: `NETKIT_REDIRECT`, 7.
    Redirect,
    /// Any other number.
    Other(u32),
}

impl NetkitPolicy {
    /// An alias of `Pass`.
    pub const Forward: NetkitPolicy = Self::Pass;
}

impl From<u32> for NetkitPolicy {
    ghost from_gives = { λ n m. m ≡ netkit_policy_of n };

    fn from(number: u32) -> Self
        ensures named { result ≡ netkit_policy_of number }
        ensures keeps_the_number { netkit_policy_number result ≡ number }
    {
        match number {
            0 => Self::Pass,
            2 => Self::Drop,
            7 => Self::Redirect,
            _ => Self::Other(number),
        }
    }
}

impl From<NetkitPolicy> for u32 {
    ghost from_gives = { λ m n. n ≡ netkit_policy_number m };

    fn from(value: NetkitPolicy) -> Self {
        match value {
            NetkitPolicy::Pass => 0,
            NetkitPolicy::Drop => 2,
            NetkitPolicy::Redirect => 7,
            NetkitPolicy::Other(number) => number,
        }
    }
}

impl fmt::Display for NetkitPolicy {
    ghost output = { λ m. Some (netkit_policy_text m) };

    ghost styled_output = { λ m _. Some (netkit_policy_text m) };

    fn fmt<W: fmt::Write>(&self, f: &mut fmt::Formatter<W>) -> fmt::Result {
        match self {
            Self::Pass => f.write_str("forward"),
            Self::Drop => f.write_str("blackhole"),
            Self::Redirect => f.write_str("redirect"),
            Self::Other(number) => f.write_str(Buffer::new().format(*number)),
        }
    }
}

impl FromStr for NetkitPolicy {
    type Err = DecodeError;

    ghost from_str_gives = { λ s r. result_ok r ≡ netkit_policy_named s };

    fn from_str(s: &str) -> Result<Self, Self::Err>
        ensures named { result_ok result ≡ netkit_policy_named s.now }
        ensures ok { IfOk result (λ m. netkit_policy_text m ≡ s.now) }
        ensures err { IfErr result (λ e. is_memory e ≡ false) }
    {
        match s {
            "forward" => Ok(Self::Pass),
            "blackhole" => Ok(Self::Drop),
            "redirect" => Ok(Self::Redirect),
            _ => Err(DecodeError::from("unknown netkit policy")),
        }
    }
}

/// Whether the metadata of a packet, such as marks, are cleared when it passes to the peer,
/// `NETKIT_SCRUB_*` of `linux/if_link.h`. Encoded in 4 bytes, in native byte order. Any number
/// except 0 is read as `Default`, which is written as 1.
#[derive(Debug, PartialEq, Eq, Clone, Copy)]
pub enum NetkitScrub {
    /// They are kept: `NETKIT_SCRUB_NONE`, 0.
    None,
    /// They are cleared: `NETKIT_SCRUB_DEFAULT`, 1.
    Default,
}

impl From<u32> for NetkitScrub {
    ghost from_gives = { λ n m. m ≡ netkit_scrub_of n };

    fn from(number: u32) -> Self
        ensures named { result ≡ netkit_scrub_of number }
    {
        match number {
            0 => Self::None,
            _ => Self::Default,
        }
    }
}

impl From<NetkitScrub> for u32 {
    ghost from_gives = { λ m n. n ≡ netkit_scrub_number m };

    fn from(value: NetkitScrub) -> Self {
        match value {
            NetkitScrub::None => 0,
            NetkitScrub::Default => 1,
        }
    }
}

impl fmt::Display for NetkitScrub {
    ghost output = { λ m. Some (netkit_scrub_text m) };

    ghost styled_output = { λ m _. Some (netkit_scrub_text m) };

    fn fmt<W: fmt::Write>(&self, f: &mut fmt::Formatter<W>) -> fmt::Result {
        match self {
            Self::None => f.write_str("none"),
            Self::Default => f.write_str("default"),
        }
    }
}

impl FromStr for NetkitScrub {
    type Err = DecodeError;

    ghost from_str_gives = { λ s r. result_ok r ≡ netkit_scrub_named s };

    fn from_str(s: &str) -> Result<Self, Self::Err>
        ensures named { result_ok result ≡ netkit_scrub_named s.now }
        ensures ok { IfOk result (λ m. netkit_scrub_text m ≡ s.now) }
        ensures err { IfErr result (λ e. is_memory e ≡ false) }
    {
        match s {
            "none" => Ok(Self::None),
            "default" => Ok(Self::Default),
            _ => Err(DecodeError::from("unknown netkit scrub")),
        }
    }
}
