//! Numbers, names and flags of IPv6.

ghost use Rattle.std.specs.Prelude.{◌≡◌, Some};
ghost use Rattle.std.specs.Prelude.{⊤};
ghost use Rattle.link_message_types.specs.Inet6Types.{inet_6_iface_flags_bits, inet_6_iface_flags_table};
ghost use Rattle.link_message_types.specs.Inet6Types.{in_6_addr_gen_mode_number, in_6_addr_gen_mode_of, in_6_addr_gen_mode_text};

use bitflags::{Flag, Flags};
use itoa::Buffer;
use std::fmt;

/// How a link generates its IPv6 addresses, `IN6_ADDR_GEN_MODE_*` of `linux/if_link.h`. On the wire
/// 1 byte.
#[derive(Debug, PartialEq, Eq, Clone, Copy)]
pub enum In6AddrGenMode {
    /// From its hardware address: `IN6_ADDR_GEN_MODE_EUI64`, 0.
    Eui64,
    /// None are generated: `IN6_ADDR_GEN_MODE_NONE`, 1.
    None,
    /// From a secret that user space has set: `IN6_ADDR_GEN_MODE_STABLE_PRIVACY`, 2.
    StablePrivacy,
    /// From a random secret: `IN6_ADDR_GEN_MODE_RANDOM`, 3.
    Random,
    /// Every other number.
    Other(u8),
}

impl From<u8> for In6AddrGenMode {
    ghost from_gives = { λ n v. v ≡ in_6_addr_gen_mode_of n };

    fn from(number: u8) -> Self
        ensures named { result ≡ in_6_addr_gen_mode_of number }
        ensures keeps_the_number { in_6_addr_gen_mode_number result ≡ number }
    {
        match number {
            0 => Self::Eui64,
            1 => Self::None,
            2 => Self::StablePrivacy,
            3 => Self::Random,
            _ => Self::Other(number),
        }
    }
}

impl From<&In6AddrGenMode> for u8 {
    ghost from_gives = { λ v n. n ≡ in_6_addr_gen_mode_number v.now };

    fn from(value: &In6AddrGenMode) -> Self {
        match value {
            In6AddrGenMode::Eui64 => 0,
            In6AddrGenMode::None => 1,
            In6AddrGenMode::StablePrivacy => 2,
            In6AddrGenMode::Random => 3,
            In6AddrGenMode::Other(number) => *number,
        }
    }
}

impl fmt::Display for In6AddrGenMode {
    ghost output = { λ v. Some (in_6_addr_gen_mode_text v) };

    ghost styled_output = { λ v _. Some (in_6_addr_gen_mode_text v) };

    fn fmt<W: fmt::Write>(&self, f: &mut fmt::Formatter<W>) -> fmt::Result {
        match self {
            Self::Eui64 => f.write_str("eui64"),
            Self::None => f.write_str("none"),
            Self::StablePrivacy => f.write_str("stable-privacy"),
            Self::Random => f.write_str("random"),
            Self::Other(number) => f.write_str(Buffer::new().format(*number)),
        }
    }
}

/// The state of IPv6 router discovery on a link, `IF_*` of the kernel's `net/if_inet6.h`. On the
/// wire 4 bytes in native order; all bits are kept.
#[derive(Debug, PartialEq, Eq, Clone, Copy)]
pub struct Inet6IfaceFlags(u32);

impl Inet6IfaceFlags {
    /// A router solicitation was sent: `IF_RS_SENT`.
    pub const RsSent: Self = Self(0x10);
    /// A router advertisement was received: `IF_RA_RCVD`.
    pub const RaReceived: Self = Self(0x20);
    /// Addresses are available by DHCPv6: `IF_RA_MANAGED`.
    pub const Managed: Self = Self(0x40);
    /// Other settings are available by DHCPv6: `IF_RA_OTHERCONF`.
    pub const OtherConf: Self = Self(0x80);
    /// The link is ready: `IF_READY`.
    pub const Ready: Self = Self(0x8000_0000);

    const FLAGS: [Flag<Inet6IfaceFlags>; 5] = [
        Flag {
            name: "RsSent",
            value: Self::RsSent,
        },
        Flag {
            name: "RaReceived",
            value: Self::RaReceived,
        },
        Flag {
            name: "Managed",
            value: Self::Managed,
        },
        Flag {
            name: "OtherConf",
            value: Self::OtherConf,
        },
        Flag {
            name: "Ready",
            value: Self::Ready,
        },
    ];
}

impl Flags for Inet6IfaceFlags {
    type Bits = u32;

    ghost exact = { ⊤ };

    ghost table = { inet_6_iface_flags_table };

    ghost set_of = { inet_6_iface_flags_bits };

    fn flags<'a>() -> &'a [Flag<Inet6IfaceFlags>] {
        &Inet6IfaceFlags::FLAGS
    }

    fn bits(&self) -> u32 {
        self.0
    }

    fn from_bits_retain(bits: u32) -> Inet6IfaceFlags {
        Inet6IfaceFlags(bits)
    }
}
