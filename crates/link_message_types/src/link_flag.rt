//! Flags of links.

ghost use Rattle.std.specs.Prelude.{◌≡◌, ⊤, Some, IfOk, false};
ghost use Rattle.std.specs.Fmt.{digits};
ghost use Rattle.link_message_types.specs.LinkFlagTypes.{link_flags_bits, link_flags_table, link_flags_text};

use arrayvec::ArrayString;
use bitflags::{Flag, Flags};
use std::fmt;
use std::fmt::Write;

/// The flags of a link, `IFF_*` of `linux/if.h`. On the wire 4 bytes in native order; all bits are
/// kept.
#[derive(Debug, PartialEq, Eq, Clone, Copy)]
pub struct LinkFlags(u32);

impl LinkFlags {
    /// The link is up: `IFF_UP`.
    pub const Up: Self = Self(0x1);
    /// Its broadcast address is valid: `IFF_BROADCAST`.
    pub const Broadcast: Self = Self(0x2);
    /// Its driver writes messages for debugging: `IFF_DEBUG`.
    pub const Debug: Self = Self(0x4);
    /// It is a loopback device: `IFF_LOOPBACK`.
    pub const Loopback: Self = Self(0x8);
    /// It is point-to-point: `IFF_POINTOPOINT`.
    pub const Pointopoint: Self = Self(0x10);
    /// It avoids the use of trailers: `IFF_NOTRAILERS`.
    pub const Notrailers: Self = Self(0x20);
    /// It is operational: `IFF_RUNNING`.
    pub const Running: Self = Self(0x40);
    /// It doesn't use ARP: `IFF_NOARP`.
    pub const Noarp: Self = Self(0x80);
    /// It receives all packets (promiscuous mode): `IFF_PROMISC`.
    pub const Promisc: Self = Self(0x100);
    /// It receives all multicast packets: `IFF_ALLMULTI`.
    pub const Allmulti: Self = Self(0x200);
    /// It is the controller of several ports, as a bond is: `IFF_MASTER`.
    pub const Controller: Self = Self(0x400);
    /// It is the port of a controller: `IFF_SLAVE`.
    pub const Port: Self = Self(0x800);
    /// It supports multicast: `IFF_MULTICAST`.
    pub const Multicast: Self = Self(0x1000);
    /// It can select its media type: `IFF_PORTSEL`.
    pub const Portsel: Self = Self(0x2000);
    /// It selects its media type automatically: `IFF_AUTOMEDIA`.
    pub const Automedia: Self = Self(0x4000);
    /// Its addresses are lost when it goes down: `IFF_DYNAMIC`.
    pub const Dynamic: Self = Self(0x8000);
    /// The physical layer has a signal: `IFF_LOWER_UP`.
    pub const LowerUp: Self = Self(0x10000);
    /// It is dormant: `IFF_DORMANT`.
    pub const Dormant: Self = Self(0x20000);
    /// It echoes sent packets: `IFF_ECHO`.
    pub const Echo: Self = Self(0x40000);

    const FLAGS: [Flag<LinkFlags>; 19] = [
        Flag {
            name: "Up",
            value: Self::Up,
        },
        Flag {
            name: "Broadcast",
            value: Self::Broadcast,
        },
        Flag {
            name: "Debug",
            value: Self::Debug,
        },
        Flag {
            name: "Loopback",
            value: Self::Loopback,
        },
        Flag {
            name: "Pointopoint",
            value: Self::Pointopoint,
        },
        Flag {
            name: "Notrailers",
            value: Self::Notrailers,
        },
        Flag {
            name: "Running",
            value: Self::Running,
        },
        Flag {
            name: "Noarp",
            value: Self::Noarp,
        },
        Flag {
            name: "Promisc",
            value: Self::Promisc,
        },
        Flag {
            name: "Allmulti",
            value: Self::Allmulti,
        },
        Flag {
            name: "Controller",
            value: Self::Controller,
        },
        Flag {
            name: "Port",
            value: Self::Port,
        },
        Flag {
            name: "Multicast",
            value: Self::Multicast,
        },
        Flag {
            name: "Portsel",
            value: Self::Portsel,
        },
        Flag {
            name: "Automedia",
            value: Self::Automedia,
        },
        Flag {
            name: "Dynamic",
            value: Self::Dynamic,
        },
        Flag {
            name: "LowerUp",
            value: Self::LowerUp,
        },
        Flag {
            name: "Dormant",
            value: Self::Dormant,
        },
        Flag {
            name: "Echo",
            value: Self::Echo,
        },
    ];
}

impl Flags for LinkFlags {
    type Bits = u32;

    ghost exact = { ⊤ };

    ghost table = { link_flags_table };

    ghost set_of = { link_flags_bits };

    fn flags<'a>() -> &'a [Flag<LinkFlags>] {
        &LinkFlags::FLAGS
    }

    fn bits(&self) -> u32 {
        self.0
    }

    fn from_bits_retain(bits: u32) -> LinkFlags {
        LinkFlags(bits)
    }
}

impl Default for LinkFlags {
    ghost is_default = { λ f. link_flags_bits f ≡ 0 };

    fn default() -> Self {
        Self::empty()
    }
}

/// Writes the names of the flags that are set, in the order of their bits, and then all bits
/// without a name, if any, as one hexadecimal number, with ` | ` between each two: `Up | Broadcast
/// | 0x80000`. Writes nothing if no bit is set. The options of a format are ignored.
impl fmt::Display for LinkFlags {
    ghost output = { λ v. Some (link_flags_text v) };

    ghost styled_output = { λ v _. Some (link_flags_text v) };

    fn fmt<W: fmt::Write>(&self, f: &mut fmt::Formatter<W>) -> fmt::Result {
        let mut separator = "";
        for flag in Self::flags() {
            if self.contains(flag.value) {
                f.write_str(separator)?;
                f.write_str(flag.name)?;
                separator = " | ";
            }
        }
        let unnamed = self.difference(Self::all());
        if !unnamed.is_empty() {
            let digits = hex_digits(unnamed.0)?;
            f.write_str(separator)?;
            f.write_str("0x")?;
            f.write_str(digits.as_str())?;
        }
        Ok(())
    }
}

// Returns a number in hexadecimal; the buffer has capacity for all of its digits.
fn hex_digits(number: u32) -> Result<ArrayString<8>, fmt::Error>
    ensures { IfOk result (λ text. text.bytes ≡ digits 16 false number) }
{
    let mut text = ArrayString::new();
    write!(text, "{number:x}")?;
    Ok(text)
}
