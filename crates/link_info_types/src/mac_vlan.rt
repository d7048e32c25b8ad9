//! Numbers, texts and flags of MACVLAN and MACVTAP.

ghost use Rattle.std.specs.Prelude.{◌≡◌, Some, false, IfOk, IfErr, ⊤};
ghost use Rattle.std.specs.Result.{result_ok};
ghost use Rattle.netlink_packet_core.specs.Errors.{is_memory};
ghost use Rattle.link_info_types.specs.MacVlanTypes.{mac_vlan_mode_number, mac_vlan_mode_of, mac_vlan_mode_text};
ghost use Rattle.link_info_types.specs.MacVlanTypes.{mac_vlan_mode_named, mac_vlan_flags_bits, mac_vlan_flags_table};
ghost use Rattle.link_info_types.specs.MacVlanTypes.{mac_vlan_mac_address_mode_number, mac_vlan_mac_address_mode_of};

use bitflags::{Flag, Flags};
use itoa::Buffer;
use netlink_packet_core::DecodeError;
use std::fmt;
use std::str::FromStr;

/// How the MACVLAN devices of one parent reach one another, `MACVLAN_MODE_*` of `linux/if_link.h`.
/// Encoded in 4 bytes, in native byte order.
#[derive(Debug, PartialEq, Eq, Clone, Copy)]
pub enum MacVlanMode {
    /// Not at all: `MACVLAN_MODE_PRIVATE`, 1.
    Private,
    /// Through an external switch: `MACVLAN_MODE_VEPA`, 2.
    Vepa,
    /// Directly: `MACVLAN_MODE_BRIDGE`, 4.
    Bridge,
    /// There is only one device, which takes over the parent: `MACVLAN_MODE_PASSTHRU`, 8.
    Passthrough,
    /// By a list of source addresses: `MACVLAN_MODE_SOURCE`, 16.
    Source,
    /// Any other number.
    Other(u32),
}

impl From<u32> for MacVlanMode {
    ghost from_gives = { λ n m. m ≡ mac_vlan_mode_of n };

    fn from(number: u32) -> Self
        ensures named { result ≡ mac_vlan_mode_of number }
        ensures keeps_the_number { mac_vlan_mode_number result ≡ number }
    {
        match number {
            1 => Self::Private,
            2 => Self::Vepa,
            4 => Self::Bridge,
            8 => Self::Passthrough,
            16 => Self::Source,
            _ => Self::Other(number),
        }
    }
}

impl From<MacVlanMode> for u32 {
    ghost from_gives = { λ m n. n ≡ mac_vlan_mode_number m };

    fn from(value: MacVlanMode) -> Self {
        match value {
            MacVlanMode::Private => 1,
            MacVlanMode::Vepa => 2,
            MacVlanMode::Bridge => 4,
            MacVlanMode::Passthrough => 8,
            MacVlanMode::Source => 16,
            MacVlanMode::Other(number) => number,
        }
    }
}

impl fmt::Display for MacVlanMode {
    ghost output = { λ m. Some (mac_vlan_mode_text m) };

    ghost styled_output = { λ m _. Some (mac_vlan_mode_text m) };

    fn fmt<W: fmt::Write>(&self, f: &mut fmt::Formatter<W>) -> fmt::Result {
        match self {
            Self::Private => f.write_str("private"),
            Self::Vepa => f.write_str("vepa"),
            Self::Bridge => f.write_str("bridge"),
            Self::Passthrough => f.write_str("passthru"),
            Self::Source => f.write_str("source"),
            Self::Other(number) => f.write_str(Buffer::new().format(*number)),
        }
    }
}

impl FromStr for MacVlanMode {
    type Err = DecodeError;

    ghost from_str_gives = { λ s r. result_ok r ≡ mac_vlan_mode_named s };

    fn from_str(s: &str) -> Result<Self, Self::Err>
        ensures named { result_ok result ≡ mac_vlan_mode_named s.now }
        ensures ok { IfOk result (λ m. mac_vlan_mode_text m ≡ s.now) }
        ensures err { IfErr result (λ e. is_memory e ≡ false) }
    {
        match s {
            "private" => Ok(Self::Private),
            "vepa" => Ok(Self::Vepa),
            "bridge" => Ok(Self::Bridge),
            "passthru" => Ok(Self::Passthrough),
            "source" => Ok(Self::Source),
            _ => Err(DecodeError::from("unknown MAC VLAN mode")),
        }
    }
}

/// The mode of a MACVTAP device, with the numbers of MACVLAN.
pub type MacVtapMode = MacVlanMode;

/// The flags of a MACVTAP device: those of MACVLAN.
pub type MacVtapFlags = MacVlanFlags;

/// How a MACVLAN device treats its parent, `MACVLAN_FLAG_*` of `linux/if_link.h`. Encoded in 2
/// bytes, in native byte order; all bits are kept.
#[derive(Debug, Clone, Copy, PartialEq, Eq)]
pub struct MacVlanFlags(u16);

impl MacVlanFlags {
    /// The parent isn't put into promiscuous mode: `MACVLAN_FLAG_NOPROMISC`.
    pub const NoPromisc: Self = Self(1);
    /// In source mode, a frame that matches a source address isn't also delivered by its
    /// destination: `MACVLAN_FLAG_NODST`.
    pub const NoDst: Self = Self(2);

    const FLAGS: [Flag<MacVlanFlags>; 2] = [
        Flag {
            name: "NoPromisc",
            value: Self::NoPromisc,
        },
        Flag {
            name: "NoDst",
            value: Self::NoDst,
        },
    ];
}

impl Flags for MacVlanFlags {
    type Bits = u16;

    ghost exact = { ⊤ };

    ghost table = { mac_vlan_flags_table };

    ghost set_of = { mac_vlan_flags_bits };

    fn flags<'a>() -> &'a [Flag<MacVlanFlags>] {
        &MacVlanFlags::FLAGS
    }

    fn bits(&self) -> u16 {
        self.0
    }

    fn from_bits_retain(bits: u16) -> MacVlanFlags {
        MacVlanFlags(bits)
    }
}

/// The operation on the list of source addresses of a MACVLAN device, `MACVLAN_MACADDR_*` of
/// `linux/if_link.h`. Encoded in 4 bytes, in native byte order.
#[derive(Debug, PartialEq, Eq, Clone, Copy)]
pub enum MacVlanMacAddressMode {
    /// One address is added: `MACVLAN_MACADDR_ADD`, 0.
    Add,
    /// One address is removed: `MACVLAN_MACADDR_DEL`, 1.
    Del,
    /// All addresses are removed: `MACVLAN_MACADDR_FLUSH`, 2.
    Flush,
    /// The list is replaced: `MACVLAN_MACADDR_SET`, 3.
    Set,
    /// Any other number.
    Other(u32),
}

impl From<u32> for MacVlanMacAddressMode {
    ghost from_gives = { λ n m. m ≡ mac_vlan_mac_address_mode_of n };

    fn from(number: u32) -> Self
        ensures named { result ≡ mac_vlan_mac_address_mode_of number }
        ensures keeps_the_number { mac_vlan_mac_address_mode_number result ≡ number }
    {
        match number {
            0 => Self::Add,
            1 => Self::Del,
            2 => Self::Flush,
            3 => Self::Set,
            _ => Self::Other(number),
        }
    }
}

impl From<MacVlanMacAddressMode> for u32 {
    ghost from_gives = { λ m n. n ≡ mac_vlan_mac_address_mode_number m };

    fn from(value: MacVlanMacAddressMode) -> Self {
        match value {
            MacVlanMacAddressMode::Add => 0,
            MacVlanMacAddressMode::Del => 1,
            MacVlanMacAddressMode::Flush => 2,
            MacVlanMacAddressMode::Set => 3,
            MacVlanMacAddressMode::Other(number) => number,
        }
    }
}

/// The operation on the list of source addresses of a MACVTAP device.
pub type MacVtapMacAddressMode = MacVlanMacAddressMode;
