//! Numbers, texts and flags of IPVLAN and IPVTAP.

ghost use Rattle.std.specs.Prelude.{◌≡◌, Some, false, IfOk, IfErr, ⊤};
ghost use Rattle.std.specs.Result.{result_ok};
ghost use Rattle.netlink_packet_core.specs.Errors.{is_memory};
ghost use Rattle.link_info_types.specs.IpVlanTypes.{ip_vlan_mode_number, ip_vlan_mode_of, ip_vlan_mode_text};
ghost use Rattle.link_info_types.specs.IpVlanTypes.{ip_vlan_mode_named, ip_vlan_flags_bits, ip_vlan_flags_table};

use bitflags::{Flag, Flags};
use itoa::Buffer;
use netlink_packet_core::DecodeError;
use std::fmt;
use std::str::FromStr;

/// At which layer an IPVLAN device switches packets, `IPVLAN_MODE_*` of `linux/if_link.h`. Encoded
/// in 2 bytes, in native byte order.
#[derive(Debug, PartialEq, Eq, Clone, Copy)]
pub enum IpVlanMode {
    /// At layer 2: `IPVLAN_MODE_L2`, 0.
    L2,
    /// At layer 3: `IPVLAN_MODE_L3`, 1.
    L3,
    /// At layer 3 with the hooks of netfilter: `IPVLAN_MODE_L3S`, 2.
    L3S,
    /// Any other number.
    Other(u16),
}

impl From<u16> for IpVlanMode {
    ghost from_gives = { λ n m. m ≡ ip_vlan_mode_of n };

    fn from(number: u16) -> Self
        ensures named { result ≡ ip_vlan_mode_of number }
        ensures keeps_the_number { ip_vlan_mode_number result ≡ number }
    {
        match number {
            0 => Self::L2,
            1 => Self::L3,
            2 => Self::L3S,
            _ => Self::Other(number),
        }
    }
}

impl From<IpVlanMode> for u16 {
    ghost from_gives = { λ m n. n ≡ ip_vlan_mode_number m };

    fn from(value: IpVlanMode) -> Self {
        match value {
            IpVlanMode::L2 => 0,
            IpVlanMode::L3 => 1,
            IpVlanMode::L3S => 2,
            IpVlanMode::Other(number) => number,
        }
    }
}

impl fmt::Display for IpVlanMode {
    ghost output = { λ m. Some (ip_vlan_mode_text m) };

    ghost styled_output = { λ m _. Some (ip_vlan_mode_text m) };

    fn fmt<W: fmt::Write>(&self, f: &mut fmt::Formatter<W>) -> fmt::Result {
        match self {
            Self::L2 => f.write_str("l2"),
            Self::L3 => f.write_str("l3"),
            Self::L3S => f.write_str("l3s"),
            Self::Other(number) => f.write_str(Buffer::new().format(*number)),
        }
    }
}

impl FromStr for IpVlanMode {
    type Err = DecodeError;

    ghost from_str_gives = { λ s r. result_ok r ≡ ip_vlan_mode_named s };

    fn from_str(s: &str) -> Result<Self, Self::Err>
        ensures named { result_ok result ≡ ip_vlan_mode_named s.now }
        ensures ok { IfOk result (λ m. ip_vlan_mode_text m ≡ s.now) }
        ensures err { IfErr result (λ e. is_memory e ≡ false) }
    {
        match s {
            "l2" => Ok(Self::L2),
            "l3" => Ok(Self::L3),
            "l3s" => Ok(Self::L3S),
            _ => Err(DecodeError::from("unknown IP VLAN mode")),
        }
    }
}

/// The mode of an IPVTAP device, with the numbers of IPVLAN.
pub type IpVtapMode = IpVlanMode;

/// How an IPVLAN device treats its neighbours, `IPVLAN_F_*` of `linux/if_link.h`. Encoded in 2
/// bytes, in native byte order; all bits are kept.
#[derive(Debug, Clone, Copy, PartialEq, Eq)]
pub struct IpVlanFlags(u16);

impl IpVlanFlags {
    /// The devices of one parent are isolated from one another: `IPVLAN_F_PRIVATE`.
    pub const Private: Self = Self(0x01);
    /// The devices of one parent reach one another only through an external switch (VEPA):
    /// `IPVLAN_F_VEPA`.
    pub const Vepa: Self = Self(0x02);

    const FLAGS: [Flag<IpVlanFlags>; 2] = [
        Flag {
            name: "Private",
            value: Self::Private,
        },
        Flag {
            name: "Vepa",
            value: Self::Vepa,
        },
    ];
}

impl Flags for IpVlanFlags {
    type Bits = u16;

    ghost exact = { ⊤ };

    ghost table = { ip_vlan_flags_table };

    ghost set_of = { ip_vlan_flags_bits };

    fn flags<'a>() -> &'a [Flag<IpVlanFlags>] {
        &IpVlanFlags::FLAGS
    }

    fn bits(&self) -> u16 {
        self.0
    }

    fn from_bits_retain(bits: u16) -> IpVlanFlags {
        IpVlanFlags(bits)
    }
}

impl Default for IpVlanFlags {
    ghost is_default = { λ f. ip_vlan_flags_bits f ≡ 0 };

    fn default() -> Self {
        Self::empty()
    }
}

/// The flags of an IPVTAP device: those of IPVLAN.
pub type IpVtapFlags = IpVlanFlags;
