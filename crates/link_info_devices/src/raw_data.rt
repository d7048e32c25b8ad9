//! Data of kinds of links and of ports whose attributes aren't typed: each attribute is kept as it
//! is, with all 16 bits of its kind.

ghost use Rattle.std.specs.Prelude.{⊤, refl};
ghost use Rattle.link_info_grammar.specs.Families.{untyped};
ghost use Rattle.link_info_devices.specs.RawData.{raw_entry};

use netlink_packet_core::{DecodeError, DefaultNla, Family, Field, FieldNla, Nla};
use std::alloc::Global;

/// An attribute that is kept as it is, of one of the families below.
#[derive(Debug, PartialEq, Eq, Drop)]
pub enum RawData<const FAMILY: u16> {
    /// Any kind, kept as it is.
    Other(DefaultNla),
}

impl<const FAMILY: u16> FieldNla for RawData<FAMILY> {
    ghost field_entry = { raw_entry };

    fn field(&self) -> (u16, Field<'_>) {
        let Self::Other(nla) = self;
        (nla.kind(), Field::Bytes(nla.value()))
    }
}

impl<const FAMILY: u16> Family for RawData<FAMILY> {
    ghost rows = { untyped };

    ghost is_row_variant = { λ _. ⊤ };

    fn read_row(_alloc: Global, _kind: u16, _payload: &[u8]) -> Result<Option<Self>, DecodeError> {
        Ok(None)
    }

    fn other(nla: DefaultNla) -> Self {
        Self::Other(nla)
    }

    ghost plain = { refl };
}

/// An attribute of the data of `bond` (if_link.h, IFLA_BOND_*).
pub type InfoBond = RawData<0>;

/// An attribute of the data of `bridge` (if_link.h, IFLA_BR_*).
pub type InfoBridge = RawData<1>;

/// An attribute of the data of `can` (can/netlink.h, IFLA_CAN_*).
pub type InfoCan = RawData<2>;

/// An attribute of the data of `dsa` (if_link.h, IFLA_DSA_*).
pub type InfoDsa = RawData<3>;

/// An attribute of the data of `hsr` (if_link.h, IFLA_HSR_*).
pub type InfoHsr = RawData<4>;

/// An attribute of the data of `tun` (if_link.h, IFLA_TUN_*).
pub type InfoTun = RawData<5>;

/// An attribute of the data of `vlan` (if_link.h, IFLA_VLAN_*).
pub type InfoVlan = RawData<6>;

/// An attribute of the data of `wireguard`, whose kinds the kernel doesn't name.
pub type InfoWireguard = RawData<7>;

/// An attribute of the data of a port of `bond` (if_link.h, IFLA_BOND_SLAVE_*).
pub type InfoBondPort = RawData<8>;

/// An attribute of the data of a port of `bridge` (if_link.h, IFLA_BRPORT_*).
pub type InfoBridgePort = RawData<9>;

/// An attribute of the data of a port of `team`, whose kinds the kernel doesn't name.
pub type InfoTeamPort = RawData<10>;
