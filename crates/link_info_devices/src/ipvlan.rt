//! Data of the kinds `ipvlan` and `ipvtap` (if_link.h, IFLA_IPVLAN_*). Numbers are little-endian.

ghost use Rattle.std.specs.Prelude.{refl};
ghost use Rattle.link_info_grammar.specs.Families.{ipvlan};
ghost use Rattle.link_info_devices.specs.Ipvlan.{ipvlan_entry, ipvlan_is_row_variant};

use attribute_tables::typed;
use link_info_types::{Flags, IpVlanFlags, IpVlanMode};
use netlink_packet_core::{DecodeError, DefaultNla, Family, Field, FieldNla, Nla, parse_u16};
use std::alloc::Global;

const IFLA_IPVLAN_MODE: u16 = 1;

const IFLA_IPVLAN_FLAGS: u16 = 2;

/// An attribute of the data of `ipvlan` or of `ipvtap`; `KIND` is the number of the kind, 0 or 1.
#[derive(Debug, PartialEq, Eq, Drop)]
pub enum IpVlanData<const KIND: u16> {
    /// `IFLA_IPVLAN_MODE`: the layer at which packets are switched; 2 bytes.
    Mode(IpVlanMode),
    /// `IFLA_IPVLAN_FLAGS`: how devices of one parent reach one another; 2 bytes, of which every
    /// bit is kept.
    Flags(IpVlanFlags),
    /// Any other kind, kept as it is.
    Other(DefaultNla),
}

/// An attribute of the data of `ipvlan`.
pub type InfoIpVlan = IpVlanData<0>;

/// An attribute of the data of `ipvtap`.
pub type InfoIpVtap = IpVlanData<1>;

impl<const KIND: u16> FieldNla for IpVlanData<KIND> {
    ghost field_entry = { ipvlan_entry };

    fn field(&self) -> (u16, Field<'_>) {
        match self {
            Self::Mode(mode) => (IFLA_IPVLAN_MODE, Field::U16(u16::from(*mode))),
            Self::Flags(flags) => (IFLA_IPVLAN_FLAGS, Field::U16(flags.bits())),
            Self::Other(nla) => (nla.kind(), Field::Bytes(nla.value())),
        }
    }
}

impl<const KIND: u16> Family for IpVlanData<KIND> {
    ghost rows = { ipvlan };

    ghost is_row_variant = { ipvlan_is_row_variant };

    fn read_row(_alloc: Global, kind: u16, payload: &[u8]) -> Result<Option<Self>, DecodeError> {
        match kind {
            IFLA_IPVLAN_MODE => typed!(Mode, parse_u16(payload), IpVlanMode),
            IFLA_IPVLAN_FLAGS => typed!(Flags, parse_u16(payload), IpVlanFlags::from_bits_retain),
            _ => Ok(None),
        }
    }

    fn other(nla: DefaultNla) -> Self {
        Self::Other(nla)
    }

    ghost plain = { refl };
}
