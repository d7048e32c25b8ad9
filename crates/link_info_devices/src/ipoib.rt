//! Data of the kind `ipoib` (if_link.h, IFLA_IPOIB_*). Numbers are little-endian.

ghost use Rattle.std.specs.Prelude.{refl};
ghost use Rattle.link_info_grammar.specs.Families.{ipoib};
ghost use Rattle.link_info_devices.specs.Ipoib.{ipoib_entry, ipoib_is_row_variant};

use attribute_tables::typed;
use link_info_types::IpoibMode;
use netlink_packet_core::{DecodeError, DefaultNla, Family, Field, FieldNla, Nla, parse_u16};
use std::alloc::Global;

const IFLA_IPOIB_PKEY: u16 = 1;

const IFLA_IPOIB_MODE: u16 = 2;

const IFLA_IPOIB_UMCAST: u16 = 3;

/// An attribute of the data of `ipoib`.
#[derive(Debug, PartialEq, Eq, Drop)]
pub enum InfoIpoib {
    /// `IFLA_IPOIB_PKEY`: the partition key; 2 bytes.
    Pkey(u16),
    /// `IFLA_IPOIB_MODE`: the transport mode; 2 bytes.
    Mode(IpoibMode),
    /// `IFLA_IPOIB_UMCAST`: whether multicast groups of user space are accepted; 2 bytes.
    UmCast(u16),
    /// Any other kind, kept as it is.
    Other(DefaultNla),
}

impl FieldNla for InfoIpoib {
    ghost field_entry = { ipoib_entry };

    fn field(&self) -> (u16, Field<'_>) {
        match self {
            Self::Pkey(key) => (IFLA_IPOIB_PKEY, Field::U16(*key)),
            Self::Mode(mode) => (IFLA_IPOIB_MODE, Field::U16(u16::from(*mode))),
            Self::UmCast(number) => (IFLA_IPOIB_UMCAST, Field::U16(*number)),
            Self::Other(nla) => (nla.kind(), Field::Bytes(nla.value())),
        }
    }
}

impl Family for InfoIpoib {
    ghost rows = { ipoib };

    ghost is_row_variant = { ipoib_is_row_variant };

    fn read_row(_alloc: Global, kind: u16, payload: &[u8]) -> Result<Option<Self>, DecodeError> {
        match kind {
            IFLA_IPOIB_PKEY => typed!(Pkey, parse_u16(payload)),
            IFLA_IPOIB_MODE => typed!(Mode, parse_u16(payload), IpoibMode),
            IFLA_IPOIB_UMCAST => typed!(UmCast, parse_u16(payload)),
            _ => Ok(None),
        }
    }

    fn other(nla: DefaultNla) -> Self {
        Self::Other(nla)
    }

    ghost plain = { refl };
}
