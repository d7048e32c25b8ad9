//! Data of the kind `wwan` (wwan.h, IFLA_WWAN_*). Numbers are little-endian.

ghost use Rattle.std.specs.Prelude.{refl};
ghost use Rattle.link_info_grammar.specs.Families.{wwan};
ghost use Rattle.link_info_devices.specs.Wwan.{wwan_entry, wwan_is_row_variant};

use attribute_tables::typed;
use netlink_packet_core::{DecodeError, DefaultNla, Family, Field, FieldNla, Nla, parse_u32};
use std::alloc::Global;

const IFLA_WWAN_LINK_ID: u16 = 1;

/// An attribute of the data of `wwan`.
#[derive(Debug, PartialEq, Eq, Drop)]
pub enum InfoWwan {
    /// `IFLA_WWAN_LINK_ID`: the identifier of the link at its modem; 4 bytes.
    LinkId(u32),
    /// Any other kind, kept as it is.
    Other(DefaultNla),
}

impl FieldNla for InfoWwan {
    ghost field_entry = { wwan_entry };

    fn field(&self) -> (u16, Field<'_>) {
        match self {
            Self::LinkId(number) => (IFLA_WWAN_LINK_ID, Field::U32(*number)),
            Self::Other(nla) => (nla.kind(), Field::Bytes(nla.value())),
        }
    }
}

impl Family for InfoWwan {
    ghost rows = { wwan };

    ghost is_row_variant = { wwan_is_row_variant };

    fn read_row(_alloc: Global, kind: u16, payload: &[u8]) -> Result<Option<Self>, DecodeError> {
        match kind {
            IFLA_WWAN_LINK_ID => typed!(LinkId, parse_u32(payload)),
            _ => Ok(None),
        }
    }

    fn other(nla: DefaultNla) -> Self {
        Self::Other(nla)
    }

    ghost plain = { refl };
}
