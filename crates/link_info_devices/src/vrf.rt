//! Data of the kind `vrf`, and of ports of that kind (if_link.h, IFLA_VRF_* and IFLA_VRF_PORT_*).
//! Numbers are little-endian.

ghost use Rattle.std.specs.Prelude.{refl};
ghost use Rattle.link_info_grammar.specs.Families.{vrf};
ghost use Rattle.link_info_devices.specs.Vrf.{vrf_entry, vrf_is_row_variant};

use attribute_tables::typed;
use netlink_packet_core::{DecodeError, DefaultNla, Family, Field, FieldNla, Nla, parse_u32};
use std::alloc::Global;

const IFLA_VRF_TABLE: u16 = 1;

/// An attribute of the data of `vrf`, as a kind or as a port kind.
#[derive(Debug, PartialEq, Eq, Drop)]
pub enum InfoVrf {
    /// `IFLA_VRF_TABLE`: the identifier of the routing table; 4 bytes.
    TableId(u32),
    /// Any other kind, kept as it is.
    Other(DefaultNla),
}

impl FieldNla for InfoVrf {
    ghost field_entry = { vrf_entry };

    fn field(&self) -> (u16, Field<'_>) {
        match self {
            Self::TableId(number) => (IFLA_VRF_TABLE, Field::U32(*number)),
            Self::Other(nla) => (nla.kind(), Field::Bytes(nla.value())),
        }
    }
}

impl Family for InfoVrf {
    ghost rows = { vrf };

    ghost is_row_variant = { vrf_is_row_variant };

    fn read_row(_alloc: Global, kind: u16, payload: &[u8]) -> Result<Option<Self>, DecodeError> {
        match kind {
            IFLA_VRF_TABLE => typed!(TableId, parse_u32(payload)),
            _ => Ok(None),
        }
    }

    fn other(nla: DefaultNla) -> Self {
        Self::Other(nla)
    }

    ghost plain = { refl };
}
