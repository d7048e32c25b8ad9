//! Data of the kind `batadv` (batman_adv.h, IFLA_BATADV_*).

ghost use Rattle.std.specs.Prelude.{refl};
ghost use Rattle.link_info_grammar.specs.Families.{batadv};
ghost use Rattle.link_info_devices.specs.Batadv.{batadv_entry, batadv_is_row_variant};

use attribute_tables::typed;
use netlink_packet_core::{DecodeError, DefaultNla, Family, Field, FieldNla, Nla, parse_string};
use std::alloc::Global;

const IFLA_BATADV_ALGO_NAME: u16 = 1;

/// An attribute of the data of `batadv`.
#[derive(Debug, PartialEq, Eq, Drop)]
pub enum InfoBatAdv {
    /// `IFLA_BATADV_ALGO_NAME`: the name of the routing algorithm; UTF-8 and one NUL, which a
    /// reader doesn't require.
    AlgoName(String),
    /// Any other kind, kept as it is.
    Other(DefaultNla),
}

impl FieldNla for InfoBatAdv {
    ghost field_entry = { batadv_entry };

    fn field(&self) -> (u16, Field<'_>) {
        match self {
            Self::AlgoName(name) => (IFLA_BATADV_ALGO_NAME, Field::Text(name.as_str())),
            Self::Other(nla) => (nla.kind(), Field::Bytes(nla.value())),
        }
    }
}

impl Family for InfoBatAdv {
    ghost rows = { batadv };

    ghost is_row_variant = { batadv_is_row_variant };

    fn read_row(alloc: Global, kind: u16, payload: &[u8]) -> Result<Option<Self>, DecodeError> {
        match kind {
            IFLA_BATADV_ALGO_NAME => typed!(AlgoName, parse_string(alloc, payload)),
            _ => Ok(None),
        }
    }

    fn other(nla: DefaultNla) -> Self {
        Self::Other(nla)
    }

    ghost plain = { refl };
}
