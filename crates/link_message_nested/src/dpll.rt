//! Pins of digital phase-locked loops (dpll.h, DPLL_A_PIN_*). Numbers are little-endian.

ghost use Rattle.std.specs.Prelude.{refl};
ghost use Rattle.link_message_grammar.specs.NestedTables.{dpll_pin};
ghost use Rattle.link_message_nested.specs.Dpll.{dpll_pin_entry, dpll_pin_names_row};

use attribute_tables::typed;
use netlink_packet_core::{DecodeError, DefaultNla, Family, Field, FieldNla, Nla, parse_u32};
use std::alloc::Global;

const DPLL_A_PIN_ID: u16 = 1;

/// An attribute of the DPLL pin of a link.
#[derive(Debug, PartialEq, Eq, Drop)]
pub enum DpllPin {
    /// `DPLL_A_PIN_ID`: the id of the pin; 4 bytes.
    PinId(u32),
    /// Any other kind, kept unchanged.
    Other(DefaultNla),
}

impl FieldNla for DpllPin {
    ghost field_entry = { dpll_pin_entry };

    fn field(&self) -> (u16, Field<'_>) {
        match self {
            Self::PinId(number) => (DPLL_A_PIN_ID, Field::U32(*number)),
            Self::Other(nla) => (nla.kind(), Field::Bytes(nla.value())),
        }
    }
}

impl Family for DpllPin {
    ghost rows = { dpll_pin };

    ghost is_row_variant = { dpll_pin_names_row };

    fn read_row(_alloc: Global, kind: u16, payload: &[u8]) -> Result<Option<Self>, DecodeError> {
        match kind {
            DPLL_A_PIN_ID => typed!(PinId, parse_u32(payload)),
            _ => Ok(None),
        }
    }

    fn other(nla: DefaultNla) -> Self {
        Self::Other(nla)
    }

    ghost plain = { refl };
}
