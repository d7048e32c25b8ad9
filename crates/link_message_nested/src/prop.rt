//! Alternative names of a link (if_link.h, IFLA_PROP_LIST).

ghost use Rattle.std.specs.Prelude.{refl};
ghost use Rattle.link_message_grammar.specs.NestedTables.{props};
ghost use Rattle.link_message_nested.specs.Props.{prop_entry, prop_names_row};

use attribute_tables::typed;
use netlink_packet_core::{DecodeError, DefaultNla, Family, Field, FieldNla, Nla, parse_string};
use std::alloc::Global;

const IFLA_ALT_IFNAME: u16 = 53;

/// An attribute of a list of properties.
#[derive(Debug, PartialEq, Eq, Drop)]
pub enum Prop {
    /// `IFLA_ALT_IFNAME`: an alternative name of the link; UTF-8 and one NUL, which may be missing
    /// when reading.
    AltIfName(String),
    /// Any other kind, kept unchanged.
    Other(DefaultNla),
}

impl FieldNla for Prop {
    ghost field_entry = { prop_entry };

    fn field(&self) -> (u16, Field<'_>) {
        match self {
            Self::AltIfName(name) => (IFLA_ALT_IFNAME, Field::Text(name.as_str())),
            Self::Other(nla) => (nla.kind(), Field::Bytes(nla.value())),
        }
    }
}

impl Family for Prop {
    ghost rows = { props };

    ghost is_row_variant = { prop_names_row };

    fn read_row(alloc: Global, kind: u16, payload: &[u8]) -> Result<Option<Self>, DecodeError> {
        match kind {
            IFLA_ALT_IFNAME => typed!(AltIfName, parse_string(alloc, payload)),
            _ => Ok(None),
        }
    }

    fn other(nla: DefaultNla) -> Self {
        Self::Other(nla)
    }

    ghost plain = { refl };
}
