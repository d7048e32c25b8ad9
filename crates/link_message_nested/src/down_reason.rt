//! The reasons why a protocol keeps a link down (if_link.h, IFLA_PROTO_DOWN_REASON_*). Numbers are
//! little-endian.

ghost use Rattle.std.specs.Prelude.{refl};
ghost use Rattle.link_message_grammar.specs.NestedTables.{protocol_down_reason};
ghost use Rattle.link_message_nested.specs.DownReasons.{link_protocol_down_reason_entry, link_protocol_down_reason_names_row};

use attribute_tables::typed;
use netlink_packet_core::{DecodeError, DefaultNla, Family, Field, FieldNla, Nla, parse_u32};
use std::alloc::Global;

const IFLA_PROTO_DOWN_REASON_MASK: u16 = 1;

const IFLA_PROTO_DOWN_REASON_VALUE: u16 = 2;

/// An attribute of the reasons why a protocol keeps a link down.
#[derive(Debug, PartialEq, Eq, Drop)]
pub enum LinkProtocolDownReason {
    /// `IFLA_PROTO_DOWN_REASON_MASK`: the mask of the reasons that are changed; 4 bytes.
    Mask(u32),
    /// `IFLA_PROTO_DOWN_REASON_VALUE`: the reasons; 4 bytes.
    Value(u32),
    /// Any other kind, kept unchanged.
    Other(DefaultNla),
}

impl FieldNla for LinkProtocolDownReason {
    ghost field_entry = { link_protocol_down_reason_entry };

    fn field(&self) -> (u16, Field<'_>) {
        match self {
            Self::Mask(number) => (IFLA_PROTO_DOWN_REASON_MASK, Field::U32(*number)),
            Self::Value(number) => (IFLA_PROTO_DOWN_REASON_VALUE, Field::U32(*number)),
            Self::Other(nla) => (nla.kind(), Field::Bytes(nla.value())),
        }
    }
}

impl Family for LinkProtocolDownReason {
    ghost rows = { protocol_down_reason };

    ghost is_row_variant = { link_protocol_down_reason_names_row };

    fn read_row(_alloc: Global, kind: u16, payload: &[u8]) -> Result<Option<Self>, DecodeError> {
        match kind {
            IFLA_PROTO_DOWN_REASON_MASK => typed!(Mask, parse_u32(payload)),
            IFLA_PROTO_DOWN_REASON_VALUE => typed!(Value, parse_u32(payload)),
            _ => Ok(None),
        }
    }

    fn other(nla: DefaultNla) -> Self {
        Self::Other(nla)
    }

    ghost plain = { refl };
}
