//! Protocol information of IPv6 (if_link.h, IFLA_INET6_*), each attribute kept unchanged.

ghost use Rattle.std.specs.Prelude.{⊤, refl};
ghost use Rattle.attribute_tables_grammar.specs.Tables.{Table.end};
ghost use Rattle.link_message_nested.specs.ProtocolInfos.{link_proto_info_inet_6_entry};

use netlink_packet_core::{DecodeError, DefaultNla, Family, Field, FieldNla, Nla};
use std::alloc::Global;

/// An attribute of the protocol information of IPv6.
#[derive(Debug, PartialEq, Eq, Drop)]
pub enum LinkProtoInfoInet6 {
    /// Any kind, kept unchanged.
    Other(DefaultNla),
}

impl FieldNla for LinkProtoInfoInet6 {
    ghost field_entry = { link_proto_info_inet_6_entry };

    fn field(&self) -> (u16, Field<'_>) {
        let Self::Other(nla) = self;
        (nla.kind(), Field::Bytes(nla.value()))
    }
}

impl Family for LinkProtoInfoInet6 {
    ghost rows = { end };

    ghost is_row_variant = { λ _. ⊤ };

    fn read_row(_alloc: Global, _kind: u16, _payload: &[u8]) -> Result<Option<Self>, DecodeError> {
        Ok(None)
    }

    fn other(nla: DefaultNla) -> Self {
        Self::Other(nla)
    }

    ghost plain = { refl };
}
