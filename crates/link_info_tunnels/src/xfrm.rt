//! Data of the kind `xfrm` (if_link.h, IFLA_XFRM_*). Numbers are little-endian.

ghost use Rattle.std.specs.Prelude.{refl};
ghost use Rattle.link_info_grammar.specs.Families.{xfrm};
ghost use Rattle.link_info_tunnels.specs.Xfrm.{xfrm_entry, xfrm_is_row_variant};

use attribute_tables::typed;
use netlink_packet_core::{DecodeError, DefaultNla, Family, Field, FieldNla, Nla, parse_u32};
use std::alloc::Global;

const IFLA_XFRM_LINK: u16 = 1;

const IFLA_XFRM_IF_ID: u16 = 2;

/// An attribute of the data of `xfrm`.
#[derive(Debug, PartialEq, Eq, Drop)]
pub enum InfoXfrm {
    /// `IFLA_XFRM_LINK`: the index of the underlying link; 4 bytes.
    Link(u32),
    /// `IFLA_XFRM_IF_ID`: the identifier by which policies refer to the interface; 4 bytes.
    IfId(u32),
    /// Any other kind, kept as it is.
    Other(DefaultNla),
}

impl FieldNla for InfoXfrm {
    ghost field_entry = { xfrm_entry };

    fn field(&self) -> (u16, Field<'_>) {
        match self {
            Self::Link(index) => (IFLA_XFRM_LINK, Field::U32(*index)),
            Self::IfId(number) => (IFLA_XFRM_IF_ID, Field::U32(*number)),
            Self::Other(nla) => (nla.kind(), Field::Bytes(nla.value())),
        }
    }
}

impl Family for InfoXfrm {
    ghost rows = { xfrm };

    ghost is_row_variant = { xfrm_is_row_variant };

    fn read_row(_alloc: Global, kind: u16, payload: &[u8]) -> Result<Option<Self>, DecodeError> {
        match kind {
            IFLA_XFRM_LINK => typed!(Link, parse_u32(payload)),
            IFLA_XFRM_IF_ID => typed!(IfId, parse_u32(payload)),
            _ => Ok(None),
        }
    }

    fn other(nla: DefaultNla) -> Self {
        Self::Other(nla)
    }

    ghost plain = { refl };
}
