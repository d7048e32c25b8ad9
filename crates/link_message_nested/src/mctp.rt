//! The management component transport protocol (MCTP) on a link (if_link.h, IFLA_MCTP_*). Numbers
//! are little-endian.

ghost use Rattle.std.specs.Prelude.{refl};
ghost use Rattle.link_message_grammar.specs.NestedTables.{mctp};
ghost use Rattle.link_message_nested.specs.Mctp.{af_spec_mctp_entry, af_spec_mctp_names_row};

use attribute_tables::typed;
use link_message_types::MctpPhysBinding;
use netlink_packet_core::{
    DecodeError, DefaultNla, Family, Field, FieldNla, Nla, parse_u8, parse_u32,
};
use std::alloc::Global;

const IFLA_MCTP_NET: u16 = 1;

const IFLA_MCTP_PHYS_BINDING: u16 = 2;

/// An attribute of MCTP on a link.
#[derive(Debug, PartialEq, Eq, Drop)]
pub enum AfSpecMctp {
    /// `IFLA_MCTP_NET`: the network id; 4 bytes.
    Net(u32),
    /// `IFLA_MCTP_PHYS_BINDING`: the physical binding; 1 byte.
    PhysBinding(MctpPhysBinding),
    /// Any other kind, kept unchanged.
    Other(DefaultNla),
}

impl FieldNla for AfSpecMctp {
    ghost field_entry = { af_spec_mctp_entry };

    fn field(&self) -> (u16, Field<'_>) {
        match self {
            Self::Net(number) => (IFLA_MCTP_NET, Field::U32(*number)),
            Self::PhysBinding(binding) => (IFLA_MCTP_PHYS_BINDING, Field::U8(u8::from(binding))),
            Self::Other(nla) => (nla.kind(), Field::Bytes(nla.value())),
        }
    }
}

impl Family for AfSpecMctp {
    ghost rows = { mctp };

    ghost is_row_variant = { af_spec_mctp_names_row };

    fn read_row(_alloc: Global, kind: u16, payload: &[u8]) -> Result<Option<Self>, DecodeError> {
        match kind {
            IFLA_MCTP_NET => typed!(Net, parse_u32(payload)),
            IFLA_MCTP_PHYS_BINDING => typed!(PhysBinding, parse_u8(payload), MctpPhysBinding),
            _ => Ok(None),
        }
    }

    fn other(nla: DefaultNla) -> Self {
        Self::Other(nla)
    }

    ghost plain = { refl };
}
