//! Ports of devlink (devlink.h, DEVLINK_ATTR_*). Numbers are little-endian.

ghost use Rattle.std.specs.Prelude.{refl};
ghost use Rattle.link_message_grammar.specs.NestedTables.{devlink_port};
ghost use Rattle.link_message_nested.specs.Devlink.{devlink_port_entry, devlink_port_names_row};

use attribute_tables::typed;
use netlink_packet_core::{
    DecodeError, DefaultNla, Family, Field, FieldNla, Nla, parse_string, parse_u32,
};
use std::alloc::Global;

const DEVLINK_ATTR_BUS_NAME: u16 = 1;

const DEVLINK_ATTR_DEV_NAME: u16 = 2;

const DEVLINK_ATTR_PORT_INDEX: u16 = 3;

/// An attribute of the devlink port of a link.
#[derive(Debug, PartialEq, Eq, Drop)]
pub enum DevlinkPort {
    /// `DEVLINK_ATTR_BUS_NAME`: the name of the bus; UTF-8 and one NUL, which may be missing when
    /// reading.
    BusName(String),
    /// `DEVLINK_ATTR_DEV_NAME`: the name of the device on the bus; UTF-8 and one NUL, which may be
    /// missing when reading.
    DevName(String),
    /// `DEVLINK_ATTR_PORT_INDEX`: the index of the port; 4 bytes.
    PortIndex(u32),
    /// Any other kind, kept unchanged.
    Other(DefaultNla),
}

impl FieldNla for DevlinkPort {
    ghost field_entry = { devlink_port_entry };

    fn field(&self) -> (u16, Field<'_>) {
        match self {
            Self::BusName(name) => (DEVLINK_ATTR_BUS_NAME, Field::Text(name.as_str())),
            Self::DevName(name) => (DEVLINK_ATTR_DEV_NAME, Field::Text(name.as_str())),
            Self::PortIndex(number) => (DEVLINK_ATTR_PORT_INDEX, Field::U32(*number)),
            Self::Other(nla) => (nla.kind(), Field::Bytes(nla.value())),
        }
    }
}

impl Family for DevlinkPort {
    ghost rows = { devlink_port };

    ghost is_row_variant = { devlink_port_names_row };

    fn read_row(alloc: Global, kind: u16, payload: &[u8]) -> Result<Option<Self>, DecodeError> {
        match kind {
            DEVLINK_ATTR_BUS_NAME => typed!(BusName, parse_string(alloc, payload)),
            DEVLINK_ATTR_DEV_NAME => typed!(DevName, parse_string(alloc, payload)),
            DEVLINK_ATTR_PORT_INDEX => typed!(PortIndex, parse_u32(payload)),
            _ => Ok(None),
        }
    }

    fn other(nla: DefaultNla) -> Self {
        Self::Other(nla)
    }

    ghost plain = { refl };
}
