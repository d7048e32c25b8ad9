//! Data of the kind `bareudp` (if_link.h, IFLA_BAREUDP_*). Numbers are little-endian unless noted.

ghost use Rattle.std.specs.Prelude.{refl};
ghost use Rattle.link_info_grammar.specs.Families.{bareudp};
ghost use Rattle.link_info_tunnels.specs.Bareudp.{bareudp_entry, bareudp_is_row_variant};

use attribute_tables::typed;
use netlink_packet_core::{
    DecodeError, DefaultNla, EthernetProtocol, Family, Field, FieldNla, Nla, parse_u16,
    parse_u16_be,
};
use std::alloc::Global;

const IFLA_BAREUDP_PORT: u16 = 1;

const IFLA_BAREUDP_ETHERTYPE: u16 = 2;

const IFLA_BAREUDP_SRCPORT_MIN: u16 = 3;

const IFLA_BAREUDP_MULTIPROTO_MODE: u16 = 4;

/// An attribute of the data of `bareudp`.
#[derive(Debug, PartialEq, Eq, Drop)]
pub enum InfoBareUdp {
    /// `IFLA_BAREUDP_PORT`: the destination UDP port; 2 bytes, big-endian.
    Port(u16),
    /// `IFLA_BAREUDP_ETHERTYPE`: the encapsulated protocol; 2 bytes, big-endian.
    Ethertype(EthernetProtocol),
    /// `IFLA_BAREUDP_SRCPORT_MIN`: the lowest source UDP port; 2 bytes.
    SrcPortMin(u16),
    /// `IFLA_BAREUDP_MULTIPROTO_MODE`: protocols akin to the encapsulated one are carried too. A
    /// flag set by presence: any payload is accepted, and none is written.
    MultiprotoMode,
    /// Any other kind, kept as it is.
    Other(DefaultNla),
}

impl FieldNla for InfoBareUdp {
    ghost field_entry = { bareudp_entry };

    fn field(&self) -> (u16, Field<'_>) {
        match self {
            Self::Port(port) => (IFLA_BAREUDP_PORT, Field::U16Be(*port)),
            Self::Ethertype(protocol) => (
                IFLA_BAREUDP_ETHERTYPE,
                Field::U16Be(u16::from(*protocol)),
            ),
            Self::SrcPortMin(port) => (IFLA_BAREUDP_SRCPORT_MIN, Field::U16(*port)),
            Self::MultiprotoMode => (IFLA_BAREUDP_MULTIPROTO_MODE, Field::Empty),
            Self::Other(nla) => (nla.kind(), Field::Bytes(nla.value())),
        }
    }
}

impl Family for InfoBareUdp {
    ghost rows = { bareudp };

    ghost is_row_variant = { bareudp_is_row_variant };

    fn read_row(_alloc: Global, kind: u16, payload: &[u8]) -> Result<Option<Self>, DecodeError> {
        match kind {
            IFLA_BAREUDP_PORT => typed!(Port, parse_u16_be(payload)),
            IFLA_BAREUDP_ETHERTYPE => typed!(Ethertype, parse_u16_be(payload), EthernetProtocol),
            IFLA_BAREUDP_SRCPORT_MIN => typed!(SrcPortMin, parse_u16(payload)),
            IFLA_BAREUDP_MULTIPROTO_MODE => Ok(Some(Self::MultiprotoMode)),
            _ => Ok(None),
        }
    }

    fn other(nla: DefaultNla) -> Self {
        Self::Other(nla)
    }

    ghost plain = { refl };
}
