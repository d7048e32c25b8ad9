//! Data of the kinds `veth` and `vxcan` (linux/veth.h, VETH_INFO_*, and linux/can/vxcan.h,
//! VXCAN_INFO_*). They hold one attribute: any bytes after it are dropped, and empty data are
//! rejected.

ghost use Rattle.std.specs.Prelude.{refl};
ghost use Rattle.link_info_grammar.specs.Families.{pair};
ghost use Rattle.link_info_devices.specs.Veth.{pair_entry, pair_is_row_variant};

use attribute_tables::{parse_bytes, typed};
use netlink_packet_core::{DecodeError, DefaultNla, Family, Field, FieldNla, Nla};
use std::alloc::Global;

const VETH_INFO_PEER: u16 = 1;

/// The attribute of the data of `veth` or of `vxcan`; `KIND` is the number of the kind, 0 or 1.
#[derive(Debug, PartialEq, Eq, Drop)]
pub enum PairData<const KIND: u16> {
    /// `VETH_INFO_PEER` or `VXCAN_INFO_PEER`: the other end, a link message with its header of 16
    /// bytes. The bytes are kept as they are; `parse_pair_with` keeps the canonical bytes under its
    /// rule.
    Peer(Vec<u8>),
    /// Any other kind, kept as it is.
    Other(DefaultNla),
}

/// The attribute of the data of `veth`.
pub type InfoVeth = PairData<0>;

/// The attribute of the data of `vxcan`.
pub type InfoVxcan = PairData<1>;

impl<const KIND: u16> FieldNla for PairData<KIND> {
    ghost field_entry = { pair_entry };

    fn field(&self) -> (u16, Field<'_>) {
        match self {
            Self::Peer(bytes) => (VETH_INFO_PEER, Field::Bytes(bytes)),
            Self::Other(nla) => (nla.kind(), Field::Bytes(nla.value())),
        }
    }
}

impl<const KIND: u16> Family for PairData<KIND> {
    ghost rows = { pair };

    ghost is_row_variant = { pair_is_row_variant };

    fn read_row(alloc: Global, kind: u16, payload: &[u8]) -> Result<Option<Self>, DecodeError> {
        match kind {
            VETH_INFO_PEER => typed!(Peer, parse_bytes(alloc, payload)),
            _ => Ok(None),
        }
    }

    fn other(nla: DefaultNla) -> Self {
        Self::Other(nla)
    }

    ghost plain = { refl };
}
