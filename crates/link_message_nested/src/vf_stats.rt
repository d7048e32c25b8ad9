//! Statistics of virtual functions (if_link.h, IFLA_VF_STATS_*). Numbers are little-endian.

ghost use Rattle.std.specs.Prelude.{refl, IfNone, IfSome, ◌≡◌};
ghost use Rattle.netlink_packet_core.specs.Families.{attribute};
ghost use Rattle.netlink_packet_core.specs.Numbers.{le8};
ghost use Rattle.attribute_tables_grammar.specs.LookUps.{HasNoRow};
ghost use Rattle.link_message_grammar.specs.NestedTables.{vf_stats};
ghost use Rattle.link_message_nested.specs.VfStatistics.{vf_stats_entry, vf_stats_names_row};

use attribute_tables::typed;
use netlink_packet_core::{DecodeError, DefaultNla, Family, Field, FieldNla, Nla, parse_u64};
use std::alloc::Global;

const IFLA_VF_STATS_RX_PACKETS: u16 = 0;

const IFLA_VF_STATS_TX_PACKETS: u16 = 1;

const IFLA_VF_STATS_RX_BYTES: u16 = 2;

const IFLA_VF_STATS_TX_BYTES: u16 = 3;

const IFLA_VF_STATS_BROADCAST: u16 = 4;

const IFLA_VF_STATS_MULTICAST: u16 = 5;

const IFLA_VF_STATS_RX_DROPPED: u16 = 7;

const IFLA_VF_STATS_TX_DROPPED: u16 = 8;

/// A statistic of a virtual function.
#[derive(Debug, PartialEq, Eq, Drop)]
pub enum VfStats {
    /// `IFLA_VF_STATS_RX_PACKETS`: packets received; 8 bytes.
    RxPackets(u64),
    /// `IFLA_VF_STATS_TX_PACKETS`: packets sent; 8 bytes.
    TxPackets(u64),
    /// `IFLA_VF_STATS_RX_BYTES`: bytes received; 8 bytes.
    RxBytes(u64),
    /// `IFLA_VF_STATS_TX_BYTES`: bytes sent; 8 bytes.
    TxBytes(u64),
    /// `IFLA_VF_STATS_BROADCAST`: broadcasts received; 8 bytes.
    Broadcast(u64),
    /// `IFLA_VF_STATS_MULTICAST`: multicasts received; 8 bytes.
    Multicast(u64),
    /// `IFLA_VF_STATS_RX_DROPPED`: received packets that were dropped; 8 bytes.
    RxDropped(u64),
    /// `IFLA_VF_STATS_TX_DROPPED`: packets to be sent that were dropped; 8 bytes.
    TxDropped(u64),
    /// Any other kind, kept unchanged.
    Other(DefaultNla),
}

impl FieldNla for VfStats {
    ghost field_entry = { vf_stats_entry };

    fn field(&self) -> (u16, Field<'_>) {
        match self {
            Self::RxPackets(number) => (IFLA_VF_STATS_RX_PACKETS, Field::U64(*number)),
            Self::TxPackets(number) => (IFLA_VF_STATS_TX_PACKETS, Field::U64(*number)),
            Self::RxBytes(number) => (IFLA_VF_STATS_RX_BYTES, Field::U64(*number)),
            Self::TxBytes(number) => (IFLA_VF_STATS_TX_BYTES, Field::U64(*number)),
            Self::Broadcast(number) => (IFLA_VF_STATS_BROADCAST, Field::U64(*number)),
            Self::Multicast(number) => (IFLA_VF_STATS_MULTICAST, Field::U64(*number)),
            Self::RxDropped(number) => (IFLA_VF_STATS_RX_DROPPED, Field::U64(*number)),
            Self::TxDropped(number) => (IFLA_VF_STATS_TX_DROPPED, Field::U64(*number)),
            Self::Other(nla) => (nla.kind(), Field::Bytes(nla.value())),
        }
    }
}

impl VfStats {
    // Returns the statistic of a kind; `None` if the kind has no row. These kinds share an arm of
    // `read_row`, since the prover's time for one match is its paths times the variants of its
    // type.
    fn of_u64(kind: u16, number: u64) -> Option<Self>
        ensures value { IfSome result (λ v. vf_stats_entry v ≡ attribute kind (le8 number)) }
        ensures is_row_variant { IfSome result (λ v. vf_stats_names_row v) }
        ensures none { IfNone result (HasNoRow vf_stats kind) }
    {
        match kind {
            IFLA_VF_STATS_RX_PACKETS => Some(Self::RxPackets(number)),
            IFLA_VF_STATS_TX_PACKETS => Some(Self::TxPackets(number)),
            IFLA_VF_STATS_RX_BYTES => Some(Self::RxBytes(number)),
            IFLA_VF_STATS_TX_BYTES => Some(Self::TxBytes(number)),
            IFLA_VF_STATS_BROADCAST => Some(Self::Broadcast(number)),
            IFLA_VF_STATS_MULTICAST => Some(Self::Multicast(number)),
            IFLA_VF_STATS_RX_DROPPED => Some(Self::RxDropped(number)),
            IFLA_VF_STATS_TX_DROPPED => Some(Self::TxDropped(number)),
            _ => None,
        }
    }
}

impl Family for VfStats {
    ghost rows = { vf_stats };

    ghost is_row_variant = { vf_stats_names_row };

    fn read_row(_alloc: Global, kind: u16, payload: &[u8]) -> Result<Option<Self>, DecodeError> {
        match kind {
            IFLA_VF_STATS_RX_PACKETS
            | IFLA_VF_STATS_TX_PACKETS
            | IFLA_VF_STATS_RX_BYTES
            | IFLA_VF_STATS_TX_BYTES
            | IFLA_VF_STATS_BROADCAST
            | IFLA_VF_STATS_MULTICAST
            | IFLA_VF_STATS_RX_DROPPED
            | IFLA_VF_STATS_TX_DROPPED => typed!(of_u64(kind), parse_u64(payload)),
            _ => Ok(None),
        }
    }

    fn other(nla: DefaultNla) -> Self {
        Self::Other(nla)
    }

    ghost plain = { refl };
}
