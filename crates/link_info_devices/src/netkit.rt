//! Data of the kind `netkit` (if_link.h, IFLA_NETKIT_*). Numbers are little-endian.

ghost use Rattle.std.specs.Prelude.{◌≡◌, ◌↔◌, false, length, refl, IsOk, IfOk, IfErr};
ghost use Rattle.netlink_packet_core.specs.Errors.{is_memory};
ghost use Rattle.netlink_packet_core.specs.Numbers.{le4};
ghost use Rattle.attribute_tables_grammar.specs.Shapes.{number_boolean};
ghost use Rattle.link_info_types.specs.NetkitTypes.{netkit_scrub_number};
ghost use Rattle.link_info_grammar.specs.Families.{netkit};
ghost use Rattle.link_info_devices.specs.Netkit.{netkit_entry, netkit_is_row_variant};

use attribute_tables::{parse_bytes, typed};
use link_info_types::{NetkitMode, NetkitPolicy, NetkitScrub};
use netlink_packet_core::{
    DecodeError, DefaultNla, Family, Field, FieldNla, Nla, parse_bool, parse_u16, parse_u32,
};
use std::alloc::Global;

const IFLA_NETKIT_PEER_INFO: u16 = 1;

const IFLA_NETKIT_PRIMARY: u16 = 2;

const IFLA_NETKIT_POLICY: u16 = 3;

const IFLA_NETKIT_PEER_POLICY: u16 = 4;

const IFLA_NETKIT_MODE: u16 = 5;

const IFLA_NETKIT_SCRUB: u16 = 6;

const IFLA_NETKIT_PEER_SCRUB: u16 = 7;

const IFLA_NETKIT_HEADROOM: u16 = 8;

const IFLA_NETKIT_TAILROOM: u16 = 9;

/// An attribute of the data of `netkit`.
#[derive(Debug, PartialEq, Eq, Drop)]
pub enum InfoNetkit {
    /// `IFLA_NETKIT_PEER_INFO`: the other end, a link message with its header of 16 bytes. The
    /// bytes are kept as they are; `parse_netkit_with` keeps the canonical bytes under its rule.
    Peer(Vec<u8>),
    /// `IFLA_NETKIT_PRIMARY`: whether this end is the primary device, through which programs are
    /// attached; 1 byte, false if and only if it is 0.
    Primary(bool),
    /// `IFLA_NETKIT_POLICY`: the policy for packets if no program decides; 4 bytes.
    Policy(NetkitPolicy),
    /// `IFLA_NETKIT_PEER_POLICY`: the policy at the other end; 4 bytes.
    PeerPolicy(NetkitPolicy),
    /// `IFLA_NETKIT_MODE`: whether packets have Ethernet headers; 4 bytes.
    Mode(NetkitMode),
    /// `IFLA_NETKIT_SCRUB`: whether the metadata of a packet, such as marks, are cleared; 4 bytes,
    /// false if and only if all are 0.
    Scrub(NetkitScrub),
    /// `IFLA_NETKIT_PEER_SCRUB`: the scrub setting of the other end; 4 bytes, false if and only if
    /// all are 0.
    PeerScrub(NetkitScrub),
    /// `IFLA_NETKIT_HEADROOM`: the space reserved before a packet, in bytes; 2 bytes.
    Headroom(u16),
    /// `IFLA_NETKIT_TAILROOM`: the space reserved after a packet, in bytes; 2 bytes.
    Tailroom(u16),
    /// Any other kind, kept as it is.
    Other(DefaultNla),
}

/// Reads a boolean of 4 bytes, false if and only if all are 0.
fn parse_scrub(payload: &[u8]) -> Result<NetkitScrub, DecodeError>
    ensures size { IsOk result ↔ (length payload.now ≡ 4) }
    ensures ok { IfOk result (λ s. le4 (netkit_scrub_number s) ≡ number_boolean payload.now) }
    ensures err { IfErr result (λ e. is_memory e ≡ false) }
{
    match payload {
        [a, b, c, d] => Ok(NetkitScrub::from(
            u32::from(*a) + u32::from(*b) + u32::from(*c) + u32::from(*d),
        )),
        _ => Err(DecodeError::invalid_number(4, payload.len())),
    }
}

impl FieldNla for InfoNetkit {
    ghost field_entry = { netkit_entry };

    fn field(&self) -> (u16, Field<'_>) {
        match self {
            Self::Peer(bytes) => (IFLA_NETKIT_PEER_INFO, Field::Bytes(bytes)),
            Self::Primary(boolean) => (IFLA_NETKIT_PRIMARY, Field::Bool(*boolean)),
            Self::Policy(policy) => (IFLA_NETKIT_POLICY, Field::U32(u32::from(*policy))),
            Self::PeerPolicy(policy) => (IFLA_NETKIT_PEER_POLICY, Field::U32(u32::from(*policy))),
            Self::Mode(mode) => (IFLA_NETKIT_MODE, Field::U32(u32::from(*mode))),
            Self::Scrub(scrub) => (IFLA_NETKIT_SCRUB, Field::U32(u32::from(*scrub))),
            Self::PeerScrub(scrub) => (IFLA_NETKIT_PEER_SCRUB, Field::U32(u32::from(*scrub))),
            Self::Headroom(capacity) => (IFLA_NETKIT_HEADROOM, Field::U16(*capacity)),
            Self::Tailroom(capacity) => (IFLA_NETKIT_TAILROOM, Field::U16(*capacity)),
            Self::Other(nla) => (nla.kind(), Field::Bytes(nla.value())),
        }
    }
}

impl Family for InfoNetkit {
    ghost rows = { netkit };

    ghost is_row_variant = { netkit_is_row_variant };

    fn read_row(alloc: Global, kind: u16, payload: &[u8]) -> Result<Option<Self>, DecodeError> {
        match kind {
            IFLA_NETKIT_PEER_INFO => typed!(Peer, parse_bytes(alloc, payload)),
            IFLA_NETKIT_PRIMARY => typed!(Primary, parse_bool(payload)),
            IFLA_NETKIT_POLICY => typed!(Policy, parse_u32(payload), NetkitPolicy),
            IFLA_NETKIT_PEER_POLICY => typed!(PeerPolicy, parse_u32(payload), NetkitPolicy),
            IFLA_NETKIT_MODE => typed!(Mode, parse_u32(payload), NetkitMode),
            IFLA_NETKIT_SCRUB => typed!(Scrub, parse_scrub(payload)),
            IFLA_NETKIT_PEER_SCRUB => typed!(PeerScrub, parse_scrub(payload)),
            IFLA_NETKIT_HEADROOM => typed!(Headroom, parse_u16(payload)),
            IFLA_NETKIT_TAILROOM => typed!(Tailroom, parse_u16(payload)),
            _ => Ok(None),
        }
    }

    fn other(nla: DefaultNla) -> Self {
        Self::Other(nla)
    }

    ghost plain = { refl };
}
