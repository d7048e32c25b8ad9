//! Data of the kind `gtp` (if_link.h, IFLA_GTP_*). Numbers are little-endian.

ghost use Rattle.std.specs.Prelude.{refl, IfNone, IfSome, ◌≡◌, ◌≢◌};
ghost use Rattle.netlink_packet_core.specs.Families.{attribute};
ghost use Rattle.netlink_packet_core.specs.Numbers.{le4};
ghost use Rattle.link_info_grammar.specs.Families.{gtp};
ghost use Rattle.link_info_tunnels.specs.Gtp.{gtp_entry, gtp_is_row_variant};

use attribute_tables::typed;
use link_info_types::GtpRole;
use netlink_packet_core::{
    DecodeError, DefaultNla, Family, Field, FieldNla, Nla, parse_bool, parse_ipv4_addr,
    parse_ipv6_addr, parse_u8, parse_u32,
};
use std::alloc::Global;
use std::net::{Ipv4Addr, Ipv6Addr};

const IFLA_GTP_FD0: u16 = 1;

const IFLA_GTP_FD1: u16 = 2;

const IFLA_GTP_PDP_HASHSIZE: u16 = 3;

const IFLA_GTP_ROLE: u16 = 4;

const IFLA_GTP_CREATE_SOCKETS: u16 = 5;

const IFLA_GTP_RESTART_COUNT: u16 = 6;

const IFLA_GTP_LOCAL: u16 = 7;

const IFLA_GTP_LOCAL6: u16 = 8;

/// An attribute of the data of `gtp`: the GPRS tunneling protocol.
#[derive(Debug, PartialEq, Eq, Drop)]
pub enum InfoGtp {
    /// `IFLA_GTP_FD0`: the descriptor of the socket for version 0; 4 bytes.
    Fd0(u32),
    /// `IFLA_GTP_FD1`: the descriptor of the socket for version 1; 4 bytes.
    Fd1(u32),
    /// `IFLA_GTP_PDP_HASHSIZE`: the size of the hash table of sessions; 4 bytes.
    PdpHashsize(u32),
    /// `IFLA_GTP_ROLE`: the end of the tunnel, GGSN or SGSN; 4 bytes.
    Role(GtpRole),
    /// `IFLA_GTP_CREATE_SOCKETS`: the kernel creates the sockets; 1 byte, false if and only if it
    /// is 0.
    CreateSockets(bool),
    /// `IFLA_GTP_RESTART_COUNT`: the restart counter in echo responses; 1 byte.
    RestartCount(u8),
    /// `IFLA_GTP_LOCAL`: the address of the kernel's socket; 4 bytes.
    Local(Ipv4Addr),
    /// `IFLA_GTP_LOCAL6`: the address of the kernel's socket; 16 bytes.
    Local6(Ipv6Addr),
    /// Any other kind, kept as it is.
    Other(DefaultNla),
}

impl FieldNla for InfoGtp {
    ghost field_entry = { gtp_entry };

    fn field(&self) -> (u16, Field<'_>) {
        match self {
            Self::Fd0(number) => (IFLA_GTP_FD0, Field::U32(*number)),
            Self::Fd1(number) => (IFLA_GTP_FD1, Field::U32(*number)),
            Self::PdpHashsize(number) => (IFLA_GTP_PDP_HASHSIZE, Field::U32(*number)),
            Self::Role(role) => (IFLA_GTP_ROLE, Field::U32(u32::from(*role))),
            Self::CreateSockets(boolean) => (IFLA_GTP_CREATE_SOCKETS, Field::Bool(*boolean)),
            Self::RestartCount(number) => (IFLA_GTP_RESTART_COUNT, Field::U8(*number)),
            Self::Local(address) => (IFLA_GTP_LOCAL, Field::Ipv4(*address)),
            Self::Local6(address) => (IFLA_GTP_LOCAL6, Field::Ipv6(*address)),
            Self::Other(nla) => (nla.kind(), Field::Bytes(nla.value())),
        }
    }
}

impl InfoGtp {
    // The attribute of a kind that holds a number of 4 bytes. These kinds share an arm of
    // `read_row`, since the prover's time for one match is its paths times the variants of its
    // type: with an arm for each kind, both checks take a quarter longer.
    fn of_u32(kind: u16, number: u32) -> Option<Self>
        ensures value { IfSome result (λ v. gtp_entry v ≡ attribute kind (le4 number)) }
        ensures is_row_variant { IfSome result (λ v. gtp_is_row_variant v) }
        ensures none { IfNone result (kind ≢ 1 × kind ≢ 2 × kind ≢ 3 × kind ≢ 4) }
    {
        match kind {
            IFLA_GTP_FD0 => Some(Self::Fd0(number)),
            IFLA_GTP_FD1 => Some(Self::Fd1(number)),
            IFLA_GTP_PDP_HASHSIZE => Some(Self::PdpHashsize(number)),
            IFLA_GTP_ROLE => Some(Self::Role(GtpRole::from(number))),
            _ => None,
        }
    }
}

impl Family for InfoGtp {
    ghost rows = { gtp };

    ghost is_row_variant = { gtp_is_row_variant };

    fn read_row(_alloc: Global, kind: u16, payload: &[u8]) -> Result<Option<Self>, DecodeError> {
        match kind {
            IFLA_GTP_FD0 | IFLA_GTP_FD1 | IFLA_GTP_PDP_HASHSIZE | IFLA_GTP_ROLE => typed!(
                of_u32(kind),
                parse_u32(payload)
            ),
            IFLA_GTP_CREATE_SOCKETS => typed!(CreateSockets, parse_bool(payload)),
            IFLA_GTP_RESTART_COUNT => typed!(RestartCount, parse_u8(payload)),
            IFLA_GTP_LOCAL => typed!(Local, parse_ipv4_addr(payload)),
            IFLA_GTP_LOCAL6 => typed!(Local6, parse_ipv6_addr(payload)),
            _ => Ok(None),
        }
    }

    fn other(nla: DefaultNla) -> Self {
        Self::Other(nla)
    }

    ghost plain = { refl };
}
