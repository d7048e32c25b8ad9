//! Data of the kinds `vti` and `vti6` (if_tunnel.h, IFLA_VTI_*).

ghost use Rattle.std.specs.Prelude.{refl};
ghost use Rattle.link_info_grammar.specs.Families.{vti};
ghost use Rattle.link_info_tunnels.specs.Vti.{vti_entry, vti_is_row_variant};

use attribute_tables::typed;
use netlink_packet_core::{
    DecodeError, DefaultNla, Family, Field, FieldNla, Nla, parse_ip, parse_u32, parse_u32_be,
};
use std::alloc::Global;
use std::net::IpAddr;

const IFLA_VTI_LINK: u16 = 1;

const IFLA_VTI_IKEY: u16 = 2;

const IFLA_VTI_OKEY: u16 = 3;

const IFLA_VTI_LOCAL: u16 = 4;

const IFLA_VTI_REMOTE: u16 = 5;

const IFLA_VTI_FWMARK: u16 = 6;

/// An attribute of the data of `vti` and `vti6`.
#[derive(Debug, PartialEq, Eq, Drop)]
pub enum InfoVti {
    /// `IFLA_VTI_LINK`: the index of the underlying link; 4 bytes.
    Link(u32),
    /// `IFLA_VTI_IKEY`: the key of received packets; 4 bytes, big-endian.
    IKey(u32),
    /// `IFLA_VTI_OKEY`: the key of sent packets; 4 bytes, big-endian.
    OKey(u32),
    /// `IFLA_VTI_LOCAL`: the local address of the tunnel; 4 or 16 bytes.
    Local(IpAddr),
    /// `IFLA_VTI_REMOTE`: the remote address of the tunnel; 4 or 16 bytes.
    Remote(IpAddr),
    /// `IFLA_VTI_FWMARK`: the firewall mark; 4 bytes.
    FwMark(u32),
    /// Any other kind, kept as it is.
    Other(DefaultNla),
}

impl FieldNla for InfoVti {
    ghost field_entry = { vti_entry };

    fn field(&self) -> (u16, Field<'_>) {
        match self {
            Self::Link(number) => (IFLA_VTI_LINK, Field::U32(*number)),
            Self::IKey(key) => (IFLA_VTI_IKEY, Field::U32Be(*key)),
            Self::OKey(key) => (IFLA_VTI_OKEY, Field::U32Be(*key)),
            Self::Local(address) => (IFLA_VTI_LOCAL, Field::Ip(*address)),
            Self::Remote(address) => (IFLA_VTI_REMOTE, Field::Ip(*address)),
            Self::FwMark(mark) => (IFLA_VTI_FWMARK, Field::U32(*mark)),
            Self::Other(nla) => (nla.kind(), Field::Bytes(nla.value())),
        }
    }
}

impl Family for InfoVti {
    ghost rows = { vti };

    ghost is_row_variant = { vti_is_row_variant };

    fn read_row(_alloc: Global, kind: u16, payload: &[u8]) -> Result<Option<Self>, DecodeError> {
        match kind {
            IFLA_VTI_LINK => typed!(Link, parse_u32(payload)),
            IFLA_VTI_IKEY => typed!(IKey, parse_u32_be(payload)),
            IFLA_VTI_OKEY => typed!(OKey, parse_u32_be(payload)),
            IFLA_VTI_LOCAL => typed!(Local, parse_ip(payload)),
            IFLA_VTI_REMOTE => typed!(Remote, parse_ip(payload)),
            IFLA_VTI_FWMARK => typed!(FwMark, parse_u32(payload)),
            _ => Ok(None),
        }
    }

    fn other(nla: DefaultNla) -> Self {
        Self::Other(nla)
    }

    ghost plain = { refl };
}
