//! Data of the kind `amt` (if_link.h, IFLA_AMT_*). Numbers are little-endian unless noted.

ghost use Rattle.std.specs.Prelude.{refl};
ghost use Rattle.link_info_grammar.specs.Families.{amt};
ghost use Rattle.link_info_tunnels.specs.Amt.{amt_entry, amt_is_row_variant};

use attribute_tables::typed;
use link_info_types::AmtMode;
use netlink_packet_core::{
    DecodeError, DefaultNla, Family, Field, FieldNla, Nla, parse_ip, parse_u16_be, parse_u32,
};
use std::alloc::Global;
use std::net::IpAddr;

const IFLA_AMT_MODE: u16 = 1;

const IFLA_AMT_RELAY_PORT: u16 = 2;

const IFLA_AMT_GATEWAY_PORT: u16 = 3;

const IFLA_AMT_LINK: u16 = 4;

const IFLA_AMT_LOCAL_IP: u16 = 5;

const IFLA_AMT_REMOTE_IP: u16 = 6;

const IFLA_AMT_DISCOVERY_IP: u16 = 7;

const IFLA_AMT_MAX_TUNNELS: u16 = 8;

/// An attribute of the data of `amt`: automatic multicast tunneling (RFC 7450).
#[derive(Debug, PartialEq, Eq, Drop)]
pub enum InfoAmt {
    /// `IFLA_AMT_MODE`: the end of the tunnel, gateway or relay; 4 bytes.
    Mode(AmtMode),
    /// `IFLA_AMT_RELAY_PORT`: the UDP port of the relay; 2 bytes, big-endian.
    RelayPort(u16),
    /// `IFLA_AMT_GATEWAY_PORT`: the UDP port of the gateway; 2 bytes, big-endian.
    GatewayPort(u16),
    /// `IFLA_AMT_LINK`: the index of the underlying link; 4 bytes.
    Link(u32),
    /// `IFLA_AMT_LOCAL_IP`: the local address; 4 or 16 bytes.
    LocalIp(IpAddr),
    /// `IFLA_AMT_REMOTE_IP`: the relay's address; 4 or 16 bytes.
    RemoteIp(IpAddr),
    /// `IFLA_AMT_DISCOVERY_IP`: the address used to discover relays; 4 or 16 bytes.
    DiscoveryIp(IpAddr),
    /// `IFLA_AMT_MAX_TUNNELS`: the maximum number of tunnels of a relay; 4 bytes.
    MaxTunnels(u32),
    /// Any other kind, kept as it is.
    Other(DefaultNla),
}

impl FieldNla for InfoAmt {
    ghost field_entry = { amt_entry };

    fn field(&self) -> (u16, Field<'_>) {
        match self {
            Self::Mode(mode) => (IFLA_AMT_MODE, Field::U32(u32::from(*mode))),
            Self::RelayPort(port) => (IFLA_AMT_RELAY_PORT, Field::U16Be(*port)),
            Self::GatewayPort(port) => (IFLA_AMT_GATEWAY_PORT, Field::U16Be(*port)),
            Self::Link(number) => (IFLA_AMT_LINK, Field::U32(*number)),
            Self::LocalIp(address) => (IFLA_AMT_LOCAL_IP, Field::Ip(*address)),
            Self::RemoteIp(address) => (IFLA_AMT_REMOTE_IP, Field::Ip(*address)),
            Self::DiscoveryIp(address) => (IFLA_AMT_DISCOVERY_IP, Field::Ip(*address)),
            Self::MaxTunnels(number) => (IFLA_AMT_MAX_TUNNELS, Field::U32(*number)),
            Self::Other(nla) => (nla.kind(), Field::Bytes(nla.value())),
        }
    }
}

impl Family for InfoAmt {
    ghost rows = { amt };

    ghost is_row_variant = { amt_is_row_variant };

    fn read_row(_alloc: Global, kind: u16, payload: &[u8]) -> Result<Option<Self>, DecodeError> {
        match kind {
            IFLA_AMT_MODE => typed!(Mode, parse_u32(payload), AmtMode),
            IFLA_AMT_RELAY_PORT => typed!(RelayPort, parse_u16_be(payload)),
            IFLA_AMT_GATEWAY_PORT => typed!(GatewayPort, parse_u16_be(payload)),
            IFLA_AMT_LINK => typed!(Link, parse_u32(payload)),
            IFLA_AMT_LOCAL_IP => typed!(LocalIp, parse_ip(payload)),
            IFLA_AMT_REMOTE_IP => typed!(RemoteIp, parse_ip(payload)),
            IFLA_AMT_DISCOVERY_IP => typed!(DiscoveryIp, parse_ip(payload)),
            IFLA_AMT_MAX_TUNNELS => typed!(MaxTunnels, parse_u32(payload)),
            _ => Ok(None),
        }
    }

    fn other(nla: DefaultNla) -> Self {
        Self::Other(nla)
    }

    ghost plain = { refl };
}
