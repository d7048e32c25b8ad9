//! Rows of lists in link messages.

ghost use Rattle.std.specs.Prelude.{◌≡◌, true, [], get_or};
ghost use Rattle.link_lines_values.specs.DenseRows.{are_dense};
ghost use Rattle.link_lines_raw.specs.Rows.{raw_rows_in_code};
ghost use Rattle.link_lines_raw.specs.Tables.{link_rows};

use crate::raw_rows_in;
use crate::raw_tables::{BRIDGE_SPECIFIC, INET, INET6, MCTP};
use crate::rows::RawBy::{List, Value};
use crate::rows::RawRow;
use link_lines_values::ExactBy::{Bytes, Counters, Number, Record, Sized, Text, Uint};
use link_lines_values::ShownBy::{BigEndian, Flags, PortRange, Presence, Signed};
use link_lines_values::bridge_texts::{NETKIT_PAIRING, PORT_REQUEST};
use link_lines_values::device_layouts::{IFLA_PORT_VSI, IFLA_VF_GUID};
use link_lines_values::{
    CACHEINFO, ICMP6_STATS, IN6_ADDR_GEN_MODE, IP6_STATS, IPV4_DEVCONF, IPV6_DEVCONF_ALL,
    MCTP_PHYS_BINDING, PLAIN, ShownBy,
};

/// Attributes of links without a row in the tables of normal text (if_link.h: IFLA_*).
pub const LINK_ROWS: &[RawRow] = &raw_rows_in! {
    8, b"IFLA_COST", Value(Bytes);
    9, b"IFLA_PRIORITY", Value(Bytes);
    10;
    11, b"IFLA_WIRELESS", Value(Bytes);
    12, b"IFLA_PROTINFO", Value(Bytes);
    13; 14;
    15, b"IFLA_WEIGHT", Value(Number(4));
    16; 17; 18; 19; 20; 21; 22; 23; 24; 25; 26; 27; 28; 29; 30; 31; 32; 33; 34; 35; 36; 37; 38; 39;
    40; 41; 42; 43; 44; 45; 46; 47; 48; 49; 50; 51; 52;
    53, b"IFLA_ALT_IFNAME", Value(Text);
    54; 55; 56; 57; 58; 59; 60; 61; 62; 63; 64; 65;
    66, b"IFLA_MAX_PACING_OFFLOAD_HORIZON", Value(Uint);
    67, b"IFLA_NETNS_IMMUTABLE", Value(Number(1));
    68, b"IFLA_HEADROOM", Value(Number(2));
    69, b"IFLA_TAILROOM", Value(Number(2));
};

/// IFLA_DEVLINK_PORT (devlink.h: DEVLINK_ATTR_INDEX).
pub const DEVLINK_PORT_ROWS: &[RawRow] = &raw_rows_in! {
    184, b"DEVLINK_ATTR_INDEX", Value(Uint);
};

/// Data of the kinds of `gre` over IPv4 (if_tunnel.h: IFLA_GRE_*).
pub const GRE_ROWS: &[RawRow] = &raw_rows_in! {
    11, b"IFLA_GRE_ENCAP_LIMIT", Value(Number(1));
    12, b"IFLA_GRE_FLOWINFO", Value(Sized(4, BigEndian(PLAIN)));
    13, b"IFLA_GRE_FLAGS", Value(Sized(4, Flags));
    14; 15; 16; 17; 18;
    19, b"IFLA_GRE_IGNORE_DF", Value(Number(1));
};

/// Data of the kinds of `gre` over IPv6 (if_tunnel.h: IFLA_GRE_*).
pub const GRE6_ROWS: &[RawRow] = &raw_rows_in! {
    10, b"IFLA_GRE_PMTUDISC", Value(Number(1));
    11; 12;
    13, b"IFLA_GRE_FLAGS", Value(Sized(4, Flags));
    14; 15; 16; 17; 18;
    19, b"IFLA_GRE_IGNORE_DF", Value(Number(1));
};

/// Data of `geneve` (if_link.h: IFLA_GENEVE_*).
pub const GENEVE_ROWS: &[RawRow] = &raw_rows_in! {
    15, b"IFLA_GENEVE_PORT_RANGE", Value(Sized(4, PortRange));
    16, b"IFLA_GENEVE_GRO_HINT", Value(Sized(0, Presence));
};

/// Data of `xfrm` (if_link.h: IFLA_XFRM_COLLECT_METADATA).
pub const XFRM_ROWS: &[RawRow] = &raw_rows_in! {
    3, b"IFLA_XFRM_COLLECT_METADATA", Value(Sized(0, Presence));
};

/// Data of `netkit` (if_link.h: IFLA_NETKIT_PAIRING).
pub const NETKIT_ROWS: &[RawRow] = &raw_rows_in! {
    10, b"IFLA_NETKIT_PAIRING", Value(Sized(4, ShownBy::Number(NETKIT_PAIRING)));
};

/// Virtual functions (if_link.h: IFLA_VF_IB_*).
pub const VF_ROWS: &[RawRow] = &raw_rows_in! {
    10, b"IFLA_VF_IB_NODE_GUID", Value(Record(IFLA_VF_GUID));
    11, b"IFLA_VF_IB_PORT_GUID", Value(Record(IFLA_VF_GUID));
};

/// IFLA_VF_PORT and IFLA_PORT_SELF (if_link.h: IFLA_PORT_*).
pub const PORT_ROWS: &[RawRow] = &raw_rows_in! {
    1, b"IFLA_PORT_VF", Value(Sized(4, Signed(PLAIN)));
    2, b"IFLA_PORT_PROFILE", Value(Text);
    3, b"IFLA_PORT_VSI_TYPE", Value(Record(IFLA_PORT_VSI));
    4, b"IFLA_PORT_INSTANCE_UUID", Value(Bytes);
    5, b"IFLA_PORT_HOST_UUID", Value(Bytes);
    6, b"IFLA_PORT_REQUEST", Value(Sized(2, ShownBy::Number(PORT_REQUEST)));
    7, b"IFLA_PORT_RESPONSE", Value(Number(2));
};

/// IFLA_AF_SPEC of families without a table of normal text (socket.h: AF_*).
pub const FAMILY_SPECIFIC_ROWS: &[RawRow] = &raw_rows_in! {
    2, b"AF_INET", List(INET);
    3; 4; 5; 6;
    7, b"AF_BRIDGE", List(BRIDGE_SPECIFIC);
    8; 9;
    10, b"AF_INET6", List(INET6);
    11; 12; 13; 14; 15; 16; 17; 18; 19; 20; 21; 22; 23; 24; 25; 26; 27; 28; 29; 30; 31; 32; 33; 34;
    35; 36; 37; 38; 39; 40; 41; 42; 43; 44;
    45, b"AF_MCTP", List(MCTP);
};

/// Inet (if_link.h: IFLA_INET_CONF).
pub const INET_ROWS: &[RawRow] = &raw_rows_in! {
    1, b"IFLA_INET_CONF", Value(Counters(IPV4_DEVCONF));
};

/// IPv6, in IFLA_PROTINFO and IFLA_AF_SPEC (if_link.h: IFLA_INET6_*).
pub const INET6_ROWS: &[RawRow] = &raw_rows_in! {
    1, b"IFLA_INET6_FLAGS", Value(Sized(4, Flags));
    2, b"IFLA_INET6_CONF", Value(Counters(IPV6_DEVCONF_ALL));
    3, b"IFLA_INET6_STATS", Value(Counters(IP6_STATS));
    4, b"IFLA_INET6_MCAST", Value(Bytes);
    5, b"IFLA_INET6_CACHEINFO", Value(Record(CACHEINFO));
    6, b"IFLA_INET6_ICMP6STATS", Value(Counters(ICMP6_STATS));
    7, b"IFLA_INET6_TOKEN", Value(Sized(16, ShownBy::Address));
    8, b"IFLA_INET6_ADDR_GEN_MODE", Value(Sized(1, ShownBy::Number(IN6_ADDR_GEN_MODE)));
    9, b"IFLA_INET6_RA_MTU", Value(Number(4));
};

/// Mctp (if_link.h: IFLA_MCTP_*).
pub const MCTP_ROWS: &[RawRow] = &raw_rows_in! {
    1, b"IFLA_MCTP_NET", Value(Number(4));
    2, b"IFLA_MCTP_PHYS_BINDING", Value(Sized(1, ShownBy::Number(MCTP_PHYS_BINDING)));
};

/// Returns the rows of a table, by its index from that of the first table here on.
#[tactic(auto, unfolding(crate::specs::Tables::link_rows))]
pub(crate) fn rows(index: u16) -> &'static [RawRow]
    ensures rows { raw_rows_in_code (λ b. b.now) result.now ≡ get_or link_rows index [] }
    ensures dense { are_dense result.now ≡ true }
{
    match index {
        0 => LINK_ROWS,
        1 => DEVLINK_PORT_ROWS,
        2 => GRE_ROWS,
        3 => GRE6_ROWS,
        4 => GENEVE_ROWS,
        5 => XFRM_ROWS,
        6 => NETKIT_ROWS,
        7 => VF_ROWS,
        8 => PORT_ROWS,
        9 => FAMILY_SPECIFIC_ROWS,
        10 => INET_ROWS,
        11 => INET6_ROWS,
        12 => MCTP_ROWS,
        _ => &[],
    }
}
