//! The data of each kind of link and of port: the tables of attributes, and their names' payloads.
//!
//! A table is a constant, a list and, in `data_tables`, its position. In a list each row has a kind,
//! its name, the shape of its payload, and the format in which it is shown. With `->`, a row has
//! the name and a payload that is no shape; with `=>` its kind is written with the nested bit too. A
//! kind without a shape, with or without a name, has no row in the table. Each list is passed to
//! the macro whose name is given.

ghost use Rattle.std.specs.Prelude.{◌≡◌};
ghost use Rattle.attribute_tables_grammar.specs.LookUps.{payload_at, rule_or_raw};
ghost use Rattle.attribute_tables_grammar.specs.Peers.{RuleOfPeers};
ghost use Rattle.link_info_grammar.specs.Families.{kinds, port_kinds};
ghost use Rattle.link_tables.specs.Names.{held_by_name};
ghost use Rattle.link_tables.specs.Tables.{held_rule};
ghost use Rattle.link_tables.specs.declared.kinds.TheConstants.{KINDS, PORT_KINDS};

use crate::names::{NameRow, held_by_name};
use crate::rows::Form::{Any, FirstOnly};
use crate::rows::Held;
use crate::rows::Held::List;
use crate::table::{BOND, BOND_PORT, BRIDGE, BRIDGE_PORT, CAN, DSA, HSR, RAW, TUN, Table, VLAN};

/// IFLA_AMT_*.
pub const AMT: Table = Table(20);

/// IFLA_BAREUDP_*.
pub const BAREUDP: Table = Table(21);

/// IFLA_BATADV_*.
pub const BATADV: Table = Table(22);

/// IFLA_GENEVE_*.
pub const GENEVE: Table = Table(23);

/// IFLA_GRE_* over IPv4.
pub const GRE: Table = Table(24);

/// IFLA_GRE_* over IPv6.
pub const GRE6: Table = Table(25);

/// IFLA_GTP_*.
pub const GTP: Table = Table(26);

/// IFLA_IPOIB_*.
pub const IPOIB: Table = Table(27);

/// IFLA_IPVLAN_*.
pub const IPVLAN: Table = Table(28);

/// IFLA_IPTUN_* over IPv4.
pub const IP4_TUNNEL: Table = Table(29);

/// IFLA_IPTUN_* over IPv6.
pub const IP6_TUNNEL: Table = Table(30);

/// IFLA_MACVLAN_*.
pub const MACVLAN: Table = Table(31);

/// IFLA_MACVLAN_MACADDR, the attributes inside IFLA_MACVLAN_MACADDR_DATA.
pub const MACVLAN_ADDRESS: Table = Table(32);

/// IFLA_MACSEC_*.
pub const MACSEC: Table = Table(33);

/// IFLA_NETKIT_*.
pub const NETKIT: Table = Table(34);

/// VETH_INFO_*.
pub const VETH: Table = Table(35);

/// IFLA_RMNET_*.
pub const RMNET: Table = Table(36);

/// IFLA_VRF_*, of a link and of its ports.
pub const VRF: Table = Table(37);

/// IFLA_WWAN_*.
pub const WWAN: Table = Table(38);

/// IFLA_XFRM_*.
pub const XFRM: Table = Table(39);

/// IFLA_VTI_*.
pub const VTI: Table = Table(40);

/// IFLA_VXLAN_*.
pub const VXLAN: Table = Table(41);

/// VXCAN_INFO_*.
pub const VXCAN: Table = Table(42);

/// How many tables of data there are.
pub const DATA_COUNT: usize = 23;

/// IFLA_AMT_* (amt.h).
#[macro_export]
macro_rules! amt {
    ($write:ident) => {
        $write! {
            1, b"IFLA_AMT_MODE", Exact(4), Number(AMT_MODE);
            2, b"IFLA_AMT_RELAY_PORT", Exact(2), BigEndian(PLAIN);
            3, b"IFLA_AMT_GATEWAY_PORT", Exact(2), BigEndian(PLAIN);
            4, b"IFLA_AMT_LINK", Exact(4), Number(PLAIN);
            5, b"IFLA_AMT_LOCAL_IP", Either(4, 16), Address;
            6, b"IFLA_AMT_REMOTE_IP", Either(4, 16), Address;
            7, b"IFLA_AMT_DISCOVERY_IP", Either(4, 16), Address;
            8, b"IFLA_AMT_MAX_TUNNELS", Exact(4), Number(PLAIN);
        }
    };
}

/// IFLA_BAREUDP_* (if_link.h).
#[macro_export]
macro_rules! bareudp {
    ($write:ident) => {
        $write! {
            1, b"IFLA_BAREUDP_PORT", Exact(2), BigEndian(PLAIN);
            2, b"IFLA_BAREUDP_ETHERTYPE", Exact(2), BigEndian(ETHERNET_PROTOCOL);
            3, b"IFLA_BAREUDP_SRCPORT_MIN", Exact(2), Number(PLAIN);
            4, b"IFLA_BAREUDP_MULTIPROTO_MODE", Presence, Presence;
        }
    };
}

/// IFLA_BATADV_* (batman_adv.h).
#[macro_export]
macro_rules! batadv {
    ($write:ident) => {
        $write! {
            1, b"IFLA_BATADV_ALGO_NAME", Text, Text;
        }
    };
}

/// IFLA_GENEVE_* (if_link.h).
#[macro_export]
macro_rules! geneve {
    ($write:ident) => {
        $write! {
            1, b"IFLA_GENEVE_ID", Exact(4), Number(PLAIN);
            2, b"IFLA_GENEVE_REMOTE", Exact(4), Address;
            3, b"IFLA_GENEVE_TTL", Exact(1), Number(PLAIN);
            4, b"IFLA_GENEVE_TOS", Exact(1), Number(PLAIN);
            5, b"IFLA_GENEVE_PORT", Exact(2), BigEndian(PLAIN);
            6, b"IFLA_GENEVE_COLLECT_METADATA", Presence, Presence;
            7, b"IFLA_GENEVE_REMOTE6", Exact(16), Address;
            8, b"IFLA_GENEVE_UDP_CSUM", BooleanIfNonzero, Boolean;
            9, b"IFLA_GENEVE_UDP_ZERO_CSUM6_TX", BooleanIfNonzero, Boolean;
            10, b"IFLA_GENEVE_UDP_ZERO_CSUM6_RX", BooleanIfNonzero, Boolean;
            11, b"IFLA_GENEVE_LABEL", Exact(4), BigEndian(PLAIN);
            12, b"IFLA_GENEVE_TTL_INHERIT", BooleanIfNonzero, Boolean;
            13, b"IFLA_GENEVE_DF", Exact(1), Number(GENEVE_DF);
            14, b"IFLA_GENEVE_INNER_PROTO_INHERIT", Presence, Presence;
            15;
            16;
            17, b"IFLA_GENEVE_LOCAL", Exact(4), Address;
            18, b"IFLA_GENEVE_LOCAL6", Exact(16), Address;
        }
    };
}

/// IFLA_GRE_* over IPv4 (if_tunnel.h).
#[macro_export]
macro_rules! gre {
    ($write:ident) => {
        $write! {
            1, b"IFLA_GRE_LINK", Exact(4), Number(PLAIN);
            2, b"IFLA_GRE_IFLAGS", Exact(2), BigEndianFlags;
            3, b"IFLA_GRE_OFLAGS", Exact(2), BigEndianFlags;
            4, b"IFLA_GRE_IKEY", Exact(4), BigEndian(PLAIN);
            5, b"IFLA_GRE_OKEY", Exact(4), BigEndian(PLAIN);
            6, b"IFLA_GRE_LOCAL", Exact(4), Address;
            7, b"IFLA_GRE_REMOTE", Exact(4), Address;
            8, b"IFLA_GRE_TTL", Exact(1), Number(PLAIN);
            9, b"IFLA_GRE_TOS", Exact(1), Number(PLAIN);
            10, b"IFLA_GRE_PMTUDISC", BooleanIfOne, Boolean;
            11;
            12;
            13;
            14, b"IFLA_GRE_ENCAP_TYPE", Exact(2), Number(GRE_ENCAP_TYPE);
            15, b"IFLA_GRE_ENCAP_FLAGS", Exact(2), Flags;
            16, b"IFLA_GRE_ENCAP_SPORT", Exact(2), BigEndian(PLAIN);
            17, b"IFLA_GRE_ENCAP_DPORT", Exact(2), BigEndian(PLAIN);
            18, b"IFLA_GRE_COLLECT_METADATA", Presence, Presence;
            19;
            20, b"IFLA_GRE_FWMARK", Exact(4), Number(PLAIN);
            21, b"IFLA_GRE_ERSPAN_INDEX", Exact(4), Number(PLAIN);
            22, b"IFLA_GRE_ERSPAN_VER", Exact(1), Number(PLAIN);
            23, b"IFLA_GRE_ERSPAN_DIR", Exact(1), Number(ER_SPAN_DIR);
            24, b"IFLA_GRE_ERSPAN_HWID", Exact(2), Number(PLAIN);
        }
    };
}

/// IFLA_GRE_* over IPv6 (if_tunnel.h).
#[macro_export]
macro_rules! gre6 {
    ($write:ident) => {
        $write! {
            1, b"IFLA_GRE_LINK", Exact(4), Number(PLAIN);
            2, b"IFLA_GRE_IFLAGS", Exact(2), BigEndianFlags;
            3, b"IFLA_GRE_OFLAGS", Exact(2), BigEndianFlags;
            4, b"IFLA_GRE_IKEY", Exact(4), BigEndian(PLAIN);
            5, b"IFLA_GRE_OKEY", Exact(4), BigEndian(PLAIN);
            6, b"IFLA_GRE_LOCAL", Exact(16), Address;
            7, b"IFLA_GRE_REMOTE", Exact(16), Address;
            8, b"IFLA_GRE_TTL", Exact(1), Number(PLAIN);
            9, b"IFLA_GRE_TOS", Exact(1), Number(PLAIN);
            10;
            11, b"IFLA_GRE_ENCAP_LIMIT", Exact(1), Number(PLAIN);
            12, b"IFLA_GRE_FLOWINFO", Exact(4), BigEndian(PLAIN);
            13;
            14, b"IFLA_GRE_ENCAP_TYPE", Exact(2), Number(GRE_ENCAP_TYPE);
            15, b"IFLA_GRE_ENCAP_FLAGS", Exact(2), Flags;
            16, b"IFLA_GRE_ENCAP_SPORT", Exact(2), BigEndian(PLAIN);
            17, b"IFLA_GRE_ENCAP_DPORT", Exact(2), BigEndian(PLAIN);
            18, b"IFLA_GRE_COLLECT_METADATA", Presence, Presence;
            19;
            20, b"IFLA_GRE_FWMARK", Exact(4), Number(PLAIN);
            21, b"IFLA_GRE_ERSPAN_INDEX", Exact(4), Number(PLAIN);
            22, b"IFLA_GRE_ERSPAN_VER", Exact(1), Number(PLAIN);
            23, b"IFLA_GRE_ERSPAN_DIR", Exact(1), Number(ER_SPAN_DIR);
            24, b"IFLA_GRE_ERSPAN_HWID", Exact(2), Number(PLAIN);
        }
    };
}

/// IFLA_GTP_* (if_link.h).
#[macro_export]
macro_rules! gtp {
    ($write:ident) => {
        $write! {
            1, b"IFLA_GTP_FD0", Exact(4), Number(PLAIN);
            2, b"IFLA_GTP_FD1", Exact(4), Number(PLAIN);
            3, b"IFLA_GTP_PDP_HASHSIZE", Exact(4), Number(PLAIN);
            4, b"IFLA_GTP_ROLE", Exact(4), Number(GTP_ROLE);
            5, b"IFLA_GTP_CREATE_SOCKETS", BooleanIfNonzero, Boolean;
            6, b"IFLA_GTP_RESTART_COUNT", Exact(1), Number(PLAIN);
            7, b"IFLA_GTP_LOCAL", Exact(4), Address;
            8, b"IFLA_GTP_LOCAL6", Exact(16), Address;
        }
    };
}

/// IFLA_IPOIB_* (if_link.h).
#[macro_export]
macro_rules! ipoib {
    ($write:ident) => {
        $write! {
            1, b"IFLA_IPOIB_PKEY", Exact(2), Number(PLAIN);
            2, b"IFLA_IPOIB_MODE", Exact(2), Number(PLAIN);
            3, b"IFLA_IPOIB_UMCAST", Exact(2), Number(PLAIN);
        }
    };
}

/// IFLA_IPVLAN_*, of ipvlan and ipvtap (if_link.h).
#[macro_export]
macro_rules! ipvlan {
    ($write:ident) => {
        $write! {
            1, b"IFLA_IPVLAN_MODE", Exact(2), Number(IP_VLAN_MODE);
            2, b"IFLA_IPVLAN_FLAGS", Exact(2), Flags;
        }
    };
}

/// IFLA_IPTUN_* (if_tunnel.h), by the size of the flags.
#[macro_export]
macro_rules! ip_tunnel {
    ($write:ident, $flags:expr) => {
        $write! {
            1, b"IFLA_IPTUN_LINK", Exact(4), Number(PLAIN);
            2, b"IFLA_IPTUN_LOCAL", Either(4, 16), Address;
            3, b"IFLA_IPTUN_REMOTE", Either(4, 16), Address;
            4, b"IFLA_IPTUN_TTL", Exact(1), Number(PLAIN);
            5, b"IFLA_IPTUN_TOS", Exact(1), Number(PLAIN);
            6, b"IFLA_IPTUN_ENCAP_LIMIT", Exact(1), Number(PLAIN);
            7, b"IFLA_IPTUN_FLOWINFO", Exact(4), BigEndian(PLAIN);
            8, b"IFLA_IPTUN_FLAGS", $flags, Flags;
            9, b"IFLA_IPTUN_PROTO", Exact(1), Number(PLAIN);
            10, b"IFLA_IPTUN_PMTUDISC", BooleanIfNonzero, Boolean;
            11, b"IFLA_IPTUN_6RD_PREFIX", Exact(16), Address;
            12, b"IFLA_IPTUN_6RD_RELAY_PREFIX", Exact(4), Address;
            13, b"IFLA_IPTUN_6RD_PREFIXLEN", Exact(2), Number(PLAIN);
            14, b"IFLA_IPTUN_6RD_RELAY_PREFIXLEN", Exact(2), Number(PLAIN);
            15, b"IFLA_IPTUN_ENCAP_TYPE", Exact(2), Number(TUNNEL_ENCAP_TYPE);
            16, b"IFLA_IPTUN_ENCAP_FLAGS", Exact(2), Flags;
            17, b"IFLA_IPTUN_ENCAP_SPORT", Exact(2), BigEndian(PLAIN);
            18, b"IFLA_IPTUN_ENCAP_DPORT", Exact(2), BigEndian(PLAIN);
            19, b"IFLA_IPTUN_COLLECT_METADATA", Presence, Presence;
            20, b"IFLA_IPTUN_FWMARK", Exact(4), Number(PLAIN);
        }
    };
}

/// IFLA_IPTUN_* of ipip and sit, with flags of 2 bytes.
#[macro_export]
macro_rules! ip4_tunnel {
    ($write:ident) => {
        $crate::ip_tunnel! { $write, Exact(2) }
    };
}

/// IFLA_IPTUN_* of ip6tnl, with flags of 4 bytes.
#[macro_export]
macro_rules! ip6_tunnel {
    ($write:ident) => {
        $crate::ip_tunnel! { $write, Exact(4) }
    };
}

/// IFLA_MACVLAN_*, of macvlan and macvtap (if_link.h).
#[macro_export]
macro_rules! macvlan {
    ($write:ident) => {
        $write! {
            1, b"IFLA_MACVLAN_MODE", Exact(4), Number(MAC_VLAN_MODE);
            2, b"IFLA_MACVLAN_FLAGS", Exact(2), Flags;
            3, b"IFLA_MACVLAN_MACADDR_MODE", Exact(4), Number(PLAIN);
            4, b"IFLA_MACVLAN_MACADDR", Exact(6), HardwareAddress;
            5 -> b"IFLA_MACVLAN_MACADDR_DATA", List(Any, MACVLAN_ADDRESS);
            6, b"IFLA_MACVLAN_MACADDR_COUNT", Exact(4), Number(PLAIN);
            7, b"IFLA_MACVLAN_BC_QUEUE_LEN", Exact(4), Number(PLAIN);
            8, b"IFLA_MACVLAN_BC_QUEUE_LEN_USED", Exact(4), Number(PLAIN);
            9, b"IFLA_MACVLAN_BC_CUTOFF", Exact(4), Signed(PLAIN);
        }
    };
}

/// IFLA_MACVLAN_* inside a list of source addresses.
#[macro_export]
macro_rules! macvlan_address {
    ($write:ident) => {
        $write! {
            1, b"IFLA_MACVLAN_MODE", Exact(4), Number(MAC_VLAN_MODE);
            2, b"IFLA_MACVLAN_FLAGS", Exact(2), Flags;
            3, b"IFLA_MACVLAN_MACADDR_MODE", Exact(4), Number(PLAIN);
            4, b"IFLA_MACVLAN_MACADDR", Exact(6), HardwareAddress;
            5;
            6, b"IFLA_MACVLAN_MACADDR_COUNT", Exact(4), Number(PLAIN);
            7, b"IFLA_MACVLAN_BC_QUEUE_LEN", Exact(4), Number(PLAIN);
            8, b"IFLA_MACVLAN_BC_QUEUE_LEN_USED", Exact(4), Number(PLAIN);
            9, b"IFLA_MACVLAN_BC_CUTOFF", Exact(4), Signed(PLAIN);
        }
    };
}

/// IFLA_MACSEC_* (if_link.h).
#[macro_export]
macro_rules! macsec {
    ($write:ident) => {
        $write! {
            1, b"IFLA_MACSEC_SCI", Exact(8), Number(PLAIN);
            2, b"IFLA_MACSEC_PORT", Exact(2), BigEndian(PLAIN);
            3, b"IFLA_MACSEC_ICV_LEN", Exact(1), Number(PLAIN);
            4, b"IFLA_MACSEC_CIPHER_SUITE", Exact(8), Number(PLAIN);
            5, b"IFLA_MACSEC_WINDOW", Exact(4), Number(PLAIN);
            6, b"IFLA_MACSEC_ENCODING_SA", Exact(1), Number(PLAIN);
            7, b"IFLA_MACSEC_ENCRYPT", Exact(1), Number(PLAIN);
            8, b"IFLA_MACSEC_PROTECT", Exact(1), Number(PLAIN);
            9, b"IFLA_MACSEC_INC_SCI", Exact(1), Number(PLAIN);
            10, b"IFLA_MACSEC_ES", Exact(1), Number(PLAIN);
            11, b"IFLA_MACSEC_SCB", Exact(1), Number(PLAIN);
            12, b"IFLA_MACSEC_REPLAY_PROTECT", Exact(1), Number(PLAIN);
            13, b"IFLA_MACSEC_VALIDATION", Exact(1), Number(PLAIN);
            14;
            15, b"IFLA_MACSEC_OFFLOAD", Exact(1), Number(PLAIN);
        }
    };
}

/// IFLA_NETKIT_* (if_link.h).
#[macro_export]
macro_rules! netkit {
    ($write:ident) => {
        $write! {
            1 -> b"IFLA_NETKIT_PEER_INFO", Peer;
            2, b"IFLA_NETKIT_PRIMARY", BooleanIfNonzero, Boolean;
            3, b"IFLA_NETKIT_POLICY", Exact(4), Number(NETKIT_POLICY);
            4, b"IFLA_NETKIT_PEER_POLICY", Exact(4), Number(NETKIT_POLICY);
            5, b"IFLA_NETKIT_MODE", Exact(4), Number(NETKIT_MODE);
            6, b"IFLA_NETKIT_SCRUB", BooleanOfFour, Number(NETKIT_SCRUB);
            7, b"IFLA_NETKIT_PEER_SCRUB", BooleanOfFour, Number(NETKIT_SCRUB);
            8, b"IFLA_NETKIT_HEADROOM", Exact(2), Number(PLAIN);
            9, b"IFLA_NETKIT_TAILROOM", Exact(2), Number(PLAIN);
        }
    };
}

/// VETH_INFO_* (veth.h).
#[macro_export]
macro_rules! veth {
    ($write:ident) => {
        $write! {
            1 -> b"VETH_INFO_PEER", Peer;
        }
    };
}

/// IFLA_RMNET_* (if_link.h).
#[macro_export]
macro_rules! rmnet {
    ($write:ident) => {
        $write! {
            1, b"IFLA_RMNET_MUX_ID", Exact(2), Number(PLAIN);
            2, b"IFLA_RMNET_FLAGS", Exact(8), FlagsAndMask(PLAIN);
        }
    };
}

/// IFLA_VRF_* and IFLA_VRF_PORT_* (if_link.h).
#[macro_export]
macro_rules! vrf {
    ($write:ident) => {
        $write! {
            1, b"IFLA_VRF_TABLE", Exact(4), Number(PLAIN);
        }
    };
}

/// IFLA_WWAN_* (wwan.h).
#[macro_export]
macro_rules! wwan {
    ($write:ident) => {
        $write! {
            1, b"IFLA_WWAN_LINK_ID", Exact(4), Number(PLAIN);
        }
    };
}

/// IFLA_XFRM_* (if_link.h).
#[macro_export]
macro_rules! xfrm {
    ($write:ident) => {
        $write! {
            1, b"IFLA_XFRM_LINK", Exact(4), Number(PLAIN);
            2, b"IFLA_XFRM_IF_ID", Exact(4), Number(PLAIN);
        }
    };
}

/// IFLA_VTI_* (if_tunnel.h).
#[macro_export]
macro_rules! vti {
    ($write:ident) => {
        $write! {
            1, b"IFLA_VTI_LINK", Exact(4), Number(PLAIN);
            2, b"IFLA_VTI_IKEY", Exact(4), BigEndian(PLAIN);
            3, b"IFLA_VTI_OKEY", Exact(4), BigEndian(PLAIN);
            4, b"IFLA_VTI_LOCAL", Either(4, 16), Address;
            5, b"IFLA_VTI_REMOTE", Either(4, 16), Address;
            6, b"IFLA_VTI_FWMARK", Exact(4), Number(PLAIN);
        }
    };
}

/// IFLA_VXLAN_* (if_link.h).
#[macro_export]
macro_rules! vxlan {
    ($write:ident) => {
        $write! {
            1, b"IFLA_VXLAN_ID", Exact(4), Number(PLAIN);
            2, b"IFLA_VXLAN_GROUP", Exact(4), Address;
            3, b"IFLA_VXLAN_LINK", Exact(4), Number(PLAIN);
            4, b"IFLA_VXLAN_LOCAL", Exact(4), Address;
            5, b"IFLA_VXLAN_TTL", Exact(1), Number(PLAIN);
            6, b"IFLA_VXLAN_TOS", Exact(1), Number(PLAIN);
            7, b"IFLA_VXLAN_LEARNING", BooleanIfNonzero, Boolean;
            8, b"IFLA_VXLAN_AGEING", Exact(4), Number(PLAIN);
            9, b"IFLA_VXLAN_LIMIT", Exact(4), Number(PLAIN);
            10, b"IFLA_VXLAN_PORT_RANGE", Exact(4), PortRange;
            11, b"IFLA_VXLAN_PROXY", BooleanIfNonzero, Boolean;
            12, b"IFLA_VXLAN_RSC", BooleanIfNonzero, Boolean;
            13, b"IFLA_VXLAN_L2MISS", BooleanIfNonzero, Boolean;
            14, b"IFLA_VXLAN_L3MISS", BooleanIfNonzero, Boolean;
            15, b"IFLA_VXLAN_PORT", Exact(2), BigEndian(PLAIN);
            16, b"IFLA_VXLAN_GROUP6", Exact(16), Address;
            17, b"IFLA_VXLAN_LOCAL6", Exact(16), Address;
            18, b"IFLA_VXLAN_UDP_CSUM", BooleanIfNonzero, Boolean;
            19, b"IFLA_VXLAN_UDP_ZERO_CSUM6_TX", BooleanIfNonzero, Boolean;
            20, b"IFLA_VXLAN_UDP_ZERO_CSUM6_RX", BooleanIfNonzero, Boolean;
            21, b"IFLA_VXLAN_REMCSUM_TX", BooleanIfNonzero, Boolean;
            22, b"IFLA_VXLAN_REMCSUM_RX", BooleanIfNonzero, Boolean;
            23, b"IFLA_VXLAN_GBP", Presence, Presence;
            24, b"IFLA_VXLAN_REMCSUM_NOPARTIAL", Presence, Presence;
            25, b"IFLA_VXLAN_COLLECT_METADATA", BooleanIfNonzero, Boolean;
            26, b"IFLA_VXLAN_LABEL", Exact(4), BigEndian(PLAIN);
            27, b"IFLA_VXLAN_GPE", Presence, Presence;
            28, b"IFLA_VXLAN_TTL_INHERIT", AtMost(1), OptionalByte;
            29, b"IFLA_VXLAN_DF", Exact(1), Number(VXLAN_DF);
            30, b"IFLA_VXLAN_VNIFILTER", BooleanIfNonzero, Boolean;
            31, b"IFLA_VXLAN_LOCALBYPASS", BooleanIfNonzero, Boolean;
            32, b"IFLA_VXLAN_LABEL_POLICY", Exact(4), Number(PLAIN);
            33, b"IFLA_VXLAN_RESERVED_BITS", Exact(8), BigEndian(PLAIN);
            34, b"IFLA_VXLAN_MC_ROUTE", BooleanIfNonzero, Boolean;
        }
    };
}

/// VXCAN_INFO_* (can/vxcan.h), with the same payloads as VETH_INFO_*.
#[macro_export]
macro_rules! vxcan {
    ($write:ident) => {
        $write! {
            1 -> b"VXCAN_INFO_PEER", Peer;
        }
    };
}

/// The tables of data in the order of their indexes, after other expressions: an array with what the
/// macro whose name is given makes of each list.
#[macro_export]
macro_rules! data_tables {
    ($write:ident $(, $before:expr)*) => {
        [
            $($before,)*
            &$crate::amt!($write),
            &$crate::bareudp!($write),
            &$crate::batadv!($write),
            &$crate::geneve!($write),
            &$crate::gre!($write),
            &$crate::gre6!($write),
            &$crate::gtp!($write),
            &$crate::ipoib!($write),
            &$crate::ipvlan!($write),
            &$crate::ip4_tunnel!($write),
            &$crate::ip6_tunnel!($write),
            &$crate::macvlan!($write),
            &$crate::macvlan_address!($write),
            &$crate::macsec!($write),
            &$crate::netkit!($write),
            &$crate::veth!($write),
            &$crate::rmnet!($write),
            &$crate::vrf!($write),
            &$crate::wwan!($write),
            &$crate::xfrm!($write),
            &$crate::vti!($write),
            &$crate::vxlan!($write),
            &$crate::vxcan!($write),
        ]
    };
}

/// The payload of data, by the name of the kind.
pub const KINDS: [NameRow; 38] = [
    NameRow(6, *b"bridge\0\0\0\0\0\0", List(Any, BRIDGE)),
    NameRow(3, *b"tun\0\0\0\0\0\0\0\0\0", List(Any, TUN)),
    NameRow(4, *b"vlan\0\0\0\0\0\0\0\0", List(Any, VLAN)),
    NameRow(4, *b"bond\0\0\0\0\0\0\0\0", List(Any, BOND)),
    NameRow(9, *b"wireguard\0\0\0", List(Any, RAW)),
    NameRow(3, *b"hsr\0\0\0\0\0\0\0\0\0", List(Any, HSR)),
    NameRow(3, *b"can\0\0\0\0\0\0\0\0\0", List(Any, CAN)),
    NameRow(3, *b"dsa\0\0\0\0\0\0\0\0\0", List(Any, DSA)),
    NameRow(6, *b"ipvlan\0\0\0\0\0\0", List(Any, IPVLAN)),
    NameRow(6, *b"ipvtap\0\0\0\0\0\0", List(Any, IPVLAN)),
    NameRow(3, *b"vti\0\0\0\0\0\0\0\0\0", List(Any, VTI)),
    NameRow(4, *b"vti6\0\0\0\0\0\0\0\0", List(Any, VTI)),
    NameRow(3, *b"vrf\0\0\0\0\0\0\0\0\0", List(Any, VRF)),
    NameRow(5, *b"ipoib\0\0\0\0\0\0\0", List(Any, IPOIB)),
    NameRow(4, *b"xfrm\0\0\0\0\0\0\0\0", List(Any, XFRM)),
    NameRow(6, *b"batadv\0\0\0\0\0\0", List(Any, BATADV)),
    NameRow(7, *b"bareudp\0\0\0\0\0", List(Any, BAREUDP)),
    NameRow(4, *b"wwan\0\0\0\0\0\0\0\0", List(Any, WWAN)),
    NameRow(5, *b"rmnet\0\0\0\0\0\0\0", List(Any, RMNET)),
    NameRow(3, *b"amt\0\0\0\0\0\0\0\0\0", List(Any, AMT)),
    NameRow(6, *b"geneve\0\0\0\0\0\0", List(Any, GENEVE)),
    NameRow(3, *b"gtp\0\0\0\0\0\0\0\0\0", List(Any, GTP)),
    NameRow(5, *b"vxlan\0\0\0\0\0\0\0", List(Any, VXLAN)),
    NameRow(3, *b"gre\0\0\0\0\0\0\0\0\0", List(Any, GRE)),
    NameRow(6, *b"gretap\0\0\0\0\0\0", List(Any, GRE)),
    NameRow(6, *b"erspan\0\0\0\0\0\0", List(Any, GRE)),
    NameRow(6, *b"ip6gre\0\0\0\0\0\0", List(Any, GRE6)),
    NameRow(9, *b"ip6gretap\0\0\0", List(Any, GRE6)),
    NameRow(9, *b"ip6erspan\0\0\0", List(Any, GRE6)),
    NameRow(4, *b"ipip\0\0\0\0\0\0\0\0", List(Any, IP4_TUNNEL)),
    NameRow(3, *b"sit\0\0\0\0\0\0\0\0\0", List(Any, IP4_TUNNEL)),
    NameRow(6, *b"ip6tnl\0\0\0\0\0\0", List(Any, IP6_TUNNEL)),
    NameRow(6, *b"macsec\0\0\0\0\0\0", List(Any, MACSEC)),
    NameRow(7, *b"macvlan\0\0\0\0\0", List(Any, MACVLAN)),
    NameRow(7, *b"macvtap\0\0\0\0\0", List(Any, MACVLAN)),
    NameRow(6, *b"netkit\0\0\0\0\0\0", List(Any, NETKIT)),
    NameRow(4, *b"veth\0\0\0\0\0\0\0\0", List(FirstOnly, VETH)),
    NameRow(5, *b"vxcan\0\0\0\0\0\0\0", List(FirstOnly, VXCAN)),
];

/// The payload of port data, by the name of the port kind.
pub const PORT_KINDS: [NameRow; 4] = [
    NameRow(4, *b"bond\0\0\0\0\0\0\0\0", List(Any, BOND_PORT)),
    NameRow(6, *b"bridge\0\0\0\0\0\0", List(Any, BRIDGE_PORT)),
    NameRow(4, *b"team\0\0\0\0\0\0\0\0", List(Any, RAW)),
    NameRow(3, *b"vrf\0\0\0\0\0\0\0\0\0", List(Any, VRF)),
];

/// Returns the payload of the data under a kind's name.
pub fn data_held(name: &[u8]) -> Held
    ensures is { result ≡ held_by_name KINDS name.now }
    ensures rule { (p : RuleOfPeers) → held_rule p result ≡ rule_or_raw p (payload_at kinds name.now) }
{
    held_by_name(&KINDS, name)
}

/// Returns the payload of the port data under a port kind's name.
pub fn port_held(name: &[u8]) -> Held
    ensures is { result ≡ held_by_name PORT_KINDS name.now }
    ensures rule { (p : RuleOfPeers) → held_rule p result ≡ rule_or_raw p (payload_at port_kinds name.now) }
{
    held_by_name(&PORT_KINDS, name)
}
