//! The attributes of links, table by table, in the format of the lists of link info.

/// IFLA_XDP_* (if_link.h).
#[macro_export]
macro_rules! xdp {
    ($write:ident) => {
        $write! {
            1, b"IFLA_XDP_FD", Exact(4), Signed(PLAIN);
            2, b"IFLA_XDP_ATTACHED", Exact(1), Number(PLAIN);
            3, b"IFLA_XDP_FLAGS", Exact(4), Number(PLAIN);
            4, b"IFLA_XDP_PROG_ID", Exact(4), Number(PLAIN);
            5, b"IFLA_XDP_DRV_PROG_ID", Exact(4), Number(PLAIN);
            6, b"IFLA_XDP_SKB_PROG_ID", Exact(4), Number(PLAIN);
            7, b"IFLA_XDP_HW_PROG_ID", Exact(4), Number(PLAIN);
            8, b"IFLA_XDP_EXPECTED_FD", Exact(4), Number(PLAIN);
        }
    };
}

/// IFLA_PROP_LIST: alternative names of the link (if_link.h).
#[macro_export]
macro_rules! props {
    ($write:ident) => {
        $write! {
            53, b"IFLA_ALT_IFNAME", Text, Text;
        }
    };
}

/// IFLA_PROTO_DOWN_REASON_* (if_link.h).
#[macro_export]
macro_rules! protocol_down_reason {
    ($write:ident) => {
        $write! {
            1, b"IFLA_PROTO_DOWN_REASON_MASK", Exact(4), Number(PLAIN);
            2, b"IFLA_PROTO_DOWN_REASON_VALUE", Exact(4), Number(PLAIN);
        }
    };
}

/// DEVLINK_ATTR_* (devlink.h).
#[macro_export]
macro_rules! devlink_port {
    ($write:ident) => {
        $write! {
            1, b"DEVLINK_ATTR_BUS_NAME", Text, Text;
            2, b"DEVLINK_ATTR_DEV_NAME", Text, Text;
            3, b"DEVLINK_ATTR_PORT_INDEX", Exact(4), Number(PLAIN);
        }
    };
}

/// DPLL_A_PIN_* (dpll.h).
#[macro_export]
macro_rules! dpll_pin {
    ($write:ident) => {
        $write! {
            1, b"DPLL_A_PIN_ID", Exact(4), Number(PLAIN);
        }
    };
}

/// IFLA_MCTP_* (if_link.h).
#[macro_export]
macro_rules! mctp {
    ($write:ident) => {
        $write! {
            1, b"IFLA_MCTP_NET", Exact(4), Number(PLAIN);
            2, b"IFLA_MCTP_PHYS_BINDING", Exact(1), Number(MCTP_PHYS_BINDING);
        }
    };
}

/// IFLA_INET_* (if_link.h).
#[macro_export]
macro_rules! inet {
    ($write:ident) => {
        $write! {
            1, b"IFLA_INET_CONF", Resized(132), SparseRecord(IPV4_DEVCONF);
        }
    };
}

/// IFLA_INET6_* (if_link.h).
#[macro_export]
macro_rules! inet6 {
    ($write:ident) => {
        $write! {
            1, b"IFLA_INET6_FLAGS", Exact(4), Flags;
            2, b"IFLA_INET6_CONF", Resized(236), SparseRecord(IPV6_DEVCONF);
            3, b"IFLA_INET6_STATS", Resized(304), SparseRecord(IP6_STATS);
            4;
            5, b"IFLA_INET6_CACHEINFO", FixedRecord(16, 16), Fields(CACHEINFO);
            6, b"IFLA_INET6_ICMP6STATS", Resized(56), SparseRecord(ICMP6_STATS);
            7, b"IFLA_INET6_TOKEN", Exact(16), Address;
            8, b"IFLA_INET6_ADDR_GEN_MODE", Exact(1), Number(IN6_ADDR_GEN_MODE);
            9, b"IFLA_INET6_RA_MTU", Exact(4), Number(PLAIN);
        }
    };
}

/// IFLA_AF_SPEC if the link's family is AF_UNSPEC: the attributes of each family, by its number
/// (socket.h, AF_*).
#[macro_export]
macro_rules! specific {
    ($write:ident) => {
        $write! {
            2 -> b"AF_INET", List(Any, INET);
            3; 4; 5; 6; 7; 8; 9;
            10 -> b"AF_INET6", List(Any, INET6);
            11; 12; 13; 14; 15; 16; 17; 18; 19; 20; 21; 22; 23; 24; 25; 26;
            27; 28; 29; 30; 31; 32; 33; 34; 35; 36; 37; 38; 39; 40; 41; 42;
            43; 44;
            45 -> b"AF_MCTP", List(Any, MCTP);
        }
    };
}

/// IFLA_VF_STATS_* (if_link.h).
#[macro_export]
macro_rules! vf_stats {
    ($write:ident) => {
        $write! {
            0, b"IFLA_VF_STATS_RX_PACKETS", Exact(8), Number(PLAIN);
            1, b"IFLA_VF_STATS_TX_PACKETS", Exact(8), Number(PLAIN);
            2, b"IFLA_VF_STATS_RX_BYTES", Exact(8), Number(PLAIN);
            3, b"IFLA_VF_STATS_TX_BYTES", Exact(8), Number(PLAIN);
            4, b"IFLA_VF_STATS_BROADCAST", Exact(8), Number(PLAIN);
            5, b"IFLA_VF_STATS_MULTICAST", Exact(8), Number(PLAIN);
            6;
            7, b"IFLA_VF_STATS_RX_DROPPED", Exact(8), Number(PLAIN);
            8, b"IFLA_VF_STATS_TX_DROPPED", Exact(8), Number(PLAIN);
        }
    };
}

/// IFLA_VF_VLAN_* (if_link.h).
#[macro_export]
macro_rules! vf_vlans {
    ($write:ident) => {
        $write! {
            1, b"IFLA_VF_VLAN_INFO", FixedRecord(14, 16), Fields(VF_VLAN_INFO);
        }
    };
}

/// IFLA_VF_* (if_link.h).
#[macro_export]
macro_rules! vf {
    ($write:ident) => {
        $write! {
            1, b"IFLA_VF_MAC", FixedRecord(36, 36), Fields(VF_MAC);
            2, b"IFLA_VF_VLAN", FixedRecord(12, 12), Fields(VF_VLAN);
            3, b"IFLA_VF_TX_RATE", FixedRecord(8, 8), Fields(VF_TX_RATE);
            4, b"IFLA_VF_SPOOFCHK", IdAndBoolean, Fields(VF_SETTING);
            5, b"IFLA_VF_LINK_STATE", FixedRecord(8, 8), Fields(VF_LINK_STATE);
            6, b"IFLA_VF_RATE", FixedRecord(12, 12), Fields(VF_RATE);
            7, b"IFLA_VF_RSS_QUERY_EN", IdAndBoolean, Fields(VF_SETTING);
            8 -> b"IFLA_VF_STATS", List(Any, VF_STATS);
            9, b"IFLA_VF_TRUST", IdAndBoolean, Fields(VF_SETTING);
            10; 11;
            12 -> b"IFLA_VF_VLAN_LIST", List(Any, VF_VLANS);
            13, b"IFLA_VF_BROADCAST", FixedRecord(32, 32), Fields(VF_BROADCAST);
        }
    };
}

/// IFLA_VFINFO_LIST (if_link.h).
#[macro_export]
macro_rules! vf_infos {
    ($write:ident) => {
        $write! {
            1 -> b"IFLA_VF_INFO", List(Any, VF);
        }
    };
}

/// IFLA_VF_PORTS (if_link.h).
#[macro_export]
macro_rules! vf_ports {
    ($write:ident) => {
        $write! {
            1 -> b"IFLA_VF_PORT", List(Any, PORT);
        }
    };
}

/// IFLA_* (if_link.h), with the rows of IFLA_PROTINFO (12) and IFLA_AF_SPEC (26), which depend on
/// the family.
#[macro_export]
macro_rules! link {
    ($write:ident, {$($protocol:tt)*}, {$($specific:tt)*}) => {
        $write! {
            1, b"IFLA_ADDRESS", Raw, HardwareAddress;
            2, b"IFLA_BROADCAST", Raw, HardwareAddress;
            3, b"IFLA_IFNAME", Text, Text;
            4, b"IFLA_MTU", Exact(4), Number(PLAIN);
            5, b"IFLA_LINK", Exact(4), Number(PLAIN);
            6, b"IFLA_QDISC", Text, Text;
            7, b"IFLA_STATS", Resized(96), SparseRecord(STATS);
            8; 9;
            10, b"IFLA_MASTER", Exact(4), Number(PLAIN);
            11;
            $($protocol)*
            13, b"IFLA_TXQLEN", Exact(4), Number(PLAIN);
            14, b"IFLA_MAP", FixedRecord(28, 32), Fields(MAP);
            15;
            16, b"IFLA_OPERSTATE", Exact(1), Number(STATE);
            17, b"IFLA_LINKMODE", Exact(1), Number(LINK_MODE);
            18 -> b"IFLA_LINKINFO", LinkInfo;
            19, b"IFLA_NET_NS_PID", Exact(4), Number(PLAIN);
            20, b"IFLA_IFALIAS", Text, Text;
            21, b"IFLA_NUM_VF", Exact(4), Number(PLAIN);
            22 -> b"IFLA_VFINFO_LIST", List(OfKindOne, VF_INFOS);
            23, b"IFLA_STATS64", Resized(200), SparseRecord(STATS64);
            24 -> b"IFLA_VF_PORTS", List(Ports, VF_PORTS);
            25 -> b"IFLA_PORT_SELF", List(Any, PORT);
            $($specific)*
            27, b"IFLA_GROUP", Exact(4), Number(PLAIN);
            28, b"IFLA_NET_NS_FD", Exact(4), Signed(PLAIN);
            29, b"IFLA_EXT_MASK", Exact(4), NamedFlags(LINK_EXTENT_MASK);
            30, b"IFLA_PROMISCUITY", Exact(4), Number(PLAIN);
            31, b"IFLA_NUM_TX_QUEUES", Exact(4), Number(PLAIN);
            32, b"IFLA_NUM_RX_QUEUES", Exact(4), Number(PLAIN);
            33, b"IFLA_CARRIER", Exact(1), Number(PLAIN);
            34, b"IFLA_PHYS_PORT_ID", Raw, HardwareAddress;
            35, b"IFLA_CARRIER_CHANGES", Exact(4), Number(PLAIN);
            36, b"IFLA_PHYS_SWITCH_ID", Raw, HardwareAddress;
            37, b"IFLA_LINK_NETNSID", Exact(4), Number(PLAIN);
            38, b"IFLA_PHYS_PORT_NAME", Text, Text;
            39, b"IFLA_PROTO_DOWN", Exact(1), Number(PLAIN);
            40, b"IFLA_GSO_MAX_SEGS", Exact(4), Number(PLAIN);
            41, b"IFLA_GSO_MAX_SIZE", Exact(4), Number(PLAIN);
            42;
            43 -> b"IFLA_XDP", List(Any, XDP);
            44, b"IFLA_EVENT", Exact(4), Number(PLAIN);
            45, b"IFLA_NEW_NETNSID", Exact(4), Number(PLAIN);
            46, b"IFLA_IF_NETNSID", Exact(4), Number(PLAIN);
            47, b"IFLA_CARRIER_UP_COUNT", Exact(4), Number(PLAIN);
            48, b"IFLA_CARRIER_DOWN_COUNT", Exact(4), Number(PLAIN);
            49, b"IFLA_NEW_IFINDEX", Exact(4), Number(PLAIN);
            50, b"IFLA_MIN_MTU", Exact(4), Number(PLAIN);
            51, b"IFLA_MAX_MTU", Exact(4), Number(PLAIN);
            52 => b"IFLA_PROP_LIST", List(Any, PROPS);
            53;
            54, b"IFLA_PERM_ADDRESS", Raw, HardwareAddress;
            55 => b"IFLA_PROTO_DOWN_REASON", List(Any, PROTOCOL_DOWN_REASON);
            56, b"IFLA_PARENT_DEV_NAME", Text, Text;
            57, b"IFLA_PARENT_DEV_BUS_NAME", Text, Text;
            58, b"IFLA_GRO_MAX_SIZE", Exact(4), Number(PLAIN);
            59, b"IFLA_TSO_MAX_SIZE", Exact(4), Number(PLAIN);
            60, b"IFLA_TSO_MAX_SEGS", Exact(4), Number(PLAIN);
            61, b"IFLA_ALLMULTI", Exact(4), Number(PLAIN);
            62 => b"IFLA_DEVLINK_PORT", List(Any, DEVLINK_PORT);
            63, b"IFLA_GSO_IPV4_MAX_SIZE", Exact(4), Number(PLAIN);
            64, b"IFLA_GRO_IPV4_MAX_SIZE", Exact(4), Number(PLAIN);
            65 => b"IFLA_DPLL_PIN", List(Any, DPLL_PIN);
        }
    };
}

/// IFLA_* under AF_UNSPEC (if_link.h).
#[macro_export]
macro_rules! link_unspec {
    ($write:ident) => {
        $crate::link! {
            $write,
            { 12; },
            { 26 -> b"IFLA_AF_SPEC", List(Any, SPECIFIC); }
        }
    };
}

/// IFLA_* under AF_BRIDGE (if_link.h).
#[macro_export]
macro_rules! link_bridge {
    ($write:ident) => {
        $crate::link! {
            $write,
            { 12 -> b"IFLA_PROTINFO", List(Any, BRIDGE_PORT); },
            { 26 -> b"IFLA_AF_SPEC", List(Any, BRIDGE_SPECIFIC); }
        }
    };
}

/// IFLA_* under AF_INET6 (if_link.h).
#[macro_export]
macro_rules! link_inet6 {
    ($write:ident) => {
        $crate::link! {
            $write,
            { 12 -> b"IFLA_PROTINFO", List(Any, INET6_PROTOCOL); },
            { 26, b"IFLA_AF_SPEC", Raw, Bytes; }
        }
    };
}

/// IFLA_* under any other family (if_link.h).
#[macro_export]
macro_rules! link_other {
    ($write:ident) => {
        $crate::link! {
            $write,
            { 12; },
            { 26, b"IFLA_AF_SPEC", Raw, Bytes; }
        }
    };
}
