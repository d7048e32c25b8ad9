//! Names at the start of lines: of attributes that are left out together, and of headers.

ghost use Rattle.std.specs.Prelude.{◌≡◌, map};
ghost use Rattle.link_lines_parts.specs.Names.{counter_names, header_names, index_names, is_among};

/// The attributes that count: statistics, ages, timers, sequence numbers.
pub const COUNTERS: &[&[u8]] = &[
    b"BRIDGE_QUERIER_IPV6_OTHER_TIMER",
    b"BRIDGE_QUERIER_IP_OTHER_TIMER",
    b"BRIDGE_VLANDB_ENTRY_MCAST_N_GROUPS",
    b"BRIDGE_VLANDB_ENTRY_STATS",
    b"IFA_CACHEINFO",
    b"IFLA_BOND_SLAVE_LINK_FAILURE_COUNT",
    b"IFLA_BRPORT_FORWARD_DELAY_TIMER",
    b"IFLA_BRPORT_HOLD_TIMER",
    b"IFLA_BRPORT_MCAST_EHT_HOSTS_CNT",
    b"IFLA_BRPORT_MCAST_N_GROUPS",
    b"IFLA_BRPORT_MESSAGE_AGE_TIMER",
    b"IFLA_BR_FDB_N_LEARNED",
    b"IFLA_BR_GC_TIMER",
    b"IFLA_BR_HELLO_TIMER",
    b"IFLA_BR_TCN_TIMER",
    b"IFLA_BR_TOPOLOGY_CHANGE_TIMER",
    b"IFLA_CAN_BERR_COUNTER",
    b"IFLA_CARRIER_CHANGES",
    b"IFLA_CARRIER_DOWN_COUNT",
    b"IFLA_CARRIER_UP_COUNT",
    b"IFLA_HSR_SEQ_NR",
    b"IFLA_INET6_CACHEINFO",
    b"IFLA_INET6_ICMP6STATS",
    b"IFLA_INET6_STATS",
    b"IFLA_INFO_XSTATS",
    b"IFLA_STATS",
    b"IFLA_STATS64",
    b"IFLA_STATS_AF_SPEC",
    b"IFLA_STATS_LINK_64",
    b"IFLA_STATS_LINK_OFFLOAD_XSTATS",
    b"IFLA_STATS_LINK_XSTATS",
    b"IFLA_STATS_LINK_XSTATS_SLAVE",
    b"IFLA_VF_STATS",
    b"MDBA_MDB_EATTR_TIMER",
    b"MDBA_MDB_SRCATTR_TIMER",
    b"MDBA_ROUTER_PATTR_INET6_TIMER",
    b"MDBA_ROUTER_PATTR_INET_TIMER",
    b"MDBA_ROUTER_PATTR_TIMER",
    b"NDA_CACHEINFO",
    b"NDA_PROBES",
    b"NDTA_CONFIG",
    b"NDTA_STATS",
    b"NDTPA_REFCNT",
    b"NHA_GROUP_STATS",
    b"NHA_RES_BUCKET_IDLE_TIME",
    b"NHA_RES_GROUP_UNBALANCED_TIME",
    b"PREFIX_CACHEINFO",
    b"RTA_CACHEINFO",
    b"RTA_EXPIRES",
    b"RTA_MFC_STATS",
    b"SEG6_LOCAL_COUNTERS",
    b"TCA_ACT_STATS",
    b"TCA_ROOT_TIME_DELTA",
    b"TCA_STATS",
    b"TCA_STATS2",
    b"TCA_XSTATS",
    b"VXLAN_VNIFILTER_ENTRY_STATS",
];

/// The attributes with an index of a link or a number of a namespace.
pub const INDEXES: &[&[u8]] = &[
    b"BRIDGE_QUERIER_IPV6_PORT",
    b"BRIDGE_QUERIER_IP_PORT",
    b"IFA_TARGET_NETNSID",
    b"IFLA_AMT_LINK",
    b"IFLA_BOND_ACTIVE_SLAVE",
    b"IFLA_BOND_PRIMARY",
    b"IFLA_BRIDGE_CFM_MEP_CREATE_IFINDEX",
    b"IFLA_BRIDGE_MRP_INFO_I_IFINDEX",
    b"IFLA_BRIDGE_MRP_INFO_P_IFINDEX",
    b"IFLA_BRIDGE_MRP_INFO_S_IFINDEX",
    b"IFLA_BRIDGE_MRP_INSTANCE_P_IFINDEX",
    b"IFLA_BRIDGE_MRP_INSTANCE_S_IFINDEX",
    b"IFLA_BRIDGE_MRP_IN_ROLE_I_IFINDEX",
    b"IFLA_BRPORT_BACKUP_PORT",
    b"IFLA_DSA_CONDUIT",
    b"IFLA_GRE_LINK",
    b"IFLA_HSR_INTERLINK",
    b"IFLA_HSR_SLAVE1",
    b"IFLA_HSR_SLAVE2",
    b"IFLA_IF_NETNSID",
    b"IFLA_IPTUN_LINK",
    b"IFLA_LINK",
    b"IFLA_LINK_NETNSID",
    b"IFLA_MASTER",
    b"IFLA_NEW_IFINDEX",
    b"IFLA_NEW_NETNSID",
    b"IFLA_VTI_LINK",
    b"IFLA_VXLAN_LINK",
    b"IFLA_XFRM_LINK",
    b"LWT_XFRM_LINK",
    b"MDBA_MDB_EATTR_IFINDEX",
    b"MDBE_ATTR_IFINDEX",
    b"NDA_IFINDEX",
    b"NDA_LINK_NETNSID",
    b"NDA_MASTER",
    b"NDTPA_IFINDEX",
    b"NETCONFA_IFINDEX",
    b"NHA_MASTER",
    b"NHA_OIF",
    b"RTA_IIF",
    b"RTA_OIF",
    b"SEG6_LOCAL_IIF",
    b"SEG6_LOCAL_OIF",
];

/// The first words of headers: of messages, and of records inside attributes.
pub const HEADERS: &[&[u8]] = &[
    b"br_mdb_entry",
    b"br_port_msg",
    b"br_vlan_msg",
    b"fib_rule_hdr",
    b"if_stats_msg",
    b"ifaddrlblmsg",
    b"ifaddrmsg",
    b"ifinfomsg",
    b"ipv6_rpl_sr_hdr",
    b"ipv6_sr_hdr",
    b"ndmsg",
    b"ndtmsg",
    b"netconfmsg",
    b"nexthop_grp",
    b"nhmsg",
    b"prefixmsg",
    b"router_port",
    b"rtgen",
    b"rtgenmsg",
    b"rtmsg",
    b"rtnexthop",
    b"seg6_iptunnel_encap",
    b"segment",
    b"tc_mirred",
    b"tc_prio_qopt",
    b"tc_u32_key",
    b"tc_u32_sel",
    b"tcamsg",
    b"tcmsg",
    b"timestamp",
    b"tunnel_msg",
];

/// Returns whether a name is one of these.
pub fn is_among(names: &[&[u8]], name: &[u8]) -> bool
    ensures { result ≡ is_among (map (λ n. n.now) names.now) name.now }
{
    for other in names {
        if *other == name {
            return true;
        }
    }
    false
}

/// Returns whether an attribute with this name counts.
#[tactic(auto, unfolding(crate::specs::Names::counter_names))]
pub(crate) fn is_counter(name: &[u8]) -> bool
    ensures { result ≡ is_among counter_names name.now }
{
    is_among(COUNTERS, name)
}

/// Returns whether an attribute with this name has an index of a link or a number of a namespace.
#[tactic(auto, unfolding(crate::specs::Names::index_names))]
pub(crate) fn is_index(name: &[u8]) -> bool
    ensures { result ≡ is_among index_names name.now }
{
    is_among(INDEXES, name)
}

/// Returns whether a word begins the lines of a header.
#[tactic(auto, unfolding(crate::specs::Names::header_names))]
pub(crate) fn is_header_word(word: &[u8]) -> bool
    ensures { result ≡ is_among header_names word.now }
{
    is_among(HEADERS, word)
}
