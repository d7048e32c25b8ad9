//! The tables of raw lists, by index.

/// A table of raw attributes, by its index.
#[derive(Clone, Copy)]
pub struct RawTable(pub u16);

/// How many indexes the tables of one file have. Those that aren't used are for new tables.
pub(crate) const GROUP_SIZE: u16 = 32;

/// IFLA_* (if_link.h): the attributes of a link that have no typed value.
pub const LINK: RawTable = RawTable(0);

/// DEVLINK_ATTR_* (devlink.h): what IFLA_DEVLINK_PORT holds.
pub const DEVLINK_PORT: RawTable = RawTable(1);

/// IFLA_GRE_* (if_tunnel.h): the data of `gre`, `gretap` and `erspan`.
pub const GRE: RawTable = RawTable(2);

/// IFLA_GRE_* (if_tunnel.h): the data of `ip6gre`, `ip6gretap` and `ip6erspan`.
pub const GRE6: RawTable = RawTable(3);

/// IFLA_GENEVE_* (if_link.h): the data of `geneve`.
pub const GENEVE: RawTable = RawTable(4);

/// IFLA_XFRM_* (if_link.h): the data of `xfrm`.
pub const XFRM: RawTable = RawTable(5);

/// IFLA_NETKIT_* (if_link.h): the data of `netkit`.
pub const NETKIT: RawTable = RawTable(6);

/// IFLA_VF_* (if_link.h): what IFLA_VF_INFO holds of a virtual function.
pub const VF: RawTable = RawTable(7);

/// IFLA_PORT_* (if_link.h): what IFLA_VF_PORT and IFLA_PORT_SELF hold.
pub const PORT: RawTable = RawTable(8);

/// AF_* (socket.h): the address families inside IFLA_AF_SPEC.
pub const FAMILY_SPECIFIC: RawTable = RawTable(9);

/// IFLA_INET_* (if_link.h): what IFLA_AF_SPEC holds for AF_INET.
pub const INET: RawTable = RawTable(10);

/// IFLA_INET6_* (if_link.h): what IFLA_AF_SPEC and IFLA_PROTINFO hold for AF_INET6.
pub const INET6: RawTable = RawTable(11);

/// IFLA_MCTP_* (if_link.h): what IFLA_AF_SPEC holds for AF_MCTP.
pub const MCTP: RawTable = RawTable(12);

/// IFLA_VLAN_* (if_link.h): the data of `vlan`.
pub const VLAN: RawTable = RawTable(32);

/// IFLA_VLAN_QOS_* (if_link.h): what IFLA_VLAN_EGRESS_QOS and IFLA_VLAN_INGRESS_QOS hold.
pub const VLAN_QOS: RawTable = RawTable(33);

/// IFLA_BOND_* (if_link.h): the data of `bond`.
pub const BOND: RawTable = RawTable(34);

/// IFLA_BOND_AD_INFO_* (if_link.h): what IFLA_BOND_AD_INFO holds.
pub const AD_INFO: RawTable = RawTable(35);

/// IPv4 addresses by their index: what IFLA_BOND_ARP_IP_TARGET (if_link.h) holds.
pub const INDEXED_IPV4: RawTable = RawTable(36);

/// IPv6 addresses by their index: what IFLA_BOND_NS_IP6_TARGET (if_link.h) holds.
pub const INDEXED_IPV6: RawTable = RawTable(37);

/// IFLA_BOND_SLAVE_* (if_link.h): the data of a port of a `bond`.
pub const BOND_PORT: RawTable = RawTable(38);

/// IFLA_TUN_* (if_link.h): the data of `tun`.
pub const TUN: RawTable = RawTable(39);

/// IFLA_CAN_* (can/netlink.h): the data of `can`.
pub const CAN: RawTable = RawTable(40);

/// IFLA_CAN_TDC_* (can/netlink.h): what IFLA_CAN_TDC and IFLA_CAN_XL_TDC hold.
pub const CAN_TDC: RawTable = RawTable(41);

/// IFLA_CAN_CTRLMODE_* (can/netlink.h): what IFLA_CAN_CTRLMODE_EXT holds.
pub const CAN_CTRLMODE_EXT: RawTable = RawTable(42);

/// IFLA_CAN_PWM_* (can/netlink.h): what IFLA_CAN_XL_PWM holds.
pub const CAN_PWM: RawTable = RawTable(43);

/// IFLA_HSR_* (if_link.h): the data of `hsr`.
pub const HSR: RawTable = RawTable(44);

/// IFLA_DSA_* (if_link.h): the data of `dsa`.
pub const DSA: RawTable = RawTable(45);

/// IFLA_BR_* (if_link.h): the data of `bridge`.
pub const BRIDGE: RawTable = RawTable(64);

/// BRIDGE_QUERIER_* (if_bridge.h): what IFLA_BR_MCAST_QUERIER_STATE and
/// BRIDGE_VLANDB_GOPTS_MCAST_QUERIER_STATE hold.
pub const QUERIER_STATE: RawTable = RawTable(65);

/// IFLA_BRPORT_* (if_link.h): the data of a port of a `bridge`.
pub const BRIDGE_PORT: RawTable = RawTable(66);

/// IFLA_BRIDGE_* (if_bridge.h): what IFLA_AF_SPEC holds under AF_BRIDGE.
pub const BRIDGE_SPECIFIC: RawTable = RawTable(67);

/// IFLA_BRIDGE_VLAN_TUNNEL_* (if_bridge.h): what IFLA_BRIDGE_VLAN_TUNNEL_INFO holds.
pub const VLAN_TUNNEL: RawTable = RawTable(68);

/// IFLA_BRIDGE_MST_* (if_bridge.h): what IFLA_BRIDGE_MST holds.
pub const MST: RawTable = RawTable(69);

/// IFLA_BRIDGE_MST_ENTRY_* (if_bridge.h): what IFLA_BRIDGE_MST_ENTRY holds.
pub const MST_ENTRY: RawTable = RawTable(70);

/// IFLA_BRIDGE_MRP_* (if_bridge.h): what IFLA_BRIDGE_MRP holds.
pub const MRP: RawTable = RawTable(71);

/// IFLA_BRIDGE_MRP_INSTANCE_* (if_bridge.h): what IFLA_BRIDGE_MRP_INSTANCE holds.
pub const MRP_INSTANCE: RawTable = RawTable(72);

/// IFLA_BRIDGE_MRP_PORT_STATE_* (if_bridge.h): what IFLA_BRIDGE_MRP_PORT_STATE holds.
pub const MRP_PORT_STATE: RawTable = RawTable(73);

/// IFLA_BRIDGE_MRP_PORT_ROLE_* (if_bridge.h): what IFLA_BRIDGE_MRP_PORT_ROLE holds.
pub const MRP_PORT_ROLE: RawTable = RawTable(74);

/// IFLA_BRIDGE_MRP_RING_STATE_* (if_bridge.h): what IFLA_BRIDGE_MRP_RING_STATE holds.
pub const MRP_RING_STATE: RawTable = RawTable(75);

/// IFLA_BRIDGE_MRP_RING_ROLE_* (if_bridge.h): what IFLA_BRIDGE_MRP_RING_ROLE holds.
pub const MRP_RING_ROLE: RawTable = RawTable(76);

/// IFLA_BRIDGE_MRP_START_TEST_* (if_bridge.h): what IFLA_BRIDGE_MRP_START_TEST holds.
pub const MRP_START_TEST: RawTable = RawTable(77);

/// IFLA_BRIDGE_MRP_INFO_* (if_bridge.h): what IFLA_BRIDGE_MRP_INFO holds.
pub const MRP_INFO: RawTable = RawTable(78);

/// IFLA_BRIDGE_MRP_IN_STATE_* (if_bridge.h): what IFLA_BRIDGE_MRP_IN_STATE holds.
pub const MRP_IN_STATE: RawTable = RawTable(79);

/// IFLA_BRIDGE_MRP_IN_ROLE_* (if_bridge.h): what IFLA_BRIDGE_MRP_IN_ROLE holds.
pub const MRP_IN_ROLE: RawTable = RawTable(80);

/// IFLA_BRIDGE_MRP_START_IN_TEST_* (if_bridge.h): what IFLA_BRIDGE_MRP_START_IN_TEST holds.
pub const MRP_START_IN_TEST: RawTable = RawTable(81);

/// IFLA_BRIDGE_CFM_* (if_bridge.h): what IFLA_BRIDGE_CFM holds.
pub const CFM: RawTable = RawTable(96);

/// IFLA_BRIDGE_CFM_MEP_CREATE_* (if_bridge.h): what IFLA_BRIDGE_CFM_MEP_CREATE and its _INFO hold.
pub const CFM_MEP_CREATE: RawTable = RawTable(97);

/// IFLA_BRIDGE_CFM_MEP_DELETE_* (if_bridge.h): what IFLA_BRIDGE_CFM_MEP_DELETE holds.
pub const CFM_MEP_DELETE: RawTable = RawTable(98);

/// IFLA_BRIDGE_CFM_MEP_CONFIG_* (if_bridge.h): what IFLA_BRIDGE_CFM_MEP_CONFIG and its _INFO hold.
pub const CFM_MEP_CONFIG: RawTable = RawTable(99);

/// IFLA_BRIDGE_CFM_CC_CONFIG_* (if_bridge.h): what IFLA_BRIDGE_CFM_CC_CONFIG and its _INFO hold.
pub const CFM_CC_CONFIG: RawTable = RawTable(100);

/// IFLA_BRIDGE_CFM_CC_PEER_MEP* (if_bridge.h): what IFLA_BRIDGE_CFM_CC_PEER_MEP_ADD, _REMOVE and
/// _INFO hold.
pub const CFM_CC_PEER_MEP: RawTable = RawTable(101);

/// IFLA_BRIDGE_CFM_CC_RDI_* (if_bridge.h): what IFLA_BRIDGE_CFM_CC_RDI and its _INFO hold.
pub const CFM_CC_RDI: RawTable = RawTable(102);

/// IFLA_BRIDGE_CFM_CC_CCM_TX_* (if_bridge.h): what IFLA_BRIDGE_CFM_CC_CCM_TX and its _INFO hold.
pub const CFM_CC_CCM_TX: RawTable = RawTable(103);

/// IFLA_BRIDGE_CFM_MEP_STATUS_* (if_bridge.h): what IFLA_BRIDGE_CFM_MEP_STATUS_INFO holds.
pub const CFM_MEP_STATUS: RawTable = RawTable(104);

/// IFLA_BRIDGE_CFM_CC_PEER_STATUS_* (if_bridge.h): what IFLA_BRIDGE_CFM_CC_PEER_STATUS_INFO holds.
pub const CFM_CC_PEER_STATUS: RawTable = RawTable(105);

/// IFA_* (if_addr.h): the attributes of an address (RTM_NEWADDR).
pub const ADDRESS: RawTable = RawTable(128);

/// RTA_* (rtnetlink.h): the attributes of a route (RTM_NEWROUTE).
pub const ROUTE: RawTable = RawTable(129);

/// RTA_* (rtnetlink.h): the attributes of a route of AF_MPLS, whose addresses are labels.
pub const MPLS_ROUTE: RawTable = RawTable(130);

/// RTA_* (rtnetlink.h): the attributes of a multicast route.
pub const MROUTE: RawTable = RawTable(131);

/// RTAX_* (rtnetlink.h): what RTA_METRICS holds.
pub const ROUTE_METRICS: RawTable = RawTable(132);

/// MPLS_IPTUNNEL_* (mpls_iptunnel.h): what RTA_ENCAP holds for LWTUNNEL_ENCAP_MPLS.
pub const ENCAP_MPLS: RawTable = RawTable(133);

/// LWTUNNEL_IP_* (lwtunnel.h): what RTA_ENCAP holds for LWTUNNEL_ENCAP_IP.
pub const ENCAP_IP: RawTable = RawTable(134);

/// ILA_ATTR_* (ila.h): what RTA_ENCAP holds for LWTUNNEL_ENCAP_ILA.
pub const ENCAP_ILA: RawTable = RawTable(135);

/// LWTUNNEL_IP6_* (lwtunnel.h): what RTA_ENCAP holds for LWTUNNEL_ENCAP_IP6.
pub const ENCAP_IP6: RawTable = RawTable(136);

/// SEG6_IPTUNNEL_* (seg6_iptunnel.h): what RTA_ENCAP holds for LWTUNNEL_ENCAP_SEG6.
pub const ENCAP_SEG6: RawTable = RawTable(137);

/// LWT_BPF_* (lwtunnel.h): what RTA_ENCAP holds for LWTUNNEL_ENCAP_BPF.
pub const ENCAP_BPF: RawTable = RawTable(138);

/// SEG6_LOCAL_* (seg6_local.h): what RTA_ENCAP holds for LWTUNNEL_ENCAP_SEG6_LOCAL.
pub const ENCAP_SEG6_LOCAL: RawTable = RawTable(139);

/// RPL_IPTUNNEL_* (rpl_iptunnel.h): what RTA_ENCAP holds for LWTUNNEL_ENCAP_RPL.
pub const ENCAP_RPL: RawTable = RawTable(140);

/// IOAM6_IPTUNNEL_* (ioam6_iptunnel.h): what RTA_ENCAP holds for LWTUNNEL_ENCAP_IOAM6.
pub const ENCAP_IOAM6: RawTable = RawTable(141);

/// LWT_XFRM_* (lwtunnel.h): what RTA_ENCAP holds for LWTUNNEL_ENCAP_XFRM.
pub const ENCAP_XFRM: RawTable = RawTable(142);

/// LWTUNNEL_IP_OPTS_* (lwtunnel.h): what LWTUNNEL_IP_OPTS and LWTUNNEL_IP6_OPTS hold.
pub const TUNNEL_OPTIONS: RawTable = RawTable(143);

/// LWTUNNEL_IP_OPT_GENEVE_* (lwtunnel.h): what LWTUNNEL_IP_OPTS_GENEVE holds.
pub const GENEVE_OPTION: RawTable = RawTable(144);

/// LWTUNNEL_IP_OPT_VXLAN_* (lwtunnel.h): what LWTUNNEL_IP_OPTS_VXLAN holds.
pub const VXLAN_OPTION: RawTable = RawTable(145);

/// LWTUNNEL_IP_OPT_ERSPAN_* (lwtunnel.h): what LWTUNNEL_IP_OPTS_ERSPAN holds.
pub const ERSPAN_OPTION: RawTable = RawTable(146);

/// LWT_BPF_PROG_* (lwtunnel.h): what LWT_BPF_IN, LWT_BPF_OUT and LWT_BPF_XMIT hold.
pub const BPF_PROGRAM: RawTable = RawTable(147);

/// SEG6_LOCAL_BPF_* (seg6_local.h): what SEG6_LOCAL_BPF holds.
pub const SEG6_LOCAL_BPF: RawTable = RawTable(148);

/// SEG6_LOCAL_CNT_* (seg6_local.h): what SEG6_LOCAL_COUNTERS holds.
pub const SEG6_LOCAL_COUNTERS: RawTable = RawTable(149);

/// SEG6_LOCAL_FLV_* (seg6_local.h): what SEG6_LOCAL_FLAVORS holds.
pub const SEG6_LOCAL_FLAVORS: RawTable = RawTable(150);

/// NDA_* (neighbour.h): the attributes of a neighbour (RTM_NEWNEIGH).
pub const NEIGHBOUR: RawTable = RawTable(160);

/// NFEA_* (neighbour.h): what NDA_FDB_EXT_ATTRS holds.
pub const FORWARDING_ENTRY: RawTable = RawTable(161);

/// FRA_* (fib_rules.h): the attributes of a rule (RTM_NEWRULE).
pub const RULE: RawTable = RawTable(162);

/// PREFIX_* (rtnetlink.h): the attributes of a prefix (RTM_NEWPREFIX).
pub const PREFIX: RawTable = RawTable(163);

/// NDTA_* (neighbour.h): the attributes of a neighbour table (RTM_NEWNEIGHTBL).
pub const NEIGHBOUR_TABLE: RawTable = RawTable(164);

/// NDTPA_* (neighbour.h): what NDTA_PARMS holds.
pub const NEIGHBOUR_TABLE_PARAMETERS: RawTable = RawTable(165);

/// IFAL_* (if_addrlabel.h): the attributes of an address label (RTM_NEWADDRLABEL).
pub const ADDRESS_LABEL: RawTable = RawTable(166);

/// NHA_* (nexthop.h): the attributes of a next hop (RTM_NEWNEXTHOP).
pub const NEXTHOP: RawTable = RawTable(167);

/// NHA_RES_GROUP_* (nexthop.h): what NHA_RES_GROUP holds.
pub const RESILIENT_GROUP: RawTable = RawTable(168);

/// NHA_RES_BUCKET_* (nexthop.h): what NHA_RES_BUCKET holds.
pub const RESILIENT_BUCKET: RawTable = RawTable(169);

/// NHA_GROUP_STATS_* (nexthop.h): what NHA_GROUP_STATS holds.
pub const GROUP_STATISTICS: RawTable = RawTable(170);

/// NHA_GROUP_STATS_ENTRY_* (nexthop.h): what NHA_GROUP_STATS_ENTRY holds.
pub const GROUP_STATISTICS_ENTRY: RawTable = RawTable(171);

/// NETCONFA_* (netconf.h): the attributes of RTM_NEWNETCONF.
pub const NETCONF: RawTable = RawTable(172);

/// NETNSA_* (net_namespace.h): the attributes of RTM_NEWNSID.
pub const NAMESPACE: RawTable = RawTable(173);

/// TCA_* (rtnetlink.h): the attributes of queueing disciplines, classes, filters and chains.
pub const TRAFFIC_CONTROL: RawTable = RawTable(192);

/// TCA_STATS_* (gen_stats.h): what TCA_STATS2 and TCA_ACT_STATS hold.
pub const TRAFFIC_CONTROL_STATISTICS: RawTable = RawTable(193);

/// TCA_STAB_* (pkt_sched.h): what TCA_STAB holds.
pub const SIZE_TABLE: RawTable = RawTable(194);

/// TCA_ROOT_* (rtnetlink.h): the attributes of RTM_NEWACTION.
pub const ACTIONS: RawTable = RawTable(195);

/// Actions by their order: what TCA_ROOT_TAB (rtnetlink.h) holds.
pub const INDEXED_ACTION: RawTable = RawTable(196);

/// TCA_ACT_* (pkt_cls.h): an action.
pub const ACTION: RawTable = RawTable(197);

/// IFLA_STATS_* (if_link.h): the attributes of RTM_NEWSTATS.
pub const STATISTICS: RawTable = RawTable(198);

/// IFLA_STATS_* (if_link.h): the attributes of RTM_GETSTATS and RTM_SETSTATS.
pub const STATISTICS_REQUEST: RawTable = RawTable(199);

/// IFLA_STATS_* (if_link.h), a filter for each: what IFLA_STATS_GET_FILTERS holds.
pub const STATISTICS_FILTERS: RawTable = RawTable(200);

/// LINK_XSTATS_TYPE_* (if_link.h): what IFLA_STATS_LINK_XSTATS and IFLA_STATS_LINK_XSTATS_SLAVE
/// hold.
pub const XSTATS: RawTable = RawTable(201);

/// BRIDGE_XSTATS_* (if_bridge.h): what LINK_XSTATS_TYPE_BRIDGE holds.
pub const BRIDGE_XSTATS: RawTable = RawTable(202);

/// BOND_XSTATS_* (if_bonding.h): what LINK_XSTATS_TYPE_BOND holds.
pub const BOND_XSTATS: RawTable = RawTable(203);

/// BOND_3AD_STAT_* (if_bonding.h): what BOND_XSTATS_3AD holds.
pub const BOND_3AD_STAT: RawTable = RawTable(204);

/// IFLA_OFFLOAD_XSTATS_* (if_link.h): what IFLA_STATS_LINK_OFFLOAD_XSTATS holds.
pub const OFFLOAD_XSTATS: RawTable = RawTable(205);

/// Entries by the kind of statistics: what IFLA_OFFLOAD_XSTATS_HW_S_INFO (if_link.h) holds.
pub const HW_S_INFO: RawTable = RawTable(206);

/// IFLA_OFFLOAD_XSTATS_HW_S_INFO_* (if_link.h): what IFLA_OFFLOAD_XSTATS_L3_STATS holds there.
pub const HW_S_INFO_ENTRY: RawTable = RawTable(207);

/// AF_* (socket.h): the address families inside IFLA_STATS_AF_SPEC.
pub const STATISTICS_FAMILIES: RawTable = RawTable(208);

/// MPLS_STATS_* (mpls.h): what IFLA_STATS_AF_SPEC holds for AF_MPLS.
pub const MPLS_STATS: RawTable = RawTable(209);

/// MDBA_* (if_bridge.h): the attributes of a message about a bridge's multicast database
/// (RTM_NEWMDB).
pub const MULTICAST: RawTable = RawTable(224);

/// MDBA_MDB_* (if_bridge.h): what MDBA_MDB holds.
pub const MULTICAST_GROUPS: RawTable = RawTable(225);

/// MDBA_MDB_ENTRY_* (if_bridge.h): what MDBA_MDB_ENTRY holds.
pub const MULTICAST_GROUP: RawTable = RawTable(226);

/// MDBA_MDB_EATTR_* (if_bridge.h): what follows the record in MDBA_MDB_ENTRY_INFO.
pub const MULTICAST_ENTRY: RawTable = RawTable(227);

/// MDBA_MDB_SRCLIST_* (if_bridge.h): what MDBA_MDB_EATTR_SRC_LIST holds.
pub const MULTICAST_SOURCES: RawTable = RawTable(228);

/// MDBA_MDB_SRCATTR_* (if_bridge.h): what MDBA_MDB_SRCLIST_ENTRY holds.
pub const MULTICAST_SOURCE: RawTable = RawTable(229);

/// MDBA_ROUTER_* (if_bridge.h): what MDBA_ROUTER holds.
pub const MULTICAST_ROUTERS: RawTable = RawTable(230);

/// MDBA_ROUTER_PATTR_* (if_bridge.h): what follows the index in MDBA_ROUTER_PORT.
pub const MULTICAST_ROUTER: RawTable = RawTable(231);

/// MDBA_SET_* (if_bridge.h): the attributes of a request to change a multicast database.
pub const MULTICAST_SET: RawTable = RawTable(232);

/// MDBA_GET_* (if_bridge.h): the attributes of a request for an entry of a multicast database.
pub const MULTICAST_GET: RawTable = RawTable(233);

/// MDBE_ATTR_* (if_bridge.h): what MDBA_SET_ENTRY_ATTRS and MDBA_GET_ENTRY_ATTRS hold.
pub const MULTICAST_ATTRIBUTES: RawTable = RawTable(234);

/// MDBE_SRC_LIST_* (if_bridge.h): what MDBE_ATTR_SRC_LIST holds.
pub const MULTICAST_SET_SOURCES: RawTable = RawTable(235);

/// MDBE_SRCATTR_* (if_bridge.h): what MDBE_SRC_LIST_ENTRY holds.
pub const MULTICAST_SET_SOURCE: RawTable = RawTable(236);

/// BRIDGE_VLANDB_* (if_bridge.h): the attributes of a bridge's VLANs (RTM_NEWVLAN).
pub const VLANS: RawTable = RawTable(237);

/// BRIDGE_VLANDB_DUMP_* (if_bridge.h): the attributes of a request for them (RTM_GETVLAN).
pub const VLANS_DUMP: RawTable = RawTable(238);

/// BRIDGE_VLANDB_ENTRY_* (if_bridge.h): what BRIDGE_VLANDB_ENTRY holds.
pub const VLAN_ENTRY: RawTable = RawTable(239);

/// BRIDGE_VLANDB_TINFO_* (if_bridge.h): what BRIDGE_VLANDB_ENTRY_TUNNEL_INFO holds.
pub const VLAN_TUNNEL_INFO: RawTable = RawTable(240);

/// BRIDGE_VLANDB_STATS_* (if_bridge.h): what BRIDGE_VLANDB_ENTRY_STATS holds.
pub const VLAN_STATISTICS: RawTable = RawTable(241);

/// BRIDGE_VLANDB_GOPTS_* (if_bridge.h): what BRIDGE_VLANDB_GLOBAL_OPTIONS holds.
pub const VLAN_GLOBAL_OPTIONS: RawTable = RawTable(242);

/// VXLAN_VNIFILTER_* (if_link.h): the attributes of RTM_NEWTUNNEL.
pub const TUNNEL: RawTable = RawTable(243);

/// VXLAN_VNIFILTER_ENTRY_* (if_link.h): what VXLAN_VNIFILTER_ENTRY holds.
pub const VNIFILTER_ENTRY: RawTable = RawTable(244);

/// VNIFILTER_ENTRY_STATS_* (if_link.h): what VXLAN_VNIFILTER_ENTRY_STATS holds.
pub const VNIFILTER_STATS: RawTable = RawTable(245);

/// NLMSGERR_ATTR_* (netlink.h): the attributes of an extended acknowledgement (NLMSG_ERROR,
/// NLMSG_DONE).
pub const ACKNOWLEDGEMENT: RawTable = RawTable(246);

/// NL_POLICY_TYPE_ATTR_* (netlink.h): what NLMSGERR_ATTR_POLICY holds.
pub const ATTRIBUTE_POLICY: RawTable = RawTable(247);

/// TCA_TBF_* (pkt_sched.h): the options of `tbf`, a queueing discipline.
pub const TBF: RawTable = RawTable(256);

/// TCA_HTB_* (pkt_sched.h): the options of `htb`, a queueing discipline, and of its classes.
pub const HTB: RawTable = RawTable(257);

/// TCA_FQ_CODEL_* (pkt_sched.h): the options of `fq_codel`, a queueing discipline.
pub const FQ_CODEL: RawTable = RawTable(258);

/// TCA_OPTIONS (rtnetlink.h): the options of `prio`, a queueing discipline, after its record.
pub const PRIO: RawTable = RawTable(259);

/// TCA_U32_* (pkt_cls.h): the options of `u32`, a filter.
pub const U32_FILTER: RawTable = RawTable(260);

/// TCA_FLOWER_* (pkt_cls.h): the options of `flower`, a filter.
pub const FLOWER: RawTable = RawTable(261);

/// TCA_MATCHALL_* (pkt_cls.h): the options of `matchall`, a filter.
pub const MATCHALL: RawTable = RawTable(262);

/// TCA_BPF_* (pkt_cls.h): the options of `bpf`, a filter.
pub const BPF_FILTER: RawTable = RawTable(263);

/// TCA_GACT_* (tc_act/tc_gact.h): the options of `gact`, an action.
pub const GACT: RawTable = RawTable(264);

/// TCA_MIRRED_* (tc_act/tc_mirred.h): the options of `mirred`, an action.
pub const MIRRED: RawTable = RawTable(265);

/// A table without rows.
pub const UNNAMED: RawTable = RawTable(511);
