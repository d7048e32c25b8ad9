//! The names of numbers in attributes of links, a table for each type of number.

ghost use Rattle.std.specs.Prelude.{◌≡◌, [], get_or};
ghost use Rattle.link_lines_values.specs.Names.{texts_of};
ghost use Rattle.link_lines_values.specs.NumberTexts.{link_texts};

use crate::number_tables::{NumberText, Numbers};

/// The table of numbers without names.
pub const PLAIN: Numbers = Numbers(0);

pub(crate) const PLAIN_TEXTS: &[NumberText] = &[];

/// Modes of amt devices (if_link.h: IFLA_AMT_MODE).
pub const AMT_MODE: Numbers = Numbers(1);

pub(crate) const AMT_MODE_TEXTS: &[NumberText] = &[(0, b"gateway"), (1, b"relay")];

/// The treatment of the DF bit by geneve (if_link.h: IFLA_GENEVE_DF).
pub const GENEVE_DF: Numbers = Numbers(2);

pub(crate) const GENEVE_DF_TEXTS: &[NumberText] = &[(0, b"unset"), (1, b"set"), (2, b"inherit")];

/// The treatment of the DF bit by vxlan (if_link.h: IFLA_VXLAN_DF).
pub const VXLAN_DF: Numbers = Numbers(3);

pub(crate) const VXLAN_DF_TEXTS: &[NumberText] = &[(0, b"unset"), (1, b"set"), (2, b"inherit")];

/// Roles of gtp devices (if_link.h: IFLA_GTP_ROLE).
pub const GTP_ROLE: Numbers = Numbers(4);

pub(crate) const GTP_ROLE_TEXTS: &[NumberText] = &[(0, b"ggsn"), (1, b"sgsn")];

/// Encapsulations of IP tunnels (if_tunnel.h: TUNNEL_ENCAP_*).
pub const TUNNEL_ENCAP_TYPE: Numbers = Numbers(5);

pub(crate) const TUNNEL_ENCAP_TYPE_TEXTS: &[NumberText] = &[
    (0, b"none"),
    (1, b"fou"),
    (2, b"gue"),
    (3, b"mpls"),
];

/// Encapsulations of GRE tunnels (if_tunnel.h: TUNNEL_ENCAP_*).
pub const GRE_ENCAP_TYPE: Numbers = Numbers(6);

pub(crate) const GRE_ENCAP_TYPE_TEXTS: &[NumberText] = &[(0, b"none"), (1, b"fou"), (2, b"gue")];

/// Directions of ERSPAN (if_link.h: IFLA_GRE_ERSPAN_DIR).
pub const ER_SPAN_DIR: Numbers = Numbers(7);

pub(crate) const ER_SPAN_DIR_TEXTS: &[NumberText] = &[(0, b"ingress"), (1, b"egress")];

/// Modes of bonds (if_bonding.h: BOND_MODE_*).
pub const BOND_MODE: Numbers = Numbers(8);

pub(crate) const BOND_MODE_TEXTS: &[NumberText] = &[
    (0, b"balance-rr"),
    (1, b"active-backup"),
    (2, b"balance-xor"),
    (3, b"broadcast"),
    (4, b"802.3ad"),
    (5, b"balance-tlb"),
    (6, b"balance-alb"),
];

/// Modes of ipvlan (if_link.h: IPVLAN_MODE_*).
pub const IP_VLAN_MODE: Numbers = Numbers(9);

pub(crate) const IP_VLAN_MODE_TEXTS: &[NumberText] = &[(0, b"l2"), (1, b"l3"), (2, b"l3s")];

/// Modes of macvlan (if_link.h: MACVLAN_MODE_*).
pub const MAC_VLAN_MODE: Numbers = Numbers(10);

pub(crate) const MAC_VLAN_MODE_TEXTS: &[NumberText] = &[
    (1, b"private"),
    (2, b"vepa"),
    (4, b"bridge"),
    (8, b"passthru"),
    (16, b"source"),
];

/// Modes of netkit (if_link.h: NETKIT_L2, NETKIT_L3).
pub const NETKIT_MODE: Numbers = Numbers(11);

pub(crate) const NETKIT_MODE_TEXTS: &[NumberText] = &[(0, b"l2"), (1, b"l3")];

/// Policies of netkit (if_link.h: NETKIT_*).
pub const NETKIT_POLICY: Numbers = Numbers(12);

pub(crate) const NETKIT_POLICY_TEXTS: &[NumberText] = &[
    (0, b"forward"),
    (2, b"blackhole"),
    (7, b"redirect"),
];

/// Scrubbing by netkit (if_link.h: NETKIT_SCRUB_*).
pub const NETKIT_SCRUB: Numbers = Numbers(13);

pub(crate) const NETKIT_SCRUB_TEXTS: &[NumberText] = &[(0, b"none"), (1, b"default")];

/// Operational states (if.h: IF_OPER_*).
pub const STATE: Numbers = Numbers(14);

pub(crate) const STATE_TEXTS: &[NumberText] = &[
    (0, b"UNKNOWN"),
    (1, b"NOTPRESENT"),
    (2, b"DOWN"),
    (3, b"LOWERLAYERDOWN"),
    (4, b"TESTING"),
    (5, b"DORMANT"),
    (6, b"UP"),
];

/// Link modes (if.h: IF_LINK_MODE_*).
pub const LINK_MODE: Numbers = Numbers(15);

pub(crate) const LINK_MODE_TEXTS: &[NumberText] = &[
    (0, b"default"),
    (1, b"dormant"),
    (2, b"testing"),
];

/// How IPv6 addresses are generated (if_link.h: IN6_ADDR_GEN_MODE_*).
pub const IN6_ADDR_GEN_MODE: Numbers = Numbers(16);

pub(crate) const IN6_ADDR_GEN_MODE_TEXTS: &[NumberText] = &[
    (0, b"eui64"),
    (1, b"none"),
    (2, b"stable-privacy"),
    (3, b"random"),
];

/// Physical bindings of MCTP (if_link.h: IFLA_MCTP_PHYS_BINDING).
pub const MCTP_PHYS_BINDING: Numbers = Numbers(17);

pub(crate) const MCTP_PHYS_BINDING_TEXTS: &[NumberText] = &[
    (1, b"smbus"),
    (2, b"pcievdm"),
    (3, b"usb"),
    (4, b"kcs"),
    (5, b"serial"),
    (6, b"i3c"),
    (7, b"mmbi"),
    (8, b"pcc"),
    (9, b"ucie"),
    (255, b"vendor"),
];

/// Ethernet protocols (if_ether.h: ETH_P_*).
pub const ETHERNET_PROTOCOL: Numbers = Numbers(18);

pub(crate) const ETHERNET_PROTOCOL_TEXTS: &[NumberText] = &[
    (0x0800, b"ipv4"),
    (0x0806, b"arp"),
    (0x8100, b"802.1q"),
    (0x86dd, b"ipv6"),
    (0x88a8, b"802.1ad"),
    (0x88cc, b"lldp"),
];

/// Address families (socket.h: AF_*).
pub const ADDRESS_FAMILY: Numbers = Numbers(19);

pub(crate) const ADDRESS_FAMILY_TEXTS: &[NumberText] = &[
    (0, b"AF_UNSPEC"),
    (1, b"AF_UNIX"),
    (2, b"AF_INET"),
    (7, b"AF_BRIDGE"),
    (10, b"AF_INET6"),
    (16, b"AF_NETLINK"),
    (17, b"AF_PACKET"),
    (45, b"AF_MCTP"),
];

/// Types of link layers (if_arp.h: ARPHRD_*), but for 0 (ARPHRD_NETROM), which requests have as well.
pub const LINK_LAYER_TYPE: Numbers = Numbers(20);

pub(crate) const LINK_LAYER_TYPE_TEXTS: &[NumberText] = &[
    (1, b"ether"),
    (2, b"eether"),
    (3, b"ax25"),
    (4, b"pronet"),
    (5, b"chaos"),
    (6, b"ieee802"),
    (7, b"arcnet"),
    (8, b"appletlk"),
    (15, b"dlci"),
    (19, b"atm"),
    (23, b"metricom"),
    (24, b"ieee1394"),
    (27, b"eui64"),
    (32, b"infiniband"),
    (256, b"slip"),
    (257, b"cslip"),
    (258, b"slip6"),
    (259, b"cslip6"),
    (260, b"rsrvd"),
    (264, b"adapt"),
    (270, b"rose"),
    (271, b"x25"),
    (272, b"hwx25"),
    (280, b"can"),
    (290, b"mctp"),
    (512, b"ppp"),
    (513, b"hdlc"),
    (516, b"lapb"),
    (517, b"ddcmp"),
    (518, b"rawhdlc"),
    (519, b"rawip"),
    (768, b"tunnel"),
    (769, b"tunnel6"),
    (770, b"frad"),
    (771, b"skip"),
    (772, b"loopback"),
    (773, b"localtlk"),
    (774, b"fddi"),
    (775, b"bif"),
    (776, b"sit"),
    (777, b"ipddp"),
    (778, b"ipgre"),
    (779, b"pimreg"),
    (780, b"hippi"),
    (781, b"ash"),
    (782, b"econet"),
    (783, b"irda"),
    (784, b"fcpp"),
    (785, b"fcal"),
    (786, b"fcpl"),
    (787, b"fcfabric"),
    (800, b"ieee802tr"),
    (801, b"ieee80211"),
    (802, b"ieee80211prism"),
    (803, b"ieee80211radiotap"),
    (804, b"ieee802154"),
    (805, b"ieee802154monitor"),
    (820, b"phonet"),
    (821, b"phonetpipe"),
    (822, b"caif"),
    (823, b"ip6gre"),
    (824, b"netlink"),
    (825, b"sixlowpan"),
    (826, b"vsockmon"),
    (65534, b"none"),
    (65535, b"void"),
];

/// Types of messages (netlink.h, rtnetlink.h: NLMSG_*, RTM_*).
pub const MESSAGE_TYPE: Numbers = Numbers(21);

pub(crate) const MESSAGE_TYPE_TEXTS: &[NumberText] = &[
    (1, b"NLMSG_NOOP"),
    (2, b"NLMSG_ERROR"),
    (3, b"NLMSG_DONE"),
    (4, b"NLMSG_OVERRUN"),
    (15, b"NLMSG_TSTAMP"),
    (16, b"RTM_NEWLINK"),
    (17, b"RTM_DELLINK"),
    (18, b"RTM_GETLINK"),
    (19, b"RTM_SETLINK"),
    (20, b"RTM_NEWADDR"),
    (21, b"RTM_DELADDR"),
    (22, b"RTM_GETADDR"),
    (24, b"RTM_NEWROUTE"),
    (25, b"RTM_DELROUTE"),
    (26, b"RTM_GETROUTE"),
    (28, b"RTM_NEWNEIGH"),
    (29, b"RTM_DELNEIGH"),
    (30, b"RTM_GETNEIGH"),
    (32, b"RTM_NEWRULE"),
    (33, b"RTM_DELRULE"),
    (34, b"RTM_GETRULE"),
    (36, b"RTM_NEWQDISC"),
    (37, b"RTM_DELQDISC"),
    (38, b"RTM_GETQDISC"),
    (40, b"RTM_NEWTCLASS"),
    (41, b"RTM_DELTCLASS"),
    (42, b"RTM_GETTCLASS"),
    (44, b"RTM_NEWTFILTER"),
    (45, b"RTM_DELTFILTER"),
    (46, b"RTM_GETTFILTER"),
    (48, b"RTM_NEWACTION"),
    (49, b"RTM_DELACTION"),
    (50, b"RTM_GETACTION"),
    (52, b"RTM_NEWPREFIX"),
    (56, b"RTM_NEWMULTICAST"),
    (57, b"RTM_DELMULTICAST"),
    (58, b"RTM_GETMULTICAST"),
    (60, b"RTM_NEWANYCAST"),
    (61, b"RTM_DELANYCAST"),
    (62, b"RTM_GETANYCAST"),
    (64, b"RTM_NEWNEIGHTBL"),
    (66, b"RTM_GETNEIGHTBL"),
    (67, b"RTM_SETNEIGHTBL"),
    (68, b"RTM_NEWNDUSEROPT"),
    (72, b"RTM_NEWADDRLABEL"),
    (73, b"RTM_DELADDRLABEL"),
    (74, b"RTM_GETADDRLABEL"),
    (78, b"RTM_GETDCB"),
    (79, b"RTM_SETDCB"),
    (80, b"RTM_NEWNETCONF"),
    (81, b"RTM_DELNETCONF"),
    (82, b"RTM_GETNETCONF"),
    (84, b"RTM_NEWMDB"),
    (85, b"RTM_DELMDB"),
    (86, b"RTM_GETMDB"),
    (88, b"RTM_NEWNSID"),
    (89, b"RTM_DELNSID"),
    (90, b"RTM_GETNSID"),
    (92, b"RTM_NEWSTATS"),
    (94, b"RTM_GETSTATS"),
    (95, b"RTM_SETSTATS"),
    (96, b"RTM_NEWCACHEREPORT"),
    (100, b"RTM_NEWCHAIN"),
    (101, b"RTM_DELCHAIN"),
    (102, b"RTM_GETCHAIN"),
    (104, b"RTM_NEWNEXTHOP"),
    (105, b"RTM_DELNEXTHOP"),
    (106, b"RTM_GETNEXTHOP"),
    (108, b"RTM_NEWLINKPROP"),
    (109, b"RTM_DELLINKPROP"),
    (110, b"RTM_GETLINKPROP"),
    (112, b"RTM_NEWVLAN"),
    (113, b"RTM_DELVLAN"),
    (114, b"RTM_GETVLAN"),
    (116, b"RTM_NEWNEXTHOPBUCKET"),
    (117, b"RTM_DELNEXTHOPBUCKET"),
    (118, b"RTM_GETNEXTHOPBUCKET"),
    (120, b"RTM_NEWTUNNEL"),
    (121, b"RTM_DELTUNNEL"),
    (122, b"RTM_GETTUNNEL"),
];

/// Protocols of Ethernet frames (if_ether.h: ETH_P_*).
pub const ETHER_TYPE: Numbers = Numbers(22);

pub(crate) const ETHER_TYPE_TEXTS: &[NumberText] = &[
    (3, b"all"),
    (0x0800, b"ip"),
    (0x0806, b"arp"),
    (0x8100, b"8021q"),
    (0x86dd, b"ipv6"),
    (0x8847, b"mpls_uc"),
    (0x8848, b"mpls_mc"),
    (0x8863, b"ppp_disc"),
    (0x8864, b"ppp_ses"),
    (0x888e, b"pae"),
    (0x88a8, b"8021ad"),
    (0x88cc, b"lldp"),
    (0x88e5, b"macsec"),
];

/// Returns the numbers of a table with their names, by its index from that of the first table here on.
pub(crate) fn texts(index: u8) -> &'static [NumberText]
    ensures { texts_of (λ b. b.now) result.now ≡ get_or link_texts index [] }
{
    match index {
        0 => PLAIN_TEXTS,
        1 => AMT_MODE_TEXTS,
        2 => GENEVE_DF_TEXTS,
        3 => VXLAN_DF_TEXTS,
        4 => GTP_ROLE_TEXTS,
        5 => TUNNEL_ENCAP_TYPE_TEXTS,
        6 => GRE_ENCAP_TYPE_TEXTS,
        7 => ER_SPAN_DIR_TEXTS,
        8 => BOND_MODE_TEXTS,
        9 => IP_VLAN_MODE_TEXTS,
        10 => MAC_VLAN_MODE_TEXTS,
        11 => NETKIT_MODE_TEXTS,
        12 => NETKIT_POLICY_TEXTS,
        13 => NETKIT_SCRUB_TEXTS,
        14 => STATE_TEXTS,
        15 => LINK_MODE_TEXTS,
        16 => IN6_ADDR_GEN_MODE_TEXTS,
        17 => MCTP_PHYS_BINDING_TEXTS,
        18 => ETHERNET_PROTOCOL_TEXTS,
        19 => ADDRESS_FAMILY_TEXTS,
        20 => LINK_LAYER_TYPE_TEXTS,
        21 => MESSAGE_TYPE_TEXTS,
        22 => ETHER_TYPE_TEXTS,
        _ => &[],
    }
}
