//! The kinds of the attributes of a link (if_link.h, IFLA_*).

pub(crate) const IFLA_ADDRESS: u16 = 1;

pub(crate) const IFLA_BROADCAST: u16 = 2;

pub(crate) const IFLA_IFNAME: u16 = 3;

pub(crate) const IFLA_MTU: u16 = 4;

pub(crate) const IFLA_LINK: u16 = 5;

pub(crate) const IFLA_QDISC: u16 = 6;

pub(crate) const IFLA_STATS: u16 = 7;

pub(crate) const IFLA_MASTER: u16 = 10;

pub(crate) const IFLA_PROTINFO: u16 = 12;

pub(crate) const IFLA_TXQLEN: u16 = 13;

pub(crate) const IFLA_MAP: u16 = 14;

pub(crate) const IFLA_OPERSTATE: u16 = 16;

pub(crate) const IFLA_LINKMODE: u16 = 17;

pub(crate) const IFLA_LINKINFO: u16 = 18;

pub(crate) const IFLA_NET_NS_PID: u16 = 19;

pub(crate) const IFLA_IFALIAS: u16 = 20;

pub(crate) const IFLA_NUM_VF: u16 = 21;

pub(crate) const IFLA_VFINFO_LIST: u16 = 22;

pub(crate) const IFLA_STATS64: u16 = 23;

pub(crate) const IFLA_VF_PORTS: u16 = 24;

pub(crate) const IFLA_PORT_SELF: u16 = 25;

pub(crate) const IFLA_AF_SPEC: u16 = 26;

pub(crate) const IFLA_GROUP: u16 = 27;

pub(crate) const IFLA_NET_NS_FD: u16 = 28;

pub(crate) const IFLA_EXT_MASK: u16 = 29;

pub(crate) const IFLA_PROMISCUITY: u16 = 30;

pub(crate) const IFLA_NUM_TX_QUEUES: u16 = 31;

pub(crate) const IFLA_NUM_RX_QUEUES: u16 = 32;

pub(crate) const IFLA_CARRIER: u16 = 33;

pub(crate) const IFLA_PHYS_PORT_ID: u16 = 34;

pub(crate) const IFLA_CARRIER_CHANGES: u16 = 35;

pub(crate) const IFLA_PHYS_SWITCH_ID: u16 = 36;

pub(crate) const IFLA_LINK_NETNSID: u16 = 37;

pub(crate) const IFLA_PHYS_PORT_NAME: u16 = 38;

pub(crate) const IFLA_PROTO_DOWN: u16 = 39;

pub(crate) const IFLA_GSO_MAX_SEGS: u16 = 40;

pub(crate) const IFLA_GSO_MAX_SIZE: u16 = 41;

pub(crate) const IFLA_XDP: u16 = 43;

pub(crate) const IFLA_EVENT: u16 = 44;

pub(crate) const IFLA_NEW_NETNSID: u16 = 45;

pub(crate) const IFLA_IF_NETNSID: u16 = 46;

pub(crate) const IFLA_CARRIER_UP_COUNT: u16 = 47;

pub(crate) const IFLA_CARRIER_DOWN_COUNT: u16 = 48;

pub(crate) const IFLA_NEW_IFINDEX: u16 = 49;

pub(crate) const IFLA_MIN_MTU: u16 = 50;

pub(crate) const IFLA_MAX_MTU: u16 = 51;

pub(crate) const IFLA_PROP_LIST: u16 = 52;

pub(crate) const IFLA_PERM_ADDRESS: u16 = 54;

pub(crate) const IFLA_PROTO_DOWN_REASON: u16 = 55;

pub(crate) const IFLA_PARENT_DEV_NAME: u16 = 56;

pub(crate) const IFLA_PARENT_DEV_BUS_NAME: u16 = 57;

pub(crate) const IFLA_GRO_MAX_SIZE: u16 = 58;

pub(crate) const IFLA_TSO_MAX_SIZE: u16 = 59;

pub(crate) const IFLA_TSO_MAX_SEGS: u16 = 60;

pub(crate) const IFLA_ALLMULTI: u16 = 61;

pub(crate) const IFLA_DEVLINK_PORT: u16 = 62;

pub(crate) const IFLA_GSO_IPV4_MAX_SIZE: u16 = 63;

pub(crate) const IFLA_GRO_IPV4_MAX_SIZE: u16 = 64;

pub(crate) const IFLA_DPLL_PIN: u16 = 65;

// The last kind that has a row.
pub(crate) const LAST_KIND: u16 = IFLA_DPLL_PIN;
