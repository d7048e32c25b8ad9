//! Rows of lists that depend on the kind of a link or of a port.

ghost use Rattle.std.specs.Prelude.{◌≡◌, true, [], get_or};
ghost use Rattle.link_lines_values.specs.DenseRows.{are_dense};
ghost use Rattle.link_lines_raw.specs.Rows.{raw_rows_in_code};
ghost use Rattle.link_lines_raw.specs.Tables.{kind_rows};

use crate::raw_rows_in;
use crate::raw_tables::{
    AD_INFO, CAN_CTRLMODE_EXT, CAN_PWM, CAN_TDC, INDEXED_IPV4, INDEXED_IPV6, VLAN_QOS,
};
use crate::rows::RawBy::{List, Value};
use crate::rows::RawRow;
use link_lines_values::ExactBy::{HardwareAddress, Number, Numbers, Record, Sized};
use link_lines_values::ShownBy::{BigEndian, FlagsAndMask, NamedFlags, Signed};
use link_lines_values::bridge_texts::{
    CAN_CTRLMODE_FLAGS, CAN_STATE, HSR_PROTOCOL, TUN_TYPE, VLAN_FLAGS,
};
use link_lines_values::device_layouts::{
    CAN_BERR_COUNTER, CAN_BITTIMING, CAN_BITTIMING_CONST, CAN_CTRLMODE, IFLA_VLAN_QOS_MAPPING,
};
use link_lines_values::{BOND_MODE, ETHERNET_PROTOCOL, PLAIN, ShownBy};

/// Data of `vlan` (if_link.h: IFLA_VLAN_*).
pub const VLAN_ROWS: &[RawRow] = &raw_rows_in! {
    1, b"IFLA_VLAN_ID", Value(Number(2));
    2, b"IFLA_VLAN_FLAGS", Value(Sized(8, FlagsAndMask(VLAN_FLAGS)));
    3, b"IFLA_VLAN_EGRESS_QOS", List(VLAN_QOS);
    4, b"IFLA_VLAN_INGRESS_QOS", List(VLAN_QOS);
    5, b"IFLA_VLAN_PROTOCOL", Value(Sized(2, BigEndian(ETHERNET_PROTOCOL)));
};

/// Vlan qos (if_link.h: IFLA_VLAN_QOS_MAPPING).
pub const VLAN_QOS_ROWS: &[RawRow] = &raw_rows_in! {
    1, b"IFLA_VLAN_QOS_MAPPING", Value(Record(IFLA_VLAN_QOS_MAPPING));
};

/// Data of `bond` (if_link.h: IFLA_BOND_*).
pub const BOND_ROWS: &[RawRow] = &raw_rows_in! {
    1, b"IFLA_BOND_MODE", Value(Sized(1, ShownBy::Number(BOND_MODE)));
    2, b"IFLA_BOND_ACTIVE_SLAVE", Value(Number(4));
    3, b"IFLA_BOND_MIIMON", Value(Number(4));
    4, b"IFLA_BOND_UPDELAY", Value(Number(4));
    5, b"IFLA_BOND_DOWNDELAY", Value(Number(4));
    6, b"IFLA_BOND_USE_CARRIER", Value(Number(1));
    7, b"IFLA_BOND_ARP_INTERVAL", Value(Number(4));
    8, b"IFLA_BOND_ARP_IP_TARGET", List(INDEXED_IPV4);
    9, b"IFLA_BOND_ARP_VALIDATE", Value(Number(4));
    10, b"IFLA_BOND_ARP_ALL_TARGETS", Value(Number(4));
    11, b"IFLA_BOND_PRIMARY", Value(Number(4));
    12, b"IFLA_BOND_PRIMARY_RESELECT", Value(Number(1));
    13, b"IFLA_BOND_FAIL_OVER_MAC", Value(Number(1));
    14, b"IFLA_BOND_XMIT_HASH_POLICY", Value(Number(1));
    15, b"IFLA_BOND_RESEND_IGMP", Value(Number(4));
    16, b"IFLA_BOND_NUM_PEER_NOTIF", Value(Number(1));
    17, b"IFLA_BOND_ALL_SLAVES_ACTIVE", Value(Number(1));
    18, b"IFLA_BOND_MIN_LINKS", Value(Number(4));
    19, b"IFLA_BOND_LP_INTERVAL", Value(Number(4));
    20, b"IFLA_BOND_PACKETS_PER_SLAVE", Value(Number(4));
    21, b"IFLA_BOND_AD_LACP_RATE", Value(Number(1));
    22, b"IFLA_BOND_AD_SELECT", Value(Number(1));
    23, b"IFLA_BOND_AD_INFO", List(AD_INFO);
    24, b"IFLA_BOND_AD_ACTOR_SYS_PRIO", Value(Number(2));
    25, b"IFLA_BOND_AD_USER_PORT_KEY", Value(Number(2));
    26, b"IFLA_BOND_AD_ACTOR_SYSTEM", Value(Sized(6, ShownBy::HardwareAddress));
    27, b"IFLA_BOND_TLB_DYNAMIC_LB", Value(Number(1));
    28, b"IFLA_BOND_PEER_NOTIF_DELAY", Value(Number(4));
    29, b"IFLA_BOND_AD_LACP_ACTIVE", Value(Number(1));
    30, b"IFLA_BOND_MISSED_MAX", Value(Number(1));
    31, b"IFLA_BOND_NS_IP6_TARGET", List(INDEXED_IPV6);
    32, b"IFLA_BOND_COUPLED_CONTROL", Value(Number(1));
    33, b"IFLA_BOND_BROADCAST_NEIGH", Value(Number(1));
    34, b"IFLA_BOND_LACP_STRICT", Value(Number(1));
};

/// Ad info (if_link.h: IFLA_BOND_AD_INFO_*).
pub const AD_INFO_ROWS: &[RawRow] = &raw_rows_in! {
    1, b"IFLA_BOND_AD_INFO_AGGREGATOR", Value(Number(2));
    2, b"IFLA_BOND_AD_INFO_NUM_PORTS", Value(Number(2));
    3, b"IFLA_BOND_AD_INFO_ACTOR_KEY", Value(Number(2));
    4, b"IFLA_BOND_AD_INFO_PARTNER_KEY", Value(Number(2));
    5, b"IFLA_BOND_AD_INFO_PARTNER_MAC", Value(Sized(6, ShownBy::HardwareAddress));
};

/// Each kind is an index.
pub const INDEXED_IPV4_ROWS: &[RawRow] = &[];

/// Each kind is an index.
pub const INDEXED_IPV6_ROWS: &[RawRow] = &[];

/// Port data of `bond` (if_link.h: IFLA_BOND_SLAVE_*).
pub const BOND_PORT_ROWS: &[RawRow] = &raw_rows_in! {
    1, b"IFLA_BOND_SLAVE_STATE", Value(Number(1));
    2, b"IFLA_BOND_SLAVE_MII_STATUS", Value(Number(1));
    3, b"IFLA_BOND_SLAVE_LINK_FAILURE_COUNT", Value(Number(4));
    4, b"IFLA_BOND_SLAVE_PERM_HWADDR", Value(HardwareAddress);
    5, b"IFLA_BOND_SLAVE_QUEUE_ID", Value(Number(2));
    6, b"IFLA_BOND_SLAVE_AD_AGGREGATOR_ID", Value(Number(2));
    7, b"IFLA_BOND_SLAVE_AD_ACTOR_OPER_PORT_STATE", Value(Number(1));
    8, b"IFLA_BOND_SLAVE_AD_PARTNER_OPER_PORT_STATE", Value(Number(2));
    9, b"IFLA_BOND_SLAVE_PRIO", Value(Sized(4, Signed(PLAIN)));
    10, b"IFLA_BOND_SLAVE_ACTOR_PORT_PRIO", Value(Number(2));
    11, b"IFLA_BOND_SLAVE_AD_CHURN_ACTOR_STATE", Value(Number(1));
    12, b"IFLA_BOND_SLAVE_AD_CHURN_PARTNER_STATE", Value(Number(1));
};

/// Data of `tun` (if_link.h: IFLA_TUN_*).
pub const TUN_ROWS: &[RawRow] = &raw_rows_in! {
    1, b"IFLA_TUN_OWNER", Value(Number(4));
    2, b"IFLA_TUN_GROUP", Value(Number(4));
    3, b"IFLA_TUN_TYPE", Value(Sized(1, ShownBy::Number(TUN_TYPE)));
    4, b"IFLA_TUN_PI", Value(Number(1));
    5, b"IFLA_TUN_VNET_HDR", Value(Number(1));
    6, b"IFLA_TUN_PERSIST", Value(Number(1));
    7, b"IFLA_TUN_MULTI_QUEUE", Value(Number(1));
    8, b"IFLA_TUN_NUM_QUEUES", Value(Number(4));
    9, b"IFLA_TUN_NUM_DISABLED_QUEUES", Value(Number(4));
};

/// Data of `can` (can/netlink.h: IFLA_CAN_*).
pub const CAN_ROWS: &[RawRow] = &raw_rows_in! {
    1, b"IFLA_CAN_BITTIMING", Value(Record(CAN_BITTIMING));
    2, b"IFLA_CAN_BITTIMING_CONST", Value(Record(CAN_BITTIMING_CONST));
    3, b"IFLA_CAN_CLOCK", Value(Number(4));
    4, b"IFLA_CAN_STATE", Value(Sized(4, ShownBy::Number(CAN_STATE)));
    5, b"IFLA_CAN_CTRLMODE", Value(Record(CAN_CTRLMODE));
    6, b"IFLA_CAN_RESTART_MS", Value(Number(4));
    7, b"IFLA_CAN_RESTART", Value(Number(4));
    8, b"IFLA_CAN_BERR_COUNTER", Value(Record(CAN_BERR_COUNTER));
    9, b"IFLA_CAN_DATA_BITTIMING", Value(Record(CAN_BITTIMING));
    10, b"IFLA_CAN_DATA_BITTIMING_CONST", Value(Record(CAN_BITTIMING_CONST));
    11, b"IFLA_CAN_TERMINATION", Value(Number(2));
    12, b"IFLA_CAN_TERMINATION_CONST", Value(Numbers(2));
    13, b"IFLA_CAN_BITRATE_CONST", Value(Numbers(4));
    14, b"IFLA_CAN_DATA_BITRATE_CONST", Value(Numbers(4));
    15, b"IFLA_CAN_BITRATE_MAX", Value(Number(4));
    16, b"IFLA_CAN_TDC", List(CAN_TDC);
    17, b"IFLA_CAN_CTRLMODE_EXT", List(CAN_CTRLMODE_EXT);
    18, b"IFLA_CAN_XL_DATA_BITTIMING", Value(Record(CAN_BITTIMING));
    19, b"IFLA_CAN_XL_DATA_BITTIMING_CONST", Value(Record(CAN_BITTIMING_CONST));
    20, b"IFLA_CAN_XL_DATA_BITRATE_CONST", Value(Numbers(4));
    21, b"IFLA_CAN_XL_TDC", List(CAN_TDC);
    22, b"IFLA_CAN_XL_PWM", List(CAN_PWM);
};

/// Can tdc (can/netlink.h: IFLA_CAN_TDC_*).
pub const CAN_TDC_ROWS: &[RawRow] = &raw_rows_in! {
    1, b"IFLA_CAN_TDC_TDCV_MIN", Value(Number(4));
    2, b"IFLA_CAN_TDC_TDCV_MAX", Value(Number(4));
    3, b"IFLA_CAN_TDC_TDCO_MIN", Value(Number(4));
    4, b"IFLA_CAN_TDC_TDCO_MAX", Value(Number(4));
    5, b"IFLA_CAN_TDC_TDCF_MIN", Value(Number(4));
    6, b"IFLA_CAN_TDC_TDCF_MAX", Value(Number(4));
    7, b"IFLA_CAN_TDC_TDCV", Value(Number(4));
    8, b"IFLA_CAN_TDC_TDCO", Value(Number(4));
    9, b"IFLA_CAN_TDC_TDCF", Value(Number(4));
};

/// Can ctrlmode ext (can/netlink.h: IFLA_CAN_CTRLMODE_SUPPORTED).
pub const CAN_CTRLMODE_EXT_ROWS: &[RawRow] = &raw_rows_in! {
    1, b"IFLA_CAN_CTRLMODE_SUPPORTED", Value(Sized(4, NamedFlags(CAN_CTRLMODE_FLAGS)));
};

/// Can pwm (can/netlink.h: IFLA_CAN_PWM_*).
pub const CAN_PWM_ROWS: &[RawRow] = &raw_rows_in! {
    1, b"IFLA_CAN_PWM_PWMS_MIN", Value(Number(4));
    2, b"IFLA_CAN_PWM_PWMS_MAX", Value(Number(4));
    3, b"IFLA_CAN_PWM_PWML_MIN", Value(Number(4));
    4, b"IFLA_CAN_PWM_PWML_MAX", Value(Number(4));
    5, b"IFLA_CAN_PWM_PWMO_MIN", Value(Number(4));
    6, b"IFLA_CAN_PWM_PWMO_MAX", Value(Number(4));
    7, b"IFLA_CAN_PWM_PWMS", Value(Number(4));
    8, b"IFLA_CAN_PWM_PWML", Value(Number(4));
    9, b"IFLA_CAN_PWM_PWMO", Value(Number(4));
};

/// Data of `hsr` (if_link.h: IFLA_HSR_*).
pub const HSR_ROWS: &[RawRow] = &raw_rows_in! {
    1, b"IFLA_HSR_SLAVE1", Value(Number(4));
    2, b"IFLA_HSR_SLAVE2", Value(Number(4));
    3, b"IFLA_HSR_MULTICAST_SPEC", Value(Number(1));
    4, b"IFLA_HSR_SUPERVISION_ADDR", Value(Sized(6, ShownBy::HardwareAddress));
    5, b"IFLA_HSR_SEQ_NR", Value(Number(2));
    6, b"IFLA_HSR_VERSION", Value(Number(1));
    7, b"IFLA_HSR_PROTOCOL", Value(Sized(1, ShownBy::Number(HSR_PROTOCOL)));
    8, b"IFLA_HSR_INTERLINK", Value(Number(4));
};

/// Data of `dsa` (if_link.h: IFLA_DSA_CONDUIT).
pub const DSA_ROWS: &[RawRow] = &raw_rows_in! {
    1, b"IFLA_DSA_CONDUIT", Value(Number(4));
};

/// Returns the rows of a table, by its index from that of the first table here on.
#[tactic(auto, unfolding(crate::specs::Tables::kind_rows))]
pub(crate) fn rows(index: u16) -> &'static [RawRow]
    ensures rows { raw_rows_in_code (λ b. b.now) result.now ≡ get_or kind_rows index [] }
    ensures dense { are_dense result.now ≡ true }
{
    match index {
        0 => VLAN_ROWS,
        1 => VLAN_QOS_ROWS,
        2 => BOND_ROWS,
        3 => AD_INFO_ROWS,
        4 => INDEXED_IPV4_ROWS,
        5 => INDEXED_IPV6_ROWS,
        6 => BOND_PORT_ROWS,
        7 => TUN_ROWS,
        8 => CAN_ROWS,
        9 => CAN_TDC_ROWS,
        10 => CAN_CTRLMODE_EXT_ROWS,
        11 => CAN_PWM_ROWS,
        12 => HSR_ROWS,
        13 => DSA_ROWS,
        _ => &[],
    }
}
