//! The layouts of records in raw lists about statistics, bridges and kinds of links.

ghost use Rattle.std.specs.Prelude.{◌≡◌, [], get_or};
ghost use Rattle.link_lines_values.specs.Records.{fields_of};
ghost use Rattle.link_lines_values.specs.Layouts.{device_layouts};

use crate::bridge_texts::{BRIDGE_VLAN_FLAGS, CAN_CTRLMODE_FLAGS};
use crate::fields::FieldShownBy::{Flags, Number, Padding, Text};
use crate::fields::{FieldOf, Fields, Layout};
use crate::number_texts::PLAIN;

/// if_link.h, `struct hw_stats64`.
pub const HW_STATS64: Layout = Layout(96);

pub(crate) const HW_STATS64_FIELDS: Fields = &[
    FieldOf(b"rx_packets", 8, Number(PLAIN)),
    FieldOf(b"tx_packets", 8, Number(PLAIN)),
    FieldOf(b"rx_bytes", 8, Number(PLAIN)),
    FieldOf(b"tx_bytes", 8, Number(PLAIN)),
    FieldOf(b"rx_errors", 8, Number(PLAIN)),
    FieldOf(b"tx_errors", 8, Number(PLAIN)),
    FieldOf(b"rx_dropped", 8, Number(PLAIN)),
    FieldOf(b"tx_dropped", 8, Number(PLAIN)),
    FieldOf(b"multicast", 8, Number(PLAIN)),
];

/// mpls.h, `struct mpls_link_stats`.
pub const MPLS_LINK_STATS: Layout = Layout(97);

pub(crate) const MPLS_LINK_STATS_FIELDS: Fields = &[
    FieldOf(b"rx_packets", 8, Number(PLAIN)),
    FieldOf(b"tx_packets", 8, Number(PLAIN)),
    FieldOf(b"rx_bytes", 8, Number(PLAIN)),
    FieldOf(b"tx_bytes", 8, Number(PLAIN)),
    FieldOf(b"rx_errors", 8, Number(PLAIN)),
    FieldOf(b"tx_errors", 8, Number(PLAIN)),
    FieldOf(b"rx_dropped", 8, Number(PLAIN)),
    FieldOf(b"tx_dropped", 8, Number(PLAIN)),
    FieldOf(b"rx_noroute", 8, Number(PLAIN)),
];

/// if_bridge.h, `struct bridge_vlan_info`.
pub const BRIDGE_VLAN_INFO: Layout = Layout(98);

pub(crate) const BRIDGE_VLAN_INFO_FIELDS: Fields = &[
    FieldOf(b"flags", 2, Flags(BRIDGE_VLAN_FLAGS)),
    FieldOf(b"vid", 2, Number(PLAIN)),
];

/// if_bridge.h, `struct bridge_vlan_xstats`.
pub const BRIDGE_VLAN_XSTATS: Layout = Layout(99);

pub(crate) const BRIDGE_VLAN_XSTATS_FIELDS: Fields = &[
    FieldOf(b"rx_bytes", 8, Number(PLAIN)),
    FieldOf(b"rx_packets", 8, Number(PLAIN)),
    FieldOf(b"tx_bytes", 8, Number(PLAIN)),
    FieldOf(b"tx_packets", 8, Number(PLAIN)),
    FieldOf(b"vid", 2, Number(PLAIN)),
    FieldOf(b"flags", 2, Flags(BRIDGE_VLAN_FLAGS)),
    FieldOf(b"padding", 4, Padding),
];

/// if_bridge.h, `struct br_mcast_stats`.
pub const BR_MCAST_STATS: Layout = Layout(100);

pub(crate) const BR_MCAST_STATS_FIELDS: Fields = &[
    FieldOf(b"igmp_v1queries_rx", 8, Number(PLAIN)),
    FieldOf(b"igmp_v1queries_tx", 8, Number(PLAIN)),
    FieldOf(b"igmp_v2queries_rx", 8, Number(PLAIN)),
    FieldOf(b"igmp_v2queries_tx", 8, Number(PLAIN)),
    FieldOf(b"igmp_v3queries_rx", 8, Number(PLAIN)),
    FieldOf(b"igmp_v3queries_tx", 8, Number(PLAIN)),
    FieldOf(b"igmp_leaves_rx", 8, Number(PLAIN)),
    FieldOf(b"igmp_leaves_tx", 8, Number(PLAIN)),
    FieldOf(b"igmp_v1reports_rx", 8, Number(PLAIN)),
    FieldOf(b"igmp_v1reports_tx", 8, Number(PLAIN)),
    FieldOf(b"igmp_v2reports_rx", 8, Number(PLAIN)),
    FieldOf(b"igmp_v2reports_tx", 8, Number(PLAIN)),
    FieldOf(b"igmp_v3reports_rx", 8, Number(PLAIN)),
    FieldOf(b"igmp_v3reports_tx", 8, Number(PLAIN)),
    FieldOf(b"igmp_parse_errors", 8, Number(PLAIN)),
    FieldOf(b"mld_v1queries_rx", 8, Number(PLAIN)),
    FieldOf(b"mld_v1queries_tx", 8, Number(PLAIN)),
    FieldOf(b"mld_v2queries_rx", 8, Number(PLAIN)),
    FieldOf(b"mld_v2queries_tx", 8, Number(PLAIN)),
    FieldOf(b"mld_leaves_rx", 8, Number(PLAIN)),
    FieldOf(b"mld_leaves_tx", 8, Number(PLAIN)),
    FieldOf(b"mld_v1reports_rx", 8, Number(PLAIN)),
    FieldOf(b"mld_v1reports_tx", 8, Number(PLAIN)),
    FieldOf(b"mld_v2reports_rx", 8, Number(PLAIN)),
    FieldOf(b"mld_v2reports_tx", 8, Number(PLAIN)),
    FieldOf(b"mld_parse_errors", 8, Number(PLAIN)),
    FieldOf(b"mcast_bytes_rx", 8, Number(PLAIN)),
    FieldOf(b"mcast_bytes_tx", 8, Number(PLAIN)),
    FieldOf(b"mcast_packets_rx", 8, Number(PLAIN)),
    FieldOf(b"mcast_packets_tx", 8, Number(PLAIN)),
];

/// if_bridge.h, `struct bridge_stp_xstats`.
pub const BRIDGE_STP_XSTATS: Layout = Layout(101);

pub(crate) const BRIDGE_STP_XSTATS_FIELDS: Fields = &[
    FieldOf(b"transition_blk", 8, Number(PLAIN)),
    FieldOf(b"transition_fwd", 8, Number(PLAIN)),
    FieldOf(b"rx_bpdu", 8, Number(PLAIN)),
    FieldOf(b"tx_bpdu", 8, Number(PLAIN)),
    FieldOf(b"rx_tcn", 8, Number(PLAIN)),
    FieldOf(b"tx_tcn", 8, Number(PLAIN)),
];

/// if_link.h, `struct ifla_vlan_qos_mapping`.
pub const IFLA_VLAN_QOS_MAPPING: Layout = Layout(102);

pub(crate) const IFLA_VLAN_QOS_MAPPING_FIELDS: Fields = &[
    FieldOf(b"from", 4, Number(PLAIN)),
    FieldOf(b"to", 4, Number(PLAIN)),
];

/// if_link.h, `struct ifla_vf_guid`.
pub const IFLA_VF_GUID: Layout = Layout(103);

pub(crate) const IFLA_VF_GUID_FIELDS: Fields = &[
    FieldOf(b"vf", 4, Number(PLAIN)),
    FieldOf(b"padding", 4, Padding),
    FieldOf(b"guid", 8, Flags(PLAIN)),
];

/// if_link.h, `struct ifla_port_vsi`.
pub const IFLA_PORT_VSI: Layout = Layout(104);

pub(crate) const IFLA_PORT_VSI_FIELDS: Fields = &[
    FieldOf(b"vsi_mgr_id", 1, Number(PLAIN)),
    FieldOf(b"vsi_type_id", 3, Number(PLAIN)),
    FieldOf(b"vsi_type_version", 1, Number(PLAIN)),
    FieldOf(b"padding", 3, Padding),
];

/// can/netlink.h, `struct can_bittiming`.
pub const CAN_BITTIMING: Layout = Layout(105);

pub(crate) const CAN_BITTIMING_FIELDS: Fields = &[
    FieldOf(b"bitrate", 4, Number(PLAIN)),
    FieldOf(b"sample_point", 4, Number(PLAIN)),
    FieldOf(b"tq", 4, Number(PLAIN)),
    FieldOf(b"prop_seg", 4, Number(PLAIN)),
    FieldOf(b"phase_seg1", 4, Number(PLAIN)),
    FieldOf(b"phase_seg2", 4, Number(PLAIN)),
    FieldOf(b"sjw", 4, Number(PLAIN)),
    FieldOf(b"brp", 4, Number(PLAIN)),
];

/// can/netlink.h, `struct can_bittiming_const`.
pub const CAN_BITTIMING_CONST: Layout = Layout(106);

pub(crate) const CAN_BITTIMING_CONST_FIELDS: Fields = &[
    FieldOf(b"name", 16, Text),
    FieldOf(b"tseg1_min", 4, Number(PLAIN)),
    FieldOf(b"tseg1_max", 4, Number(PLAIN)),
    FieldOf(b"tseg2_min", 4, Number(PLAIN)),
    FieldOf(b"tseg2_max", 4, Number(PLAIN)),
    FieldOf(b"sjw_max", 4, Number(PLAIN)),
    FieldOf(b"brp_min", 4, Number(PLAIN)),
    FieldOf(b"brp_max", 4, Number(PLAIN)),
    FieldOf(b"brp_inc", 4, Number(PLAIN)),
];

/// can/netlink.h, `struct can_ctrlmode`.
pub const CAN_CTRLMODE: Layout = Layout(107);

pub(crate) const CAN_CTRLMODE_FIELDS: Fields = &[
    FieldOf(b"mask", 4, Flags(CAN_CTRLMODE_FLAGS)),
    FieldOf(b"flags", 4, Flags(CAN_CTRLMODE_FLAGS)),
];

/// can/netlink.h, `struct can_berr_counter`.
pub const CAN_BERR_COUNTER: Layout = Layout(108);

pub(crate) const CAN_BERR_COUNTER_FIELDS: Fields = &[
    FieldOf(b"txerr", 2, Number(PLAIN)),
    FieldOf(b"rxerr", 2, Number(PLAIN)),
];

/// Statistics of CAN devices (can/netlink.h, `struct can_device_stats`).
pub const CAN_DEVICE_STATS: Layout = Layout(109);

pub(crate) const CAN_DEVICE_STATS_FIELDS: Fields = &[
    FieldOf(b"bus_error", 4, Number(PLAIN)),
    FieldOf(b"error_warning", 4, Number(PLAIN)),
    FieldOf(b"error_passive", 4, Number(PLAIN)),
    FieldOf(b"bus_off", 4, Number(PLAIN)),
    FieldOf(b"arbitration_lost", 4, Number(PLAIN)),
    FieldOf(b"restarts", 4, Number(PLAIN)),
];

/// Returns the fields of a record, by the index of its layout from that of the first layout here on.
pub(crate) fn fields(index: u8) -> Fields
    ensures { fields_of (λ b. b.now) result.now ≡ get_or device_layouts index [] }
{
    match index {
        0 => HW_STATS64_FIELDS,
        1 => MPLS_LINK_STATS_FIELDS,
        2 => BRIDGE_VLAN_INFO_FIELDS,
        3 => BRIDGE_VLAN_XSTATS_FIELDS,
        4 => BR_MCAST_STATS_FIELDS,
        5 => BRIDGE_STP_XSTATS_FIELDS,
        6 => IFLA_VLAN_QOS_MAPPING_FIELDS,
        7 => IFLA_VF_GUID_FIELDS,
        8 => IFLA_PORT_VSI_FIELDS,
        9 => CAN_BITTIMING_FIELDS,
        10 => CAN_BITTIMING_CONST_FIELDS,
        11 => CAN_CTRLMODE_FIELDS,
        12 => CAN_BERR_COUNTER_FIELDS,
        13 => CAN_DEVICE_STATS_FIELDS,
        _ => &[],
    }
}
