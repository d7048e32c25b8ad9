//! The layouts of records in attributes of links.

ghost use Rattle.std.specs.Prelude.{◌≡◌, [], get_or};
ghost use Rattle.link_lines_values.specs.Records.{fields_of};
ghost use Rattle.link_lines_values.specs.Layouts.{link_layouts};

use crate::fields::FieldShownBy::{Address, BigEndian, Boolean, Number, Signed};
use crate::fields::{FieldOf, Fields, Layout};
use crate::number_texts::PLAIN;

/// Statistics of 4 bytes each (if_link.h: struct rtnl_link_stats).
pub const STATS: Layout = Layout(0);

pub(crate) const STATS_FIELDS: Fields = &[
    FieldOf(b"rx_packets", 4, Number(PLAIN)),
    FieldOf(b"tx_packets", 4, Number(PLAIN)),
    FieldOf(b"rx_bytes", 4, Number(PLAIN)),
    FieldOf(b"tx_bytes", 4, Number(PLAIN)),
    FieldOf(b"rx_errors", 4, Number(PLAIN)),
    FieldOf(b"tx_errors", 4, Number(PLAIN)),
    FieldOf(b"rx_dropped", 4, Number(PLAIN)),
    FieldOf(b"tx_dropped", 4, Number(PLAIN)),
    FieldOf(b"multicast", 4, Number(PLAIN)),
    FieldOf(b"collisions", 4, Number(PLAIN)),
    FieldOf(b"rx_length_errors", 4, Number(PLAIN)),
    FieldOf(b"rx_over_errors", 4, Number(PLAIN)),
    FieldOf(b"rx_crc_errors", 4, Number(PLAIN)),
    FieldOf(b"rx_frame_errors", 4, Number(PLAIN)),
    FieldOf(b"rx_fifo_errors", 4, Number(PLAIN)),
    FieldOf(b"rx_missed_errors", 4, Number(PLAIN)),
    FieldOf(b"tx_aborted_errors", 4, Number(PLAIN)),
    FieldOf(b"tx_carrier_errors", 4, Number(PLAIN)),
    FieldOf(b"tx_fifo_errors", 4, Number(PLAIN)),
    FieldOf(b"tx_heartbeat_errors", 4, Number(PLAIN)),
    FieldOf(b"tx_window_errors", 4, Number(PLAIN)),
    FieldOf(b"rx_compressed", 4, Number(PLAIN)),
    FieldOf(b"tx_compressed", 4, Number(PLAIN)),
    FieldOf(b"rx_nohandler", 4, Number(PLAIN)),
];

/// Statistics of 8 bytes each (if_link.h: struct rtnl_link_stats64).
pub const STATS64: Layout = Layout(1);

pub(crate) const STATS64_FIELDS: Fields = &[
    FieldOf(b"rx_packets", 8, Number(PLAIN)),
    FieldOf(b"tx_packets", 8, Number(PLAIN)),
    FieldOf(b"rx_bytes", 8, Number(PLAIN)),
    FieldOf(b"tx_bytes", 8, Number(PLAIN)),
    FieldOf(b"rx_errors", 8, Number(PLAIN)),
    FieldOf(b"tx_errors", 8, Number(PLAIN)),
    FieldOf(b"rx_dropped", 8, Number(PLAIN)),
    FieldOf(b"tx_dropped", 8, Number(PLAIN)),
    FieldOf(b"multicast", 8, Number(PLAIN)),
    FieldOf(b"collisions", 8, Number(PLAIN)),
    FieldOf(b"rx_length_errors", 8, Number(PLAIN)),
    FieldOf(b"rx_over_errors", 8, Number(PLAIN)),
    FieldOf(b"rx_crc_errors", 8, Number(PLAIN)),
    FieldOf(b"rx_frame_errors", 8, Number(PLAIN)),
    FieldOf(b"rx_fifo_errors", 8, Number(PLAIN)),
    FieldOf(b"rx_missed_errors", 8, Number(PLAIN)),
    FieldOf(b"tx_aborted_errors", 8, Number(PLAIN)),
    FieldOf(b"tx_carrier_errors", 8, Number(PLAIN)),
    FieldOf(b"tx_fifo_errors", 8, Number(PLAIN)),
    FieldOf(b"tx_heartbeat_errors", 8, Number(PLAIN)),
    FieldOf(b"tx_window_errors", 8, Number(PLAIN)),
    FieldOf(b"rx_compressed", 8, Number(PLAIN)),
    FieldOf(b"tx_compressed", 8, Number(PLAIN)),
    FieldOf(b"rx_nohandler", 8, Number(PLAIN)),
    FieldOf(b"rx_otherhost_dropped", 8, Number(PLAIN)),
];

/// Addresses of a device (if_link.h: struct rtnl_link_ifmap).
pub const MAP: Layout = Layout(2);

pub(crate) const MAP_FIELDS: Fields = &[
    FieldOf(b"mem_start", 8, Number(PLAIN)),
    FieldOf(b"mem_end", 8, Number(PLAIN)),
    FieldOf(b"base_addr", 8, Number(PLAIN)),
    FieldOf(b"irq", 2, Number(PLAIN)),
    FieldOf(b"dma", 1, Number(PLAIN)),
    FieldOf(b"port", 1, Number(PLAIN)),
];

/// Settings of IPv4 (ip.h: IPV4_DEVCONF_*).
pub const IPV4_DEVCONF: Layout = Layout(3);

pub(crate) const IPV4_DEVCONF_FIELDS: Fields = &[
    FieldOf(b"forwarding", 4, Signed),
    FieldOf(b"mc_forwarding", 4, Signed),
    FieldOf(b"proxy_arp", 4, Signed),
    FieldOf(b"accept_redirects", 4, Signed),
    FieldOf(b"secure_redirects", 4, Signed),
    FieldOf(b"send_redirects", 4, Signed),
    FieldOf(b"shared_media", 4, Signed),
    FieldOf(b"rp_filter", 4, Signed),
    FieldOf(b"accept_source_route", 4, Signed),
    FieldOf(b"bootp_relay", 4, Signed),
    FieldOf(b"log_martians", 4, Signed),
    FieldOf(b"tag", 4, Signed),
    FieldOf(b"arpfilter", 4, Signed),
    FieldOf(b"medium_id", 4, Signed),
    FieldOf(b"noxfrm", 4, Signed),
    FieldOf(b"nopolicy", 4, Signed),
    FieldOf(b"force_igmp_version", 4, Signed),
    FieldOf(b"arp_announce", 4, Signed),
    FieldOf(b"arp_ignore", 4, Signed),
    FieldOf(b"promote_secondaries", 4, Signed),
    FieldOf(b"arp_accept", 4, Signed),
    FieldOf(b"arp_notify", 4, Signed),
    FieldOf(b"accept_local", 4, Signed),
    FieldOf(b"src_vmark", 4, Signed),
    FieldOf(b"proxy_arp_pvlan", 4, Signed),
    FieldOf(b"route_localnet", 4, Signed),
    FieldOf(b"igmpv2_unsolicited_report_interval", 4, Signed),
    FieldOf(b"igmpv3_unsolicited_report_interval", 4, Signed),
    FieldOf(b"ignore_routes_with_linkdown", 4, Signed),
    FieldOf(b"drop_unicast_in_l2_multicast", 4, Signed),
    FieldOf(b"drop_gratuitous_arp", 4, Signed),
    FieldOf(b"bc_forwarding", 4, Signed),
    FieldOf(b"arp_evict_nocarrier", 4, Signed),
];

/// The settings of IPv6 that normal texts have, followed by those given.
macro_rules! ipv6_settings {
    ($($setting:expr),*) => {
        &[
            FieldOf(b"forwarding", 4, Signed),
            FieldOf(b"hoplimit", 4, Signed),
            FieldOf(b"mtu6", 4, Signed),
            FieldOf(b"accept_ra", 4, Signed),
            FieldOf(b"accept_redirects", 4, Signed),
            FieldOf(b"autoconf", 4, Signed),
            FieldOf(b"dad_transmits", 4, Signed),
            FieldOf(b"rtr_solicits", 4, Signed),
            FieldOf(b"rtr_solicit_interval", 4, Signed),
            FieldOf(b"rtr_solicit_delay", 4, Signed),
            FieldOf(b"use_tempaddr", 4, Signed),
            FieldOf(b"temp_valid_lft", 4, Signed),
            FieldOf(b"temp_prefered_lft", 4, Signed),
            FieldOf(b"regen_max_retry", 4, Signed),
            FieldOf(b"max_desync_factor", 4, Signed),
            FieldOf(b"max_addresses", 4, Signed),
            FieldOf(b"force_mld_version", 4, Signed),
            FieldOf(b"accept_ra_defrtr", 4, Signed),
            FieldOf(b"accept_ra_pinfo", 4, Signed),
            FieldOf(b"accept_ra_rtr_pref", 4, Signed),
            FieldOf(b"rtr_probe_interval", 4, Signed),
            FieldOf(b"accept_ra_rt_info_max_plen", 4, Signed),
            FieldOf(b"proxy_ndp", 4, Signed),
            FieldOf(b"optimistic_dad", 4, Signed),
            FieldOf(b"accept_source_route", 4, Signed),
            FieldOf(b"mc_forwarding", 4, Signed),
            FieldOf(b"disable_ipv6", 4, Signed),
            FieldOf(b"accept_dad", 4, Signed),
            FieldOf(b"force_tllao", 4, Signed),
            FieldOf(b"ndisc_notify", 4, Signed),
            FieldOf(b"mldv1_unsolicited_report_interval", 4, Signed),
            FieldOf(b"mldv2_unsolicited_report_interval", 4, Signed),
            FieldOf(b"suppress_frag_ndisc", 4, Signed),
            FieldOf(b"accept_ra_from_local", 4, Signed),
            FieldOf(b"use_optimistic", 4, Signed),
            FieldOf(b"accept_ra_mtu", 4, Signed),
            FieldOf(b"stable_secret", 4, Signed),
            FieldOf(b"use_oif_addrs_only", 4, Signed),
            FieldOf(b"accept_ra_min_hop_limit", 4, Signed),
            FieldOf(b"ignore_routes_with_linkdown", 4, Signed),
            FieldOf(b"drop_unicast_in_l2_multicast", 4, Signed),
            FieldOf(b"drop_unsolicited_na", 4, Signed),
            FieldOf(b"keep_addr_on_down", 4, Signed),
            FieldOf(b"rtr_solicit_max_interval", 4, Signed),
            FieldOf(b"seg6_enabled", 4, Signed),
            FieldOf(b"seg6_require_hmac", 4, Signed),
            FieldOf(b"enhanced_dad", 4, Signed),
            FieldOf(b"addr_gen_mode", 4, Signed),
            FieldOf(b"disable_policy", 4, Signed),
            FieldOf(b"accept_ra_rt_info_min_plen", 4, Signed),
            FieldOf(b"ndisc_tclass", 4, Signed),
            FieldOf(b"rpl_seg_enabled", 4, Signed),
            FieldOf(b"ra_defrtr_metric", 4, Signed),
            FieldOf(b"ioam6_enabled", 4, Signed),
            FieldOf(b"ioam6_id", 4, Signed),
            FieldOf(b"ioam6_id_wide", 4, Signed),
            FieldOf(b"ndisc_evict_nocarrier", 4, Signed),
            FieldOf(b"accept_untracked_na", 4, Signed),
            FieldOf(b"accept_ra_min_lft", 4, Signed),
            $($setting),*
        ]
    };
}

/// Settings of IPv6 (ipv6.h: DEVCONF_*), as many as normal texts have.
pub const IPV6_DEVCONF: Layout = Layout(4);

pub(crate) const IPV6_DEVCONF_FIELDS: Fields = ipv6_settings!();

/// All settings of IPv6 (ipv6.h: DEVCONF_*).
pub const IPV6_DEVCONF_ALL: Layout = Layout(5);

pub(crate) const IPV6_DEVCONF_ALL_FIELDS: Fields = ipv6_settings!(FieldOf(
    b"force_forwarding",
    4,
    Signed
));

/// Statistics of IPv6 (snmp.h: IPSTATS_MIB_*). Kernels differ in the names from index 4 on.
pub const IP6_STATS: Layout = Layout(6);

pub(crate) const IP6_STATS_FIELDS: Fields = &[
    FieldOf(b"Num", 8, Number(PLAIN)),
    FieldOf(b"InReceives", 8, Number(PLAIN)),
    FieldOf(b"InOctets", 8, Number(PLAIN)),
    FieldOf(b"InDelivers", 8, Number(PLAIN)),
    FieldOf(b"4", 8, Number(PLAIN)),
    FieldOf(b"5", 8, Number(PLAIN)),
    FieldOf(b"6", 8, Number(PLAIN)),
    FieldOf(b"7", 8, Number(PLAIN)),
    FieldOf(b"8", 8, Number(PLAIN)),
    FieldOf(b"9", 8, Number(PLAIN)),
    FieldOf(b"10", 8, Number(PLAIN)),
    FieldOf(b"11", 8, Number(PLAIN)),
    FieldOf(b"12", 8, Number(PLAIN)),
    FieldOf(b"13", 8, Number(PLAIN)),
    FieldOf(b"14", 8, Number(PLAIN)),
    FieldOf(b"15", 8, Number(PLAIN)),
    FieldOf(b"16", 8, Number(PLAIN)),
    FieldOf(b"17", 8, Number(PLAIN)),
    FieldOf(b"18", 8, Number(PLAIN)),
    FieldOf(b"19", 8, Number(PLAIN)),
    FieldOf(b"20", 8, Number(PLAIN)),
    FieldOf(b"21", 8, Number(PLAIN)),
    FieldOf(b"22", 8, Number(PLAIN)),
    FieldOf(b"23", 8, Number(PLAIN)),
    FieldOf(b"24", 8, Number(PLAIN)),
    FieldOf(b"25", 8, Number(PLAIN)),
    FieldOf(b"26", 8, Number(PLAIN)),
    FieldOf(b"27", 8, Number(PLAIN)),
    FieldOf(b"28", 8, Number(PLAIN)),
    FieldOf(b"29", 8, Number(PLAIN)),
    FieldOf(b"30", 8, Number(PLAIN)),
    FieldOf(b"31", 8, Number(PLAIN)),
    FieldOf(b"32", 8, Number(PLAIN)),
    FieldOf(b"33", 8, Number(PLAIN)),
    FieldOf(b"34", 8, Number(PLAIN)),
    FieldOf(b"35", 8, Number(PLAIN)),
    FieldOf(b"36", 8, Number(PLAIN)),
    FieldOf(b"37", 8, Number(PLAIN)),
];

/// Statistics of ICMPv6 (snmp.h: ICMP6_MIB_*).
pub const ICMP6_STATS: Layout = Layout(7);

pub(crate) const ICMP6_STATS_FIELDS: Fields = &[
    FieldOf(b"Num", 8, Number(PLAIN)),
    FieldOf(b"InMsgs", 8, Number(PLAIN)),
    FieldOf(b"InErrors", 8, Number(PLAIN)),
    FieldOf(b"OutMsgs", 8, Number(PLAIN)),
    FieldOf(b"OutErrors", 8, Number(PLAIN)),
    FieldOf(b"InCsumErrors", 8, Number(PLAIN)),
    FieldOf(b"OutRateLimitHost", 8, Number(PLAIN)),
];

/// Times of IPv6 (if_link.h: struct ifla_cacheinfo).
pub const CACHEINFO: Layout = Layout(8);

pub(crate) const CACHEINFO_FIELDS: Fields = &[
    FieldOf(b"max_reasm_len", 4, Number(PLAIN)),
    FieldOf(b"tstamp", 4, Number(PLAIN)),
    FieldOf(b"reachable_time", 4, Number(PLAIN)),
    FieldOf(b"retrans_time", 4, Number(PLAIN)),
];

/// A virtual function's address (if_link.h: struct ifla_vf_mac).
pub const VF_MAC: Layout = Layout(9);

pub(crate) const VF_MAC_FIELDS: Fields = &[
    FieldOf(b"vf", 4, Number(PLAIN)),
    FieldOf(b"mac", 32, Address),
];

/// A virtual function's broadcast address (if_link.h: struct ifla_vf_broadcast).
pub const VF_BROADCAST: Layout = Layout(10);

pub(crate) const VF_BROADCAST_FIELDS: Fields = &[FieldOf(b"broadcast", 32, Address)];

/// A virtual function's VLAN (if_link.h: struct ifla_vf_vlan).
pub const VF_VLAN: Layout = Layout(11);

pub(crate) const VF_VLAN_FIELDS: Fields = &[
    FieldOf(b"vf", 4, Number(PLAIN)),
    FieldOf(b"vlan", 4, Number(PLAIN)),
    FieldOf(b"qos", 4, Number(PLAIN)),
];

/// One entry of a virtual function's list of VLANs (if_link.h: struct ifla_vf_vlan_info).
pub const VF_VLAN_INFO: Layout = Layout(12);

pub(crate) const VF_VLAN_INFO_FIELDS: Fields = &[
    FieldOf(b"vf", 4, Number(PLAIN)),
    FieldOf(b"vlan", 4, Number(PLAIN)),
    FieldOf(b"qos", 4, Number(PLAIN)),
    FieldOf(b"vlan_proto", 2, BigEndian(PLAIN)),
];

/// A virtual function's rate (if_link.h: struct ifla_vf_tx_rate).
pub const VF_TX_RATE: Layout = Layout(13);

pub(crate) const VF_TX_RATE_FIELDS: Fields = &[
    FieldOf(b"vf", 4, Number(PLAIN)),
    FieldOf(b"rate", 4, Number(PLAIN)),
];

/// A virtual function's minimum and maximum rate (if_link.h: struct ifla_vf_rate).
pub const VF_RATE: Layout = Layout(14);

pub(crate) const VF_RATE_FIELDS: Fields = &[
    FieldOf(b"vf", 4, Number(PLAIN)),
    FieldOf(b"min_tx_rate", 4, Number(PLAIN)),
    FieldOf(b"max_tx_rate", 4, Number(PLAIN)),
];

/// A setting of a virtual function that is on or off (if_link.h: struct ifla_vf_spoofchk and others
/// of its layout).
pub const VF_SETTING: Layout = Layout(15);

pub(crate) const VF_SETTING_FIELDS: Fields = &[
    FieldOf(b"vf", 4, Number(PLAIN)),
    FieldOf(b"setting", 4, Boolean),
];

/// A virtual function's link state (if_link.h: struct ifla_vf_link_state).
pub const VF_LINK_STATE: Layout = Layout(16);

pub(crate) const VF_LINK_STATE_FIELDS: Fields = &[
    FieldOf(b"vf", 4, Number(PLAIN)),
    FieldOf(b"link_state", 4, Number(PLAIN)),
];

/// Returns the fields of a record, by the index of its layout from that of the first layout here on.
pub(crate) fn fields(index: u8) -> Fields
    ensures { fields_of (λ b. b.now) result.now ≡ get_or link_layouts index [] }
{
    match index {
        0 => STATS_FIELDS,
        1 => STATS64_FIELDS,
        2 => MAP_FIELDS,
        3 => IPV4_DEVCONF_FIELDS,
        4 => IPV6_DEVCONF_FIELDS,
        5 => IPV6_DEVCONF_ALL_FIELDS,
        6 => IP6_STATS_FIELDS,
        7 => ICMP6_STATS_FIELDS,
        8 => CACHEINFO_FIELDS,
        9 => VF_MAC_FIELDS,
        10 => VF_BROADCAST_FIELDS,
        11 => VF_VLAN_FIELDS,
        12 => VF_VLAN_INFO_FIELDS,
        13 => VF_TX_RATE_FIELDS,
        14 => VF_RATE_FIELDS,
        15 => VF_SETTING_FIELDS,
        16 => VF_LINK_STATE_FIELDS,
        _ => &[],
    }
}
