//! Records by the names of their fields.

use link_message::{
    Icmp6Stats, Icmp6StatsBuffer, Inet6CacheInfo, Inet6CacheInfoBuffer, Inet6DevConf,
    Inet6DevConfBuffer, Inet6Stats, Inet6StatsBuffer, InetDevConf, InetDevConfBuffer, LinkHeader,
    LinkMessageBuffer, LinkStatistics, Map, MapBuffer, Stats, Stats64, Stats64Buffer, StatsBuffer,
    Values, VfInfoBroadcast, VfInfoBroadcastBuffer, VfInfoLinkState, VfInfoLinkStateBuffer,
    VfInfoMac, VfInfoMacBuffer, VfInfoRate, VfInfoRateBuffer, VfInfoRssQueryEn,
    VfInfoRssQueryEnBuffer, VfInfoSpoofCheck, VfInfoSpoofCheckBuffer, VfInfoTrust,
    VfInfoTrustBuffer, VfInfoTxRate, VfInfoTxRateBuffer, VfInfoVlan, VfInfoVlanBuffer,
};
use link_message_types::RecordBuffer;

// The numbers of a record, each of which is its index.
const INDEXES: [u64; 25] = [
    0, 1, 2, 3, 4, 5, 6, 7, 8, 9, 10, 11, 12, 13, 14, 15, 16, 17, 18, 19, 20, 21, 22, 23, 24,
];

#[test]
fn statistics_have_the_kernels_names(rt: HostRuntime) {
    let stats: Stats64 = Values { values: INDEXES };
    let named = [
        stats.rx_packets(),
        stats.tx_packets(),
        stats.rx_bytes(),
        stats.tx_bytes(),
        stats.rx_errors(),
        stats.tx_errors(),
        stats.rx_dropped(),
        stats.tx_dropped(),
        stats.multicast(),
        stats.collisions(),
        stats.rx_length_errors(),
        stats.rx_over_errors(),
        stats.rx_crc_errors(),
        stats.rx_frame_errors(),
        stats.rx_fifo_errors(),
        stats.rx_missed_errors(),
        stats.tx_aborted_errors(),
        stats.tx_carrier_errors(),
        stats.tx_fifo_errors(),
        stats.tx_heartbeat_errors(),
        stats.tx_window_errors(),
        stats.rx_compressed(),
        stats.tx_compressed(),
        stats.rx_nohandler(),
        stats.rx_otherhost_dropped(),
    ];
    assert!(rt; named == INDEXES);
}

/// Buffers of records.
type Buffers = (
    (StatsBuffer, Stats64Buffer, InetDevConfBuffer),
    (Inet6DevConfBuffer, Inet6StatsBuffer, Icmp6StatsBuffer),
    (Inet6CacheInfoBuffer, MapBuffer, LinkMessageBuffer),
    (VfInfoMacBuffer, VfInfoBroadcastBuffer, VfInfoVlanBuffer),
    (VfInfoTxRateBuffer, VfInfoRateBuffer, VfInfoLinkStateBuffer),
    (
        VfInfoSpoofCheckBuffer,
        VfInfoRssQueryEnBuffer,
        VfInfoTrustBuffer,
    ),
);

/// The same buffers by the sizes in bytes of the kernel's structs (if_link.h, linux/ip.h,
/// linux/ipv6.h, linux/snmp.h).
type KernelBuffers = (
    (
        RecordBuffer<Stats, 96>,
        RecordBuffer<Stats64, 200>,
        RecordBuffer<InetDevConf, 132>,
    ),
    (
        RecordBuffer<Inet6DevConf, 236>,
        RecordBuffer<Inet6Stats, 304>,
        RecordBuffer<Icmp6Stats, 56>,
    ),
    (
        RecordBuffer<Inet6CacheInfo, 16>,
        RecordBuffer<Map, 32>,
        RecordBuffer<LinkHeader, 16>,
    ),
    (
        RecordBuffer<VfInfoMac, 36>,
        RecordBuffer<VfInfoBroadcast, 32>,
        RecordBuffer<VfInfoVlan, 12>,
    ),
    (
        RecordBuffer<VfInfoTxRate, 8>,
        RecordBuffer<VfInfoRate, 12>,
        RecordBuffer<VfInfoLinkState, 8>,
    ),
    (
        RecordBuffer<VfInfoSpoofCheck, 8>,
        RecordBuffer<VfInfoRssQueryEn, 8>,
        RecordBuffer<VfInfoTrust, 8>,
    ),
);

/// The types are equal only if the sizes of the buffers are.
pub fn buffers_have_the_kernels_sizes(buffers: Buffers) -> KernelBuffers {
    buffers
}
