//! Link messages (rtnetlink.h, RTM_NEWLINK and similar types): a header and the attributes of a
//! link.
//!
//! Beside messages this crate re-exports the items of its parts, so that callers need no other.
#![tactic(auto)]

pub mod laws;
mod message;

pub use link_message_attributes::LinkAttribute;
pub use link_message_checks::{BodyMeasure, LinkPeer, check, same, write_canonical};
pub use link_message_nested::{
    AfSpecInet, AfSpecInet6, AfSpecMctp, AfSpecUnspec, DevlinkPort, DpllPin, LinkProtoInfoInet6,
    LinkProtocolDownReason, LinkVfInfo, LinkVfPort, LinkXdp, Prop, VfInfo, VfPort, VfStats, VfVlan,
};
pub use link_message_records::{
    FieldRecord, Icmp6Stats, Icmp6StatsBuffer, Inet6CacheInfo, Inet6CacheInfoBuffer, Inet6DevConf,
    Inet6DevConfBuffer, Inet6Stats, Inet6StatsBuffer, InetDevConf, InetDevConfBuffer, Map,
    MapBuffer, Stats, Stats64, Stats64Buffer, StatsBuffer, Values, VfInfoBroadcast,
    VfInfoBroadcastBuffer, VfInfoLinkState, VfInfoLinkStateBuffer, VfInfoMac, VfInfoMacBuffer,
    VfInfoRate, VfInfoRateBuffer, VfInfoRssQueryEn, VfInfoRssQueryEnBuffer, VfInfoSetting,
    VfInfoSpoofCheck, VfInfoSpoofCheckBuffer, VfInfoTrust, VfInfoTrustBuffer, VfInfoTxRate,
    VfInfoTxRateBuffer, VfInfoVlan, VfInfoVlanBuffer, VfVlanInfo,
};
pub use link_message_types::{
    AddressFamily, Flags, In6AddrGenMode, Inet6IfaceFlags, LINK_HEADER_LEN, LinkEvent,
    LinkExtentMask, LinkFlags, LinkHeader, LinkLayerType, LinkMessageBuffer, LinkMode, LinkPhysId,
    LinkStatistics, MctpPhysBinding, State, VfLinkState, VlanProtocol, XdpAttached,
};
pub use message::LinkMessage;
