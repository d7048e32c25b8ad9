//! Records of link messages: payloads that are written with a fixed size.
#![tactic(auto)]

pub mod cache_info;
pub mod fields;
pub mod indexes;
pub mod laws;
pub mod map;
pub mod record;
pub mod settings;
pub mod stats;
pub mod values;
pub mod vf;
pub mod vf_setting;

pub use cache_info::{Inet6CacheInfo, Inet6CacheInfoBuffer};
pub use fields::Fields;
pub use map::{Map, MapBuffer};
pub use record::{FieldRecord, emit_record};
pub use values::{
    Icmp6Stats, Icmp6StatsBuffer, Inet6DevConf, Inet6DevConfBuffer, Inet6Stats, Inet6StatsBuffer,
    InetDevConf, InetDevConfBuffer, Number, Stats, Stats64, Stats64Buffer, StatsBuffer, Values,
    read_settings,
};
pub use vf::{
    VfInfoBroadcast, VfInfoBroadcastBuffer, VfInfoLinkState, VfInfoLinkStateBuffer, VfInfoMac,
    VfInfoMacBuffer, VfInfoRate, VfInfoRateBuffer, VfInfoTxRate, VfInfoTxRateBuffer, VfInfoVlan,
    VfInfoVlanBuffer, VfVlanInfo,
};
pub use vf_setting::{
    VfInfoRssQueryEn, VfInfoRssQueryEnBuffer, VfInfoSetting, VfInfoSpoofCheck,
    VfInfoSpoofCheckBuffer, VfInfoTrust, VfInfoTrustBuffer,
};
