//! The index of each setting and each number in its record, by the kernel's names.

use super::values::{Icmp6Stats, Inet6DevConf, Inet6Stats, InetDevConf};

/// The indexes of the settings, one less than the numbers of `IPV4_DEVCONF_*` in `linux/ip.h`.
impl InetDevConf {
    /// `IPV4_DEVCONF_FORWARDING`, 1.
    pub const FORWARDING: usize = 0;
    /// `IPV4_DEVCONF_MC_FORWARDING`, 2.
    pub const MC_FORWARDING: usize = 1;
    /// `IPV4_DEVCONF_PROXY_ARP`, 3.
    pub const PROXY_ARP: usize = 2;
    /// `IPV4_DEVCONF_ACCEPT_REDIRECTS`, 4.
    pub const ACCEPT_REDIRECTS: usize = 3;
    /// `IPV4_DEVCONF_SECURE_REDIRECTS`, 5.
    pub const SECURE_REDIRECTS: usize = 4;
    /// `IPV4_DEVCONF_SEND_REDIRECTS`, 6.
    pub const SEND_REDIRECTS: usize = 5;
    /// `IPV4_DEVCONF_SHARED_MEDIA`, 7.
    pub const SHARED_MEDIA: usize = 6;
    /// `IPV4_DEVCONF_RP_FILTER`, 8.
    pub const RP_FILTER: usize = 7;
    /// `IPV4_DEVCONF_ACCEPT_SOURCE_ROUTE`, 9.
    pub const ACCEPT_SOURCE_ROUTE: usize = 8;
    /// `IPV4_DEVCONF_BOOTP_RELAY`, 10.
    pub const BOOTP_RELAY: usize = 9;
    /// `IPV4_DEVCONF_LOG_MARTIANS`, 11.
    pub const LOG_MARTIANS: usize = 10;
    /// `IPV4_DEVCONF_TAG`, 12.
    pub const TAG: usize = 11;
    /// `IPV4_DEVCONF_ARPFILTER`, 13.
    pub const ARPFILTER: usize = 12;
    /// `IPV4_DEVCONF_MEDIUM_ID`, 14.
    pub const MEDIUM_ID: usize = 13;
    /// `IPV4_DEVCONF_NOXFRM`, 15.
    pub const NOXFRM: usize = 14;
    /// `IPV4_DEVCONF_NOPOLICY`, 16.
    pub const NOPOLICY: usize = 15;
    /// `IPV4_DEVCONF_FORCE_IGMP_VERSION`, 17.
    pub const FORCE_IGMP_VERSION: usize = 16;
    /// `IPV4_DEVCONF_ARP_ANNOUNCE`, 18.
    pub const ARP_ANNOUNCE: usize = 17;
    /// `IPV4_DEVCONF_ARP_IGNORE`, 19.
    pub const ARP_IGNORE: usize = 18;
    /// `IPV4_DEVCONF_PROMOTE_SECONDARIES`, 20.
    pub const PROMOTE_SECONDARIES: usize = 19;
    /// `IPV4_DEVCONF_ARP_ACCEPT`, 21.
    pub const ARP_ACCEPT: usize = 20;
    /// `IPV4_DEVCONF_ARP_NOTIFY`, 22.
    pub const ARP_NOTIFY: usize = 21;
    /// `IPV4_DEVCONF_ACCEPT_LOCAL`, 23.
    pub const ACCEPT_LOCAL: usize = 22;
    /// `IPV4_DEVCONF_SRC_VMARK`, 24.
    pub const SRC_VMARK: usize = 23;
    /// `IPV4_DEVCONF_PROXY_ARP_PVLAN`, 25.
    pub const PROXY_ARP_PVLAN: usize = 24;
    /// `IPV4_DEVCONF_ROUTE_LOCALNET`, 26.
    pub const ROUTE_LOCALNET: usize = 25;
    /// `IPV4_DEVCONF_IGMPV2_UNSOLICITED_REPORT_INTERVAL`, 27.
    pub const IGMPV2_UNSOLICITED_REPORT_INTERVAL: usize = 26;
    /// `IPV4_DEVCONF_IGMPV3_UNSOLICITED_REPORT_INTERVAL`, 28.
    pub const IGMPV3_UNSOLICITED_REPORT_INTERVAL: usize = 27;
    /// `IPV4_DEVCONF_IGNORE_ROUTES_WITH_LINKDOWN`, 29.
    pub const IGNORE_ROUTES_WITH_LINKDOWN: usize = 28;
    /// `IPV4_DEVCONF_DROP_UNICAST_IN_L2_MULTICAST`, 30.
    pub const DROP_UNICAST_IN_L2_MULTICAST: usize = 29;
    /// `IPV4_DEVCONF_DROP_GRATUITOUS_ARP`, 31.
    pub const DROP_GRATUITOUS_ARP: usize = 30;
    /// `IPV4_DEVCONF_BC_FORWARDING`, 32.
    pub const BC_FORWARDING: usize = 31;
    /// `IPV4_DEVCONF_ARP_EVICT_NOCARRIER`, 33.
    pub const ARP_EVICT_NOCARRIER: usize = 32;
}

/// The indexes of the settings, which are the numbers of `DEVCONF_*` in `linux/ipv6.h`.
impl Inet6DevConf {
    /// `DEVCONF_FORWARDING`, 0.
    pub const FORWARDING: usize = 0;
    /// `DEVCONF_HOPLIMIT`, 1.
    pub const HOPLIMIT: usize = 1;
    /// `DEVCONF_MTU6`, 2.
    pub const MTU6: usize = 2;
    /// `DEVCONF_ACCEPT_RA`, 3.
    pub const ACCEPT_RA: usize = 3;
    /// `DEVCONF_ACCEPT_REDIRECTS`, 4.
    pub const ACCEPT_REDIRECTS: usize = 4;
    /// `DEVCONF_AUTOCONF`, 5.
    pub const AUTOCONF: usize = 5;
    /// `DEVCONF_DAD_TRANSMITS`, 6.
    pub const DAD_TRANSMITS: usize = 6;
    /// `DEVCONF_RTR_SOLICITS`, 7.
    pub const RTR_SOLICITS: usize = 7;
    /// `DEVCONF_RTR_SOLICIT_INTERVAL`, 8.
    pub const RTR_SOLICIT_INTERVAL: usize = 8;
    /// `DEVCONF_RTR_SOLICIT_DELAY`, 9.
    pub const RTR_SOLICIT_DELAY: usize = 9;
    /// `DEVCONF_USE_TEMPADDR`, 10.
    pub const USE_TEMPADDR: usize = 10;
    /// `DEVCONF_TEMP_VALID_LFT`, 11.
    pub const TEMP_VALID_LFT: usize = 11;
    /// `DEVCONF_TEMP_PREFERED_LFT`, 12.
    pub const TEMP_PREFERED_LFT: usize = 12;
    /// `DEVCONF_REGEN_MAX_RETRY`, 13.
    pub const REGEN_MAX_RETRY: usize = 13;
    /// `DEVCONF_MAX_DESYNC_FACTOR`, 14.
    pub const MAX_DESYNC_FACTOR: usize = 14;
    /// `DEVCONF_MAX_ADDRESSES`, 15.
    pub const MAX_ADDRESSES: usize = 15;
    /// `DEVCONF_FORCE_MLD_VERSION`, 16.
    pub const FORCE_MLD_VERSION: usize = 16;
    /// `DEVCONF_ACCEPT_RA_DEFRTR`, 17.
    pub const ACCEPT_RA_DEFRTR: usize = 17;
    /// `DEVCONF_ACCEPT_RA_PINFO`, 18.
    pub const ACCEPT_RA_PINFO: usize = 18;
    /// `DEVCONF_ACCEPT_RA_RTR_PREF`, 19.
    pub const ACCEPT_RA_RTR_PREF: usize = 19;
    /// `DEVCONF_RTR_PROBE_INTERVAL`, 20.
    pub const RTR_PROBE_INTERVAL: usize = 20;
    /// `DEVCONF_ACCEPT_RA_RT_INFO_MAX_PLEN`, 21.
    pub const ACCEPT_RA_RT_INFO_MAX_PLEN: usize = 21;
    /// `DEVCONF_PROXY_NDP`, 22.
    pub const PROXY_NDP: usize = 22;
    /// `DEVCONF_OPTIMISTIC_DAD`, 23.
    pub const OPTIMISTIC_DAD: usize = 23;
    /// `DEVCONF_ACCEPT_SOURCE_ROUTE`, 24.
    pub const ACCEPT_SOURCE_ROUTE: usize = 24;
    /// `DEVCONF_MC_FORWARDING`, 25.
    pub const MC_FORWARDING: usize = 25;
    /// `DEVCONF_DISABLE_IPV6`, 26.
    pub const DISABLE_IPV6: usize = 26;
    /// `DEVCONF_ACCEPT_DAD`, 27.
    pub const ACCEPT_DAD: usize = 27;
    /// `DEVCONF_FORCE_TLLAO`, 28.
    pub const FORCE_TLLAO: usize = 28;
    /// `DEVCONF_NDISC_NOTIFY`, 29.
    pub const NDISC_NOTIFY: usize = 29;
    /// `DEVCONF_MLDV1_UNSOLICITED_REPORT_INTERVAL`, 30.
    pub const MLDV1_UNSOLICITED_REPORT_INTERVAL: usize = 30;
    /// `DEVCONF_MLDV2_UNSOLICITED_REPORT_INTERVAL`, 31.
    pub const MLDV2_UNSOLICITED_REPORT_INTERVAL: usize = 31;
    /// `DEVCONF_SUPPRESS_FRAG_NDISC`, 32.
    pub const SUPPRESS_FRAG_NDISC: usize = 32;
    /// `DEVCONF_ACCEPT_RA_FROM_LOCAL`, 33.
    pub const ACCEPT_RA_FROM_LOCAL: usize = 33;
    /// `DEVCONF_USE_OPTIMISTIC`, 34.
    pub const USE_OPTIMISTIC: usize = 34;
    /// `DEVCONF_ACCEPT_RA_MTU`, 35.
    pub const ACCEPT_RA_MTU: usize = 35;
    /// `DEVCONF_STABLE_SECRET`, 36.
    pub const STABLE_SECRET: usize = 36;
    /// `DEVCONF_USE_OIF_ADDRS_ONLY`, 37.
    pub const USE_OIF_ADDRS_ONLY: usize = 37;
    /// `DEVCONF_ACCEPT_RA_MIN_HOP_LIMIT`, 38.
    pub const ACCEPT_RA_MIN_HOP_LIMIT: usize = 38;
    /// `DEVCONF_IGNORE_ROUTES_WITH_LINKDOWN`, 39.
    pub const IGNORE_ROUTES_WITH_LINKDOWN: usize = 39;
    /// `DEVCONF_DROP_UNICAST_IN_L2_MULTICAST`, 40.
    pub const DROP_UNICAST_IN_L2_MULTICAST: usize = 40;
    /// `DEVCONF_DROP_UNSOLICITED_NA`, 41.
    pub const DROP_UNSOLICITED_NA: usize = 41;
    /// `DEVCONF_KEEP_ADDR_ON_DOWN`, 42.
    pub const KEEP_ADDR_ON_DOWN: usize = 42;
    /// `DEVCONF_RTR_SOLICIT_MAX_INTERVAL`, 43.
    pub const RTR_SOLICIT_MAX_INTERVAL: usize = 43;
    /// `DEVCONF_SEG6_ENABLED`, 44.
    pub const SEG6_ENABLED: usize = 44;
    /// `DEVCONF_SEG6_REQUIRE_HMAC`, 45.
    pub const SEG6_REQUIRE_HMAC: usize = 45;
    /// `DEVCONF_ENHANCED_DAD`, 46.
    pub const ENHANCED_DAD: usize = 46;
    /// `DEVCONF_ADDR_GEN_MODE`, 47.
    pub const ADDR_GEN_MODE: usize = 47;
    /// `DEVCONF_DISABLE_POLICY`, 48.
    pub const DISABLE_POLICY: usize = 48;
    /// `DEVCONF_ACCEPT_RA_RT_INFO_MIN_PLEN`, 49.
    pub const ACCEPT_RA_RT_INFO_MIN_PLEN: usize = 49;
    /// `DEVCONF_NDISC_TCLASS`, 50.
    pub const NDISC_TCLASS: usize = 50;
    /// `DEVCONF_RPL_SEG_ENABLED`, 51.
    pub const RPL_SEG_ENABLED: usize = 51;
    /// `DEVCONF_RA_DEFRTR_METRIC`, 52.
    pub const RA_DEFRTR_METRIC: usize = 52;
    /// `DEVCONF_IOAM6_ENABLED`, 53.
    pub const IOAM6_ENABLED: usize = 53;
    /// `DEVCONF_IOAM6_ID`, 54.
    pub const IOAM6_ID: usize = 54;
    /// `DEVCONF_IOAM6_ID_WIDE`, 55.
    pub const IOAM6_ID_WIDE: usize = 55;
    /// `DEVCONF_NDISC_EVICT_NOCARRIER`, 56.
    pub const NDISC_EVICT_NOCARRIER: usize = 56;
    /// `DEVCONF_ACCEPT_UNTRACKED_NA`, 57.
    pub const ACCEPT_UNTRACKED_NA: usize = 57;
    /// `DEVCONF_ACCEPT_RA_MIN_LFT`, 58.
    pub const ACCEPT_RA_MIN_LFT: usize = 58;
}

/// The indexes of the numbers, which are those of `IPSTATS_MIB_*` in `linux/snmp.h`.
impl Inet6Stats {
    /// `IPSTATS_MIB_NUM`, 0.
    pub const NUM: usize = 0;
    /// `IPSTATS_MIB_INPKTS`, 1.
    pub const INPKTS: usize = 1;
    /// `IPSTATS_MIB_INOCTETS`, 2.
    pub const INOCTETS: usize = 2;
    /// `IPSTATS_MIB_INDELIVERS`, 3.
    pub const INDELIVERS: usize = 3;
    /// `IPSTATS_MIB_OUTFORWDATAGRAMS`, 4.
    pub const OUTFORWDATAGRAMS: usize = 4;
    /// `IPSTATS_MIB_OUTREQUESTS`, 5.
    pub const OUTREQUESTS: usize = 5;
    /// `IPSTATS_MIB_OUTOCTETS`, 6.
    pub const OUTOCTETS: usize = 6;
    /// `IPSTATS_MIB_INHDRERRORS`, 7.
    pub const INHDRERRORS: usize = 7;
    /// `IPSTATS_MIB_INTOOBIGERRORS`, 8.
    pub const INTOOBIGERRORS: usize = 8;
    /// `IPSTATS_MIB_INNOROUTES`, 9.
    pub const INNOROUTES: usize = 9;
    /// `IPSTATS_MIB_INADDRERRORS`, 10.
    pub const INADDRERRORS: usize = 10;
    /// `IPSTATS_MIB_INUNKNOWNPROTOS`, 11.
    pub const INUNKNOWNPROTOS: usize = 11;
    /// `IPSTATS_MIB_INTRUNCATEDPKTS`, 12.
    pub const INTRUNCATEDPKTS: usize = 12;
    /// `IPSTATS_MIB_INDISCARDS`, 13.
    pub const INDISCARDS: usize = 13;
    /// `IPSTATS_MIB_OUTDISCARDS`, 14.
    pub const OUTDISCARDS: usize = 14;
    /// `IPSTATS_MIB_OUTNOROUTES`, 15.
    pub const OUTNOROUTES: usize = 15;
    /// `IPSTATS_MIB_REASMTIMEOUT`, 16.
    pub const REASMTIMEOUT: usize = 16;
    /// `IPSTATS_MIB_REASMREQDS`, 17.
    pub const REASMREQDS: usize = 17;
    /// `IPSTATS_MIB_REASMOKS`, 18.
    pub const REASMOKS: usize = 18;
    /// `IPSTATS_MIB_REASMFAILS`, 19.
    pub const REASMFAILS: usize = 19;
    /// `IPSTATS_MIB_FRAGOKS`, 20.
    pub const FRAGOKS: usize = 20;
    /// `IPSTATS_MIB_FRAGFAILS`, 21.
    pub const FRAGFAILS: usize = 21;
    /// `IPSTATS_MIB_FRAGCREATES`, 22.
    pub const FRAGCREATES: usize = 22;
    /// `IPSTATS_MIB_INMCASTPKTS`, 23.
    pub const INMCASTPKTS: usize = 23;
    /// `IPSTATS_MIB_OUTMCASTPKTS`, 24.
    pub const OUTMCASTPKTS: usize = 24;
    /// `IPSTATS_MIB_INBCASTPKTS`, 25.
    pub const INBCASTPKTS: usize = 25;
    /// `IPSTATS_MIB_OUTBCASTPKTS`, 26.
    pub const OUTBCASTPKTS: usize = 26;
    /// `IPSTATS_MIB_INMCASTOCTETS`, 27.
    pub const INMCASTOCTETS: usize = 27;
    /// `IPSTATS_MIB_OUTMCASTOCTETS`, 28.
    pub const OUTMCASTOCTETS: usize = 28;
    /// `IPSTATS_MIB_INBCASTOCTETS`, 29.
    pub const INBCASTOCTETS: usize = 29;
    /// `IPSTATS_MIB_OUTBCASTOCTETS`, 30.
    pub const OUTBCASTOCTETS: usize = 30;
    /// `IPSTATS_MIB_CSUMERRORS`, 31.
    pub const CSUMERRORS: usize = 31;
    /// `IPSTATS_MIB_NOECTPKTS`, 32.
    pub const NOECTPKTS: usize = 32;
    /// `IPSTATS_MIB_ECT1PKTS`, 33.
    pub const ECT1PKTS: usize = 33;
    /// `IPSTATS_MIB_ECT0PKTS`, 34.
    pub const ECT0PKTS: usize = 34;
    /// `IPSTATS_MIB_CEPKTS`, 35.
    pub const CEPKTS: usize = 35;
    /// `IPSTATS_MIB_REASM_OVERLAPS`, 36.
    pub const REASM_OVERLAPS: usize = 36;
    /// `IPSTATS_MIB_OUTPKTS`, 37.
    pub const OUTPKTS: usize = 37;
}

/// The indexes of the numbers, which are those of `ICMP6_MIB_*` in `linux/snmp.h`.
impl Icmp6Stats {
    /// `ICMP6_MIB_NUM`, 0.
    pub const NUM: usize = 0;
    /// `ICMP6_MIB_INMSGS`, 1.
    pub const INMSGS: usize = 1;
    /// `ICMP6_MIB_INERRORS`, 2.
    pub const INERRORS: usize = 2;
    /// `ICMP6_MIB_OUTMSGS`, 3.
    pub const OUTMSGS: usize = 3;
    /// `ICMP6_MIB_OUTERRORS`, 4.
    pub const OUTERRORS: usize = 4;
    /// `ICMP6_MIB_CSUMERRORS`, 5.
    pub const CSUMERRORS: usize = 5;
    /// `ICMP6_MIB_RATELIMITHOST`, 6.
    pub const RATELIMITHOST: usize = 6;
}
