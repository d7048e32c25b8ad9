//! Link info (if_link.h, IFLA_LINKINFO): kinds of links and of ports, their data, and lists of them
//! under the kinds in force.
//!
//! This crate re-exports the items of its parts, for crates that work on values. A crate that works
//! on bytes names only the parts that it needs, so that it doesn't build the typed ones.
#![tactic(auto)]

mod infos;
pub mod laws;

pub use infos::LinkInfo;
pub use link_info_data::{InfoData, InfoPortData, InfoVrfPort, LinkXstats};
pub use link_info_devices::{
    InfoBatAdv, InfoBond, InfoBondPort, InfoBridge, InfoBridgePort, InfoCan, InfoDsa, InfoHsr,
    InfoIpVlan, InfoIpVtap, InfoIpoib, InfoMacSec, InfoMacVlan, InfoMacVtap, InfoNetkit, InfoRmNet,
    InfoRmNetFlags, InfoTeamPort, InfoTun, InfoVeth, InfoVlan, InfoVrf, InfoVxcan, InfoWireguard,
    InfoWwan, IpVlanData, PairData, RawData, parse_mac_vlan,
};
pub use link_info_kinds::{InfoKind, InfoPortKind};
pub use link_info_tunnels::{
    InfoAmt, InfoBareUdp, InfoGeneve, InfoGre, InfoGre6, InfoGtp, InfoIpTunnel, InfoVti, InfoVxlan,
    InfoXfrm, parse_ip_tunnel,
};
pub use link_info_types::{
    AmtMode, ErSpanDir, Flags, GeneveDf, GreEncapFlags, GreEncapType, GreIOFlags, GtpRole,
    Ip6TunnelFlags, IpProtocol, IpVlanFlags, IpVlanMode, IpVtapFlags, IpVtapMode, IpoibMode,
    MacSecCipherId, MacSecOffload, MacSecValidate, MacVlanFlags, MacVlanMacAddressMode,
    MacVlanMode, MacVtapFlags, MacVtapMacAddressMode, MacVtapMode, NetkitMode, NetkitPolicy,
    NetkitScrub, RmNetFlags, TunnelEncapFlags, TunnelEncapType, VxlanDf,
};
pub use link_interpreter::{
    BytesPeer, ListMeasure, PeerMeasure, PeerRule, check_list, check_list_with, same_list,
    same_list_with,
};
