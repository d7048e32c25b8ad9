// Link info of devices that are no tunnels, of links that are stacked on another link or come in
// pairs, and of kinds whose data are lists of raw attributes: the attributes of their data.
#![tactic(auto)]

mod batadv;
mod ipoib;
mod ipvlan;
pub mod laws;
mod mac_vlan;
mod macsec;
mod netkit;
mod peers;
mod raw_data;
mod rmnet;
mod veth;
mod vrf;
mod wwan;

pub use batadv::InfoBatAdv;
pub use ipoib::InfoIpoib;
pub use ipvlan::{InfoIpVlan, InfoIpVtap, IpVlanData};
pub use mac_vlan::{InfoMacVlan, InfoMacVtap, MacVlanReader, parse_mac_vlan};
pub use macsec::InfoMacSec;
pub use netkit::InfoNetkit;
pub use peers::{parse_netkit_with, parse_pair_with};
pub use raw_data::{
    InfoBond, InfoBondPort, InfoBridge, InfoBridgePort, InfoCan, InfoDsa, InfoHsr, InfoTeamPort,
    InfoTun, InfoVlan, InfoWireguard, RawData,
};
pub use rmnet::{InfoRmNet, InfoRmNetFlags};
pub use veth::{InfoVeth, InfoVxcan, PairData};
pub use vrf::InfoVrf;
pub use wwan::InfoWwan;
