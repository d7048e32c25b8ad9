//! Laws of the types. No function here makes a call.

ghost use Rattle.std.specs.Prelude.{◌≡◌};
ghost use Rattle.link_info_devices.specs.Ipvlan.{ipvlan_number};
ghost use Rattle.link_info_devices.specs.Veth.{pair_number};
ghost use Rattle.link_info_devices.specs.RawData.{raw_number};

use super::ipvlan::{InfoIpVlan, InfoIpVtap};
use super::raw_data::{
    InfoBond, InfoBondPort, InfoBridge, InfoBridgePort, InfoCan, InfoDsa, InfoHsr, InfoTeamPort,
    InfoTun, InfoVlan, InfoWireguard,
};
use super::veth::{InfoVeth, InfoVxcan};

/// The data of `ipvlan` have the number 0, and those of `ipvtap` the number 1.
pub fn kinds_are_numbered(ipvlan: &InfoIpVlan, ipvtap: &InfoIpVtap)
    ensures ipvlan { ipvlan_number ipvlan.now ≡ 0 }
    ensures ipvtap { ipvlan_number ipvtap.now ≡ 1 }
{}

/// The data of `veth` have the number 0, and those of `vxcan` the number 1.
pub fn pairs_are_numbered(veth: &InfoVeth, vxcan: &InfoVxcan)
    ensures veth { pair_number veth.now ≡ 0 }
    ensures vxcan { pair_number vxcan.now ≡ 1 }
{}

/// The raw data of each kind of link have a number, different from those of the others.
pub fn raw_kinds_are_numbered(
    bond: &InfoBond,
    bridge: &InfoBridge,
    can: &InfoCan,
    dsa: &InfoDsa,
    hsr: &InfoHsr,
    tun: &InfoTun,
    vlan: &InfoVlan,
    wireguard: &InfoWireguard,
)
    ensures bond { raw_number bond.now ≡ 0 }
    ensures bridge { raw_number bridge.now ≡ 1 }
    ensures can { raw_number can.now ≡ 2 }
    ensures dsa { raw_number dsa.now ≡ 3 }
    ensures hsr { raw_number hsr.now ≡ 4 }
    ensures tun { raw_number tun.now ≡ 5 }
    ensures vlan { raw_number vlan.now ≡ 6 }
    ensures wireguard { raw_number wireguard.now ≡ 7 }
{}

/// The raw data of each kind of port have a number, different from those of the others.
pub fn port_kinds_are_numbered(bond: &InfoBondPort, bridge: &InfoBridgePort, team: &InfoTeamPort)
    ensures bond { raw_number bond.now ≡ 8 }
    ensures bridge { raw_number bridge.now ≡ 9 }
    ensures team { raw_number team.now ≡ 10 }
{}
