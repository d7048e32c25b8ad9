//! Number types and flag sets of link info. Flag sets implement `Flags` by hand: a macro would add
//! fifteen impls, each of which has to be proved.
#![tactic(auto)]

pub mod amt;
pub mod geneve;
pub mod gre;
pub mod gtp;
pub mod ip_protocol;
pub mod ipoib;
pub mod iptunnel;
pub mod ipvlan;
pub mod laws;
pub mod mac_vlan;
pub mod macsec;
pub mod netkit;
pub mod rmnet;
pub mod vxlan;

pub use amt::AmtMode;
pub use bitflags::Flags;
pub use geneve::GeneveDf;
pub use gre::{ErSpanDir, GreEncapFlags, GreEncapType, GreIOFlags};
pub use gtp::GtpRole;
pub use ip_protocol::IpProtocol;
pub use ipoib::IpoibMode;
pub use iptunnel::{Ip6TunnelFlags, TunnelEncapFlags, TunnelEncapType};
pub use ipvlan::{IpVlanFlags, IpVlanMode, IpVtapFlags, IpVtapMode};
pub use mac_vlan::{
    MacVlanFlags, MacVlanMacAddressMode, MacVlanMode, MacVtapFlags, MacVtapMacAddressMode,
    MacVtapMode,
};
pub use macsec::{MacSecCipherId, MacSecOffload, MacSecValidate};
pub use netkit::{NetkitMode, NetkitPolicy, NetkitScrub};
pub use rmnet::RmNetFlags;
pub use vxlan::VxlanDf;
