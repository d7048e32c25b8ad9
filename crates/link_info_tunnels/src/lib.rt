// Link info of tunnels and overlay networks: the attributes of their data.
#![tactic(auto)]

mod amt;
mod bareudp;
mod geneve;
mod gre;
mod gre6;
mod gre_common;
mod gtp;
mod iptunnel;
mod vti;
mod vxlan;
mod xfrm;

pub use amt::InfoAmt;
pub use bareudp::InfoBareUdp;
pub use geneve::InfoGeneve;
pub use gre::InfoGre;
pub use gre6::InfoGre6;
pub use gtp::InfoGtp;
pub use iptunnel::{InfoIpTunnel, InfoIpTunnelReader, parse_ip_tunnel};
pub use vti::InfoVti;
pub use vxlan::InfoVxlan;
pub use xfrm::InfoXfrm;
