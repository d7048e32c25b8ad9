// Lists inside attributes of link messages: virtual functions and their ports, other lists, and the
// attributes of each address family.
#![tactic(auto)]

mod devlink;
mod down_reason;
mod dpll;
mod inet;
mod inet6;
mod mctp;
mod prop;
mod proto_info;
mod raw;
mod unspec;
mod vf_info;
mod vf_port;
mod vf_stats;
mod vf_vlan;
mod xdp;

pub use devlink::DevlinkPort;
pub use down_reason::LinkProtocolDownReason;
pub use dpll::DpllPin;
pub use inet::{AfSpecInet, AfSpecInetReader};
pub use inet6::{AfSpecInet6, AfSpecInet6Reader};
pub use mctp::AfSpecMctp;
pub use prop::Prop;
pub use proto_info::LinkProtoInfoInet6;
pub use raw::parse_raw;
pub use unspec::{AfSpecUnspec, AfSpecUnspecReader, parse_families};
pub use vf_info::{LinkVfInfo, LinkVfInfoReader, VfInfo, VfInfoReader, parse_vf_infos};
pub use vf_port::{LinkVfPort, LinkVfPortReader, VfPort, parse_vf_ports};
pub use vf_stats::VfStats;
pub use vf_vlan::{VfVlan, VfVlanReader};
pub use xdp::LinkXdp;
