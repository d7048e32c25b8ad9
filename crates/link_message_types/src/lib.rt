//! Number types, flag sets and the header of link messages.
#![tactic(auto)]

pub mod address_family;
pub mod event;
pub mod ext_mask;
pub mod header;
pub mod inet6;
pub mod laws;
pub mod link_flag;
pub mod link_layer_type;
pub mod link_state;
pub mod mctp;
pub mod mode;
pub mod phys_id;
pub mod record_buffer;
pub mod statistics;
pub mod vf;
pub mod vlan;
pub mod xdp;

pub use address_family::AddressFamily;
pub use bitflags::Flags;
pub use event::LinkEvent;
pub use ext_mask::LinkExtentMask;
pub use header::{LinkHeader, LinkMessageBuffer};
pub use inet6::{In6AddrGenMode, Inet6IfaceFlags};
pub use link_flag::LinkFlags;
pub use link_layer_type::LinkLayerType;
pub use link_message_grammar::LINK_HEADER_LEN;
pub use link_state::State;
pub use mctp::MctpPhysBinding;
pub use mode::LinkMode;
pub use phys_id::LinkPhysId;
pub use record_buffer::{Record, RecordBuffer};
pub use statistics::LinkStatistics;
pub use vf::VfLinkState;
pub use vlan::VlanProtocol;
pub use xdp::XdpAttached;
