// The kinds of links and of their ports.
#![tactic(auto)]

mod info_kind;
mod info_port_kind;
pub mod laws;

pub use info_kind::InfoKind;
pub use info_port_kind::InfoPortKind;
