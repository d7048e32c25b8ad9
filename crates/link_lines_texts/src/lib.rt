// The lines of messages as normal texts have them.
#![tactic(auto)]

mod attribute_names;
mod attributes;
mod canonical_peers;
mod data_names;
mod format;
mod frames;
pub mod laws;
mod links;
mod message_names;
mod names;
mod raw_tables;

pub use frames::push_frame;
pub use names::find_name;
