// The attributes of a link message with their contexts: offset, name, depth, the link kind whose
// data they are in.
#![tactic(auto)]

mod attribute_at;
mod frame;
pub mod laws;
mod walk;

pub use attribute_at::AttributeAt;
pub use frame::attribute_from;
