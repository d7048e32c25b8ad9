// Checks of link messages on their bytes.
#![tactic(auto)]

mod attributes;
mod body;
mod header;
mod layer_types;
mod message;
mod peer;

pub use attributes::{accepts_attribute, accepts_attributes, attribute_error, attributes_error};
pub use message::{BodyMeasure, check, same, walk_body, write_body, write_canonical};
pub use peer::{LinkPeer, has_empty_ports};
