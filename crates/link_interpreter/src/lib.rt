// Checks, compares and writes the attributes of links on their bytes, by one interpreter of their
// tables' rows.
#![tactic(auto)]

mod attribute;
mod canonical;
mod capacity;
mod data;
mod info;
mod link_info;
mod measure;
mod peers;
mod same;
mod same_shapes;
mod shapes;
mod tables;
mod write;
mod write_shapes;

pub use attribute::{Attribute, KIND_BOUND, first_attribute};
pub use capacity::{append, append_padding};
pub use data::{accepts_data, accepts_port_data, data_error};
pub use link_info::{
    ListMeasure, check_list, check_list_with, list_error_with, same_list, same_list_with,
};
pub use measure::{is_kept, measure_held, walk_list};
pub use peers::{BytesPeer, PeerMeasure, PeerRule, PeerSet, Ruled, WritePeer};
pub use same::same_held;
pub use shapes::{Measured, measure_shape};
pub use tables::{Found, find};
pub use write::write_held;
pub use write_shapes::write_shape;
