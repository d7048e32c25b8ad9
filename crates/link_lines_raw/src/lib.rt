// Raw attributes, which a normal text keeps as bytes, and bodies of messages other than links: as
// lines, one for each attribute, if the lines determine every byte.
#![tactic(auto)]

mod acknowledgements;
mod bodies;
mod bridge_rows;
mod cfm_rows;
mod choices;
mod kind_rows;
pub mod laws;
mod link_rows;
mod lists;
mod multicast_rows;
mod names;
mod neighbour_rows;
mod option_rows;
mod raw;
pub mod raw_tables;
pub mod records;
mod route_rows;
mod rows;
mod traffic_rows;

pub use acknowledgements::{is_acknowledgement, push_acknowledgement};
pub use bodies::push_body;
pub use names::{find_name, find_name_in};
pub use raw::{push_held, push_plain_bytes, push_raw};
pub use raw_tables::RawTable;
pub use rows::{Raw, RawBy};
