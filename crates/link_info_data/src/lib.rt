// The data of kinds of links and of ports, each by its kind.
#![tactic(auto)]

mod info_data;
mod info_port;
pub mod laws;
mod payloads;
mod xstats;

pub use info_data::InfoData;
pub use info_port::{InfoPortData, InfoVrfPort};
pub use xstats::LinkXstats;
