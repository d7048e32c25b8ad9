//! Captures without sequence numbers and netlink port IDs, which change from run to run.
#![tactic(auto)]

mod clearing;
pub mod laws;

pub use clearing::clear_numbers;
