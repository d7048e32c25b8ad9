//! Callers of the libraries, with contracts: what each needs of them.
#![tactic(auto)]

mod counts;
mod golden;
mod interfaces;
mod link_messages;
mod requests;
mod store;

pub use counts::{Counts, count_all};
pub use golden::{Finding, compare_with_golden};
pub use interfaces::{Interface, Interfaces, learn, learn_all, name};
pub use link_messages::{request_by_name, with_mtu, written};
pub use requests::{RequestFault, new_link_request, request, vxlan_request};
pub use store::{NotStored, Store};
