//! The attributes of a link (if_link.h, IFLA_*), under the address family of the message's header.
#![tactic(auto)]

mod attributes;
mod families;
mod kinds;
mod numbers;
mod payload;

pub use attributes::LinkAttribute;
