// The core as its callers use it: a protocol defined over it, and tests. The expected values come
// from outside this project's code.
#![tactic(auto)]

pub mod address_messages;
#[cfg(test)]
mod addresses;
#[cfg(test)]
mod buffers;
#[cfg(test)]
mod ethernet;
#[cfg(test)]
mod messages;
#[cfg(test)]
mod nla;
#[cfg(test)]
mod numbers;
#[cfg(test)]
mod refusals;
#[cfg(test)]
mod traits;
#[cfg(test)]
mod view;
