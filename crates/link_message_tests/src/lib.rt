// Tests of link messages, of link info and of the checks on their bytes, in a crate of their own,
// since a crate with tests is proved twice. The expected values come from outside this project's
// code. Tests of other crates that own link messages are here too, since a crate with such a test
// proves how each type inside is dropped.
#![tactic(auto)]

#[cfg(test)]
mod capture_messages;
#[cfg(test)]
mod checked_bodies;
#[cfg(test)]
mod checked_link_peers;
#[cfg(test)]
mod checked_lists;
#[cfg(test)]
mod checked_peers;
#[cfg(test)]
mod info;
#[cfg(test)]
mod memory;
#[cfg(test)]
mod messages;
#[cfg(test)]
mod nested;
#[cfg(test)]
mod records;
#[cfg(test)]
mod requests;
#[cfg(test)]
mod single_attributes;
#[cfg(test)]
mod types;
#[cfg(test)]
mod values;
#[cfg(test)]
mod virtual_functions;
