// The grammar of captures: frames, faults and normal texts, and its laws.
#![tactic(auto)]

pub mod fault;
pub mod laws;
pub mod link_types;
