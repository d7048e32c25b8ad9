// The grammar of link info: the tables of its kinds, their names, and the laws.
#![tactic(auto)]

pub mod laws;
