// The lists of attributes in a link message: the names of their attributes and what these contain,
// by the list's table, and how a list goes on after an attribute.
#![tactic(auto)]

pub mod laws;
mod names;
mod rows;
mod tables;

pub use tables::{Inside, ListTable, MissingKind, list_rest, next_list, row_in, whole};
