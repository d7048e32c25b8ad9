// Lines that linkshow writes, read again: a message's lines as JSON.
#![tactic(auto)]

mod attributes;
mod json;
mod names;
mod runs;
mod strings;
mod tokens;
mod values;
mod words;

pub use json::push_json;
pub use names::{BYTES, NUMBER_LISTS};
