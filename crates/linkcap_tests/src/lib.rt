// Worked cases across the crates and of lines, as tests, and laws that compare lines with typed
// values. The expected values come from outside this project's code. Tests are in a crate of their
// own, since a crate with tests is proved twice; those that own link messages are in
// `link_message_tests`.
#![tactic(auto)]

#[cfg(test)]
mod attributes;
#[cfg(test)]
mod captures;
#[cfg(test)]
mod cases;
#[cfg(test)]
mod core_examples;
#[cfg(test)]
mod devices;
#[cfg(test)]
mod fault_texts;
pub mod lines;
#[cfg(test)]
mod memory;
#[cfg(test)]
mod program;
#[cfg(test)]
mod program_arguments;
#[cfg(test)]
mod readers;
#[cfg(test)]
mod runs;
#[cfg(test)]
mod sources;
#[cfg(test)]
mod steps;
#[cfg(test)]
mod stores;
