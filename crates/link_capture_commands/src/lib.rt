// The arguments of a process, the commands of the program linkcap, its exit statuses, and a fault
// that both programs report.
#![tactic(auto)]

mod command;
mod environment;
mod faults;

pub use command::{Command, DEFAULT_LIMIT, read_limit, read_words, status_norm, status_same};
pub use environment::arguments;
pub use faults::NOT_PRINTED;
