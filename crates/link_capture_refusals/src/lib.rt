// The reasons of refused bodies: the first attribute that isn't accepted, why, and its offset.
#![tactic(auto)]

mod capture;
pub mod laws;
mod reason;
mod refusal;
mod walk;

pub use capture::{why, why_frame};
pub use reason::Reason;
pub use refusal::{Refusal, separator_after_name};
