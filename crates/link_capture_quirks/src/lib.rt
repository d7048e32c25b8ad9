// The encoding quirks of captures: encodings that some kernels treat differently from their normal
// text.
#![tactic(auto)]

mod capture;
mod kinds;
pub mod laws;
mod quirk_at;
mod rows;
mod tables;
mod walk;

pub use capture::{CaptureQuirks, quirks};
pub use quirk_at::{Quirk, QuirkAt};
