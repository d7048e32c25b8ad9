// Judges, counts and compares captures on their bytes. Only `push_frame` allocates, for the text
// that it appends.
#![tactic(auto)]

mod bodies;
mod capture;
mod frames;
mod sameness;
mod texts;

pub use capture::{check, measure, normal_len};
pub use frames::{frame_body, frame_len, measure_frame, push_frame};
pub use sameness::{SideFault, same};
pub use texts::{Measure, MeasuredFrame};
