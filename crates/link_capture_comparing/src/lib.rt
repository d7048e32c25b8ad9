// Compares two captures as they are read.
#![tactic(auto)]

mod pieces;
mod side;
mod sources;

pub use pieces::read_to_end;
pub use sources::same_sources;
