//! Why the body of a message is refused.

use thiserror::Error;

/// Why the body of a message is refused: the first that applies, in this order; but an allocation
/// may fail for any body that has a text.
#[derive(Clone, Copy, Debug, PartialEq, Eq, Drop, Error)]
pub enum RouteFault {
    /// The body isn't accepted.
    #[error("refused body")]
    Refused,
    /// The body has a list of ports that keeps no entry.
    #[error("ports with foreign entries alone")]
    EmptyPorts,
    /// An attribute of its canonical text is over 65535 bytes.
    #[error("attribute over 65535")]
    Unfit,
    /// An allocation failed.
    #[error("no memory")]
    Memory,
}
