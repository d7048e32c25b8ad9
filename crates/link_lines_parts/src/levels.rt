//! The levels of lines.

/// The deepest level of a line. The attributes of a peer in a peer are at level 7, and raw lists by
/// themselves are nested 8 times at most; what would be deeper, in a message made to be so, is shown
/// as bytes, so that neither the stack nor the indentation grows with a message.
pub const DEEPEST_LEVEL: usize = 16;
