//! What calls return: the statuses of the program `linkcap`, and three more. `linkcap.h` has the same numbers.

/// The capture is legal; of two, both are legal and mean the same.
pub const OK: u32 = 0;

/// Both captures are legal and don't mean the same.
pub const DIFFERENT: u32 = 1;

/// A fault, which is reported with its offset.
pub const FAULT: u32 = 2;

/// Options, a piece or a finding that isn't valid.
pub const WRONG: u32 = 3;

/// The buffer is too small.
pub const NO_ROOM: u32 = 4;

/// No memory.
pub const NO_MEMORY: u32 = 5;

/// There is nothing to return: no message at the offset, no refused body, or no unknown word.
pub const NONE: u32 = 6;
