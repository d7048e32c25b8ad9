//! Faults that programs report.

use link_capture_grammar::fault::{CaptureFault, FaultKind};

/// The fault that a program reports if it can't print its result.
pub const NOT_PRINTED: CaptureFault = CaptureFault {
    kind: FaultKind::Write,
    offset: 0,
};
