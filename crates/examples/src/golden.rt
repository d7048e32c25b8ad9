//! Golden files: captures that others are compared with.

ghost use Rattle.examples.specs.Findings.{IsFinding};

use link_capture::{CaptureFault, SideFault, same};

/// The result of comparing a capture with a golden file.
#[derive(Clone, Copy, Debug, PartialEq, Eq, Drop)]
pub enum Finding {
    /// The capture is legal, and has the golden file's normal text.
    Golden,
    /// The capture is legal, and has another normal text.
    Changed,
    /// The capture isn't legal: its first fault.
    Fault(CaptureFault),
    /// The golden file isn't legal: its first fault.
    GoldenFault(CaptureFault),
}

/// Compares a capture with a golden file, which is a capture or a normal text. `limit` is the
/// greatest length in bytes of a message, as read and as written. Allocates nothing.
pub fn compare_with_golden(golden: &[u8], capture: &[u8], limit: u32) -> Finding
    ensures finding { IsFinding limit golden.now capture.now result }
{
    match same(golden, capture, limit) {
        Ok(true) => Finding::Golden,
        Ok(false) => Finding::Changed,
        Err(
            SideFault {
                second: true,
                fault,
            },
        ) => Finding::Fault(fault),
        Err(
            SideFault {
                second: false,
                fault,
            },
        ) => Finding::GoldenFault(fault),
    }
}
