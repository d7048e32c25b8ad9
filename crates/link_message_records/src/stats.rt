//! The statistics of a link, by name.

ghost use Rattle.std.specs.Prelude.{◌≡◌, Some, slice_get};

use super::values::{Stats, Stats64};
use link_message_types::LinkStatistics;

impl LinkStatistics for Stats {
    type Counter = u32;

    ghost counters = { λ stats. stats.values };

    fn counter(&self, index: usize) -> u32 {
        self.values[index]
    }
}

impl LinkStatistics for Stats64 {
    type Counter = u64;

    ghost counters = { λ stats. stats.values };

    fn counter(&self, index: usize) -> u64 {
        self.values[index]
    }
}

impl Stats64 {
    /// Returns the number of received packets that were addressed to another host, and dropped.
    pub fn rx_otherhost_dropped(&self) -> u64
        ensures { slice_get self.now.values 24 ≡ Some result }
    {
        self.values[24]
    }
}
