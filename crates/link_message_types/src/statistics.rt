//! The statistics of a link, by name.

ghost use Rattle.std.specs.Prelude.{◌≡◌, ◌<◌, List, Some, slice_get};

/// The counters of a link by name, in the order of `struct rtnl_link_stats64` of `linux/if_link.h`.
pub trait LinkStatistics {
    /// The number type of a counter.
    type Counter: Copy;

    /// The counters.
    ghost counters: { Self → List Self.Counter };

    /// Returns the counter at an index, counted from 0.
    fn counter(&self, index: usize) -> Self::Counter
        requires { index < 24 }
        ensures { slice_get (counters self.now) index ≡ Some result };

    /// Good packets received.
    fn rx_packets(&self) -> Self::Counter
        ensures { slice_get (counters self.now) 0 ≡ Some result }
    {
        self.counter(0)
    }

    /// Packets sent.
    fn tx_packets(&self) -> Self::Counter
        ensures { slice_get (counters self.now) 1 ≡ Some result }
    {
        self.counter(1)
    }

    /// Good bytes received.
    fn rx_bytes(&self) -> Self::Counter
        ensures { slice_get (counters self.now) 2 ≡ Some result }
    {
        self.counter(2)
    }

    /// Good bytes sent.
    fn tx_bytes(&self) -> Self::Counter
        ensures { slice_get (counters self.now) 3 ≡ Some result }
    {
        self.counter(3)
    }

    /// Bad packets received.
    fn rx_errors(&self) -> Self::Counter
        ensures { slice_get (counters self.now) 4 ≡ Some result }
    {
        self.counter(4)
    }

    /// Packets that couldn't be sent.
    fn tx_errors(&self) -> Self::Counter
        ensures { slice_get (counters self.now) 5 ≡ Some result }
    {
        self.counter(5)
    }

    /// Packets received but not processed, for lack of resources or of a protocol handler.
    fn rx_dropped(&self) -> Self::Counter
        ensures { slice_get (counters self.now) 6 ≡ Some result }
    {
        self.counter(6)
    }

    /// Packets dropped on their way to transmission, for lack of resources.
    fn tx_dropped(&self) -> Self::Counter
        ensures { slice_get (counters self.now) 7 ≡ Some result }
    {
        self.counter(7)
    }

    /// Multicast packets received.
    fn multicast(&self) -> Self::Counter
        ensures { slice_get (counters self.now) 8 ≡ Some result }
    {
        self.counter(8)
    }

    /// Collisions while sending.
    fn collisions(&self) -> Self::Counter
        ensures { slice_get (counters self.now) 9 ≡ Some result }
    {
        self.counter(9)
    }

    /// Packets dropped because of an invalid length.
    fn rx_length_errors(&self) -> Self::Counter
        ensures { slice_get (counters self.now) 10 ≡ Some result }
    {
        self.counter(10)
    }

    /// Packets dropped because the receiver's ring overflowed.
    fn rx_over_errors(&self) -> Self::Counter
        ensures { slice_get (counters self.now) 11 ≡ Some result }
    {
        self.counter(11)
    }

    /// Packets received with a CRC error.
    fn rx_crc_errors(&self) -> Self::Counter
        ensures { slice_get (counters self.now) 12 ≡ Some result }
    {
        self.counter(12)
    }

    /// Packets received with a frame alignment error.
    fn rx_frame_errors(&self) -> Self::Counter
        ensures { slice_get (counters self.now) 13 ≡ Some result }
    {
        self.counter(13)
    }

    /// Packets lost by overflow of the receiver's FIFO.
    fn rx_fifo_errors(&self) -> Self::Counter
        ensures { slice_get (counters self.now) 14 ≡ Some result }
    {
        self.counter(14)
    }

    /// Packets missed by the host, for lack of buffers in the device.
    fn rx_missed_errors(&self) -> Self::Counter
        ensures { slice_get (counters self.now) 15 ≡ Some result }
    {
        self.counter(15)
    }

    /// Packets whose transmission was aborted.
    fn tx_aborted_errors(&self) -> Self::Counter
        ensures { slice_get (counters self.now) 16 ≡ Some result }
    {
        self.counter(16)
    }

    /// Packets not sent because the carrier was lost.
    fn tx_carrier_errors(&self) -> Self::Counter
        ensures { slice_get (counters self.now) 17 ≡ Some result }
    {
        self.counter(17)
    }

    /// Packets lost by underrun of the sender's FIFO.
    fn tx_fifo_errors(&self) -> Self::Counter
        ensures { slice_get (counters self.now) 18 ≡ Some result }
    {
        self.counter(18)
    }

    /// Packets sent with a heartbeat error.
    fn tx_heartbeat_errors(&self) -> Self::Counter
        ensures { slice_get (counters self.now) 19 ≡ Some result }
    {
        self.counter(19)
    }

    /// Packets not sent because of late collisions.
    fn tx_window_errors(&self) -> Self::Counter
        ensures { slice_get (counters self.now) 20 ≡ Some result }
    {
        self.counter(20)
    }

    /// Compressed packets received.
    fn rx_compressed(&self) -> Self::Counter
        ensures { slice_get (counters self.now) 21 ≡ Some result }
    {
        self.counter(21)
    }

    /// Compressed packets sent.
    fn tx_compressed(&self) -> Self::Counter
        ensures { slice_get (counters self.now) 22 ≡ Some result }
    {
        self.counter(22)
    }

    /// Packets received on an inactive link, and dropped by the kernel.
    fn rx_nohandler(&self) -> Self::Counter
        ensures { slice_get (counters self.now) 23 ≡ Some result }
    {
        self.counter(23)
    }
}
