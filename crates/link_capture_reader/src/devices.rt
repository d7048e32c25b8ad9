//! The devices of the engine: sources of a capture's bytes, and sinks for its normal text.

ghost use Rattle.std.specs.Prelude.{◌≡◌, ◌≤◌, ℕ, List, Option, length, IfOk};
ghost use Rattle.std.specs.Io.KnownBytes.{ReadConsumes, WriteAppends};
ghost use Rattle.link_capture_reader.specs.Devices.{is_end, read_failed, write_failed, counted};

/// The error of a device that failed.
#[derive(Clone, Copy, Debug, PartialEq, Eq, Drop)]
pub struct DeviceFailed;

/// A source of bytes.
///
/// It counts its failures, and how often it reported its end, since no result can say that a device
/// failed; any error is a failure, an interrupted read too. The device holds both numbers; each
/// stays at `u64::MAX` once it is there.
pub trait Source {
    /// The bytes still to come, if they are known.
    ghost to_come: { Self → Option (List ℕ) };

    /// How often it failed.
    ghost failures: { Self → ℕ };

    /// How often it reported its end.
    ghost ends_reported: { Self → ℕ };

    /// Reads bytes to the start of the buffer, and returns how many; 0 reports the end, if the
    /// buffer isn't empty.
    ///
    /// # Errors
    ///
    /// [`DeviceFailed`] if the device fails; it is counted, and the bytes to come are unchanged.
    fn read(&mut self, buffer: &mut [u8]) -> Result<usize, DeviceFailed>
        ensures within { IfOk result (λ n. n ≤ length buffer.new) }
        // The bytes that are read are the first of the bytes to come. A failure leaves these
        // unchanged.
        ensures bytes { ReadConsumes (to_come self.old) (to_come self.new) result buffer.new }
        ensures failures { failures self.new ≡ counted (read_failed result) (failures self.old) }
        ensures ends { ends_reported self.new
            ≡ counted (is_end result (length buffer.new)) (ends_reported self.old) };
}

/// A sink for bytes.
///
/// It counts its failures. The device holds the number, which stays at `u64::MAX` once it is there.
pub trait Sink {
    /// The bytes that it holds, if they are known.
    ghost holds: { Self → Option (List ℕ) };

    /// How often it failed.
    ghost failures: { Self → ℕ };

    /// Takes bytes from the start of `bytes`, and returns how many; 0, unless `bytes` is empty, is
    /// counted as a failure.
    ///
    /// # Errors
    ///
    /// [`DeviceFailed`] if the device fails; it is counted, and the bytes held are unchanged.
    fn write(&mut self, bytes: &[u8]) -> Result<usize, DeviceFailed>
        ensures within { IfOk result (λ n. n ≤ length bytes.now) }
        // The bytes that are taken are appended to the bytes held. A failure leaves these
        // unchanged.
        ensures bytes { WriteAppends (holds self.old) (holds self.new) result bytes.now }
        ensures failures { failures self.new
            ≡ counted (write_failed result (length bytes.now)) (failures self.old) };
}
