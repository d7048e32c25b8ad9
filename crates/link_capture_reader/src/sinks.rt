//! Sinks: bytes in memory, and a writer.

ghost use Rattle.std.specs.Prelude.{◌≡◌, ◌<◌, ◌≤◌, ◌+◌, [], Some, length, IfOk, OnErr};
ghost use Rattle.std.specs.Io.KnownBytes.{WriteAppends};
ghost use Rattle.link_capture_reader.specs.Devices.{write_failed, counted};
ghost use Rattle.link_capture_reader.specs.Known.{sink_bytes, sink_capacity, growths_refused, sink_writer, sink_failures};

use super::devices::{DeviceFailed, Sink};
use std::alloc::Global;
use std::io::Write;

/// A sink that holds what was written, in memory. It fails only if an allocation fails.
#[derive(Drop)]
pub struct VecSink {
    bytes: Vec<u8>,
    failures: u64,
}

impl VecSink {
    /// Returns a sink that holds no bytes and has counted no failure. Allocates nothing.
    pub fn new(alloc: Global) -> VecSink
        ensures holds { sink_bytes result ≡ [] }
        ensures failures { growths_refused result ≡ 0 }
    {
        VecSink {
            bytes: Vec::new(alloc),
            failures: 0,
        }
    }

    /// Returns the bytes that it holds.
    pub fn bytes(&self) -> &[u8]
        ensures { result.now ≡ sink_bytes self.now }
    {
        self.bytes.as_slice()
    }
}

impl Sink for VecSink {
    ghost holds = { λ s. Some s.bytes.items };

    ghost failures = { λ s. s.failures };

    /// Takes all of the bytes, or fails if an allocation for bytes beyond its capacity fails.
    fn write(&mut self, bytes: &[u8]) -> Result<usize, DeviceFailed>
        ensures within { IfOk result (λ n. n ≤ length bytes.now) }
        ensures bytes { WriteAppends (Some (sink_bytes self.old)) (Some (sink_bytes self.new))
            result bytes.now }
        ensures failures { growths_refused self.new
            ≡ counted (write_failed result (length bytes.now)) (growths_refused self.old) }
        ensures whole { IfOk result (λ n. n ≡ length bytes.now) }
        ensures capacity { OnErr result
            (sink_capacity self.old < length (sink_bytes self.old) + length bytes.now) }
    {
        match self.bytes.extend_from_slice(bytes) {
            Ok(()) => Ok(bytes.len()),
            Err(_) => {
                self.failures = self.failures.saturating_add(1);
                Err(DeviceFailed)
            }
        }
    }
}

/// A sink that passes bytes to a writer. The bytes that it holds are known if the writer's contents
/// are.
#[derive(Drop)]
pub struct WriteSink<W> {
    writer: W,
    failures: u64,
}

impl<W: Write> WriteSink<W> {
    /// Returns a sink that passes bytes to `writer` and has counted no failure.
    pub fn new(writer: W) -> WriteSink<W>
        ensures writer { sink_writer result ≡ writer }
        ensures failures { sink_failures result ≡ 0 }
    {
        WriteSink {
            writer,
            failures: 0,
        }
    }
}

impl<W: Write> Sink for WriteSink<W> {
    ghost holds = { λ s. W.contents s.writer };

    ghost failures = { λ s. s.failures };

    fn write(&mut self, bytes: &[u8]) -> Result<usize, DeviceFailed> {
        match self.writer.write(bytes) {
            Ok(count) => {
                if count == 0 && !bytes.is_empty() {
                    self.failures = self.failures.saturating_add(1);
                }
                Ok(count)
            }
            Err(_) => {
                self.failures = self.failures.saturating_add(1);
                Err(DeviceFailed)
            }
        }
    }
}
