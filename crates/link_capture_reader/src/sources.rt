//! Sources: the bytes of a slice, and those of a reader.

ghost use Rattle.std.specs.Prelude.{◌≡◌, ◌≤◌, Some, length, drop, IfOk};
ghost use Rattle.std.specs.Io.KnownBytes.{ReadConsumes};
ghost use Rattle.link_capture_reader.specs.Devices.{counted, is_end, read_failed};
ghost use Rattle.link_capture_reader.specs.Known.{slice_rest, slice_ends_reported, source_reader, source_failures, source_ends_reported};

use super::devices::{DeviceFailed, Source};
use std::io::Read;

/// A source of the bytes of a slice. It never fails.
#[derive(Drop)]
pub struct SliceSource<'a> {
    rest: &'a [u8],
    ends_reported: u64,
}

impl<'a> SliceSource<'a> {
    /// Returns a source of all bytes of a slice, which has counted no end.
    pub fn new(bytes: &'a [u8]) -> SliceSource<'a>
        ensures rest { slice_rest result ≡ bytes.now }
        ensures ends { slice_ends_reported result ≡ 0 }
    {
        SliceSource {
            rest: bytes,
            ends_reported: 0,
        }
    }
}

impl Source for SliceSource<'_> {
    ghost to_come = { λ s. Some s.rest.now };

    ghost failures = { λ _. 0 };

    ghost ends_reported = { λ s. s.ends_reported };

    /// Reads as many bytes as remain and fit, and leaves the rest of the buffer as it is.
    fn read(&mut self, buffer: &mut [u8]) -> Result<usize, DeviceFailed>
        ensures within { IfOk result (λ n. n ≤ length buffer.new) }
        ensures bytes { ReadConsumes (Some (slice_rest self.old)) (Some (slice_rest self.new))
            result buffer.new }
        ensures failures { 0 ≡ counted (read_failed result) 0 }
        ensures ends { slice_ends_reported self.new
            ≡ counted (is_end result (length buffer.new)) (slice_ends_reported self.old) }
        ensures unused { IfOk result (λ n. drop n buffer.new ≡ drop n buffer.old) }
    {
        let count = self.rest.len().min(buffer.len());
        let (first, rest) = self.rest.split_at(count);
        buffer[..count].copy_from_slice(first);
        self.rest = rest;
        if count == 0 && !buffer.is_empty() {
            self.ends_reported = self.ends_reported.saturating_add(1);
        }
        Ok(count)
    }
}

/// A source of the bytes of a reader. They are known if the reader's remaining bytes are.
#[derive(Drop)]
pub struct ReadSource<R> {
    reader: R,
    failures: u64,
    ends_reported: u64,
}

impl<R: Read> ReadSource<R> {
    /// Returns a source of the bytes that remain in `reader`, which has counted no failure and no
    /// end.
    pub fn new(reader: R) -> ReadSource<R>
        ensures reader { source_reader result ≡ reader }
        ensures failures { source_failures result ≡ 0 }
        ensures ends { source_ends_reported result ≡ 0 }
    {
        ReadSource {
            reader,
            failures: 0,
            ends_reported: 0,
        }
    }
}

impl<R: Read> Source for ReadSource<R> {
    ghost to_come = { λ s. R.remaining s.reader };

    ghost failures = { λ s. s.failures };

    ghost ends_reported = { λ s. s.ends_reported };

    fn read(&mut self, buffer: &mut [u8]) -> Result<usize, DeviceFailed> {
        match self.reader.read(buffer) {
            Ok(count) => {
                if count == 0 && !buffer.is_empty() {
                    self.ends_reported = self.ends_reported.saturating_add(1);
                }
                Ok(count)
            }
            Err(_) => {
                self.failures = self.failures.saturating_add(1);
                Err(DeviceFailed)
            }
        }
    }
}
