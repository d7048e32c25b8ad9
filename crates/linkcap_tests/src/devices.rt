//! Devices that read or write a few bytes at each call. At one call they may fail, or read or write
//! nothing; they continue after it.

use std::io::{self, ErrorKind, Read, Write};

/// The behaviour of a device: it reads or writes at most `size` bytes at each call, but none at the
/// call after the first `calls`, which fails if `fails` is set.
#[derive(Clone, Copy, Drop)]
pub(crate) struct Plan {
    pub size: usize,
    pub calls: usize,
    pub fails: bool,
}

impl Plan {
    /// Returns the behaviour of a device that reads or writes at most `size` bytes at each call,
    /// and never fails.
    pub fn steady(size: usize) -> Plan {
        Plan {
            size,
            calls: usize::MAX,
            fails: false,
        }
    }

    /// Returns how many bytes this call reads or writes at most.
    fn next(&mut self) -> io::Result<usize> {
        let Some(calls) = self.calls.checked_sub(1) else {
            self.calls = usize::MAX;
            if self.fails {
                return Err(io::Error::from(ErrorKind::BrokenPipe));
            }
            return Ok(0);
        };
        self.calls = calls;
        Ok(self.size)
    }
}

/// A reader of the bytes `rest`.
#[derive(Drop)]
pub(crate) struct LimitedReader<'a> {
    pub rest: &'a [u8],
    pub plan: Plan,
}

impl Read for LimitedReader<'_> {
    fn read(&mut self, buf: &mut [u8]) -> io::Result<usize> {
        let size = self.plan.next()?;
        let count = self.rest.len().min(size).min(buf.len());
        buf[..count].copy_from_slice(&self.rest[..count]);
        self.rest = &self.rest[count..];
        Ok(count)
    }
}

/// A writer that keeps the bytes in `taken`.
#[derive(Drop)]
pub(crate) struct LimitedWriter {
    pub taken: Vec<u8>,
    pub plan: Plan,
}

impl Write for LimitedWriter {
    fn write(&mut self, buf: &[u8]) -> io::Result<usize> {
        let size = self.plan.next()?;
        let count = buf.len().min(size);
        if self.taken.extend_from_slice(&buf[..count]).is_err() {
            return Err(io::Error::from(ErrorKind::OutOfMemory));
        }
        Ok(count)
    }

    fn flush(&mut self) -> io::Result<()> {
        Ok(())
    }
}
