//! The engine: from a source to a sink.

ghost use Rattle.std.specs.Prelude.{◌≡◌, ◌+◌, ◌-◌, ◌^◌, ◌≤◌, ℕ, List, length, take, min, IfOk, IfErr, MatchResult};
ghost use Rattle.std.specs.Io.KnownBytes.{Consumes, Appends};
ghost use Rattle.link_capture_reader.specs.Devices.{Rises, ReportsItsEnd};
ghost use Rattle.link_capture_reader.specs.Outcomes.{Normalizes, ReadFault};
ghost use Rattle.link_capture_reader.specs.States.{source_state, sink_state};

use super::devices::{Sink, Source};
use super::first::{FirstBytes, keep_first};
use super::reader::CaptureReader;
use link_capture_grammar::fault::{CaptureFault, FaultKind};
use link_capture_grammar::laws::{
    captures_unfold_by_frames, faults_are_at_frames, frames_are_independent, texts_of_a_prefix_stay,
};
use std::alloc::Global;

/// Writes all of `bytes` to a sink to which `written` bytes were written before, and returns how
/// many were written in all; `u64::MAX` means at least that many.
///
/// # Errors
///
/// A fault of kind `Write` if the sink fails; its offset is the number of bytes taken, including
/// `written`. The sink holds these bytes.
pub fn write_all<K: Sink>(sink: &mut K, bytes: &[u8], written: u64) -> Result<u64, CaptureFault>
    ensures ok { IfOk result (λ total. (total ≡ min (written + length bytes.now) (2 ^ 64 - 1))
        × Appends (K.holds sink.old) (K.holds sink.new) bytes.now
        × (K.failures sink.new ≡ K.failures sink.old)) }
    ensures fault { IfErr result (λ fault. (fault.kind ≡ FaultKind.Write)
        × Rises (K.failures sink.old) (K.failures sink.new)
        × ((n : ℕ) × (n ≤ length bytes.now) × (fault.offset ≡ min (written + n) (2 ^ 64 - 1))
        × Appends (K.holds sink.old) (K.holds sink.new) (take n bytes.now))) }
{
    let mut at = 0usize;
    while at < bytes.len() {
        match sink.write(&bytes[at..]) {
            Ok(taken) if taken > 0 => at += taken,
            _ => {
                return Err(CaptureFault {
                    kind: FaultKind::Write,
                    offset: written.saturating_add(at as u64),
                });
            }
        }
    }
    Ok(written.saturating_add(at as u64))
}

/// Reads a capture to its end, in pieces of at most 65,536 bytes, and writes its normal text as the
/// frames come. Returns Ok if the source reported its end and the capture is legal. `limit` is the
/// greatest length in bytes of a message, as read and as written.
///
/// # Errors
///
/// The capture's first fault, with its offset; `Read` at the number of bytes read; `Write` at the
/// number of bytes taken; `Memory` at the start of a frame that is accepted, or cut in what was
/// read, if an allocation fails; `TooLong` at the number of bytes accepted. Before any fault but
/// `Write`, the texts of the frames before it are written.
pub fn normalize<S: Source, K: Sink>(
    alloc: Global,
    source: &mut S,
    sink: &mut K,
    limit: u32,
) -> Result<(), CaptureFault>
    requires { 16 ≤ limit }
    ensures { Normalizes (source_state S.to_come S.failures S.ends_reported source.old)
        (source_state S.to_come S.failures S.ends_reported source.new)
        (sink_state K.holds K.failures sink.old) (sink_state K.holds K.failures sink.new) limit result }
{
    captures_unfold_by_frames();
    frames_are_independent();
    faults_are_at_frames();
    let mut reader = CaptureReader::new(alloc, limit);
    let mut buffer = [0u8; 65536];
    let mut out = Vec::new(alloc);
    let mut written = 0u64;
    'pieces: loop {
        reader.reserve(buffer.len())?;
        let Ok(size) = source.read(&mut buffer) else {
            return Err(CaptureFault {
                kind: FaultKind::Read,
                offset: reader.accepted(),
            });
        };
        if size == 0 {
            return reader.finish();
        }
        let fed = reader.feed(&buffer[..size], &mut out);
        texts_of_a_prefix_stay();
        written = write_all(sink, out.as_slice(), written)?;
        fed?;
        out.clear();
    }
}

/// Returns all bytes of a source. Allocates the returned value.
///
/// # Errors
///
/// At the number of bytes read: `Read` if the source fails, `Memory` if an allocation fails, which
/// is never at 0 and leaves the source's failures unchanged.
pub fn read_all<S: Source>(alloc: Global, source: &mut S) -> Result<Vec<u8>, CaptureFault>
    // `s` is what was read.
    ensures { (s : List ℕ) × Consumes (S.to_come source.old) (S.to_come source.new) s
        × MatchResult result
        (λ bytes. (bytes.items ≡ s) × (S.failures source.new ≡ S.failures source.old)
        × ReportsItsEnd (S.ends_reported source.old) (S.ends_reported source.new) (S.to_come source.new))
        (λ fault. ReadFault (S.failures source.old) (S.failures source.new) s fault.kind
        × (fault.offset ≡ length s)) }
{
    read_all_keeping_first(alloc, source, &mut FirstBytes::new())
}

/// Reads as `read_all` does, and stores the first bytes in `first`, also if it fails.
///
/// # Errors
///
/// As `read_all`.
pub fn read_all_keeping_first<S: Source>(
    alloc: Global,
    source: &mut S,
    first: &mut FirstBytes,
) -> Result<Vec<u8>, CaptureFault>
    // `s` is what was read.
    ensures { (s : List ℕ) × Consumes (S.to_come source.old) (S.to_come source.new) s
        × MatchResult result
        (λ bytes. (bytes.items ≡ s) × (S.failures source.new ≡ S.failures source.old)
        × ReportsItsEnd (S.ends_reported source.old) (S.ends_reported source.new) (S.to_come source.new))
        (λ fault. ReadFault (S.failures source.old) (S.failures source.new) s fault.kind
        × (fault.offset ≡ length s))
        × (first.new.items ≡ take 4 s) }
{
    first.clear();
    let mut buffer = [0u8; 65536];
    let mut bytes = Vec::new(alloc);
    'pieces: loop {
        let Ok(count) = source.read(&mut buffer) else {
            return Err(CaptureFault {
                kind: FaultKind::Read,
                offset: bytes.len() as u64,
            });
        };
        if count == 0 {
            return Ok(bytes);
        }
        keep_first(first, &buffer[..count]);
        if bytes.extend_from_slice(&buffer[..count]).is_err() {
            return Err(CaptureFault {
                kind: FaultKind::Memory,
                offset: bytes.len() as u64 + count as u64,
            });
        }
    }
}
