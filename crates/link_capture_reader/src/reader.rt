//! The reader of captures that come in pieces.

ghost use Rattle.std.specs.Prelude.{◌≡◌, ◌≢◌, ◌+◌, ◌^◌, ◌<◌, ◌≤◌, ◌++◌, ℕ, List, [], length, vec_capacity};
ghost use Rattle.std.specs.Prelude.{OnOk, OnErr, IfErr, IfSome, None, Some, Err};
ghost use Rattle.link_capture_grammar.specs.Captures.{first_fault};
ghost use Rattle.link_capture_reader.specs.Readers.{ReaderState, IsReservedIfCut, IsReader, IsConsistentWith, Gains, FeedFault};
ghost use Rattle.link_capture_reader.specs.Readers.{MemoryFaultIsJustified};
ghost use Rattle.link_capture_grammar.specs.Body.{link_body};

use super::pieces::Pending;
use link_capture_grammar::fault::{CaptureFault, FaultKind};
use link_capture_grammar::laws::faults_are_at_frames;
use std::alloc::Global;
use std::marker::Model;

/// Reads a capture that comes in pieces of any sizes, and writes the normal texts of the frames
/// that have come.
///
/// A frame that is whole in a piece is judged and written from the piece itself. Between pieces the
/// reader keeps only the bytes of a frame that is cut. Its contracts quantify over every byte
/// string that is consistent with the pieces fed, not over a history of calls.
#[derive(Drop)]
pub struct CaptureReader {
    pending: Pending,
    failed: Option<u64>,
}

impl Model for CaptureReader {
    ghost Value = { ReaderState };

    ghost view = { λ r. record {
      limit = r.pending.limit;
      accepted = r.pending.accepted;
      kept = r.pending.kept.items;
      capacity = vec_capacity r.pending.kept;
      owed = r.pending.owed;
      failed = r.failed;
    } };

    ghost invariant = { λ r. IsReader (record {
      limit = r.pending.limit;
      accepted = r.pending.accepted;
      kept = r.pending.kept.items;
      capacity = vec_capacity r.pending.kept;
      owed = r.pending.owed;
      failed = r.failed;
    }) };
}

impl CaptureReader {
    /// Returns a reader without any bytes yet. `limit` is the greatest length in bytes of a
    /// message, as read and as written.
    pub fn new(alloc: Global, limit: u32) -> CaptureReader
        requires { 16 ≤ limit }
        ensures empty { IsConsistentWith result [] }
        ensures limit { result.limit ≡ limit }
        ensures start { (result.accepted ≡ 0) × (result.kept ≡ []) × (result.owed ≡ 0) }
    {
        CaptureReader {
            pending: Pending {
                limit,
                accepted: 0,
                kept: Vec::new(alloc),
                owed: 0,
            },
            failed: None,
        }
    }

    /// Returns the offset of the frame that is cut.
    fn cut_offset(&self) -> u64
        requires { self.now.kept ≢ [] }
        ensures { (s : List ℕ) → IsConsistentWith self.now s → first_fault link_body self.now.limit s
            ≡ Some (record { kind = FaultKind.Cut; offset = result }) }
    {
        faults_are_at_frames();
        self.pending.accepted - self.pending.kept.len() as u64
    }

    /// Reserves memory for a piece of this size, if a frame is cut: for such a piece `feed` runs
    /// out of memory only at a frame that is accepted, or cut again.
    ///
    /// # Errors
    ///
    /// `Memory`, at the offset of the cut frame, if an allocation fails. The reader may be used
    /// again.
    pub fn reserve(&mut self, size: usize) -> Result<(), CaptureFault>
        ensures ok { OnOk result (IsReservedIfCut self.new.kept self.new.capacity size) }
        ensures kind { IfErr result (λ fault. fault.kind ≡ FaultKind.Memory) }
        // An allocation fails only if a frame is cut, and the fault is at it.
        ensures offset { IfErr result (λ fault. (s : List ℕ) → IsConsistentWith self.old s
            → first_fault link_body self.old.limit s ≡ Some (record { kind = FaultKind.Cut; offset = fault.offset })) }
        ensures others { self.new ≡ record self.old { capacity = self.new.capacity } }
    {
        if self.pending.kept.is_empty() || self.pending.kept.reserve(size).is_ok() {
            return Ok(());
        }
        Err(CaptureFault {
            kind: FaultKind::Memory,
            offset: self.cut_offset(),
        })
    }

    /// Takes the next piece of the capture, and appends the text of each frame that is now whole,
    /// with its padding, to `out`.
    ///
    /// # Errors
    ///
    /// The first fault of the capture so far, other than a cut frame; `Memory` at a frame, if an
    /// allocation fails; or `TooLong`, at the number of bytes before the piece, if these and the
    /// piece together are more than `u64::MAX`. A fault is final: each later call returns `Failed`
    /// at its offset, and leaves `out` unchanged.
    pub fn feed(&mut self, piece: &[u8], out: &mut Vec<u8>) -> Result<(), CaptureFault>
        // The capture is continued by the piece, and `out` by the texts that it gains.
        ensures ok { OnOk result ((s : List ℕ) → IsConsistentWith self.old s
            → (length s + length piece.now < 2 ^ 64) × IsConsistentWith self.new (s ++ piece.now)
            × Gains self.old.limit s (s ++ piece.now) out.old.items out.new.items) }
        // The fault is that of the capture with the piece, and the texts before it are in `out`. If
        // memory was reserved, it runs out only at a frame that is accepted or cut.
        ensures fault { IfErr result (λ fault. (s : List ℕ) → IsConsistentWith self.old s
            → FeedFault (IsReservedIfCut self.old.kept self.old.capacity (length piece.now)) self.old.limit
            s piece.now out.old.items out.new.items fault.kind fault.offset) }
        // If no bytes were kept and no padding is owed, an allocation fails only for a text for
        // which `out` lacked capacity, or for the bytes of a cut frame.
        ensures capacity { IfErr result (λ fault. self.old.kept ≡ [] → self.old.owed ≡ 0
            → MemoryFaultIsJustified self.old.limit self.old.accepted piece.now fault out.old) }
        // A fault is final.
        ensures failed { IfErr result (λ fault. self.new.failed ≡ Some fault.offset) }
        // Neither a piece with a fault nor any later piece is counted.
        ensures accepted { OnErr result (self.new.accepted ≡ self.old.accepted) }
        ensures failed_before { IfSome self.old.failed (λ offset.
            (result ≡ Err (record { kind = FaultKind.Failed; offset = offset }))
            × (out.new.items ≡ out.old.items)) }
        ensures limit { self.new.limit ≡ self.old.limit }
    {
        if let Some(offset) = self.failed {
            return Err(CaptureFault {
                kind: FaultKind::Failed,
                offset,
            });
        }
        if let Err(fault) = self.pending.accept(piece, out) {
            self.pending.kept.clear();
            self.pending.owed = 0;
            self.failed = Some(fault.offset);
            return Err(fault);
        }
        Ok(())
    }

    /// Ends the capture. Returns Ok if it is legal.
    ///
    /// # Errors
    ///
    /// `Cut`, at its offset, if the last frame isn't whole; `Failed`, at the offset of the fault,
    /// if a call of `feed` has failed.
    pub fn finish(self) -> Result<(), CaptureFault>
        ensures ok { OnOk result
            ((s : List ℕ) → IsConsistentWith self s → first_fault link_body self.limit s ≡ None) }
        ensures fault { IfErr result (λ fault. (s : List ℕ) → IsConsistentWith self s
            → (fault.kind ≡ FaultKind.Cut) × (first_fault link_body self.limit s ≡ Some fault)) }
        ensures failed_before { IfSome self.failed (λ offset.
            result ≡ Err (record { kind = FaultKind.Failed; offset = offset })) }
    {
        if let Some(offset) = self.failed {
            return Err(CaptureFault {
                kind: FaultKind::Failed,
                offset,
            });
        }
        faults_are_at_frames();
        if self.pending.kept.is_empty() {
            return Ok(());
        }
        Err(CaptureFault {
            kind: FaultKind::Cut,
            offset: self.cut_offset(),
        })
    }

    /// Returns how many bytes were accepted: those of all pieces, or of the pieces before the one
    /// with a fault.
    pub fn accepted(&self) -> u64
        ensures { result ≡ self.now.accepted }
    {
        self.pending.accepted
    }

    /// Returns how many bytes of the cut frame have come: 0 if no frame is cut, and after a fault.
    pub fn kept(&self) -> usize
        ensures value { result ≡ length self.now.kept }
        ensures bound { result < self.now.limit }
        ensures failed { IfSome self.now.failed (λ _. result ≡ 0) }
    {
        self.pending.kept.len()
    }

    /// Returns the bytes of the cut frame that have come: none if no frame is cut, and after a
    /// fault.
    pub fn kept_bytes(&self) -> &[u8]
        ensures value { result.now ≡ self.now.kept }
        ensures failed { IfSome self.now.failed (λ _. result.now ≡ []) }
    {
        self.pending.kept.as_slice()
    }
}
