//! What is held between two pieces of a capture, and how it is continued by one more piece.

ghost use Rattle.std.specs.Prelude.{◌≡◌, ◌≢◌, ◌+◌, ◌-◌, ◌^◌, ◌<◌, ◌≤◌, ◌++◌, ◌⊎◌, ℕ, List, [], length, take, max, vec_capacity, IfOk};
ghost use Rattle.std.specs.Prelude.{IfErr, OnOk, OnErr, Err, ⊤};
ghost use Rattle.netlink_packet_core.specs.Attributes.{nla_align};
ghost use Rattle.netlink_packet_core.specs.Frames.{frame_length};
ghost use Rattle.link_capture_grammar.specs.Captures.{first_frame, first_fault, HeaderIsAllowed, IsOfFrames};
ghost use Rattle.link_capture_reader.specs.Readers.{IsReservedIfCut, IsReader, IsPendingAfter, Gains, FeedFault, MemoryFaultIsJustified, unfailed};
ghost use Rattle.link_capture_reader.specs.Walks.{ReadsTo, OtherFaultIsFirst, MemoryFaultIsAtFrame};
ghost use Rattle.link_capture_grammar.specs.Body.{link_body};

use super::frames::push_frames;
use link_capture_checks::{frame_len, push_frame};
use link_capture_grammar::fault::{CaptureFault, FaultKind};
use link_capture_grammar::laws::{
    captures_unfold_by_frames, faults_are_at_frames, frames_are_independent, frames_are_judged,
};
use netlink_packet_core::{NETLINK_HEADER_LEN, NetlinkBuffer, nla_align};
use netlink_packet_core_grammar::laws::numbers_are_independent;
use std::alloc::AllocError;

/// Returns the number of zeros after a frame of this length, up to a multiple of 4.
fn padding(length: usize) -> usize
    requires { length ≤ 18446744073709551611 }
    ensures { result ≡ nla_align length - length }
{
    nla_align(length) - length
}

/// Returns the length in a header.
fn claimed_length(header: &[u8]) -> u32
    requires { 4 ≤ length header.now }
    ensures { result ≡ frame_length header.now }
{
    NetlinkBuffer::new(header).length()
}

/// Moves bytes from the start of the piece until `kept` has this size, or the piece is used up.
/// Returns how many.
fn fill(kept: &mut Vec<u8>, piece: &[u8], size: usize) -> Result<usize, AllocError>
    ensures within { IfOk result (λ n. n ≤ length piece.now) }
    ensures moved { IfOk result (λ n. kept.new.items ≡ kept.old.items ++ take n piece.now) }
    ensures enough { IfOk result (λ n. (n ≡ length piece.now) ⊎ (size ≤ length kept.new.items)) }
    ensures exact { OnOk result (length kept.new.items ≤ max size (length kept.old.items)) }
    ensures capacity { vec_capacity kept.old ≤ vec_capacity kept.new }
    ensures full { OnErr result (vec_capacity kept.old < length kept.old.items + length piece.now) }
{
    let count = size.saturating_sub(kept.len()).min(piece.len());
    kept.extend_from_slice(&piece[..count])?;
    Ok(count)
}

/// Returns the header of a frame that begins with the kept bytes and continues with the piece.
fn joined_header(kept: &[u8], piece: &[u8]) -> [u8; NETLINK_HEADER_LEN]
    requires { 16 ≤ length kept.now + length piece.now }
    ensures { result ≡ take 16 (kept.now ++ piece.now) }
{
    let mut header = [0u8; NETLINK_HEADER_LEN];
    let kept_size = kept.len().min(NETLINK_HEADER_LEN);
    header[..kept_size].copy_from_slice(&kept[..kept_size]);
    header[kept_size..].copy_from_slice(&piece[..NETLINK_HEADER_LEN - kept_size]);
    header
}

/// Judges the header of a frame that begins with the kept bytes and continues with the piece. Fails
/// if the header is whole and its length is one that no frame may have. Allocates nothing.
fn judge_header(kept: &[u8], piece: &[u8], limit: u32) -> Result<(), FaultKind>
    ensures ok { OnOk result (HeaderIsAllowed limit (kept.now ++ piece.now)) }
    ensures err { IfErr result
        (λ kind. (kind ≢ FaultKind.Cut) × (first_frame link_body limit (kept.now ++ piece.now) ≡ Err kind)) }
    ensures of_frames { IfErr result (λ kind. IsOfFrames kind) }
{
    if piece.len() < NETLINK_HEADER_LEN.saturating_sub(kept.len()) {
        return Ok(());
    }
    numbers_are_independent();
    frames_are_independent();
    frames_are_judged();
    let header = joined_header(kept, piece);
    match frame_len(&header, limit) {
        Ok(length) => {
            prove!(length >= NETLINK_HEADER_LEN);
            Ok(())
        }
        Err(kind) => match kind {
            FaultKind::Cut => Ok(()),
            kind => Err(kind),
        },
    }
}

/// Moves bytes from the start of the piece until the cut frame can be judged, or the piece is used
/// up. Returns how many.
fn complete_frame(kept: &mut Vec<u8>, piece: &[u8], limit: u32) -> Result<usize, AllocError>
    requires { first_frame link_body limit kept.old.items ≡ Err FaultKind.Cut }
    ensures within { IfOk result (λ n. n ≤ length piece.now) }
    ensures moved { IfOk result (λ n. kept.new.items ≡ kept.old.items ++ take n piece.now) }
    ensures judged { IfOk result
        (λ n. (n ≡ length piece.now) ⊎ (first_frame link_body limit kept.new.items ≢ Err FaultKind.Cut)) }
    ensures exact { OnOk result (length kept.new.items ≤ max 16 (frame_length kept.new.items)) }
    ensures full { OnErr result (vec_capacity kept.old < length kept.old.items + length piece.now) }
{
    let header = fill(kept, piece, NETLINK_HEADER_LEN)?;
    if kept.len() < NETLINK_HEADER_LEN {
        return Ok(header);
    }
    numbers_are_independent();
    frames_are_independent();
    let claimed = claimed_length(kept.as_slice());
    let more = fill(kept, &piece[header..], claimed as usize)?;
    Ok(header + more)
}

/// What a reader holds between two pieces of a capture.
#[derive(Drop)]
pub(crate) struct Pending {
    /// The greatest length of a message in bytes, as read and as written.
    pub(crate) limit: u32,
    /// The number of bytes accepted.
    pub(crate) accepted: u64,
    /// The bytes of the cut frame: none if no frame is cut.
    pub(crate) kept: Vec<u8>,
    /// The number of bytes of padding that are still due.
    pub(crate) owed: usize,
}

impl Pending {
    /// Returns Ok if the capture, continued by `piece`, has no fault other than a cut frame. Appends
    /// the texts of the frames that are now whole to `out`, and accepts the bytes of the piece.
    ///
    /// # Errors
    ///
    /// The first fault of the capture so far, other than a cut frame; `Memory` at a frame, if an
    /// allocation fails; or `TooLong`, at the number of bytes accepted, if these and the piece
    /// together are more than `u64::MAX`. Then the piece isn't accepted, and what is kept and owed
    /// is unspecified.
    pub(crate) fn accept(&mut self, piece: &[u8], out: &mut Vec<u8>) -> Result<(), CaptureFault>
        requires reader { IsReader
            (unfailed self.old.limit self.old.accepted self.old.kept.items (vec_capacity self.old.kept) self.old.owed) }
        ensures fits { OnOk result (self.old.accepted + length piece.now < 2 ^ 64) }
        ensures reader { OnOk result (IsReader
            (unfailed self.new.limit self.new.accepted self.new.kept.items (vec_capacity self.new.kept) self.new.owed)) }
        ensures ok { OnOk result ((s : List ℕ) → self.old.accepted ≡ length s
            → IsPendingAfter (first_fault link_body self.old.limit s) s self.old.kept.items self.old.owed
            → IsPendingAfter (first_fault link_body self.old.limit (s ++ piece.now)) (s ++ piece.now)
            self.new.kept.items self.new.owed
            × Gains self.old.limit s (s ++ piece.now) out.old.items out.new.items) }
        ensures fault { IfErr result (λ fault. (s : List ℕ) → self.old.accepted ≡ length s
            → IsPendingAfter (first_fault link_body self.old.limit s) s self.old.kept.items self.old.owed
            → FeedFault (IsReservedIfCut self.old.kept.items (vec_capacity self.old.kept) (length piece.now))
            self.old.limit s piece.now out.old.items out.new.items fault.kind fault.offset) }
        ensures capacity { IfErr result (λ fault. self.old.kept.items ≡ [] → self.old.owed ≡ 0
            → MemoryFaultIsJustified self.old.limit self.old.accepted piece.now fault out.old) }
        ensures accepted { OnOk result (self.new.accepted ≡ self.old.accepted + length piece.now) }
        ensures not_accepted { OnErr result (self.new.accepted ≡ self.old.accepted) }
        ensures limit { self.new.limit ≡ self.old.limit }
    {
        if piece.len() as u64 > u64::MAX - self.accepted {
            return Err(CaptureFault {
                kind: FaultKind::TooLong,
                offset: self.accepted,
            });
        }
        frames_are_independent();
        captures_unfold_by_frames();
        faults_are_at_frames();
        if piece.len() <= self.owed {
            self.owed -= piece.len();
        } else {
            let start = self.accepted + self.owed as u64 - self.kept.len() as u64;
            let bytes = &piece[self.owed..];
            self.owed = 0;
            self.resume_frame(start, bytes, out)?;
        }
        self.accepted += piece.len() as u64;
        Ok(())
    }

    /// Returns Ok if the bytes of the cut frame, at the offset `start` of the capture, and `bytes`
    /// after them have no fault other than a cut frame. Appends the texts of the frames that are
    /// now whole to `out`, and keeps the bytes of a frame that is cut then.
    ///
    /// # Errors
    ///
    /// The first fault of these bytes, other than a cut frame; or `Memory` at a frame, if an
    /// allocation fails.
    fn resume_frame(
        &mut self,
        start: u64,
        bytes: &[u8],
        out: &mut Vec<u8>,
    ) -> Result<(), CaptureFault>
        requires limit { 16 ≤ self.old.limit }
        requires owed { self.old.owed ≡ 0 }
        requires cut { first_frame link_body self.old.limit self.old.kept.items ≡ Err FaultKind.Cut }
        requires more { 0 < length bytes.now }
        requires fits { start + (length self.old.kept.items + length bytes.now) < 2 ^ 64 }
        ensures ok { OnOk result (ReadsTo self.old.limit (self.old.kept.items ++ bytes.now)
            out.old.items out.new.items self.new.kept.items self.new.owed) }
        ensures fault { IfErr result (λ fault. OtherFaultIsFirst self.old.limit start
            (self.old.kept.items ++ bytes.now) out.old.items out.new.items fault) }
        ensures memory { IfErr result (λ fault. MemoryFaultIsAtFrame
            (IsReservedIfCut self.old.kept.items (vec_capacity self.old.kept) (length bytes.now)) self.old.limit start
            (self.old.kept.items ++ bytes.now) out.old.items out.new.items fault) }
        ensures capacity { IfErr result (λ fault. self.old.kept.items ≡ []
            → MemoryFaultIsJustified self.old.limit start bytes.now fault out.old) }
        ensures limit { self.new.limit ≡ self.old.limit }
        ensures accepted { self.new.accepted ≡ self.old.accepted }
    {
        if self.kept.is_empty() {
            return self.read_frames(start, bytes, out);
        }
        frames_are_independent();
        captures_unfold_by_frames();
        if let Err(kind) = judge_header(self.kept.as_slice(), bytes, self.limit) {
            return Err(CaptureFault {
                kind,
                offset: start,
            });
        }
        let Ok(moved) = complete_frame(&mut self.kept, bytes, self.limit) else {
            return Err(CaptureFault {
                kind: FaultKind::Memory,
                offset: start,
            });
        };
        match push_frame(self.kept.as_slice(), self.limit, out) {
            Ok(size) => {
                self.kept.clear();
                let owed = padding(size);
                let left = bytes.len() - moved;
                if left <= owed {
                    self.owed = owed - left;
                    return Ok(());
                }
                let start = start + (size + owed) as u64;
                self.read_frames(start, &bytes[moved + owed..], out)
            }
            Err(kind) => match kind {
                FaultKind::Cut => Ok(()),
                kind => Err(CaptureFault {
                    kind,
                    offset: start,
                }),
            },
        }
    }

    /// Returns Ok if `bytes`, at the offset `start` of the capture, have no fault other than a cut
    /// frame. Appends the texts of their whole frames to `out`, and keeps the bytes of a cut one.
    ///
    /// # Errors
    ///
    /// The first fault of these bytes, other than a cut frame; or `Memory` at a frame, if an
    /// allocation fails.
    fn read_frames(
        &mut self,
        start: u64,
        bytes: &[u8],
        out: &mut Vec<u8>,
    ) -> Result<(), CaptureFault>
        requires limit { 16 ≤ self.old.limit }
        requires owed { self.old.owed ≡ 0 }
        requires empty { self.old.kept.items ≡ [] }
        requires fits { start + length bytes.now < 2 ^ 64 }
        ensures ok { OnOk result (ReadsTo self.old.limit bytes.now
            out.old.items out.new.items self.new.kept.items self.new.owed) }
        ensures fault { IfErr result (λ fault. OtherFaultIsFirst self.old.limit start bytes.now
            out.old.items out.new.items fault) }
        ensures memory { IfErr result (λ fault. MemoryFaultIsAtFrame ⊤ self.old.limit start bytes.now
            out.old.items out.new.items fault) }
        ensures capacity { IfErr result
            (λ fault. MemoryFaultIsJustified self.old.limit start bytes.now fault out.old) }
        ensures limit { self.new.limit ≡ self.old.limit }
        ensures accepted { self.new.accepted ≡ self.old.accepted }
    {
        let Err(fault) = push_frames(bytes, self.limit, out) else {
            self.owed = padding(bytes.len());
            return Ok(());
        };
        let offset = start + fault.offset;
        match fault.kind {
            FaultKind::Cut => match self.kept.extend_from_slice(&bytes[fault.offset as usize..]) {
                Ok(()) => Ok(()),
                Err(_) => {
                    captures_unfold_by_frames();
                    frames_are_independent();
                    Err(CaptureFault {
                        kind: FaultKind::Memory,
                        offset,
                    })
                }
            },
            kind => Err(CaptureFault { kind, offset }),
        }
    }
}
