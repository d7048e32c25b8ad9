//! One of two captures that are compared, as its source is read.

ghost use Rattle.std.specs.Prelude.{◌≡◌, ◌≤◌, ◌<◌, ◌+◌, ◌-◌, ◌^◌, ◌++◌, ℕ, List, [], ⊤, true, length, take, drop, vec_capacity};
ghost use Rattle.std.specs.Prelude.{None, Some, IfOk, OnOk, OnErr};
ghost use Rattle.netlink_packet_core_grammar.specs.Attributes.{nla_align};
ghost use Rattle.link_capture_reader.specs.Readers.{IsReservedIfCut};
ghost use Rattle.link_capture_reader.specs.States.{SourceState, source_state};
ghost use Rattle.link_capture_comparing.specs.Readings.{HasRead};
ghost use Rattle.link_capture_comparing.specs.Sides.{state_of, new_side, rest_of, offset_of, HasJudged, HasVerdict, HasPassedFrames};
ghost use Rattle.link_capture_comparing.specs.Sides.{IsAtFrame, FindsFrame, Finishes, StopsJudging};

use super::pieces::{PIECE, read_piece, read_rest};
use link_capture_checks::{frame_len, measure_frame};
use link_capture_grammar::fault::{CaptureFault, FaultKind};
use link_capture_grammar::laws::{
    captures_unfold_by_frames, faults_of_a_prefix_stay, frames_are_independent, frames_are_judged,
};
use link_capture_reader::Source;
use link_interpreter::append;
use netlink_packet_core::nla_align;
use std::alloc::{AllocError, Global};

/// One of two captures, as its source is read.
///
/// A frame that is whole in a piece is judged in the piece. If the last one is cut there, its bytes
/// are kept, and so are those that come next, until no frame is cut.
#[derive(Drop)]
pub(crate) struct Side {
    /// The greatest length of a message in bytes, as read and as written.
    limit: u32,
    /// The number of bytes read.
    read: u64,
    /// Whether the source has reported its end.
    ended: bool,
    /// The first fault, or `Memory`. Nothing is judged after it.
    fault: Option<CaptureFault>,
    /// The last piece, at the start of the buffer. Unused while bytes are kept.
    buffer: [u8; PIECE],
    /// The length of the piece in bytes.
    piece_len: usize,
    /// The bytes of a frame that was cut in its piece, and those that came after them.
    kept: Vec<u8>,
    /// Where the next frame starts in the kept bytes or the piece; up to 3 bytes beyond them, if
    /// padding is still to come.
    from: usize,
}

/// Removes bytes from the start.
fn remove_front(bytes: &mut Vec<u8>, count: usize)
    requires { count ≤ length bytes.old.items }
    ensures items { bytes.new.items ≡ drop count bytes.old.items }
    ensures capacity { vec_capacity bytes.new ≡ vec_capacity bytes.old }
{
    let len = bytes.len();
    bytes.as_mut_slice().copy_within(count..len, 0);
    bytes.truncate(len - count);
}

/// Appends a part of a buffer.
fn append_part(buffer: &[u8], start: usize, end: usize, kept: &mut Vec<u8>)
    requires order { start ≤ end }
    requires within { end ≤ length buffer.now }
    requires room { length kept.old.items + (end - start) ≤ vec_capacity kept.old }
    ensures items { kept.new.items ≡ kept.old.items ++ take (end - start) (drop start buffer.now) }
    ensures capacity { vec_capacity kept.old ≤ vec_capacity kept.new }
{
    append(&buffer[start..end], kept);
}

impl Side {
    /// Returns a side of which nothing was read.
    pub(crate) fn new(alloc: Global, limit: u32) -> Side
        ensures { state_of result ≡ new_side limit }
    {
        Side {
            limit,
            read: 0,
            ended: false,
            fault: None,
            buffer: [0; PIECE],
            piece_len: 0,
            kept: Vec::new(alloc),
            from: 0,
        }
    }

    /// Returns the bytes at hand.
    fn window(&self) -> &[u8]
        ensures { result.now ≡ (state_of self.now).window }
    {
        if self.kept.is_empty() {
            &self.buffer[..self.piece_len.min(PIECE)]
        } else {
            self.kept.as_slice()
        }
    }

    /// Returns the bytes that were read and not passed.
    pub(crate) fn rest(&self) -> &[u8]
        ensures { result.now ≡ rest_of (state_of self.now) }
    {
        let window = self.window();
        &window[self.from.min(window.len())..]
    }

    /// Returns the first fault, or `Memory`, if there is one.
    pub(crate) fn fault(&self) -> Option<CaptureFault>
        ensures { result ≡ self.now.fault }
    {
        self.fault
    }

    /// Stores a fault at the next frame.
    fn fail(&mut self, kind: FaultKind)
        requires inside { length (state_of self.old).window ≤ self.old.read }
        requires more { 0 < length (rest_of (state_of self.old)) }
        ensures { state_of self.new ≡ record (state_of self.old) {
          fault = Some (record { kind = kind; offset = offset_of (state_of self.old) });
        } }
    {
        let offset = self.read - self.window().len() as u64 + self.from as u64;
        self.fault = Some(CaptureFault { kind, offset });
    }

    /// Makes space for another piece: keeps the bytes of a cut frame, or drops what was passed.
    ///
    /// # Errors
    ///
    /// If an allocation fails, which is only for a cut frame.
    fn make_room(&mut self) -> Result<(), AllocError>
        requires inside { length (state_of self.old).window ≤ self.old.read }
        ensures room { OnOk result (IsReservedIfCut self.new.kept.items (vec_capacity self.new.kept) 32768) }
        ensures piece { OnOk result (self.new.kept.items ≡ [] → self.new.piece_len ≡ 0) }
        ensures cut { OnErr result (0 < length (rest_of (state_of self.old))) }
        ensures rest { rest_of (state_of self.new) ≡ rest_of (state_of self.old) }
        ensures offset { offset_of (state_of self.new) ≡ offset_of (state_of self.old) }
        ensures inside { length (state_of self.new).window ≤ self.new.read }
        ensures others { (self.new.limit ≡ self.old.limit) × (self.new.read ≡ self.old.read)
            × (self.new.ended ≡ self.old.ended) × (self.new.fault ≡ self.old.fault) }
    {
        let len = self.window().len();
        if self.from >= len {
            self.from -= len;
            self.kept.clear();
            self.piece_len = 0;
            return Ok(());
        }
        if self.kept.is_empty() {
            let from = self.from;
            self.kept.reserve(len - from + PIECE)?;
            self.keep_part(from, len);
            self.from = 0;
            return Ok(());
        }
        if self.from > 0 {
            remove_front(&mut self.kept, self.from);
            self.from = 0;
        }
        self.kept.reserve(PIECE)
    }

    /// Appends a part of the buffer to the kept bytes.
    fn keep_part(&mut self, start: usize, end: usize)
        requires order { start ≤ end }
        requires within { end ≤ 32768 }
        requires room { length self.old.kept.items + (end - start) ≤ vec_capacity self.old.kept }
        ensures items { self.new.kept.items ≡ self.old.kept.items ++ take (end - start) (drop start self.old.buffer) }
        ensures capacity { vec_capacity self.old.kept ≤ vec_capacity self.new.kept }
        ensures others { self.new ≡ record self.old { kept = self.new.kept } }
    {
        append_part(&self.buffer, start, end, &mut self.kept);
    }

    /// Takes a piece that was read to the start of the buffer.
    fn take_piece(&mut self, len: usize)
        requires within { len ≤ 32768 }
        requires room { IsReservedIfCut self.old.kept.items (vec_capacity self.old.kept) 32768 }
        requires piece { self.old.kept.items ≡ [] → self.old.piece_len ≡ 0 }
        ensures { state_of self.new ≡ record (state_of self.old) {
          window = (state_of self.old).window ++ take len self.old.buffer;
        } }
    {
        if self.kept.is_empty() {
            self.piece_len = len;
        } else {
            append(&self.buffer[..len], &mut self.kept);
        }
    }

    /// Reads until a frame is at hand, and returns its length. Returns None at the end of a legal
    /// capture, or if there is a fault now, in which case the source may not have been read to its
    /// end.
    ///
    /// # Errors
    ///
    /// As `read_piece`.
    pub(crate) fn frame<S: Source>(&mut self, source: &mut S) -> Result<Option<usize>, CaptureFault>
        requires inside { length (state_of self.old).window ≤ self.old.read }
        requires counted { self.old.read < 2 ^ 64 }
        requires unjudged { self.old.fault ≡ None }
        ensures frame { IfOk result (λ len. IsAtFrame (state_of self.new) len) }
        ensures found { (initial : SourceState) (s : List ℕ)
            → HasRead initial (source_state S.to_come S.failures S.ends_reported source.old)
            self.old.ended self.old.read s
            → HasPassedFrames (state_of self.old) s
            → FindsFrame initial (source_state S.to_come S.failures S.ends_reported source.new)
            (state_of self.old) (state_of self.new) s result }
        ensures ended { self.old.ended ≡ true → self.new.ended ≡ true }
        ensures offset { offset_of (state_of self.new) ≡ offset_of (state_of self.old) }
        ensures inside { length (state_of self.new).window ≤ self.new.read }
        ensures counted { self.new.read < 2 ^ 64 }
        ensures limit { self.new.limit ≡ self.old.limit }
    {
        captures_unfold_by_frames();
        frames_are_judged();
        'pieces: loop {
            match frame_len(self.rest(), self.limit) {
                Ok(len) => return Ok(Some(len)),
                Err(kind) => match kind {
                    FaultKind::Cut => {}
                    kind => {
                        self.fail(kind);
                        return Ok(None);
                    }
                },
            }
            if self.ended {
                if !self.rest().is_empty() {
                    self.fail(FaultKind::Cut);
                }
                return Ok(None);
            }
            let Ok(()) = self.make_room() else {
                self.fail(FaultKind::Memory);
                return Ok(None);
            };
            let len = read_piece(source, &mut self.buffer, self.read)?;
            self.read += len as u64;
            self.ended = len == 0;
            self.take_piece(len);
        }
    }

    /// Passes a frame of this length that is at hand, and its padding.
    pub(crate) fn pass(&mut self, len: usize)
        requires { len ≤ length (rest_of (state_of self.old)) }
        ensures { state_of self.new ≡ record (state_of self.old) { from = self.old.from + nla_align len } }
    {
        self.from += nla_align(len);
    }

    /// Reads the source to its end, and judges nothing. Then the side is used up, but for its fault.
    ///
    /// # Errors
    ///
    /// As `read_piece`.
    pub(crate) fn read_rest<S: Source>(&mut self, source: &mut S) -> Result<(), CaptureFault>
        ensures read { (initial : SourceState) (s : List ℕ)
            → HasRead initial (source_state S.to_come S.failures S.ends_reported source.old)
            self.old.ended self.old.read s
            → Finishes initial (source_state S.to_come S.failures S.ends_reported source.new)
            self.old.ended s result (λ t. ⊤) }
        ensures fault { self.new.fault ≡ self.old.fault }
        ensures limit { self.new.limit ≡ self.old.limit }
    {
        if self.ended {
            return Ok(());
        }
        read_rest(source, &mut self.buffer, self.read)
    }

    /// Judges the frames from the next one on until the first fault, and reads the source to its
    /// end. Then the side is used up, but for its fault.
    ///
    /// # Errors
    ///
    /// As `read_piece`.
    pub(crate) fn judge_rest<S: Source>(&mut self, source: &mut S) -> Result<(), CaptureFault>
        requires inside { length (state_of self.old).window ≤ self.old.read }
        requires counted { self.old.read < 2 ^ 64 }
        ensures judged { (initial : SourceState) (s : List ℕ)
            → HasRead initial (source_state S.to_come S.failures S.ends_reported source.old)
            self.old.ended self.old.read s
            → HasJudged self.old.fault (state_of self.old) s
            → Finishes initial (source_state S.to_come S.failures S.ends_reported source.new)
            self.old.ended s result (HasVerdict self.new.fault self.old.limit) }
        ensures kept { self.new.fault ≡ None → self.old.fault ≡ None }
    {
        faults_of_a_prefix_stay();
        if self.fault.is_some() {
            return self.read_rest(source);
        }
        self.judge_frames(source)?;
        self.read_rest(source)
    }

    /// Judges the frames from the next one on until the end or the first fault.
    ///
    /// # Errors
    ///
    /// As `read_piece`.
    fn judge_frames<S: Source>(&mut self, source: &mut S) -> Result<(), CaptureFault>
        requires inside { length (state_of self.old).window ≤ self.old.read }
        requires counted { self.old.read < 2 ^ 64 }
        requires unjudged { self.old.fault ≡ None }
        ensures judged { (initial : SourceState) (s : List ℕ)
            → HasRead initial (source_state S.to_come S.failures S.ends_reported source.old)
            self.old.ended self.old.read s
            → HasPassedFrames (state_of self.old) s
            → StopsJudging initial (source_state S.to_come S.failures S.ends_reported source.new)
            (state_of self.old) (state_of self.new) s result }
        ensures ended { self.old.ended ≡ true → self.new.ended ≡ true }
        ensures limit { self.new.limit ≡ self.old.limit }
    {
        captures_unfold_by_frames();
        frames_are_independent();
        'frames: loop {
            let Some(_) = self.frame(source)? else {
                return Ok(());
            };
            match measure_frame(self.rest(), self.limit) {
                Ok(measured) => self.pass(measured.len),
                Err(kind) => {
                    self.fail(kind);
                    return Ok(());
                }
            }
        }
    }
}
