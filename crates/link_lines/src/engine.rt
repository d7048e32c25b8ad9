//! The lines of a capture, from a source to a sink.

ghost use Rattle.std.specs.Prelude.{◌≡◌, ◌⊎◌, ◌<◌, ◌≤◌, ◌+◌, length, drop, vec_capacity, IfSome, IfNone, OnErr, OnOk, Some, None};
ghost use Rattle.netlink_packet_core_grammar.specs.Frames.{BeginsWithFrame};
ghost use Rattle.link_capture_grammar.specs.declared.fault.FaultKind.{FaultKind};
ghost use Rattle.link_capture_reader.specs.States.{source_state, sink_state};
ghost use Rattle.link_capture_reader.specs.Readers.{IsReservedIfCut};
ghost use Rattle.link_lines.specs.Messages.{frame_of, report_of};
ghost use Rattle.link_lines.specs.Options.{selection_of};
ghost use Rattle.link_lines.specs.Outcomes.{Shows, ShowsKeeping};
ghost use Rattle.link_lines.specs.Refused.{without_refusal};
ghost use Rattle.link_lines.specs.Walks.{FinishedWith, cut_with_piece, left_to_show, or_else, report_in};

use crate::faulty::fault_of;
use crate::message_laws::{first_faults_are_reported, messages_unfold};
use crate::messages::{Buffers, push_messages};
use crate::options::ShowOptions;
use crate::refused::ShowFault;
use link_capture_grammar::fault::{CaptureFault, FaultKind};
use link_capture_grammar::laws::faults_are_at_frames;
use link_capture_reader::{FirstBytes, Sink, Source, keep_first, write_all};
use std::alloc::{AllocError, Global};

/// Returns a fault of this kind at an offset, without a refusal.
pub(crate) fn fault_at(kind: FaultKind, offset: u64) -> ShowFault
    ensures { result ≡ without_refusal (record { kind = kind; offset = offset }) }
{
    ShowFault::from(CaptureFault { kind, offset })
}

/// Reserves memory for a piece of this size after the bytes of a cut message, if there are any.
fn reserve_piece(rest: &mut Vec<u8>, size: usize) -> Result<(), AllocError>
    ensures items { rest.new.items ≡ rest.old.items }
    ensures ok { OnOk result (IsReservedIfCut rest.new.items (vec_capacity rest.new) size) }
    ensures err { OnErr result (0 < length rest.old.items) }
{
    if rest.is_empty() {
        return Ok(());
    }
    rest.reserve(size)
}

/// Continues a cut message by a piece for which memory was reserved.
fn continue_message(rest: &mut Vec<u8>, piece: &[u8])
    requires { IsReservedIfCut rest.old.items (vec_capacity rest.old) (length piece.now) }
    ensures { rest.new.items ≡ cut_with_piece rest.old.items piece.now }
{
    if !rest.is_empty() {
        let appended = rest.extend_from_slice(piece);
        prove!(appended.is_ok());
    }
}

/// Returns the bytes to be shown: those of a cut message that was continued, or else the piece.
fn left_to_show<'a>(rest: &'a [u8], piece: &'a [u8]) -> &'a [u8]
    ensures { result.now ≡ left_to_show rest.now piece.now }
{
    if rest.is_empty() { piece } else { rest }
}

/// Keeps those bytes that aren't shown, from this offset on.
///
/// # Errors
///
/// `AllocError` if there are such bytes in the piece, and an allocation for them fails.
fn keep_rest(rest: &mut Vec<u8>, piece: &[u8], shown: usize) -> Result<(), AllocError>
    requires { shown ≤ length (left_to_show rest.old.items piece.now) }
    ensures ok { OnOk result (rest.new.items ≡ drop shown (left_to_show rest.old.items piece.now)) }
    ensures err { OnErr result (shown < length (left_to_show rest.old.items piece.now)) }
{
    if rest.is_empty() {
        return rest.extend_from_slice(&piece[shown..]);
    }
    rest.drain(..shown);
    Ok(())
}

/// Returns the fault of a message at which showing stops: not that of one which is cut, and which
/// more bytes may complete.
fn stopping_fault(last: Option<FaultKind>) -> Option<FaultKind>
    ensures some { IfSome result (λ kind. (last ≡ Some kind) × (kind ≡ FaultKind.Cut → ⊥)) }
    ensures none { IfNone result ((last ≡ None) ⊎ (last ≡ Some FaultKind.Cut)) }
{
    match last {
        Some(FaultKind::Cut) | None => None,
        Some(kind) => Some(kind),
    }
}

/// Returns the first fault of a capture of which showing stops at the first message of `bytes`.
pub(crate) fn stopped_by(
    found: Option<ShowFault>,
    kind: FaultKind,
    offset: u64,
    bytes: &[u8],
) -> ShowFault
    requires { kind ≡ FaultKind.Refused → BeginsWithFrame bytes.now }
    ensures { report_in (Some result)
        ≡ or_else (report_in found) (Some (report_of offset kind (frame_of bytes.now))) }
{
    match found {
        Some(fault) => fault,
        None => fault_of(kind, offset, bytes),
    }
}

/// Returns the result for a capture that was read to its end, of which the bytes `rest`, at an
/// offset, are a cut message if there are any.
fn finish(
    found: Option<ShowFault>,
    rest: &[u8],
    offset: u64,
    written: u64,
) -> Result<bool, ShowFault>
    ensures { FinishedWith (report_in found) rest.now offset written result }
{
    match found {
        Some(fault) => Err(fault),
        None if rest.is_empty() => Ok(written != 0),
        None => Err(fault_at(FaultKind::Cut, offset)),
    }
}

/// Reads a capture to its end, in pieces of at most 65,536 bytes, and writes its lines as the
/// messages come. Returns whether there are any lines.
///
/// `limit` is the greatest length in bytes that a message, read or in its normal text, may have. Ok
/// means that the source reported its end, the capture is legal, and its lines are written.
///
/// # Errors
///
/// - the capture's first fault, with its offset, and what `why` returns for a refused body. The
///   lines of the messages before it are written; with `keep_going` also those of messages with a
///   fault of their body, and of those after them, up to a fault of another kind;
/// - `Read` at the number of bytes read, if the source fails;
/// - `Write` at the number of bytes taken, if the sink fails;
/// - `Memory` at the offset of a message, if an allocation for it fails: one that is shown, or cut in
///   what was read. The lines of those before it are written;
/// - `TooLong` at the number of bytes read before a piece.
pub fn show<S: Source, K: Sink>(
    alloc: Global,
    source: &mut S,
    sink: &mut K,
    limit: u32,
    options: &ShowOptions<'_>,
) -> Result<bool, ShowFault>
    requires { 16 ≤ limit }
    ensures { Shows (selection_of options.now) (source_state S.to_come S.failures S.ends_reported source.old)
        (source_state S.to_come S.failures S.ends_reported source.new)
        (sink_state K.holds K.failures sink.old) (sink_state K.holds K.failures sink.new) limit result }
{
    show_keeping_first(alloc, source, sink, limit, options, &mut FirstBytes::new())
}

/// Shows a capture as `show` does, and keeps the first bytes that were read in `first`.
///
/// # Errors
///
/// Those of `show`; `first` has the first bytes that were read, at most four, also after an error.
pub fn show_keeping_first<S: Source, K: Sink>(
    alloc: Global,
    source: &mut S,
    sink: &mut K,
    limit: u32,
    options: &ShowOptions<'_>,
    first: &mut FirstBytes,
) -> Result<bool, ShowFault>
    requires { 16 ≤ limit }
    ensures { ShowsKeeping first.new.items (selection_of options.now)
        (source_state S.to_come S.failures S.ends_reported source.old)
        (source_state S.to_come S.failures S.ends_reported source.new)
        (sink_state K.holds K.failures sink.old) (sink_state K.holds K.failures sink.new) limit result }
{
    first.clear();
    messages_unfold();
    first_faults_are_reported();
    faults_are_at_frames();
    let mut buffer = [0u8; 65536];
    let mut buffers = Buffers::new(alloc);
    let mut rest = Vec::new(alloc);
    let mut lines = Vec::new(alloc);
    let mut found = None;
    let mut start = 0u64;
    let mut padding = 0usize;
    let mut written = 0u64;
    'pieces: loop {
        let accepted = start + rest.len() as u64;
        let Ok(()) = reserve_piece(&mut rest, buffer.len()) else {
            return Err(fault_at(FaultKind::Memory, start));
        };
        let Ok(size) = source.read(&mut buffer) else {
            return Err(fault_at(FaultKind::Read, accepted));
        };
        if size == 0 {
            return finish(found, rest.as_slice(), start, written);
        }
        let piece = &buffer[..size];
        keep_first(first, piece);
        if size as u64 > u64::MAX - accepted {
            return Err(fault_at(FaultKind::TooLong, accepted));
        }
        continue_message(&mut rest, piece);
        let bytes = left_to_show(rest.as_slice(), piece);
        let walk = push_messages(
            bytes,
            start,
            padding,
            limit,
            options,
            &mut buffers,
            &mut found,
            &mut lines,
        );
        written = write_all(sink, lines.as_slice(), written)?;
        let walked = match walk {
            Ok(walked) => walked,
            Err(at) => return Err(fault_at(FaultKind::Memory, start + at as u64)),
        };
        if let Some(kind) = stopping_fault(walked.last) {
            let offset = start + walked.len as u64;
            return Err(stopped_by(found, kind, offset, &bytes[walked.len..]));
        }
        let passed = walked.len.min(bytes.len());
        let Ok(()) = keep_rest(&mut rest, piece, passed) else {
            return Err(fault_at(FaultKind::Memory, start + passed as u64));
        };
        start += passed as u64;
        padding = walked.len - passed;
        lines.clear();
    }
}
