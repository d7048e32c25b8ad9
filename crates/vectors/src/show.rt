// The lines of a capture, and whether it is legal. Each capture is also read from a source and in
// pieces, with the same result.

ghost use Rattle.std.specs.Prelude.{◌≡◌, ◌<◌, ◌≤◌, ◌++◌, IfOk, IfSome, OnOk};
ghost use Rattle.link_lines.specs.Options.{selection_of};
ghost use Rattle.vectors.specs.Show.{expected_line, outcome_line};

use crate::cases::{Case, LEAST_LIMIT, PIECES, read_words};
use link_lines::{
    CaptureFault, CaptureReader, FaultKind, ShowOptions, SliceSource, VecSink, push_lines,
    read_types, show, show_bytes,
};
use std::alloc::{AllocError, Global};
use std::io::{self, ErrorKind, Write};

/// A case, with what is to be shown.
#[derive(Drop)]
struct Shown {
    case: Case,
    options: ShowOptions<'static>,
}

/// Returns the case of a limit from 16 to 4294967295 in decimal, and a capture in hex, with a space
/// between; or with `without-numbers`, or the types of the messages to be shown, between them.
/// Returns None if `fields` is anything else, or if an allocation fails.
fn read_shown(alloc: Global, fields: &str) -> Option<Shown>
    ensures { IfSome result (λ shown. 16 ≤ shown.case.limit) }
{
    let (head, capture) = fields.rsplit_once(' ')?;
    let (limit, choice) = head.split_once(' ').unwrap_or((head, ""));
    let case = read_words(alloc, limit, capture, LEAST_LIMIT)?;
    let mut options = ShowOptions::default();
    match choice {
        "" => {}
        "without-numbers" => options.without_numbers = true,
        types => options.only = Some(read_types(types).ok()?),
    }
    Some(Shown { case, options })
}

/// Appends the last line of a result: `legal`, or the first fault.
fn push_outcome(outcome: Result<(), CaptureFault>, out: &mut Vec<u8>) -> Result<(), AllocError>
    ensures { OnOk result (out.new.items ≡ out.old.items ++ outcome_line outcome) }
{
    match outcome {
        Ok(()) => out.extend_from_slice(b"legal\n"),
        Err(fault) => {
            out.extend_from_slice(fault.text().as_str().as_bytes())?;
            out.extend_from_slice(b"\n")
        }
    }
}

/// Returns the lines of a capture, followed by `legal` or its first fault.
fn case_result(alloc: Global, shown: &Shown) -> Result<Vec<u8>, AllocError>
    requires { 16 ≤ shown.now.case.limit }
    ensures { IfOk result
        (λ lines. lines.items ≡ expected_line (selection_of shown.now.options) shown.now.case.limit
        shown.now.case.capture.items) }
{
    let mut lines = Vec::new(alloc);
    let outcome = match show_bytes(
        alloc,
        shown.case.capture.as_slice(),
        shown.case.limit,
        &shown.options,
        &mut lines,
    ) {
        Ok(()) => Ok(()),
        Err(found) if found.fault.kind == FaultKind::Memory => return Err(AllocError),
        Err(found) => Err(found.fault),
    };
    push_outcome(outcome, &mut lines)?;
    Ok(lines)
}

/// Reads a capture in pieces of this size, and appends the lines of each to `out`.
fn read_pieces(
    alloc: Global,
    shown: &Shown,
    size: usize,
    out: &mut Vec<u8>,
) -> Result<Result<(), CaptureFault>, AllocError>
    requires limit { 16 ≤ shown.now.case.limit }
    requires size { 0 < size }
{
    let mut reader = CaptureReader::new(alloc, shown.case.limit);
    let mut texts = Vec::new(alloc);
    for piece in shown.case.capture.as_slice().chunks(size) {
        let fed = reader.feed(piece, &mut texts);
        push_lines(texts.as_slice(), &shown.options, out)?;
        if fed.is_err() {
            return Ok(fed);
        }
        texts.clear();
    }
    Ok(reader.finish())
}

/// Returns whether a capture has the same result in pieces and from a source.
fn agrees(alloc: Global, shown: &Shown) -> Result<bool, AllocError>
    requires { 16 ≤ shown.now.case.limit }
{
    let mut lines = Vec::new(alloc);
    let whole = show_bytes(
        alloc,
        shown.case.capture.as_slice(),
        shown.case.limit,
        &shown.options,
        &mut lines,
    )
    .map_err(|found| found.fault);
    let mut sink = VecSink::new(alloc);
    let mut source = SliceSource::new(shown.case.capture.as_slice());
    let from_source = show(
        alloc,
        &mut source,
        &mut sink,
        shown.case.limit,
        &shown.options,
    )
    .map(|_| ())
    .map_err(|found| found.fault);
    if from_source != whole || sink.bytes() != lines.as_slice() {
        return Ok(false);
    }
    for size in PIECES {
        let mut out = Vec::new(alloc);
        let outcome = read_pieces(alloc, shown, size.max(1), &mut out)?;
        if outcome != whole || out.as_slice() != lines.as_slice() {
            return Ok(false);
        }
    }
    Ok(true)
}

/// Writes the result of a case: a limit from 16 to 4294967295 in decimal, what is to be shown if it
/// isn't everything, and a capture in hex.
///
/// # Errors
///
/// `InvalidInput` if `fields` isn't a case; `InvalidData` if another call has another result;
/// otherwise an allocation or a write failed.
pub fn write_result<W: Write>(alloc: Global, fields: &str, out: &mut W) -> io::Result<()> {
    let shown = read_shown(alloc, fields).ok_or(ErrorKind::InvalidInput)?;
    if !agrees(alloc, &shown)? {
        return Err(io::Error::from(ErrorKind::InvalidData));
    }
    let expected_line = case_result(alloc, &shown)?;
    out.write_all(expected_line.as_slice())
}
