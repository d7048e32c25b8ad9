// The normal texts of a capture, and its numbers or its first fault. Each capture is also read in
// pieces and between devices, and checked, with the same result.

ghost use Rattle.std.specs.Prelude.{◌≡◌, ◌<◌, ◌≤◌, IfOk, string_bytes};
ghost use Rattle.link_capture_grammar.specs.Captures.{texts};
ghost use Rattle.vectors.specs.Norm.{expected_line, measure_text};
ghost use Rattle.link_capture_grammar.specs.Body.{link_body};

use crate::cases::{Case, LEAST_LIMIT, PIECES, read_case};
use hex::encode;
use link_capture_checks::{Measure, check, measure, normal_len};
use link_capture_grammar::fault::{CaptureFault, FaultKind};
use link_capture_reader::{
    CaptureReader, ReadSource, SliceSource, Source, VecSink, normalize, normalize_bytes, read_all,
};
use std::alloc::{AllocError, Global};
use std::io::{self, ErrorKind, Read, Write};

/// Returns the numbers of a capture, with spaces between: frames, attributes, and the bytes of its
/// normal text; or its first fault.
fn measure_case(alloc: Global, case: &Case) -> Result<String, AllocError>
    ensures { IfOk result
        (λ line. string_bytes line ≡ measure_text case.now.limit case.now.capture.items) }
{
    match measure(case.capture.as_slice(), case.limit) {
        Ok(numbers) => {
            let Measure {
                frames,
                attributes,
                text_len,
            } = numbers;
            format!(in alloc; "{frames} {attributes} {text_len}")
        }
        Err(fault) => format!(in alloc; "{fault}"),
    }
}

/// Returns the texts of a capture, up to its first fault.
fn texts_of(alloc: Global, case: &Case) -> Result<Vec<u8>, AllocError>
    requires { 16 ≤ case.now.limit }
    ensures { IfOk result (λ text. text.items ≡ texts link_body case.now.limit case.now.capture.items) }
{
    let mut text = Vec::new(alloc);
    let outcome = normalize_bytes(case.capture.as_slice(), case.limit, &mut text);
    if outcome.is_err_and(|fault| fault.kind == FaultKind::Memory) {
        return Err(AllocError);
    }
    Ok(text)
}

/// Returns the texts of a capture in hex, a space, and its numbers or its first fault.
fn case_result(alloc: Global, case: &Case) -> Result<String, AllocError>
    requires { 16 ≤ case.now.limit }
    ensures { IfOk result
        (λ line. string_bytes line ≡ expected_line case.now.limit case.now.capture.items) }
{
    let text = encode(alloc, texts_of(alloc, case)?.as_slice())?;
    let numbers = measure_case(alloc, case)?;
    format!(in alloc; "{text} {numbers}")
}

/// Reads a capture in pieces of this size, and appends its texts to `out`.
fn read_pieces(
    alloc: Global,
    case: &Case,
    size: usize,
    out: &mut Vec<u8>,
) -> Result<(), CaptureFault>
    requires limit { 16 ≤ case.now.limit }
    requires size { 0 < size }
{
    let mut reader = CaptureReader::new(alloc, case.limit);
    for piece in case.capture.as_slice().chunks(size) {
        reader.feed(piece, out)?;
    }
    reader.finish()
}

/// A reader that reads at most a number of bytes at each call.
#[derive(Drop)]
struct LimitedReader<'a> {
    rest: &'a [u8],
    size: usize,
}

impl Read for LimitedReader<'_> {
    fn read(&mut self, buf: &mut [u8]) -> io::Result<usize> {
        let count = self.rest.len().min(self.size).min(buf.len());
        buf[..count].copy_from_slice(&self.rest[..count]);
        self.rest = &self.rest[count..];
        Ok(count)
    }
}

/// Returns whether normalising a source writes this text to a sink and has this result.
fn flows<S: Source>(
    alloc: Global,
    source: &mut S,
    limit: u32,
    text: &[u8],
    outcome: Result<(), CaptureFault>,
) -> bool
    requires { 16 ≤ limit }
{
    let mut sink = VecSink::new(alloc);
    normalize(alloc, source, &mut sink, limit) == outcome && sink.bytes() == text
}

/// Returns whether a capture is normalised from a slice, and from readers of few bytes at each
/// call, with the result of the whole, and whether all of it is read.
fn agrees_between_devices(
    alloc: Global,
    case: &Case,
    text: &[u8],
    outcome: Result<(), CaptureFault>,
) -> bool
    requires { 16 ≤ case.now.limit }
{
    let capture = case.capture.as_slice();
    if !flows(
        alloc,
        &mut SliceSource::new(capture),
        case.limit,
        text,
        outcome,
    ) {
        return false;
    }
    for size in [1, 7] {
        let mut source = ReadSource::new(LimitedReader {
            rest: capture,
            size,
        });
        if !flows(alloc, &mut source, case.limit, text, outcome) {
            return false;
        }
        let mut source = ReadSource::new(LimitedReader {
            rest: capture,
            size,
        });
        if !read_all(alloc, &mut source).is_ok_and(|bytes| bytes.as_slice() == capture) {
            return false;
        }
    }
    true
}

/// Returns whether a capture has the same result in pieces, between devices, and when it is
/// checked.
fn agrees(alloc: Global, case: &Case) -> bool
    requires { 16 ≤ case.now.limit }
{
    let mut text = Vec::new(alloc);
    let whole = normalize_bytes(case.capture.as_slice(), case.limit, &mut text);
    if check(case.capture.as_slice(), case.limit) != whole {
        return false;
    }
    let len = match whole {
        Ok(()) => Ok(text.len() as u128),
        Err(fault) => Err(fault),
    };
    if normal_len(case.capture.as_slice(), case.limit) != len {
        return false;
    }
    for size in PIECES {
        let mut out = Vec::new(alloc);
        let outcome = read_pieces(alloc, case, size.max(1), &mut out);
        if outcome != whole || out.as_slice() != text.as_slice() {
            return false;
        }
    }
    agrees_between_devices(alloc, case, text.as_slice(), whole)
}

/// Writes the result of a case: a limit from 16 to 4294967295 in decimal, a space, and a capture in
/// hex.
///
/// # Errors
///
/// `InvalidInput` if `fields` isn't a case; `InvalidData` if another call has another result;
/// otherwise an allocation or a write failed.
pub fn write_result<W: Write>(alloc: Global, fields: &str, out: &mut W) -> io::Result<()> {
    let case = read_case(alloc, fields, LEAST_LIMIT).ok_or(ErrorKind::InvalidInput)?;
    if !agrees(alloc, &case) {
        return Err(io::Error::from(ErrorKind::InvalidData));
    }
    let expected_line = case_result(alloc, &case)?;
    writeln!(out, "{expected_line}")
}
