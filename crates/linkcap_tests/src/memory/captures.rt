//! Captures: running out of memory is reported at a frame, and only whole texts are written.

use super::requests::{report_fault, report_last_request};
use crate::devices::{LimitedReader, Plan};
use link_capture::{
    CaptureFault, CaptureReader, FaultKind, ReadSource, SideFault, SliceSource, VecSink, normalize,
    normalize_bytes, read_all, same_sources,
};
use std::test::Fail;

/// Two requests for a link with the name `lo`, with a mask of statistics. The capture is already
/// canonical.
const CAPTURE: [u8; 96] = [
    48, 0, 0, 0, 18, 0, 1, 3, 52, 14, 249, 90, 0, 0, 0, 0, 0, 0, 0, 0, 0, 0, 0, 0, 0, 0, 0, 0, 0,
    0, 0, 0, 8, 0, 29, 0, 9, 0, 0, 0, 7, 0, 3, 0, 108, 111, 0, 0, 48, 0, 0, 0, 18, 0, 1, 3, 52, 14,
    249, 90, 0, 0, 0, 0, 0, 0, 0, 0, 0, 0, 0, 0, 0, 0, 0, 0, 0, 0, 0, 0, 8, 0, 29, 0, 9, 0, 0, 0,
    7, 0, 3, 0, 108, 111, 0, 0,
];

/// Returns whether the texts are those of the whole capture, or those of the frames before a fault
/// of one of these kinds.
fn are_texts(out: &[u8], outcome: Result<(), CaptureFault>, kinds: &[FaultKind]) -> bool {
    let Err(CaptureFault { kind, offset }) = outcome else {
        return out == CAPTURE.as_slice();
    };
    kinds.contains(&kind)
        && (offset == 0 || offset == 48)
        && out == &CAPTURE[..offset.min(96) as usize]
}

/// `out` has the texts of the frames before the fault.
#[test]
fn a_whole_capture(rt: HostRuntime) -> Result<(), Fail> {
    let mut out = Vec::new(rt.alloc());
    let outcome = normalize_bytes(&CAPTURE, 1000, &mut out);
    assert!(rt; are_texts(&out, outcome, &[FaultKind::Memory]));
    report_fault(&rt, rt.alloc(), "normalize_bytes", outcome)?;
    Ok(())
}

/// Running out of memory is final for the reader.
#[test]
fn a_capture_in_pieces(rt: HostRuntime) -> Result<(), Fail> {
    let mut reader = CaptureReader::new(rt.alloc(), 1000);
    let mut out = Vec::new(rt.alloc());
    let mut first = Ok(());
    for piece in CAPTURE.chunks(40) {
        let outcome = reader.feed(piece, &mut out);
        if let Err(CaptureFault { offset, .. }) = first {
            let kind = FaultKind::Failed;
            assert!(rt; outcome == Err(CaptureFault { kind, offset }));
        } else {
            first = outcome;
        }
    }
    assert!(rt; first.is_err() || reader.finish().is_ok());
    assert!(rt; are_texts(&out, first, &[FaultKind::Memory]));
    report_fault(&rt, rt.alloc(), "feed", first)?;
    Ok(())
}

/// If the sink can't grow, it has failed; otherwise the texts before the fault are written.
#[test]
fn a_source_and_a_sink(rt: HostRuntime) -> Result<(), Fail> {
    let mut sink = VecSink::new(rt.alloc());
    let mut source = SliceSource::new(&CAPTURE);
    let outcome = normalize(rt.alloc(), &mut source, &mut sink, 1000);
    let kinds = &[FaultKind::Memory, FaultKind::Write];
    assert!(rt; are_texts(sink.bytes(), outcome, kinds));
    report_fault(&rt, rt.alloc(), "normalize", outcome)?;
    Ok(())
}

/// Running out of memory is reported at the number of bytes read.
#[test]
fn all_of_a_source(rt: HostRuntime) -> Result<(), Fail> {
    let outcome = match read_all(rt.alloc(), &mut SliceSource::new(&CAPTURE)) {
        Ok(bytes) => {
            assert!(rt; bytes.as_slice() == CAPTURE.as_slice());
            Ok(())
        }
        Err(fault) => {
            assert!(rt; fault.kind == FaultKind::Memory && fault.offset == 96);
            Err(fault)
        }
    };
    report_fault(&rt, rt.alloc(), "read_all", outcome)?;
    Ok(())
}

/// Returns a source of the capture that reads at most `size` bytes at each call.
fn source_of(size: usize) -> ReadSource<LimitedReader<'static>> {
    let plan = Plan::steady(size);
    ReadSource::new(LimitedReader {
        rest: &CAPTURE,
        plan,
    })
}

/// Running out of memory is reported at a side's first frame that is cut: of the first source the
/// frame at 0, and of the second that at 48.
#[test]
fn two_sources(rt: HostRuntime) -> Result<(), Fail> {
    let mut left = source_of(20);
    let mut right = source_of(60);
    match same_sources(rt.alloc(), &mut left, &mut right, 1000) {
        Ok(is_same) => {
            assert!(rt; is_same);
            println!(rt; "same_sources: same")?;
        }
        Err(SideFault { second, fault }) => {
            let offset = if second { 48 } else { 0 };
            let kind = FaultKind::Memory;
            assert!(rt; fault == CaptureFault { kind, offset });
            println!(rt; "same_sources: {}", SideFault { second, fault })?;
        }
    }
    report_last_request(&rt, rt.alloc())?;
    Ok(())
}
