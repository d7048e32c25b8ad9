//! Runs of `normalize` between devices. No contract says that a run succeeds if no device fails, or
//! that it reports the failure of a device and then neither reads nor writes; these tests check
//! that.

use super::devices::{LimitedReader, LimitedWriter, Plan};
use super::fault_texts::shown;
use link_capture::{
    CaptureFault, FaultKind, ReadSource, WriteSink, normalize, read_all, write_all,
};
use std::alloc::Global;
use std::test::Fail;

/// A request for the link `lo` whose name has a flag bit and a last padding byte that isn't zero,
/// and a DONE message without a body.
pub(crate) const CAPTURE: [u8; 64] = [
    48, 0, 0, 0, 18, 0, 1, 3, 52, 14, 249, 90, 0, 0, 0, 0, 0, 0, 0, 0, 0, 0, 0, 0, 0, 0, 0, 0, 0,
    0, 0, 0, 8, 0, 29, 0, 9, 0, 0, 0, 7, 0, 3, 128, 108, 111, 0, 255, 16, 0, 0, 0, 3, 0, 2, 0, 1,
    0, 0, 0, 0, 0, 0, 0,
];

/// The normal text of that capture: a clean name, and a code of 0.
pub(crate) const TEXT: [u8; 68] = [
    48, 0, 0, 0, 18, 0, 1, 3, 52, 14, 249, 90, 0, 0, 0, 0, 0, 0, 0, 0, 0, 0, 0, 0, 0, 0, 0, 0, 0,
    0, 0, 0, 8, 0, 29, 0, 9, 0, 0, 0, 7, 0, 3, 0, 108, 111, 0, 0, 20, 0, 0, 0, 3, 0, 2, 0, 1, 0, 0,
    0, 0, 0, 0, 0, 0, 0, 0, 0,
];

/// The normal text of that request alone.
pub(crate) const REQUEST: [u8; 48] = [
    48, 0, 0, 0, 18, 0, 1, 3, 52, 14, 249, 90, 0, 0, 0, 0, 0, 0, 0, 0, 0, 0, 0, 0, 0, 0, 0, 0, 0,
    0, 0, 0, 8, 0, 29, 0, 9, 0, 0, 0, 7, 0, 3, 0, 108, 111, 0, 0,
];

/// The same, and the first bytes of another message.
pub(crate) const BEGUN: [u8; 58] = [
    48, 0, 0, 0, 18, 0, 1, 3, 52, 14, 249, 90, 0, 0, 0, 0, 0, 0, 0, 0, 0, 0, 0, 0, 0, 0, 0, 0, 0,
    0, 0, 0, 8, 0, 29, 0, 9, 0, 0, 0, 7, 0, 3, 0, 108, 111, 0, 0, 48, 0, 0, 0, 18, 0, 1, 3, 52, 14,
];

/// A DONE message without a body, and a length under 16.
pub(crate) const SHORT: [u8; 32] = [
    16, 0, 0, 0, 3, 0, 2, 0, 1, 0, 0, 0, 0, 0, 0, 0, 8, 0, 0, 0, 3, 0, 0, 0, 0, 0, 0, 0, 0, 0, 0, 0,
];

/// The text of that message.
const SHORT_TEXT: [u8; 20] = [20, 0, 0, 0, 3, 0, 2, 0, 1, 0, 0, 0, 0, 0, 0, 0, 0, 0, 0, 0];

/// A run: its result, the bytes written, and how many bytes of the capture weren't read.
#[derive(Drop)]
struct Run {
    outcome: Result<(), CaptureFault>,
    taken: Vec<u8>,
    unread: usize,
}

/// Returns the plan with these limits.
fn plan((size, calls, fails): Limits) -> Plan {
    Plan { size, calls, fails }
}

/// Returns a run of `normalize` under the limit 1000.
fn norm_between(alloc: Global, capture: &[u8], reads: Plan, writes: Plan) -> Run {
    let mut reader = LimitedReader {
        rest: capture,
        plan: reads,
    };
    let mut writer = LimitedWriter {
        taken: Vec::new(alloc),
        plan: writes,
    };
    let mut source = ReadSource::new(&mut reader);
    let mut sink = WriteSink::new(&mut writer);
    let outcome = normalize(alloc, &mut source, &mut sink, 1000);
    let LimitedWriter { taken, .. } = writer;
    Run {
        outcome,
        taken,
        unread: reader.rest.len(),
    }
}

/// The size, the calls and the failure of a plan.
type Limits = (usize, usize, bool);

const STEADY: Limits = (100, 1000, false);

/// A capture, the plans of its reads and writes, the result, `ok` or the display of the fault, and
/// the bytes written.
type Case = (
    &'static str,
    &'static [u8],
    Limits,
    Limits,
    &'static str,
    &'static [u8],
);

const CASES: [Case; 9] = [
    (
        "few bytes a call",
        &REQUEST,
        STEADY,
        (5, 1000, false),
        "ok",
        &REQUEST,
    ),
    (
        "a write that fails is told at the bytes taken",
        &REQUEST,
        STEADY,
        (5, 4, true),
        "write failed at 20",
        b"\x30\0\0\0\x12\0\x01\x03\x34\x0e\xf9\x5a\0\0\0\0\0\0\0\0",
    ),
    (
        "a write that takes nothing has failed",
        &REQUEST,
        STEADY,
        (5, 4, false),
        "write failed at 20",
        b"\x30\0\0\0\x12\0\x01\x03\x34\x0e\xf9\x5a\0\0\0\0\0\0\0\0",
    ),
    (
        "a write that fails at once is told at 0",
        &SHORT,
        STEADY,
        (5, 0, true),
        "write failed at 0",
        b"",
    ),
    (
        "a failed write is told in place of another fault",
        &SHORT,
        STEADY,
        (19, 1, true),
        "write failed at 19",
        b"\x14\0\0\0\x03\0\x02\0\x01\0\0\0\0\0\0\0\0\0\0",
    ),
    (
        "texts before a fault are written",
        &SHORT,
        STEADY,
        STEADY,
        "length under 16 at 16",
        &SHORT_TEXT,
    ),
    (
        "a read that fails inside the first message leaves nothing written",
        &REQUEST,
        (30, 1, true),
        STEADY,
        "read failed at 30",
        b"",
    ),
    (
        "texts before a failed read are written",
        &BEGUN,
        (58, 1, true),
        STEADY,
        "read failed at 58",
        b"\x30\0\0\0\x12\0\x01\x03\x34\x0e\xf9\x5a\0\0\0\0\0\0\0\0\0\0\0\0\0\0\0\0\0\0\0\0\
            \x08\0\x1d\0\x09\0\0\0\x07\0\x03\0lo\0\0",
    ),
    (
        "a failed write comes before the next read",
        &BEGUN,
        (58, 1, true),
        (3, 2, true),
        "write failed at 6",
        b"\x30\0\0\0\x12\0",
    ),
];

#[test]
fn devices_make_the_result(rt: HostRuntime) -> Result<(), Fail> {
    for (name, capture, reads, writes, expected_text, written) in &CASES {
        let run = norm_between(rt.alloc(), capture, plan(*reads), plan(*writes));
        let text = shown(rt.alloc(), &run.outcome)?;
        assert!(rt;
            text.as_str() == *expected_text && run.taken.as_slice() == *written,
            "{name}"
        );
    }
    Ok(())
}

/// The sizes of reads and writes make no difference.
#[test]
fn pieces_make_no_difference(rt: HostRuntime) {
    let under_16 = Err(CaptureFault {
        kind: FaultKind::ShortLength,
        offset: 16,
    });
    let cases = [
        (CAPTURE.as_slice(), Ok(()), TEXT.as_slice()),
        (SHORT.as_slice(), under_16, SHORT_TEXT.as_slice()),
    ];
    for (capture, outcome, text) in cases {
        for read in 1..10usize {
            for written in 1..10usize {
                let run = norm_between(
                    rt.alloc(),
                    capture,
                    Plan::steady(read),
                    Plan::steady(written),
                );
                assert!(rt;
                    run.outcome == outcome && run.taken.as_slice() == text,
                    "reads of {read} bytes, writes of {written}"
                );
            }
        }
    }
}

/// Returns the expected result of a run whose source fails, or reports its end, after the first
/// `read` bytes of the capture.
fn run_result_after(read: usize, fails: bool) -> Result<(), CaptureFault> {
    let (kind, offset) = match read {
        _ if fails => (FaultKind::Read, read),
        0 | 48 | 64 => return Ok(()),
        1..=47 => (FaultKind::Cut, 0),
        _ => (FaultKind::Cut, 48),
    };
    Err(CaptureFault {
        kind,
        offset: offset as u64,
    })
}

/// Returns the texts of the whole frames in the first `read` bytes of the capture.
fn text_of(read: usize) -> &'static [u8] {
    match read {
        0..=47 => b"",
        48..=63 => &TEXT[..48],
        _ => &TEXT,
    }
}

/// Returns whether a run over the capture has this result after the first `read` bytes, and has
/// written the texts of the frames there.
fn is_run_after(
    alloc: Global,
    reads: Plan,
    read: usize,
    outcome: Result<(), CaptureFault>,
) -> bool {
    let run = norm_between(alloc, &CAPTURE, reads, Plan::steady(100));
    run.outcome == outcome
        && run.taken.as_slice() == text_of(read)
        && Some(run.unread) == CAPTURE.len().checked_sub(read)
}

/// Returns whether `read_all` returns the first `read` bytes of the capture, or the fault of a
/// source that fails there.
fn is_all_after(alloc: Global, reads: Plan, read: usize, fails: bool) -> bool {
    let mut source = ReadSource::new(LimitedReader {
        rest: &CAPTURE,
        plan: reads,
    });
    match read_all(alloc, &mut source) {
        Ok(bytes) => !fails && Some(bytes.as_slice()) == CAPTURE.get(..read),
        fault => fault.err() == run_result_after(read, fails).err(),
    }
}

/// The source fails or reports its end at each call in turn, and would continue after it.
#[test]
fn a_run_ends_with_its_source(rt: HostRuntime) {
    for size in 1..10usize {
        for calls in 0..65usize {
            for fails in [true, false] {
                let read = size.saturating_mul(calls).min(64);
                // The call after the last byte may be a later one, which reports the end.
                let fails_there = fails && size.saturating_mul(calls.saturating_sub(1)) < 64;
                let plan = Plan { size, calls, fails };
                let expected = run_result_after(read, fails_there);
                assert!(rt;
                    is_run_after(rt.alloc(), plan, read, expected),
                    "{calls} reads of {size} bytes"
                );
                assert!(rt;
                    is_all_after(rt.alloc(), plan, read, fails_there),
                    "all of {calls} reads of {size} bytes"
                );
            }
        }
    }
}

/// The sink fails or takes nothing at each call in turn, and would continue after it.
#[test]
fn a_run_ends_with_its_sink(rt: HostRuntime) {
    for size in 1..10usize {
        for calls in 0..69usize {
            for fails in [true, false] {
                let taken = size.saturating_mul(calls).min(68);
                let outcome = if taken < 68 {
                    Err(CaptureFault {
                        kind: FaultKind::Write,
                        offset: taken as u64,
                    })
                } else {
                    Ok(())
                };
                let plan = Plan { size, calls, fails };
                let run = norm_between(rt.alloc(), &CAPTURE, Plan::steady(100), plan);
                assert!(rt;
                    run.outcome == outcome && run.taken.as_slice() == &TEXT[..taken],
                    "{calls} writes of {size} bytes"
                );
            }
        }
    }
}

/// More bytes than a piece has, and more calls than a device might count: a megabyte byte by byte,
/// and all of it at once.
#[test]
fn large_captures_are_read_and_written(rt: HostRuntime) -> Result<(), Fail> {
    let capture = vec![in rt.alloc(); 0u8; 1_000_100]?;
    let mut source = ReadSource::new(LimitedReader {
        rest: capture.as_slice(),
        plan: Plan::steady(1),
    });
    assert!(rt; read_all(rt.alloc(), &mut source) == Ok(capture.clone()?));
    let mut taken = Vec::new(rt.alloc());
    let written = write_all(&mut WriteSink::new(&mut taken), capture.as_slice(), 0);
    assert!(rt; written == Ok(1_000_100) && taken == capture);
    Ok(())
}
