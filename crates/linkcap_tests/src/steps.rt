//! Two captures that are compared as they are read: in pieces of any sizes, and when a source fails
//! after a fault of the other.

use super::devices::{LimitedReader, Plan};
use super::runs::{BEGUN, CAPTURE, REQUEST, SHORT, TEXT};
use link_capture::{ReadSource, SideFault, same_sources};
use std::alloc::Global;
use std::test::Fail;

/// A capture, and after how many bytes reading it fails, if it does.
type Read = (&'static [u8], Option<usize>);

/// Two captures, and the result of comparing them.
const CASES: [(&str, Read, Read, &str); 11] = [
    ("a text", (&CAPTURE, None), (&TEXT, None), "same"),
    (
        "a second frame",
        (&TEXT, None),
        (&REQUEST, None),
        "different",
    ),
    ("no frame", (b"", None), (&REQUEST, None), "different"),
    (
        "a fault after a difference",
        (&REQUEST, None),
        (&SHORT, None),
        "second: length under 16 at 16",
    ),
    (
        "a fault of the first after a difference and a fault of the second",
        (&BEGUN, None),
        (&SHORT, None),
        "first: cut frame at 48",
    ),
    (
        "a cut frame",
        (&TEXT, None),
        (&BEGUN, None),
        "second: cut frame at 48",
    ),
    (
        "a failed read of the first after a fault of the second",
        (&TEXT, Some(60)),
        (&SHORT, None),
        "first: read failed at 60",
    ),
    (
        "a failed read of the second after a fault of the first",
        (&SHORT, None),
        (&TEXT, Some(60)),
        "second: read failed at 60",
    ),
    (
        "a failed read of the first after its fault",
        (&SHORT, Some(32)),
        (&TEXT, None),
        "first: read failed at 32",
    ),
    (
        "a failed read of the first after one of the second",
        (&TEXT, Some(60)),
        (&TEXT, Some(4)),
        "first: read failed at 60",
    ),
    (
        "a failed read of the second after a difference",
        (&REQUEST, None),
        (&SHORT, Some(20)),
        "second: read failed at 20",
    ),
];

/// Returns a source that reads at most `size` bytes at each call.
fn source_of((bytes, fails): Read, size: usize) -> ReadSource<LimitedReader<'static>> {
    let rest = match fails {
        Some(end) => &bytes[..end.min(bytes.len())],
        None => bytes,
    };
    let plan = Plan {
        size,
        calls: rest.len() / size.max(1) + (rest.len() % size.max(1)).min(1),
        fails: fails.is_some(),
    };
    ReadSource::new(LimitedReader { rest, plan })
}

fn shown(alloc: Global, outcome: Result<bool, SideFault>) -> Result<String, Fail> {
    Ok(match outcome {
        Ok(true) => "same".to_string(alloc)?,
        Ok(false) => "different".to_string(alloc)?,
        Err(fault) => format!(in alloc; "{fault}")?,
    })
}

#[test]
fn captures_are_compared_in_step(rt: HostRuntime) -> Result<(), Fail> {
    for (name, first, second, expected) in &CASES {
        for (left_size, right_size) in [(1000usize, 1000usize), (1, 7), (20, 3)] {
            let mut left = source_of(*first, left_size);
            let mut right = source_of(*second, right_size);
            let outcome = same_sources(rt.alloc(), &mut left, &mut right, 1000);
            let text = shown(rt.alloc(), outcome)?;
            assert!(rt; text.as_str() == *expected, "{name}");
        }
    }
    Ok(())
}
