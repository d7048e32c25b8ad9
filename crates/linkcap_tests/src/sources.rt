//! Sources that are read to their ends, of which nothing is kept or judged.

use super::devices::{LimitedReader, Plan};
use super::fault_texts::shown;
use super::runs::{SHORT, TEXT};
use link_capture::{ReadSource, read_to_end};
use std::test::Fail;

/// The size of reads, how many there are before one that reads nothing, and whether that one fails.
type Reads = (usize, usize, bool);

/// Bytes, how they are read, the result, and how many bytes are left.
const CASES: [(&str, &[u8], Reads, &str, usize); 7] = [
    ("no bytes", b"", (7, 100, false), "ok", 0),
    ("bytes in pieces", &TEXT, (7, 100, false), "ok", 0),
    (
        "a capture that isn't legal",
        &SHORT,
        (7, 100, false),
        "ok",
        0,
    ),
    (
        "a failed read",
        &TEXT,
        (20, 3, true),
        "read failed at 60",
        8,
    ),
    (
        "a read that fails at once",
        &TEXT,
        (20, 0, true),
        "read failed at 0",
        68,
    ),
    (
        "a read that fails in place of the end",
        &SHORT,
        (16, 2, true),
        "read failed at 32",
        0,
    ),
    (
        "no read after the end is reported",
        &TEXT,
        (20, 3, false),
        "ok",
        8,
    ),
];

#[test]
fn sources_are_read_to_their_ends(rt: HostRuntime) -> Result<(), Fail> {
    for (name, bytes, (size, calls, fails), expected, left) in &CASES {
        let plan = Plan {
            size: *size,
            calls: *calls,
            fails: *fails,
        };
        let mut reader = LimitedReader { rest: bytes, plan };
        let outcome = read_to_end(&mut ReadSource::new(&mut reader));
        let text = shown(rt.alloc(), &outcome)?;
        assert!(rt;
            text.as_str() == *expected && reader.rest.len() == *left,
            "{name}"
        );
    }
    Ok(())
}
