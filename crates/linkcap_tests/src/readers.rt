//! Captures that come in pieces: what is written for each piece, and how many bytes are kept.

use super::cases::bytes_of;
use super::fault_texts::shown;
use hex::encode;
use link_capture::CaptureReader;
use std::test::Fail;

/// A piece in hex, the result of feeding it, and how many bytes are written and kept then.
type Step = (&'static str, &'static str, usize, usize);

/// The pieces of a capture under the limit 1000, the text that is written for them, and the result
/// of `finish`.
const CASES: [(&str, &[Step], &str, &str); 4] = [
    (
        "a text is whole with its frame, and padding that comes later adds nothing",
        &[
            ("1100000014000000000000000000000061", "ok", 20, 0),
            ("ffffff", "ok", 20, 0),
        ],
        "1100000014000000000000000000000061000000",
        "ok",
    ),
    (
        "a short rest is judged at the end",
        &[("3000000012000103", "ok", 0, 8)],
        "",
        "cut frame at 0",
    ),
    (
        "after a fault each call fails",
        &[
            (
                "e9030000140000000000000000000000",
                "frame over the limit at 0",
                0,
                0,
            ),
            (
                "3000000012000103340ef95a000000000000000000000000000000000000000008001d00\
                09000000070003006c6f0000",
                "failed before at 0",
                0,
                0,
            ),
        ],
        "",
        "failed before at 0",
    ),
    (
        "only the bytes of a cut frame are kept",
        &[
            (
                "3000000012000103340ef95a000000000000000000000000000000000000",
                "ok",
                0,
                30,
            ),
            ("000008001d0009000000070003006c6f0000", "ok", 48, 0),
            ("3000000012", "ok", 48, 5),
        ],
        "3000000012000103340ef95a000000000000000000000000000000000000000008001d0009000000\
            070003006c6f0000",
        "cut frame at 48",
    ),
];

#[test]
fn pieces_are_read(rt: HostRuntime) -> Result<(), Fail> {
    for (name, steps, text, end) in &CASES {
        let mut reader = CaptureReader::new(rt.alloc(), 1000);
        let mut out = Vec::new(rt.alloc());
        for (piece, expected, written, kept) in *steps {
            let piece = bytes_of(rt.alloc(), piece)?;
            let fed = shown(rt.alloc(), &reader.feed(piece.as_slice(), &mut out))?;
            assert!(rt;
                fed.as_str() == *expected && (out.len(), reader.kept()) == (*written, *kept),
                "{name}"
            );
        }
        let written = encode(rt.alloc(), out.as_slice())?;
        let finished = shown(rt.alloc(), &reader.finish())?;
        assert!(rt;
            written.as_str() == *text && finished.as_str() == *end,
            "{name}"
        );
    }
    Ok(())
}
