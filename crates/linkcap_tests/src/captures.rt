//! Captures and the results of normalising them.

use super::cases::bytes_of;
use super::devices::{LimitedReader, Plan};
use hex::encode;
use link_capture::{
    CaptureFault, Measure, ReadSource, VecSink, clear_numbers, measure, normalize, normalize_bytes,
    same,
};
use std::alloc::Global;
use std::test::Fail;

/// Returns texts in hex, followed by the display of the fault, if there is one.
fn shown(alloc: Global, texts: &[u8], outcome: Result<(), CaptureFault>) -> Result<String, Fail> {
    let mut text = encode(alloc, texts)?;
    if let Err(fault) = outcome {
        text.push_str(format!(in alloc; " {fault}")?.as_str())?;
    }
    Ok(text)
}

/// Returns the result for a capture.
fn normalized(alloc: Global, capture: &[u8], limit: u32) -> Result<String, Fail> {
    let mut out = Vec::new(alloc);
    let outcome = normalize_bytes(capture, limit.max(16), &mut out);
    shown(alloc, out.as_slice(), outcome)
}

/// Returns the result for a capture that is read in pieces of this size.
fn normalized_in_pieces(
    alloc: Global,
    capture: &[u8],
    limit: u32,
    size: usize,
) -> Result<String, Fail> {
    let plan = Plan::steady(size);
    let mut source = ReadSource::new(LimitedReader {
        rest: capture,
        plan,
    });
    let mut sink = VecSink::new(alloc);
    let outcome = normalize(alloc, &mut source, &mut sink, limit.max(16));
    shown(alloc, sink.bytes(), outcome)
}

/// A request for the link `lo`, which is already canonical.
const REQUEST: &str =
    "3000000012000103340ef95a000000000000000000000000000000000000000008001d0009000000\
    070003006c6f0000";

/// A veth whose peer has the name `lo` without a NUL, and its normal text.
const VETH: &str =
    "4e000000100000000000000000000000000000000000000000000000000000002e00120009000100\
    76657468000000001e0002001a00010000000000000000000000000000000000060003006c6f";

const VETH_TEXT: &str =
    "50000000100000000000000000000000000000000000000000000000000000003000120009000100\
    7665746800000000200002001c00010000000000000000000000000000000000070003006c6f0000";

/// A veth whose peer is a veth, whose peer has 15 bytes; and its normal text.
const VETH_TWICE: &str =
    "6f000000100000000000000000000000000000000000000000000000000000004f00120009000100\
    76657468000000003f0002003b000100000000000000000000000000000000002700120009000100\
    76657468000000001700020013000100000000000000000000000000000000";

const VETH_TWICE_TEXT: &str =
    "70000000100000000000000000000000000000000000000000000000000000005000120009000100\
    7665746800000000400002003c000100000000000000000000000000000000002800120009000100\
    7665746800000000180002001300010000000000000000000000000000000000";

/// Cases worked out by hand: a capture in hex, its limit, and the expected result.
const WORKED: [(&str, &str, u32, &str); 18] = [
    ("no bytes are legal and have no text", "", 1000, ""),
    (
        "a canonical request is its own normal text",
        REQUEST,
        1000,
        REQUEST,
    ),
    (
        "flag bits and padding of a name are renewed",
        "3000000012000103340ef95a000000000000000000000000000000000000000008001d0009000000\
        070003806c6f00ff",
        1000,
        REQUEST,
    ),
    (
        "the last padding may be missing",
        "2e00000012000103340ef95a000000000000000000000000000000000000000008001d0009000000060003006c6f",
        1000,
        REQUEST,
    ),
    (
        "the body of a noop is dropped",
        "14000000010000000100000000000000aabbccdd",
        1000,
        "10000000010000000100000000000000",
    ),
    (
        "an empty done gains its code and a short length stops",
        "1000000003000200010000000000000008000000030000000000000000000000",
        1000,
        "1400000003000200010000000000000000000000 length under 16 at 16",
    ),
    (
        "a text may be over the limit where its frame is not",
        "10000000030002000100000000000000",
        16,
        " normal text over the limit at 0",
    ),
    (
        "a header over the limit is not cut",
        "e9030000140000000000000000000000",
        1000,
        " frame over the limit at 0",
    ),
    (
        "a cut frame has no text",
        "3000000012000103340ef95a000000000000000000000000000000000000",
        1000,
        " cut frame at 0",
    ),
    (
        "an unknown type is kept and padded",
        "1100000014000000000000000000000061",
        1000,
        "1100000014000000000000000000000061000000",
    ),
    (
        "a raw kind keeps both flag bits",
        "2800000010000000000000000000000000000000000000000000000000000000050046c001000000",
        1000,
        "2800000010000000000000000000000000000000000000000000000000000000050046c001000000",
    ),
    (
        "the second byte and an unnamed layer type are renewed",
        "2000000010000000000000000000000000050900000000000000000000000000",
        1000,
        "200000001000000000000000000000000000ffff000000000000000000000000",
    ),
    (
        "a done body of two bytes is refused",
        "120000000300000000000000000000000000",
        1000,
        " refused body at 0",
    ),
    ("a peer is written as a link is", VETH, 1000, VETH_TEXT),
    (
        "a peer inside a peer is kept as bytes",
        VETH_TWICE,
        1000,
        VETH_TWICE_TEXT,
    ),
    (
        "a peer of 15 bytes is refused",
        "47000000100000000000000000000000000000000000000000000000000000002700120009000100\
        76657468000000001700020013000100000000000000000000000000000000",
        1000,
        " refused body at 0",
    ),
    (
        "a peer with a list of ports that has no port is refused",
        "50000000100000000000000000000000000000000000000000000000000000003000120009000100\
        7665746800000000200002001c000100000000000000000000000000000000000800180004000700",
        1000,
        " refused body at 0",
    ),
    (
        "two frames are written one after the other",
        "3000000012000103340ef95a000000000000000000000000000000000000000008001d0009000000\
        070003006c6f00003000000012000103340ef95a0000000000000000000000000000000000000000\
        08001d0009000000070003006c6f0000",
        1000,
        "3000000012000103340ef95a000000000000000000000000000000000000000008001d0009000000\
        070003006c6f00003000000012000103340ef95a0000000000000000000000000000000000000000\
        08001d0009000000070003006c6f0000",
    ),
];

#[test]
fn worked_captures(rt: HostRuntime) -> Result<(), Fail> {
    for (name, capture, limit, expected) in &WORKED {
        let capture = bytes_of(rt.alloc(), capture)?;
        let text = normalized(rt.alloc(), &capture, *limit)?;
        assert!(rt; text.as_str() == *expected, "{name}");
        for size in [1, 7, 100, 65536] {
            let text = normalized_in_pieces(rt.alloc(), &capture, *limit, size)?;
            assert!(rt; text.as_str() == *expected, "{name} in pieces of {size}");
        }
    }
    Ok(())
}

/// The attributes of a peer are counted, and a capture and its normal text mean the same.
#[test]
fn peers_are_measured_and_compared(rt: HostRuntime) -> Result<(), Fail> {
    for (capture, text, attributes, text_len) in [
        (VETH, VETH_TEXT, 5, 80),
        (VETH_TWICE, VETH_TWICE_TEXT, 8, 112),
    ] {
        let capture = bytes_of(rt.alloc(), capture)?;
        let text = bytes_of(rt.alloc(), text)?;
        let expected = Measure {
            frames: 1,
            attributes,
            text_len,
        };
        assert!(rt; measure(capture.as_slice(), 1000) == Ok(expected));
        assert!(rt; same(capture.as_slice(), text.as_slice(), 1000) == Ok(true));
    }
    Ok(())
}

/// Two messages, with each byte as netlink.h has it.
#[test]
fn numbers_are_zero_in_every_message(rt: HostRuntime) -> Result<(), Fail> {
    let mut capture = [
        // length 16, type 18, flags 0x301, sequence number 1526271540, port number 7
        16, 0, 0, 0, 18, 0, 1, 3, 52, 14, 249, 90, 7, 0, 0, 0,
        // length 36, type 2 (NLMSG_ERROR), no flags, sequence number 7, port number 9, code -17
        36, 0, 0, 0, 2, 0, 0, 0, 7, 0, 0, 0, 9, 0, 0, 0, 239, 255, 255, 255,
        // the request's header: length 16, type 18, flags 5, sequence number 8, port number 10
        16, 0, 0, 0, 18, 0, 5, 0, 8, 0, 0, 0, 10, 0, 0, 0,
    ];
    clear_numbers(&mut capture);
    let expected = [
        16, 0, 0, 0, 18, 0, 1, 3, 0, 0, 0, 0, 0, 0, 0, 0, 36, 0, 0, 0, 2, 0, 0, 0, 0, 0, 0, 0, 0,
        0, 0, 0, 239, 255, 255, 255, 16, 0, 0, 0, 18, 0, 5, 0, 0, 0, 0, 0, 0, 0, 0, 0,
    ];
    assert!(rt; capture == expected);
    Ok(())
}
