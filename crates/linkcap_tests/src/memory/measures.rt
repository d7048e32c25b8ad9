//! Measures and comparisons: none allocates, so they return the same with each allocation refused.

use super::requests::report;
use link_capture::{CaptureFault, FaultKind, Measure, check, measure, normal_len, same};
use std::test::Fail;

/// Captures that are legal under a limit of 1000, each with its number of frames, of attributes,
/// and of bytes of its normal text.
const LEGAL: [(&[u8], [u64; 3]); 12] = [
    // No bytes.
    (b"", [0, 0, 0]),
    // A request for the link `lo`.
    (
        b"0\0\0\0\x12\0\x01\x034\x0e\xf9Z\0\0\0\0\0\0\0\0\0\0\0\0\0\0\0\0\0\0\0\0\x08\0\
        \x1d\0\x09\0\0\0\x07\0\x03\0lo\0\0",
        [1, 2, 48],
    ),
    // A list of virtual functions with another attribute inside, which is dropped.
    (
        b",\0\0\0\x10\0\0\0\0\0\0\0\0\0\0\0\0\0\0\0\0\0\0\0\0\0\0\0\0\0\0\0\x0c\0\x16\0\
        \x04\0\x05\0\x04\0\x01\0",
        [1, 3, 40],
    ),
    // A NOOP with a body, which its text leaves out.
    (
        b"\x14\0\0\0\x01\0\0\0\x01\0\0\0\0\0\0\0\xaa\xbb\xcc\xdd",
        [1, 0, 16],
    ),
    // A message of another type.
    (b"\x11\0\0\0\x14\0\0\0\0\0\0\0\0\0\0\0a", [1, 0, 20]),
    // Bits that no header keeps, and link info without padding.
    (
        b"8\0\0\0\x10\0\0\0\0\0\0\0\0\0\0\0\0\0\xfe\xff\x10\0\0\0\x90\x10\0\0\0\0\0\0\x0a\
        \0\x03\0pfcp0\0\0\0\x0c\0\x12\0\x08\0\x01\0pfcp",
        [1, 3, 60],
    ),
    // Settings of IPv6 that are absent are written whole.
    (
        b",\0\0\0\x10\0\0\0\0\0\0\0\0\0\0\0\0\0\0\0\0\0\0\0\0\0\0\0\0\0\0\0\x0c\0\x1a\0\
        \x08\0\x0a\0\x04\0\x03\0",
        [1, 3, 348],
    ),
    // A VXLAN whose name has no NUL.
    (
        b"D\0\0\0\x10\0\0\0\0\0\0\0\0\0\0\0\0\0\0\0\0\0\0\0\0\0\0\0\0\0\0\0$\0\x12\0\x0a\0\
        \x01\0vxlan\0\0\0\x14\0\x02\0\x05\0\x07\0\x05\0\0\0\x05\0\x17\0\xaa\0\0\0",
        [1, 5, 64],
    ),
    // A veth whose data continue after the first attribute.
    (
        b"@\0\0\0\x10\0\0\0\0\0\0\0\0\0\0\0\0\0\0\0\0\0\0\0\0\0\0\0\0\0\0\0 \0\x12\0\x09\0\
        \x01\0veth\0\0\0\0\x0d\0\x02\0\x05\0\x02\0a\0\0\0\xff\0\0\0",
        [1, 4, 60],
    ),
    // A veth whose peer has the name `lo` without a NUL.
    (
        b"N\0\0\0\x10\0\0\0\0\0\0\0\0\0\0\0\0\0\0\0\0\0\0\0\0\0\0\0\0\0\0\0.\0\x12\0\x09\0\
        \x01\0veth\0\0\0\0\x1e\0\x02\0\x1a\0\x01\0\0\0\0\0\0\0\0\0\0\0\0\0\0\0\0\0\x06\0\
        \x03\0lo",
        [1, 5, 80],
    ),
    // A veth whose peer is a veth, whose peer has 15 bytes.
    (
        b"o\0\0\0\x10\0\0\0\0\0\0\0\0\0\0\0\0\0\0\0\0\0\0\0\0\0\0\0\0\0\0\0O\0\x12\0\x09\0\
        \x01\0veth\0\0\0\0?\0\x02\0;\0\x01\0\0\0\0\0\0\0\0\0\0\0\0\0\0\0\0\0'\0\x12\0\x09\
        \0\x01\0veth\0\0\0\0\x17\0\x02\0\x13\0\x01\0\0\0\0\0\0\0\0\0\0\0\0\0\0\0\0",
        [1, 8, 112],
    ),
    // Two requests.
    (
        b"0\0\0\0\x12\0\x01\x034\x0e\xf9Z\0\0\0\0\0\0\0\0\0\0\0\0\0\0\0\0\0\0\0\0\x08\0\
        \x1d\0\x09\0\0\0\x07\0\x03\0lo\0\00\0\0\0\x12\0\x01\x034\x0e\xf9Z\0\0\0\0\0\0\0\
        \0\0\0\0\0\0\0\0\0\0\0\0\0\x08\0\x1d\0\x09\0\0\0\x07\0\x03\0lo\0\0",
        [2, 4, 96],
    ),
];

/// Captures with a fault, each with its kind and offset.
const CAPTURES_WITH_A_FAULT: [(&[u8], FaultKind, u64); 3] = [
    // A DONE without a code, followed by a frame whose header has the length 8.
    (
        b"\x10\0\0\0\x03\0\x02\0\x01\0\0\0\0\0\0\0\x08\0\0\0\x03\0\0\0\0\0\0\0\0\0\0\0",
        FaultKind::ShortLength,
        16,
    ),
    // A veth whose peer has 15 bytes.
    (
        b"G\0\0\0\x10\0\0\0\0\0\0\0\0\0\0\0\0\0\0\0\0\0\0\0\0\0\0\0\0\0\0\0'\0\x12\0\x09\0\
        \x01\0veth\0\0\0\0\x17\0\x02\0\x13\0\x01\0\0\0\0\0\0\0\0\0\0\0\0\0\0\0\0",
        FaultKind::Refused,
        0,
    ),
    // A veth whose peer has ports without an entry.
    (
        b"P\0\0\0\x10\0\0\0\0\0\0\0\0\0\0\0\0\0\0\0\0\0\0\0\0\0\0\0\0\0\0\00\0\x12\0\x09\0\
        \x01\0veth\0\0\0\0 \0\x02\0\x1c\0\x01\0\0\0\0\0\0\0\0\0\0\0\0\0\0\0\0\0\x08\0\x18\
        \0\x04\0\x07\0",
        FaultKind::Refused,
        0,
    ),
];

/// The bytes before the settings: the header of a message of 888 bytes, its link header,
/// IFLA_AF_SPEC, and the family 10 in it.
const SETTINGS_PREFIX: [u8; 40] =
    *b"x\x03\0\0\x10\0\0\0\0\0\0\0\0\0\0\0\0\0\0\0\0\0\0\0\0\0\0\0\0\0\0\0X\x03\x1a\0T\x03\x0a\0";

/// The same bytes for a message of 880 bytes.
const SHORTER_SETTINGS_PREFIX: [u8; 40] =
    *b"p\x03\0\0\x10\0\0\0\0\0\0\0\0\0\0\0\0\0\0\0\0\0\0\0\0\0\0\0\0\0\0\0P\x03\x1a\0L\x03\x0a\0";

/// Returns these bytes, followed by 212 settings of IPv6 that are absent.
fn absent_settings(prefix: &[u8; 40]) -> [u8; 888] {
    let mut bytes = [0u8; 888];
    bytes[..40].copy_from_slice(prefix);
    let mut place = 0u8;
    for byte in bytes[40..].iter_mut() {
        *byte = match place {
            0 => 4,
            2 => 3,
            _ => 0,
        };
        place = place.wrapping_add(1) % 4;
    }
    bytes
}

/// Returns whether a capture has these numbers under a limit, is legal, and means the same as
/// itself.
fn is_measured(capture: &[u8], limit: u32, [frames, attributes, size]: [u64; 3]) -> bool {
    let expected = Measure {
        frames,
        attributes,
        text_len: size as u128,
    };
    measure(capture, limit) == Ok(expected)
        && check(capture, limit) == Ok(())
        && normal_len(capture, limit) == Ok(expected.text_len)
        && same(capture, capture, limit) == Ok(true)
}

/// Captures are counted, or refused with their first fault.
#[test]
fn captures_are_measured(rt: HostRuntime) -> Result<(), Fail> {
    for (capture, numbers) in LEGAL {
        assert!(rt; is_measured(capture, 1000, numbers));
    }
    assert!(rt;
        is_measured(
            &absent_settings(&SETTINGS_PREFIX),
            1_000_000,
            [1, 214, 65336]
        )
    );
    let shorter = absent_settings(&SHORTER_SETTINGS_PREFIX);
    let Some(shorter) = shorter.get(..880) else {
        return Err(Fail::from("fewer than 880 bytes"));
    };
    assert!(rt; is_measured(shorter, 65559, [1, 212, 64720]));
    for (capture, kind, offset) in CAPTURES_WITH_A_FAULT {
        assert!(rt; measure(capture, 1000) == Err(CaptureFault { kind, offset }));
    }
    report(&rt, rt.alloc(), "measure", "as ever")?;
    Ok(())
}
