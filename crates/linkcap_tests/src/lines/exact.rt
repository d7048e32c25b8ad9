//! Values of raw attributes: each kind of value, of payloads that it determines and of others. The
//! expected texts come from an independent implementation.

use crate::cases::split;
use link_lines_values::route_layouts::{GNET_STATS_BASIC, RTA_MFC_STATS};
use link_lines_values::{Exact, ExactBy, PLAIN, STATE, ShownBy, push_raw_value};
use std::test::Fail;

/// How a payload is shown; and the payload in hex, a colon, and its text.
const CASES: [(Exact, &str); 42] = [
    // Numbers of a given size.
    (ExactBy::Number(2), "0102: 513"),
    (ExactBy::Number(2), "05: bytes 05"),
    (ExactBy::Number(4), "70110100: 70000"),
    (ExactBy::Number(4), ": bytes"),
    (ExactBy::Sized(1, ShownBy::Number(STATE)), "06: 6 (UP)"),
    (
        ExactBy::Sized(1, ShownBy::Number(STATE)),
        "0600: bytes 0600",
    ),
    (ExactBy::Sized(2, ShownBy::BigEndian(PLAIN)), "0102: 258"),
    (
        ExactBy::Sized(2, ShownBy::BigEndian(PLAIN)),
        "01020304: bytes 01020304",
    ),
    // Numbers of four or eight bytes, and lists of numbers.
    (ExactBy::Uint, "07000000: 7"),
    (ExactBy::Uint, "0000000001000000: 4294967296"),
    (ExactBy::Uint, "0700000000000000: bytes 0700000000000000"),
    (ExactBy::Uint, "07: bytes 07"),
    (ExactBy::Numbers(2), "01000201: 1 258"),
    (ExactBy::Numbers(2), ":"),
    (ExactBy::Numbers(2), "010002: bytes 010002"),
    // Bytes, hardware addresses and texts.
    (ExactBy::Bytes, "000aff: 000aff"),
    (ExactBy::Bytes, ":"),
    (ExactBy::HardwareAddress, "0200ab: 02:00:ab"),
    (ExactBy::Text, "6574683000: \"eth0\""),
    (ExactBy::Text, "610000: \"a\\x00\""),
    (ExactBy::Text, "65746830: bytes 65746830"),
    (ExactBy::Text, ": bytes"),
    // Addresses, identifiers of bridges, and addresses after a family.
    (ExactBy::Address, "c0000201: 192.0.2.1"),
    (
        ExactBy::Address,
        "20010db8000000000000000000000001: 2001:db8::1",
    ),
    (ExactBy::Address, "c00002: bytes c00002"),
    (ExactBy::BridgeId, "80003e4f7d5bd0f4: 8000.3e4f7d5bd0f4"),
    (ExactBy::BridgeId, "8000: bytes 8000"),
    (
        ExactBy::Via,
        "0200c0000201: family=2 (AF_INET) addr=192.0.2.1",
    ),
    (
        ExactBy::Via,
        "0a0020010db8000000000000000000000001: family=10 (AF_INET6) addr=2001:db8::1",
    ),
    (ExactBy::Via, "0201c0000201: bytes 0201c0000201"),
    (ExactBy::Via, "0a00c0000201: bytes 0a00c0000201"),
    // Stacks of labels.
    (ExactBy::Labels, "00064100: 100 tc 0 s 1 ttl 0"),
    (
        ExactBy::Labels,
        "00064040000c8b07: 100 tc 0 s 0 ttl 64 / 200 tc 5 s 1 ttl 7",
    ),
    (ExactBy::Labels, "000641: bytes 000641"),
    (ExactBy::Labels, ": bytes"),
    // Records and counters.
    (
        ExactBy::Record(GNET_STATS_BASIC),
        "05000000000000000200000000000000: bytes=5 packets=2",
    ),
    (
        ExactBy::Record(GNET_STATS_BASIC),
        "05000000000000000200000001000000: bytes=5 packets=2 padding=01000000",
    ),
    (
        ExactBy::Record(GNET_STATS_BASIC),
        "050000000000000002000000: bytes 050000000000000002000000",
    ),
    (
        ExactBy::Counters(RTA_MFC_STATS),
        "00000000000000000300000000000000: fields 2 bytes=3",
    ),
    (
        ExactBy::Counters(RTA_MFC_STATS),
        "0000000000000000030000000000000000000000000000000201000000000000: fields 4 bytes=3 3=258",
    ),
    (ExactBy::Counters(RTA_MFC_STATS), ": fields 0"),
    (ExactBy::Counters(RTA_MFC_STATS), "01000000: bytes 01000000"),
];

#[test]
fn values_are_shown(rt: HostRuntime) -> Result<(), Fail> {
    for (exact, case) in &CASES {
        let (payload, text) = split(rt.alloc(), case, ':')?;
        let mut out = Vec::new(rt.alloc());
        push_raw_value(*exact, &payload, &mut out)?;
        assert!(rt; out.as_slice() == text.as_bytes(), "{case}");
    }
    Ok(())
}
