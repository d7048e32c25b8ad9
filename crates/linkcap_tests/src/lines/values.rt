//! Values as text. The expected texts come from an independent implementation.

use crate::cases::split;
use link_lines_values::neighbour_texts::NETCONF_IFINDEX;
use link_lines_values::{
    ADDRESS_FAMILY, ETHERNET_PROTOCOL, ICMP6_STATS, LINK_FLAGS, LINK_LAYER_TYPE, MAC_VLAN_MODE,
    MAP, MESSAGE_CREATE_FLAGS, MESSAGE_FLAGS, MESSAGE_TYPE, PLAIN, STATE, Shown, ShownBy,
    VF_BROADCAST, VF_MAC, VF_SETTING, VF_VLAN, VF_VLAN_INFO, push_bytes, push_decimal, push_flags,
    push_four_digits, push_name, push_number, push_value,
};
use std::test::Fail;

/// How a payload is shown; and the payload in hex, a colon, and its text.
const CASES: [(Shown, &str); 53] = [
    // Numbers, with their names.
    (ShownBy::Number(STATE), "06: 6 (UP)"),
    (ShownBy::Number(STATE), "09: 9"),
    (ShownBy::Number(PLAIN), "0102: 513"),
    (ShownBy::Number(MAC_VLAN_MODE), "10000000: 16 (source)"),
    (
        ShownBy::Number(PLAIN),
        "feffffffffffffff: 18446744073709551614",
    ),
    (
        ShownBy::BigEndian(ETHERNET_PROTOCOL),
        "88a8: 34984 (802.1ad)",
    ),
    (ShownBy::BigEndian(PLAIN), "00000102: 258"),
    (ShownBy::BigEndian(PLAIN), "0000010000000003: 1099511627779"),
    (ShownBy::Signed(PLAIN), "efffffff: -17"),
    (ShownBy::Signed(NETCONF_IFINDEX), "ffffffff: -1 (all)"),
    (ShownBy::Number(PLAIN), "010203: 197121"),
    (ShownBy::Signed(PLAIN), "ffffff7f: 2147483647"),
    (ShownBy::Signed(PLAIN), "00000080: -2147483648"),
    // Flags and ranges.
    (ShownBy::Flags, "f0010000: 0x1f0"),
    (ShownBy::Flags, "00: 0x0"),
    (ShownBy::BigEndianFlags, "2001: 0x2001"),
    (ShownBy::Flags, "01efcdab: 0xabcdef01"),
    (ShownBy::Flags, "ffffffff: 0xffffffff (all)"),
    (
        ShownBy::FlagsAndMask(PLAIN),
        "01000000ff000000: 0x1 mask 0xff",
    ),
    (
        ShownBy::FlagsAndMask(LINK_FLAGS),
        "01000000ffffffff: 0x1 (Up) mask 0xffffffff (all)",
    ),
    (ShownBy::PortRange, "8000ee48: 32768 61000"),
    // Booleans and flags without a value.
    (ShownBy::Boolean, "00: off"),
    (ShownBy::Boolean, "00000200: on"),
    (ShownBy::Presence, "0102:"),
    (ShownBy::OptionalByte, ":"),
    (ShownBy::OptionalByte, "c8: 200"),
    // Texts and bytes.
    (ShownBy::Text, "6574683000: \"eth0\""),
    (ShownBy::Text, "00: \"\""),
    (
        ShownBy::Text,
        "6122625c63017fc3a400: \"a\\\"b\\\\c\\x01\\x7f\\xc3\\xa4\"",
    ),
    (ShownBy::Bytes, "000aff: 000aff"),
    (ShownBy::HardwareAddress, "020000abcdef: 02:00:00:ab:cd:ef"),
    (ShownBy::HardwareAddress, ":"),
    (ShownBy::Bytes, ":"),
    // Addresses, as Rust prints them.
    (ShownBy::Address, "c0000201: 192.0.2.1"),
    (
        ShownBy::Address,
        "20010db8000000000000000000000001: 2001:db8::1",
    ),
    (ShownBy::Address, "00000000000000000000000000000000: ::"),
    (
        ShownBy::Address,
        "00000000000000000000ffffc0000207: ::ffff:192.0.2.7",
    ),
    (
        ShownBy::Address,
        "00010000000000020000000000000003: 1:0:0:2::3",
    ),
    // Payloads of other sizes, as bytes.
    (ShownBy::Number(PLAIN), "01020f1011: 01020f1011"),
    (ShownBy::Signed(PLAIN), "01020f1011: 01020f1011"),
    (ShownBy::Flags, "01020f1011: 01020f1011"),
    (ShownBy::Address, "01020f1011: 01020f1011"),
    (ShownBy::PortRange, "01020f1011: 01020f1011"),
    (ShownBy::FlagsAndMask(PLAIN), "01020f1011: 01020f1011"),
    (ShownBy::OptionalByte, "01020f1011: 01020f1011"),
    (ShownBy::Record(VF_VLAN), "01020f1011: 01020f1011"),
    // Records, by their fields.
    (
        ShownBy::Record(VF_VLAN_INFO),
        "0100000007000000000000008100: vf=1 vlan=7 qos=0 vlan_proto=33024",
    ),
    (
        ShownBy::Record(VF_MAC),
        "030000000200000000000000000000000000000000000000000000000000000000000000: vf=3 mac=02:00:00:00:00:00",
    ),
    (
        ShownBy::Record(VF_BROADCAST),
        "ffffffffffff0007000000000000000000000000000000000000000000000000: broadcast=ff:ff:ff:ff:ff:ff:00:07",
    ),
    (
        ShownBy::Record(VF_SETTING),
        "0200000001000000: vf=2 setting=on",
    ),
    (
        ShownBy::Record(MAP),
        "00000000000100000000000000000000000000000000000002010506: mem_start=1099511627776 mem_end=0 base_addr=0 irq=258 dma=5 port=6",
    ),
    (
        ShownBy::SparseRecord(ICMP6_STATS),
        "0700000000000000000000000000000000000000000000002c0100000000000000000000000000000000\
            000000000000000000000000000000: Num=7 OutMsgs=300",
    ),
    (
        ShownBy::SparseRecord(ICMP6_STATS),
        "0000000000000000000000000000000000000000000000000000000000000000000000000000000000000000000000000000000000000000:",
    ),
];

#[test]
fn values_are_shown(rt: HostRuntime) -> Result<(), Fail> {
    for (shown, case) in &CASES {
        let (payload, text) = split(rt.alloc(), case, ':')?;
        let mut out = Vec::new(rt.alloc());
        push_value(*shown, &payload, &mut out)?;
        assert!(rt; out.as_slice() == text.as_bytes(), "{case}");
    }
    Ok(())
}

#[test]
fn flags_of_headers_have_names(rt: HostRuntime) -> Result<(), Fail> {
    for (table, flags, text) in [
        (LINK_FLAGS, 0x1003, "0x1003 (Up | Broadcast | Multicast)"),
        (LINK_FLAGS, 0x80000001, "0x80000001 (Up | 0x80000000)"),
        (LINK_FLAGS, 0x80000000, "0x80000000"),
        (MESSAGE_CREATE_FLAGS, 0x602, "0x602 (MULTI | EXCL | CREATE)"),
        (PLAIN, 0x3, "0x3"),
        (MESSAGE_FLAGS, 0x0, "0x0"),
    ] {
        let mut out = Vec::new(rt.alloc());
        push_flags(table.texts(), flags, &mut out)?;
        assert!(rt; out.as_slice() == text.as_bytes());
    }
    Ok(())
}

#[test]
fn numbers_of_headers_have_names(rt: HostRuntime) -> Result<(), Fail> {
    for (table, number, text) in [
        (ADDRESS_FAMILY, 10, "10 (AF_INET6)"),
        (LINK_LAYER_TYPE, 65534, "65534 (none)"),
        (PLAIN, 0, "0"),
    ] {
        let mut out = Vec::new(rt.alloc());
        push_number(table.texts(), number, &mut out)?;
        assert!(rt; out.as_slice() == text.as_bytes());
    }
    Ok(())
}

#[test]
fn names_bytes_and_numbers_are_appended(rt: HostRuntime) -> Result<(), Fail> {
    let mut out = Vec::new(rt.alloc());
    push_name(MESSAGE_TYPE.texts(), 77, &mut out)?;
    push_name(MESSAGE_TYPE.texts(), 16, &mut out)?;
    push_four_digits(0xc046, &mut out)?;
    push_decimal(4096, &mut out)?;
    push_bytes(&[10, 191], &mut out)?;
    push_bytes(&[], &mut out)?;
    assert!(rt; out.as_slice() == "RTM_NEWLINK0xc0464096 0abf".as_bytes());
    Ok(())
}
