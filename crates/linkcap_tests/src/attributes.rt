//! The attributes of a message with their contexts.

use link_capture::{AttributeAt, attribute_from};
use netlink_packet_core::NetlinkBuffer;
use std::test::Fail;

/// RTM_NEWLINK, with each byte as rtnetlink.h and if_link.h have it.
const VXLAN: [u8; 68] = [
    68, 0, 0, 0, 16, 0, 0, 0, 0, 0, 0, 0, 0, 0, 0, 0,
    // ifinfomsg
    0, 0, 0, 0, 0, 0, 0, 0, 0, 0, 0, 0, 0, 0, 0, 0,
    // IFLA_LINKINFO with the nested bit, and in it IFLA_INFO_KIND
    36, 0, 18, 128, 10, 0, 1, 0, b'v', b'x', b'l', b'a', b'n', 0, 0, 0,
    // IFLA_INFO_DATA, and in it IFLA_VXLAN_ID and an attribute of the type 0x3fff in network byte order
    20, 0, 2, 128, 8, 0, 1, 0, 10, 0, 0, 0, 8, 0, 255, 127, 1, 2, 3, 4,
];

/// What is expected of an attribute: its offset, type with flag bits, payload, depth, name, and whether `vxlan` is in force.
type Expected<'a> = (u64, u16, &'a [u8], u32, Option<&'static str>, bool);

fn is_expected(found: AttributeAt<'_>, expected: Expected<'_>) -> bool {
    let (offset, kind, payload, depth, name, is_of_vxlan) = expected;
    let link_kind: Option<&[u8]> = if is_of_vxlan { Some(b"vxlan") } else { None };
    found.offset == offset
        && found.attribute.kind == kind
        && found.attribute.payload == payload
        && found.depth == depth
        && found.name == name
        && found.link_kind == link_kind
}

/// Attributes at all depths, each before those in it.
#[test]
fn attributes_of_a_vxlan(rt: HostRuntime) -> Result<(), Fail> {
    let info = &VXLAN[36..];
    let data = &VXLAN[52..];
    let all: [Expected<'_>; 5] = [
        (32, 0x8012, info, 0, Some("IFLA_LINKINFO"), false),
        (36, 1, b"vxlan\0", 1, Some("IFLA_INFO_KIND"), false),
        (48, 0x8002, data, 1, Some("IFLA_INFO_DATA"), true),
        (52, 1, &[10, 0, 0, 0], 2, Some("IFLA_VXLAN_ID"), true),
        (60, 0x7fff, &[1, 2, 3, 4], 2, None, true),
    ];
    if NetlinkBuffer::new_checked(&VXLAN[..]).is_err() {
        return Err(Fail::from("no message"));
    }
    let mut position = 0;
    for expected in all {
        let Some(found) = attribute_from(&VXLAN, 0, position) else {
            return Err(Fail::from("an attribute is missing"));
        };
        assert!(rt; is_expected(found, expected));
        position = expected.0 + 4;
    }
    assert!(rt; attribute_from(&VXLAN, 0, position).is_none());
    Ok(())
}
