//! Bodies of link messages, measured and compared on their bytes.

use link_message::{BodyMeasure, LINK_HEADER_LEN, check, same, write_canonical};
use std::alloc::Global;
use std::test::Fail;

// A VXLAN whose learning is switched on by the byte 5, and whose group policy flag has a byte.
const VXLAN: &[u8] = b"\x24\0\x12\0\x0a\0\x01\0vxlan\0\0\0\
    \x14\0\x02\0\x05\0\x07\0\x05\0\0\0\x05\0\x17\0\xaa\0\0\0";

// The canonical text of the VXLAN.
const VXLAN_TEXT: &[u8] = b"\x20\0\x12\0\x0a\0\x01\0vxlan\0\0\0\
    \x10\0\x02\0\x05\0\x07\0\x01\0\0\0\x04\0\x17\0";

// A veth whose peer has the name `lo` without a NUL.
const VETH: &[u8] = b"\x2e\0\x12\0\x09\0\x01\0veth\0\0\0\0\x1e\0\x02\0\x1a\0\x01\0\
    \0\0\0\0\0\0\0\0\0\0\0\0\0\0\0\0\x06\0\x03\0lo";

// The canonical text of the veth.
const VETH_TEXT: &[u8] = b"\x30\0\x12\0\x09\0\x01\0veth\0\0\0\0\x20\0\x02\0\x1c\0\x01\0\
    \0\0\0\0\0\0\0\0\0\0\0\0\0\0\0\0\x07\0\x03\0lo\0\0";

// A veth whose peer is a veth, whose peer has 15 bytes.
const VETH_TWICE: &[u8] = b"\x4f\0\x12\0\x09\0\x01\0veth\0\0\0\0\x3f\0\x02\0\x3b\0\x01\0\
    \0\0\0\0\0\0\0\0\0\0\0\0\0\0\0\0\
    \x27\0\x12\0\x09\0\x01\0veth\0\0\0\0\x17\0\x02\0\x13\0\x01\0\
    \0\0\0\0\0\0\0\0\0\0\0\0\0\0\0";

// The canonical text of this veth.
const VETH_TWICE_TEXT: &[u8] = b"\x50\0\x12\0\x09\0\x01\0veth\0\0\0\0\x40\0\x02\0\x3c\0\x01\0\
    \0\0\0\0\0\0\0\0\0\0\0\0\0\0\0\0\
    \x28\0\x12\0\x09\0\x01\0veth\0\0\0\0\x18\0\x02\0\x13\0\x01\0\
    \0\0\0\0\0\0\0\0\0\0\0\0\0\0\0\0";

// A name and a mask, in both orders.
const NAMED: &[u8] = b"\x08\0\x1d\0\x09\0\0\0\x07\0\x03\0lo\0\0";

const EXCHANGED: &[u8] = b"\x07\0\x03\0lo\0\0\x08\0\x1d\0\x09\0\0\0";

// Virtual functions, of which one attribute is dropped; and those without it.
const DROPPED: &[u8] = b"\x0c\0\x16\0\x04\0\x05\0\x04\0\x01\0";

const KEPT: &[u8] = b"\x08\0\x16\0\x04\0\x01\0";

// A link of a kind whose data have no table.
const PFCP: &[u8] =
    b"\0\0\xfe\xff\x10\0\0\0\x90\x10\0\0\0\0\0\0\x0a\0\x03\0pfcp0\0\0\0\x0c\0\x12\0\x08\0\
    \x01\0pfcp";

// A pair whose peer has another second byte in its header than that of `VETH`, and one whose peer
// has another name.
const VETH_VARIED: &[u8] = b"\x2e\0\x12\0\x09\0\x01\0veth\0\0\0\0\x1e\0\x02\0\x1a\0\x01\0\
    \0\x05\0\0\0\0\0\0\0\0\0\0\0\0\0\0\x06\0\x03\0lo";

const OTHER_PEER: &[u8] = b"\x2e\0\x12\0\x09\0\x01\0veth\0\0\0\0\x1e\0\x02\0\x1a\0\x01\0\
    \0\0\0\0\0\0\0\0\0\0\0\0\0\0\0\0\x06\0\x03\0l1";

// `VETH` and `VETH_TEXT` as the peers of others: peers inside a peer are bytes.
const INSIDE: &[u8] = b"\x56\0\x12\0\x09\0\x01\0veth\0\0\0\0\x46\0\x02\0\x42\0\x01\0\
    \0\0\0\0\0\0\0\0\0\0\0\0\0\0\0\0\
    \x2e\0\x12\0\x09\0\x01\0veth\0\0\0\0\x1e\0\x02\0\x1a\0\x01\0\
    \0\0\0\0\0\0\0\0\0\0\0\0\0\0\0\0\x06\0\x03\0lo";

const INSIDE_TEXT: &[u8] = b"\x58\0\x12\0\x09\0\x01\0veth\0\0\0\0\x48\0\x02\0\x44\0\x01\0\
    \0\0\0\0\0\0\0\0\0\0\0\0\0\0\0\0\
    \x30\0\x12\0\x09\0\x01\0veth\0\0\0\0\x20\0\x02\0\x1c\0\x01\0\
    \0\0\0\0\0\0\0\0\0\0\0\0\0\0\0\0\x07\0\x03\0lo\0\0";

// Attributes, the length of their canonical text with the header, and the number of attributes.
const MEASURED: [(&[u8], u128, u64); 4] = [
    (NAMED, 32, 2),
    (VXLAN, 48, 5),
    (DROPPED, 24, 3),
    // a peer followed by an attribute, which is dropped
    (
        b"\x20\0\x12\0\x09\0\x01\0veth\0\0\0\0\x0d\0\x02\0\x05\0\x02\0a\0\0\0\xff\0\0\0",
        44,
        4,
    ),
];

// Attributes of a body that is refused.
const REFUSED: [&[u8]; 3] = [
    // empty link info
    b"\x04\0\x12\0",
    // a pair whose peer has fifteen bytes, fewer than a header
    b"\x27\0\x12\0\x09\0\x01\0veth\0\0\0\0\x17\0\x02\0\x13\0\x01\0\
    \0\0\0\0\0\0\0\0\0\0\0\0\0\0\0",
    // a pair whose peer has ports of which no entry is kept
    b"\x30\0\x12\0\x09\0\x01\0veth\0\0\0\0\x20\0\x02\0\x1c\0\x01\0\
    \0\0\0\0\0\0\0\0\0\0\0\0\0\0\0\0\x08\0\x18\0\x04\0\x07\0",
];

// Attributes with peers, their canonical text, and the number of attributes.
const WITH_PEERS: [(&[u8], &[u8], u64); 5] = [
    (VETH, VETH_TEXT, 5),
    (VETH_TEXT, VETH_TEXT, 5),
    (VETH_VARIED, VETH_TEXT, 5),
    (VETH_TWICE, VETH_TWICE_TEXT, 8),
    (INSIDE_TEXT, INSIDE_TEXT, 8),
];

/// Returns a body of AF_UNSPEC, about all links.
fn body(alloc: Global, attributes: &[u8]) -> Result<Vec<u8>, Fail> {
    let mut bytes = Vec::from_elem(alloc, 0u8, LINK_HEADER_LEN)?;
    bytes.extend_from_slice(attributes)?;
    Ok(bytes)
}

/// Returns the canonical text of a body, made from its bytes.
fn canonical(alloc: Global, bytes: &[u8]) -> Result<Vec<u8>, Fail> {
    let Ok(found) = check(bytes) else {
        return Err(Fail::from("refused"));
    };
    if found.empty_ports {
        return Err(Fail::from("empty ports"));
    }
    if !found.fits {
        return Err(Fail::from("too long"));
    }
    let mut out = Vec::new(alloc);
    write_canonical(bytes, &mut out)?;
    Ok(out)
}

/// Returns the measure of a body that fits.
fn measure(text_len: u128, attributes: u64, empty_ports: bool) -> Option<BodyMeasure> {
    Some(BodyMeasure {
        text_len,
        attributes,
        fits: true,
        empty_ports,
    })
}

/// Returns a body with the IPv6 settings, 210 times without any number, each written as 76 of them.
fn settings(alloc: Global) -> Result<Vec<u8>, Fail> {
    let mut bytes = body(alloc, &[80, 3, 26, 0, 76, 3, 10, 0])?;
    for _ in 0..210 {
        bytes.extend_from_slice(&[4, 0, 3, 0])?;
    }
    Ok(bytes)
}

#[test]
fn bodies_are_measured(rt: HostRuntime) -> Result<(), Fail> {
    let alloc = rt.alloc();
    for (attributes, text_len, count) in MEASURED {
        let found = check(&body(alloc, attributes)?).ok();
        let expected = measure(text_len, count, false);
        assert!(rt; found == expected, "{attributes:?}");
    }
    assert_eq!(rt; check(PFCP).ok(), measure(44, 3, false));
    assert_eq!(rt; check(&settings(alloc)?).ok(), measure(64704, 212, false));
    // Ports without an entry.
    let ports = body(alloc, b"\x08\0\x18\0\x04\0\x07\0")?;
    assert_eq!(rt; check(&ports).ok(), measure(20, 2, true));
    for attributes in REFUSED {
        let is_refused = check(&body(alloc, attributes)?).is_err();
        assert!(rt; is_refused, "{attributes:?}");
    }
    Ok(())
}

#[test]
fn peers_in_bodies_are_judged_as_bodies(rt: HostRuntime) -> Result<(), Fail> {
    for (attributes, text, count) in WITH_PEERS {
        let bytes = body(rt.alloc(), attributes)?;
        let text = body(rt.alloc(), text)?;
        let expected = measure(text.len() as u128, count, false);
        assert!(rt; check(&bytes).ok() == expected, "{attributes:?}");
        let written = canonical(rt.alloc(), &bytes)?;
        assert!(rt; written.as_slice() == text.as_slice(), "{attributes:?}");
    }
    Ok(())
}

// Two layer types without a name, and that of Ethernet, of a header.
const LAYER_9: &[u8] = b"\0\x05\x09\0\0\0\0\0\0\0\0\0\0\0\0\0";

const LAYER_10: &[u8] = b"\0\0\x0a\0\0\0\0\0\0\0\0\0\0\0\0\0";

const ETHERNET: &[u8] = b"\0\0\x01\0\0\0\0\0\0\0\0\0\0\0\0\0";

/// Returns whether two bodies are the same, both ways.
fn are_same(left: &[u8], right: &[u8]) -> Option<[bool; 2]> {
    if left.len() < 16 || right.len() < 16 {
        return None;
    }
    Some([same(left, right), same(right, left)])
}

/// Peers are compared one level deep.
#[test]
fn bodies_are_compared(rt: HostRuntime) -> Result<(), Fail> {
    for (left, right, is_same) in [(LAYER_9, LAYER_10, true), (LAYER_9, ETHERNET, false)] {
        assert!(rt; are_same(left, right) == Some([is_same; 2]), "{right:?}");
    }
    for (left, right, is_same) in [
        (VXLAN, VXLAN_TEXT, true),
        (DROPPED, KEPT, true),
        (NAMED, EXCHANGED, false),
        (VETH, VETH_TEXT, true),
        (VETH, VETH_VARIED, true),
        (VETH, OTHER_PEER, false),
        (VETH_TWICE, VETH_TWICE_TEXT, true),
        (INSIDE, INSIDE_TEXT, false),
    ] {
        let found = are_same(&body(rt.alloc(), left)?, &body(rt.alloc(), right)?);
        assert!(rt; found == Some([is_same; 2]), "{left:?} {right:?}");
    }
    Ok(())
}
