//! Link info whose peers are bodies of link messages.

use super::values::{counts, is_refused};
use link_info::{PeerRule, check_list, check_list_with, same_list, same_list_with};
use link_message::LinkPeer;
use std::test::Fail;

// A canonical body with a name.
const BODY: &[u8] = b"\0\0\0\0\0\0\0\0\0\0\0\0\0\0\0\0\x09\0\x03\0eth0\0\0\0\0";

// The same body without the NUL after its name.
const BODY_SHORTER: &[u8] = b"\0\0\0\0\0\0\0\0\0\0\0\0\0\0\0\0\x08\0\x03\0eth0";

// The same body with other padding, and another second byte in its header.
const BODY_PADDED: &[u8] = b"\0\x05\0\0\0\0\0\0\0\0\0\0\0\0\0\0\x09\0\x03\0eth0\0***";

// A body with ports of which no entry is kept.
const EMPTY_PORTS: &[u8] = b"\0\0\0\0\0\0\0\0\0\0\0\0\0\0\0\0\x08\0\x18\0\x04\0\x07\0";

// Pairs with these bodies as peers, one whose peer has another name, and one whose peer has three
// bytes.
const VETH: &[u8] = b"\x09\0\x01\0veth\0\0\0\0\x24\0\x02\0\x20\0\x01\0\
    \0\0\0\0\0\0\0\0\0\0\0\0\0\0\0\0\x09\0\x03\0eth0\0\0\0\0";

const VETH_SHORTER: &[u8] = b"\x09\0\x01\0veth\0\0\0\0\x20\0\x02\0\x1c\0\x01\0\
    \0\0\0\0\0\0\0\0\0\0\0\0\0\0\0\0\x08\0\x03\0eth0";

const VETH_PADDED: &[u8] = b"\x09\0\x01\0veth\0\0\0\0\x24\0\x02\0\x20\0\x01\0\
    \0\x05\0\0\0\0\0\0\0\0\0\0\0\0\0\0\x09\0\x03\0eth0\0***";

const VETH_OTHER: &[u8] = b"\x09\0\x01\0veth\0\0\0\0\x20\0\x02\0\x1c\0\x01\0\
    \0\0\0\0\0\0\0\0\0\0\0\0\0\0\0\0\x08\0\x03\0eth1";

const VETH_EMPTY_PORTS: &[u8] = b"\x09\0\x01\0veth\0\0\0\0\x20\0\x02\0\x1c\0\x01\0\
    \0\0\0\0\0\0\0\0\0\0\0\0\0\0\0\0\x08\0\x18\0\x04\0\x07\0";

const VETH_THREE: &[u8] = b"\x09\0\x01\0veth\0\0\0\0\x0c\0\x02\0\x07\0\x01\0abc\0";

#[test]
fn attributes_of_peers_count(rt: HostRuntime) {
    for (bytes, by_bytes, by_body) in [
        (VETH, (48, 3, true), Some((48, 4, true))),
        (VETH_SHORTER, (44, 3, true), Some((48, 4, true))),
        (VETH_PADDED, (48, 3, true), Some((48, 4, true))),
        (VETH_EMPTY_PORTS, (44, 3, true), None),
        (VETH_THREE, (24, 3, true), None),
    ] {
        let results = [
            counts(check_list(bytes)),
            counts(check_list_with(bytes, &LinkPeer)),
        ];
        assert!(rt; results == [Some(by_bytes), by_body], "{bytes:?}");
    }
}

#[test]
fn peers_are_compared_as_bodies(rt: HostRuntime) {
    for (left, right, is_same) in [
        (VETH, VETH_SHORTER, true),
        (VETH, VETH_PADDED, true),
        (VETH_SHORTER, VETH_PADDED, true),
        (VETH_SHORTER, VETH_OTHER, false),
    ] {
        let results = [
            same_list_with(left, right, &LinkPeer),
            same_list(left, right),
        ];
        assert!(rt; results == [is_same, false], "{left:?} {right:?}");
    }
}

// Headers that are cut short: after the layer type, before it, and a byte after it.
#[test]
fn bytes_under_a_header_are_compared(rt: HostRuntime) {
    for (left, right, is_same) in [
        (b"".as_slice(), b"\x07\0\x01".as_slice(), true),
        (b"".as_slice(), b"\0\0\x01\0".as_slice(), false),
        (b"\0\x05\x01\0".as_slice(), b"\0\0\x01\0".as_slice(), true),
        (b"\0\0\x09\0".as_slice(), b"\0\0\x0a\0".as_slice(), true),
        (b"\0\0\x01\0".as_slice(), b"\x07\0\x01\0".as_slice(), false),
        (
            b"\0\0\x01\0\x02".as_slice(),
            b"\0\0\x01\0".as_slice(),
            false,
        ),
        (&BODY[..15], &BODY[..16], false),
    ] {
        let results = [LinkPeer.same(left, right), LinkPeer.same(right, left)];
        assert!(rt; results == [is_same; 2], "{left:?} {right:?}");
    }
}

#[test]
fn peers_are_written_as_bodies(rt: HostRuntime) -> Result<(), Fail> {
    for payload in [BODY, BODY_SHORTER, BODY_PADDED] {
        assert!(rt;
            LinkPeer.canonical(rt.alloc(), payload)?.as_slice() == BODY,
            "{payload:?}"
        );
    }
    for payload in [EMPTY_PORTS, b"abc".as_slice()] {
        assert!(rt;
            is_refused(LinkPeer.canonical(rt.alloc(), payload)),
            "{payload:?}"
        );
    }
    Ok(())
}
