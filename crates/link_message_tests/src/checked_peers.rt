//! Link info under a caller's own rule of peers.

ghost use Rattle.link_message_tests.specs.PrefixPeers.{prefix_peer};

use super::values::{counts, is_refused};
use link_info::{
    BytesPeer, PeerMeasure, PeerRule, check_list, check_list_with, same_list, same_list_with,
};
use netlink_packet_core::DecodeError;
use std::alloc::Global;
use std::test::Fail;

// The number of a peer's bytes that count.
const PREFIX: usize = 4;

// A rule of peers of which only the first four bytes count, the header of an attribute.
#[derive(Clone, Copy)]
struct PrefixPeer;

impl PeerRule for PrefixPeer {
    ghost peer = { prefix_peer };

    fn rule_is_lawful(&self) {}

    fn check(&self, payload: &[u8]) -> Result<PeerMeasure, DecodeError> {
        if payload.len() < PREFIX {
            return Err(DecodeError::from("a peer of fewer than four bytes"));
        }
        Ok(PeerMeasure {
            text_len: 4,
            attributes: 1,
        })
    }

    fn same(&self, left: &[u8], right: &[u8]) -> bool {
        &left[..left.len().min(PREFIX)] == &right[..right.len().min(PREFIX)]
    }

    fn canonical(&self, alloc: Global, payload: &[u8]) -> Result<Vec<u8>, DecodeError> {
        self.check(payload)?;
        Ok(Vec::from_slice(alloc, &payload[..PREFIX])?)
    }
}

// A pair whose peer has six bytes, and one whose peer has three.
const VETH: &[u8] = b"\x09\0\x01\0veth\0\0\0\0\x10\0\x02\0\x0a\0\x01\0abcdef\0\0";

const VETH_SHORT: &[u8] = b"\x09\0\x01\0veth\0\0\0\0\x0c\0\x02\0\x07\0\x01\0abc\0";

// The same pairs as netkit, the first with an attribute after its peer: whether it is the primary
// end.
const NETKIT: &[u8] =
    b"\x0b\0\x01\0netkit\0\0\x18\0\x02\0\x0a\0\x01\0abcdef\0\0\x05\0\x02\0\x01\0\0\0";

const NETKIT_SHORT: &[u8] = b"\x0b\0\x01\0netkit\0\0\x0c\0\x02\0\x07\0\x01\0abc\0";

#[test]
fn peers_are_counted_by_the_rule(rt: HostRuntime) {
    for (bytes, by_rule, by_bytes) in [
        (VETH, Some((24, 4, true)), (28, 3, true)),
        (VETH_SHORT, None, (24, 3, true)),
        (NETKIT, Some((32, 5, true)), (36, 4, true)),
        (NETKIT_SHORT, None, (24, 3, true)),
    ] {
        let results = [
            counts(check_list_with(bytes, &PrefixPeer)),
            counts(check_list_with(bytes, &BytesPeer)),
            counts(check_list(bytes)),
        ];
        assert!(rt;
            results == [by_rule, Some(by_bytes), Some(by_bytes)],
            "{bytes:?}"
        );
    }
}

// The first pair with other bytes after the four, and with others among them.
const VETH_OTHER_REST: &[u8] = b"\x09\0\x01\0veth\0\0\0\0\x10\0\x02\0\x09\0\x01\0abcdX\0\0\0";

const VETH_AMONG: &[u8] = b"\x09\0\x01\0veth\0\0\0\0\x10\0\x02\0\x0a\0\x01\0abcXef\0\0";

#[test]
fn peers_are_compared_by_the_rule(rt: HostRuntime) {
    for (left, right, by_rule, by_bytes) in [
        (VETH, VETH, true, true),
        (VETH, VETH_OTHER_REST, true, false),
        (VETH, VETH_AMONG, false, false),
    ] {
        let results = [
            same_list_with(left, right, &PrefixPeer),
            same_list_with(left, right, &BytesPeer),
            same_list(left, right),
        ];
        assert!(rt;
            results == [by_rule, by_bytes, by_bytes],
            "{left:?} {right:?}"
        );
    }
}

#[test]
fn peers_are_written(rt: HostRuntime) -> Result<(), Fail> {
    let payload = b"abcdef".as_slice();
    assert!(rt; BytesPeer.canonical(rt.alloc(), payload)?.as_slice() == payload);
    assert!(rt; PrefixPeer.canonical(rt.alloc(), payload)?.as_slice() == &payload[..PREFIX]);
    assert!(rt; is_refused(PrefixPeer.canonical(rt.alloc(), &payload[..3])));
    Ok(())
}
