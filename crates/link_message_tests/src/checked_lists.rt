//! Lists of link info, measured and compared on their bytes.

use super::values::counts;
use link_info::{check_list, same_list};

// A link of IPsec, with its data.
const XFRM: &[u8] = b"\x09\0\x01\0xfrm\0\0\0\0\
    \x14\0\x02\0\x08\0\x01\0\x02\0\0\0\x08\0\x02\0\x0a\0\0\0";

// Data before a kind.
const NO_KIND: &[u8] = b"\x04\0\x02\0";

#[test]
fn lists_are_counted(rt: HostRuntime) {
    // The longest name, whose canonical text has one NUL too many to fit.
    let mut name = [0x61u8; 65535];
    name[..4].copy_from_slice(b"\xff\xff\x01\0");
    for (bytes, results) in [
        (b"".as_slice(), Some((0, 0, true))),
        (XFRM, Some((32, 4, true))),
        (name.as_slice(), Some((65536, 1, false))),
        (NO_KIND, None),
    ] {
        assert!(rt; counts(check_list(bytes)) == results, "{bytes:?}");
    }
}

// The same link without the NUL after its name, and with flag bits.
const XFRM_VARIED: &[u8] = b"\x08\0\x01\0xfrm\
    \x14\0\x02\0\x08\0\x01\x40\x02\0\0\0\x08\0\x02\x80\x0a\0\0\0";

// The same link with its data in reverse order.
const XFRM_EXCHANGED: &[u8] = b"\x08\0\x01\0xfrm\
    \x14\0\x02\0\x08\0\x02\0\x0a\0\0\0\x08\0\x01\0\x02\0\0\0";

// An attribute that no table lists, with two flag bits and with one.
const UNLISTED: &[u8] = b"\x05\0\x46\xc0\x01\0\0\0";

const UNLISTED_NESTED: &[u8] = b"\x05\0\x46\x80\x01\0\0\0";

// A tunnel whose TTL is inherited, by a flag and by a byte.
const TTL_FLAG: &[u8] = b"\x0a\0\x01\0vxlan\0\0\0\x08\0\x02\0\x04\0\x1c\0";

const TTL_BYTE: &[u8] = b"\x0a\0\x01\0vxlan\0\0\0\x0c\0\x02\0\x05\0\x1c\0\0\0\0\0";

#[test]
fn lists_are_compared(rt: HostRuntime) {
    for (left, right, is_same) in [
        (b"".as_slice(), b"".as_slice(), true),
        (b"".as_slice(), XFRM, false),
        (XFRM, XFRM_VARIED, true),
        (XFRM, XFRM_EXCHANGED, false),
        (XFRM, &XFRM_VARIED[..8], false),
        (UNLISTED, UNLISTED_NESTED, false),
        (TTL_FLAG, TTL_BYTE, false),
    ] {
        assert!(rt;
            [same_list(left, right), same_list(right, left)] == [is_same; 2],
            "{left:?} {right:?}"
        );
    }
}
