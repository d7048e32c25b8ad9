//! Measures and comparisons: none allocates, so they return the same with each allocation refused.

use super::links::{VXLAN, XFRM};
use super::requests::report;
use link_info::{BytesPeer, ListMeasure, check_list, check_list_with, same_list, same_list_with};
use link_message::{BodyMeasure, check, same};
use std::test::Fail;

/// The body of a link message is counted.
#[test]
fn a_body_is_measured(rt: HostRuntime) -> Result<(), Fail> {
    let expected = BodyMeasure {
        text_len: 56,
        attributes: 6,
        fits: true,
        empty_ports: false,
    };
    assert!(rt; check(&VXLAN)? == expected && same(&VXLAN, &VXLAN));
    report(&rt, rt.alloc(), "link_message::check", "as ever")?;
    Ok(())
}

/// Lists of link info are counted, including the longest name, whose text is longer than a length
/// field can hold.
#[test]
fn lists_are_measured(rt: HostRuntime) -> Result<(), Fail> {
    let mut name = [0x61u8; 65535];
    name[..4].copy_from_slice(b"\xff\xff\x01\0");
    for (list, text_len, attributes, fits) in [
        (XFRM.as_slice(), 32, 4, true),
        (name.as_slice(), 65536, 1, false),
    ] {
        let expected = ListMeasure {
            text_len,
            attributes,
            fits,
        };
        assert!(rt;
            check_list(list)? == expected && check_list_with(list, &BytesPeer)? == expected
        );
        assert!(rt; same_list(list, list) && same_list_with(list, list, &BytesPeer));
    }
    report(&rt, rt.alloc(), "check_list", "as ever")?;
    Ok(())
}
