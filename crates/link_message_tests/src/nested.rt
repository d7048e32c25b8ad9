//! Lists inside attributes of links, read and written.

use super::values::{are_written_as, is_shown};
use attribute_tables::parse_family;
use link_message_nested::{AfSpecInet, LinkProtoInfoInet6, parse_families, parse_raw};
use link_message_records::Values;
use netlink_packet_core::DecodeError;
use std::test::Fail;

/// Attributes are kept unchanged: kind 0x8001, and a byte 7.
#[test]
fn raw_lists_and_inet6_attributes(rt: HostRuntime) -> Result<(), Fail> {
    let bytes = &[5, 0, 1, 0x80, 7, 0, 0, 0];
    let inet6: Result<Vec<LinkProtoInfoInet6>, DecodeError> = parse_family(rt.alloc(), bytes);
    let kept = "[Other(DefaultNla { kind: 32769, value: [7] })]";
    assert!(rt; is_shown(rt.alloc(), inet6, kept));
    let raw = "[DefaultNla { kind: 32769, value: [7] }]";
    assert!(rt; is_shown(rt.alloc(), parse_raw(rt.alloc(), bytes), raw));
    assert!(rt; parse_raw(rt.alloc(), &[3]).is_err());
    Ok(())
}

/// `AF_MCTP` with `IFLA_MCTP_PHYS_BINDING`, which is USB.
#[test]
fn attributes_of_families_are_read(rt: HostRuntime) {
    let bytes = &[12, 0, 45, 0, 5, 0, 2, 0, 3, 0, 0, 0];
    let families = parse_families(rt.alloc(), bytes);
    assert!(rt; is_shown(rt.alloc(), families, "[Mctp([PhysBinding(Usb)])]"));
}

#[test]
fn settings_are_requested(rt: HostRuntime) {
    let mut values = [0; 33];
    values[0] = 1;
    values[2] = 2;
    let request = &[AfSpecInet::DevConfRequest(Values { values })];
    let bytes = &[
        20, 0, 1, 0x80, 8, 0, 1, 0, 1, 0, 0, 0, 8, 0, 3, 0, 2, 0, 0, 0,
    ];
    assert!(rt; are_written_as(request, bytes));
}
