//! Single attributes by their own readers, which exist beside those of lists, as the program
//! read_links reads them. The bytes are written by hand from if_link.h and mctp.h.

use super::values::{is_refused, is_shown};
use link_info::{InfoBareUdp, InfoMacVlan, InfoXfrm};
use link_message_nested::{
    AfSpecInet, AfSpecInet6, AfSpecUnspec, LinkVfInfo, LinkVfPort, VfInfo, VfVlan,
};
use netlink_packet_core::{DecodeError, NlaBuffer, Parseable};
use std::alloc::Global;
use std::test::Fail;

/// An attribute of the kind 99, which no table has, and a byte.
const UNLISTED: [u8; 8] = [5, 0, 99, 0, 7, 0, 0, 0];

/// The Debug text of its value.
const OTHER: &str = "Other(DefaultNla { kind: 99, value: [7] })";

/// `IFLA_VF_INFO` with `IFLA_VF_VLAN_LIST`, and in it `IFLA_VF_VLAN_INFO`: the function 0, the VLAN
/// 100, no priority, and 802.1Q, big-endian.
const FUNCTION: [u8; 28] = [
    28, 0, 1, 0, 24, 0, 12, 0, 20, 0, 1, 0, 0, 0, 0, 0, 100, 0, 0, 0, 0, 0, 0, 0, 129, 0, 0, 0,
];

#[test]
fn virtual_functions_are_read(rt: HostRuntime) -> Result<(), Fail> {
    let alloc = rt.alloc();
    let vlan = &NlaBuffer::new_checked(UNLISTED.as_slice())?;
    assert!(rt; is_shown(alloc, VfVlan::parse(alloc, vlan), OTHER));
    let info = &NlaBuffer::new_checked(&FUNCTION[4..])?;
    let text =
        "VlanList([Info(VfVlanInfo { vf_id: 0, vlan_id: 100, qos: 0, protocol: Ieee8021Q })])";
    assert!(rt; is_shown(alloc, VfInfo::parse(alloc, info), text));
    let function = &NlaBuffer::new_checked(FUNCTION.as_slice())?;
    let text = format!(in alloc; "LinkVfInfo([{text}])")?;
    assert!(rt; is_shown(alloc, LinkVfInfo::parse(alloc, function), text.as_str()));
    let bytes = [12, 0, 1, 0, 5, 0, 99, 0, 7, 0, 0, 0];
    let port = &NlaBuffer::new_checked(bytes.as_slice())?;
    let text = format!(in alloc; "LinkVfPort([{OTHER}])")?;
    assert!(rt; is_shown(alloc, LinkVfPort::parse(alloc, port), text.as_str()));
    Ok(())
}

/// Returns whether an attribute is read as a virtual function, and whether as a port.
fn are_read(alloc: Global, bytes: &[u8]) -> Result<[bool; 2], DecodeError> {
    let buffer = NlaBuffer::new_checked(bytes)?;
    Ok([
        LinkVfInfo::parse(alloc, &buffer).is_ok(),
        LinkVfPort::parse(alloc, &buffer).is_ok(),
    ])
}

#[test]
fn other_kinds_than_one_are_refused(rt: HostRuntime) -> Result<(), Fail> {
    // The same attributes, of the kinds 1, 0, 2 and 257.
    for (low, high, is_read) in [(1, 0, true), (0, 0, false), (2, 0, false), (1, 1, false)] {
        let results = are_read(rt.alloc(), &[8, 0, low, high, 4, 0, 99, 0])?;
        assert!(rt; results == [is_read; 2], "{low} {high}");
    }
    Ok(())
}

#[test]
fn single_attributes_of_families_are_read(rt: HostRuntime) -> Result<(), Fail> {
    let alloc = rt.alloc();
    let buffer = &NlaBuffer::new_checked(UNLISTED.as_slice())?;
    assert!(rt; is_shown(alloc, AfSpecInet::parse(alloc, buffer), OTHER));
    assert!(rt; is_shown(alloc, AfSpecInet6::parse(alloc, buffer), OTHER));
    // `AF_MCTP` with `IFLA_MCTP_PHYS_BINDING`, which is USB.
    let bytes = [12, 0, 45, 0, 5, 0, 2, 0, 3, 0, 0, 0];
    let buffer = &NlaBuffer::new_checked(bytes.as_slice())?;
    assert!(rt;
        is_shown(
            alloc,
            AfSpecUnspec::parse(alloc, buffer),
            "Mctp([PhysBinding(Usb)])"
        )
    );
    Ok(())
}

#[test]
fn single_attributes_of_kinds_are_read(rt: HostRuntime) -> Result<(), Fail> {
    let alloc = rt.alloc();
    let buffer = &NlaBuffer::new_checked([8u8, 0, 2, 0, 10, 0, 0, 0].as_slice())?;
    assert!(rt; is_shown(alloc, InfoXfrm::parse(alloc, buffer), "IfId(10)"));
    // A source port of 3 bytes.
    let buffer = &NlaBuffer::new_checked([7u8, 0, 3, 0, 1, 2, 3, 0].as_slice())?;
    assert!(rt; is_refused(InfoBareUdp::parse(alloc, buffer)));
    // A list of source addresses, with one.
    let bytes = [16u8, 0, 5, 0, 10, 0, 4, 0, 2, 0, 0, 0, 0, 1, 0, 0];
    let buffer = &NlaBuffer::new_checked(bytes.as_slice())?;
    let addresses = "MacAddrData([MacAddr([2, 0, 0, 0, 0, 1])])";
    assert!(rt; is_shown(alloc, InfoMacVlan::parse(alloc, buffer), addresses));
    Ok(())
}
