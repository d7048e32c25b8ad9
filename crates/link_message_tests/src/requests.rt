//! Requests as bytes, written by hand from the kernel's headers, and those that can't be written.

use super::values::name_of;
use examples::{
    RequestFault, new_link_request, request, request_by_name, vxlan_request, with_mtu, written,
};
use link_capture::{ReadableLink, RouteLink};
use link_message::{LinkAttribute, LinkHeader, LinkMessage};
use std::alloc::Global;
use std::test::Fail;

/// A header: length, `RTM_NEWLINK`, flags 0x605, the sequence number 1, and the kernel's port. 16
/// zeros. `IFLA_IFNAME` and `IFLA_MTU`, of 1450 bytes. `IFLA_LINKINFO`: `IFLA_INFO_KIND`, and
/// `IFLA_INFO_DATA`: `IFLA_VXLAN_ID` 42, `IFLA_VXLAN_LEARNING` 0, and `IFLA_VXLAN_PORT` 4789,
/// big-endian.
const VXLAN: [u8; 96] = *b"\x60\0\0\0\x10\0\x05\x06\x01\0\0\0\0\0\0\0\
    \0\0\0\0\0\0\0\0\0\0\0\0\0\0\0\0\
    \x0b\0\x03\0vxlan7\0\0\x08\0\x04\0\xaa\x05\0\0\
    \x2c\0\x12\0\x0a\0\x01\0vxlan\0\0\0\x1c\0\x02\0\
    \x08\0\x01\0\x2a\0\0\0\x05\0\x07\0\0\0\0\0\x06\0\x0f\0\x12\xb5\0\0";

/// The same header with the sequence number 2. 16 zeros, and `IFLA_IFNAME`.
const LINK: [u8; 40] = *b"\x28\0\0\0\x10\0\x05\x06\x02\0\0\0\0\0\0\0\
    \0\0\0\0\0\0\0\0\0\0\0\0\0\0\0\0\
    \x07\0\x03\0aa\0\0";

/// `RTM_GETLINK`, with `NLM_F_REQUEST` and `NLM_F_DUMP`, the sequence number 258, and 16 zeros.
const DUMP: [u8; 32] = *b"\x20\0\0\0\x12\0\x01\x03\x02\x01\0\0\0\0\0\0\
    \0\0\0\0\0\0\0\0\0\0\0\0\0\0\0\0";

/// Returns a message with a header of zeros and these attributes.
fn message(attributes: Vec<LinkAttribute>) -> Result<LinkMessage, Fail> {
    let header = LinkHeader::parse(&[0; 16])?;
    Ok(LinkMessage { header, attributes })
}

#[test]
fn links_are_asked_for(rt: HostRuntime) -> Result<(), Fail> {
    let alloc = rt.alloc();
    let bytes = vxlan_request(alloc, "vxlan7", 42, 1450, 1)?;
    assert!(rt; bytes.as_slice() == VXLAN.as_slice());
    let attributes = vec![in alloc; LinkAttribute::IfName(name_of(alloc, 2)?)]?;
    let bytes = new_link_request(alloc, message(attributes)?, 2)?;
    assert!(rt; bytes.as_slice() == LINK.as_slice());
    let Ok(link) = ReadableLink::new(alloc, message(Vec::new(alloc))?) else {
        return Err(Fail::from("a header alone is readable"));
    };
    let bytes = request(alloc, RouteLink::GetLink(link), 0x301, 258)?;
    assert!(rt; bytes.as_slice() == DUMP.as_slice());
    Ok(())
}

/// Names have at most 65530 bytes, and a message that reads back as another one isn't asked for.
#[test]
fn other_links_are_not_asked_for(rt: HostRuntime) -> Result<(), Fail> {
    let alloc = rt.alloc();
    let name = name_of(alloc, 65530)?;
    assert!(rt; vxlan_request(alloc, name.as_str(), 42, 1450, 1).is_ok());
    let name = name_of(alloc, 65531)?;
    let outcome = vxlan_request(alloc, name.as_str(), 42, 1450, 1);
    assert!(rt; outcome == Err(RequestFault::Unfit));
    let attributes = vec![in alloc; LinkAttribute::LinkInfo(Vec::new(alloc))]?;
    let outcome = new_link_request(alloc, message(attributes)?, 1);
    assert!(rt; outcome == Err(RequestFault::ReadsOtherwise));
    Ok(())
}

/// The body of a request about the link of a name: 16 zeros, `IFLA_EXT_MASK` without statistics,
/// and `IFLA_IFNAME`.
const NAMED: [u8; 32] = *b"\0\0\0\0\0\0\0\0\0\0\0\0\0\0\0\0\
    \x08\0\x1d\0\x08\0\0\0\x07\0\x03\0lo\0\0";

/// The same body with an additional `IFLA_MTU` of 1500 bytes.
const LARGER: [u8; 40] = *b"\0\0\0\0\0\0\0\0\0\0\0\0\0\0\0\0\
    \x08\0\x1d\0\x08\0\0\0\x07\0\x03\0lo\0\0\x08\0\x04\0\xdc\x05\0\0";

#[test]
fn bodies_of_requests_are_built(rt: HostRuntime) -> Result<(), Fail> {
    let request = request_by_name(rt.alloc(), "lo")?;
    assert!(rt; request.as_slice() == NAMED.as_slice());
    let larger = with_mtu(rt.alloc(), &request, 1500)?;
    assert!(rt; larger.as_slice() == LARGER.as_slice());
    let message = LinkMessage::parse(rt.alloc(), &larger)?;
    assert!(rt; written(rt.alloc(), &message)?.as_slice() == LARGER.as_slice());
    Ok(())
}
