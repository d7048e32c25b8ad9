//! A message as its values, and what no case of the program read_links reaches: messages that a
//! caller makes, and calls of their own. Most expected values are Debug texts, written by hand from
//! the types.

use super::values::{is_shown, name_of};
use link_info::{InfoData, InfoKind, LinkInfo};
use link_message::{
    AddressFamily, LinkAttribute, LinkExtentMask, LinkHeader, LinkMessage, LinkPeer,
};
use netlink_packet_core::{Emitable, NlaBuffer};
use std::alloc::Global;
use std::test::Fail;

// A request for the link `lo`: with its virtual functions, and without its statistics.
const REQUEST: &[u8] = b"\0\0\0\0\0\0\0\0\0\0\0\0\0\0\0\0\
    \x08\0\x1d\0\x09\0\0\0\x07\0\x03\0lo\0\0";

// Data of a veth whose peer has the name `lo` without a NUL.
const VETH_DATA: &[u8] = b"\x1a\0\x01\0\0\0\0\0\0\0\0\0\0\0\0\0\0\0\0\0\x06\0\x03\0lo";

// Link info with these data.
const VETH: &[u8] = b"\x09\0\x01\0veth\0\0\0\0\x1e\0\x02\0\x1a\0\x01\0\
    \0\0\0\0\0\0\0\0\0\0\0\0\0\0\0\0\x06\0\x03\0lo";

// The canonical text of the peer in them.
const PEER: &[u8] = b"\0\0\0\0\0\0\0\0\0\0\0\0\0\0\0\0\x07\0\x03\0lo\0\0";

// Bodies, and whether their list of ports has no port, which is an entry of kind 1.
const PORTS: [(&[u8], bool); 5] = [
    // only another entry
    (
        b"\0\0\0\0\0\0\0\0\0\0\0\0\0\0\0\0\x08\0\x18\0\x04\0\x05\0",
        true,
    ),
    // after another attribute
    (
        b"\0\0\0\0\0\0\0\0\0\0\0\0\0\0\0\0\x08\0\x04\0\xdc\x05\0\0\x08\0\x18\x80\x04\0\x05\0",
        true,
    ),
    // a port
    (
        b"\0\0\0\0\0\0\0\0\0\0\0\0\0\0\0\0\x08\0\x18\0\x04\0\x01\0",
        false,
    ),
    // a port after another entry
    (
        b"\0\0\0\0\0\0\0\0\0\0\0\0\0\0\0\0\x0c\0\x18\0\x04\0\x05\0\x04\0\x01\0",
        false,
    ),
    // no list of ports
    (
        b"\0\0\0\0\0\0\0\0\0\0\0\0\0\0\0\0\x08\0\x04\0\xdc\x05\0\0",
        false,
    ),
];

#[test]
fn a_request_is_read(rt: HostRuntime) -> Result<(), Fail> {
    let message = LinkMessage::parse(rt.alloc(), REQUEST)?;
    assert!(rt; message.buffer_len() == 32);
    let [LinkAttribute::ExtMask(masks), LinkAttribute::IfName(name)] = message.attributes.as_slice()
    else {
        return Err(Fail::from("other values"));
    };
    let expected_result = [LinkExtentMask::Vf, LinkExtentMask::SkipStats];
    assert!(rt; masks.as_slice() == expected_result.as_slice());
    assert!(rt; name.as_str() == "lo");
    Ok(())
}

/// Returns a message of this family about all links, with this attribute.
fn message_with(
    alloc: Global,
    family: AddressFamily,
    attribute: LinkAttribute,
) -> Result<LinkMessage, Fail> {
    let attributes = vec![in alloc; attribute]?;
    let mut header = LinkHeader::default();
    header.interface_family = family;
    Ok(LinkMessage { header, attributes })
}

/// Returns the size of a message with a name of `size` bytes; none if it doesn't fit.
fn size_with_name(alloc: Global, size: usize) -> Result<Option<usize>, Fail> {
    let name = LinkAttribute::IfName(name_of(alloc, size)?);
    let message = message_with(alloc, AddressFamily::Unspec, name)?;
    Ok(message.fits().then_some(message.buffer_len()))
}

/// With its NUL and its header the longer name has 65536 bytes.
#[test]
fn a_name_of_65530_bytes_fits(rt: HostRuntime) -> Result<(), Fail> {
    assert!(rt; size_with_name(rt.alloc(), 65530)? == Some(65552));
    assert!(rt; size_with_name(rt.alloc(), 65531)? == None);
    Ok(())
}

/// Read alone under the rule of peers, a peer is held as its canonical text.
#[test]
fn peers_are_read_alone(rt: HostRuntime) -> Result<(), Fail> {
    let alloc = rt.alloc();
    let data = format!(in alloc; "Veth(Peer({PEER:?}))")?;
    let list = format!(in alloc; "[Kind(Veth), Data({data})]")?;
    let read = LinkInfo::parse_list_with(alloc, VETH, &LinkPeer);
    assert!(rt; is_shown(alloc, read, list.as_str()));
    let read = InfoData::parse_with_peers(alloc, VETH_DATA, &InfoKind::Veth, &LinkPeer);
    assert!(rt; is_shown(alloc, read, data.as_str()));
    Ok(())
}

#[test]
fn lists_without_a_port_are_reported(rt: HostRuntime) -> Result<(), Fail> {
    for (body, is_emptied) in PORTS {
        let found = LinkMessage::parse(rt.alloc(), body)?.has_empty_ports();
        assert!(rt; found == is_emptied, "{body:?}");
    }
    Ok(())
}

/// The number of a bridge in `Other` isn't the variant `Bridge`: IFLA_PROTINFO holds any bytes, and
/// its kind keeps its flag bits, as under every family that isn't listed.
#[test]
fn a_family_counts_by_its_variant(rt: HostRuntime) -> Result<(), Fail> {
    let alloc = rt.alloc();
    let bytes = [5, 0, 12, 0xc0, 3, 0, 0, 0];
    let buffer = &NlaBuffer::new_checked(bytes.as_slice())?;
    let read = LinkAttribute::parse_with_param(alloc, buffer, AddressFamily::Other(7));
    let value = "ProtoInfoUnknown(DefaultNla { kind: 49164, value: [3] })";
    assert!(rt; is_shown(alloc, read, value));
    Ok(())
}

/// It is written as its number, which is read as a bridge.
#[test]
fn a_family_is_written_as_its_number(rt: HostRuntime) -> Result<(), Fail> {
    let alloc = rt.alloc();
    let message = message_with(alloc, AddressFamily::Other(7), LinkAttribute::Mtu(1500))?;
    assert!(rt; message.fits() && message.buffer_len() == 24);
    let mut body = [0xffu8; 24];
    message.emit(&mut body);
    assert!(rt; &body == b"\x07\0\0\0\0\0\0\0\0\0\0\0\0\0\0\0\x08\0\x04\0\xdc\x05\0\0");
    Ok(())
}
