//! Messages of captures: which are read back equal from what they are written as, and in which
//! order they come.

use super::values::name_of;
use hex::decode;
use link_capture::{CaptureFault, Messages, NotReadable, ReadableLink, RouteLink};
use link_info::{InfoData, InfoKind, InfoVeth, LinkInfo};
use link_message::{
    AfSpecInet, AfSpecUnspec, LinkAttribute, LinkExtentMask, LinkHeader, LinkMessage, Values,
};
use netlink_packet_core::{DefaultNla, NetlinkMessage};
use std::alloc::Global;
use std::test::Fail;

/// A canonical body with the name `lo`.
const PEER: &[u8] = b"\0\0\0\0\0\0\0\0\0\0\0\0\0\0\0\0\x07\0\x03\0lo\0\0";

/// The same body without the NUL after its name.
const PEER_SHORTER: &[u8] = b"\0\0\0\0\0\0\0\0\0\0\0\0\0\0\0\0\x06\0\x03\0lo";

/// Returns a new attribute of each case.
fn attribute(alloc: Global, case: usize) -> Result<LinkAttribute, Fail> {
    match case {
        0 => Ok(LinkAttribute::IfName(name_of(alloc, 65531)?)),
        1 => Ok(LinkAttribute::IfName(name_of(alloc, 65530)?)),
        2 => Ok(LinkAttribute::LinkInfo(Vec::new(alloc))),
        3 => {
            let mut masks = Vec::new(alloc);
            masks.push(LinkExtentMask::SkipStats)?;
            masks.push(LinkExtentMask::Vf)?;
            Ok(LinkAttribute::ExtMask(masks))
        }
        4 => Ok(LinkAttribute::VfPorts(Vec::new(alloc))),
        5 => {
            let bytes = Vec::from_slice(alloc, &[4, 0, 7, 0])?;
            Ok(LinkAttribute::Other(DefaultNla::new(24, bytes)))
        }
        6 => veth(alloc, PEER),
        7 => veth(alloc, PEER_SHORTER),
        8 => {
            let request = AfSpecInet::DevConfRequest(Values { values: [1; 33] });
            let families = vec![in alloc; AfSpecUnspec::Inet(vec![in alloc; request]?)]?;
            Ok(LinkAttribute::AfSpecUnspec(families))
        }
        _ => {
            let bytes = Vec::from_slice(alloc, &[0x6c, 0x6f, 0])?;
            Ok(LinkAttribute::Other(DefaultNla::new(3, bytes)))
        }
    }
}

/// Returns link info of a veth with this peer.
fn veth(alloc: Global, peer: &[u8]) -> Result<LinkAttribute, Fail> {
    let data = InfoData::Veth(InfoVeth::Peer(Vec::from_slice(alloc, peer)?));
    let infos = vec![in alloc; LinkInfo::Kind(InfoKind::Veth), LinkInfo::Data(data)]?;
    Ok(LinkAttribute::LinkInfo(infos))
}

fn message(alloc: Global, case: usize) -> Result<LinkMessage, Fail> {
    let mut attributes = Vec::new(alloc);
    attributes.push(attribute(alloc, case)?)?;
    Ok(LinkMessage {
        header: LinkHeader::parse(&[0; 16])?,
        attributes,
    })
}

#[test]
fn messages_are_readable_where_they_read_back(rt: HostRuntime) -> Result<(), Fail> {
    let alloc = rt.alloc();
    let expected = [
        Some(NotReadable::Unfit),
        None,
        Some(NotReadable::ReadsOtherwise),
        Some(NotReadable::ReadsOtherwise),
        Some(NotReadable::ReadsOtherwise),
        Some(NotReadable::ReadsOtherwise),
        None,
        Some(NotReadable::ReadsOtherwise),
        Some(NotReadable::ReadsOtherwise),
        Some(NotReadable::ReadsOtherwise),
    ];
    for (case, expected) in expected.iter().enumerate() {
        let (back, outcome) = match ReadableLink::new(alloc, message(alloc, case)?) {
            Ok(link) => (link.into_message(), None),
            Err((back, why)) => (back, Some(why)),
        };
        assert!(rt; outcome == *expected && back == message(alloc, case)?);
    }
    Ok(())
}

/// The bytes after a request for the link `lo` and a message of type 20 with a body of one byte, in
/// hex; and the types of all messages, with the fault.
const CAPTURES: [(&str, &str); 4] = [
    ("", "18 20 "),
    ("ffffff", "18 20 "),
    (
        "ffffff0f000000140000000000000000000000",
        "18 20 length under 16 at 68",
    ),
    (
        "ffffff1000000011000000000000000000000010000000140000000000000000000000",
        "18 20 refused body at 68",
    ),
];

/// Returns the type of a message, or the fault.
fn message_label(
    alloc: Global,
    message: Result<NetlinkMessage<RouteLink>, CaptureFault>,
) -> Result<String, Fail> {
    match message {
        Ok(message) => {
            let message_type = message.header.message_type;
            Ok(format!(in alloc; "{message_type} ")?)
        }
        Err(fault) => Ok(format!(in alloc; "{fault}")?),
    }
}

/// Returns the types of the messages of a capture, with the fault.
fn message_labels(alloc: Global, capture: &[u8]) -> Result<String, Fail> {
    let mut messages = Messages::new(alloc, capture, 1000);
    let mut labels = String::new(alloc);
    while let Some(message) = messages.next() {
        labels.push_str(message_label(alloc, message)?.as_str())?;
    }
    match messages.next() {
        None => Ok(labels),
        Some(_) => Err(Fail::from("a message behind the last")),
    }
}

#[test]
fn messages_come_one_after_another(rt: HostRuntime) -> Result<(), Fail> {
    let alloc = rt.alloc();
    for (rest, expected) in &CAPTURES {
        let capture = format!(in alloc;
            "3000000012000103340ef95a0000000000000000000000000000\
            00000000000008001d0009000000070003806c6f00ff1100000014000000000000000000000061{rest}"
        )?;
        let Ok(bytes) = decode(alloc, capture.as_str()) else {
            return Err(Fail::from("not hex"));
        };
        assert!(rt; message_labels(alloc, bytes.as_slice())?.as_str() == *expected);
    }
    Ok(())
}
