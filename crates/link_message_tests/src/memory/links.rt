//! Link messages and link info: running out of memory is reported as such, and never for an input
//! that is refused.

use super::requests::{report, report_last_request};
use crate::values::{are_written_as, is_refused};
use link_capture::{NotReadable, ReadableLink};
use link_info::{InfoKind, LinkInfo};
use link_message::LinkMessage;
use netlink_packet_core::{DecodeError, Emitable};
use std::alloc::Global;
use std::test::Fail;

/// Link info of the kind `xfrm` (IPsec), with its data.
pub(crate) const XFRM: [u8; 32] = *b"\x09\0\x01\0xfrm\0\0\0\0\
    \x14\0\x02\0\x08\0\x01\0\x02\0\0\0\x08\0\x02\0\x0a\0\0\0";

/// A VXLAN with the name `lo`, which learns and has group policies. It is already canonical.
pub(crate) const VXLAN: [u8; 56] = *b"\0\0\0\0\0\0\0\0\0\0\0\0\0\0\0\0\
    \x07\0\x03\0lo\0\0\
    \x20\0\x12\0\x0a\0\x01\0vxlan\0\0\0\x10\0\x02\0\x05\0\x07\0\x01\0\0\0\x04\0\x17\0";

/// A veth whose peer has the name `lo` without a NUL.
const VETH: [u8; 62] = *b"\0\0\0\0\0\0\0\0\0\0\0\0\0\0\0\0\
    \x2e\0\x12\0\x09\0\x01\0veth\0\0\0\0\x1e\0\x02\0\x1a\0\x01\0\
    \0\0\0\0\0\0\0\0\0\0\0\0\0\0\0\0\x06\0\x03\0lo";

/// The canonical text of that.
const VETH_TEXT: [u8; 64] = *b"\0\0\0\0\0\0\0\0\0\0\0\0\0\0\0\0\
    \x30\0\x12\0\x09\0\x01\0veth\0\0\0\0\x20\0\x02\0\x1c\0\x01\0\
    \0\0\0\0\0\0\0\0\0\0\0\0\0\0\0\0\x07\0\x03\0lo\0\0";

/// Link info of the kind `xfrm`, whose data have a number of one byte after the kind.
const REFUSED_LIST: [u8; 24] = *b"\x09\0\x01\0xfrm\0\0\0\0\
    \x0c\0\x02\0\x05\0\x01\0\x02\0\0\0";

/// The name `lo`, followed by a name that isn't UTF-8.
const REFUSED_BODY: [u8; 32] = *b"\0\0\0\0\0\0\0\0\0\0\0\0\0\0\0\0\
    \x07\0\x03\0lo\0\0\x06\0\x03\0\xff\0\0\0";

/// A veth whose peer has the name `lo`, followed by ports without an entry.
const REFUSED_PEER: [u8; 72] = *b"\0\0\0\0\0\0\0\0\0\0\0\0\0\0\0\0\
    \x38\0\x12\0\x09\0\x01\0veth\0\0\0\0\x28\0\x02\0\x24\0\x01\0\
    \0\0\0\0\0\0\0\0\0\0\0\0\0\0\0\0\x07\0\x03\0lo\0\0\x08\0\x18\0\x04\0\x07\0";

/// Returns whether a message is written as this text, of 64 bytes at most.
fn is_written_as(message: &LinkMessage, text: &[u8]) -> bool {
    let mut buffer = [0xffu8; 64];
    let size = message.buffer_len();
    if !message.fits() || size > buffer.len() {
        return false;
    }
    message.emit(&mut buffer);
    &buffer[..size] == text
}

/// Returns the result of a read as a text; fails if the value that was read isn't written as
/// expected.
fn result_text(is_written: Result<bool, DecodeError>) -> Result<&'static str, Fail> {
    match is_written {
        Ok(true) => Ok("ok"),
        Ok(false) => Err(Fail::from("another text")),
        Err(error) => {
            if error.is_memory() {
                Ok("no memory")
            } else {
                Err(Fail::from("refused"))
            }
        }
    }
}

/// Returns whether `XFRM` is written as it is read.
fn keeps_xfrm(alloc: Global) -> Result<bool, DecodeError> {
    Ok(are_written_as(&LinkInfo::parse_list(alloc, &XFRM)?, &XFRM))
}

/// Returns whether a body is written as this text.
fn has_text(alloc: Global, bytes: &[u8], text: &[u8]) -> Result<bool, DecodeError> {
    Ok(is_written_as(&LinkMessage::parse(alloc, bytes)?, text))
}

/// Returns why a message isn't made readable; fails unless it is returned unchanged.
fn making_readable(alloc: Global, message: LinkMessage) -> Result<Option<NotReadable>, Fail> {
    let (is_unchanged, why) = match ReadableLink::new(alloc, message) {
        Ok(link) => (is_written_as(link.message(), &VXLAN), None),
        Err((message, why)) => (is_written_as(&message, &VXLAN), Some(why)),
    };
    if is_unchanged {
        Ok(why)
    } else {
        Err(Fail::from("another text"))
    }
}

#[test]
fn a_list_of_link_info(rt: HostRuntime) -> Result<(), Fail> {
    // The first allocation may be refused: a listed name needs none.
    assert!(rt; InfoKind::from_name(rt.alloc(), "xfrm").is_ok());
    let result_text = result_text(keeps_xfrm(rt.alloc()))?;
    report(&rt, rt.alloc(), "parse_list", result_text)?;
    Ok(())
}

#[test]
fn a_link_message(rt: HostRuntime) -> Result<(), Fail> {
    let result_text = result_text(has_text(rt.alloc(), &VXLAN, &VXLAN))?;
    report(&rt, rt.alloc(), "LinkMessage::parse", result_text)?;
    Ok(())
}

#[test]
fn a_link_message_with_a_peer(rt: HostRuntime) -> Result<(), Fail> {
    let result_text = result_text(has_text(rt.alloc(), &VETH, &VETH_TEXT))?;
    report(&rt, rt.alloc(), "LinkMessage::parse", result_text)?;
    Ok(())
}

/// A message that isn't readable is returned unchanged.
#[test]
fn a_readable_link(rt: HostRuntime) -> Result<(), Fail> {
    if let Ok(message) = LinkMessage::parse(rt.alloc(), &VXLAN) {
        match making_readable(rt.alloc(), message)? {
            None => println!(rt; "ReadableLink::new: ok")?,
            Some(why) => {
                assert!(rt; why == NotReadable::Memory);
                println!(rt; "ReadableLink::new: {why}")?;
            }
        }
    }
    report_last_request(&rt, rt.alloc())?;
    Ok(())
}

/// An attribute that is refused after one that allocates is refused even if that allocation fails.
#[test]
fn a_refused_input(rt: HostRuntime) -> Result<(), Fail> {
    assert!(rt; is_refused(LinkInfo::parse_list(rt.alloc(), &REFUSED_LIST)));
    for body in [REFUSED_BODY.as_slice(), REFUSED_PEER.as_slice()] {
        assert!(rt; is_refused(LinkMessage::parse(rt.alloc(), body)));
    }
    report(&rt, rt.alloc(), "refused input", "refused")?;
    Ok(())
}
