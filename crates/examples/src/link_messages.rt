//! Example calls on link messages, which the page `docs/rattle/link_message.md` quotes.

ghost use Rattle.std.specs.Prelude.{◌≡◌, ◌++◌, true, IfOk};
ghost use Rattle.netlink_packet_core.specs.Attributes.{attribute_text};
ghost use Rattle.netlink_packet_core.specs.Families.{attribute};
ghost use Rattle.netlink_packet_core.specs.Numbers.{le4};
ghost use Rattle.link_message.specs.Body.{link_body};
ghost use Rattle.link_message.specs.LinkMessages.{link_message_text};
ghost use Rattle.examples.specs.NamedRequests.{request_text};

use link_message::{
    AddressFamily, Flags, LinkAttribute, LinkExtentMask, LinkFlags, LinkHeader, LinkLayerType,
    LinkMessage,
};
use netlink_packet_core::{DecodeError, Emitable};
use std::alloc::Global;

/// Returns the bytes of a message. Allocates the returned bytes.
///
/// # Errors
///
/// A refusal if a length inside doesn't fit its 2 bytes; out of memory if the allocation fails.
pub fn written(alloc: Global, message: &LinkMessage) -> Result<Vec<u8>, DecodeError>
    ensures { IfOk result (λ bytes. bytes.items ≡ link_message_text message.now) }
{
    let size = message.buffer_len();
    if !message.fits() || size == usize::MAX {
        return Err(DecodeError::from("an attribute that is too long"));
    }
    let mut bytes = Vec::from_elem(alloc, 0u8, size)?;
    message.emit(&mut bytes);
    Ok(bytes)
}

/// Returns the body of a request for the link of this name, without its statistics.
///
/// # Errors
///
/// A refusal if the name is too long for an attribute; out of memory if an allocation fails.
pub fn request_by_name(alloc: Global, name: &str) -> Result<Vec<u8>, DecodeError>
    ensures { IfOk result (λ bytes. bytes.items ≡ request_text name.now) }
{
    let mask = vec![in alloc; LinkExtentMask::SkipStats]?;
    let name = String::from_str(alloc, name)?;
    let message = LinkMessage {
        header: LinkHeader {
            interface_family: AddressFamily::Unspec,
            link_layer_type: LinkLayerType::Netrom,
            index: 0,
            flags: LinkFlags::empty(),
            change_mask: LinkFlags::empty(),
        },
        attributes: vec![in alloc; LinkAttribute::ExtMask(mask), LinkAttribute::IfName(name)]?,
    };
    written(alloc, &message)
}

/// Returns a body that means the same as another one, with an additional MTU at its end.
///
/// # Errors
///
/// A refusal if the body isn't legal, or a length inside doesn't fit its 2 bytes; out of memory if
/// an allocation fails.
pub fn with_mtu(alloc: Global, body: &[u8], mtu: u32) -> Result<Vec<u8>, DecodeError>
    ensures legal { IfOk result (λ _. link_body.accepted body.now ≡ true) }
    ensures text { IfOk result
        (λ bytes. bytes.items
        ≡ link_body.canonical body.now ++ attribute_text (attribute 4 (le4 mtu))) }
{
    let mut message = LinkMessage::parse(alloc, body)?;
    message.attributes.push(LinkAttribute::Mtu(mtu))?;
    written(alloc, &message)
}
