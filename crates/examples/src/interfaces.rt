//! A table of interfaces, which link messages keep up to date.

ghost use Rattle.std.specs.Prelude.{◌≡◌, ◌≢◌, ◌≤◌, ℕ, List, length, true, Some, IfErr, OnOk, OnErr, MatchResult};
ghost use Rattle.std.specs.BTreeMap.{IsUnchanged};
ghost use Rattle.link_capture.specs.Captures.{first_fault, IsLegal};
ghost use Rattle.examples.specs.Interfaces.{AreMessages, Learns, LearnsAll, is_new_link, name_in_attributes};
ghost use Rattle.link_message.specs.Body.{link_body};

use link_capture::{CaptureFault, FaultKind, Messages, RouteLink};
use link_message::{LinkAttribute, LinkFlags, LinkMessage};
use netlink_packet_core::{NetlinkMessage, NetlinkPayload};
use std::alloc::{AllocError, Global};
use std::collections::BTreeMap;

/// What the table knows of an interface.
#[derive(Debug, PartialEq, Eq, Drop)]
pub struct Interface {
    /// Its name, IFLA_IFNAME; empty if no message had one.
    pub name: String,
    /// Its flags, `ifi_flags`.
    pub flags: LinkFlags,
}

/// Interfaces by their index, `ifi_index`.
pub type Interfaces = BTreeMap<u32, Interface>;

/// Returns the name in a link message: that of its first IFLA_IFNAME, or an empty one if it has
/// none.
pub fn name(message: &LinkMessage) -> &str
    ensures { result.now ≡ name_in_attributes message.now.attributes.items }
{
    for attribute in message.attributes.as_slice() {
        if let LinkAttribute::IfName(name) = attribute {
            return name.as_str();
        }
    }
    ""
}

/// Learns from a message: the name and flags of a link that exists, or that a link is gone, which
/// is then forgotten. Other messages change nothing. Allocates only for a link that exists.
///
/// # Errors
///
/// [`AllocError`] if an allocation fails, which happens only for a link that exists; the table is
/// unchanged.
pub fn learn(
    alloc: Global,
    message: &NetlinkMessage<RouteLink>,
    interfaces: &mut Interfaces,
) -> Result<(), AllocError>
    ensures ok { OnOk result (Learns message.now.payload interfaces.old interfaces.new) }
    ensures err { OnErr result (IsUnchanged interfaces.old interfaces.new) }
    ensures memory { OnErr result (is_new_link message.now.payload ≡ true) }
{
    match &message.payload {
        NetlinkPayload::InnerMessage(RouteLink::NewLink(link)) => {
            let link = link.message();
            let interface = Interface {
                name: String::from_str(alloc, name(link))?,
                flags: link.header.flags,
            };
            interfaces.insert(link.header.index, interface)?;
        }
        NetlinkPayload::InnerMessage(RouteLink::DelLink(link)) => {
            interfaces.remove(&link.message().header.index);
        }
        _ => {}
    }
    Ok(())
}

// Learns from a message as `learn` does, and drops it.
fn learn_last(
    alloc: Global,
    message: NetlinkMessage<RouteLink>,
    interfaces: &mut Interfaces,
) -> Result<(), AllocError>
    ensures ok { OnOk result (Learns message.payload interfaces.old interfaces.new) }
    ensures err { OnErr result (IsUnchanged interfaces.old interfaces.new) }
{
    learn(alloc, &message, interfaces)
}

/// Learns from the messages of a capture, one after the other, up to its first fault. `limit` is
/// the greatest length in bytes of a message, as read and as written.
///
/// # Errors
///
/// The first fault of the capture, or `Memory` at a message if an allocation fails; the messages
/// before the fault's offset are learned.
pub fn learn_all(
    alloc: Global,
    capture: &[u8],
    limit: u32,
    interfaces: &mut Interfaces,
) -> Result<(), CaptureFault>
    ensures legal { OnOk result (IsLegal link_body limit capture.now) }
    ensures fault { IfErr result (λ fault. fault.kind ≢ FaultKind.Memory
        → first_fault link_body limit capture.now ≡ Some fault) }
    ensures learned { (messages : List (NetlinkMessage RouteLink)) × (offset : ℕ)
        × AreMessages limit capture.now messages offset
        × LearnsAll messages interfaces.old interfaces.new
        × MatchResult result (λ _. length capture.now ≤ offset) (λ fault. fault.offset ≡ offset) }
{
    let mut messages = Messages::new(alloc, capture, limit);
    let mut offset = 0;
    while let Some(message) = messages.next() {
        let Ok(()) = learn_last(alloc, message?, interfaces) else {
            return Err(CaptureFault {
                kind: FaultKind::Memory,
                offset: offset as u64,
            });
        };
        offset = messages.offset();
    }
    Ok(())
}
