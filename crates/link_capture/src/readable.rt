//! Link messages that are read back equal from the bytes that they are written as.

ghost use Rattle.std.specs.Prelude.{◌≡◌, ◌≢◌, ◌↔◌, Ok, true, false, is_ok, IfOk, IfErr, OnOk};
ghost use Rattle.link_capture_grammar.specs.Bodies.{ruled_text};
ghost use Rattle.link_message_grammar.specs.Body.{link_body};
ghost use Rattle.link_message.specs.LinkMessages.{link_message_text, link_message_fits};
ghost use Rattle.link_capture.specs.Readable.{IsReadFrom, IsReadable, IsNotReadBack, is_read_back_as};
ghost use Rattle.link_capture.specs.Views.{readable_message, readable_text};
ghost use Rattle.link_capture.specs.Routes.{ReasonOf};

use super::fault::RouteFault;
use super::types::ReadableLink;
use link_capture_grammar::laws::body_texts_are_canonical;
use link_message::laws::equal_texts_mean_equal_messages;
use link_message::{LinkMessage, check};
use link_message_grammar::laws::bodies_are_headers_and_attributes;
use netlink_packet_core::Emitable;
use std::alloc::Global;
use thiserror::Error;

/// Why a message wasn't taken as a readable one.
#[derive(Clone, Copy, Debug, PartialEq, Eq, Drop, Error)]
pub enum NotReadable {
    /// A length inside doesn't fit the 2 bytes of its header.
    #[error("attribute over 65535")]
    Unfit,
    /// Its text is invalid, or is read as another message.
    #[error("refused or read as another message")]
    ReadsOtherwise,
    /// An allocation failed before it was known.
    #[error("no memory")]
    Memory,
}

impl ReadableLink {
    /// Returns the message as a readable one, if it fits, and its text is legal and is read back as
    /// an equal message with the same text. Allocates the text and the message that is read back.
    ///
    /// # Errors
    ///
    /// Each error returns the message unchanged. `Unfit` if and only if the message doesn't fit.
    /// `ReadsOtherwise` if the message fits but isn't readable. `Memory` if an allocation fails,
    /// which may happen for any message that fits, as the message is written and read back to find
    /// out.
    pub fn new(
        alloc: Global,
        message: LinkMessage,
    ) -> Result<ReadableLink, (LinkMessage, NotReadable)>
        ensures ok { IfOk result (λ r. readable_message r ≡ message) }
        ensures readable { OnOk result (IsReadable message) }
        ensures unchanged { IfErr result (λ e. e.0 ≡ message) }
        ensures unfit { IfErr result
            (λ e. (e.1 ≡ NotReadable.Unfit) ↔ (link_message_fits message ≡ false)) }
        ensures otherwise { IfErr result
            (λ e. e.1 ≡ NotReadable.ReadsOtherwise → IsNotReadBack message) }
        ensures unreadable { IfErr result
            (λ e. e.1 ≡ NotReadable.ReadsOtherwise → IsReadable message → ⊥) }
    {
        equal_texts_mean_equal_messages();
        match reads_back(alloc, &message) {
            Ok(()) => Ok(ReadableLink { message }),
            Err(why) => Err((message, why)),
        }
    }

    /// Reads the body of a link message.
    #[tactic(auto, using(crate::proofs::ReadBack::readable))]
    pub(crate) fn read(alloc: Global, bytes: &[u8]) -> Result<ReadableLink, RouteFault>
        ensures ok { IfOk result (λ r. ruled_text link_body bytes.now ≡ Ok (readable_text r)) }
        ensures message { IfOk result (λ r. IsReadFrom bytes.now (readable_message r)) }
        ensures err { IfErr result (λ fault. fault ≢ RouteFault.Memory
            → ReasonOf fault (ruled_text link_body bytes.now)) }
        ensures memory { IfErr result (λ fault. fault ≡ RouteFault.Memory
            → is_ok (ruled_text link_body bytes.now) ≡ true) }
    {
        body_texts_are_canonical();
        bodies_are_headers_and_attributes();
        let Ok(message) = LinkMessage::parse(alloc, bytes) else {
            return Err(fault_of_unread(bytes));
        };
        if message.has_empty_ports() {
            return Err(RouteFault::EmptyPorts);
        }
        if !message.fits() {
            return Err(RouteFault::Unfit);
        }
        Ok(ReadableLink { message })
    }

    /// Returns the message.
    pub fn message(&self) -> &LinkMessage
        ensures message { result.now ≡ readable_message self.now }
        ensures readable { IsReadable result.now }
    {
        &self.message
    }

    /// Returns the message, by value.
    pub fn into_message(self) -> LinkMessage
        ensures message { result ≡ readable_message self }
        ensures readable { IsReadable result }
    {
        let ReadableLink { message } = self;
        message
    }
}

// Returns the reason why `LinkMessage::parse` returned no message for a body: it has no text, or an
// allocation failed.
fn fault_of_unread(bytes: &[u8]) -> RouteFault
    ensures reason { ReasonOf result (ruled_text link_body bytes.now) }
    ensures memory { result ≡ RouteFault.Memory → is_ok (ruled_text link_body bytes.now) ≡ true }
{
    match check(bytes) {
        Err(_) => RouteFault::Refused,
        Ok(measure) if measure.empty_ports => RouteFault::EmptyPorts,
        Ok(measure) if !measure.fits => RouteFault::Unfit,
        Ok(_) => RouteFault::Memory,
    }
}

/// Returns the bytes that a message is written as.
fn write_message(alloc: Global, message: &LinkMessage) -> Result<Vec<u8>, NotReadable>
    requires { link_message_fits message.now ≡ true }
    ensures ok { IfOk result (λ text. text.items ≡ link_message_text message.now) }
    ensures err { IfErr result (λ why. why ≡ NotReadable.Memory) }
{
    let size = message.buffer_len();
    if size == usize::MAX {
        return Err(NotReadable::Memory);
    }
    let Ok(mut text) = Vec::from_elem(alloc, 0u8, size) else {
        return Err(NotReadable::Memory);
    };
    message.emit(text.as_mut_slice());
    Ok(text)
}

/// Returns whether the second message is equal to the first one, which is written as `text`, and is
/// written as the same bytes.
fn is_read_back_as(
    alloc: Global,
    text: &[u8],
    message: &LinkMessage,
    read_back: &LinkMessage,
) -> Result<bool, NotReadable>
    requires { text.now ≡ link_message_text message.now }
    ensures ok { IfOk result (λ same. same ≡ is_read_back_as message.now read_back.now) }
    ensures err { IfErr result (λ why. why ≡ NotReadable.Memory) }
{
    if read_back != message || !read_back.fits() {
        return Ok(false);
    }
    Ok(write_message(alloc, read_back)?.as_slice() == text)
}

/// Returns Ok if a message is read back equal from the bytes that it is written as.
#[tactic(auto, using(crate::proofs::ReadBack::reads_back))]
fn reads_back(alloc: Global, message: &LinkMessage) -> Result<(), NotReadable>
    ensures ok { OnOk result (IsReadable message.now) }
    ensures unfit { IfErr result
        (λ why. (why ≡ NotReadable.Unfit) ↔ (link_message_fits message.now ≡ false)) }
    ensures otherwise { IfErr result
        (λ why. why ≡ NotReadable.ReadsOtherwise → IsNotReadBack message.now) }
{
    if !message.fits() {
        return Err(NotReadable::Unfit);
    }
    let text = write_message(alloc, message)?;
    let read_back = match LinkMessage::parse(alloc, text.as_slice()) {
        Ok(read_back) => read_back,
        Err(error) if error.is_memory() => return Err(NotReadable::Memory),
        Err(_) => return Err(NotReadable::ReadsOtherwise),
    };
    if read_back.has_empty_ports() {
        return Err(NotReadable::ReadsOtherwise);
    }
    if !is_read_back_as(alloc, text.as_slice(), message, &read_back)? {
        return Err(NotReadable::ReadsOtherwise);
    }
    Ok(())
}
