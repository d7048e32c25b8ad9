//! Messages whose bodies are kept as they are.

ghost use Rattle.std.specs.Prelude.{◌≡◌, ◌↔◌, ◌<◌, length, IsTrue, IfOk, IfErr};
ghost use Rattle.link_capture.specs.KeptTypes.{IsOtherType};
ghost use Rattle.link_capture.specs.Views.{other_type, other_bytes};

use super::types::OtherMessage;
use link_capture_grammar::link_types::{RTM_NEWLINK, RTM_SETLINK};
use netlink_packet_core::{ByteVec, NLMSG_NOOP, NLMSG_OVERRUN};
use std::alloc::{AllocError, Global};

impl OtherMessage {
    /// Returns whether the bodies of messages of a type are kept as they are: the type is outside 1
    /// to 4 and 16 to 19.
    pub fn is_kept_type(message_type: u16) -> bool
        ensures { IsTrue result ↔ IsOtherType message_type }
    {
        !matches!(message_type, NLMSG_NOOP..=NLMSG_OVERRUN | RTM_NEWLINK..=RTM_SETLINK)
    }

    /// Returns a message of a type, see `is_kept_type`, with the bytes of its body. Allocates
    /// nothing.
    pub fn new(message_type: u16, bytes: Vec<u8>) -> Self
        requires { IsOtherType message_type }
        ensures message_type { other_type result ≡ message_type }
        ensures bytes { other_bytes result ≡ bytes.items }
    {
        OtherMessage {
            message_type,
            bytes: ByteVec::from(bytes),
        }
    }

    /// Returns a message of a type, see `is_kept_type`, with a copy of the bytes of its body.
    /// Allocates nothing for an empty body.
    pub(crate) fn from_slice(
        alloc: Global,
        message_type: u16,
        bytes: &[u8],
    ) -> Result<Self, AllocError>
        requires { IsOtherType message_type }
        ensures message_type { IfOk result (λ m. other_type m ≡ message_type) }
        ensures bytes { IfOk result (λ m. other_bytes m ≡ bytes.now) }
        ensures not_empty { IfErr result (λ _. 0 < length bytes.now) }
    {
        Ok(OtherMessage {
            message_type,
            bytes: ByteVec::from_slice(alloc, bytes)?,
        })
    }

    /// Returns the type of the message.
    pub fn message_type(&self) -> u16
        ensures same_type { result ≡ other_type self.now }
        ensures kept { IsOtherType result }
    {
        self.message_type
    }

    /// Returns the bytes of its body.
    pub fn bytes(&self) -> &[u8]
        ensures { result.now ≡ other_bytes self.now }
    {
        self.bytes.as_slice()
    }

    /// Returns the bytes of its body, as a vector.
    pub fn into_bytes(self) -> Vec<u8>
        ensures { result.items ≡ other_bytes self }
    {
        let OtherMessage { bytes, .. } = self;
        bytes.into_vec()
    }
}
