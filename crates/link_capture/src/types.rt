//! The types of messages of a capture, with their invariants.

ghost use Rattle.link_capture.specs.KeptTypes.{IsOtherType};
ghost use Rattle.link_capture.specs.Readable.{IsReadable};

use link_message::LinkMessage;
use netlink_packet_core::ByteVec;

/// A link message that fits, and that is read back equal from the bytes that it is written as.
#[derive(Debug, PartialEq, Eq, Drop)]
pub struct ReadableLink {
    pub(crate) message: LinkMessage,
    ghost readable: { IsReadable message },
}

/// A message that is neither a control message (types 1 to 4) nor one of links (types 16 to 19).
/// Its body is kept as it is.
#[derive(Debug, PartialEq, Eq, Drop)]
pub struct OtherMessage {
    pub(crate) message_type: u16,
    pub(crate) bytes: ByteVec,
    ghost kept: { IsOtherType message_type },
}
