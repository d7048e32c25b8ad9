ghost use Rattle.std.specs.Prelude.{◌≡◌, ◌≤◌, ◌++◌, length, drop, true, false, ⊤};
ghost use Rattle.netlink_packet_core_messages.specs.NetlinkBuffers.{storage};
ghost use Rattle.netlink_packet_core_messages.specs.Headers.{header_of, header_text};

use super::buffer::{NETLINK_HEADER_LEN, NetlinkBuffer};
use netlink_packet_core_attributes::traits::{Emitable, Parseable};
use netlink_packet_core_numbers::error::DecodeError;
use netlink_packet_core_numbers::payloads::{fill_u16, fill_u32};
use std::alloc::Global;

/// The header of a frame (netlink.h, `struct nlmsghdr`). It is written as 16 bytes, its numbers
/// little-endian.
#[derive(Clone, Copy, Debug, PartialEq, Eq, Hash, Default, Drop)]
pub struct NetlinkHeader {
    /// The length of the frame in bytes, which counts the header.
    pub length: u32,
    /// The type of the message.
    pub message_type: u16,
    /// The flags, `NLM_F_` values joined.
    pub flags: u16,
    /// The sequence number.
    pub sequence_number: u32,
    /// The port of the sender.
    pub port_number: u32,
}

impl<'a> Parseable<NetlinkBuffer<&'a [u8]>> for NetlinkHeader {
    ghost can_parse = { λ b. 16 ≤ length (storage b).now };

    ghost accepts = { λ _. true };

    ghost may_allocate = { λ _. false };

    ghost gives = { λ b h. h ≡ header_of (storage b).now };

    #[tactic(auto, unfolding(crate::specs::Headers::header_of))]
    fn parse(_alloc: Global, buf: &NetlinkBuffer<&'a [u8]>) -> Result<Self, DecodeError> {
        Ok(NetlinkHeader {
            length: buf.length(),
            message_type: buf.message_type(),
            flags: buf.flags(),
            sequence_number: buf.sequence_number(),
            port_number: buf.port_number(),
        })
    }
}

impl Emitable for NetlinkHeader {
    ghost text = { header_text };

    ghost can_emit = { λ _. ⊤ };

    #[tactic(auto, using(crate::proofs::Headers::header_sizes))]
    fn buffer_len(&self) -> usize {
        NETLINK_HEADER_LEN
    }

    #[tactic(auto, using(crate::proofs::Headers::header_sizes))]
    fn emit(&self, buffer: &mut [u8]) {
        let (prefix, _) = buffer.split_at_mut(NETLINK_HEADER_LEN);
        let (length, rest) = prefix.split_at_mut(4);
        let (message_type, rest) = rest.split_at_mut(2);
        let (flags, rest) = rest.split_at_mut(2);
        let (sequence_number, port_number) = rest.split_at_mut(4);
        fill_u32(length, self.length);
        fill_u16(message_type, self.message_type);
        fill_u16(flags, self.flags);
        fill_u32(sequence_number, self.sequence_number);
        fill_u32(port_number, self.port_number);
    }
}
