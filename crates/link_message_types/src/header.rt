//! The header of a link message: 16 bytes.

ghost use Rattle.std.specs.Prelude.{◌≡◌, ◌↔◌, ◌+◌, ◌≤◌, ⊤, false, length, drop, take, slice_index, IsOk, IfOk, IfErr, IsSome, IfSome};
ghost use Rattle.netlink_packet_core.specs.Bytes.{part};
ghost use Rattle.netlink_packet_core.specs.Errors.{is_memory};
ghost use Rattle.netlink_packet_core.specs.Numbers.{u16_at, le2, le4};
ghost use Rattle.link_message_grammar.specs.Body.{header_text};
ghost use Rattle.link_message_types.specs.AddressFamilies.{address_family_of};
ghost use Rattle.link_message_types.specs.Headers.{link_header_bytes};
ghost use Rattle.link_message_types.specs.LinkFlagTypes.{link_flags_bits};
ghost use Rattle.link_message_types.specs.LinkLayerTypes.{link_layer_type_of};

use super::address_family::AddressFamily;
use super::link_flag::LinkFlags;
use super::link_layer_type::LinkLayerType;
use super::record_buffer::{Record, RecordBuffer};
use bitflags::Flags;
use link_message_grammar::LINK_HEADER_LEN;
use netlink_packet_core::{DecodeError, Emitable, fill_u16, fill_u32, parse_u16, parse_u32};

/// The header of a link message, `struct ifinfomsg` of `linux/rtnetlink.h`. On the wire 16 bytes:
/// the family (1 byte), a byte that is ignored and written as 0, the layer type (2 bytes), the
/// index, the flags and the change mask (4 bytes each), in native order. The default is 16 zeros:
/// no family, no link, and no flags.
#[derive(Debug, PartialEq, Eq, Clone, Copy, Default)]
pub struct LinkHeader {
    /// The address family, which determines the table of the attributes: `ifi_family`.
    pub interface_family: AddressFamily,
    /// The type of the layer below the link: `ifi_type`.
    pub link_layer_type: LinkLayerType,
    /// The index of the link: `ifi_index`.
    pub index: u32,
    /// The flags: `ifi_flags`.
    pub flags: LinkFlags,
    /// The mask of the flags that a request changes: `ifi_change`.
    pub change_mask: LinkFlags,
}

impl LinkHeader {
    /// Reads the header at the start of some bytes. Allocates nothing.
    ///
    /// # Errors
    ///
    /// A refusal if there are fewer than 16 bytes.
    pub fn parse(bytes: &[u8]) -> Result<LinkHeader, DecodeError>
        ensures size { IsOk result ↔ (16 ≤ length bytes.now) }
        ensures text { IfOk result (λ h. link_header_bytes h ≡ header_text bytes.now) }
        ensures family { IfOk result
            (λ h. h.interface_family ≡ address_family_of (slice_index bytes.now 0)) }
        ensures layer_type { IfOk result
            (λ h. h.link_layer_type ≡ link_layer_type_of (u16_at 0 (part 2 4 bytes.now))) }
        ensures index { IfOk result (λ h. le4 h.index ≡ part 4 8 bytes.now) }
        ensures flags { IfOk result
            (λ h. le4 (link_flags_bits h.flags) ≡ part 8 12 bytes.now) }
        ensures change_mask { IfOk result
            (λ h. le4 (link_flags_bits h.change_mask) ≡ part 12 16 bytes.now) }
        ensures err { IfErr result (λ e. is_memory e ≡ false) }
    {
        if bytes.len() < LINK_HEADER_LEN {
            return Err(DecodeError::invalid_buffer("LinkHeader", bytes.len(), LINK_HEADER_LEN));
        }
        Ok(LinkHeader {
            interface_family: AddressFamily::from(bytes[0]),
            link_layer_type: LinkLayerType::from(parse_u16(&bytes[2..4])?),
            index: parse_u32(&bytes[4..8])?,
            flags: LinkFlags::from_bits_retain(parse_u32(&bytes[8..12])?),
            change_mask: LinkFlags::from_bits_retain(parse_u32(&bytes[12..LINK_HEADER_LEN])?),
        })
    }
}

impl Emitable for LinkHeader {
    ghost text = { link_header_bytes };

    ghost can_emit = { λ _. ⊤ };

    #[tactic(auto, using(crate::proofs::HeaderBytes::headers))]
    fn buffer_len(&self) -> usize {
        LINK_HEADER_LEN
    }

    #[tactic(auto, using(crate::proofs::HeaderBytes::headers), unfolding(crate::specs::Headers::link_header_bytes))]
    fn emit(&self, buffer: &mut [u8]) {
        let (header, _) = buffer.split_at_mut(LINK_HEADER_LEN);
        let (families, rest) = header.split_at_mut(2);
        families.copy_from_slice(&[u8::from(self.interface_family), 0]);
        let (layer_type, rest) = rest.split_at_mut(2);
        fill_u16(layer_type, u16::from(self.link_layer_type));
        let (index, rest) = rest.split_at_mut(4);
        fill_u32(index, self.index);
        let (flags, change_mask) = rest.split_at_mut(4);
        fill_u32(flags, self.flags.bits());
        fill_u32(change_mask, self.change_mask.bits());
    }
}

impl Record<16> for LinkHeader {
    #[tactic(auto, using(crate::proofs::HeaderBytes::headers))]
    fn to_bytes(&self) -> [u8; 16] {
        let mut bytes = [0; 16];
        self.emit(&mut bytes);
        bytes
    }
}

/// The 16 bytes of a header.
pub type LinkMessageBuffer = RecordBuffer<LinkHeader, 16>;
