//! A link message: the header of 16 bytes and the attributes of the link.

ghost use Rattle.std.specs.Prelude.{◌≡◌, ◌<◌, true, length, slice_index, Some, IsTrue, IfOk, IfErr, OnOk};
ghost use Rattle.netlink_packet_core.specs.Errors.{is_memory};
ghost use Rattle.attribute_tables_grammar.specs.Lists.{any, without_context};
ghost use Rattle.attribute_tables_grammar.specs.Readings.{reading_as};
ghost use Rattle.link_message_grammar.specs.Body.{attribute_bytes, attribute_row, family, header_text, link_body, link_peer};
ghost use Rattle.link_message_types.specs.AddressFamilies.{address_family_of};
ghost use Rattle.link_message_types.specs.Headers.{link_header_bytes};
ghost use Rattle.link_message.specs.LinkMessages.{link_message_text, link_message_fits, link_message_written};
ghost use Rattle.link_message.specs.LinkMessages.{link_message_names_row, link_message_empty_ports};

use link_message_attributes::LinkAttribute;
use link_message_grammar::laws::{bodies_are_headers_and_attributes, empty_ports_are_determined};
use link_message_types::laws::headers_are_sixteen_bytes;
use link_message_types::{LINK_HEADER_LEN, LinkHeader};
use netlink_packet_core::{DecodeError, Emitable, Nla, emit_all, fits_all, len_all};
use std::alloc::Global;

const IFLA_VF_PORTS: u16 = 24;

/// A link message (rtnetlink.h, RTM_NEWLINK and similar types): what follows the header of the
/// frame.
#[derive(Debug, PartialEq, Eq, Drop)]
pub struct LinkMessage {
    /// The header, `struct ifinfomsg`: 16 bytes.
    pub header: LinkHeader,
    /// The attributes, whose rows depend on the address family of the header.
    pub attributes: Vec<LinkAttribute>,
}

impl LinkMessage {
    /// Reads a message: a header of 16 bytes, followed by a list of attributes, each accepted by
    /// its row under the family of the header. The peers of `netkit`, `veth` and `vxcan` are judged
    /// as link bodies, one level deep; the value of a peer holds its canonical text, which this
    /// function can read in turn. Allocates the returned message, nothing for a header only.
    ///
    /// # Errors
    ///
    /// A refusal if the body isn't accepted; out of memory if an allocation fails for an accepted
    /// one. After a failed allocation the rest of the attributes is checked without allocating.
    #[tactic(auto, using(crate::proofs::Bodies::bodies))]
    pub fn parse(alloc: Global, bytes: &[u8]) -> Result<LinkMessage, DecodeError>
        ensures ok { OnOk result (IsTrue (link_body.accepted bytes.now)) }
        ensures header { IfOk result
            (λ m. link_header_bytes m.header ≡ header_text bytes.now) }
        ensures family { IfOk result
            (λ m. m.header.interface_family ≡ address_family_of (slice_index bytes.now 0)) }
        ensures read { IfOk result
            (λ m. reading_as any (without_context (attribute_row link_peer (family bytes.now)))
            (attribute_bytes bytes.now)
            ≡ Some (link_message_written m)) }
        ensures text { IfOk result (λ m. link_message_text m ≡ link_body.canonical bytes.now) }
        ensures fits { IfOk result (λ m. link_message_fits m ≡ link_body.fits bytes.now) }
        ensures empty_ports { IfOk result
            (λ m. link_message_empty_ports m ≡ link_body.empty_ports bytes.now) }
        ensures is_row_variant { IfOk result (λ m. link_message_names_row m) }
        ensures err { IfErr result (λ e. link_body.accepted bytes.now ≡ is_memory e) }
        ensures not_empty { IfErr result (λ e. is_memory e ≡ true → 16 < length bytes.now) }
    {
        bodies_are_headers_and_attributes();
        empty_ports_are_determined();
        let header = LinkHeader::parse(bytes)?;
        let (_, list) = bytes.split_at(LINK_HEADER_LEN);
        let attributes = LinkAttribute::parse_list(alloc, list, header.interface_family)?;
        Ok(LinkMessage { header, attributes })
    }

    /// Returns whether an attribute is written as a list of ports (IFLA_VF_PORTS) without an entry,
    /// which no accepted body has. A message that was read has one if the list in the body had only
    /// entries of kinds other than 1.
    #[tactic(auto, using(crate::proofs::Bodies::sizes))]
    pub fn has_empty_ports(&self) -> bool
        ensures { result ≡ link_message_empty_ports self.now }
    {
        self.attributes.iter().any(|attribute| attribute.kind() == IFLA_VF_PORTS
            && attribute.value_len() == 0)
    }

    /// Returns whether each length inside fits its 2 bytes.
    pub fn fits(&self) -> bool
        ensures { result ≡ link_message_fits self.now }
    {
        fits_all(&self.attributes)
    }
}

impl Emitable for LinkMessage {
    ghost text = { link_message_text };

    ghost can_emit = { λ m. link_message_fits m ≡ true };

    #[tactic(auto, using(crate::proofs::Texts::headers, attribute_tables::proofs::Lists::lists))]
    fn buffer_len(&self) -> usize {
        headers_are_sixteen_bytes();
        len_all(&self.attributes).saturating_add(LINK_HEADER_LEN)
    }

    #[tactic(auto, using(crate::proofs::Texts::headers, attribute_tables::proofs::Lists::lists))]
    fn emit(&self, buffer: &mut [u8]) {
        headers_are_sixteen_bytes();
        let (header, attributes) = buffer.split_at_mut(LINK_HEADER_LEN);
        self.header.emit(header);
        emit_all(&self.attributes, attributes);
    }
}
