//! Ports of virtual functions (if_link.h, IFLA_PORT_*), each attribute kept unchanged.

ghost use Rattle.std.specs.Prelude.{◌≡◌, ◌&&◌, ◌<◌, ⊤, true, length, refl};
ghost use Rattle.netlink_packet_core.specs.AttributeViews.{viewed_attribute, viewed_payload, BeginsWithAttribute};
ghost use Rattle.netlink_packet_core.specs.Families.{family_row};
ghost use Rattle.netlink_packet_core.specs.NlaBuffers.{storage};
ghost use Rattle.attribute_tables_grammar.specs.Lists.{is_of_kind_one, ports};
ghost use Rattle.attribute_tables_grammar.specs.LookUps.{table_list_rule};
ghost use Rattle.attribute_tables_grammar.specs.Peers.{bytes_peer};
ghost use Rattle.attribute_tables_grammar.specs.Tables.{Table.end};
ghost use Rattle.attribute_tables.specs.Beginnings.{begins_accepted};
ghost use Rattle.link_message_grammar.specs.NestedTables.{vf_ports};
ghost use Rattle.link_message_nested.specs.VfPorts.{vf_port_entry, link_vf_port_entry, link_vf_port_fits, vf_port_row};
ghost use Rattle.link_message_nested.specs.VfPorts.{is_vf_port, IsVfPortOf, vf_ports_begin_readable};
ghost use Rattle.attribute_tables.specs.Outcomes.{IfMemory, ListIsWrittenBy, SucceedsIf};

use attribute_tables::{EntryReader, parse_family, parse_ports};
use attribute_tables_grammar::laws::rows_are_looked_up;
use netlink_packet_core::{
    DecodeError, DefaultNla, Family, Field, FieldNla, Nla, NlaBuffer, Parseable, emit_all,
    fits_all, len_all,
};
use std::alloc::Global;

/// An attribute of the port of a virtual function.
#[derive(Debug, PartialEq, Eq, Drop)]
pub enum VfPort {
    /// Any kind, kept unchanged.
    Other(DefaultNla),
}

impl FieldNla for VfPort {
    ghost field_entry = { vf_port_entry };

    fn field(&self) -> (u16, Field<'_>) {
        let Self::Other(nla) = self;
        (nla.kind(), Field::Bytes(nla.value()))
    }
}

impl Family for VfPort {
    ghost rows = { end };

    ghost is_row_variant = { λ _. ⊤ };

    fn read_row(_alloc: Global, _kind: u16, _payload: &[u8]) -> Result<Option<Self>, DecodeError> {
        Ok(None)
    }

    fn other(nla: DefaultNla) -> Self {
        Self::Other(nla)
    }

    ghost plain = { refl };
}

const IFLA_VF_PORT: u16 = 1;

/// `IFLA_VF_PORT`: the attributes of one port.
#[derive(Debug, PartialEq, Eq, Drop)]
pub struct LinkVfPort(pub Vec<VfPort>);

impl Nla for LinkVfPort {
    ghost entry = { link_vf_port_entry };

    ghost inside_fits = { link_vf_port_fits };

    #[tactic(auto, using(attribute_tables::proofs::Lists::lists))]
    fn value_len(&self) -> usize {
        len_all(&self.0)
    }

    fn kind(&self) -> u16 {
        IFLA_VF_PORT
    }

    #[tactic(auto, using(attribute_tables::proofs::Lists::lists))]
    fn emit_value(&self, buffer: &mut [u8]) {
        emit_all(&self.0, buffer);
    }

    fn contents_fit(&self) -> bool {
        fits_all(&self.0)
    }
}

/// The reader of ports.
pub struct LinkVfPortReader;

impl EntryReader for LinkVfPortReader {
    type Value = LinkVfPort;

    ghost entry_row = { λ _. vf_port_row };

    ghost is_row_variant = { λ _ _. ⊤ };

    ghost may_allocate = { λ _. begins_accepted (family_row end) };

    #[tactic(auto, using(crate::proofs::VfRules::vf_rules))]
    fn read(&self, alloc: Global, buf: &NlaBuffer<&[u8]>) -> Result<LinkVfPort, DecodeError> {
        rows_are_looked_up();
        Ok(LinkVfPort(parse_family(alloc, buf.value())?))
    }
}

/// Reads a list of ports (`IFLA_VF_PORTS`), which has at least one attribute, and of which the
/// attributes of kind 1 are kept. Allocates the returned list.
///
/// # Errors
///
/// A refusal if the list isn't accepted; out of memory if an allocation fails, which may hide a
/// refusal of a later attribute.
#[tactic(auto, using(crate::proofs::VfRules::vf_rules), unfolding(crate::specs::VfPorts::vf_ports_begin_readable))]
pub fn parse_vf_ports(alloc: Global, bytes: &[u8]) -> Result<Vec<LinkVfPort>, DecodeError>
    ensures judged { SucceedsIf result ((table_list_rule bytes_peer ports vf_ports).accepted bytes.now) }
    ensures written { ListIsWrittenBy result link_vf_port_entry link_vf_port_fits
        (table_list_rule bytes_peer ports vf_ports) bytes.now }
    ensures not_empty { IfMemory result (0 < length bytes.now) }
    ensures memory { IfMemory result (vf_ports_begin_readable bytes.now ≡ true) }
{
    rows_are_looked_up();
    parse_ports(alloc, &LinkVfPortReader, bytes)
}

impl<'a> Parseable<NlaBuffer<&'a [u8]>> for LinkVfPort {
    ghost can_parse = { λ b. BeginsWithAttribute (storage b).now };

    ghost accepts = { λ b. is_vf_port (storage b).now };

    ghost may_allocate = { λ b. is_of_kind_one (viewed_attribute (storage b).now)
        && begins_accepted (family_row end) (viewed_payload (storage b).now) };

    ghost gives = { λ b v. IsVfPortOf (storage b).now v };

    fn parse(alloc: Global, buf: &NlaBuffer<&'a [u8]>) -> Result<Self, DecodeError> {
        if buf.kind() != IFLA_VF_PORT {
            return Err(DecodeError::from("a port of another kind than 1"));
        }
        LinkVfPortReader.read(alloc, buf)
    }
}
