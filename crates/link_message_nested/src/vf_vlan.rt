//! VLANs of virtual functions (if_link.h, IFLA_VF_VLAN_*).

ghost use Rattle.std.specs.Prelude.{◌≡◌, true};
ghost use Rattle.netlink_packet_core.specs.AttributeViews.{BeginsWithAttribute};
ghost use Rattle.netlink_packet_core.specs.NlaBuffers.{storage};
ghost use Rattle.netlink_packet_core.specs.Families.{Gives, accepts, may_allocate};
ghost use Rattle.attribute_tables_grammar.specs.LookUps.{table_row};
ghost use Rattle.attribute_tables_grammar.specs.Peers.{bytes_peer};
ghost use Rattle.link_message_grammar.specs.NestedTables.{vf_vlans};
ghost use Rattle.link_message_nested.specs.VfVlans.{vf_vlan_entry, vf_vlan_names_row};

use attribute_tables::Reader;
use link_message_records::{FieldRecord, VfVlanInfo, emit_record};
use netlink_packet_core::{DecodeError, DefaultNla, Emitable, Nla, NlaBuffer, Parseable};
use std::alloc::Global;

const IFLA_VF_VLAN_INFO: u16 = 1;

/// A VLAN of a virtual function.
#[derive(Debug, PartialEq, Eq, Drop)]
pub enum VfVlan {
    /// `IFLA_VF_VLAN_INFO`: the VLAN, written as 16 bytes and read from at least 14.
    Info(VfVlanInfo),
    /// Any other kind, kept unchanged.
    Other(DefaultNla),
}

impl Nla for VfVlan {
    ghost entry = { vf_vlan_entry };

    ghost inside_fits = { λ _. true };

    fn value_len(&self) -> usize {
        match self {
            Self::Info(record) => record.buffer_len(),
            Self::Other(nla) => nla.value_len(),
        }
    }

    fn kind(&self) -> u16 {
        match self {
            Self::Info(_) => IFLA_VF_VLAN_INFO,
            Self::Other(nla) => nla.kind(),
        }
    }

    fn emit_value(&self, buffer: &mut [u8]) {
        match self {
            Self::Info(record) => emit_record(record, buffer),
            Self::Other(nla) => nla.emit_value(buffer),
        }
    }

    fn contents_fit(&self) -> bool {
        true
    }
}

/// The reader of VLANs of a virtual function.
pub struct VfVlanReader;

impl Reader for VfVlanReader {
    type Value = VfVlan;

    ghost row_of = { λ _. table_row bytes_peer vf_vlans };

    ghost is_row_variant = { λ _. vf_vlan_names_row };

    ghost may_allocate = { λ _. may_allocate vf_vlans };

    #[tactic(auto, using(crate::proofs::VfRules::vf_rules))]
    fn read(&self, alloc: Global, buf: &NlaBuffer<&[u8]>) -> Result<VfVlan, DecodeError> {
        let payload = buf.value();
        match buf.kind() {
            IFLA_VF_VLAN_INFO => Ok(VfVlan::Info(VfVlanInfo::parse(payload)?)),
            _ => Ok(VfVlan::Other(DefaultNla::parse(alloc, buf)?)),
        }
    }
}

impl<'a> Parseable<NlaBuffer<&'a [u8]>> for VfVlan {
    ghost can_parse = { λ b. BeginsWithAttribute (storage b).now };

    ghost accepts = { λ b. accepts vf_vlans (storage b).now };

    ghost may_allocate = { λ b. may_allocate vf_vlans (storage b).now };

    ghost gives = { λ b v. Gives vf_vlans (storage b).now (vf_vlan_entry v) × vf_vlan_names_row v };

    fn parse(alloc: Global, buf: &NlaBuffer<&'a [u8]>) -> Result<Self, DecodeError> {
        VfVlanReader.read(alloc, buf)
    }
}
