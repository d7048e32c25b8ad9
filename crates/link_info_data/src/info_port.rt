//! The data of a kind of port (if_link.h, IFLA_INFO_SLAVE_DATA).

ghost use Rattle.std.specs.Prelude.{◌≡◌, true};
ghost use Rattle.link_info_data.specs.Outcomes.{IsPortDataRead};
ghost use Rattle.link_info_data.specs.PortData.{info_port_data_entry, info_port_data_fits, port_data_rule_of};
ghost use Rattle.attribute_tables.specs.Outcomes.{IsRefusedUnless, SucceedsIf};

use super::laws::port_names_determine_rules;
use crate::payloads::{emit_list, list_len};
use attribute_tables::{parse_bytes, parse_family};
use link_info_devices::{InfoBondPort, InfoBridgePort, InfoTeamPort, InfoVrf};
use link_info_kinds::InfoPortKind;
use link_interpreter::{BytesPeer, accepts_port_data};
use link_tables::IFLA_INFO_SLAVE_DATA;
use netlink_packet_core::{DecodeError, Nla, fits_all};
use std::alloc::Global;

/// An attribute of the data of a port of a `vrf`.
pub type InfoVrfPort = InfoVrf;

/// The data of a kind of port: a list of the kind's attributes, or bytes.
#[derive(Debug, PartialEq, Eq, Drop)]
pub enum InfoPortData {
    /// Attributes of a port of a `bond`.
    BondPort(Vec<InfoBondPort>),
    /// Attributes of a port of a `bridge`.
    BridgePort(Vec<InfoBridgePort>),
    /// Attributes of a port of a `vrf`.
    VrfPort(Vec<InfoVrfPort>),
    /// Attributes of a port of a `team`.
    TeamPort(Vec<InfoTeamPort>),
    /// The bytes of any other kind.
    Other(Vec<u8>),
}

// Whether the data of a port kind are accepted. Allocates nothing.
fn accepts(kind: &InfoPortKind, payload: &[u8]) -> bool
    ensures { result ≡ (port_data_rule_of kind.now).accepted payload.now }
{
    port_names_determine_rules();
    match kind {
        InfoPortKind::Other(_) => true,
        _ => accepts_port_data(&BytesPeer, kind.as_str().as_bytes(), payload),
    }
}

impl InfoPortData {
    // Reads the data of a port kind; it may run out of memory before it reaches an invalid
    // attribute.
    fn read(alloc: Global, payload: &[u8], kind: &InfoPortKind) -> Result<InfoPortData, DecodeError>
        ensures judged { SucceedsIf result ((port_data_rule_of kind.now).accepted payload.now) }
        ensures read { IsPortDataRead result kind.now (port_data_rule_of kind.now) payload.now }
    {
        match kind {
            InfoPortKind::Bond => Ok(Self::BondPort(parse_family(alloc, payload)?)),
            InfoPortKind::Bridge => Ok(Self::BridgePort(parse_family(alloc, payload)?)),
            InfoPortKind::Vrf => Ok(Self::VrfPort(parse_family(alloc, payload)?)),
            InfoPortKind::Team => Ok(Self::TeamPort(parse_family(alloc, payload)?)),
            InfoPortKind::Other(_) => Ok(Self::Other(parse_bytes(alloc, payload)?)),
        }
    }

    /// Reads the data of a port kind.
    ///
    /// The variant of the port kind decides, not its name: data of an `InfoPortKind::Other` with a
    /// listed name are kept as bytes.
    ///
    /// # Errors
    ///
    /// Out of memory if an allocation fails and the port kind's table accepts the data; any other
    /// [`DecodeError`] if and only if the table doesn't accept them. If an allocation fails, the
    /// rest is checked without allocating.
    pub fn parse_with_param(
        alloc: Global,
        payload: &[u8],
        kind: &InfoPortKind,
    ) -> Result<InfoPortData, DecodeError>
        ensures judged { IsRefusedUnless result ((port_data_rule_of kind.now).accepted payload.now) }
        ensures read { IsPortDataRead result kind.now (port_data_rule_of kind.now) payload.now }
    {
        let error = match Self::read(alloc, payload, kind) {
            Ok(data) => return Ok(data),
            Err(error) => error,
        };
        if error.is_memory() && !accepts(kind, payload) {
            return Err(DecodeError::from("no data of their port kind"));
        }
        Err(error)
    }
}

impl Nla for InfoPortData {
    ghost entry = { info_port_data_entry };

    ghost inside_fits = { info_port_data_fits };

    fn value_len(&self) -> usize {
        match self {
            Self::BondPort(list) => list_len(list),
            Self::BridgePort(list) => list_len(list),
            Self::VrfPort(list) => list_len(list),
            Self::TeamPort(list) => list_len(list),
            Self::Other(bytes) => bytes.len(),
        }
    }

    fn kind(&self) -> u16 {
        IFLA_INFO_SLAVE_DATA
    }

    fn emit_value(&self, buffer: &mut [u8]) {
        match self {
            Self::BondPort(list) => emit_list(list, buffer),
            Self::BridgePort(list) => emit_list(list, buffer),
            Self::VrfPort(list) => emit_list(list, buffer),
            Self::TeamPort(list) => emit_list(list, buffer),
            Self::Other(bytes) => buffer.copy_from_slice(bytes),
        }
    }

    fn contents_fit(&self) -> bool {
        match self {
            Self::BondPort(list) => fits_all(list),
            Self::BridgePort(list) => fits_all(list),
            Self::VrfPort(list) => fits_all(list),
            Self::TeamPort(list) => fits_all(list),
            Self::Other(_) => true,
        }
    }
}
