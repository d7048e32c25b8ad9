//! The kind of a port (if_link.h, IFLA_INFO_SLAVE_KIND): the name of its master's driver.

ghost use Rattle.std.specs.Prelude.{◌≡◌, ◌++◌, ◌∷◌, [], true, Some, IfOk, IfErr};
ghost use Rattle.netlink_packet_core.specs.AttributeViews.{BeginsWithAttribute, viewed_payload};
ghost use Rattle.netlink_packet_core.specs.Errors.{is_memory};
ghost use Rattle.netlink_packet_core.specs.Named.{named_by};
ghost use Rattle.netlink_packet_core.specs.NlaBuffers.{storage};
ghost use Rattle.netlink_packet_core.specs.Texts.{without_nul};
ghost use Rattle.link_info_grammar.specs.Families.{port_kind_names};
ghost use Rattle.link_info_grammar.specs.KindNames.{is_unlisted};
ghost use Rattle.link_info_kinds.specs.PortKinds.{info_port_kind_accepted, info_port_kind_allocates};
ghost use Rattle.link_info_kinds.specs.PortKinds.{info_port_kind_entry, info_port_kind_text, info_port_kind_is_named};
ghost use Rattle.link_info_kinds.specs.PortKinds.{listed_port_kinds, IsPortNamedBy};

use link_tables::IFLA_INFO_SLAVE_KIND;
use netlink_packet_core::{DecodeError, Field, FieldNla, NlaBuffer, Parseable, parse_str};
use std::alloc::Global;
use std::fmt;

const BOND: &str = "bond";

const BRIDGE: &str = "bridge";

const VRF: &str = "vrf";

const TEAM: &str = "team";

/// The kind of a port. It is encoded as its name, in UTF-8, and one NUL, which a reader doesn't
/// require.
#[derive(Debug, PartialEq, Eq, Drop)]
pub enum InfoPortKind {
    /// A port of a bond. `bond`.
    Bond,
    /// A port of a bridge. `bridge`.
    Bridge,
    /// A port of a virtual routing and forwarding domain. `vrf`.
    Vrf,
    /// A port of a team. `team`.
    Team,
    /// Any other name.
    Other(String),
}

impl InfoPortKind {
    /// Returns the port kind with this name.
    ///
    /// # Errors
    ///
    /// Out of memory, and no other [`DecodeError`], if the allocation of the name fails; a listed
    /// name is never allocated.
    pub fn from_name(alloc: Global, name: &str) -> Result<InfoPortKind, DecodeError>
        ensures text { IfOk result (λ k. info_port_kind_text k ≡ name.now) }
        ensures named { IfOk result (λ k. info_port_kind_is_named k ≡ true) }
        ensures err { IfErr result (λ e. is_memory e ≡ true) }
        ensures memory { IfErr result (λ _. is_unlisted port_kind_names name.now ≡ true) }
    {
        match Self::with_name(name) {
            Some(kind) => Ok(kind),
            None => Ok(Self::Other(String::from_str(alloc, name)?)),
        }
    }

    // The variant with this name.
    fn with_name(name: &str) -> Option<InfoPortKind>
        ensures { result ≡ named_by info_port_kind_text listed_port_kinds name.now }
    {
        match name {
            BOND => Some(Self::Bond),
            BRIDGE => Some(Self::Bridge),
            VRF => Some(Self::Vrf),
            TEAM => Some(Self::Team),
            _ => None,
        }
    }

    /// Returns the name of the port kind.
    pub fn as_str(&self) -> &str
        ensures { result.now ≡ info_port_kind_text self.now }
    {
        match self {
            Self::Bond => BOND,
            Self::Bridge => BRIDGE,
            Self::Vrf => VRF,
            Self::Team => TEAM,
            Self::Other(name) => name.as_str(),
        }
    }
}

impl fmt::Display for InfoPortKind {
    ghost output = { λ k. Some (info_port_kind_text k) };

    ghost styled_output = { λ k _. Some (info_port_kind_text k) };

    fn fmt<W: fmt::Write>(&self, f: &mut fmt::Formatter<W>) -> fmt::Result {
        f.write_str(self.as_str())
    }
}

impl FieldNla for InfoPortKind {
    ghost field_entry = { info_port_kind_entry };

    fn field(&self) -> (u16, Field<'_>) {
        (IFLA_INFO_SLAVE_KIND, Field::Text(self.as_str()))
    }
}

impl<'a> Parseable<NlaBuffer<&'a [u8]>> for InfoPortKind {
    ghost can_parse = { λ b. BeginsWithAttribute (storage b).now };

    ghost accepts = { λ b. info_port_kind_accepted (storage b).now };

    // Out of memory occurs only for an accepted attribute.
    ghost may_allocate = { λ b. info_port_kind_allocates (storage b).now };

    ghost gives = { λ b k. IsPortNamedBy (without_nul (viewed_payload (storage b).now)) k };

    fn parse(alloc: Global, buf: &NlaBuffer<&'a [u8]>) -> Result<Self, DecodeError> {
        if buf.kind() != IFLA_INFO_SLAVE_KIND {
            return Err(DecodeError::from("not an IFLA_INFO_SLAVE_KIND"));
        }
        InfoPortKind::from_name(alloc, parse_str(buf.value())?)
    }
}
