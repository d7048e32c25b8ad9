//! The attributes of all address families of a link (if_link.h, IFLA_AF_SPEC): a list for each
//! family, under its number.

ghost use Rattle.std.specs.Prelude.{◌≡◌, ◌<◌, true, length, IfOk, IfErr};
ghost use Rattle.std.specs.List.{All};
ghost use Rattle.netlink_packet_core.specs.AttributeViews.{BeginsWithAttribute};
ghost use Rattle.netlink_packet_core.specs.Families.{Gives, accepts, family_row};
ghost use Rattle.netlink_packet_core.specs.NlaBuffers.{storage};
ghost use Rattle.attribute_tables_grammar.specs.Lists.{any};
ghost use Rattle.attribute_tables_grammar.specs.LookUps.{table_list_rule, table_row};
ghost use Rattle.attribute_tables_grammar.specs.Peers.{bytes_peer};
ghost use Rattle.attribute_tables.specs.Views.{fits_by};
ghost use Rattle.attribute_tables.specs.Beginnings.{begins_readable, table_may_allocate};
ghost use Rattle.link_message_grammar.specs.NestedTables.{specific};
ghost use Rattle.link_message_nested.specs.AddressFamilies.{af_spec_unspec_entry, af_spec_unspec_fits, af_spec_unspec_names_row};
ghost use Rattle.attribute_tables.specs.Outcomes.{IfMemory, ListIsWrittenBy, SucceedsIf};

use super::inet::{AfSpecInet, AfSpecInetReader};
use super::inet6::{AfSpecInet6, AfSpecInet6Reader};
use super::mctp::AfSpecMctp;
use attribute_tables::{Reader, parse_family, parse_list};
use attribute_tables_grammar::laws::rows_are_looked_up;
use netlink_packet_core::{
    DecodeError, DefaultNla, Nla, NlaBuffer, Parseable, emit_all, fits_all, len_all,
};
use std::alloc::Global;

const AF_INET: u16 = 2;

const AF_INET6: u16 = 10;

const AF_MCTP: u16 = 45;

/// The attributes of one address family.
#[derive(Debug, PartialEq, Eq, Drop)]
pub enum AfSpecUnspec {
    /// `AF_INET`: the IPv4 settings; a list of attributes.
    Inet(Vec<AfSpecInet>),
    /// `AF_INET6`: the IPv6 state and settings; a list of attributes.
    Inet6(Vec<AfSpecInet6>),
    /// `AF_MCTP`: the settings of the management component transport protocol; a list of
    /// attributes.
    Mctp(Vec<AfSpecMctp>),
    /// Any other kind, kept unchanged.
    Other(DefaultNla),
}

impl Nla for AfSpecUnspec {
    ghost entry = { af_spec_unspec_entry };

    ghost inside_fits = { af_spec_unspec_fits };

    #[tactic(auto, using(attribute_tables::proofs::Lists::lists))]
    fn value_len(&self) -> usize {
        match self {
            Self::Inet(list) => len_all(list),
            Self::Inet6(list) => len_all(list),
            Self::Mctp(list) => len_all(list),
            Self::Other(nla) => nla.value_len(),
        }
    }

    fn kind(&self) -> u16 {
        match self {
            Self::Inet(_) => AF_INET,
            Self::Inet6(_) => AF_INET6,
            Self::Mctp(_) => AF_MCTP,
            Self::Other(nla) => nla.kind(),
        }
    }

    #[tactic(auto, using(attribute_tables::proofs::Lists::lists))]
    fn emit_value(&self, buffer: &mut [u8]) {
        match self {
            Self::Inet(list) => emit_all(list, buffer),
            Self::Inet6(list) => emit_all(list, buffer),
            Self::Mctp(list) => emit_all(list, buffer),
            Self::Other(nla) => nla.emit_value(buffer),
        }
    }

    fn contents_fit(&self) -> bool {
        match self {
            Self::Inet(list) => fits_all(list),
            Self::Inet6(list) => fits_all(list),
            Self::Mctp(list) => fits_all(list),
            Self::Other(_) => true,
        }
    }
}

/// The reader of the attributes of all address families.
pub struct AfSpecUnspecReader;

impl Reader for AfSpecUnspecReader {
    type Value = AfSpecUnspec;

    ghost row_of = { λ _. table_row bytes_peer specific };

    ghost is_row_variant = { λ _. af_spec_unspec_names_row };

    ghost may_allocate = { λ _. table_may_allocate specific };

    #[tactic(auto, using(crate::proofs::FamilyRules::family_rules, attribute_tables::proofs::Families::family_lists))]
    fn read(&self, alloc: Global, buf: &NlaBuffer<&[u8]>) -> Result<AfSpecUnspec, DecodeError> {
        rows_are_looked_up();
        let payload = buf.value();
        match buf.kind() {
            AF_INET => Ok(AfSpecUnspec::Inet(parse_list(alloc, &AfSpecInetReader, payload)?)),
            AF_INET6 => Ok(AfSpecUnspec::Inet6(parse_list(alloc, &AfSpecInet6Reader, payload)?)),
            AF_MCTP => Ok(AfSpecUnspec::Mctp(parse_family(alloc, payload)?)),
            _ => Ok(AfSpecUnspec::Other(DefaultNla::parse(alloc, buf)?)),
        }
    }
}

impl<'a> Parseable<NlaBuffer<&'a [u8]>> for AfSpecUnspec {
    ghost can_parse = { λ b. BeginsWithAttribute (storage b).now };

    ghost accepts = { λ b. accepts specific (storage b).now };

    ghost may_allocate = { λ b. table_may_allocate specific (storage b).now };

    ghost gives = { λ b v. Gives specific (storage b).now (af_spec_unspec_entry v)
        × (af_spec_unspec_fits v ≡ fits_by (family_row specific) (storage b).now)
        × af_spec_unspec_names_row v };

    fn parse(alloc: Global, buf: &NlaBuffer<&'a [u8]>) -> Result<Self, DecodeError> {
        AfSpecUnspecReader.read(alloc, buf)
    }
}

/// Reads the attributes of all address families (`IFLA_AF_SPEC`). Allocates the returned list,
/// nothing for no bytes.
///
/// # Errors
///
/// A refusal if the list isn't accepted, which a list of no bytes always is; out of memory if an
/// allocation fails. This may hide a refusal of a later attribute, but not of the first one.
#[tactic(auto, using(crate::proofs::FamilyRules::family_rules))]
pub fn parse_families(alloc: Global, bytes: &[u8]) -> Result<Vec<AfSpecUnspec>, DecodeError>
    ensures judged { SucceedsIf result ((table_list_rule bytes_peer any specific).accepted bytes.now) }
    ensures written { ListIsWrittenBy result af_spec_unspec_entry af_spec_unspec_fits
        (table_list_rule bytes_peer any specific) bytes.now }
    ensures is_row_variant { IfOk result (λ v. All af_spec_unspec_names_row v.items) }
    ensures not_empty { IfErr result (λ _. 0 < length bytes.now) }
    ensures memory { IfMemory result
        (begins_readable (family_row specific) (table_may_allocate specific) bytes.now ≡ true) }
{
    rows_are_looked_up();
    parse_list(alloc, &AfSpecUnspecReader, bytes)
}
