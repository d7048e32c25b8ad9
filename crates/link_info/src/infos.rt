//! Link info (if_link.h, IFLA_LINKINFO): the kind of a link and of its port, with the data of each.
//! Data and statistics are read under the kind in force, the latest one before them; port data are
//! read under the latest port kind, which is then no longer in force.

ghost use Rattle.std.specs.Prelude.{◌≡◌, ◌<◌, false, true, length, Some, IfOk, IfErr};
ghost use Rattle.netlink_packet_core.specs.AttributeViews.{BeginsWithAttribute};
ghost use Rattle.netlink_packet_core.specs.NlaBuffers.{storage};
ghost use Rattle.attribute_tables_grammar.specs.Lists.{any, no_kind_in_force};
ghost use Rattle.attribute_tables_grammar.specs.Peers.{RuleOfPeers, bytes_peer};
ghost use Rattle.attribute_tables_grammar.specs.Readings.{reading_as, AreRowVariants};
ghost use Rattle.link_info_grammar.specs.LinkInfo.{data_rule, port_data_rule, info_grammar, info_rule};
ghost use Rattle.link_info_data.specs.Data.{info_data_fits, info_data_payload};
ghost use Rattle.link_info_data.specs.PortData.{info_port_data_fits, info_port_data_payload};
ghost use Rattle.link_info.specs.LinkInfo.{data_is_row_variant, port_data_is_row_variant};
ghost use Rattle.link_info.specs.LinkInfo.{context_after_first, in_force, is_accepted_in, fits_in, written_in};
ghost use Rattle.link_info.specs.LinkInfo.{link_info_entry, link_info_fits, link_info_is_row_variant};
ghost use Rattle.attribute_tables.specs.Outcomes.{IsRefusedUnless, IsWrittenBy, ListIsReadAs, ListIsWrittenBy, SucceedsIf};

use super::laws::{names_determine_rules, port_data_have_one_rule, port_names_determine_rules};
use attribute_tables_grammar::laws::{contexts_unfold, readings_determine_rules, readings_unfold};
use link_info_data::{InfoData, InfoPortData, LinkXstats};
use link_info_grammar::laws::info_grammar_is_lawful;
use link_info_kinds::{InfoKind, InfoPortKind};
use link_interpreter::{BytesPeer, PeerRule, list_error_with};
use link_tables::{
    IFLA_INFO_DATA, IFLA_INFO_KIND, IFLA_INFO_SLAVE_DATA, IFLA_INFO_SLAVE_KIND, IFLA_INFO_XSTATS,
};
use netlink_packet_core::{
    DecodeError, DefaultNla, Emitable, Nla, NlaBuffer, Parseable, parse_str, skip_first,
};
use std::alloc::Global;

/// An attribute of link info.
#[derive(Debug, PartialEq, Eq, Drop)]
pub enum LinkInfo {
    /// `IFLA_INFO_XSTATS`: statistics of the kind in force.
    Xstats(LinkXstats),
    /// `IFLA_INFO_KIND`: the kind, in force until the next one.
    Kind(InfoKind),
    /// `IFLA_INFO_DATA`: data of the kind in force.
    Data(InfoData),
    /// `IFLA_INFO_SLAVE_KIND`: the port kind, in force until the next one, or until port data.
    PortKind(InfoPortKind),
    /// `IFLA_INFO_SLAVE_DATA`: data of the port kind in force, which is then no longer in force.
    PortData(InfoPortData),
    /// Any other kind, kept as it is.
    Other(DefaultNla),
}

impl Nla for LinkInfo {
    ghost entry = { link_info_entry };

    ghost inside_fits = { link_info_fits };

    fn value_len(&self) -> usize {
        match self {
            Self::Xstats(statistics) => statistics.buffer_len(),
            Self::Kind(kind) => kind.value_len(),
            Self::Data(data) => data.value_len(),
            Self::PortKind(kind) => kind.value_len(),
            Self::PortData(data) => data.value_len(),
            Self::Other(nla) => nla.value_len(),
        }
    }

    fn kind(&self) -> u16 {
        match self {
            Self::Xstats(_) => IFLA_INFO_XSTATS,
            Self::Kind(_) => IFLA_INFO_KIND,
            Self::Data(_) => IFLA_INFO_DATA,
            Self::PortKind(_) => IFLA_INFO_SLAVE_KIND,
            Self::PortData(_) => IFLA_INFO_SLAVE_DATA,
            Self::Other(nla) => nla.kind(),
        }
    }

    fn emit_value(&self, buffer: &mut [u8]) {
        match self {
            Self::Xstats(statistics) => statistics.emit(buffer),
            Self::Kind(kind) => kind.emit_value(buffer),
            Self::Data(data) => data.emit_value(buffer),
            Self::PortKind(kind) => kind.emit_value(buffer),
            Self::PortData(data) => data.emit_value(buffer),
            Self::Other(nla) => nla.emit_value(buffer),
        }
    }

    fn contents_fit(&self) -> bool {
        match self {
            Self::Data(data) => data.contents_fit(),
            Self::PortData(data) => data.contents_fit(),
            _ => true,
        }
    }
}

/// The names of the kind and the port kind in force, borrowed from the list.
#[derive(Clone, Copy)]
struct NamesInForce<'a> {
    kind: Option<&'a str>,
    port_kind: Option<&'a str>,
}

// The kinds in force after an attribute that was read. If this fails, the attribute is rejected
// under every rule of peers.
fn next_in_force<'a>(
    force: NamesInForce<'a>,
    buf: &NlaBuffer<&'a [u8]>,
) -> Result<NamesInForce<'a>, DecodeError>
    requires { BeginsWithAttribute (storage buf.now).now }
    ensures next { IfOk result
        (λ f. in_force f ≡ context_after_first (in_force force.entry) (storage buf.now).now) }
    ensures err { IfErr result
        (λ _. (p : RuleOfPeers)
        → is_accepted_in p (in_force force.entry) (storage buf.now).now ≡ false) }
{
    match buf.kind() {
        IFLA_INFO_KIND => Ok(NamesInForce {
            kind: Some(parse_str(buf.value())?),
            port_kind: force.port_kind,
        }),
        IFLA_INFO_SLAVE_KIND => Ok(NamesInForce {
            kind: force.kind,
            port_kind: Some(parse_str(buf.value())?),
        }),
        IFLA_INFO_SLAVE_DATA => Ok(NamesInForce {
            kind: force.kind,
            port_kind: None,
        }),
        _ => Ok(force),
    }
}

// Reads the data of the kind with this name, a peer by a rule.
fn parse_data<R: PeerRule>(
    alloc: Global,
    name: &str,
    payload: &[u8],
    rule: &R,
) -> Result<InfoData, DecodeError>
    ensures judged { SucceedsIf result ((data_rule R.peer name.now).accepted payload.now) }
    ensures written { IsWrittenBy result info_data_payload info_data_fits
        (data_rule R.peer name.now) payload.now }
    ensures is_row_variant { IfOk result (λ d. data_is_row_variant (Some name.now) d) }
{
    names_determine_rules();
    let kind = InfoKind::from_name(alloc, name)?;
    InfoData::parse_with_peers(alloc, payload, &kind, rule)
}

// Reads the data of the port kind with this name.
fn parse_port_data(alloc: Global, name: &str, payload: &[u8]) -> Result<InfoPortData, DecodeError>
    ensures judged { SucceedsIf result ((port_data_rule bytes_peer name.now).accepted payload.now) }
    ensures written { IsWrittenBy result info_port_data_payload info_port_data_fits
        (port_data_rule bytes_peer name.now) payload.now }
    ensures is_row_variant { IfOk result (λ d. port_data_is_row_variant (Some name.now) d) }
{
    port_names_determine_rules();
    let kind = InfoPortKind::from_name(alloc, name)?;
    InfoPortData::parse_with_param(alloc, payload, &kind)
}

impl LinkInfo {
    // Reads one attribute with these kinds in force, a peer by a rule.
    fn read<R: PeerRule>(
        alloc: Global,
        force: NamesInForce<'_>,
        buf: &NlaBuffer<&[u8]>,
        rule: &R,
    ) -> Result<LinkInfo, DecodeError>
        requires { BeginsWithAttribute (storage buf.now).now }
        ensures judged { SucceedsIf result
            (is_accepted_in R.peer (in_force force.entry) (storage buf.now).now) }
        ensures value { IfOk result
            (λ v. link_info_entry v ≡ written_in R.peer (in_force force.entry) (storage buf.now).now) }
        ensures inside { IfOk result
            (λ v. link_info_fits v ≡ fits_in R.peer (in_force force.entry) (storage buf.now).now) }
        ensures is_row_variant { IfOk result
            (λ v. link_info_is_row_variant (in_force force.entry) v) }
    {
        port_data_have_one_rule();
        let payload = buf.value();
        match buf.kind() {
            IFLA_INFO_KIND => Ok(LinkInfo::Kind(InfoKind::parse(alloc, buf)?)),
            IFLA_INFO_DATA => match force.kind {
                Some(name) => Ok(LinkInfo::Data(parse_data(alloc, name, payload, rule)?)),
                None => Err(DecodeError::from("IFLA_INFO_DATA before any IFLA_INFO_KIND")),
            },
            IFLA_INFO_XSTATS => match force.kind {
                Some(_) => Ok(LinkInfo::Xstats(LinkXstats::Other(Vec::from_slice(
                    alloc, payload,
                )?))),
                None => Err(DecodeError::from("IFLA_INFO_XSTATS before any IFLA_INFO_KIND")),
            },
            IFLA_INFO_SLAVE_KIND => Ok(LinkInfo::PortKind(InfoPortKind::parse(alloc, buf)?)),
            IFLA_INFO_SLAVE_DATA => match force.port_kind {
                Some(name) => Ok(LinkInfo::PortData(parse_port_data(alloc, name, payload)?)),
                None => Err(DecodeError::from(
                    "IFLA_INFO_SLAVE_DATA without an IFLA_INFO_SLAVE_KIND",
                )),
            },
            _ => Ok(LinkInfo::Other(DefaultNla::parse(alloc, buf)?)),
        }
    }

    // Reads link info, peers by a rule; it may run out of memory before it reaches an invalid
    // attribute.
    fn read_list<R: PeerRule>(
        alloc: Global,
        bytes: &[u8],
        rule: &R,
    ) -> Result<Vec<LinkInfo>, DecodeError>
        ensures judged { SucceedsIf result ((info_rule R.peer).accepted bytes.now) }
        ensures read { ListIsReadAs result link_info_entry link_info_fits
            (reading_as any (info_grammar R.peer) bytes.now) }
        ensures written { ListIsWrittenBy result link_info_entry link_info_fits
            (info_rule R.peer) bytes.now }
        ensures is_row_variant { IfOk result
            (λ v. AreRowVariants (info_grammar R.peer) link_info_entry link_info_is_row_variant no_kind_in_force v.items) }
        ensures not_empty { IfErr result (λ _. 0 < length bytes.now) }
    {
        readings_unfold();
        readings_determine_rules();
        contexts_unfold();
        info_grammar_is_lawful();
        rule.rule_is_lawful();
        let mut list = Vec::new(alloc);
        let mut force = NamesInForce {
            kind: None,
            port_kind: None,
        };
        let mut rest = bytes;
        while !rest.is_empty() {
            let buf = NlaBuffer::new_checked(rest)?;
            list.push(Self::read(alloc, force, &buf, rule)?)?;
            force = next_in_force(force, &buf)?;
            rest = skip_first(rest);
        }
        Ok(list)
    }

    /// Reads link info. An empty list is accepted.
    ///
    /// # Errors
    ///
    /// Out of memory if an allocation fails and the list is accepted; any other [`DecodeError`] if
    /// and only if it isn't. If an allocation fails, the rest of the list is checked without
    /// allocating.
    pub fn parse_list(alloc: Global, bytes: &[u8]) -> Result<Vec<LinkInfo>, DecodeError>
        ensures judged { IsRefusedUnless result ((info_rule bytes_peer).accepted bytes.now) }
        ensures read { ListIsReadAs result link_info_entry link_info_fits
            (reading_as any (info_grammar bytes_peer) bytes.now) }
        ensures written { ListIsWrittenBy result link_info_entry link_info_fits (info_rule bytes_peer) bytes.now }
        ensures is_row_variant { IfOk result
            (λ v. AreRowVariants (info_grammar bytes_peer) link_info_entry link_info_is_row_variant no_kind_in_force v.items) }
        ensures not_empty { IfErr result (λ _. 0 < length bytes.now) }
    {
        Self::parse_list_with(alloc, bytes, &BytesPeer)
    }

    /// Reads link info; a rule decides which peers in the data of `netkit`, `veth` and `vxcan` are
    /// accepted, and the value of a peer holds its canonical payload. An empty list is accepted.
    /// `parse_list` is this under `BytesPeer`.
    ///
    /// # Errors
    ///
    /// Out of memory if an allocation fails and the list is accepted under the rule; any other
    /// [`DecodeError`] if and only if it isn't. If an allocation fails, the rest of the list is
    /// checked without allocating.
    pub fn parse_list_with<R: PeerRule>(
        alloc: Global,
        bytes: &[u8],
        rule: &R,
    ) -> Result<Vec<LinkInfo>, DecodeError>
        ensures judged { IsRefusedUnless result ((info_rule R.peer).accepted bytes.now) }
        ensures read { ListIsReadAs result link_info_entry link_info_fits
            (reading_as any (info_grammar R.peer) bytes.now) }
        ensures written { ListIsWrittenBy result link_info_entry link_info_fits
            (info_rule R.peer) bytes.now }
        ensures is_row_variant { IfOk result
            (λ v. AreRowVariants (info_grammar R.peer) link_info_entry link_info_is_row_variant no_kind_in_force v.items) }
        ensures not_empty { IfErr result (λ _. 0 < length bytes.now) }
    {
        match Self::read_list(alloc, bytes, rule) {
            Ok(list) => Ok(list),
            Err(error) => Err(list_error_with(bytes, rule, error)),
        }
    }
}
