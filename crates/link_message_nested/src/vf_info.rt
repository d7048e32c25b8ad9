//! Settings of virtual functions (if_link.h, IFLA_VF_*). Numbers are little-endian.

ghost use Rattle.std.specs.Prelude.{◌≡◌, ◌&&◌, ◌<◌, true, length, IfOk, IfErr};
ghost use Rattle.std.specs.List.{All};
ghost use Rattle.netlink_packet_core.specs.AttributeViews.{viewed_attribute, viewed_payload, BeginsWithAttribute};
ghost use Rattle.netlink_packet_core.specs.Families.{Gives, accepts, family_row};
ghost use Rattle.netlink_packet_core.specs.NlaBuffers.{storage};
ghost use Rattle.attribute_tables_grammar.specs.Lists.{is_of_kind_one, of_kind_one};
ghost use Rattle.attribute_tables_grammar.specs.LookUps.{table_list_rule, table_row};
ghost use Rattle.attribute_tables_grammar.specs.Peers.{bytes_peer};
ghost use Rattle.attribute_tables.specs.Views.{fits_by};
ghost use Rattle.attribute_tables.specs.Beginnings.{table_may_allocate};
ghost use Rattle.link_message_grammar.specs.NestedTables.{vf, vf_infos};
ghost use Rattle.link_message_nested.specs.VfInfos.{vf_info_entry, vf_info_fits, vf_info_names_row, link_vf_info_entry};
ghost use Rattle.link_message_nested.specs.VfInfos.{link_vf_info_fits, link_vf_info_names_row};
ghost use Rattle.link_message_nested.specs.VfInfos.{vf_info_row, is_vf_info, IsVfInfoOf, vf_info_begins_readable, vf_infos_begin_readable};
ghost use Rattle.attribute_tables.specs.Outcomes.{IfMemory, ListIsWrittenBy, SucceedsIf};

use super::vf_stats::VfStats;
use super::vf_vlan::{VfVlan, VfVlanReader};
use attribute_tables::{EntryReader, Reader, parse_entries, parse_family, parse_list};
use attribute_tables_grammar::laws::rows_are_looked_up;
use link_message_records::{
    FieldRecord, VfInfoBroadcast, VfInfoLinkState, VfInfoMac, VfInfoRate, VfInfoRssQueryEn,
    VfInfoSpoofCheck, VfInfoTrust, VfInfoTxRate, VfInfoVlan, emit_record,
};
use netlink_packet_core::{
    DecodeError, DefaultNla, Emitable, Nla, NlaBuffer, Parseable, emit_all, fits_all, len_all,
};
use std::alloc::Global;

const IFLA_VF_MAC: u16 = 1;

const IFLA_VF_VLAN: u16 = 2;

const IFLA_VF_TX_RATE: u16 = 3;

const IFLA_VF_SPOOFCHK: u16 = 4;

const IFLA_VF_LINK_STATE: u16 = 5;

const IFLA_VF_RATE: u16 = 6;

const IFLA_VF_RSS_QUERY_EN: u16 = 7;

const IFLA_VF_STATS: u16 = 8;

const IFLA_VF_TRUST: u16 = 9;

const IFLA_VF_VLAN_LIST: u16 = 12;

const IFLA_VF_BROADCAST: u16 = 13;

const IFLA_VF_INFO: u16 = 1;

/// A setting of a virtual function.
#[derive(Debug, PartialEq, Eq, Drop)]
pub enum VfInfo {
    /// `IFLA_VF_MAC`: its hardware address; 36 bytes.
    Mac(VfInfoMac),
    /// `IFLA_VF_VLAN`: its VLAN; 12 bytes.
    Vlan(VfInfoVlan),
    /// `IFLA_VF_TX_RATE`: its maximum rate; 8 bytes.
    TxRate(VfInfoTxRate),
    /// `IFLA_VF_SPOOFCHK`: whether spoofed source addresses are checked; 8 bytes.
    SpoofCheck(VfInfoSpoofCheck),
    /// `IFLA_VF_LINK_STATE`: its link state; 8 bytes.
    LinkState(VfInfoLinkState),
    /// `IFLA_VF_RATE`: its minimum and maximum rate; 12 bytes.
    Rate(VfInfoRate),
    /// `IFLA_VF_RSS_QUERY_EN`: whether it may query its RSS configuration; 8 bytes.
    RssQueryEn(VfInfoRssQueryEn),
    /// `IFLA_VF_STATS`: a list of statistics.
    Stats(Vec<VfStats>),
    /// `IFLA_VF_TRUST`: whether it is trusted; 8 bytes.
    Trust(VfInfoTrust),
    /// `IFLA_VF_VLAN_LIST`: a list of VLANs.
    VlanList(Vec<VfVlan>),
    /// `IFLA_VF_BROADCAST`: its broadcast address; 32 bytes.
    Broadcast(VfInfoBroadcast),
    /// Any other kind, kept unchanged.
    Other(DefaultNla),
}

impl Nla for VfInfo {
    ghost entry = { vf_info_entry };

    ghost inside_fits = { vf_info_fits };

    #[tactic(auto, using(attribute_tables::proofs::Lists::lists))]
    fn value_len(&self) -> usize {
        match self {
            Self::Mac(record) => record.buffer_len(),
            Self::Vlan(record) => record.buffer_len(),
            Self::TxRate(record) => record.buffer_len(),
            Self::SpoofCheck(record) => record.buffer_len(),
            Self::LinkState(record) => record.buffer_len(),
            Self::Rate(record) => record.buffer_len(),
            Self::RssQueryEn(record) => record.buffer_len(),
            Self::Stats(list) => len_all(list),
            Self::Trust(record) => record.buffer_len(),
            Self::VlanList(list) => len_all(list),
            Self::Broadcast(record) => record.buffer_len(),
            Self::Other(nla) => nla.value_len(),
        }
    }

    fn kind(&self) -> u16 {
        match self {
            Self::Mac(_) => IFLA_VF_MAC,
            Self::Vlan(_) => IFLA_VF_VLAN,
            Self::TxRate(_) => IFLA_VF_TX_RATE,
            Self::SpoofCheck(_) => IFLA_VF_SPOOFCHK,
            Self::LinkState(_) => IFLA_VF_LINK_STATE,
            Self::Rate(_) => IFLA_VF_RATE,
            Self::RssQueryEn(_) => IFLA_VF_RSS_QUERY_EN,
            Self::Stats(_) => IFLA_VF_STATS,
            Self::Trust(_) => IFLA_VF_TRUST,
            Self::VlanList(_) => IFLA_VF_VLAN_LIST,
            Self::Broadcast(_) => IFLA_VF_BROADCAST,
            Self::Other(nla) => nla.kind(),
        }
    }

    #[tactic(auto, using(attribute_tables::proofs::Lists::lists))]
    fn emit_value(&self, buffer: &mut [u8]) {
        match self {
            Self::Mac(record) => emit_record(record, buffer),
            Self::Vlan(record) => emit_record(record, buffer),
            Self::TxRate(record) => emit_record(record, buffer),
            Self::SpoofCheck(record) => emit_record(record, buffer),
            Self::LinkState(record) => emit_record(record, buffer),
            Self::Rate(record) => emit_record(record, buffer),
            Self::RssQueryEn(record) => emit_record(record, buffer),
            Self::Stats(list) => emit_all(list, buffer),
            Self::Trust(record) => emit_record(record, buffer),
            Self::VlanList(list) => emit_all(list, buffer),
            Self::Broadcast(record) => emit_record(record, buffer),
            Self::Other(nla) => nla.emit_value(buffer),
        }
    }

    fn contents_fit(&self) -> bool {
        match self {
            Self::Stats(list) => fits_all(list),
            Self::VlanList(list) => fits_all(list),
            _ => true,
        }
    }
}

/// The reader of the settings of a virtual function.
pub struct VfInfoReader;

impl Reader for VfInfoReader {
    type Value = VfInfo;

    ghost row_of = { λ _. table_row bytes_peer vf };

    ghost is_row_variant = { λ _. vf_info_names_row };

    ghost may_allocate = { λ _. table_may_allocate vf };

    #[tactic(auto, using(crate::proofs::VfRules::vf_rules, attribute_tables::proofs::Families::family_lists))]
    fn read(&self, alloc: Global, buf: &NlaBuffer<&[u8]>) -> Result<VfInfo, DecodeError> {
        rows_are_looked_up();
        let payload = buf.value();
        match buf.kind() {
            IFLA_VF_MAC => Ok(VfInfo::Mac(VfInfoMac::parse(payload)?)),
            IFLA_VF_VLAN => Ok(VfInfo::Vlan(VfInfoVlan::parse(payload)?)),
            IFLA_VF_TX_RATE => Ok(VfInfo::TxRate(VfInfoTxRate::parse(payload)?)),
            IFLA_VF_SPOOFCHK => Ok(VfInfo::SpoofCheck(VfInfoSpoofCheck::parse(payload)?)),
            IFLA_VF_LINK_STATE => Ok(VfInfo::LinkState(VfInfoLinkState::parse(payload)?)),
            IFLA_VF_RATE => Ok(VfInfo::Rate(VfInfoRate::parse(payload)?)),
            IFLA_VF_RSS_QUERY_EN => Ok(VfInfo::RssQueryEn(VfInfoRssQueryEn::parse(payload)?)),
            IFLA_VF_STATS => Ok(VfInfo::Stats(parse_family(alloc, payload)?)),
            IFLA_VF_TRUST => Ok(VfInfo::Trust(VfInfoTrust::parse(payload)?)),
            IFLA_VF_VLAN_LIST => Ok(VfInfo::VlanList(parse_list(alloc, &VfVlanReader, payload)?)),
            IFLA_VF_BROADCAST => Ok(VfInfo::Broadcast(VfInfoBroadcast::parse(payload)?)),
            _ => Ok(VfInfo::Other(DefaultNla::parse(alloc, buf)?)),
        }
    }
}

impl<'a> Parseable<NlaBuffer<&'a [u8]>> for VfInfo {
    ghost can_parse = { λ b. BeginsWithAttribute (storage b).now };

    ghost accepts = { λ b. accepts vf (storage b).now };

    ghost may_allocate = { λ b. table_may_allocate vf (storage b).now };

    ghost gives = { λ b v. Gives vf (storage b).now (vf_info_entry v)
        × (vf_info_fits v ≡ fits_by (family_row vf) (storage b).now)
        × vf_info_names_row v };

    fn parse(alloc: Global, buf: &NlaBuffer<&'a [u8]>) -> Result<Self, DecodeError> {
        VfInfoReader.read(alloc, buf)
    }
}

/// `IFLA_VF_INFO`: the settings of one virtual function.
#[derive(Debug, PartialEq, Eq, Drop)]
pub struct LinkVfInfo(pub Vec<VfInfo>);

impl Nla for LinkVfInfo {
    ghost entry = { link_vf_info_entry };

    ghost inside_fits = { link_vf_info_fits };

    #[tactic(auto, using(attribute_tables::proofs::Lists::lists))]
    fn value_len(&self) -> usize {
        len_all(&self.0)
    }

    fn kind(&self) -> u16 {
        IFLA_VF_INFO
    }

    #[tactic(auto, using(attribute_tables::proofs::Lists::lists))]
    fn emit_value(&self, buffer: &mut [u8]) {
        emit_all(&self.0, buffer);
    }

    fn contents_fit(&self) -> bool {
        fits_all(&self.0)
    }
}

/// The reader of virtual functions.
pub struct LinkVfInfoReader;

impl EntryReader for LinkVfInfoReader {
    type Value = LinkVfInfo;

    ghost entry_row = { λ _. vf_info_row };

    ghost is_row_variant = { λ _. link_vf_info_names_row };

    ghost may_allocate = { λ _. vf_info_begins_readable };

    #[tactic(auto, using(crate::proofs::VfRules::vf_rules))]
    fn read(&self, alloc: Global, buf: &NlaBuffer<&[u8]>) -> Result<LinkVfInfo, DecodeError> {
        rows_are_looked_up();
        Ok(LinkVfInfo(parse_list(alloc, &VfInfoReader, buf.value())?))
    }
}

/// Reads a list of virtual functions (`IFLA_VFINFO_LIST`), of which the attributes of kind 1 are
/// kept. Allocates the returned list, nothing for no bytes.
///
/// # Errors
///
/// A refusal if the list isn't accepted, which a list of no bytes always is; out of memory if an
/// allocation fails, which may hide a refusal of a later attribute.
#[tactic(auto, using(crate::proofs::VfRules::vf_rules), unfolding(crate::specs::VfInfos::vf_infos_begin_readable))]
pub fn parse_vf_infos(alloc: Global, bytes: &[u8]) -> Result<Vec<LinkVfInfo>, DecodeError>
    ensures judged { SucceedsIf result
        ((table_list_rule bytes_peer of_kind_one vf_infos).accepted bytes.now) }
    ensures written { ListIsWrittenBy result link_vf_info_entry link_vf_info_fits
        (table_list_rule bytes_peer of_kind_one vf_infos) bytes.now }
    ensures is_row_variant { IfOk result (λ v. All link_vf_info_names_row v.items) }
    ensures not_empty { IfErr result (λ _. 0 < length bytes.now) }
    ensures memory { IfMemory result (vf_infos_begin_readable bytes.now ≡ true) }
{
    rows_are_looked_up();
    parse_entries(alloc, &LinkVfInfoReader, bytes)
}

impl<'a> Parseable<NlaBuffer<&'a [u8]>> for LinkVfInfo {
    ghost can_parse = { λ b. BeginsWithAttribute (storage b).now };

    ghost accepts = { λ b. is_vf_info (storage b).now };

    ghost may_allocate = { λ b. is_of_kind_one (viewed_attribute (storage b).now)
        && vf_info_begins_readable (viewed_payload (storage b).now) };

    ghost gives = { λ b v. IsVfInfoOf (storage b).now v };

    fn parse(alloc: Global, buf: &NlaBuffer<&'a [u8]>) -> Result<Self, DecodeError> {
        if buf.kind() != IFLA_VF_INFO {
            return Err(DecodeError::from("a virtual function of another kind than 1"));
        }
        LinkVfInfoReader.read(alloc, buf)
    }
}
