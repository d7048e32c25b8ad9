//! The payloads of a link's attributes.

ghost use Rattle.std.specs.Prelude.{◌≡◌, ◌==◌, ◌<◌, true, length, IsTrue, IfOk, IfErr, OnOk};
ghost use Rattle.netlink_packet_core.specs.Errors.{is_memory};
ghost use Rattle.netlink_packet_core.specs.Numbers.{as_usize, le4};
ghost use Rattle.attribute_tables_grammar.specs.Lists.{no_kind_in_force};
ghost use Rattle.attribute_tables_grammar.specs.Readings.{AreRowVariants};
ghost use Rattle.link_info_grammar.specs.LinkInfo.{info_grammar};
ghost use Rattle.link_info.specs.LinkInfo.{link_info_entry, link_info_fits, link_info_is_row_variant};
ghost use Rattle.link_message_grammar.specs.Body.{info_payload_rule, link_peer};
ghost use Rattle.link_message_types.specs.ExtentMasks.{joined_extent_masks, link_extent_masks_of};
ghost use Rattle.link_message_attributes.specs.Payloads.{link_payload_bytes, link_payload_fits};
ghost use Rattle.attribute_tables.specs.Outcomes.{IfMemory, IsRefusedUnless, ListIsWrittenBy};

use link_info::LinkInfo;
use link_message_checks::LinkPeer;
use link_message_grammar::laws::info_is_a_list_inside;
use link_message_nested::{
    AfSpecUnspec, DevlinkPort, DpllPin, LinkProtoInfoInet6, LinkProtocolDownReason, LinkVfInfo,
    LinkVfPort, LinkXdp, Prop, VfPort,
};
use link_message_records::{Map, Stats, Stats64, emit_record};
use link_message_types::LinkExtentMask;
use netlink_packet_core::{
    DecodeError, DefaultNla, Emitable, Field, emit_all, fits_all, len_all, parse_u32,
};
use std::alloc::Global;

/// The payload of a link's attribute: a field, or a list of attributes.
#[derive(Clone, Copy)]
pub(crate) enum LinkPayload<'a> {
    /// A number, a text or bytes.
    Field(Field<'a>),
    /// Statistics of 4 bytes each.
    Stats(&'a Stats),
    /// Statistics of 8 bytes each.
    Stats64(&'a Stats64),
    /// The memory map of the device.
    Map(&'a Map),
    /// Link info.
    LinkInfo(&'a [LinkInfo]),
    /// Virtual functions.
    VfInfos(&'a [LinkVfInfo]),
    /// Ports of virtual functions.
    VfPorts(&'a [LinkVfPort]),
    /// The attributes of one port.
    Port(&'a [VfPort]),
    /// XDP programs.
    Xdp(&'a [LinkXdp]),
    /// Protocol information of IPv6.
    ProtocolInfos(&'a [LinkProtoInfoInet6]),
    /// The attributes of all address families.
    Families(&'a [AfSpecUnspec]),
    /// Raw attributes.
    Raw(&'a [DefaultNla]),
    /// Alternative names.
    Props(&'a [Prop]),
    /// The reasons why a protocol keeps the link down.
    DownReasons(&'a [LinkProtocolDownReason]),
    /// A devlink port.
    DevlinkPort(&'a [DevlinkPort]),
    /// A pin of a digital phase-locked loop.
    DpllPin(&'a [DpllPin]),
}

impl<'a> LinkPayload<'a> {
    /// Returns the size in bytes; `usize::MAX` if it is larger.
    #[tactic(auto, using(attribute_tables::proofs::Lists::lists))]
    pub(crate) fn len(self) -> usize
        ensures { result ≡ as_usize (length (link_payload_bytes self.entry)) }
    {
        match self {
            LinkPayload::Field(field) => field.len(),
            LinkPayload::Stats(record) => record.buffer_len(),
            LinkPayload::Stats64(record) => record.buffer_len(),
            LinkPayload::Map(record) => record.buffer_len(),
            LinkPayload::LinkInfo(list) => len_all(list),
            LinkPayload::VfInfos(list) => len_all(list),
            LinkPayload::VfPorts(list) => len_all(list),
            LinkPayload::Port(list) => len_all(list),
            LinkPayload::Xdp(list) => len_all(list),
            LinkPayload::ProtocolInfos(list) => len_all(list),
            LinkPayload::Families(list) => len_all(list),
            LinkPayload::Raw(list) => len_all(list),
            LinkPayload::Props(list) => len_all(list),
            LinkPayload::DownReasons(list) => len_all(list),
            LinkPayload::DevlinkPort(list) => len_all(list),
            LinkPayload::DpllPin(list) => len_all(list),
        }
    }

    /// Writes the bytes to a buffer of their size.
    #[tactic(auto, using(attribute_tables::proofs::Lists::lists))]
    pub(crate) fn fill(self, buffer: &mut [u8])
        requires fits { link_payload_fits self ≡ true }
        requires buffer_size { length buffer.old ≡ length (link_payload_bytes self) }
        ensures { buffer.new ≡ link_payload_bytes self.entry }
    {
        match self {
            LinkPayload::Field(field) => field.fill(buffer),
            LinkPayload::Stats(record) => emit_record(record, buffer),
            LinkPayload::Stats64(record) => emit_record(record, buffer),
            LinkPayload::Map(record) => emit_record(record, buffer),
            LinkPayload::LinkInfo(list) => emit_all(list, buffer),
            LinkPayload::VfInfos(list) => emit_all(list, buffer),
            LinkPayload::VfPorts(list) => emit_all(list, buffer),
            LinkPayload::Port(list) => emit_all(list, buffer),
            LinkPayload::Xdp(list) => emit_all(list, buffer),
            LinkPayload::ProtocolInfos(list) => emit_all(list, buffer),
            LinkPayload::Families(list) => emit_all(list, buffer),
            LinkPayload::Raw(list) => emit_all(list, buffer),
            LinkPayload::Props(list) => emit_all(list, buffer),
            LinkPayload::DownReasons(list) => emit_all(list, buffer),
            LinkPayload::DevlinkPort(list) => emit_all(list, buffer),
            LinkPayload::DpllPin(list) => emit_all(list, buffer),
        }
    }

    /// Returns whether each attribute inside fits its header; true if there are none.
    pub(crate) fn fits(self) -> bool
        ensures { result ≡ link_payload_fits self.entry }
    {
        match self {
            LinkPayload::Field(_) => true,
            LinkPayload::Stats(_) => true,
            LinkPayload::Stats64(_) => true,
            LinkPayload::Map(_) => true,
            LinkPayload::LinkInfo(list) => fits_all(list),
            LinkPayload::VfInfos(list) => fits_all(list),
            LinkPayload::VfPorts(list) => fits_all(list),
            LinkPayload::Port(list) => fits_all(list),
            LinkPayload::Xdp(list) => fits_all(list),
            LinkPayload::ProtocolInfos(list) => fits_all(list),
            LinkPayload::Families(list) => fits_all(list),
            LinkPayload::Raw(list) => fits_all(list),
            LinkPayload::Props(list) => fits_all(list),
            LinkPayload::DownReasons(list) => fits_all(list),
            LinkPayload::DevlinkPort(list) => fits_all(list),
            LinkPayload::DpllPin(list) => fits_all(list),
        }
    }
}

/// Reads the masks of a number of exactly 4 bytes.
pub(crate) fn parse_extent_masks(
    alloc: Global,
    payload: &[u8],
) -> Result<Vec<LinkExtentMask>, DecodeError>
    ensures ok { OnOk result (IsTrue (length payload.now == 4)) }
    ensures value { IfOk result (λ v. le4 (joined_extent_masks v.items) ≡ payload.now) }
    ensures named { IfOk result
        (λ v. v.items ≡ link_extent_masks_of (joined_extent_masks v.items)) }
    ensures err { IfErr result (λ e. (length payload.now == 4) ≡ is_memory e) }
{
    LinkExtentMask::list(alloc, parse_u32(payload)?)
}

/// Reads link info, with peers as link bodies.
///
/// # Errors
///
/// A refusal if the list isn't legal or has no attribute; out of memory if an allocation fails for
/// an accepted list.
pub(crate) fn parse_link_info(alloc: Global, payload: &[u8]) -> Result<Vec<LinkInfo>, DecodeError>
    ensures judged { IsRefusedUnless result ((info_payload_rule link_peer).accepted payload.now) }
    ensures written { ListIsWrittenBy result link_info_entry link_info_fits (info_payload_rule link_peer)
        payload.now }
    ensures is_row_variant { IfOk result
        (λ v. AreRowVariants (info_grammar link_peer) link_info_entry link_info_is_row_variant no_kind_in_force
        v.items) }
    ensures not_empty { IfMemory result (0 < length payload.now) }
{
    if payload.is_empty() {
        return Err(DecodeError::from("IFLA_LINKINFO without an attribute"));
    }
    info_is_a_list_inside();
    LinkInfo::parse_list_with(alloc, payload, &LinkPeer)
}
