//! Data of the kinds `macvlan` and `macvtap` (if_link.h, IFLA_MACVLAN_*). Numbers are
//! little-endian.

ghost use Rattle.std.specs.Prelude.{◌≡◌, ◌≢◌, ◌<◌, length, true, false, Some, IfOk, IfErr, IfNone};
ghost use Rattle.std.specs.List.{All};
ghost use Rattle.netlink_packet_core.specs.Attributes.{proper_kind};
ghost use Rattle.netlink_packet_core.specs.AttributeViews.{viewed_kind, viewed_payload, BeginsWithAttribute};
ghost use Rattle.netlink_packet_core.specs.Errors.{is_memory};
ghost use Rattle.netlink_packet_core.specs.Families.{Gives, accepts, attribute, family_row, may_allocate};
ghost use Rattle.netlink_packet_core.specs.NlaBuffers.{storage};
ghost use Rattle.attribute_tables_grammar.specs.Lists.{any, canonical_form, without_context};
ghost use Rattle.attribute_tables_grammar.specs.LookUps.{HasNoRow, table_list_rule, row_allocates};
ghost use Rattle.attribute_tables_grammar.specs.Peers.{bytes_peer};
ghost use Rattle.attribute_tables_grammar.specs.Readings.{reading_as};
ghost use Rattle.attribute_tables.specs.Beginnings.{begins_accepted, begins_readable};
ghost use Rattle.link_info_grammar.specs.Families.{macvlan, macvlan_address};
ghost use Rattle.link_info_devices.specs.MacVlan.{mac_vlan_entry, mac_vlan_fits, mac_vlan_is_row_variant, mac_vlan_address_is_row_variant};
ghost use Rattle.link_info_devices.specs.MacVlan.{mac_vlan_may_allocate, MacVlanGives};
ghost use Rattle.attribute_tables.specs.Outcomes.{IfMemory, IfRead, IsRefusedUnless, ListIsReadAs, ListIsWrittenBy};
ghost use Rattle.attribute_tables.specs.Outcomes.{SucceedsExactlyIf, SucceedsIf};

use attribute_tables::{Reader, parse_list, typed};
use attribute_tables_grammar::laws::{rows_are_looked_up, rows_without_lists_fit};
use link_info_types::{Flags, MacVlanFlags, MacVlanMacAddressMode, MacVlanMode};
use netlink_packet_core::{
    DecodeError, DefaultNla, NLA_HEADER_SIZE, Nla, NlaBuffer, Parseable, attribute_len,
    emit_header, fill_u16, fill_u32, length_fits, parse_i32, parse_mac, parse_u16, parse_u32,
};
use std::alloc::Global;

const IFLA_MACVLAN_MODE: u16 = 1;

const IFLA_MACVLAN_FLAGS: u16 = 2;

const IFLA_MACVLAN_MACADDR_MODE: u16 = 3;

const IFLA_MACVLAN_MACADDR: u16 = 4;

const IFLA_MACVLAN_MACADDR_DATA: u16 = 5;

const IFLA_MACVLAN_MACADDR_COUNT: u16 = 6;

const IFLA_MACVLAN_BC_QUEUE_LEN: u16 = 7;

const IFLA_MACVLAN_BC_QUEUE_LEN_USED: u16 = 8;

const IFLA_MACVLAN_BC_CUTOFF: u16 = 9;

/// An attribute of the data of `macvlan` or of `macvtap`.
#[derive(Debug, PartialEq, Eq, Drop)]
pub enum InfoMacVlan {
    /// `IFLA_MACVLAN_MODE`: how the links of one parent reach one another; 4 bytes.
    Mode(MacVlanMode),
    /// `IFLA_MACVLAN_FLAGS`: how the link treats its parent; 2 bytes, of which every bit is kept.
    Flags(MacVlanFlags),
    /// `IFLA_MACVLAN_MACADDR_MODE`: the operation on the list of source addresses; 4 bytes.
    MacAddrMode(MacVlanMacAddressMode),
    /// `IFLA_MACVLAN_MACADDR`: a source address; 6 bytes.
    MacAddr([u8; 6]),
    /// `IFLA_MACVLAN_MACADDR_DATA`: a list of source addresses. A list that was read holds no such
    /// list itself: an attribute of this kind inside is an `Other`.
    MacAddrData(Vec<InfoMacVlan>),
    /// `IFLA_MACVLAN_MACADDR_COUNT`: the number of source addresses; 4 bytes.
    MacAddrCount(u32),
    /// `IFLA_MACVLAN_BC_QUEUE_LEN`: the requested length of the broadcast queue; 4 bytes.
    BcQueueLen(u32),
    /// `IFLA_MACVLAN_BC_QUEUE_LEN_USED`: the length of the broadcast queue in use, the greatest
    /// that a link of the parent requests; 4 bytes.
    BcQueueLenUsed(u32),
    /// `IFLA_MACVLAN_BC_CUTOFF`: the number of links from which on a multicast address is queued; 4
    /// bytes, signed.
    BcCutoff(i32),
    /// Any other kind, kept as it is.
    Other(DefaultNla),
}

/// An attribute of the data of `macvtap`.
pub type InfoMacVtap = InfoMacVlan;

impl Nla for InfoMacVlan {
    ghost entry = { mac_vlan_entry };

    ghost inside_fits = { mac_vlan_fits };

    #[tactic(auto, using(crate::proofs::Rows::rows_of_values, netlink_packet_core_grammar::proofs::Sizes::sizes))]
    fn value_len(&self) -> usize {
        match self {
            Self::Flags(_) => 2,
            Self::MacAddr(address) => address.as_slice().len(),
            Self::MacAddrData(list) => {
                let mut size = 0usize;
                for inner in list {
                    size = size.saturating_add(attribute_len(inner.value_len()));
                }
                size
            }
            Self::Mode(_)
            | Self::MacAddrMode(_)
            | Self::MacAddrCount(_)
            | Self::BcQueueLen(_)
            | Self::BcQueueLenUsed(_)
            | Self::BcCutoff(_) => 4,
            Self::Other(nla) => nla.value_len(),
        }
    }

    fn kind(&self) -> u16 {
        match self {
            Self::Mode(_) => IFLA_MACVLAN_MODE,
            Self::Flags(_) => IFLA_MACVLAN_FLAGS,
            Self::MacAddrMode(_) => IFLA_MACVLAN_MACADDR_MODE,
            Self::MacAddr(_) => IFLA_MACVLAN_MACADDR,
            Self::MacAddrData(_) => IFLA_MACVLAN_MACADDR_DATA,
            Self::MacAddrCount(_) => IFLA_MACVLAN_MACADDR_COUNT,
            Self::BcQueueLen(_) => IFLA_MACVLAN_BC_QUEUE_LEN,
            Self::BcQueueLenUsed(_) => IFLA_MACVLAN_BC_QUEUE_LEN_USED,
            Self::BcCutoff(_) => IFLA_MACVLAN_BC_CUTOFF,
            Self::Other(nla) => nla.kind(),
        }
    }

    #[cycle(texts)]
    #[tactic(auto, using(crate::proofs::Rows::rows_of_values, netlink_packet_core_grammar::proofs::Sizes::sizes, netlink_packet_core_grammar::proofs::Numbers::signs))]
    fn emit_value(&self, buffer: &mut [u8]) {
        match self {
            Self::Mode(mode) => fill_u32(buffer, u32::from(*mode)),
            Self::Flags(flags) => fill_u16(buffer, flags.bits()),
            Self::MacAddrMode(mode) => fill_u32(buffer, u32::from(*mode)),
            Self::MacAddr(address) => buffer.copy_from_slice(address),
            Self::MacAddrData(list) => {
                let mut at = 0usize;
                for inner in list {
                    inner.emit(&mut buffer[at..]);
                    at += inner.buffer_len();
                }
            }
            Self::MacAddrCount(number) | Self::BcQueueLen(number) | Self::BcQueueLenUsed(number) =>
                fill_u32(buffer, *number),
            Self::BcCutoff(number) => fill_u32(buffer, number.cast_unsigned()),
            Self::Other(nla) => nla.emit_value(buffer),
        }
    }

    // The same as the trait's default body, which is only for types that hold no values of their
    // own type.
    #[cycle(texts)]
    fn emit(&self, buffer: &mut [u8]) {
        let size = self.value_len();
        emit_header(buffer, self.kind(), size);
        self.emit_value(&mut buffer[NLA_HEADER_SIZE..NLA_HEADER_SIZE + size]);
    }

    #[tactic(auto, using(crate::proofs::Rows::rows_of_values))]
    fn contents_fit(&self) -> bool {
        match self {
            Self::MacAddrData(list) => {
                for inner in list {
                    if !(length_fits(inner.value_len()) && inner.contents_fit()) {
                        return false;
                    }
                }
                true
            }
            _ => true,
        }
    }
}

impl InfoMacVlan {
    /// Reads the payload of a kind without its flag bits, if it holds no list; `None` if the kind
    /// has no row in the list of source addresses.
    fn read_row(kind: u16, payload: &[u8]) -> Result<Option<Self>, DecodeError>
        ensures judged { SucceedsExactlyIf result
            ((family_row macvlan_address kind).rule.accepted payload.now) }
        ensures none { IfOk result (λ o. IfNone o (HasNoRow macvlan_address kind)) }
        ensures typed { IfRead result (λ _. (family_row macvlan_address kind).is_typed ≡ true) }
        ensures value { IfRead result
            (λ v. mac_vlan_entry v ≡ canonical_form (family_row macvlan_address kind)
            (attribute kind payload.now)) }
        ensures inside { IfRead result (λ v. mac_vlan_fits v ≡ true) }
        ensures is_row_variant { IfRead result (λ v. mac_vlan_is_row_variant v) }
        ensures address_names_row { IfRead result (λ v. mac_vlan_address_is_row_variant v) }
        ensures memory { IfErr result (λ e. is_memory e ≡ false) }
    {
        match kind {
            IFLA_MACVLAN_MODE => typed!(Mode, parse_u32(payload), MacVlanMode),
            IFLA_MACVLAN_FLAGS => typed!(Flags, parse_u16(payload), MacVlanFlags::from_bits_retain),
            IFLA_MACVLAN_MACADDR_MODE => {
                typed!(MacAddrMode, parse_u32(payload), MacVlanMacAddressMode)
            }
            IFLA_MACVLAN_MACADDR => typed!(MacAddr, parse_mac(payload)),
            IFLA_MACVLAN_MACADDR_COUNT => typed!(MacAddrCount, parse_u32(payload)),
            IFLA_MACVLAN_BC_QUEUE_LEN => typed!(BcQueueLen, parse_u32(payload)),
            IFLA_MACVLAN_BC_QUEUE_LEN_USED => typed!(BcQueueLenUsed, parse_u32(payload)),
            IFLA_MACVLAN_BC_CUTOFF => typed!(BcCutoff, parse_i32(payload)),
            _ => Ok(None),
        }
    }

    /// Reads a payload that holds no list: by its row, or as a raw attribute.
    #[tactic(auto, using(netlink_packet_core_attributes::proofs::Families::families, crate::proofs::Rows::address_rows))]
    fn read_address(alloc: Global, buf: &NlaBuffer<&[u8]>) -> Result<Self, DecodeError>
        requires { BeginsWithAttribute (storage buf.now).now }
        ensures judged { IsRefusedUnless result (accepts macvlan_address (storage buf.now).now) }
        ensures value { IfOk result
            (λ v. Gives macvlan_address (storage buf.now).now (mac_vlan_entry v)) }
        ensures inside { IfOk result (λ v. mac_vlan_fits v ≡ true) }
        ensures address_names_row { IfOk result (λ v. mac_vlan_address_is_row_variant v) }
        ensures is_row_variant { IfOk result
            (λ v. proper_kind (viewed_kind (storage buf.now).now) ≢ 5 → mac_vlan_is_row_variant v) }
        ensures memory { IfMemory result
            (row_allocates macvlan_address (proper_kind (viewed_kind (storage buf.now).now)) ≡
            true) }
        ensures not_empty { IfMemory result (0 < length (viewed_payload (storage buf.now).now)) }
    {
        match Self::read_row(buf.kind(), buf.value()) {
            Ok(Some(value)) => Ok(value),
            Ok(None) => Ok(Self::Other(DefaultNla::parse(alloc, buf)?)),
            Err(error) => Err(error),
        }
    }
}

/// A reader of the attributes of a list of source addresses.
#[derive(Drop)]
struct AddressReader;

impl Reader for AddressReader {
    type Value = InfoMacVlan;

    ghost row_of = { λ _. family_row macvlan_address };

    ghost is_row_variant = { λ _. mac_vlan_address_is_row_variant };

    ghost may_allocate = { λ _. may_allocate macvlan_address };

    #[tactic(auto, using(crate::proofs::Rows::address_rows))]
    fn read(&self, alloc: Global, buf: &NlaBuffer<&[u8]>) -> Result<InfoMacVlan, DecodeError> {
        rows_without_lists_fit();
        InfoMacVlan::read_address(alloc, buf)
    }
}

/// Reads a list of source addresses. An empty list is accepted.
#[tactic(auto, using(attribute_tables::proofs::Families::family_lists))]
fn parse_addresses(alloc: Global, bytes: &[u8]) -> Result<Vec<InfoMacVlan>, DecodeError>
    ensures judged { SucceedsIf result
        ((table_list_rule bytes_peer any macvlan_address).accepted bytes.now) }
    ensures written { ListIsWrittenBy result mac_vlan_entry mac_vlan_fits
        (table_list_rule bytes_peer any macvlan_address) bytes.now }
    ensures is_row_variant { IfOk result (λ v. All mac_vlan_address_is_row_variant v.items) }
    ensures not_empty { IfErr result (λ _. 0 < length bytes.now) }
    ensures memory { IfMemory result (begins_accepted (family_row macvlan_address) bytes.now ≡ true) }
{
    rows_are_looked_up();
    parse_list(alloc, &AddressReader, bytes)
}

/// A reader of the attributes of the data of `macvlan` or of `macvtap`.
#[derive(Drop)]
pub struct MacVlanReader;

impl Reader for MacVlanReader {
    type Value = InfoMacVlan;

    ghost row_of = { λ _. family_row macvlan };

    ghost is_row_variant = { λ _. mac_vlan_is_row_variant };

    ghost may_allocate = { λ _. mac_vlan_may_allocate };

    #[tactic(auto, using(crate::proofs::Rows::rows_of_values, crate::proofs::Rows::address_rows))]
    fn read(&self, alloc: Global, buf: &NlaBuffer<&[u8]>) -> Result<InfoMacVlan, DecodeError> {
        match buf.kind() {
            IFLA_MACVLAN_MACADDR_DATA => {
                let list = parse_addresses(alloc, buf.value())?;
                Ok(InfoMacVlan::MacAddrData(list))
            }
            _ => InfoMacVlan::read_address(alloc, buf),
        }
    }
}

impl<'a> Parseable<NlaBuffer<&'a [u8]>> for InfoMacVlan {
    ghost can_parse = { λ b. BeginsWithAttribute (storage b).now };

    ghost accepts = { λ b. accepts macvlan (storage b).now };

    ghost may_allocate = { λ b. mac_vlan_may_allocate (storage b).now };

    ghost gives = { λ b v. MacVlanGives (storage b).now v };

    fn parse(alloc: Global, buf: &NlaBuffer<&'a [u8]>) -> Result<Self, DecodeError> {
        MacVlanReader.read(alloc, buf)
    }
}

/// Reads the data of `macvlan` or of `macvtap`. An empty list is accepted.
///
/// # Errors
///
/// Out of memory if an allocation fails; any other [`DecodeError`] only if the list isn't accepted.
#[tactic(auto, using(attribute_tables::proofs::Families::family_lists))]
pub fn parse_mac_vlan(alloc: Global, bytes: &[u8]) -> Result<Vec<InfoMacVlan>, DecodeError>
    ensures judged { SucceedsIf result ((table_list_rule bytes_peer any macvlan).accepted bytes.now) }
    ensures read { ListIsReadAs result mac_vlan_entry mac_vlan_fits
        (reading_as any (without_context (family_row macvlan)) bytes.now) }
    ensures written { ListIsWrittenBy result mac_vlan_entry mac_vlan_fits
        (table_list_rule bytes_peer any macvlan) bytes.now }
    ensures is_row_variant { IfOk result (λ v. All mac_vlan_is_row_variant v.items) }
    ensures not_empty { IfErr result (λ _. 0 < length bytes.now) }
    ensures memory { IfMemory result
        (begins_readable (family_row macvlan) mac_vlan_may_allocate bytes.now ≡ true) }
{
    rows_are_looked_up();
    parse_list(alloc, &MacVlanReader, bytes)
}
