//! Which encoding quirk an attribute has, by its list, its kind and its payload. The type and the
//! flags of the message count only for the second byte of the header.

ghost use Rattle.std.specs.Prelude.{◌≡◌, ◌≤◌, length};
ghost use Rattle.netlink_packet_core_grammar.specs.Attributes.{proper_kind};
ghost use Rattle.link_capture_quirks.specs.QuirkRows.{quirk_if, is_byte_over_one, is_u32_over_one, has_nul, is_long_alias};
ghost use Rattle.link_capture_quirks.specs.QuirkRows.{link_quirk, is_flag, value_quirk, data_quirk};
ghost use Rattle.link_capture_quirks.specs.QuirkRows.{payload_quirk, is_strict, nested_bit_quirk};
ghost use Rattle.link_capture_quirks.specs.QuirkRows.{bit_quirk, header_quirk};

use crate::kinds::{IFLA_IFALIAS, IFLA_IFNAME, IFLA_MAP, IFLA_PARENT_DEV_NAME, IFLA_PROTINFO};
use crate::quirk_at::Quirk;
use crate::tables::{Data, Table};
use link_capture_grammar::link_types::RTM_GETLINK;
use netlink_packet_core_attributes::view::read_u32;

/// Returns a quirk if the condition holds.
fn quirk_if(holds: bool, quirk: Quirk) -> Option<Quirk>
    ensures { result ≡ quirk_if holds quirk }
{
    if holds { Some(quirk) } else { None }
}

/// Returns whether a payload is one byte over 1.
fn is_byte_over_one(payload: &[u8]) -> bool
    ensures { result ≡ is_byte_over_one payload.now }
{
    payload.len() == 1 && payload[0] > 1
}

/// Returns whether a payload is a little-endian number of 4 bytes over 1.
fn is_u32_over_one(payload: &[u8]) -> bool
    ensures { result ≡ is_u32_over_one payload.now }
{
    payload.len() == 4 && read_u32(payload, 0) > 1
}

/// Returns whether a payload has a NUL.
fn has_nul(payload: &[u8]) -> bool
    ensures { result ≡ has_nul payload.now }
{
    payload.contains(&0)
}

/// Returns whether a payload is an alias that has 256 bytes in the normal text, since a NUL is
/// appended.
fn is_long_alias(payload: &[u8]) -> bool
    ensures { result ≡ is_long_alias payload.now }
{
    payload.len() == 255 && payload[254] != 0
}

/// Returns the quirk of a payload of a link's attribute.
#[tactic(auto, unfolding(crate::specs::QuirkRows::link_quirk))]
fn link_quirk(kind: u16, payload: &[u8]) -> Option<Quirk>
    ensures { result ≡ link_quirk kind payload.now }
{
    match kind {
        IFLA_IFNAME => quirk_if(payload.is_empty(), Quirk::NameWithoutNul),
        IFLA_MAP => quirk_if(payload.len() < 32, Quirk::ShortMap),
        IFLA_IFALIAS => quirk_if(is_long_alias(payload), Quirk::LongAlias),
        IFLA_PARENT_DEV_NAME => quirk_if(!has_nul(payload), Quirk::NameWithoutNul),
        _ => None,
    }
}

/// Returns whether a kind of these data is a flag, which is set by being present.
fn is_flag(kind_data: Data, kind: u16) -> bool
    ensures { result ≡ is_flag kind_data kind }
{
    match kind_data {
        Data::Vxlan => matches!(kind, 23 | 24 | 27),
        Data::Geneve => matches!(kind, 6 | 14),
        Data::Gre | Data::Gre6 => kind == 18,
        Data::IpTunnel => kind == 19,
        Data::BareUdp => kind == 4,
        _ => false,
    }
}

/// Returns the quirk of a payload of a kind that isn't a flag.
fn value_quirk(kind_data: Data, kind: u16, payload: &[u8]) -> Option<Quirk>
    ensures { result ≡ value_quirk kind_data kind payload.now }
{
    match kind_data {
        Data::Vxlan if matches!(kind, 31 | 34) => quirk_if(
            is_byte_over_one(payload),
            Quirk::BooleanOverOne,
        ),
        Data::Gre if kind == 10 => quirk_if(is_byte_over_one(payload), Quirk::PathDiscoveryOverOne),
        Data::Batadv if kind == 1 => quirk_if(!has_nul(payload), Quirk::NameWithoutNul),
        Data::Netkit if matches!(kind, 6 | 7) => quirk_if(
            is_u32_over_one(payload),
            Quirk::BooleanOverOne,
        ),
        Data::AfterFirst => quirk_if(kind == 1, Quirk::TrailingPeer),
        _ => None,
    }
}

/// Returns the quirk of a payload in the data of a kind of link.
fn data_quirk(kind_data: Data, kind: u16, payload: &[u8]) -> Option<Quirk>
    ensures { result ≡ data_quirk kind_data kind payload.now }
{
    if is_flag(kind_data, kind) {
        quirk_if(!payload.is_empty(), Quirk::FlagWithPayload)
    } else {
        value_quirk(kind_data, kind, payload)
    }
}

/// Returns the quirk of a payload in a list, by its kind without flag bits.
fn payload_quirk(table: Table, kind: u16, payload: &[u8]) -> Option<Quirk>
    ensures { result ≡ payload_quirk table kind payload.now }
{
    match table {
        Table::Unspec | Table::Bridge | Table::Link => link_quirk(kind, payload),
        Table::Inet => quirk_if(kind == 1 && payload.len() != 132, Quirk::ResizedSettings),
        Table::Functions => quirk_if(kind != 1, Quirk::UnexpectedFunction),
        Table::OfKind(kind_data) => data_quirk(kind_data, kind, payload),
        Table::Info | Table::Families | Table::Programs => None,
    }
}

/// Returns whether a kind in these data is checked strictly and isn't nested.
fn is_strict(kind_data: Data, kind: u16) -> bool
    ensures { result ≡ is_strict kind_data kind }
{
    match kind_data {
        Data::Vxlan => 31 <= kind && kind <= 34,
        Data::Geneve => kind == 14,
        _ => false,
    }
}

/// Returns the quirk of the nested bit on a kind of a list.
fn nested_bit_quirk(table: Table, kind: u16) -> Option<Quirk>
    ensures { result ≡ nested_bit_quirk table kind }
{
    match table {
        Table::Bridge => quirk_if(kind == IFLA_PROTINFO, Quirk::NestedPortSettings),
        Table::Programs => quirk_if(kind == 8, Quirk::StrayNestedBit),
        Table::OfKind(kind_data) => quirk_if(is_strict(kind_data, kind), Quirk::StrayNestedBit),
        _ => None,
    }
}

/// Returns the quirk of the flag bits of a kind in a list.
fn bit_quirk(table: Table, kind: u16) -> Option<Quirk>
    ensures { result ≡ bit_quirk table kind }
{
    if kind >= 0x8000 {
        nested_bit_quirk(table, kind % 0x4000)
    } else {
        None
    }
}

/// Returns the quirks of an attribute of a list, by its kind with flag bits: that of the nested
/// bit, and that of the payload.
pub fn attribute_quirks(table: Table, kind: u16, payload: &[u8]) -> (Option<Quirk>, Option<Quirk>)
    ensures bit { result.0 ≡ bit_quirk table kind }
    ensures payload { result.1 ≡ payload_quirk table (proper_kind kind) payload.now }
{
    let nested = bit_quirk(table, kind);
    let inside = payload_quirk(table, kind % 0x4000, payload);
    (nested, inside)
}

/// Returns the quirk of the second byte of a link's header in a message of a type.
pub fn header_quirk(message_type: u16, body: &[u8]) -> Option<Quirk>
    requires { 16 ≤ length body.now }
    ensures { result ≡ header_quirk message_type body.now }
{
    quirk_if(
        message_type == RTM_GETLINK && body[1] != 0,
        Quirk::HeaderByte,
    )
}
