//! Whole lists of attributes, next hops and records, which lines can determine.

ghost use Rattle.std.specs.Prelude.{◌≡◌, ◌≤◌, length, take, drop, option_map, IfSome, None};
ghost use Rattle.netlink_packet_core_grammar.specs.Attributes.{attribute_length};
ghost use Rattle.netlink_packet_core_grammar.specs.Attributes.{first_attribute};
ghost use Rattle.link_interpreter.specs.Sameness.{attribute_of};
ghost use Rattle.link_lines_values.specs.Records.{fields_of};
ghost use Rattle.link_lines_raw.specs.Attributes.{are_next_hops_after, are_records_after};
ghost use Rattle.link_lines_raw.specs.Attributes.{is_first_record, is_hop_of, is_next_hop};
ghost use Rattle.link_lines_parts.specs.Whole.{shown_padding};
ghost use Rattle.link_lines_raw.specs.Lists.{first_part, part_padding};
ghost use Rattle.link_lines_raw.specs.Views.{listed_of};

use crate::raw_tables::RawTable;
use crate::rows::RecordLine;
use link_interpreter::{Attribute, first_attribute};
use link_lines_parts::{is_whole, shown_padding};
use link_lines_values::line_layouts::RTNEXTHOP;
use link_lines_values::{Field, is_record, record_size};
use netlink_packet_core_attributes::nla::NLA_HEADER_SIZE;
use netlink_packet_core_attributes::view::read_u16;

/// The size in bytes of the struct at the start of a next hop (rtnetlink.h: struct rtnexthop).
pub(crate) const NEXT_HOP_LEN: usize = 8;

/// What is listed, with bytes of type `B` and records of type `L`.
#[derive(Clone, Copy)]
pub enum ListedBy<B, L> {
    /// Attributes of that table, in that list.
    Attributes(RawTable, B),
    /// Next hops, each with attributes of that table.
    NextHops(RawTable),
    /// Records.
    Records(L),
}

/// What is listed.
pub type Listed<'a> = ListedBy<&'a [u8], RecordLine>;

/// Returns whether bytes of this size are a whole next hop.
#[tactic(auto, unfolding(crate::specs::Attributes::next_hop_line))]
fn is_hop_of(size: usize, bytes: &[u8]) -> bool
    requires low { 8 ≤ size }
    requires high { size ≤ length bytes.now }
    ensures { result ≡ is_hop_of size bytes.now }
{
    is_record(RTNEXTHOP.fields(), &bytes[2..NEXT_HOP_LEN]) && is_whole(&bytes[NEXT_HOP_LEN..size])
}

/// Returns whether bytes begin with a whole next hop.
fn is_next_hop(bytes: &[u8]) -> bool
    ensures { result ≡ is_next_hop bytes.now }
{
    if bytes.len() < NEXT_HOP_LEN {
        return false;
    }
    let size = read_u16(bytes, 0) as usize;
    if size < NEXT_HOP_LEN || size > bytes.len() {
        return false;
    }
    is_hop_of(size, bytes)
}

/// Returns whether bytes are next hops up to the end.
pub(crate) fn are_next_hops(bytes: &[u8]) -> bool
    ensures { result ≡ are_next_hops_after 0 bytes.now }
{
    let mut rest = bytes;
    while !rest.is_empty() {
        if !is_next_hop(rest) {
            return false;
        }
        let (_, after) = rest.split_at(read_u16(rest, 0) as usize);
        rest = after;
    }
    true
}

/// Returns whether bytes begin with a record that has these fields.
fn is_first_record(fields: &[Field], bytes: &[u8]) -> bool
    ensures { result ≡ is_first_record (fields_of (λ b. b.now) fields.now) bytes.now }
{
    let size = record_size(fields);
    1 <= size && size <= bytes.len() && is_record(fields, &bytes[..size])
}

/// Returns whether bytes are records with these fields up to the end.
pub(crate) fn are_records(fields: &[Field], bytes: &[u8]) -> bool
    ensures { result ≡ are_records_after (fields_of (λ b. b.now) fields.now) 0 bytes.now }
{
    let size = record_size(fields);
    let mut rest = bytes;
    while !rest.is_empty() {
        if !is_first_record(fields, rest) {
            return false;
        }
        let (_, after) = rest.split_at(size);
        rest = after;
    }
    true
}

/// A part of what is listed, the padding after it that lines show, and the bytes after both.
pub(crate) type FirstPart<'a> = (Attribute<'a>, Option<&'a [u8]>, &'a [u8]);

/// Returns the first attribute of bytes.
#[tactic(auto, unfolding(crate::specs::Lists::first_part, crate::specs::Lists::part_padding))]
fn first_listed(bytes: &[u8]) -> Option<FirstPart<'_>>
    ensures first { first_attribute bytes.now ≡ option_map (λ r. (attribute_of r.0, r.2.now)) result }
    ensures padding { IfSome result (λ r. option_map (λ p. p.now) r.1
        ≡ shown_padding (attribute_length (attribute_of r.0)) bytes.now) }
{
    let (attribute, after) = first_attribute(bytes)?;
    let length = NLA_HEADER_SIZE + attribute.payload.len();
    Some((attribute, shown_padding(length, bytes), after))
}

/// Returns the first `size` bytes as a part of kind 0, without padding, and the bytes after them.
fn first_bytes(size: usize, bytes: &[u8]) -> FirstPart<'_>
    requires { size ≤ length bytes.now }
    ensures payload { result.0.payload.now ≡ take size bytes.now }
    ensures kind { result.0.kind ≡ 0 }
    ensures padding { result.1 ≡ None }
    ensures following { result.2.now ≡ drop size bytes.now }
{
    let (payload, after) = bytes.split_at(size);
    (Attribute { kind: 0, payload }, None, after)
}

/// Returns the first part of what is listed, and the bytes after it: an attribute, a next hop, or a
/// record. Next hops and records have the kind 0.
#[tactic(auto, unfolding(crate::specs::Lists::first_part, crate::specs::Lists::part_padding))]
pub(crate) fn first_part<'a>(listed: Listed<'_>, bytes: &'a [u8]) -> Option<FirstPart<'a>>
    ensures first { first_part (listed_of (λ b. b.now) listed.entry) bytes.now
        ≡ option_map (λ r. (attribute_of r.0, r.2.now)) result }
    ensures padding { IfSome result (λ r. option_map (λ p. p.now) r.1
        ≡ part_padding (listed_of (λ b. b.now) listed.entry) (attribute_of r.0) bytes.now) }
{
    match listed {
        ListedBy::Attributes(_, _) => first_listed(bytes),
        ListedBy::NextHops(_) if is_next_hop(bytes) => {
            Some(first_bytes(read_u16(bytes, 0) as usize, bytes))
        }
        ListedBy::Records(line) if is_first_record(line.1.fields(), bytes) => {
            Some(first_bytes(record_size(line.1.fields()), bytes))
        }
        _ => None,
    }
}
