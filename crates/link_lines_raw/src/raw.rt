//! The rows of raw attributes by table and kind, and their lines.

ghost use Rattle.std.specs.Prelude.{◌≡◌, ◌≤◌, ◌<◌, ◌+◌, ◌%◌, ◌^◌, ◌++◌, ◌∷◌, [], true};
ghost use Rattle.std.specs.Prelude.{codes, length, nat_le, option_map, IfOk, OnOk};
ghost use Rattle.link_lines_values.specs.Appends.{Appends};
ghost use Rattle.link_lines_parts.specs.Levels.{deepest_level};
ghost use Rattle.link_interpreter.specs.Sameness.{attribute_of};
ghost use Rattle.link_lines_values.specs.DenseRows.{are_dense, find};
ghost use Rattle.link_lines_values.specs.Digits.{four_digits};
ghost use Rattle.link_lines_values.specs.Indents.{indent};
ghost use Rattle.link_lines_values.specs.Layouts.{layout_fields};
ghost use Rattle.link_lines_values.specs.Records.{total_size};
ghost use Rattle.link_lines_raw.specs.Attributes.{after_name, are_records_after, holds_lines, indexed_row, is_headed, is_shown};
ghost use Rattle.link_lines_raw.specs.Attributes.{is_whole, levels_below, plain_bytes};
ghost use Rattle.link_lines_raw.specs.Attributes.{proper_row, raw_row, raw_text, record_words, unnamed_text};
ghost use Rattle.link_lines_raw.specs.Lines.{line_text, lines_text};
ghost use Rattle.link_lines_raw.specs.Lists.{head_of, head_text, held_lines, is_part, levels_of, listed_in, listed_lines};
ghost use Rattle.link_lines_raw.specs.Lists.{named_head, named_list};
ghost use Rattle.link_lines_raw.specs.Lists.{padding_words, part_list, part_with_head, raw_below, shown_head, shown_list};
ghost use Rattle.link_lines_raw.specs.Names.{named_of};
ghost use Rattle.link_lines_raw.specs.Rows.{raw_of, raw_rows_in_code, record_line_of};
ghost use Rattle.link_lines_raw.specs.Tables.{raw_rows_of};
ghost use Rattle.link_lines_raw.specs.Views.{found_row, listed_of, listing};

use crate::choices::resolved;
use crate::lists::{Listed, ListedBy, NEXT_HOP_LEN, are_next_hops, are_records, first_part};
use crate::raw_tables::{ACTION, GROUP_SIZE, INDEXED_ACTION, INDEXED_IPV4, INDEXED_IPV6, RawTable};
use crate::records::RTNEXTHOP_LINE;
use crate::rows::{Raw, RawBy, RawName, RawRow, RecordLine};
use crate::{
    bridge_rows, cfm_rows, kind_rows, link_rows, multicast_rows, neighbour_rows, option_rows,
    route_rows, traffic_rows,
};
use link_interpreter::{Attribute, KIND_BOUND};
use link_lines_parts::{DEEPEST_LEVEL, has_byte_order_bit, is_whole, push_kind_name};
use link_lines_values::{
    ExactBy, ShownBy, is_record, look_up, push_bytes, push_four_digits, push_header_fields,
    push_indent, push_raw_value, record_size,
};
use std::alloc::AllocError;

/// Returns the rows of a table.
#[tactic(auto, unfolding(crate::specs::Tables::raw_rows_of))]
pub(crate) fn raw_rows(table: RawTable) -> &'static [RawRow]
    ensures rows { raw_rows_in_code (λ b. b.now) result.now ≡ raw_rows_of table.0 }
    ensures dense { are_dense result.now ≡ true }
{
    let index = table.0 % GROUP_SIZE;
    match table.0 / GROUP_SIZE {
        0 => link_rows::rows(index),
        1 => kind_rows::rows(index),
        2 => bridge_rows::rows(index),
        3 => cfm_rows::rows(index),
        4 => route_rows::rows(index),
        5 => neighbour_rows::rows(index),
        6 => traffic_rows::rows(index),
        7 => multicast_rows::rows(index),
        8 => option_rows::rows(index),
        _ => &[],
    }
}

// What attributes hold in tables in which each kind is an index.
const IPV4_ADDRESS: &Raw = &RawBy::Value(ExactBy::Sized(4, ShownBy::Address));

const IPV6_ADDRESS: &Raw = &RawBy::Value(ExactBy::Sized(16, ShownBy::Address));

const ONE_ACTION: &Raw = &RawBy::List(ACTION);

/// Returns what an attribute holds in a table in which each kind is an index.
fn indexed_row(table: RawTable) -> Option<&'static Raw>
    ensures { option_map (λ raw. raw_of (λ b. b.now) raw.now) result
        ≡ indexed_row table }
{
    const IPV4: u16 = INDEXED_IPV4.0;
    const IPV6: u16 = INDEXED_IPV6.0;
    const ACTIONS: u16 = INDEXED_ACTION.0;
    match table.0 {
        IPV4 => Some(IPV4_ADDRESS),
        IPV6 => Some(IPV6_ADDRESS),
        ACTIONS => Some(ONE_ACTION),
        _ => None,
    }
}

/// The row of a kind: its name, or none if the kind is an index; and what the payload holds.
type FoundRow = (Option<&'static [u8]>, &'static Raw);

/// Returns the name of a kind without flag bits in a table, and what its payload holds.
fn listed_row(table: RawTable, kind: u16) -> Option<&'static RawName>
    ensures { option_map
        (λ row. named_of (λ b. b.now) (raw_of (λ b. b.now)) row.now) result
        ≡ find kind (raw_rows_of table.0) }
{
    look_up(raw_rows(table), kind)
}

/// Returns the row of a kind without flag bits.
#[tactic(auto, unfolding(crate::specs::Attributes::proper_row))]
fn proper_row(table: RawTable, kind: u16) -> Option<FoundRow>
    ensures { option_map (found_row (λ b. b.now)
        (λ raw. raw_of (λ b. b.now) raw.now) kind) result
        ≡ proper_row table kind }
{
    if let Some((name, raw)) = listed_row(table, kind) {
        return Some((Some(*name), raw));
    }
    match indexed_row(table) {
        Some(raw) => Some((None, raw)),
        None => None,
    }
}

/// Returns the row of a kind; none if it has the bit NLA_F_NET_BYTEORDER.
#[tactic(auto, unfolding(crate::specs::Attributes::raw_row))]
fn raw_row(table: RawTable, kind: u16) -> Option<FoundRow>
    ensures { option_map (found_row (λ b. b.now)
        (λ raw. raw_of (λ b. b.now) raw.now) (kind % 0x4000)) result
        ≡ raw_row table kind }
{
    if has_byte_order_bit(kind) {
        return None;
    }
    proper_row(table, kind % KIND_BOUND)
}

/// Returns whether a payload of a list, next hops or records is exactly that.
fn holds_lines(raw: &Raw, payload: &[u8]) -> bool
    ensures { result ≡ holds_lines (raw_of (λ b. b.now) raw.now) payload.now }
{
    match raw {
        RawBy::Value(_) | RawBy::Chosen(_, _) => false,
        RawBy::List(_) => is_whole(payload),
        RawBy::Head(line, _) => starts_with_record(line, payload),
        RawBy::HeadAndRecords(head, line) => starts_with_records(head, line, payload),
        RawBy::Hops(_) => are_next_hops(payload),
        RawBy::Records(line) => are_records(line.1.fields(), payload),
    }
}

/// Returns whether bytes are a record, followed by a whole list.
fn starts_with_record(line: &RecordLine, bytes: &[u8]) -> bool
    ensures { result
        ≡ is_headed is_whole (record_line_of (λ b. b.now) line.now) bytes.now }
{
    let size = record_size(line.1.fields());
    size <= bytes.len() && is_record(line.1.fields(), &bytes[..size]) && is_whole(&bytes[size..])
}

/// Returns whether bytes are a record, followed by records of another kind up to the end.
fn starts_with_records(head: &RecordLine, line: &RecordLine, bytes: &[u8]) -> bool
    ensures { result ≡ is_headed (are_records_after (layout_fields line.now.1) 0)
        (record_line_of (λ b. b.now) head.now) bytes.now }
{
    let size = record_size(head.1.fields());
    size <= bytes.len()
        && is_record(head.1.fields(), &bytes[..size])
        && are_records(line.1.fields(), &bytes[size..])
}

/// Returns whether lines of what an attribute holds aren't too deep if the first has this level.
fn is_in_reach(level: usize, raw: &Raw) -> bool
    ensures { result ≡ nat_le (level + levels_below (raw_of (λ b. b.now) raw.now)) deepest_level }
{
    match raw {
        RawBy::Hops(_) => level < DEEPEST_LEVEL,
        _ => level <= DEEPEST_LEVEL,
    }
}

/// Returns whether lines show a payload, the first at this level.
fn is_shown(level: usize, raw: &Raw, payload: &[u8]) -> bool
    ensures { result ≡ is_shown level (raw_of (λ b. b.now) raw.now) payload.now }
{
    is_in_reach(level, raw) && holds_lines(raw, payload)
}

/// Appends the word of a record and its fields.
fn push_record_words(line: RecordLine, bytes: &[u8], out: &mut Vec<u8>) -> Result<(), AllocError>
    requires { length bytes.now ≡ total_size (layout_fields line.1) }
    ensures { Appends out.old out.new result
        (record_words (record_line_of (λ b. b.now) line.entry) bytes.now) }
{
    out.extend_from_slice(line.0)?;
    push_header_fields(line.1.fields(), bytes, out)
}

/// Appends the line of a record at the start of bytes, at a level.
pub(crate) fn push_record_line(
    level: usize,
    line: RecordLine,
    bytes: &[u8],
    out: &mut Vec<u8>,
) -> Result<(), AllocError>
    requires { length bytes.now ≡ total_size (layout_fields line.1) }
    ensures { Appends out.old out.new result
        (line_text (level, record_words (record_line_of (λ b. b.now) line.entry) bytes.now)) }
{
    push_indent(level, out)?;
    push_record_words(line, bytes, out)?;
    out.extend_from_slice(b"\n")
}

/// Appends the line of the record at the start of a payload, if it has one, and returns what the
/// payload lists below its attribute's line.
fn open_lines<'a>(
    level: usize,
    raw: &Raw,
    payload: &'a [u8],
    out: &mut Vec<u8>,
) -> Result<Option<(Listed<'a>, &'a [u8])>, AllocError>
    requires { holds_lines (raw_of (λ b. b.now) raw.now) payload.now ≡ true }
    ensures appends { Appends out.old out.new result
        (head_text level (head_of (raw_of (λ b. b.now) raw.now) payload.now)) }
    ensures list { IfOk result (λ found. option_map (listing (λ b. b.now)) found
        ≡ listed_in (raw_of (λ b. b.now) raw.now) payload.now) }
{
    match raw {
        RawBy::Value(_) | RawBy::Chosen(_, _) => Ok(None),
        RawBy::List(table) => Ok(Some((ListedBy::Attributes(*table, payload), payload))),
        RawBy::Head(line, table) => {
            let (head, rest) = payload.split_at(record_size(line.1.fields()));
            push_record_line(level, *line, head, out)?;
            Ok(Some((ListedBy::Attributes(*table, rest), rest)))
        }
        RawBy::HeadAndRecords(head, line) => {
            let (first, rest) = payload.split_at(record_size(head.1.fields()));
            push_record_line(level, *head, first, out)?;
            Ok(Some((ListedBy::Records(*line), rest)))
        }
        RawBy::Hops(table) => Ok(Some((ListedBy::NextHops(*table), payload))),
        RawBy::Records(line) => Ok(Some((ListedBy::Records(*line), payload))),
    }
}

/// Appends the word `bytes` and the bytes in hex.
///
/// # Errors
///
/// `AllocError` if `out` lacked capacity for the text and can't grow; what it held stays, and a
/// part of the text may follow.
pub fn push_plain_bytes(bytes: &[u8], out: &mut Vec<u8>) -> Result<(), AllocError>
    ensures { Appends out.old out.new result (plain_bytes bytes.now) }
{
    out.extend_from_slice(b" bytes")?;
    push_bytes(bytes, out)
}

/// Appends the line of padding, if there is any to be shown.
fn push_padding(level: usize, padding: Option<&[u8]>, out: &mut Vec<u8>) -> Result<(), AllocError>
    ensures { Appends out.old out.new result
        (head_text level (padding_words (option_map (λ p. p.now) padding.entry))) }
{
    let Some(padding) = padding else {
        return Ok(());
    };
    push_indent(level, out)?;
    out.extend_from_slice(b"padding")?;
    push_bytes(padding, out)?;
    out.extend_from_slice(b"\n")
}

/// Ends an attribute's line, and appends the line of padding after the attribute, if it is to be
/// shown.
fn push_line_end(level: usize, padding: Option<&[u8]>, out: &mut Vec<u8>) -> Result<(), AllocError>
    ensures { Appends out.old out.new result
        (10 ∷ head_text level (padding_words (option_map (λ p. p.now) padding.entry))) }
{
    out.extend_from_slice(b"\n")?;
    push_padding(level, padding, out)
}

/// Appends what follows a name on the same line, the line of padding after the attribute, if it is
/// to be shown, and the line of the record at the start of the payload, if it has one. Returns what
/// the payload lists below.
#[tactic(auto, unfolding(crate::specs::Attributes::after_name))]
pub(crate) fn push_after_name<'a>(
    level: usize,
    raw: &Raw,
    payload: &'a [u8],
    padding: Option<&[u8]>,
    out: &mut Vec<u8>,
) -> Result<Option<(Listed<'a>, &'a [u8])>, AllocError>
    ensures appends { Appends out.old out.new result
        (after_name level (raw_of (λ b. b.now) raw.now) payload.now
        ++ 10 ∷ (head_text level (padding_words (option_map (λ p. p.now) padding.entry))
        ++ head_text level (shown_head level (raw_of (λ b. b.now) raw.now) payload.now))) }
    ensures list { IfOk result (λ found. option_map (listing (λ b. b.now)) found
        ≡ shown_list level (raw_of (λ b. b.now) raw.now) payload.now) }
{
    if let RawBy::Value(shown) = raw {
        push_raw_value(*shown, payload, out)?;
        push_line_end(level, padding, out)?;
        return Ok(None);
    }
    if !is_shown(level, raw, payload) {
        push_plain_bytes(payload, out)?;
        push_line_end(level, padding, out)?;
        return Ok(None);
    }
    push_line_end(level, padding, out)?;
    open_lines(level, raw, payload, out)
}

/// Appends the word `kind` and a kind in four digits.
fn push_kind_number(kind: u16, out: &mut Vec<u8>) -> Result<(), AllocError>
    ensures { Appends out.old out.new result (codes "kind " ++ four_digits kind) }
{
    out.extend_from_slice(b"kind ")?;
    push_four_digits(kind, out)
}

/// Appends a raw attribute without a name: its kind as a number, and its bytes.
fn push_unnamed(kind: u16, payload: &[u8], out: &mut Vec<u8>) -> Result<(), AllocError>
    ensures { Appends out.old out.new result (unnamed_text kind payload.now) }
{
    push_kind_number(kind, out)?;
    push_bytes(payload, out)
}

/// Appends the text of a raw attribute's line and the line's end, the line of padding after the
/// attribute, if it is to be shown, and the line of the record at the start of its payload, if it has
/// one. Returns what the payload lists below.
#[tactic(auto, unfolding(crate::specs::Attributes::raw_text))]
pub(crate) fn push_attribute<'a>(
    level: usize,
    table: RawTable,
    list: &[u8],
    attribute: Attribute<'a>,
    padding: Option<&[u8]>,
    out: &mut Vec<u8>,
) -> Result<Option<(Listed<'a>, &'a [u8])>, AllocError>
    ensures appends { Appends out.old out.new result
        (raw_text level table list.now (attribute_of attribute.entry)
        ++ 10 ∷ (head_text level (padding_words (option_map (λ p. p.now) padding.entry))
        ++ head_text level (named_head level (raw_row table attribute.entry.kind) list.now
        (attribute_of attribute.entry)))) }
    ensures list { IfOk result (λ found. option_map (listing (λ b. b.now)) found
        ≡ named_list level (raw_row table attribute.entry.kind) list.now (attribute_of attribute.entry)) }
{
    match raw_row(table, attribute.kind) {
        Some((name, raw)) => {
            push_kind_name(name, attribute.kind, out)?;
            push_after_name(level, resolved(raw, list), attribute.payload, padding, out)
        }
        None => {
            push_unnamed(attribute.kind, attribute.payload, out)?;
            push_line_end(level, padding, out)?;
            Ok(None)
        }
    }
}

/// Appends the line of a part of what is listed, and one level deeper the line of padding after it,
/// if it is to be shown, and the line of the record at the start of its payload, if it has one.
/// Returns what the part lists below.
#[tactic(auto, unfolding(crate::specs::Lists::part_text, crate::specs::Lists::part_head, crate::specs::Lists::part_list, crate::specs::Attributes::next_hop_line, link_lines_values::specs::Layouts::layout_fields))]
fn push_part<'a>(
    level: usize,
    listed: Listed<'_>,
    part: Attribute<'a>,
    padding: Option<&[u8]>,
    out: &mut Vec<u8>,
) -> Result<Option<(Listed<'a>, &'a [u8])>, AllocError>
    requires part { is_part (listed_of (λ b. b.now) listed) part.payload.now ≡ true }
    requires level { level < 2 ^ 63 }
    ensures appends { Appends out.old out.new result
        (part_with_head level (listed_of (λ b. b.now) listed.entry) (attribute_of part.entry)
        (option_map (λ p. p.now) padding.entry)) }
    ensures list { IfOk result (λ found. option_map (listing (λ b. b.now)) found
        ≡ part_list level (listed_of (λ b. b.now) listed.entry) (attribute_of part.entry)) }
{
    match listed {
        ListedBy::Attributes(table, list) => {
            push_indent(level, out)?;
            push_attribute(level + 1, table, list, part, padding, out)
        }
        ListedBy::NextHops(table) => {
            push_record_line(level, RTNEXTHOP_LINE, &part.payload[2..NEXT_HOP_LEN], out)?;
            push_padding(level + 1, padding, out)?;
            let (_, list) = part.payload.split_at(NEXT_HOP_LEN);
            Ok(Some((ListedBy::Attributes(table, list), list)))
        }
        ListedBy::Records(line) => {
            push_record_line(level, line, part.payload, out)?;
            push_padding(level + 1, padding, out)?;
            Ok(None)
        }
    }
}

/// Appends the lines of what is listed, indented for this level. It calls itself for lists that are
/// deeper by a level, of which there are at most `DEEPEST_LEVEL`.
pub(crate) fn push_listed(
    level: usize,
    listed: Listed<'_>,
    bytes: &[u8],
    out: &mut Vec<u8>,
) -> Result<(), AllocError>
    requires { level + levels_of (listed_of (λ b. b.now) listed) ≤ deepest_level }
    ensures { Appends out.old out.new result
        (lines_text (listed_lines level (listed_of (λ b. b.now) listed.entry) bytes.now)) }
{
    let mut rest = bytes;
    while let Some((part, padding, after)) = first_part(listed, rest) {
        let found = push_part(level, listed, part, padding, out)?;
        rest = after;
        if let Some((inside, list)) = found {
            push_listed(level + 1, inside, list, out)?;
        }
    }
    Ok(())
}

/// Appends the text of a raw attribute's line, without its indentation, the line's end, and the
/// lines of what the attribute holds, at `level`.
///
/// # Errors
///
/// `AllocError` if `out` lacked capacity for the lines and can't grow; what it held stays, and a
/// part of the lines may follow.
#[tactic(auto, unfolding(crate::specs::Lists::part_text, crate::specs::Lists::part_head, crate::specs::Lists::part_list))]
pub fn push_raw(
    level: usize,
    table: RawTable,
    attribute: Attribute<'_>,
    out: &mut Vec<u8>,
) -> Result<(), AllocError>
    ensures { Appends out.old out.new result
        (raw_text level table [] (attribute_of attribute.entry)
        ++ 10 ∷ lines_text (raw_below level table (attribute_of attribute.entry))) }
{
    match push_attribute(level, table, &[], attribute, None, out)? {
        Some((listed, list)) => push_listed(level, listed, list, out),
        None => Ok(()),
    }
}

/// Appends what follows the name of an attribute with this payload, the line's end, and the lines of
/// what the payload holds, at `level`.
///
/// # Errors
///
/// `AllocError` if `out` lacked capacity for the lines and can't grow; what it held stays, and a
/// part of the lines may follow.
pub fn push_held(
    level: usize,
    raw: &Raw,
    payload: &[u8],
    out: &mut Vec<u8>,
) -> Result<(), AllocError>
    ensures { Appends out.old out.new result
        (after_name level (raw_of (λ b. b.now) raw.now) payload.now
        ++ 10 ∷ lines_text (held_lines level (raw_of (λ b. b.now) raw.now) payload.now)) }
{
    match push_after_name(level, raw, payload, None, out)? {
        Some((listed, list)) => push_listed(level, listed, list, out),
        None => Ok(()),
    }
}
