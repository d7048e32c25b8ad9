//! Records, field by field.

ghost use Rattle.std.specs.Prelude.{◌≡◌, [], ◌==◌, ◌<◌, ◌≤◌, ◌+◌, ◌/◌, ◌∷◌, ◌++◌, true};
ghost use Rattle.std.specs.Prelude.{◌||◌, ◌&&◌, cond, drop, false, length, min, IfNone, IfSome, OnOk};
ghost use Rattle.link_lines_values.specs.Appends.{Appends};
ghost use Rattle.link_lines_values.specs.Bytes.{is_zero};
ghost use Rattle.link_lines_values.specs.Names.{texts_of};
ghost use Rattle.link_lines_values.specs.Records.{field_of, field_text, field_value, fields_of, fields_text};
ghost use Rattle.link_lines_values.specs.Records.{handle_or_hex, is_hidden, is_padding};
ghost use Rattle.link_lines_values.specs.Records.{is_record};
ghost use Rattle.link_lines_values.specs.Records.{counter_name, counters_text, is_counters, nonzero_text, slots_text};
ghost use Rattle.link_lines_values.specs.Records.{number_or_hex, record_text, shown_of, total_size, weight_text};

use crate::bytes::{
    is_zero, push_boolean, push_bytes, push_hex_text, push_padded_address, push_padded_text,
};
use crate::digits::{
    big_endian, is_signed_size, little_endian, push_decimal, push_hex_digits, push_signed,
};
use crate::fields::{Field, FieldShown, FieldShownBy};
use crate::flags::{FlagName, push_big_endian_flags_of, push_flags_of};
use crate::groups::push_group;
use crate::internet::push_ipv6;
use crate::number_tables::NumberText;
use crate::numbers::{push_bracketed_name, push_number};
use std::alloc::AllocError;

// Returns the bytes after the fields of a record; None if there are fewer bytes than the fields
// have.
#[tactic(auto, using(crate::proofs::Listing::further_on))]
fn after_fields<'a>(rows: &[Field], bytes: &'a [u8]) -> Option<&'a [u8]>
    ensures some { IfSome result (λ rest. rest.now ≡ drop (total_size (fields_of (λ b. b.now) rows.now)) bytes.now) }
    ensures whole { IfSome result
        (λ rest. length rest.now + total_size (fields_of (λ b. b.now) rows.now) ≡ length bytes.now) }
    ensures none { IfNone result (length bytes.now < total_size (fields_of (λ b. b.now) rows.now)) }
{
    let mut rest = bytes;
    for row in rows {
        let size = usize::from(row.1);
        if rest.len() < size {
            return None;
        }
        rest = &rest[size..];
    }
    Some(rest)
}

// Appends the number of a field with its name, or its bytes if no number has their size.
fn push_field_number(
    texts: &[NumberText],
    number: Option<u64>,
    part: &[u8],
    out: &mut Vec<u8>,
) -> Result<(), AllocError>
    ensures { Appends out.old out.new result
        (number_or_hex (texts_of (λ b. b.now) texts.now) number part.now) }
{
    match number {
        Some(number) => push_number(texts, number, out),
        None => push_hex_text(part, out),
    }
}

// Appends the number of a field with its sign, or its bytes if no signed number has their size.
fn push_field_signed(part: &[u8], out: &mut Vec<u8>) -> Result<(), AllocError>
    ensures { Appends out.old out.new result (field_value FieldShownBy.Signed part.now) }
{
    match little_endian(part) {
        Some(number) if is_signed_size(part.len()) => push_signed(part.len(), number, out),
        _ => push_hex_text(part, out),
    }
}

// Appends the flags of a field, or its bytes if no number has their size.
// Out of line, as few fields need it: inlined, it would slow `push_field_value`.
#[inline(never)]
fn push_field_flags(names: &[FlagName], part: &[u8], out: &mut Vec<u8>) -> Result<(), AllocError>
    ensures { Appends out.old out.new result
        (field_value (FieldShownBy.Flags (texts_of (λ b. b.now) names.now)) part.now) }
{
    match little_endian(part) {
        Some(flags) => push_flags_of(names, flags, part, out),
        None => push_hex_text(part, out),
    }
}

// Appends the big-endian flags of a field, or its bytes if no number has their size.
// Out of line, as few fields need it: inlined, it would slow `push_field_value`.
#[inline(never)]
fn push_field_big_endian_flags(part: &[u8], out: &mut Vec<u8>) -> Result<(), AllocError>
    ensures { Appends out.old out.new result (field_value FieldShownBy.BigEndianFlags part.now) }
{
    match big_endian(part) {
        Some(flags) => push_big_endian_flags_of(flags, part, out),
        None => push_hex_text(part, out),
    }
}

// Appends a byte and the weight of a next hop, which is one more, or bytes of another size.
// Out of line, as few fields need it: inlined, it would slow `push_field_value`.
#[inline(never)]
fn push_weight(part: &[u8], out: &mut Vec<u8>) -> Result<(), AllocError>
    ensures { Appends out.old out.new result (weight_text part.now) }
{
    match part {
        [hops] => {
            push_decimal(u64::from(*hops), out)?;
            out.extend_from_slice(b" (weight ")?;
            push_decimal(u64::from(*hops) + 1, out)?;
            out.push(b')')?;
            Ok(())
        }
        _ => push_hex_text(part, out),
    }
}

// Appends an IPv6 address, or bytes if they are not 16.
// Out of line, as few fields need it: inlined, it would slow `push_field_value`.
#[inline(never)]
fn push_field_ipv6(part: &[u8], out: &mut Vec<u8>) -> Result<(), AllocError>
    ensures { Appends out.old out.new result (field_value FieldShownBy.Ipv6 part.now) }
{
    if part.len() == 16 {
        push_ipv6(part, out)
    } else {
        push_hex_text(part, out)
    }
}

// Appends a handle of 4 bytes with its name, or bytes of another size.
// Out of line, as few fields need it: inlined, it would slow `push_field_value`.
#[inline(never)]
fn push_field_handle(
    texts: &[NumberText],
    handle: Option<u64>,
    part: &[u8],
    out: &mut Vec<u8>,
) -> Result<(), AllocError>
    ensures { Appends out.old out.new result
        (handle_or_hex (texts_of (λ b. b.now) texts.now) handle part.now) }
{
    match handle {
        Some(handle) if part.len() == 4 => {
            push_hex_digits(handle / 0x1_0000, out)?;
            out.push(b':')?;
            push_hex_digits(handle % 0x1_0000, out)?;
            push_bracketed_name(texts, handle, out)
        }
        _ => push_hex_text(part, out),
    }
}

// Appends the value of a field.
fn push_field_value(shown: &FieldShown, part: &[u8], out: &mut Vec<u8>) -> Result<(), AllocError>
    ensures { Appends out.old out.new result (field_value (shown_of shown.now) part.now) }
{
    match shown {
        FieldShownBy::Number(table) => {
            push_field_number(table.texts(), little_endian(part), part, out)
        },
        FieldShownBy::Signed => push_field_signed(part, out),
        FieldShownBy::BigEndian(table) => {
            push_field_number(table.texts(), big_endian(part), part, out)
        },
        FieldShownBy::Flags(table) => push_field_flags(table.texts(), part, out),
        FieldShownBy::BigEndianFlags => push_field_big_endian_flags(part, out),
        FieldShownBy::Weight => push_weight(part, out),
        FieldShownBy::Address => push_padded_address(part, out),
        FieldShownBy::Boolean => push_boolean(part, out),
        FieldShownBy::Handle(table) => {
            push_field_handle(table.texts(), little_endian(part), part, out)
        },
        FieldShownBy::Text => push_padded_text(part, out),
        FieldShownBy::Group(table) => push_group(table.texts(), part, out),
        FieldShownBy::Ipv6 => push_field_ipv6(part, out),
        FieldShownBy::Padding => push_hex_text(part, out),
    }
}

// Appends a space, a field's name, a separator and the field's value.
fn push_field(
    separator: u8,
    field: &Field,
    part: &[u8],
    out: &mut Vec<u8>,
) -> Result<(), AllocError>
    ensures { Appends out.old out.new result
        (field_text separator (field_of (λ b. b.now) field.now) part.now) }
{
    out.push(b' ')?;
    out.extend_from_slice(field.0)?;
    out.push(separator)?;
    push_field_value(&field.2, part, out)
}

// Returns whether a field is padding.
fn is_padding(shown: &FieldShown) -> bool
    ensures { result ≡ is_padding (shown_of shown.now) }
{
    matches!(shown, FieldShownBy::Padding)
}

// Returns whether a field is zero, by its number if it has one.
#[tactic(auto, using(crate::proofs::Zeros::zero_by_number))]
fn is_zero_field(part: &[u8]) -> bool
    ensures { result ≡ is_zero part.now }
{
    match little_endian(part) {
        Some(number) => number == 0,
        None => is_zero(part),
    }
}

// Returns whether a field isn't shown: padding that is zero, and in a sparse record any field that is
// zero.
fn is_hidden(is_sparse: bool, shown: &FieldShown, part: &[u8]) -> bool
    ensures { result ≡ is_hidden is_sparse (shown_of shown.now) part.now }
{
    (is_sparse || is_padding(shown)) && is_zero_field(part)
}

// Appends the fields that are shown, each with a separator between its name and its value.
fn push_fields(
    separator: u8,
    is_sparse: bool,
    rows: &[Field],
    bytes: &[u8],
    out: &mut Vec<u8>,
) -> Result<(), AllocError>
    requires { length bytes.now ≡ total_size (fields_of (λ b. b.now) rows.now) }
    ensures { Appends out.old out.new result
        (fields_text separator is_sparse (fields_of (λ b. b.now) rows.now) bytes.now) }
{
    let mut rest = bytes;
    for row in rows {
        let (part, after) = rest.split_at(usize::from(row.1));
        if !is_hidden(is_sparse, &row.2, part) {
            push_field(separator, row, part, out)?;
        }
        rest = after;
    }
    Ok(())
}

/// Appends the fields of a record that has their size, each as in ` vlan=7`.
///
/// # Errors
///
/// `AllocError` if `out` lacked capacity for the text and can't grow; what it held stays, and a
/// part of the text may follow.
pub fn push_record_fields(rows: &[Field], bytes: &[u8], out: &mut Vec<u8>) -> Result<(), AllocError>
    requires { length bytes.now ≡ total_size (fields_of (λ b. b.now) rows.now) }
    ensures { Appends out.old out.new result
        (fields_text 61 false (fields_of (λ b. b.now) rows.now) bytes.now) }
{
    push_fields(b'=', false, rows, bytes, out)
}

/// Appends the fields of a header that has their size, each as in ` vlan 7`.
///
/// # Errors
///
/// `AllocError` if `out` lacked capacity for the text and can't grow; what it held stays, and a
/// part of the text may follow.
pub fn push_header_fields(rows: &[Field], bytes: &[u8], out: &mut Vec<u8>) -> Result<(), AllocError>
    requires { length bytes.now ≡ total_size (fields_of (λ b. b.now) rows.now) }
    ensures { Appends out.old out.new result
        (fields_text 32 false (fields_of (λ b. b.now) rows.now) bytes.now) }
{
    push_fields(b' ', false, rows, bytes, out)
}

/// Returns whether bytes are a record: they have the size of its fields.
pub fn is_record(rows: &[Field], bytes: &[u8]) -> bool
    ensures { result ≡ is_record (fields_of (λ b. b.now) rows.now) bytes.now }
{
    matches!(after_fields(rows, bytes), Some([]))
}

/// Returns the sum of the fields' sizes in bytes, or `usize::MAX` if it is larger than that.
pub fn record_size(rows: &[Field]) -> usize
    ensures { result ≡ min 18446744073709551615 (total_size (fields_of (λ b. b.now) rows.now)) }
{
    let mut size = 0usize;
    for row in rows {
        size = size.saturating_add(usize::from(row.1));
    }
    size
}

/// Appends the fields of a record, without those that are zero if the record is sparse. Only zeros
/// may follow the fields; any other bytes are shown in hex.
#[tactic(auto, unfolding(crate::specs::Records::record_text))]
pub(crate) fn push_record(
    is_sparse: bool,
    rows: &[Field],
    bytes: &[u8],
    out: &mut Vec<u8>,
) -> Result<(), AllocError>
    ensures { Appends out.old out.new result
        (record_text is_sparse (fields_of (λ b. b.now) rows.now) bytes.now) }
{
    match after_fields(rows, bytes) {
        Some(rest) if is_zero(rest) => {
            push_fields(
                b'=',
                is_sparse,
                rows,
                &bytes[..bytes.len() - rest.len()],
                out,
            )
        }
        _ => push_bytes(bytes, out),
    }
}

/// Returns whether bytes are counters: a multiple of the size of the first field.
pub fn is_counters(rows: &[Field], bytes: &[u8]) -> bool
    ensures { result ≡ is_counters (fields_of (λ b. b.now) rows.now) bytes.now }
{
    match rows {
        [first, ..] => {
            let size = usize::from(first.1);
            size != 0 && bytes.len() % size == 0
        }
        [] => false,
    }
}

// Returns the title of the field at an index.
fn find_title(rows: &[Field], index: usize) -> &'static [u8]
    requires { index < length rows.now }
    ensures { result.now ≡ counter_name (fields_of (λ b. b.now) rows.now) index }
{
    rows[index].0
}

// Appends the name of a counter: the title of its field, or its index if there is none.
fn push_counter_name(rows: &[Field], index: usize, out: &mut Vec<u8>) -> Result<(), AllocError>
    ensures { Appends out.old out.new result (counter_name (fields_of (λ b. b.now) rows.now) index) }
{
    if index < rows.len() {
        return out.extend_from_slice(find_title(rows, index));
    }
    push_decimal(index as u64, out)
}

// Appends a space, a counter's name, `=` and its value, if it isn't zero.
fn push_counter(
    rows: &[Field],
    index: usize,
    shown: &FieldShown,
    part: &[u8],
    out: &mut Vec<u8>,
) -> Result<(), AllocError>
    ensures { Appends out.old out.new result
        (cond (is_zero part.now) [] (32 ∷ (counter_name (fields_of (λ b. b.now) rows.now) index
        ++ 61 ∷ field_value (shown_of shown.now) part.now))) }
{
    if is_zero_field(part) {
        return Ok(());
    }
    out.push(b' ')?;
    push_counter_name(rows, index, out)?;
    out.push(b'=')?;
    push_field_value(shown, part, out)
}

// Appends the counters of a size that aren't zero.
fn push_slots(
    size: usize,
    shown: &FieldShown,
    rows: &[Field],
    bytes: &[u8],
    out: &mut Vec<u8>,
) -> Result<(), AllocError>
    requires { 0 < size }
    ensures { Appends out.old out.new result
        (slots_text size (shown_of shown.now) (fields_of (λ b. b.now) rows.now) 0
        (length bytes.now / size) bytes.now) }
{
    let mut index = 0;
    let mut rest = bytes;
    while rest.len() >= size {
        let (part, after) = rest.split_at(size);
        push_counter(rows, index, shown, part, out)?;
        index += 1;
        rest = after;
    }
    Ok(())
}

/// Appends counters as in ` fields 25 rx_packets=3`: how many there are, and those that aren't
/// zero, all shown as the first field. A counter after the last field has its index as its name.
///
/// # Errors
///
/// `AllocError` if `out` lacked capacity for the text and can't grow; what it held stays, and a
/// part of the text may follow.
pub fn push_counters(rows: &[Field], bytes: &[u8], out: &mut Vec<u8>) -> Result<(), AllocError>
    requires { is_counters (fields_of (λ b. b.now) rows.now) bytes.now ≡ true }
    ensures { Appends out.old out.new result (counters_text (fields_of (λ b. b.now) rows.now) bytes.now) }
{
    match rows {
        [first, ..] => {
            let size = usize::from(first.1);
            out.extend_from_slice(b" fields ")?;
            push_decimal((bytes.len() / size) as u64, out)?;
            push_slots(size, &first.2, rows, bytes, out)
        }
        [] => Ok(()),
    }
}

/// Appends the counters that aren't zero, all shown as the first field, without how many there are.
///
/// # Errors
///
/// `AllocError` if `out` lacked capacity for the text and can't grow; what it held stays, and a
/// part of the text may follow.
pub fn push_nonzero_counters(
    rows: &[Field],
    bytes: &[u8],
    out: &mut Vec<u8>,
) -> Result<(), AllocError>
    requires { is_counters (fields_of (λ b. b.now) rows.now) bytes.now ≡ true }
    ensures { Appends out.old out.new result (nonzero_text (fields_of (λ b. b.now) rows.now) bytes.now) }
{
    match rows {
        [first, ..] => push_slots(usize::from(first.1), &first.2, rows, bytes, out),
        [] => Ok(()),
    }
}
