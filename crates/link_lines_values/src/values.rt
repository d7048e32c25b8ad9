//! Payloads of attributes as text.

ghost use Rattle.std.specs.Prelude.{◌≡◌, ◌++◌, ◌∷◌, codes, OnOk};
ghost use Rattle.link_lines_values.specs.Appends.{Appends};
ghost use Rattle.link_lines_values.specs.Bytes.{boolean_text};
ghost use Rattle.link_lines_values.specs.Flags.{word_flags};
ghost use Rattle.link_lines_values.specs.Values.{big_endian_flags_value, big_endian_value, flags_and_mask_value};
ghost use Rattle.link_lines_values.specs.Values.{named_flags_value, number_value, optional_byte_value};
ghost use Rattle.link_lines_values.specs.Names.{texts_of};
ghost use Rattle.link_lines_values.specs.Values.{port_range_value, format_of, signed_value, value_text};

use crate::addresses::push_address;
use crate::bytes::{push_boolean, push_bytes, push_hardware_address, push_text};
use crate::digits::{big_endian, is_signed_size, little_endian, push_decimal};
use crate::fields::Layout;
use crate::flags::{FlagName, push_big_endian_flags_of, push_flags_of, push_word_flags};
use crate::number_tables::{NumberText, Numbers};
use crate::numbers::{push_number, push_signed_number};
use crate::records::push_record;
use std::alloc::AllocError;

/// How a payload is shown, with names of numbers of type `N`, also for bits, and with records of
/// type `R`. A payload of a size that the format doesn't know is shown as its bytes.
#[derive(Clone, Copy)]
pub enum ShownBy<N, R> {
    /// A little-endian number of 1, 2, 3, 4 or 8 bytes, with its name.
    Number(N),
    /// A big-endian number of 1, 2, 3, 4 or 8 bytes, with its name.
    BigEndian(N),
    /// A signed little-endian number of 1, 2, 4 or 8 bytes, with its name.
    Signed(N),
    /// Little-endian flags of 1, 2, 3, 4 or 8 bytes, without names.
    Flags,
    /// Little-endian flags of 1, 2, 3, 4 or 8 bytes, with the names of their bits.
    NamedFlags(N),
    /// Big-endian flags of 1, 2, 3, 4 or 8 bytes, without names.
    BigEndianFlags,
    /// A boolean: `on` if a byte isn't zero, or else `off`.
    Boolean,
    /// Nothing: the attribute only has to be present.
    Presence,
    /// A byte in decimal, or nothing.
    OptionalByte,
    /// A text in quotes, without its last NUL.
    Text,
    /// Bytes in hex.
    Bytes,
    /// Bytes in hex with colons between them.
    HardwareAddress,
    /// An address of 4 bytes (IPv4) or 16 (IPv6), in network byte order.
    Address,
    /// Two big-endian numbers of 2 bytes (if_link.h: struct ifla_vxlan_port_range).
    PortRange,
    /// Little-endian flags and a mask of 4 bytes each (if_link.h: struct ifla_rmnet_flags), with
    /// the names of their bits.
    FlagsAndMask(N),
    /// The fields of a record.
    Record(R),
    /// The fields of a record that aren't zero.
    SparseRecord(R),
}

/// How a payload is shown: numbers with their names, flags with the names of their bits, records
/// with their fields.
pub type Shown = ShownBy<Numbers, Layout>;

/// Appends a space and a little-endian number with its name, or bytes if no number has their size.
fn push_number_value(
    texts: &[NumberText],
    payload: &[u8],
    out: &mut Vec<u8>,
) -> Result<(), AllocError>
    ensures { Appends out.old out.new result (number_value (texts_of (λ b. b.now) texts.now) payload.now) }
{
    let Some(number) = little_endian(payload) else {
        return push_bytes(payload, out);
    };
    out.push(b' ')?;
    push_number(texts, number, out)
}

/// Appends a space and a big-endian number with its name, or bytes if no number has their size.
fn push_big_endian_value(
    texts: &[NumberText],
    payload: &[u8],
    out: &mut Vec<u8>,
) -> Result<(), AllocError>
    ensures { Appends out.old out.new result
        (big_endian_value (texts_of (λ b. b.now) texts.now) payload.now) }
{
    let Some(number) = big_endian(payload) else {
        return push_bytes(payload, out);
    };
    out.push(b' ')?;
    push_number(texts, number, out)
}

/// Appends a space and a signed number with its name, or bytes if no signed number has their size.
fn push_signed_value(
    texts: &[NumberText],
    payload: &[u8],
    out: &mut Vec<u8>,
) -> Result<(), AllocError>
    ensures { Appends out.old out.new result (signed_value (texts_of (λ b. b.now) texts.now) payload.now) }
{
    match little_endian(payload) {
        Some(number) if is_signed_size(payload.len()) => {
            out.push(b' ')?;
            push_signed_number(texts, payload.len(), number, out)
        }
        _ => push_bytes(payload, out),
    }
}

/// Appends a space and big-endian flags without names, or bytes if no number has their size.
fn push_big_endian_flags(payload: &[u8], out: &mut Vec<u8>) -> Result<(), AllocError>
    ensures { Appends out.old out.new result (big_endian_flags_value payload.now) }
{
    match big_endian(payload) {
        Some(flags) => {
            out.push(b' ')?;
            push_big_endian_flags_of(flags, payload, out)
        }
        None => push_bytes(payload, out),
    }
}

/// Appends a space and flags with the names of their bits, or bytes if no number has their size.
fn push_named_flags(names: &[FlagName], payload: &[u8], out: &mut Vec<u8>) -> Result<(), AllocError>
    ensures { Appends out.old out.new result
        (named_flags_value (texts_of (λ b. b.now) names.now) payload.now) }
{
    let Some(flags) = little_endian(payload) else {
        return push_bytes(payload, out);
    };
    out.push(b' ')?;
    push_flags_of(names, flags, payload, out)
}

/// Appends a space and a byte in decimal; nothing for no byte; more as bytes.
fn push_optional_byte(payload: &[u8], out: &mut Vec<u8>) -> Result<(), AllocError>
    ensures { Appends out.old out.new result (optional_byte_value payload.now) }
{
    match payload {
        [byte] => {
            out.push(b' ')?;
            push_decimal(u64::from(*byte), out)
        }
        _ => push_bytes(payload, out),
    }
}

/// Appends a space and two port numbers, or bytes if they are not 4.
fn push_port_range(payload: &[u8], out: &mut Vec<u8>) -> Result<(), AllocError>
    ensures { Appends out.old out.new result (port_range_value payload.now) }
{
    match payload {
        [a, b, c, d] => {
            out.push(b' ')?;
            push_decimal(u64::from(u16::from_be_bytes([*a, *b])), out)?;
            out.push(b' ')?;
            push_decimal(u64::from(u16::from_be_bytes([*c, *d])), out)
        }
        _ => push_bytes(payload, out),
    }
}

// Appends a space, flags, ` mask ` and a mask.
fn push_mask(names: &[FlagName], flags: u32, mask: u32, out: &mut Vec<u8>) -> Result<(), AllocError>
    ensures { Appends out.old out.new result
        (32 ∷ (word_flags (texts_of (λ b. b.now) names.now) flags ++ (codes " mask "
        ++ word_flags (texts_of (λ b. b.now) names.now) mask))) }
{
    out.push(b' ')?;
    push_word_flags(names, flags, out)?;
    out.extend_from_slice(b" mask ")?;
    push_word_flags(names, mask, out)
}

/// Appends a space, flags and their mask with the names of their bits, or bytes if they are not 8.
fn push_flags_and_mask(
    names: &[FlagName],
    payload: &[u8],
    out: &mut Vec<u8>,
) -> Result<(), AllocError>
    ensures { Appends out.old out.new result
        (flags_and_mask_value (texts_of (λ b. b.now) names.now) payload.now) }
{
    match payload {
        [a, b, c, d, e, f, g, h] => push_mask(
            names,
            u32::from_le_bytes([*a, *b, *c, *d]),
            u32::from_le_bytes([*e, *f, *g, *h]),
            out,
        ),
        _ => push_bytes(payload, out),
    }
}

/// Appends a space and `on` or `off`.
fn push_boolean_value(payload: &[u8], out: &mut Vec<u8>) -> Result<(), AllocError>
    ensures { Appends out.old out.new result (32 ∷ boolean_text payload.now) }
{
    out.push(b' ')?;
    push_boolean(payload, out)
}

/// Appends a payload as text, with a space before it if there is anything to show.
///
/// # Errors
///
/// `AllocError` if `out` lacked capacity for the text and can't grow; what it held stays, and a
/// part of the text may follow.
pub fn push_value(shown: Shown, payload: &[u8], out: &mut Vec<u8>) -> Result<(), AllocError>
    ensures { Appends out.old out.new result (value_text (format_of shown) payload.now) }
{
    match shown {
        ShownBy::Number(table) => push_number_value(table.texts(), payload, out),
        ShownBy::BigEndian(table) => push_big_endian_value(table.texts(), payload, out),
        ShownBy::Signed(table) => push_signed_value(table.texts(), payload, out),
        ShownBy::Flags => push_named_flags(&[], payload, out),
        ShownBy::NamedFlags(table) => push_named_flags(table.texts(), payload, out),
        ShownBy::BigEndianFlags => push_big_endian_flags(payload, out),
        ShownBy::Boolean => push_boolean_value(payload, out),
        ShownBy::Presence => Ok(()),
        ShownBy::OptionalByte => push_optional_byte(payload, out),
        ShownBy::Text => push_text(payload, out),
        ShownBy::Bytes => push_bytes(payload, out),
        ShownBy::HardwareAddress => push_hardware_address(payload, out),
        ShownBy::Address => push_address(payload, out),
        ShownBy::PortRange => push_port_range(payload, out),
        ShownBy::FlagsAndMask(table) => push_flags_and_mask(table.texts(), payload, out),
        ShownBy::Record(layout) => push_record(false, layout.fields(), payload, out),
        ShownBy::SparseRecord(layout) => push_record(true, layout.fields(), payload, out),
    }
}
