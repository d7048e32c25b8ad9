//! Bytes as text: in hex, with colons between them, in quotes.

ghost use Rattle.std.specs.Prelude.{◌≡◌, ◌++◌, ◌∷◌, [], flat_map, OnOk};
ghost use Rattle.link_lines_values.specs.Appends.{Appends};
ghost use Rattle.link_lines_values.specs.Bytes.{hex_text, bytes_text, colon_byte, colons, hardware_text, is_zero};
ghost use Rattle.link_lines_values.specs.Bytes.{count_without_zeros, padded_address, padded_text, escaped, quoted, boolean_text};

use crate::digits::hex_byte;
use netlink_packet_core_numbers::without_nul;
use std::alloc::AllocError;

/// Appends bytes in hex, without separators.
// Out of line, as few fields need it: inlined, it would slow `push_field_value`.
#[inline(never)]
pub(crate) fn push_hex_text(bytes: &[u8], out: &mut Vec<u8>) -> Result<(), AllocError>
    ensures { Appends out.old out.new result (hex_text bytes.now) }
{
    for byte in bytes {
        out.extend_from_slice(&hex_byte(*byte))?;
    }
    Ok(())
}

/// Appends a space and bytes in hex, without separators; nothing if there are no bytes.
///
/// # Errors
///
/// `AllocError` if `out` lacked capacity for the text and can't grow; what it held stays, and a
/// part of the text may follow.
pub fn push_bytes(bytes: &[u8], out: &mut Vec<u8>) -> Result<(), AllocError>
    ensures { Appends out.old out.new result (bytes_text bytes.now) }
{
    if bytes.is_empty() {
        return Ok(());
    }
    out.push(b' ')?;
    push_hex_text(bytes, out)
}

// Appends each byte in hex with a colon before it.
fn push_colon_bytes(bytes: &[u8], out: &mut Vec<u8>) -> Result<(), AllocError>
    ensures { Appends out.old out.new result (flat_map colon_byte bytes.now) }
{
    for byte in bytes {
        let [high, low] = hex_byte(*byte);
        out.extend_from_slice(&[b':', high, low])?;
    }
    Ok(())
}

/// Appends bytes in hex with colons between them.
pub(crate) fn push_colons(bytes: &[u8], out: &mut Vec<u8>) -> Result<(), AllocError>
    ensures { Appends out.old out.new result (colons bytes.now) }
{
    if let [first, rest @ ..] = bytes {
        out.extend_from_slice(&hex_byte(*first))?;
        push_colon_bytes(rest, out)?;
    }
    Ok(())
}

/// Appends a space and bytes in hex with colons between them; nothing if there are no bytes.
pub(crate) fn push_hardware_address(bytes: &[u8], out: &mut Vec<u8>) -> Result<(), AllocError>
    ensures { Appends out.old out.new result (hardware_text bytes.now) }
{
    if bytes.is_empty() {
        return Ok(());
    }
    out.push(b' ')?;
    push_colons(bytes, out)
}

/// Returns whether all bytes are zero.
pub fn is_zero(bytes: &[u8]) -> bool
    ensures { result ≡ is_zero bytes.now }
{
    for byte in bytes {
        if *byte != 0 {
            return false;
        }
    }
    true
}

// Returns the number of bytes without the zeros at the end.
fn count_without_zeros(bytes: &[u8]) -> usize
    ensures { result ≡ count_without_zeros bytes.now }
{
    let mut count = 0;
    for (i, byte) in bytes.iter().enumerate() {
        if *byte != 0 {
            count = i + 1;
        }
    }
    count
}

/// Appends an address in a longer field: with colons, without the zeros at the end from the 7th
/// byte on.
// Out of line, as few fields need it: inlined, it would slow `push_field_value`.
#[inline(never)]
pub(crate) fn push_padded_address(bytes: &[u8], out: &mut Vec<u8>) -> Result<(), AllocError>
    ensures { Appends out.old out.new result (padded_address bytes.now) }
{
    let count = count_without_zeros(bytes).max(6).min(bytes.len());
    push_colons(&bytes[..count], out)
}

// Appends a byte of a text in quotes.
fn push_escaped(byte: u8, out: &mut Vec<u8>) -> Result<(), AllocError>
    ensures { Appends out.old out.new result (escaped byte) }
{
    if byte == b'"' || byte == b'\\' {
        return out.extend_from_slice(&[b'\\', byte]);
    }
    if byte >= 32 && byte < 127 {
        out.push(byte)?;
        return Ok(());
    }
    let [high, low] = hex_byte(byte);
    out.extend_from_slice(&[b'\\', b'x', high, low])
}

// Appends the bytes of a text in quotes, without the quotes.
fn push_escaped_text(bytes: &[u8], out: &mut Vec<u8>) -> Result<(), AllocError>
    ensures { Appends out.old out.new result (flat_map escaped bytes.now) }
{
    for byte in bytes {
        push_escaped(*byte, out)?;
    }
    Ok(())
}

/// Appends a space and a text in quotes, without its last NUL.
pub(crate) fn push_text(bytes: &[u8], out: &mut Vec<u8>) -> Result<(), AllocError>
    ensures { Appends out.old out.new result (32 ∷ quoted bytes.now) }
{
    out.extend_from_slice(b" \"")?;
    push_escaped_text(without_nul(bytes), out)?;
    out.extend_from_slice(b"\"")
}

/// Appends a text in quotes, without the NULs at its end.
// Out of line, as few fields need it: inlined, it would slow `push_field_value`.
#[inline(never)]
pub(crate) fn push_padded_text(bytes: &[u8], out: &mut Vec<u8>) -> Result<(), AllocError>
    ensures { Appends out.old out.new result (padded_text bytes.now) }
{
    let count = count_without_zeros(bytes).min(bytes.len());
    out.extend_from_slice(b"\"")?;
    push_escaped_text(&bytes[..count], out)?;
    out.extend_from_slice(b"\"")
}

/// Appends `on` if a byte isn't zero, or else `off`.
pub(crate) fn push_boolean(bytes: &[u8], out: &mut Vec<u8>) -> Result<(), AllocError>
    ensures { Appends out.old out.new result (boolean_text bytes.now) }
{
    if is_zero(bytes) {
        out.extend_from_slice(b"off")
    } else {
        out.extend_from_slice(b"on")
    }
}
