//! Numbers as digits, and bytes as numbers.

ghost use Rattle.std.specs.Prelude.{◌≡◌, ◌≤◌, ◌<◌, ◌==◌, ◌++◌, false, Some, None, cond, length, drop, OnOk};
ghost use Rattle.std.specs.Fmt.{decimal, digits, digit_glyph};
ghost use Rattle.link_lines_values.specs.Appends.{Appends};
ghost use Rattle.attribute_tables_grammar.specs.Shapes.{number};
ghost use Rattle.link_lines_values.specs.Digits.{big_endian, is_number, hex_byte, hex_number, four_digits};
ghost use Rattle.link_lines_values.specs.Digits.{half_of, is_signed_size, signed_by};

use itoa::Buffer;
use std::alloc::AllocError;

/// Returns the little-endian number of 1, 2, 3, 4 or 8 bytes; None for any other size. Most numbers
/// have 4 or 8 bytes; a match would compare the sizes from the lowest on.
#[tactic(auto, using(crate::proofs::Readings::low_first))]
pub(crate) fn little_endian(bytes: &[u8]) -> Option<u64>
    ensures { result ≡ cond (is_number bytes.now) (Some (number bytes.now)) None }
{
    if let [a, b, c, d] = bytes {
        return Some(u64::from(u32::from_le_bytes([*a, *b, *c, *d])));
    }
    if let [a, b, c, d, e, f, g, h] = bytes {
        return Some(u64::from_le_bytes([*a, *b, *c, *d, *e, *f, *g, *h]));
    }
    match bytes {
        [a] => Some(u64::from(*a)),
        [a, b] => Some(u64::from(u16::from_le_bytes([*a, *b]))),
        [a, b, c] => Some(u64::from(u32::from_le_bytes([*a, *b, *c, 0]))),
        _ => None,
    }
}

/// Returns the big-endian number of 1, 2, 3, 4 or 8 bytes; None for any other size.
#[tactic(auto, using(crate::proofs::Readings::high_first))]
pub(crate) fn big_endian(bytes: &[u8]) -> Option<u64>
    ensures { result ≡ cond (is_number bytes.now) (Some (big_endian bytes.now)) None }
{
    match bytes {
        [a] => Some(u64::from(*a)),
        [a, b] => Some(u64::from(u16::from_be_bytes([*a, *b]))),
        [a, b, c] => Some(u64::from(u32::from_be_bytes([0, *a, *b, *c]))),
        [a, b, c, d] => Some(u64::from(u32::from_be_bytes([*a, *b, *c, *d]))),
        [a, b, c, d, e, f, g, h] => Some(u64::from_be_bytes([*a, *b, *c, *d, *e, *f, *g, *h])),
        _ => None,
    }
}

// Appends a number in decimal. It is out of line, so that `push_decimal` can be inlined.
#[inline(never)]
fn push_formatted(number: u64, out: &mut Vec<u8>) -> Result<(), AllocError>
    ensures { Appends out.old out.new result (decimal number) }
{
    let mut buffer = Buffer::new();
    out.extend_from_slice(buffer.format(number).as_bytes())
}

/// Appends a number in decimal. A number of one digit, as most are, is written without formatting.
///
/// # Errors
///
/// `AllocError` if `out` lacked capacity for the text and can't grow; what it held stays.
pub fn push_decimal(number: u64, out: &mut Vec<u8>) -> Result<(), AllocError>
    ensures { Appends out.old out.new result (decimal number) }
{
    if number < 10 {
        out.push(b'0' + number as u8)?;
        return Ok(());
    }
    push_formatted(number, out)
}

/// Appends a number with its sign: from `half` on it is the number minus twice that.
fn push_signed_by(half: u64, number: u64, out: &mut Vec<u8>) -> Result<(), AllocError>
    ensures { Appends out.old out.new result (signed_by half number) }
{
    if number < half {
        return push_decimal(number, out);
    }
    out.push(b'-')?;
    push_decimal(half.saturating_sub(number - half), out)
}

/// Returns half of the numbers of 1, 2 or 8 bytes, or of 4 for any other size.
fn half_of(size: usize) -> u64
    ensures { result ≡ half_of size }
{
    match size {
        1 => 0x80,
        2 => 0x8000,
        8 => 0x8000_0000_0000_0000,
        _ => 0x8000_0000,
    }
}

/// Returns whether signed numbers have this size.
pub(crate) fn is_signed_size(size: usize) -> bool
    ensures { result ≡ is_signed_size size }
{
    size == 1 || size == 2 || size == 4 || size == 8
}

/// Appends a number of 1, 2, 4 or 8 bytes as a signed one, in decimal.
pub(crate) fn push_signed(size: usize, number: u64, out: &mut Vec<u8>) -> Result<(), AllocError>
    ensures { Appends out.old out.new result (signed_by (half_of size) number) }
{
    push_signed_by(half_of(size), number, out)
}

/// Returns a hex digit in lower case.
pub(crate) fn glyph(digit: u8) -> u8
    requires { digit < 16 }
    ensures { result ≡ digit_glyph false digit }
{
    if digit < 10 {
        b'0' + digit
    } else {
        b'a' + (digit - 10)
    }
}

/// Returns a byte as two hex digits.
pub fn hex_byte(byte: u8) -> [u8; 2]
    ensures { result ≡ hex_byte byte }
{
    [glyph(byte / 16), glyph(byte % 16)]
}

// Writes a number in hex so that it ends where the buffer ends, and returns where it starts.
fn write_hex(number: u64, out: &mut [u8; 64]) -> usize
    ensures bound { result ≤ 64 }
    ensures value { drop result out.new ≡ digits 16 false number }
{
    let mut start = 64;
    let mut rest = number;
    while start > 0 {
        start -= 1;
        out[start] = glyph((rest % 16) as u8);
        rest /= 16;
        if rest == 0 {
            break;
        }
    }
    start
}

/// Appends a number as `{:#x}` writes it.
pub(crate) fn push_hex(number: u64, out: &mut Vec<u8>) -> Result<(), AllocError>
    ensures { Appends out.old out.new result (hex_number number) }
{
    let mut digits = [0u8; 64];
    let start = write_hex(number, &mut digits);
    out.extend_from_slice(b"0x")?;
    out.extend_from_slice(&digits[start..])
}

/// Appends a number in hex, without leading zeros.
pub(crate) fn push_hex_digits(number: u64, out: &mut Vec<u8>) -> Result<(), AllocError>
    ensures { Appends out.old out.new result (digits 16 false number) }
{
    let mut digits = [0u8; 64];
    let start = write_hex(number, &mut digits);
    out.extend_from_slice(&digits[start..])
}

/// Appends a number of 2 bytes as `0x` and four hex digits.
///
/// # Errors
///
/// `AllocError` if `out` lacked capacity for the text and can't grow; what it held stays.
pub fn push_four_digits(number: u16, out: &mut Vec<u8>) -> Result<(), AllocError>
    ensures { Appends out.old out.new result (four_digits number) }
{
    let high = (number / 256) as u8;
    let low = (number % 256) as u8;
    out.extend_from_slice(b"0x")?;
    out.extend_from_slice(&hex_byte(high))?;
    out.extend_from_slice(&hex_byte(low))
}
