//! Numbers with their names.

ghost use Rattle.std.specs.Prelude.{◌≡◌, ◌++◌, OnOk};
ghost use Rattle.link_lines_values.specs.Appends.{Appends};
ghost use Rattle.link_lines_values.specs.Names.{bracketed, named_number, named_signed, text_in, texts_of};

use crate::digits::{push_decimal, push_signed};
use crate::number_tables::NumberText;
use std::alloc::AllocError;

/// Returns the name of a number; empty if it has none.
pub fn find_text(rows: &[NumberText], number: u64) -> &'static [u8]
    ensures { result.now ≡ text_in (texts_of (λ b. b.now) rows.now) number }
{
    for row in rows {
        if u64::from(row.0) == number {
            return row.1;
        }
    }
    &[]
}

// Appends a name in brackets; nothing if the name is empty.
fn push_bracketed(name: &[u8], out: &mut Vec<u8>) -> Result<(), AllocError>
    ensures { Appends out.old out.new result (bracketed name.now) }
{
    if name.is_empty() {
        return Ok(());
    }
    out.extend_from_slice(b" (")?;
    out.extend_from_slice(name)?;
    out.push(b')')?;
    Ok(())
}

/// Appends the name of a number, or nothing if it has none.
///
/// # Errors
///
/// `AllocError` if `out` lacked capacity for the text and can't grow; what it held stays.
pub fn push_name(texts: &[NumberText], number: u64, out: &mut Vec<u8>) -> Result<(), AllocError>
    ensures { Appends out.old out.new result (text_in (texts_of (λ b. b.now) texts.now) number) }
{
    out.extend_from_slice(find_text(texts, number))
}

/// Appends the name of a number in brackets with a space before them, or nothing if it has none.
pub(crate) fn push_bracketed_name(
    texts: &[NumberText],
    number: u64,
    out: &mut Vec<u8>,
) -> Result<(), AllocError>
    ensures { Appends out.old out.new result (bracketed (text_in (texts_of (λ b. b.now) texts.now) number)) }
{
    push_bracketed(find_text(texts, number), out)
}

/// Appends a number in decimal, followed by its name in brackets if it has one.
///
/// # Errors
///
/// `AllocError` if `out` lacked capacity for the text and can't grow; what it held stays, and a
/// part of the text may follow.
pub fn push_number(texts: &[NumberText], number: u64, out: &mut Vec<u8>) -> Result<(), AllocError>
    ensures { Appends out.old out.new result (named_number (texts_of (λ b. b.now) texts.now) number) }
{
    push_decimal(number, out)?;
    if texts.is_empty() {
        return Ok(());
    }
    push_bracketed(find_text(texts, number), out)
}

/// Appends a number of 1, 2, 4 or 8 bytes as a signed one, followed by its name in brackets if it
/// has one. The names are those of the numbers without a sign.
pub(crate) fn push_signed_number(
    texts: &[NumberText],
    size: usize,
    number: u64,
    out: &mut Vec<u8>,
) -> Result<(), AllocError>
    ensures { Appends out.old out.new result
        (named_signed (texts_of (λ b. b.now) texts.now) size number) }
{
    push_signed(size, number, out)?;
    push_bracketed(find_text(texts, number), out)
}
