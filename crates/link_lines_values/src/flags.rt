//! Sets of flags with the names of their bits.

ghost use Rattle.std.specs.Prelude.{◌≡◌, ◌++◌, not, IfOk, OnOk};
ghost use Rattle.link_lines_values.specs.Appends.{Appends};
ghost use Rattle.link_lines_values.specs.Names.{texts_of};
ghost use Rattle.link_lines_values.specs.Flags.{has_none, listed, opened, named_flags, nameless, nameless_text, names_set};
ghost use Rattle.link_lines_values.specs.Digits.{big_endian};
ghost use Rattle.link_lines_values.specs.Flags.{big_endian_flags, flags_text, word_flags};
ghost use Rattle.attribute_tables_grammar.specs.Shapes.{number};

use crate::digits::push_hex;
use std::alloc::AllocError;

/// A bit and its name.
pub type FlagName = (u32, &'static [u8]);

// Returns the bits without a name.
#[tactic(auto, using(std::proofs::lemmas::Nat::and_le_l))]
fn nameless(rows: &[FlagName], number: u64) -> u64
    ensures { result ≡ nameless (texts_of (λ b. b.now) rows.now) number }
{
    let mut rest = number;
    for row in rows {
        rest -= rest & u64::from(row.0);
    }
    rest
}

// Appends the names of the bits that are set, with ` (` before the first and ` | ` before each
// other. Returns whether there is any.
fn push_names(rows: &[FlagName], number: u64, out: &mut Vec<u8>) -> Result<bool, AllocError>
    ensures appends { Appends out.old out.new result
        (opened (names_set (texts_of (λ b. b.now) rows.now) number)) }
    ensures any { IfOk result (λ is_any. is_any ≡ not (has_none (names_set (texts_of (λ b. b.now) rows.now) number))) }
{
    let mut is_any = false;
    for row in rows {
        if number & u64::from(row.0) != 0 {
            out.extend_from_slice(if is_any { b" | " } else { b" (" })?;
            out.extend_from_slice(row.1)?;
            is_any = true;
        }
    }
    Ok(is_any)
}

// Appends the bits without a name in hex, if there are any.
fn push_nameless(rest: u64, out: &mut Vec<u8>) -> Result<(), AllocError>
    ensures { Appends out.old out.new result (nameless_text rest) }
{
    if rest == 0 {
        return Ok(());
    }
    out.extend_from_slice(b" | ")?;
    push_hex(rest, out)
}

// Appends in brackets the names of the bits that are set and, last, the bits without a name;
// nothing if no bit has a name.
fn push_listed(names: &[FlagName], number: u64, out: &mut Vec<u8>) -> Result<(), AllocError>
    ensures { Appends out.old out.new result
        (listed (names_set (texts_of (λ b. b.now) names.now) number) (nameless (texts_of
        (λ b. b.now) names.now) number)) }
{
    if push_names(names, number, out)? {
        push_nameless(nameless(names, number), out)?;
        out.push(b')')?;
    }
    Ok(())
}

/// Appends flags in hex, followed in brackets by the names of their bits and, last, the bits
/// without a name; no brackets if no bit has a name.
///
/// # Errors
///
/// `AllocError` if `out` lacked capacity for the text and can't grow; what it held stays, and a
/// part of the text may follow.
pub fn push_flags(names: &[FlagName], number: u64, out: &mut Vec<u8>) -> Result<(), AllocError>
    ensures { Appends out.old out.new result (named_flags (texts_of (λ b. b.now) names.now) number) }
{
    push_hex(number, out)?;
    push_listed(names, number, out)
}

/// Appends flags of 4 bytes as `push_flags` does, or as `0xffffffff (all)` if all bits are set.
///
/// # Errors
///
/// `AllocError` if `out` lacked capacity for the text and can't grow; what it held stays, and a
/// part of the text may follow.
pub fn push_word_flags(names: &[FlagName], number: u32, out: &mut Vec<u8>) -> Result<(), AllocError>
    ensures { Appends out.old out.new result (word_flags (texts_of (λ b. b.now) names.now) number) }
{
    push_hex(u64::from(number), out)?;
    if number == u32::MAX {
        return out.extend_from_slice(b" (all)");
    }
    push_listed(names, u64::from(number), out)
}

/// Appends the little-endian flags of some bytes, given as a number too: with the names of their
/// bits, or as `0xffffffff (all)` if there are 4 bytes and all their bits are set.
#[tactic(auto, using(crate::proofs::Readings::low_first))]
pub(crate) fn push_flags_of(
    names: &[FlagName],
    flags: u64,
    bytes: &[u8],
    out: &mut Vec<u8>,
) -> Result<(), AllocError>
    requires { flags ≡ number bytes.now }
    ensures { Appends out.old out.new result (flags_text (texts_of (λ b. b.now) names.now) bytes.now) }
{
    match bytes {
        [a, b, c, d] => push_word_flags(names, u32::from_le_bytes([*a, *b, *c, *d]), out),
        _ => push_flags(names, flags, out),
    }
}

/// Appends the big-endian flags of some bytes, given as a number too: in hex, or as
/// `0xffffffff (all)` if there are 4 bytes and all their bits are set.
pub(crate) fn push_big_endian_flags_of(
    flags: u64,
    bytes: &[u8],
    out: &mut Vec<u8>,
) -> Result<(), AllocError>
    requires { flags ≡ big_endian bytes.now }
    ensures { Appends out.old out.new result (big_endian_flags bytes.now) }
{
    push_hex(flags, out)?;
    if bytes.len() == 4 && flags == u64::from(u32::MAX) {
        out.extend_from_slice(b" (all)")?;
    }
    Ok(())
}
