//! The kinds of attributes in lists as words.

ghost use Rattle.std.specs.Prelude.{◌≡◌, ◌%◌, ◌++◌, OnOk};
ghost use Rattle.link_lines_values.specs.Appends.{Appends};
ghost use Rattle.link_lines_parts.specs.KindNames.{has_byte_order_bit, has_nested_bit, index_name};
ghost use Rattle.link_lines_parts.specs.KindNames.{name_or_index, nested_word};

use link_interpreter::KIND_BOUND;
use link_lines_values::push_decimal;
use std::alloc::AllocError;

/// The flag bit of a kind that holds attributes (netlink.h: NLA_F_NESTED).
const NESTED_BIT: u16 = 0x8000;

/// The flag bit of a kind that holds a big-endian number (netlink.h: NLA_F_NET_BYTEORDER).
const BYTE_ORDER_BIT: u16 = 0x4000;

/// Returns whether a kind has the flag bit NLA_F_NESTED.
pub fn has_nested_bit(kind: u16) -> bool
    ensures { result ≡ has_nested_bit kind }
{
    kind / NESTED_BIT % 2 == 1
}

/// Returns whether a kind has the flag bit NLA_F_NET_BYTEORDER.
pub fn has_byte_order_bit(kind: u16) -> bool
    ensures { result ≡ has_byte_order_bit kind }
{
    kind / BYTE_ORDER_BIT % 2 == 1
}

/// Appends the name of a kind, or its index in brackets, and the word ` nested` if the kind has the
/// nested bit.
///
/// # Errors
///
/// `AllocError` if `out` lacked capacity for the text and can't grow; what it held stays, and a
/// part of the text may follow.
pub fn push_kind_name(name: Option<&[u8]>, kind: u16, out: &mut Vec<u8>) -> Result<(), AllocError>
    ensures { Appends out.old out.new result
        (name_or_index (λ b. b.now) (kind % 0x4000) name.entry ++ nested_word kind) }
{
    match name {
        Some(name) => out.extend_from_slice(name)?,
        None => push_index_name(kind % KIND_BOUND, out)?,
    }
    if has_nested_bit(kind) {
        out.extend_from_slice(b" nested")?;
    }
    Ok(())
}

/// Appends an index in brackets.
fn push_index_name(index: u16, out: &mut Vec<u8>) -> Result<(), AllocError>
    ensures { Appends out.old out.new result (index_name index) }
{
    out.extend_from_slice(b"[")?;
    push_decimal(u64::from(index), out)?;
    out.extend_from_slice(b"]")
}
