//! Strings of JSON (RFC 8259).

ghost use Rattle.std.specs.Prelude.{◌≡◌, flat_map};
ghost use Rattle.link_lines_values.specs.Appends.{Appends};
ghost use Rattle.link_lines_json.specs.Strings.{after_backslash, escaped, requoted, string};

use crate::runs::simple_len;
use link_lines_values::hex_byte;
use std::alloc::AllocError;

/// Appends a byte of a string, escaped where it must be.
fn push_escaped(byte: u8, out: &mut Vec<u8>) -> Result<(), AllocError>
    ensures { Appends out.old out.new result (escaped byte) }
{
    if byte == b'"' || byte == b'\\' {
        return out.extend_from_slice(&[b'\\', byte]);
    }
    if byte >= 32 && byte < 127 {
        return out.extend_from_slice(&[byte]);
    }
    out.extend_from_slice(b"\\u00")?;
    out.extend_from_slice(&hex_byte(byte))
}

/// Appends bytes that stand for themselves.
fn push_simple(text: &[u8], out: &mut Vec<u8>) -> Result<(), AllocError>
    ensures { Appends out.old out.new result text.now }
{
    out.extend_from_slice(text)
}

/// Appends the bytes of a string one by one.
fn push_escaped_bytes(text: &[u8], out: &mut Vec<u8>) -> Result<(), AllocError>
    ensures { Appends out.old out.new result (flat_map escaped text.now) }
{
    for byte in text {
        push_escaped(*byte, out)?;
    }
    Ok(())
}

/// Appends the bytes of a string, without its quotes. The simple ones before the first other one
/// are appended at once, since most strings have no other.
#[tactic(auto, using(link_lines_parts::proofs::FirstParts::prefix_within))]
pub(crate) fn push_escaped_text(text: &[u8], out: &mut Vec<u8>) -> Result<(), AllocError>
    ensures { Appends out.old out.new result (flat_map escaped text.now) }
{
    let (simple, rest) = text.split_at(simple_len(text));
    push_simple(simple, out)?;
    push_escaped_bytes(rest, out)
}

/// Appends the string of a text.
pub(crate) fn push_string(text: &[u8], out: &mut Vec<u8>) -> Result<(), AllocError>
    ensures { Appends out.old out.new result (string text.now) }
{
    out.extend_from_slice(b"\"")?;
    push_escaped_text(text, out)?;
    out.extend_from_slice(b"\"")
}

/// Appends a byte after a backslash: of `\xnn` the `u00` of `\u00nn`.
fn push_after_backslash(byte: u8, out: &mut Vec<u8>) -> Result<(), AllocError>
    ensures { Appends out.old out.new result (after_backslash byte) }
{
    if byte == b'x' {
        out.extend_from_slice(b"u00")
    } else {
        out.extend_from_slice(&[byte])
    }
}

/// Appends the string of a text in quotes, as lines have it.
pub(crate) fn push_requoted(text: &[u8], out: &mut Vec<u8>) -> Result<(), AllocError>
    ensures { Appends out.old out.new result (requoted text.now) }
{
    let mut escapes = false;
    for byte in text {
        if escapes {
            push_after_backslash(*byte, out)?;
            escapes = false;
        } else {
            out.extend_from_slice(&[*byte])?;
            escapes = *byte == b'\\';
        }
    }
    Ok(())
}
