//! The entries of lists of attributes as JSON.

ghost use Rattle.std.specs.Prelude.{◌≡◌, ◌&&◌, ◌∷◌, false, flat_map};
ghost use Rattle.link_lines_values.specs.Appends.{Appends};
ghost use Rattle.link_lines_json.specs.Strings.{escaped};
ghost use Rattle.link_lines_json.specs.Attributes.{attribute_json, counted_json, entry_json, first_of, first_payload, is_lower, is_struct};
ghost use Rattle.link_lines_json.specs.Attributes.{joined, kind_json, list_json, mask_json, nested_and_payload, nested_payload};
ghost use Rattle.link_lines_json.specs.Attributes.{payload_json, record_json, several_json, space, struct_json, term_words, terms_string};
ghost use Rattle.link_lines_json.specs.Attributes.{value_or_several};
ghost use Rattle.link_lines_json.specs.Names.{bytes_names};
ghost use Rattle.link_lines_json.specs.Tokens.{term_text, terms};
ghost use Rattle.link_lines_json.specs.Values.{is_number};
ghost use Rattle.link_lines_parts.specs.Names.{is_among};

use crate::names::{is_bytes, is_number_list};
use crate::strings::{push_escaped_text, push_string};
use crate::tokens::{Term, split_term};
use crate::values::{
    are_numbers, hex_value, is_assignment, is_number, push_assignments, push_elements, push_fields,
    push_key, push_members, push_next_key, push_set, push_word,
};
use link_lines_values::push_decimal;
use std::alloc::AllocError;

/// Returns the word of the first term, if there is one.
pub(crate) fn first_of(text: &[u8]) -> &[u8]
    ensures { result.now ≡ first_of (terms text.now) }
{
    match split_term(text) {
        Some((term, _)) => term.word,
        None => b"",
    }
}

/// Appends the bytes of a string for a term as a line has it.
fn push_term(term: Term<'_>, out: &mut Vec<u8>) -> Result<(), AllocError>
    ensures { Appends out.old out.new result (flat_map escaped (term_words (term_text term.entry))) }
{
    push_escaped_text(term.word, out)?;
    if let Some(names) = term.names {
        push_escaped_text(b" ", out)?;
        push_escaped_text(names, out)?;
        push_escaped_text(b")", out)?;
    }
    Ok(())
}

/// Appends a space between terms.
fn push_space(after: bool, out: &mut Vec<u8>) -> Result<(), AllocError>
    ensures { Appends out.old out.new result (space after) }
{
    if after {
        out.extend_from_slice(b" ")
    } else {
        Ok(())
    }
}

/// Appends the bytes of a string for the terms of a text.
fn push_joined(text: &[u8], out: &mut Vec<u8>) -> Result<(), AllocError>
    ensures { Appends out.old out.new result (joined false (terms text.now)) }
{
    let mut is_after = false;
    let mut left = text;
    while let Some((term, rest)) = split_term(left) {
        push_space(is_after, out)?;
        push_term(term, out)?;
        is_after = true;
        left = rest;
    }
    Ok(())
}

/// Appends the terms of a text as one string.
#[tactic(auto, unfolding(crate::specs::Attributes::terms_string))]
pub(crate) fn push_terms_string(text: &[u8], out: &mut Vec<u8>) -> Result<(), AllocError>
    ensures { Appends out.old out.new result (terms_string (terms text.now)) }
{
    out.extend_from_slice(b"\"")?;
    push_joined(text, out)?;
    out.extend_from_slice(b"\"")
}

/// Appends the terms of a text as a list.
#[tactic(auto, unfolding(crate::specs::Attributes::list_json))]
fn push_list(text: &[u8], out: &mut Vec<u8>) -> Result<(), AllocError>
    ensures { Appends out.old out.new result (list_json (terms text.now)) }
{
    out.extend_from_slice(b"[")?;
    push_elements(text, out)?;
    out.extend_from_slice(b"]")
}

/// Appends the terms of a text as a list of numbers, or as one string.
#[tactic(auto, unfolding(crate::specs::Attributes::several_json))]
fn push_several(text: &[u8], out: &mut Vec<u8>) -> Result<(), AllocError>
    ensures { Appends out.old out.new result (several_json (terms text.now)) }
{
    if are_numbers(text) {
        push_list(text, out)
    } else {
        push_terms_string(text, out)
    }
}

/// Appends the mask of a set's bits, which is the first term of a text.
#[tactic(auto, unfolding(crate::specs::Attributes::mask_json))]
fn push_mask(text: &[u8], out: &mut Vec<u8>) -> Result<(), AllocError>
    ensures { Appends out.old out.new result (mask_json (terms text.now)) }
{
    match split_term(text) {
        Some((mask, _)) => {
            out.extend_from_slice(b", ")?;
            push_set(b"mask", b"mask_flags", mask, out)
        }
        None => Ok(()),
    }
}

/// Appends the value that a text is: with a mask, or alone, or several.
#[tactic(auto, unfolding(crate::specs::Attributes::value_or_several, crate::specs::Values::key))]
fn push_value_or_several(
    is_bytes: bool,
    text: &[u8],
    term: Term<'_>,
    rest: &[u8],
    out: &mut Vec<u8>,
) -> Result<(), AllocError>
    requires { terms text.now ≡ term_text term ∷ terms rest.now }
    ensures { Appends out.old out.new result (value_or_several is_bytes (term_text term.entry) (terms rest.now)) }
{
    match split_term(rest) {
        Some((next, behind)) => {
            if next.word == b"mask".as_slice() {
                push_members(is_bytes, term, out)?;
                return push_mask(behind, out);
            }
            out.extend_from_slice(b"\"value\": ")?;
            push_several(text, out)
        }
        None => push_members(is_bytes, term, out),
    }
}

/// Returns whether a word is bytes that look like a number, as the value of an attribute with this
/// name.
fn is_bytes_like_number(name: &[u8], word: &[u8]) -> bool
    ensures { result ≡ (is_number word.now && is_among bytes_names name.now) }
{
    is_number(word) && is_bytes(name)
}

/// Appends the value that a text is, of an attribute with this name. The name is looked up only for
/// a number: what isn't one is written alike, whether it is bytes or not.
fn push_named_value(
    name: &[u8],
    text: &[u8],
    term: Term<'_>,
    rest: &[u8],
    out: &mut Vec<u8>,
) -> Result<(), AllocError>
    requires { terms text.now ≡ term_text term ∷ terms rest.now }
    ensures { Appends out.old out.new result
        (value_or_several (is_among bytes_names name.now) (term_text term.entry) (terms rest.now)) }
{
    let is_bytes = is_bytes_like_number(name, term.word);
    push_value_or_several(is_bytes, text, term, rest, out)
}

/// Appends the fields of a record.
#[tactic(auto, unfolding(crate::specs::Attributes::record_json, crate::specs::Values::key))]
fn push_record(text: &[u8], out: &mut Vec<u8>) -> Result<(), AllocError>
    ensures { Appends out.old out.new result (record_json (terms text.now)) }
{
    out.extend_from_slice(b"\"value\": {")?;
    push_assignments(text, out)?;
    out.extend_from_slice(b"}")
}

/// Appends the fields of a record after the number of them.
#[tactic(auto, unfolding(crate::specs::Attributes::counted_json))]
fn push_counted(text: &[u8], out: &mut Vec<u8>) -> Result<(), AllocError>
    ensures { Appends out.old out.new result (counted_json (terms text.now)) }
{
    let Some((count, rest)) = split_term(text) else {
        return Ok(());
    };
    push_key(b"fields", out)?;
    push_word(false, count.word, out)?;
    out.extend_from_slice(b", ")?;
    push_record(rest, out)
}

/// Appends the payload that a text is, of an attribute with this name.
#[tactic(auto, unfolding(crate::specs::Attributes::first_payload, crate::specs::Values::key))]
fn push_first_payload(
    name: &[u8],
    text: &[u8],
    term: Term<'_>,
    rest: &[u8],
    out: &mut Vec<u8>,
) -> Result<(), AllocError>
    requires { terms text.now ≡ term_text term ∷ terms rest.now }
    ensures { Appends out.old out.new result (first_payload name.now (term_text term.entry) (terms rest.now)) }
{
    if term.word == b"bytes".as_slice() {
        push_key(b"bytes", out)?;
        return push_string(first_of(rest), out);
    }
    if term.word == b"fields".as_slice() {
        return push_counted(rest, out);
    }
    if is_assignment(term.word) {
        return push_record(text, out);
    }
    if is_number_list(name) {
        out.extend_from_slice(b"\"value\": ")?;
        return push_list(text, out);
    }
    push_named_value(name, text, term, rest, out)
}

/// Appends the payload of an attribute with this name, if it has one.
#[tactic(auto, unfolding(crate::specs::Attributes::payload_json))]
fn push_payload(name: &[u8], text: &[u8], out: &mut Vec<u8>) -> Result<(), AllocError>
    ensures { Appends out.old out.new result (payload_json name.now (terms text.now)) }
{
    let Some((term, rest)) = split_term(text) else {
        return Ok(());
    };
    out.extend_from_slice(b", ")?;
    push_first_payload(name, text, term, rest, out)
}

/// Appends the payload of an attribute with the nested bit.
#[tactic(auto, unfolding(crate::specs::Attributes::nested_payload))]
fn push_nested_payload(name: &[u8], text: &[u8], out: &mut Vec<u8>) -> Result<(), AllocError>
    ensures { Appends out.old out.new result (nested_payload name.now (terms text.now)) }
{
    push_next_key(b"nested_bit", out)?;
    out.extend_from_slice(b"true")?;
    push_payload(name, text, out)
}

/// Appends the nested bit and the payload of an attribute with this name.
#[tactic(auto, unfolding(crate::specs::Attributes::nested_and_payload, crate::specs::Attributes::payload_json))]
fn push_nested_and_payload(name: &[u8], text: &[u8], out: &mut Vec<u8>) -> Result<(), AllocError>
    ensures { Appends out.old out.new result (nested_and_payload name.now (terms text.now)) }
{
    let Some((term, rest)) = split_term(text) else {
        return Ok(());
    };
    if term.word == b"nested".as_slice() {
        return push_nested_payload(name, rest, out);
    }
    out.extend_from_slice(b", ")?;
    push_first_payload(name, text, term, rest, out)
}

/// Appends an attribute with a name.
#[tactic(auto, unfolding(crate::specs::Attributes::attribute_json, crate::specs::Values::key))]
fn push_attribute(name: &[u8], text: &[u8], out: &mut Vec<u8>) -> Result<(), AllocError>
    ensures { Appends out.old out.new result (attribute_json name.now (terms text.now)) }
{
    out.extend_from_slice(b"\"name\": ")?;
    push_string(name, out)?;
    push_nested_and_payload(name, text, out)
}

/// Appends an attribute of a kind without a name.
#[tactic(auto, unfolding(crate::specs::Attributes::kind_json))]
fn push_kind(text: &[u8], out: &mut Vec<u8>) -> Result<(), AllocError>
    ensures { Appends out.old out.new result (kind_json (terms text.now)) }
{
    let Some((kind, rest)) = split_term(text) else {
        return Ok(());
    };
    push_key(b"kind", out)?;
    push_decimal(hex_value(kind.word), out)?;
    push_next_key(b"value", out)?;
    push_string(first_of(rest), out)
}

/// Returns whether a word names a struct, or what else isn't an attribute.
pub(crate) fn is_lower(word: &[u8]) -> bool
    ensures { result ≡ is_lower word.now }
{
    match word {
        [first, ..] => *first >= b'a' && *first <= b'z',
        [] => false,
    }
}

/// Returns whether a word names a struct among attributes, and not padding, which is shown as an
/// attribute with bytes.
fn is_struct(word: &[u8]) -> bool
    ensures { result ≡ is_struct word.now }
{
    is_lower(word) && word != b"padding".as_slice()
}

/// Appends a struct among attributes.
#[tactic(auto, unfolding(crate::specs::Attributes::struct_json))]
fn push_struct(name: &[u8], text: &[u8], out: &mut Vec<u8>) -> Result<(), AllocError>
    ensures { Appends out.old out.new result (struct_json name.now (terms text.now)) }
{
    push_key(b"struct", out)?;
    push_string(name, out)?;
    push_next_key(b"fields", out)?;
    out.extend_from_slice(b"{")?;
    push_fields(false, text, out)?;
    out.extend_from_slice(b"}")
}

/// Appends the members of an entry of a list of attributes.
#[tactic(auto, unfolding(crate::specs::Attributes::entry_json))]
pub(crate) fn push_entry(word: &[u8], text: &[u8], out: &mut Vec<u8>) -> Result<(), AllocError>
    ensures { Appends out.old out.new result (entry_json word.now (terms text.now)) }
{
    if word == b"kind".as_slice() {
        push_kind(text, out)
    } else if is_struct(word) {
        push_struct(word, text, out)
    } else {
        push_attribute(word, text, out)
    }
}
