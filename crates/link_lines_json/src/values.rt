//! Values and fields of lines as JSON.

ghost use Rattle.std.specs.Prelude.{◌≡◌, ◌∷◌, ◌<◌, false, drop, length, map, flat_map, option_map, IfOk, IfSome};
ghost use Rattle.link_lines_values.specs.Appends.{Appends};
ghost use Rattle.link_lines_parts.specs.Lines.{words_of};
ghost use Rattle.link_lines_json.specs.Tokens.{term_text, terms};
ghost use Rattle.link_lines_json.specs.Values.{are_numbers, assignment_json, assignments_json, begins_with_equals_sign};
ghost use Rattle.link_lines_json.specs.Values.{elements_json, field_json, fields_json, first_assignment_json};
ghost use Rattle.link_lines_json.specs.Values.{flag_json, flags_json, hex_after, hex_digit, hex_value};
ghost use Rattle.link_lines_json.specs.Values.{is_assignment, is_bare, is_bare_field, is_digit, is_hex, is_in_key, is_natural, is_number};
ghost use Rattle.link_lines_json.specs.Values.{number_field, number_field_json, object_json};
ghost use Rattle.link_lines_json.specs.Values.{is_plain_number, is_quoted, key, key_size, members_json, next_key, separator, set_json};
ghost use Rattle.link_lines_json.specs.Values.{text_json, text_or_word, value_json, with_digit, without_sign, word_json};
ghost use Rattle.std.specs.List.{list_all, prefix_len};

use crate::names::{is_object_field, is_text_field};
use crate::runs::simple_len;
use crate::strings::{push_escaped_text, push_requoted, push_string};
use crate::tokens::{Term, ends_term, split_term};
use link_lines_parts::split_word;
use link_lines_values::push_decimal;
use std::alloc::AllocError;

/// The numbers of 15 hex digits, one less than a number of 64 bits has.
const FIFTEEN_DIGITS: u64 = 1 << 60;

/// A field of a record, `name=number`.
#[derive(Clone, Copy)]
struct NumberField<'a> {
    /// Its name.
    name: &'a [u8],
    /// Its value, a decimal number.
    number: &'a [u8],
}

/// Returns a word without its first byte.
fn without_first(word: &[u8]) -> &[u8]
    ensures { result.now ≡ drop 1 word.now }
{
    match word {
        [_, rest @ ..] => rest,
        [] => word,
    }
}

/// Returns whether a word is a number in hex.
fn is_hex(word: &[u8]) -> bool
    ensures { result ≡ is_hex word.now }
{
    match word {
        [first, second, ..] => *first == b'0' && *second == b'x',
        _ => false,
    }
}

/// Returns the value of a hex digit; of another byte 0.
fn hex_digit(byte: u8) -> u64
    ensures value { result ≡ hex_digit byte }
    ensures bound { result < 16 }
{
    if byte >= b'0' && byte <= b'9' {
        u64::from(byte - b'0')
    } else if byte >= b'a' && byte <= b'f' {
        u64::from(byte - b'a' + 10)
    } else {
        0
    }
}

/// Returns the number of a word in hex, which has at most 16 digits.
pub(crate) fn hex_value(word: &[u8]) -> u64
    ensures { result ≡ hex_value word.now }
{
    let mut number = 0;
    for digit in without_first(without_first(word)) {
        number = number % FIFTEEN_DIGITS * 16 + hex_digit(*digit);
    }
    number
}

/// Returns whether a word is a text in quotes.
fn is_quoted(word: &[u8]) -> bool
    ensures { result ≡ is_quoted word.now }
{
    match word {
        [first, ..] => *first == b'"',
        [] => false,
    }
}

/// Returns whether a byte is a decimal digit.
fn is_digit(byte: u8) -> bool
    ensures { result ≡ is_digit byte }
{
    byte >= b'0' && byte <= b'9'
}

/// Returns whether all bytes are decimal digits.
fn are_digits(bytes: &[u8]) -> bool
    ensures { result ≡ list_all is_digit bytes.now }
{
    for byte in bytes {
        if !is_digit(*byte) {
            return false;
        }
    }
    true
}

/// Returns whether a word has decimal digits alone, without zeros before them.
fn is_natural(word: &[u8]) -> bool
    ensures { result ≡ is_natural word.now }
{
    match word {
        [] => false,
        [digit] => is_digit(*digit),
        [first, ..] => *first != b'0' && are_digits(word),
    }
}

/// Returns a word without the sign before it.
fn without_sign(word: &[u8]) -> &[u8]
    ensures { result.now ≡ without_sign word.now }
{
    match word {
        [first, rest @ ..] if *first == b'-' => rest,
        _ => word,
    }
}

/// Returns whether a word is a decimal number, perhaps below zero.
pub(crate) fn is_number(word: &[u8]) -> bool
    ensures { result ≡ is_number word.now }
{
    is_natural(without_sign(word))
}

/// Appends the separator before a member, if there is a member before it.
pub(crate) fn push_separator(after: bool, out: &mut Vec<u8>) -> Result<(), AllocError>
    ensures { Appends out.old out.new result (separator after) }
{
    if after {
        out.extend_from_slice(b", ")
    } else {
        Ok(())
    }
}

/// Appends the name of a member. Where most entries have the member, its name is written at once,
/// with quotes and colon.
#[tactic(auto, unfolding(crate::specs::Values::key))]
pub(crate) fn push_key(name: &[u8], out: &mut Vec<u8>) -> Result<(), AllocError>
    ensures { Appends out.old out.new result (key name.now) }
{
    out.extend_from_slice(b"\"")?;
    push_escaped_text(name, out)?;
    out.extend_from_slice(b"\": ")
}

/// Appends the name of a member after another one.
#[tactic(auto, unfolding(crate::specs::Values::next_key))]
pub(crate) fn push_next_key(name: &[u8], out: &mut Vec<u8>) -> Result<(), AllocError>
    ensures { Appends out.old out.new result (next_key name.now) }
{
    out.extend_from_slice(b", ")?;
    push_key(name, out)
}

/// Appends a name among those of a set's bits, or a comma for what separates them.
fn push_flag(word: &[u8], out: &mut Vec<u8>) -> Result<(), AllocError>
    ensures { Appends out.old out.new result (flag_json word.now) }
{
    if word == b"|".as_slice() {
        out.extend_from_slice(b", ")
    } else {
        push_string(word, out)
    }
}

/// Appends the names of a set's bits, each with a byte before it.
fn push_flag_words(names: &[u8], out: &mut Vec<u8>) -> Result<(), AllocError>
    ensures { Appends out.old out.new result (flat_map flag_json (map (λ word. drop 1 word) (words_of names.now))) }
{
    let mut left = names;
    while let Some((word, rest)) = split_word(left) {
        push_flag(without_first(word), out)?;
        left = rest;
    }
    Ok(())
}

/// Appends the names of a set's bits as a list.
#[tactic(auto, unfolding(crate::specs::Values::flags_json))]
fn push_flags(names: Option<&[u8]>, out: &mut Vec<u8>) -> Result<(), AllocError>
    ensures { Appends out.old out.new result (flags_json (option_map (λ names. names.now) names.entry)) }
{
    out.extend_from_slice(b"[")?;
    if let Some(names) = names {
        push_flag_words(names, out)?;
    }
    out.extend_from_slice(b"]")
}

/// Appends the text of the brackets after a value.
#[tactic(auto, unfolding(crate::specs::Values::key, crate::specs::Values::next_key))]
fn push_text(names: Option<&[u8]>, out: &mut Vec<u8>) -> Result<(), AllocError>
    ensures { Appends out.old out.new result (text_json (option_map (λ names. names.now) names.entry)) }
{
    let Some(names) = names else {
        return Ok(());
    };
    out.extend_from_slice(b", \"text\": ")?;
    push_string(without_first(names), out)
}

/// Appends a word that is neither a number in hex nor a text in quotes.
#[tactic(auto, unfolding(crate::specs::Values::word_json))]
pub(crate) fn push_word(is_bytes: bool, word: &[u8], out: &mut Vec<u8>) -> Result<(), AllocError>
    ensures { Appends out.old out.new result (word_json is_bytes word.now) }
{
    if !is_bytes && is_number(word) {
        out.extend_from_slice(word)
    } else {
        push_string(word, out)
    }
}

/// Appends the members of a set's bits: its number and the names, under these keys.
#[tactic(auto, unfolding(crate::specs::Values::set_json))]
pub(crate) fn push_set(
    number: &[u8],
    flags: &[u8],
    term: Term<'_>,
    out: &mut Vec<u8>,
) -> Result<(), AllocError>
    ensures { Appends out.old out.new result (set_json number.now flags.now (term_text term.entry)) }
{
    push_key(number, out)?;
    push_decimal(hex_value(term.word), out)?;
    push_next_key(flags, out)?;
    push_flags(term.names, out)
}

/// Appends a text in quotes and that it was one, or a word.
fn push_text_or_word(is_bytes: bool, word: &[u8], out: &mut Vec<u8>) -> Result<(), AllocError>
    ensures { Appends out.old out.new result (text_or_word is_bytes word.now) }
{
    if !is_quoted(word) {
        return push_word(is_bytes, word, out);
    }
    push_requoted(word, out)?;
    push_next_key(b"quoted", out)?;
    out.extend_from_slice(b"true")
}

/// Appends the members of a value, and of the brackets after it.
#[tactic(auto, unfolding(crate::specs::Values::members_json, crate::specs::Values::key))]
pub(crate) fn push_members(
    is_bytes: bool,
    term: Term<'_>,
    out: &mut Vec<u8>,
) -> Result<(), AllocError>
    ensures { Appends out.old out.new result (members_json is_bytes (term_text term.entry)) }
{
    if is_hex(term.word) {
        return push_set(b"value", b"flags", term, out);
    }
    out.extend_from_slice(b"\"value\": ")?;
    push_text_or_word(is_bytes, term.word, out)?;
    push_text(term.names, out)
}

/// Returns whether a value has one member alone.
fn is_bare(term: Term<'_>) -> bool
    ensures { result ≡ is_bare (term_text term.entry) }
{
    match term.names {
        None => !(is_hex(term.word) || is_quoted(term.word)),
        Some(_) => false,
    }
}

/// Appends a value as an object.
#[tactic(auto, unfolding(crate::specs::Values::object_json))]
fn push_object(is_bytes: bool, term: Term<'_>, out: &mut Vec<u8>) -> Result<(), AllocError>
    ensures { Appends out.old out.new result (object_json is_bytes (term_text term.entry)) }
{
    out.extend_from_slice(b"{")?;
    push_members(is_bytes, term, out)?;
    out.extend_from_slice(b"}")
}

/// Appends a value: itself, if it has one member alone, else an object.
#[tactic(auto, unfolding(crate::specs::Values::value_json))]
pub(crate) fn push_value(
    is_bytes: bool,
    term: Term<'_>,
    out: &mut Vec<u8>,
) -> Result<(), AllocError>
    ensures { Appends out.old out.new result (value_json is_bytes (term_text term.entry)) }
{
    if is_bare(term) {
        push_word(is_bytes, term.word, out)
    } else {
        push_object(is_bytes, term, out)
    }
}

/// Returns whether the value of a field of this name isn't an object.
fn is_bare_field(name: &[u8], value: Term<'_>) -> bool
    ensures { result ≡ is_bare_field name.now (term_text value.entry) }
{
    is_bare(value) && !is_object_field(name)
}

/// Appends a field with a name and a value.
#[tactic(auto, unfolding(crate::specs::Values::field_json))]
pub(crate) fn push_field(
    name: Term<'_>,
    value: Term<'_>,
    out: &mut Vec<u8>,
) -> Result<(), AllocError>
    ensures { Appends out.old out.new result (field_json (term_text name.entry) (term_text value.entry)) }
{
    push_key(name.word, out)?;
    let is_bytes = is_text_field(name.word);
    if is_bare_field(name.word, value) {
        push_word(is_bytes, value.word, out)
    } else {
        push_object(is_bytes, value, out)
    }
}

/// Appends fields as headers have them, a name and a value each.
pub(crate) fn push_fields(after: bool, text: &[u8], out: &mut Vec<u8>) -> Result<(), AllocError>
    ensures { Appends out.old out.new result (fields_json after (terms text.now)) }
{
    let mut is_after = after;
    let mut left = text;
    while let Some((name, values)) = split_term(left) {
        let Some((value, rest)) = split_term(values) else {
            return Ok(());
        };
        push_separator(is_after, out)?;
        push_field(name, value, out)?;
        is_after = true;
        left = rest;
    }
    Ok(())
}

/// Returns the number of bytes of the name before `=`.
fn key_size(word: &[u8]) -> usize
    ensures { result ≡ key_size word.now }
{
    for (i, byte) in word.iter().enumerate() {
        if *byte == b'=' || *byte == b'"' || *byte == b'(' {
            return i;
        }
    }
    word.len()
}

/// Returns whether the first byte of a text is `=`.
fn begins_with_equals_sign(text: &[u8]) -> bool
    ensures { result ≡ begins_with_equals_sign text.now }
{
    match text {
        [first, ..] => *first == b'=',
        [] => false,
    }
}

/// Returns whether a word is a field of a record, `name=value`.
#[tactic(auto, using(link_lines_parts::proofs::FirstParts::prefix_within), unfolding(crate::specs::Values::is_assignment))]
pub(crate) fn is_assignment(word: &[u8]) -> bool
    ensures { result ≡ is_assignment word.now }
{
    let (key, rest) = word.split_at(key_size(word));
    !key.is_empty() && begins_with_equals_sign(rest)
}

/// Appends a field of a record.
#[tactic(auto, using(link_lines_parts::proofs::FirstParts::prefix_within), unfolding(crate::specs::Values::assignment_json))]
fn push_assignment(term: Term<'_>, out: &mut Vec<u8>) -> Result<(), AllocError>
    ensures { Appends out.old out.new result (assignment_json (term_text term.entry)) }
{
    let (key, rest) = term.word.split_at(key_size(term.word));
    push_key(key, out)?;
    let value = Term {
        word: without_first(rest),
        names: term.names,
    };
    push_value(is_text_field(key), value, out)
}

/// Returns the first field of a record, if its name has simple bytes alone and its value is a
/// decimal number without brackets after it, as in most records; and what follows it.
#[tactic(auto, using(link_lines_parts::proofs::FirstParts::prefix_within))]
fn split_number_field(text: &[u8]) -> Option<(NumberField<'_>, &[u8])>
    ensures term { IfSome result (λ r. terms text.now ≡ number_field r.0.name.now r.0.number.now ∷ terms r.1.now) }
    ensures json { IfSome result (λ r. assignment_json (number_field r.0.name.now r.0.number.now)
        ≡ number_field_json r.0.name.now r.0.number.now) }
    ensures shorter { IfSome result (λ r. length r.1.now < length text.now) }
{
    let Some((space, words)) = text.split_first() else {
        return None;
    };
    let (name, assigned) = words.split_at(simple_len(words));
    let value = without_first(assigned);
    let (number, rest) = value.split_at(simple_len(value));
    if *space == b' '
        && begins_with_equals_sign(assigned)
        && !is_text_field(name)
        && is_number(number)
        && ends_term(rest)
    {
        Some((NumberField { name, number }, rest))
    } else {
        None
    }
}

/// Appends a field of a record whose value is a number, and whose name has simple bytes alone.
fn push_number_field(field: NumberField<'_>, out: &mut Vec<u8>) -> Result<(), AllocError>
    ensures { Appends out.old out.new result (number_field_json field.entry.name.now field.entry.number.now) }
{
    out.extend_from_slice(b"\"")?;
    out.extend_from_slice(field.name)?;
    out.extend_from_slice(b"\": ")?;
    out.extend_from_slice(field.number)
}

/// Appends the first field of a record, after others or not. Returns what follows it.
fn push_first_assignment<'a>(
    after: bool,
    text: &'a [u8],
    out: &mut Vec<u8>,
) -> Result<&'a [u8], AllocError>
    requires { 0 < length text.now }
    ensures appends { Appends out.old out.new result (first_assignment_json after (terms text.now)) }
    ensures rest { IfOk result (λ rest. terms rest.now ≡ drop 1 (terms text.now)) }
    ensures shorter { IfOk result (λ rest. length rest.now < length text.now) }
{
    if let Some((field, rest)) = split_number_field(text) {
        push_separator(after, out)?;
        push_number_field(field, out)?;
        return Ok(rest);
    }
    let Some((term, rest)) = split_term(text) else {
        return Ok(b"");
    };
    push_separator(after, out)?;
    push_assignment(term, out)?;
    Ok(rest)
}

/// Appends fields as records have them.
#[tactic(auto, unfolding(crate::specs::Tokens::terms))]
pub(crate) fn push_assignments(text: &[u8], out: &mut Vec<u8>) -> Result<(), AllocError>
    ensures { Appends out.old out.new result (assignments_json false (terms text.now)) }
{
    let mut is_after = false;
    let mut left = text;
    'fields: while !left.is_empty() {
        left = push_first_assignment(is_after, left, out)?;
        is_after = true;
    }
    Ok(())
}

/// Returns whether a term is a decimal number alone.
fn is_plain_number(term: Term<'_>) -> bool
    ensures { result ≡ is_plain_number (term_text term.entry) }
{
    match term.names {
        None => is_number(term.word),
        Some(_) => false,
    }
}

/// Returns whether all terms of a text are decimal numbers alone.
#[tactic(auto, unfolding(crate::specs::Values::are_numbers))]
pub(crate) fn are_numbers(text: &[u8]) -> bool
    ensures { result ≡ are_numbers (terms text.now) }
{
    let mut left = text;
    while let Some((term, rest)) = split_term(left) {
        if !is_plain_number(term) {
            return false;
        }
        left = rest;
    }
    true
}

/// Appends the terms of a text as elements of a list.
pub(crate) fn push_elements(text: &[u8], out: &mut Vec<u8>) -> Result<(), AllocError>
    ensures { Appends out.old out.new result (elements_json false (terms text.now)) }
{
    let mut is_after = false;
    let mut left = text;
    while let Some((term, rest)) = split_term(left) {
        push_separator(is_after, out)?;
        push_value(false, term, out)?;
        is_after = true;
        left = rest;
    }
    Ok(())
}
