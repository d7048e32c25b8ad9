//! The lines of a message without some attributes and indexes.

ghost use Rattle.std.specs.Prelude.{◌≡◌, ◌↔◌, ◌++◌, false, IsTrue, OnOk};
ghost use Rattle.link_lines_values.specs.Appends.{Appends};
ghost use Rattle.link_lines_parts.specs.Lines.{words_of};
ghost use Rattle.link_lines_parts.specs.Remaining.{has_byte, is_header, is_index_field, is_omitted, is_omitted_field};
ghost use Rattle.link_lines_parts.specs.Remaining.{is_omitted_name, is_padding_field, is_record_line, line_text, nothing_omitted};
ghost use Rattle.link_lines_parts.specs.Remaining.{numbers_omitted, omits_padding, omitted_level, omitted_of, remaining_line};
ghost use Rattle.link_lines_parts.specs.Remaining.{remaining_lines, without_fields, without_padding};

use crate::cuts::{line_parts, split_line, split_word};
use crate::names::{is_among, is_counter, is_header_word, is_index};
use arrayvec::ArrayVec;
use memchr::memchr;
use std::alloc::AllocError;

/// What is left out of a message's lines: attributes, and groups of them.
#[derive(Clone, Debug, PartialEq, Eq, Drop)]
pub struct Without {
    /// The kernel's names of attributes that are left out, each with all deeper lines that follow
    /// it directly. `padding` is one: of its lines, and of the fields of this name in headers and in
    /// the records of attributes.
    pub names: ArrayVec<&'static [u8], 32>,
    /// Whether sequence numbers and netlink port IDs are left out, which `push_remaining` keeps:
    /// they are left out where a line is written.
    pub numbers: bool,
    /// Whether the attributes that count are left out ([`COUNTERS`](crate::COUNTERS)): statistics,
    /// ages, timers.
    pub counters: bool,
    /// Whether attributes with an index of a link or a number of a namespace are left out
    /// ([`INDEXES`](crate::INDEXES)), and in headers from level 1 on the fields `index` and
    /// `ifindex`.
    pub indexes: bool,
}

impl Without {
    /// Returns the choice that leaves out nothing.
    pub fn nothing() -> Without
        ensures { omitted_of result ≡ nothing_omitted }
    {
        Without {
            names: ArrayVec::new(),
            numbers: false,
            counters: false,
            indexes: false,
        }
    }

    /// Returns whether all lines remain: at most numbers are left out.
    pub fn keeps_lines(&self) -> bool
        ensures { IsTrue result ↔ (omitted_of self.now ≡ numbers_omitted self.now.numbers) }
    {
        self.names.is_empty() && !self.counters && !self.indexes
    }
}

impl Default for Without {
    ghost is_default = { λ w. omitted_of w ≡ nothing_omitted };

    fn default() -> Without {
        Without::nothing()
    }
}

/// Returns whether attributes with this name are left out.
fn is_omitted_name(without: &Without, name: &[u8]) -> bool
    ensures { result ≡ is_omitted_name (omitted_of without.now) name.now }
{
    is_among(without.names.as_slice(), name)
        || (without.counters && is_counter(name))
        || (without.indexes && is_index(name))
}

/// Returns whether a line is that of an attribute that is left out.
fn is_omitted(without: &Without, line: &[u8]) -> bool
    ensures { result ≡ is_omitted (omitted_of without.now) line.now }
{
    let parts = line_parts(line);
    parts.level > 0 && is_omitted_name(without, parts.word)
}

/// Returns the level of the omitted attribute that a line belongs to, if there is one, given that
/// of the line before it.
fn omitted_level(without: &Without, before: Option<usize>, line: &[u8]) -> Option<usize>
    ensures { result ≡ omitted_level (omitted_of without.now) before line.now }
{
    let level = line_parts(line).level;
    match before {
        Some(attribute) if level > attribute => Some(attribute),
        _ if is_omitted(without, line) => Some(level),
        _ => None,
    }
}

/// Returns whether a line is that of a header from level 1 on.
pub fn is_header(line: &[u8]) -> bool
    ensures { result ≡ is_header line.now }
{
    let parts = line_parts(line);
    parts.level > 0 && is_header_word(parts.word)
}

/// Returns whether a word, with the space before it, is the name of the field with a link's index.
pub fn is_index_field(word: &[u8]) -> bool
    ensures { result ≡ is_index_field word.now }
{
    word == b" index".as_slice() || word == b" ifindex".as_slice()
}

/// Returns whether padding is left out.
fn omits_padding(without: &Without) -> bool
    ensures { result ≡ omits_padding (omitted_of without.now) }
{
    is_among(without.names.as_slice(), b"padding")
}

/// Returns whether a word, with the space before it, is the name of a field that is left out of
/// headers.
fn is_omitted_field(without: &Without, word: &[u8]) -> bool
    ensures { result ≡ is_omitted_field (omitted_of without.now) word.now }
{
    (without.indexes && is_index_field(word))
        || (word == b" padding".as_slice() && omits_padding(without))
}

/// Appends a line without the fields that are left out of headers.
fn push_without_fields(without: &Without, line: &[u8], out: &mut Vec<u8>) -> Result<(), AllocError>
    ensures { Appends out.old out.new result
        (without_fields (omitted_of without.now) false (words_of line.now)) }
{
    let mut rest = line;
    let mut after_name = false;
    while let Some((word, following)) = split_word(rest) {
        let is_name = is_omitted_field(without, word);
        if !after_name && !is_name {
            out.extend_from_slice(word)?;
        }
        after_name = is_name;
        rest = following;
    }
    Ok(())
}

/// Returns whether a word, with the space before it, is a field of padding in the record of an
/// attribute, name and value.
fn is_padding_field(word: &[u8]) -> bool
    ensures { result ≡ is_padding_field word.now }
{
    word.starts_with(b" padding=")
}

/// Returns whether a line has a byte.
fn has_byte(byte: u8, line: &[u8]) -> bool
    ensures { result ≡ has_byte byte line.now }
{
    memchr(byte, line).is_some()
}

/// Returns whether a line may have fields of a record, and has no text, which is in quotes. Few
/// lines have them, and only these are gone through by words.
fn is_record_line(line: &[u8]) -> bool
    ensures { result ≡ is_record_line line.now }
{
    has_byte(b'=', line) && !has_byte(b'"', line)
}

/// Appends a line without the fields of padding in the record of an attribute.
fn push_without_padding(line: &[u8], out: &mut Vec<u8>) -> Result<(), AllocError>
    ensures { Appends out.old out.new result (without_padding (words_of line.now)) }
{
    let mut rest = line;
    while let Some((word, following)) = split_word(rest) {
        if !is_padding_field(word) {
            out.extend_from_slice(word)?;
        }
        rest = following;
    }
    Ok(())
}

/// Appends a line that isn't left out: that of a header perhaps without its index and its padding,
/// that of the record of an attribute perhaps without its padding.
fn push_remaining_line(without: &Without, line: &[u8], out: &mut Vec<u8>) -> Result<(), AllocError>
    ensures { Appends out.old out.new result (remaining_line (omitted_of without.now) line.now) }
{
    if (without.indexes || omits_padding(without)) && is_header(line) {
        return push_without_fields(without, line, out);
    }
    if omits_padding(without) && is_record_line(line) {
        return push_without_padding(line, out);
    }
    out.extend_from_slice(line)
}

/// Appends what remains of a line, given the level of the omitted attribute that it belongs to, if
/// there is one.
fn push_line(
    without: &Without,
    omitted: Option<usize>,
    line: &[u8],
    out: &mut Vec<u8>,
) -> Result<(), AllocError>
    ensures { Appends out.old out.new result (line_text (omitted_of without.now) omitted line.now) }
{
    match omitted {
        Some(_) => Ok(()),
        None => push_remaining_line(without, line, out),
    }
}

/// Appends what remains of the lines of a message.
///
/// # Errors
///
/// `AllocError` if `out` lacked capacity for the lines and can't grow; what it held stays, and a
/// part of the lines may follow.
pub fn push_remaining(lines: &[u8], without: &Without, out: &mut Vec<u8>) -> Result<(), AllocError>
    ensures { Appends out.old out.new result (remaining_lines (omitted_of without.now) lines.now) }
{
    let mut rest = lines;
    let mut before = None;
    while let Some((line, following)) = split_line(rest) {
        let omitted = omitted_level(without, before, line);
        push_line(without, omitted, line, out)?;
        before = omitted;
        rest = following;
    }
    Ok(())
}
