//! What is left out of lines, by names.

ghost use Rattle.std.specs.Prelude.{◌≡◌, map, option_map};
ghost use Rattle.std.specs.Result.{result_map_both};
ghost use Rattle.link_lines_parts.specs.Remaining.{nothing_omitted, omitted_of};
ghost use Rattle.link_lines.specs.Without.{line_name, table_names, with_names, with_word, TakesWord};
ghost use Rattle.link_lines.specs.Words.{parts, word_fault, Reads};

use crate::words::{WordError, first_part};
use link_lines_parts::Without;

/// The attributes with tables of rates and sizes (rtnetlink.h and pkt_sched.h), which tc(8) computes.
const TABLES: &[&[u8]] = &[
    b"TCA_HTB_CTAB",
    b"TCA_HTB_RTAB",
    b"TCA_STAB_DATA",
    b"TCA_TBF_PTAB",
    b"TCA_TBF_RTAB",
];

/// Returns the kernel's name of an attribute, raw or not, that the word is, or the word of the lines
/// of padding.
fn find_name(word: &str) -> Option<&'static [u8]>
    ensures { option_map (λ name. name.now) result ≡ line_name word.now }
{
    if word.eq_ignore_ascii_case("padding") {
        return Some(b"padding".as_slice());
    }
    match link_lines_raw::find_name(word.as_bytes()) {
        Some(name) => Some(name),
        None => link_lines_texts::find_name(word.as_bytes()),
    }
}

/// Returns the choice that also leaves out attributes, if there is capacity for their names.
fn with_names(without: Without, names: &[&'static [u8]]) -> Option<Without>
    ensures { option_map omitted_of result
        ≡ with_names (omitted_of without) (map (λ name. name.now) names.now) }
{
    let mut more = without;
    match more.names.try_extend_from_slice(names) {
        Ok(()) => Some(more),
        Err(_) => None,
    }
}

/// Returns the choice that also leaves out the tables of rates and sizes, if there is capacity for their names.
fn with_tables(without: Without) -> Option<Without>
    ensures { option_map omitted_of result ≡ with_names (omitted_of without) table_names }
{
    with_names(without, TABLES)
}

/// Returns the choice that also leaves out what a word names.
fn with_word(without: Without, word: &str) -> Result<Without, WordError<'_>>
    ensures { result_map_both omitted_of word_fault result ≡ with_word (omitted_of without) word.now }
{
    let mut more = without;
    if word.eq_ignore_ascii_case("numbers") {
        more.numbers = true;
        return Ok(more);
    }
    if word.eq_ignore_ascii_case("counters") {
        more.counters = true;
        return Ok(more);
    }
    if word.eq_ignore_ascii_case("indexes") {
        more.indexes = true;
        return Ok(more);
    }
    if word.eq_ignore_ascii_case("tables") {
        return with_tables(more).ok_or(WordError::TooMany);
    }
    match find_name(word) {
        Some(name) => with_names(more, &[name]).ok_or(WordError::TooMany),
        None => Err(WordError::Unknown(word)),
    }
}

/// Reads words with commas between them: each is the kernel's name of an attribute, `padding`, or a
/// group: `numbers`, `counters`, `indexes` or `tables`. The case of ASCII letters doesn't count.
///
/// # Errors
///
/// The first word that is neither, or that there are more than 32 names of attributes.
pub fn read_without(words: &str) -> Result<Without, WordError<'_>>
    ensures { Reads TakesWord nothing_omitted (parts words.now)
        (result_map_both omitted_of word_fault result) }
{
    let mut without = Without::nothing();
    let mut left = words;
    'parts: loop {
        let Some((part, rest)) = first_part(left) else {
            return with_word(without, left);
        };
        match with_word(without, part) {
            Ok(more) => without = more,
            Err(error) => return Err(error),
        }
        left = rest;
    }
}
