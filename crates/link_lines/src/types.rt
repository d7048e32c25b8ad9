//! Message types by their words.

ghost use Rattle.std.specs.Prelude.{◌≡◌, [], ℕ, IfSome, IfNone};
ghost use Rattle.std.specs.Result.{result_map_both};
ghost use Rattle.std.specs.List.{after_first};
ghost use Rattle.std.specs.Str.Parse.{digits_value};
ghost use Rattle.link_lines_values.specs.Names.{texts_of};
ghost use Rattle.link_lines.specs.Types.{is_underscore, is_word_of, named_in, named_type, IsTypeNumber, IsTypeWord, TakesType};
ghost use Rattle.link_lines.specs.Words.{parts, word_fault, Reads};

use crate::words::{WordError, first_part};
use arrayvec::ArrayVec;
use link_lines_values::{MESSAGE_TYPE, NumberText};

/// A list of at most 32 message types.
pub type Types = ArrayVec<u16, 32>;

/// Returns what follows the first `_` of a name; nothing if there is none.
fn after_prefix(name: &[u8]) -> &[u8]
    ensures { result.now ≡ after_first is_underscore name.now }
{
    let mut left = name;
    while let Some((byte, rest)) = left.split_first() {
        if *byte == b'_' {
            return rest;
        }
        left = rest;
    }
    left
}

/// Returns whether a word is the name, or what follows the name's first `_`. The case of ASCII
/// letters doesn't count.
fn is_word_of(name: &[u8], word: &[u8]) -> bool
    ensures { result ≡ is_word_of name.now word.now }
{
    name.eq_ignore_ascii_case(word) || after_prefix(name).eq_ignore_ascii_case(word)
}

/// Returns the number of the first row whose name the word is. The rows are a parameter, since the
/// prover spells out a constant inside a loop in each goal.
fn named_in(rows: &[NumberText], word: &[u8]) -> Option<u32>
    ensures { result ≡ named_in (texts_of (λ name. name.now) rows.now) word.now }
{
    for row in rows {
        if is_word_of(row.1, word) {
            return Some(row.0);
        }
    }
    None
}

/// Returns the number of the type with this name. It is a function of its own, since its goals
/// spell out the table.
#[tactic(auto, unfolding(crate::specs::Types::named_type))]
fn find_type(word: &[u8]) -> Option<u32>
    ensures { result ≡ named_type word.now }
{
    named_in(MESSAGE_TYPE.texts(), word)
}

/// Returns the type with this name.
#[tactic(auto, using(crate::proofs::TypeNames::type_is_small))]
fn named_type(word: &str) -> Option<u16>
    ensures { result ≡ named_type word.now }
{
    match find_type(word.as_bytes()) {
        Some(number) => Some(number as u16),
        None => None,
    }
}

/// Reads the number of a type: one to five decimal digits of a number up to 65535.
fn read_number(word: &str) -> Option<u16>
    ensures some { IfSome result (λ n. IsTypeNumber word.now × (n ≡ digits_value 10 word.now)) }
    ensures none { IfNone result (IsTypeNumber word.now → ⊥) }
{
    let bytes = word.as_bytes();
    if bytes.is_empty() || bytes.len() > 5 || bytes[0] == b'+' {
        return None;
    }
    word.parse::<u16>().ok()
}

/// Reads a type, by its name or its number.
fn read_type(word: &str) -> Option<u16>
    ensures some { IfSome result (λ t. IsTypeWord word.now t) }
    ensures none { IfNone result ((t : ℕ) → IsTypeWord word.now t → ⊥) }
{
    match named_type(word) {
        Some(found) => Some(found),
        None => read_number(word),
    }
}

/// Returns the types with one more.
fn with_type(types: Types, word: &str) -> Result<Types, WordError<'_>>
    ensures { TakesType types.items word.now (result_map_both (λ t. t.items) word_fault result) }
{
    let Some(found) = read_type(word) else {
        return Err(WordError::Unknown(word));
    };
    let mut more = types;
    match more.try_push(found) {
        Ok(()) => Ok(more),
        Err(_) => Err(WordError::TooMany),
    }
}

/// Reads types with commas between them: each is a name, as `RTM_NEWLINK` or `newlink`, or a number
/// of at most five digits. The case of ASCII letters doesn't count.
///
/// # Errors
///
/// The first word that is neither, or that there are more than 32 types.
pub fn read_types(words: &str) -> Result<Types, WordError<'_>>
    ensures { Reads TakesType [] (parts words.now) (result_map_both (λ t. t.items) word_fault result) }
{
    let mut types = Types::new();
    let mut left = words;
    'parts: loop {
        let Some((part, rest)) = first_part(left) else {
            return with_type(types, left);
        };
        match with_type(types, part) {
            Ok(more) => types = more,
            Err(error) => return Err(error),
        }
        left = rest;
    }
}
