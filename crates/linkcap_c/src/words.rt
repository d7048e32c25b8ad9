//! Lists of words that a caller gives, with commas between them.

ghost use Rattle.std.specs.Prelude.{◌≡◌, [], IfErr, IfOk, Ok};
ghost use Rattle.link_lines.specs.Types.{TakesType};
ghost use Rattle.link_lines.specs.Remaining.{nothing_omitted, omitted_of};
ghost use Rattle.link_lines.specs.Without.{TakesWord};
ghost use Rattle.linkcap_c.specs.Options.{IsListError, ReadsNames, ReadsTypes};

use link_lines::{Types, Without, WordError, read_types};
use std::str;

/// Why a list of words isn't read.
#[derive(Clone, Copy, Drop)]
pub(crate) enum ListError<'a> {
    /// This word, the first such, isn't known.
    Unknown(&'a str),
    /// The list isn't UTF-8, or names more than 32 types or attributes.
    Invalid,
}

/// Reads a list of message types, by names or numbers; an empty list names none.
pub(crate) fn read_only(words: &[u8]) -> Result<Types, ListError<'_>>
    ensures ok { IfOk result (λ types. ReadsTypes words.now (Ok types.items)) }
    ensures err { IfErr result (λ e. IsListError TakesType [] words.now e) }
{
    if words.is_empty() {
        return Ok(Types::new());
    }
    let Ok(text) = str::from_utf8(words) else {
        return Err(ListError::Invalid);
    };
    match read_types(text) {
        Ok(types) => Ok(types),
        Err(WordError::Unknown(word)) => Err(ListError::Unknown(word)),
        Err(WordError::TooMany) => Err(ListError::Invalid),
    }
}

/// Reads a list of attributes and groups that are left out; an empty list leaves out nothing.
pub(crate) fn read_without(words: &[u8]) -> Result<Without, ListError<'_>>
    ensures ok { IfOk result (λ x. ReadsNames words.now (Ok (omitted_of x))) }
    ensures err { IfErr result (λ e. IsListError TakesWord nothing_omitted words.now e) }
{
    if words.is_empty() {
        return Ok(Without::nothing());
    }
    let Ok(text) = str::from_utf8(words) else {
        return Err(ListError::Invalid);
    };
    match link_lines::read_without(text) {
        Ok(without) => Ok(without),
        Err(WordError::Unknown(word)) => Err(ListError::Unknown(word)),
        Err(WordError::TooMany) => Err(ListError::Invalid),
    }
}
