//! The words of a line, where a text in quotes or in brackets is one word, and the brackets
//! after a word.

ghost use Rattle.std.specs.Prelude.{◌≡◌, ◌∷◌, [], ◌<◌, length, IfNone, IfSome};
ghost use Rattle.link_lines_json.specs.Tokens.{begins_in_brackets, ends_term, ends_word, is_in_brackets, next_region};
ghost use Rattle.link_lines_json.specs.Tokens.{term_text, terms, tokens};
ghost use Rattle.link_lines_json.specs.Tokens.{without_last, word_size};

use crate::runs::simple_len;

/// The region of a line that a byte is in.
#[derive(Clone, Copy, PartialEq, Eq)]
pub enum Region {
    /// In a word, outside quotes and brackets.
    Word,
    /// In quotes.
    Quotes,
    /// In quotes, after a backslash.
    Escape,
    /// In brackets.
    Brackets,
}

/// A word, and the brackets after it.
#[derive(Clone, Copy)]
pub struct Term<'a> {
    /// The word.
    pub word: &'a [u8],
    /// The text of the brackets after the word, with the opening bracket.
    pub names: Option<&'a [u8]>,
}

impl Region {
    /// Returns the region of the byte after this one.
    fn after(self, byte: u8) -> Region
        ensures { result ≡ next_region self byte }
    {
        match self {
            Region::Word => match byte {
                b'"' => Region::Quotes,
                b'(' => Region::Brackets,
                _ => Region::Word,
            },
            Region::Quotes => match byte {
                b'"' => Region::Word,
                b'\\' => Region::Escape,
                _ => Region::Quotes,
            },
            Region::Escape => Region::Quotes,
            Region::Brackets => match byte {
                b')' => Region::Word,
                _ => Region::Brackets,
            },
        }
    }

    /// Returns whether a byte of this region ends the word before it.
    fn ends_word(self, byte: u8) -> bool
        ensures { result ≡ ends_word self byte }
    {
        match self {
            Region::Word => byte == b' ' || byte == b'\n',
            _ => false,
        }
    }
}

/// Returns the number of bytes up to the end of the word that a text begins in, byte by byte.
fn size_by_regions(start: Region, text: &[u8]) -> usize
    ensures { result ≡ word_size start text.now }
{
    let mut region = start;
    for (i, byte) in text.iter().enumerate() {
        if region.ends_word(*byte) {
            return i;
        }
        region = region.after(*byte);
    }
    text.len()
}

/// Returns the number of bytes up to the end of the word that a text begins in. Most words have
/// simple bytes alone.
#[tactic(auto, using(crate::proofs::FirstTokens::first_word))]
fn word_size(start: Region, text: &[u8]) -> usize
    ensures { result ≡ word_size start text.now }
{
    match start {
        Region::Word => {
            let (simple, rest) = text.split_at(simple_len(text));
            simple.len() + size_by_regions(Region::Word, rest)
        }
        _ => size_by_regions(start, text),
    }
}

/// Returns the first word of a text without the space before it, and what follows it; None for an
/// empty text.
#[tactic(auto, using(crate::proofs::FirstTokens::word_within))]
fn split_token(text: &[u8]) -> Option<(&[u8], &[u8])>
    ensures some { IfSome result (λ r. tokens text.now ≡ r.0.now ∷ tokens r.1.now) }
    ensures shorter { IfSome result (λ r. length r.1.now < length text.now) }
    ensures none { IfNone result (text.now ≡ []) }
{
    let Some((first, rest)) = text.split_first() else {
        return None;
    };
    Some(rest.split_at(word_size(Region::Word.after(*first), rest)))
}

/// Returns whether a word is in brackets.
fn is_in_brackets(word: &[u8]) -> bool
    ensures { result ≡ is_in_brackets word.now }
{
    match word {
        [first, ..] => *first == b'(',
        [] => false,
    }
}

/// Returns whether the first word of a text that begins with the space before it is in brackets.
fn begins_in_brackets(text: &[u8]) -> bool
    ensures { result ≡ begins_in_brackets text.now }
{
    match text {
        [_, first, ..] => *first == b'(',
        _ => false,
    }
}

/// Returns whether a term without brackets ends before a text: whether that is empty, or begins with
/// a space and a word that isn't in brackets.
pub(crate) fn ends_term(text: &[u8]) -> bool
    ensures { result ≡ ends_term text.now }
{
    match text {
        [first, ..] => *first == b' ' && !begins_in_brackets(text),
        [] => true,
    }
}

/// Returns a word without its last byte.
fn without_last(word: &[u8]) -> &[u8]
    ensures { result.now ≡ without_last word.now }
{
    let (start, _) = word.split_at(word.len().saturating_sub(1));
    start
}

/// Returns the first term of a text, and what follows it; None for an empty text.
#[tactic(auto, unfolding(crate::specs::Tokens::terms))]
pub(crate) fn split_term(text: &[u8]) -> Option<(Term<'_>, &[u8])>
    ensures some { IfSome result (λ r. terms text.now ≡ term_text r.0 ∷ terms r.1.now) }
    ensures shorter { IfSome result (λ r. length r.1.now < length text.now) }
    ensures none { IfNone result (terms text.now ≡ []) }
{
    let Some((word, rest)) = split_token(text) else {
        return None;
    };
    if !begins_in_brackets(rest) {
        return Some((Term { word, names: None }, rest));
    }
    match split_token(rest) {
        Some((names, behind)) if is_in_brackets(names) => {
            let names = Some(without_last(names));
            Some((Term { word, names }, behind))
        }
        _ => Some((Term { word, names: None }, rest)),
    }
}
