//! The lines of a text, their levels and words.
#![tactic(auto, using(crate::proofs::FirstParts::prefix_within))]

ghost use Rattle.std.specs.Prelude.{◌≡◌, ◌∷◌, [], ◌<◌, length, IfNone, IfSome};
ghost use Rattle.std.specs.List.{prefix_len};
ghost use Rattle.link_lines_parts.specs.Lines.{after_first_word, first_word, is_in_line, is_in_word, is_space, level};
ghost use Rattle.link_lines_parts.specs.Lines.{lines_of, without_newline, words_of};

use memchr::memchr;

/// The number of spaces by which a line is deeper than one of the level above.
const SPACES_OF_LEVEL: usize = 2;

/// The parts of a line.
#[derive(Clone, Copy)]
pub struct LineParts<'a> {
    /// Half the number of spaces at the start.
    pub level: usize,
    /// The first word.
    pub word: &'a [u8],
    /// What follows the first word, with the space before it and the newline.
    pub rest: &'a [u8],
}

/// Returns the number of bytes before the first newline of a text.
pub fn line_len(text: &[u8]) -> usize
    ensures { result ≡ prefix_len is_in_line text.now }
{
    match memchr(b'\n', text) {
        Some(at) => at,
        None => text.len(),
    }
}

/// Returns a line without the newline at its end, if it has one.
pub fn without_newline(line: &[u8]) -> &[u8]
    ensures { result.now ≡ without_newline line.now }
{
    let Some((last, start)) = line.split_last() else {
        return line;
    };
    if *last == b'\n' { start } else { line }
}

/// Returns the number of bytes before the first space or newline of a text.
fn word_len(text: &[u8]) -> usize
    ensures { result ≡ prefix_len is_in_word text.now }
{
    for (i, byte) in text.iter().enumerate() {
        if *byte == b' ' || *byte == b'\n' {
            return i;
        }
    }
    text.len()
}

/// Returns the number of spaces at the start of a line.
fn indent_len(line: &[u8]) -> usize
    ensures { result ≡ prefix_len is_space line.now }
{
    for (i, byte) in line.iter().enumerate() {
        if *byte != b' ' {
            return i;
        }
    }
    line.len()
}

/// Returns the level of a line, half the number of its leading spaces; its first word; and what
/// follows that.
pub fn line_parts(line: &[u8]) -> LineParts<'_>
    ensures level { result.level ≡ level line.now }
    ensures word { result.word.now ≡ first_word line.now }
    ensures rest { result.rest.now ≡ after_first_word line.now }
{
    let indent = indent_len(line);
    let (_, words) = line.split_at(indent);
    let (word, rest) = words.split_at(word_len(words));
    LineParts {
        level: indent / SPACES_OF_LEVEL,
        word,
        rest,
    }
}

/// Returns the first line of a text with its newline, and what follows it; None for an empty text.
pub fn split_line(text: &[u8]) -> Option<(&[u8], &[u8])>
    ensures some { IfSome result (λ r. lines_of text.now ≡ r.0.now ∷ lines_of r.1.now) }
    ensures shorter { IfSome result (λ r. length r.1.now < length text.now) }
    ensures none { IfNone result (text.now ≡ []) }
{
    if text.is_empty() {
        return None;
    }
    let end = (line_len(text) + 1).min(text.len());
    Some(text.split_at(end))
}

/// Returns the first word of a line with the space before it, and what follows it; None for an
/// empty line.
pub fn split_word(line: &[u8]) -> Option<(&[u8], &[u8])>
    ensures some { IfSome result (λ r. words_of line.now ≡ r.0.now ∷ words_of r.1.now) }
    ensures shorter { IfSome result (λ r. length r.1.now < length line.now) }
    ensures none { IfNone result (line.now ≡ []) }
{
    let Some((_, rest)) = line.split_first() else {
        return None;
    };
    Some(line.split_at(1 + word_len(rest)))
}
