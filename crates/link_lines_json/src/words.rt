//! The first words of lines, by runs of simple bytes: lines begin with names.
#![tactic(auto, using(link_lines_parts::proofs::FirstParts::prefix_within))]

ghost use Rattle.std.specs.Prelude.{◌≡◌};
ghost use Rattle.std.specs.List.{prefix_len};
ghost use Rattle.link_lines_parts.specs.Lines.{after_first_word, first_word, is_in_word, is_space, level};

use crate::runs::simple_len;
use link_lines_parts::LineParts;

/// The number of spaces by which a line is deeper than one of the level above.
const SPACES_OF_LEVEL: usize = 2;

/// Returns the number of spaces at the start of a line.
fn indent_len(line: &[u8]) -> usize
    ensures { result ≡ prefix_len is_space line.now }
{
    for (i, byte) in line.iter().enumerate() {
        if *byte != b' ' {
            return i;
        }
    }
    line.len()
}

/// Returns the number of bytes before the first space or newline, byte by byte.
fn word_len_by_bytes(text: &[u8]) -> usize
    ensures { result ≡ prefix_len is_in_word text.now }
{
    for (i, byte) in text.iter().enumerate() {
        if *byte == b' ' || *byte == b'\n' {
            return i;
        }
    }
    text.len()
}

/// Returns the number of bytes before the first space or newline.
#[tactic(auto, using(link_lines_parts::proofs::FirstParts::prefix_within, crate::proofs::SimpleRuns::simple_in_word))]
fn word_len(text: &[u8]) -> usize
    ensures { result ≡ prefix_len is_in_word text.now }
{
    let (simple, rest) = text.split_at(simple_len(text));
    simple.len() + word_len_by_bytes(rest)
}

/// Returns what `line_parts` does: the level of a line, its first word, and what follows that.
pub(crate) fn first_parts(line: &[u8]) -> LineParts<'_>
    ensures level { result.level ≡ level line.now }
    ensures word { result.word.now ≡ first_word line.now }
    ensures rest { result.rest.now ≡ after_first_word line.now }
{
    let indent = indent_len(line);
    let (_, words) = line.split_at(indent);
    let (word, rest) = words.split_at(word_len(words));
    LineParts {
        level: indent / SPACES_OF_LEVEL,
        word,
        rest,
    }
}
