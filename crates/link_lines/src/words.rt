//! Lists of words with commas between them.

ghost use Rattle.std.specs.Prelude.{◌≡◌, ◌<◌, ◌∷◌, [], length, IfSome, IfNone};
ghost use Rattle.link_lines.specs.Words.{parts};

/// Why a list of words isn't read.
#[derive(Clone, Copy, Debug, PartialEq, Eq, Drop)]
pub enum WordError<'a> {
    /// This word, the first such, has no meaning in the list.
    Unknown(&'a str),
    /// There are more words than the 32 that a list has capacity for.
    TooMany,
}

/// Returns the parts before and after the first comma; None if there is no comma.
pub(crate) fn first_part(words: &str) -> Option<(&str, &str)>
    ensures some { IfSome result (λ r. parts words.now ≡ r.0.now ∷ parts r.1.now) }
    ensures shorter { IfSome result (λ r. length r.1.now < length words.now) }
    ensures none { IfNone result (parts words.now ≡ words.now ∷ []) }
{
    words.split_once(',')
}
