//! Whether the lines of a message are about a link.

ghost use Rattle.std.specs.Prelude.{◌≡◌, ◌≢◌, ◌++◌, ◌∷◌, ◌<◌, ℕ, List, false, MatchOption, bytes_eq};
ghost use Rattle.std.specs.Fmt.{digit_glyph};
ghost use Rattle.std.specs.List.{list_any};
ghost use Rattle.link_lines_values.specs.Bytes.{escaped};
ghost use Rattle.link_lines.specs.About.{has_index, is_about, is_about_line, is_index_attribute, is_index_line};
ghost use Rattle.link_lines.specs.About.{is_name_line, is_next_hop, quoted_end};
ghost use Rattle.link_lines_parts.specs.Lines.{lines_of, words_of};

use link_lines_parts::{is_header, is_index_field, line_parts, split_line, split_word};

/// The digits of numbers in hex.
const HEX_DIGITS: [u8; 16] = *b"0123456789abcdef";

/// Returns a hex digit.
#[tactic(auto, using(crate::proofs::QuotedWords::digits_shown))]
fn hex_digit(digit: u8) -> u8
    requires { digit < 16 }
    ensures { result ≡ digit_glyph false digit }
{
    HEX_DIGITS[usize::from(digit)]
}

/// Returns what follows a byte as it is shown in quotes; None if a text doesn't begin with that.
fn after_escaped(byte: u8, text: &[u8]) -> Option<&[u8]>
    ensures { MatchOption result ((rest : List ℕ) → text.now ≢ escaped byte ++ rest)
        (λ rest. text.now ≡ escaped byte ++ rest.now) }
{
    if byte == b'"' || byte == b'\\' {
        return text.strip_prefix(&[b'\\', byte]);
    }
    if byte >= 32 && byte < 127 {
        return text.strip_prefix(&[byte]);
    }
    text.strip_prefix(&[b'\\', b'x', hex_digit(byte / 16), hex_digit(byte % 16)])
}

/// Returns whether a text is a word as it is shown in quotes after the first one, and the end of
/// its line.
fn is_quoted_end(text: &[u8], word: &[u8]) -> bool
    ensures { result ≡ bytes_eq text.now (quoted_end word.now) }
{
    let mut rest = text;
    for byte in word {
        match after_escaped(*byte, rest) {
            Some(following) => rest = following,
            None => return false,
        }
    }
    rest == b"\"\n".as_slice()
}

/// Returns whether a line is this text, with a word after it as it is shown in quotes after the
/// first one.
fn is_line_of(start: &[u8], word: &[u8], line: &[u8]) -> bool
    ensures { result ≡ bytes_eq line.now (start.now ++ quoted_end word.now) }
{
    match line.strip_prefix(start) {
        Some(rest) => is_quoted_end(rest, word),
        None => false,
    }
}

/// Returns whether a line is that of a name of a link, or of a link's name in a rule.
fn is_name_line(link: &[u8], line: &[u8]) -> bool
    ensures { result ≡ is_name_line link.now line.now }
{
    is_line_of(b"  IFLA_IFNAME \"", link, line)
        || is_line_of(b"  IFLA_ALT_IFNAME \"", link, line)
        || is_line_of(b"    IFLA_ALT_IFNAME \"", link, line)
        || is_line_of(b"  FRA_IIFNAME \"", link, line)
        || is_line_of(b"  FRA_OIFNAME \"", link, line)
}

/// Returns whether a word, with the space before it, is that of a link.
fn is_value(word: &[u8], link: &[u8]) -> bool
    ensures { result ≡ bytes_eq word.now (32 ∷ link.now) }
{
    match word.split_first() {
        Some((byte, value)) => *byte == b' ' && value == link,
        None => false,
    }
}

/// Returns whether a field with an index of some words has this value. `is_value_first` says whether
/// the first word is the value of one.
fn has_index(link: &[u8], words: &[u8], is_value_first: bool) -> bool
    ensures { result ≡ has_index link.now is_value_first (words_of words.now) }
{
    let mut rest = words;
    let mut after_name = is_value_first;
    while let Some((word, following)) = split_word(rest) {
        if after_name && is_value(word, link) {
            return true;
        }
        after_name = is_index_field(word);
        rest = following;
    }
    false
}

/// Returns whether a line is that of a next hop in a route.
fn is_next_hop(line: &[u8]) -> bool
    ensures { result ≡ is_next_hop line.now }
{
    let parts = line_parts(line);
    parts.level == 2 && parts.word == b"rtnexthop".as_slice()
}

/// Returns whether a line is that of a header at level 1, or of a next hop, with this index.
fn is_index_line(link: &[u8], line: &[u8]) -> bool
    ensures { result ≡ is_index_line link.now line.now }
{
    let has_place = line_parts(line).level == 1 && is_header(line) || is_next_hop(line);
    has_place && has_index(link, line, false)
}

/// Returns whether a line is that of an attribute, of a message of another type than links', with
/// the index of the link that the message is about.
fn is_index_attribute(link: &[u8], line: &[u8]) -> bool
    ensures { result ≡ is_index_attribute link.now line.now }
{
    let parts = line_parts(line);
    let has_name = parts.word == b"RTA_OIF".as_slice()
        || parts.word == b"RTA_IIF".as_slice()
        || parts.word == b"NHA_OIF".as_slice()
        || parts.word == b"NETCONFA_IFINDEX".as_slice();
    parts.level == 1 && has_name && has_index(link, parts.rest, true)
}

/// Returns whether a line says that its message is about a link.
fn is_about_line(link: &[u8], line: &[u8]) -> bool
    ensures { result ≡ is_about_line link.now line.now }
{
    is_name_line(link, line) || is_index_line(link, line) || is_index_attribute(link, line)
}

/// Returns whether the lines of a message are about a link, given its name or its index: an
/// attribute IFLA_IFNAME, IFLA_ALT_IFNAME, FRA_IIFNAME or FRA_OIFNAME at level 1, or IFLA_ALT_IFNAME
/// at level 2, has this name; or the header at level 1, a next hop of a route, or an attribute
/// RTA_OIF, RTA_IIF, NHA_OIF or NETCONFA_IFINDEX at level 1 has this index.
pub fn is_about(lines: &[u8], link: &[u8]) -> bool
    ensures { result ≡ is_about lines.now link.now }
{
    let mut rest = lines;
    while let Some((line, following)) = split_line(rest) {
        if is_about_line(link, line) {
            return true;
        }
        rest = following;
    }
    false
}
