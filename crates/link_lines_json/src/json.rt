//! A message's lines as an object of JSON.

ghost use Rattle.std.specs.Prelude.{◌≡◌, ◌∷◌, ◌++◌, codes, IfOk};
ghost use Rattle.link_lines_values.specs.Appends.{Appends};
ghost use Rattle.link_lines_json.specs.Json.{closing, code_json, ending, entry_depth, header_json, is_member, json};
ghost use Rattle.link_lines_json.specs.Json.{line_json, lines_json, line_terms, member_json, next_entry, numbered_json};
ghost use Rattle.link_lines_json.specs.Json.{open_after, opening, request_json, route_table_json, sized_json, struct_object};
ghost use Rattle.link_lines_json.specs.Json.{table_json, table_terms, typed_json};
ghost use Rattle.link_lines_parts.specs.Lines.{first_word, lines_of};
ghost use Rattle.link_lines_json.specs.Tokens.{terms};

use crate::attributes::{first_of, is_lower, push_entry, push_terms_string};
use crate::strings::push_string;
use crate::tokens::{Term, split_term};
use crate::values::{is_number, push_field, push_fields, push_key, push_word};
use crate::words::first_parts;
use link_lines_parts::{split_line, without_newline};
use std::alloc::AllocError;

/// Appends the number of a message type without a name, and the fields after it.
#[tactic(auto, unfolding(crate::specs::Json::numbered_json))]
fn push_numbered(text: &[u8], out: &mut Vec<u8>) -> Result<(), AllocError>
    ensures { Appends out.old out.new result (numbered_json (terms text.now)) }
{
    let Some((number, rest)) = split_term(text) else {
        push_key(b"type", out)?;
        return out.extend_from_slice(b"null");
    };
    push_key(b"type", out)?;
    push_word(false, number.word, out)?;
    push_fields(true, rest, out)
}

/// Appends the type of a message, by its name or number, and the fields after it.
#[tactic(auto, unfolding(crate::specs::Json::typed_json))]
fn push_typed(word: &[u8], text: &[u8], out: &mut Vec<u8>) -> Result<(), AllocError>
    ensures { Appends out.old out.new result (typed_json word.now (terms text.now)) }
{
    if word == b"type".as_slice() {
        return push_numbered(text, out);
    }
    push_key(b"type", out)?;
    push_string(word, out)?;
    push_fields(true, text, out)
}

/// Appends a request's header of a size, and what a message's line has.
#[tactic(auto, unfolding(crate::specs::Json::sized_json))]
fn push_sized(size: &[u8], word: &[u8], text: &[u8], out: &mut Vec<u8>) -> Result<(), AllocError>
    ensures { Appends out.old out.new result (sized_json size.now word.now (terms text.now)) }
{
    out.extend_from_slice(b"{")?;
    push_key(b"length", out)?;
    push_word(false, size, out)?;
    out.extend_from_slice(b", ")?;
    push_typed(word, text, out)?;
    out.extend_from_slice(b"}")
}

/// Appends the header of a request that an error repeats.
#[tactic(auto, unfolding(crate::specs::Json::request_json))]
fn push_request(text: &[u8], out: &mut Vec<u8>) -> Result<(), AllocError>
    ensures { Appends out.old out.new result (request_json (terms text.now)) }
{
    let Some((_, sized)) = split_term(text) else {
        return out.extend_from_slice(b"{}");
    };
    let Some((size, typed)) = split_term(sized) else {
        return out.extend_from_slice(b"{}");
    };
    let Some((word, fields)) = split_term(typed) else {
        return out.extend_from_slice(b"{}");
    };
    push_sized(size.word, word.word, fields, out)
}

/// Appends a struct with its fields.
#[tactic(auto, unfolding(crate::specs::Json::struct_object))]
fn push_struct_object(word: &[u8], text: &[u8], out: &mut Vec<u8>) -> Result<(), AllocError>
    ensures { Appends out.old out.new result (struct_object word.now (terms text.now)) }
{
    out.extend_from_slice(b"{")?;
    push_key(b"struct", out)?;
    push_string(word, out)?;
    push_fields(true, text, out)?;
    out.extend_from_slice(b"}")
}

/// Appends the header of a message's body.
#[tactic(auto, unfolding(crate::specs::Json::header_json))]
fn push_header(word: &[u8], text: &[u8], out: &mut Vec<u8>) -> Result<(), AllocError>
    ensures { Appends out.old out.new result (header_json word.now (terms text.now)) }
{
    push_key(b"header", out)?;
    push_struct_object(word, text, out)
}

/// Appends the code of an NLMSG_ERROR or NLMSG_DONE, as a field.
#[tactic(auto, unfolding(crate::specs::Json::code_json))]
fn push_code(text: &[u8], out: &mut Vec<u8>) -> Result<(), AllocError>
    ensures { Appends out.old out.new result (code_json (terms text.now)) }
{
    let Some((code, _)) = split_term(text) else {
        push_key(b"code", out)?;
        return out.extend_from_slice(b"null");
    };
    let name = Term {
        word: b"code",
        names: None,
    };
    push_field(name, code, out)
}

/// Appends the member that a line is.
#[tactic(auto, unfolding(crate::specs::Json::member_json))]
fn push_member(word: &[u8], text: &[u8], out: &mut Vec<u8>) -> Result<(), AllocError>
    ensures { Appends out.old out.new result (member_json word.now (terms text.now)) }
{
    if word == b"body".as_slice() || word == b"rest".as_slice() {
        push_key(word, out)?;
        return push_string(first_of(text), out);
    }
    if word == b"code".as_slice() {
        return push_code(text, out);
    }
    if word == b"refused:".as_slice() {
        push_key(b"refused", out)?;
        return push_terms_string(text, out);
    }
    if word == b"request".as_slice() {
        push_key(b"request", out)?;
        return push_request(text, out);
    }
    push_header(word, text, out)
}

/// Appends the ends of lists in entries, and of these entries.
fn push_closing(count: usize, out: &mut Vec<u8>) -> Result<(), AllocError>
    ensures { Appends out.old out.new result (closing count) }
{
    let mut left = count;
    'lists: while left > 0 {
        out.extend_from_slice(b"]}")?;
        left -= 1;
    }
    Ok(())
}

/// Appends the end of what is open and the start of an entry at a depth, given how many lists are
/// open: at least one.
#[tactic(auto, unfolding(crate::specs::Values::key, crate::specs::Values::next_key))]
fn push_next_entry(lists: usize, depth: usize, out: &mut Vec<u8>) -> Result<(), AllocError>
    ensures { Appends out.old out.new result (next_entry lists depth) }
{
    if lists < depth {
        return out.extend_from_slice(b", \"nested\": [{");
    }
    if lists == depth {
        return out.extend_from_slice(b"}, {");
    }
    out.extend_from_slice(b"}")?;
    push_closing(lists - depth, out)?;
    out.extend_from_slice(b", {")
}

/// Appends the start of an entry at a depth, given how many lists are open.
#[tactic(auto, unfolding(crate::specs::Values::key, crate::specs::Values::next_key))]
fn push_opening(lists: usize, depth: usize, out: &mut Vec<u8>) -> Result<(), AllocError>
    ensures { Appends out.old out.new result (opening lists depth) }
{
    if lists > 0 {
        return push_next_entry(lists, depth, out);
    }
    out.extend_from_slice(b", \"attributes\": [{")
}

/// Appends the end of a message, given how many lists are open.
#[tactic(auto, unfolding(crate::specs::Values::key, crate::specs::Values::next_key))]
fn push_ending(lists: usize, out: &mut Vec<u8>) -> Result<(), AllocError>
    ensures { Appends out.old out.new result (ending lists) }
{
    if lists == 0 {
        return out.extend_from_slice(b", \"attributes\": []}\n");
    }
    out.extend_from_slice(b"}")?;
    push_closing(lists - 1, out)?;
    out.extend_from_slice(b"]}\n")
}

/// Returns the depth of an entry in lists, whose line has a level: at most one more than there are.
fn entry_depth(lists: usize, level: usize) -> usize
    ensures { result ≡ entry_depth lists level }
{
    if lists < level {
        lists + 1
    } else {
        level.max(1)
    }
}

/// Returns whether a line with this first word is a member of the message, and not an entry of its
/// list of attributes.
#[tactic(auto, unfolding(crate::specs::Json::is_member))]
fn is_member(lists: usize, word: &[u8]) -> bool
    ensures { result ≡ is_member lists word.now }
{
    lists == 0 && is_lower(word) && word != b"kind".as_slice()
}

/// Appends the member that a line is, after another one.
fn push_next_member(word: &[u8], text: &[u8], out: &mut Vec<u8>) -> Result<(), AllocError>
    ensures { Appends out.old out.new result (codes ", " ++ member_json word.now (terms text.now)) }
{
    out.extend_from_slice(b", ")?;
    push_member(word, text, out)
}

/// Appends a line, given how many lists the lines before it left open. Returns how many are open
/// after it.
#[tactic(auto, unfolding(crate::specs::Json::line_json))]
fn push_line(lists: usize, line: &[u8], out: &mut Vec<u8>) -> Result<usize, AllocError>
    ensures appends { Appends out.old out.new result (line_json lists line.now) }
    ensures open { IfOk result (λ after. after ≡ open_after lists line.now) }
{
    let parts = first_parts(line);
    let text = without_newline(parts.rest);
    if is_member(lists, parts.word) {
        push_next_member(parts.word, text, out)?;
        return Ok(0);
    }
    let depth = entry_depth(lists, parts.level);
    push_opening(lists, depth, out)?;
    push_entry(parts.word, text, out)?;
    Ok(depth)
}

/// Appends the lines after the first one of a message, and its end.
fn push_lines(lines: &[u8], out: &mut Vec<u8>) -> Result<(), AllocError>
    ensures { Appends out.old out.new result (lines_json 0 (lines_of lines.now)) }
{
    let mut lists = 0;
    let mut left = lines;
    while let Some((line, rest)) = split_line(left) {
        lists = push_line(lists, line, out)?;
        left = rest;
    }
    push_ending(lists, out)
}

/// Appends the start of a message, up to the end of its first line.
fn push_start(line: &[u8], out: &mut Vec<u8>) -> Result<(), AllocError>
    ensures { Appends out.old out.new result (123 ∷ typed_json (first_word line.now) (line_terms line.now)) }
{
    let parts = first_parts(line);
    out.extend_from_slice(b"{")?;
    push_typed(parts.word, without_newline(parts.rest), out)
}

/// Returns the text of the first attribute RTA_TABLE of a message, given the lines after its header.
#[tactic(auto, unfolding(crate::specs::Tokens::terms))]
fn table_text(lines: &[u8]) -> &[u8]
    ensures { terms result.now ≡ table_terms (lines_of lines.now) }
{
    let mut left = lines;
    while let Some((line, rest)) = split_line(left) {
        let parts = first_parts(line);
        if parts.level == 1 && parts.word == b"RTA_TABLE".as_slice() {
            return without_newline(parts.rest);
        }
        left = rest;
    }
    b""
}

/// Appends the table that the text of an attribute has, as a member, if it is a number.
#[tactic(auto, unfolding(crate::specs::Json::table_json))]
fn push_table(text: &[u8], out: &mut Vec<u8>) -> Result<(), AllocError>
    ensures { Appends out.old out.new result (table_json (terms text.now)) }
{
    let Some((table, _)) = split_term(text) else {
        return Ok(());
    };
    if !is_number(table.word) {
        return Ok(());
    }
    out.extend_from_slice(b", ")?;
    let name = Term {
        word: b"table",
        names: None,
    };
    push_field(name, table, out)
}

/// Appends the table of a route, given the lines after the first one of its message.
#[tactic(auto, unfolding(crate::specs::Json::route_table_json))]
fn push_route_table(lines: &[u8], out: &mut Vec<u8>) -> Result<(), AllocError>
    ensures { Appends out.old out.new result (route_table_json (lines_of lines.now)) }
{
    let Some((header, rest)) = split_line(lines) else {
        return Ok(());
    };
    if first_parts(header).word == b"rtmsg".as_slice() {
        push_table(table_text(rest), out)
    } else {
        Ok(())
    }
}

/// Appends the lines of a message as an object of JSON (RFC 8259) in a line of its own; nothing if
/// there are no lines. Its members are those that the lines show; in a text in quotes each byte
/// becomes the character of the same number.
///
/// # Errors
///
/// `AllocError` if `out` lacked capacity for the object and can't grow; what it held stays, and a
/// part of the object may follow.
#[tactic(auto, unfolding(crate::specs::Json::json))]
pub fn push_json(lines: &[u8], out: &mut Vec<u8>) -> Result<(), AllocError>
    ensures { Appends out.old out.new result (json lines.now) }
{
    let Some((first, rest)) = split_line(lines) else {
        return Ok(());
    };
    push_start(first, out)?;
    push_route_table(rest, out)?;
    push_lines(rest, out)
}
