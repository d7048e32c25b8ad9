//! The lines of attributes.
//!
//! They are made from rows of names, not by the interpreter: what they show is normal text, so they
//! need neither list kinds nor measures.

ghost use Rattle.std.specs.Prelude.{◌≡◌, ◌<◌, ◌≤◌, ◌+◌, ◌^◌, ◌++◌, ◌∷◌, [], true, length, replicate, option_map, IfOk, OnOk};
ghost use Rattle.link_lines_values.specs.Appends.{Appends};
ghost use Rattle.link_lines_texts.specs.AppendsWith.{AppendsWith};
ghost use Rattle.link_interpreter.specs.Sameness.{attribute_of};
ghost use Rattle.link_lines_values.specs.Indents.{indent};
ghost use Rattle.link_lines_parts.specs.Levels.{deepest_level};
ghost use Rattle.link_lines_texts.specs.Format.{Inside, Inside.Peer, inside_of, known_inside, within_reach};
ghost use Rattle.link_lines_texts.specs.Lists.{header_inside, inside_list, inside_text, list_inside};
ghost use Rattle.link_lines_texts.specs.Lists.{list_lines, next_in, attribute_lines, peer_list};
ghost use Rattle.link_tables.specs.InForce.{in_force};

use crate::attribute_names::attribute_name_of;
use crate::format::{
    CAN_STATISTICS, Format, FormatBy, Scope, known_format, or_format, within_reach,
};
use crate::laws::lists_unfold_by_attributes;
use crate::links::push_link_header;
use crate::raw_tables::raw_table;
use link_interpreter::{Attribute, KIND_BOUND, first_attribute};
use link_lines_raw::{RawBy, push_held, push_plain_bytes, push_raw};
use link_lines_values::{push_bytes, push_indent, push_value};
use link_tables::table::LINK_INFO;
use link_tables::{InForce, LINK_HEADER_LEN, NO_KINDS, Table, family_table, next_force};
use std::alloc::AllocError;

/// The table of a list of attributes, and what the list is in.
#[derive(Clone, Copy)]
pub(crate) struct ListTable {
    pub(crate) table: Table,
    pub(crate) scope: Scope,
}

/// Returns the kinds in force after an attribute of a table. Only link info changes them.
fn force_after<'a>(table: Table, force: InForce<'a>, attribute: Attribute<'a>) -> InForce<'a>
    ensures { in_force result ≡ next_in table (in_force force.entry) (attribute_of attribute.entry) }
{
    if table.is_link_info() {
        next_force(force, attribute.kind % KIND_BOUND, attribute.payload)
    } else {
        force
    }
}

/// Appends the end of the line with a peer's name, and the line of the peer's header. A peer
/// without a header, which no normal text has, is shown as bytes on the line of its name.
fn push_peer(level: usize, payload: &[u8], out: &mut Vec<u8>) -> Result<(), AllocError>
    ensures { Appends out.old out.new result
        (inside_text level Inside.Peer payload.now ++ 10 ∷ header_inside level Inside.Peer payload.now) }
{
    if payload.len() < LINK_HEADER_LEN {
        push_bytes(payload, out)?;
        return out.extend_from_slice(b"\n");
    }
    out.extend_from_slice(b"\n")?;
    push_link_header(level, payload, out)
}

/// Appends what follows an attribute's name on the same line, the line's end, and the lines below,
/// at `level`, but not those of a list with a table.
#[tactic(auto, unfolding(crate::specs::Format::can_statistics))]
fn push_payload(
    level: usize,
    format: &Format,
    payload: &[u8],
    out: &mut Vec<u8>,
) -> Result<(), AllocError>
    ensures { Appends out.old out.new result
        (inside_text level (inside_of format.now) payload.now
        ++ 10 ∷ header_inside level (inside_of format.now) payload.now) }
{
    match format {
        FormatBy::Raw(table) => return push_held(level, &RawBy::List(*table), payload, out),
        FormatBy::CanStatistics => return push_held(level, &CAN_STATISTICS, payload, out),
        FormatBy::Peer => return push_peer(level, payload, out),
        FormatBy::Value(shown) => push_value(*shown, payload, out)?,
        FormatBy::Plain => push_plain_bytes(payload, out)?,
        _ => {}
    }
    out.push(b'\n')?;
    Ok(())
}

/// Returns the list of a peer's attributes, with its table; none without a header.
fn peer_list<'a>(scope: Scope, payload: &'a [u8]) -> Option<(ListTable, &'a [u8])>
    ensures { option_map (λ f. (f.0, f.1.now)) result ≡ peer_list scope payload.now }
{
    if payload.len() < LINK_HEADER_LEN {
        return None;
    }
    let list_table = ListTable {
        table: family_table(payload[0]),
        scope: Scope {
            is_in_peer: true,
            is_request: scope.is_request,
        },
    };
    Some((list_table, &payload[LINK_HEADER_LEN..]))
}

/// Returns the list with a table that is shown below a name, if there is one.
fn list_of<'a>(scope: Scope, format: &Format, payload: &'a [u8]) -> Option<(ListTable, &'a [u8])>
    ensures { option_map (λ f. (f.0, f.1.now)) result
        ≡ inside_list scope (inside_of format.now) payload.now }
{
    let table = match format {
        FormatBy::Peer => return peer_list(scope, payload),
        FormatBy::List(_, table) => *table,
        FormatBy::LinkInfo => LINK_INFO,
        _ => return None,
    };
    Some((ListTable { table, scope }, payload))
}

/// Appends what follows an attribute's name, in the format that is known under the kinds in force, as
/// `push_payload` does. Returns the list with a table below the name, if there is one. It is out of
/// line, since inlined it would have `push_list` clear what it holds for each value too.
#[inline(never)]
fn push_known<'a>(
    level: usize,
    scope: Scope,
    force: InForce<'_>,
    format: &Format,
    payload: &'a [u8],
    out: &mut Vec<u8>,
) -> Result<Option<(ListTable, &'a [u8])>, AllocError>
    ensures appends { AppendsWith (length payload.now) out.old out.new result
        (inside_text level (within_reach level (known_inside scope (in_force force.entry)
        (inside_of format.now) payload.now)) payload.now
        ++ 10 ∷ header_inside level (within_reach level (known_inside scope (in_force force.entry)
        (inside_of format.now) payload.now)) payload.now) }
    ensures list { IfOk result (λ found. option_map (λ f. (f.0, f.1.now)) found
        ≡ inside_list scope (within_reach level (known_inside scope (in_force force.entry)
        (inside_of format.now) payload.now)) payload.now) }
{
    let known = known_format(scope, force, format, payload, out)?;
    let format = within_reach(level, or_format(&known, format));
    push_payload(level, format, payload, out)?;
    Ok(list_of(scope, format, payload))
}

/// Appends the line of an attribute, and the lines below it, but not those of a list with a table.
/// Returns that list, if the attribute holds one. Most attributes are values, which depend on no
/// kind in force.
#[tactic(auto, unfolding(crate::specs::Lists::attribute_lines, crate::specs::Lists::list_inside))]
fn push_attribute<'a>(
    level: usize,
    list_table: ListTable,
    force: InForce<'_>,
    attribute: Attribute<'a>,
    out: &mut Vec<u8>,
) -> Result<Option<(ListTable, &'a [u8])>, AllocError>
    requires { level ≤ deepest_level }
    ensures appends { AppendsWith (length attribute.entry.payload.now) out.old out.new result
        (attribute_lines level list_table (in_force force.entry) (attribute_of attribute.entry)) }
    ensures list { IfOk result (λ found. option_map (λ f. (f.0, f.1.now)) found
        ≡ list_inside level list_table (in_force force.entry) (attribute_of attribute.entry)) }
{
    push_indent(level, out)?;
    let Some((name, format)) = attribute_name_of(list_table.table, attribute.kind % KIND_BOUND)
    else {
        push_raw(level + 1, raw_table(list_table.table), attribute, out)?;
        return Ok(None);
    };
    out.extend_from_slice(name)?;
    if let FormatBy::Value(shown) = format {
        push_value(*shown, attribute.payload, out)?;
        out.push(b'\n')?;
        return Ok(None);
    }
    push_known(
        level + 1,
        list_table.scope,
        force,
        format,
        attribute.payload,
        out,
    )
}

/// Appends the lines of a list of attributes of a table, indented for this level. It calls itself for
/// lists that are deeper by a level, of which there are at most `DEEPEST_LEVEL`.
pub(crate) fn push_list(
    level: usize,
    list_table: ListTable,
    bytes: &[u8],
    out: &mut Vec<u8>,
) -> Result<(), AllocError>
    requires { level ≤ deepest_level }
    ensures { AppendsWith (length bytes.now) out.old out.new result (list_lines level list_table bytes.now) }
{
    lists_unfold_by_attributes();
    let mut rest = bytes;
    let mut force = NO_KINDS;
    while let Some((attribute, after)) = first_attribute(rest) {
        let found = push_attribute(level, list_table, force, attribute, out)?;
        force = force_after(list_table.table, force, attribute);
        rest = after;
        if let Some((inside, list)) = found {
            push_list(level + 1, inside, list, out)?;
        }
    }
    Ok(())
}
