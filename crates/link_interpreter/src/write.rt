//! Writes canonical encodings directly from accepted bytes.

ghost use Rattle.std.specs.Prelude.{◌≡◌, ◌≤◌, ◌+◌, ◌-◌, ◌++◌, true, length, vec_capacity};
ghost use Rattle.netlink_packet_core_grammar.specs.Attributes.{attribute_text};
ghost use Rattle.attribute_tables_grammar.specs.Lists.{first_only, list_rule};
ghost use Rattle.attribute_tables_grammar.specs.LookUps.{payload_rule};
ghost use Rattle.attribute_tables_grammar.specs.Writing.{IsWritable};
ghost use Rattle.link_interpreter.specs.Measures.{info_list, rows_of, table_list};
ghost use Rattle.link_interpreter.specs.Capacity.{HasCapacity};
ghost use Rattle.link_tables.specs.Tables.{held_rule, info_payload, table_of};

use crate::attribute::{KIND_BOUND, first_attribute};
use crate::capacity::{append, append_padding, write_header};
use crate::info::{info_is_a_list_inside, written_info_kind};
use crate::measure::is_kept;
use crate::peers::WritePeer;
use crate::tables::{find, find_in};
use crate::write_shapes::write_shape;
use attribute_tables_grammar::laws::{
    measures_determine_rules, rows_are_looked_up, writing_unfolds,
};
use link_tables::{Form, Held, NO_KINDS, Table, indexed_rows, info_held, next_force};

/// Appends the canonical encoding of an accepted payload that fits; `out` has to have the capacity.
#[cycle(write)]
#[inline(always)]
pub fn write_held<P: WritePeer>(peers: &P, held: Held, bytes: &[u8], out: &mut Vec<u8>)
    requires accepted { (held_rule P.peer held).accepted bytes.now
        ≡ true }
    requires fits { (held_rule P.peer held).fits bytes.now ≡ true }
    requires capacity { HasCapacity out.old ((held_rule P.peer held).canonical bytes.now) }
    ensures text { out.new.items ≡ out.old.items
        ++ (held_rule P.peer held).canonical bytes.now }
    ensures capacity { vec_capacity out.old ≤ vec_capacity out.new }
{
    match held {
        Held::Plain(shape) => write_shape(shape, bytes, out),
        // The shape stays in registers, since no call gets a pointer to it.
        _ => write_inside(peers, held, bytes, out),
    }
}

// The same, for payloads that mostly hold attributes.
#[cycle(write)]
fn write_inside<P: WritePeer>(peers: &P, held: Held, bytes: &[u8], out: &mut Vec<u8>)
    requires accepted { (held_rule P.peer held).accepted bytes.now
        ≡ true }
    requires fits { (held_rule P.peer held).fits bytes.now ≡ true }
    requires capacity { HasCapacity out.old ((held_rule P.peer held).canonical bytes.now) }
    ensures text { out.new.items ≡ out.old.items
        ++ (held_rule P.peer held).canonical bytes.now }
    ensures capacity { vec_capacity out.old ≤ vec_capacity out.new }
{
    rows_are_looked_up();
    match held {
        Held::Plain(shape) => write_shape(shape, bytes, out),
        Held::Peer => peers.write_peer(bytes, out),
        Held::LinkInfo => write_link_info(peers, bytes, out),
        Held::List(form, table) => write_list(peers, form, table, bytes, out),
    }
}

/// Appends an attribute of this kind, with the canonical encoding of an accepted payload that fits.
/// Its length is written after the payload.
#[cycle(write)]
#[inline(always)]
pub fn write_attribute<P: WritePeer>(
    peers: &P,
    held: Held,
    kind: u16,
    payload: &[u8],
    out: &mut Vec<u8>,
)
    requires writable { IsWritable (held_rule P.peer held) payload.now
        (vec_capacity out.old - length out.old.items) }
    ensures text { out.new.items ≡ out.old.items ++ attribute_text (record {
      kind = kind;
      payload = (held_rule P.peer held).canonical payload.now;
    }) }
    ensures capacity { vec_capacity out.old ≤ vec_capacity out.new }
{
    let start = out.len();
    append(&[0, 0, 0, 0], out);
    write_held(peers, held, payload, out);
    let size = out.len() - start - 4;
    write_header(start, kind, size, out);
    append_padding(4 + size, out);
}

// Appends the canonical encoding of an accepted list of this kind under a table.
#[cycle(write)]
fn write_list<P: WritePeer>(peers: &P, form: Form, table: Table, bytes: &[u8], out: &mut Vec<u8>)
    requires accepted { (table_list P.peer (table_of table.0) form).accepted bytes.now
        ≡ true }
    requires fits { (table_list P.peer (table_of table.0) form).fits bytes.now ≡ true }
    requires capacity { HasCapacity out.old ((table_list P.peer (table_of table.0) form).canonical bytes.now) }
    ensures text { out.new.items ≡ out.old.items
        ++ (table_list P.peer (table_of table.0) form).canonical bytes.now }
    ensures capacity { vec_capacity out.old ≤ vec_capacity out.new }
{
    if let Form::FirstOnly = form {
        return write_first(peers, table, bytes, out);
    }
    measures_determine_rules();
    writing_unfolds();
    let mut rest = bytes;
    let rows = indexed_rows(table);
    while !rest.is_empty() {
        let Some((attribute, after)) = first_attribute(rest) else {
            unreachable!();
        };
        if is_kept(form, attribute.kind) {
            let found = find_in(peers, rows, attribute.kind);
            write_attribute(peers, found.held, found.kind, attribute.payload, out);
        }
        rest = after;
    }
}

// Appends the canonical encoding of an accepted list of only its first attribute, under a table.
#[cycle(write)]
fn write_first<P: WritePeer>(peers: &P, table: Table, bytes: &[u8], out: &mut Vec<u8>)
    requires accepted { (list_rule first_only (rows_of P.peer (table_of table.0))).accepted bytes.now
        ≡ true }
    requires fits { (list_rule first_only (rows_of P.peer (table_of table.0))).fits bytes.now ≡ true }
    requires capacity { HasCapacity out.old ((list_rule first_only (rows_of P.peer (table_of table.0))).canonical bytes.now) }
    ensures text { out.new.items ≡ out.old.items
        ++ (list_rule first_only (rows_of P.peer (table_of table.0))).canonical bytes.now }
    ensures capacity { vec_capacity out.old ≤ vec_capacity out.new }
{
    writing_unfolds();
    let Some((attribute, _)) = first_attribute(bytes) else {
        unreachable!();
    };
    let found = find(peers, table, attribute.kind);
    write_attribute(peers, found.held, found.kind, attribute.payload, out);
}

// Appends the canonical encoding of accepted link info that fits; `out` has to have the capacity.
#[cycle(write)]
fn write_link_info<P: WritePeer>(peers: &P, bytes: &[u8], out: &mut Vec<u8>)
    requires accepted { (payload_rule P.peer info_payload).accepted bytes.now ≡ true }
    requires fits { (payload_rule P.peer info_payload).fits bytes.now ≡ true }
    requires capacity { HasCapacity out.old ((payload_rule P.peer info_payload).canonical bytes.now) }
    ensures text { out.new.items ≡ out.old.items ++ (payload_rule P.peer info_payload).canonical bytes.now }
    ensures capacity { vec_capacity out.old ≤ vec_capacity out.new }
{
    info_is_a_list_inside(peers);
    write_info(peers, bytes, out);
}

/// Appends the canonical encoding of an accepted list of link info that fits; `out` has to have the
/// capacity.
#[cycle(write)]
pub fn write_info<P: WritePeer>(peers: &P, bytes: &[u8], out: &mut Vec<u8>)
    requires accepted { (info_list P.peer).accepted bytes.now ≡ true }
    requires fits { (info_list P.peer).fits bytes.now ≡ true }
    requires capacity { HasCapacity out.old ((info_list P.peer).canonical bytes.now) }
    ensures text { out.new.items ≡ out.old.items ++ (info_list P.peer).canonical bytes.now }
    ensures capacity { vec_capacity out.old ≤ vec_capacity out.new }
{
    writing_unfolds();
    let mut rest = bytes;
    let mut force = NO_KINDS;
    while !rest.is_empty() {
        let Some((attribute, after)) = first_attribute(rest) else {
            unreachable!();
        };
        let kind = attribute.kind % KIND_BOUND;
        let Some(held) = info_held(force, kind) else {
            unreachable!();
        };
        let written_kind = written_info_kind(attribute.kind);
        write_attribute(peers, held, written_kind, attribute.payload, out);
        force = next_force(force, kind, attribute.payload);
        rest = after;
    }
}
