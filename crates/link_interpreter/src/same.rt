//! Whether two lists are equivalent, decided on their bytes, without typed values.

ghost use Rattle.std.specs.Prelude.{◌≡◌, true, is_some, IfSome};
ghost use Rattle.netlink_packet_core_grammar.specs.Attributes.{proper_kind};
ghost use Rattle.attribute_tables_grammar.specs.Lists.{first_only, list_rule, row_of, same_attribute};
ghost use Rattle.attribute_tables_grammar.specs.LookUps.{payload_rule, table_row};
ghost use Rattle.attribute_tables_grammar.specs.Sameness.{kept_of, same_kind_by_first_row};
ghost use Rattle.link_interpreter.specs.Measures.{info_list, info_names, rows_of, table_list};
ghost use Rattle.link_interpreter.specs.Sameness.{IsShorter, attribute_of, next_of};
ghost use Rattle.link_tables.specs.InForce.{in_force};
ghost use Rattle.link_tables.specs.Rows.{form_of};
ghost use Rattle.link_tables.specs.Tables.{held_rule, info_payload, table_of};

use crate::attribute::{Attribute, KIND_BOUND, first_attribute};
use crate::info::{are_same_info_kinds, info_is_a_list_inside};
use crate::measure::is_kept;
use crate::peers::PeerSet;
use crate::same_shapes::same_shape;
use crate::tables::find;
use attribute_tables_grammar::laws::{
    attributes_are_compared, kept_attributes_unfold, rows_are_looked_up, sameness_unfolds,
};
use link_tables::{Form, Held, InForce, NO_KINDS, Table, info_held, next_force};

/// The next attribute of a list.
#[derive(Clone, Copy)]
pub enum Next<'a> {
    /// An attribute that the list keeps, and the bytes after it.
    Kept(Attribute<'a>, &'a [u8]),
    End,
    /// The bytes begin with no attribute.
    Cut,
}

// The next attribute that a list of this kind keeps.
fn next_kept(form: Form, bytes: &[u8]) -> Next<'_>
    ensures kept { kept_of (form_of form) bytes.now ≡ next_of (form_of form) result }
    ensures shorter { IsShorter bytes.now result }
{
    kept_attributes_unfold();
    let mut rest = bytes;
    while !rest.is_empty() {
        let Some((attribute, after)) = first_attribute(rest) else {
            return Next::Cut;
        };
        if is_kept(form, attribute.kind) {
            return Next::Kept(attribute, after);
        }
        rest = after;
    }
    Next::End
}

// The common payload of two attributes under a table, if their kinds, which may have flag bits, are
// equal.
fn held_by_both<P: PeerSet>(peers: &P, table: Table, left: u16, right: u16) -> Option<Held>
    ensures kinds { is_some result
        ≡ same_kind_by_first_row (table_row P.peer (table_of table.0) (proper_kind left)) left right }
    ensures rule { IfSome result
        (λ held. held_rule P.peer held
        ≡ (table_row P.peer (table_of table.0) (proper_kind left)).rule) }
{
    let found = find(peers, table, left);
    if left == right || found.is_typed && left % KIND_BOUND == right % KIND_BOUND {
        Some(found.held)
    } else {
        None
    }
}

/// Returns whether two payloads of a row are equivalent. The result is meaningful if both are
/// accepted.
#[cycle(same)]
#[inline(always)]
pub fn same_held<P: PeerSet>(peers: &P, held: Held, left: &[u8], right: &[u8]) -> bool
    ensures { result
        ≡ (held_rule P.peer held).same left.now right.now }
{
    rows_are_looked_up();
    match held {
        Held::Plain(shape) => same_shape(shape, left, right),
        Held::Peer => peers.same_peer(left, right),
        Held::LinkInfo => same_link_info(peers, left, right),
        Held::List(form, table) => same_list(peers, form, table, left, right),
    }
}

// Whether two lists of this kind under a table are equivalent.
#[cycle(same)]
fn same_list<P: PeerSet>(peers: &P, form: Form, table: Table, left: &[u8], right: &[u8]) -> bool
    ensures { result ≡ (table_list P.peer (table_of table.0) form).same
        left.now right.now }
{
    sameness_unfolds();
    attributes_are_compared();
    match form {
        Form::FirstOnly => return same_first(peers, table, left, right),
        Form::NonEmpty | Form::Ports => {
            if left.is_empty() || right.is_empty() {
                return false;
            }
        }
        Form::Any | Form::OfKindOne => {}
    }
    let mut rest = left;
    let mut other = right;
    loop {
        match (next_kept(form, rest), next_kept(form, other)) {
            (Next::Kept(a, after), Next::Kept(b, following)) => {
                let Some(held) = held_by_both(peers, table, a.kind, b.kind) else {
                    return false;
                };
                if !same_held(peers, held, a.payload, b.payload) {
                    return false;
                }
                rest = after;
                other = following;
            }
            (Next::End, Next::End) => return true,
            _ => return false,
        }
    }
}

// Whether the first attributes of two lists are equivalent under a table.
#[cycle(same)]
fn same_first<P: PeerSet>(peers: &P, table: Table, left: &[u8], right: &[u8]) -> bool
    ensures { result ≡ (list_rule first_only (rows_of P.peer (table_of table.0))).same
        left.now right.now }
{
    sameness_unfolds();
    attributes_are_compared();
    let Some((a, _)) = first_attribute(left) else {
        return false;
    };
    let Some((b, _)) = first_attribute(right) else {
        return false;
    };
    match held_by_both(peers, table, a.kind, b.kind) {
        Some(held) => same_held(peers, held, a.payload, b.payload),
        None => false,
    }
}

// Whether two payloads are equivalent as link info, neither empty.
#[cycle(same)]
fn same_link_info<P: PeerSet>(peers: &P, left: &[u8], right: &[u8]) -> bool
    ensures { result ≡ (payload_rule P.peer info_payload).same left.now right.now }
{
    sameness_unfolds();
    info_is_a_list_inside(peers);
    if left.is_empty() || right.is_empty() {
        false
    } else {
        same_info(peers, left, right)
    }
}

// Whether two attributes of link info are equivalent, with these kinds in force before both.
#[cycle(same)]
fn same_in_force<P: PeerSet>(
    peers: &P,
    force: InForce<'_>,
    left: Attribute<'_>,
    right: Attribute<'_>,
) -> bool
    ensures { result ≡ same_attribute
        (row_of (info_names P.peer) (in_force force.entry) (attribute_of left.entry))
        (row_of (info_names P.peer) (in_force force.entry) (attribute_of right.entry))
        (attribute_of left.entry) (attribute_of right.entry) }
{
    attributes_are_compared();
    if !are_same_info_kinds(left.kind, right.kind) {
        return false;
    }
    match info_held(force, left.kind % KIND_BOUND) {
        Some(held) => same_held(peers, held, left.payload, right.payload),
        None => left.payload == right.payload,
    }
}

/// Returns whether two lists of link info are equivalent. The result is meaningful if both are
/// accepted.
#[cycle(same)]
pub fn same_info<P: PeerSet>(peers: &P, left: &[u8], right: &[u8]) -> bool
    ensures { result ≡ (info_list P.peer).same left.now right.now }
{
    kept_attributes_unfold();
    sameness_unfolds();
    attributes_are_compared();
    let mut rest = left;
    let mut other = right;
    let mut force = NO_KINDS;
    while !rest.is_empty() {
        let Some((a, after)) = first_attribute(rest) else {
            return false;
        };
        let Some((b, following)) = first_attribute(other) else {
            return false;
        };
        if !same_in_force(peers, force, a, b) {
            return false;
        }
        force = next_force(force, a.kind % KIND_BOUND, a.payload);
        rest = after;
        other = following;
    }
    other.is_empty()
}
