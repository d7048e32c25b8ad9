//! A walk to the first attribute that isn't accepted.

ghost use Rattle.std.specs.Prelude.{◌≡◌, ◌≤◌, ◌<◌, ◌+◌, ◌^◌, cond, length, None, Some, IfSome};
ghost use Rattle.link_tables.specs.Rows.{shape_of};
ghost use Rattle.link_interpreter.specs.Sameness.{attribute_of};
ghost use Rattle.attribute_tables_grammar.specs.Shapes.{accepts};
ghost use Rattle.link_capture_refusals.specs.ReasonTexts.{shape_reason};
ghost use Rattle.link_capture_walks.specs.Listings.{listing};
ghost use Rattle.link_capture_lists.specs.ListTables.{depth, inside_depth};
ghost use Rattle.link_capture_lists.specs.RowRules.{inside_rule, peer_of};
ghost use Rattle.link_capture_refusals.specs.Refusals.{attribute_refusal, found_at, inside_refusal, link_refusal};
ghost use Rattle.link_capture_refusals.specs.Refusals.{list_refusal, no_attribute, peer_refusal, whole_refusal};
ghost use Rattle.link_capture_refusals.specs.RefusalViews.{optional_found};

use crate::laws::{links_are_accepted, lists_are_accepted, lists_unfold_by_attributes};
use crate::reason::{Reason, missing_reason, shape_reason};
use crate::refusal::Refusal;
use attribute_tables_grammar::laws::measures_determine_rules;
use link_capture_lists::laws::rows_are_the_tables;
use link_capture_lists::{Inside, ListTable, list_rest, next_list, row_in, whole};
use link_capture_walks::Listed;
use link_interpreter::{Attribute, KIND_BOUND, PeerSet, first_attribute, is_kept, measure_shape};
use link_message_checks::{LinkPeer, has_empty_ports};
use link_tables::{Form, LINK_HEADER_LEN, Shape, family_table};
use netlink_packet_core::nla_align;
use netlink_packet_core_attributes::view::read_u16;

/// Returns the reason why these bytes don't begin with an attribute.
fn no_attribute(bytes: &[u8]) -> Reason
    ensures { result ≡ no_attribute bytes.now }
{
    if bytes.len() < 4 {
        Reason::CutHeader(bytes.len())
    } else {
        Reason::WrongLength(bytes.len(), read_u16(bytes, 0))
    }
}

/// Returns the refusal of a value in the attribute at `attribute_offset`.
fn value_refusal(shape: Shape, attribute_offset: u64, payload: &[u8]) -> Option<Refusal>
    ensures found { optional_found result ≡ cond (accepts (shape_of shape) payload.now) None
        (Some (found_at attribute_offset (shape_reason shape (length payload.now)))) }
    ensures bare { IfSome result (λ r. length r.path.items ≡ 0) }
{
    measures_determine_rules();
    if measure_shape(shape, payload).is_some() {
        return None;
    }
    Some(Refusal::at(attribute_offset, shape_reason(shape, payload.len())))
}

/// Returns the refusal of a link's body at `offset`: of its header, or of one of its attributes.
#[cycle(refusal)]
pub(crate) fn link_refusal(
    judged: bool,
    attribute_offset: u64,
    offset: u64,
    body: &[u8],
) -> Option<Refusal>
    requires near { offset + length body.now < 2 ^ 63 }
    ensures found { optional_found result ≡ link_refusal list_refusal judged attribute_offset offset body.now }
    ensures path_fits { IfSome result (λ r. length r.path.items ≤ cond judged 7 4) }
{
    if body.len() < LINK_HEADER_LEN {
        return Some(Refusal::at(attribute_offset, Reason::CutLink(body.len())));
    }
    let list = whole(Form::Any, family_table(body[0]), judged);
    list_refusal(list, offset + 16, &body[LINK_HEADER_LEN..])
}

/// Returns the refusal of a peer in the attribute at `attribute_offset`.
#[cycle(refusal)]
fn peer_refusal(judged: bool, attribute_offset: u64, payload: &[u8]) -> Option<Refusal>
    requires near { attribute_offset + 4 + length payload.now < 2 ^ 63 }
    ensures found { optional_found result
        ≡ cond ((peer_of judged).accepted payload.now) None (peer_refusal list_refusal attribute_offset payload.now) }
    ensures path_fits { IfSome result (λ r. length r.path.items ≤ cond judged 4 0) }
{
    measures_determine_rules();
    links_are_accepted();
    if !judged || LinkPeer.measure_peer(payload).is_some() {
        return None;
    }
    let found = link_refusal(false, attribute_offset, attribute_offset + 4, payload);
    if found.is_some() {
        return found;
    }
    if has_empty_ports(payload) {
        return Some(Refusal::at(attribute_offset, Reason::EmptyPorts));
    }
    Some(Refusal::at(attribute_offset, Reason::Unfit))
}

/// Returns the refusal of a list in the attribute at `attribute_offset`.
#[cycle(refusal)]
fn whole_refusal(
    list: Listed<'_, ListTable>,
    attribute_offset: u64,
    payload: &[u8],
) -> Option<Refusal>
    requires near { attribute_offset + 4 + length payload.now < 2 ^ 63 }
    ensures found { optional_found result
        ≡ whole_refusal list_refusal (listing list.entry) attribute_offset payload.now }
    ensures path_fits { IfSome result
        (λ r. length r.path.items ≤ depth list.entry.judged list.entry.table.rows.0) }
{
    if !payload.is_empty() {
        return list_refusal(list, attribute_offset + 4, payload);
    }
    match list.table.form {
        Form::NonEmpty | Form::Ports => Some(Refusal::at(attribute_offset, Reason::EmptyList)),
        Form::FirstOnly => Some(Refusal::at(attribute_offset + 4, Reason::CutHeader(0))),
        Form::Any | Form::OfKindOne => None,
    }
}

/// Returns the refusal of a payload in the attribute at `attribute_offset`.
#[cycle(refusal)]
fn inside_refusal(
    judged: bool,
    inside: Inside,
    attribute_offset: u64,
    payload: &[u8],
) -> Option<Refusal>
    requires near { attribute_offset + 4 + length payload.now < 2 ^ 63 }
    ensures found { optional_found result ≡ cond ((inside_rule judged inside).accepted payload.now) None
        (inside_refusal list_refusal judged inside attribute_offset payload.now) }
    ensures path_fits { IfSome result (λ r. length r.path.items ≤ inside_depth judged inside) }
{
    lists_are_accepted();
    match inside {
        Inside::Refused(missing) => Some(Refusal::at(attribute_offset, missing_reason(missing))),
        Inside::Value(shape) => value_refusal(shape, attribute_offset, payload),
        Inside::List(form, table) => whole_refusal(
            whole(form, table, judged),
            attribute_offset,
            payload,
        ),
        Inside::Peer => peer_refusal(judged, attribute_offset, payload),
    }
}

/// Returns the refusal of an attribute at `offset`.
#[cycle(refusal)]
fn attribute_refusal(
    list: Listed<'_, ListTable>,
    offset: u64,
    attribute: Attribute<'_>,
) -> Option<Refusal>
    requires near { offset + 4 + length attribute.payload.now < 2 ^ 63 }
    ensures found { optional_found result ≡ attribute_refusal list_refusal (listing list.entry) offset
        (attribute_of attribute.entry) }
    ensures path_fits { IfSome result
        (λ r. length r.path.items ≤ depth list.entry.judged list.entry.table.rows.0) }
{
    rows_are_the_tables();
    if !is_kept(list.table.form, attribute.kind) {
        return None;
    }
    let Some((name, inside)) = row_in(list, attribute.kind % KIND_BOUND) else {
        return None;
    };
    match inside_refusal(list.judged, inside, offset, attribute.payload) {
        Some(found) => Some(found.inside(name)),
        None => None,
    }
}

/// Returns the refusal of a list whose bytes begin at `offset`.
#[cycle(refusal)]
fn list_refusal(list: Listed<'_, ListTable>, offset: u64, bytes: &[u8]) -> Option<Refusal>
    requires near { offset + length bytes.now < 2 ^ 63 }
    ensures found { optional_found result ≡ list_refusal (listing list.entry) offset bytes.now }
    ensures path_fits { IfSome result
        (λ r. length r.path.items ≤ depth list.entry.judged list.entry.table.rows.0) }
{
    lists_unfold_by_attributes();
    let mut list = list;
    let mut offset = offset;
    let mut rest = bytes;
    while !rest.is_empty() {
        let Some((attribute, after)) = first_attribute(rest) else {
            return Some(Refusal::at(offset, no_attribute(rest)));
        };
        let found = attribute_refusal(list, offset, attribute);
        if found.is_some() {
            return found;
        }
        list = next_list(list, attribute.kind, attribute.payload);
        offset += nla_align(4 + attribute.payload.len()) as u64;
        rest = list_rest(list.table.form, after);
    }
    None
}
