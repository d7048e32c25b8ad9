//! Bodies of link messages and their attributes, under a set of peers.

ghost use Rattle.std.specs.Prelude.{◌≡◌, ◌≤◌, ◌+◌, ◌-◌, ◌^◌, ◌++◌, ◌&&◌, nat_lt, true, cond, length, option_map, vec_capacity, IfSome};
ghost use Rattle.attribute_tables_grammar.specs.Walks.{measure};
ghost use Rattle.link_message_grammar.specs.Laws.{BodyLaws};
ghost use Rattle.link_message_grammar.specs.LinkMessage.{family_of};
ghost use Rattle.link_message_grammar.specs.Body.{body_rule, attributes_rule};
ghost use Rattle.link_interpreter.specs.Measures.{view};
ghost use Rattle.link_interpreter.specs.Prefixes.{IsCanonicalPrefix};
ghost use Rattle.link_message_checks.specs.Prefixes.{IsBodyPrefix};
ghost use Rattle.link_interpreter.specs.Capacity.{HasCapacity};

use crate::header::{is_canonical_header, same_header, write_header};
use attribute_tables_grammar::laws::{measures_determine_rules, rows_are_looked_up};
use link_interpreter::{Measured, PeerSet, WritePeer, append, same_held, walk_list, write_held};
use link_message_grammar::laws::{
    bodies_are_measured, bodies_are_small, body_laws_hold_for_any_peers,
};
use link_tables::{Form, Held, LINK_HEADER_LEN, family_table};

// States the laws of bodies under these peers for the prover; the body is empty.
pub(crate) fn body_laws_hold<P: PeerSet>(peers: &P)
    ensures { BodyLaws P.peer }
{
    body_laws_hold_for_any_peers();
    peers.peers_are_lawful();
}

// Walks the attributes of a family under these peers. Returns their measure, which has the size of
// their canonical prefix; None if they aren't accepted.
pub(crate) fn walk_attributes<P: PeerSet>(peers: &P, family: u8, bytes: &[u8]) -> Option<Measured>
    ensures measure { option_map view result
        ≡ measure (attributes_rule P.peer (family_of family)) bytes.now }
    ensures already_canonical { IfSome result
        (λ m. m.is_canonical ≡ true
        → (attributes_rule P.peer (family_of family)).canonical bytes.now ≡ bytes.now) }
    ensures prefix { IfSome result
        (λ m. IsCanonicalPrefix (attributes_rule P.peer (family_of family)) bytes.now m.prefix) }
{
    rows_are_looked_up();
    walk_list(peers, Form::Any, family_table(family), bytes)
}

// Returns the size of the canonical prefix of a body, from that of its attributes.
fn prefix_of(is_canonical_header: bool, prefix: u32) -> u32
    ensures { result ≡ cond (is_canonical_header && nat_lt prefix (2 ^ 32 - 16)) (16 + prefix) 0 }
{
    if is_canonical_header && prefix < 0xffff_fff0 {
        16 + prefix
    } else {
        0
    }
}

// Walks a body under these peers. Returns all that one walk finds; None if it isn't accepted.
pub(crate) fn walk_body_over<P: PeerSet>(peers: &P, bytes: &[u8]) -> Option<Measured>
    ensures measure { option_map view result ≡ measure (body_rule P.peer) bytes.now }
    ensures already_canonical { IfSome result
        (λ m. m.is_canonical ≡ true → (body_rule P.peer).canonical bytes.now ≡ bytes.now) }
    ensures prefix { IfSome result (λ m. IsBodyPrefix P.peer bytes.now m.prefix) }
{
    bodies_are_measured();
    if bytes.len() < LINK_HEADER_LEN {
        return None;
    }
    let Some(found) = walk_attributes(peers, bytes[0], &bytes[LINK_HEADER_LEN..]) else {
        return None;
    };
    measures_determine_rules();
    bodies_are_small();
    peers.peers_are_lawful();
    let is_canonical_header = is_canonical_header(bytes);
    Some(Measured {
        text_len: 16 + found.text_len,
        attributes: found.attributes,
        fits: found.fits,
        empty_ports: found.empty_ports,
        // `&`, since `&&` in a struct literal splits the prover's goals.
        is_canonical: found.is_canonical & is_canonical_header,
        prefix: prefix_of(is_canonical_header, found.prefix),
    })
}

// Returns whether two lists of attributes of a family under these peers mean the same.
fn same_attributes<P: PeerSet>(peers: &P, family: u8, left: &[u8], right: &[u8]) -> bool
    ensures { result ≡ (attributes_rule P.peer (family_of family)).same left.now right.now }
{
    let held = Held::List(Form::Any, family_table(family));
    same_held(peers, held, left, right)
}

// Returns whether two bodies under these peers mean the same. Each has at least the bytes of a
// header.
pub(crate) fn same_body_over<P: PeerSet>(peers: &P, left: &[u8], right: &[u8]) -> bool
    requires left { 16 ≤ length left.now }
    requires right { 16 ≤ length right.now }
    ensures { result ≡ (body_rule P.peer).same left.now right.now }
{
    body_laws_hold(peers);
    same_header(left, right)
        && same_attributes(
            peers,
            left[0],
            &left[LINK_HEADER_LEN..],
            &right[LINK_HEADER_LEN..],
        )
}

// Appends the canonical text of attributes of a family under these peers.
fn write_attributes<P: WritePeer>(peers: &P, family: u8, bytes: &[u8], out: &mut Vec<u8>)
    requires accepted { (attributes_rule P.peer (family_of family)).accepted bytes.now ≡ true }
    requires fits { (attributes_rule P.peer (family_of family)).fits bytes.now ≡ true }
    requires capacity { HasCapacity out.old ((attributes_rule P.peer (family_of family)).canonical bytes.now) }
    ensures text { out.new.items
        ≡ out.old.items ++ (attributes_rule P.peer (family_of family)).canonical bytes.now }
    ensures capacity { vec_capacity out.old ≤ vec_capacity out.new }
{
    let held = Held::List(Form::Any, family_table(family));
    write_held(peers, held, bytes, out);
}

// Appends the canonical text of an accepted body that fits, under these peers. Its first `prefix`
// bytes are known to be canonical; `out` has to have capacity for the text.
pub(crate) fn write_body_over<P: WritePeer>(
    peers: &P,
    bytes: &[u8],
    prefix: usize,
    out: &mut Vec<u8>,
)
    requires accepted { (body_rule P.peer).accepted bytes.now ≡ true }
    requires fits { (body_rule P.peer).fits bytes.now ≡ true }
    requires prefix { IsBodyPrefix P.peer bytes.now prefix }
    requires capacity { HasCapacity out.old ((body_rule P.peer).canonical bytes.now) }
    ensures text { out.new.items ≡ out.old.items ++ (body_rule P.peer).canonical bytes.now }
    ensures capacity { vec_capacity out.old ≤ vec_capacity out.new }
{
    body_laws_hold(peers);
    if prefix < LINK_HEADER_LEN {
        write_header(bytes, out);
        write_attributes(peers, bytes[0], &bytes[LINK_HEADER_LEN..], out);
    } else {
        append(&bytes[..prefix], out);
        write_attributes(peers, bytes[0], &bytes[prefix..], out);
    }
}
