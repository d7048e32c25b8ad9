//! Measures of lists, without typed values.

ghost use Rattle.std.specs.Prelude.{◌≡◌, ◌<◌, ◌+◌, ◌*◌, ◌^◌, ◌&&◌, ℕ, List, true, false, cond, nat_lt, option_map, IfSome};
ghost use Rattle.attribute_tables_grammar.specs.Lists.{is_kept, first_only, list_rule};
ghost use Rattle.attribute_tables_grammar.specs.LookUps.{payload_rule};
ghost use Rattle.attribute_tables_grammar.specs.Walks.{measure, plus, with_header, dropped, whole_measure};
ghost use Rattle.link_interpreter.specs.Prefixes.{IsCanonicalPrefix};
ghost use Rattle.link_interpreter.specs.Measures.{view, rows_of, table_list, info_list};
ghost use Rattle.link_tables.specs.Rows.{form_of};
ghost use Rattle.link_tables.specs.Tables.{held_rule, info_payload, table_of};

use crate::attribute::{KIND_BOUND, first_attribute, is_canonical_attribute};
use crate::canonical::skip_canonical;
use crate::info::{info_is_a_list_inside, link_info_is_lawful, written_info_kind};
use crate::peers::PeerSet;
use crate::shapes::{Measured, NOTHING_YET, measure_shape};
use crate::tables::{find, find_in};
use attribute_tables_grammar::laws::{
    canonical_lists_unfold, measures_determine_rules, measures_unfold, rows_are_looked_up,
};
use link_tables::{Form, Held, NO_KINDS, Table, indexed_rows, info_held, next_force};

/// Returns whether a list of this kind keeps an attribute of a kind, which may have flag bits.
pub fn is_kept(form: Form, kind: u16) -> bool
    ensures { (payload : List ℕ) → result
        ≡ is_kept (form_of form) (record { kind = kind; payload = payload }) }
{
    match form {
        Form::OfKindOne | Form::Ports => kind % KIND_BOUND == 1,
        Form::Any | Form::NonEmpty | Form::FirstOnly => true,
    }
}

/// Adds an attribute to a measure, from the measure of its payload. The flags are joined by `&`,
/// since `&&` in a struct literal splits the prover's goals.
pub fn with_attribute(total: Measured, inside: Measured, is_canonical: bool) -> Measured
    requires len { total.text_len + inside.text_len + 7 < 2 ^ 128 }
    requires headers { total.attributes + inside.attributes + 1 < 2 ^ 64 }
    ensures measure { view result ≡ plus (view total) (with_header (view inside)) }
    ensures already_canonical { result.is_canonical ≡ total.is_canonical && (inside.is_canonical && is_canonical) }
    ensures prefix { result.prefix ≡ 0 }
{
    let size = 4 + inside.text_len;
    Measured {
        text_len: total.text_len + (size + 3) / 4 * 4,
        attributes: total.attributes + (1 + inside.attributes),
        fits: total.fits & ((size <= 65535) & inside.fits),
        empty_ports: total.empty_ports | inside.empty_ports,
        is_canonical: total.is_canonical & (inside.is_canonical & is_canonical),
        prefix: 0,
    }
}

// Adds an attribute that its list drops to a measure.
fn with_dropped(total: Measured) -> Measured
    requires { total.attributes + 1 < 2 ^ 64 }
    ensures measure { view result ≡ plus (view total) dropped }
    ensures already_canonical { result.is_canonical ≡ false }
{
    Measured {
        text_len: total.text_len,
        attributes: total.attributes + 1,
        fits: total.fits,
        empty_ports: total.empty_ports,
        is_canonical: false,
        prefix: 0,
    }
}

// Completes the measure of a list: notes a list of ports that keeps no entry.
fn close(form: Form, total: Measured) -> Measured
    ensures measure { view result ≡ whole_measure (form_of form) (view total) }
    ensures already_canonical { result.is_canonical ≡ total.is_canonical }
{
    match form {
        Form::Ports => Measured {
            text_len: total.text_len,
            attributes: total.attributes,
            fits: total.fits,
            empty_ports: (total.text_len == 0) | total.empty_ports,
            is_canonical: total.is_canonical,
            prefix: 0,
        },
        _ => total,
    }
}

/// Returns the measure of bytes as the payload of a row; `None` if they aren't accepted.
#[cycle(measure)]
#[inline(always)]
pub fn measure_held<P: PeerSet>(peers: &P, held: Held, bytes: &[u8]) -> Option<Measured>
    ensures measure { option_map view result
        ≡ measure (held_rule P.peer held) bytes.now }
    ensures already_canonical { IfSome result
        (λ m. m.is_canonical ≡ true
        → (held_rule P.peer held).canonical bytes.now ≡ bytes.now) }
{
    match held {
        Held::Plain(shape) => measure_shape(shape, bytes),
        // The measure of a shape stays in registers, since no call gets a pointer to the result.
        _ => match measure_inside(peers, held, bytes) {
            Some(found) => Some(found),
            None => None,
        },
    }
}

// The same, for payloads that mostly hold attributes.
#[cycle(measure)]
#[inline(always)]
fn measure_inside<P: PeerSet>(peers: &P, held: Held, bytes: &[u8]) -> Option<Measured>
    ensures measure { option_map view result
        ≡ measure (held_rule P.peer held) bytes.now }
    ensures already_canonical { IfSome result
        (λ m. m.is_canonical ≡ true
        → (held_rule P.peer held).canonical bytes.now ≡ bytes.now) }
{
    rows_are_looked_up();
    match held {
        Held::Plain(shape) => measure_shape(shape, bytes),
        Held::Peer => peers.measure_peer(bytes),
        Held::LinkInfo => measure_link_info(peers, bytes),
        Held::List(form, table) => walk_list(peers, form, table, bytes),
    }
}

// The number of bytes after the canonical prefix, which grows only while all attributes are already
// canonical.
fn bytes_following(left: usize, is_canonical: bool, rest: usize) -> usize
    ensures { result ≡ cond is_canonical rest left }
{
    if is_canonical { rest } else { left }
}

// The measure of a whole list, with its canonical prefix of `prefix` bytes. One of 4 GiB or more
// isn't recorded.
fn with_prefix(found: Measured, prefix: usize) -> Measured
    ensures measure { view result ≡ view found }
    ensures already_canonical { result.is_canonical ≡ found.is_canonical }
    ensures prefix { result.prefix ≡ cond (nat_lt prefix (2 ^ 32)) prefix 0 }
{
    Measured {
        prefix: if prefix < 0x1_0000_0000 {
            prefix as u32
        } else {
            0
        },
        ..found
    }
}

/// Returns the measure of a list of this kind under a table, with its canonical prefix; `None` if
/// the bytes are none.
#[cycle(measure)]
pub fn walk_list<P: PeerSet>(peers: &P, form: Form, table: Table, bytes: &[u8]) -> Option<Measured>
    ensures measure { option_map view result
        ≡ measure (table_list P.peer (table_of table.0) form) bytes.now }
    ensures already_canonical { IfSome result
        (λ m. m.is_canonical ≡ true
        → (table_list P.peer (table_of table.0) form).canonical bytes.now ≡ bytes.now) }
    ensures prefix { IfSome result
        (λ m. IsCanonicalPrefix (table_list P.peer (table_of table.0) form) bytes.now m.prefix) }
{
    measures_unfold();
    measures_determine_rules();
    canonical_lists_unfold();
    match form {
        Form::FirstOnly => return measure_first(peers, table, bytes),
        Form::NonEmpty | Form::Ports => {
            if bytes.is_empty() {
                return None;
            }
        }
        Form::Any | Form::OfKindOne => {}
    }
    // Most attributes hold no others and are already canonical; these are passed without a measure.
    let (mut total, mut rest) = skip_canonical(peers, form, table, bytes);
    let mut left = rest.len();
    let rows = indexed_rows(table);
    while !rest.is_empty() {
        let Some((attribute, after)) = first_attribute(rest) else {
            return None;
        };
        if is_kept(form, attribute.kind) {
            let found = find_in(peers, rows, attribute.kind);
            let Some(inside) = measure_held(peers, found.held, attribute.payload) else {
                return None;
            };
            let is_canonical = is_canonical_attribute(rest, attribute, after);
            total = with_attribute(total, inside, is_canonical & (found.kind == attribute.kind));
            left = bytes_following(left, total.is_canonical, after.len());
        } else {
            total = with_dropped(total);
        }
        rest = after;
    }
    let found = close(form, total);
    match form {
        Form::Any => Some(with_prefix(found, bytes.len() - left)),
        _ => Some(with_prefix(found, 0)),
    }
}

// The measure of only the attribute at the start of the bytes, under a table.
#[cycle(measure)]
fn measure_first<P: PeerSet>(peers: &P, table: Table, bytes: &[u8]) -> Option<Measured>
    ensures measure { option_map view result
        ≡ measure (list_rule first_only (rows_of P.peer (table_of table.0))) bytes.now }
    ensures already_canonical { IfSome result
        (λ m. m.is_canonical ≡ true
        → (list_rule first_only (rows_of P.peer (table_of table.0))).canonical bytes.now ≡ bytes.now) }
    ensures prefix { IfSome result (λ m. m.prefix ≡ 0) }
{
    measures_unfold();
    measures_determine_rules();
    canonical_lists_unfold();
    let Some((attribute, after)) = first_attribute(bytes) else {
        return None;
    };
    let found = find(peers, table, attribute.kind);
    let Some(inside) = measure_held(peers, found.held, attribute.payload) else {
        return None;
    };
    let is_canonical = is_canonical_attribute(bytes, attribute, after);
    let is_whole = is_canonical & ((found.kind == attribute.kind) & after.is_empty());
    Some(with_attribute(NOTHING_YET, inside, is_whole))
}

// The measure of a payload as link info, which isn't empty.
#[cycle(measure)]
fn measure_link_info<P: PeerSet>(peers: &P, bytes: &[u8]) -> Option<Measured>
    ensures measure { option_map view result ≡ measure (payload_rule P.peer info_payload) bytes.now }
    ensures already_canonical { IfSome result
        (λ m. m.is_canonical ≡ true
        → (payload_rule P.peer info_payload).canonical bytes.now ≡ bytes.now) }
{
    measures_determine_rules();
    info_is_a_list_inside(peers);
    if bytes.is_empty() {
        None
    } else {
        measure_info(peers, bytes)
    }
}

/// Returns the measure of a list of link info; `None` if the bytes are none.
#[cycle(measure)]
pub fn measure_info<P: PeerSet>(peers: &P, bytes: &[u8]) -> Option<Measured>
    ensures measure { option_map view result ≡ measure (info_list P.peer) bytes.now }
    ensures already_canonical { IfSome result
        (λ m. m.is_canonical ≡ true → (info_list P.peer).canonical bytes.now ≡ bytes.now) }
{
    link_info_is_lawful(peers);
    measures_unfold();
    canonical_lists_unfold();
    let mut rest = bytes;
    let mut total = NOTHING_YET;
    let mut force = NO_KINDS;
    while !rest.is_empty() {
        let Some((attribute, after)) = first_attribute(rest) else {
            return None;
        };
        let kind = attribute.kind % KIND_BOUND;
        let Some(held) = info_held(force, kind) else {
            return None;
        };
        let Some(inside) = measure_held(peers, held, attribute.payload) else {
            return None;
        };
        let is_canonical = is_canonical_attribute(rest, attribute, after);
        let is_canonical_kind = is_canonical
            & (written_info_kind(attribute.kind) == attribute.kind);
        total = with_attribute(total, inside, is_canonical_kind);
        force = next_force(force, kind, attribute.payload);
        rest = after;
    }
    Some(total)
}
