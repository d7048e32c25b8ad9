//! The attributes at the start of a list that hold no others and are already canonical.

ghost use Rattle.std.specs.Prelude.{◌≡◌, ◌-◌, true, length, IfSome};
ghost use Rattle.attribute_tables_grammar.specs.LookUps.{table_row};
ghost use Rattle.link_interpreter.specs.Measures.{view};
ghost use Rattle.link_interpreter.specs.Prefixes.{IsCanonicalValue, PassesCanonical, canonical_measure};
ghost use Rattle.link_tables.specs.Rows.{form_of};
ghost use Rattle.link_tables.specs.Tables.{AreRowsOf, table_of};

use crate::attribute::{first_attribute, is_canonical_attribute};
use crate::measure::is_kept;
use crate::peers::PeerSet;
use crate::shapes::{Measured, NOTHING_YET, measure_shape};
use crate::tables::find_in;
use attribute_tables_grammar::laws::{
    canonical_lists_unfold, measures_determine_rules, measures_unfold,
};
use link_tables::{Form, Held, Table, TableRows, indexed_rows};

/// Returns the bytes after the attribute at the start of a list of this kind, if the list keeps it,
/// it holds no others, and it is already canonical.
#[inline(always)]
fn after_canonical<'a, P: PeerSet>(
    peers: &P,
    form: Form,
    rows: TableRows<'_>,
    bytes: &'a [u8],
) -> Option<&'a [u8]>
    ensures { (table : Table) → AreRowsOf table rows.entry → IfSome result
        (λ after. IsCanonicalValue (form_of form) (table_row P.peer (table_of table.0)) bytes.now after.now) }
{
    measures_determine_rules();
    let Some((attribute, after)) = first_attribute(bytes) else {
        return None;
    };
    if !is_canonical_attribute(bytes, attribute, after) || !is_kept(form, attribute.kind) {
        return None;
    }
    let found = find_in(peers, rows, attribute.kind);
    if found.kind != attribute.kind {
        return None;
    }
    let Held::Plain(shape) = found.held else {
        return None;
    };
    match measure_shape(shape, attribute.payload) {
        Some(inside) if inside.is_canonical => Some(after),
        _ => None,
    }
}

// Returns how many attributes at the start of a list of this kind hold no others and are already
// canonical, and the bytes after them. Not inlined, so that its loop's state stays in registers.
#[inline(never)]
fn count_canonical<'a, P: PeerSet>(
    peers: &P,
    form: Form,
    table: Table,
    bytes: &'a [u8],
) -> (u64, &'a [u8])
    ensures passed { PassesCanonical (form_of form) (table_row P.peer (table_of table.0)) bytes.now
        result.0 result.1.now }
{
    measures_unfold();
    canonical_lists_unfold();
    let rows = indexed_rows(table);
    let mut count = 0;
    let mut rest = bytes;
    while let Some(after) = after_canonical(peers, form, rows, rest) {
        count += 1;
        rest = after;
    }
    (count, rest)
}

/// Returns the measure of the attributes at the start of a list of this kind that hold no others and
/// are already canonical, and the bytes after them.
#[inline(always)]
pub(crate) fn skip_canonical<'a, P: PeerSet>(
    peers: &P,
    form: Form,
    table: Table,
    bytes: &'a [u8],
) -> (Measured, &'a [u8])
    ensures passed { PassesCanonical (form_of form) (table_row P.peer (table_of table.0)) bytes.now
        result.0.attributes result.1.now }
    ensures measure { view result.0
        ≡ canonical_measure (length bytes.now - length result.1.now) result.0.attributes }
    ensures already_canonical { result.0.is_canonical ≡ true }
{
    let (count, rest) = count_canonical(peers, form, table, bytes);
    let total = Measured {
        text_len: (bytes.len() - rest.len()) as u128,
        attributes: count,
        ..NOTHING_YET
    };
    (total, rest)
}
