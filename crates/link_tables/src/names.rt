//! Names of kinds, and the payloads of data under them.

ghost use Rattle.std.specs.Prelude.{◌≡◌, ◌≤◌, ℕ, true, bytes_eq, take};
ghost use Rattle.attribute_tables_grammar.specs.LookUps.{payload_rule, payload_at, rule_or_raw};
ghost use Rattle.attribute_tables_grammar.specs.Peers.{RuleOfPeers};
ghost use Rattle.attribute_tables_grammar.specs.Tables.{Payload, Table};
ghost use Rattle.link_tables.specs.Names.{names_of, held_by_name, names_fit};
ghost use Rattle.link_tables.specs.Rows.{payload_of};

use crate::rows::{Held, Shape};

/// A name of at most 12 bytes, by its length and its bytes, and the payload of data under it.
#[derive(Clone, Copy)]
pub struct NameRow(pub u8, pub [u8; 12], pub Held);

fn has_name(row: NameRow, name: &[u8]) -> bool
    requires { row.0 ≤ 12 }
    ensures { result ≡ bytes_eq name.now (take row.0 row.1) }
{
    let NameRow(len, text, _) = row;
    name == &text[..len as usize]
}

// A loop over a slice, since the prover repeats a constant table inside a loop in each goal.
fn find_name(rows: &[NameRow], name: &[u8]) -> Held
    requires { names_fit rows.now ≡ true }
    ensures { result ≡ held_by_name rows.now name.now }
{
    for row in rows {
        let row = *row;
        if has_name(row, name) {
            return row.2;
        }
    }
    Held::Plain(Shape::Raw)
}

/// Returns the payload of data under a name; raw bytes if no row has the name.
pub fn held_by_name(rows: &[NameRow], name: &[u8]) -> Held
    requires { names_fit rows.now ≡ true }
    ensures held { result ≡ held_by_name rows.now name.now }
    ensures rule { (p : RuleOfPeers) (tables : ℕ → Table) (info : Payload)
        → payload_rule p (payload_of tables info result)
        ≡ rule_or_raw p (payload_at (names_of tables info rows.now) name.now) }
{
    find_name(rows, name)
}
