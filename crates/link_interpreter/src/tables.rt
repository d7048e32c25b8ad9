//! The row of an attribute's kind.

ghost use Rattle.std.specs.Prelude.{◌≡◌, ◌+◌, cond};
ghost use Rattle.netlink_packet_core_grammar.specs.Attributes.{proper_kind};
ghost use Rattle.link_tables.specs.Tables.{AreRowsOf};
ghost use Rattle.link_interpreter.specs.FoundRows.{IsRowOf};

use crate::attribute::KIND_BOUND;
use crate::peers::PeerSet;
use attribute_tables_grammar::laws::table_rows_are_lawful;
use link_tables::{Held, Row, Shape, Table, TableRows, indexed_rows, tables_are_bounded};

/// The row of an attribute's kind.
#[derive(Clone, Copy)]
pub struct Found {
    /// The payload; raw bytes if the table has no row for the kind.
    pub held: Held,
    /// Whether the table has a row for the kind.
    pub is_typed: bool,
    /// The kind of the canonical attribute, with its flag bits.
    pub kind: u16,
}

// The canonical kind of a typed attribute.
fn written_kind(is_nested: bool, kind: u16) -> u16
    ensures { result ≡ proper_kind kind + cond is_nested 0x8000 0 }
{
    let flag = if is_nested { 0x8000 } else { 0 };
    kind % KIND_BOUND + flag
}

/// Returns the row of an attribute's kind, which may have flag bits, in the rows of a table.
pub fn find_in<P: PeerSet>(peers: &P, rows: TableRows<'_>, kind: u16) -> Found
    ensures { (table : Table) → AreRowsOf table rows.entry → IsRowOf P.peer table kind result }
{
    peers.peers_are_lawful();
    tables_are_bounded();
    table_rows_are_lawful();
    match rows.look_up(kind % KIND_BOUND) {
        Row::Listed(_, is_nested, held) => Found {
            held,
            is_typed: true,
            kind: written_kind(is_nested, kind),
        },
        Row::Unlisted(_) => Found {
            held: Held::Plain(Shape::Raw),
            is_typed: false,
            kind,
        },
    }
}

/// Returns the row of an attribute's kind, which may have flag bits, in a table.
pub fn find<P: PeerSet>(peers: &P, table: Table, kind: u16) -> Found
    ensures { IsRowOf P.peer table kind result }
{
    find_in(peers, indexed_rows(table), kind)
}
