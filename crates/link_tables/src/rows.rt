//! Rows of tables as constant data, and looking up a kind.

ghost use Rattle.std.specs.Prelude.{◌≡◌, ℕ, true};
ghost use Rattle.attribute_tables_grammar.specs.LookUps.{line_at};
ghost use Rattle.attribute_tables_grammar.specs.Tables.{Payload, Table as Rows};
ghost use Rattle.link_tables.specs.Rows.{kind_of, are_dense, build, line_of, rows_in, IsIndexed};

use crate::table::Table;

/// The shape of a payload that holds no attributes. Sizes are in bytes.
#[derive(Clone, Copy)]
pub enum Shape {
    /// Exactly that many bytes.
    Exact(u16),
    /// One of two sizes.
    Either(u16, u16),
    /// At most that many bytes.
    AtMost(u16),
    /// A boolean of one byte: false if and only if it is 0.
    BooleanIfNonzero,
    /// A boolean of one byte: true if and only if it is 1.
    BooleanIfOne,
    /// A boolean of 4 bytes: false if and only if the number is 0.
    BooleanOfFour,
    /// A flag that is set by being present, whatever its bytes.
    Presence,
    /// UTF-8, with or without a last NUL.
    Text,
    Raw,
    /// No payload is accepted.
    Never,
    /// At least m bytes, of which the first m count; written as n bytes.
    FixedRecord(u16, u16),
    /// 4 bytes, and a boolean of 4 bytes.
    IdAndBoolean,
    /// Any number of bytes, cut or filled up with zeros to n.
    Resized(u16),
}

/// The kind of a list: how bytes hold it, and which of its attributes are kept.
#[derive(Clone, Copy)]
pub enum Form {
    Any,
    /// At least one attribute.
    NonEmpty,
    /// Any attributes, of which those of kind 1 are kept.
    OfKindOne,
    /// At least one attribute; those of kind 1 are kept, and if there is none, nothing is written.
    Ports,
    /// One attribute, followed by any bytes.
    FirstOnly,
}

/// The payload of a row: bytes, a peer, a list of a table's attributes, or link info.
#[derive(Clone, Copy)]
pub enum Held {
    Plain(Shape),
    Peer,
    /// A list of attributes of that table.
    List(Form, Table),
    LinkInfo,
}

/// The row of a kind, which has no flag bits here.
#[derive(Clone, Copy)]
pub enum Row {
    /// The kind, whether it is written with the nested bit, and the payload.
    Listed(u16, bool, Held),
    /// A kind between those that the table lists, which has no row.
    Unlisted(u16),
}

impl Row {
    fn kind(self) -> u16
        ensures { result ≡ kind_of self }
    {
        match self {
            Self::Listed(kind, _, _) | Self::Unlisted(kind) => kind,
        }
    }
}

/// The rows of a table, without a gap between their kinds, and the kind of the first one.
#[derive(Clone, Copy)]
pub struct TableRows<'a> {
    first: u16,
    rows: &'a [Row],
}

impl<'a> TableRows<'a> {
    /// Returns these rows, which have no gap between their kinds.
    pub fn new(rows: &'a [Row]) -> TableRows<'a>
        requires { are_dense rows.now ≡ true }
        ensures indexed { IsIndexed result }
        ensures rows { rows_in result ≡ rows.now }
    {
        let first = if rows.is_empty() { 0 } else { rows[0].kind() };
        TableRows { first, rows }
    }

    /// Returns the row of a kind, which has no flag bits. The index of a row is its kind less that
    /// of the first row, so this takes constant time.
    pub fn look_up(self, kind: u16) -> Row
        ensures line { IsIndexed self.entry → (tables : ℕ → Rows) (info : Payload)
            → line_of tables info result ≡ line_at (build tables info (rows_in self.entry)) kind }
        ensures kind { IsIndexed self.entry → kind_of result ≡ kind }
    {
        let index = (kind as usize).wrapping_sub(self.first as usize);
        if index < self.rows.len() {
            self.rows[index]
        } else {
            Row::Unlisted(kind)
        }
    }
}

/// The row of a kind, for the interpreter.
#[macro_export]
macro_rules! constant_row {
    ($kind:literal) => {
        Unlisted($kind)
    };
    ($kind:literal, $shape:expr) => {
        Listed($kind, false, Plain($shape))
    };
    ($kind:literal -> $held:expr) => {
        Listed($kind, false, $held)
    };
    ($kind:literal => $held:expr) => {
        Listed($kind, true, $held)
    };
}

/// The rows of a list, for the interpreter.
#[macro_export]
macro_rules! constant_rows {
    ($(
        $kind:literal
        $(-> $held_name:literal, $held:expr)?
        $(=> $nested_name:literal, $nested:expr)?
        $(, $name:literal $(, $shape:expr, $shown:expr)?)?;
    )*) => {
        [$($crate::constant_row!($kind $(-> $held)? $(=> $nested)? $($(, $shape)?)?),)*]
    };
}
