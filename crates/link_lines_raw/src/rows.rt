//! Rows of raw attributes, which a normal text keeps as bytes under all 16 bits of their kind: the
//! kernel's names of their kinds, and what their payloads hold.

use crate::raw_tables::RawTable;
use link_lines_values::{Exact, Layout};

/// A record that has a line of its own: the line's first word, and the record's fields.
#[derive(Clone, Copy)]
pub struct RecordLineOf<N, R>(pub N, pub R);

/// A record that has a line of its own.
pub type RecordLine = RecordLineOf<&'static [u8], Layout>;

/// A set of choices: what an attribute holds if another one in the same list chooses it.
#[derive(Clone, Copy)]
pub enum Choice {
    /// Encapsulations, by their type (lwtunnel.h: LWTUNNEL_ENCAP_*).
    Encapsulation,
    /// Options of queueing disciplines and of filters, by their name (rtnetlink.h: TCA_KIND).
    Options,
    /// Options of actions, by their name (pkt_cls.h: TCA_ACT_KIND).
    ActionOptions,
}

/// What a raw attribute holds, with formats of values of type `X` and records of type `L`. A
/// payload that isn't exactly that is shown as bytes.
#[derive(Clone, Copy)]
pub enum RawBy<X, L> {
    /// A value, on the attribute's line.
    Value(X),
    /// Attributes of that table.
    List(RawTable),
    /// What the first attribute of that kind in the same list chooses.
    Chosen(Choice, u16),
    /// A record, followed by attributes of that table.
    Head(L, RawTable),
    /// A record, followed by records of another kind.
    HeadAndRecords(L, L),
    /// Next hops, each with attributes of that table (rtnetlink.h: struct rtnexthop).
    Hops(RawTable),
    /// Records, one after the other.
    Records(L),
}

/// What a raw attribute holds.
pub type Raw = RawBy<Exact, RecordLine>;

/// The name of a raw attribute, and what it holds.
pub type RawName = (&'static [u8], Raw);

/// A kind without flag bits, with its name if raw attributes of that kind have one.
pub type RawRow = (u16, Option<RawName>);

/// The entry of one kind: its name, and what its payload holds.
#[macro_export]
macro_rules! raw_name_row {
    ($kind:literal) => {
        ($kind, None)
    };
    ($kind:literal, $name:literal, $raw:expr) => {
        ($kind, Some(($name, $raw)))
    };
}

/// The entries of a list of consecutive kinds.
#[macro_export]
macro_rules! raw_rows_in {
    ($($kind:literal $(, $name:literal, $raw:expr)?;)*) => {
        [$($crate::raw_name_row!($kind $(, $name, $raw)?),)*]
    };
}
