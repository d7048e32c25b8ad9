//! The names of attributes, and how what they hold is shown, by table and kind.

ghost use Rattle.std.specs.Prelude.{◌≡◌, ◌<◌, ◌≤◌, ◌⊎◌, true, [], get_or, option_map};
ghost use Rattle.std.specs.List.{list_all};
ghost use Rattle.link_lines_values.specs.DenseRows.{are_dense, find};
ghost use Rattle.link_lines_texts.specs.AttributeNames.{data_names, info_attribute_names, link_rows, link_names};
ghost use Rattle.link_lines_texts.specs.AttributeNames.{nested_names, family_names};
ghost use Rattle.link_tables.specs.declared.table.TheConstants.{LINK_INFO, LINK_UNSPEC};
ghost use Rattle.link_lines_texts.specs.AttributeNames.{attribute_rows_of, attribute_name_of, attribute_names_of};
ghost use Rattle.link_lines_texts.specs.AttributeNames.{tables_of, viewed};

use crate::data_names::DATA_NAMES;
use crate::format::Format;
use crate::message_names::{
    FAMILY_NAMES, INFO_ATTRIBUTE_NAMES, LINK_ATTRIBUTE_NAMES, NESTED_NAMES,
};
use link_lines_values::look_up;
use link_tables::Table;
use link_tables::kinds::AMT;
use link_tables::table::{LINK_INFO, LINK_UNSPEC};

/// The name of an attribute, and how its payload is shown.
pub type Name = (&'static [u8], Format);

/// A kind, with the attribute's name if the table has a row for it.
pub type AttributeRow = (u16, Option<Name>);

/// The entry of one kind: its name, and how its payload is shown.
#[macro_export]
macro_rules! attribute_name_row {
    ($kind:literal) => {
        ($kind, None)
    };
    ($kind:literal, $name:literal, $shown:expr) => {
        ($kind, Some(($name, Value($shown))))
    };
    ($kind:literal -> $name:literal, $format:expr) => {
        ($kind, Some(($name, $format)))
    };
}

/// The entries of a list, from the lines of its macro in `link_tables`.
#[macro_export]
macro_rules! list_names {
    ($(
        $kind:literal
        $(-> $held_name:literal, $held:expr)?
        $(=> $nested_name:literal, $nested:expr)?
        $(, $name:literal $(, $shape:expr, $shown:expr)?)?;
    )*) => {
        [$($crate::attribute_name_row!($kind $(-> $held_name, $held)? $(-> $nested_name, $nested)? $($(, $name, $shown)?)?),)*]
    };
}

/// The entries of a list of settings, from the lines of its macro in `link_tables`. Those of a
/// request are shown as bytes.
#[macro_export]
macro_rules! setting_names {
    ($($kind:literal, $name:literal, $shape:expr, $shown:expr;)*) => {
        [$($crate::attribute_name_row!($kind -> $name, Settings($shown)),)*]
    };
}

/// The entries of the rows that depend on the address family of a link: those of IFLA_PROTINFO and
/// IFLA_AF_SPEC, the kinds 12 and 26. The other kinds get an entry without a name, so that the rows
/// stay dense.
#[macro_export]
macro_rules! family_names {
    ($(
        $kind:tt
        $(-> $held_name:literal, $held:expr)?
        $(=> $nested_name:literal, $nested:expr)?
        $(, $name:literal $(, $shape:expr, $shown:expr)?)?;
    )*) => {
        [$($crate::family_name_row!($kind $(-> $held_name, $held)? $(-> $nested_name, $nested)? $($(, $name, $shown)?)?),)*]
    };
}

/// The entry of one kind, with its name only if the row depends on the address family.
#[macro_export]
macro_rules! family_name_row {
    (12 $($row:tt)*) => {
        $crate::attribute_name_row!(12 $($row)*)
    };
    // The attributes of families without a table of their own.
    (26, $name:literal, $shown:expr) => {
        $crate::attribute_name_row!(26 -> $name, Raw(FAMILY_SPECIFIC))
    };
    (26 $($row:tt)*) => {
        $crate::attribute_name_row!(26 $($row)*)
    };
    ($kind:tt $($row:tt)*) => {
        ($kind, None)
    };
}

/// Returns the rows of the table at an index; none if the index is out of range.
fn table_at(tables: &[&'static [AttributeRow]], index: u8) -> &'static [AttributeRow]
    requires { list_all (λ b. are_dense b.now) tables.now ≡ true }
    ensures attribute_names { attribute_rows_of (λ b. b.now) result.now
        ≡ get_or (tables_of (λ b. b.now) (λ n. n.now) tables.now) index [] }
    ensures dense { are_dense result.now ≡ true }
{
    if (index as usize) < tables.len() {
        tables[index as usize]
    } else {
        &[]
    }
}

/// Returns the names of a nested table, by its index.
#[tactic(auto, unfolding(crate::specs::AttributeNames::nested_names))]
pub(crate) fn nested_names(index: u8) -> &'static [AttributeRow]
    ensures attribute_names { attribute_rows_of (λ b. b.now) result.now ≡ get_or nested_names index [] }
    ensures dense { are_dense result.now ≡ true }
{
    table_at(&NESTED_NAMES, index)
}

/// Returns the names of a table of data, by its index less that of `AMT`.
#[tactic(auto, unfolding(crate::specs::AttributeNames::data_names))]
pub(crate) fn data_names(index: u8) -> &'static [AttributeRow]
    ensures attribute_names { attribute_rows_of (λ b. b.now) result.now ≡ get_or data_names index [] }
    ensures dense { are_dense result.now ≡ true }
{
    table_at(&DATA_NAMES, index)
}

/// Returns the names of the rows that depend on the address family, by the index of a link's table
/// less that of `LINK_UNSPEC`.
#[tactic(auto, unfolding(crate::specs::AttributeNames::family_names))]
pub(crate) fn family_names(index: u8) -> &'static [AttributeRow]
    ensures attribute_names { attribute_rows_of (λ b. b.now) result.now ≡ get_or family_names index [] }
    ensures dense { are_dense result.now ≡ true }
{
    table_at(&FAMILY_NAMES, index)
}

/// Returns the names of the rows that links of every address family have. The constant has a
/// function of its own, since the prover spells it out in each function that names it.
#[tactic(auto, unfolding(crate::specs::AttributeNames::link_rows))]
pub(crate) fn link_rows() -> &'static [AttributeRow]
    ensures attribute_names { attribute_rows_of (λ b. b.now) result.now ≡ link_rows }
    ensures dense { are_dense result.now ≡ true }
{
    LINK_ATTRIBUTE_NAMES
}

/// Returns the names of the attributes of link info.
#[tactic(auto, unfolding(crate::specs::AttributeNames::info_attribute_names))]
pub(crate) fn info_attribute_names() -> &'static [AttributeRow]
    ensures attribute_names { attribute_rows_of (λ b. b.now) result.now ≡ info_attribute_names }
    ensures dense { are_dense result.now ≡ true }
{
    INFO_ATTRIBUTE_NAMES
}

/// Returns the name of a kind of a link's attribute: that of the row for all families, as most are,
/// else that of the family's row.
fn link_attribute_name(family: u8, kind: u16) -> Option<&'static Name>
    requires { family < 4 }
    ensures { option_map (λ name. viewed (λ b. b.now) name.now) result
        ≡ find kind (get_or link_names family []) }
{
    match look_up(link_rows(), kind) {
        Some(name) => Some(name),
        None => look_up(family_names(family), kind),
    }
}

/// Returns the names of a table other than those of links.
#[tactic(auto, unfolding(crate::specs::AttributeNames::attribute_names_of))]
fn attribute_names_of(table: Table) -> &'static [AttributeRow]
    requires { table.0 < LINK_UNSPEC.0 ⊎ LINK_INFO.0 ≤ table.0 }
    ensures attribute_names { attribute_rows_of (λ b. b.now) result.now ≡ attribute_names_of table.0 }
    ensures dense { are_dense result.now ≡ true }
{
    if table.0 < LINK_UNSPEC.0 {
        nested_names(table.0)
    } else if table.is_link_info() {
        info_attribute_names()
    } else {
        data_names(table.0 - AMT.0)
    }
}

/// Returns the name of a kind without flag bits in a table, and how its payload is shown; None if
/// the table has no row for it.
pub fn attribute_name_of(table: Table, kind: u16) -> Option<&'static Name>
    ensures { option_map (λ name. viewed (λ b. b.now) name.now) result
        ≡ attribute_name_of table.0 kind }
{
    if LINK_UNSPEC.0 <= table.0 && table.0 < LINK_INFO.0 {
        link_attribute_name(table.0 - LINK_UNSPEC.0, kind)
    } else {
        look_up(attribute_names_of(table), kind)
    }
}
