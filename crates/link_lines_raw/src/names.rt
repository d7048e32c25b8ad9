//! The look-up of attributes by their names.

ghost use Rattle.std.specs.Prelude.{◌≡◌, option_map};
ghost use Rattle.link_lines_raw.specs.NameSearch.{name_if, named_below, named_in, raw_name};
ghost use Rattle.link_lines_raw.specs.Tables.{raw_rows_of};

use crate::raw::raw_rows;
use crate::raw_tables::{RawTable, UNNAMED};

/// The number of tables of raw attributes that may have rows.
const TABLE_COUNT: u16 = UNNAMED.0;

/// Returns the name of a row, if the word is that name. The case of ASCII letters doesn't count.
fn name_if<A>(row: &Option<(&'static [u8], A)>, word: &[u8]) -> Option<&'static [u8]>
    ensures { option_map (λ name. name.now) result ≡ name_if (λ name. name.now) word.now row.now }
{
    match row {
        Some((name, _)) if name.eq_ignore_ascii_case(word) => Some(*name),
        _ => None,
    }
}

/// Returns the first name in some rows that the word is. The case of ASCII letters doesn't count.
pub fn find_name_in<A>(
    rows: &[(u16, Option<(&'static [u8], A)>)],
    word: &[u8],
) -> Option<&'static [u8]>
    ensures { option_map (λ name. name.now) result ≡ named_in (λ name. name.now) word.now rows.now }
{
    for row in rows {
        if let Some(name) = name_if(&row.1, word) {
            return Some(name);
        }
    }
    None
}

/// Returns the first name in the tables below an index that the word is.
fn find_name_below(count: u16, word: &[u8]) -> Option<&'static [u8]>
    ensures { option_map (λ name. name.now) result ≡ named_below raw_rows_of word.now count }
{
    for table in 0..count {
        if let Some(name) = find_name_in(raw_rows(RawTable(table)), word) {
            return Some(name);
        }
    }
    None
}

/// Returns the kernel's name of a raw attribute, of any table, that the word is. The case of ASCII
/// letters doesn't count.
#[tactic(auto, unfolding(crate::specs::NameSearch::raw_name))]
pub fn find_name(word: &[u8]) -> Option<&'static [u8]>
    ensures { option_map (λ name. name.now) result ≡ raw_name word.now }
{
    find_name_below(TABLE_COUNT, word)
}
