//! The look-up of attributes of the normal text's tables by their names.

ghost use Rattle.std.specs.Prelude.{◌≡◌, option_map};
ghost use Rattle.link_lines_raw.specs.NameSearch.{named_below};
ghost use Rattle.link_lines_texts.specs.AttributeNames.{attribute_rows_of};
ghost use Rattle.link_lines_texts.specs.NameSearch.{rows_at, text_name};

use crate::attribute_names::{
    AttributeRow, data_names, family_names, info_attribute_names, link_rows, nested_names,
};
use link_lines_raw::find_name_in;
use link_tables::kinds::{AMT, DATA_COUNT};
use link_tables::table::{LINK_INFO, LINK_UNSPEC};

/// The index of the rows that links of every address family have: it follows those of the tables.
pub const ALL_LINKS: u8 = AMT.0 + DATA_COUNT as u8;

/// Returns the rows at an index: for links of an address family those that depend on it.
#[tactic(auto, unfolding(crate::specs::NameSearch::rows_at))]
fn rows_at(index: u8) -> &'static [AttributeRow]
    ensures rows { attribute_rows_of (λ b. b.now) result.now ≡ rows_at index }
{
    if index < LINK_UNSPEC.0 {
        nested_names(index)
    } else if index < LINK_INFO.0 {
        family_names(index - LINK_UNSPEC.0)
    } else if index < AMT.0 {
        info_attribute_names()
    } else if index < ALL_LINKS {
        data_names(index - AMT.0)
    } else {
        link_rows()
    }
}

/// Returns the first name in the rows below an index that the word is.
fn find_name_below(count: u8, word: &[u8]) -> Option<&'static [u8]>
    ensures { option_map (λ name. name.now) result ≡ named_below rows_at word.now count }
{
    for index in 0..count {
        if let Some(name) = find_name_in(rows_at(index), word) {
            return Some(name);
        }
    }
    None
}

/// Returns the kernel's name of an attribute, of any table, that the word is. The case of ASCII
/// letters doesn't count.
#[tactic(auto, unfolding(crate::specs::NameSearch::text_name))]
pub fn find_name(word: &[u8]) -> Option<&'static [u8]>
    ensures { option_map (λ name. name.now) result ≡ text_name word.now }
{
    find_name_below(ALL_LINKS + 1, word)
}
