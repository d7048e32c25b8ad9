//! Names and rows by kind.

ghost use Rattle.std.specs.Prelude.{◌≡◌, true, [], get_or, option_map};
ghost use Rattle.link_capture_lists.specs.ListTables.{all_row_values, find, is_name, row_values};

use crate::rows::NamedRow;

/// Returns the rows of the table with an index; none if the index is out of range.
pub(crate) fn rows_at<'a>(tables: &'a [&'a [NamedRow]], index: u8) -> &'a [NamedRow]
    ensures { row_values (λ n. n.now) result.now
        ≡ get_or (all_row_values (λ b. b.now) (λ n. n.now) tables.now) index [] }
{
    if (index as usize) < tables.len() {
        tables[index as usize]
    } else {
        &[]
    }
}

/// Returns the row of a kind, which has no flag bits.
pub(crate) fn find(rows: &[NamedRow], kind: u16) -> Option<NamedRow>
    ensures { option_map (λ r. (r.0, r.1.now, r.2)) result
        ≡ find kind (row_values (λ n. n.now) rows.now) }
{
    for row in rows {
        let row = *row;
        if kind == row.0 {
            return Some(row);
        }
    }
    None
}

/// Returns a name as a text.
pub(crate) fn text_of(name: &'static [u8]) -> &'static str
    requires { is_name name.now ≡ true }
    ensures { result.now ≡ name.now }
{
    match str::from_utf8(name) {
        Ok(text) => text,
        Err(_) => unreachable!(),
    }
}
