//! The look-up of a kind by its index in rows of consecutive kinds.

ghost use Rattle.std.specs.Prelude.{◌≡◌, true, option_map};
ghost use Rattle.link_lines_values.specs.DenseRows.{are_dense, find};

/// Returns the entry of a kind, if its row has one. The rows are for consecutive kinds, so that the
/// index of a row is its kind minus the kind of the first row.
pub fn look_up<T>(rows: &[(u16, Option<T>)], kind: u16) -> Option<&T>
    requires { are_dense rows.now ≡ true }
    ensures { option_map (λ entry. entry.now) result ≡ find kind rows.now }
{
    if rows.is_empty() {
        return None;
    }
    let first = rows[0].0;
    if kind < first {
        return None;
    }
    let index = (kind - first) as usize;
    if index < rows.len() {
        rows[index].1.as_ref()
    } else {
        None
    }
}
