//! The indentation of lines.

ghost use Rattle.std.specs.Prelude.{◌≡◌, ◌++◌, OnOk};
ghost use Rattle.link_lines_values.specs.Appends.{Appends};
ghost use Rattle.link_lines_values.specs.Indents.{indent};

use std::alloc::AllocError;

/// The indentation of the first levels.
const SPACES: [u8; 16] = [b' '; 16];

/// Appends the indentation of `level` levels, two spaces for each.
///
/// # Errors
///
/// `AllocError` if `out` lacked capacity for the spaces and can't grow; what it held stays, and a
/// part of the spaces may follow.
#[tactic(auto, using(crate::proofs::Deeper::spaces))]
pub fn push_indent(level: usize, out: &mut Vec<u8>) -> Result<(), AllocError>
    ensures { Appends out.old out.new result (indent level) }
{
    if level <= 8 {
        return out.extend_from_slice(&SPACES[..2 * level]);
    }
    for _ in 0..level {
        out.extend_from_slice(b"  ")?;
    }
    Ok(())
}
