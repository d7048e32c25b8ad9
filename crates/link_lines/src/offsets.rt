//! The offset of a message in its first line.

ghost use Rattle.link_lines_values.specs.Appends.{Appends};
ghost use Rattle.link_lines.specs.Offsets.{with_offset};

use link_lines_parts::line_len;
use link_lines_values::push_decimal;
use std::alloc::AllocError;

/// Appends the lines of a message, with ` offset N` at the end of the first line.
///
/// # Errors
///
/// `AllocError` if `out` lacked capacity for the lines and the offset, and can't grow; what it held
/// stays, and a part of the lines may follow.
#[tactic(auto, using(link_lines_parts::proofs::FirstParts::prefix_within))]
pub fn push_with_offset(lines: &[u8], offset: u64, out: &mut Vec<u8>) -> Result<(), AllocError>
    ensures { Appends out.old out.new result (with_offset offset lines.now) }
{
    let (first, rest) = lines.split_at(line_len(lines));
    out.extend_from_slice(first)?;
    out.extend_from_slice(b" offset ")?;
    push_decimal(offset, out)?;
    out.extend_from_slice(rest)
}
