//! The attributes of an extended acknowledgement.

ghost use Rattle.std.specs.Prelude.{◌≡◌};
ghost use Rattle.link_lines_values.specs.Appends.{Appends};
ghost use Rattle.link_lines_raw.specs.Acknowledgements.{acknowledgement_lines, is_acknowledgement};
ghost use Rattle.link_lines_raw.specs.Lines.{lines_text};

use crate::lists::ListedBy;
use crate::raw::push_listed;
use crate::raw_tables::ACKNOWLEDGEMENT;
use link_lines_parts::is_whole;
use std::alloc::AllocError;

/// Returns whether bytes are attributes up to the end, at least one.
pub fn is_acknowledgement(bytes: &[u8]) -> bool
    ensures { result ≡ is_acknowledgement bytes.now }
{
    !bytes.is_empty() && is_whole(bytes)
}

/// Appends the lines of the attributes of an extended acknowledgement (netlink.h, `enum
/// nlmsgerr_attrs`), at level 1.
///
/// # Errors
///
/// `AllocError` if `out` lacked capacity for the lines and can't grow; what it held stays, and a
/// part of the lines may follow.
pub fn push_acknowledgement(bytes: &[u8], out: &mut Vec<u8>) -> Result<(), AllocError>
    ensures { Appends out.old out.new result (lines_text (acknowledgement_lines bytes.now)) }
{
    push_listed(1, ListedBy::Attributes(ACKNOWLEDGEMENT, bytes), bytes, out)
}
