//! Lines of bytes.

ghost use Rattle.std.specs.Prelude.{◌≡◌, ◌≤◌, ◌++◌, codes, drop, length, OnOk};
ghost use Rattle.link_lines_values.specs.Appends.{Appends};
ghost use Rattle.link_lines_parts.specs.BytesLines.{bytes_line};

use link_lines_values::push_bytes;
use netlink_packet_core::NETLINK_HEADER_LEN;
use std::alloc::AllocError;

/// Appends a line of a name and bytes; no line if there are no bytes.
///
/// # Errors
///
/// `AllocError` if `out` lacked capacity for the line and can't grow; what it held stays, and a
/// part of the line may follow.
#[tactic(auto, unfolding(crate::specs::BytesLines::bytes_line))]
pub fn push_bytes_line(name: &[u8], bytes: &[u8], out: &mut Vec<u8>) -> Result<(), AllocError>
    ensures { Appends out.old out.new result (bytes_line name.now bytes.now) }
{
    if bytes.is_empty() {
        return Ok(());
    }
    out.extend_from_slice(b"  ")?;
    out.extend_from_slice(name)?;
    push_bytes(bytes, out)?;
    out.extend_from_slice(b"\n")
}

/// Appends the line of the body of a message that isn't accepted: its bytes. There is no line if
/// the body is empty.
///
/// # Errors
///
/// `AllocError` if `out` lacked capacity for the line and can't grow; what it held stays, and a
/// part of the line may follow.
pub fn push_refused_body(frame: &[u8], out: &mut Vec<u8>) -> Result<(), AllocError>
    requires { 16 ≤ length frame.now }
    ensures { Appends out.old out.new result (bytes_line (codes "body") (drop 16 frame.now)) }
{
    push_bytes_line(b"body", &frame[NETLINK_HEADER_LEN..], out)
}
