//! Whole lists of attributes, which lines can determine, and the padding that lines show.

ghost use Rattle.std.specs.Prelude.{◌≡◌, ◌≤◌, length, option_map};
ghost use Rattle.link_lines_parts.specs.Whole.{is_whole, shown_padding};

use link_interpreter::first_attribute;
use link_lines_values::is_zero;
use netlink_packet_core::nla_align;

/// Returns whether the bytes are attributes up to the end. Padding may have any bytes, and after the
/// last attribute may be cut.
pub fn is_whole(bytes: &[u8]) -> bool
    ensures { result ≡ is_whole bytes.now }
{
    let mut rest = bytes;
    while !rest.is_empty() {
        let Some((_, after)) = first_attribute(rest) else {
            return false;
        };
        rest = after;
    }
    true
}

/// Returns the padding after the attribute of this size at the start of the bytes, if some of it is
/// missing or a byte of it isn't zero.
pub fn shown_padding(size: usize, bytes: &[u8]) -> Option<&[u8]>
    requires { size ≤ length bytes.now }
    ensures { option_map (λ p. p.now) result ≡ shown_padding size bytes.now }
{
    let end = nla_align(size);
    if end > bytes.len() {
        return Some(&bytes[size..]);
    }
    let padding = &bytes[size..end];
    if is_zero(padding) {
        None
    } else {
        Some(padding)
    }
}
