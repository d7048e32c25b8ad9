//! Addresses of the Internet protocol.

ghost use Rattle.std.specs.Prelude.{◌≡◌, ◌++◌, ◌∷◌, length, OnOk};
ghost use Rattle.std.specs.Net.Addr.{segments_of};
ghost use Rattle.std.specs.Net.Text.{ipv4_text, ipv6_text};
ghost use Rattle.link_lines_values.specs.Appends.{Appends};
ghost use Rattle.link_lines_values.specs.Bytes.{address_text};

use crate::bytes::push_bytes;
use crate::internet::{push_ipv4, push_ipv6};
use std::alloc::AllocError;

/// Appends a space and an address of 4 bytes (IPv4) or 16 (IPv6), in network byte order; other
/// sizes as bytes.
pub(crate) fn push_address(bytes: &[u8], out: &mut Vec<u8>) -> Result<(), AllocError>
    ensures { Appends out.old out.new result (address_text bytes.now) }
{
    match bytes.len() {
        4 => {
            out.push(b' ')?;
            push_ipv4(bytes, out)
        }
        16 => {
            out.push(b' ')?;
            push_ipv6(bytes, out)
        }
        _ => push_bytes(bytes, out),
    }
}
