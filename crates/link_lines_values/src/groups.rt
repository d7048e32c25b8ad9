//! Addresses of multicast groups with their protocols.

ghost use Rattle.std.specs.Prelude.{◌≡◌, ◌==◌, ◌++◌, codes, cond, length, OnOk};
ghost use Rattle.std.specs.Net.Addr.{segments_of};
ghost use Rattle.std.specs.Net.Text.{ipv4_text, ipv6_text};
ghost use Rattle.link_lines_values.specs.Appends.{Appends};
ghost use Rattle.link_lines_values.specs.Bytes.{hex_text};
ghost use Rattle.link_lines_values.specs.Names.{named_number, texts_of};
ghost use Rattle.link_lines_values.specs.Records.{group_address, group_text};

use crate::bytes::{is_zero, push_colons, push_hex_text};
use crate::digits::big_endian;
use crate::internet::{push_ipv4, push_ipv6};
use crate::number_tables::NumberText;
use crate::numbers::push_number;
use std::alloc::AllocError;

// Appends an address of 16 bytes by its protocol.
fn push_group_address(protocol: u64, bytes: &[u8], out: &mut Vec<u8>) -> Result<(), AllocError>
    requires { length bytes.now ≡ 16 }
    ensures { Appends out.old out.new result (group_address protocol bytes.now) }
{
    if protocol == 0x0800 && is_zero(&bytes[4..]) {
        return push_ipv4(&bytes[..4], out);
    }
    if protocol == 0x86dd {
        return push_ipv6(bytes, out);
    }
    if protocol == 0 && is_zero(&bytes[6..]) {
        return push_colons(&bytes[..6], out);
    }
    push_hex_text(bytes, out)
}

// Appends an address of 16 bytes and its protocol with its name.
fn push_address_and_protocol(
    texts: &[NumberText],
    protocol: u64,
    bytes: &[u8],
    out: &mut Vec<u8>,
) -> Result<(), AllocError>
    requires { length bytes.now ≡ 16 }
    ensures { Appends out.old out.new result
        (group_address protocol bytes.now ++ (codes " proto "
        ++ named_number (texts_of (λ b. b.now) texts.now) protocol)) }
{
    push_group_address(protocol, bytes, out)?;
    out.extend_from_slice(b" proto ")?;
    push_number(texts, protocol, out)
}

/// Appends an address and its protocol with its name, or bytes if they are not 18.
// Out of line, as few fields need it: inlined, it would slow `push_field_value`.
#[inline(never)]
pub(crate) fn push_group(
    texts: &[NumberText],
    part: &[u8],
    out: &mut Vec<u8>,
) -> Result<(), AllocError>
    ensures { Appends out.old out.new result
        (cond (length part.now == 18) (group_text (texts_of (λ b. b.now) texts.now) part.now)
        (hex_text part.now)) }
{
    if part.len() != 18 {
        return push_hex_text(part, out);
    }
    let (address, protocol) = part.split_at(16);
    match big_endian(protocol) {
        Some(protocol) => push_address_and_protocol(texts, protocol, address, out),
        None => push_hex_text(part, out),
    }
}
