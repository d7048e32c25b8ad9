//! Addresses of the Internet protocol as text.
// Written by hand, since no contract says that `write!` succeeds.

ghost use Rattle.std.specs.Prelude.{◌≡◌, ◌+◌, ◌<◌, ◌≤◌, ◌++◌, codes, decimal, flat_map, length};
ghost use Rattle.std.specs.Net.Addr.{ipv6_segments, segments_of};
ghost use Rattle.std.specs.Net.Text.{hex, hex_groups_text, ipv4_text, ipv6_text};
ghost use Rattle.std.specs.Net.Text.{leading_zero_digits, longest_zero_run};
ghost use Rattle.link_lines_values.specs.Appends.{Appends};
ghost use Rattle.link_lines_values.specs.Internet.{colon_segment, segments_text};

use crate::digits::{glyph, push_decimal};
use std::alloc::AllocError;
use std::net::Ipv6Addr;

// Appends an octet in decimal.
fn push_octet(octet: u8, out: &mut Vec<u8>) -> Result<(), AllocError>
    ensures { Appends out.old out.new result (decimal octet) }
{
    push_decimal(u64::from(octet), out)
}

// Appends a dot and an octet in decimal.
fn push_next_octet(octet: u8, out: &mut Vec<u8>) -> Result<(), AllocError>
    ensures { Appends out.old out.new result (codes "." ++ decimal octet) }
{
    out.push(b'.')?;
    push_octet(octet, out)
}

// Appends an IPv4 address.
fn push_octets(octets: [u8; 4], out: &mut Vec<u8>) -> Result<(), AllocError>
    ensures { Appends out.old out.new result (ipv4_text octets) }
{
    let [a, b, c, d] = octets;
    push_octet(a, out)?;
    push_next_octet(b, out)?;
    push_next_octet(c, out)?;
    push_next_octet(d, out)
}

/// Appends an IPv4 address of 4 bytes: each in decimal, with dots between them.
pub(crate) fn push_ipv4(bytes: &[u8], out: &mut Vec<u8>) -> Result<(), AllocError>
    requires { length bytes.now ≡ 4 }
    ensures { Appends out.old out.new result (ipv4_text bytes.now) }
{
    let mut octets = [0; 4];
    octets.copy_from_slice(bytes);
    push_octets(octets, out)
}

// Returns how many of the first three of a segment's four hex digits are leading zeros.
fn leading_zero_digits(segment: u16) -> usize
    ensures value { result ≡ leading_zero_digits segment }
    ensures bound { result < 4 }
{
    match segment {
        0x1000.. => 0,
        0x100.. => 1,
        0x10.. => 2,
        _ => 3,
    }
}

// Appends a segment in hex, without leading zeros.
#[tactic(auto, unfolding(std::specs::Net::Text::hex))]
fn push_segment(segment: u16, out: &mut Vec<u8>) -> Result<(), AllocError>
    ensures { Appends out.old out.new result (hex segment) }
{
    let digits = [
        glyph((segment / 0x1000) as u8),
        glyph((segment / 0x100 % 16) as u8),
        glyph((segment / 0x10 % 16) as u8),
        glyph((segment % 16) as u8),
    ];
    out.extend_from_slice(&digits[leading_zero_digits(segment)..])
}

// Appends a colon and a segment.
fn push_next_segment(segment: u16, out: &mut Vec<u8>) -> Result<(), AllocError>
    ensures { Appends out.old out.new result (colon_segment segment) }
{
    out.push(b':')?;
    push_segment(segment, out)
}

// Appends segments with a colon before each.
fn push_next_segments(segments: &[u16], out: &mut Vec<u8>) -> Result<(), AllocError>
    ensures { Appends out.old out.new result (flat_map colon_segment segments.now) }
{
    for segment in segments {
        push_next_segment(*segment, out)?;
    }
    Ok(())
}

// Appends segments with colons between them.
fn push_segments(segments: &[u16], out: &mut Vec<u8>) -> Result<(), AllocError>
    ensures { Appends out.old out.new result (segments_text segments.now) }
{
    if let [first, rest @ ..] = segments {
        push_segment(*first, out)?;
        push_next_segments(rest, out)?;
    }
    Ok(())
}

// Returns the start and the length of the longest run of zeros, of two the first.
fn longest_zero_run(segments: &[u16]) -> (usize, usize)
    ensures value { result ≡ longest_zero_run segments.now }
    ensures within { result.0 + result.1 ≤ length segments.now }
{
    let mut start = segments.len();
    let mut longest = 0;
    let mut run = 0;
    for i in (0..segments.len()).rev() {
        run = if segments[i] == 0 { run + 1 } else { 0 };
        if run >= longest {
            start = i;
            longest = run;
        }
    }
    (start, longest)
}

// Appends the segments before and after a run of zeros, with `::` for the run.
fn push_around(before: &[u16], after: &[u16], out: &mut Vec<u8>) -> Result<(), AllocError>
    ensures { Appends out.old out.new result
        (segments_text before.now ++ (codes "::" ++ segments_text after.now)) }
{
    push_segments(before, out)?;
    out.extend_from_slice(b"::")?;
    push_segments(after, out)
}

// Appends segments with `::` for the longest run of zeros, if it has two or more.
fn push_compressed(segments: &[u16], out: &mut Vec<u8>) -> Result<(), AllocError>
    ensures { Appends out.old out.new result (hex_groups_text segments.now) }
{
    let (start, size) = longest_zero_run(segments);
    if size < 2 {
        return push_segments(segments, out);
    }
    push_around(&segments[..start], &segments[start + size..], out)
}

// Appends an IPv6 address that is mapped from IPv4.
fn push_mapped(octets: [u8; 4], out: &mut Vec<u8>) -> Result<(), AllocError>
    ensures { Appends out.old out.new result (codes "::ffff:" ++ ipv4_text octets) }
{
    out.extend_from_slice(b"::ffff:")?;
    push_octets(octets, out)
}

// Appends an IPv6 address; one that is mapped from IPv4 ends in that address.
fn push_address(address: Ipv6Addr, out: &mut Vec<u8>) -> Result<(), AllocError>
    ensures { Appends out.old out.new result (ipv6_text (ipv6_segments address)) }
{
    match address.to_ipv4_mapped() {
        Some(mapped) => push_mapped(mapped.octets(), out),
        None => push_compressed(&address.segments(), out),
    }
}

/// Appends an IPv6 address of 16 bytes: segments in hex with colons between them, as RFC 5952 has it.
pub(crate) fn push_ipv6(bytes: &[u8], out: &mut Vec<u8>) -> Result<(), AllocError>
    requires { length bytes.now ≡ 16 }
    ensures { Appends out.old out.new result (ipv6_text (segments_of bytes.now)) }
{
    let mut octets = [0; 16];
    octets.copy_from_slice(bytes);
    push_address(Ipv6Addr::from_octets(octets), out)
}
