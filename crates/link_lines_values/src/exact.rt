//! Payloads of raw attributes as text: a value if it determines the payload, or else the bytes.

ghost use Rattle.std.specs.Prelude.{◌≡◌, ◌++◌, [], codes, decimal, true};
ghost use Rattle.std.specs.Net.Addr.{segments_of};
ghost use Rattle.std.specs.Net.Text.{ipv4_text, ipv6_text};
ghost use Rattle.link_lines_values.specs.Appends.{Appends};
ghost use Rattle.link_lines_values.specs.Bytes.{bytes_text};
ghost use Rattle.link_lines_values.specs.Records.{fields_of};
ghost use Rattle.link_lines_values.specs.Values.{number_value};
ghost use Rattle.link_lines_values.specs.Exact.{are_counters, bridge_id_text, ends_with_nul, exact_of};
ghost use Rattle.link_lines_values.specs.Exact.{exact_text, has_family, is_multiple, is_uint};
ghost use Rattle.link_lines_values.specs.Exact.{is_via, label_after, label_text, label_value};
ghost use Rattle.link_lines_values.specs.Exact.{labels_text, more_labels_text, numbers_text};
ghost use Rattle.link_lines_values.specs.Exact.{pieces_text, raw_value, takes, via_text};

use crate::addresses::push_address;
use crate::bytes::{is_zero, push_bytes, push_hardware_address, push_hex_text, push_text};
use crate::digits::push_decimal;
use crate::fields::{Field, Layout};
use crate::internet::{push_ipv4, push_ipv6};
use crate::number_tables::Numbers;
use crate::number_texts::PLAIN;
use crate::records::{is_counters, is_record, push_counters, push_record_fields};
use crate::values::{ShownBy, push_value};
use std::alloc::AllocError;

/// How the payload of a raw attribute is shown if its line determines it, with names of numbers of
/// type `N` and records of type `R`. Other payloads are shown as their bytes after the word
/// `bytes`.
#[derive(Clone, Copy)]
pub enum ExactBy<N, R> {
    /// A little-endian number of that many bytes (1, 2, 3, 4 or 8), without names.
    Number(u8),
    /// A value of that many bytes.
    Sized(u8, ShownBy<N, R>),
    /// Bytes in hex; every payload.
    Bytes,
    /// Bytes in hex with colons between them; every payload.
    HardwareAddress,
    /// An address of 4 bytes (IPv4) or 16 (IPv6), in network byte order.
    Address,
    /// A text that ends with a NUL, in quotes without the NUL.
    Text,
    /// A little-endian number of 4 bytes, or of 8 if 4 don't suffice (netlink.h: nla_put_uint).
    Uint,
    /// Little-endian numbers of that many bytes each (2 or 4), with a space between them; nothing
    /// for no bytes.
    Numbers(u8),
    /// The identifier of a bridge (if_link.h: struct ifla_bridge_id), as in `8000.3e4f7d5bd0f4`.
    BridgeId,
    /// A stack of MPLS labels (mpls.h: struct mpls_label), at least one, as in
    /// `100 tc 0 s 1 ttl 0`, with ` / ` between them.
    Labels,
    /// A gateway of another family (rtnetlink.h: struct rtvia), as in
    /// `family=2 (AF_INET) addr=192.0.2.1`.
    Via,
    /// A record: the fields that aren't padding, with padding that is zero, as in
    /// `bytes=5 packets=2`.
    Record(R),
    /// Counters, all shown as the first field: how many there are, and those that aren't zero, as
    /// in `fields 25 rx_packets=3 60=5`.
    Counters(R),
}

/// How the payload of a raw attribute is shown if its line determines it.
pub type Exact = ExactBy<Numbers, Layout>;

// Returns whether the last byte is a NUL.
fn ends_with_nul(payload: &[u8]) -> bool
    ensures { result ≡ ends_with_nul payload.now }
{
    let size = payload.len();
    size > 0 && payload[size - 1] == 0
}

// Returns whether there are 4 bytes, or 8 that are a number for which 4 don't suffice.
fn is_uint(payload: &[u8]) -> bool
    ensures { result ≡ is_uint payload.now }
{
    match payload.len() {
        4 => true,
        8 => !is_zero(&payload[4..]),
        _ => false,
    }
}

// Returns whether the number of bytes is a multiple of a size that isn't zero.
fn is_multiple(size: u8, payload: &[u8]) -> bool
    ensures { result ≡ is_multiple size payload.now }
{
    size > 0 && payload.len() % usize::from(size) == 0
}

// Returns whether the bytes begin with a family of 2 bytes.
fn has_family(family: u8, payload: &[u8]) -> bool
    ensures { result ≡ has_family family payload.now }
{
    match payload {
        [low, high, ..] => *low == family && *high == 0,
        _ => false,
    }
}

// Returns whether the bytes are the family 2 (AF_INET) and 4 bytes, or 10 (AF_INET6) and 16 bytes.
fn is_via(payload: &[u8]) -> bool
    ensures { result ≡ is_via payload.now }
{
    match payload.len() {
        6 => has_family(2, payload),
        18 => has_family(10, payload),
        _ => false,
    }
}

// Returns whether the bytes are counters. A slice has fewer than 2^64 bytes.
fn are_counters(rows: &[Field], payload: &[u8]) -> bool
    ensures { result
        ≡ are_counters (fields_of (λ b. b.now) rows.now) payload.now }
{
    is_counters(rows, payload)
}

// Returns whether a payload is shown by its value.
fn takes(exact: Exact, payload: &[u8]) -> bool
    ensures { result
        ≡ takes (exact_of exact) payload.now }
{
    match exact {
        ExactBy::Number(size) => payload.len() == usize::from(size),
        ExactBy::Sized(size, _) => payload.len() == usize::from(size),
        ExactBy::Bytes => true,
        ExactBy::HardwareAddress => true,
        ExactBy::Address => payload.len() == 4 || payload.len() == 16,
        ExactBy::Text => ends_with_nul(payload),
        ExactBy::Uint => is_uint(payload),
        ExactBy::Numbers(size) => is_multiple(size, payload),
        ExactBy::BridgeId => payload.len() == 8,
        ExactBy::Labels => !payload.is_empty() && payload.len() % 4 == 0,
        ExactBy::Via => is_via(payload),
        ExactBy::Record(layout) => is_record(layout.fields(), payload),
        ExactBy::Counters(layout) => are_counters(layout.fields(), payload),
    }
}

// Appends a space and a little-endian number without a name, or bytes if no number has their size.
#[tactic(auto, unfolding(crate::specs::NumberTexts::number_texts))]
fn push_plain_number(payload: &[u8], out: &mut Vec<u8>) -> Result<(), AllocError>
    ensures { Appends out.old out.new result (number_value [] payload.now) }
{
    push_value(ShownBy::Number(PLAIN), payload, out)
}

// Appends the first `count` numbers of `size` bytes each, with a space before each. `min` spares a
// contract on the number of bytes.
fn push_pieces(size: usize, count: usize, bytes: &[u8], out: &mut Vec<u8>) -> Result<(), AllocError>
    ensures { Appends out.old out.new result (pieces_text (number_value []) size count bytes.now) }
{
    let mut rest = bytes;
    for _ in 0..count {
        let (part, after) = rest.split_at(size.min(rest.len()));
        push_plain_number(part, out)?;
        rest = after;
    }
    Ok(())
}

// Appends numbers of `size` bytes each, with a space before each; bytes if the size is zero.
fn push_numbers(size: u8, payload: &[u8], out: &mut Vec<u8>) -> Result<(), AllocError>
    ensures { Appends out.old out.new result (numbers_text size payload.now) }
{
    if size == 0 {
        return push_bytes(payload, out);
    }
    let size = usize::from(size);
    push_pieces(size, payload.len() / size, payload, out)
}

// Appends a space and the identifier of a bridge, or bytes if they are not 8.
fn push_bridge_id(payload: &[u8], out: &mut Vec<u8>) -> Result<(), AllocError>
    ensures { Appends out.old out.new result (bridge_id_text payload.now) }
{
    if payload.len() != 8 {
        return push_bytes(payload, out);
    }
    out.push(b' ')?;
    push_hex_text(&payload[..2], out)?;
    out.push(b'.')?;
    push_hex_text(&payload[2..], out)
}

// Appends a title and a number.
fn push_titled(title: &[u8], number: u32, out: &mut Vec<u8>) -> Result<(), AllocError>
    ensures { Appends out.old out.new result (title.now ++ decimal number) }
{
    out.extend_from_slice(title)?;
    push_decimal(u64::from(number), out)
}

// Appends an MPLS label by its number.
fn push_label(label: u32, out: &mut Vec<u8>) -> Result<(), AllocError>
    ensures { Appends out.old out.new result (label_text label) }
{
    push_decimal(u64::from(label / 4096), out)?;
    push_titled(b" tc ", label / 512 % 8, out)?;
    push_titled(b" s ", label / 256 % 2, out)?;
    push_titled(b" ttl ", label % 256, out)
}

// Appends an MPLS label, or bytes in hex if they are not 4.
fn push_label_value(part: &[u8], out: &mut Vec<u8>) -> Result<(), AllocError>
    ensures { Appends out.old out.new result (label_value part.now) }
{
    match part {
        [a, b, c, d] => push_label(u32::from_be_bytes([*a, *b, *c, *d]), out),
        _ => push_hex_text(part, out),
    }
}

// Appends ` / ` and an MPLS label.
fn push_label_after(part: &[u8], out: &mut Vec<u8>) -> Result<(), AllocError>
    ensures { Appends out.old out.new result (label_after part.now) }
{
    out.extend_from_slice(b" / ")?;
    push_label_value(part, out)
}

// Appends MPLS labels with ` / ` before each.
fn push_more_labels(bytes: &[u8], out: &mut Vec<u8>) -> Result<(), AllocError>
    ensures { Appends out.old out.new result (more_labels_text bytes.now) }
{
    let mut rest = bytes;
    for _ in 0..bytes.len() / 4 {
        let (part, after) = rest.split_at(4usize.min(rest.len()));
        push_label_after(part, out)?;
        rest = after;
    }
    Ok(())
}

// Appends a space and a stack of MPLS labels.
fn push_labels(payload: &[u8], out: &mut Vec<u8>) -> Result<(), AllocError>
    ensures { Appends out.old out.new result (labels_text payload.now) }
{
    let (first, rest) = payload.split_at(4usize.min(payload.len()));
    out.push(b' ')?;
    push_label_value(first, out)?;
    push_more_labels(rest, out)
}

// Appends a space, the family and the address of a gateway, by the number of bytes: 6 for IPv4, 18
// for IPv6; any other number as bytes.
fn push_via(payload: &[u8], out: &mut Vec<u8>) -> Result<(), AllocError>
    ensures { Appends out.old out.new result (via_text payload.now) }
{
    match payload.len() {
        6 => {
            out.extend_from_slice(b" family=2 (AF_INET) addr=")?;
            push_ipv4(&payload[2..], out)
        }
        18 => {
            out.extend_from_slice(b" family=10 (AF_INET6) addr=")?;
            push_ipv6(&payload[2..], out)
        }
        _ => push_bytes(payload, out),
    }
}

// Appends the value of a payload that is shown by it, with a space before it if there is anything
// to show.
#[tactic(auto, using(crate::proofs::ExactTaken::of_a_record))]
fn push_taken(exact: Exact, payload: &[u8], out: &mut Vec<u8>) -> Result<(), AllocError>
    requires { takes (exact_of exact) payload.now ≡ true }
    ensures { Appends out.old out.new result (exact_text (exact_of exact) payload.now) }
{
    match exact {
        ExactBy::Number(_) => push_plain_number(payload, out),
        ExactBy::Sized(_, shown) => push_value(shown, payload, out),
        ExactBy::Bytes => push_bytes(payload, out),
        ExactBy::HardwareAddress => push_hardware_address(payload, out),
        ExactBy::Address => push_address(payload, out),
        ExactBy::Text => push_text(payload, out),
        ExactBy::Uint => push_plain_number(payload, out),
        ExactBy::Numbers(size) => push_numbers(size, payload, out),
        ExactBy::BridgeId => push_bridge_id(payload, out),
        ExactBy::Labels => push_labels(payload, out),
        ExactBy::Via => push_via(payload, out),
        ExactBy::Record(layout) => push_record_fields(layout.fields(), payload, out),
        ExactBy::Counters(layout) => push_counters(layout.fields(), payload, out),
    }
}

// Appends the word `bytes`, and the bytes in hex if there are any.
fn push_bytes_word(payload: &[u8], out: &mut Vec<u8>) -> Result<(), AllocError>
    ensures { Appends out.old out.new result (codes " bytes" ++ bytes_text payload.now) }
{
    out.extend_from_slice(b" bytes")?;
    push_bytes(payload, out)
}

/// Appends the payload of a raw attribute, with a space before it if there is anything to show: its
/// value if that determines the payload, or else the word `bytes`, and the bytes in hex if there
/// are any.
///
/// # Errors
///
/// `AllocError` if `out` lacked capacity for the text and can't grow; what it held stays, and a
/// part of the text may follow.
pub fn push_raw_value(exact: Exact, payload: &[u8], out: &mut Vec<u8>) -> Result<(), AllocError>
    ensures { Appends out.old out.new result (raw_value (exact_of exact) payload.now) }
{
    if takes(exact, payload) {
        push_taken(exact, payload, out)
    } else {
        push_bytes_word(payload, out)
    }
}
