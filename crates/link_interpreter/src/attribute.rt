//! The attribute at the start of a byte string.

ghost use Rattle.std.specs.Prelude.{◌≡◌, ◌≤◌, ◌-◌, ◌+◌, ◌++◌, Some, true, length, take, drop, option_map, IfSome};
ghost use Rattle.netlink_packet_core_grammar.specs.Attributes.{first_attribute, attribute_text, nla_align, zeros};
ghost use Rattle.link_interpreter.specs.Sameness.{attribute_of};

use attribute_tables_grammar::laws::canonical_lists_unfold;
use netlink_packet_core_grammar::laws::{first_attributes_are_viewed, first_attributes_are_within};

/// Kinds without their flag bits are below this (netlink.h, `NLA_TYPE_MASK`).
pub const KIND_BOUND: u16 = 0x4000;

/// An attribute's kind with its flag bits, and its payload.
#[derive(Clone, Copy)]
pub struct Attribute<'a> {
    pub kind: u16,
    pub payload: &'a [u8],
}

/// Returns the attribute at the start of the bytes, and the bytes after its padding: length u16 and
/// kind u16, little-endian, then the payload (netlink.h, struct nlattr). `None` if the bytes begin
/// with no whole attribute.
pub fn first_attribute(bytes: &[u8]) -> Option<(Attribute<'_>, &[u8])>
    ensures first { first_attribute bytes.now ≡ option_map (λ r. (attribute_of r.0, r.1.now)) result }
    ensures within { IfSome result (λ r. 4 + length r.0.payload.now ≤ length bytes.now) }
    ensures short { IfSome result (λ r. 4 + length r.0.payload.now ≤ 65535) }
    ensures following { IfSome result
        (λ r. length r.1.now ≡ length bytes.now - nla_align (4 + length r.0.payload.now)) }
{
    first_attributes_are_viewed();
    first_attributes_are_within();
    if bytes.len() < 4 {
        return None;
    }
    let size = (bytes[0] as u16 + 256 * bytes[1] as u16) as usize;
    let kind = bytes[2] as u16 + 256 * bytes[3] as u16;
    if size < 4 || size > bytes.len() {
        return None;
    }
    let payload = &bytes[4..size];
    let end = (size + 3) / 4 * 4;
    Some((Attribute { kind, payload }, &bytes[end.min(bytes.len())..]))
}

// Whether the attribute of this size at the start of the bytes is followed by all its padding, as
// zeros.
fn is_padded(bytes: &[u8], size: usize) -> bool
    requires { size ≤ length bytes.now }
    ensures { result ≡ true
        → take (nla_align size - size) (drop size bytes.now) ≡ zeros (nla_align size - size) }
{
    match (size % 4, &bytes[size..]) {
        (0, _) | (1, [0, 0, 0, ..]) | (2, [0, 0, ..]) | (3, [0, ..]) => true,
        _ => false,
    }
}

/// Returns whether the attribute at the start of the bytes is padded with zeros. If its kind and
/// payload are already canonical, so are its bytes.
pub fn is_canonical_attribute(bytes: &[u8], attribute: Attribute<'_>, after: &[u8]) -> bool
    requires { first_attribute bytes.now ≡ Some (attribute_of attribute, after.now) }
    ensures { result ≡ true → bytes.now ≡ attribute_text (attribute_of attribute.entry) ++ after.now }
{
    first_attributes_are_within();
    canonical_lists_unfold();
    is_padded(bytes, 4 + attribute.payload.len())
}
