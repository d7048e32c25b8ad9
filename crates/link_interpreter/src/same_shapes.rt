//! Whether payloads that hold no attributes are equivalent.

ghost use Rattle.std.specs.Prelude.{◌≡◌, ◌==◌, take, map, bytes_eq};
ghost use Rattle.attribute_tables_grammar.specs.Rules.{shape_rule};
ghost use Rattle.attribute_tables_grammar.specs.Shapes.{number, id_and_boolean, resized};
ghost use Rattle.link_tables.specs.Rows.{shape_of};
ghost use Rattle.link_interpreter.specs.Sameness.{mark_of};

use link_tables::Shape;
use netlink_packet_core_numbers::without_nul;

/// Returns the first `count` bytes, or all if there are fewer.
pub fn first(bytes: &[u8], count: usize) -> &[u8]
    ensures { result.now ≡ take count bytes.now }
{
    &bytes[..count.min(bytes.len())]
}

/// Returns whether all bytes are zero.
pub fn is_zero(bytes: &[u8]) -> bool
    ensures { result ≡ (number bytes.now == 0) }
{
    for byte in bytes {
        if *byte != 0 {
            return false;
        }
    }
    true
}

// Whether two payloads have equal lengths, and at each index both or neither is this byte.
fn same_marks(byte: u8, left: &[u8], right: &[u8]) -> bool
    ensures { result ≡ bytes_eq (map (mark_of byte) left.now) (map (mark_of byte) right.now) }
{
    let mut rest = left;
    let mut other = right;
    while let (Some((a, after)), Some((b, following))) = (rest.split_first(), other.split_first()) {
        if (*a == byte) != (*b == byte) {
            return false;
        }
        rest = after;
        other = following;
    }
    rest.is_empty() && other.is_empty()
}

// Whether the first 4 bytes, and the booleans in the next 4, are equal.
fn same_id_and_boolean(left: &[u8], right: &[u8]) -> bool
    ensures { result ≡ (shape_rule id_and_boolean).same left.now right.now }
{
    let id = first(left, 4);
    let other = first(right, 4);
    let boolean = first(&left[id.len()..], 4);
    id == other && is_zero(boolean) == is_zero(first(&right[other.len()..], 4))
}

// Whether two payloads are equal once both are cut or filled up with zeros to a size.
fn same_resized(size: u16, left: &[u8], right: &[u8]) -> bool
    ensures { result ≡ (shape_rule (resized size)).same left.now right.now }
{
    let left = first(left, size as usize);
    let right = first(right, size as usize);
    let common = left.len().min(right.len());
    &left[..common] == &right[..common] && is_zero(&left[common..]) && is_zero(&right[common..])
}

/// Returns whether two payloads of a shape are equivalent.
pub fn same_shape(shape: Shape, left: &[u8], right: &[u8]) -> bool
    ensures { result ≡ (shape_rule (shape_of shape)).same left.now right.now }
{
    match shape {
        Shape::Exact(_) | Shape::Either(_, _) | Shape::AtMost(_) => left == right,
        Shape::Raw | Shape::Never => left == right,
        Shape::BooleanIfNonzero => same_marks(0, left, right),
        Shape::BooleanIfOne => same_marks(1, left, right),
        Shape::BooleanOfFour => is_zero(left) == is_zero(right),
        Shape::Presence => true,
        Shape::Text => without_nul(left) == without_nul(right),
        Shape::FixedRecord(size, _) => first(left, size as usize) == first(right, size as usize),
        Shape::IdAndBoolean => same_id_and_boolean(left, right),
        Shape::Resized(size) => same_resized(size, left, right),
    }
}
