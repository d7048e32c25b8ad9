//! Writes the canonical payloads of shapes from accepted payloads.

ghost use Rattle.std.specs.Prelude.{◌≡◌, ◌≤◌, ◌+◌, ◌++◌, true, length, take, vec_capacity};
ghost use Rattle.netlink_packet_core_grammar.specs.Attributes.{zeros};
ghost use Rattle.attribute_tables_grammar.specs.Rules.{shape_rule};
ghost use Rattle.attribute_tables_grammar.specs.Shapes.{accepts, number_boolean};
ghost use Rattle.link_tables.specs.Rows.{shape_of};
ghost use Rattle.link_interpreter.specs.Capacity.{HasCapacity};

use crate::capacity::{append, append_zeros};
use crate::same_shapes::{first, is_zero};
use link_tables::Shape;
use netlink_packet_core_numbers::without_nul;

// Appends bytes, cut or filled up with zeros to a size.
fn append_resized(size: usize, payload: &[u8], out: &mut Vec<u8>)
    requires { length out.old.items + size ≤ vec_capacity out.old }
    ensures text { out.new.items ≡ out.old.items ++ take size (payload.now ++ zeros size) }
    ensures capacity { vec_capacity out.old ≤ vec_capacity out.new }
{
    let prefix = first(payload, size);
    append(prefix, out);
    append_zeros(size - prefix.len(), out);
}

// Appends a number of 4 bytes that is 1 if `number` isn't zero, else 0.
fn append_boolean(number: &[u8], out: &mut Vec<u8>)
    requires number { length number.now ≡ 4 }
    requires capacity { length out.old.items + 4 ≤ vec_capacity out.old }
    ensures text { out.new.items ≡ out.old.items ++ number_boolean number.now }
    ensures capacity { vec_capacity out.old ≤ vec_capacity out.new }
{
    append(&[u8::from(!is_zero(number)), 0, 0, 0], out);
}

/// Appends the canonical payload of an accepted one; `out` has to have the capacity.
#[inline(always)]
pub fn write_shape(shape: Shape, payload: &[u8], out: &mut Vec<u8>)
    requires accepted { accepts (shape_of shape) payload.now ≡ true }
    requires capacity { HasCapacity out.old ((shape_rule (shape_of shape)).canonical payload.now) }
    ensures text { out.new.items
        ≡ out.old.items ++ (shape_rule (shape_of shape)).canonical payload.now }
    ensures capacity { vec_capacity out.old ≤ vec_capacity out.new }
{
    match shape {
        Shape::Exact(_) | Shape::Either(_, _) | Shape::AtMost(_) | Shape::Raw => append(
            payload, out,
        ),
        Shape::BooleanIfNonzero => append(&[u8::from(payload[0] != 0)], out),
        Shape::BooleanIfOne => append(&[u8::from(payload[0] == 1)], out),
        Shape::Presence | Shape::Never => {}
        Shape::Text => {
            append(without_nul(payload), out);
            append(&[0], out);
        }
        Shape::BooleanOfFour => append_boolean(payload, out),
        Shape::FixedRecord(m, n) => {
            append(&payload[..m as usize], out);
            append_zeros(n.saturating_sub(m) as usize, out);
        }
        Shape::IdAndBoolean => {
            append(&payload[..4], out);
            append_boolean(&payload[4..8], out);
        }
        Shape::Resized(n) => append_resized(n as usize, payload, out),
    }
}
