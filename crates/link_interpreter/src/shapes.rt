//! Payloads that hold no attributes.

ghost use Rattle.std.specs.Prelude.{◌≡◌, true, option_map, IfSome};
ghost use Rattle.attribute_tables_grammar.specs.Rules.{shape_rule};
ghost use Rattle.attribute_tables_grammar.specs.Shapes.{accepts};
ghost use Rattle.attribute_tables_grammar.specs.Walks.{measure};
ghost use Rattle.link_tables.specs.Rows.{shape_of};
ghost use Rattle.link_interpreter.specs.Measures.{view};

use crate::same_shapes::is_zero;
use link_tables::Shape;
use netlink_packet_core_numbers::{is_text, without_nul};

/// The measure of accepted bytes, found in one walk.
#[derive(Clone, Copy)]
pub struct Measured {
    /// The length of the canonical encoding in bytes.
    pub text_len: u128,
    /// The number of attributes, at all depths.
    pub attributes: u64,
    /// Whether each length in the canonical encoding is at most 65535.
    pub fits: bool,
    /// Whether a list of ports inside keeps no entry.
    pub empty_ports: bool,
    /// Whether the bytes are known to be already canonical. If false, they may be so nevertheless.
    pub is_canonical: bool,
    /// The length of the canonical prefix of a list, as far as it is known: leading bytes, up to
    /// the end of an attribute, that are already canonical. It is measured only for whole lists.
    pub prefix: u32,
}

/// The measure of the empty list.
pub const NOTHING_YET: Measured = Measured {
    text_len: 0,
    attributes: 0,
    fits: true,
    empty_ports: false,
    is_canonical: true,
    prefix: 0,
};

// Whether an accepted payload is the canonical one of its shape.
#[inline(always)]
fn is_canonical_payload(shape: Shape, payload: &[u8]) -> bool
    requires { accepts (shape_of shape) payload.now ≡ true }
    ensures { result ≡ true → (shape_rule (shape_of shape)).canonical payload.now ≡ payload.now }
{
    match shape {
        Shape::Exact(_) | Shape::Either(_, _) | Shape::AtMost(_) | Shape::Raw => true,
        Shape::BooleanIfNonzero | Shape::BooleanIfOne => payload[0] <= 1,
        Shape::Presence => payload.is_empty(),
        Shape::Resized(n) => payload.len() == n as usize,
        Shape::FixedRecord(m, n) => payload.len() == n as usize && is_zero(&payload[m as usize..]),
        Shape::BooleanOfFour => payload[0] <= 1 && is_zero(&payload[1..]),
        Shape::IdAndBoolean => payload.len() == 8 && payload[4] <= 1 && is_zero(&payload[5..]),
        Shape::Text => without_nul(payload).len() < payload.len(),
        Shape::Never => false,
    }
}

/// Returns the measure of a payload under a shape; `None` if the shape doesn't accept it.
#[inline(always)]
pub fn measure_shape(shape: Shape, payload: &[u8]) -> Option<Measured>
    ensures measure { option_map view result ≡ measure (shape_rule (shape_of shape)) payload.now }
    ensures already_canonical { IfSome result
        (λ m. m.is_canonical ≡ true
        → (shape_rule (shape_of shape)).canonical payload.now ≡ payload.now) }
{
    let len = payload.len();
    let (is_accepted, text_len) = match shape {
        Shape::Exact(n) => (len == n as usize, len),
        Shape::Either(m, n) => (len == m as usize || len == n as usize, len),
        Shape::AtMost(n) => (len <= n as usize, len),
        Shape::BooleanIfNonzero | Shape::BooleanIfOne => (len == 1, 1),
        Shape::BooleanOfFour => (len == 4, 4),
        Shape::Presence => (true, 0),
        Shape::Text => (is_text(payload), without_nul(payload).len() + 1),
        Shape::Raw => (true, len),
        Shape::Never => (false, len),
        Shape::FixedRecord(m, n) => (len >= m as usize, m.max(n) as usize),
        Shape::IdAndBoolean => (len >= 8, 8),
        Shape::Resized(n) => (true, n as usize),
    };
    if is_accepted {
        Some(Measured {
            text_len: text_len as u128,
            attributes: 0,
            fits: true,
            empty_ports: false,
            is_canonical: is_canonical_payload(shape, payload),
            prefix: 0,
        })
    } else {
        None
    }
}
