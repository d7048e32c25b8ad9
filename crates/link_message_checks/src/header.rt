//! Headers of link messages: their canonical text, and when two mean the same.

ghost use Rattle.std.specs.Prelude.{◌≡◌, ◌≤◌, ◌+◌, ◌%◌, ◌/◌, ◌∷◌, ◌++◌, [], true, length, take, bytes_eq};
ghost use Rattle.std.specs.Prelude.{slice_index, vec_capacity};
ghost use Rattle.link_message_grammar.specs.Body.{header_text, layer_type_text};

use crate::layer_types::has_name;
use link_interpreter::append;
use link_tables::LINK_HEADER_LEN;

/// The size of a header up to the end of its layer type.
const PREFIX_LEN: usize = 4;

/// The layer type for types without a name (if_arp.h, ARPHRD_VOID).
const VOID_LAYER: u16 = 0xffff;

// Returns whether a body's header is canonical: its second byte is zero, and its layer type has a
// name.
pub(crate) fn is_canonical_header(bytes: &[u8]) -> bool
    requires { 16 ≤ length bytes.now }
    ensures { result ≡ true → header_text bytes.now ≡ take 16 bytes.now }
{
    let layer_type = bytes[2] as u16 + 256 * bytes[3] as u16;
    bytes[1] == 0 && has_name(layer_type)
}

// Returns the layer type of a header (if_arp.h, ARPHRD_*); void if it has no name.
fn layer_type(bytes: &[u8]) -> u16
    requires { 4 ≤ length bytes.now }
    ensures { result % 256 ∷ result / 256 ∷ []
        ≡ layer_type_text (slice_index bytes.now 2) (slice_index bytes.now 3) }
{
    let layer_type = bytes[2] as u16 + 256 * bytes[3] as u16;
    if has_name(layer_type) {
        layer_type
    } else {
        VOID_LAYER
    }
}

// Returns whether two headers mean the same: their second byte is ignored, and all layer types
// without a name are equal. Of a header that is cut short, the bytes that are there count; of one
// under four bytes none.
pub(crate) fn same_header(left: &[u8], right: &[u8]) -> bool
    ensures { result ≡ bytes_eq (header_text left.now) (header_text right.now) }
{
    if left.len() < PREFIX_LEN || right.len() < PREFIX_LEN {
        return left.len() < PREFIX_LEN && right.len() < PREFIX_LEN;
    }
    left[0] == right[0]
        && layer_type(left) == layer_type(right)
        && &left[PREFIX_LEN..left.len().min(LINK_HEADER_LEN)]
            == &right[PREFIX_LEN..right.len().min(LINK_HEADER_LEN)]
}

// Appends a header in canonical form: its second byte zero, and a layer type without a name as
// void.
pub(crate) fn write_header(bytes: &[u8], out: &mut Vec<u8>)
    requires header { 16 ≤ length bytes.now }
    requires capacity { length out.old.items + 16 ≤ vec_capacity out.old }
    ensures text { out.new.items ≡ out.old.items ++ header_text bytes.now }
    ensures capacity { vec_capacity out.old ≤ vec_capacity out.new }
{
    let [low, high] = layer_type(bytes).to_le_bytes();
    append(&[bytes[0], 0, low, high], out);
    append(&bytes[PREFIX_LEN..LINK_HEADER_LEN], out);
}
