//! Checks of attributes under an address family, without allocating and without a typed value; for
//! the crates that read them.

ghost use Rattle.std.specs.Prelude.{◌≡◌, false, true};
ghost use Rattle.netlink_packet_core_grammar.specs.Attributes.{proper_kind};
ghost use Rattle.netlink_packet_core_numbers.specs.Errors.{is_memory};
ghost use Rattle.link_message_grammar.specs.LinkMessage.{family_of};
ghost use Rattle.link_message_grammar.specs.Body.{attribute_row, attributes_rule, link_peer};

use crate::body::walk_attributes;
use crate::peer::LinkPeer;
use attribute_tables_grammar::laws::measures_determine_rules;
use link_interpreter::{find, measure_held};
use link_message_grammar::laws::kinds_are_looked_up;
use link_tables::family_table;
use netlink_packet_core_numbers::DecodeError;

/// Returns whether an attribute's payload is accepted by the row of its kind under an address
/// family. The kind may have its flag bits.
pub fn accepts_attribute(family: u8, kind: u16, payload: &[u8]) -> bool
    ensures { result
        ≡ (attribute_row link_peer (family_of family) (proper_kind kind)).rule.accepted payload.now }
{
    measures_determine_rules();
    kinds_are_looked_up();
    let found = find(&LinkPeer, family_table(family), kind);
    measure_held(&LinkPeer, found.held, payload).is_some()
}

/// Returns whether the bytes are attributes of an address family.
pub fn accepts_attributes(family: u8, bytes: &[u8]) -> bool
    ensures { result ≡ (attributes_rule link_peer (family_of family)).accepted bytes.now }
{
    measures_determine_rules();
    walk_attributes(&LinkPeer, family, bytes).is_some()
}

/// Returns the error for an attribute that wasn't read: out of memory if its payload is accepted, a
/// refusal if it isn't. `error` may be out of memory although a later part of the payload is
/// refused.
pub fn attribute_error(family: u8, kind: u16, payload: &[u8], error: DecodeError) -> DecodeError
    requires refused { is_memory error ≡ false
        → (attribute_row link_peer (family_of family) (proper_kind kind)).rule.accepted payload.now ≡ false }
    ensures outcome { (attribute_row link_peer (family_of family) (proper_kind kind)).rule.accepted payload.now
        ≡ is_memory result }
    ensures memory { is_memory result ≡ true → is_memory error ≡ true }
{
    if error.is_memory() && !accepts_attribute(family, kind, payload) {
        return DecodeError::from("no attribute of its kind");
    }
    error
}

/// Returns the error for attributes of an address family that weren't read: out of memory if they
/// are accepted, a refusal if they aren't. `error` may be out of memory although a later attribute
/// is refused.
pub fn attributes_error(family: u8, bytes: &[u8], error: DecodeError) -> DecodeError
    requires refused { is_memory error ≡ false
        → (attributes_rule link_peer (family_of family)).accepted bytes.now ≡ false }
    ensures { (attributes_rule link_peer (family_of family)).accepted bytes.now ≡ is_memory result }
{
    if error.is_memory() && !accepts_attributes(family, bytes) {
        return DecodeError::from("no attributes of a link");
    }
    error
}
