//! Facts about the definitions, each a function with an empty body; some are stated in the crates of
//! the parts.

ghost use Rattle.link_message.specs.EqualTexts.{EqualTextsMeanEqualMessages};

pub use link_message_grammar::laws::{
    attributes_are_lawful, attributes_are_looked_up, bodies_are_headers_and_attributes,
    bodies_are_lawful, bodies_are_small, bodies_determine_meanings, bodies_grow_by_attributes,
    bodies_keep_meanings, body_laws_hold_for_any_peers, canonical_texts_are_read_back,
    empty_ports_are_determined, info_is_a_list_inside, kinds_are_looked_up, kinds_rise,
    link_peer_is_lawful, link_peers_are_lawful, old_bodies_are_migrated,
    only_link_info_holds_peers, short_bodies_fit,
};
pub use link_message_types::laws::{
    constants_are_named, headers_are_sixteen_bytes, layer_types_are_named, masks_are_kept,
    numbers_are_kept,
};

/// The text of a message determines it, up to `==`: two messages of one address family that are
/// written as the same bytes are equal, if each value is the variant that its row names.
/// `LinkMessage::parse` guarantees family, text and variants, so messages that are read from the
/// same bytes are equal.
#[tactic(auto, using(crate::proofs::Messages::messages_injective))]
pub fn equal_texts_mean_equal_messages()
    ensures { EqualTextsMeanEqualMessages }
{}
