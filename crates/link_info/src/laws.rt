//! Laws of the definitions. No function here makes a call.

ghost use Rattle.link_info.specs.Laws.{LinkInfoIsLawful, KindsAreTheNames};

pub use attribute_tables_grammar::laws::{
    canonical_lists_are_split, old_texts_are_migrated, peers_that_are_bytes_are_lawful,
    rules_without_peers_are_one, same_lists_leave_one_context, short_texts_fit, tables_are_lawful,
    texts_determine_meanings, texts_keep_meanings,
};
pub use link_info_data::laws::{
    data_without_peers_have_one_rule, names_determine_rules, port_data_have_one_rule,
    port_names_determine_rules,
};
pub use link_info_grammar::laws::{
    info_grammar_is_lawful, info_is_a_payload, tables_are_listed, tables_pass,
};
pub use link_info_kinds::laws::{names_determine_kinds, names_determine_port_kinds};
pub use link_info_types::laws::{constants_are_named, tunnel_constants_are_named};

/// The canonical encoding of accepted link info is accepted and already canonical; as an attribute,
/// with its header and padding, it is at most 77 times as long as the header and the list; two
/// accepted lists are equivalent if and only if their canonical encodings are equal.
#[tactic(auto, using(link_info_grammar::proofs::Families::info_is_lawful))]
pub fn link_info_is_lawful()
    ensures { LinkInfoIsLawful }
{}

/// The listed names are those of the kinds except `Other`, one each, and of the port kinds.
pub fn kinds_are_the_names()
    ensures { KindsAreTheNames }
{}
