//! Facts about the definitions, each a function with an empty body.
#![tactic(auto, using(crate::proofs::Together::laws))]

ghost use Rattle.link_message_grammar.specs.Laws.{AttributesAreLawful, KindsRise, BodiesAreLawful, BodiesAreSmall};
ghost use Rattle.link_message_grammar.specs.Laws.{PeersThatAreBodiesAreLawful, CanonicalBodiesDetermineMeanings, BodiesKeepMeanings};
ghost use Rattle.link_message_grammar.specs.Laws.{OldBodiesAreMigrated, BodiesAreHeadersAndAttributes, KindsAreLookedUp};
ghost use Rattle.link_message_grammar.specs.Laws.{AttributesAreLookedUp, InfoPayloadsAreLists};
ghost use Rattle.link_message_grammar.specs.Laws.{EmptyPortsAreDetermined, CanonicalBodiesAreReadBack, BodiesAreMeasured};
ghost use Rattle.link_message_grammar.specs.Laws.{BodiesGrowByAttributes, ShortBodiesFit, BodyLawsHoldForAnyPeers};
ghost use Rattle.link_message_grammar.specs.Laws.{LinkPeerIsLawful, OnlyLinkInfoHoldsPeers};
ghost use Rattle.link_message_grammar.specs.Body.{link_peer};

/// Lists of link attributes are lawful, under each address family.
pub fn attributes_are_lawful()
    ensures { AttributesAreLawful }
{}

/// The kinds in each table are in ascending order, so that none occurs twice.
pub fn kinds_rise()
    ensures { KindsRise }
{}

/// Link bodies are lawful.
pub fn bodies_are_lawful()
    ensures { BodiesAreLawful }
{}

/// The canonical text of a link body is at most 77 times as long.
pub fn bodies_are_small()
    ensures { BodiesAreSmall }
{}

/// The canonical text of a link body is at most 77 times as long, counted without its header, which
/// stays 16 bytes long.
pub fn bodies_grow_by_attributes()
    ensures { BodiesGrowByAttributes }
{}

/// The canonical text of a link body fits if it is at most 65551 bytes long: a header of 16 bytes,
/// followed by at most 65535.
pub fn short_bodies_fit()
    ensures { ShortBodiesFit }
{}

/// Peers that are link bodies are lawful, under every lawful rule of the peers inside them.
pub fn link_peers_are_lawful()
    ensures { PeersThatAreBodiesAreLawful }
{}

/// The rule of peers in force is lawful: peers are link bodies, in which peers are bytes.
pub fn link_peer_is_lawful()
    ensures { LinkPeerIsLawful }
{}

/// Two accepted bodies mean the same if and only if their canonical texts are equal.
pub fn bodies_determine_meanings()
    ensures { CanonicalBodiesDetermineMeanings }
{}

/// The canonical form of an accepted body means the same as the body, unless a list of VF ports in
/// it keeps no entry.
pub fn bodies_keep_meanings()
    ensures { BodiesKeepMeanings }
{}

/// The canonical text that a body had while peers were bytes is migrated by any rule of peers that
/// accepts the body: it becomes what the body becomes. It fits if the body does, and is accepted
/// without empty ports if the body had none.
pub fn old_bodies_are_migrated()
    ensures { OldBodiesAreMigrated }
{}

/// A body consists of a header of 16 bytes and the attributes of its family.
pub fn bodies_are_headers_and_attributes()
    ensures { BodiesAreHeadersAndAttributes link_peer }
{}

/// An accepted body that fits, and in which no list of ports would be empty, is read from its
/// canonical text as from its own bytes.
pub fn canonical_texts_are_read_back()
    ensures { CanonicalBodiesAreReadBack link_peer }
{}

/// A look-up of a kind returns its row in the table of the family.
pub fn kinds_are_looked_up()
    ensures { KindsAreLookedUp }
{}

/// The rule of the attributes of a family is that of the rows that look-ups of each kind find.
pub fn attributes_are_looked_up()
    ensures { AttributesAreLookedUp link_peer }
{}

/// The attributes that are read from a list determine whether it has a list of ports of which no
/// entry is kept.
pub fn empty_ports_are_determined()
    ensures { EmptyPortsAreDetermined link_peer }
{}

/// Only link info holds peers: the rows of other kinds are the same under every rule of peers.
pub fn only_link_info_holds_peers()
    ensures { OnlyLinkInfoHoldsPeers }
{}

/// The payload of IFLA_LINKINFO is a list of link info, and is refused if it is empty.
pub fn info_is_a_list_inside()
    ensures { InfoPayloadsAreLists link_peer }
{}

/// The measure of a body is that of its attributes after a header of 16 bytes, and the body is
/// canonical if its header and its attributes are.
pub fn bodies_are_measured()
    ensures { BodiesAreMeasured }
{}

/// The laws stated here of bodies under the rule of peers in force hold under every lawful rule of
/// peers.
pub fn body_laws_hold_for_any_peers()
    ensures { BodyLawsHoldForAnyPeers }
{}
