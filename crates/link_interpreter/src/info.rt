//! Facts about link info: kinds 1 to 5 have no flag bits.

ghost use Rattle.std.specs.Prelude.{◌≡◌, ◌%◌, ◌==◌, ◌&&◌, ◌||◌, nat_lt, ℕ};
ghost use Rattle.netlink_packet_core_grammar.specs.Attributes.{proper_kind};
ghost use Rattle.attribute_tables_grammar.specs.Lists.{Context, LawfulGrammar, canonical_kind};
ghost use Rattle.attribute_tables_grammar.specs.Peers.{RuleOfPeers};
ghost use Rattle.link_info_grammar.specs.LinkInfo.{link_info_row};
ghost use Rattle.link_message_grammar.specs.Laws.{InfoPayloadsAreLists};
ghost use Rattle.link_interpreter.specs.Measures.{info_names};

use crate::attribute::KIND_BOUND;
use crate::peers::PeerSet;
use link_info_grammar::laws::info_grammar_is_lawful;
use link_message_grammar::laws::body_laws_hold_for_any_peers;
use link_tables::{IFLA_INFO_KIND, IFLA_INFO_SLAVE_DATA};

/// The rows of link info are lawful. A lemma, which does nothing.
pub(crate) fn link_info_is_lawful<P: PeerSet>(peers: &P)
    ensures { LawfulGrammar (info_names P.peer) }
{
    peers.peers_are_lawful();
    info_grammar_is_lawful();
}

/// Link info in an attribute is a list of link info that isn't empty. A lemma, which does nothing.
pub(crate) fn info_is_a_list_inside<P: PeerSet>(peers: &P)
    ensures { InfoPayloadsAreLists P.peer }
{
    peers.peers_are_lawful();
    body_laws_hold_for_any_peers();
}

/// Returns the canonical kind of an attribute of link info.
pub(crate) fn written_info_kind(kind: u16) -> u16
    ensures { (p : RuleOfPeers) (c : Context) → result ≡ canonical_kind (link_info_row p c (proper_kind kind)) kind }
{
    match kind % KIND_BOUND {
        IFLA_INFO_KIND..=IFLA_INFO_SLAVE_DATA => kind % KIND_BOUND,
        _ => kind,
    }
}

/// Returns whether the kinds of two attributes are equal in link info.
pub(crate) fn are_same_info_kinds(left: u16, right: u16) -> bool
    ensures { result
        ≡ (left == right
        || (nat_lt 0 (proper_kind left)
        && nat_lt (proper_kind left) 6 && proper_kind left == proper_kind right)) }
{
    match left % KIND_BOUND {
        IFLA_INFO_KIND..=IFLA_INFO_SLAVE_DATA => left % KIND_BOUND == right % KIND_BOUND,
        _ => left == right,
    }
}
