//! Peers that are bodies of link messages.

ghost use Rattle.std.specs.Prelude.{◌≡◌, true};
ghost use Rattle.attribute_tables_grammar.specs.Peers.{bytes_peer};
ghost use Rattle.link_message_grammar.specs.Body.{body_rule, link_peer};

use crate::body::{body_laws_hold, same_body_over, walk_body_over, write_body_over};
use crate::header::same_header;
use attribute_tables_grammar::laws::measures_determine_rules;
use link_interpreter::{BytesPeer, Measured, PeerMeasure, PeerRule, PeerSet, WritePeer};
use link_message_grammar::laws::link_peer_is_lawful;
use link_tables::LINK_HEADER_LEN;
use netlink_packet_core_numbers::DecodeError;
use std::alloc::Global;

/// The reason for refusing a payload that isn't such a peer.
const NO_PEER: &str = "not the body of a link message that can be written";

/// The rule of peers that are bodies of link messages, one level deep: what a peer inside a peer
/// holds stays bytes. A payload is accepted if it is a body that fits and has no empty ports. Two
/// payloads mean the same if the bodies do; each is written as the canonical text of its body, and
/// the body's attributes count.
#[derive(Clone, Copy, Debug, PartialEq, Eq)]
pub struct LinkPeer;

impl PeerRule for LinkPeer {
    ghost peer = { link_peer };

    fn rule_is_lawful(&self) {
        link_peer_is_lawful();
    }

    fn check(&self, payload: &[u8]) -> Result<PeerMeasure, DecodeError> {
        measures_determine_rules();
        let Some(found) = self.measure_peer(payload) else {
            return Err(DecodeError::from(NO_PEER));
        };
        Ok(PeerMeasure {
            text_len: found.text_len,
            attributes: found.attributes,
        })
    }

    fn same(&self, left: &[u8], right: &[u8]) -> bool {
        self.same_peer(left, right)
    }

    fn canonical(&self, alloc: Global, payload: &[u8]) -> Result<Vec<u8>, DecodeError> {
        measures_determine_rules();
        let Some(found) = self.measure_peer(payload) else {
            return Err(DecodeError::from(NO_PEER));
        };
        let Ok(size) = usize::try_from(found.text_len) else {
            return Err(DecodeError::memory());
        };
        let mut text = Vec::with_capacity(alloc, size)?;
        self.write_peer(payload, &mut text);
        Ok(text)
    }
}

impl PeerSet for LinkPeer {
    ghost peer = { link_peer };

    fn peers_are_lawful(&self) {
        link_peer_is_lawful();
    }

    #[tactic(auto, unfolding(link_message_grammar::specs::Body::link_peer))]
    fn measure_peer(&self, payload: &[u8]) -> Option<Measured> {
        measures_determine_rules();
        let Some(found) = walk_body_over(&BytesPeer, payload) else {
            return None;
        };
        if found.empty_ports || !found.fits {
            return None;
        }
        Some(found)
    }

    // Bytes that end inside the header have no attributes.
    #[tactic(auto, unfolding(link_message_grammar::specs::Body::link_peer))]
    fn same_peer(&self, left: &[u8], right: &[u8]) -> bool {
        body_laws_hold(&BytesPeer);
        if left.len() < LINK_HEADER_LEN || right.len() < LINK_HEADER_LEN {
            return same_header(left, right);
        }
        same_body_over(&BytesPeer, left, right)
    }
}

impl WritePeer for LinkPeer {
    #[tactic(auto, unfolding(link_message_grammar::specs::Body::link_peer))]
    fn write_peer(&self, payload: &[u8], out: &mut Vec<u8>) {
        write_body_over(&BytesPeer, payload, 0, out);
    }
}

/// Returns whether an accepted link that is a peer has an IFLA_VF_PORTS of which no entry is kept.
pub fn has_empty_ports(body: &[u8]) -> bool
    requires { (body_rule bytes_peer).accepted body.now ≡ true }
    ensures { result ≡ (body_rule bytes_peer).empty_ports body.now }
{
    measures_determine_rules();
    match walk_body_over(&BytesPeer, body) {
        Some(found) => found.empty_ports,
        None => unreachable!(),
    }
}
