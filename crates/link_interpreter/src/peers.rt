//! Peers: the payloads that describe the other end of a link, by a rule that a caller may define.

ghost use Rattle.std.specs.Prelude.{◌≡◌, ◌≤◌, ◌+◌, ◌++◌, true, false, length, is_ok, option_map, vec_capacity};
ghost use Rattle.std.specs.Prelude.{IfSome, IfOk, IfErr, OnOk};
ghost use Rattle.attribute_tables_grammar.specs.Peers.{RuleOfPeers, LawfulPeer, bytes_peer, peer_rule};
ghost use Rattle.attribute_tables_grammar.specs.Walks.{measure};
ghost use Rattle.netlink_packet_core_numbers.specs.Errors.{is_memory};
ghost use Rattle.link_interpreter.specs.Measures.{view};
ghost use Rattle.link_interpreter.specs.Peers.{IsPeerMeasure};
ghost use Rattle.link_interpreter.specs.Capacity.{HasCapacity};

use crate::shapes::{Measured, measure_shape};
use crate::write_shapes::write_shape;
use attribute_tables_grammar::laws::peers_that_are_bytes_are_lawful;
use link_tables::Shape;
use netlink_packet_core_numbers::DecodeError;
use std::alloc::Global;

/// The measure of a peer's payload.
#[derive(Clone, Copy, Debug, PartialEq, Eq)]
pub struct PeerMeasure {
    /// The length of the canonical payload in bytes.
    pub text_len: u128,
    /// The number of attributes inside, at all depths.
    pub attributes: u64,
}

/// A rule for the payloads of peers: which are accepted, which are equivalent, the canonical
/// payload, and the number of attributes inside. It has to be lawful: canonical payloads are
/// accepted, and already canonical; two accepted payloads are equivalent if and only if their
/// canonical payloads are equal; a canonical payload is at most 77 times as long; and there are at
/// least four bytes for each attribute inside.
pub trait PeerRule {
    /// The four functions of the rule.
    ghost peer: { RuleOfPeers };

    /// The rule is lawful. A lemma, which does nothing.
    fn rule_is_lawful(&self)
        ensures { LawfulPeer peer };

    /// Checks a peer's payload, and returns its measure. Allocates nothing.
    ///
    /// # Errors
    ///
    /// A [`DecodeError`], never out of memory, if the payload isn't accepted.
    fn check(&self, payload: &[u8]) -> Result<PeerMeasure, DecodeError>
        ensures ok { is_ok result ≡ peer.accepted payload.now }
        ensures measure { IfOk result (λ m. IsPeerMeasure peer payload.now m) }
        ensures err { IfErr result (λ e. is_memory e ≡ false) };

    /// Returns whether two payloads are equivalent. Allocates nothing. The result is meaningful if
    /// `check` accepts both.
    fn same(&self, left: &[u8], right: &[u8]) -> bool
        ensures { result ≡ peer.same left.now right.now };

    /// Returns the canonical payload of a peer.
    ///
    /// # Errors
    ///
    /// Out of memory if `check` accepts the payload and an allocation fails; any other
    /// [`DecodeError`] if and only if `check` doesn't accept it.
    fn canonical(&self, alloc: Global, payload: &[u8]) -> Result<Vec<u8>, DecodeError>
        ensures ok { OnOk result (peer.accepted payload.now ≡ true) }
        ensures text { IfOk result (λ v. v.items ≡ peer.canonical payload.now) }
        ensures err { IfErr result (λ e. peer.accepted payload.now ≡ is_memory e) };
}

/// The peers inside a list, as a walk of it measures and compares them.
pub trait PeerSet {
    ghost peer: { RuleOfPeers };

    /// The rule is lawful. A lemma, which does nothing.
    fn peers_are_lawful(&self)
        ensures { LawfulPeer peer };

    /// Returns the measure of a peer's payload; `None` if it isn't accepted.
    fn measure_peer(&self, payload: &[u8]) -> Option<Measured>
        ensures measure { option_map view result ≡ measure (peer_rule peer) payload.now }
        ensures already_canonical { IfSome result
            (λ m. m.is_canonical ≡ true → peer.canonical payload.now ≡ payload.now) };

    /// Returns whether two peers' payloads are equivalent.
    fn same_peer(&self, left: &[u8], right: &[u8]) -> bool
        ensures { result ≡ peer.same left.now right.now };
}

/// Peers that can be written without allocating.
pub trait WritePeer: PeerSet {
    /// Appends a peer's canonical payload; `out` has to have the capacity.
    fn write_peer(&self, payload: &[u8], out: &mut Vec<u8>)
        requires accepted { Self.peer.accepted payload.now ≡ true }
        requires capacity { HasCapacity out.old (Self.peer.canonical payload.now) }
        ensures text { out.new.items ≡ out.old.items ++ Self.peer.canonical payload.now }
        ensures capacity { vec_capacity out.old ≤ vec_capacity out.new };
}

/// Peers that are kept as bytes: every payload is accepted, only equal ones are equivalent, and
/// each is already canonical.
#[derive(Clone, Copy, Debug, PartialEq, Eq)]
pub struct BytesPeer;

impl PeerRule for BytesPeer {
    ghost peer = { bytes_peer };

    fn rule_is_lawful(&self) {
        peers_that_are_bytes_are_lawful();
    }

    fn check(&self, payload: &[u8]) -> Result<PeerMeasure, DecodeError> {
        Ok(PeerMeasure {
            text_len: payload.len() as u128,
            attributes: 0,
        })
    }

    fn same(&self, left: &[u8], right: &[u8]) -> bool {
        left == right
    }

    fn canonical(&self, alloc: Global, payload: &[u8]) -> Result<Vec<u8>, DecodeError> {
        Ok(Vec::from_slice(alloc, payload)?)
    }
}

impl PeerSet for BytesPeer {
    ghost peer = { bytes_peer };

    fn peers_are_lawful(&self) {
        peers_that_are_bytes_are_lawful();
    }

    fn measure_peer(&self, payload: &[u8]) -> Option<Measured> {
        measure_shape(Shape::Raw, payload)
    }

    fn same_peer(&self, left: &[u8], right: &[u8]) -> bool {
        left == right
    }
}

impl WritePeer for BytesPeer {
    fn write_peer(&self, payload: &[u8], out: &mut Vec<u8>) {
        write_shape(Shape::Raw, payload, out);
    }
}

/// Peers by a caller's rule, which doesn't report whether a payload is already canonical.
#[derive_where(Clone, Copy)]
pub struct Ruled<'r, R>(pub &'r R);

impl<R: PeerRule> PeerSet for Ruled<'_, R> {
    ghost peer = { R.peer };

    fn peers_are_lawful(&self) {
        self.0.rule_is_lawful();
    }

    fn measure_peer(&self, payload: &[u8]) -> Option<Measured> {
        let Ok(found) = self.0.check(payload) else {
            return None;
        };
        Some(Measured {
            text_len: found.text_len,
            attributes: found.attributes,
            fits: true,
            empty_ports: false,
            is_canonical: false,
            prefix: 0,
        })
    }

    fn same_peer(&self, left: &[u8], right: &[u8]) -> bool {
        self.0.same(left, right)
    }
}
