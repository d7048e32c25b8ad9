//! Peers that are already canonical.

ghost use Rattle.std.specs.Prelude.{◌≡◌, ◌+◌, ◌<◌, ◌≤◌, true, length, bytes_eq, vec_capacity, IfOk, OnErr};
ghost use Rattle.link_message_grammar.specs.Body.{link_peer};
ghost use Rattle.link_lines_texts.specs.Format.{is_canonical_peer};

use attribute_tables_grammar::laws::measures_determine_rules;
use link_interpreter::{PeerSet, WritePeer};
use link_message_checks::LinkPeer;
use std::alloc::AllocError;

/// Returns whether an accepted peer, whose canonical text is as long as its bytes, is written
/// unchanged. Writes the text at the end of `scratch`, and removes it again.
///
/// # Errors
///
/// `AllocError` if `scratch` lacked capacity for as many bytes more and can't grow; it is unchanged.
fn is_written_unchanged(peer: &[u8], scratch: &mut Vec<u8>) -> Result<bool, AllocError>
    requires accepted { link_peer.accepted peer.now ≡ true }
    requires size { length (link_peer.canonical peer.now) ≡ length peer.now }
    ensures ok { IfOk result (λ is_unchanged. is_unchanged ≡ bytes_eq (link_peer.canonical peer.now) peer.now) }
    ensures scratch { scratch.new.items ≡ scratch.old.items }
    ensures capacity { vec_capacity scratch.old ≤ vec_capacity scratch.new }
    ensures memory { OnErr result (vec_capacity scratch.old < length scratch.old.items + length peer.now) }
{
    scratch.reserve(peer.len())?;
    let start = scratch.len();
    LinkPeer.write_peer(peer, scratch);
    let is_unchanged = &scratch[start..] == peer;
    scratch.truncate(start);
    Ok(is_unchanged)
}

/// Returns whether bytes are accepted as a peer, and are already canonical. Mostly the measure
/// shows it; else the text is written at the end of `scratch`, and removed again.
///
/// # Errors
///
/// `AllocError` if `scratch` lacked capacity for as many bytes more and can't grow; it is unchanged.
#[tactic(auto, unfolding(crate::specs::Format::is_canonical_peer))]
pub(crate) fn is_canonical_peer(bytes: &[u8], scratch: &mut Vec<u8>) -> Result<bool, AllocError>
    ensures ok { IfOk result (λ is_canonical. is_canonical ≡ is_canonical_peer bytes.now) }
    ensures scratch { scratch.new.items ≡ scratch.old.items }
    ensures capacity { vec_capacity scratch.old ≤ vec_capacity scratch.new }
    ensures memory { OnErr result (vec_capacity scratch.old < length scratch.old.items + length bytes.now) }
{
    measures_determine_rules();
    let Some(found) = LinkPeer.measure_peer(bytes) else {
        return Ok(false);
    };
    if found.is_canonical {
        return Ok(true);
    }
    if found.text_len != bytes.len() as u128 {
        return Ok(false);
    }
    is_written_unchanged(bytes, scratch)
}
