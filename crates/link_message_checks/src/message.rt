//! Checks of link messages, without allocating and without a typed value. The other end of a link,
//! which the link info of netkit, veth and vxcan holds, is the body of a link message too, and is
//! checked as one by `LinkPeer`.

ghost use Rattle.std.specs.Prelude.{◌≡◌, ◌≤◌, ◌<◌, ◌+◌, ◌++◌, true, false, length};
ghost use Rattle.std.specs.Prelude.{is_ok, option_map, vec_capacity, IfSome, IfOk, IfErr, OnOk, OnErr};
ghost use Rattle.attribute_tables_grammar.specs.Walks.{measure};
ghost use Rattle.netlink_packet_core_numbers.specs.Errors.{is_memory};
ghost use Rattle.link_message_grammar.specs.Body.{link_body, link_peer};
ghost use Rattle.link_interpreter.specs.Measures.{view};
ghost use Rattle.link_message_checks.specs.Prefixes.{IsBodyPrefix};
ghost use Rattle.link_message_checks.specs.Measures.{IsBodyMeasure};
ghost use Rattle.link_interpreter.specs.Capacity.{HasCapacity};

use crate::body::{same_body_over, walk_body_over, write_body_over};
use crate::peer::LinkPeer;
use attribute_tables_grammar::laws::measures_determine_rules;
use link_interpreter::Measured;
use netlink_packet_core_numbers::DecodeError;
use std::alloc::AllocError;

/// The measure of a body's canonical text.
#[derive(Clone, Copy, Debug, PartialEq, Eq)]
pub struct BodyMeasure {
    /// The length of the canonical text in bytes, including the 16 of the header.
    pub text_len: u128,
    /// The number of attribute headers, at all depths.
    pub attributes: u64,
    /// Whether each length in the text is at most 65535.
    pub fits: bool,
    /// Whether a list of ports keeps no entry; such a body has no text.
    pub empty_ports: bool,
}

/// Walks the body of a link message. Returns all that one walk finds; None if it isn't accepted.
/// For the crates that check captures.
pub fn walk_body(bytes: &[u8]) -> Option<Measured>
    ensures measure { option_map view result ≡ measure link_body bytes.now }
    ensures already_canonical { IfSome result
        (λ m. m.is_canonical ≡ true → link_body.canonical bytes.now ≡ bytes.now) }
    ensures prefix { IfSome result (λ m. IsBodyPrefix link_peer bytes.now m.prefix) }
{
    walk_body_over(&LinkPeer, bytes)
}

/// Returns the measure of the canonical text of a link message's body, which is a header of 16
/// bytes and attributes. Allocates nothing. The peers of netkit, veth and vxcan are bodies too, one
/// level deep, and what a peer inside a peer holds stays bytes. The attributes of peers count.
///
/// # Errors
///
/// A refusal if the body isn't accepted, or has a peer that `LinkPeer` doesn't accept.
pub fn check(bytes: &[u8]) -> Result<BodyMeasure, DecodeError>
    ensures ok { is_ok result ≡ link_body.accepted bytes.now }
    ensures measure { IfOk result (λ m. IsBodyMeasure link_body bytes.now m) }
    ensures err { IfErr result (λ e. is_memory e ≡ false) }
{
    measures_determine_rules();
    let Some(found) = walk_body(bytes) else {
        return Err(DecodeError::from("not the body of a link message"));
    };
    Ok(BodyMeasure {
        text_len: found.text_len,
        attributes: found.attributes,
        fits: found.fits,
        empty_ports: found.empty_ports,
    })
}

/// Returns whether two bodies of link messages mean the same: their headers do, and each attribute
/// of the one means the same as that of the other, however they are encoded. Peers are compared as
/// bodies, and the peers inside them by their bytes. Allocates nothing, and builds no value. The
/// result has a meaning if `check` accepts both; each has at least the 16 bytes of a header.
pub fn same(left: &[u8], right: &[u8]) -> bool
    requires left { 16 ≤ length left.now }
    requires right { 16 ≤ length right.now }
    ensures { result ≡ link_body.same left.now right.now }
{
    same_body_over(&LinkPeer, left, right)
}

/// Appends the canonical text of an accepted body that fits; for the crates that write captures.
/// The first `prefix` bytes are known to be canonical; `out` has to have capacity for the text.
pub fn write_body(bytes: &[u8], prefix: usize, out: &mut Vec<u8>)
    requires prefix { IsBodyPrefix link_peer bytes.now prefix }
    requires accepted { link_body.accepted bytes.now ≡ true }
    requires fits { link_body.fits bytes.now ≡ true }
    requires capacity { HasCapacity out.old (link_body.canonical bytes.now) }
    ensures text { out.new.items ≡ out.old.items ++ link_body.canonical bytes.now }
    ensures capacity { vec_capacity out.old ≤ vec_capacity out.new }
{
    write_body_over(&LinkPeer, bytes, prefix, out);
}

/// Appends the canonical text of a body that `check` accepts, and that fits and has no empty ports.
/// Builds no value.
///
/// # Errors
///
/// `AllocError` only if `out` had less capacity than the text needs; `out` is then unchanged.
pub fn write_canonical(bytes: &[u8], out: &mut Vec<u8>) -> Result<(), AllocError>
    requires accepted { link_body.accepted bytes.now ≡ true }
    requires fits { link_body.fits bytes.now ≡ true }
    requires has_ports { link_body.empty_ports bytes.now ≡ false }
    ensures ok { OnOk result (out.new.items ≡ out.old.items ++ link_body.canonical bytes.now) }
    ensures err { OnErr result (out.new.items ≡ out.old.items) }
    ensures capacity { OnErr result
        (vec_capacity out.old < length out.old.items + length (link_body.canonical bytes.now)) }
{
    measures_determine_rules();
    let Some(found) = walk_body(bytes) else {
        unreachable!();
    };
    let Ok(size) = usize::try_from(found.text_len) else {
        return Err(AllocError);
    };
    out.reserve(size)?;
    write_body(bytes, found.prefix as usize, out);
    Ok(())
}
