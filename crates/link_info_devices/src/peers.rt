//! Data of links that come in pairs, whose peers are read by a rule that the caller may define.

ghost use Rattle.std.specs.Prelude.{◌≡◌, ◌<◌, false, true, length, refl, Some, IfOk, IfErr};
ghost use Rattle.std.specs.List.{All};
ghost use Rattle.netlink_packet_core.specs.Attributes.{attribute_text};
ghost use Rattle.netlink_packet_core.specs.AttributeViews.{BeginsWithAttribute, viewed_attribute};
ghost use Rattle.netlink_packet_core.specs.Families.{attribute};
ghost use Rattle.netlink_packet_core.specs.Fits.{attribute_fits};
ghost use Rattle.netlink_packet_core.specs.NlaBuffers.{storage};
ghost use Rattle.attribute_tables_grammar.specs.Lists.{any, first_only, without_context};
ghost use Rattle.attribute_tables_grammar.specs.LookUps.{line_at, table_list_rule, table_row};
ghost use Rattle.attribute_tables_grammar.specs.Readings.{reading_as};
ghost use Rattle.attribute_tables_grammar.specs.Tables.{Payload, holds_no_peers_but};
ghost use Rattle.attribute_tables.specs.Beginnings.{begins_accepted};
ghost use Rattle.attribute_tables.specs.Views.{is_accepted_by, viewed_row};
ghost use Rattle.link_info_grammar.specs.Families.{netkit, pair};
ghost use Rattle.link_info_devices.specs.Netkit.{netkit_entry, netkit_is_row_variant};
ghost use Rattle.link_info_devices.specs.Veth.{pair_entry, pair_is_row_variant};
ghost use Rattle.attribute_tables.specs.Outcomes.{IfMemory, IsRefusedUnless, IsRewrittenBy, IsWrittenBy};
ghost use Rattle.attribute_tables.specs.Outcomes.{ListIsReadAs, ListIsWrittenBy, SucceedsIf};

use super::netkit::InfoNetkit;
use super::veth::PairData;
use attribute_tables::{Reader, parse_first_by, parse_list};
use attribute_tables_grammar::laws::{
    rows_are_looked_up, rows_without_lists_fit, rules_without_peers_are_one,
};
use link_interpreter::PeerRule;
use netlink_packet_core::{DecodeError, Family, NlaBuffer, read_attribute};
use netlink_packet_core_grammar::laws::first_attributes_are_viewed;
use std::alloc::Global;

const PEER: u16 = 1;

/// A family in which the attribute of kind 1, and no other, holds a peer.
pub(crate) trait PeerFamily: Family {
    /// Returns the attribute of a peer with this payload.
    fn of_peer(payload: Vec<u8>) -> Self
        ensures entry { Self.field_entry result ≡ attribute 1 payload.items }
        ensures is_row_variant { Self.is_row_variant result };

    /// Kind 1 is that of a peer.
    ghost peer_line: { line_at Self.rows 1
        ≡ Some (record { is_nested = false; payload = Payload.peer }) };

    /// No other kind is that of a peer.
    ghost one_peer: { holds_no_peers_but 1 Self.rows ≡ true };
}

impl PeerFamily for InfoNetkit {
    fn of_peer(payload: Vec<u8>) -> Self {
        Self::Peer(payload)
    }

    ghost peer_line = { refl };

    ghost one_peer = { refl };
}

impl<const KIND: u16> PeerFamily for PairData<KIND> {
    fn of_peer(payload: Vec<u8>) -> Self {
        Self::Peer(payload)
    }

    ghost peer_line = { refl };

    ghost one_peer = { refl };
}

// Reads one attribute of a family, a peer by a rule.
fn read_with<F: PeerFamily, R: PeerRule>(
    alloc: Global,
    buf: &NlaBuffer<&[u8]>,
    rule: &R,
) -> Result<F, DecodeError>
    requires { BeginsWithAttribute (storage buf.now).now }
    ensures judged { IsRefusedUnless result
        (is_accepted_by (table_row R.peer F.rows) (storage buf.now).now) }
    ensures written { IsRewrittenBy result F.field_entry (λ _. true)
        (viewed_row (table_row R.peer F.rows) (storage buf.now).now)
        (viewed_attribute (storage buf.now).now) }
    ensures is_row_variant { IfOk result (λ v. F.is_row_variant v) }
{
    rows_without_lists_fit();
    rules_without_peers_are_one();
    if buf.kind() == PEER {
        let payload = rule.canonical(alloc, buf.value())?;
        return Ok(F::of_peer(payload));
    }
    read_attribute(alloc, buf)
}

/// A reader of the attributes of the data of `netkit`, their peer by a rule.
#[derive(Drop)]
struct NetkitReader<'r, R>(&'r R);

impl<R: PeerRule> Reader for NetkitReader<'_, R> {
    type Value = InfoNetkit;

    ghost row_of = { λ _. table_row R.peer netkit };

    ghost is_row_variant = { λ _. netkit_is_row_variant };

    // Reading runs out of memory only for accepted attributes.
    ghost may_allocate = { λ _. is_accepted_by (table_row R.peer netkit) };

    fn read(&self, alloc: Global, buf: &NlaBuffer<&[u8]>) -> Result<InfoNetkit, DecodeError> {
        read_with(alloc, buf, self.0)
    }
}

/// A reader of the attribute of the data of `veth` or of `vxcan`, a peer by a rule.
#[derive(Drop)]
struct PairReader<'r, R, const KIND: u16>(&'r R);

impl<R: PeerRule, const KIND: u16> Reader for PairReader<'_, R, KIND> {
    type Value = PairData<KIND>;

    ghost row_of = { λ _. table_row R.peer pair };

    ghost is_row_variant = { λ _. pair_is_row_variant };

    // Reading runs out of memory only for accepted attributes.
    ghost may_allocate = { λ _. is_accepted_by (table_row R.peer pair) };

    fn read(&self, alloc: Global, buf: &NlaBuffer<&[u8]>) -> Result<PairData<KIND>, DecodeError> {
        read_with(alloc, buf, self.0)
    }
}

/// Reads the data of `netkit`, a list of attributes, their peer by a rule. An empty list is
/// accepted.
///
/// # Errors
///
/// Out of memory if an allocation fails, and only if the first attribute is accepted; any other
/// [`DecodeError`] only if the list isn't accepted.
#[tactic(auto, using(crate::proofs::Begins::begins))]
pub fn parse_netkit_with<R: PeerRule>(
    alloc: Global,
    bytes: &[u8],
    rule: &R,
) -> Result<Vec<InfoNetkit>, DecodeError>
    ensures judged { SucceedsIf result ((table_list_rule R.peer any netkit).accepted bytes.now) }
    ensures read { ListIsReadAs result netkit_entry (λ _. true)
        (reading_as any (without_context (table_row R.peer netkit)) bytes.now) }
    ensures written { ListIsWrittenBy result netkit_entry (λ _. true) (table_list_rule R.peer any netkit)
        bytes.now }
    ensures is_row_variant { IfOk result (λ v. All netkit_is_row_variant v.items) }
    ensures not_empty { IfErr result (λ _. 0 < length bytes.now) }
    ensures memory { IfMemory result (begins_accepted (table_row R.peer netkit) bytes.now ≡ true) }
{
    rows_are_looked_up();
    parse_list(alloc, &NetkitReader(rule), bytes)
}

/// Reads the data of `veth` or of `vxcan`: the attribute at their start, a peer by a rule; any
/// bytes may follow it, and are dropped.
///
/// # Errors
///
/// Out of memory if the attribute is accepted and an allocation fails; any other [`DecodeError`]
/// only if it isn't accepted.
#[tactic(auto, using(crate::proofs::Begins::begins))]
pub fn parse_pair_with<R: PeerRule, const KIND: u16>(
    alloc: Global,
    bytes: &[u8],
    rule: &R,
) -> Result<PairData<KIND>, DecodeError>
    ensures judged { SucceedsIf result ((table_list_rule R.peer first_only pair).accepted bytes.now) }
    ensures written { IsWrittenBy result (λ v. attribute_text (pair_entry v))
        (λ v. attribute_fits (pair_entry v)) (table_list_rule R.peer first_only pair) bytes.now }
    ensures is_row_variant { IfOk result (λ v. pair_is_row_variant v) }
    ensures not_empty { IfMemory result (0 < length bytes.now) }
    ensures memory { IfMemory result (begins_accepted (table_row R.peer pair) bytes.now ≡ true) }
{
    rows_are_looked_up();
    first_attributes_are_viewed();
    parse_first_by(alloc, &PairReader::<R, KIND>(rule), bytes)
}
