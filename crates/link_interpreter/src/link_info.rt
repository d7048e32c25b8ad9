//! Checks of link info, without allocating and without a typed value.

ghost use Rattle.std.specs.Prelude.{◌≡◌, true, false, is_ok, option_map, IfSome, IfOk, IfErr};
ghost use Rattle.attribute_tables_grammar.specs.Walks.{measure};
ghost use Rattle.netlink_packet_core_numbers.specs.Errors.{is_memory};
ghost use Rattle.link_info_grammar.specs.LinkInfo.{info_rule};
ghost use Rattle.link_interpreter.specs.Measures.{view, IsListMeasure};
ghost use Rattle.attribute_tables_grammar.specs.Peers.{bytes_peer};

use crate::measure::measure_info;
use crate::peers::{BytesPeer, PeerRule, PeerSet, Ruled};
use crate::same::same_info;
use crate::shapes::Measured;
use attribute_tables_grammar::laws::measures_determine_rules;
use netlink_packet_core_numbers::DecodeError;

/// The measure of a list of link info.
#[derive(Clone, Copy, Debug, PartialEq, Eq)]
pub struct ListMeasure {
    /// The length of the canonical encoding in bytes.
    pub text_len: u128,
    /// The number of attributes, at all depths.
    pub attributes: u64,
    /// Whether each length in the canonical encoding is at most 65535.
    pub fits: bool,
}

// Returns the measure of a list of link info, with these peers; `None` if the bytes are none.
fn measure_list<P: PeerSet>(peers: &P, bytes: &[u8]) -> Option<Measured>
    ensures measure { option_map view result ≡ measure (info_rule P.peer) bytes.now }
    ensures already_canonical { IfSome result
        (λ m. m.is_canonical ≡ true → (info_rule P.peer).canonical bytes.now ≡ bytes.now) }
{
    measure_info(peers, bytes)
}

// Checks a list of link info, with these peers.
fn check_over<P: PeerSet>(peers: &P, bytes: &[u8]) -> Result<ListMeasure, DecodeError>
    ensures ok { is_ok result ≡ (info_rule P.peer).accepted bytes.now }
    ensures measure { IfOk result (λ m. IsListMeasure (info_rule P.peer) bytes.now m) }
    ensures err { IfErr result (λ e. is_memory e ≡ false) }
{
    measures_determine_rules();
    let Some(found) = measure_list(peers, bytes) else {
        return Err(DecodeError::from("not a list of link info"));
    };
    Ok(ListMeasure {
        text_len: found.text_len,
        attributes: found.attributes,
        fits: found.fits,
    })
}

// Whether two lists of link info are equivalent, with these peers.
#[tactic(auto, unfolding(link_info_grammar::specs::LinkInfo::info_rule, link_info_grammar::specs::LinkInfo::info_grammar, link_info_grammar::specs::LinkInfo::data_rule, link_info_grammar::specs::LinkInfo::port_data_rule))]
fn same_list_over<P: PeerSet>(peers: &P, left: &[u8], right: &[u8]) -> bool
    ensures { result ≡ (info_rule P.peer).same left.now right.now }
{
    same_info(peers, left, right)
}

/// Checks the bytes of IFLA_LINKINFO, and returns the measure of the list. Empty bytes are the
/// empty list.
///
/// # Errors
///
/// A [`DecodeError`], never out of memory, if the list isn't accepted. Allocates nothing.
pub fn check_list(bytes: &[u8]) -> Result<ListMeasure, DecodeError>
    ensures ok { is_ok result ≡ (info_rule bytes_peer).accepted bytes.now }
    ensures measure { IfOk result (λ m. IsListMeasure (info_rule bytes_peer) bytes.now m) }
    ensures err { IfErr result (λ e. is_memory e ≡ false) }
{
    check_over(&BytesPeer, bytes)
}

/// Checks the bytes of IFLA_LINKINFO, the peers inside by a rule, and returns the measure of the
/// list. Empty bytes are the empty list. `check_list` is this under `BytesPeer`.
///
/// # Errors
///
/// A [`DecodeError`], never out of memory, if the list isn't accepted under the rule. Allocates
/// nothing.
pub fn check_list_with<R: PeerRule>(bytes: &[u8], rule: &R) -> Result<ListMeasure, DecodeError>
    ensures ok { is_ok result ≡ (info_rule R.peer).accepted bytes.now }
    ensures measure { IfOk result (λ m. IsListMeasure (info_rule R.peer) bytes.now m) }
    ensures err { IfErr result (λ e. is_memory e ≡ false) }
{
    check_over(&Ruled(rule), bytes)
}

/// Returns whether two lists of link info are equivalent: their attributes are pairwise, kinds and
/// names, data and port data by the tables of the kinds in force, however the bytes encode them. It
/// allocates nothing, and builds no value. The result is meaningful if `check_list` accepts both.
pub fn same_list(left: &[u8], right: &[u8]) -> bool
    ensures { result ≡ (info_rule bytes_peer).same left.now right.now }
{
    same_list_over(&BytesPeer, left, right)
}

/// Returns whether two lists of link info are equivalent, their peers by a rule. It allocates
/// nothing, and builds no value. The result is meaningful if `check_list_with` accepts both under
/// that rule. `same_list` is this under `BytesPeer`.
pub fn same_list_with<R: PeerRule>(left: &[u8], right: &[u8], rule: &R) -> bool
    ensures { result ≡ (info_rule R.peer).same left.now right.now }
{
    same_list_over(&Ruled(rule), left, right)
}

/// Returns the error for link info that wasn't read, its peers by a rule: out of memory if and only
/// if the list is accepted. The reader may have run out of memory before it reached an invalid
/// attribute: then `error` is replaced.
pub fn list_error_with<R: PeerRule>(bytes: &[u8], rule: &R, error: DecodeError) -> DecodeError
    requires refused { is_memory error ≡ false
        → (info_rule R.peer).accepted bytes.now ≡ false }
    ensures { (info_rule R.peer).accepted bytes.now ≡ is_memory result }
{
    if !error.is_memory() {
        return error;
    }
    match check_list_with(bytes, rule) {
        Err(refusal) => refusal,
        Ok(_) => error,
    }
}
