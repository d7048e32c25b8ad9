//! Checks of data under a name, without allocating and without a typed value, for the crates that
//! read such data.

ghost use Rattle.std.specs.Prelude.{◌≡◌, false};
ghost use Rattle.netlink_packet_core_numbers.specs.Errors.{is_memory};
ghost use Rattle.link_info_grammar.specs.LinkInfo.{data_rule, port_data_rule};

use crate::measure::measure_held;
use crate::peers::PeerSet;
use attribute_tables_grammar::laws::{measures_determine_rules, names_are_looked_up};
use link_tables::{data_held, port_held};
use netlink_packet_core_numbers::DecodeError;

/// Returns whether the bytes of IFLA_INFO_DATA are accepted as the data under a kind's name, with
/// these peers.
pub fn accepts_data<P: PeerSet>(peers: &P, name: &[u8], payload: &[u8]) -> bool
    ensures { result ≡ (data_rule P.peer name.now).accepted payload.now }
{
    names_are_looked_up();
    measures_determine_rules();
    measure_held(peers, data_held(name), payload).is_some()
}

/// Returns whether the bytes of IFLA_INFO_SLAVE_DATA are accepted as the data under a port kind's
/// name, with these peers.
pub fn accepts_port_data<P: PeerSet>(peers: &P, name: &[u8], payload: &[u8]) -> bool
    ensures { result ≡ (port_data_rule P.peer name.now).accepted payload.now }
{
    names_are_looked_up();
    measures_determine_rules();
    measure_held(peers, port_held(name), payload).is_some()
}

/// Returns the error for data under a kind's name that weren't read, with these peers: out of
/// memory if and only if the data are accepted. The reader may have run out of memory before it
/// reached an invalid attribute: then `error` is replaced.
pub fn data_error<P: PeerSet>(
    peers: &P,
    name: &[u8],
    payload: &[u8],
    error: DecodeError,
) -> DecodeError
    requires refused { is_memory error ≡ false
        → (data_rule P.peer name.now).accepted payload.now ≡ false }
    ensures { (data_rule P.peer name.now).accepted payload.now ≡ is_memory result }
{
    if error.is_memory() && !accepts_data(peers, name, payload) {
        return DecodeError::from("no data of their kind");
    }
    error
}
