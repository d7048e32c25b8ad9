//! How the payloads of attributes with names are shown.

ghost use Rattle.std.specs.Prelude.{◌≡◌, ◌+◌, ◌<◌, ◌≤◌, true, length, unwrap_or, vec_capacity, IfOk, OnErr};
ghost use Rattle.link_lines_texts.specs.Format.{inside_of, inside_held, known_inside, of_held, peer_inside, statistics_inside};
ghost use Rattle.link_lines_texts.specs.Format.{within_reach};
ghost use Rattle.link_tables.specs.InForce.{held_in_force, in_force};

use crate::canonical_peers::is_canonical_peer;
use link_lines_parts::DEEPEST_LEVEL;
use link_lines_raw::{Raw, RawBy, RawTable};
use link_lines_values::device_layouts::CAN_DEVICE_STATS;
use link_lines_values::{ExactBy, Shown, ShownBy};
use link_tables::{Form, Held, IFLA_INFO_DATA, IFLA_INFO_SLAVE_DATA, InForce, Table, info_held};
use std::alloc::AllocError;

/// How the payload of an attribute with a name is shown, with formats of type `S`.
#[derive(Clone, Copy)]
pub enum FormatBy<S> {
    /// The value of the payload.
    Value(S),
    /// The value of the payload; in a request the word `bytes` and the bytes, which kernels read as
    /// attributes there.
    Settings(S),
    /// The word `bytes` and the bytes.
    Plain,
    /// Raw attributes of that table, on the lines below.
    Raw(RawTable),
    /// The statistics of links of the kind `can`.
    CanStatistics,
    /// The other end of a pair, on the lines below: its header and its attributes.
    Peer,
    /// The attributes of that table, on the lines below.
    List(Form, Table),
    /// The attributes of link info, on the lines below.
    LinkInfo,
    /// The attributes of the table that the kind in force determines, on the lines below.
    Data,
    /// The statistics of the kind in force.
    Statistics,
    /// The attributes of the table that the port kind in force determines, on the lines below.
    PortData,
}

/// How the payload of an attribute with a name is shown.
pub type Format = FormatBy<Shown>;

/// What a list of attributes is in, as far as the format of a payload depends on it: whether it is
/// in a peer, and whether it is in a request.
#[derive(Clone, Copy)]
pub struct Scope {
    pub is_in_peer: bool,
    pub is_request: bool,
}

/// The kind whose statistics have names.
const CAN: &[u8] = b"can";

/// The statistics of links of the kind `can` (can/netlink.h: struct can_device_stats).
pub const CAN_STATISTICS: Raw = RawBy::Value(ExactBy::Counters(CAN_DEVICE_STATS));

/// Returns how data are shown: as a list or as bytes.
fn of_held(held: Held) -> Format
    ensures { inside_of result ≡ of_held held }
{
    match held {
        Held::List(form, table) => FormatBy::List(form, table),
        Held::Plain(_) | Held::Peer | Held::LinkInfo => FormatBy::Value(ShownBy::Bytes),
    }
}

/// Returns how data in link info are shown: as bytes if no kind is in force on which they depend.
fn info_format(force: InForce<'_>, kind: u16) -> Format
    ensures { inside_of result
        ≡ inside_held (held_in_force (in_force force.entry) kind) }
{
    match info_held(force, kind) {
        Some(held) => of_held(held),
        None => FormatBy::Value(ShownBy::Bytes),
    }
}

/// Returns how the statistics of the kind in force are shown.
fn statistics_format(force: InForce<'_>) -> Format
    ensures { inside_of result
        ≡ statistics_inside (in_force force.entry).kind }
{
    match force.kind {
        Some(kind) if kind == CAN => FormatBy::CanStatistics,
        _ => FormatBy::Value(ShownBy::Bytes),
    }
}

/// Returns how a peer inside a peer is shown: as a peer if it is canonical, else as bytes.
fn inner_peer_format(payload: &[u8], scratch: &mut Vec<u8>) -> Result<Format, AllocError>
    ensures ok { IfOk result (λ format. inside_of format
        ≡ peer_inside true payload.now) }
    ensures scratch { scratch.new.items ≡ scratch.old.items }
    ensures capacity { vec_capacity scratch.old ≤ vec_capacity scratch.new }
    ensures memory { OnErr result (vec_capacity scratch.old < length scratch.old.items + length payload.now) }
{
    if is_canonical_peer(payload, scratch)? {
        Ok(FormatBy::Peer)
    } else {
        Ok(FormatBy::Plain)
    }
}

/// Returns how a payload is shown under the kinds in force; `None` if as its row says, so that no
/// row's format is copied. To look whether a peer inside a peer is canonical, its text may be
/// written at the end of `scratch`, and is removed again.
///
/// # Errors
///
/// `AllocError` if `scratch` lacked capacity for the payload's bytes and can't grow; it is unchanged.
pub(crate) fn known_format(
    scope: Scope,
    force: InForce<'_>,
    format: &Format,
    payload: &[u8],
    scratch: &mut Vec<u8>,
) -> Result<Option<Format>, AllocError>
    ensures ok { IfOk result (λ known.
        inside_of (unwrap_or known format.now)
        ≡ known_inside scope (in_force force.entry)
        (inside_of format.now) payload.now) }
    ensures scratch { scratch.new.items ≡ scratch.old.items }
    ensures capacity { vec_capacity scratch.old ≤ vec_capacity scratch.new }
    ensures memory { OnErr result (vec_capacity scratch.old < length scratch.old.items + length payload.now) }
{
    Ok(match format {
        FormatBy::Data => Some(info_format(force, IFLA_INFO_DATA)),
        FormatBy::Statistics => Some(statistics_format(force)),
        FormatBy::PortData => Some(info_format(force, IFLA_INFO_SLAVE_DATA)),
        FormatBy::Settings(shown) if !scope.is_request => Some(FormatBy::Value(*shown)),
        FormatBy::Settings(_) => Some(FormatBy::Plain),
        FormatBy::Peer if scope.is_in_peer => Some(inner_peer_format(payload, scratch)?),
        _ => None,
    })
}

/// Returns the known format if there is one, or else that of the row.
pub(crate) fn or_format<'a>(known: &'a Option<Format>, format: &'a Format) -> &'a Format
    ensures { result.now ≡ unwrap_or known.now format.now }
{
    match known {
        Some(known) => known,
        None => format,
    }
}

/// How a list or a peer is shown whose lines would be too deep.
const TOO_DEEP: &Format = &FormatBy::Plain;

/// Returns a format if lines of this level may be below the attribute's name, and otherwise that in
/// which bytes are shown in place of a list or a peer.
pub(crate) fn within_reach(level: usize, format: &Format) -> &Format
    ensures { inside_of result.now ≡ within_reach level (inside_of format.now) }
{
    match format {
        FormatBy::Peer | FormatBy::List(_, _) | FormatBy::LinkInfo if level > DEEPEST_LEVEL => {
            TOO_DEEP
        }
        _ => format,
    }
}
