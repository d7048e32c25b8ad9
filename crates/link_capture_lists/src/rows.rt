//! The rows of links' tables with their names, table by table. They are two constants, as one of
//! all rows is larger than the checker copies (10,000 expressions).

use crate::named_rows;
use link_tables::Form::{Any, OfKindOne, Ports};
use link_tables::Held::{LinkInfo, List, Peer, Plain};
use link_tables::Shape::{
    AtMost, BooleanIfNonzero, BooleanIfOne, BooleanOfFour, Either, Exact, FixedRecord,
    IdAndBoolean, Presence, Raw, Resized, Text,
};
use link_tables::kinds::{DATA_COUNT, MACVLAN_ADDRESS};
use link_tables::table::{
    BRIDGE_PORT, BRIDGE_SPECIFIC, DEVLINK_PORT, DPLL_PIN, INET, INET6, INET6_PROTOCOL, MCTP, PORT,
    PROPS, PROTOCOL_DOWN_REASON, SPECIFIC, VF, VF_INFOS, VF_PORTS, VF_STATS, VF_VLANS, XDP,
};
use link_tables::{
    Held, data_tables, devlink_port, dpll_pin, inet, inet6, link_bridge, link_inet6, link_other,
    link_unspec, mctp, props, protocol_down_reason, specific, vf, vf_infos, vf_ports, vf_stats,
    vf_vlans, xdp,
};

/// A row: a kind, its name, and what its payload is.
pub type NamedRow = (u16, &'static [u8], Held);

/// Generates the named rows of a list from its table. A kind without a row is left out.
#[macro_export]
macro_rules! named_rows {
    ($(
        $kind:literal
        $(-> $held_name:literal, $content:expr)?
        $(=> $nested_name:literal, $nested:expr)?
        $(, $name:literal $(, $shape:expr, $shown:expr)?)?;
    )*) => {
        [$(
            $(($kind, $held_name, $content),)?
            $(($kind, $nested_name, $nested),)?
            $($(($kind, $name, Plain($shape)),)?)?
        )*]
    };
}

/// The rows of the tables of link messages, by the index of the table.
pub const MESSAGE_ROWS: [&[NamedRow]; 20] = [
    &xdp!(named_rows),
    &props!(named_rows),
    &protocol_down_reason!(named_rows),
    &devlink_port!(named_rows),
    &dpll_pin!(named_rows),
    &mctp!(named_rows),
    &inet!(named_rows),
    &inet6!(named_rows),
    &specific!(named_rows),
    &vf_stats!(named_rows),
    &vf_vlans!(named_rows),
    &vf!(named_rows),
    &vf_infos!(named_rows),
    &vf_ports!(named_rows),
    &[],
    &link_unspec!(named_rows),
    &link_bridge!(named_rows),
    &link_inet6!(named_rows),
    &link_other!(named_rows),
    &[],
];

/// The rows of the tables of data, by the index of the table, counted from the first of these
/// tables.
pub const DATA_ROWS: [&[NamedRow]; DATA_COUNT] = data_tables!(named_rows);
