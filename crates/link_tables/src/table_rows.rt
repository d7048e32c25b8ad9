//! The rows of each table, at the table's index.

use crate::constant_rows;
use crate::kinds::MACVLAN_ADDRESS;
use crate::rows::Form::{Any, OfKindOne, Ports};
use crate::rows::Held::{LinkInfo, List, Peer, Plain};
use crate::rows::Row;
use crate::rows::Row::{Listed, Unlisted};
use crate::rows::Shape::{
    AtMost, BooleanIfNonzero, BooleanIfOne, BooleanOfFour, Either, Exact, FixedRecord,
    IdAndBoolean, Presence, Raw, Resized, Text,
};
use crate::table::{
    BRIDGE_PORT, BRIDGE_SPECIFIC, DEVLINK_PORT, DPLL_PIN, INET, INET6, INET6_PROTOCOL, MCTP, PORT,
    PROPS, PROTOCOL_DOWN_REASON, SPECIFIC, VF, VF_INFOS, VF_PORTS, VF_STATS, VF_VLANS, XDP,
};

/// The rows of all tables up to the last one that has any; tables in between without rows are
/// empty.
pub const TABLES: &[&[Row]] = &crate::data_tables!(
    constant_rows,
    &crate::xdp!(constant_rows),
    &crate::props!(constant_rows),
    &crate::protocol_down_reason!(constant_rows),
    &crate::devlink_port!(constant_rows),
    &crate::dpll_pin!(constant_rows),
    &crate::mctp!(constant_rows),
    &crate::inet!(constant_rows),
    &crate::inet6!(constant_rows),
    &crate::specific!(constant_rows),
    &crate::vf_stats!(constant_rows),
    &crate::vf_vlans!(constant_rows),
    &crate::vf!(constant_rows),
    &crate::vf_infos!(constant_rows),
    &crate::vf_ports!(constant_rows),
    &[],
    &crate::link_unspec!(constant_rows),
    &crate::link_bridge!(constant_rows),
    &crate::link_inet6!(constant_rows),
    &crate::link_other!(constant_rows),
    &[]
);
