//! The tables of raw attributes that occur in lists of normal texts.

ghost use Rattle.std.specs.Prelude.{◌≡◌};
ghost use Rattle.link_lines_texts.specs.RawTables.{raw_table, table_in};

use link_lines_raw::{RawTable, raw_tables as raw};
use link_tables::Table;
use link_tables::kinds::{GENEVE, GRE, GRE6, NETKIT, XFRM};
use link_tables::table::{
    BOND, BOND_PORT, BRIDGE, BRIDGE_PORT, BRIDGE_SPECIFIC, CAN, DEVLINK_PORT, DSA, HSR, INET,
    INET6, INET6_PROTOCOL, LINK_BRIDGE, LINK_INET6, LINK_OTHER, LINK_UNSPEC, MCTP, PORT, TUN, VF,
    VLAN,
};

/// The tables whose raw attributes have names, each with the table of those.
pub const RAW_TABLES: &[(Table, RawTable)] = &[
    (DEVLINK_PORT, raw::DEVLINK_PORT),
    (MCTP, raw::MCTP),
    (INET, raw::INET),
    (INET6, raw::INET6),
    (VF, raw::VF),
    (LINK_UNSPEC, raw::LINK),
    (LINK_BRIDGE, raw::LINK),
    (LINK_INET6, raw::LINK),
    (LINK_OTHER, raw::LINK),
    (GENEVE, raw::GENEVE),
    (GRE, raw::GRE),
    (GRE6, raw::GRE6),
    (NETKIT, raw::NETKIT),
    (XFRM, raw::XFRM),
    (VLAN, raw::VLAN),
    (BRIDGE, raw::BRIDGE),
    (BOND, raw::BOND),
    (TUN, raw::TUN),
    (CAN, raw::CAN),
    (HSR, raw::HSR),
    (DSA, raw::DSA),
    (BRIDGE_PORT, raw::BRIDGE_PORT),
    (BOND_PORT, raw::BOND_PORT),
    (BRIDGE_SPECIFIC, raw::BRIDGE_SPECIFIC),
    (INET6_PROTOCOL, raw::INET6),
    (PORT, raw::PORT),
];

// A loop over a slice, since the prover repeats a constant table inside a loop in each goal.
fn find_table(rows: &[(Table, RawTable)], table: Table) -> RawTable
    ensures { result ≡ table_in rows.now table }
{
    for row in rows {
        if row.0.0 == table.0 {
            return row.1;
        }
    }
    raw::UNNAMED
}

/// Returns the table of the raw attributes in lists of a table.
#[tactic(auto, unfolding(crate::specs::RawTables::raw_table))]
pub(crate) fn raw_table(table: Table) -> RawTable
    ensures { result ≡ raw_table table }
{
    find_table(RAW_TABLES, table)
}
