//! The tables of attributes, each with a constant; those of data are in `kinds`.

ghost use Rattle.std.specs.Prelude.{◌≡◌, ℕ, true, [], get_or};
ghost use Rattle.attribute_tables_grammar.specs.Tables.{rows_bounded};
ghost use Rattle.link_message_grammar.specs.LinkMessage.{family_of, link_table};
ghost use Rattle.link_tables.specs.Rows.{lists_of};
ghost use Rattle.link_tables.specs.Tables.{family_table, is_link_info, table_of, AreRowsOf};

use crate::rows::{Row, TableRows};
use crate::table_rows::TABLES;

/// A table of attributes, by its index. Each is named by a constant of this module or of `kinds`.
#[derive(Clone, Copy, PartialEq, Eq)]
pub struct Table(pub u8);

impl Table {
    /// Returns whether the payloads of the table's attributes depend on the kinds in force.
    pub fn is_link_info(self) -> bool
        ensures { result ≡ is_link_info self }
    {
        self.0 == LINK_INFO.0
    }
}

/// IFLA_XDP_*, the attributes inside IFLA_XDP.
pub const XDP: Table = Table(0);

/// Alternative names of a link, the attributes inside IFLA_PROP_LIST.
pub const PROPS: Table = Table(1);

/// IFLA_PROTO_DOWN_REASON_*, the attributes inside IFLA_PROTO_DOWN_REASON.
pub const PROTOCOL_DOWN_REASON: Table = Table(2);

/// DEVLINK_ATTR_*, the attributes inside IFLA_DEVLINK_PORT.
pub const DEVLINK_PORT: Table = Table(3);

/// DPLL_A_PIN_*, the attributes inside IFLA_DPLL_PIN.
pub const DPLL_PIN: Table = Table(4);

/// IFLA_MCTP_*, the attributes inside AF_MCTP of IFLA_AF_SPEC.
pub const MCTP: Table = Table(5);

/// IFLA_INET_*, the attributes inside AF_INET of IFLA_AF_SPEC.
pub const INET: Table = Table(6);

/// IFLA_INET6_*, the attributes inside AF_INET6 of IFLA_AF_SPEC.
pub const INET6: Table = Table(7);

/// The address families (AF_*), the attributes inside IFLA_AF_SPEC under AF_UNSPEC.
pub const SPECIFIC: Table = Table(8);

/// IFLA_VF_STATS_*, the attributes inside IFLA_VF_STATS.
pub const VF_STATS: Table = Table(9);

/// IFLA_VF_VLAN_INFO, the attributes inside IFLA_VF_VLAN_LIST.
pub const VF_VLANS: Table = Table(10);

/// IFLA_VF_*, the attributes inside IFLA_VF_INFO.
pub const VF: Table = Table(11);

/// IFLA_VF_INFO, the attributes inside IFLA_VFINFO_LIST.
pub const VF_INFOS: Table = Table(12);

/// IFLA_VF_PORT, the attributes inside IFLA_VF_PORTS.
pub const VF_PORTS: Table = Table(13);

/// A list of raw attributes, without names.
pub const RAW: Table = Table(14);

/// IFLA_* under AF_UNSPEC.
pub const LINK_UNSPEC: Table = Table(15);

/// IFLA_* under AF_BRIDGE.
pub const LINK_BRIDGE: Table = Table(16);

/// IFLA_* under AF_INET6.
pub const LINK_INET6: Table = Table(17);

/// IFLA_* under any other family.
pub const LINK_OTHER: Table = Table(18);

/// IFLA_INFO_*, the attributes inside IFLA_LINKINFO. Their payloads depend on the kinds in force,
/// so there are no rows here: see `info_held`.
pub const LINK_INFO: Table = Table(19);

/// IFLA_VLAN_*. In this table, and each from here on, all attributes are raw: their kinds have
/// names, but no rows. Their indexes begin at 64, so that a further table of data moves none.
pub const VLAN: Table = Table(64);

/// IFLA_BR_*.
pub const BRIDGE: Table = Table(65);

/// IFLA_BOND_*.
pub const BOND: Table = Table(66);

/// IFLA_TUN_*.
pub const TUN: Table = Table(67);

/// IFLA_CAN_*.
pub const CAN: Table = Table(68);

/// IFLA_HSR_*.
pub const HSR: Table = Table(69);

/// IFLA_DSA_*.
pub const DSA: Table = Table(70);

/// IFLA_BRPORT_*: the port data of `bridge`, and the attributes inside IFLA_PROTINFO under
/// AF_BRIDGE.
pub const BRIDGE_PORT: Table = Table(71);

/// IFLA_BOND_SLAVE_*: the port data of `bond`.
pub const BOND_PORT: Table = Table(72);

/// IFLA_BRIDGE_*, the attributes inside IFLA_AF_SPEC under AF_BRIDGE.
pub const BRIDGE_SPECIFIC: Table = Table(73);

/// IFLA_INET6_*, the attributes inside IFLA_PROTINFO under AF_INET6.
pub const INET6_PROTOCOL: Table = Table(74);

/// IFLA_PORT_*, the attributes inside IFLA_VF_PORT and IFLA_PORT_SELF.
pub const PORT: Table = Table(75);

// The families with tables of their own (socket.h).
const AF_UNSPEC: u8 = 0;

const AF_BRIDGE: u8 = 7;

const AF_INET6: u8 = 10;

/// Returns the table of a link's attributes under an address family.
pub fn family_table(family: u8) -> Table
    ensures is { result ≡ family_table family }
    ensures table { table_of result.0 ≡ link_table (family_of family) }
{
    if family == AF_UNSPEC {
        LINK_UNSPEC
    } else if family == AF_BRIDGE {
        LINK_BRIDGE
    } else if family == AF_INET6 {
        LINK_INET6
    } else {
        LINK_OTHER
    }
}

// The rows of a table; none if the index is out of range.
fn table_at<'a>(tables: &'a [&'a [Row]], table: Table) -> &'a [Row]
    ensures { result.now ≡ get_or (lists_of tables.now) table.0 [] }
{
    match tables.get(table.0 as usize) {
        Some(rows) => rows,
        None => &[],
    }
}

/// Returns the rows of a table, which the attributes of a list share.
pub fn indexed_rows(table: Table) -> TableRows<'static>
    ensures { AreRowsOf table result }
{
    TableRows::new(table_at(TABLES, table))
}

/// The rows of each table are within the grammar's bounds, so that their rules are lawful.
pub fn tables_are_bounded()
    ensures { (table : ℕ) → rows_bounded (table_of table) ≡ true }
{}
