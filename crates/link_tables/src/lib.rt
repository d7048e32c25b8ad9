// The tables of links' attributes as constant data: the payload of an attribute by its table, its
// kind and the kinds in force.
#![tactic(auto)]

mod info;
pub mod kinds;
mod message_lists;
mod names;
mod rows;
pub mod table;
mod table_rows;

pub use info::{
    IFLA_INFO_DATA, IFLA_INFO_KIND, IFLA_INFO_SLAVE_DATA, IFLA_INFO_SLAVE_KIND, IFLA_INFO_XSTATS,
    InForce, NO_KINDS, info_held, next_force,
};
pub use kinds::{data_held, port_held};
pub use link_message_grammar::LINK_HEADER_LEN;
pub use rows::{Form, Held, Row, Shape, TableRows};
pub use table::{Table, family_table, indexed_rows, tables_are_bounded};
