//! Rows of lists about the fault management of bridges.

ghost use Rattle.std.specs.Prelude.{◌≡◌, true, [], get_or};
ghost use Rattle.link_lines_values.specs.DenseRows.{are_dense};
ghost use Rattle.link_lines_raw.specs.Rows.{raw_rows_in_code};
ghost use Rattle.link_lines_raw.specs.Tables.{cfm_rows};

use crate::raw_rows_in;
use crate::raw_tables::{
    CFM_CC_CCM_TX, CFM_CC_CONFIG, CFM_CC_PEER_MEP, CFM_CC_PEER_STATUS, CFM_CC_RDI, CFM_MEP_CONFIG,
    CFM_MEP_CREATE, CFM_MEP_DELETE, CFM_MEP_STATUS,
};
use crate::rows::RawBy::{List, Value};
use crate::rows::RawRow;
use link_lines_values::ExactBy::{Bytes, Number, Sized};
use link_lines_values::ShownBy;

/// Cfm (if_bridge.h: IFLA_BRIDGE_CFM_*).
pub const CFM_ROWS: &[RawRow] = &raw_rows_in! {
    1, b"IFLA_BRIDGE_CFM_MEP_CREATE", List(CFM_MEP_CREATE);
    2, b"IFLA_BRIDGE_CFM_MEP_DELETE", List(CFM_MEP_DELETE);
    3, b"IFLA_BRIDGE_CFM_MEP_CONFIG", List(CFM_MEP_CONFIG);
    4, b"IFLA_BRIDGE_CFM_CC_CONFIG", List(CFM_CC_CONFIG);
    5, b"IFLA_BRIDGE_CFM_CC_PEER_MEP_ADD", List(CFM_CC_PEER_MEP);
    6, b"IFLA_BRIDGE_CFM_CC_PEER_MEP_REMOVE", List(CFM_CC_PEER_MEP);
    7, b"IFLA_BRIDGE_CFM_CC_RDI", List(CFM_CC_RDI);
    8, b"IFLA_BRIDGE_CFM_CC_CCM_TX", List(CFM_CC_CCM_TX);
    9, b"IFLA_BRIDGE_CFM_MEP_CREATE_INFO", List(CFM_MEP_CREATE);
    10, b"IFLA_BRIDGE_CFM_MEP_CONFIG_INFO", List(CFM_MEP_CONFIG);
    11, b"IFLA_BRIDGE_CFM_CC_CONFIG_INFO", List(CFM_CC_CONFIG);
    12, b"IFLA_BRIDGE_CFM_CC_RDI_INFO", List(CFM_CC_RDI);
    13, b"IFLA_BRIDGE_CFM_CC_CCM_TX_INFO", List(CFM_CC_CCM_TX);
    14, b"IFLA_BRIDGE_CFM_CC_PEER_MEP_INFO", List(CFM_CC_PEER_MEP);
    15, b"IFLA_BRIDGE_CFM_MEP_STATUS_INFO", List(CFM_MEP_STATUS);
    16, b"IFLA_BRIDGE_CFM_CC_PEER_STATUS_INFO", List(CFM_CC_PEER_STATUS);
};

/// Cfm mep create (if_bridge.h: IFLA_BRIDGE_CFM_MEP_CREATE_*).
pub const CFM_MEP_CREATE_ROWS: &[RawRow] = &raw_rows_in! {
    1, b"IFLA_BRIDGE_CFM_MEP_CREATE_INSTANCE", Value(Number(4));
    2, b"IFLA_BRIDGE_CFM_MEP_CREATE_DOMAIN", Value(Number(4));
    3, b"IFLA_BRIDGE_CFM_MEP_CREATE_DIRECTION", Value(Number(4));
    4, b"IFLA_BRIDGE_CFM_MEP_CREATE_IFINDEX", Value(Number(4));
};

/// Cfm mep delete (if_bridge.h: IFLA_BRIDGE_CFM_MEP_DELETE_INSTANCE).
pub const CFM_MEP_DELETE_ROWS: &[RawRow] = &raw_rows_in! {
    1, b"IFLA_BRIDGE_CFM_MEP_DELETE_INSTANCE", Value(Number(4));
};

/// Cfm mep config (if_bridge.h: IFLA_BRIDGE_CFM_MEP_CONFIG_*).
pub const CFM_MEP_CONFIG_ROWS: &[RawRow] = &raw_rows_in! {
    1, b"IFLA_BRIDGE_CFM_MEP_CONFIG_INSTANCE", Value(Number(4));
    2, b"IFLA_BRIDGE_CFM_MEP_CONFIG_UNICAST_MAC", Value(Sized(6, ShownBy::HardwareAddress));
    3, b"IFLA_BRIDGE_CFM_MEP_CONFIG_MDLEVEL", Value(Number(4));
    4, b"IFLA_BRIDGE_CFM_MEP_CONFIG_MEPID", Value(Number(4));
};

/// Cfm cc config (if_bridge.h: IFLA_BRIDGE_CFM_CC_CONFIG_*).
pub const CFM_CC_CONFIG_ROWS: &[RawRow] = &raw_rows_in! {
    1, b"IFLA_BRIDGE_CFM_CC_CONFIG_INSTANCE", Value(Number(4));
    2, b"IFLA_BRIDGE_CFM_CC_CONFIG_ENABLE", Value(Number(4));
    3, b"IFLA_BRIDGE_CFM_CC_CONFIG_EXP_INTERVAL", Value(Number(4));
    4, b"IFLA_BRIDGE_CFM_CC_CONFIG_EXP_MAID", Value(Bytes);
};

/// Cfm cc peer mep (if_bridge.h: IFLA_BRIDGE_CFM_CC_PEER_*).
pub const CFM_CC_PEER_MEP_ROWS: &[RawRow] = &raw_rows_in! {
    1, b"IFLA_BRIDGE_CFM_CC_PEER_MEP_INSTANCE", Value(Number(4));
    2, b"IFLA_BRIDGE_CFM_CC_PEER_MEPID", Value(Number(4));
};

/// Cfm cc rdi (if_bridge.h: IFLA_BRIDGE_CFM_CC_RDI_*).
pub const CFM_CC_RDI_ROWS: &[RawRow] = &raw_rows_in! {
    1, b"IFLA_BRIDGE_CFM_CC_RDI_INSTANCE", Value(Number(4));
    2, b"IFLA_BRIDGE_CFM_CC_RDI_RDI", Value(Number(4));
};

/// Cfm cc ccm tx (if_bridge.h: IFLA_BRIDGE_CFM_CC_CCM_TX_*).
pub const CFM_CC_CCM_TX_ROWS: &[RawRow] = &raw_rows_in! {
    1, b"IFLA_BRIDGE_CFM_CC_CCM_TX_INSTANCE", Value(Number(4));
    2, b"IFLA_BRIDGE_CFM_CC_CCM_TX_DMAC", Value(Sized(6, ShownBy::HardwareAddress));
    3, b"IFLA_BRIDGE_CFM_CC_CCM_TX_SEQ_NO_UPDATE", Value(Number(4));
    4, b"IFLA_BRIDGE_CFM_CC_CCM_TX_PERIOD", Value(Number(4));
    5, b"IFLA_BRIDGE_CFM_CC_CCM_TX_IF_TLV", Value(Number(4));
    6, b"IFLA_BRIDGE_CFM_CC_CCM_TX_IF_TLV_VALUE", Value(Number(1));
    7, b"IFLA_BRIDGE_CFM_CC_CCM_TX_PORT_TLV", Value(Number(4));
    8, b"IFLA_BRIDGE_CFM_CC_CCM_TX_PORT_TLV_VALUE", Value(Number(1));
};

/// Cfm mep status (if_bridge.h: IFLA_BRIDGE_CFM_MEP_STATUS_*).
pub const CFM_MEP_STATUS_ROWS: &[RawRow] = &raw_rows_in! {
    1, b"IFLA_BRIDGE_CFM_MEP_STATUS_INSTANCE", Value(Number(4));
    2, b"IFLA_BRIDGE_CFM_MEP_STATUS_OPCODE_UNEXP_SEEN", Value(Number(4));
    3, b"IFLA_BRIDGE_CFM_MEP_STATUS_VERSION_UNEXP_SEEN", Value(Number(4));
    4, b"IFLA_BRIDGE_CFM_MEP_STATUS_RX_LEVEL_LOW_SEEN", Value(Number(4));
};

/// Cfm cc peer status (if_bridge.h: IFLA_BRIDGE_CFM_CC_PEER_STATUS_*).
pub const CFM_CC_PEER_STATUS_ROWS: &[RawRow] = &raw_rows_in! {
    1, b"IFLA_BRIDGE_CFM_CC_PEER_STATUS_INSTANCE", Value(Number(4));
    2, b"IFLA_BRIDGE_CFM_CC_PEER_STATUS_PEER_MEPID", Value(Number(4));
    3, b"IFLA_BRIDGE_CFM_CC_PEER_STATUS_CCM_DEFECT", Value(Number(4));
    4, b"IFLA_BRIDGE_CFM_CC_PEER_STATUS_RDI", Value(Number(4));
    5, b"IFLA_BRIDGE_CFM_CC_PEER_STATUS_PORT_TLV_VALUE", Value(Number(1));
    6, b"IFLA_BRIDGE_CFM_CC_PEER_STATUS_IF_TLV_VALUE", Value(Number(1));
    7, b"IFLA_BRIDGE_CFM_CC_PEER_STATUS_SEEN", Value(Number(4));
    8, b"IFLA_BRIDGE_CFM_CC_PEER_STATUS_TLV_SEEN", Value(Number(4));
    9, b"IFLA_BRIDGE_CFM_CC_PEER_STATUS_SEQ_UNEXP_SEEN", Value(Number(4));
};

/// Returns the rows of a table, by its index from that of the first table here on.
#[tactic(auto, unfolding(crate::specs::Tables::cfm_rows))]
pub(crate) fn rows(index: u16) -> &'static [RawRow]
    ensures rows { raw_rows_in_code (λ b. b.now) result.now ≡ get_or cfm_rows index [] }
    ensures dense { are_dense result.now ≡ true }
{
    match index {
        0 => CFM_ROWS,
        1 => CFM_MEP_CREATE_ROWS,
        2 => CFM_MEP_DELETE_ROWS,
        3 => CFM_MEP_CONFIG_ROWS,
        4 => CFM_CC_CONFIG_ROWS,
        5 => CFM_CC_PEER_MEP_ROWS,
        6 => CFM_CC_RDI_ROWS,
        7 => CFM_CC_CCM_TX_ROWS,
        8 => CFM_MEP_STATUS_ROWS,
        9 => CFM_CC_PEER_STATUS_ROWS,
        _ => &[],
    }
}
