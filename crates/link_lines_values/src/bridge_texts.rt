//! The names of numbers and of bits in raw lists and bodies about bridges and about kinds of links.

ghost use Rattle.std.specs.Prelude.{◌≡◌, [], get_or};
ghost use Rattle.link_lines_values.specs.Names.{texts_of};
ghost use Rattle.link_lines_values.specs.NumberTexts.{bridge_texts};

use crate::number_tables::{NumberText, Numbers};

/// Whether the sources of a multicast group are those included or excluded (if_bridge.h, MCAST_*).
pub const MCAST_MODE: Numbers = Numbers(128);

pub(crate) const MCAST_MODE_TEXTS: &[NumberText] = &[(0, b"exclude"), (1, b"include")];

/// Types of multicast routers (if_bridge.h, MDB_RTR_TYPE_*).
pub const MDB_ROUTER_TYPE: Numbers = Numbers(129);

pub(crate) const MDB_ROUTER_TYPE_TEXTS: &[NumberText] = &[
    (0, b"disabled"),
    (1, b"temp_query"),
    (2, b"perm"),
    (3, b"temp"),
];

/// States of multicast groups (if_bridge.h, MDB_TEMPORARY and MDB_PERMANENT).
pub const MDB_STATE: Numbers = Numbers(130);

pub(crate) const MDB_STATE_TEXTS: &[NumberText] = &[(0, b"temporary"), (1, b"permanent")];

/// States of a bridge's ports (if_bridge.h, BR_STATE_*).
pub const BR_STATE: Numbers = Numbers(131);

pub(crate) const BR_STATE_TEXTS: &[NumberText] = &[
    (0, b"disabled"),
    (1, b"listening"),
    (2, b"learning"),
    (3, b"forwarding"),
    (4, b"blocking"),
];

/// Who runs a bridge's spanning tree protocol (if_link.h, IFLA_BR_STP_MODE).
pub const BR_STP_MODE: Numbers = Numbers(132);

pub(crate) const BR_STP_MODE_TEXTS: &[NumberText] = &[(0, b"auto"), (1, b"user"), (2, b"kernel")];

/// How a device's embedded bridge forwards (if_bridge.h, BRIDGE_MODE_*).
pub const BRIDGE_MODE: Numbers = Numbers(133);

pub(crate) const BRIDGE_MODE_TEXTS: &[NumberText] = &[(0, b"veb"), (1, b"vepa"), (65535, b"undef")];

/// Protocols of redundant rings (if_link.h, IFLA_HSR_PROTOCOL).
pub const HSR_PROTOCOL: Numbers = Numbers(134);

pub(crate) const HSR_PROTOCOL_TEXTS: &[NumberText] = &[(0, b"hsr"), (1, b"prp")];

/// States of a CAN controller (can/netlink.h, `enum can_state`).
pub const CAN_STATE: Numbers = Numbers(135);

pub(crate) const CAN_STATE_TEXTS: &[NumberText] = &[
    (0, b"error_active"),
    (1, b"error_warning"),
    (2, b"error_passive"),
    (3, b"bus_off"),
    (4, b"stopped"),
    (5, b"sleeping"),
];

/// Types of tunnels to a process (if_tun.h, IFF_TUN and IFF_TAP).
pub const TUN_TYPE: Numbers = Numbers(136);

pub(crate) const TUN_TYPE_TEXTS: &[NumberText] = &[(1, b"tun"), (2, b"tap")];

/// Whether a netkit has a peer (if_link.h, NETKIT_DEVICE_*).
pub const NETKIT_PAIRING: Numbers = Numbers(137);

pub(crate) const NETKIT_PAIRING_TEXTS: &[NumberText] = &[(0, b"pair"), (1, b"single")];

/// Requests of a virtual port (if_link.h, PORT_REQUEST_*).
pub const PORT_REQUEST: Numbers = Numbers(138);

pub(crate) const PORT_REQUEST_TEXTS: &[NumberText] = &[
    (0, b"preassociate"),
    (1, b"preassociate_rr"),
    (2, b"associate"),
    (3, b"disassociate"),
];

/// What a dump of a bridge's VLANs has (if_bridge.h, BRIDGE_VLANDB_DUMPF_*).
pub const VLANDB_DUMP_FLAGS: Numbers = Numbers(139);

pub(crate) const VLANDB_DUMP_FLAGS_TEXTS: &[NumberText] = &[(0x1, b"STATS"), (0x2, b"GLOBAL")];

/// Flags of multicast groups (if_bridge.h, MDB_FLAGS_*).
pub const MDB_FLAGS: Numbers = Numbers(140);

pub(crate) const MDB_FLAGS_TEXTS: &[NumberText] = &[
    (0x1, b"OFFLOAD"),
    (0x2, b"FAST_LEAVE"),
    (0x4, b"STAR_EXCL"),
    (0x8, b"BLOCKED"),
    (0x10, b"OFFLOAD_FAILED"),
];

/// Whom a request about a bridge's port is for (if_bridge.h, BRIDGE_FLAGS_*).
pub const BRIDGE_FLAGS: Numbers = Numbers(141);

pub(crate) const BRIDGE_FLAGS_TEXTS: &[NumberText] = &[(0x1, b"MASTER"), (0x2, b"SELF")];

/// Flags of a port's VLANs (if_bridge.h, BRIDGE_VLAN_INFO_*).
pub const BRIDGE_VLAN_FLAGS: Numbers = Numbers(142);

pub(crate) const BRIDGE_VLAN_FLAGS_TEXTS: &[NumberText] = &[
    (0x1, b"MASTER"),
    (0x2, b"PVID"),
    (0x4, b"UNTAGGED"),
    (0x8, b"RANGE_BEGIN"),
    (0x10, b"RANGE_END"),
    (0x20, b"BRENTRY"),
    (0x40, b"ONLY_OPTS"),
];

/// Flags of a `vlan` (if_vlan.h, `enum vlan_flags`).
pub const VLAN_FLAGS: Numbers = Numbers(143);

pub(crate) const VLAN_FLAGS_TEXTS: &[NumberText] = &[
    (0x1, b"REORDER_HDR"),
    (0x2, b"GVRP"),
    (0x4, b"LOOSE_BINDING"),
    (0x8, b"MVRP"),
    (0x10, b"BRIDGE_BINDING"),
];

/// Options of a bridge, by their number as a bit (if_bridge.h, BR_BOOLOPT_*).
pub const BR_BOOLOPT: Numbers = Numbers(144);

pub(crate) const BR_BOOLOPT_TEXTS: &[NumberText] = &[
    (0x1, b"NO_LL_LEARN"),
    (0x2, b"MCAST_VLAN_SNOOPING"),
    (0x4, b"MST_ENABLE"),
    (0x8, b"MDB_OFFLOAD_FAIL_NOTIFICATION"),
    (0x10, b"FDB_LOCAL_VLAN_0"),
];

/// Modes of a CAN controller (can/netlink.h, CAN_CTRLMODE_*).
pub const CAN_CTRLMODE_FLAGS: Numbers = Numbers(145);

pub(crate) const CAN_CTRLMODE_FLAGS_TEXTS: &[NumberText] = &[
    (0x1, b"LOOPBACK"),
    (0x2, b"LISTENONLY"),
    (0x4, b"3_SAMPLES"),
    (0x8, b"ONE_SHOT"),
    (0x10, b"BERR_REPORTING"),
    (0x20, b"FD"),
    (0x40, b"PRESUME_ACK"),
    (0x80, b"FD_NON_ISO"),
    (0x100, b"CC_LEN8_DLC"),
    (0x200, b"TDC_AUTO"),
    (0x400, b"TDC_MANUAL"),
    (0x800, b"RESTRICTED"),
    (0x1000, b"XL"),
    (0x2000, b"XL_TDC_AUTO"),
    (0x4000, b"XL_TDC_MANUAL"),
    (0x8000, b"XL_TMS"),
];

/// Returns the numbers of a table with their names, by its index from that of the first table here on.
pub(crate) fn texts(index: u8) -> &'static [NumberText]
    ensures { texts_of (λ b. b.now) result.now ≡ get_or bridge_texts index [] }
{
    match index {
        0 => MCAST_MODE_TEXTS,
        1 => MDB_ROUTER_TYPE_TEXTS,
        2 => MDB_STATE_TEXTS,
        3 => BR_STATE_TEXTS,
        4 => BR_STP_MODE_TEXTS,
        5 => BRIDGE_MODE_TEXTS,
        6 => HSR_PROTOCOL_TEXTS,
        7 => CAN_STATE_TEXTS,
        8 => TUN_TYPE_TEXTS,
        9 => NETKIT_PAIRING_TEXTS,
        10 => PORT_REQUEST_TEXTS,
        11 => VLANDB_DUMP_FLAGS_TEXTS,
        12 => MDB_FLAGS_TEXTS,
        13 => BRIDGE_FLAGS_TEXTS,
        14 => BRIDGE_VLAN_FLAGS_TEXTS,
        15 => VLAN_FLAGS_TEXTS,
        16 => BR_BOOLOPT_TEXTS,
        17 => CAN_CTRLMODE_FLAGS_TEXTS,
        _ => &[],
    }
}
