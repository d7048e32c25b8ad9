//! The names of attributes in the data of links and of ports.

use crate::attribute_names::AttributeRow;
use crate::format::FormatBy::{List, Peer, Value};
use crate::list_names;
use link_lines_values::ShownBy::{
    Address, BigEndian, BigEndianFlags, Boolean, Flags, FlagsAndMask, HardwareAddress, Number,
    OptionalByte, PortRange, Presence, Signed, Text,
};
use link_lines_values::{
    AMT_MODE, ER_SPAN_DIR, ETHERNET_PROTOCOL, GENEVE_DF, GRE_ENCAP_TYPE, GTP_ROLE, IP_VLAN_MODE,
    MAC_VLAN_MODE, NETKIT_MODE, NETKIT_POLICY, NETKIT_SCRUB, PLAIN, TUNNEL_ENCAP_TYPE, VXLAN_DF,
};
use link_tables::Form::Any;
use link_tables::data_tables;
use link_tables::kinds::{DATA_COUNT, MACVLAN_ADDRESS};

/// The names of the attributes of each table of data, by the index of the table less that of `AMT`.
pub const DATA_NAMES: [&[AttributeRow]; DATA_COUNT] = data_tables!(list_names);
