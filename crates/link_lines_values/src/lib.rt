// The text of link attributes' values: numbers and their names, flags, addresses, records.
#![tactic(auto)]

mod addresses;
pub mod bridge_texts;
mod bytes;
mod dense_rows;
pub mod device_layouts;
mod digits;
mod error_texts;
mod exact;
mod fields;
mod flag_names;
mod flags;
mod groups;
mod indents;
mod internet;
pub mod laws;
mod layouts;
pub mod line_layouts;
pub mod neighbour_texts;
mod number_tables;
mod number_texts;
mod numbers;
mod records;
pub mod route_layouts;
pub mod route_texts;
pub mod traffic_layouts;
pub mod traffic_texts;
mod values;

pub use bytes::{is_zero, push_bytes};
pub use dense_rows::look_up;
pub use digits::{hex_byte, push_decimal, push_four_digits};
pub use error_texts::ERROR;
pub use exact::{Exact, ExactBy, push_raw_value};
pub use fields::{Field, FieldOf, FieldShown, FieldShownBy, Fields, Layout};
pub use flag_names::{
    LINK_EXTENT_MASK, LINK_FLAGS, MESSAGE_ACK_FLAGS, MESSAGE_CREATE_FLAGS, MESSAGE_DELETE_FLAGS,
    MESSAGE_FLAGS, MESSAGE_GET_FLAGS,
};
pub use flags::{FlagName, push_flags, push_word_flags};
pub use indents::push_indent;
pub use layouts::{
    CACHEINFO, ICMP6_STATS, IP6_STATS, IPV4_DEVCONF, IPV6_DEVCONF, IPV6_DEVCONF_ALL, MAP, STATS,
    STATS64, VF_BROADCAST, VF_LINK_STATE, VF_MAC, VF_RATE, VF_SETTING, VF_TX_RATE, VF_VLAN,
    VF_VLAN_INFO,
};
pub use number_tables::{NumberText, Numbers};
pub use number_texts::{
    ADDRESS_FAMILY, AMT_MODE, BOND_MODE, ER_SPAN_DIR, ETHER_TYPE, ETHERNET_PROTOCOL, GENEVE_DF,
    GRE_ENCAP_TYPE, GTP_ROLE, IN6_ADDR_GEN_MODE, IP_VLAN_MODE, LINK_LAYER_TYPE, LINK_MODE,
    MAC_VLAN_MODE, MCTP_PHYS_BINDING, MESSAGE_TYPE, NETKIT_MODE, NETKIT_POLICY, NETKIT_SCRUB,
    PLAIN, STATE, TUNNEL_ENCAP_TYPE, VXLAN_DF,
};
pub use numbers::{find_text, push_name, push_number};
pub use records::{
    is_counters, is_record, push_counters, push_header_fields, push_nonzero_counters,
    push_record_fields, record_size,
};
pub use values::{Shown, ShownBy, push_value};
