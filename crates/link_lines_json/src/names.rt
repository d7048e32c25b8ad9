//! Names of attributes and fields whose values have a form of their own.

ghost use Rattle.std.specs.Prelude.{◌≡◌};
ghost use Rattle.link_lines_json.specs.Names.{bytes_names, ends_as_bytes, has_end_of_bytes, has_letter_of_object};
ghost use Rattle.link_lines_json.specs.Names.{is_letter_of_object, number_list_names, object_fields, text_fields};
ghost use Rattle.link_lines_parts.specs.Names.{is_among};

use link_lines_parts::is_among;

/// The attributes whose values are bytes in hex, which may look like numbers.
pub const BYTES: &[&[u8]] = &[
    b"BOND_3AD_STAT_PAD",
    b"BRIDGE_QUERIER_PAD",
    b"BRIDGE_VLANDB_GOPTS_PAD",
    b"BRIDGE_VLANDB_STATS_PAD",
    b"BRIDGE_XSTATS_PAD",
    b"FRA_PAD",
    b"FRA_UNUSED2",
    b"FRA_UNUSED3",
    b"FRA_UNUSED4",
    b"FRA_UNUSED5",
    b"IFLA_ADDRESS",
    b"IFLA_AF_SPEC",
    b"IFLA_BOND_AD_ACTOR_SYSTEM",
    b"IFLA_BOND_AD_INFO_PARTNER_MAC",
    b"IFLA_BOND_SLAVE_PERM_HWADDR",
    b"IFLA_BRIDGE_CFM_CC_CCM_TX_DMAC",
    b"IFLA_BRIDGE_CFM_CC_CONFIG_EXP_MAID",
    b"IFLA_BRIDGE_CFM_MEP_CONFIG_UNICAST_MAC",
    b"IFLA_BROADCAST",
    b"IFLA_BRPORT_BRIDGE_ID",
    b"IFLA_BRPORT_PAD",
    b"IFLA_BRPORT_ROOT_ID",
    b"IFLA_BR_BRIDGE_ID",
    b"IFLA_BR_GROUP_ADDR",
    b"IFLA_BR_PAD",
    b"IFLA_BR_ROOT_ID",
    b"IFLA_COST",
    b"IFLA_HSR_SUPERVISION_ADDR",
    b"IFLA_INET6_MCAST",
    b"IFLA_INFO_DATA",
    b"IFLA_INFO_SLAVE_DATA",
    b"IFLA_INFO_XSTATS",
    b"IFLA_MACVLAN_MACADDR",
    b"IFLA_NETKIT_PEER_INFO",
    b"IFLA_PERM_ADDRESS",
    b"IFLA_PHYS_PORT_ID",
    b"IFLA_PHYS_SWITCH_ID",
    b"IFLA_PORT_HOST_UUID",
    b"IFLA_PORT_INSTANCE_UUID",
    b"IFLA_PRIORITY",
    b"IFLA_PROTINFO",
    b"IFLA_WIRELESS",
    b"IOAM6_IPTUNNEL_TRACE",
    b"LWTUNNEL_IP6_PAD",
    b"LWTUNNEL_IP_OPT_GENEVE_DATA",
    b"LWTUNNEL_IP_PAD",
    b"NDA_LLADDR",
    b"NDTA_PAD",
    b"NDTPA_PAD",
    b"NHA_RES_BUCKET_PAD",
    b"NHA_RES_GROUP_PAD",
    b"NLMSGERR_ATTR_COOKIE",
    b"NL_POLICY_TYPE_ATTR_PAD",
    b"RTA_MP_ALGO",
    b"RTA_PAD",
    b"RTA_PROTOINFO",
    b"RTA_SESSION",
    b"SEG6_LOCAL_CNT_PAD",
    b"TCA_ACT_COOKIE",
    b"TCA_ACT_PAD",
    b"TCA_BPF_OPS",
    b"TCA_BPF_POLICE",
    b"TCA_BPF_TAG",
    b"TCA_FLOWER_KEY_ARP_SHA",
    b"TCA_FLOWER_KEY_ARP_SHA_MASK",
    b"TCA_FLOWER_KEY_ARP_THA",
    b"TCA_FLOWER_KEY_ARP_THA_MASK",
    b"TCA_FLOWER_KEY_CT_LABELS",
    b"TCA_FLOWER_KEY_CT_LABELS_MASK",
    b"TCA_FLOWER_KEY_ENC_OPTS",
    b"TCA_FLOWER_KEY_ENC_OPTS_MASK",
    b"TCA_FLOWER_KEY_ETH_DST",
    b"TCA_FLOWER_KEY_ETH_DST_MASK",
    b"TCA_FLOWER_KEY_ETH_SRC",
    b"TCA_FLOWER_KEY_ETH_SRC_MASK",
    b"TCA_FLOWER_KEY_MPLS_OPTS",
    b"TCA_GACT_PAD",
    b"TCA_HTB_PAD",
    b"TCA_MATCHALL_PAD",
    b"TCA_MIRRED_PAD",
    b"TCA_PAD",
    b"TCA_STATS_APP",
    b"TCA_STATS_PAD",
    b"TCA_TBF_PAD",
    b"TCA_U32_PAD",
    b"TCA_U32_PCNT",
    b"TCA_U32_POLICE",
    b"TCA_XSTATS",
    b"VETH_INFO_PEER",
    b"VNIFILTER_ENTRY_STATS_PAD",
    b"VXCAN_INFO_PEER",
    b"padding",
];

/// The attributes whose values are any number of numbers.
pub const NUMBER_LISTS: &[&[u8]] = &[
    b"IFLA_CAN_BITRATE_CONST",
    b"IFLA_CAN_DATA_BITRATE_CONST",
    b"IFLA_CAN_TERMINATION_CONST",
    b"IFLA_CAN_XL_DATA_BITRATE_CONST",
    b"TCA_HTB_CTAB",
    b"TCA_HTB_RTAB",
    b"TCA_STAB_DATA",
    b"TCA_TBF_PTAB",
    b"TCA_TBF_RTAB",
];

/// The fields whose values are texts, also if they have digits alone: addresses, and padding.
pub const TEXT_FIELDS: &[&[u8]] = &[b"addr", b"pad3", b"padding"];

/// The fields whose values are objects in each header: sets of flags, and numbers that may have a
/// name; and the code of an NLMSG_ERROR or NLMSG_DONE.
pub const OBJECT_FIELDS: &[&[u8]] = &[
    b"action",
    b"change",
    b"cmpr",
    b"code",
    b"eaction",
    b"family",
    b"filter_mask",
    b"flags",
    b"handle",
    b"hmask",
    b"hops",
    b"mask",
    b"mode",
    b"offmask",
    b"pad",
    b"parent",
    b"proto",
    b"protocol",
    b"reserved",
    b"scope",
    b"state",
    b"table",
    b"type",
    b"val",
];

/// Returns whether some name of `BYTES` ends in these two letters (tools/names.py writes them).
fn ends_as_bytes(before: u8, last: u8) -> bool
    ensures { result ≡ ends_as_bytes before last }
{
    match before {
        b'A' => matches!(last, b'C' | b'D' | b'G'),
        b'C' => last == b'E',
        b'D' => matches!(last, b'2' | b'3' | b'4' | b'5' | b'R'),
        b'E' => matches!(last, b'C' | b'M' | b'R'),
        b'F' => last == b'O',
        b'G' => last == b'O',
        b'H' => last == b'A',
        b'I' => matches!(last, b'D' | b'E'),
        b'L' => last == b'S',
        b'N' => last == b'T',
        b'O' => last == b'N',
        b'P' => matches!(last, b'P' | b'S'),
        b'R' => last == b'C',
        b'S' => matches!(last, b'K' | b'S' | b'T'),
        b'T' => matches!(last, b'A' | b'S' | b'Y'),
        b'n' => last == b'g',
        _ => false,
    }
}

/// Returns whether a name ends as some name of `BYTES` does.
fn has_end_of_bytes(name: &[u8]) -> bool
    ensures { result ≡ has_end_of_bytes name.now }
{
    let len = name.len();
    len >= 2 && ends_as_bytes(name[len - 2], name[len - 1])
}

/// Returns whether the values of attributes with this name are bytes in hex. The names of most
/// numbers end otherwise, and aren't searched for.
#[tactic(auto, using(crate::proofs::NameEnds::ends_differ), unfolding(crate::specs::Names::bytes_names))]
pub(crate) fn is_bytes(name: &[u8]) -> bool
    ensures { result ≡ is_among bytes_names name.now }
{
    has_end_of_bytes(name) && is_among(BYTES, name)
}

/// Returns whether the values of fields of this name are texts, also if they have digits alone.
#[tactic(auto, unfolding(crate::specs::Names::text_fields))]
pub(crate) fn is_text_field(name: &[u8]) -> bool
    ensures { result ≡ is_among text_fields name.now }
{
    is_among(TEXT_FIELDS, name)
}

/// Returns whether the values of attributes with this name are lists of numbers.
#[tactic(auto, unfolding(crate::specs::Names::number_list_names))]
pub(crate) fn is_number_list(name: &[u8]) -> bool
    ensures { result ≡ is_among number_list_names name.now }
{
    is_among(NUMBER_LISTS, name)
}

/// Returns whether some name of `OBJECT_FIELDS` has this letter before its last one (tools/names.py
/// writes them).
fn is_letter_of_object(letter: u8) -> bool
    ensures { result ≡ is_letter_of_object letter }
{
    matches!(
        letter,
        b'a' | b'd' | b'e' | b'g' | b'l' | b'n' | b'o' | b'p' | b's' | b't'
    )
}

/// Returns whether a name has the letter before its last one that some name of `OBJECT_FIELDS` has.
fn has_letter_of_object(name: &[u8]) -> bool
    ensures { result ≡ has_letter_of_object name.now }
{
    let len = name.len();
    len >= 2 && is_letter_of_object(name[len - 2])
}

/// Returns whether the values of fields of this name are objects. The names of most others have
/// another letter before the last one, and aren't searched for.
#[tactic(auto, using(crate::proofs::NameEnds::letters_differ), unfolding(crate::specs::Names::object_fields))]
pub(crate) fn is_object_field(name: &[u8]) -> bool
    ensures { result ≡ is_among object_fields name.now }
{
    has_letter_of_object(name) && is_among(OBJECT_FIELDS, name)
}
