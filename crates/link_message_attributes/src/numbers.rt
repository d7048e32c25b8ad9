//! The attributes of a link that hold a number.

ghost use Rattle.std.specs.Prelude.{◌≡◌, ◌≢◌, ◌∷◌, [], true, IfSome, IfNone};
ghost use Rattle.netlink_packet_core.specs.Families.{attribute};
ghost use Rattle.netlink_packet_core.specs.Numbers.{le4};
ghost use Rattle.link_message_grammar.specs.LinkMessage.{Family};
ghost use Rattle.link_message_types.specs.AddressFamilies.{table_family};
ghost use Rattle.link_message_attributes.specs.LinkAttributes.{IsReadAsNumber, plain_row};
ghost use Rattle.link_message_attributes.specs.LinkAttributes.{link_attribute_entry, link_attribute_fits};
ghost use Rattle.link_message_attributes.specs.LinkAttributes.{link_attribute_names_row};
ghost use Rattle.link_message_attributes.specs.Outcomes.{IsRowRead};

use super::attributes::LinkAttribute;
use super::kinds::{
    IFLA_ALLMULTI, IFLA_CARRIER, IFLA_CARRIER_CHANGES, IFLA_CARRIER_DOWN_COUNT,
    IFLA_CARRIER_UP_COUNT, IFLA_EVENT, IFLA_GRO_IPV4_MAX_SIZE, IFLA_GRO_MAX_SIZE, IFLA_GROUP,
    IFLA_GSO_IPV4_MAX_SIZE, IFLA_GSO_MAX_SEGS, IFLA_GSO_MAX_SIZE, IFLA_IF_NETNSID, IFLA_LINK,
    IFLA_LINK_NETNSID, IFLA_LINKMODE, IFLA_MASTER, IFLA_MAX_MTU, IFLA_MIN_MTU, IFLA_MTU,
    IFLA_NET_NS_FD, IFLA_NET_NS_PID, IFLA_NEW_IFINDEX, IFLA_NEW_NETNSID, IFLA_NUM_RX_QUEUES,
    IFLA_NUM_TX_QUEUES, IFLA_NUM_VF, IFLA_OPERSTATE, IFLA_PROMISCUITY, IFLA_PROTO_DOWN,
    IFLA_TSO_MAX_SEGS, IFLA_TSO_MAX_SIZE, IFLA_TXQLEN, LAST_KIND,
};
use attribute_tables::typed;
use link_message_types::{AddressFamily, LinkEvent, LinkMode, State};
use netlink_packet_core::{DecodeError, parse_i32, parse_u8, parse_u32};

impl LinkAttribute {
    // Returns the attribute of a kind that holds 1 byte; `None` for any other kind. Wide matches
    // are split into functions that each know part of the kinds, since the prover's time for a
    // match grows with its paths times the variants.
    fn of_u8(kind: u16, number: u8) -> Option<Self>
        ensures value { IfSome result
            (λ v. link_attribute_entry v ≡ attribute kind (number ∷ [])) }
        ensures inside { IfSome result (λ v. link_attribute_fits v ≡ true) }
        ensures is_row_variant { IfSome result
            (λ v. (family : Family) → link_attribute_names_row family v) }
        ensures none { IfNone result
            (kind ≢ 16 × kind ≢ 17 × kind ≢ 33 × kind ≢ 39) }
    {
        match kind {
            IFLA_OPERSTATE => Some(Self::OperState(State::from(number))),
            IFLA_LINKMODE => Some(Self::Mode(LinkMode::from(number))),
            IFLA_CARRIER => Some(Self::Carrier(number)),
            IFLA_PROTO_DOWN => Some(Self::ProtoDown(number)),
            _ => None,
        }
    }

    // Returns the attribute of a kind that holds a number of 4 bytes; `None` for any other kind.
    fn of_u32(kind: u16, number: u32) -> Option<Self>
        ensures value { IfSome result
            (λ v. link_attribute_entry v ≡ attribute kind (le4 number)) }
        ensures inside { IfSome result (λ v. link_attribute_fits v ≡ true) }
        ensures is_row_variant { IfSome result
            (λ v. (family : Family) → link_attribute_names_row family v) }
        ensures none { IfNone result
            (kind ≢ 4 × kind ≢ 5 × kind ≢ 10 × kind ≢ 13 × kind ≢ 19 × kind ≢ 21 × kind ≢ 27
            × kind ≢ 30 × kind ≢ 31 × kind ≢ 32 × kind ≢ 35 × kind ≢ 37 × kind ≢ 40
            × kind ≢ 41 × kind ≢ 44 × kind ≢ 45 × kind ≢ 46 × kind ≢ 47 × kind ≢ 48
            × kind ≢ 49 × kind ≢ 50 × kind ≢ 51 × kind ≢ 58 × kind ≢ 59 × kind ≢ 60
            × kind ≢ 61 × kind ≢ 63 × kind ≢ 64) }
    {
        match kind {
            IFLA_MTU => Some(Self::Mtu(number)),
            IFLA_LINK => Some(Self::Link(number)),
            IFLA_MASTER => Some(Self::Controller(number)),
            IFLA_TXQLEN => Some(Self::TxQueueLen(number)),
            IFLA_NET_NS_PID => Some(Self::NetNsPid(number)),
            IFLA_NUM_VF => Some(Self::NumVf(number)),
            IFLA_GROUP => Some(Self::Group(number)),
            IFLA_PROMISCUITY => Some(Self::Promiscuity(number)),
            IFLA_NUM_TX_QUEUES => Some(Self::NumTxQueues(number)),
            IFLA_NUM_RX_QUEUES => Some(Self::NumRxQueues(number)),
            IFLA_CARRIER_CHANGES => Some(Self::CarrierChanges(number)),
            IFLA_LINK_NETNSID => Some(Self::LinkNetnsId(number)),
            IFLA_GSO_MAX_SEGS => Some(Self::GsoMaxSegs(number)),
            IFLA_GSO_MAX_SIZE => Some(Self::GsoMaxSize(number)),
            IFLA_EVENT => Some(Self::Event(LinkEvent::from(number))),
            IFLA_NEW_NETNSID => Some(Self::NewNetnsId(number)),
            IFLA_IF_NETNSID => Some(Self::IfNetnsId(number)),
            IFLA_CARRIER_UP_COUNT => Some(Self::CarrierUpCount(number)),
            IFLA_CARRIER_DOWN_COUNT => Some(Self::CarrierDownCount(number)),
            IFLA_NEW_IFINDEX => Some(Self::NewIfIndex(number)),
            IFLA_MIN_MTU => Some(Self::MinMtu(number)),
            IFLA_MAX_MTU => Some(Self::MaxMtu(number)),
            IFLA_GRO_MAX_SIZE => Some(Self::GroMaxSize(number)),
            IFLA_TSO_MAX_SIZE => Some(Self::TsoMaxSize(number)),
            IFLA_TSO_MAX_SEGS => Some(Self::TsoMaxSegs(number)),
            IFLA_ALLMULTI => Some(Self::AllMulti(number)),
            IFLA_GSO_IPV4_MAX_SIZE => Some(Self::GsoIpv4MaxSize(number)),
            IFLA_GRO_IPV4_MAX_SIZE => Some(Self::GroIpv4MaxSize(number)),
            _ => None,
        }
    }

    // Reads the payload of a kind that holds a number; `None` if the kind has no row. Kinds after the
    // last one come first: reading a number clears the temporaries of every arm.
    pub(crate) fn read_number(
        family: AddressFamily,
        kind: u16,
        payload: &[u8],
    ) -> Result<Option<Self>, DecodeError>
        requires { IsReadAsNumber kind }
        ensures { IsRowRead result (table_family family) (plain_row (table_family family) kind) kind payload.now }
    {
        if kind > LAST_KIND {
            return Ok(None);
        }
        Self::read_listed_number(family, kind, payload)
    }

    // Reads the payload of a kind that holds a number; `None` if the kind has no row.
    #[inline(never)]
    fn read_listed_number(
        family: AddressFamily,
        kind: u16,
        payload: &[u8],
    ) -> Result<Option<Self>, DecodeError>
        requires { IsReadAsNumber kind }
        ensures { IsRowRead result (table_family family) (plain_row (table_family family) kind) kind payload.now }
    {
        match kind {
            IFLA_OPERSTATE | IFLA_CARRIER | IFLA_PROTO_DOWN => typed!(
                of_u8(kind),
                parse_u8(payload)
            ),
            IFLA_LINKMODE => typed!(of_u8(kind), parse_u8(payload)),
            IFLA_MTU | IFLA_MASTER | IFLA_TXQLEN | IFLA_NET_NS_PID | IFLA_NUM_VF | IFLA_GROUP =>
                typed!(of_u32(kind), parse_u32(payload)),
            IFLA_LINK
            | IFLA_PROMISCUITY
            | IFLA_NUM_RX_QUEUES
            | IFLA_CARRIER_CHANGES
            | IFLA_LINK_NETNSID => typed!(of_u32(kind), parse_u32(payload)),
            IFLA_NUM_TX_QUEUES
            | IFLA_GSO_MAX_SEGS
            | IFLA_EVENT
            | IFLA_IF_NETNSID
            | IFLA_CARRIER_DOWN_COUNT
            | IFLA_MIN_MTU => typed!(of_u32(kind), parse_u32(payload)),
            IFLA_GSO_MAX_SIZE
            | IFLA_NEW_NETNSID
            | IFLA_CARRIER_UP_COUNT
            | IFLA_NEW_IFINDEX
            | IFLA_MAX_MTU => typed!(of_u32(kind), parse_u32(payload)),
            IFLA_GRO_MAX_SIZE | IFLA_TSO_MAX_SEGS | IFLA_GSO_IPV4_MAX_SIZE => typed!(
                of_u32(kind),
                parse_u32(payload)
            ),
            IFLA_TSO_MAX_SIZE | IFLA_ALLMULTI | IFLA_GRO_IPV4_MAX_SIZE => typed!(
                of_u32(kind),
                parse_u32(payload)
            ),
            IFLA_NET_NS_FD => typed!(NetNsFd, parse_i32(payload)),
            _ => Ok(None),
        }
    }
}
