//! Events of links.

ghost use Rattle.std.specs.Prelude.{◌≡◌};
ghost use Rattle.std.specs.Prelude.{◌↔◌, ⊤, false, length, IsOk, IfOk, IfErr};
ghost use Rattle.netlink_packet_core.specs.Errors.{is_memory};
ghost use Rattle.link_message_types.specs.Events.{link_event_bytes};
ghost use Rattle.link_message_types.specs.Events.{link_event_number, link_event_of};

use netlink_packet_core::{DecodeError, Emitable, fill_u32, parse_u32};

/// The size of an event in bytes.
const LINK_EVENT_LEN: usize = 4;

/// An event of a link, `IFLA_EVENT_*` of `linux/if_link.h`. On the wire 4 bytes in native order.
#[derive(Debug, PartialEq, Eq, Clone, Copy)]
pub enum LinkEvent {
    /// No event: `IFLA_EVENT_NONE`, 0.
    None,
    /// The device was reset: `IFLA_EVENT_REBOOT`, 1.
    Reboot,
    /// The device's features changed: `IFLA_EVENT_FEATURES`, 2.
    Features,
    /// Another port of a bond became the active one: `IFLA_EVENT_BONDING_FAILOVER`, 3.
    BondingFailover,
    /// Neighbours are to be notified of the link's addresses: `IFLA_EVENT_NOTIFY_PEERS`, 4.
    NotifyPeers,
    /// Reports of multicast group memberships are to be sent again: `IFLA_EVENT_IGMP_RESEND`, 5.
    IgmpResend,
    /// The options of a bond changed: `IFLA_EVENT_BONDING_OPTIONS`, 6.
    BondingOptions,
    /// Every other number.
    Other(u32),
}

impl From<u32> for LinkEvent {
    ghost from_gives = { λ n v. v ≡ link_event_of n };

    fn from(number: u32) -> Self
        ensures named { result ≡ link_event_of number }
        ensures keeps_the_number { link_event_number result ≡ number }
    {
        match number {
            0 => Self::None,
            1 => Self::Reboot,
            2 => Self::Features,
            3 => Self::BondingFailover,
            4 => Self::NotifyPeers,
            5 => Self::IgmpResend,
            6 => Self::BondingOptions,
            _ => Self::Other(number),
        }
    }
}

impl From<LinkEvent> for u32 {
    ghost from_gives = { λ v n. n ≡ link_event_number v };

    fn from(value: LinkEvent) -> Self {
        match value {
            LinkEvent::None => 0,
            LinkEvent::Reboot => 1,
            LinkEvent::Features => 2,
            LinkEvent::BondingFailover => 3,
            LinkEvent::NotifyPeers => 4,
            LinkEvent::IgmpResend => 5,
            LinkEvent::BondingOptions => 6,
            LinkEvent::Other(number) => number,
        }
    }
}

impl Emitable for LinkEvent {
    ghost text = { link_event_bytes };

    ghost can_emit = { λ _. ⊤ };

    #[tactic(auto, using(netlink_packet_core_grammar::proofs::Sizes::sizes))]
    fn buffer_len(&self) -> usize {
        LINK_EVENT_LEN
    }

    #[tactic(auto, using(netlink_packet_core_grammar::proofs::Sizes::sizes))]
    fn emit(&self, buffer: &mut [u8]) {
        let (prefix, _) = buffer.split_at_mut(LINK_EVENT_LEN);
        fill_u32(prefix, u32::from(*self));
    }
}

impl LinkEvent {
    /// Reads an event from 4 little-endian bytes.
    ///
    /// # Errors
    ///
    /// A refusal if there aren't exactly 4 bytes. Allocates nothing.
    pub fn parse(bytes: &[u8]) -> Result<Self, DecodeError>
        ensures size { IsOk result ↔ (length bytes.now ≡ 4) }
        ensures text { IfOk result (λ v. link_event_bytes v ≡ bytes.now) }
        ensures named { IfOk result (λ v. v ≡ link_event_of (link_event_number v)) }
        ensures err { IfErr result (λ e. is_memory e ≡ false) }
    {
        Ok(LinkEvent::from(parse_u32(bytes)?))
    }
}
