//! The messages of a capture, for the core's `NetlinkMessage`.

ghost use Rattle.std.specs.Prelude.{⊤};
ghost use Rattle.netlink_packet_core.specs.TypedBodies.{TypedBody};
ghost use Rattle.link_capture.specs.Routes.{route_entry, reads_route, route_may_run_out_of_memory};
ghost use Rattle.link_capture.specs.Routes.{RouteReason, route_ran_out_of_memory};
ghost use Rattle.link_capture.specs.RoundTrips.{round_trip, route_inner};

use super::fault::RouteFault;
use super::types::{OtherMessage, ReadableLink};
use link_capture_grammar::link_types::{RTM_DELLINK, RTM_GETLINK, RTM_NEWLINK, RTM_SETLINK};
use netlink_packet_core::{
    Emitable, NetlinkDeserializable, NetlinkHeader, NetlinkProtocol, NetlinkSerializable,
};
use std::alloc::Global;

/// A message of a capture: of links, or of any other type. `NetlinkPayload` has the control
/// messages.
#[derive(Debug, PartialEq, Eq, Drop)]
pub enum RouteLink {
    /// `RTM_NEWLINK`, 16: a link exists, or is to be made.
    NewLink(ReadableLink),
    /// `RTM_DELLINK`, 17: a link is gone, or is to be deleted.
    DelLink(ReadableLink),
    /// `RTM_GETLINK`, 18: a request for links.
    GetLink(ReadableLink),
    /// `RTM_SETLINK`, 19: a link is to be changed.
    SetLink(ReadableLink),
    /// A message of another type, whose body is kept as it is.
    Other(OtherMessage),
}

impl NetlinkSerializable for RouteLink {
    ghost entry = { route_entry };

    ghost fits = { λ _. ⊤ };

    fn message_type(&self) -> u16 {
        match self {
            Self::NewLink(_) => RTM_NEWLINK,
            Self::DelLink(_) => RTM_DELLINK,
            Self::GetLink(_) => RTM_GETLINK,
            Self::SetLink(_) => RTM_SETLINK,
            Self::Other(message) => message.message_type(),
        }
    }

    fn buffer_len(&self) -> usize {
        match self {
            Self::NewLink(link) | Self::DelLink(link) | Self::GetLink(link) | Self::SetLink(link) =>
                link.message().buffer_len(),
            Self::Other(message) => message.bytes().len(),
        }
    }

    fn serialize(&self, buffer: &mut [u8]) {
        match self {
            Self::NewLink(link) | Self::DelLink(link) | Self::GetLink(link) | Self::SetLink(link) =>
                link.message().emit(buffer),
            Self::Other(message) => buffer.copy_from_slice(message.bytes()),
        }
    }
}

impl NetlinkDeserializable for RouteLink {
    type Error = RouteFault;

    ghost Value = { TypedBody };

    ghost value = { route_entry };

    ghost reads = { reads_route };

    ghost is_memory = { route_ran_out_of_memory };

    ghost may_allocate = { route_may_run_out_of_memory };

    ghost determines = { RouteReason };

    #[tactic(auto, using(crate::proofs::Others::others), unfolding(link_capture_grammar::specs::Bodies::body_text))]
    fn deserialize(
        alloc: Global,
        header: &NetlinkHeader,
        payload: &[u8],
    ) -> Result<Self, RouteFault> {
        match header.message_type {
            RTM_NEWLINK => Ok(Self::NewLink(ReadableLink::read(alloc, payload)?)),
            RTM_DELLINK => Ok(Self::DelLink(ReadableLink::read(alloc, payload)?)),
            RTM_GETLINK => Ok(Self::GetLink(ReadableLink::read(alloc, payload)?)),
            RTM_SETLINK => Ok(Self::SetLink(ReadableLink::read(alloc, payload)?)),
            message_type => match OtherMessage::from_slice(alloc, message_type, payload) {
                Ok(message) => Ok(Self::Other(message)),
                Err(_) => Err(RouteFault::Memory),
            },
        }
    }
}

impl NetlinkProtocol for RouteLink {
    ghost round_trip = { λ x _. round_trip x };

    ghost inner = { route_inner };

    ghost same_implies_equal_text = { λ x y e. e };
}
