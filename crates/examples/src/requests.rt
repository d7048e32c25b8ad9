//! Requests of links, as the frames that are sent to the kernel (netlink.h, rtnetlink.h).

ghost use Rattle.std.specs.Prelude.{◌≡◌, ◌↔◌, ◌⊎◌, ◌+◌, ◌%◌, ◌≤◌, ◌<◌, ◌^◌, ℕ, true, false, length, IfOk, IfErr, OnOk, Ok, Err};
ghost use Rattle.netlink_packet_core.specs.Lists.{text_by, all_fit_by};
ghost use Rattle.link_info.specs.LinkInfo.{link_info_entry, link_info_fits};
ghost use Rattle.link_message.specs.LinkMessages.{link_message_text, link_message_fits};
ghost use Rattle.link_message.specs.Body.{link_body};
ghost use Rattle.link_capture.specs.Readable.{IsReadable, IsNotReadBack};
ghost use Rattle.link_capture.specs.Routes.{route_entry};
ghost use Rattle.link_capture.specs.Bodies.{ruled_text};
ghost use Rattle.examples.specs.Requests.{request_text, new_link_text, IsNormal, NewLinksAreNormal};
ghost use Rattle.examples.specs.Requests.{vxlan_info_text, vxlan_body, vxlan_text};

use link_capture::laws::{captures_are_counted, frames_are_judged};
use link_capture::{NotReadable, RTM_NEWLINK, ReadableLink, RouteLink};
use link_info::{InfoData, InfoKind, InfoVxlan, LinkInfo};
use link_message::laws::headers_are_sixteen_bytes;
use link_message::{
    AddressFamily, Flags, LinkAttribute, LinkFlags, LinkHeader, LinkLayerType, LinkMessage,
};
use netlink_packet_core::laws::{encodings_are_split, finalized_headers_match};
use netlink_packet_core::{
    Emitable, NLM_F_ACK, NLM_F_CREATE, NLM_F_EXCL, NLM_F_REQUEST, NetlinkDeserializable,
    NetlinkHeader, NetlinkMessage,
};
use std::alloc::{AllocError, Global};
use thiserror::Error;

/// The UDP port of vxlan (IANA). The kernel uses 8472 if a request has none.
const VXLAN_PORT: u16 = 4789;

/// The number of bytes of the longest name that fits: 65535 less the 4 bytes of the attribute's
/// header and the NUL.
const LONGEST_NAME: usize = 65530;

/// Why a request isn't written.
#[derive(Clone, Copy, Debug, PartialEq, Eq, Drop, Error)]
pub enum RequestFault {
    /// A length inside doesn't fit the 2 bytes of its header.
    #[error("attribute over 65535")]
    Unfit,
    /// The text of the message is refused, or is read as another message.
    #[error("refused or read as another message")]
    ReadsOtherwise,
    /// The frame has more bytes than the 4 bytes of its length can hold.
    #[error("frame over 4294967295")]
    TooLong,
    /// An allocation failed.
    #[error("no memory")]
    Memory,
}

/// The flags of a request to make a link that doesn't exist yet, and to acknowledge it.
const NEW_LINK: u16 = NLM_F_REQUEST | NLM_F_ACK | NLM_F_EXCL | NLM_F_CREATE;

/// Returns the frame of a message to the kernel (netlink.h, `struct nlmsghdr`): a header of 16
/// bytes, with the length in bytes, the type, these flags (`NLM_F_` values joined), this sequence
/// number and the port 0, and the body. Numbers are little-endian. No padding follows; messages of
/// links need none.
///
/// # Errors
///
/// [`RequestFault::TooLong`] if and only if the length of the frame doesn't fit 32 bits;
/// [`RequestFault::Memory`] if an allocation fails.
pub fn request(
    alloc: Global,
    link: RouteLink,
    flags: u16,
    sequence_number: u32,
) -> Result<Vec<u8>, RequestFault>
    ensures ok { IfOk result
        (λ bytes. bytes.items ≡ request_text flags sequence_number (route_entry link)) }
    ensures too_long { (result ≡ Err RequestFault.TooLong)
        ↔ (2 ^ 32 ≤ 16 + length (route_entry link).1) }
    ensures err { IfErr result
        (λ fault. (fault ≡ RequestFault.TooLong) ⊎ (fault ≡ RequestFault.Memory)) }
{
    let mut message = NetlinkMessage::from(link);
    message.header.flags = flags;
    message.header.sequence_number = sequence_number;
    let size = message.buffer_len();
    if size > u32::MAX as usize {
        return Err(RequestFault::TooLong);
    }
    finalized_headers_match(&message);
    message.finalize();
    let Ok(mut bytes) = Vec::from_elem(alloc, 0u8, size) else {
        return Err(RequestFault::Memory);
    };
    message.serialize(bytes.as_mut_slice());
    Ok(bytes)
}

/// The frame of a request to make a link is a legal capture, and already canonical.
fn new_links_are_normal()
    ensures normal { NewLinksAreNormal }
    ensures aligned { (message : LinkMessage) → length (link_message_text message) % 4 ≡ 0 }
{
    captures_are_counted();
    frames_are_judged();
    headers_are_sixteen_bytes();
    encodings_are_split();
}

/// Returns the frame of a request to make a link (rtnetlink.h, `RTM_NEWLINK`), which the kernel
/// acknowledges, and refuses if a link of that name exists. The frame is a legal capture, and
/// already canonical under each limit of at least its length.
///
/// # Errors
///
/// [`RequestFault::Unfit`] if and only if the message doesn't fit; [`RequestFault::ReadsOtherwise`]
/// only if it isn't readable; [`RequestFault::TooLong`] only if the length of the frame doesn't fit
/// 32 bits; [`RequestFault::Memory`] if an allocation fails, which may happen for any message that
/// fits.
pub fn new_link_request(
    alloc: Global,
    message: LinkMessage,
    sequence_number: u32,
) -> Result<Vec<u8>, RequestFault>
    ensures ok { IfOk result
        (λ bytes. bytes.items ≡ new_link_text sequence_number (link_message_text message)) }
    ensures normal { IfOk result
        (λ bytes. (limit : ℕ) → length bytes.items ≤ limit → IsNormal limit bytes.items) }
    ensures readable { OnOk result (IsReadable message) }
    ensures unfit { (result ≡ Err RequestFault.Unfit) ↔ (link_message_fits message ≡ false) }
    ensures otherwise { result ≡ Err RequestFault.ReadsOtherwise → IsNotReadBack message }
    ensures too_long { result ≡ Err RequestFault.TooLong
        → 2 ^ 32 ≤ 16 + length (link_message_text message) }
{
    new_links_are_normal();
    match ReadableLink::new(alloc, message) {
        Ok(link) => request(alloc, RouteLink::NewLink(link), NEW_LINK, sequence_number),
        Err((_, NotReadable::Unfit)) => Err(RequestFault::Unfit),
        Err((_, NotReadable::ReadsOtherwise)) => Err(RequestFault::ReadsOtherwise),
        Err((_, NotReadable::Memory)) => Err(RequestFault::Memory),
    }
}

/// Returns the link info of a vxlan of this network: its kind, and its settings.
fn vxlan_info(alloc: Global, vni: u32) -> Result<Vec<LinkInfo>, AllocError>
    ensures text { IfOk result
        (λ info. text_by link_info_entry info.items ≡ vxlan_info_text vni) }
    ensures fits { IfOk result
        (λ info. all_fit_by link_info_entry link_info_fits info.items ≡ true) }
{
    let settings = vec![in alloc;
        InfoVxlan::Id(vni),
        InfoVxlan::Learning(false),
        InfoVxlan::Port(VXLAN_PORT),
    ]?;
    let info = vec![in alloc;
        LinkInfo::Kind(InfoKind::Vxlan),
        LinkInfo::Data(InfoData::Vxlan(settings)),
    ]?;
    Ok(info)
}

/// Returns the message of a vxlan with this name and network, with packets of at most `mtu` bytes.
fn vxlan_message(alloc: Global, name: &str, vni: u32, mtu: u32) -> Result<LinkMessage, AllocError>
    ensures text { IfOk result
        (λ message. link_message_text message ≡ vxlan_body name.now vni mtu) }
    ensures fits { IfOk result
        (λ message. (link_message_fits message ≡ true) ↔ (length name.now ≤ 65530)) }
{
    let name = String::from_str(alloc, name)?;
    let info = vxlan_info(alloc, vni)?;
    let attributes = vec![in alloc;
        LinkAttribute::IfName(name),
        LinkAttribute::Mtu(mtu),
        LinkAttribute::LinkInfo(info),
    ]?;
    let header = LinkHeader {
        interface_family: AddressFamily::Unspec,
        link_layer_type: LinkLayerType::Netrom,
        index: 0,
        flags: LinkFlags::empty(),
        change_mask: LinkFlags::empty(),
    };
    Ok(LinkMessage { header, attributes })
}

/// The body of a request to make a vxlan whose name fits is legal and already canonical.
fn vxlans_are_legal(name: &str, vni: u32, mtu: u32)
    ensures canonical { length name.now ≤ 65530
        → ruled_text link_body (vxlan_body name.now vni mtu) ≡ Ok (vxlan_body name.now vni mtu) }
    ensures aligned { length (vxlan_body name.now vni mtu) % 4 ≡ 0 }
{
    encodings_are_split();
}

/// Returns the body of a request to make a vxlan whose name fits.
#[tactic(auto, using(crate::proofs::RequestFrames::vxlan_size))]
fn write_vxlan(alloc: Global, name: &str, vni: u32, mtu: u32) -> Result<Vec<u8>, AllocError>
    requires { length name.now ≤ 65530 }
    ensures { IfOk result (λ body. body.items ≡ vxlan_body name.now vni mtu) }
{
    let message = vxlan_message(alloc, name, vni, mtu)?;
    let mut body = Vec::from_elem(alloc, 0u8, message.buffer_len())?;
    message.emit(body.as_mut_slice());
    Ok(body)
}

/// Returns the frame of a request to make a vxlan, a virtual extensible local area network
/// (if_link.h, `IFLA_VXLAN_`): its name, the number of its network, `vni`, and the greatest size of
/// a packet in bytes, `mtu`. It doesn't learn addresses, and its UDP port is 4789. Numbers are
/// little-endian, the port is big-endian. The kernel accepts names of 1 to 15 bytes and networks
/// below 2^24; neither is tested here.
///
/// # Errors
///
/// [`RequestFault::Unfit`] if and only if the name has more than 65530 bytes;
/// [`RequestFault::Memory`] if an allocation fails. There are no others, as the message is always
/// readable.
pub fn vxlan_request(
    alloc: Global,
    name: &str,
    vni: u32,
    mtu: u32,
    sequence_number: u32,
) -> Result<Vec<u8>, RequestFault>
    ensures ok { IfOk result
        (λ bytes. bytes.items ≡ vxlan_text name.now vni mtu sequence_number) }
    ensures normal { IfOk result
        (λ bytes. (limit : ℕ) → length bytes.items ≤ limit → IsNormal limit bytes.items) }
    ensures fits { OnOk result (length name.now ≤ 65530) }
    ensures unfit { (result ≡ Err RequestFault.Unfit) ↔ (65530 < length name.now) }
    ensures err { IfErr result
        (λ fault. (fault ≡ RequestFault.Unfit) ⊎ (fault ≡ RequestFault.Memory)) }
{
    if name.len() > LONGEST_NAME {
        return Err(RequestFault::Unfit);
    }
    new_links_are_normal();
    vxlans_are_legal(name, vni, mtu);
    let Ok(body) = write_vxlan(alloc, name, vni, mtu) else {
        return Err(RequestFault::Memory);
    };
    let header = NetlinkHeader {
        message_type: RTM_NEWLINK,
        ..NetlinkHeader::default()
    };
    match RouteLink::deserialize(alloc, &header, body.as_slice()) {
        Ok(link) => request(alloc, link, NEW_LINK, sequence_number),
        Err(_) => Err(RequestFault::Memory),
    }
}
