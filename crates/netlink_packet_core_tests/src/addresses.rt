//! Address messages as Linux writes them, and messages that are rejected.

use super::address_messages::{AddressFault, AddressHeader, AddressMessage, new_address};
use netlink_packet_core::{
    FrameError, NLM_F_ACK, NLM_F_CREATE, NLM_F_EXCL, NLM_F_REQUEST, NetlinkMessage, NetlinkPayload,
};
use std::alloc::Global;
use std::test::Fail;

/// The reply of Linux 6.18 to a request for the addresses of the loopback link: `IFA_ADDRESS`,
/// `IFA_LOCAL`, `IFA_LABEL`, `IFA_FLAGS` and `IFA_CACHEINFO` of 127.0.0.1/8.
const LOOPBACK: [u8; 76] = [
    76, 0, 0, 0, 20, 0, 2, 0, 7, 0, 0, 0, 0xe1, 0x1f, 0, 0, 2, 8, 0x80, 254, 1, 0, 0, 0, 8, 0, 1,
    0, 127, 0, 0, 1, 8, 0, 2, 0, 127, 0, 0, 1, 7, 0, 3, 0, b'l', b'o', 0, 0, 8, 0, 8, 0, 0x80, 0,
    0, 0, 20, 0, 6, 0, 0xff, 0xff, 0xff, 0xff, 0xff, 0xff, 0xff, 0xff, 10, 0, 0, 0, 10, 0, 0, 0,
];

/// Returns whether a message is about the loopback link's address.
fn is_loopback(message: &NetlinkMessage<AddressMessage>) -> bool {
    let header = AddressHeader {
        family: 2,
        prefix_len: 8,
        flags: 0x80,
        scope: 254,
        index: 1,
    };
    match &message.payload {
        NetlinkPayload::InnerMessage(AddressMessage::NewAddress(address)) => {
            address.header == header && address.attributes.as_slice() == &LOOPBACK[24..]
        }
        _ => false,
    }
}

#[test]
fn an_address_is_read_and_written(rt: HostRuntime) -> Result<(), Fail> {
    let Ok(mut message) = NetlinkMessage::<AddressMessage>::deserialize(rt.alloc(), &LOOPBACK)
    else {
        return Err(Fail::from("refused"));
    };
    assert!(rt; is_loopback(&message) && message.buffer_len() == 76);
    message.finalize();
    let mut bytes = [0; 76];
    message.serialize(&mut bytes);
    assert!(rt; bytes == LOOPBACK);
    Ok(())
}

#[test]
fn an_address_is_added(rt: HostRuntime) -> Result<(), Fail> {
    let local = [8u8, 0, 2, 0, 192, 0, 2, 1].to_vec(rt.alloc())?;
    let header = AddressHeader {
        family: 2,
        prefix_len: 24,
        index: 3,
        ..AddressHeader::default()
    };
    let mut message = new_address(header, local);
    message.header.flags = NLM_F_REQUEST | NLM_F_ACK | NLM_F_CREATE | NLM_F_EXCL;
    let mut bytes = [0; 32];
    message.serialize(&mut bytes);
    let expected = [
        32, 0, 0, 0, 20, 0, 5, 6, 0, 0, 0, 0, 0, 0, 0, 0, 2, 24, 0, 0, 3, 0, 0, 0, 8, 0, 2, 0, 192,
        0, 2, 1,
    ];
    assert!(rt; bytes == expected);
    Ok(())
}

/// Returns why a frame is rejected as an address message.
fn refusal_of(alloc: Global, frame: &[u8]) -> Option<AddressFault> {
    match NetlinkMessage::<AddressMessage>::deserialize(alloc, frame) {
        Err(FrameError::Inner(fault)) => Some(fault),
        _ => None,
    }
}

#[test]
fn other_bodies_are_refused(rt: HostRuntime) -> Result<(), Fail> {
    let short: &[u8] = &[
        23, 0, 0, 0, 20, 0, 0, 0, 0, 0, 0, 0, 0, 0, 0, 0, 2, 8, 0, 0, 1, 0, 0,
    ];
    let of_a_link: &[u8] = &[
        24, 0, 0, 0, 16, 0, 0, 0, 0, 0, 0, 0, 0, 0, 0, 0, 2, 8, 0, 0, 1, 0, 0, 0,
    ];
    for (frame, fault, text) in [
        (short, AddressFault::Short, "body under 8 bytes"),
        (
            of_a_link,
            AddressFault::OtherType,
            "not a message of addresses",
        ),
    ] {
        assert!(rt; refusal_of(rt.alloc(), frame) == Some(fault));
        assert!(rt; format!(in rt.alloc(); "{fault}")?.as_str() == text);
    }
    Ok(())
}
