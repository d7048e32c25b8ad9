//! Number types, sets of flags and headers of link messages.

use link_message_types::{
    AddressFamily, Flags, In6AddrGenMode, LinkEvent, LinkExtentMask, LinkFlags, LinkHeader,
    LinkLayerType, LinkMessageBuffer, LinkMode, LinkPhysId, MctpPhysBinding, State, VfLinkState,
    VlanProtocol,
};
use std::str::FromStr;
use std::test::Fail;

#[test]
fn numbers_name_values(rt: HostRuntime) {
    let named = [
        AddressFamily::from(45) == AddressFamily::Mctp,
        LinkLayerType::from(513) == LinkLayerType::Cisco,
        LinkLayerType::from(1280) == LinkLayerType::Void,
        u16::from(LinkLayerType::Ieee80211Radiotap) == 803,
        VfLinkState::from(2) == VfLinkState::Disable,
        VlanProtocol::from(0x88a8) == VlanProtocol::Ieee8021Ad,
        u8::from(&MctpPhysBinding::Ucie) == 9,
        u8::from(&In6AddrGenMode::Random) == 3,
    ];
    assert_eq!(rt; named, [true; 8]);
}

#[test]
fn texts_name_values(rt: HostRuntime) -> Result<(), Fail> {
    assert!(rt; State::from_str("LOWERLAYERDOWN") == Ok(State::LowerLayerDown));
    assert!(rt; State::from_str("up").is_err());
    let layer = LinkLayerType::Sixlowpan;
    let mode = LinkMode::Other(9);
    let state = State::LowerLayerDown;
    let generated = In6AddrGenMode::StablePrivacy;
    let binding = MctpPhysBinding::PcieVdm;
    assert!(rt;
        format!(in rt.alloc(); "{layer} {mode} {state} {generated} {binding}")?.as_str()
            == "sixlowpan 9 LOWERLAYERDOWN stable-privacy pcievdm"
    );
    Ok(())
}

#[test]
fn events_have_four_bytes(rt: HostRuntime) {
    assert!(rt; LinkEvent::parse(&[4, 0, 0, 0]) == Ok(LinkEvent::NotifyPeers));
    assert!(rt; LinkEvent::parse(&[4, 0, 0]).is_err());
}

#[test]
fn masks_are_listed(rt: HostRuntime) -> Result<(), Fail> {
    let masks = LinkExtentMask::list(rt.alloc(), 0x109)?;
    let listed = &[
        LinkExtentMask::Vf,
        LinkExtentMask::SkipStats,
        LinkExtentMask::Other(0x100),
    ];
    assert!(rt; masks.as_slice() == listed.as_slice());
    assert!(rt; LinkExtentMask::join(&masks) == 0x109);
    Ok(())
}

#[test]
fn flags_are_displayed_by_name(rt: HostRuntime) -> Result<(), Fail> {
    let texts = [
        (0, ""),
        (0x1, "Up"),
        (0x40000, "Echo"),
        (0x1043, "Up | Broadcast | Running | Multicast"),
        (0x80000, "0x80000"),
        (0x80000001, "Up | 0x80000000"),
        (0xc0110009, "Up | Loopback | LowerUp | 0xc0100000"),
    ];
    for (bits, text) in texts {
        let flags = LinkFlags::from_bits_retain(bits);
        let shown = format!(in rt.alloc(); "{flags}")?;
        assert!(rt; shown.as_str() == text, "{bits}");
    }
    Ok(())
}

#[test]
fn identifiers_are_bytes(rt: HostRuntime) -> Result<(), Fail> {
    let id = LinkPhysId::parse(rt.alloc(), &[1, 2, 3])?;
    assert!(rt; id.bytes.as_slice() == [1, 2, 3].as_slice());
    Ok(())
}

#[test]
fn headers_have_sixteen_bytes(rt: HostRuntime) -> Result<(), Fail> {
    let bytes = &[0, 5, 9, 0, 7, 0, 0, 0, 1, 16, 0, 0, 1, 0, 0, 0];
    let header = LinkHeader {
        interface_family: AddressFamily::Unspec,
        link_layer_type: LinkLayerType::Void,
        index: 7,
        flags: LinkFlags::Up.union(LinkFlags::Multicast),
        change_mask: LinkFlags::Up,
    };
    assert!(rt; LinkHeader::parse(bytes) == Ok(header));
    assert!(rt; LinkHeader::parse(&bytes[..15]).is_err());
    let written = &[0, 0, 255, 255, 7, 0, 0, 0, 1, 16, 0, 0, 1, 0, 0, 0];
    assert!(rt; LinkMessageBuffer::from(&header).as_bytes() == written.as_slice());
    Ok(())
}

#[test]
fn the_default_header_is_sixteen_zeros(rt: HostRuntime) {
    let bytes = LinkMessageBuffer::from(&LinkHeader::default());
    assert!(rt; bytes.as_bytes() == [0; 16].as_slice());
}
