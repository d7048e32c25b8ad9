use crate::info::number_types::{are_flags, is_displayed, is_named, is_numbered};
use link_info::{
    Flags, IpVlanFlags, IpVlanMode, IpVtapFlags, IpVtapMode, IpoibMode, MacSecCipherId,
    MacSecOffload, MacSecValidate, MacVlanFlags, MacVlanMacAddressMode, MacVlanMode, MacVtapFlags,
    MacVtapMacAddressMode, MacVtapMode, NetkitMode, NetkitPolicy, NetkitScrub, RmNetFlags,
};
use std::str::FromStr;

#[test]
fn numbers_and_texts_name_values(rt: HostRuntime) {
    let named = [
        is_numbered(1u16, IpoibMode::Connected),
        is_numbered(2u16, IpVlanMode::L3S),
        is_numbered(8u32, MacVlanMode::Passthrough),
        is_numbered(3u32, MacVlanMacAddressMode::Set),
        is_numbered(0x0080C20001000002u64, MacSecCipherId::GcmAes256),
        is_numbered(2u8, MacSecValidate::Strict),
        is_numbered(0xffu8, MacSecOffload::Other(0xff)),
        is_numbered(1u32, NetkitMode::L3),
        is_numbered(7u32, NetkitPolicy::Redirect),
        is_numbered(1u32, NetkitScrub::Default),
        NetkitScrub::from(2) == NetkitScrub::Default,
    ];
    assert_eq!(rt; named, [true; 11]);
    let named = [
        is_named(rt.alloc(), IpVlanMode::L3S, "l3s"),
        is_named(rt.alloc(), MacVlanMode::Passthrough, "passthru"),
        is_named(rt.alloc(), NetkitMode::L2, "l2"),
        is_named(rt.alloc(), NetkitPolicy::Forward, "forward"),
        is_named(rt.alloc(), NetkitScrub::None, "none"),
        is_displayed(rt.alloc(), MacVlanMode::Other(3), "3"),
        MacVlanMode::from_str("passthrough").is_err(),
        IpVlanMode::from_str("L3S").is_err(),
    ];
    assert_eq!(rt; named, [true; 8]);
}

#[test]
fn flags_have_their_bits_and_taps_the_types_of_vlans(rt: HostRuntime) {
    let held = [
        are_flags(IpVlanFlags::Vepa, 0x2u16, IpVlanFlags::Private),
        are_flags(MacVlanFlags::NoDst, 0x2u16, MacVlanFlags::NoPromisc),
        are_flags(
            RmNetFlags::EgressMapCksumV5,
            0x20u32,
            RmNetFlags::EgressMapCksumV4,
        ),
        RmNetFlags::from_bits_retain(u32::MAX).bits() == u32::MAX,
        IpVlanFlags::default() == IpVlanFlags::empty(),
    ];
    assert_eq!(rt; held, [true; 5]);
    let alike = [
        IpVtapMode::L2 == IpVlanMode::L2,
        IpVtapFlags::Vepa == IpVlanFlags::Vepa,
        MacVtapMode::Vepa == MacVlanMode::Vepa,
        MacVtapFlags::NoDst == MacVlanFlags::NoDst,
        MacVtapMacAddressMode::Del == MacVlanMacAddressMode::Del,
    ];
    assert_eq!(rt; alike, [true; 5]);
}
