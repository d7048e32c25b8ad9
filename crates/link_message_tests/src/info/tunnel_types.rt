use crate::info::number_types::{are_flags, is_displayed, is_named, is_numbered};
use link_info::{
    AmtMode, ErSpanDir, Flags, GeneveDf, GreEncapFlags, GreEncapType, GreIOFlags, GtpRole,
    Ip6TunnelFlags, IpProtocol, TunnelEncapFlags, TunnelEncapType, VxlanDf,
};

#[test]
fn numbers_and_texts_name_values(rt: HostRuntime) {
    let named = [
        is_numbered(1u32, AmtMode::Relay),
        is_numbered(2u8, GeneveDf::Inherit),
        is_numbered(3u8, VxlanDf::Other(3)),
        is_numbered(1u32, GtpRole::Sgsn),
        is_numbered(58u8, IpProtocol::Icmpv6),
        is_numbered(3u16, TunnelEncapType::Mpls),
        GreEncapType::from(2) == GreEncapType::Gue,
        u16::from(&GreEncapType::Gue) == 2,
        ErSpanDir::from(1) == ErSpanDir::Egress,
        u8::from(&ErSpanDir::Egress) == 1,
    ];
    assert_eq!(rt; named, [true; 10]);
    let displayed = [
        is_named(rt.alloc(), AmtMode::Gateway, "gateway"),
        is_named(rt.alloc(), GeneveDf::Unset, "unset"),
        is_displayed(rt.alloc(), VxlanDf::Inherit, "inherit"),
        is_displayed(rt.alloc(), GtpRole::Other(2), "unknown(2)"),
        is_displayed(rt.alloc(), TunnelEncapType::Other(0xffff), "65535"),
        is_displayed(rt.alloc(), GreEncapType::Other(3), "other(3)"),
        is_displayed(rt.alloc(), ErSpanDir::Egress, "egress"),
    ];
    assert_eq!(rt; displayed, [true; 7]);
}

#[test]
fn flags_have_their_bits_and_types_their_defaults(rt: HostRuntime) {
    let held = [
        are_flags(GreIOFlags::Flags, 0x0078u16, GreIOFlags::Version),
        are_flags(
            GreEncapFlags::RemoteChecksum,
            0x04u16,
            GreEncapFlags::Checksum,
        ),
        are_flags(TunnelEncapFlags::CSum6, 0x02u16, TunnelEncapFlags::CSum),
        are_flags(Ip6TunnelFlags::CapRcv, 0x20000u32, Ip6TunnelFlags::CapXmit),
        Ip6TunnelFlags::from_bits_retain(u32::MAX).bits() == u32::MAX,
    ];
    assert_eq!(rt; held, [true; 5]);
    let defaults = [
        GtpRole::default() == GtpRole::Ggsn,
        GreEncapType::default() == GreEncapType::None,
        ErSpanDir::default() == ErSpanDir::Ingress,
        GreIOFlags::default() == GreIOFlags::empty(),
        GreEncapFlags::default() == GreEncapFlags::empty(),
    ];
    assert_eq!(rt; defaults, [true; 5]);
}
