use netlink_packet_core::EthernetProtocol;
use std::test::Fail;

#[test]
fn numbers_and_texts(rt: HostRuntime) -> Result<(), Fail> {
    let listed = [
        (0x0800, EthernetProtocol::Ipv4, "ipv4"),
        (0x0806, EthernetProtocol::Arp, "arp"),
        (0x8100, EthernetProtocol::Vlan8021Q, "802.1q"),
        (0x86dd, EthernetProtocol::Ipv6, "ipv6"),
        (0x88a8, EthernetProtocol::Vlan8021Ad, "802.1ad"),
        (0x88cc, EthernetProtocol::Lldp, "lldp"),
        (0x1234, EthernetProtocol::Other(0x1234), "4660"),
        (0xffff, EthernetProtocol::Other(0xffff), "65535"),
    ];
    for (number, protocol, text) in listed {
        let shown = format!(in rt.alloc(); "{protocol}")?;
        assert!(rt; EthernetProtocol::from(number) == protocol && shown.as_str() == text);
        assert!(rt; protocol.value() == number && u16::from(protocol) == number);
    }
    Ok(())
}
