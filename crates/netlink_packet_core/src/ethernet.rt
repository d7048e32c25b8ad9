ghost use Rattle.std.specs.Prelude.{◌≡◌, Some};
ghost use Rattle.netlink_packet_core.specs.Ethernet.{ethernet_protocol_number, ethernet_protocol_of, ethernet_protocol_text};

use itoa::Buffer;
use std::fmt;

const ETH_P_IP: u16 = 0x0800;

const ETH_P_ARP: u16 = 0x0806;

const ETH_P_8021Q: u16 = 0x8100;

const ETH_P_IPV6: u16 = 0x86dd;

const ETH_P_8021AD: u16 = 0x88a8;

const ETH_P_LLDP: u16 = 0x88cc;

/// The protocol that an Ethernet frame carries, `ETH_P_*` of `linux/if_ether.h`.
///
/// The number is in host byte order; a frame and most attributes hold it big-endian.
#[derive(Debug, PartialEq, Eq, Clone, Copy)]
pub enum EthernetProtocol {
    /// Internet protocol, version 4: `ETH_P_IP`, 0x0800.
    Ipv4,
    /// Address resolution protocol: `ETH_P_ARP`, 0x0806.
    Arp,
    /// A VLAN tag: `ETH_P_8021Q`, 0x8100.
    Vlan8021Q,
    /// Internet protocol, version 6: `ETH_P_IPV6`, 0x86dd.
    Ipv6,
    /// A service VLAN tag: `ETH_P_8021AD`, 0x88a8.
    Vlan8021Ad,
    /// Link layer discovery protocol: `ETH_P_LLDP`, 0x88cc.
    Lldp,
    /// Any other number.
    Other(u16),
}

impl EthernetProtocol {
    /// Returns the protocol's number.
    pub fn value(&self) -> u16
        ensures { result ≡ ethernet_protocol_number self.now }
    {
        match self {
            Self::Ipv4 => ETH_P_IP,
            Self::Arp => ETH_P_ARP,
            Self::Vlan8021Q => ETH_P_8021Q,
            Self::Ipv6 => ETH_P_IPV6,
            Self::Vlan8021Ad => ETH_P_8021AD,
            Self::Lldp => ETH_P_LLDP,
            Self::Other(number) => *number,
        }
    }
}

impl From<u16> for EthernetProtocol {
    ghost from_gives = { λ n p. p ≡ ethernet_protocol_of n };

    fn from(number: u16) -> Self
        ensures named { result ≡ ethernet_protocol_of number }
        ensures keeps_the_number { ethernet_protocol_number result ≡ number }
    {
        match number {
            ETH_P_IP => Self::Ipv4,
            ETH_P_ARP => Self::Arp,
            ETH_P_8021Q => Self::Vlan8021Q,
            ETH_P_IPV6 => Self::Ipv6,
            ETH_P_8021AD => Self::Vlan8021Ad,
            ETH_P_LLDP => Self::Lldp,
            _ => Self::Other(number),
        }
    }
}

impl From<EthernetProtocol> for u16 {
    ghost from_gives = { λ p n. n ≡ ethernet_protocol_number p };

    fn from(value: EthernetProtocol) -> Self {
        value.value()
    }
}

impl fmt::Display for EthernetProtocol {
    ghost output = { λ p. Some (ethernet_protocol_text p) };

    ghost styled_output = { λ p _. Some (ethernet_protocol_text p) };

    fn fmt<W: fmt::Write>(&self, f: &mut fmt::Formatter<W>) -> fmt::Result {
        match self {
            Self::Ipv4 => f.write_str("ipv4"),
            Self::Arp => f.write_str("arp"),
            Self::Vlan8021Q => f.write_str("802.1q"),
            Self::Ipv6 => f.write_str("ipv6"),
            Self::Vlan8021Ad => f.write_str("802.1ad"),
            Self::Lldp => f.write_str("lldp"),
            Self::Other(number) => f.write_str(Buffer::new().format(*number)),
        }
    }
}
