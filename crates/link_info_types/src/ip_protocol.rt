//! Numbers of the protocols that IP carries.

ghost use Rattle.std.specs.Prelude.{◌≡◌};
ghost use Rattle.link_info_types.specs.IpProtocols.{ip_protocol_number, ip_protocol_of};

/// The protocol that an IP packet carries, `IPPROTO_*` of `linux/in.h` and `linux/in6.h`. Encoded
/// in 1 byte.
#[derive(Debug, PartialEq, Eq, Clone, Copy)]
pub enum IpProtocol {
    /// Control messages of IPv4: `IPPROTO_ICMP`, 1.
    Icmp,
    /// IPv4 in a tunnel: `IPPROTO_IPIP`, 4.
    IpIp,
    /// The transmission control protocol: `IPPROTO_TCP`, 6.
    Tcp,
    /// The user datagram protocol: `IPPROTO_UDP`, 17.
    Udp,
    /// IPv6 in a tunnel: `IPPROTO_IPV6`, 41.
    Ipv6,
    /// Generic routing encapsulation: `IPPROTO_GRE`, 47.
    Gre,
    /// Encrypted payloads of IPsec: `IPPROTO_ESP`, 50.
    Esp,
    /// Authentication headers of IPsec: `IPPROTO_AH`, 51.
    Ah,
    /// Control messages of IPv6: `IPPROTO_ICMPV6`, 58.
    Icmpv6,
    /// The stream control transmission protocol: `IPPROTO_SCTP`, 132.
    Sctp,
    /// Any other number.
    Other(u8),
}

impl From<u8> for IpProtocol {
    ghost from_gives = { λ n p. p ≡ ip_protocol_of n };

    fn from(number: u8) -> Self
        ensures named { result ≡ ip_protocol_of number }
        ensures keeps_the_number { ip_protocol_number result ≡ number }
    {
        match number {
            1 => Self::Icmp,
            4 => Self::IpIp,
            6 => Self::Tcp,
            17 => Self::Udp,
            41 => Self::Ipv6,
            47 => Self::Gre,
            50 => Self::Esp,
            51 => Self::Ah,
            58 => Self::Icmpv6,
            132 => Self::Sctp,
            _ => Self::Other(number),
        }
    }
}

impl From<IpProtocol> for u8 {
    ghost from_gives = { λ p n. n ≡ ip_protocol_number p };

    fn from(value: IpProtocol) -> Self {
        match value {
            IpProtocol::Icmp => 1,
            IpProtocol::IpIp => 4,
            IpProtocol::Tcp => 6,
            IpProtocol::Udp => 17,
            IpProtocol::Ipv6 => 41,
            IpProtocol::Gre => 47,
            IpProtocol::Esp => 50,
            IpProtocol::Ah => 51,
            IpProtocol::Icmpv6 => 58,
            IpProtocol::Sctp => 132,
            IpProtocol::Other(number) => number,
        }
    }
}
