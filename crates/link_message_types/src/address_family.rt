//! Address families.

ghost use Rattle.std.specs.Prelude.{◌≡◌};
ghost use Rattle.link_message_grammar.specs.LinkMessage.{family_of};
ghost use Rattle.link_message_types.specs.AddressFamilies.{table_family};
ghost use Rattle.link_message_types.specs.AddressFamilies.{address_family_number, address_family_of};

/// The address family in the header of a link message, `AF_*` of `linux/socket.h`. On the wire 1
/// byte.
#[derive(Debug, PartialEq, Eq, Clone, Copy, Default)]
pub enum AddressFamily {
    /// No family: `AF_UNSPEC`, 0.
    #[default]
    Unspec,
    /// Local sockets of one machine: `AF_UNIX`, 1.
    Unix,
    /// IPv4: `AF_INET`, 2.
    Inet,
    /// Bridges: `AF_BRIDGE`, 7.
    Bridge,
    /// IPv6: `AF_INET6`, 10.
    Inet6,
    /// Netlink: `AF_NETLINK`, 16.
    Netlink,
    /// Packets at the level of the device: `AF_PACKET`, 17.
    Packet,
    /// The management component transport protocol: `AF_MCTP`, 45.
    Mctp,
    /// Every other number.
    Other(u8),
}

impl From<u8> for AddressFamily {
    ghost from_gives = { λ n v. v ≡ address_family_of n };

    fn from(number: u8) -> Self
        ensures named { result ≡ address_family_of number }
        ensures keeps_the_number { address_family_number result ≡ number }
        ensures table { table_family result ≡ family_of number }
    {
        match number {
            0 => Self::Unspec,
            1 => Self::Unix,
            2 => Self::Inet,
            7 => Self::Bridge,
            10 => Self::Inet6,
            16 => Self::Netlink,
            17 => Self::Packet,
            45 => Self::Mctp,
            _ => Self::Other(number),
        }
    }
}

impl From<AddressFamily> for u8 {
    ghost from_gives = { λ v n. n ≡ address_family_number v };

    fn from(value: AddressFamily) -> Self {
        match value {
            AddressFamily::Unspec => 0,
            AddressFamily::Unix => 1,
            AddressFamily::Inet => 2,
            AddressFamily::Bridge => 7,
            AddressFamily::Inet6 => 10,
            AddressFamily::Netlink => 16,
            AddressFamily::Packet => 17,
            AddressFamily::Mctp => 45,
            AddressFamily::Other(number) => number,
        }
    }
}
