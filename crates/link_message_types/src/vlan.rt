//! Protocols of VLANs.

ghost use Rattle.std.specs.Prelude.{◌≡◌};
ghost use Rattle.link_message_types.specs.VlanTypes.{vlan_protocol_number, vlan_protocol_of};

/// The protocol of a VLAN tag, `ETH_P_*` of `linux/if_ether.h`. On the wire 2 bytes, big-endian.
#[derive(Debug, PartialEq, Eq, Clone, Copy)]
pub enum VlanProtocol {
    /// A customer tag, IEEE 802.1Q: `ETH_P_8021Q`, 0x8100.
    Ieee8021Q,
    /// A service tag, IEEE 802.1ad: `ETH_P_8021AD`, 0x88a8.
    Ieee8021Ad,
    /// Every other number.
    Other(u16),
}

impl From<u16> for VlanProtocol {
    ghost from_gives = { λ n v. v ≡ vlan_protocol_of n };

    fn from(number: u16) -> Self
        ensures named { result ≡ vlan_protocol_of number }
        ensures keeps_the_number { vlan_protocol_number result ≡ number }
    {
        match number {
            0x8100 => Self::Ieee8021Q,
            0x88a8 => Self::Ieee8021Ad,
            _ => Self::Other(number),
        }
    }
}

impl From<VlanProtocol> for u16 {
    ghost from_gives = { λ v n. n ≡ vlan_protocol_number v };

    fn from(value: VlanProtocol) -> Self {
        match value {
            VlanProtocol::Ieee8021Q => 0x8100,
            VlanProtocol::Ieee8021Ad => 0x88a8,
            VlanProtocol::Other(number) => number,
        }
    }
}
