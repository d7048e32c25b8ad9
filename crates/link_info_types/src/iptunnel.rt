//! Numbers, texts and flags of tunnels over IP.

ghost use Rattle.std.specs.Prelude.{◌≡◌, Some, ⊤};
ghost use Rattle.link_info_types.specs.IpTunnelTypes.{tunnel_encap_type_number, tunnel_encap_type_of, tunnel_encap_type_text};
ghost use Rattle.link_info_types.specs.IpTunnelTypes.{tunnel_encap_flags_bits};
ghost use Rattle.link_info_types.specs.IpTunnelTypes.{tunnel_encap_flags_table, ip6_tunnel_flags_bits, ip6_tunnel_flags_table};

use bitflags::{Flag, Flags};
use itoa::Buffer;
use std::fmt;

/// The encapsulation of an IP tunnel, `TUNNEL_ENCAP_*` of `linux/if_tunnel.h`. Encoded in 2 bytes,
/// in native byte order.
#[derive(Debug, PartialEq, Eq, Clone, Copy)]
pub enum TunnelEncapType {
    /// Nothing: `TUNNEL_ENCAP_NONE`, 0.
    None,
    /// Foo over UDP, directly in UDP: `TUNNEL_ENCAP_FOU`, 1.
    Fou,
    /// Generic UDP encapsulation: `TUNNEL_ENCAP_GUE`, 2.
    Gue,
    /// MPLS: `TUNNEL_ENCAP_MPLS`, 3.
    Mpls,
    /// Any other number.
    Other(u16),
}

impl From<u16> for TunnelEncapType {
    ghost from_gives = { λ n t. t ≡ tunnel_encap_type_of n };

    fn from(number: u16) -> Self
        ensures named { result ≡ tunnel_encap_type_of number }
        ensures keeps_the_number { tunnel_encap_type_number result ≡ number }
    {
        match number {
            0 => Self::None,
            1 => Self::Fou,
            2 => Self::Gue,
            3 => Self::Mpls,
            _ => Self::Other(number),
        }
    }
}

impl From<TunnelEncapType> for u16 {
    ghost from_gives = { λ t n. n ≡ tunnel_encap_type_number t };

    fn from(value: TunnelEncapType) -> Self {
        match value {
            TunnelEncapType::None => 0,
            TunnelEncapType::Fou => 1,
            TunnelEncapType::Gue => 2,
            TunnelEncapType::Mpls => 3,
            TunnelEncapType::Other(number) => number,
        }
    }
}

impl fmt::Display for TunnelEncapType {
    ghost output = { λ t. Some (tunnel_encap_type_text t) };

    ghost styled_output = { λ t _. Some (tunnel_encap_type_text t) };

    fn fmt<W: fmt::Write>(&self, f: &mut fmt::Formatter<W>) -> fmt::Result {
        match self {
            Self::None => f.write_str("none"),
            Self::Fou => f.write_str("fou"),
            Self::Gue => f.write_str("gue"),
            Self::Mpls => f.write_str("mpls"),
            Self::Other(number) => f.write_str(Buffer::new().format(*number)),
        }
    }
}

/// The checksums in the outer UDP header of an IP tunnel, `TUNNEL_ENCAP_FLAG_*` of
/// `linux/if_tunnel.h`. Encoded in 2 bytes, in native byte order; all bits are kept.
#[derive(Debug, Clone, Copy, PartialEq, Eq, Hash)]
pub struct TunnelEncapFlags(u16);

impl TunnelEncapFlags {
    /// A checksum over IPv4: `TUNNEL_ENCAP_FLAG_CSUM`.
    pub const CSum: Self = Self(0x01);
    /// A checksum over IPv6: `TUNNEL_ENCAP_FLAG_CSUM6`.
    pub const CSum6: Self = Self(0x02);
    /// A remote checksum: `TUNNEL_ENCAP_FLAG_REMCSUM`.
    pub const RemCSum: Self = Self(0x04);

    const FLAGS: [Flag<TunnelEncapFlags>; 3] = [
        Flag {
            name: "CSum",
            value: Self::CSum,
        },
        Flag {
            name: "CSum6",
            value: Self::CSum6,
        },
        Flag {
            name: "RemCSum",
            value: Self::RemCSum,
        },
    ];
}

impl Flags for TunnelEncapFlags {
    type Bits = u16;

    ghost exact = { ⊤ };

    ghost table = { tunnel_encap_flags_table };

    ghost set_of = { tunnel_encap_flags_bits };

    fn flags<'a>() -> &'a [Flag<TunnelEncapFlags>] {
        &TunnelEncapFlags::FLAGS
    }

    fn bits(&self) -> u16 {
        self.0
    }

    fn from_bits_retain(bits: u16) -> TunnelEncapFlags {
        TunnelEncapFlags(bits)
    }
}

/// How an IPv6 tunnel makes its outer header, and its capabilities, `IP6_TNL_F_*` of
/// `linux/ip6_tunnel.h`, the last three of the kernel's `net/ip6_tunnel.h`. Encoded in 4 bytes, in
/// native byte order; all bits are kept.
#[derive(Debug, Clone, Copy, PartialEq, Eq, Hash)]
pub struct Ip6TunnelFlags(u32);

impl Ip6TunnelFlags {
    /// No encapsulation limit is added: `IP6_TNL_F_IGN_ENCAP_LIMIT`.
    pub const IgnEncapLimit: Self = Self(0x01);
    /// The traffic class is copied from the inner packet: `IP6_TNL_F_USE_ORIG_TCLASS`.
    pub const UseOrigTclass: Self = Self(0x02);
    /// The flow label is copied from the inner packet: `IP6_TNL_F_USE_ORIG_FLOWLABEL`.
    pub const UseOrigFlowlabel: Self = Self(0x04);
    /// The device is for mobile IPv6: `IP6_TNL_F_MIP6_DEV`.
    pub const Mip6Dev: Self = Self(0x08);
    /// The DSCP of the outer packet is copied when a packet is received: `IP6_TNL_F_RCV_DSCP_COPY`.
    pub const RcvDscpCopy: Self = Self(0x10);
    /// The firewall mark is that of the inner packet: `IP6_TNL_F_USE_ORIG_FWMARK`.
    pub const UseOrigFwMark: Self = Self(0x20);
    /// The remote end may be on this host: `IP6_TNL_F_ALLOW_LOCAL_REMOTE`.
    pub const AllowLocalRemote: Self = Self(0x40);
    /// The tunnel can send: `IP6_TNL_F_CAP_XMIT`.
    pub const CapXmit: Self = Self(0x10000);
    /// The tunnel can receive: `IP6_TNL_F_CAP_RCV`.
    pub const CapRcv: Self = Self(0x20000);
    /// The capabilities are checked for each packet: `IP6_TNL_F_CAP_PER_PACKET`.
    pub const CapPerPacket: Self = Self(0x40000);

    const FLAGS: [Flag<Ip6TunnelFlags>; 10] = [
        Flag {
            name: "IgnEncapLimit",
            value: Self::IgnEncapLimit,
        },
        Flag {
            name: "UseOrigTclass",
            value: Self::UseOrigTclass,
        },
        Flag {
            name: "UseOrigFlowlabel",
            value: Self::UseOrigFlowlabel,
        },
        Flag {
            name: "Mip6Dev",
            value: Self::Mip6Dev,
        },
        Flag {
            name: "RcvDscpCopy",
            value: Self::RcvDscpCopy,
        },
        Flag {
            name: "UseOrigFwMark",
            value: Self::UseOrigFwMark,
        },
        Flag {
            name: "AllowLocalRemote",
            value: Self::AllowLocalRemote,
        },
        Flag {
            name: "CapXmit",
            value: Self::CapXmit,
        },
        Flag {
            name: "CapRcv",
            value: Self::CapRcv,
        },
        Flag {
            name: "CapPerPacket",
            value: Self::CapPerPacket,
        },
    ];
}

impl Flags for Ip6TunnelFlags {
    type Bits = u32;

    ghost exact = { ⊤ };

    ghost table = { ip6_tunnel_flags_table };

    ghost set_of = { ip6_tunnel_flags_bits };

    fn flags<'a>() -> &'a [Flag<Ip6TunnelFlags>] {
        &Ip6TunnelFlags::FLAGS
    }

    fn bits(&self) -> u32 {
        self.0
    }

    fn from_bits_retain(bits: u32) -> Ip6TunnelFlags {
        Ip6TunnelFlags(bits)
    }
}
