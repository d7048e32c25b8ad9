//! Flags of RMNET.

ghost use Rattle.std.specs.Prelude.{◌≡◌, ⊤};
ghost use Rattle.link_info_types.specs.RmNetTypes.{rm_net_flags_bits, rm_net_flags_table};

use bitflags::{Flag, Flags};

/// How an RMNET device processes the packets of its modem, `RMNET_FLAGS_*` of `linux/if_link.h`.
/// Encoded in 4 bytes, in native byte order; all bits are kept.
#[derive(Debug, Clone, Copy, PartialEq, Eq)]
pub struct RmNetFlags(u32);

impl RmNetFlags {
    /// Received aggregates are split into packets: `RMNET_FLAGS_INGRESS_DEAGGREGATION`.
    pub const IngressDeaggregation: Self = Self(0x01);
    /// Received commands are executed: `RMNET_FLAGS_INGRESS_MAP_COMMANDS`.
    pub const IngressCommands: Self = Self(0x02);
    /// Received packets have a checksum, version 4: `RMNET_FLAGS_INGRESS_MAP_CKSUMV4`.
    pub const IngressMapCksumV4: Self = Self(0x04);
    /// Sent packets have a checksum, version 4: `RMNET_FLAGS_EGRESS_MAP_CKSUMV4`.
    pub const EgressMapCksumV4: Self = Self(0x08);
    /// Received packets have a checksum, version 5: `RMNET_FLAGS_INGRESS_MAP_CKSUMV5`.
    pub const IngressMapCksumV5: Self = Self(0x10);
    /// Sent packets have a checksum, version 5: `RMNET_FLAGS_EGRESS_MAP_CKSUMV5`.
    pub const EgressMapCksumV5: Self = Self(0x20);

    const FLAGS: [Flag<RmNetFlags>; 6] = [
        Flag {
            name: "IngressDeaggregation",
            value: Self::IngressDeaggregation,
        },
        Flag {
            name: "IngressCommands",
            value: Self::IngressCommands,
        },
        Flag {
            name: "IngressMapCksumV4",
            value: Self::IngressMapCksumV4,
        },
        Flag {
            name: "EgressMapCksumV4",
            value: Self::EgressMapCksumV4,
        },
        Flag {
            name: "IngressMapCksumV5",
            value: Self::IngressMapCksumV5,
        },
        Flag {
            name: "EgressMapCksumV5",
            value: Self::EgressMapCksumV5,
        },
    ];
}

impl Flags for RmNetFlags {
    type Bits = u32;

    ghost exact = { ⊤ };

    ghost table = { rm_net_flags_table };

    ghost set_of = { rm_net_flags_bits };

    fn flags<'a>() -> &'a [Flag<RmNetFlags>] {
        &RmNetFlags::FLAGS
    }

    fn bits(&self) -> u32 {
        self.0
    }

    fn from_bits_retain(bits: u32) -> RmNetFlags {
        RmNetFlags(bits)
    }
}
