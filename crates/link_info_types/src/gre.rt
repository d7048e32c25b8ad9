//! Numbers, texts and flags of GRE and ERSPAN.

ghost use Rattle.std.specs.Prelude.{◌≡◌, Some, ⊤};
ghost use Rattle.link_info_types.specs.GreTypes.{gre_io_flags_bits, gre_io_flags_table, gre_encap_flags_bits};
ghost use Rattle.link_info_types.specs.GreTypes.{gre_encap_flags_table, gre_encap_type_number};
ghost use Rattle.link_info_types.specs.GreTypes.{gre_encap_type_of, gre_encap_type_text, er_span_dir_number};
ghost use Rattle.link_info_types.specs.GreTypes.{er_span_dir_of, er_span_dir_text};

use bitflags::{Flag, Flags};
use itoa::Buffer;
use std::fmt;

/// The flags of a GRE header, `GRE_*` of `linux/if_tunnel.h`. Encoded in 2 bytes, big-endian; all
/// bits are kept.
#[derive(Debug, Clone, Copy, PartialEq, Eq)]
pub struct GreIOFlags(u16);

impl GreIOFlags {
    /// A checksum is present: `GRE_CSUM`.
    pub const Checksum: Self = Self(0x8000);
    /// Routing information is present: `GRE_ROUTING`.
    pub const Routing: Self = Self(0x4000);
    /// A key is present: `GRE_KEY`.
    pub const Key: Self = Self(0x2000);
    /// A sequence number is present: `GRE_SEQ`.
    pub const Seq: Self = Self(0x1000);
    /// The source route is strict: `GRE_STRICT`.
    pub const Strict0: Self = Self(0x0800);
    /// The bits of recursion control: `GRE_REC`.
    pub const Rec: Self = Self(0x0700);
    /// An acknowledgment number is present: `GRE_ACK`.
    pub const Ack: Self = Self(0x0080);
    /// The reserved bits: `GRE_FLAGS`.
    pub const Flags: Self = Self(0x0078);
    /// The bits of the version: `GRE_VERSION`.
    pub const Version: Self = Self(0x0007);

    const FLAGS: [Flag<GreIOFlags>; 9] = [
        Flag {
            name: "Checksum",
            value: Self::Checksum,
        },
        Flag {
            name: "Routing",
            value: Self::Routing,
        },
        Flag {
            name: "Key",
            value: Self::Key,
        },
        Flag {
            name: "Seq",
            value: Self::Seq,
        },
        Flag {
            name: "Strict0",
            value: Self::Strict0,
        },
        Flag {
            name: "Rec",
            value: Self::Rec,
        },
        Flag {
            name: "Ack",
            value: Self::Ack,
        },
        Flag {
            name: "Flags",
            value: Self::Flags,
        },
        Flag {
            name: "Version",
            value: Self::Version,
        },
    ];
}

impl Flags for GreIOFlags {
    type Bits = u16;

    ghost exact = { ⊤ };

    ghost table = { gre_io_flags_table };

    ghost set_of = { gre_io_flags_bits };

    fn flags<'a>() -> &'a [Flag<GreIOFlags>] {
        &GreIOFlags::FLAGS
    }

    fn bits(&self) -> u16 {
        self.0
    }

    fn from_bits_retain(bits: u16) -> GreIOFlags {
        GreIOFlags(bits)
    }
}

impl Default for GreIOFlags {
    ghost is_default = { λ f. gre_io_flags_bits f ≡ 0 };

    fn default() -> Self {
        Self::empty()
    }
}

/// The checksums in the outer UDP header of a GRE tunnel, `TUNNEL_ENCAP_FLAG_*` of
/// `linux/if_tunnel.h`. Encoded in 2 bytes, in native byte order; all bits are kept.
#[derive(Debug, Clone, Copy, PartialEq, Eq)]
pub struct GreEncapFlags(u16);

impl GreEncapFlags {
    /// A checksum over IPv4: `TUNNEL_ENCAP_FLAG_CSUM`.
    pub const Checksum: Self = Self(0x01);
    /// A checksum over IPv6: `TUNNEL_ENCAP_FLAG_CSUM6`.
    pub const Checksum6: Self = Self(0x02);
    /// A remote checksum: `TUNNEL_ENCAP_FLAG_REMCSUM`.
    pub const RemoteChecksum: Self = Self(0x04);

    const FLAGS: [Flag<GreEncapFlags>; 3] = [
        Flag {
            name: "Checksum",
            value: Self::Checksum,
        },
        Flag {
            name: "Checksum6",
            value: Self::Checksum6,
        },
        Flag {
            name: "RemoteChecksum",
            value: Self::RemoteChecksum,
        },
    ];
}

impl Flags for GreEncapFlags {
    type Bits = u16;

    ghost exact = { ⊤ };

    ghost table = { gre_encap_flags_table };

    ghost set_of = { gre_encap_flags_bits };

    fn flags<'a>() -> &'a [Flag<GreEncapFlags>] {
        &GreEncapFlags::FLAGS
    }

    fn bits(&self) -> u16 {
        self.0
    }

    fn from_bits_retain(bits: u16) -> GreEncapFlags {
        GreEncapFlags(bits)
    }
}

impl Default for GreEncapFlags {
    ghost is_default = { λ f. gre_encap_flags_bits f ≡ 0 };

    fn default() -> Self {
        Self::empty()
    }
}

/// The encapsulation of a GRE tunnel, `TUNNEL_ENCAP_*` of `linux/if_tunnel.h`. Encoded in 2 bytes,
/// in native byte order.
#[derive(Debug, PartialEq, Eq, Clone, Copy, Default)]
pub enum GreEncapType {
    /// Nothing: `TUNNEL_ENCAP_NONE`, 0.
    #[default]
    None,
    /// Foo over UDP, directly in UDP: `TUNNEL_ENCAP_FOU`, 1.
    Fou,
    /// Generic UDP encapsulation: `TUNNEL_ENCAP_GUE`, 2.
    Gue,
    /// Any other number.
    Other(u16),
}

impl From<u16> for GreEncapType {
    ghost from_gives = { λ n t. t ≡ gre_encap_type_of n };

    fn from(number: u16) -> Self
        ensures named { result ≡ gre_encap_type_of number }
        ensures keeps_the_number { gre_encap_type_number result ≡ number }
    {
        match number {
            0 => Self::None,
            1 => Self::Fou,
            2 => Self::Gue,
            _ => Self::Other(number),
        }
    }
}

impl From<&GreEncapType> for u16 {
    ghost from_gives = { λ t n. n ≡ gre_encap_type_number t.now };

    fn from(value: &GreEncapType) -> Self {
        match value {
            GreEncapType::None => 0,
            GreEncapType::Fou => 1,
            GreEncapType::Gue => 2,
            GreEncapType::Other(number) => *number,
        }
    }
}

impl fmt::Display for GreEncapType {
    ghost output = { λ t. Some (gre_encap_type_text t) };

    ghost styled_output = { λ t _. Some (gre_encap_type_text t) };

    fn fmt<W: fmt::Write>(&self, f: &mut fmt::Formatter<W>) -> fmt::Result {
        match self {
            Self::None => f.write_str("none"),
            Self::Fou => f.write_str("fou"),
            Self::Gue => f.write_str("gue"),
            Self::Other(number) => {
                f.write_str("other(")?;
                f.write_str(Buffer::new().format(*number))?;
                f.write_str(")")
            }
        }
    }
}

/// The direction of the frames that an ERSPAN tunnel of version 2 mirrors, as in
/// `IFLA_GRE_ERSPAN_DIR`. Encoded in 1 byte.
#[derive(Debug, PartialEq, Eq, Clone, Copy, Default)]
pub enum ErSpanDir {
    /// Ingress, received frames: 0.
    #[default]
    Ingress,
    /// Egress, sent frames: 1.
    Egress,
    /// Any other number.
    Other(u8),
}

impl From<u8> for ErSpanDir {
    ghost from_gives = { λ n d. d ≡ er_span_dir_of n };

    fn from(number: u8) -> Self
        ensures named { result ≡ er_span_dir_of number }
        ensures keeps_the_number { er_span_dir_number result ≡ number }
    {
        match number {
            0 => Self::Ingress,
            1 => Self::Egress,
            _ => Self::Other(number),
        }
    }
}

impl From<&ErSpanDir> for u8 {
    ghost from_gives = { λ d n. n ≡ er_span_dir_number d.now };

    fn from(value: &ErSpanDir) -> Self {
        match value {
            ErSpanDir::Ingress => 0,
            ErSpanDir::Egress => 1,
            ErSpanDir::Other(number) => *number,
        }
    }
}

impl fmt::Display for ErSpanDir {
    ghost output = { λ d. Some (er_span_dir_text d) };

    ghost styled_output = { λ d _. Some (er_span_dir_text d) };

    fn fmt<W: fmt::Write>(&self, f: &mut fmt::Formatter<W>) -> fmt::Result {
        match self {
            Self::Ingress => f.write_str("ingress"),
            Self::Egress => f.write_str("egress"),
            Self::Other(number) => {
                f.write_str("other(")?;
                f.write_str(Buffer::new().format(*number))?;
                f.write_str(")")
            }
        }
    }
}
