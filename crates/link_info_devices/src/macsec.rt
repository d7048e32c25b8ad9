//! Data of the kind `macsec` (if_link.h, IFLA_MACSEC_*). Numbers are little-endian unless noted.

ghost use Rattle.std.specs.Prelude.{refl, IfNone, IfSome, [], ◌∷◌, ◌≡◌, ◌≢◌};
ghost use Rattle.netlink_packet_core.specs.Numbers.{le8};
ghost use Rattle.netlink_packet_core.specs.Families.{attribute};
ghost use Rattle.link_info_grammar.specs.Families.{macsec};
ghost use Rattle.link_info_devices.specs.Macsec.{macsec_entry, macsec_is_row_variant};

use attribute_tables::typed;
use link_info_types::{MacSecCipherId, MacSecOffload, MacSecValidate};
use netlink_packet_core::{
    DecodeError, DefaultNla, Family, Field, FieldNla, Nla, parse_u8, parse_u16_be, parse_u32,
    parse_u64,
};
use std::alloc::Global;

const IFLA_MACSEC_SCI: u16 = 1;

const IFLA_MACSEC_PORT: u16 = 2;

const IFLA_MACSEC_ICV_LEN: u16 = 3;

const IFLA_MACSEC_CIPHER_SUITE: u16 = 4;

const IFLA_MACSEC_WINDOW: u16 = 5;

const IFLA_MACSEC_ENCODING_SA: u16 = 6;

const IFLA_MACSEC_ENCRYPT: u16 = 7;

const IFLA_MACSEC_PROTECT: u16 = 8;

const IFLA_MACSEC_INC_SCI: u16 = 9;

const IFLA_MACSEC_ES: u16 = 10;

const IFLA_MACSEC_SCB: u16 = 11;

const IFLA_MACSEC_REPLAY_PROTECT: u16 = 12;

const IFLA_MACSEC_VALIDATION: u16 = 13;

const IFLA_MACSEC_OFFLOAD: u16 = 15;

/// An attribute of the data of `macsec`: MAC security (IEEE 802.1AE).
#[derive(Debug, PartialEq, Eq, Drop)]
pub enum InfoMacSec {
    /// `IFLA_MACSEC_SCI`: the secure channel identifier, an address and a port; 8 bytes.
    Sci(u64),
    /// `IFLA_MACSEC_PORT`: the port of the secure channel; 2 bytes, big-endian.
    Port(u16),
    /// `IFLA_MACSEC_ICV_LEN`: the length of a frame's integrity check value in bytes; 1 byte.
    IcvLen(u8),
    /// `IFLA_MACSEC_CIPHER_SUITE`: the cipher suite; 8 bytes.
    CipherSuite(MacSecCipherId),
    /// `IFLA_MACSEC_WINDOW`: the size of the replay window, in packet numbers; 4 bytes.
    Window(u32),
    /// `IFLA_MACSEC_ENCODING_SA`: the secure association of sent frames, 0 to 3; 1 byte.
    EncodingSa(u8),
    /// `IFLA_MACSEC_ENCRYPT`: frames are encrypted; 1 byte.
    Encrypt(u8),
    /// `IFLA_MACSEC_PROTECT`: sent frames are protected; 1 byte.
    Protect(u8),
    /// `IFLA_MACSEC_INC_SCI`: each frame carries the secure channel identifier; 1 byte.
    IncSci(u8),
    /// `IFLA_MACSEC_ES`: the sender is an end station, which its address identifies without a port;
    /// 1 byte.
    Es(u8),
    /// `IFLA_MACSEC_SCB`: single copy broadcast; 1 byte.
    Scb(u8),
    /// `IFLA_MACSEC_REPLAY_PROTECT`: frames outside the replay window are dropped; 1 byte.
    ReplayProtect(u8),
    /// `IFLA_MACSEC_VALIDATION`: how received frames are validated; 1 byte.
    Validation(MacSecValidate),
    /// `IFLA_MACSEC_OFFLOAD`: the part of the device that MACsec is offloaded to; 1 byte.
    Offload(MacSecOffload),
    /// Any other kind, kept as it is.
    Other(DefaultNla),
}

impl FieldNla for InfoMacSec {
    ghost field_entry = { macsec_entry };

    fn field(&self) -> (u16, Field<'_>) {
        match self {
            Self::Sci(number) => (IFLA_MACSEC_SCI, Field::U64(*number)),
            Self::Port(port) => (IFLA_MACSEC_PORT, Field::U16Be(*port)),
            Self::IcvLen(number) => (IFLA_MACSEC_ICV_LEN, Field::U8(*number)),
            Self::CipherSuite(cipher) => (IFLA_MACSEC_CIPHER_SUITE, Field::U64(u64::from(*cipher))),
            Self::Window(number) => (IFLA_MACSEC_WINDOW, Field::U32(*number)),
            Self::EncodingSa(number) => (IFLA_MACSEC_ENCODING_SA, Field::U8(*number)),
            Self::Encrypt(number) => (IFLA_MACSEC_ENCRYPT, Field::U8(*number)),
            Self::Protect(number) => (IFLA_MACSEC_PROTECT, Field::U8(*number)),
            Self::IncSci(number) => (IFLA_MACSEC_INC_SCI, Field::U8(*number)),
            Self::Es(number) => (IFLA_MACSEC_ES, Field::U8(*number)),
            Self::Scb(number) => (IFLA_MACSEC_SCB, Field::U8(*number)),
            Self::ReplayProtect(number) => (IFLA_MACSEC_REPLAY_PROTECT, Field::U8(*number)),
            Self::Validation(mode) => (IFLA_MACSEC_VALIDATION, Field::U8(u8::from(*mode))),
            Self::Offload(offload) => (IFLA_MACSEC_OFFLOAD, Field::U8(u8::from(*offload))),
            Self::Other(nla) => (nla.kind(), Field::Bytes(nla.value())),
        }
    }
}

impl InfoMacSec {
    // The attribute of a kind that holds 8 bytes, little-endian. Each payload type has a function
    // of its own, since the prover's time for one match is its paths times the variants of its
    // type.
    fn of_u64(kind: u16, number: u64) -> Option<Self>
        ensures value { IfSome result (λ v. macsec_entry v ≡ attribute kind (le8 number)) }
        ensures is_row_variant { IfSome result (λ v. macsec_is_row_variant v) }
        ensures none { IfNone result (kind ≢ 1 × kind ≢ 4) }
    {
        match kind {
            IFLA_MACSEC_SCI => Some(Self::Sci(number)),
            IFLA_MACSEC_CIPHER_SUITE => Some(Self::CipherSuite(MacSecCipherId::from(number))),
            _ => None,
        }
    }

    // The attribute of a kind that holds 1 byte.
    fn of_u8(kind: u16, number: u8) -> Option<Self>
        ensures value { IfSome result (λ v. macsec_entry v ≡ attribute kind (number ∷ [])) }
        ensures is_row_variant { IfSome result (λ v. macsec_is_row_variant v) }
        ensures none { IfNone result
            (kind ≢ 3 × kind ≢ 6 × kind ≢ 7 × kind ≢ 8 × kind ≢ 9 × kind ≢ 10 × kind ≢ 11
            × kind ≢ 12 × kind ≢ 13 × kind ≢ 15) }
    {
        match kind {
            IFLA_MACSEC_ICV_LEN => Some(Self::IcvLen(number)),
            IFLA_MACSEC_ENCODING_SA => Some(Self::EncodingSa(number)),
            IFLA_MACSEC_ENCRYPT => Some(Self::Encrypt(number)),
            IFLA_MACSEC_PROTECT => Some(Self::Protect(number)),
            IFLA_MACSEC_INC_SCI => Some(Self::IncSci(number)),
            IFLA_MACSEC_ES => Some(Self::Es(number)),
            IFLA_MACSEC_SCB => Some(Self::Scb(number)),
            IFLA_MACSEC_REPLAY_PROTECT => Some(Self::ReplayProtect(number)),
            IFLA_MACSEC_VALIDATION => Some(Self::Validation(MacSecValidate::from(number))),
            IFLA_MACSEC_OFFLOAD => Some(Self::Offload(MacSecOffload::from(number))),
            _ => None,
        }
    }
}

impl Family for InfoMacSec {
    ghost rows = { macsec };

    ghost is_row_variant = { macsec_is_row_variant };

    fn read_row(_alloc: Global, kind: u16, payload: &[u8]) -> Result<Option<Self>, DecodeError> {
        match kind {
            IFLA_MACSEC_SCI | IFLA_MACSEC_CIPHER_SUITE => typed!(of_u64(kind), parse_u64(payload)),
            IFLA_MACSEC_PORT => typed!(Port, parse_u16_be(payload)),
            IFLA_MACSEC_ICV_LEN
            | IFLA_MACSEC_ENCODING_SA
            | IFLA_MACSEC_ENCRYPT
            | IFLA_MACSEC_PROTECT
            | IFLA_MACSEC_INC_SCI
            | IFLA_MACSEC_ES
            | IFLA_MACSEC_SCB
            | IFLA_MACSEC_REPLAY_PROTECT
            | IFLA_MACSEC_VALIDATION
            | IFLA_MACSEC_OFFLOAD => typed!(of_u8(kind), parse_u8(payload)),
            IFLA_MACSEC_WINDOW => typed!(Window, parse_u32(payload)),
            _ => Ok(None),
        }
    }

    fn other(nla: DefaultNla) -> Self {
        Self::Other(nla)
    }

    ghost plain = { refl };
}
