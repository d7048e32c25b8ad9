//! XDP programs of a link (if_link.h, IFLA_XDP_*). Numbers are little-endian.

ghost use Rattle.std.specs.Prelude.{refl, IfNone, IfSome, ◌≡◌, ◌≢◌};
ghost use Rattle.netlink_packet_core.specs.Families.{attribute};
ghost use Rattle.netlink_packet_core.specs.Numbers.{le4};
ghost use Rattle.link_message_grammar.specs.NestedTables.{xdp};
ghost use Rattle.link_message_nested.specs.Xdp.{link_xdp_entry, link_xdp_names_row};

use attribute_tables::typed;
use link_message_types::XdpAttached;
use netlink_packet_core::{
    DecodeError, DefaultNla, Family, Field, FieldNla, Nla, parse_i32, parse_u8, parse_u32,
};
use std::alloc::Global;

const IFLA_XDP_FD: u16 = 1;

const IFLA_XDP_ATTACHED: u16 = 2;

const IFLA_XDP_FLAGS: u16 = 3;

const IFLA_XDP_PROG_ID: u16 = 4;

const IFLA_XDP_DRV_PROG_ID: u16 = 5;

const IFLA_XDP_SKB_PROG_ID: u16 = 6;

const IFLA_XDP_HW_PROG_ID: u16 = 7;

const IFLA_XDP_EXPECTED_FD: u16 = 8;

/// An attribute of the XDP programs of a link.
#[derive(Debug, PartialEq, Eq, Drop)]
pub enum LinkXdp {
    /// `IFLA_XDP_FD`: the file descriptor of the program; 4 bytes, signed.
    Fd(i32),
    /// `IFLA_XDP_ATTACHED`: the hook to which it is attached; 1 byte.
    Attached(XdpAttached),
    /// `IFLA_XDP_FLAGS`: the flags of attaching it; 4 bytes.
    Flags(u32),
    /// `IFLA_XDP_PROG_ID`: the id of the program; 4 bytes.
    ProgId(u32),
    /// `IFLA_XDP_DRV_PROG_ID`: the id of the program in the driver; 4 bytes.
    DrvProgId(u32),
    /// `IFLA_XDP_SKB_PROG_ID`: the id of the program at the generic hook, after the driver; 4
    /// bytes.
    SkbProgId(u32),
    /// `IFLA_XDP_HW_PROG_ID`: the id of the program in the device; 4 bytes.
    HwProgId(u32),
    /// `IFLA_XDP_EXPECTED_FD`: the file descriptor of the program that is to be replaced; 4 bytes.
    ExpectedFd(u32),
    /// Any other kind, kept unchanged.
    Other(DefaultNla),
}

impl FieldNla for LinkXdp {
    ghost field_entry = { link_xdp_entry };

    #[tactic(auto, using(netlink_packet_core_grammar::proofs::Numbers::signs))]
    fn field(&self) -> (u16, Field<'_>) {
        match self {
            Self::Fd(number) => (IFLA_XDP_FD, Field::U32(number.cast_unsigned())),
            Self::Attached(attached) => (IFLA_XDP_ATTACHED, Field::U8(u8::from(*attached))),
            Self::Flags(number) => (IFLA_XDP_FLAGS, Field::U32(*number)),
            Self::ProgId(number) => (IFLA_XDP_PROG_ID, Field::U32(*number)),
            Self::DrvProgId(number) => (IFLA_XDP_DRV_PROG_ID, Field::U32(*number)),
            Self::SkbProgId(number) => (IFLA_XDP_SKB_PROG_ID, Field::U32(*number)),
            Self::HwProgId(number) => (IFLA_XDP_HW_PROG_ID, Field::U32(*number)),
            Self::ExpectedFd(number) => (IFLA_XDP_EXPECTED_FD, Field::U32(*number)),
            Self::Other(nla) => (nla.kind(), Field::Bytes(nla.value())),
        }
    }
}

impl LinkXdp {
    // Returns the attribute of a kind that holds 4 bytes without a sign; `None` for any other kind.
    // These kinds share an arm of `read_row`, since the prover's time for one match is its paths
    // times the variants of its type.
    fn of_u32(kind: u16, number: u32) -> Option<Self>
        ensures value { IfSome result (λ v. link_xdp_entry v ≡ attribute kind (le4 number)) }
        ensures is_row_variant { IfSome result (λ v. link_xdp_names_row v) }
        ensures none { IfNone result
            (kind ≢ 3 × kind ≢ 4 × kind ≢ 5 × kind ≢ 6 × kind ≢ 7 × kind ≢ 8) }
    {
        match kind {
            IFLA_XDP_FLAGS => Some(Self::Flags(number)),
            IFLA_XDP_PROG_ID => Some(Self::ProgId(number)),
            IFLA_XDP_DRV_PROG_ID => Some(Self::DrvProgId(number)),
            IFLA_XDP_SKB_PROG_ID => Some(Self::SkbProgId(number)),
            IFLA_XDP_HW_PROG_ID => Some(Self::HwProgId(number)),
            IFLA_XDP_EXPECTED_FD => Some(Self::ExpectedFd(number)),
            _ => None,
        }
    }
}

impl Family for LinkXdp {
    ghost rows = { xdp };

    ghost is_row_variant = { link_xdp_names_row };

    fn read_row(_alloc: Global, kind: u16, payload: &[u8]) -> Result<Option<Self>, DecodeError> {
        match kind {
            IFLA_XDP_FD => typed!(Fd, parse_i32(payload)),
            IFLA_XDP_ATTACHED => match parse_u8(payload) {
                Ok(number) => Ok(Some(Self::Attached(XdpAttached::try_from(number)?))),
                Err(error) => Err(error),
            },
            IFLA_XDP_FLAGS
            | IFLA_XDP_PROG_ID
            | IFLA_XDP_DRV_PROG_ID
            | IFLA_XDP_SKB_PROG_ID
            | IFLA_XDP_HW_PROG_ID
            | IFLA_XDP_EXPECTED_FD => typed!(of_u32(kind), parse_u32(payload)),
            _ => Ok(None),
        }
    }

    fn other(nla: DefaultNla) -> Self {
        Self::Other(nla)
    }

    ghost plain = { refl };
}
