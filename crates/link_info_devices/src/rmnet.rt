//! Data of the kind `rmnet` (if_link.h, IFLA_RMNET_*). Numbers are little-endian.

ghost use Rattle.std.specs.Prelude.{◌≡◌, ◌↔◌, false, length, refl, IsOk, IfOk, IfErr};
ghost use Rattle.netlink_packet_core.specs.Errors.{is_memory};
ghost use Rattle.link_info_grammar.specs.Families.{rmnet};
ghost use Rattle.link_info_devices.specs.Rmnet.{flags_bytes, rmnet_entry, rmnet_is_row_variant};

use attribute_tables::typed;
use link_info_types::{Flags, RmNetFlags};
use netlink_packet_core::{
    DecodeError, DefaultNla, Family, Field, FieldNla, Nla, parse_u16, parse_u32,
};
use std::alloc::Global;

const IFLA_RMNET_MUX_ID: u16 = 1;

const IFLA_RMNET_FLAGS: u16 = 2;

/// The settings of an RMNET device, and the mask of those that are to be changed (`struct
/// ifla_rmnet_flags`): 4 bytes of flags, then 4 bytes of mask.
#[derive(Debug, PartialEq, Eq, Clone, Copy)]
pub struct InfoRmNetFlags {
    /// The settings.
    pub flags: RmNetFlags,
    /// The mask of the settings that are to be changed.
    pub mask: RmNetFlags,
}

impl InfoRmNetFlags {
    /// Returns flags under a mask; both are kept as given, also bits outside the mask.
    pub fn new(flags: RmNetFlags, mask: RmNetFlags) -> Self
        ensures flags { result.flags ≡ flags }
        ensures mask { result.mask ≡ mask }
    {
        Self { flags, mask }
    }
}

/// Reads 8 bytes: the flags, then their mask.
fn parse_flags(payload: &[u8]) -> Result<InfoRmNetFlags, DecodeError>
    ensures size { IsOk result ↔ (length payload.now ≡ 8) }
    ensures ok { IfOk result (λ f. flags_bytes f ≡ payload.now) }
    ensures err { IfErr result (λ e. is_memory e ≡ false) }
{
    if payload.len() != 8 {
        return Err(DecodeError::invalid_number(8, payload.len()));
    }
    let flags = RmNetFlags::from_bits_retain(parse_u32(&payload[..4])?);
    let mask = RmNetFlags::from_bits_retain(parse_u32(&payload[4..])?);
    Ok(InfoRmNetFlags::new(flags, mask))
}

/// An attribute of the data of `rmnet`.
#[derive(Debug, PartialEq, Eq, Drop)]
pub enum InfoRmNet {
    /// `IFLA_RMNET_MUX_ID`: the multiplexing channel of the modem; 2 bytes.
    MuxId(u16),
    /// `IFLA_RMNET_FLAGS`: `struct ifla_rmnet_flags`, 8 bytes: the flags, then their mask.
    Flags(InfoRmNetFlags),
    /// Any other kind, kept as it is.
    Other(DefaultNla),
}

impl FieldNla for InfoRmNet {
    ghost field_entry = { rmnet_entry };

    fn field(&self) -> (u16, Field<'_>) {
        match self {
            Self::MuxId(channel) => (IFLA_RMNET_MUX_ID, Field::U16(*channel)),
            Self::Flags(flags) => (
                IFLA_RMNET_FLAGS,
                Field::U32Pair(flags.flags.bits(), flags.mask.bits()),
            ),
            Self::Other(nla) => (nla.kind(), Field::Bytes(nla.value())),
        }
    }
}

impl Family for InfoRmNet {
    ghost rows = { rmnet };

    ghost is_row_variant = { rmnet_is_row_variant };

    fn read_row(_alloc: Global, kind: u16, payload: &[u8]) -> Result<Option<Self>, DecodeError> {
        match kind {
            IFLA_RMNET_MUX_ID => typed!(MuxId, parse_u16(payload)),
            IFLA_RMNET_FLAGS => typed!(Flags, parse_flags(payload)),
            _ => Ok(None),
        }
    }

    fn other(nla: DefaultNla) -> Self {
        Self::Other(nla)
    }

    ghost plain = { refl };
}
