//! The statistics of a kind of link (if_link.h, IFLA_INFO_XSTATS), which its driver fills in
//! (`rtnl_link_ops.fill_xstats`).

ghost use Rattle.std.specs.Prelude.{◌≡◌, ⊤, nat_lt, true, length};
ghost use Rattle.netlink_packet_core.specs.AttributeViews.{BeginsWithAttribute, viewed_payload};
ghost use Rattle.netlink_packet_core.specs.NlaBuffers.{storage};
ghost use Rattle.link_info_data.specs.Xstats.{xstats_bytes};

use attribute_tables::parse_bytes;
use link_info_kinds::InfoKind;
use netlink_packet_core::{DecodeError, Emitable, NlaBuffer, ParseableParametrized};
use std::alloc::Global;

/// The statistics of a kind of link.
#[derive(Debug, PartialEq, Eq, Drop)]
pub enum LinkXstats {
    /// The bytes of any kind's statistics.
    Other(Vec<u8>),
}

impl Emitable for LinkXstats {
    ghost text = { xstats_bytes };

    ghost can_emit = { λ _. ⊤ };

    fn buffer_len(&self) -> usize {
        let Self::Other(bytes) = self;
        bytes.len()
    }

    fn emit(&self, buffer: &mut [u8]) {
        let Self::Other(bytes) = self;
        let (prefix, _) = buffer.split_at_mut(bytes.len());
        prefix.copy_from_slice(bytes);
    }
}

impl<'a, 'b> ParseableParametrized<NlaBuffer<&'a [u8]>, &'b InfoKind> for LinkXstats {
    ghost can_parse = { λ b _. BeginsWithAttribute (storage b).now };

    ghost accepts = { λ _ _. true };

    ghost may_allocate = { λ b _. nat_lt 0 (length (viewed_payload (storage b).now)) };

    ghost gives = { λ b _ x. xstats_bytes x ≡ viewed_payload (storage b).now };

    fn parse_with_param(
        alloc: Global,
        buf: &NlaBuffer<&'a [u8]>,
        _params: &'b InfoKind,
    ) -> Result<Self, DecodeError> {
        Ok(Self::Other(parse_bytes(alloc, buf.value())?))
    }
}
