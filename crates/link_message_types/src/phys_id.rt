//! Identifiers of ports and switches.

ghost use Rattle.std.specs.Prelude.{◌≡◌, ◌<◌, true, ⊤, length, IfOk, IfErr};
ghost use Rattle.netlink_packet_core.specs.Errors.{is_memory};
ghost use Rattle.link_message_types.specs.PhysIds.{link_phys_id_bytes};

use netlink_packet_core::{ByteVec, DecodeError, Emitable};
use std::alloc::Global;

/// The identifier of a port or a switch, as in `IFLA_PHYS_PORT_ID` and `IFLA_PHYS_SWITCH_ID` of
/// `linux/if_link.h`: any number of bytes.
#[derive(Debug, PartialEq, Eq, Drop)]
pub struct LinkPhysId {
    /// The bytes of the identifier.
    pub bytes: ByteVec,
}

impl Emitable for LinkPhysId {
    ghost text = { link_phys_id_bytes };

    ghost can_emit = { λ _. ⊤ };

    fn buffer_len(&self) -> usize {
        self.bytes.len()
    }

    fn emit(&self, buffer: &mut [u8]) {
        let (prefix, _) = buffer.split_at_mut(self.bytes.len());
        prefix.copy_from_slice(self.bytes.as_slice());
    }
}

impl LinkPhysId {
    /// Reads an identifier of any bytes. Allocates nothing for an empty one.
    ///
    /// # Errors
    ///
    /// Out of memory if an allocation fails.
    pub fn parse(alloc: Global, payload: &[u8]) -> Result<Self, DecodeError>
        ensures ok { IfOk result (λ id. link_phys_id_bytes id ≡ payload.now) }
        ensures err { IfErr result (λ e. is_memory e ≡ true) }
        ensures not_empty { IfErr result (λ _. 0 < length payload.now) }
    {
        Ok(LinkPhysId {
            bytes: ByteVec::from_slice(alloc, payload)?,
        })
    }
}
