//! The memory map of a device.

ghost use Rattle.std.specs.Prelude.{◌≡◌, ⊤, refl};
ghost use Rattle.link_message_records.specs.Maps.{map_bytes};

use super::record::{FieldRecord, bytes_of, write_record};
use link_message_types::{Record, RecordBuffer};
use netlink_packet_core::Emitable;

/// The memory map of a device, `struct rtnl_link_ifmap` of `linux/if_link.h`. On the wire 32 bytes:
/// three numbers of 8 bytes, one of 2 and two of 1, in native order, and 4 zeros, which may be
/// missing when reading.
#[derive(Debug, PartialEq, Eq, Clone, Copy)]
pub struct Map {
    /// The start of its memory.
    pub memory_start: u64,
    /// The end of its memory.
    pub memory_end: u64,
    /// The base address of its registers.
    pub base_address: u64,
    /// Its interrupt number.
    pub irq: u16,
    /// Its DMA channel.
    pub dma: u8,
    /// Its port.
    pub port: u8,
}

#[tactic(auto, using(netlink_packet_core_grammar::proofs::Sizes::sizes, crate::proofs::Pairs::pairs))]
impl Emitable for Map {
    ghost text = { map_bytes };

    ghost can_emit = { λ _. ⊤ };

    fn buffer_len(&self) -> usize {
        32
    }

    fn emit(&self, buffer: &mut [u8]) {
        write_record(self, buffer);
    }
}

impl Record<32> for Map {
    fn to_bytes(&self) -> [u8; 32] {
        bytes_of(self)
    }
}

impl FieldRecord<32> for Map {
    type Fields = (u64, (u64, (u64, (u16, (u8, u8)))));

    ghost fields_of = { λ v.
        (v.memory_start, (v.memory_end, (v.base_address, (v.irq, (v.dma, v.port))))) };

    fn from_fields(
        (memory_start, (memory_end, (base_address, (irq, (dma, port))))): Self::Fields,
    ) -> Self {
        Self {
            memory_start,
            memory_end,
            base_address,
            irq,
            dma,
            port,
        }
    }

    fn fields(&self) -> Self::Fields {
        (
            self.memory_start,
            (
                self.memory_end,
                (self.base_address, (self.irq, (self.dma, self.port))),
            ),
        )
    }

    ghost fills_record = { refl };
}

/// The 32 bytes of a `Map`.
pub type MapBuffer = RecordBuffer<Map, 32>;
