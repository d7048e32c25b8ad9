//! The IPv6 timers of a link.

ghost use Rattle.std.specs.Prelude.{◌≡◌, ⊤, refl};
ghost use Rattle.link_message_records.specs.CacheInfos.{inet_6_cache_info_bytes};

use super::record::{FieldRecord, bytes_of, write_record};
use link_message_types::{Record, RecordBuffer};
use netlink_packet_core::Emitable;

/// The IPv6 timers of a link, `struct ifla_cacheinfo` of `linux/if_link.h`. On the wire 16 bytes,
/// four numbers of 4 bytes in native order.
#[derive(Debug, PartialEq, Eq, Clone, Copy)]
pub struct Inet6CacheInfo {
    /// The maximum size of a reassembled packet, in bytes.
    pub max_reasm_len: u32,
    /// The time of the last change of the settings, in hundredths of a second since the system's
    /// start.
    pub tstamp: u32,
    /// The time for which a neighbour is considered reachable, in milliseconds.
    pub reachable_time: u32,
    /// The time between retransmissions, in milliseconds.
    pub retrans_time: u32,
}

#[tactic(auto, using(netlink_packet_core_grammar::proofs::Sizes::sizes))]
impl Emitable for Inet6CacheInfo {
    ghost text = { inet_6_cache_info_bytes };

    ghost can_emit = { λ _. ⊤ };

    fn buffer_len(&self) -> usize {
        16
    }

    fn emit(&self, buffer: &mut [u8]) {
        write_record(self, buffer);
    }
}

impl Record<16> for Inet6CacheInfo {
    fn to_bytes(&self) -> [u8; 16] {
        bytes_of(self)
    }
}

impl FieldRecord<16> for Inet6CacheInfo {
    type Fields = (u32, (u32, (u32, u32)));

    ghost fields_of = { λ v. (v.max_reasm_len, (v.tstamp, (v.reachable_time, v.retrans_time))) };

    fn from_fields(
        (max_reasm_len, (tstamp, (reachable_time, retrans_time))): Self::Fields,
    ) -> Self {
        Self {
            max_reasm_len,
            tstamp,
            reachable_time,
            retrans_time,
        }
    }

    fn fields(&self) -> Self::Fields {
        (
            self.max_reasm_len,
            (self.tstamp, (self.reachable_time, self.retrans_time)),
        )
    }

    ghost fills_record = { refl };
}

/// The 16 bytes of a `Inet6CacheInfo`.
pub type Inet6CacheInfoBuffer = RecordBuffer<Inet6CacheInfo, 16>;
