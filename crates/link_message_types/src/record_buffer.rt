//! Bytes of records.

ghost use Rattle.std.specs.Prelude.{◌≡◌, ◌↔◌, ◌≤◌, length, take, IsSome, IfSome};
ghost use Rattle.link_message_types.specs.RecordBuffers.{record_bytes};

use netlink_packet_core::Emitable;
use std::marker::PhantomData;

/// A value that is always written as `N` bytes.
pub trait Record<const N: usize>: Emitable {
    /// Returns the bytes of the value.
    fn to_bytes(&self) -> [u8; N]
        ensures { result ≡ Self.text self.now };
}

/// The `N` bytes of a record.
#[derive(Debug, PartialEq, Eq, Drop)]
pub struct RecordBuffer<R, const N: usize> {
    bytes: [u8; N],
    record: PhantomData<R>,
}

impl<R: Record<N>, const N: usize> From<&R> for RecordBuffer<R, N> {
    ghost from_gives = { λ v b. record_bytes b ≡ R.text v.now };

    fn from(value: &R) -> Self {
        RecordBuffer {
            bytes: value.to_bytes(),
            record: PhantomData,
        }
    }
}

impl<R, const N: usize> RecordBuffer<R, N> {
    /// Returns the bytes of the buffer.
    pub fn as_bytes(&self) -> &[u8]
        ensures { result.now ≡ record_bytes self.now }
    {
        &self.bytes
    }

    /// Returns a buffer of the first `N` of some bytes; `None` if there are fewer.
    pub fn read_front(bytes: &[u8]) -> Option<Self>
        ensures size { IsSome result ↔ (N ≤ length bytes.now) }
        ensures some { IfSome result (λ b. record_bytes b ≡ take N bytes.now) }
    {
        if bytes.len() < N {
            return None;
        }
        let mut prefix = [0; N];
        prefix.copy_from_slice(&bytes[..N]);
        Some(RecordBuffer {
            bytes: prefix,
            record: PhantomData,
        })
    }
}
