//! Values that follow one another in bytes.

ghost use Rattle.std.specs.Prelude.{◌≡◌, ◌↔◌, ◌+◌, ◌≤◌, ◌++◌, ◌∷◌, [], ℕ, List, length, take, drop, IsSome, IfSome};
ghost use Rattle.netlink_packet_core.specs.Numbers.{le2, le4, le8};

use netlink_packet_core::{fill_u16, fill_u32, fill_u64, parse_u16, parse_u32, parse_u64};

/// Values that follow one another in a fixed number of bytes. A pair is its first value followed by
/// its second, so three fields are `(A, (B, C))`.
pub trait Fields: Copy {
    /// The bytes of the values.
    ghost bytes: { Self → List ℕ };

    /// The size of the values in bytes.
    ghost size: { ℕ };

    /// Reads the values at the start of some bytes, and returns them with the bytes that follow;
    /// `None` if there are too few bytes.
    fn read_prefix(prefix: &[u8]) -> Option<(Self, &[u8])>
        ensures size { IsSome result ↔ (size ≤ length prefix.now) }
        ensures values { IfSome result (λ r. bytes r.0 ≡ take size prefix.now) }
        ensures rest { IfSome result (λ r. r.1.now ≡ drop size prefix.now) };

    /// Writes the values to the start of a buffer, leaves the rest of the buffer unchanged, and
    /// returns the number of bytes written.
    fn write_prefix(&self, buffer: &mut [u8]) -> usize
        requires { size ≤ length buffer.old }
        ensures buffer { buffer.new ≡ bytes self.now ++ drop size buffer.old }
        ensures has_size { length (bytes self.now) ≡ size }
        ensures size { result ≡ size };
}

/// A number of 1 byte.
impl Fields for u8 {
    ghost bytes = { λ n. n ∷ [] };

    ghost size = { 1 };

    fn read_prefix(prefix: &[u8]) -> Option<(Self, &[u8])> {
        let (byte, rest) = prefix.split_first()?;
        Some((*byte, rest))
    }

    fn write_prefix(&self, buffer: &mut [u8]) -> usize {
        buffer[0] = *self;
        1
    }
}

/// A number of 2 bytes, little-endian.
impl Fields for u16 {
    ghost bytes = { le2 };

    ghost size = { 2 };

    fn read_prefix(prefix: &[u8]) -> Option<(Self, &[u8])> {
        let (number, rest) = prefix.split_at_checked(2)?;
        Some((parse_u16(number).ok()?, rest))
    }

    #[tactic(auto, using(netlink_packet_core_grammar::proofs::Sizes::sizes))]
    fn write_prefix(&self, buffer: &mut [u8]) -> usize {
        let (prefix, _) = buffer.split_at_mut(2);
        fill_u16(prefix, *self);
        2
    }
}

/// A number of 4 bytes, little-endian.
impl Fields for u32 {
    ghost bytes = { le4 };

    ghost size = { 4 };

    fn read_prefix(prefix: &[u8]) -> Option<(Self, &[u8])> {
        let (number, rest) = prefix.split_at_checked(4)?;
        Some((parse_u32(number).ok()?, rest))
    }

    #[tactic(auto, using(netlink_packet_core_grammar::proofs::Sizes::sizes))]
    fn write_prefix(&self, buffer: &mut [u8]) -> usize {
        let (prefix, _) = buffer.split_at_mut(4);
        fill_u32(prefix, *self);
        4
    }
}

/// A number of 8 bytes, little-endian.
impl Fields for u64 {
    ghost bytes = { le8 };

    ghost size = { 8 };

    fn read_prefix(prefix: &[u8]) -> Option<(Self, &[u8])> {
        let (number, rest) = prefix.split_at_checked(8)?;
        Some((parse_u64(number).ok()?, rest))
    }

    #[tactic(auto, using(netlink_packet_core_grammar::proofs::Sizes::sizes))]
    fn write_prefix(&self, buffer: &mut [u8]) -> usize {
        let (prefix, _) = buffer.split_at_mut(8);
        fill_u64(prefix, *self);
        8
    }
}

/// An array of `N` bytes.
impl<const N: usize> Fields for [u8; N] {
    ghost bytes = { λ b. b };

    ghost size = { N };

    fn read_prefix(prefix: &[u8]) -> Option<(Self, &[u8])> {
        let (head, rest) = prefix.split_at_checked(N)?;
        let mut bytes = [0; N];
        bytes.copy_from_slice(head);
        Some((bytes, rest))
    }

    fn write_prefix(&self, buffer: &mut [u8]) -> usize {
        let (prefix, _) = buffer.split_at_mut(N);
        prefix.copy_from_slice(self);
        N
    }
}

impl<A: Fields, B: Fields> Fields for (A, B) {
    ghost bytes = { λ v. A.bytes v.0 ++ B.bytes v.1 };

    ghost size = { A.size + B.size };

    #[tactic(auto, using(crate::proofs::Pairs::pairs))]
    fn read_prefix(prefix: &[u8]) -> Option<(Self, &[u8])> {
        let (first, rest) = A::read_prefix(prefix)?;
        let (second, rest) = B::read_prefix(rest)?;
        Some(((first, second), rest))
    }

    #[tactic(auto, using(crate::proofs::Pairs::pairs))]
    fn write_prefix(&self, buffer: &mut [u8]) -> usize {
        let first = self.0.write_prefix(buffer);
        let (_, rest) = buffer.split_at_mut(first);
        let second = self.1.write_prefix(rest);
        first + second
    }
}
