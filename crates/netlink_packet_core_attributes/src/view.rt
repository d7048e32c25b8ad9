ghost use Rattle.std.specs.Prelude.{◌≡◌, ◌+◌, ◌≤◌, ℕ, List, length, ⊤};
ghost use Rattle.std.specs.Borrow.{Lends, Array, sem, u8};
ghost use Rattle.std.specs.Vec.{with_items_from};
ghost use denote.MutBor.{at_last};
ghost use Rattle.netlink_packet_core_grammar.specs.Bytes.{put_at, part};
ghost use Rattle.netlink_packet_core_grammar.specs.Numbers.{u16_at, u32_at, le2, le4};
ghost use Rattle.netlink_packet_core_attributes.specs.Stores.{with_items_from_is};

/// Storage that can be read as bytes: `&[u8]`, `&mut [u8]`, `Vec<u8>`, and `&mut` of one of these.
pub trait ByteView {
    ghost bytes: { Self → List ℕ };

    /// Returns the bytes.
    fn as_bytes(&self) -> &[u8]
        ensures { result.now ≡ bytes self.now };
}

/// Storage whose bytes can be overwritten: `&mut [u8]`, `Vec<u8>`, and `&mut` of one of these.
pub trait ByteViewMut: ByteView {
    /// The second value has the first one's storage, with other bytes: for references, both are the
    /// same reference.
    ghost same_storage: { Self → Self → Type 0 };

    /// Overwrites the bytes from offset `at` on with `source`.
    fn write_at(&mut self, at: usize, source: &[u8])
        requires { at + length source.now ≤ length (Self.bytes self.old) }
        ensures bytes { Self.bytes self.new ≡ put_at at source.now (Self.bytes self.old) }
        ensures same { same_storage self.old self.new };
}

/// Storage that lends a part of its bytes to be written: `Vec<u8>`, and `&mut` of it.
pub trait ByteLend: ByteViewMut {
    /// The storage once some bytes are written over its bytes from an offset on.
    ghost with_part: { Self → ℕ → List ℕ → Self };

    /// Borrows the bytes from offset `start` up to offset `end`, for writing.
    fn part_mut(&mut self, start: usize, end: usize) -> &mut [u8]
        requires order { start ≤ end }
        requires bounds { end ≤ length (Self.bytes self.old) }
        ensures* writes_back { sem 𝓛 (Lends Self.row (Array u8 0) self.entry result
            (with_part self.old start)) }
        ensures value { result.now ≡ part start end (Self.bytes self.old) };

    ghost part_written: { (s : Self) (i : ℕ) (w : List ℕ) → i + length w ≤ length (Self.bytes s)
        → Self.bytes (with_part s i w) ≡ put_at i w (Self.bytes s) };
}

impl ByteView for &[u8] {
    ghost bytes = { λ s. s.now };

    fn as_bytes(&self) -> &[u8] {
        &self[..]
    }
}

impl ByteView for &mut [u8] {
    ghost bytes = { λ s. s.now };

    fn as_bytes(&self) -> &[u8] {
        &**self
    }
}

impl ByteView for Vec<u8> {
    ghost bytes = { λ s. s.items };

    fn as_bytes(&self) -> &[u8] {
        self.as_slice()
    }
}

impl<T: ByteView> ByteView for &mut T {
    ghost bytes = { λ s. T.bytes s.now };

    fn as_bytes(&self) -> &[u8] {
        (**self).as_bytes()
    }
}

impl ByteViewMut for &mut [u8] {
    ghost same_storage = { λ a b. b.ghost_name ≡ a.ghost_name };

    fn write_at(&mut self, at: usize, source: &[u8]) {
        self[at..at + source.len()].copy_from_slice(source);
    }
}

impl ByteViewMut for Vec<u8> {
    ghost same_storage = { λ _ _. ⊤ };

    fn write_at(&mut self, at: usize, source: &[u8]) {
        self.as_mut_slice()[at..at + source.len()].copy_from_slice(source);
    }
}

impl<T: ByteViewMut> ByteViewMut for &mut T {
    ghost same_storage = { λ a b. b.ghost_name ≡ a.ghost_name };

    fn write_at(&mut self, at: usize, source: &[u8]) {
        (**self).write_at(at, source);
    }
}

impl ByteLend for Vec<u8> {
    ghost with_part = { with_items_from };

    ghost part_written = { with_items_from_is };

    fn part_mut(&mut self, start: usize, end: usize) -> &mut [u8] {
        self.slice_mut(start..end)
    }
}

impl<T: ByteLend> ByteLend for &mut T {
    ghost with_part = { λ s i w. at_last s (T.with_part s.now i w) };

    ghost part_written = { λ s i w h. T.part_written s.now i w h };

    fn part_mut(&mut self, start: usize, end: usize) -> &mut [u8] {
        (**self).part_mut(start, end)
    }
}

/// Returns the little-endian number of 2 bytes at offset `at`.
#[tactic(auto, unfolding(netlink_packet_core_grammar::specs::Numbers::u16_at))]
pub fn read_u16(bytes: &[u8], at: usize) -> u16
    requires { at + 2 ≤ length bytes.now }
    ensures { result ≡ u16_at at bytes.now }
{
    u16::from_le_bytes([bytes[at], bytes[at + 1]])
}

/// Returns the little-endian number of 4 bytes at offset `at`.
#[tactic(auto, unfolding(netlink_packet_core_grammar::specs::Numbers::u32_at))]
pub fn read_u32(bytes: &[u8], at: usize) -> u32
    requires { at + 4 ≤ length bytes.now }
    ensures { result ≡ u32_at at bytes.now }
{
    u32::from_le_bytes([bytes[at], bytes[at + 1], bytes[at + 2], bytes[at + 3]])
}

/// Writes a number as 2 little-endian bytes at offset `at`.
#[tactic(auto, using(netlink_packet_core_grammar::proofs::Numbers::digits))]
pub fn write_u16<T: ByteViewMut>(buffer: &mut T, at: usize, value: u16)
    requires { at + 2 ≤ length (T.bytes buffer.old) }
    ensures bytes { T.bytes buffer.new ≡ put_at at (le2 value) (T.bytes buffer.old) }
    ensures same { T.same_storage buffer.old buffer.new }
{
    buffer.write_at(at, &u16::to_le_bytes(value));
}

/// Writes a number as 4 little-endian bytes at offset `at`.
#[tactic(auto, using(netlink_packet_core_grammar::proofs::Numbers::digits))]
pub fn write_u32<T: ByteViewMut>(buffer: &mut T, at: usize, value: u32)
    requires { at + 4 ≤ length (T.bytes buffer.old) }
    ensures bytes { T.bytes buffer.new ≡ put_at at (le4 value) (T.bytes buffer.old) }
    ensures same { T.same_storage buffer.old buffer.new }
{
    buffer.write_at(at, &u32::to_le_bytes(value));
}
