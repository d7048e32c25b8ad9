//! The first bytes of a capture, which identify files of another format.

ghost use Rattle.std.specs.Prelude.{◌≡◌, ◌++◌, take};

use arrayvec::ArrayVec;

/// The first four bytes of a capture, or all bytes of a shorter one.
pub type FirstBytes = ArrayVec<u8, 4>;

/// Appends bytes to the first ones, up to four in all.
pub fn keep_first(first: &mut FirstBytes, bytes: &[u8])
    ensures { first.new.items ≡ take 4 (first.old.items ++ bytes.now) }
{
    let taken = first.remaining_capacity().min(bytes.len());
    match first.try_extend_from_slice(&bytes[..taken]) {
        Ok(()) => {}
        Err(_) => {}
    }
}
