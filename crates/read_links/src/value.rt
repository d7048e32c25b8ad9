// A value that is read from bytes: the Debug text of what was read, and the bytes that it is written
// as.

ghost use Rattle.std.specs.Prelude.{◌≡◌, Bool, List, ℕ, true, false, length, IfNone, IfOk, IfSome};
ghost use Rattle.netlink_packet_core.specs.Numbers.{as_usize};

use hex::encode;
use netlink_packet_core::DecodeError;
use std::alloc::{AllocError, Global};
use std::fmt::Debug;
use std::io::{self, ErrorKind, Write};

/// A value that can be written as bytes. What follows is generic over it, since the prover shows for
/// each function that owns a link message that it drops every variant inside.
pub trait Value: Debug + Drop {
    /// Whether each length inside fits its 2 bytes.
    ghost fits: { Self → Bool };

    /// The bytes of the value's encoding.
    ghost text: { Self → List ℕ };

    /// Returns whether each length inside fits its 2 bytes.
    fn fits(&self) -> bool
        ensures { result ≡ fits self.now };

    /// Returns the length of the encoding; it saturates at `usize::MAX`.
    fn len(&self) -> usize
        ensures { result ≡ as_usize (length (text self.now)) };

    /// Writes the value into a buffer of its size.
    fn write(&self, buffer: &mut [u8])
        requires fits { fits self.now ≡ true }
        requires size { length buffer.old ≡ length (text self.now) }
        ensures { buffer.new ≡ text self.now };
}

/// Returns the bytes of a value; None if a length inside doesn't fit its 2 bytes.
///
/// # Errors
///
/// Out of memory if the allocation fails.
pub fn written<V: Value>(alloc: Global, value: &V) -> Result<Option<Vec<u8>>, AllocError>
    ensures some { IfOk result (λ o. IfSome o (λ bytes. bytes.items ≡ V.text value.now)) }
    ensures none { IfOk result (λ o. IfNone o (V.fits value.now ≡ false)) }
{
    let size = value.len();
    if size == usize::MAX {
        return Err(AllocError);
    }
    if !value.fits() {
        return Ok(None);
    }
    let mut bytes = Vec::from_elem(alloc, 0u8, size)?;
    value.write(&mut bytes);
    Ok(Some(bytes))
}

/// Writes the result of a case: `read`, the bytes in hex and the Debug text of what was read; `unfit`
/// and the Debug text; or `refused`.
///
/// # Errors
///
/// An allocation or a write failed.
pub fn write_result<V: Value, W: Write>(
    alloc: Global,
    read: Result<V, DecodeError>,
    out: &mut W,
) -> io::Result<()> {
    let value = match read {
        Ok(value) => value,
        Err(error) if error.is_memory() => return Err(io::Error::from(ErrorKind::OutOfMemory)),
        Err(_) => return writeln!(out, "refused"),
    };
    let Some(bytes) = written(alloc, &value)? else {
        return writeln!(out, "unfit {value:?}");
    };
    let hex = encode(alloc, bytes.as_slice())?;
    writeln!(out, "read {hex} {value:?}")
}

/// Returns whether a value was read. Makes its bytes if `emits`.
///
/// # Errors
///
/// Out of memory if the allocation of the bytes fails.
pub fn is_read<V: Value>(
    alloc: Global,
    read: Result<V, DecodeError>,
    emits: bool,
) -> Result<bool, AllocError> {
    let Ok(value) = read else {
        return Ok(false);
    };
    if emits {
        written(alloc, &value)?;
    }
    Ok(true)
}
