//! Texts copied to a caller's buffer.

ghost use Rattle.std.specs.Prelude.{◌≡◌};
ghost use Rattle.linkcap_c.specs.Buffers.{IsCopied};

use crate::statuses::NO_ROOM;

/// Copies a text to the start of a buffer, and returns `status`; or leaves a buffer that is too small unchanged.
/// The text's length goes to `written`.
pub(crate) fn copy_text(text: &[u8], status: u32, out: &mut [u8], written: &mut u64) -> u32
    ensures { IsCopied status text.now result written.new out.old out.new }
{
    *written = text.len() as u64;
    if text.len() > out.len() {
        return NO_ROOM;
    }
    out[..text.len()].copy_from_slice(text);
    status
}
