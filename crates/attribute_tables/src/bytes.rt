//! Payloads that are kept as their bytes.

ghost use Rattle.std.specs.Prelude.{◌≡◌, ◌<◌, true, length, IfOk, IfErr};
ghost use Rattle.netlink_packet_core.specs.Errors.{is_memory};

use netlink_packet_core::DecodeError;
use std::alloc::Global;

/// Copies a payload.
///
/// # Errors
///
/// Out of memory, and no other [`DecodeError`], if the allocation fails; an empty payload is never
/// allocated.
pub fn parse_bytes(alloc: Global, payload: &[u8]) -> Result<Vec<u8>, DecodeError>
    ensures value { IfOk result (λ v. v.items ≡ payload.now) }
    ensures err { IfErr result (λ e. is_memory e ≡ true) }
    ensures not_empty { IfErr result (λ _. 0 < length payload.now) }
{
    if payload.is_empty() {
        return Ok(Vec::new(alloc));
    }
    Ok(Vec::from_slice(alloc, payload)?)
}
