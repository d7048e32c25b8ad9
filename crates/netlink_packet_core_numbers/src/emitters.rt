//! Writes numbers at the start of a buffer.

ghost use Rattle.std.specs.Int.{w16, w32, w64, w128, cast_unsigned};
ghost use Rattle.netlink_packet_core_grammar.specs.Numbers.{le2, le4, le8, le16, be2, be4, be8, be16};
ghost use Rattle.netlink_packet_core_numbers.specs.Outcomes.{IsEmitted};

use super::error::DecodeError;

/// Writes a number into the first 2 bytes, in native byte order (little-endian).
///
/// # Errors
///
/// [`DecodeError::buffer_too_small`] if the buffer is shorter; it is left unchanged.
#[tactic(auto, using(netlink_packet_core_grammar::proofs::Numbers::digits))]
pub fn emit_u16(buffer: &mut [u8], value: u16) -> Result<(), DecodeError>
    ensures { IsEmitted result 2 (le2 value) buffer.old buffer.new }
{
    if buffer.len() < 2 {
        return Err(DecodeError::buffer_too_small(buffer.len(), 2));
    }
    buffer[..2].copy_from_slice(&value.to_le_bytes());
    Ok(())
}

/// Writes a number into the first 2 bytes, big-endian.
///
/// # Errors
///
/// [`DecodeError::buffer_too_small`] if the buffer is shorter; it is left unchanged.
#[tactic(auto, using(netlink_packet_core_grammar::proofs::Numbers::digits))]
pub fn emit_u16_be(buffer: &mut [u8], value: u16) -> Result<(), DecodeError>
    ensures { IsEmitted result 2 (be2 value) buffer.old buffer.new }
{
    if buffer.len() < 2 {
        return Err(DecodeError::buffer_too_small(buffer.len(), 2));
    }
    buffer[..2].copy_from_slice(&value.to_be_bytes());
    Ok(())
}

/// Writes a number into the first 2 bytes, little-endian.
///
/// # Errors
///
/// [`DecodeError::buffer_too_small`] if the buffer is shorter; it is left unchanged.
pub fn emit_u16_le(buffer: &mut [u8], value: u16) -> Result<(), DecodeError>
    ensures { IsEmitted result 2 (le2 value) buffer.old buffer.new }
{
    emit_u16(buffer, value)
}

/// Writes a number into the first 4 bytes, in native byte order (little-endian).
///
/// # Errors
///
/// [`DecodeError::buffer_too_small`] if the buffer is shorter; it is left unchanged.
#[tactic(auto, using(netlink_packet_core_grammar::proofs::Numbers::digits))]
pub fn emit_u32(buffer: &mut [u8], value: u32) -> Result<(), DecodeError>
    ensures { IsEmitted result 4 (le4 value) buffer.old buffer.new }
{
    if buffer.len() < 4 {
        return Err(DecodeError::buffer_too_small(buffer.len(), 4));
    }
    buffer[..4].copy_from_slice(&value.to_le_bytes());
    Ok(())
}

/// Writes a number into the first 4 bytes, big-endian.
///
/// # Errors
///
/// [`DecodeError::buffer_too_small`] if the buffer is shorter; it is left unchanged.
#[tactic(auto, using(netlink_packet_core_grammar::proofs::Numbers::digits))]
pub fn emit_u32_be(buffer: &mut [u8], value: u32) -> Result<(), DecodeError>
    ensures { IsEmitted result 4 (be4 value) buffer.old buffer.new }
{
    if buffer.len() < 4 {
        return Err(DecodeError::buffer_too_small(buffer.len(), 4));
    }
    buffer[..4].copy_from_slice(&value.to_be_bytes());
    Ok(())
}

/// Writes a number into the first 4 bytes, little-endian.
///
/// # Errors
///
/// [`DecodeError::buffer_too_small`] if the buffer is shorter; it is left unchanged.
pub fn emit_u32_le(buffer: &mut [u8], value: u32) -> Result<(), DecodeError>
    ensures { IsEmitted result 4 (le4 value) buffer.old buffer.new }
{
    emit_u32(buffer, value)
}

/// Writes a number into the first 8 bytes, in native byte order (little-endian).
///
/// # Errors
///
/// [`DecodeError::buffer_too_small`] if the buffer is shorter; it is left unchanged.
#[tactic(auto, using(netlink_packet_core_grammar::proofs::Numbers::digits))]
pub fn emit_u64(buffer: &mut [u8], value: u64) -> Result<(), DecodeError>
    ensures { IsEmitted result 8 (le8 value) buffer.old buffer.new }
{
    if buffer.len() < 8 {
        return Err(DecodeError::buffer_too_small(buffer.len(), 8));
    }
    buffer[..8].copy_from_slice(&value.to_le_bytes());
    Ok(())
}

/// Writes a number into the first 8 bytes, big-endian.
///
/// # Errors
///
/// [`DecodeError::buffer_too_small`] if the buffer is shorter; it is left unchanged.
#[tactic(auto, using(netlink_packet_core_grammar::proofs::Numbers::digits))]
pub fn emit_u64_be(buffer: &mut [u8], value: u64) -> Result<(), DecodeError>
    ensures { IsEmitted result 8 (be8 value) buffer.old buffer.new }
{
    if buffer.len() < 8 {
        return Err(DecodeError::buffer_too_small(buffer.len(), 8));
    }
    buffer[..8].copy_from_slice(&value.to_be_bytes());
    Ok(())
}

/// Writes a number into the first 8 bytes, little-endian.
///
/// # Errors
///
/// [`DecodeError::buffer_too_small`] if the buffer is shorter; it is left unchanged.
pub fn emit_u64_le(buffer: &mut [u8], value: u64) -> Result<(), DecodeError>
    ensures { IsEmitted result 8 (le8 value) buffer.old buffer.new }
{
    emit_u64(buffer, value)
}

/// Writes a number into the first 16 bytes, in native byte order (little-endian).
///
/// # Errors
///
/// [`DecodeError::buffer_too_small`] if the buffer is shorter; it is left unchanged.
#[tactic(auto, unfolding(netlink_packet_core_grammar::specs::Numbers::le16))]
pub fn emit_u128(buffer: &mut [u8], value: u128) -> Result<(), DecodeError>
    ensures { IsEmitted result 16 (le16 value) buffer.old buffer.new }
{
    if buffer.len() < 16 {
        return Err(DecodeError::buffer_too_small(buffer.len(), 16));
    }
    buffer[..16].copy_from_slice(&value.to_le_bytes());
    Ok(())
}

/// Writes a number into the first 16 bytes, big-endian.
///
/// # Errors
///
/// [`DecodeError::buffer_too_small`] if the buffer is shorter; it is left unchanged.
#[tactic(auto, unfolding(netlink_packet_core_grammar::specs::Numbers::be16))]
pub fn emit_u128_be(buffer: &mut [u8], value: u128) -> Result<(), DecodeError>
    ensures { IsEmitted result 16 (be16 value) buffer.old buffer.new }
{
    if buffer.len() < 16 {
        return Err(DecodeError::buffer_too_small(buffer.len(), 16));
    }
    buffer[..16].copy_from_slice(&value.to_be_bytes());
    Ok(())
}

/// Writes a number into the first 16 bytes, little-endian.
///
/// # Errors
///
/// [`DecodeError::buffer_too_small`] if the buffer is shorter; it is left unchanged.
pub fn emit_u128_le(buffer: &mut [u8], value: u128) -> Result<(), DecodeError>
    ensures { IsEmitted result 16 (le16 value) buffer.old buffer.new }
{
    emit_u128(buffer, value)
}

/// Writes a signed number into the first 2 bytes, in native byte order (little-endian).
///
/// # Errors
///
/// [`DecodeError::buffer_too_small`] if the buffer is shorter; it is left unchanged.
pub fn emit_i16(buffer: &mut [u8], value: i16) -> Result<(), DecodeError>
    ensures { IsEmitted result 2 (le2 (cast_unsigned w16 value)) buffer.old buffer.new }
{
    emit_u16_le(buffer, value.cast_unsigned())
}

/// Writes a signed number into the first 2 bytes, big-endian.
///
/// # Errors
///
/// [`DecodeError::buffer_too_small`] if the buffer is shorter; it is left unchanged.
pub fn emit_i16_be(buffer: &mut [u8], value: i16) -> Result<(), DecodeError>
    ensures { IsEmitted result 2 (be2 (cast_unsigned w16 value)) buffer.old buffer.new }
{
    emit_u16_be(buffer, value.cast_unsigned())
}

/// Writes a signed number into the first 2 bytes, little-endian.
///
/// # Errors
///
/// [`DecodeError::buffer_too_small`] if the buffer is shorter; it is left unchanged.
pub fn emit_i16_le(buffer: &mut [u8], value: i16) -> Result<(), DecodeError>
    ensures { IsEmitted result 2 (le2 (cast_unsigned w16 value)) buffer.old buffer.new }
{
    emit_i16(buffer, value)
}

/// Writes a signed number into the first 4 bytes, in native byte order (little-endian).
///
/// # Errors
///
/// [`DecodeError::buffer_too_small`] if the buffer is shorter; it is left unchanged.
pub fn emit_i32(buffer: &mut [u8], value: i32) -> Result<(), DecodeError>
    ensures { IsEmitted result 4 (le4 (cast_unsigned w32 value)) buffer.old buffer.new }
{
    emit_u32_le(buffer, value.cast_unsigned())
}

/// Writes a signed number into the first 4 bytes, big-endian.
///
/// # Errors
///
/// [`DecodeError::buffer_too_small`] if the buffer is shorter; it is left unchanged.
pub fn emit_i32_be(buffer: &mut [u8], value: i32) -> Result<(), DecodeError>
    ensures { IsEmitted result 4 (be4 (cast_unsigned w32 value)) buffer.old buffer.new }
{
    emit_u32_be(buffer, value.cast_unsigned())
}

/// Writes a signed number into the first 4 bytes, little-endian.
///
/// # Errors
///
/// [`DecodeError::buffer_too_small`] if the buffer is shorter; it is left unchanged.
pub fn emit_i32_le(buffer: &mut [u8], value: i32) -> Result<(), DecodeError>
    ensures { IsEmitted result 4 (le4 (cast_unsigned w32 value)) buffer.old buffer.new }
{
    emit_i32(buffer, value)
}

/// Writes a signed number into the first 8 bytes, in native byte order (little-endian).
///
/// # Errors
///
/// [`DecodeError::buffer_too_small`] if the buffer is shorter; it is left unchanged.
pub fn emit_i64(buffer: &mut [u8], value: i64) -> Result<(), DecodeError>
    ensures { IsEmitted result 8 (le8 (cast_unsigned w64 value)) buffer.old buffer.new }
{
    emit_u64_le(buffer, value.cast_unsigned())
}

/// Writes a signed number into the first 8 bytes, big-endian.
///
/// # Errors
///
/// [`DecodeError::buffer_too_small`] if the buffer is shorter; it is left unchanged.
pub fn emit_i64_be(buffer: &mut [u8], value: i64) -> Result<(), DecodeError>
    ensures { IsEmitted result 8 (be8 (cast_unsigned w64 value)) buffer.old buffer.new }
{
    emit_u64_be(buffer, value.cast_unsigned())
}

/// Writes a signed number into the first 8 bytes, little-endian.
///
/// # Errors
///
/// [`DecodeError::buffer_too_small`] if the buffer is shorter; it is left unchanged.
pub fn emit_i64_le(buffer: &mut [u8], value: i64) -> Result<(), DecodeError>
    ensures { IsEmitted result 8 (le8 (cast_unsigned w64 value)) buffer.old buffer.new }
{
    emit_i64(buffer, value)
}

/// Writes a signed number into the first 16 bytes, in native byte order (little-endian).
///
/// # Errors
///
/// [`DecodeError::buffer_too_small`] if the buffer is shorter; it is left unchanged.
pub fn emit_i128(buffer: &mut [u8], value: i128) -> Result<(), DecodeError>
    ensures { IsEmitted result 16 (le16 (cast_unsigned w128 value)) buffer.old buffer.new }
{
    emit_u128_le(buffer, value.cast_unsigned())
}

/// Writes a signed number into the first 16 bytes, big-endian.
///
/// # Errors
///
/// [`DecodeError::buffer_too_small`] if the buffer is shorter; it is left unchanged.
pub fn emit_i128_be(buffer: &mut [u8], value: i128) -> Result<(), DecodeError>
    ensures { IsEmitted result 16 (be16 (cast_unsigned w128 value)) buffer.old buffer.new }
{
    emit_u128_be(buffer, value.cast_unsigned())
}

/// Writes a signed number into the first 16 bytes, little-endian.
///
/// # Errors
///
/// [`DecodeError::buffer_too_small`] if the buffer is shorter; it is left unchanged.
pub fn emit_i128_le(buffer: &mut [u8], value: i128) -> Result<(), DecodeError>
    ensures { IsEmitted result 16 (le16 (cast_unsigned w128 value)) buffer.old buffer.new }
{
    emit_i128(buffer, value)
}
