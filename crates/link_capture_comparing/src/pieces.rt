//! Sources that are read piece by piece, whose bytes are counted.

ghost use Rattle.std.specs.Prelude.{◌≡◌, ◌≤◌, ◌<◌, ◌+◌, ◌^◌, ◌++◌, ℕ, List, [], true, false, length, take, nat_eq};
ghost use Rattle.std.specs.Prelude.{IfOk, IfErr, MatchResult};
ghost use Rattle.link_capture_reader.specs.States.{SourceState, source_state};
ghost use Rattle.link_capture_comparing.specs.Comparisons.{IsReadWhole, IsReadUpTo};
ghost use Rattle.link_capture_comparing.specs.Readings.{HasRead, ReadFailsAfter, EndsOrReadFails};

use link_capture_grammar::fault::{CaptureFault, FaultKind};
use link_capture_reader::Source;

/// The greatest number of bytes that are read at once. Of each of two sources a piece is on the
/// stack.
pub(crate) const PIECE: usize = 32768;

/// Reads a piece, after `read` bytes, to the start of the buffer. Returns its length, which is 0 at
/// the end.
///
/// # Errors
///
/// `Read` at `read`, if the source fails; `TooLong` at `read`, if that and the length of the piece
/// are more than `u64::MAX`.
pub(crate) fn read_piece<S: Source>(
    source: &mut S,
    buffer: &mut [u8; PIECE],
    read: u64,
) -> Result<usize, CaptureFault>
    ensures within { IfOk result (λ n. (n ≤ length buffer.new) × (read + n < 2 ^ 64)) }
    ensures piece { IfOk result (λ n. n ≤ 32768) }
    ensures ok { IfOk result (λ n. (initial : SourceState) (s : List ℕ)
        → HasRead initial (source_state S.to_come S.failures S.ends_reported source.old) false read s
        → HasRead initial (source_state S.to_come S.failures S.ends_reported source.new) (nat_eq n 0)
        (read + n) (s ++ take n buffer.new)) }
    ensures fault { IfErr result (λ fault. (initial : SourceState) (s : List ℕ)
        → HasRead initial (source_state S.to_come S.failures S.ends_reported source.old) false read s
        → ReadFailsAfter initial (source_state S.to_come S.failures S.ends_reported source.new) s fault) }
{
    let Ok(len) = source.read(buffer) else {
        return Err(CaptureFault {
            kind: FaultKind::Read,
            offset: read,
        });
    };
    if len as u64 > u64::MAX - read {
        return Err(CaptureFault {
            kind: FaultKind::TooLong,
            offset: read,
        });
    }
    Ok(len)
}

/// Reads what is left of a source of which `read` bytes were read.
///
/// # Errors
///
/// As `read_piece`, at the number of bytes read before the piece.
pub(crate) fn read_rest<S: Source>(
    source: &mut S,
    buffer: &mut [u8; PIECE],
    read: u64,
) -> Result<(), CaptureFault>
    ensures { (initial : SourceState) (s : List ℕ)
        → HasRead initial (source_state S.to_come S.failures S.ends_reported source.old) false read s
        → EndsOrReadFails initial (source_state S.to_come S.failures S.ends_reported source.new) s result }
{
    let mut total = read;
    'pieces: loop {
        let len = read_piece(source, buffer, total)?;
        if len == 0 {
            return Ok(());
        }
        total += len as u64;
    }
}

/// Reads a source to its end, and keeps nothing.
///
/// # Errors
///
/// `Read`, at the number of bytes read, if the source fails; `TooLong`, at the number of bytes
/// before the last piece, if there are more than `u64::MAX`.
pub fn read_to_end<S: Source>(source: &mut S) -> Result<(), CaptureFault>
    ensures { (s : List ℕ) × MatchResult result
        (λ _. IsReadWhole (source_state S.to_come S.failures S.ends_reported source.old)
        (source_state S.to_come S.failures S.ends_reported source.new) s)
        (λ fault. IsReadUpTo (source_state S.to_come S.failures S.ends_reported source.old)
        (source_state S.to_come S.failures S.ends_reported source.new) s fault) }
{
    read_rest(source, &mut [0; PIECE], 0)
}
