// Sources of bytes, and reading a whole source.
ghost use Rattle.std.specs.Prelude.{◌≡◌, ◌+◌, ◌<◌, ◌≤◌, ◌↔◌, ℕ, List, Some, true, false, length, IfOk, IfErr, OnOk, OnErr};
ghost use Rattle.std.specs.Io.KnownBytes.{Keeps, Consumes, IsAtEnd};
ghost use Rattle.std.specs.declared.option.Option.{Option};
ghost use Rattle.rt_streams.specs.Streams.{Rose, HasCause, HandsOut, LosesFront, CountsBytes, rise};
ghost use Rattle.rt_streams.specs.Pieces.{SourceState, state_of, HasRead, StopsReading};

use std::alloc::{AllocError, Global};
use thiserror::Error;

/// A failed read, write or flush. The count of faults of the stream records the cause.
#[derive(Clone, Copy, Debug, PartialEq, Eq, Error)]
#[error("a read or a write failed")]
pub struct Failed;

/// A stream of bytes to read, such as standard input. This project's own; Compose has none.
pub trait Source {
    /// The bytes that are left to read, if the source knows them. A source over a file or a pipe does not.
    ghost left: { Self → Option (List ℕ) };

    /// The number of bytes read so far, modulo 2^64.
    ghost taken: { Self → ℕ };

    /// The number of failed reads. It stops at 2^64 - 1.
    ghost faults: { Self → ℕ };

    /// Copies the next bytes to the start of `buf` and returns their number. Returns 0 for a non-empty
    /// `buf` only at the end of the input. A failed read takes no byte and is counted; a successful read
    /// leaves the count of faults as it is.
    fn read(&mut self, buf: &mut [u8]) -> Result<usize, Failed>
        ensures bound { IfOk result (λ n. n ≤ length buf.new) }
        ensures bytes { IfOk result (λ n. HandsOut (left self.old) (left self.new) n buf.new) }
        ensures counts { IfOk result (λ n. CountsBytes (taken self.old) (taken self.new) n) }
        ensures err { OnErr result (Keeps (left self.old) (left self.new)) }
        ensures err_counts { OnErr result (taken self.new ≡ taken self.old) }
        ensures clean { OnOk result (faults self.new ≡ faults self.old) }
        ensures cause { HasCause (faults self.old) (faults self.new) result };
}

/// Why `read_all` stopped before the end of the input.
#[derive(Clone, Copy, Debug, PartialEq, Eq, Error)]
pub enum ReadStop {
    /// A read failed, and the source counted a fault.
    #[error("the input could not be read")]
    ReadFault,
    /// The input exceeds the limit.
    #[error("the input is too long")]
    TooLong,
    /// There was no memory for the bytes read.
    #[error("out of memory")]
    NoMemory,
}

impl From<AllocError> for ReadStop {
    ghost use Rattle.std.specs.Prelude.{◌≡◌};
    ghost use Rattle.rt_streams.specs.declared.source.ReadStop.TheVariants.{NoMemory};

    ghost from_gives = { λ _ stop. stop ≡ NoMemory };

    fn from(_: AllocError) -> Self {
        ReadStop::NoMemory
    }
}

// The size in bytes of the largest read of `read_all`.
const PIECE: usize = 4096;

// Returns the number of bytes to ask for while `room` more are allowed. One byte past `room` shows that
// the input exceeds the limit.
fn piece_len(room: u64) -> usize
    ensures some { 0 < result }
    ensures most { result ≤ PIECE }
    ensures within { result ≤ room + 1 }
{
    room.min(PIECE as u64 - 1) as usize + 1
}

// Reads the next piece and appends it: at most one byte more than `limit` leaves room for. Returns whether there was
// a byte left. Appends nothing if it fails.
fn read_piece<S: Source>(
    source: &mut S,
    buf: &mut [u8; PIECE],
    limit: u64,
    all: &mut Vec<u8>,
) -> Result<bool, ReadStop>
    requires within { length all.old.items ≤ limit }
    ensures reads { (before : SourceState) →
        HasRead limit before (state_of (S.left source.old) (S.taken source.old) (S.faults source.old)) all.old.items →
        IfOk result (λ more. HasRead limit before
        (state_of (S.left source.new) (S.taken source.new) (S.faults source.new)) all.new.items) }
    ensures ends { IfOk result (λ more. more ≡ false → IsAtEnd (S.left source.new)) }
    ensures grows { IfOk result (λ more. more ≡ true → length all.old.items < length all.new.items) }
    ensures stops { (before : SourceState) →
        HasRead limit before (state_of (S.left source.old) (S.taken source.old) (S.faults source.old)) all.old.items →
        IfErr result (λ stop. StopsReading limit before
        (state_of (S.left source.new) (S.taken source.new) (S.faults source.new)) stop) }
{
    let room = limit - all.len() as u64;
    let piece = &mut buf[..piece_len(room)];
    let Ok(count) = source.read(piece) else {
        return Err(ReadStop::ReadFault);
    };
    if count == 0 {
        return Ok(false);
    }
    if count as u64 > room {
        return Err(ReadStop::TooLong);
    }
    all.extend_from_slice(&piece[..count])?;
    Ok(true)
}

/// Reads all bytes that are left, up to `limit` of them.
///
/// Returns `ReadFault` after the first failed read and never tries again. Returns `TooLong` if the input
/// has more than `limit` bytes, after taking at most `limit + 1` of them. Returns `NoMemory` if there is
/// no memory for the bytes. After an error the source has lost exactly the bytes that its counter shows.
/// This project's own rule.
pub fn read_all<S: Source>(alloc: Global, source: &mut S, limit: u64) -> Result<Vec<u8>, ReadStop>
    ensures bytes { IfOk result (λ v. Consumes (S.left source.old) (S.left source.new) v.items
        × IsAtEnd (S.left source.new)) }
    ensures within { IfOk result (λ v. (length v.items ≤ limit)
        × (rise (S.taken source.old) (S.taken source.new) ≡ length v.items)) }
    ensures too_long { (result ≡ Err ReadStop.TooLong) ↔ (limit < rise (S.taken source.old) (S.taken source.new)) }
    ensures at_most { rise (S.taken source.old) (S.taken source.new) ≤ limit + 1 }
    ensures told { (bytes : List ℕ) → S.left source.old ≡ Some bytes
        → rise (S.taken source.old) (S.taken source.new) ≤ length bytes }
    ensures gone { LosesFront (S.left source.old) (S.left source.new) (rise (S.taken source.old) (S.taken source.new)) }
    ensures clean { OnOk result (S.faults source.new ≡ S.faults source.old) }
    ensures stopped { (result ≡ Err ReadStop.ReadFault → ⊥) → S.faults source.new ≡ S.faults source.old }
    ensures fault { (result ≡ Err ReadStop.ReadFault) → Rose (S.faults source.old) (S.faults source.new) }
    ensures later { S.faults source.old ≤ S.faults source.new }
{
    let mut all: Vec<u8> = Vec::new(alloc);
    let mut buf = [0u8; PIECE];
    while read_piece(source, &mut buf, limit, &mut all)? {}
    Ok(all)
}
