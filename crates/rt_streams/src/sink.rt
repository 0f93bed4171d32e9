// Sinks of bytes, and writing a whole slice.
ghost use Rattle.std.specs.Prelude.{◌≡◌, ◌<◌, ◌≤◌, ℕ, List, length, take, IfOk, OnOk, OnErr};
ghost use Rattle.std.specs.Io.KnownBytes.{Keeps, Appends};
ghost use Rattle.std.specs.declared.option.Option.{Option};
ghost use Rattle.rt_streams.specs.Streams.{Rose, HasCause, IsTaken, AppendsPart};

use crate::Failed;
use thiserror::Error;

/// A stream of bytes to write, such as standard output. This project's own; Compose has none.
pub trait Sink {
    /// The bytes written so far, if the sink knows them. A sink over a file or a pipe does not.
    ghost written: { Self → Option (List ℕ) };

    /// The number of writes that failed or took no byte of a non-empty piece. It stops at 2^64 - 1.
    ghost faults: { Self → ℕ };

    /// Writes the first bytes of `piece` and returns their number. A failed write writes no byte and is
    /// counted. Taking no byte of a non-empty piece is counted too, because retrying it may never end.
    /// Any other write leaves the count of faults as it is.
    fn write(&mut self, piece: &[u8]) -> Result<usize, Failed>
        ensures bound { IfOk result (λ n. n ≤ length piece.now) }
        ensures bytes { IfOk result (λ n. Appends (written self.old) (written self.new) (take n piece.now)) }
        ensures nothing { IfOk result (λ n. n ≡ 0 → 0 < length piece.now → Rose (faults self.old) (faults self.new)) }
        ensures clean { IfOk result (λ n. IsTaken n (length piece.now) → faults self.new ≡ faults self.old) }
        ensures err { OnErr result (Keeps (written self.old) (written self.new)) }
        ensures cause { HasCause (faults self.old) (faults self.new) result };
}

/// Not all bytes were written: a write failed or took no byte.
#[derive(Clone, Copy, Debug, PartialEq, Eq, Error)]
#[error("the output could not be written")]
pub struct WriteFault;

/// Writes all of `bytes`, in as many writes as the sink needs.
///
/// Returns `WriteFault` after the first fault and never tries again; a prefix of `bytes` is written then.
/// This project's own rule.
pub fn write_all<K: Sink>(sink: &mut K, bytes: &[u8]) -> Result<(), WriteFault>
    ensures bytes { OnOk result (Appends (K.written sink.old) (K.written sink.new) bytes.now) }
    ensures part { OnErr result (AppendsPart (K.written sink.old) (K.written sink.new) bytes.now) }
    ensures clean { OnOk result (K.faults sink.new ≡ K.faults sink.old) }
    ensures cause { HasCause (K.faults sink.old) (K.faults sink.new) result }
{
    let mut done = 0usize;
    while done < bytes.len() {
        let Ok(count) = sink.write(&bytes[done..]) else {
            return Err(WriteFault);
        };
        if count == 0 {
            return Err(WriteFault);
        }
        done += count;
    }
    Ok(())
}
