// Output of lines, each as one piece.
ghost use Rattle.std.specs.Prelude.{◌≡◌, ◌≢◌, ◌≤◌, List, ℕ, Err};
ghost use Rattle.play_run.specs.RunPromise.{WritesBytes, FaultsAfter};

use rt_streams::{Sink, write_all};
use thiserror::Error;

/// Why a run stopped before its end.
#[derive(Clone, Copy, Debug, PartialEq, Eq, Error)]
pub enum Stop {
    /// The sink failed.
    #[error("the output could not be written")]
    WriteFault,
    /// The process is out of memory.
    #[error("out of memory")]
    NoMemory,
}

/// Writes a line, or several, as one piece. Fails only if the sink fails.
pub fn write_piece<K: Sink>(sink: &mut K, line: &[u8]) -> Result<(), Stop>
    ensures says { WritesBytes (K.written sink.old) (K.written sink.new) line.now result }
    ensures faults { FaultsAfter (K.faults sink.old) (K.faults sink.new) result }
    ensures cause { result ≢ Err Stop.NoMemory }
{
    match write_all(sink, line) {
        Ok(()) => Ok(()),
        Err(_) => Err(Stop::WriteFault),
    }
}
