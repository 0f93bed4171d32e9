// A source and a sink over std's readers and writers. Both are trusted: no clause says which bytes they pass.
ghost use Rattle.std.specs.Prelude.{◌≡◌, ◌≤◌, None, IfSome, length};
ghost use Rattle.rt_streams.specs.Streams.{HasCause, Rose};

use crate::{Failed, Sink, Source};
use std::io::{ErrorKind, Read, Write};

// How often an interrupted read is tried before it counts as failed.
const MOST_TRIES: u32 = 1_000_000;

// Adds 1 to the count of faults.
fn failed(faults: &mut u64) -> Failed
    ensures later { faults.old ≤ faults.new }
    ensures rose { Rose faults.old faults.new }
{
    *faults = faults.saturating_add(1);
    Failed
}

// Reads once, and again after each interruption. Returns `None` if the reader failed.
fn read_uninterrupted<R: Read>(inner: &mut R, buf: &mut [u8]) -> Option<usize>
    ensures bound { IfSome result (λ n. n ≤ length buf.new) }
{
    for _ in 0..MOST_TRIES {
        match inner.read(buf) {
            Ok(count) => return Some(count),
            Err(e) if e.kind() == ErrorKind::Interrupted => {}
            Err(_) => return None,
        }
    }
    None
}

/// A source over a reader, such as standard input. The bytes left are unknown. Each `Err` of the reader
/// is a fault, except that an interrupted read is tried again. This project's own rule.
#[derive(Drop)]
pub struct Reading<R> {
    inner: R,
    taken: u64,
    faults: u64,
}

impl<R: Read> Reading<R> {
    /// Makes a source over `inner`, with both counters at 0.
    pub fn new(inner: R) -> Self
        ensures taken { ⟦<Reading<R> as Source>⟧.taken result ≡ 0 }
        ensures faults { ⟦<Reading<R> as Source>⟧.faults result ≡ 0 }
    {
        Reading {
            inner,
            taken: 0,
            faults: 0,
        }
    }
}

impl<R: Read> Source for Reading<R> {
    ghost left = { λ _. None };

    ghost taken = { λ s. s.taken };

    ghost faults = { λ s. s.faults };

    fn read(&mut self, buf: &mut [u8]) -> Result<usize, Failed> {
        match read_uninterrupted(&mut self.inner, buf) {
            Some(count) => {
                self.taken = self.taken.wrapping_add(count as u64);
                Ok(count)
            }
            None => Err(failed(&mut self.faults)),
        }
    }
}

/// A sink over a writer, such as standard output. The bytes written are unknown. Each `Err` of the writer
/// is a fault, and so is each write that takes no byte of a non-empty piece. This project's own rule.
///
/// For many short pieces use a `std::io::BufWriter`. Call `flush` before dropping it: a dropped buffer
/// loses the bytes that it holds, and no error is reported.
#[derive(Drop)]
pub struct Writing<W> {
    inner: W,
    faults: u64,
}

impl<W: Write> Writing<W> {
    /// Makes a sink over `inner`, with the count of faults at 0.
    pub fn new(inner: W) -> Self
        ensures faults { ⟦<Writing<W> as Sink>⟧.faults result ≡ 0 }
    {
        Writing { inner, faults: 0 }
    }

    /// Flushes the writer. A failed flush is counted as a fault.
    pub fn flush(&mut self) -> Result<(), Failed>
        ensures cause { HasCause (⟦<Writing<W> as Sink>⟧.faults self.old)
            (⟦<Writing<W> as Sink>⟧.faults self.new) result }
    {
        match self.inner.flush() {
            Ok(()) => Ok(()),
            Err(_) => Err(failed(&mut self.faults)),
        }
    }
}

impl<W: Write> Sink for Writing<W> {
    ghost written = { λ _. None };

    ghost faults = { λ s. s.faults };

    fn write(&mut self, piece: &[u8]) -> Result<usize, Failed> {
        match self.inner.write(piece) {
            Ok(count) => {
                if count == 0 && !piece.is_empty() {
                    failed(&mut self.faults);
                }
                Ok(count)
            }
            Err(_) => Err(failed(&mut self.faults)),
        }
    }
}
