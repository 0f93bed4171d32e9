// A source that keeps what is read from it.
ghost use Rattle.std.specs.Prelude.{◌≡◌, ◌≤◌, ℕ, List, [], take, length, Option, Some, IfOk, OnOk, OnErr};
ghost use Rattle.std.specs.Option.{option_copied};
ghost use Rattle.std.specs.Io.KnownBytes.{Keeps};
ghost use Rattle.rt_streams.specs.Streams.{HasCause, HandsOut, CountsBytes};
ghost use Rattle.fault_notes.specs.Kept.{kept_bytes, KeepsPiece, IsKeptSince};

use rt_streams::{Failed, Source};
use std::alloc::Global;

/// A source that passes on what another source hands out, and keeps a copy of it.
#[derive(Drop)]
pub struct Keeping<S> {
    inner: S,
    kept: Vec<u8>,
    is_whole: bool,
}

impl<S: Source> Keeping<S> {
    /// Makes a source over `inner`.
    pub fn new(alloc: Global, inner: S) -> Self
        ensures left { ⟦<Keeping<S> as Source>⟧.left result ≡ S.left inner }
        ensures taken { ⟦<Keeping<S> as Source>⟧.taken result ≡ S.taken inner }
        ensures faults { ⟦<Keeping<S> as Source>⟧.faults result ≡ S.faults inner }
        ensures kept { kept_bytes result ≡ Some [] }
        ensures since { IsKeptSince (S.left inner) (S.taken inner) (S.left inner) (S.taken inner) (kept_bytes result) }
    {
        Keeping {
            inner,
            kept: Vec::new(alloc),
            is_whole: true,
        }
    }

    /// Returns all bytes that were read, or `None` if there was no memory for a copy of them.
    pub fn kept(&self) -> Option<&[u8]>
        ensures { option_copied result ≡ kept_bytes self.now }
    {
        if self.is_whole {
            Some(&self.kept)
        } else {
            None
        }
    }

    // Keeps a copy of a piece that was read.
    fn keep(&mut self, piece: &[u8])
        ensures kept { KeepsPiece (kept_bytes self.old) (kept_bytes self.new) piece.now }
        ensures inner { self.new.inner ≡ self.old.inner }
    {
        if self.kept.extend_from_slice(piece).is_err() {
            self.is_whole = false;
        }
    }
}

impl<S: Source> Source for Keeping<S> {
    ghost left = { λ s. S.left s.inner };

    ghost taken = { λ s. S.taken s.inner };

    ghost faults = { λ s. S.faults s.inner };

    fn read(&mut self, buf: &mut [u8]) -> Result<usize, Failed>
        ensures bound { IfOk result (λ n. n ≤ length buf.new) }
        ensures bytes { IfOk result (λ n. HandsOut (S.left self.old.inner) (S.left self.new.inner) n buf.new) }
        ensures counts { IfOk result (λ n. CountsBytes (S.taken self.old.inner) (S.taken self.new.inner) n) }
        ensures err { OnErr result (Keeps (S.left self.old.inner) (S.left self.new.inner)) }
        ensures err_counts { OnErr result (S.taken self.new.inner ≡ S.taken self.old.inner) }
        ensures clean { OnOk result (S.faults self.new.inner ≡ S.faults self.old.inner) }
        ensures cause { HasCause (S.faults self.old.inner) (S.faults self.new.inner) result }

        // The piece is kept. A failed read leaves the kept bytes unchanged.
        ensures kept { IfOk result (λ n. KeepsPiece (kept_bytes self.old) (kept_bytes self.new) (take n buf.new)) }
        ensures err_kept { OnErr result (kept_bytes self.new ≡ kept_bytes self.old) }

        // If exactly the bytes taken since an earlier state, such as that of `new`, are kept, they are after a read too.
        ensures since { (left : Option (List ℕ)) (taken : ℕ)
            → IsKeptSince left taken (S.left self.old.inner) (S.taken self.old.inner) (kept_bytes self.old)
            → IsKeptSince left taken (S.left self.new.inner) (S.taken self.new.inner) (kept_bytes self.new) }
    {
        let count = self.inner.read(buf)?;
        self.keep(&buf[..count]);
        Ok(count)
    }
}
