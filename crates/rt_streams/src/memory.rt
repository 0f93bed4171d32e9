// A source and a sink in memory, for tests. Each fails at the calls that its list of failing calls names.
ghost use Rattle.std.specs.Prelude.{◌≡◌, ◌<◌, ◌≤◌, ◌+◌, ◌-◌, ◌%◌, ◌^◌, ◌↔◌, ◌&&◌, ◌==◌, ℕ, [], min, drop, take, length, Some, IfOk, OnOk, OnErr, IsErr, IsTrue, is_err, vec_len, vec_capacity, if◌then◌else◌};
ghost use Rattle.std.specs.Io.KnownBytes.{Keeps, Appends};
ghost use Rattle.rt_streams.specs.Streams.{Rose, HasCause, HandsOut, IsTaken, CountsBytes, next_count};
ghost use Rattle.rt_streams.specs.Memory.{Feed, Store, fails_next, is_fault};

use crate::call_counter::CallCounter;
use crate::{Failed, Sink, Source};
use std::alloc::{AllocError, Global};
use std::marker::Model;

/// A source over bytes in memory, for tests. This project's own rule.
#[derive(Drop)]
pub struct MemSource {
    bytes: Vec<u8>,
    at: usize,
    piece: usize,
    calls: CallCounter,
}

impl Model for MemSource {
    ghost use Rattle.std.specs.Prelude.{◌<◌, ◌≤◌, ◌%◌, ◌^◌, drop, length};
    ghost use Rattle.rt_streams.specs.Memory.{Feed};

    ghost Value = { Feed };

    ghost view = { λ s. record {
      left = drop s.at s.bytes.items;
      taken = s.at % 2 ^ 64;
      piece = s.piece;
      failing = s.calls.failing;
      calls = s.calls.made;
      faults = s.calls.faults;
    } };

    ghost invariant = { λ s. (s.at ≤ length s.bytes.items) × (0 < s.piece) };
}

impl MemSource {
    /// Makes a source of `bytes`, of which each call reads at most `piece`. The calls whose numbers,
    /// counted from 1, are in `failing` fail.
    pub fn new(bytes: Vec<u8>, piece: usize, failing: Vec<u64>) -> Self
        requires { 0 < piece }
        ensures left { ⟦<MemSource as Source>⟧.left result ≡ Some bytes.items }
        ensures taken { ⟦<MemSource as Source>⟧.taken result ≡ 0 }
        ensures faults { ⟦<MemSource as Source>⟧.faults result ≡ 0 }
        ensures piece { result.piece ≡ piece }
        ensures failing { result.failing ≡ failing.items }
        ensures calls { result.calls ≡ 0 }
    {
        MemSource {
            bytes,
            at: 0,
            piece,
            calls: CallCounter::new(failing),
        }
    }
}

impl Source for MemSource {
    ghost left = { λ s. Some s.left };

    ghost taken = { λ s. s.taken };

    ghost faults = { λ s. s.faults };

    fn read(&mut self, buf: &mut [u8]) -> Result<usize, Failed>
        ensures bound { IfOk result (λ n. n ≤ length buf.new) }
        ensures bytes { IfOk result (λ n. HandsOut (Some self.old.left) (Some self.new.left) n buf.new) }
        ensures counts { IfOk result (λ n. CountsBytes self.old.taken self.new.taken n) }
        ensures err { OnErr result (Keeps (Some self.old.left) (Some self.new.left)) }
        ensures err_counts { OnErr result (self.new.taken ≡ self.old.taken) }
        ensures clean { OnOk result (self.new.faults ≡ self.old.faults) }
        ensures cause { HasCause self.old.faults self.new.faults result }

        // Exactly the listed calls fail. Each other call reads as much as it may.
        ensures fails { IsErr result ↔ IsTrue (fails_next self.old.failing self.old.calls) }
        ensures full { IfOk result (λ n. n ≡ min (length self.old.left) (min self.old.piece (length buf.old))) }

        // The call is counted, and a failed one as a fault. The plan of the calls stays the same.
        ensures calls { self.new.calls ≡ next_count self.old.calls }
        ensures fault { self.new.faults ≡ (if is_err result then next_count self.old.faults else self.old.faults) }
        ensures plan { (self.new.piece ≡ self.old.piece) × (self.new.failing ≡ self.old.failing) }
    {
        self.calls.next()?;
        let rest = &self.bytes[self.at..];
        let count = rest.len().min(self.piece).min(buf.len());
        buf[..count].copy_from_slice(&rest[..count]);
        self.at += count;
        Ok(count)
    }
}

/// A sink that keeps the bytes in memory, with a capacity that is allocated at once, for tests. This
/// project's own rule.
#[derive(Drop)]
pub struct MemSink {
    bytes: Vec<u8>,
    room: usize,
    piece: usize,
    calls: CallCounter,
}

impl Model for MemSink {
    ghost use Rattle.std.specs.Prelude.{◌≤◌, ◌+◌, vec_len, vec_capacity};
    ghost use Rattle.rt_streams.specs.Memory.{Store};

    ghost Value = { Store };

    ghost view = { λ s. record {
      written = s.bytes.items;
      room = s.room;
      piece = s.piece;
      failing = s.calls.failing;
      calls = s.calls.made;
      faults = s.calls.faults;
    } };

    ghost invariant = { λ s. vec_len s.bytes + s.room ≤ vec_capacity s.bytes };
}

impl MemSink {
    /// An empty sink with room for `room` bytes, of which each call takes at most `piece`. The calls
    /// whose numbers, counted from 1, are in `failing` fail. Where the room is used up, and where
    /// `piece` is 0, a write takes nothing, which is a fault.
    pub fn new(
        alloc: Global,
        room: usize,
        piece: usize,
        failing: Vec<u64>,
    ) -> Result<Self, AllocError>
        ensures written { IfOk result (λ sink. ⟦<MemSink as Sink>⟧.written sink ≡ Some []) }
        ensures faults { IfOk result (λ sink. ⟦<MemSink as Sink>⟧.faults sink ≡ 0) }
        ensures room { IfOk result (λ sink. sink.room ≡ room) }
        ensures piece { IfOk result (λ sink. sink.piece ≡ piece) }
        ensures failing { IfOk result (λ sink. sink.failing ≡ failing.items) }
        ensures calls { IfOk result (λ sink. sink.calls ≡ 0) }
    {
        Ok(MemSink {
            bytes: Vec::with_capacity(alloc, room)?,
            room,
            piece,
            calls: CallCounter::new(failing),
        })
    }

    /// Returns the bytes written so far.
    pub fn bytes(&self) -> &[u8]
        ensures { ⟦<MemSink as Sink>⟧.written self.now ≡ Some result.now }
    {
        &self.bytes
    }
}

impl Sink for MemSink {
    ghost written = { λ s. Some s.written };

    ghost faults = { λ s. s.faults };

    fn write(&mut self, piece: &[u8]) -> Result<usize, Failed>
        ensures bound { IfOk result (λ n. n ≤ length piece.now) }
        ensures bytes { IfOk result (λ n. Appends (Some self.old.written) (Some self.new.written) (take n piece.now)) }
        ensures nothing { IfOk result (λ n. n ≡ 0 → 0 < length piece.now → Rose self.old.faults self.new.faults) }
        ensures clean { IfOk result (λ n. IsTaken n (length piece.now) → self.new.faults ≡ self.old.faults) }
        ensures err { OnErr result (Keeps (Some self.old.written) (Some self.new.written)) }
        ensures cause { HasCause self.old.faults self.new.faults result }

        // Exactly the listed calls fail. Each other call writes as much as it may.
        ensures fails { IsErr result ↔ IsTrue (fails_next self.old.failing self.old.calls) }
        ensures full { IfOk result (λ n. n ≡ min (length piece.now) (min self.old.piece self.old.room)) }
        ensures room { IfOk result (λ n. self.new.room + n ≡ self.old.room) }
        ensures err_room { OnErr result (self.new.room ≡ self.old.room) }

        // The call is counted, and is a fault if it failed or took no byte of a non-empty piece. The
        // plan of the calls stays the same.
        ensures calls { self.new.calls ≡ next_count self.old.calls }
        ensures fault { self.new.faults
            ≡ (if is_fault result (length piece.now) then next_count self.old.faults else self.old.faults) }
        ensures plan { (self.new.piece ≡ self.old.piece) × (self.new.failing ≡ self.old.failing) }
    {
        self.calls.next()?;
        let count = piece.len().min(self.piece).min(self.room);
        if self.bytes.extend_from_slice(&piece[..count]).is_err() {
            unreachable!();
        }
        self.room -= count;
        if count == 0 && !piece.is_empty() {
            self.calls.fault();
        }
        Ok(count)
    }
}
