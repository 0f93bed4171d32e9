// The rule of the table of a shared world, and the kinds of atomic steps on it.
ghost use Rattle.std.specs.Prelude.{◌≡◌, ℕ};

use atomic_table::{Join, Play, Split, TableRule};
use snap_api::{Entry, Versions};
use std::collections::LinkedList;
use std::marker::PhantomData;
use std::snapshot::Snapshot;

/// Whether a seat has the turn. Exists in proofs only.
pub enum Phase {
    Idle,
    HasTurn,
}

/// What a seat knows. Exists in proofs only.
///
/// `opening` is the world at the start. `own` lists the callers of the seat, each with its own calls. `seen` is the
/// history that the seat has seen, and `received` is what it received last from another seat.
pub struct SeatState<W, E> {
    pub opening: Option<W>,
    pub own: LinkedList<(u64, LinkedList<E>)>,
    pub phase: Phase,
    pub seen: LinkedList<E>,
    pub received: LinkedList<E>,
}

/// The world at the start, and the number of seats. Fixed when the table is made.
#[derive(Drop)]
pub struct Opening<W> {
    pub world: Snapshot<W>,
    pub seats: u64,
}

/// The rule of the table: whose turn it is, where the world is, and what each seat has seen.
pub struct TurnRule<W> {
    marker: PhantomData<W>,
}

impl<W: Versions> TableRule<Option<W>, SeatState<W, Entry>, Opening<W>> for TurnRule<W> {
    ghost use Rattle.snap_shared.specs.Histories.{caller_of, IsWorldAfter};
    ghost use Rattle.snap_shared.specs.TurnRule.{IsKept, first_state};

    ghost holds = { λ key s. IsKept caller_of W.log (IsWorldAfter W.P.rules W.stands) key.world.value key.seats s };

    ghost first = { λ key. first_state key.world.value key.seats };
}

/// Takes the turn and the world, if no other seat has the turn.
pub struct TryTurn<W> {
    marker: PhantomData<W>,
}

impl<W: Versions> Play<Option<W>, SeatState<W, Entry>> for TryTurn<W> {
    ghost use Rattle.snap_shared.specs.Histories.{caller_of, IsWorldAfter};
    ghost use Rattle.snap_shared.specs.StepResults.{TriesTurn};

    ghost then = { λ s v n w. TriesTurn caller_of W.log (IsWorldAfter W.P.rules W.stands) v n w };
}

/// Returns the turn, with the world in its slot.
pub struct ReturnTurn<W> {
    marker: PhantomData<W>,
}

impl<W: Versions> Play<Option<W>, SeatState<W, Entry>> for ReturnTurn<W> {
    ghost use Rattle.snap_shared.specs.Histories.{caller_of};
    ghost use Rattle.snap_shared.specs.StepResults.{ReturnsTurn};

    ghost then = { λ s v n w. ReturnsTurn caller_of W.log v n w };
}

/// Sees the history so far.
pub struct SeeHistory<W> {
    marker: PhantomData<W>,
}

impl<W: Versions> Play<Option<W>, SeatState<W, Entry>> for SeeHistory<W> {
    ghost use Rattle.snap_shared.specs.Histories.{caller_of, IsWorldAfter};
    ghost use Rattle.snap_shared.specs.StepResults.{SeesHistory};

    ghost then = { λ s v n w. SeesHistory caller_of (IsWorldAfter W.P.rules W.stands) v n w };
}

/// Sees exactly what was received.
pub struct AdoptReceived<W> {
    marker: PhantomData<W>,
}

impl<W: Versions> Play<Option<W>, SeatState<W, Entry>> for AdoptReceived<W> {
    ghost use Rattle.snap_shared.specs.Histories.{caller_of, IsWorldAfter};
    ghost use Rattle.snap_shared.specs.StepResults.{AdoptsReceived};

    ghost then = { λ s v n w. AdoptsReceived caller_of (IsWorldAfter W.P.rules W.stands) v n w };
}

/// Splits a note off a seat. The note has seen what the seat has, and has no caller.
pub struct SplitNote<W> {
    marker: PhantomData<W>,
}

impl<W> Split<SeatState<W, Entry>> for SplitNote<W> {
    ghost use Rattle.snap_shared.specs.TurnRule.{note_of};

    ghost left = { λ v. v };

    ghost right = { note_of };
}

/// Splits the seat of the first caller off a seat of several callers.
pub struct SplitSeat<W> {
    marker: PhantomData<W>,
}

impl<W> Split<SeatState<W, Entry>> for SplitSeat<W> {
    ghost use Rattle.snap_shared.specs.TurnRule.{split_left, split_right};

    ghost left = { split_left };

    ghost right = { split_right };
}

/// Joins a seat or a note: takes its callers, and receives what it has seen.
pub struct JoinSeat<W> {
    marker: PhantomData<W>,
}

impl<W> Join<SeatState<W, Entry>> for JoinSeat<W> {
    ghost use Rattle.snap_shared.specs.TurnRule.{joined_state, spent_state};

    ghost both = { joined_state };

    ghost spent = { spent_state };
}
