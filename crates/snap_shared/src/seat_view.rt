// The desk of a seat.
ghost use Rattle.std.specs.Prelude.{◌≡◌, ℕ, Option, Some, None};
ghost use Rattle.std.proofs.Common.{refl, ap, ◌∙◌};
ghost use Rattle.snap_api.specs.Desks.{Lasts};
ghost use Rattle.snap_shared.specs.HistoryEffects.{keeps_itself, keeps_on, further_on, further_of, kept_lasts, kept_clock, only_taker_before, asked_of, grows_of, legal_of};
ghost use Rattle.snap_shared.specs.SeatDesk.{IsPossibleWorld, SeesMap, ClockIsAtLeast, SeesFurther, SeatAfterReads, IsOnlyTaker, objects_read};
ghost use Rattle.snap_shared.specs.Seats.{opening_of, seat_number, seen_by, mine_of, IsSeat};

use crate::shared::{Seat, Shared};
use rt_streams::Gate;
use rt_values::{Name, NoMemory, ObjectNo, Objects, Value, View, WatcherNo};
use snap_api::{Desk, Refusal, Versions};
use std::alloc::Global;
use std::sync::Wait;

/// A desk that owns a seat, for a composition in a thread.
///
/// The desk shows the map of its snapshot, as it was when the snapshot was taken, whatever other callers do. It asks
/// the gate before each of its calls. Its calls wait while other seats have the turn.
#[derive(Drop)]
pub struct SeatView<'a, W: Versions + Drop, R: Wait, G: Gate> {
    rt: &'a R,
    shared: &'a Shared<W>,
    gate: &'a G,
    seat: Seat<W>,
    step: u64,
    opened: Option<Name>,
    ghost fits: { IsSeat shared.now seat },
}

impl<'a, W: Versions + Drop, R: Wait, G: Gate> SeatView<'a, W, R, G> {
    /// Makes a desk that shows snapshot `opened`, which is an open readonly snapshot of the seat's caller. Without a
    /// snapshot the desk shows nothing until it takes one. The caller's number is the gate's actor, and `step` is
    /// the number of the desk's first call at the gate.
    pub fn new(
        rt: &'a R,
        shared: &'a Shared<W>,
        seat: Seat<W>,
        gate: &'a G,
        step: u64,
        opened: Option<Name>,
    ) -> SeatView<'a, W, R, G>
        requires { IsSeat shared.now seat }
        ensures seat { result.seat ≡ seat }
        ensures shared { result.shared.now ≡ shared.now }
        ensures rest { (result.step ≡ step) × (result.opened ≡ opened) }
    {
        SeatView {
            rt,
            shared,
            gate,
            seat,
            step,
            opened,
        }
    }

    /// Returns the seat, and the number of the next call at the gate. Takes no memory.
    pub fn into_seat(self) -> (Seat<W>, u64)
        ensures { (result.0 ≡ self.entry.seat) × (result.1 ≡ self.entry.step) }
    {
        let SeatView {
            rt: _,
            shared: _,
            gate: _,
            seat,
            step,
            opened: _,
        } = self;
        (seat, step)
    }
}

impl<W: Versions + Drop, R: Wait, G: Gate> View for SeatView<'_, W, R, G> {
    ghost shows = { λ s m. SeesMap W.P.rules (W.stands (opening_of s.shared.now)) (seen_by s.seat)
        (seat_number s.seat) s.opened m };

    ghost asked = { λ s. objects_read (mine_of s.seat) };

    ghost keeps = { λ s t. (t.shared.now ≡ s.shared.now) × SeatAfterReads W.P.rules
        (W.stands (opening_of s.shared.now)) (W.stands (opening_of t.shared.now)) (seen_by s.seat) (seen_by t.seat)
        (seat_number s.seat) (seat_number t.seat) s.opened t.opened };

    ghost reads_free = { λ s. ⊥ };

    ghost keeps_itself = { λ s. (refl, keeps_itself _ _ _ _ _) };

    ghost keeps_on = { λ r s t h k. (k.0 ∙ h.0, keeps_on h.1 k.1) };

    ghost asked_grows = { λ s t k. grows_of k.1 };

    ghost free_kept = { λ s t k f. f };

    fn read(&mut self, alloc: Global, x: ObjectNo) -> Result<Value, NoMemory> {
        let Some(name) = self.opened else {
            return Err(NoMemory); // the desk shows nothing
        };
        self.gate.pass(self.seat.number as usize, self.step);
        self.step = self.step.wrapping_add(1);
        match self.shared.read(self.rt, alloc, &mut self.seat, name, x) {
            Ok(value) => Ok(value),
            Err(Refusal::UnknownObject) => Ok(Value::Int(0)),
            Err(_) => Err(NoMemory), // any other refusal means that the desk shows nothing
        }
    }
}

impl<W: Versions + Drop, R: Wait, G: Gate> Desk for SeatView<'_, W, R, G> {
    type P = W::P;

    // Other callers change the shared world.
    ghost behind = { λ s w. ⊥ };

    // The caller's own calls.
    ghost log = { λ s. Some (mine_of s.seat) };

    ghost caller = { λ s. seat_number s.seat };

    ghost opened = { λ s. s.opened };

    ghost lends = { λ s t. (t.shared.now ≡ s.shared.now) × (seat_number t.seat ≡ seat_number s.seat)
        × SeesFurther W.P.rules (W.stands (opening_of s.shared.now)) (seen_by s.seat) (seen_by t.seat) };

    ghost clock = { λ s k. ClockIsAtLeast W.P.rules (W.stands (opening_of s.shared.now)) (seen_by s.seat) k };

    ghost last = { λ s n types l. Lasts W.P.rules
        (IsPossibleWorld W.P.rules (W.stands (opening_of s.shared.now)) (seen_by s.seat)) n types l };

    ghost alone = { λ s n. IsOnlyTaker (seat_number s.seat) n (seen_by s.seat) };

    ghost lends_on = { λ r s t h k. (k.0 ∙ h.0, k.1 ∙ h.1, further_on W.stands (ap opening_of h.0) h.2 k.2) };

    ghost lends_kept = { λ s t k. (k.0, k.1.same_number, further_of k.1) };

    ghost behind_kept = { λ s t w k h. h };

    ghost reads_told = { λ s t k. asked_of k.1 };

    ghost reads_legal = { λ s t k. legal_of k.1 };

    ghost caller_kept = { λ s t k. k.1.same_number };

    ghost opened_kept = { λ s t k. k.1.same_name };

    ghost clock_kept = { λ s t n k h. kept_clock k.1 n h };

    ghost last_kept = { λ s t n types l k a h. kept_lasts k.1 W.P.merge_keeps_type n types l a h };

    ghost alone_before = { λ s t n k a. only_taker_before k.1 n a };

    fn take_for(&mut self, alloc: Global, watcher: WatcherNo) -> Result<(Name, Objects), Refusal> {
        self.gate.pass(self.seat.number as usize, self.step);
        self.step = self.step.wrapping_add(1);
        match self
            .shared
            .take_for(self.rt, alloc, &mut self.seat, watcher)
        {
            Ok((name, changed)) => {
                self.opened = Some(name);
                Ok((name, changed))
            }
            Err(refusal) => Err(refusal),
        }
    }

    fn dispose(&mut self) -> Result<(), Refusal> {
        let Some(name) = self.opened else {
            return Err(Refusal::NoMemory); // the desk shows nothing
        };
        self.gate.pass(self.seat.number as usize, self.step);
        self.step = self.step.wrapping_add(1);
        match self.shared.dispose(self.rt, &mut self.seat, name) {
            Ok(()) => {
                self.opened = None;
                Ok(())
            }
            Err(refusal) => Err(refusal),
        }
    }
}
