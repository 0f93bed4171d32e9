// Turns, and the calls on a shared world.
ghost use Rattle.std.specs.Prelude.{◌≡◌, ℕ, ◌<◌, Some, List, [], length, IsOk};
ghost use Rattle.snap_api.specs.Calls.{taken_for_reply, read_reply, dispose_reply, IsOwn};
ghost use Rattle.snap_api.specs.World.{World, world_after};
ghost use Rattle.snap_api.specs.declared.data.Entry.{Entry as entry_data};
ghost use Rattle.snap_shared.specs.Histories.{caller_of, IsWorldAfter};
ghost use Rattle.snap_shared.specs.Seats.{opening_of, seat_number, seen_by, IsSeat};
ghost use Rattle.snap_shared.specs.SeatSteps.{HasTurn, CanReturn};
ghost use Rattle.snap_shared.specs.SharedCalls.{SeesOwnCall, DisposesSeenOwn};
ghost use Rattle.snap_shared.specs.StepResults.{TakesTurn};
ghost use Rattle.snap_shared.specs.TurnRule.{after_return};
ghost use Rattle.snap_shared.specs.declared.rule.Phase.TheVariants.{Idle};

use crate::rule::{ReturnTurn, SeatState, TryTurn};
use crate::shared::{AWAITED, FREE, Seat, Shared, TAKEN};
use atomic_table::Seat as TableSeat;
use rt_values::{Name, ObjectNo, Objects, Value, WatcherNo};
use snap_api::{Entry, Refusal, Reply, Request, Versions};
use std::alloc::Global;
use std::sync::Wait;

impl<W: Versions + Drop> Shared<W> {
    // Waits until the seat has the turn. The seat then has the world. Parks while another seat has the turn.
    fn wait_turn<R: Wait>(&self, rt: &R, seat: &mut TableSeat<Option<W>, SeatState<W, Entry>>)
        requires fits { seat.old.table_id ≡ self.now.table.shared.table_id }
        requires rests { (seat.old.me.0.phase ≡ Idle) × (0 < length seat.old.me.0.own) × (seat.old.me.1 ≡ []) }
        ensures fits { (seat.new.table_id ≡ seat.old.table_id) × (seat.new.id ≡ seat.old.id) }
        ensures taken { TakesTurn caller_of W.log (IsWorldAfter W.P.rules W.stands) seat.old.me seat.new.me }
    {
        let first = self
            .table
            .shared
            .compare_exchange::<TryTurn<W>>(seat, 0, FREE, TAKEN);
        if first == FREE {
            return;
        }
        for _ in rt.forever() {
            let found = self.table.shared.swap::<TryTurn<W>>(seat, 0, AWAITED);
            if found == FREE {
                return;
            }
            self.table.shared.park(rt, 0, AWAITED as u32);
        }
        unreachable!()
    }

    // Waits for the turn, and takes the world out of its slot.
    fn take_turn<R: Wait>(&self, rt: &R, seat: &mut TableSeat<Option<W>, SeatState<W, Entry>>) -> W
        requires fits { seat.old.table_id ≡ self.now.table.shared.table_id }
        requires rests { (seat.old.me.0.phase ≡ Idle) × (0 < length seat.old.me.0.own) × (seat.old.me.1 ≡ []) }
        ensures fits { (seat.new.table_id ≡ seat.old.table_id) × (seat.new.id ≡ seat.old.id) }
        ensures taken { HasTurn W.log (IsWorldAfter W.P.rules W.stands) seat.old.me.0 result seat.new.me }
    {
        self.wait_turn(rt, seat);
        let Some(world) = self.table.shared.exchange(seat, 0, None) else {
            unreachable!()
        };
        world
    }

    // Puts the world back, returns the turn, and wakes a thread if one may be parked.
    fn return_turn(&self, seat: &mut TableSeat<Option<W>, SeatState<W, Entry>>, world: W)
        requires fits { seat.old.table_id ≡ self.now.table.shared.table_id }
        requires gives { CanReturn W.log (IsWorldAfter W.P.rules W.stands) (opening_of self.now) seat.old.me world }
        ensures fits { (seat.new.table_id ≡ seat.old.table_id) × (seat.new.id ≡ seat.old.id) }
        ensures returned { (log : List entry_data) → W.log world ≡ Some log
            → seat.new.me ≡ (after_return caller_of seat.old.me.0 log, []) }
    {
        let emptied = self.table.shared.exchange(seat, 0, Some(world));
        drop(emptied);
        let found = self.table.shared.swap::<ReturnTurn<W>>(seat, 0, FREE);
        if found == AWAITED {
            self.table.shared.wake_one(0);
        }
    }

    /// Makes one call as the seat's caller, in its turn, and returns the reply. Waits while other seats have the
    /// turn. A call that runs out of memory adds no entry to the history, but the seat may see more of it.
    pub fn call<R: Wait>(
        &self,
        rt: &R,
        alloc: Global,
        seat: &mut Seat<W>,
        request: Request,
    ) -> Reply
        requires fits { IsSeat self.now seat.old }
        ensures fits { IsSeat self.now seat.new }
        ensures number { seat_number seat.new ≡ seat_number seat.old }
        ensures call { SeesOwnCall W.P.rules W.stands (opening_of self.now) (seat_number seat.old) (seen_by seat.old)
            (seen_by seat.new) request result }
        ensures own { DisposesSeenOwn W.P.rules W.stands (opening_of self.now) (seat_number seat.old)
            (seen_by seat.old) request result }
    {
        let mut world = self.take_turn(rt, &mut seat.seat);
        let reply = world.call(alloc, seat.number, request);
        self.return_turn(&mut seat.seat, world);
        reply
    }

    // Makes a read as the seat's caller, in its turn.
    pub(crate) fn read<R: Wait>(
        &self,
        rt: &R,
        alloc: Global,
        seat: &mut Seat<W>,
        name: Name,
        object: ObjectNo,
    ) -> Result<Value, Refusal>
        requires fits { IsSeat self.now seat.old }
        ensures fits { IsSeat self.now seat.new }
        ensures number { seat_number seat.new ≡ seat_number seat.old }
        ensures call { SeesOwnCall W.P.rules W.stands (opening_of self.now) (seat_number seat.old) (seen_by seat.old)
            (seen_by seat.new) (Request.Read name object) (read_reply result) }
    {
        let mut world = self.take_turn(rt, &mut seat.seat);
        let outcome = world.read(alloc, seat.number, name, object);
        self.return_turn(&mut seat.seat, world);
        outcome
    }

    // Makes a take for a watcher as the seat's caller, in its turn.
    pub(crate) fn take_for<R: Wait>(
        &self,
        rt: &R,
        alloc: Global,
        seat: &mut Seat<W>,
        watcher: WatcherNo,
    ) -> Result<(Name, Objects), Refusal>
        requires fits { IsSeat self.now seat.old }
        ensures fits { IsSeat self.now seat.new }
        ensures number { seat_number seat.new ≡ seat_number seat.old }
        ensures call { SeesOwnCall W.P.rules W.stands (opening_of self.now) (seat_number seat.old) (seen_by seat.old)
            (seen_by seat.new) (Request.TakeFor watcher) (taken_for_reply result) }
    {
        let mut world = self.take_turn(rt, &mut seat.seat);
        let outcome = world.take_for(alloc, seat.number, watcher);
        self.return_turn(&mut seat.seat, world);
        outcome
    }

    // Disposes a snapshot as the seat's caller, in its turn. Never fails for a live snapshot of the caller.
    pub(crate) fn dispose<R: Wait>(
        &self,
        rt: &R,
        seat: &mut Seat<W>,
        name: Name,
    ) -> Result<(), Refusal>
        requires fits { IsSeat self.now seat.old }
        ensures fits { IsSeat self.now seat.new }
        ensures number { seat_number seat.new ≡ seat_number seat.old }
        ensures call { SeesOwnCall W.P.rules W.stands (opening_of self.now) (seat_number seat.old) (seen_by seat.old)
            (seen_by seat.new) (Request.Dispose name) (dispose_reply result) }
        ensures own { (o : World W.P) → W.stands (opening_of self.now) o
            → IsOwn (world_after W.P.rules o (seen_by seat.old)) (seat_number seat.old) name → IsOk result }
    {
        let mut world = self.take_turn(rt, &mut seat.seat);
        let outcome = world.dispose(seat.number, name);
        self.return_turn(&mut seat.seat, world);
        outcome
    }
}
