// Making a shared world with its seats, and taking it apart.
ghost use Rattle.std.specs.Prelude.{◌≡◌, ◌<◌, ◌≤◌, ◌++◌, ◌∷◌, [], Some, IfOk, OnOk, List, All, length, map};
ghost use Rattle.snap_api.specs.Shaped.{IsShaped};
ghost use Rattle.snap_api.specs.TracksLive.{OnlyGlobalIsLive};
ghost use Rattle.snap_api.specs.World.{World, IsLegal, world_after};
ghost use Rattle.snap_api.specs.declared.data.Entry.{Entry as entry_data};
ghost use Rattle.snap_shared.specs.Histories.{IsWorldAfter};
ghost use Rattle.snap_shared.specs.Seats.{opening_of, count_of, seat_number, seen_by, IsSeat, IsNewSeat};
ghost use Rattle.snap_shared.specs.SeatSteps.{CoversSeat, IsJoinedSeat, state_with_callers};
ghost use Rattle.snap_shared.specs.SharedCalls.{ContainsSeat, HasOnlyCallersBelow, numbers_below};

use crate::rule::{JoinSeat, Opening, SeatState, SeeHistory, SplitSeat};
use crate::shared::{FREE, Seat, Shared};
use atomic_table::{Seat as TableSeat, Table};
use rt_values::NoMemory;
use snap_api::{Entry, LogWorld, Versions};
use std::alloc::Global;
use std::snapshot::Snapshot;
use std::sync::Wait;

// Returns a list with the one slot of the table.
fn slot_for<W: Versions + Drop>(alloc: Global, world: W) -> Result<Vec<Option<W>>, NoMemory>
    ensures { IfOk result (λ s. s.items ≡ Some world ∷ []) }
{
    let mut slots = Vec::new(alloc);
    match slots.push(Some(world)) {
        Ok(()) => Ok(slots),
        Err(_) => Err(NoMemory),
    }
}

// Appends `seat`.
fn push_seat<W: Versions + Drop>(seats: &mut Vec<Seat<W>>, seat: Seat<W>) -> Result<(), NoMemory>
    ensures { OnOk result (seats.new.items ≡ seats.old.items ++ seat ∷ []) }
{
    match seats.push(seat) {
        Ok(()) => Ok(()),
        Err(_) => Err(NoMemory),
    }
}

impl<W: Versions + Drop> Shared<W> {
    // Splits the seats of the callers 0 to `count` - 1, in order, off a seat that has all of them. Appends them to
    // `seats`, which is empty before.
    fn split_into(
        &self,
        mut first: TableSeat<Option<W>, SeatState<W, Entry>>,
        count: usize,
        seats: &mut Vec<Seat<W>>,
    ) -> Result<(), NoMemory>
        requires some { 0 < count }
        requires fits { first.table_id ≡ self.now.table.shared.table_id }
        requires all { first.me ≡ (state_with_callers (opening_of self.now) 0 count, []) }
        requires empty { seats.old.items ≡ [] }
        ensures all { OnOk result (All (λ x. IsNewSeat self.now x) seats.new.items) }
        ensures numbers { OnOk result (map seat_number seats.new.items ≡ numbers_below count) }
        ensures many { OnOk result (length seats.new.items ≡ count) }
    {
        for number in 0..count - 1 {
            let seat = self.table.shared.split_seat::<SplitSeat<W>>(&mut first);
            let number = number as u64;
            let Ok(()) = push_seat(seats, Seat { seat, number }) else {
                return Err(NoMemory);
            };
        }
        let last = Seat {
            seat: first,
            number: (count - 1) as u64,
        };
        let Ok(()) = push_seat(seats, last) else {
            return Err(NoMemory);
        };
        Ok(())
    }

    // Returns the seats of the callers 0 to `count` - 1, in order, from a seat that has all of them.
    fn split_seats(
        &self,
        alloc: Global,
        first: TableSeat<Option<W>, SeatState<W, Entry>>,
        count: usize,
    ) -> Result<Vec<Seat<W>>, NoMemory>
        requires some { 0 < count }
        requires fits { first.table_id ≡ self.now.table.shared.table_id }
        requires all { first.me ≡ (state_with_callers (opening_of self.now) 0 count, []) }
        ensures all { IfOk result (λ s. All (λ x. IsNewSeat self.now x) s.items) }
        ensures numbers { IfOk result (λ s. map seat_number s.items ≡ numbers_below count) }
        ensures many { IfOk result (λ s. length s.items ≡ count) }
    {
        let mut seats = Vec::new(alloc);
        let Ok(()) = self.split_into(first, count, &mut seats) else {
            return Err(NoMemory);
        };
        Ok(seats)
    }

    // Shares a world with an empty log among `count` callers, and returns it with their seats in order.
    fn open(alloc: Global, world: W, count: usize) -> Result<(Shared<W>, Vec<Seat<W>>), NoMemory>
        requires some { 0 < count }
        requires empty { W.log world ≡ Some [] }
        ensures opening { IfOk result (λ r. (opening_of r.0 ≡ world) × (count_of r.0 ≡ count)) }
        ensures seats { IfOk result (λ r. All (λ x. IsNewSeat r.0 x) r.1.items) }
        ensures numbers { IfOk result (λ r. map seat_number r.1.items ≡ numbers_below count) }
        ensures many { IfOk result (λ r. length r.1.items ≡ count) }
    {
        let about = Opening {
            world: Snapshot::of(&world),
            seats: count as u64,
        };
        let Ok(slots) = slot_for(alloc, world) else {
            return Err(NoMemory);
        };
        let Ok((table, first)) = Table::new(alloc, &[FREE], slots, &about) else {
            return Err(NoMemory);
        };
        let shared = Shared { table };
        match shared.split_seats(alloc, first, count) {
            Ok(seats) => Ok((shared, seats)),
            Err(_) => Err(NoMemory),
        }
    }

    // Joins all seats to the last one, which has seen what each of them has seen.
    fn join_seats(&self, mut seats: Vec<Seat<W>>) -> TableSeat<Option<W>, SeatState<W, Entry>>
        requires some { 0 < length seats.items }
        requires all { All (λ x. IsSeat self.now x) seats.items }
        ensures fits { result.table_id ≡ self.now.table.shared.table_id }
        ensures joined { IsJoinedSeat (opening_of self.now) (length seats.items) result.me }
        ensures all { All (λ x. CoversSeat result.me.0 (seat_number x) (seen_by x)) seats.items }
    {
        let Some(last) = seats.pop() else {
            unreachable!()
        };
        let mut all = last.seat;
        while let Some(next) = seats.pop() {
            self.table
                .shared
                .join_seat::<JoinSeat<W>>(&mut all, next.seat);
            self.table.shared.load::<SeeHistory<W>>(&mut all, 0);
        }
        all
    }

    // Takes the world out of the table, with a log that has the calls of all seats.
    fn close(self, seats: Vec<Seat<W>>) -> W
        requires some { 0 < length seats.items }
        requires count { length seats.items ≡ count_of self }
        requires all { All (λ x. IsSeat self x) seats.items }
        ensures ended { (log : List entry_data) × (W.log result ≡ Some log)
            × IsWorldAfter W.P.rules W.stands (opening_of self) log result
            × All (λ x. ContainsSeat log (seat_number x) (seen_by x)) seats.items
            × HasOnlyCallersBelow (count_of self) log }
    {
        let all = self.join_seats(seats);
        let Shared { table } = self;
        let mut closed = table.close_with(all);
        let home = closed.take(0);
        closed.free();
        let Some(world) = home else { unreachable!() };
        world
    }
}

impl<V: Versions + Drop> Shared<LogWorld<V>> {
    /// Shares a world among `count` callers, and returns it with the seats of the callers 0 to `count` - 1, in order.
    ///
    /// The shared world represents each plain world of `world` in which only the global snapshot is live. Each take
    /// through a seat also reserves memory for the log entry of a dispose. `new` does not wait: it takes the runtime so
    /// that a world is shared only where calls can wait. This project's own rule.
    pub fn new<R: Wait>(
        _rt: &R,
        alloc: Global,
        world: V,
        count: usize,
    ) -> Result<(Shared<LogWorld<V>>, Vec<Seat<LogWorld<V>>>), NoMemory>
        requires some { 0 < count }
        ensures stands { IfOk result (λ r. (o : World V.P) → V.stands world o → IsShaped o → OnlyGlobalIsLive o
            → ⟦<LogWorld<V> as Versions>⟧.stands (opening_of r.0) o) }
        ensures count { IfOk result (λ r. count_of r.0 ≡ count) }
        ensures seats { IfOk result (λ r. All (λ x. IsNewSeat r.0 x) r.1.items) }
        ensures numbers { IfOk result (λ r. map seat_number r.1.items ≡ numbers_below count) }
        ensures many { IfOk result (λ r. length r.1.items ≡ count) }
    {
        Shared::open(alloc, LogWorld::new(alloc, world), count)
    }

    /// Returns the world, and the history of all calls. `seats` are all seats of this shared world, in any order.
    ///
    /// Takes no memory and does not wait, since no seat is in a call.
    pub fn into_parts(self, seats: Vec<Seat<LogWorld<V>>>) -> (V, Vec<Entry>)
        requires some { 0 < length seats.items }
        requires count { length seats.items ≡ count_of self }
        requires all { All (λ x. IsSeat self x) seats.items }
        ensures legal { (o : World V.P) → ⟦<LogWorld<V> as Versions>⟧.stands (opening_of self) o
            → IsLegal V.P.rules o result.1.items × V.stands result.0 (world_after V.P.rules o result.1.items) }
        ensures seats { All (λ x. ContainsSeat result.1.items (seat_number x) (seen_by x)) seats.items }
        ensures others { HasOnlyCallersBelow (count_of self) result.1.items }
    {
        self.close(seats).into_parts()
    }
}
