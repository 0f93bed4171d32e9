// Two seats meet.
ghost use Rattle.std.specs.Prelude.{◌≡◌};
ghost use Rattle.snap_shared.specs.Histories.{IsWorldAfter};
ghost use Rattle.snap_shared.specs.Seats.{opening_of, seat_number, seen_by, IsSeat};
ghost use Rattle.snap_shared.specs.SeatSteps.{SeesJoined, AdoptsJoined};
ghost use Rattle.snap_shared.specs.SharedCalls.{SeeOneHistory};
ghost use Rattle.snap_shared.specs.declared.rule.Phase.TheVariants.{Idle};

use crate::rule::{AdoptReceived, JoinSeat, SeatState, SeeHistory, SplitNote};
use crate::shared::{Seat, Shared};
use atomic_table::Seat as TableSeat;
use snap_api::{Entry, Versions};

impl<W: Versions + Drop> Shared<W> {
    // Joins a note of `other` to `one`, which then sees the history so far.
    fn see_joined(
        &self,
        one: &mut TableSeat<Option<W>, SeatState<W, Entry>>,
        other: &mut TableSeat<Option<W>, SeatState<W, Entry>>,
    )
        requires one { (one.old.table_id ≡ self.now.table.shared.table_id) × (one.old.me.0.phase ≡ Idle) }
        requires other { other.old.table_id ≡ self.now.table.shared.table_id }
        ensures fits { (one.new.table_id ≡ one.old.table_id) × (other.new.table_id ≡ other.old.table_id) }
        ensures other { other.new.me ≡ other.old.me }
        ensures one { SeesJoined (IsWorldAfter W.P.rules W.stands) one.old.me other.old.me one.new.me }
    {
        let cut = self.table.shared.split_seat::<SplitNote<W>>(other);
        self.table.shared.join_seat::<JoinSeat<W>>(one, cut);
        self.table.shared.load::<SeeHistory<W>>(one, 0);
    }

    // Joins a note of `other` to `one`, which then sees exactly what `other` has seen.
    fn adopt_joined(
        &self,
        one: &mut TableSeat<Option<W>, SeatState<W, Entry>>,
        other: &mut TableSeat<Option<W>, SeatState<W, Entry>>,
    )
        requires one { (one.old.table_id ≡ self.now.table.shared.table_id) × (one.old.me.0.phase ≡ Idle) }
        requires other { other.old.table_id ≡ self.now.table.shared.table_id }
        ensures fits { (one.new.table_id ≡ one.old.table_id) × (other.new.table_id ≡ other.old.table_id) }
        ensures other { other.new.me ≡ other.old.me }
        ensures one { AdoptsJoined (IsWorldAfter W.P.rules W.stands) one.old.me other.old.me one.new.me }
    {
        let cut = self.table.shared.split_seat::<SplitNote<W>>(other);
        self.table.shared.join_seat::<JoinSeat<W>>(one, cut);
        self.table.shared.load::<AdoptReceived<W>>(one, 0);
    }

    /// Lets two seats see one history, which continues what each had seen. Makes no call on the world, does not
    /// wait, and takes no memory.
    pub fn meet(&self, one: &mut Seat<W>, other: &mut Seat<W>)
        requires one { IsSeat self.now one.old }
        requires other { IsSeat self.now other.old }
        ensures one { IsSeat self.now one.new }
        ensures other { IsSeat self.now other.new }
        ensures numbers { (seat_number one.new ≡ seat_number one.old) × (seat_number other.new ≡ seat_number other.old) }
        ensures met { SeeOneHistory W.P.rules W.stands (opening_of self.now) (seat_number one.old) (seat_number other.old)
            (seen_by one.old) (seen_by other.old) (seen_by one.new) (seen_by other.new) }
    {
        self.see_joined(&mut one.seat, &mut other.seat);
        self.adopt_joined(&mut other.seat, &mut one.seat);
    }
}
