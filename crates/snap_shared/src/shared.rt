// A shared world and its seats.
ghost use Rattle.std.specs.Prelude.{◌≡◌};

use crate::rule::{Opening, SeatState, TurnRule};
use atomic_table::{Seat as TableSeat, Table};
use rt_values::Caller;
use snap_api::{Entry, Versions};
use std::alloc::Global;

// The table's word if no seat has the turn.
pub(crate) const FREE: u64 = 0;
// The table's word if a seat has the turn and no thread is parked.
pub(crate) const TAKEN: u64 = 1;
// The table's word if a seat has the turn and threads may be parked.
pub(crate) const AWAITED: u64 = 2;

/// A world with a log that callers share by turns.
///
/// The table has one word, which says whether a seat has the turn, and one slot with the world. The log is kept
/// once, in the world.
#[derive(Drop)]
pub struct Shared<W: Versions + Drop> {
    pub(crate) table: Table<Option<W>, SeatState<W, Entry>, Opening<W>, TurnRule<W>, Global>,
    ghost words: { table.shared.table_id.words ≡ 1 },
    ghost slots: { table.shared.table_id.slots ≡ 1 },
}

/// The handle of one caller of a shared world. What a seat has seen and its own calls exist in proofs only.
#[derive(Drop)]
pub struct Seat<W> {
    pub(crate) seat: TableSeat<Option<W>, SeatState<W, Entry>>,
    pub(crate) number: Caller,
}
