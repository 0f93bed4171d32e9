//! A world of snapshots that threads share: each call has the whole world for its turn.
//!
//! Compose guards its global snapshot state by one lock (`sync` in `Snapshot.kt`). Here a caller waits until no other
//! caller has the turn, takes it, makes one call and returns the turn. `Shared` is the world, a `Seat` is the handle of
//! one caller, and a `SeatView` is the desk of a composition on a seat. The layer above gives each of its threads a
//! seat.
//! Promises: whatever the threads do, all calls have one legal history. A seat knows a prefix of it (what it has
//! `seen`) and its own calls in it (`mine`). Two seats that meet know the same prefix, and `into_parts` returns the
//! world with the whole history. Between two calls a seat does not have the turn and does not hold the world. It is
//! not promised that a waiting call returns, that anybody is served, or in which order.
#![tactic(auto)]

mod meetings;
mod openings;
mod rule;
mod seat_view;
mod shared;
mod turns;

pub use rule::{
    AdoptReceived, JoinSeat, Opening, Phase, ReturnTurn, SeatState, SeeHistory, SplitNote,
    SplitSeat, TryTurn, TurnRule,
};
pub use seat_view::SeatView;
pub use shared::{Seat, Shared};
