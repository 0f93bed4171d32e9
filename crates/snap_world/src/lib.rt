//! The world of snapshots with state records: a take copies no map.
//!
//! `RecordWorld` implements `snap_api`'s `Versions` with chains of records, as `androidx.compose.runtime.snapshots`
//! does: a take hands out ids, a read looks for the readable record, a write overwrites the snapshot's own record or a
//! record that no reader reads, an apply gives the parent records and ids, and a dispose leaves records until the last
//! descendant closes.
//! Promises: those of `Versions`, for every plain world that the records represent (`snap_laws`, `Represents`). A
//! refusal needs no memory, except in a merge before a conflict, nor does a dispose or the read of a number or a truth
//! value. After a write an object has at most two records a live snapshot, plus two, with an id except 0.
#![tactic(auto)]

mod applying;
mod boxed;
mod kept_ids;
mod moving;
mod notes;
mod noting;
mod searched_ids;
mod settling;
mod stamp_list;
mod used_ids;
mod world;

pub use boxed::BoxedWorld;
pub use world::RecordWorld;
