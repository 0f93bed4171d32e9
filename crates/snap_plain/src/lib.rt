//! The plain world of snapshots, implemented as it is defined: it keeps every snapshot with whole maps.
//!
//! `PlainWorld` is the simplest implementation of `snap_api`'s `Versions`. Tests run on it; the program runs on the
//! world of records of `snap_world`. Whole maps take the place of the chains of `StateRecord`s of
//! `androidx.compose.runtime.snapshots`: a take copies its parent's map, so a read is a lookup.
//! Promises: those of `Versions`, for the one plain world that its fields form. A refused call takes no memory,
//! except that an apply may take memory in a merge before it finds a conflict. A dispose never takes memory.
#![tactic(auto)]

mod settle_objects;
mod snapshots;
mod world;

pub use world::PlainWorld;
