//! A composition that is composed again frame by frame, over any desk.
//!
//! `Composition` is what Compose's `Recomposer` keeps of a `CompositionImpl`. `begin` takes a frame's snapshot and
//! marks what changed as owed, `finish` runs the calls that are owed and keeps the new groups, and `frame` does both.
//! `specs/Compositions.antt` defines which state of the last good frame a composition has kept.
//! Promises:
//! - After a good frame the composition has kept exactly the forest that composing from scratch in the frame's map gives,
//!   with the numbers of kept nodes.
//! - The report and the reads are exactly those that the frame owes, and none if no kept call read what changed.
//! - A refused frame changes nothing.
//! - The log of a world gets a frame's take, its reads and its dispose, after a refusal too.
#![tactic(auto)]

mod composition;

pub use composition::{Begun, Composition, FrameStop};
