//! Composing a frame next to the groups of the last good frame.
//!
//! `compose` is what Compose's `Composer` does between `startRestartGroup` and `endRestartGroup`: it runs the calls
//! that are owed, skips what is not, and writes the groups of the frame (`SlotWriter`) into a draft. `Held` is what a
//! composition keeps between frames, and `Owed` the objects that changed. `specs/FrameDrafts.antt` defines the draft of
//! a frame.
//! Promises:
//! - The draft has exactly the groups of the forest composed from scratch, with the numbers of kept nodes.
//! - The calls that run, the cells that are calculated and the reads are exactly those of the frame's report.
//! - A draft that fails leaves what is held unchanged.
#![tactic(auto)]

mod blocks;
mod compared;
mod composing;
mod draft;
mod entering;
mod last_groups;
mod old_groups;
mod owed;
mod pending;
mod progress;
mod runs;
mod spares;
mod stop;
mod writer;

pub use composing::compose;
pub use draft::{Draft, Held};
pub use owed::Owed;
pub use stop::ComposeStop;
