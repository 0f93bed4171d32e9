//! Frames of a composition through a seat of a shared world.
//!
//! `recomposer` composes over any desk. This crate states what that means for the desk of a seat (`SeatView`), while
//! other threads call the same shared world. It is for users of the library: `play_threads` makes the calls of a frame
//! one by one, since it notes each of them. A frame takes its snapshot at one place of the shared history. Promises:
//! the composition has then kept what the world at that place gives, whatever others do meanwhile, and the seat
//! returns. Only this composition may take for its watcher. In Compose, `Recomposer` composes in a snapshot of its own
//! while other threads write (`composeInitial`, `performRecompose`).
#![tactic(auto)]

mod frames;

pub use frames::{begin_among, finish_among, frame_among};
