//! Runs the script of a checked program: makes the calls of its steps in a world of snapshots, composes each frame in a
//! snapshot of its own, and writes the line of each call and the lines of each frame to a sink.
//!
//! In Compose this is the work of `Recomposer` (`composeInitial`, `recompose`) and of a test driver. Scripts and lines
//! are rules of this project.
//! Promises: the bytes written are those of `run_text`, the lines of the history that the steps make in the plain
//! world, or a first part of them after an error. The log of the world, if it has one, grows by that history and by the
//! reads that each frame owes. `replay` writes the lines of a history from its calls and their replies.
#![tactic(auto)]

mod calls;
mod frame;
mod job;
mod memory;
mod open;
mod recorded;
mod replaying;
mod steps;
mod write_lines;

pub use calls::sum_request;
pub use frame::{compose, note_frame};
pub use job::Job;
pub use memory::RunMemory;
pub use open::set_up_world;
pub use recorded::RecordedReads;
pub use replaying::{
    ReplayFrame, ReplayMemory, begun_frame, compose_recorded, into_value, is_dispose, object_asked,
    replay,
};
pub use steps::run_script;
pub use write_lines::{Stop, write_piece};
