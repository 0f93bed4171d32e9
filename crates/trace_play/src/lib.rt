//! The program `compose_trace` as a library: runs the script of a source text as `run` does, and writes the program, each
//! call and each frame as one line of JSON, with the groups of a frame and why each call ran.
//!
//! The script runs on a world that logs its calls. Then the history is told: a frame is composed again from the values
//! that its reads gave, as `threads` does for its lines. Compose has no such trace; it is a rule of this project.
//! Promises: the lines are those of the definition `trace_output` (`specs/TraceOutput.antt`); each status has its cause,
//! as that of `run`; after a fault, or out of memory, what was written is a first part of this.
#![tactic(auto)]

mod frames;
mod line_buffers;
mod memory;
mod telling;
mod top;

pub use telling::tell;
pub use top::trace;
