//! The program `compose_play` as a library. `play` reads a program with its script from a source. The command `run`
//! makes the steps of the script's actors on a world of snapshots, composes each frame in its snapshot, and writes each
//! line. The command `threads` lets the actors do so on threads of their own, and writes the lines afterwards. The
//! command `check` writes the canonical text of the input. The command `gen` reads nothing and writes the summary of a
//! generated run.
//!
//! In Compose this is the work of `Recomposer` and its caller: take a frame's snapshot, compose the program in
//! it, dispose it, and keep what the next frame owes. `compose_play` passes the world and the real streams.
//! Promises:
//! - `run` writes exactly the lines that plain copied maps and composing from scratch give.
//! - `threads` writes such lines of a history in which the actors take turns in some order.
//! - `check` writes the trees of the forms of the program and the script, one a line.
//! - `gen` writes the counts of the history that its definition gives.
//! - Each status has its cause. After a fault, or out of memory, what was written is a first part of this.
#![tactic(auto)]

mod canonical;
mod fault;
mod fault_laws;
mod text;
mod top;

pub use fault::{Fault, FaultKind};
pub use fault_laws::{
    bytes_are_a_text_or_have_a_fault, bytes_have_one_fault, faulty_bytes_are_no_text,
    parsed_programs_are_numbered, threads_output_tells_its_history,
};
pub use text::{Input, TextEnd, parse_input};
pub use top::{Status, play, play_alone, read_input, status_of};
