//! Runs each actor of a script on a thread of its own, on one shared world of snapshots, and then writes the lines of
//! all calls.
//!
//! The actors share one new world of state records. Each actor makes its steps through a seat of the world, with snapshot
//! names and a composition of its own, and asks a gate before each call. After all have ended, the lines of the world's
//! history are written as a run writes them: the line of each printed call from its request and its reply, and the lines
//! of each frame, which is composed again from the values that its reads gave. In Compose this is the work of a test
//! driver that calls `Snapshot` and `Recomposer` from several threads. Scripts and lines are rules of this project.
//! Promises: the history is legal on the world of the program's states. If no actor ran out of memory its printed calls
//! are woven: each actor's calls are those that its steps make, in order. In any case the printed calls can be continued
//! to a legal and woven history. What is written are the lines of such a history, or a first part of them if the sink
//! failed or the process ran out of memory.
#![tactic(auto)]

mod actors;
mod cut;
mod frames;
mod laws;
mod steps;
mod threads;
mod worker;

pub use actors::{ActorsEnd, run_actors};
pub use laws::woven_text_tells_its_history;
pub use threads::run_threads;
