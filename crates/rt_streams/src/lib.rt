//! Byte streams: where the program reads its input and writes its lines, and how faults are counted.
//!
//! The layer above reads its whole input with `read_all` and writes each line with `write_all`. A `Gate`
//! decides when an actor's thread may make its next call. Compose has no counterpart, since its runtime
//! does no I/O: this crate is the project's own edge to the outside.
//!
//! Promises: `read_all` returns exactly the bytes that a source has left, and never takes more than one
//! byte past the limit. `write_all` writes exactly the bytes given, or a prefix after a fault. Both stop
//! at the first fault. A counter, of bytes taken or of faults, shows the cause of each error.
#![tactic(auto)]

mod adapters;
mod call_counter;
mod gate;
mod memory;
mod sink;
mod source;

pub use adapters::{Reading, Writing};
pub use call_counter::CallCounter;
pub use gate::{Gate, OpenGate};
pub use memory::{MemSink, MemSource};
pub use sink::{Sink, WriteFault, write_all};
pub use source::{Failed, ReadStop, Source, read_all};
