//! Inputs of any size, made from a number.
//!
//! The command `gen` runs such an input, so that a large run needs no large text. `generate` returns a program whose
//! rows, totals and lists depend on each other, and a script whose steps are drawn from the number. A rule of this
//! project: Compose has no such part.
//! Promises: program and script are those of `specs/GeneratedProgram.antt` and `specs/GeneratedScript.antt`, and
//! neither has a fault.
#![tactic(auto)]

mod counting;
mod draws;
mod inputs;
mod program;
mod rounds;
mod summary;
mod tally;
mod text;

pub use inputs::generate;
pub use summary::count_input;
pub use tally::Tally;
pub use text::summary_text;
