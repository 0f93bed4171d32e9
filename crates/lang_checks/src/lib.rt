//! The faults of a program that has the right forms.
//!
//! `check` takes a parsed program and returns it as `Checked`, whose type keeps that it has no faults and that its
//! statements and calls are numbered in the order of the text (`specs/Numbers.antt`). Only `Checked` is composed. The
//! Kotlin compiler and the Compose compiler plugin find such faults before the runtime sees any composable. The rules
//! are this project's own.
//!
//! Five passes find faults: duplicate names, unknown names, calls out of order, types, and calculations of a remember
//! that depend on more than its keys. `specs/ProgramFaults.antt` lists all faults of a program, each with its pass and
//! its offset. `check` is Ok exactly if that list is empty. Else it reports the least offset of the first pass that
//! finds a fault.
#![tactic(auto)]

mod chains;
mod checks;
mod duplicates;
mod environment;
mod expression;
mod faults;
mod functions;
mod laws;
mod named_parts;
mod operands;
mod statement;

pub use checks::{CheckStop, Checked, check};
pub use faults::{CheckKind, ProgramFault};
pub use laws::{answer_is_least, no_answer_no_fault};
