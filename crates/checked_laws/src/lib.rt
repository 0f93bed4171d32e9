//! Laws of checked programs: what a program that `lang_checks` accepts promises to composing.
//!
//! Each law is the contract of a function without a body. `lang_checks` keeps that a program has no faults and is
//! numbered in the order of its text. From both it follows that calls go to earlier functions, that a calculation
//! depends only on its site and its keys, and that only states of the program are read.
#![tactic(auto)]

mod laws;

pub use laws::{calculations_are_by_site, program_is_ordered, reads_are_of_states};
