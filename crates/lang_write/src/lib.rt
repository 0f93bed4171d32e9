//! Writes programs and scripts as trees, in the forms of `lang_forms`.
//!
//! `forms_of` returns the trees of a program, and `script_forms_of` those of a script. All trees are at offset 0. A
//! rule of this project: `compose_play check` prints a text in its canonical form. Promises: the trees have the forms
//! of the program and of the script, and are those that they were parsed from, except for offsets.
#![tactic(auto)]

mod laws;
mod write_expressions;
mod write_program;
mod write_script;

pub use laws::{forms_are_those_read, script_follows_program};
pub use write_program::forms_of;
pub use write_script::script_forms_of;
