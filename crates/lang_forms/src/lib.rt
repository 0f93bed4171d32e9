//! The forms of programs and scripts: parses trees as a program with its script.
//!
//! `specs/Forms.antt` lists, form by form, which trees a program and a script have. The notation is this project's own.
//! It takes the place of Kotlin's composable functions and of the test code that drives a composition. `program`
//! returns a program and a script if the trees, clamped to the limits of `lang_limits`, have their forms and no part of
//! the program exceeds a limit. It refuses all other trees at the first top form that is wrong, or else at the first
//! part that exceeds a limit. Trees have the forms of at most one text.
#![tactic(auto)]

mod cursor;
mod expressions;
mod keywords;
mod known_names;
mod laws;
mod literals;
mod parse_program;
mod partial_source;
mod plain_steps;
mod script;
mod statement_heads;
mod statements;
mod stop;
mod top_forms;

pub use laws::{forms_of_one_text, limits_keep_the_forms};
pub use parse_program::program;
pub use stop::FormStop;
