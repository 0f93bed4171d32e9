//! The command line and the command that it asks for.
//!
//! `play` calls this crate before it does anything else. The commands are rules of this project.
//! Promises: `parse_args` returns a command exactly if the arguments are those of that command, as
//! `specs/CommandWords.antt` defines.
#![tactic(auto)]

mod args;
mod command;

pub use args::parse_args;
pub use command::Command;
