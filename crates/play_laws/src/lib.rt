//! Laws of histories that several actors make on one shared world, each with notes of its own.
//!
//! A history is woven if each actor's calls in it are those that its steps make, in order, and no one else calls. The
//! laws are the ground of a run in which each actor has a thread of its own: such a run prints the lines of a history
//! that is legal and woven. Compose has no scripts of calls; the definitions are rules of this project.
//! Promises: each law is the contract of a function without a body. `specs/PrintedHistory.antt` defines which calls of
//! several callers are printed, `specs/Woven.antt` which histories are woven, and `specs/FirstParts.antt` how far an
//! actor has come. `specs/Laws.antt` has the laws.
#![tactic(auto)]

mod laws;
mod spelling;

pub use laws::{
    actor_names_are_distinct, frames_are_in_turn, lines_tell_the_history, one_actor_is_sequential,
    part_is_completed, printed_by_caller, printed_is_legal, printed_is_woven, text_goes_on,
};
pub use spelling::{calls_are_printed, parts_are_of_script, steps_are_spelled};
