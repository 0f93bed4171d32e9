//! The steps of a script as a list of parts, each of which makes at most one call, and the memory from which an actor
//! makes its calls.
//!
//! A driver appends the parts of all steps of a script, or of one actor, to a list, with repeats written out, and makes
//! one part after the other. `ActorMemory` has the request of a part and notes the reply. Compose has no scripts; they
//! are rules of this project and replace test code over `Snapshot` and `Recomposer`.
//! Promises: `add_script` and `add_actor` append the parts of the definitions, `script_parts` and `actor_parts`. The
//! request of a part is the one that the definition `request_of` gives after the replies that were noted.
#![tactic(auto)]

mod memory;
mod part_lists;
mod parts;

pub use memory::{ActorMemory, WATCHER, number_taken};
pub use part_lists::{add_actor, add_script, times_of};
pub use parts::{ActorStep, StepPart};
