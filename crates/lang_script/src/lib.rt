//! Scripts, which say what actors do to a world and which frames they ask for.
//!
//! `specs/ScriptFaults.antt` defines the faults of scripts. `specs/StepCalls.antt` defines the calls that the steps of a
//! script make, given the replies to earlier calls, and the history of a run. Scripts are rules of this project; they
//! replace test code over `Snapshot` and `Recomposer`.
//! Promises: `script_of` accepts exactly the scripts without a fault. The history of a run is the only one that has the
//! plain world's replies and the calls of the script's steps.
#![tactic(auto)]

mod faults;
mod laws;
mod limits;
mod names;
mod scripts;
mod uses;

pub use faults::ScriptStop;
pub use laws::sequential_is_spelled;
pub use limits::index_of;
pub use names::{NEVER_TAKEN, NameTable};
pub use scripts::{Script, script_of};
