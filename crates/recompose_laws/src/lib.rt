//! Laws of the incremental step: one walk over the groups of the last frame gives the groups of the new frame,
//! and does exactly the work that the new frame owes.
//!
//! Compose divides this between `Recomposer` and `Composer`: restart scopes whose reads changed run again
//! (`recompose`), and everything else is skipped (`skipToGroupEnd`). A skipped call still runs the owed calls
//! inside it. The composer of this project follows these definitions.
//! Promises: each law is the contract of a function without a body. `specs/Refreshing.antt` defines the groups
//! after the walk, `specs/Work.antt` the work that a frame owes, by siblings, and `specs/Walking.antt` the work
//! of the walk. `specs/Numbering.antt` adds node numbers, `specs/Distinct.antt` states that they are unique,
//! and `specs/Idle.antt` describes a frame that owes nothing. `specs/MadeCalls.antt` and
//! `specs/CalculatedCells.antt` define what is known of the calls and the cells that a frame keeps.
//! `specs/Skipping.antt` states that a call with equal arguments and equal values of its own reads need not run again.
#![tactic(auto)]

mod idle;
mod kept_groups;
mod laws;
mod skipping;

pub use idle::{
    kept_trail_is_numbered, nothing_owed_nothing_done, quiet_part_is_kept, skipped_call_is_renewed,
};
pub use kept_groups::{
    kept_calls_are_made, kept_cells_are_calculated, pure_calculations_are_by_site,
};
pub use laws::{
    composing_again_is_the_frame, kept_trail_is_the_forest, nodes_are_at_node_sites,
    numbers_stay_distinct, owed_is_what_changed, path_numbers_are_sibling_numbers,
    path_work_is_sibling_work, refreshing_is_scratch, walk_does_the_frame, work_goes_in_order,
};
pub use skipping::{
    calls_reach_earlier_functions, cells_may_be_kept, evaluation_agrees, own_parts_agree,
    skipping_is_right,
};
