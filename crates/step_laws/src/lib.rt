//! Laws of the groups of the last frame that a new frame opens at most.
//!
//! Compose goes from an invalid restart scope to the next one and skips the groups between them (`skipToGroupEnd`).
//! Opening a group means to read it, and counts as one step. The bound of a frame is a sum over calls: for each call that
//! runs, its own groups in the old and in the new forest, and for each owed call the groups that are passed on the way
//! to it. The laws state that a composer which matches siblings in order, and skips level by level, keeps the bound. A
//! rule of this project.
//! Promises: each law is the contract of a function without a body. `specs/Costs.antt` defines the bound by paths,
//! `specs/FrameCosts.antt` counts what composing opens, group by group, by the old and the new forest, and
//! `specs/Sums.antt` has the sums that join both. No clause of the composer cites them.
#![tactic(auto)]

mod laws;

pub use laws::{
    bound_is_of_reads, cost_goes_in_order, costs_are_bounded, first_frame_is_bounded,
    matches_are_once, path_sum_is_sibling_sum, quiet_frames_are_free, skipping_cost_is_kept_cost,
    skipping_is_bounded, walks_bound_visits,
};
