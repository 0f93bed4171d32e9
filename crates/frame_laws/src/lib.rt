//! Laws of frames for those who build a UI on compositions.
//!
//! Each law is the contract of a function with an empty body, and no other crate depends on this one.
//! Promises: a second frame of one map does nothing, and neither does a change that no group has read
//! (`specs/IdleFrames.antt`). A frame that is refused for its size leaves no trace (`specs/RefusedFrames.antt`). The number
//! of a node follows its path (`specs/FollowedPaths.antt`).
#![tactic(auto)]

mod laws;

pub use laws::{
    numbers_follow_paths, refused_leaves_no_trace, refused_then_good_is_one_frame,
    second_frame_is_idle, second_frame_makes_no_call, unread_changes_do_nothing,
};
