//! Laws of snapshots for those who watch a world and those who apply snapshots.
//!
//! Each law is the contract of a function with an empty body. Only `frame_laws` depends on this crate, for its lemmas.
//! Promises: a snapshot that is taken for a watcher shows the values of global at the take, and no change is hidden from a
//! watcher (`specs/Watching.antt`). An apply that meets no other write is one step of a serial order
//! (`specs/CleanApplies.antt`), and a history of such applies is serial if each snapshot reads only what it changed
//! (`specs/SerialHistories.antt`). A value that a snapshot only reads is not protected (`specs/WriteSkew.antt`).
#![tactic(auto)]

mod laws;

pub use laws::{
    clean_apply_is_serial, clean_histories_are_woven, clean_history_is_serial,
    frame_shows_its_take, lists_add_up, watcher_misses_nothing, write_skew_is_allowed,
};
