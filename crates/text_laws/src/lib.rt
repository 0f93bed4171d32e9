//! Laws of texts for those who write programs and scripts.
//!
//! Each law is the contract of a function with an empty body, and no other crate depends on this one.
//! Promises: what `run` writes is one of the outputs of `threads` (`specs/WovenRuns.antt`). The canonical text, which
//! `check` writes, is accepted again and is its own canonical text, and offsets change no output
//! (`specs/CanonicalTexts.antt`). `specs/OtherOffsets.antt` defines what a program at other offsets is.
#![tactic(auto)]

mod laws;

pub use laws::{
    check_is_idempotent, offsets_change_no_output, run_accepts_texts_of_threads, run_is_woven,
    run_writes_an_output_of_threads,
};
