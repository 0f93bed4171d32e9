//! What composing a program means: the forest that is composed from scratch, and what a frame leaves and reports.
//!
//! `specs/Composing.antt` says which reads and groups composing from scratch makes, in order. `specs/Frame.antt` says
//! what one frame leaves and reports. Both are computed on small programs in `specs/SmallPrograms.antt`.
//! Promise: on those programs the definitions give the groups, reads and reports that `specs/SmallPrograms.antt` states.
#![tactic(auto)]

mod examples;

pub use examples::the_examples_hold;
