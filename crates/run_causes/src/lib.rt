//! Why each call of a frame ran, and which remembered values were calculated.
//!
//! `find_marks` goes through the new groups of a frame in preorder, next to the groups of the last good frame, and finds
//! the old group of each by its path, as composing does (`Composer`, `RecomposeScope`). It decides nothing about a
//! composition: a program that shows causes calls it after the frame.
//! Promises: the marks are those of the definition `marks` (`specs/Causes.antt`), so as many calls have a cause other
//! than `Skipped` as the report counts as run.
#![tactic(auto)]

mod causes;
mod finding;
mod laws;
mod olds;

pub use causes::{Cause, Mark};
pub use finding::find_marks;
pub use laws::{
    causes_tell_the_running, marks_have_the_causes, marks_tell_the_calculated,
    ran_are_those_with_a_cause, report_counts_causes,
};
pub use olds::find_olds;
