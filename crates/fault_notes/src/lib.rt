//! Notes on standard error: where an input goes wrong, and what is expected there.
//!
//! `play` reports a fault of an input as one line on standard output, with its kind and its offset. For the same bytes
//! `find_note` returns a note with the line and the column, the line of the source, a caret and one sentence. A fault of
//! the forms is reported at its top form, and its note points at the innermost part that explains it. `usage_note`
//! says which argument is wrong and what the commands do. `Keeping` is a source that keeps the bytes that `play` reads.
//! `main` calls all of them after `play` has ended. Compose has no counterpart: the Kotlin compiler reports such mistakes.
//!
//! Promises: a note points at an offset inside the form at which the fault is reported, or at the fault's own offset for
//! the kind `text`, and its line and column are those of that offset. `Keeping` returns the bytes that were read from it
//! since it was made. No contract says what a sentence means.
#![tactic(auto)]

mod contents;
mod excerpt;
mod expected;
mod forms;
mod hint;
mod keeping;
mod mismatch;
mod names;
mod note;
mod position;
mod scanner;
mod text_hint;
mod types;
mod usage;
mod walk;
mod words;

pub use excerpt::Excerpt;
pub use keeping::Keeping;
pub use note::{Note, find_note};
pub use position::Position;
pub use usage::usage_note;
