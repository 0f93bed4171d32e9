//! Parses source text into trees and prints trees as text.
//!
//! A tree is an atom, a string or a list, and keeps its offset in the source text. The layers above
//! parse programs and scripts from trees and report faults at their offsets. The notation belongs
//! to this project: Compose has none, since its programs are written in Kotlin. `read` returns the
//! one forest that the bytes spell by the grammar (`specs/Grammar.antt`) if its lists nest at most
//! 100 deep. It refuses all other bytes at the offset where they go wrong (`specs/TextFaults.antt`).
//! `print` writes trees (`specs/Layout.antt`) so that reading returns them, except for their
//! offsets.
#![tactic(auto)]

mod laws;
mod lexer;
mod printer;
mod reader;
mod same;
mod stop;
mod tree;

pub use laws::{spelled_can_be_spelled, spells_one_forest};
pub use printer::print;
pub use reader::read;
pub use same::same_trees;
pub use stop::TextStop;
pub use tree::Tree;
