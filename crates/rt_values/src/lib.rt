//! Values of states and expressions, maps from state objects to stamped values, and the trait `View` that a
//! composition reads through.
//!
//! A value is an Int, a Bool, a Text or an Ints. The operators of expressions are total: none fails, whatever the
//! types of its operands. A Text or an Ints that would exceed its limit is cut at the limit.
//!
//! A map has one stamped value for each state object, that is the value with the clock of its last change. It is what
//! a snapshot of `androidx.compose.runtime.snapshots` shows of all state objects at once. The language reads through
//! `View`, so it depends on no particular implementation of snapshots.
//!
//! Promises: contracts see lists and texts as plain lists. Equality and printed forms are those of
//! `specs/Values.antt`, and the operators those of `specs/Operators.antt`. `find_differing` returns exactly the
//! objects whose stamps differ.
#![tactic(auto)]

mod items;
mod list;
mod maps;
mod names;
mod operands;
pub mod operators;
mod steps;
mod text;
mod value;
mod view;
mod word;

pub use items::Items;
pub use list::IntList;
pub use maps::{Map, Objects, StampedValue, find_differing};
pub use names::{Caller, Kind, Name, NoMemory, ObjectNo, WatcherNo};
pub use steps::Steps;
pub use text::Txt;
pub use value::{Ty, Value};
pub use view::View;
pub use word::Word;
