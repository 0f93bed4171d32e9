//! A composition with all that it needs, for programs that embed the runtime.
//!
//! `open` parses and checks a program. `Screen` keeps a composition of it, the world of its states and an applier, as
//! `Recomposer` and a `Composition` of Compose do together: states are written by their names, and `frame` brings the
//! applier's tree up to date.
//! Promises: after a good frame the applier's tree is that of composing from scratch in the values of the states, with
//! the numbers of the nodes that were kept. After a refused frame all that there was stays, except after a failed call
//! on the applier. A frame after writes that no composable has read makes no call on the applier.
#![tactic(auto)]

mod framing;
mod named;
mod opening;
mod programs;
mod screen;
mod stops;

pub use opening::open_world;
pub use programs::open;
pub use screen::Screen;
pub use stops::{AppStop, OpenStop, StateStop};
