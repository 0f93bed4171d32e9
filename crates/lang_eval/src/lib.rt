//! Evaluation of expressions, which read state objects through a `View`.
//!
//! A call evaluates its arguments, a node its attributes and a cell its keys, as the body of a composable does in Compose
//! between `startRestartGroup` and `endRestartGroup`. `Env` has the variables in scope.
//! Promises: values are those of the definitions in `lang_ast`, in the map that the view shows. The view is asked for
//! exactly the objects that the definitions read, in order.
#![tactic(auto)]

mod applying;
mod arguments;
mod evaluation;
mod scope;

pub use arguments::{bind, evaluate_all, evaluate_attributes, evaluate_keys};
pub use evaluation::{eval, eval_noting};
pub use scope::Env;
