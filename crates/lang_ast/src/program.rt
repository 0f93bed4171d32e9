// Programs and their states.
ghost use Rattle.std.specs.Prelude.{◌≡◌, []};
ghost use Rattle.lang_ast.specs.SyntaxView.{functions_view};
ghost use Rattle.lang_ast.specs.Sizes.{oversized_parts};

use crate::{Function, Ident};
use rt_values::{Ty, Value};
use snap_policy::BuiltIn;

/// A state object that the program declares (`mutableStateOf`), with its type, its policy and its initial value. The
/// states of a program are objects 0, 1, .. in source order.
#[derive(Drop)]
pub struct State {
    pub at: usize,
    pub name: Ident,
    pub ty: Ty,
    pub policy: BuiltIn,
    pub initial: Value,
}

/// The version of the notation that a program is written in.
#[derive(Clone, Copy, Debug, PartialEq, Eq)]
pub enum Version {
    One,
}

/// A program within the limits of size: the offset of its header, its version, its states, and its functions. The first
/// function with the name `root` is the content of the composition (`setContent`). The type keeps that no part is
/// oversized.
#[derive(Drop)]
pub struct Program {
    pub header: usize,
    pub version: Version,
    pub states: Vec<State>,
    pub functions: Vec<Function>,
    ghost small: { oversized_parts states.items (functions_view functions.items) ≡ [] },
}
