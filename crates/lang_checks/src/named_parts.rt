// The states and functions that names refer to.
ghost use Rattle.std.specs.Prelude.{◌≡◌, ℕ, ◌<◌, length, option_map};
ghost use Rattle.std.specs.Prelude.{slice_get};
ghost use Rattle.lang_ast.specs.SyntaxView.{function_view, functions_view};
ghost use Rattle.lang_checks.specs.Scopes.{state_type, source_type, first_named, named_function};

use lang_ast::{Function, Ident, Source, State};
use rt_values::{ObjectNo, Ty};

// Returns the type of the state with this number if it has this name.
fn state_type(states: &[State], name: &Ident, number: ObjectNo) -> Option<Ty>
    ensures { result ≡ state_type states.now name.now.text number }
{
    match states.get(number as usize) {
        None => None,
        Some(state) => {
            if state.name.text.is(name.text.bytes()) {
                Some(state.ty)
            } else {
                None
            }
        }
    }
}

/// Returns the type of what `name` stands for in a `get`, if it has this name.
pub fn source_type(states: &[State], name: &Ident, source: Source) -> Option<Ty>
    ensures { result ≡ source_type states.now name.now.text source }
{
    match source {
        Source::State(number) => state_type(states, name, number),
    }
}

// Returns the first function with a name, and its number.
fn first_named<'a>(functions: &'a [Function], name: &Ident) -> Option<(usize, &'a Function)>
    ensures { option_map (λ p. (p.0, function_view p.1.now)) result
        ≡ first_named (functions_view functions.now) name.now.text 0 }
{
    for (i, function) in functions.iter().enumerate() {
        if function.name.text.is(name.text.bytes()) {
            return Some((i, function));
        }
    }
    None
}

/// Returns the function that a call refers to, with its number: the one with the call's number if it has the name, and
/// else the first that has it.
#[tactic(auto, using(crate::proofs::Numbered::function_at))]
pub fn named_function<'a>(
    functions: &'a [Function],
    name: &Ident,
    number: usize,
) -> Option<(usize, &'a Function)>
    ensures { option_map (λ p. (p.0, function_view p.1.now)) result
        ≡ named_function (functions_view functions.now) name.now.text number }
{
    match functions.get(number) {
        None => first_named(functions, name),
        Some(function) => {
            if function.name.text.is(name.text.bytes()) {
                Some((number, function))
            } else {
                first_named(functions, name)
            }
        }
    }
}
