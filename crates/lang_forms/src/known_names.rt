// The names that a form may use.
ghost use Rattle.std.specs.Prelude.{◌≡◌, map};
ghost use Rattle.lang_ast.specs.SyntaxView.{functions_view};
ghost use Rattle.lang_forms.specs.Names.{number_in, number_of_name};
ghost use Rattle.lang_forms.specs.Forms.{function_name};
ghost use Rattle.lang_forms.specs.Views.{state_names};

use lang_ast::{Function, State};
use lang_limits::MOST_FORMS;
use rt_values::Word;

/// The states of the program, and the functions before the form.
#[derive(Clone, Copy)]
pub struct KnownNames<'a> {
    pub states: &'a [State],
    pub functions: &'a [Function],
}

// Returns the index of the first state with the name, or the number of states if there is none.
fn state_among(states: &[State], name: &Word) -> usize
    ensures { result ≡ number_in name.now (state_names states.now) }
{
    for (i, state) in states.iter().enumerate() {
        if state.name.text.is(name.bytes()) {
            return i;
        }
    }
    states.len()
}

// Returns the index of the first state with the name among as many as a program may have, or their number.
pub fn state_number(states: &[State], name: &Word) -> usize
    ensures { result ≡ number_of_name name.now (state_names states.now) }
{
    state_among(&states[..states.len().min(MOST_FORMS)], name)
}

// Returns the index of the first function with the name, or the number of functions if there is none.
fn function_among(functions: &[Function], name: &Word) -> usize
    ensures { result ≡ number_in name.now (map function_name (functions_view functions.now)) }
{
    for (i, function) in functions.iter().enumerate() {
        if function.name.text.is(name.bytes()) {
            return i;
        }
    }
    functions.len()
}

// Returns the index of the first function with the name among as many as a program may have, or their number.
pub fn function_number(functions: &[Function], name: &Word) -> usize
    ensures { result ≡ number_of_name name.now (map function_name (functions_view functions.now)) }
{
    function_among(&functions[..functions.len().min(MOST_FORMS)], name)
}
