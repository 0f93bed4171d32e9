// Reads and writes of states by their names.
ghost use Rattle.std.specs.Prelude.{◌≡◌, ◌<◌, Some, None, length};
ghost use Rattle.lang_script.specs.Scripts.{index_of};
ghost use Rattle.compose_app.specs.Programs.{state_names};
ghost use Rattle.compose_app.specs.StateCalls.{state_number, AnswersFor, read_answer, write_answer};

use crate::stops::StateStop;
use lang_ast::State;
use lang_checks::Checked;
use rt_values::{Name, ObjectNo, Value};
use snap_api::{Request, Versions};
use snap_policy::BuiltIn;
use std::alloc::Global;

// Returns the number of the first state with this name, or the number of states if there is none.
fn find_state(states: &[State], name: &[u8]) -> ObjectNo
    ensures { result ≡ index_of name.now (state_names states.now) }
{
    let mut number = 0;
    let mut rest = states;
    while let Some((state, more)) = rest.split_first() {
        if state.name.text.is(name) {
            return number;
        }
        number += 1;
        rest = more;
    }
    number
}

// Returns the number of the state with this name, if there is one.
fn number_of(states: &[State], name: &str) -> Option<ObjectNo>
    ensures { result ≡ state_number name.now (state_names states.now) }
{
    let number = find_state(states, name.as_bytes());
    if (number as usize) < states.len() {
        return Some(number);
    }
    None
}

/// Reads the state `name` in a snapshot.
pub fn read_state<V: Versions<P = BuiltIn>>(
    alloc: Global,
    program: &Checked,
    world: &mut V,
    snapshot: Name,
    name: &str,
) -> Result<Value, StateStop>
    ensures { AnswersFor (V.stands world.old) (V.stands world.new) (λ x. Request.Read snapshot x)
        (state_number name.now (state_names program.now.states.items)) (read_answer result) }
{
    let Some(object) = number_of(program.states(), name) else {
        return Err(StateStop::NoState);
    };
    match world.read(alloc, 0, snapshot, object) {
        Ok(value) => Ok(value),
        Err(refusal) => Err(StateStop::Refused(refusal)),
    }
}

/// Writes the state `name` in a snapshot, and returns whether that changed it.
pub fn write_state<V: Versions<P = BuiltIn>>(
    alloc: Global,
    program: &Checked,
    world: &mut V,
    snapshot: Name,
    name: &str,
    value: Value,
) -> Result<bool, StateStop>
    ensures { AnswersFor (V.stands world.old) (V.stands world.new) (λ x. Request.Write snapshot x value)
        (state_number name.now (state_names program.now.states.items)) (write_answer result) }
{
    let Some(object) = number_of(program.states(), name) else {
        return Err(StateStop::NoState);
    };
    match world.write(alloc, 0, snapshot, object, value) {
        Ok(changed) => Ok(changed),
        Err(refusal) => Err(StateStop::Refused(refusal)),
    }
}
