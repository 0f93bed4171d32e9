// Scripts, checked against their program.
ghost use Rattle.std.specs.Prelude.{◌≡◌, ◌≢◌, Option, Some, None, IfOk, IfErr, OnOk};
ghost use Rattle.lang_script.specs.Scripts.{actors_of};
ghost use Rattle.lang_script.specs.ScriptFaults.{script_refusal};
ghost use Rattle.lang_script.specs.declared.faults.ScriptStop.TheVariants.{NoMemory as no_memory};

use crate::faults::ScriptStop;
use crate::limits::{
    find_all_wrong_repeats, find_further_actors, find_long_forms, first_actors, oversized_fault,
};
use crate::uses::NameCheck;
use lang_ast::{DoForm, Rest, State};
use lang_checks::Checked;
use rt_values::{NoMemory, Word};
use std::alloc::Global;

/// The steps of actors. A source text without `do` forms has no actor and no steps.
#[derive(Drop)]
pub struct Script {
    /// The names of the actors, by number: in the order in which they come first.
    pub actors: Vec<Word>,
    /// The `do` forms, in source order.
    pub forms: Vec<DoForm>,
}

// Returns the fault of a script that goes first.
fn find_fault(
    alloc: Global,
    actors: &[Word],
    first_oversized: Option<usize>,
    forms: &[DoForm],
    states: &[State],
    threads: bool,
) -> Result<Option<ScriptStop>, NoMemory>
    ensures { actors.now ≡ actors_of forms.now →
        IfOk result (λ o. o ≡ script_refusal threads states.now first_oversized forms.now) }
{
    let least = oversized_fault(first_oversized);
    let least = find_long_forms(forms, least);
    let least = find_further_actors(actors, forms, least);
    let least = find_all_wrong_repeats(forms, least);
    let mut check = NameCheck::new(alloc, states, threads, least);
    check.check_script(alloc, actors, forms)?;
    Ok(check.least)
}

/// Creates the script from the `do` forms that were parsed after a program. `threads`: whether each actor runs on a
/// thread of its own, with snapshot names of its own.
///
/// A rule of this project. Fails with the first fault of the first of these passes that finds any: limits, unknown
/// states and snapshot names, an `add` on a state that is not an Int, and, with threads, names and frames of other
/// actors; or if the process is out of memory.
pub fn script_of(
    alloc: Global,
    rest: Rest,
    program: &Checked,
    threads: bool,
) -> Result<Script, ScriptStop>
    ensures actors { IfOk result (λ s. s.actors.items ≡ actors_of rest.forms.items) }
    ensures forms { IfOk result (λ s. s.forms.items ≡ rest.forms.items) }
    ensures fine { let refusal =
        script_refusal threads program.now.states.items rest.first_oversized rest.forms.items in
        OnOk result (refusal ≡ None) }
    ensures refused { let refusal =
        script_refusal threads program.now.states.items rest.first_oversized rest.forms.items in
        IfErr result (λ stop. stop ≢ no_memory → refusal ≡ Some stop) }
{
    let actors = first_actors(alloc, &rest.forms)?;
    let fault = find_fault(
        alloc,
        &actors,
        rest.first_oversized,
        &rest.forms,
        program.states(),
        threads,
    )?;
    match fault {
        Some(stop) => Err(stop),
        None => Ok(Script {
            actors,
            forms: rest.forms,
        }),
    }
}
