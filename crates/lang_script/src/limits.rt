// Limits of scripts: the steps, the actors, and the numbers of repeats.
ghost use Rattle.std.specs.Prelude.{◌≡◌, ◌^◌, ◌-◌, ◌≤◌, ℕ, Bool, List, ◌∷◌, min, [], None, IfOk, OnOk};
ghost use Rattle.lang_script.specs.Scripts.{step_count, steps_count, forms_count, times_of, index_of, is_among, with_actor, actors_from, actors_of, most_actors};
ghost use Rattle.lang_script.specs.ScriptFaults.{oversized_faults, most_steps, long_forms, further_actors, may_repeat, wrong_repeats, forms_wrong_repeats, first_of_faults};

use crate::faults::{ScriptStop, first_fault_if};
use lang_ast::{DoForm, ScriptForm, StepForm};
use rt_values::{NoMemory, Word};
use std::alloc::Global;

// The greatest number of steps of a script.
const MOST_STEPS: u64 = 65536;

// The most actors of a script.
const MOST_ACTORS: usize = 8;

// Returns the fault of the first token that exceeds its limit.
#[tactic(auto, unfolding(crate::specs::ScriptFaults::first_fault))]
pub fn oversized_fault(first_oversized: Option<usize>) -> Option<ScriptStop>
    ensures { result ≡ first_of_faults None (oversized_faults first_oversized) }
{
    match first_oversized {
        None => None,
        Some(at) => Some(ScriptStop::Limit { at }),
    }
}

// Returns the number of steps that a step counts for.
fn step_count(step: &StepForm) -> u64
    ensures { result ≡ step_count step.now }
{
    match step {
        StepForm::Call(_) => 1,
        StepForm::Frame { .. } => 1,
        StepForm::FrameDuring { during, .. } => 1 + during.items().len() as u64,
    }
}

// Returns the number of steps, or the greatest number of 64 bits if there are more.
fn steps_count(steps: &[StepForm]) -> u64
    ensures { result ≡ min (steps_count steps.now) (2 ^ 64 - 1) }
{
    let mut count: u64 = 0;
    let mut rest = steps;
    while let Some((step, more)) = rest.split_first() {
        count = count.saturating_add(step_count(step));
        rest = more;
    }
    count
}

// Returns how often the steps of a repeat are made.
fn times_of(times: i64) -> u64
    ensures { result ≡ times_of times }
{
    if times < 0 { 0 } else { times as u64 }
}

// Returns the number of steps of one form, or the greatest number of 64 bits if there are more.
fn form_count(form: &ScriptForm) -> u64
    ensures { result ≡ min (forms_count (form.now ∷ [])) (2 ^ 64 - 1) }
{
    match form {
        ScriptForm::Once(step) => step_count(step),
        ScriptForm::Repeat { times, steps, .. } => {
            times_of(*times).saturating_mul(steps_count(steps.items()))
        }
    }
}

// Returns the number of steps with repeats written out, or the greatest number of 64 bits if there are more.
fn forms_count(forms: &[ScriptForm]) -> u64
    ensures { result ≡ min (forms_count forms.now) (2 ^ 64 - 1) }
{
    let mut count: u64 = 0;
    let mut rest = forms;
    while let Some((form, more)) = rest.split_first() {
        count = count.saturating_add(form_count(form));
        rest = more;
    }
    count
}

// Updates `least` with the faults of the forms that contain a step beyond the limit.
pub fn find_long_forms(forms: &[DoForm], least: Option<ScriptStop>) -> Option<ScriptStop>
    ensures { result ≡ first_of_faults least (long_forms most_steps forms.now) }
{
    let mut least = least;
    let mut left = MOST_STEPS;
    let mut rest = forms;
    while let Some((form, more)) = rest.split_first() {
        let count = forms_count(form.steps.items());
        least = first_fault_if(least, left < count, ScriptStop::Limit { at: form.at });
        left = left.saturating_sub(count);
        rest = more;
    }
    least
}

// Returns the index of `name`, or the number of names if it is not among them.
pub fn index_of(name: &[u8], names: &[Word]) -> usize
    ensures { result ≡ index_of name.now names.now }
{
    let mut index = 0;
    let mut rest = names;
    while let Some((other, more)) = rest.split_first() {
        if other.is(name) {
            return index;
        }
        index += 1;
        rest = more;
    }
    index
}

// Adds an actor, unless it is among the actors or there are eight already.
fn add_actor(actors: &mut Vec<Word>, name: &Word) -> Result<(), NoMemory>
    ensures { OnOk result (actors.new.items ≡ with_actor actors.old.items name.now) }
{
    if index_of(name.bytes(), actors) < actors.len() {
        return Ok(());
    }
    if actors.len() < MOST_ACTORS {
        actors.push(name.copy()?)?;
    }
    Ok(())
}

// Returns the names of the first eight actors.
pub fn first_actors(alloc: Global, forms: &[DoForm]) -> Result<Vec<Word>, NoMemory>
    ensures { IfOk result (λ names. names.items ≡ actors_of forms.now) }
{
    let mut actors = Vec::new(alloc);
    let mut rest = forms;
    while let Some((form, more)) = rest.split_first() {
        add_actor(&mut actors, &form.actor.text)?;
        rest = more;
    }
    Ok(actors)
}

// Updates `least` with the faults of the forms of further actors.
#[tactic(auto, using(crate::proofs::FirstFault::first_append))]
pub fn find_further_actors(
    actors: &[Word],
    forms: &[DoForm],
    least: Option<ScriptStop>,
) -> Option<ScriptStop>
    ensures { result ≡ first_of_faults least (further_actors actors.now forms.now) }
{
    let mut least = least;
    let mut rest = forms;
    while let Some((form, more)) = rest.split_first() {
        let is_further = index_of(form.actor.text.bytes(), actors) >= actors.len();
        least = first_fault_if(least, is_further, ScriptStop::Limit { at: form.at });
        rest = more;
    }
    least
}

// Whether a repeat may have this number.
fn may_repeat(times: i64) -> bool
    ensures { result ≡ may_repeat times }
{
    let times = times_of(times);
    1 <= times && times <= 1000
}

// Updates `least` with the faults of repeats of one actor.
#[tactic(auto, using(crate::proofs::FirstFault::first_append))]
fn find_wrong_repeats(forms: &[ScriptForm], least: Option<ScriptStop>) -> Option<ScriptStop>
    ensures { result ≡ first_of_faults least (wrong_repeats forms.now) }
{
    let mut least = least;
    let mut rest = forms;
    while let Some((form, more)) = rest.split_first() {
        least = wrong_repeat(form, least);
        rest = more;
    }
    least
}

// Updates `least` with the fault of one repeat.
#[tactic(auto, using(crate::proofs::FirstFault::first_append))]
fn wrong_repeat(form: &ScriptForm, least: Option<ScriptStop>) -> Option<ScriptStop>
    ensures { result ≡ first_of_faults least (wrong_repeats (form.now ∷ [])) }
{
    match form {
        ScriptForm::Once(_) => least,
        ScriptForm::Repeat { at, times, .. } => {
            first_fault_if(least, !may_repeat(*times), ScriptStop::Limit { at: *at })
        }
    }
}

// Updates `least` with the faults of all repeats.
#[tactic(auto, using(crate::proofs::FirstFault::first_append))]
pub fn find_all_wrong_repeats(forms: &[DoForm], least: Option<ScriptStop>) -> Option<ScriptStop>
    ensures { result ≡ first_of_faults least (forms_wrong_repeats forms.now) }
{
    let mut least = least;
    let mut rest = forms;
    while let Some((form, more)) = rest.split_first() {
        least = find_wrong_repeats(form.steps.items(), least);
        rest = more;
    }
    least
}
