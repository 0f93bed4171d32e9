// The parts of a script, appended to a list in the order in which they are made.
ghost use Rattle.std.specs.Prelude.{◌≡◌, ◌++◌, ◌∷◌, [], OnOk};
ghost use Rattle.lang_script.specs.Scripts.{repeated_steps, times_of, written_out};
ghost use Rattle.lang_script.specs.StepCalls.{BeginFrame, EndFrame, call_parts, calls_parts, step_parts, steps_parts, script_parts};
ghost use Rattle.play_laws.specs.Woven.{actor_parts};
ghost use Rattle.play_steps.specs.PartLists.{parts_in, parts_of};

use crate::parts::{ActorStep, StepPart};
use lang_ast::{CallForm, DoForm, ScriptForm, StepForm};
use lang_script::index_of;
use rt_values::{Caller, NoMemory, Word};

/// Returns how often the steps of a repeat are made: never if the number is negative. A rule of this project.
pub fn times_of(times: i64) -> u64
    ensures { result ≡ times_of times }
{
    if times < 0 { 0 } else { times as u64 }
}

// Appends the parts of a step without inner steps.
fn add_call<'s>(
    actor: Caller,
    form: &'s CallForm,
    parts: &mut Vec<ActorStep<'s>>,
) -> Result<(), NoMemory>
    ensures { OnOk result (parts_in parts.new.items
        ≡ parts_in parts.old.items ++ parts_of actor (call_parts form.now)) }
{
    let part = match form {
        CallForm::Take {
            name,
            kind,
            parent,
            ..
        } => StepPart::Take {
            name: &name.text,
            kind: *kind,
            parent,
        },
        CallForm::Read {
            snapshot,
            object,
            ..
        } => StepPart::Read {
            snapshot,
            object: *object,
        },
        CallForm::Write {
            snapshot,
            object,
            value,
            ..
        } => StepPart::Write {
            snapshot,
            object: *object,
            value,
        },
        CallForm::Add {
            snapshot,
            object,
            amount,
            ..
        } => {
            parts.push(ActorStep {
                actor,
                part: StepPart::Read {
                    snapshot,
                    object: *object,
                },
            })?;
            StepPart::WriteSum {
                snapshot,
                object: *object,
                amount: *amount,
            }
        }
        CallForm::Apply { snapshot, .. } => StepPart::Apply { snapshot },
        CallForm::Dispose { snapshot, .. } => StepPart::Dispose { snapshot },
    };
    parts.push(ActorStep { actor, part })?;
    Ok(())
}

// Appends the parts of steps without inner steps.
fn add_calls<'s>(
    actor: Caller,
    forms: &'s [CallForm],
    parts: &mut Vec<ActorStep<'s>>,
) -> Result<(), NoMemory>
    ensures { OnOk result (parts_in parts.new.items
        ≡ parts_in parts.old.items ++ parts_of actor (calls_parts forms.now)) }
{
    let mut rest = forms;
    while let Some((form, more)) = rest.split_first() {
        add_call(actor, form, parts)?;
        rest = more;
    }
    Ok(())
}

// Appends the parts of a frame with these inner steps.
fn add_frame<'s>(
    actor: Caller,
    during: &'s [CallForm],
    parts: &mut Vec<ActorStep<'s>>,
) -> Result<(), NoMemory>
    ensures { let frame = BeginFrame ∷ (calls_parts during.now ++ EndFrame ∷ []) in
        OnOk result (parts_in parts.new.items ≡ parts_in parts.old.items ++ parts_of actor frame) }
{
    parts.push(ActorStep {
        actor,
        part: StepPart::BeginFrame,
    })?;
    add_calls(actor, during, parts)?;
    parts.push(ActorStep {
        actor,
        part: StepPart::EndFrame,
    })?;
    Ok(())
}

// Appends the parts of a step.
fn add_step<'s>(
    actor: Caller,
    step: &'s StepForm,
    parts: &mut Vec<ActorStep<'s>>,
) -> Result<(), NoMemory>
    ensures { OnOk result (parts_in parts.new.items
        ≡ parts_in parts.old.items ++ parts_of actor (step_parts step.now)) }
{
    match step {
        StepForm::Call(form) => add_call(actor, form, parts),
        StepForm::Frame { .. } => add_frame(actor, &[], parts),
        StepForm::FrameDuring { during, .. } => add_frame(actor, during.items(), parts),
    }
}

// Appends the parts of steps.
fn add_steps<'s>(
    actor: Caller,
    steps: &'s [StepForm],
    parts: &mut Vec<ActorStep<'s>>,
) -> Result<(), NoMemory>
    ensures { OnOk result (parts_in parts.new.items
        ≡ parts_in parts.old.items ++ parts_of actor (steps_parts steps.now)) }
{
    let mut rest = steps;
    while let Some((step, more)) = rest.split_first() {
        add_step(actor, step, parts)?;
        rest = more;
    }
    Ok(())
}

// Appends the parts of steps that are made so many times.
fn add_repeat<'s>(
    actor: Caller,
    times: u64,
    steps: &'s [StepForm],
    parts: &mut Vec<ActorStep<'s>>,
) -> Result<(), NoMemory>
    ensures { OnOk result (parts_in parts.new.items
        ≡ parts_in parts.old.items ++ parts_of actor (steps_parts (repeated_steps times steps.now))) }
{
    let mut left = times;
    while left > 0 {
        add_steps(actor, steps, parts)?;
        left -= 1;
    }
    Ok(())
}

// Appends the parts of a step that is made once, or of a repeat.
fn add_form<'s>(
    actor: Caller,
    form: &'s ScriptForm,
    parts: &mut Vec<ActorStep<'s>>,
) -> Result<(), NoMemory>
    ensures { OnOk result (parts_in parts.new.items
        ≡ parts_in parts.old.items ++ parts_of actor (steps_parts (written_out (form.now ∷ [])))) }
{
    match form {
        ScriptForm::Once(step) => add_step(actor, step, parts),
        ScriptForm::Repeat { times, steps, .. } => {
            add_repeat(actor, times_of(*times), steps.items(), parts)
        }
    }
}

// Appends the parts of the steps of a `do` form.
fn add_forms<'s>(
    actor: Caller,
    forms: &'s [ScriptForm],
    parts: &mut Vec<ActorStep<'s>>,
) -> Result<(), NoMemory>
    ensures { OnOk result (parts_in parts.new.items
        ≡ parts_in parts.old.items ++ parts_of actor (steps_parts (written_out forms.now))) }
{
    let mut rest = forms;
    while let Some((form, more)) = rest.split_first() {
        add_form(actor, form, parts)?;
        rest = more;
    }
    Ok(())
}

/// Appends the parts of all steps of a script, in the order of the text. `actors` are the actors' names
/// by number. Fails only if the process is out of memory. A rule of this project.
pub fn add_script<'s>(
    actors: &[Word],
    forms: &'s [DoForm],
    parts: &mut Vec<ActorStep<'s>>,
) -> Result<(), NoMemory>
    ensures { OnOk result (parts_in parts.new.items ≡ parts_in parts.old.items ++ script_parts actors.now forms.now) }
{
    let mut rest = forms;
    while let Some((form, more)) = rest.split_first() {
        let actor = index_of(form.actor.text.bytes(), actors) as u64;
        add_forms(actor, form.steps.items(), parts)?;
        rest = more;
    }
    Ok(())
}

// Appends the parts of a `do` form, if it is of this actor.
fn add_form_of<'s>(
    actor: Caller,
    actors: &[Word],
    form: &'s DoForm,
    parts: &mut Vec<ActorStep<'s>>,
) -> Result<(), NoMemory>
    ensures { OnOk result (parts_in parts.new.items
        ≡ parts_in parts.old.items ++ actor_parts actor actors.now (form.now ∷ [])) }
{
    if index_of(form.actor.text.bytes(), actors) as u64 == actor {
        return add_forms(actor, form.steps.items(), parts);
    }
    Ok(())
}

/// Appends the parts of the steps of one actor, in the order of the text. `actors` are the actors' names
/// by number. Fails only if the process is out of memory. A rule of this project.
pub fn add_actor<'s>(
    actor: Caller,
    actors: &[Word],
    forms: &'s [DoForm],
    parts: &mut Vec<ActorStep<'s>>,
) -> Result<(), NoMemory>
    ensures { OnOk result (parts_in parts.new.items
        ≡ parts_in parts.old.items ++ actor_parts actor actors.now forms.now) }
{
    let mut rest = forms;
    while let Some((form, more)) = rest.split_first() {
        add_form_of(actor, actors, form, parts)?;
        rest = more;
    }
    Ok(())
}
