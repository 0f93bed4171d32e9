// Writes a script as trees.
ghost use Rattle.std.specs.Prelude.{◌≡◌, ℕ, codes, IfOk, OnOk, None, Some};
ghost use Rattle.sexp_text.specs.Forest.{Forest, atom, list, empty, joined_trees};
ghost use Rattle.sexp_text.specs.View.{forest_view};
ghost use Rattle.lang_forms.specs.Sketch.{Sketch, group, unplaced_sketch};
ghost use Rattle.lang_forms.specs.Forms.{snapshot_forms, call_forms, calls_forms, step_forms, steps_forms, actor_step_forms, actor_forms, do_forms, scripts_forms};
ghost use Rattle.lang_write.specs.Appends.{AppendsForms, state_sketch, take_sketch, read_sketch, write_sketch, add_sketch, only_sketch, during_sketch, repeat_sketch};

use crate::write_expressions::{list_with_word, put_list, put_literal, put_number, put_word};
use lang_ast::{CallForm, DoForm, Ident, ScriptForm, SnapshotRef, StepForm};
use rt_values::{Kind, NoMemory, Value};
use sexp_text::Tree;
use std::alloc::Global;

// Appends `global` or the name of a snapshot.
#[tactic(auto, using(crate::proofs::Written::written))]
fn put_snapshot(alloc: Global, snapshot: &SnapshotRef, out: &mut Vec<Tree>) -> Result<(), NoMemory>
    ensures { OnOk result (AppendsForms out.old.items out.new.items
        (λ g. snapshot_forms snapshot.now g)) }
{
    match snapshot {
        SnapshotRef::Global => Ok(put_word(alloc, b"global", out)?),
        SnapshotRef::Named(name) => Ok(put_word(alloc, name.text.bytes(), out)?),
    }
}

// Appends a snapshot and the name of a state.
#[tactic(auto, using(crate::proofs::Written::written))]
fn put_state_in_snapshot(
    alloc: Global,
    snapshot: &SnapshotRef,
    state: &Ident,
    out: &mut Vec<Tree>,
) -> Result<(), NoMemory>
    ensures { OnOk result (AppendsForms out.old.items out.new.items
        (state_sketch snapshot.now state.now)) }
{
    put_snapshot(alloc, snapshot, out)?;
    put_word(alloc, state.text.bytes(), out)
}

// Appends the form of a take.
#[tactic(auto, using(crate::proofs::Written::written))]
fn put_take(
    alloc: Global,
    name: &Ident,
    kind: Kind,
    parent: &SnapshotRef,
    out: &mut Vec<Tree>,
) -> Result<(), NoMemory>
    ensures { OnOk result (AppendsForms out.old.items out.new.items
        (take_sketch name.now kind parent.now)) }
{
    let mut inner = list_with_word(alloc, b"take")?;
    put_word(alloc, name.text.bytes(), &mut inner)?;
    put_word(alloc, kind.word(), &mut inner)?;
    put_snapshot(alloc, parent, &mut inner)?;
    Ok(put_list(inner, out)?)
}

// Appends the form of a read.
#[tactic(auto, using(crate::proofs::Written::written))]
fn put_read(
    alloc: Global,
    snapshot: &SnapshotRef,
    state: &Ident,
    out: &mut Vec<Tree>,
) -> Result<(), NoMemory>
    ensures { OnOk result (AppendsForms out.old.items out.new.items
        (read_sketch snapshot.now state.now)) }
{
    let mut inner = list_with_word(alloc, b"read")?;
    put_state_in_snapshot(alloc, snapshot, state, &mut inner)?;
    Ok(put_list(inner, out)?)
}

// Appends the form of a write.
#[tactic(auto, using(crate::proofs::Written::written))]
fn put_write(
    alloc: Global,
    snapshot: &SnapshotRef,
    state: &Ident,
    value: &Value,
    out: &mut Vec<Tree>,
) -> Result<(), NoMemory>
    ensures { OnOk result (AppendsForms out.old.items out.new.items
        (write_sketch snapshot.now state.now value.now)) }
{
    let mut inner = list_with_word(alloc, b"write")?;
    put_state_in_snapshot(alloc, snapshot, state, &mut inner)?;
    put_literal(alloc, value, &mut inner)?;
    Ok(put_list(inner, out)?)
}

// Appends the form of an add.
#[tactic(auto, using(crate::proofs::Written::written))]
fn put_add(
    alloc: Global,
    snapshot: &SnapshotRef,
    state: &Ident,
    amount: i64,
    out: &mut Vec<Tree>,
) -> Result<(), NoMemory>
    ensures { OnOk result (AppendsForms out.old.items out.new.items
        (add_sketch snapshot.now state.now amount)) }
{
    let mut inner = list_with_word(alloc, b"add")?;
    put_state_in_snapshot(alloc, snapshot, state, &mut inner)?;
    put_number(alloc, amount, &mut inner)?;
    Ok(put_list(inner, out)?)
}

// Appends the form of an apply or a dispose: `word` and a snapshot.
#[tactic(auto, using(crate::proofs::Written::written))]
fn put_only_snapshot(
    alloc: Global,
    word: &[u8],
    snapshot: &SnapshotRef,
    out: &mut Vec<Tree>,
) -> Result<(), NoMemory>
    ensures { OnOk result (AppendsForms out.old.items out.new.items
        (only_sketch word.now snapshot.now)) }
{
    let mut inner = list_with_word(alloc, word)?;
    put_snapshot(alloc, snapshot, &mut inner)?;
    Ok(put_list(inner, out)?)
}

// Appends the form of a step without inner steps.
#[tactic(auto, using(crate::proofs::Written::written))]
fn put_call(alloc: Global, call: &CallForm, out: &mut Vec<Tree>) -> Result<(), NoMemory>
    ensures { OnOk result (AppendsForms out.old.items out.new.items
        (λ g. call_forms call.now g)) }
{
    match call {
        CallForm::Take {
            name,
            kind,
            parent,
            ..
        } => Ok(put_take(alloc, name, *kind, parent, out)?),
        CallForm::Read {
            snapshot,
            state,
            ..
        } => Ok(put_read(alloc, snapshot, state, out)?),
        CallForm::Write {
            snapshot,
            state,
            value,
            ..
        } => Ok(put_write(alloc, snapshot, state, value, out)?),
        CallForm::Add {
            snapshot,
            state,
            amount,
            ..
        } => Ok(put_add(alloc, snapshot, state, *amount, out)?),
        CallForm::Apply { snapshot, .. } => Ok(put_only_snapshot(alloc, b"apply", snapshot, out)?),
        CallForm::Dispose { snapshot, .. } => {
            Ok(put_only_snapshot(alloc, b"dispose", snapshot, out)?)
        }
    }
}

// Appends the forms of steps without inner steps.
#[tactic(auto, using(crate::proofs::Written::written))]
fn put_calls(alloc: Global, calls: &[CallForm], out: &mut Vec<Tree>) -> Result<(), NoMemory>
    ensures { OnOk result (forest_view out.new.items
        ≡ joined_trees (forest_view out.old.items) (unplaced_sketch (calls_forms calls.now))) }
{
    let mut rest = calls;
    while let Some((call, more)) = rest.split_first() {
        put_call(alloc, call, out)?;
        rest = more;
    }
    Ok(())
}

// Appends the form of a frame with steps during it.
#[tactic(auto, using(crate::proofs::Written::written))]
fn put_during(alloc: Global, during: &[CallForm], out: &mut Vec<Tree>) -> Result<(), NoMemory>
    ensures { OnOk result (AppendsForms out.old.items out.new.items (during_sketch during.now)) }
{
    let mut steps = list_with_word(alloc, b"during")?;
    put_calls(alloc, during, &mut steps)?;
    let mut inner = list_with_word(alloc, b"frame")?;
    put_list(steps, &mut inner)?;
    Ok(put_list(inner, out)?)
}

// Appends the form of a step of a repeat.
#[tactic(auto, using(crate::proofs::Written::written))]
fn put_step(alloc: Global, step: &StepForm, out: &mut Vec<Tree>) -> Result<(), NoMemory>
    ensures { OnOk result (AppendsForms out.old.items out.new.items
        (λ g. step_forms step.now g)) }
{
    match step {
        StepForm::Call(call) => Ok(put_call(alloc, call, out)?),
        StepForm::Frame { .. } => {
            let inner = list_with_word(alloc, b"frame")?;
            Ok(put_list(inner, out)?)
        }
        StepForm::FrameDuring { during, .. } => Ok(put_during(alloc, during.items(), out)?),
    }
}

// Appends the forms of steps of a repeat.
#[tactic(auto, using(crate::proofs::Written::written))]
fn put_steps(alloc: Global, steps: &[StepForm], out: &mut Vec<Tree>) -> Result<(), NoMemory>
    ensures { OnOk result (forest_view out.new.items
        ≡ joined_trees (forest_view out.old.items) (unplaced_sketch (steps_forms steps.now))) }
{
    let mut rest = steps;
    while let Some((step, more)) = rest.split_first() {
        put_step(alloc, step, out)?;
        rest = more;
    }
    Ok(())
}

// Appends the form of a repeat.
#[tactic(auto, using(crate::proofs::Written::written))]
fn put_repeat(
    alloc: Global,
    times: i64,
    steps: &[StepForm],
    out: &mut Vec<Tree>,
) -> Result<(), NoMemory>
    ensures { OnOk result (AppendsForms out.old.items out.new.items
        (repeat_sketch times steps.now)) }
{
    let mut inner = list_with_word(alloc, b"repeat")?;
    put_number(alloc, times, &mut inner)?;
    put_steps(alloc, steps, &mut inner)?;
    Ok(put_list(inner, out)?)
}

// Appends the form of a step of an actor.
#[tactic(auto, using(crate::proofs::Written::written))]
fn put_actor_step(alloc: Global, step: &ScriptForm, out: &mut Vec<Tree>) -> Result<(), NoMemory>
    ensures { OnOk result (AppendsForms out.old.items out.new.items
        (λ g. actor_step_forms step.now g)) }
{
    match step {
        ScriptForm::Once(step) => Ok(put_step(alloc, step, out)?),
        ScriptForm::Repeat { times, steps, .. } => {
            Ok(put_repeat(alloc, *times, steps.items(), out)?)
        }
    }
}

// Appends the forms of the steps of an actor.
#[tactic(auto, using(crate::proofs::Written::written))]
fn put_actor_steps(alloc: Global, steps: &[ScriptForm], out: &mut Vec<Tree>) -> Result<(), NoMemory>
    ensures { OnOk result (forest_view out.new.items
        ≡ joined_trees (forest_view out.old.items) (unplaced_sketch (actor_forms steps.now))) }
{
    let mut rest = steps;
    while let Some((step, more)) = rest.split_first() {
        put_actor_step(alloc, step, out)?;
        rest = more;
    }
    Ok(())
}

// Appends a `do` form.
#[tactic(auto, using(crate::proofs::Written::written))]
fn put_do_form(alloc: Global, form: &DoForm, out: &mut Vec<Tree>) -> Result<(), NoMemory>
    ensures { OnOk result (AppendsForms out.old.items out.new.items (λ g. do_forms form.now g)) }
{
    let mut inner = list_with_word(alloc, b"do")?;
    put_word(alloc, form.actor.text.bytes(), &mut inner)?;
    put_actor_steps(alloc, form.steps.items(), &mut inner)?;
    put_list(inner, out)
}

/// Returns the trees of the `do` forms of a script, all at offset 0.
///
/// They are the trees that the script was parsed from, except for offsets. A rule of this project. Fails if memory runs
/// out.
#[tactic(auto, using(crate::proofs::Written::written))]
pub fn script_forms_of(alloc: Global, forms: &[DoForm]) -> Result<Vec<Tree>, NoMemory>
    ensures { IfOk result (λ trees. forest_view trees.items
        ≡ unplaced_sketch (scripts_forms forms.now)) }
{
    let mut trees = Vec::new(alloc);
    let mut rest = forms;
    while let Some((form, more)) = rest.split_first() {
        put_do_form(alloc, form, &mut trees)?;
        rest = more;
    }
    Ok(trees)
}
