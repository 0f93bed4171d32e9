// The rounds of the script, each of a change and a frame.
ghost use Rattle.std.specs.Prelude.{◌≡◌, ◌<◌, ◌≤◌, ◌++◌, ◌∷◌, [], codes, length, IfOk, OnOk, pos};
ghost use Rattle.rt_values.specs.declared.value.Value.{Value as value_data};
ghost use Rattle.lang_ast.specs.declared.script.SnapshotRef.{SnapshotRef as snapshot_ref};
ghost use Rattle.play_gen.specs.Draws.{draw, next_state};
ghost use Rattle.play_gen.specs.GeneratedScript.{add_step, take_step, apply_step, frame_step, write_step, named_g, change_drawn, rotated_list, items_after, change_steps, round_change, rounds};

use crate::draws::Draws;
use crate::program::ident;
use lang_ast::{CallForm, ScriptForm, ScriptForms, SnapshotRef, StepForm};
use rt_values::{IntList, Kind, NoMemory, ObjectNo, Value};
use std::alloc::Global;

/// What a round of the script changes before its frame.
#[derive(Clone, Copy, Debug, PartialEq, Eq)]
pub enum Change {
    /// Adds a drawn number to `total`.
    AddToTotal,
    /// Writes a drawn number to `best` in a snapshot, and applies it.
    RaiseBest,
    /// Writes a drawn number to `scale`.
    SetScale,
    /// Rotates `items` left by a drawn number.
    RotateItems,
}

/// Returns the change for a drawn number. A rule of this project.
pub fn change_drawn(number: u32) -> Change
    ensures { result ≡ change_drawn number }
{
    if number == 0 {
        return Change::AddToTotal;
    }
    if number == 1 {
        return Change::RaiseBest;
    }
    if number == 2 {
        return Change::SetScale;
    }
    Change::RotateItems
}

/// Returns the items, rotated left by `turn`. A rule of this project.
pub fn rotate(alloc: Global, items: &IntList, turn: usize) -> Result<IntList, NoMemory>
    requires { turn ≤ length items.now }
    ensures { IfOk result (λ l. l ≡ rotated_list turn items.now) }
{
    let (first, rest) = items.items().split_at(turn);
    let mut list = IntList::of(alloc, rest)?;
    list.extend(first)?;
    Ok(list)
}

// Returns the snapshot with the name `g`.
fn named_g(alloc: Global) -> Result<SnapshotRef, NoMemory>
    ensures { IfOk result (λ s. s ≡ named_g) }
{
    Ok(SnapshotRef::Named(ident(alloc, b"g")?))
}

// Returns the step that writes `value` to the state `object` with this name.
fn write_step(
    alloc: Global,
    snapshot: SnapshotRef,
    name: &[u8],
    object: ObjectNo,
    value: Value,
) -> Result<ScriptForm, NoMemory>
    ensures { IfOk result (λ s. s ≡ write_step snapshot name.now object value) }
{
    let state = ident(alloc, name)?;
    Ok(ScriptForm::Once(StepForm::Call(CallForm::Write {
        at: 0,
        snapshot,
        state,
        object,
        value,
    })))
}

// Returns the step that adds `amount` to `total`.
fn add_step(alloc: Global, amount: u32) -> Result<ScriptForm, NoMemory>
    ensures { IfOk result (λ s. s ≡ add_step amount) }
{
    let state = ident(alloc, b"total")?;
    Ok(ScriptForm::Once(StepForm::Call(CallForm::Add {
        at: 0,
        snapshot: SnapshotRef::Global,
        state,
        object: 1,
        amount: amount as i64,
    })))
}

// Returns the step that takes the snapshot `g`.
fn take_step(alloc: Global) -> Result<ScriptForm, NoMemory>
    ensures { IfOk result (λ s. s ≡ take_step) }
{
    let name = ident(alloc, b"g")?;
    Ok(ScriptForm::Once(StepForm::Call(CallForm::Take {
        at: 0,
        name,
        kind: Kind::Mutable,
        parent: SnapshotRef::Global,
    })))
}

// Returns the step that applies the snapshot `g`.
fn apply_step(alloc: Global) -> Result<ScriptForm, NoMemory>
    ensures { IfOk result (λ s. s ≡ apply_step) }
{
    let snapshot = named_g(alloc)?;
    Ok(ScriptForm::Once(StepForm::Call(CallForm::Apply { at: 0, snapshot })))
}

// Appends the steps that write `amount` to `best` in a snapshot.
fn add_raise(alloc: Global, amount: u32, steps: &mut ScriptForms) -> Result<(), NoMemory>
    ensures { let write = write_step named_g (codes "best") 2 (value_data.Int (pos amount)) in
        OnOk result (steps.new ≡ steps.old ++ take_step ∷ write ∷ apply_step ∷ []) }
{
    steps.push(take_step(alloc)?)?;
    let amount = Value::Int(amount as i64);
    steps.push(write_step(alloc, named_g(alloc)?, b"best", 2, amount)?)?;
    steps.push(apply_step(alloc)?)?;
    Ok(())
}

// Rotates `items`, and appends the step that writes them.
fn add_rotation(
    alloc: Global,
    turn: u32,
    items: &mut IntList,
    steps: &mut ScriptForms,
) -> Result<(), NoMemory>
    requires { turn ≤ length items.old }
    ensures items { OnOk result (items.new ≡ rotated_list turn items.old) }
    ensures steps { let write =
        write_step snapshot_ref.Global (codes "items") 0 (value_data.Ints (rotated_list turn items.old)) in
        OnOk result (steps.new ≡ steps.old ++ write ∷ []) }
{
    *items = rotate(alloc, items, turn as usize)?;
    let value = Value::Ints(items.copy()?);
    steps.push(write_step(alloc, SnapshotRef::Global, b"items", 0, value)?)?;
    Ok(())
}

// Appends the steps of a change, and leaves the items after it.
fn add_change(
    alloc: Global,
    size: u32,
    change: Change,
    draws: &mut Draws,
    items: &mut IntList,
    steps: &mut ScriptForms,
) -> Result<(), NoMemory>
    requires some { 0 < size }
    requires rows { size ≡ length items.old }
    ensures draws { draws.new ≡ next_state draws.old }
    ensures items { OnOk result (items.new ≡ items_after size change draws.old items.old) }
    ensures steps { OnOk result (steps.new ≡ steps.old ++ change_steps size change draws.old items.old) }
{
    match change {
        Change::AddToTotal => {
            steps.push(add_step(alloc, draws.draw(10))?)?;
            Ok(())
        }
        Change::RaiseBest => add_raise(alloc, draws.draw(10), steps),
        Change::SetScale => {
            let amount = Value::Int(draws.draw(10) as i64);
            steps.push(write_step(alloc, SnapshotRef::Global, b"scale", 3, amount)?)?;
            Ok(())
        }
        Change::RotateItems => add_rotation(alloc, draws.draw(size), items, steps),
    }
}

/// Returns the step of a frame. A rule of this project.
pub fn frame_step() -> ScriptForm
    ensures { result ≡ frame_step }
{
    ScriptForm::Once(StepForm::Frame { at: 0 })
}

/// Appends the steps of `size` rounds. A rule of this project.
pub fn add_rounds(
    alloc: Global,
    size: u32,
    draws: &mut Draws,
    items: &mut IntList,
    steps: &mut ScriptForms,
) -> Result<(), NoMemory>
    requires some { 0 < size }
    requires rows { size ≡ length items.old }
    ensures { OnOk result (steps.new ≡ steps.old ++ rounds size size draws.old items.old) }
{
    let mut left = size;
    while left > 0 {
        let change = change_drawn(draws.draw(4));
        add_change(alloc, size, change, draws, items, steps)?;
        steps.push(frame_step())?;
        left -= 1;
    }
    Ok(())
}
