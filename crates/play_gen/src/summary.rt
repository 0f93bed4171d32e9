// The run of a generated input, which is counted.
ghost use Rattle.std.specs.Prelude.{◌≡◌, ◌<◌, ◌≤◌, None, [], ◌∷◌, codes, length, IfOk, OnOk};
ghost use Rattle.rt_values.specs.declared.value.Value.{Value as value_data};
ghost use Rattle.lang_ast.specs.declared.script.SnapshotRef.{SnapshotRef as snapshot_ref};
ghost use Rattle.lang_ast.specs.Programs.{program_view};
ghost use Rattle.lang_script.specs.Scripts.{actors_of};
ghost use Rattle.lang_script.specs.StepCalls.{opening_world, script_parts};
ghost use Rattle.snap_api.specs.World.{start};
ghost use Rattle.play_gen.specs.Draws.{next_state};
ghost use Rattle.play_gen.specs.GeneratedProgram.{generated_program};
ghost use Rattle.play_gen.specs.GeneratedScript.{rotated_list, items_after, write_step, change_steps, rounds, generated_script};
ghost use Rattle.play_gen.specs.Tallies.{generated_counts};
ghost use Rattle.play_gen.specs.Counting.{CountsParts, forms_parts};

use crate::counting::{Counting, count_add, count_frame, count_raise, count_write};
use crate::draws::Draws;
use crate::inputs::checked_program;
use crate::program::first_items;
use crate::rounds::{Change, change_drawn, rotate};
use crate::tally::Tally;
use lang_checks::Checked;
use play_run::{RunMemory, set_up_world};
use rt_values::{IntList, NoMemory, Value};
use snap_api::Versions;
use snap_policy::BuiltIn;
use std::alloc::Global;
use std::mem;

// Rotates the items, and writes them.
fn count_rotation<V: Versions<P = BuiltIn>>(
    alloc: Global,
    turn: u32,
    items: &mut IntList,
    counting: &mut Counting,
    world: &mut V,
) -> Result<(), NoMemory>
    requires { turn ≤ length items.old }
    ensures items { OnOk result (items.new ≡ rotated_list turn items.old) }
    ensures counts { let write =
        write_step snapshot_ref.Global (codes "items") 0 (value_data.Ints (rotated_list turn items.old)) in
        CountsParts V.stands (forms_parts (write ∷ [])) world.old world.new counting.old counting.new None None result }
{
    *items = rotate(alloc, items, turn as usize)?;
    let value = Value::Ints(items.copy()?);
    count_write(alloc, 0, value, counting, world)
}

// Makes the steps of a change, and leaves the items after it.
fn count_change<V: Versions<P = BuiltIn>>(
    alloc: Global,
    size: u32,
    change: Change,
    draws: &mut Draws,
    items: &mut IntList,
    counting: &mut Counting,
    world: &mut V,
) -> Result<(), NoMemory>
    requires some { 0 < size }
    requires rows { size ≡ length items.old }
    ensures draws { draws.new ≡ next_state draws.old }
    ensures items { OnOk result (items.new ≡ items_after size change draws.old items.old) }
    ensures counts { CountsParts V.stands (forms_parts (change_steps size change draws.old items.old))
        world.old world.new counting.old counting.new None None result }
{
    match change {
        Change::AddToTotal => count_add(alloc, 1, draws.draw(10) as i64, counting, world),
        Change::RaiseBest => {
            let amount = Value::Int(draws.draw(10) as i64);
            count_raise(alloc, 2, amount, counting, world)
        }
        Change::SetScale => {
            let amount = Value::Int(draws.draw(10) as i64);
            count_write(alloc, 3, amount, counting, world)
        }
        Change::RotateItems => count_rotation(alloc, draws.draw(size), items, counting, world),
    }
}

// Makes the steps of all rounds.
fn count_rounds<V: Versions<P = BuiltIn>>(
    alloc: Global,
    size: u32,
    draws: &mut Draws,
    items: &mut IntList,
    counting: &mut Counting,
    world: &mut V,
) -> Result<(), NoMemory>
    requires some { 0 < size }
    requires rows { size ≡ length items.old }
    ensures { CountsParts V.stands (forms_parts (rounds size size draws.old items.old)) world.old world.new counting.old
        counting.new None None result }
{
    let mut left = size;
    while left > 0 {
        let change = change_drawn(draws.draw(4));
        count_change(alloc, size, change, draws, items, counting, world)?;
        count_frame(alloc, counting, world)?;
        left -= 1;
    }
    Ok(())
}

// Makes the steps of the script, whose first step is a frame.
fn count_steps<V: Versions<P = BuiltIn>>(
    alloc: Global,
    number: u32,
    size: u32,
    counting: &mut Counting,
    world: &mut V,
) -> Result<(), NoMemory>
    requires some { 1 ≤ size }
    requires few { size ≤ 1000 }
    ensures { CountsParts V.stands
        (script_parts (actors_of (generated_script number size)) (generated_script number size))
        world.old world.new counting.old counting.new None None result }
{
    count_frame(alloc, counting, world)?;
    let mut items = first_items(alloc, size)?;
    count_rounds(
        alloc,
        size,
        &mut Draws::new(number),
        &mut items,
        counting,
        world,
    )
}

// Makes the steps of the generated script on `program`, and returns the counts of their history.
// The world is that after `set_up_world` for `program`.
fn count_program<V: Versions<P = BuiltIn>>(
    alloc: Global,
    program: &Checked,
    number: u32,
    size: u32,
    world: &mut V,
) -> Result<Tally, NoMemory>
    requires program { program_view program.now ≡ generated_program size }
    requires some { 1 ≤ size }
    requires few { size ≤ 1000 }
    requires opened { V.stands world.old (opening_world program.now.states.items) }
    ensures { IfOk result (λ t. t ≡ generated_counts number size) }
{
    let memory = RunMemory::new(alloc, program)?;
    let tally = Tally::new();
    let mut counting = Counting { memory, tally };
    let counted = count_steps(alloc, number, size, &mut counting, world);
    let Counting { memory, tally } = counting;
    mem::forget(memory);
    counted?;
    Ok(tally)
}

/// Returns the counts of the history that the generated script makes with the generated program in a new world.
///
/// A rule of this project. Nothing is printed. Fails only if the process is out of memory. The memory of the
/// composition is left to the end of the process.
pub fn count_input<V: Versions<P = BuiltIn>>(
    alloc: Global,
    number: u32,
    size: u32,
    world: &mut V,
) -> Result<Tally, NoMemory>
    requires some { 1 ≤ size }
    requires few { size ≤ 1000 }
    requires start { V.stands world.old (start 0) }
    ensures { IfOk result (λ t. t ≡ generated_counts number size) }
{
    let program = checked_program(alloc, size)?;
    set_up_world(alloc, &program, world)?;
    count_program(alloc, &program, number, size, world)
}
