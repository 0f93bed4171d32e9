// The world in which a script begins.
ghost use Rattle.std.specs.Prelude.{◌≡◌, ◌<◌, ◌≤◌, OnOk, length, true};
ghost use Rattle.snap_policy.specs.declared.policy.BuiltIn.{BuiltIn as built_in};
ghost use Rattle.snap_policy.specs.Table.{table_fits};
ghost use Rattle.rt_values.specs.Values.{type_of};
ghost use Rattle.snap_api.specs.World.{World, start, world_after_make};
ghost use Rattle.lang_script.specs.StepCalls.{opening_world, with_states};
ghost use Rattle.play_run.specs.Opening.{StatesFit};

use lang_ast::State;
use lang_checks::Checked;
use rt_values::NoMemory;
use snap_api::Versions;
use snap_policy::BuiltIn;
use std::alloc::Global;

// Makes a state with its initial value.
fn make_state<V: Versions<P = BuiltIn>>(
    alloc: Global,
    state: &State,
    world: &mut V,
) -> Result<(), NoMemory>
    requires few { V.object_count world.old < 65536 }
    requires fits { table_fits state.now.policy (type_of state.now.initial) ≡ true }
    ensures made { (w : World built_in) → V.stands world.old w →
        OnOk result (V.stands world.new (world_after_make w (type_of state.now.initial) state.now.policy
        state.now.initial)) }
    ensures log { V.log world.new ≡ V.log world.old }
{
    let initial = state.initial.copy(alloc)?;
    match world.make(alloc, state.initial.ty(), state.policy, initial) {
        Ok(_) => Ok(()),
        Err(refusal) => {
            if refusal.is_no_memory() {
                return Err(NoMemory);
            }
            unreachable!()
        }
    }
}

// Makes the program's states.
fn make_states<V: Versions<P = BuiltIn>>(
    alloc: Global,
    states: &[State],
    world: &mut V,
) -> Result<(), NoMemory>
    requires start { V.stands world.old (start 0) }
    requires few { length states.now ≤ 256 }
    requires fit { StatesFit states.now }
    ensures made { OnOk result (V.stands world.new (with_states (start 0) states.now)) }
    ensures log { V.log world.new ≡ V.log world.old }
{
    let mut rest = states;
    while let Some((state, more)) = rest.split_first() {
        make_state(alloc, state, world)?;
        rest = more;
    }
    Ok(())
}

// Makes the states and the watcher.
fn open_world<V: Versions<P = BuiltIn>>(
    alloc: Global,
    states: &[State],
    world: &mut V,
) -> Result<(), NoMemory>
    requires start { V.stands world.old (start 0) }
    requires few { length states.now ≤ 256 }
    requires fit { StatesFit states.now }
    ensures opened { OnOk result (V.stands world.new (opening_world states.now)) }
    ensures log { V.log world.new ≡ V.log world.old }
{
    make_states(alloc, states, world)?;
    match world.watch(alloc) {
        Ok(_) => Ok(()),
        Err(NoMemory) => Err(NoMemory),
    }
}

/// Makes a program's states and the watcher of its frames in a new world.
pub fn set_up_world<V: Versions<P = BuiltIn>>(
    alloc: Global,
    program: &Checked,
    world: &mut V,
) -> Result<(), NoMemory>
    requires start { V.stands world.old (start 0) }
    ensures opened { OnOk result (V.stands world.new (opening_world program.now.states.items)) }
    ensures log { V.log world.new ≡ V.log world.old }
{
    open_world(alloc, program.states(), world)
}
