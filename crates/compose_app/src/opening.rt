// The states of a program in a new world.
ghost use Rattle.std.specs.Prelude.{◌≡◌, ◌<◌, ◌≤◌, ◌∷◌, [], length, None, IfOk, OnOk};
ghost use Rattle.rt_values.specs.Values.{type_of};
ghost use Rattle.snap_policy.specs.declared.policy.BuiltIn.{BuiltIn as built_in};
ghost use Rattle.snap_policy.specs.Table.{table};
ghost use Rattle.snap_api.specs.Valid.{IsValid};
ghost use Rattle.snap_api.specs.World.{World, start, make_refusal, world_after_make};
ghost use Rattle.lang_script.specs.StepCalls.{opening_world, with_states};
ghost use Rattle.compose_app.specs.Openings.{IsOpened, IsOpening};

use lang_ast::State;
use lang_checks::Checked;
use rt_values::{NoMemory, WatcherNo};
use snap_api::Versions;
use snap_policy::BuiltIn;
use std::alloc::Global;

// Makes a state with its initial value.
fn make_state<V: Versions<P = BuiltIn>>(
    alloc: Global,
    state: &State,
    world: &mut V,
) -> Result<(), NoMemory>
    requires few { V.object_count world.old < 65536 }
    ensures fits { OnOk result (make_refusal table (type_of state.now.initial) state.now.policy state.now.initial
        ≡ None) }
    ensures made { (w : World built_in) → V.stands world.old w → OnOk result (V.stands world.new
        (world_after_make w (type_of state.now.initial) state.now.policy state.now.initial)) }
{
    let initial = state.initial.copy(alloc)?;
    match world.make(alloc, state.initial.ty(), state.policy, initial) {
        Ok(_) => Ok(()),
        Err(_) => Err(NoMemory), // the policy of a checked program's state fits its value
    }
}

// Makes the states in order.
fn make_states<V: Versions<P = BuiltIn>>(
    alloc: Global,
    states: &[State],
    world: &mut V,
) -> Result<(), NoMemory>
    requires start { V.stands world.old (start 0) }
    requires few { length states.now ≤ 256 }
    ensures { OnOk result (IsOpened (V.stands world.new) (with_states (start 0) states.now)) }
{
    let mut rest = states;
    while let Some((state, more)) = rest.split_first() {
        make_state(alloc, state, world)?;
        rest = more;
    }
    Ok(())
}

// Makes the states and a watcher in a new world. Returns the watcher.
fn make_all<V: Versions<P = BuiltIn>>(
    alloc: Global,
    states: &[State],
    world: &mut V,
) -> Result<WatcherNo, NoMemory>
    requires start { V.stands world.old (start 0) }
    requires few { length states.now ≤ 256 }
    ensures { IfOk result (λ n. (n ≡ 0) × IsOpening (V.stands world.new) states.now) }
{
    make_states(alloc, states, world)?;
    match world.watch(alloc) {
        Ok(watcher) => Ok(watcher),
        Err(NoMemory) => Err(NoMemory),
    }
}

/// Makes the states of a program and a watcher in a new world. Returns the watcher, which has number 0.
pub fn open_world<V: Versions<P = BuiltIn>>(
    alloc: Global,
    program: &Checked,
    world: &mut V,
) -> Result<WatcherNo, NoMemory>
    requires { V.stands world.old (start 0) }
    ensures { IfOk result (λ n. (n ≡ 0) × IsOpening (V.stands world.new) program.now.states.items) }
{
    make_all(alloc, program.states(), world)
}
