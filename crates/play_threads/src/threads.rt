// The command `threads`.
ghost use Rattle.std.specs.Prelude.{◌≡◌, ◌≤◌, IfOk, length};
ghost use Rattle.snap_api.specs.World.{start};
ghost use Rattle.lang_script.specs.StepCalls.{opening_world};
ghost use Rattle.play_run.specs.RunPromise.{FaultsAfter};
ghost use Rattle.play_threads.specs.ActorsCalls.{AreActorsCalls};
ghost use Rattle.play_threads.specs.WovenText.{HasNoFault, WritesWovenText};

use crate::actors::{ActorsEnd, run_actors};
use lang_checks::Checked;
use play_run::{Job, Stop, replay, set_up_world};
use rt_streams::{Gate, Sink};
use rt_values::NoMemory;
use script_lang::Flags;
use snap_api::Versions;
use snap_policy::BuiltIn;
use snap_world::{BoxedWorld, RecordWorld};
use std::alloc::Global;
use std::sync::Wait;
use std::thread::Threads;

// Creates a world with a program's states and the watcher of its frames. It is on the heap, since each turn moves it.
fn open_world(
    alloc: Global,
    program: &Checked,
) -> Result<BoxedWorld<RecordWorld<BuiltIn>>, NoMemory>
    ensures { IfOk result (λ w.
        ⟦<BoxedWorld<RecordWorld<BuiltIn>> as Versions>⟧.stands w (opening_world program.now.states.items)) }
{
    let mut world = RecordWorld::new(alloc)?;
    set_up_world(alloc, program, &mut world)?;
    BoxedWorld::new(alloc, world)
}

// Runs all actors of a job on one new world.
fn run_job<R: Threads + Wait + Sync, G: Gate + Sync>(
    rt: &R,
    alloc: Global,
    job: &Job,
    gate: &G,
) -> Result<ActorsEnd, NoMemory>
    ensures { IfOk result (λ end. AreActorsCalls job.now end) }
{
    let world = open_world(alloc, &job.program)?;
    run_actors(rt, alloc, job, world, gate)
}

// Writes the lines of the calls that the actors made.
fn write_calls<K: Sink>(
    alloc: Global,
    job: &Job,
    flags: Flags,
    end: ActorsEnd,
    sink: &mut K,
) -> Result<(), Stop>
    requires fine { HasNoFault job.now }
    requires calls { AreActorsCalls job.now end }
    ensures says { WritesWovenText (K.written sink.old) (K.written sink.new) flags job.now result }
    ensures faults { FaultsAfter (K.faults sink.old) (K.faults sink.new) result }
{
    let ActorsEnd { calls, short } = end;
    match replay(alloc, job, flags, calls, sink) {
        Ok(()) => {
            if short {
                return Err(Stop::NoMemory);
            }
            Ok(())
        }
        Err(stop) => Err(stop),
    }
}

/// Runs each actor of a job on a thread of its own, on one new world, and then writes the lines of all calls in the
/// order in which they were made. `flags` say what is printed of a frame. Each thread asks `gate` before each of its
/// calls, and waits for the turn on the world. A rule of this project.
///
/// An actor that runs out of memory stops, and the others go on. The lines are written then too, but the call fails. If
/// the actor was composing a frame, the lines end before the dispose of that frame. Fails also if the sink fails, or if
/// there is no memory for the actors or the lines.
pub fn run_threads<R: Threads + Wait + Sync, K: Sink, G: Gate + Sync>(
    rt: &R,
    alloc: Global,
    job: &Job,
    flags: Flags,
    gate: &G,
    sink: &mut K,
) -> Result<(), Stop>
    requires fine { HasNoFault job.now }
    ensures says { WritesWovenText (K.written sink.old) (K.written sink.new) flags job.now result }
    ensures faults { FaultsAfter (K.faults sink.old) (K.faults sink.new) result }
{
    let Ok(end) = run_job(rt, alloc, job, gate) else {
        return Err(Stop::NoMemory);
    };
    write_calls(alloc, job, flags, end, sink)
}
