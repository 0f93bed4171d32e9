// The steps of a script, one after the other.
ghost use Rattle.std.specs.Prelude.{◌≡◌, ◌≤◌, List, ℕ, Bool, true, Option, Some, None, Err, IfOk, OnOk, OnErr, [], ◌∷◌, length};
ghost use Rattle.snap_api.specs.World.{start};
ghost use Rattle.lang_ast.specs.declared.program.State.{State as state_data};
ghost use Rattle.lang_script.specs.Scripts.{index_of, written_out, repeated_steps};
ghost use Rattle.lang_script.specs.StepCalls.{step_parts, steps_parts, script_parts};
ghost use Rattle.script_lang.specs.Lines.{run_text};
ghost use Rattle.play_run.specs.RunPromise.{job_titles, job_style, job_functions};
ghost use Rattle.play_run.specs.RunLog.{LogsRun, StopsRun};
ghost use Rattle.play_run.specs.RunState.{RunsParts, ActorRuns, scene};
ghost use Rattle.play_run.specs.RunPromise.{WritesBytes, FaultsAfter};

use crate::calls::{JobActor, run_call};
use crate::frame::run_frame;
use crate::job::Job;
use crate::memory::RunMemory;
use crate::open::set_up_world;
use crate::write_lines::Stop;
use lang_ast::{ScriptForm, StepForm};
use play_steps::times_of;
use rt_streams::Sink;
use script_lang::{Flags, index_of};
use snap_api::Versions;
use snap_policy::BuiltIn;
use std::alloc::Global;
use std::mem;

// Makes a step.
fn run_step<V: Versions<P = BuiltIn>, K: Sink>(
    alloc: Global,
    actor: JobActor,
    step: &StepForm,
    memory: &mut RunMemory,
    world: &mut V,
    sink: &mut K,
) -> Result<(), Stop>
    ensures runs { ActorRuns actor.entry V.stands V.log (step_parts step.now)
        (scene world.old memory.old None (K.written sink.old))
        (scene world.new memory.new None (K.written sink.new)) result }
    ensures faults { FaultsAfter (K.faults sink.old) (K.faults sink.new) result }
{
    match step {
        StepForm::Call(form) => run_call(alloc, actor, form, memory, world, sink),
        StepForm::Frame { .. } => run_frame(alloc, actor, &[], memory, world, sink),
        StepForm::FrameDuring { during, .. } => {
            run_frame(alloc, actor, during.items(), memory, world, sink)
        }
    }
}

// Makes steps, one after the other.
fn run_steps<V: Versions<P = BuiltIn>, K: Sink>(
    alloc: Global,
    actor: JobActor,
    steps: &[StepForm],
    memory: &mut RunMemory,
    world: &mut V,
    sink: &mut K,
) -> Result<(), Stop>
    ensures runs { ActorRuns actor.entry V.stands V.log (steps_parts steps.now)
        (scene world.old memory.old None (K.written sink.old))
        (scene world.new memory.new None (K.written sink.new)) result }
    ensures faults { FaultsAfter (K.faults sink.old) (K.faults sink.new) result }
{
    let mut rest = steps;
    while let Some((step, more)) = rest.split_first() {
        match run_step(alloc, actor, step, memory, world, sink) {
            Ok(()) => rest = more,
            Err(stop) => return Err(stop),
        }
    }
    Ok(())
}

// Makes the steps of a repeat.
fn run_repeat<V: Versions<P = BuiltIn>, K: Sink>(
    alloc: Global,
    actor: JobActor,
    times: u64,
    steps: &[StepForm],
    memory: &mut RunMemory,
    world: &mut V,
    sink: &mut K,
) -> Result<(), Stop>
    ensures runs { ActorRuns actor.entry V.stands V.log (steps_parts (repeated_steps times steps.now))
        (scene world.old memory.old None (K.written sink.old))
        (scene world.new memory.new None (K.written sink.new)) result }
    ensures faults { FaultsAfter (K.faults sink.old) (K.faults sink.new) result }
{
    let mut left = times;
    while left > 0 {
        match run_steps(alloc, actor, steps, memory, world, sink) {
            Ok(()) => left -= 1,
            Err(stop) => return Err(stop),
        }
    }
    Ok(())
}

// Makes a step once, or the steps of a repeat.
fn run_form<V: Versions<P = BuiltIn>, K: Sink>(
    alloc: Global,
    actor: JobActor,
    form: &ScriptForm,
    memory: &mut RunMemory,
    world: &mut V,
    sink: &mut K,
) -> Result<(), Stop>
    ensures runs { ActorRuns actor.entry V.stands V.log (steps_parts (written_out (form.now ∷ [])))
        (scene world.old memory.old None (K.written sink.old))
        (scene world.new memory.new None (K.written sink.new)) result }
    ensures faults { FaultsAfter (K.faults sink.old) (K.faults sink.new) result }
{
    match form {
        ScriptForm::Once(step) => run_step(alloc, actor, step, memory, world, sink),
        ScriptForm::Repeat { times, steps, .. } => run_repeat(
            alloc,
            actor,
            times_of(*times),
            steps.items(),
            memory,
            world,
            sink,
        ),
    }
}

// Makes all steps of a `do` form.
fn run_forms<V: Versions<P = BuiltIn>, K: Sink>(
    alloc: Global,
    actor: JobActor,
    forms: &[ScriptForm],
    memory: &mut RunMemory,
    world: &mut V,
    sink: &mut K,
) -> Result<(), Stop>
    ensures runs { ActorRuns actor.entry V.stands V.log (steps_parts (written_out forms.now))
        (scene world.old memory.old None (K.written sink.old))
        (scene world.new memory.new None (K.written sink.new)) result }
    ensures faults { FaultsAfter (K.faults sink.old) (K.faults sink.new) result }
{
    let mut rest = forms;
    while let Some((form, more)) = rest.split_first() {
        match run_form(alloc, actor, form, memory, world, sink) {
            Ok(()) => rest = more,
            Err(stop) => return Err(stop),
        }
    }
    Ok(())
}

// Makes the steps of all `do` forms, in source order.
fn run_do_forms<V: Versions<P = BuiltIn>, K: Sink>(
    alloc: Global,
    job: &Job,
    flags: Flags,
    memory: &mut RunMemory,
    world: &mut V,
    sink: &mut K,
) -> Result<(), Stop>
    // The number of an actor matters only while a frame is open.
    ensures runs { RunsParts (job_style job.now flags) (job_functions job.now) V.stands V.log 0
        (script_parts job.now.script.actors.items job.now.script.forms.items) world.old world.new memory.old
        memory.new None None
        (K.written sink.old) (K.written sink.new) result }
    ensures faults { FaultsAfter (K.faults sink.old) (K.faults sink.new) result }
{
    let actors = job.script.actors.as_slice();
    let mut rest = job.script.forms.as_slice();
    while let Some((form, more)) = rest.split_first() {
        let number = index_of(form.actor.text.bytes(), actors) as u64;
        let actor = JobActor { job, flags, number };
        match run_forms(alloc, actor, form.steps.items(), memory, world, sink) {
            Ok(()) => rest = more,
            Err(stop) => return Err(stop),
        }
    }
    Ok(())
}

/// Runs the script of a job in a new world: makes the program's states and all steps, and writes each line when it is
/// made. `flags` say what is printed of a frame. Fails if the sink fails or the process is out of memory. Then no call
/// was made after the line that was not written. The memory of the composition is left to the end of the process.
pub fn run_script<V: Versions<P = BuiltIn>, K: Sink>(
    alloc: Global,
    job: &Job,
    flags: Flags,
    world: &mut V,
    sink: &mut K,
) -> Result<(), Stop>
    requires start { V.stands world.old (start 0) }
    ensures says { let parts = script_parts job.now.script.actors.items job.now.script.forms.items in
        WritesBytes (K.written sink.old) (K.written sink.new)
        (run_text (job_style job.now flags) (job_functions job.now) parts) result }
    ensures log { let parts = script_parts job.now.script.actors.items job.now.script.forms.items in
        OnOk result (LogsRun (job_titles job.now) (job_functions job.now) parts (V.log world.old) (V.log world.new)) }
    ensures stops { let parts = script_parts job.now.script.actors.items job.now.script.forms.items in
        OnErr result (StopsRun (job_style job.now flags) (job_functions job.now) parts (V.log world.old)
        (V.log world.new) (K.written sink.old) (K.written sink.new)) }
    ensures faults { FaultsAfter (K.faults sink.old) (K.faults sink.new) result }
{
    let Ok(()) = set_up_world(alloc, &job.program, world) else {
        return Err(Stop::NoMemory);
    };
    let Ok(mut memory) = RunMemory::new(alloc, &job.program) else {
        return Err(Stop::NoMemory);
    };
    let done = run_do_forms(alloc, job, flags, &mut memory, world, sink);
    mem::forget(memory);
    done
}
