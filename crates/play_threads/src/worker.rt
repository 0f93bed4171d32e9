// The worker of an actor, and the calls of its steps.
ghost use Rattle.std.specs.Prelude.{◌∷◌, []};
ghost use Rattle.play_steps.specs.ActorNotes.{part_of};
ghost use Rattle.play_steps.specs.PartLists.{parts_of};
ghost use Rattle.play_threads.specs.ActorSteps.{IsSeated, Makes, MakesCall};

use play_steps::{ActorMemory, StepPart};
use rt_streams::Gate;
use rt_values::{Caller, Name};
use snap_api::{Request, Versions};
use snap_policy::BuiltIn;
use snap_shared::{Seat, Shared};
use std::alloc::Global;
use std::sync::Wait;
use std::thread;

// The number of calls after which an actor no longer lets other threads run.
const YIELDING_CALLS: u64 = 16;

/// The world, the gate and the number of an actor, which the functions of a worker share.
#[derive(Drop)]
pub(crate) struct ActorRun<'a, V: Versions + Drop, R: Wait, G: Gate> {
    pub(crate) rt: &'a R,
    pub(crate) alloc: Global,
    pub(crate) shared: &'a Shared<V>,
    pub(crate) gate: &'a G,
    pub(crate) number: Caller,
}

/// An actor at one of its steps. A worker that is `short` ran out of memory and makes no further call.
#[derive(Drop)]
pub struct Worker<'p, V> {
    pub(crate) seat: Seat<V>,
    pub(crate) memory: ActorMemory<'p>,
    /// The number of the next call at the gate.
    pub(crate) step: u64,
    pub(crate) short: bool,
    /// The snapshot of the frame that was composed when the worker ran out of memory, if one was.
    pub(crate) failed: Option<Name>,
}

// Lets other threads run after one of the first calls of an actor, so that the calls of short actors interleave.
fn yield_early(call: u64) {
    if call <= YIELDING_CALLS {
        thread::yield_now();
    }
}

// Makes the call of a part, and notes the reply.
fn make_call<V: Versions<P = BuiltIn> + Drop, R: Wait, G: Gate>(
    run: &ActorRun<'_, V, R, G>,
    part: &StepPart<'_>,
    request: Request,
    worker: &mut Worker<'_, V>,
)
    requires seated { IsSeated run.now.shared.now run.now.number worker.old.seat }
    ensures seated { IsSeated run.now.shared.now run.now.number worker.new.seat }
    ensures makes { MakesCall V.stands run.now.shared.now run.now.number worker.old worker.new
        (part_of part.now) request }
{
    run.gate.pass(run.number as usize, worker.step);
    worker.step = worker.step.wrapping_add(1);
    let reply = run
        .shared
        .call(run.rt, run.alloc, &mut worker.seat, request);
    yield_early(worker.step);
    if reply.is_no_memory() {
        worker.short = true;
        return;
    }
    match worker.memory.note(run.alloc, part, reply) {
        Ok(()) => (),
        Err(_) => worker.short = true,
    }
}

/// Makes the call of a part of a step, if the part makes one.
pub(crate) fn make_part<V: Versions<P = BuiltIn> + Drop, R: Wait, G: Gate>(
    run: &ActorRun<'_, V, R, G>,
    part: &StepPart<'_>,
    worker: &mut Worker<'_, V>,
)
    requires seated { IsSeated run.now.shared.now run.now.number worker.old.seat }
    ensures seated { IsSeated run.now.shared.now run.now.number worker.new.seat }
    ensures makes { Makes V.stands run.now.shared.now worker.old worker.new
        (parts_of run.now.number (part_of part.now ∷ [])) }
{
    if worker.short {
        return;
    }
    match worker.memory.request_for(run.alloc, part) {
        Ok(Some(request)) => make_call(run, part, request, worker),
        Ok(None) => (),
        Err(_) => worker.short = true,
    }
}
