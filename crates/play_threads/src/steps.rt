// The steps of an actor, one after the other.
ghost use Rattle.std.specs.Prelude.{◌≡◌, ◌∷◌, []};
ghost use Rattle.snap_shared.specs.Seats.{seat_number, IsNewSeat};
ghost use Rattle.lang_script.specs.StepCalls.{script_parts};
ghost use Rattle.play_laws.specs.Woven.{AreOf};
ghost use Rattle.play_steps.specs.ActorNotes.{part_of};
ghost use Rattle.play_steps.specs.PartLists.{parts_in, parts_of};
ghost use Rattle.play_threads.specs.ActorSteps.{IsSeated, Makes, ActsThrough};

use crate::frames::end_frame;
use crate::worker::{ActorRun, Worker, make_part};
use play_run::Job;
use play_steps::{ActorMemory, ActorStep, StepPart, add_actor};
use rt_streams::Gate;
use rt_values::Name;
use snap_api::Versions;
use snap_policy::BuiltIn;
use snap_shared::Seat;
use std::sync::Wait;

// Makes a part of a step. At the end of a frame the program is composed before the frame is disposed.
fn make_step<'p, V: Versions<P = BuiltIn> + Drop, R: Wait, G: Gate>(
    run: &ActorRun<'_, V, R, G>,
    part: &StepPart<'_>,
    mut worker: Worker<'p, V>,
) -> Worker<'p, V>
    requires seated { IsSeated run.now.shared.now run.now.number worker.seat }
    ensures seated { IsSeated run.now.shared.now run.now.number result.seat }
    ensures makes { Makes V.stands run.now.shared.now worker.entry result
        (parts_of run.now.number (part_of part.now ∷ [])) }
{
    match part {
        StepPart::EndFrame => end_frame(run, worker),
        _ => {
            make_part(run, part, &mut worker);
            worker
        }
    }
}

// Makes parts of the actor's steps, one after the other.
fn make_parts<'p, V: Versions<P = BuiltIn> + Drop, R: Wait, G: Gate>(
    run: &ActorRun<'_, V, R, G>,
    steps: Vec<ActorStep<'_>>,
    worker: Worker<'p, V>,
) -> Worker<'p, V>
    requires own { AreOf run.now.number (parts_in steps.items) }
    requires seated { IsSeated run.now.shared.now run.now.number worker.seat }
    ensures seated { IsSeated run.now.shared.now run.now.number result.seat }
    ensures makes { Makes V.stands run.now.shared.now worker.entry result (parts_in steps.entry.items) }
{
    let mut worker = worker;
    for step in steps {
        worker = make_step(run, &step.part, worker);
    }
    worker
}

/// An actor after its last step.
#[derive(Drop)]
pub(crate) struct EndedActor<V> {
    pub(crate) seat: Seat<V>,
    /// Whether the actor ran out of memory, after which it made no further step.
    pub(crate) short: bool,
    /// The snapshot of the frame in which the actor ran out of memory, if it was composing one.
    pub(crate) failed: Option<Name>,
}

// Ends an actor after its last step.
fn end<V>(worker: Worker<'_, V>) -> EndedActor<V>
    ensures { result ≡ record {
      seat = worker.entry.seat;
      short = worker.entry.short;
      failed = worker.entry.failed;
    } }
{
    let Worker {
        seat,
        memory: _,
        step: _,
        short,
        failed,
    } = worker;
    EndedActor {
        seat,
        short,
        failed,
    }
}

/// Makes all steps of an actor through its seat.
pub(crate) fn run_actor<V: Versions<P = BuiltIn> + Drop, R: Wait, G: Gate>(
    run: &ActorRun<'_, V, R, G>,
    job: &Job,
    seat: Seat<V>,
) -> EndedActor<V>
    requires seat { IsNewSeat run.now.shared.now seat × (seat_number seat ≡ run.now.number) }
    ensures acts { let parts = script_parts job.now.script.actors.items job.now.script.forms.items in
        ActsThrough V.stands run.now.shared.now parts run.now.number result.seat result.short }
{
    let Ok(memory) = ActorMemory::new(run.alloc, &job.program) else {
        return EndedActor {
            seat,
            short: true,
            failed: None,
        };
    };
    let actors = job.script.actors.as_slice();
    let mut steps = Vec::new(run.alloc);
    let Ok(()) = add_actor(run.number, actors, job.script.forms.as_slice(), &mut steps) else {
        return EndedActor {
            seat,
            short: true,
            failed: None,
        };
    };
    let worker = Worker {
        seat,
        memory,
        step: 0,
        short: false,
        failed: None,
    };
    end(make_parts(run, steps, worker))
}
