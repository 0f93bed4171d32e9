// Frames, each composed in its own snapshot through the actor's seat.
ghost use Rattle.std.specs.Prelude.{◌≡◌, ◌<◌, ◌∷◌, [], Some, false, OnOk, IsOk};
ghost use Rattle.lang_script.specs.StepCalls.{EndFrame};
ghost use Rattle.play_steps.specs.PartLists.{parts_of};
ghost use Rattle.play_threads.specs.ActorSteps.{IsSeated, Makes};

use crate::worker::{ActorRun, Worker, make_part};
use play_steps::StepPart;
use recomposer::FrameStop;
use rt_groups::Report;
use rt_streams::Gate;
use rt_values::{Name, NoMemory, Steps};
use snap_api::Versions;
use snap_policy::BuiltIn;
use snap_shared::SeatView;
use std::marker::Brand;
use std::sync::Wait;
use std::sync::ledger::{Blank, Ledger};

// Fails if a frame ran out of memory. Too many groups are no failure, because nothing of the frame is printed.
fn out_of_memory(frame: Result<Report, FrameStop>) -> Result<(), NoMemory>
    ensures { OnOk frame (IsOk result) }
{
    match frame {
        Ok(_) => Ok(()),
        Err(FrameStop::TooManyGroups) => Ok(()),
        Err(_) => Err(NoMemory),
    }
}

// Composes the program in the worker's open snapshot `name`. `blank` is the ledger of the steps, which nothing reads.
fn compose<'p, V: Versions<P = BuiltIn> + Drop, R: Wait, G: Gate, L: Ledger>(
    run: &ActorRun<'_, V, R, G>,
    name: Name,
    worker: Worker<'p, V>,
    blank: Blank,
) -> (Worker<'p, V>, Result<(), NoMemory>)
    requires ledger { blank.name ≡ L.name }
    requires parts { blank.parts ≡ L.parts }
    requires some { 0 < L.parts }
    requires going { worker.short ≡ false }
    requires open_frame { worker.memory.frame ≡ Some name }
    requires seated { IsSeated run.now.shared.now run.now.number worker.seat }
    ensures seated { IsSeated run.now.shared.now run.now.number result.0.seat }
    ensures makes { Makes V.stands run.now.shared.now worker.entry result.0 [] }
{
    let (book, share) = blank.open();
    let mut steps: Steps<L> = Steps::new(book, share);
    let Worker {
        seat,
        mut memory,
        step,
        short,
        failed,
    } = worker;
    let mut view = SeatView::new(run.rt, run.shared, seat, run.gate, step, Some(name));
    let frame = memory
        .composition
        .recompose(run.alloc, &mut view, &mut steps);
    let composed = out_of_memory(frame);
    let (seat, step) = view.into_seat();
    let worker = Worker {
        seat,
        memory,
        step,
        short,
        failed,
    };
    (worker, composed)
}

// Composes the program in the frame's snapshot and disposes the snapshot, also if composing ran out of memory.
fn finish_frame<'p, V: Versions<P = BuiltIn> + Drop, R: Wait, G: Gate>(
    run: &ActorRun<'_, V, R, G>,
    name: Name,
    worker: Worker<'p, V>,
) -> Worker<'p, V>
    requires going { worker.short ≡ false }
    requires open_frame { worker.memory.frame ≡ Some name }
    requires seated { IsSeated run.now.shared.now run.now.number worker.seat }
    ensures seated { IsSeated run.now.shared.now run.now.number result.seat }
    ensures makes { Makes V.stands run.now.shared.now worker.entry result (parts_of run.now.number (EndFrame ∷ [])) }
{
    let (mut worker, composed) = compose::<V, R, G, Brand>(run, name, worker, Blank::new(1));
    make_part(run, &StepPart::EndFrame, &mut worker);
    match composed {
        Ok(()) => worker,
        Err(_) => {
            worker.short = true;
            worker.failed = Some(name);
            worker
        }
    }
}

/// Ends a frame. The frame of a refused take has nothing to end.
pub(crate) fn end_frame<'p, V: Versions<P = BuiltIn> + Drop, R: Wait, G: Gate>(
    run: &ActorRun<'_, V, R, G>,
    mut worker: Worker<'p, V>,
) -> Worker<'p, V>
    requires seated { IsSeated run.now.shared.now run.now.number worker.seat }
    ensures seated { IsSeated run.now.shared.now run.now.number result.seat }
    ensures makes { Makes V.stands run.now.shared.now worker.entry result (parts_of run.now.number (EndFrame ∷ [])) }
{
    if worker.short {
        return worker;
    }
    match worker.memory.frame {
        Some(name) => finish_frame(run, name, worker),
        None => {
            make_part(run, &StepPart::EndFrame, &mut worker);
            worker
        }
    }
}
