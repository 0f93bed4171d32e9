// All actors of a script, each on a thread of its own.
ghost use Rattle.std.specs.Prelude.{◌≡◌, ◌++◌, ◌∷◌, ◌<◌, [], ℕ, ◌≤◌, All, IfOk, OnOk, length, map, false, slice_index_or, vec_capacity};
ghost use Rattle.snap_policy.specs.Table.{table};
ghost use Rattle.snap_api.specs.World.{IsLegal};
ghost use Rattle.snap_shared.specs.Seats.{seat_number, IsNewSeat};
ghost use Rattle.snap_shared.specs.SharedCalls.{numbers_below};
ghost use Rattle.lang_script.specs.StepCalls.{script_parts, opening_world};
ghost use Rattle.play_laws.specs.Laws.{CanBeCompleted};
ghost use Rattle.play_laws.specs.PrintedHistory.{printed_history};
ghost use Rattle.play_laws.specs.Woven.{initial_actor, IsWoven};
ghost use Rattle.play_threads.specs.ActorSteps.{ActsThrough, IsActorsHistory};

use crate::cut::cut_history;
use crate::steps::run_actor;
use crate::worker::ActorRun;
use core::mem;
use play_run::Job;
use rt_streams::Gate;
use rt_values::{Caller, Name, NoMemory};
use snap_api::{Entry, LogWorld, Versions};
use snap_policy::BuiltIn;
use snap_shared::{Seat, Shared};
use std::alloc::Global;
use std::hint;
use std::sync::Wait;
use std::sync::atomic::{AtomicUsize, Ordering};
use std::thread::{self, Threads};

/// What the actors of a script have done.
#[derive(Drop)]
pub struct ActorsEnd {
    /// The history of the world, with the reads of frames. If an actor ran out of memory while it composed a frame, the
    /// calls end before the dispose of that frame's snapshot.
    pub calls: Vec<Entry>,
    /// Whether an actor stopped because it ran out of memory.
    pub short: bool,
}

// An actor before its first step, or after its last one.
#[derive(Drop)]
struct Actor<V> {
    number: Caller,
    seat: Seat<V>,
    // Whether the actor ran out of memory.
    short: bool,
    // The snapshot of the frame in which the actor ran out of memory, if it was composing one.
    failed: Option<Name>,
}

// What all actors have done: the calls of the world, and how the actors ended.
#[derive(Drop)]
struct WholeHistory {
    calls: Vec<Entry>,
    short: bool,
    failed: Option<Name>,
}

// Appends `actor`.
fn push_actor<V: Versions + Drop>(
    actors: &mut Vec<Actor<V>>,
    actor: Actor<V>,
) -> Result<(), NoMemory>
    ensures { OnOk result (actors.new.items ≡ actors.old.items ++ actor ∷ []) }
{
    match actors.push(actor) {
        Ok(()) => Ok(()),
        Err(_) => Err(NoMemory),
    }
}

// Gives each actor the seat of its number.
fn actors_for<V: Versions + Drop>(
    alloc: Global,
    seats: Vec<Seat<V>>,
) -> Result<Vec<Actor<V>>, NoMemory>
    ensures seats { IfOk result (λ v. map (λ x. x.seat) v.items ≡ seats.items) }
    ensures numbers { IfOk result (λ v. map (λ x. x.number) v.items ≡ numbers_below (length seats.items)) }
{
    let mut actors = Vec::new(alloc);
    for seat in seats {
        let number = actors.len() as u64;
        let actor = Actor {
            number,
            seat,
            short: false,
            failed: None,
        };
        let Ok(()) = push_actor(&mut actors, actor) else {
            return Err(NoMemory);
        };
    }
    Ok(actors)
}

// Returns the seats of all actors, in order, and how the actors ended. `seats` is empty, with capacity for them.
fn seats_of<V: Versions + Drop>(
    actors: Vec<Actor<V>>,
    mut seats: Vec<Seat<V>>,
) -> (Vec<Seat<V>>, bool, Option<Name>)
    requires empty { seats.items ≡ [] }
    requires capacity { length actors.items ≤ vec_capacity seats }
    ensures seats { result.0.items ≡ map (λ x. x.seat) actors.items }
    ensures short { result.1 ≡ false → All (λ x. x.short ≡ false) actors.items }
{
    let mut any_short = false;
    let mut any_failed = None;
    for actor in actors {
        let Actor {
            number: _,
            seat,
            short,
            failed,
        } = actor;
        any_short = any_short || short;
        any_failed = any_failed.or(failed);
        seats.push_reserved(seat);
    }
    (seats, any_short, any_failed)
}

// Lets an actor make all its steps.
fn make_steps<V: Versions<P = BuiltIn> + Drop, R: Wait, G: Gate>(
    rt: &R,
    alloc: Global,
    job: &Job,
    shared: &Shared<V>,
    gate: &G,
    actor: Actor<V>,
) -> Actor<V>
    requires ready { IsNewSeat shared.now actor.seat × (seat_number actor.seat ≡ actor.number) }
    ensures acts { let parts = script_parts job.now.script.actors.items job.now.script.forms.items in
        ActsThrough V.stands shared.now parts actor.number result.seat result.short }
{
    let Actor { number, seat, .. } = actor;
    let run = ActorRun {
        rt,
        alloc,
        shared,
        gate,
        number,
    };
    let ended = run_actor(&run, job, seat);
    Actor {
        number,
        seat: ended.seat,
        short: ended.short,
        failed: ended.failed,
    }
}

// How often an actor looks whether all others have started, at most.
const LOOKS: usize = 2000;

// How long an actor pauses before it looks again, in turns of a loop.
const PAUSES: usize = 20;

// Counts one more actor that has started, and waits until all have. It does not wait for ever: if there is only one
// thread, it runs one actor after the other.
fn wait_for_all(started: &AtomicUsize, actors: usize) {
    started.fetch_add(1, Ordering::SeqCst);
    for _ in 0..LOOKS {
        if started.load(Ordering::SeqCst) >= actors {
            return;
        }
        for _ in 0..PAUSES {
            hint::spin_loop();
        }
        thread::yield_now();
    }
}

// Lets all actors make their steps at once, each on a thread of its own. They wait for each other before the first
// step, since a thread takes longer to start than a short actor to end.
//
// Takes no memory itself. An actor that is not short has made all its steps when the call returns, so no steps are left
// for the caller to make. An actor works by value, since the desk of a frame owns the seat.
fn run_together<
    V: Versions<P = BuiltIn> + Drop + Send + Sync,
    R: Threads + Wait + Sync,
    G: Gate + Sync,
>(rt: &R, alloc: Global, job: &Job, shared: &Shared<V>, gate: &G, actors: &mut Vec<Actor<V>>)
    requires some { 0 < length actors.old.items }
    requires ready { All (λ x. IsNewSeat shared.now x.seat × (seat_number x.seat ≡ x.number)) actors.old.items }
    ensures many { length actors.new.items ≡ length actors.old.items }
    ensures acts { let parts = script_parts job.now.script.actors.items job.now.script.forms.items in
        (k : ℕ) (d : _) → k < length actors.old.items → ActsThrough V.stands shared.now parts
        (slice_index_or actors.old.items k d).number (slice_index_or actors.new.items k d).seat
        (slice_index_or actors.new.items k d).short }
{
    let threads = actors.len();
    let started = AtomicUsize::new(0);
    thread::for_each_mut(
        rt,
        actors.as_mut_slice(),
        threads,
        &|_, actor: &mut Actor<V>|
            requires { IsNewSeat shared.now actor.now.seat × (seat_number actor.now.seat ≡ actor.now.number) }
            ensures { let parts = script_parts job.entry.now.script.actors.items job.entry.now.script.forms.items in
                ActsThrough V.stands shared.entry.now parts
                actor.entry.now.number actor.exit.now.seat actor.exit.now.short }
        {
            wait_for_all(&started, threads);
            mem::replace_with(
                actor,
                (),
                |actor, ()| (make_steps(rt, alloc, job, shared, gate, actor), ()),
            )
        },
    );
}

// Runs all actors on a world of their own, and returns the whole history of the world, and how the actors ended. Takes
// no memory after the actors have ended.
fn make_history<
    W: Versions<P = BuiltIn> + Drop + Send + Sync,
    R: Threads + Wait + Sync,
    G: Gate + Sync,
>(rt: &R, alloc: Global, job: &Job, world: W, gate: &G) -> Result<WholeHistory, NoMemory>
    requires some { 0 < length job.now.script.actors.items }
    requires opens { W.stands world (opening_world job.now.program.states.items) }
    ensures { let parts = script_parts job.now.script.actors.items job.now.script.forms.items in
        IfOk result (λ r. IsActorsHistory (length job.now.script.actors.items) parts
        (opening_world job.now.program.states.items) r.calls.items r.short) }
{
    let Ok((shared, seats)) = Shared::new(rt, alloc, world, job.script.actors.len()) else {
        return Err(NoMemory);
    };
    let Ok(mut actors) = actors_for(alloc, seats) else {
        return Err(NoMemory);
    };
    let Ok(spare) = Vec::with_capacity(alloc, actors.len()) else {
        return Err(NoMemory);
    };
    run_together(rt, alloc, job, &shared, gate, &mut actors);
    let (seats, short, failed) = seats_of(actors, spare);
    let (world, calls) = shared.into_parts(seats);
    drop(world);
    Ok(WholeHistory {
        calls,
        short,
        failed,
    })
}

/// Runs each actor of a script on a thread of its own, all on one shared world. Waits until all have ended.
///
/// `world` is the world of the program's states, with the one watcher of frames. `gate` is asked before each call. An
/// actor that runs out of memory stops, and the others go on. Fails only before the first step, if there is no memory
/// for the actors. This project's own rule.
pub fn run_actors<
    W: Versions<P = BuiltIn> + Drop + Send + Sync,
    R: Threads + Wait + Sync,
    G: Gate + Sync,
>(rt: &R, alloc: Global, job: &Job, world: W, gate: &G) -> Result<ActorsEnd, NoMemory>
    requires { W.stands world (opening_world job.now.program.states.items) }
    ensures legal { IfOk result (λ r. IsLegal table (opening_world job.now.program.states.items) r.calls.items) }
    ensures woven { let parts = script_parts job.now.script.actors.items job.now.script.forms.items in
        IfOk result (λ r. r.short ≡ false →
        IsWoven (length job.now.script.actors.items) (initial_actor parts) (printed_history r.calls.items)) }
    ensures part { let parts = script_parts job.now.script.actors.items job.now.script.forms.items in
        IfOk result (λ r. CanBeCompleted (length job.now.script.actors.items) parts
        (opening_world job.now.program.states.items) (printed_history r.calls.items)) }
{
    if job.script.actors.is_empty() {
        return Ok(ActorsEnd {
            calls: Vec::new(alloc),
            short: false,
        });
    }
    let Ok(whole) = make_history(rt, alloc, job, world, gate) else {
        return Err(NoMemory);
    };
    let (calls, cut) = cut_history(whole.calls, whole.failed);
    Ok(ActorsEnd {
        calls,
        short: whole.short || cut,
    })
}
