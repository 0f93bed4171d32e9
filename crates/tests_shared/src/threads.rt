// Callers in threads of their own.
ghost use Rattle.std.specs.Prelude.{◌≡◌, All, length};
ghost use Rattle.snap_shared.specs.Seats.{IsSeat};

use crate::fixture::{World, counter_world, is_same, read, share};
use rt_values::{Caller, Kind, Name, Value};
use snap_api::{Entry, Reply, Request, Versions, run_calls};
use snap_plain::PlainWorld;
use snap_policy::BuiltIn;
use snap_shared::{Seat, Shared};
use std::alloc::Global;
use std::sync::Wait;
use std::test::Fail;
use std::thread::{self, Threads};

const THREADS: usize = 8;

const ROUNDS: u64 = 250; // five calls each

// Takes a snapshot of global. Returns its name, or `None` after another reply.
fn take_name<R: Wait, W: Versions + Drop>(
    rt: &R,
    alloc: Global,
    shared: &Shared<W>,
    seat: &mut Seat<W>,
) -> Option<Name>
    requires { IsSeat shared.now seat.old }
    ensures { IsSeat shared.now seat.new }
{
    let take = Request::Take {
        parent: 0,
        kind: Kind::Mutable,
    };
    match shared.call(rt, alloc, seat, take) {
        Reply::Taken(name) => Some(name),
        _ => None,
    }
}

// Reads the counter in a snapshot. Returns it, or `None` after another reply.
fn read_count<R: Wait, W: Versions + Drop>(
    rt: &R,
    alloc: Global,
    shared: &Shared<W>,
    seat: &mut Seat<W>,
    name: Name,
) -> Option<i64>
    requires { IsSeat shared.now seat.old }
    ensures { IsSeat shared.now seat.new }
{
    match shared.call(rt, alloc, seat, read(name)) {
        Reply::Got(Value::Int(count)) => Some(count),
        _ => None,
    }
}

// Adds 1 to the counter in a snapshot of its own, by five calls. Stops at an unexpected reply.
fn add_one<R: Wait, W: Versions + Drop>(
    rt: &R,
    alloc: Global,
    shared: &Shared<W>,
    seat: &mut Seat<W>,
)
    requires { IsSeat shared.now seat.old }
    ensures { IsSeat shared.now seat.new }
{
    let Some(name) = take_name(rt, alloc, shared, seat) else {
        return;
    };
    let Some(count) = read_count(rt, alloc, shared, seat, name) else {
        return;
    };
    let write = Request::Write {
        name,
        object: 0,
        value: Value::Int(count.wrapping_add(1)),
    };
    shared.call(rt, alloc, seat, write);
    shared.call(rt, alloc, seat, Request::Apply { name });
    shared.call(rt, alloc, seat, Request::Dispose { name });
}

fn work<R: Wait, W: Versions + Drop>(rt: &R, alloc: Global, shared: &Shared<W>, seat: &mut Seat<W>)
    requires { IsSeat shared.now seat.old }
    ensures { IsSeat shared.now seat.new }
{
    for _ in 0..ROUNDS {
        add_one(rt, alloc, shared, seat);
    }
}

// Lets all seats work at once.
fn work_together<R: Threads + Wait + Sync>(
    rt: &R,
    alloc: Global,
    shared: &Shared<World>,
    seats: &mut Vec<Seat<World>>,
)
    requires { All (λ x. IsSeat shared.now x) seats.old.items }
    ensures many { length seats.new.items ≡ length seats.old.items }
    ensures seats { All (λ x. IsSeat shared.now x) seats.new.items }
{
    thread::for_each_mut(
        rt,
        seats.as_mut_slice(),
        THREADS,
        &|_, seat: &mut Seat<World>|
            requires { IsSeat shared.now seat.now }
            ensures { IsSeat shared.entry.now seat.exit.now }
        { work(rt, alloc, shared, seat) },
    );
}

// Copies the calls of a history.
fn calls_of(alloc: Global, history: &[Entry]) -> Result<Vec<(Caller, Request)>, Fail> {
    let mut calls = Vec::new(alloc);
    for entry in history {
        calls.push((entry.caller, entry.request.copy(alloc)?))?;
    }
    Ok(calls)
}

// Counts the entries of a caller.
fn count_of_caller(history: &[Entry], caller: Caller) -> usize {
    history
        .iter()
        .filter(|entry| entry.caller == caller)
        .count()
}

// Whether each entry of a history has the reply with its index.
fn has_replies(history: &[Entry], replies: &[Reply]) -> bool {
    history.len() == replies.len()
        && history
            .iter()
            .zip(replies)
            .all(|(entry, reply)| is_same(&entry.reply, reply))
}

// Shares a counter world among the threads, and lets all work. Returns the world and its history.
fn worked_world<R: Threads + Wait + Sync>(
    rt: &R,
    alloc: Global,
) -> Result<(PlainWorld<BuiltIn>, Vec<Entry>), Fail> {
    let (shared, mut seats) = share(rt, alloc, counter_world(alloc)?, THREADS)?;
    work_together(rt, alloc, &shared, &mut seats);
    Ok(shared.into_parts(seats))
}

// Returns the count in global, or `None` if the read is refused.
fn count_in(alloc: Global, world: &mut PlainWorld<BuiltIn>) -> Option<i64> {
    world.read(alloc, 0, 0, 0).ok().map(|value| value.number())
}

// Whether a plain world gives the calls of a history the same replies, and has the same count then as `world`.
fn is_history_of(
    alloc: Global,
    world: &mut PlainWorld<BuiltIn>,
    history: &[Entry],
) -> Result<bool, Fail> {
    let mut plain = counter_world(alloc)?;
    let calls = calls_of(alloc, history)?;
    let replies = run_calls(alloc, &mut plain, &calls)?;
    let count = count_in(alloc, world);
    let is_counted = count.is_some() && count == count_in(alloc, &mut plain);
    Ok(is_counted && has_replies(history, &replies))
}

#[test]
fn ten_thousand_calls_are_those_of_a_plain_world(rt: HostRuntime) -> Result<(), Fail> {
    let alloc = rt.alloc();
    let (mut world, history) = worked_world(&rt, alloc)?;
    assert!(rt; history.len() == 10_000);
    for caller in 0..8 {
        assert!(rt; count_of_caller(&history, caller) == 1250);
    }
    assert!(rt; is_history_of(alloc, &mut world, &history)?);
    Ok(())
}
