// Shared plain worlds.
ghost use Rattle.std.specs.Prelude.{◌≡◌, ◌<◌, ◌≤◌, ◌+◌, IfOk, All, length};
ghost use Rattle.snap_shared.specs.Seats.{count_of, IsSeat};

use rt_values::{Name, Ty, Value};
use snap_api::{Entry, LogWorld, Reply, Request, Versions};
use snap_plain::PlainWorld;
use snap_policy::BuiltIn;
use snap_shared::{Seat, Shared};
use std::alloc::Global;
use std::sync::Wait;
use std::test::Fail;

pub(crate) type World = LogWorld<PlainWorld<BuiltIn>>;

// Makes a plain world with one counter, which is 0, and one watcher.
pub(crate) fn counter_world(alloc: Global) -> Result<PlainWorld<BuiltIn>, Fail> {
    let mut world: PlainWorld<BuiltIn> = PlainWorld::new(alloc)?;
    if world.objects() < 65536 {
        world.make(alloc, Ty::Int, BuiltIn::Counter, Value::Int(0))?;
    }
    if world.watchers() < 65536 {
        world.watch(alloc)?;
    }
    Ok(world)
}

// Shares a world among `count` callers.
pub(crate) fn share<R: Wait, V: Versions + Drop>(
    rt: &R,
    alloc: Global,
    world: V,
    count: usize,
) -> Result<(Shared<LogWorld<V>>, Vec<Seat<LogWorld<V>>>), Fail>
    requires some { 0 < count }
    ensures count { IfOk result (λ r. count_of r.0 ≡ count) }
    ensures many { IfOk result (λ r. length r.1.items ≡ count) }
    ensures seats { IfOk result (λ r. All (λ x. IsSeat r.0 x) r.1.items) }
{
    let (shared, seats) = Shared::new(rt, alloc, world, count)?;
    Ok((shared, seats))
}

// Takes the last of some seats of a shared world.
pub(crate) fn pop_seat<V: Versions + Drop>(
    shared: &Shared<LogWorld<V>>,
    seats: &mut Vec<Seat<LogWorld<V>>>,
) -> Seat<LogWorld<V>>
    requires some { 0 < length seats.old.items }
    requires seats { All (λ x. IsSeat shared.now x) seats.old.items }
    ensures last { IsSeat shared.now result }
    ensures rest { All (λ x. IsSeat shared.now x) seats.new.items }
    ensures count { length seats.old.items ≡ length seats.new.items + 1 }
{
    let Some(seat) = seats.pop() else {
        unreachable!()
    };
    seat
}

// Shares a world between two callers, and returns it with the seats of the first and the second.
pub(crate) fn two_seats<R: Wait, V: Versions + Drop>(
    rt: &R,
    alloc: Global,
    world: V,
) -> Result<(Shared<LogWorld<V>>, Seat<LogWorld<V>>, Seat<LogWorld<V>>), Fail>
    ensures count { IfOk result (λ r. count_of r.0 ≡ 2) }
    ensures first { IfOk result (λ r. IsSeat r.0 r.1) }
    ensures second { IfOk result (λ r. IsSeat r.0 r.2) }
{
    let (shared, mut seats) = share(rt, alloc, world, 2)?;
    let second = pop_seat(&shared, &mut seats);
    let first = pop_seat(&shared, &mut seats);
    Ok((shared, first, second))
}

// Ends a shared world of two seats, which return in another order than they were made. Returns its history.
pub(crate) fn history_of<V: Versions + Drop>(
    alloc: Global,
    shared: Shared<LogWorld<V>>,
    first: Seat<LogWorld<V>>,
    second: Seat<LogWorld<V>>,
) -> Result<Vec<Entry>, Fail>
    requires count { count_of shared ≡ 2 }
    requires first { IsSeat shared first }
    requires second { IsSeat shared second }
{
    let ends = vec![in alloc; second, first]?;
    let (_, history) = shared.into_parts(ends);
    Ok(history)
}

// A read of the counter in a snapshot.
pub(crate) fn read(name: Name) -> Request {
    Request::Read { name, object: 0 }
}

// A write of a number to the counter in global.
pub(crate) fn write(number: i64) -> Request {
    Request::Write {
        name: 0,
        object: 0,
        value: Value::Int(number),
    }
}

// Whether both replies are the same.
pub(crate) fn is_same(one: &Reply, other: &Reply) -> bool {
    match (one, other) {
        (Reply::Taken(name), Reply::Taken(same)) => name == same,
        (Reply::TakenFor(name, objects), Reply::TakenFor(same, list)) => {
            name == same && objects.numbers() == list.numbers()
        }
        (Reply::Got(value), Reply::Got(same)) => value.same(same),
        (Reply::Wrote { changed }, Reply::Wrote { changed: same }) => changed == same,
        (Reply::Applied, Reply::Applied) => true,
        (Reply::Disposed, Reply::Disposed) => true,
        (Reply::Refused(refusal), Reply::Refused(same)) => *refusal == *same,
        _ => false,
    }
}
