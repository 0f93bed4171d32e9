// Calls of two seats.
ghost use Rattle.snap_shared.specs.Seats.{IsSeat};

use crate::fixture::{counter_world, is_same, read, two_seats, write};
use rt_values::Value;
use snap_api::{Reply, Versions};
use snap_shared::{Seat, Shared};
use std::alloc::Global;
use std::sync::Wait;
use std::test::Fail;

// Writes at one seat, lets it meet another one, and reads there. Returns whether what was written is read.
fn reads_after_a_meeting<R: Wait, W: Versions + Drop>(
    rt: &R,
    alloc: Global,
    shared: &Shared<W>,
    first: &mut Seat<W>,
    second: &mut Seat<W>,
) -> bool
    requires first { IsSeat shared.now first.old }
    requires second { IsSeat shared.now second.old }
{
    let wrote = shared.call(rt, alloc, first, write(1));
    shared.meet(first, second);
    let got = shared.call(rt, alloc, second, read(0));
    is_same(&wrote, &Reply::Wrote { changed: true }) && is_same(&got, &Reply::Got(Value::Int(1)))
}

// Whether a write in a new shared world is read after a meeting.
fn is_read_after_a_meeting<R: Wait, V: Versions + Drop>(
    rt: &R,
    alloc: Global,
    world: V,
) -> Result<bool, Fail> {
    let (shared, mut first, mut second) = two_seats(rt, alloc, world)?;
    Ok(reads_after_a_meeting(rt, alloc, &shared, &mut first, &mut second))
}

#[test]
fn a_write_is_read_after_a_meeting(rt: HostRuntime) -> Result<(), Fail> {
    let alloc = rt.alloc();
    assert!(rt; is_read_after_a_meeting(&rt, alloc, counter_world(alloc)?)?);
    Ok(())
}
