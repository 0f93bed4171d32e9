// Desks of seats.
ghost use Rattle.std.specs.Prelude.{◌≡◌};
ghost use Rattle.snap_shared.specs.Seats.{IsSeat};

use crate::fixture::{counter_world, pop_seat, share};
use rt_streams::Gate;
use rt_values::View;
use snap_api::{Desk, Versions};
use snap_shared::{Seat, SeatView, Shared};
use std::alloc::Global;
use std::sync::Wait;
use std::sync::atomic::AtomicU64;
use std::sync::atomic::Ordering::SeqCst;
use std::test::Fail;

// Counts the calls, and those whose actor or step is not the expected one.
#[derive(Drop)]
struct CountingGate {
    actor: usize,
    calls: AtomicU64,
    wrong: AtomicU64,
}

impl Gate for CountingGate {
    fn pass(&self, actor: usize, step: u64) {
        let expected = self.calls.fetch_add(1, SeqCst);
        if actor != self.actor || step != expected {
            self.wrong.fetch_add(1, SeqCst);
        }
    }
}

// Takes a snapshot for watcher 0. Returns whether it has the name 1, and the counter changed.
fn takes<W: Versions + Drop, R: Wait, G: Gate>(
    alloc: Global,
    desk: &mut SeatView<'_, W, R, G>,
) -> bool
    ensures { desk.new.shared.now ≡ desk.old.shared.now }
{
    match desk.take_for(alloc, 0) {
        Ok((taken, changed)) => taken == 1 && changed.numbers() == [0u64].as_slice(),
        Err(_) => false,
    }
}

// Reads the counter. Returns whether it is 0.
fn shows_zero<W: Versions + Drop, R: Wait, G: Gate>(
    alloc: Global,
    desk: &mut SeatView<'_, W, R, G>,
) -> bool
    ensures { desk.new.shared.now ≡ desk.old.shared.now }
{
    desk.read(alloc, 0).is_ok_and(|value| value.number() == 0)
}

// Disposes the snapshot. Returns whether this is done.
fn disposes<W: Versions + Drop, R: Wait, G: Gate>(desk: &mut SeatView<'_, W, R, G>) -> bool
    ensures { desk.new.shared.now ≡ desk.old.shared.now }
{
    desk.dispose().is_ok()
}

// Makes calls at a desk whose gate has counted 5 calls. Returns whether the gate counts each one before the next.
fn counts_calls<W: Versions + Drop, R: Wait>(
    alloc: Global,
    desk: &mut SeatView<'_, W, R, CountingGate>,
    gate: &CountingGate,
) -> bool
    ensures { desk.new.shared.now ≡ desk.old.shared.now }
{
    let is_taken = takes(alloc, desk);
    let after_take = gate.calls.load(SeqCst);
    let is_read = shows_zero(alloc, desk) && shows_zero(alloc, desk);
    let after_reads = gate.calls.load(SeqCst);
    is_taken && is_read && disposes(desk) && (after_take, after_reads) == (6, 8)
}

// Makes calls at the desk of a seat. Returns whether its gate and the desk count them.
fn passes_the_gate<R: Wait, W: Versions + Drop>(
    rt: &R,
    alloc: Global,
    shared: &Shared<W>,
    seat: Seat<W>,
    gate: &CountingGate,
) -> bool
    requires { IsSeat shared.now seat }
{
    let mut desk = SeatView::new(rt, shared, seat, gate, 5, None);
    let is_counted = counts_calls(alloc, &mut desk, gate);
    let (_, step) = desk.into_seat();
    is_counted && step == 9
}

// Makes calls at the desk of the third of three seats of a new shared world. Returns whether they are counted.
fn third_passes_the_gate<R: Wait, V: Versions + Drop>(
    rt: &R,
    alloc: Global,
    world: V,
    gate: &CountingGate,
) -> Result<bool, Fail> {
    let (shared, mut seats) = share(rt, alloc, world, 3)?;
    let seat = pop_seat(&shared, &mut seats);
    Ok(passes_the_gate(rt, alloc, &shared, seat, gate))
}

#[test]
fn a_desk_passes_the_gate_before_each_call(rt: HostRuntime) -> Result<(), Fail> {
    let alloc = rt.alloc();
    let gate = CountingGate {
        actor: 2,
        calls: AtomicU64::new(5),
        wrong: AtomicU64::new(0),
    };
    assert!(rt; third_passes_the_gate(&rt, alloc, counter_world(alloc)?, &gate)?);
    assert!(rt; gate.calls.load(SeqCst) == 9);
    assert!(rt; gate.wrong.load(SeqCst) == 0);
    Ok(())
}
