// Frames over a world whose clock comes to its end.
ghost use Rattle.std.specs.Prelude.{◌≡◌, ◌<◌};

use crate::programs::checked_program;
use lang_checks::Checked;
use node_tree::UnitApplier;
use recomposer::{Composition, FrameStop};
use rt_groups::Report;
use rt_values::{Objects, Steps, Ty, Value};
use snap_api::{CLOCK_LIMIT, OwnDesk, Versions};
use snap_plain::PlainWorld;
use snap_policy::BuiltIn;
use snap_world::RecordWorld;
use std::alloc::Global;
use std::marker::Brand;
use std::sync::ledger::{Blank, Ledger};
use std::test::Fail;

// A node that shows a state.
const PROGRAM: &str = "(compose 1)
(state a Int Structural 7)
(fun root () (node Shown ((a (get a)))))";

// Makes a watcher and the state. Returns whether that succeeds.
fn makes_state<V: Versions<P = BuiltIn>>(alloc: Global, world: &mut V) -> bool {
    world.watchers() < 65536
        && world.watch(alloc).is_ok()
        && world.objects() < 65536
        && world
            .make(alloc, Ty::Int, BuiltIn::Structural, Value::Int(7))
            .is_ok()
}

// Makes a frame. `blank` is the ledger of the steps, which no test reads.
fn frame_counting<V: Versions<P = BuiltIn>, L: Ledger>(
    alloc: Global,
    composition: &mut Composition,
    world: &mut V,
    blank: Blank,
) -> Result<Report, FrameStop>
    requires name { blank.name ≡ L.name }
    requires parts { blank.parts ≡ L.parts }
    requires some { 0 < L.parts }
{
    let (book, share) = blank.open();
    let mut steps: Steps<L> = Steps::new(book, share);
    let mut asked = Objects::new(alloc);
    let mut desk = OwnDesk::new(world, &mut asked, 0, None);
    composition.frame(alloc, &mut desk, &mut UnitApplier, &mut steps)
}

// Returns the number of the next node, and how many groups and calls of the last good frame a composition has.
fn parts_of(composition: &Composition) -> [u64; 3] {
    [
        composition.next(),
        composition.table().len() as u64,
        composition.ops().len() as u64,
    ]
}

// Begins a frame. Returns whether the clock refuses it, and nothing changes or is read.
fn is_spent<V: Versions<P = BuiltIn>>(
    alloc: Global,
    composition: &mut Composition,
    world: &mut V,
) -> bool {
    let before = parts_of(composition);
    let mut asked = Objects::new(alloc);
    let mut desk = OwnDesk::new(world, &mut asked, 0, None);
    let begun = composition.begin(alloc, &mut desk);
    drop(desk);
    matches!(begun, Err(FrameStop::Spent))
        && parts_of(composition) == before
        && asked.numbers().is_empty()
}

// Begins two frames over a world whose clock is at its end. Returns whether both are refused, and the state stays.
fn refuses_the_first<V: Versions<P = BuiltIn>>(
    alloc: Global,
    program: &Checked,
    world: &mut V,
) -> Result<bool, Fail> {
    let mut composition = Composition::new(alloc, program, 0)?;
    Ok(
        makes_state(alloc, world)
            && is_spent(alloc, &mut composition, world)
            && is_spent(alloc, &mut composition, world)
            && parts_of(&composition) == [1, 0, 0]
            && matches!(world.read(alloc, 0, 0, 0), Ok(Value::Int(7))),
    )
}

// Makes a frame with the last tick of the clock, and begins another one. Returns whether the first is good, and the
// second refused.
fn refuses_the_second<V: Versions<P = BuiltIn>>(
    alloc: Global,
    program: &Checked,
    world: &mut V,
) -> Result<bool, Fail> {
    let mut composition = Composition::new(alloc, program, 0)?;
    let is_made = makes_state(alloc, world);
    let first = frame_counting::<V, Brand>(alloc, &mut composition, world, Blank::new(1));
    Ok(
        is_made
            && matches!(first, Ok(Report { nodes: 1, .. }))
            && is_spent(alloc, &mut composition, world)
            && parts_of(&composition) == [2, 2, 2],
    )
}

// At the end of the clock no frame begins, over either world, and all that there was stays.
#[test]
fn no_frame_begins_at_the_end_of_the_clock(rt: HostRuntime) -> Result<(), Fail> {
    let alloc = rt.alloc();
    let program = checked_program(alloc, PROGRAM.as_bytes())?;
    let mut plain: PlainWorld<BuiltIn> = PlainWorld::starting_at(alloc, CLOCK_LIMIT)?;
    let mut records: RecordWorld<BuiltIn> = RecordWorld::starting_at(alloc, CLOCK_LIMIT)?;
    assert!(rt; refuses_the_first(alloc, &program, &mut plain)?);
    assert!(rt; refuses_the_first(alloc, &program, &mut records)?);
    let mut plain: PlainWorld<BuiltIn> = PlainWorld::starting_at(alloc, CLOCK_LIMIT - 1)?;
    let mut records: RecordWorld<BuiltIn> = RecordWorld::starting_at(alloc, CLOCK_LIMIT - 1)?;
    assert!(rt; refuses_the_second(alloc, &program, &mut plain)?);
    assert!(rt; refuses_the_second(alloc, &program, &mut records)?);
    Ok(())
}
