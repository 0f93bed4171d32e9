// A frame at a desk that has its world alone.
use crate::call_tables::{ONE, make_objects};
use rt_values::{Objects, View};
use snap_api::{Desk, OwnDesk, Versions};
use snap_plain::PlainWorld;
use snap_policy::BuiltIn;
use std::alloc::Global;
use std::test::Fail;

// Takes a snapshot for watcher 0, reads object 0 and disposes the snapshot. Returns whether the object changed and is 1.
fn make_frame<D: Desk>(alloc: Global, desk: &mut D) -> bool {
    match desk.take_for(alloc, 0) {
        Ok((_, changed)) => {
            let is_one = desk.read(alloc, 0).is_ok_and(|value| value.number() == 1);
            is_one && desk.dispose().is_ok() && changed.numbers() == [0u64].as_slice()
        }
        Err(_) => false,
    }
}

// Makes a frame at a desk of caller 7 over the world.
fn makes_frame_at_desk<V: Versions>(alloc: Global, world: &mut V) -> bool {
    let mut asked = Objects::new(alloc);
    let mut desk = OwnDesk::new(world, &mut asked, 7, None);
    make_frame(alloc, &mut desk)
}

#[test]
fn a_desk_takes_reads_and_disposes(rt: HostRuntime) -> Result<(), Fail> {
    let mut world = PlainWorld::<BuiltIn>::new(rt.alloc())?;
    assert!(rt; make_objects(rt.alloc(), &mut world, &[ONE]));
    assert!(rt; makes_frame_at_desk(rt.alloc(), &mut world));
    Ok(())
}
