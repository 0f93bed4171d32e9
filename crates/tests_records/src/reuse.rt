// How many records an object keeps.
use crate::chains::chain_of;
use rt_values::{Kind, Name, NoMemory, Ty, Value};
use snap_api::{Refusal, Versions};
use snap_ids::IdSet;
use snap_policy::BuiltIn;
use snap_reuse::{Readers, RecordReader, reusable};
use snap_world::RecordWorld;
use std::alloc::Global;
use std::test::Fail;

// The number of records of object 0 whose id is not 0, and of all its records.
fn counts(world: &RecordWorld<BuiltIn>) -> (usize, usize) {
    let chains = world.chains();
    if chains.objects() == 0 {
        return (0, 0);
    }
    let all = chains.count(0);
    let mut used: usize = 0;
    for i in 0..all {
        if chains.id_at(0, i) != 0 {
            used = used.saturating_add(1);
        }
    }
    (used, all)
}

// Returns readers with these ids, each with an id that is invalid for it.
fn readers_of(alloc: Global, rows: &[(u64, u64)]) -> Result<Readers, NoMemory> {
    let mut readers = Readers::new(alloc);
    for (id, invalid) in rows {
        let invalid = IdSet::of(alloc, *invalid)?;
        readers.push(RecordReader { id: *id, invalid })?;
    }
    Ok(readers)
}

// Records of a chain, the first of which was prepended first, with 0 for an invalid one; the ids of readers, each with
// an id that is invalid for it, or 0; and the id of the reusable record.
type Row = (&'static [u64], &'static [(u64, u64)], Option<u64>);

static REUSABLE: [Row; 14] = [
    // The readers 3, 6 and 8 read the records 2, 5 and 7.
    (&[5, 2, 7], &[(3, 0), (6, 0), (8, 0)], None),
    (&[5, 2, 7], &[(6, 0), (8, 0)], Some(2)),
    (&[5, 2, 7], &[(3, 0), (8, 0)], Some(5)),
    (&[5, 2, 7], &[(3, 0), (6, 0)], Some(7)),
    (&[5, 2, 7], &[(8, 0)], Some(2)),
    (&[5, 2, 7], &[(3, 0)], Some(5)),
    (&[5, 2, 7], &[(8, 0), (8, 0)], Some(2)),
    (&[5, 2, 7], &[], Some(2)),
    (&[5, 2, 7, 0], &[(3, 0), (6, 0), (9, 0)], Some(0)),
    // The reader 6 reads the record 2 if the id 5 is invalid for it.
    (&[2, 5, 7], &[(6, 0)], Some(2)),
    (&[2, 5, 7], &[(6, 0), (9, 0)], Some(2)),
    (&[2, 5, 7], &[(6, 0), (9, 0), (6, 5)], None),
    (&[2, 5, 0], &[(6, 0), (6, 5), (9, 0)], Some(0)),
    (&[2, 5, 7, 0], &[(6, 0), (9, 0), (6, 5)], Some(0)),
];

// Whether the reusable record of a row has the expected id.
fn is_reusable(alloc: Global, row: &Row) -> Result<bool, NoMemory> {
    let (records, readers, expected) = row;
    let chains = chain_of(alloc, records)?;
    let readers = readers_of(alloc, readers)?;
    Ok(chains.objects() > 0 && reusable(&chains, 0, &readers).map(|r| chains.id(r)) == *expected)
}

#[test]
fn the_lowest_record_without_readers_is_reusable(rt: HostRuntime) -> Result<(), Fail> {
    for row in REUSABLE.as_slice() {
        assert!(rt; is_reusable(rt.alloc(), row)?);
    }
    Ok(())
}

// Makes a world with one object, the number 0.
fn zero_world(alloc: Global) -> Result<RecordWorld<BuiltIn>, Fail> {
    let mut world: RecordWorld<BuiltIn> = RecordWorld::new(alloc)?;
    if world.objects() < 65536 {
        world.make(alloc, Ty::Int, BuiltIn::Structural, Value::Int(0))?;
    }
    Ok(world)
}

// Whether a write of this number to object 0 changes it.
fn writes<V: Versions>(alloc: Global, world: &mut V, name: Name, number: i64) -> bool {
    world.write(alloc, 0, name, 0, Value::Int(number)) == Ok(true)
}

// Whether object 0 has this number in a snapshot.
fn shows<V: Versions>(alloc: Global, world: &mut V, name: Name, number: i64) -> bool {
    world
        .read(alloc, 0, name, 0)
        .is_ok_and(|value| value.number() == number)
}

// Whether object 0 has at most so many records whose id is not 0, and so many in all.
fn has_at_most(world: &RecordWorld<BuiltIn>, used: usize, all: usize) -> bool {
    let (found, found_all) = counts(world);
    found <= used && found_all <= all
}

// Takes a snapshot, writes a number in global, and disposes the snapshot. Returns whether the snapshot shows the number
// before.
fn write_beside<V: Versions>(alloc: Global, world: &mut V, number: i64) -> Result<bool, Refusal> {
    let name = world.take(alloc, 0, 0, Kind::Mutable)?;
    let is_kept = writes(alloc, world, 0, number)
        && shows(alloc, world, name, number.wrapping_sub(1));
    world.dispose(0, name)?;
    Ok(is_kept)
}

// Makes 1,000 writes, each beside a snapshot. Returns whether the object has at most four records.
fn keeps_four(alloc: Global, world: &mut RecordWorld<BuiltIn>) -> Result<bool, Refusal> {
    for round in 1..1001 {
        if !(write_beside(alloc, world, round)? && has_at_most(world, 3, 4)) {
            return Ok(false);
        }
    }
    Ok(true)
}

#[test]
fn records_of_closed_snapshots_are_reused(rt: HostRuntime) -> Result<(), Fail> {
    let mut world = zero_world(rt.alloc())?;
    assert!(rt; keeps_four(rt.alloc(), &mut world)?);
    Ok(())
}

// Writes a number in a snapshot of a snapshot and then in global. The inner snapshot is applied if the number is even.
fn write_inside<V: Versions>(alloc: Global, world: &mut V, number: i64) -> Result<bool, Refusal> {
    let outer = world.take(alloc, 0, 0, Kind::Mutable)?;
    let inner = world.take(alloc, 0, outer, Kind::Mutable)?;
    let is_changed = writes(alloc, world, inner, number);
    if number % 2 == 0 {
        world.apply(alloc, 0, inner)?;
    } else {
        world.dispose(0, inner)?;
    }
    world.dispose(0, outer)?;
    Ok(is_changed && writes(alloc, world, 0, number))
}

// Makes 300 writes, each in a snapshot of a snapshot and in global. Returns whether the object has at most five
// records.
fn keeps_five(alloc: Global, world: &mut RecordWorld<BuiltIn>) -> Result<bool, Refusal> {
    for round in 1..301 {
        if !(write_inside(alloc, world, round)? && has_at_most(world, 3, 5)) {
            return Ok(false);
        }
    }
    Ok(true)
}

#[test]
fn records_of_nested_snapshots_are_reused(rt: HostRuntime) -> Result<(), Fail> {
    let mut world = zero_world(rt.alloc())?;
    assert!(rt; keeps_five(rt.alloc(), &mut world)?);
    Ok(())
}
