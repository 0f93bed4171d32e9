// Sets of snapshot ids.
use rt_values::NoMemory;
use snap_ids::IdSet;
use std::alloc::Global;
use std::test::Fail;

// An edit of a set of ids.
#[derive(Clone, Copy)]
enum Edit {
    Add(u64),
    // Adds the ids from the first one up to but not including the second one.
    AddRange(u64, u64),
    Remove(u64),
    RemoveAll,
    // Adds the ids of another set, in a new set.
    With(&'static [u64]),
    // Removes the ids of another set, in a new set.
    Without(&'static [u64]),
}

// Edits of an empty set, and the ids of the set after each one.
static EDITS: [(Edit, &[u64]); 16] = [
    (Edit::AddRange(3, 6), &[3, 4, 5]),
    (Edit::Add(500), &[3, 4, 5, 500]),
    (Edit::Add(500), &[3, 4, 5, 500]),
    (Edit::Remove(4), &[3, 5, 500]),
    (Edit::Remove(77), &[3, 5, 500]),
    (Edit::Without(&[3]), &[5, 500]),
    (Edit::Add(200), &[5, 200, 500]),
    (Edit::Remove(5), &[200, 500]),
    (Edit::Add(3), &[3, 200, 500]),
    (Edit::Remove(3), &[200, 500]),
    (Edit::Add(1), &[1, 200, 500]),
    (Edit::Without(&[200, 300, 1]), &[500]),
    (Edit::Add(7), &[7, 500]),
    (Edit::With(&[9, 7, 2]), &[2, 7, 9, 500]),
    (Edit::RemoveAll, &[]),
    (Edit::With(&[4]), &[4]),
];

// Whether the ids of a set that are less than 600 are these, and the first of these is the lowest one.
fn has_ids(set: &IdSet, ids: &[u64]) -> bool {
    for id in 0..600 {
        if set.get(id) != ids.contains(&id) {
            return false;
        }
    }
    match ids {
        [first, ..] => set.lowest(9) == *first,
        [] => set.lowest(9) == 9,
    }
}

// Makes a set of these ids.
fn set_of(alloc: Global, ids: &[u64]) -> Result<IdSet, NoMemory> {
    let mut set = IdSet::new(alloc);
    for id in ids {
        set.set(*id)?;
    }
    Ok(set)
}

// Returns the ids of a set without those of another set.
fn difference(alloc: Global, set: &IdSet, others: &[u64]) -> Result<IdSet, NoMemory> {
    set.and_not(alloc, &set_of(alloc, others)?)
}

// Returns the ids of a set and those of another set.
fn union(alloc: Global, set: &IdSet, others: &[u64]) -> Result<IdSet, NoMemory> {
    set.or(alloc, &set_of(alloc, others)?)
}

// Applies an edit to a set.
fn apply_edit(alloc: Global, set: &mut IdSet, edit: Edit) -> Result<(), NoMemory> {
    match edit {
        Edit::Add(id) => set.set(id)?,
        Edit::AddRange(from, below) => set.add_range(from, below)?,
        Edit::Remove(id) => set.clear(id),
        Edit::RemoveAll => set.clear_all(),
        Edit::With(others) => *set = union(alloc, set, others)?,
        Edit::Without(others) => *set = difference(alloc, set, others)?,
    }
    Ok(())
}

#[test]
fn ids_are_added_and_removed(rt: HostRuntime) -> Result<(), Fail> {
    let mut set = IdSet::new(rt.alloc());
    for (step, ids) in EDITS.as_slice() {
        assert!(rt;
            apply_edit(rt.alloc(), &mut set, *step).is_ok() && has_ids(&set, ids),
            "{ids:?}"
        );
    }
    Ok(())
}
