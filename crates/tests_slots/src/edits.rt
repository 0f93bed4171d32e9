// Patches that reorder, remove and insert rows.
use crate::rows::{row_groups, three_rows};
use rt_values::NoMemory;
use slot_anchors::{Anchor, Anchors};
use slot_edit::{Patch, apply, reserve};
use std::alloc::Global;
use std::test::Fail;

// Returns anchors at the three keys of a table of rows and at its last node.
fn mark_rows(alloc: Global) -> Result<Anchors, NoMemory> {
    let mut anchors = Anchors::new(alloc);
    for group in [1, 3, 5, 6] {
        anchors.mark(group)?;
    }
    Ok(anchors)
}

// A patch of a table of the rows 1, 2 and 3: the keys of the new rows, the old index of each new group, the number of new
// groups, and the new indexes of the anchors of `mark_rows`.
struct Row {
    keys: &'static [i64],
    olds: &'static [Option<usize>],
    groups: usize,
    indexes: [Option<usize>; 4],
}

// Rows in another order, a row that is removed, and rows that are removed while a new one is inserted.
static PATCHES: [Row; 3] = [
    Row {
        keys: &[3, 1, 2],
        olds: &[
            Some(0),
            Some(5),
            Some(6),
            Some(1),
            Some(2),
            Some(3),
            Some(4),
        ],
        groups: 7,
        indexes: [Some(3), Some(5), Some(1), Some(2)],
    },
    Row {
        keys: &[1, 2],
        olds: &[Some(0), Some(1), Some(2), Some(3), Some(4)],
        groups: 5,
        indexes: [Some(1), Some(3), None, None],
    },
    Row {
        keys: &[4, 3],
        olds: &[Some(0), None, None, Some(5), Some(6)],
        groups: 5,
        indexes: [None, None, Some(3), Some(4)],
    },
];

// Returns the patch of a row.
fn patch_of(alloc: Global, row: &Row) -> Result<Patch, Fail> {
    let groups = row_groups(alloc, row.keys)?;
    Ok(Patch::new(alloc, groups, row.olds.to_vec(alloc)?)?)
}

// Reserves the capacity for `patch` and applies it. Returns the number of groups afterwards.
fn apply_patch(alloc: Global, anchors: &mut Anchors, patch: Patch) -> Result<usize, NoMemory> {
    let mut table = three_rows(alloc)?;
    reserve(&mut table, anchors, &patch)?;
    apply(&mut table, anchors, patch);
    Ok(table.len())
}

// Whether these are the indexes of the anchors of `mark_rows`.
fn has_indexes(anchors: &Anchors, indexes: &[Option<usize>; 4]) -> bool {
    if anchors.len() != 4 {
        return false;
    }
    for (number, index) in indexes.iter().enumerate() {
        if number >= anchors.len() || anchors.place(Anchor { number }) != *index {
            return false;
        }
    }
    true
}

// Whether the patch of a row gives its number of groups, and the anchors get its indexes.
fn anchors_follow(alloc: Global, row: &Row) -> Result<bool, Fail> {
    let mut anchors = mark_rows(alloc)?;
    let groups = apply_patch(alloc, &mut anchors, patch_of(alloc, row)?)?;
    Ok(groups == row.groups && has_indexes(&anchors, &row.indexes))
}

#[test]
fn anchors_follow_their_groups(rt: HostRuntime) -> Result<(), Fail> {
    for row in PATCHES.as_slice() {
        assert!(rt; anchors_follow(rt.alloc(), row)?);
    }
    Ok(())
}
