// The reads of a table and of its changes.
ghost use Rattle.std.specs.Prelude.{◌≡◌, IfOk};

use crate::rows::row_groups;
use rt_values::{NoMemory, Objects};
use slot_table::{ChangeList, ChangeListWriter, Table, TableBuilder, same_reads};
use std::alloc::Global;
use std::test::Fail;

// Runs of groups of a table of the rows 1, 2 and 3. An empty run stands for the group at its index in another table.
type Runs = &'static [(usize, usize)];

// Returns a table of rows in which only the group at index `other` reads object 5, and each other group reads object 7.
fn rows_with_other_reads(alloc: Global, keys: &[i64], other: usize) -> Result<Table, NoMemory> {
    let mut groups = row_groups(alloc, keys)?;
    if other < groups.len() {
        groups.set_reads(alloc, other, Objects::of(vec![in alloc; 5]?))?;
    }
    Table::from_groups(alloc, groups)
}

// Returns the changes of `table` to the groups of `runs`, where an empty run stands for the group
// of `others` at its index.
fn changes_to(
    alloc: Global,
    table: &Table,
    others: &Table,
    runs: &[(usize, usize)],
) -> Result<ChangeList, NoMemory>
    ensures { IfOk result (λ c. c.olds ≡ table.now.groups) }
{
    let mut writer = ChangeListWriter::new(alloc, table);
    for (from, to) in runs {
        if *from < *to && *to <= table.len() {
            writer.keep(*from, *to)?;
        } else if *from < others.len() {
            writer.push(others.share(*from)?)?;
        }
    }
    writer.into_change_list(alloc)
}

// Whether the changes of a table of the rows 1, 2 and 3 to the groups of `runs` keep the reads, if only the group at
// index `other` reads object 5, and each other group reads object 7. The other table has the rows 8 and 9, and only its
// group at index 3, the one of key 9, reads object 5.
fn keeps_reads(alloc: Global, runs: &[(usize, usize)], other: usize) -> Result<bool, NoMemory> {
    let table = rows_with_other_reads(alloc, &[1, 2, 3], other)?;
    let others = rows_with_other_reads(alloc, &[8, 9], 3)?;
    Ok(changes_to(alloc, &table, &others, runs)?.keeps_reads(&table))
}

// Whether the changes keep the reads if all groups of the table read the same object.
static EQUAL_READS: [(Runs, bool); 22] = [
    // Groups that stay, are replaced, removed, moved, inserted or repeated.
    (&[(0, 7)], true),
    (&[(0, 3), (3, 7)], true),
    (&[(0, 3), (1, 1), (4, 7)], true),
    (&[(0, 3), (3, 3), (4, 7)], false),
    (&[(0, 1), (3, 7)], false),
    (&[(0, 1), (5, 7), (1, 5)], true),
    (&[(0, 1), (5, 7), (3, 3), (2, 5)], false),
    (&[(0, 5), (1, 1), (5, 7)], false),
    (&[(0, 1), (1, 1), (2, 6), (1, 1)], true),
    (&[(0, 1), (5, 7), (1, 3)], false),
    (&[(0, 3), (1, 3)], false),
    (&[(0, 1), (1, 1), (3, 3), (1, 3)], false),
    // Blocks that change places, with a new group beside or between them, and three blocks in another order.
    (&[(0, 1), (3, 7), (1, 3)], true),
    (&[(0, 1), (5, 7), (1, 5)], true),
    (&[(0, 3), (5, 7), (3, 5)], true),
    (&[(0, 1), (1, 1), (2, 3), (5, 7), (3, 5)], true),
    (&[(0, 1), (3, 5), (1, 3), (1, 1), (6, 7)], true),
    (&[(0, 1), (3, 3), (2, 3), (5, 7), (3, 5)], false),
    (&[(0, 1), (5, 7), (1, 1), (2, 5)], true),
    (&[(0, 1), (2, 4), (1, 2), (4, 7)], true),
    (&[(1, 3), (0, 1), (3, 7)], true),
    (&[(0, 1), (5, 7), (3, 5), (1, 3)], true),
];

// Blocks that change places. The changes keep the reads exactly if the group with other reads is before this index.
static OTHER_READS: [(Runs, usize); 3] = [
    (&[(0, 1), (3, 7), (1, 3)], 1),
    (&[(0, 1), (5, 7), (1, 5)], 1),
    (&[(0, 3), (5, 7), (3, 5)], 3),
];

#[test]
fn exchanged_blocks_with_other_reads_are_found(rt: HostRuntime) -> Result<(), Fail> {
    for (runs, keep) in EQUAL_READS.as_slice() {
        assert!(rt; keeps_reads(rt.alloc(), runs, 7)? == *keep);
    }
    for (runs, first) in OTHER_READS.as_slice() {
        for other in 0..7 {
            assert!(rt; keeps_reads(rt.alloc(), runs, other)? == (other < *first));
        }
    }
    Ok(())
}

// Replaces the reads of groups so that they differ from group to group: the group at index `i` reads the object
// `first + i`, and reads it 0, 1 or 2 times.
fn set_different_reads(
    alloc: Global,
    groups: &mut TableBuilder,
    first: u64,
) -> Result<(), NoMemory> {
    for index in 0..groups.len() {
        let object = first.saturating_add(index as u64);
        let reads = Objects::of(vec![in alloc; object; index % 3]?);
        if index < groups.len() {
            groups.set_reads(alloc, index, reads)?;
        }
    }
    Ok(())
}

// Returns a table of rows with the reads of `set_different_reads`.
fn with_different_reads(alloc: Global, keys: &[i64], first: u64) -> Result<Table, NoMemory> {
    let mut groups = row_groups(alloc, keys)?;
    set_different_reads(alloc, &mut groups, first)?;
    Table::from_groups(alloc, groups)
}

// Returns the number of groups whose reads the changes lend without a preview, or `None` if they lend no reads, or
// reads that differ from those of the preview.
fn count_lent_reads(
    alloc: Global,
    changes: &ChangeList,
    table: &Table,
) -> Result<Option<usize>, NoMemory>
    requires { table.now.groups ≡ changes.now.olds }
{
    let Some(lent) = changes.shrunk_reads(table) else {
        return Ok(None);
    };
    let mut lent = lent;
    let preview = changes.preview(alloc, table)?;
    let previewed = preview.table();
    for index in 0..previewed.len() {
        match lent.next() {
            Some(reads) if same_reads(reads, previewed.reads(index)) => {}
            _ => return Ok(None),
        }
    }
    match lent.next() {
        Some(_) => Ok(None),
        None => Ok(Some(previewed.len())),
    }
}

// Returns what `count_lent_reads` returns for a table of the rows 1, 2 and 3 with the groups of `runs`. The other table
// has the rows 8 and 9. Both tables have the reads of `set_different_reads`.
fn count_reads_of_rows(alloc: Global, runs: &[(usize, usize)]) -> Result<Option<usize>, NoMemory> {
    let table = with_different_reads(alloc, &[1, 2, 3], 10)?;
    let others = with_different_reads(alloc, &[8, 9], 20)?;
    let changes = changes_to(alloc, &table, &others, runs)?;
    count_lent_reads(alloc, &changes, &table)
}

// The number of groups whose reads the changes lend.
static LENT: [(Runs, Option<usize>); 10] = [
    (&[(0, 1), (3, 6)], Some(4)),
    (&[(0, 1), (1, 1), (4, 7)], Some(5)),
    (&[(1, 1), (2, 5)], Some(4)),
    (&[(0, 1), (3, 5), (1, 1), (2, 2)], Some(5)),
    (&[(0, 3)], Some(3)),
    (&[(1, 1), (2, 3), (3, 3), (6, 7), (1, 1)], Some(5)),
    (&[(0, 3), (1, 1), (4, 7)], None),
    (&[(0, 1), (5, 7), (1, 3)], None),
    (&[(0, 1), (5, 7), (1, 5)], None),
    (&[(1, 1), (2, 2)], None),
];

#[test]
fn shrunk_changes_lend_the_reads_of_their_preview(rt: HostRuntime) -> Result<(), Fail> {
    for (runs, count) in LENT.as_slice() {
        assert!(rt; count_reads_of_rows(rt.alloc(), runs)? == *count);
    }
    Ok(())
}
