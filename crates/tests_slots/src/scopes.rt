// Recompose scopes of a table, and the calls that are owed.
use recompose_scopes::{OwedCalls, RecomposeScopes};
use rt_groups::{Group, GroupKind, Values};
use rt_values::{NoMemory, Objects};
use slot_table::{SharedGroup, Table, TableBuilder};
use std::alloc::Global;
use std::test::Fail;

// Appends a call with these reads.
fn append(alloc: Global, groups: &mut TableBuilder, reads: &[u64]) -> Result<(), NoMemory> {
    let what = GroupKind::Call {
        function: 0,
        arguments: Values::new(alloc),
    };
    let group = Group {
        depth: 0,
        site: 0,
        number: 0,
        what,
        reads: Objects::of(reads.to_vec(alloc)?),
    };
    groups.push(SharedGroup::new(alloc, group)?)
}

// Returns a table of calls. Those at the indexes 1, 2, 4 and 6 have reads.
fn table_of_calls(alloc: Global) -> Result<Table, NoMemory> {
    let mut groups = TableBuilder::new(alloc);
    append(alloc, &mut groups, &[])?;
    append(alloc, &mut groups, &[7, 8, 7])?;
    append(alloc, &mut groups, &[9])?;
    append(alloc, &mut groups, &[])?;
    append(alloc, &mut groups, &[8])?;
    append(alloc, &mut groups, &[])?;
    append(alloc, &mut groups, &[8, 9])?;
    Table::from_groups(alloc, groups)
}

// Returns the scopes of a table of calls.
fn scopes_of_calls(alloc: Global) -> Result<RecomposeScopes, NoMemory> {
    let table = table_of_calls(alloc)?;
    RecomposeScopes::of(alloc, &table)
}

// Whether the scopes are those of the table of calls, and have the indexes of their calls.
fn are_scopes_of_calls(scopes: &RecomposeScopes) -> bool {
    scopes.scopes_of(8) == [0usize, 2, 3].as_slice()
        && scopes.scopes_of(6).len() == 0
        && scopes.place(2) == Some(4)
        && scopes.place(4) == None
}

// Whether the next owed call from the first index of each row on is at the second one.
fn are_next(calls: &OwedCalls, rows: &[(usize, usize)]) -> bool {
    for (at, next) in rows {
        if calls.next_from(*at) != *next {
            return false;
        }
    }
    true
}

// Whether the calls that are owed for these objects are the next ones as the rows say.
fn are_owed(
    alloc: Global,
    scopes: &RecomposeScopes,
    objects: &[u64],
    rows: &[(usize, usize)],
) -> bool {
    match scopes.owed_calls(alloc, objects) {
        Ok(calls) => are_next(&calls, rows),
        Err(_) => false,
    }
}

// Objects that are owed, and for each of some indexes that of the next owed call. The last row owes nothing.
static OWED: [(&[u64], &[(usize, usize)]); 3] = [
    (
        &[8],
        &[(0, 1), (1, 1), (2, 4), (5, 6), (6, 6), (7, usize::MAX)],
    ),
    (
        &[9, 7, 9],
        &[(7, usize::MAX), (0, 1), (3, 6), (2, 2), (6, 6), (1, 1)],
    ),
    (&[], &[(0, usize::MAX)]),
];

#[test]
fn owed_calls_are_those_that_read_an_owed_object(rt: HostRuntime) -> Result<(), Fail> {
    let scopes = scopes_of_calls(rt.alloc())?;
    assert!(rt; are_scopes_of_calls(&scopes));
    for (objects, rows) in OWED.as_slice() {
        assert!(rt; are_owed(rt.alloc(), &scopes, objects, rows));
    }
    Ok(())
}
