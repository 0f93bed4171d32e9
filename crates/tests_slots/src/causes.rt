// Why the calls of a frame ran, over two small tables.
use rt_groups::{Group, GroupKind, Values};
use rt_values::{NoMemory, Objects, Value};
use run_causes::{Cause, Mark, find_marks};
use slot_table::{SharedGroup, Table, TableBuilder};
use std::alloc::Global;
use std::test::Fail;

// A group of a table: its depth, its site, its one value, and the object that it read. A cell has the value as its key,
// a call as its argument.
struct Row(u32, u32, i64, u64, bool);

static OLD: [Row; 4] = [
    Row(0, 1, 0, 5, false),
    Row(1, 2, 1, 7, false),
    Row(2, 3, 1, 0, true),
    Row(1, 4, 2, 8, false),
];

static NEW: [Row; 6] = [
    Row(0, 1, 0, 5, false),
    Row(1, 2, 1, 7, false),
    Row(2, 3, 6, 0, true),
    Row(1, 4, 3, 8, false),
    Row(2, 3, 1, 0, true),
    Row(1, 5, 2, 8, false),
];

// Returns the kind of the group of a row.
fn kind_of(alloc: Global, row: &Row) -> Result<GroupKind, NoMemory> {
    let mut values = Values::new(alloc);
    values.push(Value::Int(row.2))?;
    if row.4 {
        return Ok(GroupKind::Cell {
            keys: values,
            value: Value::Int(0),
        });
    }
    Ok(GroupKind::Call {
        function: 0,
        arguments: values,
    })
}

// Appends the group of a row.
fn append(alloc: Global, groups: &mut TableBuilder, row: &Row) -> Result<(), NoMemory> {
    let group = Group {
        depth: row.0,
        site: row.1,
        number: 0,
        what: kind_of(alloc, row)?,
        reads: Objects::of(vec![in alloc; row.3]?),
    };
    groups.push(SharedGroup::new(alloc, group)?)
}

// Returns the table of the rows.
fn table_of(alloc: Global, rows: &[Row]) -> Result<Table, NoMemory> {
    let mut groups = TableBuilder::new(alloc);
    for row in rows {
        append(alloc, &mut groups, row)?;
    }
    Table::from_groups(alloc, groups)
}

// Returns a sign for a mark: `n` for a new path, `a` for other arguments, `r` for a read and `s` for a skipped call, `c`
// for a calculated cell and `k` for a kept one.
fn sign_of(mark: &Mark) -> u8 {
    match mark {
        Mark::Call(Cause::NewPath) => b'n',
        Mark::Call(Cause::OtherArguments(_)) => b'a',
        Mark::Call(Cause::Read(_)) => b'r',
        Mark::Call(Cause::Skipped) => b's',
        Mark::Cell { calculated: true } => b'c',
        Mark::Cell { .. } => b'k',
        Mark::Other => b'-',
    }
}

// Whether the marks have these signs.
fn have_signs(marks: &[Mark], signs: &[u8]) -> bool {
    if marks.len() != signs.len() {
        return false;
    }
    for (mark, sign) in marks.iter().zip(signs) {
        if sign_of(mark) != *sign {
            return false;
        }
    }
    true
}

#[test]
fn each_call_has_the_first_cause_that_holds(rt: HostRuntime) -> Result<(), Fail> {
    let alloc = rt.alloc();
    let old = table_of(alloc, OLD.as_slice())?;
    let new = table_of(alloc, NEW.as_slice())?;
    assert!(rt; have_signs(&find_marks(alloc, &[7, 8], &old, &new)?, b"srcacn"));
    assert!(rt; have_signs(&find_marks(alloc, &[], &old, &old)?, b"ssks"));
    Ok(())
}
