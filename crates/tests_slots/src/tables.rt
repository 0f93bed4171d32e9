// A reader of a table.
ghost use Rattle.std.specs.Prelude.{◌≡◌, ◌<◌, length};

use crate::rows::three_rows;
use rt_groups::GroupKind;
use rt_values::{NoMemory, Steps, Value};
use slot_table::{Reader, Table};
use std::alloc::Global;
use std::marker::Brand;
use std::sync::ledger::{Blank, Ledger};
use std::test::Fail;

// Returns the number, or -9 for another value.
fn int_of(value: &Value) -> i64 {
    match value {
        Value::Int(number) => *number,
        _ => -9,
    }
}

// Returns the key of the next group, or -9.
fn next_key(reader: &Reader) -> i64 {
    if !reader.more() {
        return -9;
    }
    match reader.key() {
        Some(key) => int_of(key),
        None => -9,
    }
}

// Returns 1 for a call, 2 for a node, 3 for a key and 4 for a cell.
fn kind_code(kind: &GroupKind) -> i64 {
    match kind {
        GroupKind::Call { .. } => 1,
        GroupKind::Node { .. } => 2,
        GroupKind::Key(_) => 3,
        GroupKind::Cell { .. } => 4,
    }
}

// Returns the kind, the number, the reads and the first value of the open group, each as 0 if it is not what the rows
// have.
fn open_values(reader: &Reader) -> [i64; 4]
    requires { 0 < length reader.now.open_groups }
{
    [
        kind_code(reader.kind()),
        if reader.number() == 9 { 9 } else { 0 },
        if reader.reads() == [7u64].as_slice() {
            7
        } else {
            0
        },
        if reader.payload_count() == 0 {
            0
        } else {
            int_of(reader.payload(0))
        },
    ]
}

// Opens the next group, appends its values, and closes the group if `closes`. Appends -9 if there is no next group.
fn visit_next<L: Ledger>(
    reader: &mut Reader,
    steps: &mut Steps<L>,
    closes: bool,
    values: &mut Vec<i64>,
) -> Result<(), NoMemory> {
    if !reader.more() {
        values.push(-9)?;
        return Ok(());
    }
    reader.open_group(steps)?;
    values.extend_from_slice(&open_values(reader))?;
    if closes {
        reader.close_group();
    }
    Ok(())
}

// Opens the root, skips the first row, opens the second and the node inside it, and closes the node. Appends what is
// seen.
fn visit_rows<L: Ledger>(
    reader: &mut Reader,
    steps: &mut Steps<L>,
    values: &mut Vec<i64>,
) -> Result<(), NoMemory> {
    visit_next(reader, steps, false, values)?;
    values.push(next_key(reader))?;
    if reader.more() {
        reader.skip_group();
    }
    values.push(next_key(reader))?;
    visit_next(reader, steps, false, values)?;
    visit_next(reader, steps, true, values)?;
    visit_next(reader, steps, true, values)
}

// Returns what `visit_rows` sees of a table.
fn values_read<L: Ledger>(alloc: Global, table: &Table, blank: Blank) -> Result<Vec<i64>, NoMemory>
    requires name { blank.name ≡ L.name }
    requires parts { blank.parts ≡ L.parts }
    requires some { 0 < L.parts }
{
    let (book, share) = blank.open();
    let mut steps: Steps<L> = Steps::new(book, share);
    let mut reader = Reader::new(alloc, table);
    let mut values = Vec::new(alloc);
    visit_rows(&mut reader, &mut steps, &mut values)?;
    Ok(values)
}

// Returns what `visit_rows` sees of the rows 1, 2 and 3.
fn values_of_rows(alloc: Global) -> Result<Vec<i64>, NoMemory> {
    let table = three_rows(alloc)?;
    values_read::<Brand>(alloc, &table, Blank::new(1))
}

// The root with its argument; the keys of the first two rows; the second row with its key; the node with its attribute;
// no next group.
static SEEN: [i64; 15] = [1, 9, 7, -1, 1, 2, 3, 9, 7, 2, 2, 9, 7, 2, -9];

#[test]
fn reader_opens_and_skips_groups(rt: HostRuntime) -> Result<(), Fail> {
    let values = values_of_rows(rt.alloc())?;
    assert!(rt; values.as_slice() == SEEN.as_slice());
    Ok(())
}
