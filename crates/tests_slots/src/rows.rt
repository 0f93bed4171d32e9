// The groups of a composition with one row for each key.
use rt_groups::{Attribute, Attributes, Group, GroupKind, Values};
use rt_values::{NoMemory, Objects, Value, Word};
use slot_table::{SharedGroup, Table, TableBuilder};
use std::alloc::Global;

// Appends a group with the number 9 that read object 7.
fn append(
    alloc: Global,
    groups: &mut TableBuilder,
    depth: u32,
    site: u32,
    what: GroupKind,
) -> Result<(), NoMemory> {
    let group = Group {
        depth,
        site,
        number: 9,
        what,
        reads: Objects::of(vec![in alloc; 7]?),
    };
    groups.push(SharedGroup::new(alloc, group)?)
}

// Returns the kind of a row, whose attribute `n` is `key`.
fn row(alloc: Global, key: i64) -> Result<GroupKind, NoMemory> {
    let mut attributes = Attributes::new(alloc);
    attributes.push(Attribute {
        name: Word::of(alloc, b"n")?,
        value: Value::Int(key),
    })?;
    Ok(GroupKind::Node {
        kind: Word::of(alloc, b"Row")?,
        attributes,
    })
}

// Returns the call of the root with the argument -1, and inside it for each key a key group with a row.
pub fn row_groups(alloc: Global, keys: &[i64]) -> Result<TableBuilder, NoMemory> {
    let mut groups = TableBuilder::new(alloc);
    let mut arguments = Values::new(alloc);
    arguments.push(Value::Int(-1))?;
    let root = GroupKind::Call {
        function: 0,
        arguments,
    };
    append(alloc, &mut groups, 0, 0, root)?;
    for key in keys {
        append(alloc, &mut groups, 1, 2, GroupKind::Key(Value::Int(*key)))?;
        let row = row(alloc, *key)?;
        append(alloc, &mut groups, 2, 3, row)?;
    }
    Ok(groups)
}

// Returns a table of the rows 1, 2 and 3.
pub fn three_rows(alloc: Global) -> Result<Table, NoMemory> {
    Table::from_groups(alloc, row_groups(alloc, &[1, 2, 3])?)
}
