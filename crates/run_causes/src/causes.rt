// Causes of calls that run.
ghost use Rattle.std.specs.Prelude.{◌≡◌, ◌<◌, length, IfOk, IfSome};
ghost use Rattle.rt_values.specs.Maps.{contains};
ghost use Rattle.rt_values.specs.Values.{same_values};
ghost use Rattle.slot_table.specs.TableGroups.{group_at};
ghost use Rattle.run_causes.specs.Causes.{is_run, owed_among};
ghost use Rattle.run_causes.specs.TableCauses.{call_cause, found_cause, found_other_keys};

use rt_groups::{GroupKind, Values};
use rt_values::{NoMemory, ObjectNo, Objects, Value};
use slot_table::Table;
use std::alloc::Global;

/// Why a call runs, or that it does not. The first cause that holds counts.
#[derive(Drop)]
pub enum Cause {
    /// No call of the last good frame has its path.
    NewPath,
    /// The old call had these arguments, which are not the new ones.
    OtherArguments(Values),
    /// The old call read these owed objects itself, in ascending order.
    Read(Objects),
    /// The call does not run.
    Skipped,
}

/// What a frame did to a group.
#[derive(Drop)]
pub enum Mark {
    /// Of a call: why it ran, or that it did not.
    Call(Cause),
    /// Of a cell: whether its value was calculated.
    Cell { calculated: bool },
    /// Of a node or a key.
    Other,
}

impl Cause {
    /// Returns whether the call runs.
    pub fn runs(&self) -> bool
        ensures { result ≡ is_run self.now }
    {
        !matches!(self, Cause::Skipped)
    }
}

// Returns whether both lists have equal values in the same order.
fn same_lists(values: &[Value], others: &[Value]) -> bool
    ensures { result ≡ same_values values.now others.now }
{
    let mut rest = others;
    for value in values {
        let Some((other, more)) = rest.split_first() else {
            return false;
        };
        if !value.same(other) {
            return false;
        }
        rest = more;
    }
    rest.is_empty()
}

// Returns copies of values.
fn copies(alloc: Global, values: &[Value]) -> Result<Values, NoMemory>
    ensures { IfOk result (λ all. all ≡ values.now) }
{
    let mut all = Values::new(alloc);
    for value in values {
        all.push(value.copy(alloc)?)?;
    }
    Ok(all)
}

// Returns whether `x` is among the objects.
fn is_among(x: ObjectNo, objects: &[ObjectNo]) -> bool
    ensures { result ≡ contains x objects.now }
{
    for y in objects {
        if *y == x {
            return true;
        }
    }
    false
}

// Returns the owed objects that are among the reads.
fn owed_reads(alloc: Global, owed: &[ObjectNo], reads: &[ObjectNo]) -> Result<Objects, NoMemory>
    ensures { IfOk result (λ found. found ≡ owed_among owed.now reads.now) }
{
    let mut found = Objects::new(alloc);
    for x in owed {
        if is_among(*x, reads) {
            found.push(*x)?;
        }
    }
    Ok(found)
}

// Returns the cause of a call with the function and the arguments whose old group is the call at index `old`.
fn cause_after(
    alloc: Global,
    owed: &[ObjectNo],
    table: &Table,
    old: usize,
    function: usize,
    arguments: &[Value],
) -> Result<Cause, NoMemory>
    requires { old < length table.now.groups }
    ensures { let g = group_at table.now.groups old in
        IfOk result (λ c. c ≡ call_cause owed.now g.what g.reads function arguments.now) }
{
    match table.kind(old) {
        GroupKind::Call {
            function: callee,
            arguments: values,
        } => {
            if *callee != function || !same_lists(values.items(), arguments) {
                return Ok(Cause::OtherArguments(copies(alloc, values.items())?));
            }
        }
        _ => return Ok(Cause::OtherArguments(Values::new(alloc))),
    }
    let found = owed_reads(alloc, owed, table.reads(old))?;
    if found.numbers().is_empty() {
        return Ok(Cause::Skipped);
    }
    Ok(Cause::Read(found))
}

// Returns the cause of a call whose old group is at this index of the old table, if it has one.
pub fn cause_of(
    alloc: Global,
    owed: &[ObjectNo],
    table: &Table,
    found: Option<usize>,
    function: usize,
    arguments: &[Value],
) -> Result<Cause, NoMemory>
    requires { IfSome found (λ i. i < length table.now.groups) }
    ensures { IfOk result (λ c. c ≡ found_cause owed.now table.now.groups found function arguments.now) }
{
    match found {
        Some(old) => cause_after(alloc, owed, table, old, function, arguments),
        None => Ok(Cause::NewPath),
    }
}

// Returns whether a cell with these keys has no old cell with equal keys.
pub fn has_other_keys(table: &Table, found: Option<usize>, keys: &[Value]) -> bool
    requires { IfSome found (λ i. i < length table.now.groups) }
    ensures { result ≡ found_other_keys table.now.groups found keys.now }
{
    let Some(old) = found else {
        return true;
    };
    match table.kind(old) {
        GroupKind::Cell { keys: kept, .. } => !same_lists(kept.items(), keys),
        _ => true,
    }
}
