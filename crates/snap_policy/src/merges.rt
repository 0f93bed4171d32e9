// Merges of two changes of a previous value, to the current value and to the applied value.
ghost use Rattle.std.specs.Prelude.{◌≡◌, None, IfOk, IsOk};
ghost use Rattle.snap_policy.specs.Table.{merge_counters, merge_largest, merge_lists, merged_items};

use rt_values::operators::{add, subtract};
use rt_values::{IntList, NoMemory, Value};
use std::alloc::Global;

// Adds the change from `previous` to `applied` to `current`, wrapping in 64 bits.
pub fn merge_counters(previous: &Value, current: &Value, applied: &Value) -> Option<Value>
    ensures { result ≡ merge_counters previous.now current.now applied.now }
{
    match (previous, current, applied) {
        (Value::Int(previous), Value::Int(current), Value::Int(applied)) => {
            Some(Value::Int(add(*current, subtract(*applied, *previous))))
        }
        _ => None,
    }
}

// Returns the greater of the current and the applied number.
pub fn merge_largest(current: &Value, applied: &Value) -> Option<Value>
    ensures { result ≡ merge_largest current.now applied.now }
{
    match (current, applied) {
        (Value::Int(current), Value::Int(applied)) => Some(Value::Int((*current).max(*applied))),
        _ => None,
    }
}

// Returns `current` followed by the items that `applied` added, if both begin with `previous`.
pub fn merge_lists(
    alloc: Global,
    previous: &Value,
    current: &Value,
    applied: &Value,
) -> Result<Option<Value>, NoMemory>
    ensures merged { IfOk result (λ m. m ≡ merge_lists previous.now current.now applied.now) }
    ensures free { merge_lists previous.now current.now applied.now ≡ None → IsOk result }
{
    match (previous, current, applied) {
        (Value::Ints(previous), Value::Ints(current), Value::Ints(applied)) => {
            merge_items(alloc, previous.items(), current, applied.items())
        }
        _ => Ok(None),
    }
}

// Merges the items of the lists, as `merge_lists`.
fn merge_items(
    alloc: Global,
    previous: &[i64],
    current: &IntList,
    applied: &[i64],
) -> Result<Option<Value>, NoMemory>
    ensures merged { IfOk result (λ m. m ≡ merged_items previous.now current.now applied.now) }
    ensures free { merged_items previous.now current.now applied.now ≡ None → IsOk result }
{
    if !current.items().starts_with(previous) || !applied.starts_with(previous) {
        return Ok(None);
    }
    let added = &applied[previous.len()..];
    if current.len() + added.len() > IntList::MOST_ITEMS {
        return Ok(None);
    }
    let mut merged = current.copy()?;
    merged.extend(added)?;
    Ok(Some(Value::Ints(merged)))
}
