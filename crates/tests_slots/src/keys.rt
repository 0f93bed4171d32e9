// Old siblings that new ones are matched with.
use group_keys::{SiblingKey, matches};
use rt_values::{NoMemory, Value};
use std::alloc::Global;
use std::test::Fail;

// Returns the siblings with site 4 and these values as keys.
fn siblings<'a>(alloc: Global, keys: &'a [Value]) -> Result<Vec<SiblingKey<'a>>, NoMemory> {
    let mut all = Vec::new(alloc);
    for key in keys {
        all.push(SiblingKey::new(4, Some(key)))?;
    }
    Ok(all)
}

// Returns the old index of the sibling that each new one is matched with.
fn indexes(alloc: Global, old: &[Value], new: &[Value]) -> Result<Vec<Option<usize>>, NoMemory> {
    let old = siblings(alloc, old)?;
    let new = siblings(alloc, new)?;
    matches(alloc, &old, &new)
}

#[test]
fn equal_siblings_are_matched_in_order(rt: HostRuntime) -> Result<(), Fail> {
    let five = [Value::Int(5), Value::Int(5), Value::Int(5)];
    let found = indexes(rt.alloc(), &five[..2], &five)?;
    assert!(rt; found.as_slice() == [Some(0usize), Some(1), None].as_slice());
    Ok(())
}
