// Old siblings in a list by their numbers.
ghost use Rattle.std.specs.Prelude.{◌≡◌, ◌+◌, ◌-ℤ◌, true, false, slice_index_or, slice_set, IfOk, if◌then◌else◌};
ghost use Rattle.rt_groups.specs.Paths.{GroupKey, same_sibling};
ghost use Rattle.group_keys.specs.Queues.{natural, sibling_offset, entry_index, listed_index};

use crate::SiblingKey;
use rt_values::{NoMemory, Value};
use std::alloc::Global;

// The indexes of old siblings that have one site and numbers as keys. Each number from `lowest` on has an entry, which
// is 0 without an index, else the index plus 1.
#[derive(Drop)]
pub struct NumberedSiblings {
    site: u32,
    lowest: i64,
    entries: Vec<usize>,
}

impl NumberedSiblings {
    // Returns a list without entries.
    pub fn none(alloc: Global) -> NumberedSiblings
        ensures { (s : GroupKey) → listed_index result s ≡ None }
    {
        NumberedSiblings {
            site: 0,
            lowest: 0,
            entries: Vec::new(alloc),
        }
    }

    // Returns a list without indexes, for siblings with this site and `length` numbers from `lowest` on.
    pub fn with_length(
        alloc: Global,
        site: u32,
        lowest: i64,
        length: usize,
    ) -> Result<NumberedSiblings, NoMemory>
        ensures { IfOk result (λ n. (s : GroupKey) → listed_index n s ≡ None) }
    {
        Ok(NumberedSiblings {
            site,
            lowest,
            entries: vec![in alloc; 0usize; length]?,
        })
    }

    // Records `index` for `key`, and returns whether it does. An entry keeps the index that it has.
    #[inline(always)]
    pub fn put(&mut self, key: &SiblingKey, index: usize) -> bool
        ensures free { result ≡ true → listed_index self.old key.now ≡ None }
        ensures put { result ≡ true → (s : GroupKey) → listed_index self.new s
            ≡ (if same_sibling key.now s then Some index else listed_index self.old s) }
        ensures same { result ≡ false → (s : GroupKey) → listed_index self.new s ≡ listed_index self.old s }
    {
        match self.offset_of(key) {
            Some(offset) => put_at(&mut self.entries, offset, index),
            None => false,
        }
    }

    // Removes and returns the index of `key`.
    #[inline(always)]
    pub fn take(&mut self, key: &SiblingKey) -> Option<usize>
        ensures found { result ≡ listed_index self.old key.now }
        ensures left { (s : GroupKey) → listed_index self.new s
            ≡ (if same_sibling key.now s then None else listed_index self.old s) }
    {
        match self.offset_of(key) {
            Some(offset) => take_at(&mut self.entries, offset),
            None => None,
        }
    }

    // Returns the index of the entry of `key`, or `None` if the key has another site, is not a number, or is below the
    // lowest number.
    #[inline(always)]
    fn offset_of(&self, key: &SiblingKey) -> Option<usize>
        ensures { result ≡ sibling_offset self.now.site self.now.lowest key.now }
    {
        if key.site != self.site {
            return None;
        }
        match key.key {
            Some(Value::Int(number)) => offset_from(self.lowest, *number),
            _ => None,
        }
    }
}

// Returns how far `number` is above `lowest`, or no offset if it is below.
#[inline(always)]
fn offset_from(lowest: i64, number: i64) -> Option<usize>
    ensures { result ≡ natural (number -ℤ lowest) }
{
    if number < lowest {
        None
    } else {
        Some(number.abs_diff(lowest) as usize)
    }
}

// Records `index` in the entry at `offset` if there is one and it is 0. Returns whether it does.
#[inline(always)]
fn put_at(entries: &mut Vec<usize>, offset: usize, index: usize) -> bool
    ensures free { result ≡ true → slice_index_or entries.old.items offset 0 ≡ 0 }
    ensures put { result ≡ true → slice_index_or entries.new.items offset 0 ≡ index + 1 }
    ensures others { result ≡ true → entries.new.items ≡ slice_set entries.old.items offset (index + 1) }
    ensures same { result ≡ false → entries.new.items ≡ entries.old.items }
{
    if offset >= entries.len() || index == usize::MAX {
        return false;
    }
    if entries[offset] != 0 {
        return false;
    }
    entries[offset] = index + 1;
    true
}

// Removes and returns the index in the entry at `offset`.
#[inline(always)]
fn take_at(entries: &mut Vec<usize>, offset: usize) -> Option<usize>
    ensures found { result ≡ entry_index (slice_index_or entries.old.items offset 0) }
    ensures left { entries.new.items ≡ slice_set entries.old.items offset 0 }
{
    if offset >= entries.len() {
        return None;
    }
    let entry = entries[offset];
    entries[offset] = 0;
    entry.checked_sub(1)
}
