// The list type behind values of the type Ints.
ghost use Rattle.std.specs.Prelude.{◌≡◌, ◌≤◌, ◌++◌, Bool, List, [], ℕ, ℤ, length, IfOk, OnOk, OnErr};
ghost use Rattle.rt_values.specs.Limits.{most_items};
ghost use Rattle.rt_values.specs.Values.{same_items};
ghost use Rattle.rt_values.specs.Operators.{range, list_with_item, concatenation, item_at};

use crate::NoMemory;
use std::alloc::Global;
use std::marker::Model;
use std::sync::Arc;

/// A list of at most `IntList::MOST_ITEMS` whole numbers. Copies share the numbers until one of them is changed.
#[derive(Drop)]
pub struct IntList {
    items: Arc<Vec<i64>>,
}

impl Model for IntList {
    ghost use Rattle.std.specs.Prelude.{List, ℤ, ◌≤◌, length};
    ghost use Rattle.rt_values.specs.Limits.{most_items};

    ghost Value = { List ℤ };

    ghost view = { λ l. l.items.value.items };

    ghost invariant = { λ l. length l.items.value.items ≤ most_items };
}

impl IntList {
    /// The maximum number of items, a rule of this project.
    pub const MOST_ITEMS: usize = 4096;

    /// Returns the empty list.
    pub fn new(alloc: Global) -> Result<Self, NoMemory>
        ensures { IfOk result (λ l. l ≡ []) }
    {
        Ok(IntList {
            items: Arc::new(alloc, Vec::new(alloc))?,
        })
    }

    /// Returns a copy of `items` as a list.
    pub fn of(alloc: Global, items: &[i64]) -> Result<Self, NoMemory>
        requires { length items.now ≤ most_items }
        ensures { IfOk result (λ l. l ≡ items.now) }
    {
        let items = items.to_vec(alloc)?;
        Ok(IntList {
            items: Arc::new(alloc, items)?,
        })
    }

    /// Returns the numbers from `first` to `end - 1`, at most the first `IntList::MOST_ITEMS` of them. The list is
    /// empty if `first` is not below `end`.
    pub fn range(alloc: Global, first: i64, end: i64) -> Result<Self, NoMemory>
        ensures { IfOk result (λ l. l ≡ range first end) }
    {
        let mut items = Vec::new(alloc);
        let mut next = first;
        while next < end && items.len() < IntList::MOST_ITEMS {
            items.push(next)?;
            next += 1;
        }
        Ok(IntList {
            items: Arc::new(alloc, items)?,
        })
    }

    /// Returns the items, at most `IntList::MOST_ITEMS` of them.
    pub fn items(&self) -> &[i64]
        ensures items { result.now ≡ self.now }
        ensures fits { length self.now ≤ most_items }
    {
        &self.items
    }

    /// Returns the number of items.
    pub fn len(&self) -> usize
        ensures { result ≡ length self.now }
    {
        self.items.len()
    }

    /// Returns the item at index `place`, or 0 if there is no such index.
    pub fn at(&self, place: i64) -> i64
        ensures { result ≡ item_at self.now place }
    {
        if place < 0 {
            return 0;
        }
        self.items.get(place as usize).copied().unwrap_or(0)
    }

    /// Appends `item`, unless the list has `IntList::MOST_ITEMS` items. After `NoMemory` the list is unchanged.
    pub fn push(&mut self, item: i64) -> Result<(), NoMemory>
        ensures ok { OnOk result (self.new ≡ list_with_item self.old item) }
        ensures err { OnErr result (self.new ≡ self.old) }
    {
        if self.items.len() < IntList::MOST_ITEMS {
            Arc::make_mut(&mut self.items)?.push(item)?;
        }
        Ok(())
    }

    /// Appends the items of `more` up to the limit `IntList::MOST_ITEMS`. After `NoMemory` the list is unchanged.
    pub fn extend(&mut self, more: &[i64]) -> Result<(), NoMemory>
        ensures ok { OnOk result (self.new ≡ concatenation self.old more.now) }
        ensures err { OnErr result (self.new ≡ self.old) }
    {
        let room = IntList::MOST_ITEMS - self.items.len();
        append(&mut self.items, &more[..room.min(more.len())])?;
        Ok(())
    }

    /// Appends the items of `other`, as `extend` does.
    pub fn concat(&mut self, other: &IntList) -> Result<(), NoMemory>
        ensures ok { OnOk result (self.new ≡ concatenation self.old other.now) }
        ensures err { OnErr result (self.new ≡ self.old) }
    {
        self.extend(other.items())
    }

    /// Returns a copy, which shares the numbers.
    pub fn copy(&self) -> Result<Self, NoMemory>
        ensures { IfOk result (λ l. l ≡ self.now) }
    {
        Ok(IntList {
            items: self.items.clone()?,
        })
    }

    /// Returns whether both lists have the same items in the same order.
    pub fn same(&self, other: &IntList) -> bool
        ensures { result ≡ same_items self.now other.now }
    {
        self.items.as_slice() == other.items.as_slice()
    }
}

// Appends `more`. Other lists that share the numbers keep theirs. After `NoMemory` the numbers are unchanged.
fn append(items: &mut Arc<Vec<i64>>, more: &[i64]) -> Result<(), NoMemory>
    ensures ok { OnOk result (items.new.value.items ≡ items.old.value.items ++ more.now) }
    ensures err { OnErr result (items.new.value.items ≡ items.old.value.items) }
{
    Arc::make_mut(items)?.extend_from_slice(more)?;
    Ok(())
}
