// The index of each sibling by its number.
ghost use Rattle.std.specs.Prelude.{◌≡◌, ℕ, slice_get, IfOk, IsTrue};
ghost use Rattle.std.specs.Ordering.{nat_cmp};
ghost use Rattle.std.specs.BTreeMap.{get as mapped};
ghost use Rattle.node_tree.specs.SiblingLists.{index_in, is_numbered, Ascend};

use crate::siblings::Sibling;
use rt_values::NoMemory;
use std::alloc::Global;
use std::cell::Cell;
use std::collections::BTreeMap;
use std::marker::Model;

// Siblings whose indexes are found by number: by a search in the list if the numbers ascend, else by a map.
#[derive(Drop)]
pub(crate) struct SiblingIndex<'s> {
    siblings: &'s [Sibling],
    // The index of the last sibling of each number. `None` if the numbers ascend.
    by_number: Option<BTreeMap<u64, usize>>,
    // The index after the last answer of a search. The next answer is mostly there.
    hint: Cell<usize>,
}

impl<'s> Model for SiblingIndex<'s> {
    ghost use Rattle.std.specs.Prelude.{◌≡◌, ℕ, List, MatchOption};
    ghost use Rattle.std.specs.Ordering.{nat_cmp};
    ghost use Rattle.std.specs.BTreeMap.{get as mapped};
    ghost use Rattle.node_tree.specs.declared.siblings.Sibling.{Sibling as sibling_data};
    ghost use Rattle.node_tree.specs.SiblingLists.{index_in, Ascend};

    ghost Value = { List sibling_data };

    ghost view = { λ i. i.siblings.now };

    ghost invariant = { λ i. MatchOption i.by_number (Ascend i.siblings.now)
        (λ m. (number : ℕ) → mapped nat_cmp m number ≡ index_in number i.siblings.now) };
}

// Returns whether each number is less than the next one.
fn ascend(siblings: &[Sibling]) -> bool
    ensures { IsTrue result → Ascend siblings.now }
{
    siblings.is_sorted_by(|before, after| before.number < after.number)
}

// Returns the index of the last sibling of each number.
fn index_siblings(alloc: Global, siblings: &[Sibling]) -> Result<BTreeMap<u64, usize>, NoMemory>
    ensures { IfOk result (λ m. (number : ℕ) → mapped nat_cmp m number ≡ index_in number siblings.now) }
{
    let mut indexes = BTreeMap::new(alloc);
    for (index, sibling) in siblings.iter().enumerate() {
        indexes.insert(sibling.number, index)?;
    }
    Ok(indexes)
}

// Returns whether there is a sibling at `index`, and it has the number.
fn has_number(siblings: &[Sibling], index: usize, number: u64) -> bool
    ensures { result ≡ is_numbered number (slice_get siblings.now index) }
{
    match siblings.get(index) {
        Some(sibling) => sibling.number == number,
        None => false,
    }
}

// Returns the index of the sibling with the number, if the numbers ascend. Tries the index `guess` before a binary
// search.
fn find_ascending(siblings: &[Sibling], number: u64, guess: usize) -> Option<usize>
    requires { Ascend siblings.now }
    ensures { result ≡ index_in number siblings.now }
{
    if has_number(siblings, guess, number) {
        return Some(guess);
    }
    let index = siblings.partition_point(|sibling| sibling.number < number);
    if has_number(siblings, index, number) {
        Some(index)
    } else {
        None
    }
}

impl<'s> SiblingIndex<'s> {
    // Returns the index of the siblings. Builds a map only if the numbers do not ascend.
    pub(crate) fn new(alloc: Global, siblings: &'s [Sibling]) -> Result<Self, NoMemory>
        ensures { IfOk result (λ i. i ≡ siblings.now) }
    {
        let hint = Cell::new(0);
        if ascend(siblings) {
            return Ok(SiblingIndex {
                siblings,
                by_number: None,
                hint,
            });
        }
        let indexes = index_siblings(alloc, siblings)?;
        Ok(SiblingIndex {
            siblings,
            by_number: Some(indexes),
            hint,
        })
    }

    // Returns the siblings.
    pub(crate) fn siblings(&self) -> &'s [Sibling]
        ensures { result.now ≡ self.now }
    {
        self.siblings
    }

    // Returns the index of the last sibling with the number. Takes constant time if the numbers ascend and the sibling
    // comes right after the last one found, and otherwise logarithmic time.
    pub(crate) fn get(&self, number: u64) -> Option<usize>
        ensures { result ≡ index_in number self.now }
    {
        match &self.by_number {
            Some(indexes) => indexes.get(&number).copied(),
            None => self.search(number),
        }
    }

    // Returns the index of the sibling with the number, if the numbers ascend. Sets the hint to the index after it.
    fn search(&self, number: u64) -> Option<usize>
        requires { Ascend self.now }
        ensures { result ≡ index_in number self.now }
    {
        let index = find_ascending(self.siblings, number, self.hint.get())?;
        self.hint.set(index.saturating_add(1));
        Some(index)
    }
}
