// Counts of the old siblings that are left, by index.
ghost use Rattle.std.specs.Prelude.{◌≡◌, ◌+◌, ◌-◌, ◌≤◌, ◌<◌, ◌^◌, ◌++◌, ◌∷◌, [], length, take, slice_index_or, slice_set, IfOk, OnOk, IsTrue, ◌↔◌, ◌==◌, Some};
ghost use Rattle.node_tree.specs.SiblingLists.{distance_of, counts_after};
ghost use Rattle.node_tree.specs.Counting.{total, pairs, first_level, AreLevels, levels_after};

use rt_values::NoMemory;
use std::alloc::Global;
use std::marker::Model;

// Counts at one level.
#[derive(Drop)]
struct CountLevel {
    counts: Vec<usize>,
}

impl Model for CountLevel {
    ghost use Rattle.std.specs.Prelude.{List, ℕ};

    ghost Value = { List ℕ };

    ghost view = { λ l. l.counts.items };
}

impl CountLevel {
    // Returns the count at `index`, or 0 if there is none.
    fn get(&self, index: usize) -> usize
        ensures { result ≡ slice_index_or self.now index 0 }
    {
        if index < self.counts.len() {
            self.counts[index]
        } else {
            0
        }
    }

    // Subtracts 1 from the count at `index`, if there is one.
    fn subtract(&mut self, index: usize)
        ensures { self.new ≡ slice_set self.old index (slice_index_or self.old index 0 - 1) }
    {
        if index < self.counts.len() {
            self.counts[index] = self.counts[index].saturating_sub(1);
        }
    }

    // Whether there is no count.
    fn is_empty(&self) -> bool
        ensures { IsTrue result ↔ (self.now ≡ []) }
    {
        self.counts.is_empty()
    }

    // Returns the sums of neighbouring counts.
    fn pairs(&self, alloc: Global) -> Result<Self, NoMemory>
        requires { total self.now < 2 ^ 63 }
        ensures { IfOk result (λ l. l ≡ pairs self.now) }
    {
        let mut counts = Vec::new(alloc);
        let mut rest: &[usize] = &self.counts;
        while let Some((first, more)) = rest.split_first() {
            let Some((second, left)) = more.split_first() else {
                break;
            };
            counts.push(*first + *second)?;
            rest = left;
        }
        Ok(CountLevel { counts })
    }
}

// The counts of old siblings that are left, 1 or 0 for each. The levels above them give the sum of all counts before an
// index in logarithmic time.
#[derive(Drop)]
pub(crate) struct Counts {
    levels: Vec<CountLevel>,
}

impl Model for Counts {
    ghost use Rattle.std.specs.Prelude.{List, ℕ, ◌<◌, ◌^◌};
    ghost use Rattle.node_tree.specs.Counting.{total, first_level, AreLevels};

    ghost Value = { List ℕ };

    ghost view = { λ c. first_level c.levels.items };

    ghost invariant = { λ c. AreLevels (first_level c.levels.items) c.levels.items
        × (total (first_level c.levels.items) < 2 ^ 63) };
}

// Returns the sum of the counts before `index`.
#[tactic(auto, using(crate::proofs::CountLevels::level_step, crate::proofs::CountLevels::odd_sum))]
fn sum_before(levels: &[CountLevel], index: usize) -> usize
    requires levels { AreLevels (first_level levels.now) levels.now }
    requires few { total (first_level levels.now) < 2 ^ 63 }
    requires inside { index ≤ length (first_level levels.now) }
    ensures { result ≡ total (take index (first_level levels.now)) }
{
    let mut before = 0;
    let mut at = index;
    let mut rest = levels;
    while let Some((level, above)) = rest.split_first() {
        if at % 2 == 1 {
            before += level.get(at - 1);
        }
        at /= 2;
        rest = above;
    }
    before
}

// Subtracts 1 from the count at `index`, and from the sums above it.
#[tactic(auto, using(crate::proofs::CountLevels::after_step))]
fn subtract_one(levels: &mut [CountLevel], index: usize)
    ensures { levels.new ≡ levels_after index levels.old }
{
    let mut at = index;
    for level in levels.iter_mut() {
        level.subtract(at);
        at /= 2;
    }
}

// Appends the levels above `level`, which is appended first, up to a level without pairs.
fn add_levels(
    levels: &mut Vec<CountLevel>,
    alloc: Global,
    first: CountLevel,
) -> Result<(), NoMemory>
    requires empty { levels.old.items ≡ [] }
    requires few { total first < 2 ^ 63 }
    ensures levels { OnOk result (AreLevels first levels.new.items) }
    ensures first { OnOk result (first_level levels.new.items ≡ first) }
{
    let mut level = first;
    'levels: while !level.is_empty() {
        let above = level.pairs(alloc)?;
        levels.push(level)?;
        level = above;
    }
    Ok(())
}

impl Counts {
    // Returns these counts.
    pub(crate) fn new(alloc: Global, counts: Vec<usize>) -> Result<Self, NoMemory>
        requires { total counts.items < 2 ^ 63 }
        ensures { IfOk result (λ c. c ≡ counts.items) }
    {
        let mut levels = Vec::new(alloc);
        add_levels(&mut levels, alloc, CountLevel { counts })?;
        Ok(Counts { levels })
    }

    // Returns the sum of the counts before `index`.
    pub(crate) fn before(&self, index: usize) -> usize
        requires { index ≤ length self.now }
        ensures { result ≡ total (take index self.now) }
    {
        sum_before(&self.levels, index)
    }

    // Subtracts 1 from the count at `index`, and returns the sum of the counts before it. Returns `None` if the count
    // is 0 or there is no such index.
    pub(crate) fn take_out(&mut self, index: usize) -> Option<usize>
        ensures distance { result ≡ distance_of (Some index) self.old }
        ensures counts { self.new ≡ counts_after (Some index) self.old }
    {
        if self.is_out(index) {
            return None;
        }
        let before = self.before(index);
        self.subtract(index);
        Some(before)
    }

    // Whether the count at `index` is 0 or there is no such index.
    fn is_out(&self, index: usize) -> bool
        ensures { result ≡ (slice_index_or self.now index 0 == 0) }
    {
        match self.levels.first() {
            Some(level) => level.get(index) == 0,
            None => true,
        }
    }

    // Subtracts 1 from the count at `index`.
    fn subtract(&mut self, index: usize)
        requires { 0 < slice_index_or self.old index 0 }
        ensures { self.new ≡ slice_set self.old index (slice_index_or self.old index 0 - 1) }
    {
        subtract_one(&mut self.levels, index);
    }
}
