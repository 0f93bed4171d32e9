// Queues of old siblings.
ghost use Rattle.std.specs.Prelude.{◌≡◌, ◌++◌, ◌∷◌, [], true, false, drop, slice_get, IfOk, OnOk, OnErr, if◌then◌else◌};
ghost use Rattle.rt_groups.specs.Paths.{GroupKey, same_sibling};
ghost use Rattle.group_keys.specs.Queues.{queue_of, queued_indexes, mapped_queue};

use crate::numbered::NumberedSiblings;
use crate::{KeySurvey, SiblingKey};
use indexmap::IndexMap;
use rt_values::NoMemory;
use std::alloc::Global;
use std::collections::VecDeque;

// Indexes of old siblings with equal site and key, in order. Most queues have one index, which takes no memory of its
// own.
#[derive(Drop)]
pub struct Queue {
    first: Option<usize>,
    later: VecDeque<usize>,
}

impl Queue {
    // Returns the queue with one index.
    fn with(alloc: Global, index: usize) -> Queue
        ensures { queued_indexes result ≡ index ∷ [] }
    {
        Queue {
            first: Some(index),
            later: VecDeque::new(alloc),
        }
    }

    // Appends `index`.
    fn push(&mut self, index: usize) -> Result<(), NoMemory>
        ensures added { OnOk result (queued_indexes self.new ≡ queued_indexes self.old ++ index ∷ []) }
        ensures same { OnErr result (queued_indexes self.new ≡ queued_indexes self.old) }
    {
        self.later.push_back(index)?;
        Ok(())
    }

    // Removes and returns the first index.
    fn pop(&mut self) -> Option<usize>
        ensures found { result ≡ slice_get (queued_indexes self.old) 0 }
        ensures left { queued_indexes self.new ≡ drop 1 (queued_indexes self.old) }
    {
        match self.first.take() {
            Some(index) => Some(index),
            None => self.later.pop_front(),
        }
    }
}

/// The old siblings that no new sibling is matched with, as `Pending` keeps them: for each site and key a queue of
/// indexes. Each call takes constant time, except that growing and hashing a long key take longer. Siblings of one site
/// with numbers that lie close together are in a list by their numbers, and all others in a map.
#[derive(Drop)]
pub struct SiblingQueues<'a> {
    // The first indexes of siblings with listed numbers.
    numbered: NumberedSiblings,
    // The indexes of the other siblings, and those that were pushed after the map got an index.
    queues: IndexMap<SiblingKey<'a>, Queue>,
}

#[tactic(auto, unfolding(crate::specs::Queues::queue_of))]
impl<'a> SiblingQueues<'a> {
    /// Returns queues without items.
    pub fn new(alloc: Global) -> SiblingQueues<'a>
        ensures { (s : GroupKey) → queue_of result s ≡ [] }
    {
        SiblingQueues {
            numbered: NumberedSiblings::none(alloc),
            queues: IndexMap::new(alloc),
        }
    }

    /// Returns queues without items, with capacity for the surveyed siblings.
    pub fn for_siblings(alloc: Global, survey: &KeySurvey) -> Result<SiblingQueues<'a>, NoMemory>
        ensures { IfOk result (λ p. (s : GroupKey) → queue_of p s ≡ []) }
    {
        match survey.list_length() {
            Some(length) => SiblingQueues::with_list(alloc, survey, length),
            None => SiblingQueues::with_map(alloc, survey.count()),
        }
    }

    // Returns queues without items, with a list of this length for the surveyed numbers.
    fn with_list(
        alloc: Global,
        survey: &KeySurvey,
        length: usize,
    ) -> Result<SiblingQueues<'a>, NoMemory>
        ensures { IfOk result (λ p. (s : GroupKey) → queue_of p s ≡ []) }
    {
        Ok(SiblingQueues {
            numbered: NumberedSiblings::with_length(alloc, survey.site(), survey.lowest(), length)?,
            queues: IndexMap::new(alloc),
        })
    }

    // Returns queues without items, with a map for `count` different keys.
    fn with_map(alloc: Global, count: usize) -> Result<SiblingQueues<'a>, NoMemory>
        ensures { IfOk result (λ p. (s : GroupKey) → queue_of p s ≡ []) }
    {
        Ok(SiblingQueues {
            numbered: NumberedSiblings::none(alloc),
            queues: IndexMap::with_capacity(alloc, count)?,
        })
    }

    /// Appends `index` to the queue of `key`. After `NoMemory` the queues are unchanged.
    #[inline(always)]
    pub fn push(&mut self, alloc: Global, key: SiblingKey<'a>, index: usize) -> Result<(), NoMemory>
        ensures added { OnOk result ((s : GroupKey) → queue_of self.new s
            ≡ (if same_sibling key.entry s then queue_of self.old s ++ index ∷ [] else queue_of self.old s)) }
        ensures same { OnErr result ((s : GroupKey) → queue_of self.new s ≡ queue_of self.old s) }
    {
        if self.push_listed(&key, index) {
            return Ok(());
        }
        self.push_mapped(alloc, key, index)
    }

    // Appends `index` to the queue of `key` if the list has a free entry for it and the map is empty. Returns whether
    // it does.
    #[inline(always)]
    fn push_listed(&mut self, key: &SiblingKey<'a>, index: usize) -> bool
        ensures pushed { result ≡ true → (s : GroupKey) → queue_of self.new s
            ≡ (if same_sibling key.now s then queue_of self.old s ++ index ∷ [] else queue_of self.old s) }
        ensures same { result ≡ false → (s : GroupKey) → queue_of self.new s ≡ queue_of self.old s }
    {
        if !self.queues.is_empty() {
            return false;
        }
        self.numbered.put(key, index)
    }

    // Appends `index` to the queue of `key` in the map. After `NoMemory` the queues are unchanged.
    #[inline(never)]
    fn push_mapped(
        &mut self,
        alloc: Global,
        key: SiblingKey<'a>,
        index: usize,
    ) -> Result<(), NoMemory>
        ensures queue { OnOk result ((s : GroupKey) → mapped_queue self.new s
            ≡ (if same_sibling key.entry s then mapped_queue self.old s ++ index ∷ [] else mapped_queue self.old s)) }
        ensures same { OnErr result ((s : GroupKey) → mapped_queue self.new s ≡ mapped_queue self.old s) }
        ensures list { self.new.numbered ≡ self.old.numbered }
    {
        let again = key.copy();
        match self.queues.insert(key, Queue::with(alloc, index))? {
            None => Ok(()),
            Some(mut queue) => {
                let pushed = queue.push(index);
                // The queue goes back to its key in any case, which takes no memory.
                let Ok(_) = self.queues.insert(again, queue) else {
                    unreachable!();
                };
                pushed
            }
        }
    }

    /// Removes and returns the first index in the queue of `key` (`getNext` of `Pending`). The value in `key` need not
    /// live as long as those in the queues.
    #[inline(always)]
    pub fn take<'k>(&mut self, key: &SiblingKey<'k>) -> Option<usize>
        ensures found { result ≡ slice_get (queue_of self.old key.now) 0 }
        ensures left { (s : GroupKey) → queue_of self.new s
            ≡ (if same_sibling key.now s then drop 1 (queue_of self.old s) else queue_of self.old s) }
    {
        match self.numbered.take(key) {
            Some(index) => Some(index),
            None => self.take_mapped(key),
        }
    }

    // Removes and returns the first index in the map's queue of `key`.
    #[inline(never)]
    fn take_mapped<'k>(&mut self, key: &SiblingKey<'k>) -> Option<usize>
        ensures found { result ≡ slice_get (mapped_queue self.old key.now) 0 }
        ensures left { (s : GroupKey) → mapped_queue self.new s
            ≡ (if same_sibling key.now s then drop 1 (mapped_queue self.old s) else mapped_queue self.old s) }
        ensures list { self.new.numbered ≡ self.old.numbered }
    {
        // A shared borrow of the map may shorten the lifetime of its keys to that of `key`; a `&mut` may not.
        let index = self.queues.get_index_of(key)?;
        self.queues[index].pop()
    }
}
