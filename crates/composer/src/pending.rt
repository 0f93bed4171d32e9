// The old siblings that no new group is matched with.
ghost use Rattle.std.specs.Prelude.{◌≡◌, ◌<◌, ℕ, [], Some, true, false, length, drop, slice_get, if◌then◌else◌, IfOk, OnOk};
ghost use Rattle.std.specs.Option.{is_some};
ghost use Rattle.rt_groups.specs.Paths.{GroupKey, same_sibling};
ghost use Rattle.slot_table.specs.TableGroups.{group_at};
ghost use Rattle.group_keys.specs.Queues.{queue_of};
ghost use Rattle.composer.specs.OldSiblings.{sibling_key, level_indexes, is_level as is_group_at, inner_siblings, found_siblings, indexes_in, IsFoundIn};

use crate::compared::key_of;
use crate::last_groups::LastGroups;
use crate::old_groups::OldGroup;
use group_keys::{KeySurvey, SiblingKey, SiblingQueues};
use rt_values::NoMemory;
use slot_table::Table;
use std::alloc::Global;

/// The groups directly inside a group of the last frame that no new group is matched with yet (`Pending`).
#[derive(Drop)]
pub struct Pending<'a> {
    table: &'a Table,
    // The depth of the siblings.
    depth: usize,
    // The index of the next sibling, while new groups come in the order of the old ones.
    next: usize,
    // The queues of the unmatched siblings, after a new group came in another order. Few groups need queues, so these
    // are on the heap.
    queues: Option<Box<SiblingQueues<'a>>>,
    // Each queued index is that of a group.
    ghost inside: { (s : GroupKey) (k i : ℕ) → slice_get (indexes_in queues s) k ≡ Some i
        → i < length table.now.groups },
}

impl<'a> Pending<'a> {
    ghost use Rattle.composer.specs.Waiting.{waiting_siblings};

    // Returns the siblings at `depth` from the index `next` on.
    fn at(table: &'a Table, depth: usize, next: usize) -> Pending<'a>
        ensures groups { result.table.now.groups ≡ table.now.groups }
        ensures depth { result.depth ≡ depth }
        ensures next { result.next ≡ next }
        ensures ordered { is_some result.queues ≡ false }
    {
        Pending {
            table,
            depth,
            next,
            queues: None,
        }
    }

    /// Returns no siblings, for the inside of a new group.
    pub fn none(table: &'a Table) -> Pending<'a>
        ensures waiting { (s : GroupKey) → waiting_siblings result s ≡ [] }
        ensures table { result.table.now.groups ≡ table.now.groups }
    {
        Pending::at(table, 0, table.len())
    }

    /// Returns the groups directly inside `old`.
    pub fn inside(old: &OldGroup<'a>) -> Pending<'a>
        ensures waiting { (s : GroupKey) → waiting_siblings result s ≡ inner_siblings old.now s }
        ensures table { result.table.now.groups ≡ old.now.groups }
    {
        let depth = old.depth() as usize;
        let _length = old.table().len();
        Pending::at(old.table(), depth + 1, old.index() + 1)
    }

    /// Returns the groups directly inside `found`, which a new group is matched with, or no siblings if there is no
    /// such group.
    pub fn inside_found(last: &LastGroups<'a>, found: &Option<OldGroup<'a>>) -> Pending<'a>
        ensures waiting { (s : GroupKey) → waiting_siblings result s ≡ found_siblings found.now s }
        ensures table { IsFoundIn last.now.groups found.now → result.table.now.groups ≡ last.now.groups }
    {
        match found {
            None => Pending::none(last.table()),
            Some(old) => Pending::inside(old),
        }
    }

    /// Removes and returns the first unmatched sibling with the site and the key of `key` (`getNext`). While new groups
    /// come in the order of the old ones it takes constant time and no memory. All calls together take time linear in
    /// the siblings.
    #[inline(always)]
    pub fn take(
        &mut self,
        alloc: Global,
        key: &SiblingKey,
    ) -> Result<Option<OldGroup<'a>>, NoMemory>
        ensures found { IfOk result (λ found. found ≡ slice_get (waiting_siblings self.old key.now) 0) }
        ensures left { OnOk result ((s : GroupKey) → waiting_siblings self.new s
            ≡ (if same_sibling key.now s then drop 1 (waiting_siblings self.old s) else waiting_siblings self.old s)) }
        ensures table { OnOk result (self.new.table.now.groups ≡ self.old.table.now.groups) }
        ensures old { IfOk result (λ found. IsFoundIn self.old.table.now.groups found) }
    {
        if self.queues.is_none() {
            if !is_level(self.table, self.depth, self.next) {
                return Ok(None);
            }
            if sibling_at(self.table, self.next).eq(&*key) {
                return Ok(Some(self.take_next()));
            }
            self.queue_siblings(alloc)?;
        }
        Ok(self.take_queued(key))
    }

    // Removes and returns the next sibling.
    #[inline(always)]
    fn take_next(&mut self) -> OldGroup<'a>
        requires ordered { is_some self.old.queues ≡ false }
        requires level { is_group_at self.old.table.now.groups self.old.depth self.old.next ≡ true }
        ensures group { result ≡ record { groups = self.old.table.now.groups; index = self.old.next } }
        ensures found { (s : GroupKey)
            → same_sibling (sibling_key (group_at self.old.table.now.groups self.old.next)) s ≡ true →
            Some result ≡ slice_get (waiting_siblings self.old s) 0 }
        ensures left { (s : GroupKey) → waiting_siblings self.new s
            ≡ (if same_sibling (sibling_key (group_at self.old.table.now.groups self.old.next)) s
            then drop 1 (waiting_siblings self.old s) else waiting_siblings self.old s) }
        ensures table { self.new.table.now.groups ≡ self.old.table.now.groups }
    {
        let next = self.next;
        self.next = self.table.index_after(next);
        OldGroup::new(self.table, next)
    }

    // Puts the siblings from the next one on into queues.
    fn queue_siblings(&mut self, alloc: Global) -> Result<(), NoMemory>
        requires { is_some self.old.queues ≡ false }
        ensures queued { OnOk result (is_some self.new.queues ≡ true) }
        ensures same { OnOk result ((s : GroupKey) → waiting_siblings self.new s ≡ waiting_siblings self.old s) }
        ensures table { OnOk result (self.new.table.now.groups ≡ self.old.table.now.groups) }
    {
        let queues = queue_from(alloc, self.table, self.depth, self.next)?;
        self.queues = Some(Box::new(alloc, queues)?);
        Ok(())
    }

    // Removes and returns the first queued sibling with the site and the key of `key`.
    #[inline(always)]
    fn take_queued(&mut self, key: &SiblingKey) -> Option<OldGroup<'a>>
        requires { is_some self.old.queues ≡ true }
        ensures found { result ≡ slice_get (waiting_siblings self.old key.now) 0 }
        ensures left { (s : GroupKey) → waiting_siblings self.new s
            ≡ (if same_sibling key.now s then drop 1 (waiting_siblings self.old s) else waiting_siblings self.old s) }
        ensures table { self.new.table.now.groups ≡ self.old.table.now.groups }
        ensures old { IsFoundIn self.old.table.now.groups result }
    {
        match take_index(&mut self.queues, key) {
            Some(index) => Some(OldGroup::new(self.table, index)),
            None => None,
        }
    }
}

// Removes and returns the index of the first queued sibling with the site and the key of `key`.
#[inline(always)]
fn take_index(queues: &mut Option<Box<SiblingQueues>>, key: &SiblingKey) -> Option<usize>
    requires { is_some queues.old ≡ true }
    ensures same { is_some queues.new ≡ true }
    ensures found { result ≡ slice_get (indexes_in queues.old key.now) 0 }
    ensures left { (s : GroupKey) → indexes_in queues.new s
        ≡ (if same_sibling key.now s then drop 1 (indexes_in queues.old s) else indexes_in queues.old s) }
{
    match queues {
        Some(queues) => queues.take(key),
        None => unreachable!(),
    }
}

// Returns whether index `i` is that of a group of this depth.
#[inline(always)]
fn is_level(table: &Table, depth: usize, i: usize) -> bool
    ensures { result ≡ is_group_at table.now.groups depth i }
{
    i < table.len() && table.depth(i) as usize == depth
}

// Returns the site and the key of the group at index `i`.
#[inline(always)]
fn sibling_at<'a>(table: &'a Table, i: usize) -> SiblingKey<'a>
    requires { i < length table.now.groups }
    ensures { result ≡ sibling_key (group_at table.now.groups i) }
{
    SiblingKey::new(table.site(i), key_of(table.kind(i)))
}

// Returns the survey of the siblings at `depth` from the index `next` on.
fn survey_siblings(table: &Table, depth: usize, next: usize) -> KeySurvey {
    let mut survey = KeySurvey::new();
    let mut at = next;
    while at < table.len() {
        if table.depth(at) as usize != depth {
            return survey;
        }
        survey.add(&sibling_at(table, at));
        at = table.index_after(at);
    }
    survey
}

// Returns the queues of the siblings at `depth` from the index `next` on.
#[tactic(auto, using(crate::proofs::LevelIndexes::queue_is_whole, crate::proofs::LevelIndexes::level_inside))]
fn queue_from<'a>(
    alloc: Global,
    table: &'a Table,
    depth: usize,
    next: usize,
) -> Result<SiblingQueues<'a>, NoMemory>
    ensures queues { IfOk result (λ queues. (s : GroupKey) → queue_of queues s
        ≡ level_indexes s depth next (drop next table.now.groups)) }
    ensures inside { IfOk result (λ queues. (s : GroupKey) (k i : ℕ) → slice_get (queue_of queues s) k ≡ Some i →
        i < length table.now.groups) }
{
    let mut queues = SiblingQueues::for_siblings(alloc, &survey_siblings(table, depth, next))?;
    let mut at = next;
    while is_level(table, depth, at) {
        queues.push(alloc, sibling_at(table, at), at)?;
        at = table.index_after(at);
    }
    Ok(queues)
}
