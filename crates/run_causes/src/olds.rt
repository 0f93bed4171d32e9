// The old group of each new group.
ghost use Rattle.std.specs.Prelude.{◌≡◌, ◌<◌, ◌≤◌, ◌+◌, ◌∷◌, [], ℕ, length, vec_len, IfOk, IfSome, OnOk};
ghost use Rattle.std.specs.Option.{option_map};
ghost use Rattle.rt_groups.specs.GroupForest.{GroupForest};
ghost use Rattle.rt_groups.specs.Paths.{GroupKey};
ghost use Rattle.rt_groups.specs.PreorderGroups.{preorder};
ghost use Rattle.path_laws.specs.GroupPaths.{old_indexes};
ghost use Rattle.group_keys.specs.Queues.{queue_of};
ghost use Rattle.slot_table.specs.ReaderStates.{group_key};
ghost use Rattle.slot_table.specs.TableGroups.{group_at};
ghost use Rattle.run_causes.specs.OldMatches.{table_key, AreSiblings, IsBelow, AreBelow, AreFoundBelow, key_indexes, inner_level, level_of, queued_levels, found_in, levels_after};

use group_keys::{SiblingKey, SiblingQueues};
use rt_groups::GroupKind;
use rt_values::{NoMemory, Value};
use slot_table::Table;
use std::alloc::Global;

// The old groups that no new group is matched with yet.
#[derive(Drop)]
struct Unmatched<'t> {
    table: &'t Table,
    // For each open group, from the top on, the old siblings of the groups inside it.
    levels: Vec<SiblingQueues<'t>>,
    ghost some: { 0 < vec_len levels },
    ghost below: { AreBelow (length table.now.groups) (queued_levels levels.items) },
}

impl<'t> Unmatched<'t> {
    // Returns all groups of `old`, before the first new group.
    fn new(alloc: Global, old: &'t Table) -> Result<Unmatched<'t>, NoMemory>
        ensures table { IfOk result (λ u. u.table.now.groups ≡ old.now.groups) }
        ensures levels { (before : GroupForest) → old.now.groups ≡ preorder 0 before →
            IfOk result (λ u. queued_levels u.levels.items ≡ level_of 0 before ∷ []) }
    {
        let queues = queue_siblings(alloc, old, 0, old.len())?;
        let mut levels = Vec::new(alloc);
        levels.push(queues)?;
        Ok(Unmatched { table: old, levels })
    }

    // Removes and returns the old group of the next new group, if there is one, and opens both. The new group has the
    // depth and the key of the group at index `i` of `new`.
    fn open_group(
        &mut self,
        alloc: Global,
        new: &Table,
        i: usize,
    ) -> Result<Option<usize>, NoMemory>
        requires { i < length new.now.groups }
        ensures found { IfOk result (λ found.
            found ≡ found_in (queued_levels self.old.levels.items) (group_at new.now.groups i)) }
        ensures below { IfOk result (λ found. IfSome found (λ at. at < length self.old.table.now.groups)) }
        ensures table { OnOk result (self.new.table.now.groups ≡ self.old.table.now.groups) }
        ensures levels { (before : GroupForest) → self.old.table.now.groups ≡ preorder 0 before →
            OnOk result (queued_levels self.new.levels.items
            ≡ levels_after before (queued_levels self.old.levels.items) (group_at new.now.groups i)) }
    {
        let table = self.table;
        self.levels.truncate(new.depth(i) as usize + 1);
        let innermost = self.levels.len() - 1;
        let found = self.levels[innermost].take(&key_at(new, i));
        let inside = queue_inside(alloc, table, found)?;
        self.levels.push(inside)?;
        Ok(found)
    }
}

// Returns the value of a key group.
fn key_in(what: &GroupKind) -> Option<&Value>
    ensures { option_map (λ v. v.now) result ≡ group_key what.now }
{
    match what {
        GroupKind::Key(value) => Some(value),
        _ => None,
    }
}

// Returns the site and the key of the group at index `i`.
fn key_at<'t>(table: &'t Table, i: usize) -> SiblingKey<'t>
    requires { i < length table.now.groups }
    ensures { result ≡ table_key (group_at table.now.groups i) }
{
    SiblingKey::new(table.site(i), key_in(table.kind(i)))
}

// Queues the siblings from index `from` to before index `to`.
fn queue_siblings<'t>(
    alloc: Global,
    table: &'t Table,
    from: usize,
    to: usize,
) -> Result<SiblingQueues<'t>, NoMemory>
    requires { to ≤ length table.now.groups }
    ensures queues { (depth : ℕ) (t : GroupForest) → AreSiblings table.now.groups depth from to t →
        IfOk result (λ queues. (s : GroupKey) → queue_of queues s ≡ key_indexes s from t) }
    ensures below { IfOk result (λ queues. IsBelow (length table.now.groups) (queue_of queues)) }
{
    let mut queues = SiblingQueues::new(alloc);
    let mut i = from;
    while i < to {
        queues.push(alloc, key_at(table, i), i)?;
        i = table.index_after(i);
    }
    Ok(queues)
}

// Queues the groups directly inside the old group at the index that was found, if there is one.
fn queue_inside<'t>(
    alloc: Global,
    old: &'t Table,
    found: Option<usize>,
) -> Result<SiblingQueues<'t>, NoMemory>
    requires { IfSome found (λ i. i < length old.now.groups) }
    ensures queues { (before : GroupForest) → old.now.groups ≡ preorder 0 before →
        IfOk result (λ queues. (s : GroupKey) → queue_of queues s ≡ inner_level before found s) }
    ensures below { IfOk result (λ queues. IsBelow (length old.now.groups) (queue_of queues)) }
{
    match found {
        Some(i) => {
            let _length = old.len();
            queue_siblings(alloc, old, i + 1, old.index_after(i))
        }
        None => Ok(SiblingQueues::new(alloc)),
    }
}

/// Returns for each new group, in preorder, the index of the old group with its path, if there is one (what `Pending`
/// finds while composing). Takes time linear in the number of groups, except that a long key takes longer.
pub fn find_olds(alloc: Global, old: &Table, new: &Table) -> Result<Vec<Option<usize>>, NoMemory>
    ensures olds { (before after : GroupForest) →
        old.now.groups ≡ preorder 0 before → new.now.groups ≡ preorder 0 after →
        IfOk result (λ olds. olds.items ≡ old_indexes before after) }
    ensures count { IfOk result (λ olds. vec_len olds ≡ length new.now.groups) }
    ensures below { IfOk result (λ olds. AreFoundBelow (length old.now.groups) olds.items) }
{
    let mut unmatched = Unmatched::new(alloc, old)?;
    let mut olds = Vec::new(alloc);
    for i in 0..new.len() {
        let found = unmatched.open_group(alloc, new, i)?;
        olds.push(found)?;
    }
    Ok(olds)
}
