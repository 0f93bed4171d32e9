// Matches new siblings with old ones.
ghost use Rattle.std.specs.Prelude.{◌≡◌, [], IfOk};
ghost use Rattle.rt_groups.specs.Paths.{GroupKey};
ghost use Rattle.group_keys.specs.Queues.{queue_of, indexes_of, matched_indexes};

use crate::{SiblingKey, SiblingQueues};
use rt_values::NoMemory;
use std::alloc::Global;

// Queues all old siblings.
fn queue_siblings<'a>(alloc: Global, old: &[SiblingKey<'a>]) -> Result<SiblingQueues<'a>, NoMemory>
    ensures { IfOk result (λ p. (s : GroupKey) → queue_of p s ≡ indexes_of 0 old.now s) }
{
    let mut queues = SiblingQueues::new(alloc);
    let mut at = 0;
    while at < old.len() {
        queues.push(alloc, old[at].copy(), at)?;
        at += 1;
    }
    Ok(queues)
}

/// Returns for each new sibling the index of the old sibling with equal site, key and occurrence. It queues the old
/// siblings and takes one for each new sibling, in time linear in both.
pub fn matches<'a>(
    alloc: Global,
    old: &[SiblingKey<'a>],
    new: &[SiblingKey<'a>],
) -> Result<Vec<Option<usize>>, NoMemory>
    ensures { IfOk result (λ all. all.items ≡ matched_indexes old.now [] new.now) }
{
    let mut queues = queue_siblings(alloc, old)?;
    let mut all = Vec::new(alloc);
    let mut at = 0;
    while at < new.len() {
        all.push(queues.take(&new[at]))?;
        at += 1;
    }
    Ok(all)
}
