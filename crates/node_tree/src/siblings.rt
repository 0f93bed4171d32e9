// The siblings of a list of nodes in preorder.
ghost use Rattle.std.specs.Prelude.{◌≡◌, ◌≤◌, length, IfOk, if◌then◌else◌};
ghost use Rattle.std.specs.Option.{is_some};
ghost use Rattle.node_tree.specs.Counting.{total};
ghost use Rattle.node_tree.specs.SiblingLists.{sibling_list, kept_counts};

use crate::flat::NodeRef;
use crate::sibling_index::SiblingIndex;
use rt_values::NoMemory;
use std::alloc::Global;

// A sibling: the number and the index of its node, and the index after the nodes inside it.
#[derive(Clone, Copy, Debug)]
pub(crate) struct Sibling {
    pub(crate) number: u64,
    pub(crate) start: usize,
    pub(crate) end: usize,
}

// Returns the siblings of the list.
pub(crate) fn list_siblings<'n>(
    alloc: Global,
    nodes: &[NodeRef<'n>],
) -> Result<Vec<Sibling>, NoMemory>
    ensures { IfOk result (λ v. v.items ≡ sibling_list 0 0 nodes.now) }
{
    let mut siblings = Vec::new(alloc);
    let mut at = 0;
    while at < nodes.len() {
        let node = &nodes[at];
        let end = at + 1 + node.inner.min(nodes.len() - at - 1);
        siblings.push(Sibling {
            number: node.number,
            start: at,
            end,
        })?;
        at = end;
    }
    Ok(siblings)
}

// Returns 1 if there is an index, else 0.
fn count_of(found: Option<usize>) -> usize
    ensures count { result ≡ (if is_some found then 1 else 0) }
    ensures few { result ≤ 1 }
{
    if found.is_some() { 1 } else { 0 }
}

// Returns for each old sibling 1 if a new one has its number, else 0.
fn count_found<'s>(
    alloc: Global,
    old: &[Sibling],
    new: &SiblingIndex<'s>,
) -> Result<Vec<usize>, NoMemory>
    ensures counts { IfOk result (λ v. v.items ≡ kept_counts new.now old.now) }
    ensures few { IfOk result (λ v. total v.items ≤ length old.now) }
{
    let mut counts = Vec::new(alloc);
    for sibling in old {
        counts.push(count_of(new.get(sibling.number)))?;
    }
    Ok(counts)
}

// Returns for each old sibling 1 if a new one has its number, else 0.
pub(crate) fn count_kept(
    alloc: Global,
    old: &[Sibling],
    new: &[Sibling],
) -> Result<Vec<usize>, NoMemory>
    ensures counts { IfOk result (λ v. v.items ≡ kept_counts new.now old.now) }
    ensures few { IfOk result (λ v. total v.items ≤ length old.now) }
{
    if old.is_empty() {
        return Ok(Vec::new(alloc));
    }
    let index = SiblingIndex::new(alloc, new)?;
    count_found(alloc, old, &index)
}
