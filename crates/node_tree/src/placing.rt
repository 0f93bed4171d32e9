// The calls that turn one tree of nodes into the next.
ghost use Rattle.std.specs.Prelude.{◌≡◌, ◌≤◌, ◌<◌, ◌-◌, ◌++◌, ◌∷◌, ℕ, List, Option, length, drop, OnOk, IfOk, IsTrue};
ghost use Rattle.rt_groups.specs.Nodes.{Nodes, None as no_nodes};
ghost use Rattle.node_tree.specs.declared.ops.Op.{Op as op_data};
ghost use Rattle.node_tree.specs.declared.ops.Op.TheVariants as op;
ghost use Rattle.node_tree.specs.NodeTrees.{TreeNode, tree_node, node_list};
ghost use Rattle.node_tree.specs.Placing.{set_calls, sets_since, children_since, calls_inside, completion, ops_between, ops};
ghost use Rattle.node_tree.specs.Premises.{AllDistinct, ChildrenAreDistinct};
ghost use Rattle.node_tree.specs.FlatNodes.{FlatNode, flat_nodes};
ghost use Rattle.node_tree.specs.SiblingLists.{sibling_calls, flat_before, first_node, nodes_from, BeginAlike, HaveSameNumbers};

use crate::counts::Counts;
use crate::flat::NodeRef;
use crate::level::{
    old_part, part_of_nodes, push_arrangements, push_completion, push_removals, push_sets,
};
use crate::ops::{Op, Ops};
use crate::sibling_index::SiblingIndex;
use crate::siblings::{Sibling, count_kept, list_siblings};
use rt_values::NoMemory;
use std::alloc::Global;

// Appends the removals, inserts and moves that turn the old siblings into the new ones.
fn push_child_calls<'s, 'n>(
    alloc: Global,
    old: &SiblingIndex<'s>,
    new: &[Sibling],
    nodes: &[NodeRef<'n>],
    ops: &mut Ops,
) -> Result<(), NoMemory>
    ensures { OnOk result (ops.new ≡ ops.old ++ sibling_calls old.now new.now nodes.now) }
{
    let counts = count_kept(alloc, old.siblings(), new)?;
    let start = ops.len();
    push_removals(&counts, start, ops)?;
    let left = Counts::new(alloc, counts)?;
    push_arrangements(alloc, left, old, new, nodes, start, ops)?;
    Ok(())
}

// Ends the calls inside a child, where `ops` had `start` calls before `down`: with `up`, or without `down` if there is
// no call inside.
fn end_inside(start: usize, ops: &mut Ops) -> Result<(), NoMemory>
    ensures { (before calls : List op_data) (index : ℕ) →
        ops.old ≡ before ++ (op.Down index ∷ calls) → length before ≡ start →
        OnOk result (ops.new ≡ before ++ calls_inside index calls) }
{
    if ops.len() == start.saturating_add(1) {
        ops.pop();
        return Ok(());
    }
    ops.push(Op::Up)
}

// Appends a `set` for each attribute of a node whose value differs.
fn push_node_sets<'o, 'n>(
    alloc: Global,
    old: &NodeRef<'o>,
    new: &NodeRef<'n>,
    ops: &mut Ops,
) -> Result<(), NoMemory>
    ensures { OnOk result (ops.new ≡ ops.old ++ set_calls old.now.attributes new.now.attributes) }
{
    let before = old.attributes;
    let now = new.attributes;
    push_sets(alloc, before, now, ops)
}

// Appends the `set` calls of a new node. The list `old` has what the node was and the nodes inside it, or nothing.
fn push_sets_since<'o, 'n>(
    alloc: Global,
    old: &[NodeRef<'o>],
    new: &NodeRef<'n>,
    ops: &mut Ops,
) -> Result<(), NoMemory>
    ensures { (before : Option TreeNode) → old.now ≡ flat_before before →
        OnOk result (ops.new ≡ ops.old ++ sets_since before new.now.attributes) }
{
    match old.first() {
        Some(before) => push_node_sets(alloc, before, new, ops),
        None => Ok(()),
    }
}

// Returns the nodes after the first one.
fn after_first<'s, 'n>(nodes: &'s [NodeRef<'n>]) -> &'s [NodeRef<'n>]
    ensures { result.now ≡ drop 1 nodes.now }
{
    part_of_nodes(nodes, 1, nodes.len())
}

// Appends the calls inside a new node, and the report of an inserted one. The list `new` has the node and the nodes inside it, and `old` has what the node
// was, or nothing.
#[cycle(place)]
fn push_inner<'o, 'n>(
    alloc: Global,
    index: usize,
    old: &[NodeRef<'o>],
    new: &[NodeRef<'n>],
    ops: &mut Ops,
) -> Result<(), NoMemory>
    ensures { (before : Option TreeNode) (node : FlatNode) (children : Nodes) →
        old.now ≡ flat_before before → new.now ≡ node ∷ flat_nodes children →
        ChildrenAreDistinct before → AllDistinct children →
        OnOk result (ops.new ≡ ops.old ++ (calls_inside index
        (sets_since before node.attributes ++ ops_between (children_since before) children)
        ++ completion before index (tree_node node.number node.kind node.attributes children))) }
{
    let Some((node, inside)) = new.split_first() else {
        return Ok(());
    };
    let start = ops.len();
    ops.push(Op::Down { index })?;
    push_sets_since(alloc, old, node, ops)?;
    push_level(alloc, after_first(old), inside, ops)?;
    end_inside(start, ops)?;
    push_completion(alloc, index, old, node, ops)
}

// Returns the nodes after the first one and those inside it.
fn after_first_sibling<'s, 'n>(nodes: &'s [NodeRef<'n>]) -> &'s [NodeRef<'n>]
    ensures rest { (n : Nodes) → nodes.now ≡ flat_nodes n → result.now ≡ flat_nodes (nodes_from 1 n) }
    ensures short { length result.now ≤ length nodes.now - 1 }
{
    match nodes.first() {
        Some(node) => part_of_nodes(nodes, node.inner.saturating_add(1), nodes.len()),
        None => nodes,
    }
}

// Returns the first node with those inside it.
fn first_sibling<'s, 'n>(nodes: &'s [NodeRef<'n>]) -> &'s [NodeRef<'n>]
    ensures first { (n : Nodes) → nodes.now ≡ flat_nodes n → result.now ≡ flat_before (first_node n) }
    ensures short { length result.now ≤ length nodes.now }
{
    match nodes.first() {
        Some(node) => part_of_nodes(nodes, 0, node.inner.saturating_add(1)),
        None => nodes,
    }
}

// Returns whether both lists begin with a node, and these nodes have one number.
fn begin_alike<'o, 'n>(old: &[NodeRef<'o>], new: &[NodeRef<'n>]) -> bool
    ensures alike { (o n : Nodes) → old.now ≡ flat_nodes o → new.now ≡ flat_nodes n → IsTrue result → BeginAlike o n }
    ensures some { IsTrue result → 0 < length new.now }
{
    let Some((kept, _old_rest)) = old.split_first() else {
        return false;
    };
    let Some((node, _new_rest)) = new.split_first() else {
        return false;
    };
    kept.number == node.number
}

// Returns whether the siblings of both lists have the same numbers in order.
fn have_same_numbers<'o, 'n>(old: &[NodeRef<'o>], new: &[NodeRef<'n>]) -> bool
    ensures { (o n : Nodes) → old.now ≡ flat_nodes o → new.now ≡ flat_nodes n → IsTrue result → HaveSameNumbers o n }
{
    let mut before = old;
    let mut after = new;
    while begin_alike(before, after) {
        before = after_first_sibling(before);
        after = after_first_sibling(after);
    }
    before.is_empty() && after.is_empty()
}

// Appends the calls inside the nodes of a level whose siblings have the numbers of the old ones in order.
#[cycle(place)]
fn push_same_level<'o, 'n>(
    alloc: Global,
    old: &[NodeRef<'o>],
    new: &[NodeRef<'n>],
    ops: &mut Ops,
) -> Result<(), NoMemory>
    ensures { (o n : Nodes) → old.now ≡ flat_nodes o → new.now ≡ flat_nodes n → AllDistinct o → AllDistinct n →
        HaveSameNumbers o n → OnOk result (ops.new ≡ ops.old ++ ops_between (node_list o) n) }
{
    let mut before = old;
    let mut after = new;
    let mut index = 0;
    while !after.is_empty() {
        push_inner(
            alloc,
            index,
            first_sibling(before),
            first_sibling(after),
            ops,
        )?;
        before = after_first_sibling(before);
        after = after_first_sibling(after);
        index += 1;
    }
    Ok(())
}

// Appends the calls that turn the old nodes of one level, and all inside them, into the new ones, where siblings may be
// removed, inserted or moved.
#[cycle(place)]
fn push_other_level<'o, 'n>(
    alloc: Global,
    old: &[NodeRef<'o>],
    new: &[NodeRef<'n>],
    ops: &mut Ops,
) -> Result<(), NoMemory>
    ensures { (o n : Nodes) → old.now ≡ flat_nodes o → new.now ≡ flat_nodes n → AllDistinct o → AllDistinct n →
        OnOk result (ops.new ≡ ops.old ++ ops_between (node_list o) n) }
{
    let old_siblings = list_siblings(alloc, old)?;
    let new_siblings = list_siblings(alloc, new)?;
    let old_index = SiblingIndex::new(alloc, &old_siblings)?;
    push_child_calls(alloc, &old_index, &new_siblings, new, ops)?;
    for (index, sibling) in new_siblings.iter().enumerate() {
        let before = old_part(old, &old_index, sibling.number);
        let after = part_of_nodes(new, sibling.start, sibling.end);
        push_inner(alloc, index, before, after, ops)?;
    }
    Ok(())
}

// Appends the calls that turn the old nodes of one level, and all inside them, into the new ones.
#[cycle(place)]
fn push_level<'o, 'n>(
    alloc: Global,
    old: &[NodeRef<'o>],
    new: &[NodeRef<'n>],
    ops: &mut Ops,
) -> Result<(), NoMemory>
    ensures { (o n : Nodes) → old.now ≡ flat_nodes o → new.now ≡ flat_nodes n → AllDistinct o → AllDistinct n →
        OnOk result (ops.new ≡ ops.old ++ ops_between (node_list o) n) }
{
    if have_same_numbers(old, new) {
        push_same_level(alloc, old, new, ops)
    } else {
        push_other_level(alloc, old, new, ops)
    }
}

/// Returns the calls that turn the old tree into the new one. The lists have the nodes of the trees in preorder.
///
/// Nodes are compared by their numbers. A node that keeps its number keeps what is inside it, where only what differs
/// is changed. Takes linear time where siblings keep their order, and else time n log n in their number.
pub fn place<'o, 'n>(
    alloc: Global,
    old: &[NodeRef<'o>],
    new: &[NodeRef<'n>],
) -> Result<Ops, NoMemory>
    ensures { (o n : Nodes) → old.now ≡ flat_nodes o → new.now ≡ flat_nodes n → AllDistinct o → AllDistinct n →
        IfOk result (λ calls. calls ≡ ops o n) }
{
    let mut calls = Ops::new(alloc);
    push_level(alloc, old, new, &mut calls)?;
    Ok(calls)
}

/// Returns the calls that remove all nodes that an applier has, and then make the new tree (`Applier.clear`).
pub fn place_anew<'n>(alloc: Global, new: &[NodeRef<'n>]) -> Result<Ops, NoMemory>
    ensures { (n : Nodes) → new.now ≡ flat_nodes n → AllDistinct n →
        IfOk result (λ calls. calls ≡ op.Clear ∷ ops no_nodes n) }
{
    let mut calls = Ops::new(alloc);
    calls.push(Op::Clear)?;
    push_level(alloc, part_of_nodes(new, 0, 0), new, &mut calls)?;
    Ok(calls)
}
