// The calls that turn the old children of one node into the new ones.
ghost use Rattle.std.specs.Prelude.{◌≡◌, ◌++◌, ◌∷◌, [], List, Option, ℕ, map, length, slice_get, OnOk, IfOk};
ghost use Rattle.node_tree.specs.Calls.{attribute_of};
ghost use Rattle.node_tree.specs.declared.ops.Op.{Op as op_data};
ghost use Rattle.node_tree.specs.NodeTrees.{TreeNode, tree_node};
ghost use Rattle.node_tree.specs.Placing.{move_to, set_calls, joined_calls, completion};
ghost use Rattle.node_tree.specs.SiblingLists.{index_in, removals_at, arrange_at, arrangement, insert_of, flat_before, flat_new, part, part_of, distance_of, counts_after};
ghost use Rattle.rt_groups.specs.Nodes.{Nodes};

use crate::counts::Counts;
use crate::flat::NodeRef;
use crate::ops::{NewNode, NodeAttributes, Op, Ops};
use crate::sibling_index::SiblingIndex;
use crate::siblings::Sibling;
use rt_groups::Attribute;
use rt_values::NoMemory;
use std::alloc::Global;

// Appends a removal of each old sibling whose count is 0, from the last to the first. Neighbours are removed by one call.
// `ops` has `start` calls before.
pub(crate) fn push_removals(counts: &[usize], start: usize, ops: &mut Ops) -> Result<(), NoMemory>
    requires { length ops.old ≡ start }
    ensures { OnOk result (ops.new ≡ ops.old ++ joined_calls (removals_at 0 counts.now)) }
{
    let mut index = counts.len();
    while index > 0 {
        index -= 1;
        if counts[index] == 0 {
            ops.push_joined(start, Op::Remove { index, count: 1 })?;
        }
    }
    Ok(())
}

// Returns a copy of an attribute.
fn copy_attribute(alloc: Global, attribute: &Attribute) -> Result<Attribute, NoMemory>
    ensures { IfOk result (λ a. a ≡ attribute.now) }
{
    Ok(Attribute {
        name: attribute.name.copy()?,
        value: attribute.value.copy(alloc)?,
    })
}

// Returns a copy of the attributes.
pub(crate) fn copy_attributes(
    alloc: Global,
    attributes: &[Attribute],
) -> Result<NodeAttributes, NoMemory>
    ensures { IfOk result (λ all. all ≡ attributes.now) }
{
    let mut copied = NodeAttributes::new(alloc);
    for attribute in attributes {
        copied.push(copy_attribute(alloc, attribute)?)?;
    }
    Ok(copied)
}

// Returns a copy of a node, to insert it.
fn copy_node<'n>(alloc: Global, node: &NodeRef<'n>) -> Result<NewNode, NoMemory>
    ensures { IfOk result (λ n. n ≡ flat_new node.now) }
{
    let kind = node.kind;
    let attributes = node.attributes;
    Ok(NewNode {
        number: node.number,
        kind: kind.copy()?,
        attributes: copy_attributes(alloc, attributes)?,
    })
}

// Appends an insert of the node at `place`. The calls after the first `start` are joined.
fn push_insert<'n>(
    alloc: Global,
    index: usize,
    place: usize,
    new: &[NodeRef<'n>],
    start: usize,
    ops: &mut Ops,
) -> Result<(), NoMemory>
    ensures { (before calls : List op_data) → ops.old ≡ before ++ joined_calls calls → length before ≡ start →
        OnOk result (ops.new ≡ before ++ joined_calls (calls ++ insert_of index (slice_get new.now place))) }
{
    let Some(inserted) = new.get(place) else {
        return Ok(());
    };
    let node = copy_node(alloc, inserted)?;
    ops.push_joined(start, Op::InsertTopDown { index, node })
}

// Appends the report that a new node has all its children, if it was inserted: if `old`, which has what the node was and
// the nodes inside it, has nothing.
pub(crate) fn push_completion<'o, 'n>(
    alloc: Global,
    index: usize,
    old: &[NodeRef<'o>],
    new: &NodeRef<'n>,
    ops: &mut Ops,
) -> Result<(), NoMemory>
    ensures { (before : Option TreeNode) (children : Nodes) → old.now ≡ flat_before before →
        OnOk result (ops.new ≡ ops.old ++ completion before index
        (tree_node new.now.number new.now.kind new.now.attributes children)) }
{
    if !old.is_empty() {
        return Ok(());
    }
    let node = copy_node(alloc, new)?;
    ops.push(Op::InsertBottomUp { index, node })
}

// Takes the old sibling with the number out of those that are left, and returns the number of those before it. Returns
// `None` if none is left.
fn take_left<'s>(counts: &mut Counts, old: &SiblingIndex<'s>, number: u64) -> Option<usize>
    ensures distance { result ≡ distance_of (index_in number old.now) counts.old }
    ensures counts { counts.new ≡ counts_after (index_in number old.now) counts.old }
{
    match old.get(number) {
        Some(index) => counts.take_out(index),
        None => None,
    }
}

// Appends a move of the child that is `distance` after the index, or an insert of the node at `place`.
fn push_arrangement<'n>(
    alloc: Global,
    index: usize,
    distance: Option<usize>,
    place: usize,
    new: &[NodeRef<'n>],
    start: usize,
    ops: &mut Ops,
) -> Result<(), NoMemory>
    ensures { (before calls : List op_data) → ops.old ≡ before ++ joined_calls calls → length before ≡ start →
        OnOk result (ops.new
        ≡ before ++ joined_calls (calls ++ arrangement index distance (slice_get new.now place))) }
{
    match distance {
        Some(distance) => push_move(index, distance, start, ops),
        None => push_insert(alloc, index, place, new, start, ops),
    }
}

// Appends a move of each new sibling that is left of the old ones and not at its index yet, and an insert of each other
// one, in order. The calls after the first `start` are joined.
pub(crate) fn push_arrangements<'s, 'n>(
    alloc: Global,
    mut counts: Counts,
    old: &SiblingIndex<'s>,
    siblings: &[Sibling],
    new: &[NodeRef<'n>],
    start: usize,
    ops: &mut Ops,
) -> Result<(), NoMemory>
    ensures { (before calls : List op_data) → ops.old ≡ before ++ joined_calls calls → length before ≡ start →
        OnOk result (ops.new ≡ before ++ joined_calls
        (calls ++ arrange_at 0 (λ number. index_in number old.now) counts new.now siblings.now)) }
{
    for (index, sibling) in siblings.iter().enumerate() {
        let distance = take_left(&mut counts, old, sibling.number);
        push_arrangement(alloc, index, distance, sibling.start, new, start, ops)?;
    }
    Ok(())
}

// Appends a move of the child that is `distance` after the index, if it is not at the index. The calls after the first
// `start` are joined.
fn push_move(index: usize, distance: usize, start: usize, ops: &mut Ops) -> Result<(), NoMemory>
    ensures { (before calls : List op_data) → ops.old ≡ before ++ joined_calls calls → length before ≡ start →
        OnOk result (ops.new ≡ before ++ joined_calls (calls ++ move_to index distance)) }
{
    if distance > 0 {
        let Some(from) = index.checked_add(distance) else {
            return Err(NoMemory);
        };
        return ops.push_joined(
            start,
            Op::Move {
                from,
                to: index,
                count: 1,
            },
        );
    }
    Ok(())
}

// Appends a `set` for each attribute whose value differs.
pub(crate) fn push_sets(
    alloc: Global,
    old: &[Attribute],
    new: &[Attribute],
    ops: &mut Ops,
) -> Result<(), NoMemory>
    ensures { OnOk result (ops.new ≡ ops.old ++ set_calls (map attribute_of old.now) (map attribute_of new.now)) }
{
    let mut old_rest = old;
    let mut new_rest = new;
    while let Some((before, old_more)) = old_rest.split_first() {
        let Some((now, new_more)) = new_rest.split_first() else {
            break;
        };
        push_set(alloc, before, now, ops)?;
        old_rest = old_more;
        new_rest = new_more;
    }
    Ok(())
}

// Appends a `set` if the values of the attribute differ.
fn push_set(
    alloc: Global,
    before: &Attribute,
    now: &Attribute,
    ops: &mut Ops,
) -> Result<(), NoMemory>
    ensures { OnOk result (ops.new ≡ ops.old ++ set_calls (attribute_of before.now ∷ []) (attribute_of now.now ∷ [])) }
{
    if !before.value.same(&now.value) {
        let copied = copy_attribute(alloc, now)?;
        ops.push(Op::Set {
            name: copied.name,
            value: copied.value,
        })?;
    }
    Ok(())
}

// Returns the nodes from `start` to before `end`.
pub(crate) fn part_of_nodes<'s, 'n>(
    nodes: &'s [NodeRef<'n>],
    start: usize,
    end: usize,
) -> &'s [NodeRef<'n>]
    ensures { result.now ≡ part start end nodes.now }
{
    let below = end.min(nodes.len());
    &nodes[start.min(below)..below]
}

// Returns the old sibling with the number and the nodes inside it, or nothing if there is none.
pub(crate) fn old_part<'s, 'l, 'n>(
    nodes: &'s [NodeRef<'n>],
    siblings: &SiblingIndex<'l>,
    number: u64,
) -> &'s [NodeRef<'n>]
    ensures { result.now ≡ part_of siblings.now nodes.now (index_in number siblings.now) }
{
    let Some(index) = siblings.get(number) else {
        return part_of_nodes(nodes, 0, 0);
    };
    let Some(sibling) = siblings.siblings().get(index) else {
        return part_of_nodes(nodes, 0, 0);
    };
    part_of_nodes(nodes, sibling.start, sibling.end)
}
