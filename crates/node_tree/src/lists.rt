// Linked lists of nodes, which are split and joined without memory.
ghost use Rattle.std.specs.Prelude.{◌≡◌, ◌+◌, ◌≤◌, ◌<◌, ◌^◌, ◌++◌, ◌∷◌, [], List, length, take, drop, max, OnOk};
ghost use Rattle.gap_buffer.specs.Buffer.{exchanged_list};
ghost use Rattle.node_tree.specs.KeptNodes.{KeptValue, kept_list, list_weight};
ghost use Rattle.node_tree.specs.StoredTree.{opened_value, closed_value, inserted_value, with_attributes, data_after_set};

use crate::kept::KeptNode;
use crate::ops::NewNode;
use rt_values::{NoMemory, Value, Word};
use std::alloc::Global;
use std::collections::LinkedList;

// Splits off the nodes from `at` on.
#[tactic(auto, using(crate::proofs::StoredNodes::weight_split))]
pub(crate) fn split(list: &mut LinkedList<KeptNode>, at: usize) -> LinkedList<KeptNode>
    requires { at ≤ length list.old }
    ensures front { list.new ≡ take at list.old }
    ensures back { result ≡ drop at list.old }
    ensures weight { list_weight list.new + list_weight result ≡ list_weight list.old }
{
    match list.split_off(at) {
        Ok(back) => back,
        Err(_) => unreachable!(),
    }
}

// Takes all nodes out of the list.
pub(crate) fn take_all(list: &mut LinkedList<KeptNode>) -> LinkedList<KeptNode>
    ensures left { list.new ≡ [] }
    ensures all { result ≡ list.old }
{
    split(list, 0)
}

// Appends the nodes of `more`.
#[tactic(auto, using(crate::proofs::StoredNodes::weight_append, crate::proofs::StoredNodes::length_weight))]
pub(crate) fn join(list: &mut LinkedList<KeptNode>, more: LinkedList<KeptNode>)
    requires { list_weight list.old + list_weight more < 2 ^ 62 }
    ensures list { list.new ≡ list.old ++ more }
    ensures weight { list_weight list.new ≡ list_weight list.old + list_weight more }
{
    let mut more = more;
    if list.append(&mut more).is_err() {
        unreachable!();
    }
}

// Exchanges the nodes from `from` to `middle` with those from `middle` to `to`.
#[tactic(auto, using(crate::proofs::Exchanges::exchanged))]
pub(crate) fn exchange(list: &mut LinkedList<KeptNode>, from: usize, middle: usize, to: usize)
    requires order { (from ≤ middle) × (middle ≤ to) }
    requires inside { to ≤ length list.old }
    requires few { list_weight list.old < 2 ^ 62 }
    ensures list { list.new ≡ exchanged_list from middle to list.old }
    ensures weight { list_weight list.new ≡ list_weight list.old }
{
    let tail = split(list, to);
    let second = split(list, middle);
    let first = split(list, from);
    join(list, second);
    join(list, first);
    join(list, tail);
}

// Appends empty nodes until the list has at least `count` nodes.
pub(crate) fn fill_up(
    list: &mut LinkedList<KeptNode>,
    alloc: Global,
    count: usize,
) -> Result<(), NoMemory>
    ensures kept { length list.old ≤ length list.new }
    ensures few { length list.new ≤ max (length list.old) count }
    ensures enough { OnOk result (count ≤ length list.new) }
{
    for _ in list.len()..count {
        let node = KeptNode::empty(alloc)?;
        if list.push_back(node).is_err() {
            return Err(NoMemory);
        }
    }
    Ok(())
}

// Opens the first node between its siblings, and returns its children.
pub(crate) fn open_first(
    list: &mut LinkedList<KeptNode>,
    before: LinkedList<KeptNode>,
    after: LinkedList<KeptNode>,
) -> LinkedList<KeptNode>
    requires { 0 < length list.old }
    ensures node { (k : KeptValue) (more : List KeptValue) → list.old ≡ k ∷ more →
        (list.new ≡ opened_value before k after ∷ more) × (result ≡ kept_list k.children) }
{
    let Some(node) = list.front_mut() else {
        unreachable!()
    };
    let children = take_all(&mut node.children);
    node.before = before;
    node.after = after;
    children
}

// Closes the first node, which is open, with its children, and returns its siblings before and after it.
pub(crate) fn close_first(
    list: &mut LinkedList<KeptNode>,
    children: LinkedList<KeptNode>,
) -> (LinkedList<KeptNode>, LinkedList<KeptNode>)
    requires { 0 < length list.old }
    ensures node { (k : KeptValue) (more : List KeptValue) → list.old ≡ k ∷ more →
        (list.new ≡ closed_value children k ∷ more)
        × (result.0 ≡ kept_list k.before)
        × (result.1 ≡ kept_list k.after) }
{
    let Some(node) = list.front_mut() else {
        unreachable!()
    };
    node.children = children;
    let before = take_all(&mut node.before);
    let after = take_all(&mut node.after);
    (before, after)
}

// Makes the first node the inserted node, without children.
pub(crate) fn fill_first(list: &mut LinkedList<KeptNode>, node: NewNode)
    requires { 0 < length list.old }
    ensures { (k : KeptValue) (more : List KeptValue) → list.old ≡ k ∷ more →
        list.new ≡ inserted_value node ∷ more }
{
    let Some(kept) = list.front_mut() else {
        unreachable!()
    };
    let NewNode {
        number,
        kind,
        attributes,
    } = node;
    kept.number = number;
    kept.kind = kind;
    kept.attributes = attributes;
    kept.children.clear();
    kept.before.clear();
    kept.after.clear();
}

// Replaces the value of an attribute of the first node.
pub(crate) fn set_in_first(list: &mut LinkedList<KeptNode>, name: &Word, value: Value)
    requires { 0 < length list.old }
    ensures { (k : KeptValue) (more : List KeptValue) → list.old ≡ k ∷ more →
        list.new ≡ with_attributes (data_after_set name.now value k.attributes) k ∷ more }
{
    let Some(node) = list.front_mut() else {
        unreachable!()
    };
    node.attributes.set(name, value);
}
