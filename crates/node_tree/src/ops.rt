// The calls on an applier as data.
ghost use Rattle.std.specs.Prelude.{◌≡◌, ◌≤◌, ◌<◌, ◌++◌, ◌∷◌, [], List, None, length, slice_set, slice_index_or, IfOk, OnOk, OnErr, IfSome, IsNone};
ghost use Rattle.std.specs.Str.{bytes_eq};
ghost use Rattle.rt_values.specs.declared.value.Value.{Value as value_data};
ghost use Rattle.rt_groups.specs.declared.groups.Attribute.{Attribute as attribute_data};
ghost use Rattle.node_tree.specs.StoredTree.{data_after_set};
ghost use Rattle.node_tree.specs.Calls.{insert_count};
ghost use Rattle.node_tree.specs.declared.ops.Op.{Op as op_data};
ghost use Rattle.node_tree.specs.Placing.{joined_call, joined_removal, joined_move, joined_calls};

use rt_groups::Attribute;
use rt_values::{NoMemory, Value, Word};
use std::alloc::Global;
use std::marker::Model;

/// The attributes of a node, in order.
#[derive(Drop)]
pub struct NodeAttributes {
    items: Vec<Attribute>,
}

impl Model for NodeAttributes {
    ghost use Rattle.std.specs.Prelude.{List};
    ghost use Rattle.rt_groups.specs.declared.groups.Attribute.{Attribute};

    ghost Value = { List Attribute };

    ghost view = { λ l. l.items.items };
}

/// A node to insert, without children.
#[derive(Drop)]
pub struct NewNode {
    /// The number of the node, which it keeps as long as its group is composed.
    pub number: u64,
    /// The kind of the node.
    pub kind: Word,
    /// The attributes of the node, in order.
    pub attributes: NodeAttributes,
}

/// A call on an `Applier`. Indexes are those of the children of the current node.
#[derive(Drop)]
pub enum Op {
    /// `down`: makes the child at `index` the current node.
    Down {
        index: usize,
    },
    /// `up`: makes the parent of the current node the current node.
    Up,
    /// `insertTopDown`: inserts the node before the child at `index`.
    InsertTopDown {
        index: usize,
        node: NewNode,
    },
    /// `insertBottomUp`: reports that the child at `index`, which is this node, has all its children.
    InsertBottomUp {
        index: usize,
        node: NewNode,
    },
    /// `remove`: removes the `count` children at `index`.
    Remove {
        index: usize,
        count: usize,
    },
    /// `move`: moves the `count` children at `from` to before the child at `to`.
    Move {
        from: usize,
        to: usize,
        count: usize,
    },
    /// Replaces the value of an attribute of the current node.
    Set {
        name: Word,
        value: Value,
    },
    /// `clear`: removes all nodes.
    Clear,
}

/// The calls on an applier, in order (`ChangeList`).
#[derive(Drop)]
pub struct Ops {
    items: Vec<Op>,
}

impl Model for Ops {
    ghost use Rattle.std.specs.Prelude.{List};
    ghost use Rattle.node_tree.specs.declared.ops.Op.{Op};

    ghost Value = { List Op };

    ghost view = { λ l. l.items.items };
}

impl NodeAttributes {
    /// Returns the empty list.
    pub fn new(alloc: Global) -> Self
        ensures { result ≡ [] }
    {
        NodeAttributes {
            items: Vec::new(alloc),
        }
    }

    /// Returns the attributes, in order.
    pub fn items(&self) -> &[Attribute]
        ensures { result.now ≡ self.now }
    {
        &self.items
    }

    /// Appends `attribute`. After `NoMemory` the list is unchanged.
    pub fn push(&mut self, attribute: Attribute) -> Result<(), NoMemory>
        ensures ok { OnOk result (self.new ≡ self.old ++ attribute ∷ []) }
        ensures err { OnErr result (self.new ≡ self.old) }
    {
        self.items.push(attribute)?;
        Ok(())
    }
}

impl NodeAttributes {
    // Replaces the value of the first attribute with this name.
    pub(crate) fn set(&mut self, name: &Word, value: Value)
        ensures { self.new ≡ data_after_set name.now value self.old }
    {
        if let Some(index) = index_of_name(&self.items, name) {
            self.items[index].value = value;
        }
    }
}

// Whether the attribute has this name.
fn has_name(attribute: &Attribute, name: &Word) -> bool
    ensures { result ≡ bytes_eq attribute.now.name name.now }
{
    attribute.name.bytes() == name.bytes()
}

// Returns the index of the first attribute with this name.
#[tactic(auto, using(crate::proofs::NamedAttributes::name_passed, crate::proofs::NamedAttributes::name_found, crate::proofs::NamedAttributes::no_name))]
fn index_of_name(attributes: &[Attribute], name: &Word) -> Option<usize>
    ensures none { (value : value_data) → IsNone result →
        data_after_set name.now value attributes.now ≡ attributes.now }
    ensures inside { IfSome result (λ i. i < length attributes.now) }
    ensures some { (value : value_data) (a : attribute_data) → IfSome result (λ i.
        a ≡ slice_index_or attributes.now i a →
        data_after_set name.now value attributes.now ≡ slice_set attributes.now i (record a { value = value })) }
{
    for (index, attribute) in attributes.iter().enumerate() {
        if has_name(attribute, name) {
            return Some(index);
        }
    }
    None
}

impl Ops {
    /// Returns the empty list.
    pub fn new(alloc: Global) -> Self
        ensures { result ≡ [] }
    {
        Ops {
            items: Vec::new(alloc),
        }
    }

    /// Returns the calls, in order.
    pub fn items(&self) -> &[Op]
        ensures { result.now ≡ self.now }
    {
        &self.items
    }

    /// Appends `op`. After `NoMemory` the list is unchanged.
    pub fn push(&mut self, op: Op) -> Result<(), NoMemory>
        ensures ok { OnOk result (self.new ≡ self.old ++ op ∷ []) }
        ensures err { OnErr result (self.new ≡ self.old) }
    {
        self.items.push(op)?;
        Ok(())
    }

    /// Returns the number of calls.
    pub fn len(&self) -> usize
        ensures { result ≡ length self.now }
    {
        self.items.len()
    }

    // Removes the last call.
    pub(crate) fn pop(&mut self)
        ensures { (calls : List op_data) (op : op_data) → self.old ≡ calls ++ op ∷ [] → self.new ≡ calls }
    {
        let _ = self.items.pop();
    }

    // Returns the call that stands for the last call and `op`, if there is one and the last call is not among the first
    // `start`.
    fn joined_last(&self, start: usize, op: &Op) -> Result<Option<Op>, NoMemory>
        ensures none { (before : List op_data) → self.now ≡ before → length before ≡ start →
            IfOk result (λ o. o ≡ None) }
        ensures some { (calls : List op_data) (last : op_data) → self.now ≡ calls ++ last ∷ [] →
            start ≤ length calls → IfOk result (λ o. o ≡ joined_call last op.now) }
    {
        if self.items.len() <= start {
            return Ok(None);
        }
        match self.items.last() {
            Some(last) => join(last, op),
            None => Ok(None),
        }
    }

    // Appends `op`, or joins it to the last call unless this is among the first `start`.
    pub(crate) fn push_joined(&mut self, start: usize, op: Op) -> Result<(), NoMemory>
        ensures { (before calls : List op_data) → self.old ≡ before ++ joined_calls calls → length before ≡ start →
            OnOk result (self.new ≡ before ++ joined_calls (calls ++ op ∷ [])) }
    {
        match self.joined_last(start, &op)? {
            Some(both) => {
                self.pop();
                self.push(both)
            }
            None => self.push(op),
        }
    }

    /// Returns the calls as a vector.
    pub fn into_vec(self) -> Vec<Op>
        ensures { result.items ≡ self }
    {
        self.items
    }

    /// Returns the number of top-down inserts.
    pub fn insert_count(&self) -> usize
        ensures { result ≡ insert_count self.now }
    {
        let mut count = 0;
        for op in &self.items {
            if let Op::InsertTopDown { .. } = op {
                count += 1;
            }
        }
        count
    }
}

// Returns the call that stands for a removal and the next call, or nothing.
fn join_removal(index: usize, count: usize, next: &Op) -> Result<Option<Op>, NoMemory>
    ensures { IfOk result (λ o. o ≡ joined_removal index count next.now) }
{
    let Op::Remove {
        index: before,
        count: more,
    } = next
    else {
        return Ok(None);
    };
    if *more != 1 || index.checked_sub(1) != Some(*before) {
        return Ok(None);
    }
    let Some(count) = count.checked_add(1) else {
        return Err(NoMemory);
    };
    Ok(Some(Op::Remove {
        index: *before,
        count,
    }))
}

// Returns the call that stands for a move and the next call, or nothing.
fn join_move(from: usize, to: usize, count: usize, next: &Op) -> Result<Option<Op>, NoMemory>
    ensures { IfOk result (λ o. o ≡ joined_move from to count next.now) }
{
    let Op::Move {
        from: source,
        to: target,
        count: more,
    } = next
    else {
        return Ok(None);
    };
    if *more != 1
        || from.checked_add(count) != Some(*source)
        || to.checked_add(count) != Some(*target)
    {
        return Ok(None);
    }
    let Some(count) = count.checked_add(1) else {
        return Err(NoMemory);
    };
    Ok(Some(Op::Move { from, to, count }))
}

// Returns the call that stands for two neighbouring calls, or nothing.
fn join(call: &Op, next: &Op) -> Result<Option<Op>, NoMemory>
    ensures { IfOk result (λ o. o ≡ joined_call call.now next.now) }
{
    match call {
        Op::Remove { index, count } => join_removal(*index, *count, next),
        Op::Move { from, to, count } => join_move(*from, *to, *count, next),
        _ => Ok(None),
    }
}
