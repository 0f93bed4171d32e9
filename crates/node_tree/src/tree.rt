// A node tree in memory.
ghost use Rattle.std.specs.Prelude.{◌≡◌, ◌+◌, ◌≤◌, ◌<◌, ◌++◌, ◌∷◌, [], List, ℕ, length, take, drop, Some, OnOk, IsOk, IfOk, MatchOption};
ghost use Rattle.node_tree.specs.NodeTrees.{CursorTree, node_list, tree_at_root};
ghost use Rattle.node_tree.specs.FlatNodes.{flat_nodes};
ghost use Rattle.rt_groups.specs.Nodes.{Nodes};
ghost use Rattle.node_tree.specs.Calls.{insert_count};
ghost use Rattle.node_tree.specs.StoredTree.{cursor_tree, stored_after_down, stored_after_up, inserted_value, stored_after_set};
ghost use Rattle.std.specs.List.{insert};
ghost use Rattle.gap_buffer.specs.Buffer.{list_after_move};
ghost use Rattle.rt_groups.specs.Nodes.{None as no_nodes};

use crate::applier::Applier;
use crate::flat::NodeRef;
use crate::kept::KeptNode;
use crate::kept_nodes::push_nodes;
use crate::lists::{
    close_first, exchange, fill_first, fill_up, join, open_first, set_in_first, split, take_all,
};
use crate::ops::{NewNode, Ops};
use rt_streams::Failed;
use rt_values::{NoMemory, Value, Word};
use std::alloc::Global;
use std::collections::LinkedList;
use std::marker::Model;
use std::mem::replace;

// The number of inserts that a tree does not reach.
const MOST_NODES: u64 = 1 << 62;

/// A tree of nodes in memory, an applier whose calls never fail (`AbstractApplier`).
///
/// A call walks over the siblings of a child at its index, from the nearer end. A tree takes at most 2^62 inserts.
#[derive(Drop)]
pub struct NodeTree {
    children: LinkedList<KeptNode>,
    // The open nodes, from the current one up to a top node.
    open_nodes: LinkedList<KeptNode>,
    // Nodes for the next inserts.
    spare: LinkedList<KeptNode>,
    // The number of nodes inserted so far.
    made: u64,
}

impl Model for NodeTree {
    ghost use Rattle.std.specs.Prelude.{length};
    ghost use Rattle.std.specs.Coded.{codes};
    ghost use Rattle.node_tree.specs.StoredTree.{StoredTree, stored_tree, stored_code, IsWithin};

    ghost Value = { StoredTree };

    ghost coded = { stored_code (Prim.hlevel codes) };

    ghost view = { λ t. stored_tree t.children t.open_nodes (length t.spare) };

    ghost invariant = { λ t. IsWithin t.children t.open_nodes (length t.spare) t.made };
}

impl NodeTree {
    /// Returns the tree without nodes.
    pub fn new(alloc: Global) -> Self
        ensures tree { ⟦<NodeTree as Applier>⟧.tree result ≡ Some (tree_at_root no_nodes) }
    {
        NodeTree {
            children: LinkedList::new(alloc),
            open_nodes: LinkedList::new(alloc),
            spare: LinkedList::new(alloc),
            made: 0,
        }
    }

    /// Returns the nodes below the current node in preorder, so all nodes of the tree if the unseen root is current. Copies
    /// no values. A rule of this project: with it a program can show what it has in memory.
    pub fn list(&self, alloc: Global) -> Result<Vec<NodeRef<'_>>, NoMemory>
        ensures { (t : Nodes) → (cursor_tree self.now).children ≡ node_list t
            → IfOk result (λ v. v.items ≡ flat_nodes t) }
    {
        let mut nodes = Vec::new(alloc);
        push_nodes(&self.children, &mut nodes)?;
        Ok(nodes)
    }

    // Opens the child at `index`.
    fn open_child(&mut self, index: usize)
        requires { index < length self.old.children }
        ensures { self.new ≡ stored_after_down (take index self.old.children) (drop index self.old.children) self.old }
    {
        let mut opened = split(&mut self.children, index);
        let after = split(&mut opened, 1);
        let before = take_all(&mut self.children);
        let children = open_first(&mut opened, before, after);
        self.children = children;
        let outer = take_all(&mut self.open_nodes);
        join(&mut opened, outer);
        self.open_nodes = opened;
    }

    // Closes the current node.
    fn close_current(&mut self)
        requires { 0 < length self.old.open_nodes }
        ensures { self.new ≡ stored_after_up self.old.children self.old.open_nodes self.old.spare }
    {
        let outer = split(&mut self.open_nodes, 1);
        let mut closed = replace(&mut self.open_nodes, outer);
        let children = take_all(&mut self.children);
        let (before, after) = close_first(&mut closed, children);
        self.children = before;
        join(&mut self.children, closed);
        join(&mut self.children, after);
    }

    // Inserts a node before the child at `index`, in one of the spare nodes.
    fn insert_child(&mut self, index: usize, node: NewNode)
        requires inside { index ≤ length self.old.children }
        requires room { 0 < self.old.spare }
        ensures children { self.new.children ≡ insert self.old.children index (inserted_value node) }
        ensures open_nodes { self.new.open_nodes ≡ self.old.open_nodes }
        ensures spare { self.new.spare + 1 ≡ self.old.spare }
    {
        let others = split(&mut self.spare, 1);
        let mut inserted = replace(&mut self.spare, others);
        fill_first(&mut inserted, node);
        let tail = split(&mut self.children, index);
        join(&mut self.children, inserted);
        join(&mut self.children, tail);
        self.made += 1;
    }

    // Removes the `count` children at `index`.
    fn remove_children(&mut self, index: usize, count: usize)
        requires { index + count ≤ length self.old.children }
        ensures children { self.new.children
            ≡ take index self.old.children ++ drop (index + count) self.old.children }
        ensures open_nodes { self.new.open_nodes ≡ self.old.open_nodes }
        ensures spare { self.new.spare ≡ self.old.spare }
    {
        let _length = self.children.len();
        let end = index + count;
        let tail = split(&mut self.children, end);
        let _removed = split(&mut self.children, index);
        join(&mut self.children, tail);
    }

    // Moves the `count` children at `from` to before the child at `to`.
    fn move_children(&mut self, from: usize, to: usize, count: usize)
        requires block { from + count ≤ length self.old.children }
        requires index { to ≤ length self.old.children }
        ensures children { self.new.children ≡ list_after_move from to count self.old.children }
        ensures open_nodes { self.new.open_nodes ≡ self.old.open_nodes }
        ensures spare { self.new.spare ≡ self.old.spare }
    {
        let _length = self.children.len();
        let end = from + count;
        if to < from {
            exchange(&mut self.children, to, from, end);
        } else if end < to {
            exchange(&mut self.children, from, end, to);
        }
    }

    // Replaces the value of an attribute of the current node.
    #[tactic(auto, using(crate::proofs::TreeSteps::set_weight))]
    fn set_attribute(&mut self, name: Word, value: Value)
        requires { 0 < length self.old.open_nodes }
        ensures children { self.new.children ≡ self.old.children }
        ensures open_nodes { self.new.open_nodes ≡ stored_after_set name value self.old.open_nodes }
        ensures spare { self.new.spare ≡ self.old.spare }
    {
        set_in_first(&mut self.open_nodes, &name, value);
    }
}

impl Applier for NodeTree {
    ghost tree = { λ t. Some (cursor_tree t) };

    ghost spare = { λ t. t.spare };

    ghost faults = { λ _. 0 };

    fn reserve(&mut self, alloc: Global, ops: &Ops) -> Result<(), NoMemory> {
        let count = ops.insert_count();
        if MOST_NODES - self.made <= count as u64 {
            return Err(NoMemory);
        }
        fill_up(&mut self.spare, alloc, count)
    }

    fn down(&mut self, index: usize) -> Result<(), Failed> {
        self.open_child(index);
        Ok(())
    }

    fn up(&mut self) -> Result<(), Failed> {
        self.close_current();
        Ok(())
    }

    fn insert_top_down(&mut self, index: usize, node: NewNode) -> Result<(), Failed> {
        self.insert_child(index, node);
        Ok(())
    }

    fn insert_bottom_up(&mut self, _index: usize, _node: NewNode) -> Result<(), Failed> {
        Ok(())
    }

    fn remove(&mut self, index: usize, count: usize) -> Result<(), Failed> {
        self.remove_children(index, count);
        Ok(())
    }

    fn move_range(&mut self, from: usize, to: usize, count: usize) -> Result<(), Failed> {
        self.move_children(from, to, count);
        Ok(())
    }

    fn set(&mut self, name: Word, value: Value) -> Result<(), Failed> {
        self.set_attribute(name, value);
        Ok(())
    }

    fn clear(&mut self) -> Result<(), Failed> {
        self.children.clear();
        self.open_nodes.clear();
        Ok(())
    }
}
