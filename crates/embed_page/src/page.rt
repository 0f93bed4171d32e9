// An applier of this program's own.
ghost use Rattle.std.specs.Prelude.{◌≡◌, Some};
ghost use Rattle.rt_groups.specs.Nodes.{None as no_nodes};
ghost use Rattle.node_tree.specs.NodeTrees.{tree_at_root};

use crate::html::add_html;
use node_tree::{Applier, NewNode, NodeTree, Ops};
use rt_streams::Failed;
use rt_values::{NoMemory, Value, Word};
use std::alloc::Global;

/// A page: its elements, and how many calls of frames have changed them.
#[derive(Drop)]
pub struct Page {
    elements: NodeTree,
    changes: u64,
}

impl Page {
    /// Returns the page without elements.
    pub fn new(alloc: Global) -> Self
        ensures { ⟦<NodeTree as Applier>⟧.tree result.elements ≡ Some (tree_at_root no_nodes) }
    {
        Page {
            elements: NodeTree::new(alloc),
            changes: 0,
        }
    }

    /// Returns the number of calls that have changed the page. Stops at the greatest number.
    pub fn changes(&self) -> u64 {
        self.changes
    }

    /// Returns the page as HTML.
    pub fn to_html(&self, alloc: Global) -> Result<Vec<u8>, NoMemory> {
        let mut html = Vec::new(alloc);
        add_html(alloc, &self.elements.list(alloc)?, &mut html)?;
        Ok(html)
    }

    // Counts a change.
    fn count_change(&mut self)
        ensures { self.new.elements ≡ self.old.elements }
    {
        self.changes = self.changes.saturating_add(1);
    }
}

impl Applier for Page {
    ghost tree = { λ p. ⟦<NodeTree as Applier>⟧.tree p.elements };

    ghost spare = { λ p. ⟦<NodeTree as Applier>⟧.spare p.elements };

    ghost faults = { λ p. ⟦<NodeTree as Applier>⟧.faults p.elements };

    fn reserve(&mut self, alloc: Global, ops: &Ops) -> Result<(), NoMemory> {
        self.elements.reserve(alloc, ops)
    }

    fn down(&mut self, index: usize) -> Result<(), Failed> {
        self.elements.down(index)
    }

    fn up(&mut self) -> Result<(), Failed> {
        self.elements.up()
    }

    fn insert_top_down(&mut self, index: usize, node: NewNode) -> Result<(), Failed> {
        self.count_change();
        self.elements.insert_top_down(index, node)
    }

    fn insert_bottom_up(&mut self, index: usize, node: NewNode) -> Result<(), Failed> {
        self.elements.insert_bottom_up(index, node)
    }

    fn remove(&mut self, index: usize, count: usize) -> Result<(), Failed> {
        self.count_change();
        self.elements.remove(index, count)
    }

    fn move_range(&mut self, from: usize, to: usize, count: usize) -> Result<(), Failed> {
        self.count_change();
        self.elements.move_range(from, to, count)
    }

    fn set(&mut self, name: Word, value: Value) -> Result<(), Failed> {
        self.count_change();
        self.elements.set(name, value)
    }

    fn clear(&mut self) -> Result<(), Failed> {
        self.count_change();
        self.elements.clear()
    }
}
