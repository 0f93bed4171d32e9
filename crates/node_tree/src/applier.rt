// Appliers, which change a tree of nodes.
ghost use Rattle.std.specs.Prelude.{◌≡◌, ℕ, ◌+◌, ◌≤◌, ◌<◌, OnOk};
ghost use Rattle.std.specs.declared.option.Option.{Option};
ghost use Rattle.rt_streams.specs.Streams.{HasCause};
ghost use Rattle.node_tree.specs.NodeTrees.{CursorTree};
ghost use Rattle.node_tree.specs.Calls.{Allows, Becomes, insert_count};
ghost use Rattle.node_tree.specs.declared.ops.Op.TheVariants as op;

use crate::ops::{NewNode, Ops};
use rt_streams::Failed;
use rt_values::{NoMemory, Value, Word};
use std::alloc::Global;

/// Applies the changes of a composition to a tree of nodes (`Applier`).
///
/// An applier has a current node, at first the unseen root, whose children are the top nodes. Each call but `reserve`
/// takes no memory and fails only for a cause of the applier's own, which it counts. After a failed call the tree is
/// unspecified until `clear`.
pub trait Applier {
    /// The tree with its current node, if the applier knows it. An applier over a screen does not.
    ghost tree: { Self → Option CursorTree };

    /// The number of nodes that can be inserted top down without memory.
    ghost spare: { Self → ℕ };

    /// The number of failed calls. It stops at 2^64 - 1.
    ghost faults: { Self → ℕ };

    /// Makes the spare capacity at least the number of top-down inserts in `ops`. The tree stays. This project's own
    /// rule: all memory is taken before the first change.
    fn reserve(&mut self, alloc: Global, ops: &Ops) -> Result<(), NoMemory>
        ensures tree { tree self.new ≡ tree self.old }
        ensures spare { spare self.old ≤ spare self.new }
        ensures room { OnOk result (insert_count ops.now ≤ spare self.new) }
        ensures faults { faults self.new ≡ faults self.old };

    /// Makes the child at `index` the current node (`Applier.down`).
    fn down(&mut self, index: usize) -> Result<(), Failed>
        requires { Allows (tree self.old) (op.Down index) }
        ensures tree { OnOk result (Becomes (tree self.old) (tree self.new) (op.Down index)) }
        ensures spare { spare self.old ≤ spare self.new }
        ensures cause { HasCause (faults self.old) (faults self.new) result };

    /// Makes the parent of the current node the current node (`Applier.up`).
    fn up(&mut self) -> Result<(), Failed>
        requires { Allows (tree self.old) op.Up }
        ensures tree { OnOk result (Becomes (tree self.old) (tree self.new) op.Up) }
        ensures spare { spare self.old ≤ spare self.new }
        ensures cause { HasCause (faults self.old) (faults self.new) result };

    /// Inserts `node` before the child at `index`, or at the end if `index` is the number of children
    /// (`Applier.insertTopDown`). Uses one unit of the spare capacity.
    fn insert_top_down(&mut self, index: usize, node: NewNode) -> Result<(), Failed>
        requires inside { Allows (tree self.old) (op.InsertTopDown index node) }
        requires room { 0 < spare self.old }
        ensures tree { OnOk result (Becomes (tree self.old) (tree self.new) (op.InsertTopDown index node)) }
        ensures spare { spare self.old ≤ spare self.new + 1 }
        ensures cause { HasCause (faults self.old) (faults self.new) result };

    /// Reports that the child at `index`, which was inserted as `node`, has all its children
    /// (`Applier.insertBottomUp`). The tree stays.
    fn insert_bottom_up(&mut self, index: usize, node: NewNode) -> Result<(), Failed>
        requires { Allows (tree self.old) (op.InsertBottomUp index node) }
        ensures tree { OnOk result (Becomes (tree self.old) (tree self.new) (op.InsertBottomUp index node)) }
        ensures spare { spare self.old ≤ spare self.new }
        ensures cause { HasCause (faults self.old) (faults self.new) result };

    /// Removes the `count` children at `index` (`Applier.remove`).
    fn remove(&mut self, index: usize, count: usize) -> Result<(), Failed>
        requires { Allows (tree self.old) (op.Remove index count) }
        ensures tree { OnOk result (Becomes (tree self.old) (tree self.new) (op.Remove index count)) }
        ensures spare { spare self.old ≤ spare self.new }
        ensures cause { HasCause (faults self.old) (faults self.new) result };

    /// Moves the `count` children at `from` to before the child at `to`, or to the end if `to` is the number of
    /// children (`Applier.move`). Indexes are those before the move.
    fn move_range(&mut self, from: usize, to: usize, count: usize) -> Result<(), Failed>
        requires { Allows (tree self.old) (op.Move from to count) }
        ensures tree { OnOk result (Becomes (tree self.old) (tree self.new) (op.Move from to count)) }
        ensures spare { spare self.old ≤ spare self.new }
        ensures cause { HasCause (faults self.old) (faults self.new) result };

    /// Replaces the value of the attribute `name` of the current node. In Compose the update block of a node does
    /// this.
    fn set(&mut self, name: Word, value: Value) -> Result<(), Failed>
        requires { Allows (tree self.old) (op.Set name value) }
        ensures tree { OnOk result (Becomes (tree self.old) (tree self.new) (op.Set name value)) }
        ensures spare { spare self.old ≤ spare self.new }
        ensures cause { HasCause (faults self.old) (faults self.new) result };

    /// Removes all nodes and makes the unseen root the current node, whatever node was current (`Applier.clear`).
    fn clear(&mut self) -> Result<(), Failed>
        ensures tree { OnOk result (Becomes (tree self.old) (tree self.new) op.Clear) }
        ensures spare { spare self.old ≤ spare self.new }
        ensures cause { HasCause (faults self.old) (faults self.new) result };
}
