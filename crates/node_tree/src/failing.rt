// An applier whose calls fail where a test wants it.
ghost use Rattle.std.specs.Prelude.{◌≡◌, ◌≤◌, ◌+◌, ◌<◌, IsTrue, OnOk, is_err, if◌then◌else◌};
ghost use Rattle.rt_streams.specs.Streams.{HasCause, next_count};
ghost use Rattle.rt_streams.specs.Memory.{fails_next};
ghost use Rattle.node_tree.specs.Calls.{Allows, Becomes, insert_count};
ghost use Rattle.node_tree.specs.declared.ops.Op.TheVariants as op;
ghost use Rattle.node_tree.specs.Planned.{FollowsPlan};

use crate::applier::Applier;
use crate::ops::{NewNode, Ops};
use crate::tree::NodeTree;
use rt_streams::{CallCounter, Failed};
use rt_values::{NoMemory, Value, Word};
use std::alloc::Global;

/// An applier over another one, whose calls fail exactly where a list says or the other one fails. For tests of what
/// follows a failure.
///
/// A call that fails by the list leaves the other applier. Calls are counted from 1, without `reserve`.
#[derive(Drop)]
pub struct FailingApplier<A: Drop> {
    inner: A,
    calls: CallCounter,
}

/// A tree of nodes in memory whose calls fail exactly where a list says.
pub type FailingTree = FailingApplier<NodeTree>;

impl<A: Drop> FailingApplier<A> {
    /// Returns the applier over `inner` whose calls with the numbers `failing` fail. The counts of calls and of failed
    /// calls are 0.
    pub fn new(inner: A, failing: Vec<u64>) -> Self
        ensures inner { result.inner ≡ inner }
        ensures calls { result.calls ≡ record { failing = failing.items; made = 0; faults = 0 } }
    {
        FailingApplier {
            inner,
            calls: CallCounter::new(failing),
        }
    }

    /// Returns the other applier.
    pub fn inner(&self) -> &A
        ensures { result.now ≡ self.now.inner }
    {
        &self.inner
    }

    // Counts a call, and returns whether the list has it.
    fn fails(&mut self) -> bool
        ensures fails { result ≡ fails_next self.old.calls.failing self.old.calls.made }
        ensures inner { self.new.inner ≡ self.old.inner }
        ensures failing { self.new.calls.failing ≡ self.old.calls.failing }
        ensures made { self.new.calls.made ≡ next_count self.old.calls.made }
        ensures faults { self.new.calls.faults
            ≡ (if result then next_count self.old.calls.faults else self.old.calls.faults) }
        ensures later { self.old.calls.faults ≤ self.new.calls.faults }
    {
        self.calls.next().is_err()
    }

    // Counts a fault if a call of the other applier failed.
    fn noted(&mut self, made: Result<(), Failed>) -> Result<(), Failed>
        ensures same { result ≡ made }
        ensures inner { self.new.inner ≡ self.old.inner }
        ensures failing { self.new.calls.failing ≡ self.old.calls.failing }
        ensures made { self.new.calls.made ≡ self.old.calls.made }
        ensures faults { self.new.calls.faults
            ≡ (if is_err made then next_count self.old.calls.faults else self.old.calls.faults) }
        ensures later { self.old.calls.faults ≤ self.new.calls.faults }
    {
        if made.is_err() {
            self.calls.fault();
        }
        made
    }
}

#[tactic(auto, using(crate::proofs::Faults::fails, crate::proofs::Faults::passes, crate::proofs::Faults::caused))]
impl<A: Applier + Drop> Applier for FailingApplier<A> {
    ghost tree = { λ t. A.tree t.inner };

    ghost spare = { λ t. A.spare t.inner };

    ghost faults = { λ t. t.calls.faults };

    fn reserve(&mut self, alloc: Global, ops: &Ops) -> Result<(), NoMemory>
        ensures tree { A.tree self.new.inner ≡ A.tree self.old.inner }
        ensures spare { A.spare self.old.inner ≤ A.spare self.new.inner }
        ensures room { OnOk result (insert_count ops.now ≤ A.spare self.new.inner) }
        ensures faults { self.new.calls.faults ≡ self.old.calls.faults }
        ensures calls { self.new.calls ≡ self.old.calls }
    {
        self.inner.reserve(alloc, ops)
    }

    fn down(&mut self, index: usize) -> Result<(), Failed>
        requires { Allows (A.tree self.old.inner) (op.Down index) }
        ensures tree { OnOk result (Becomes (A.tree self.old.inner) (A.tree self.new.inner) (op.Down index)) }
        ensures spare { A.spare self.old.inner ≤ A.spare self.new.inner }
        ensures cause { HasCause self.old.calls.faults self.new.calls.faults result }
        ensures kept { IsTrue (fails_next self.old.calls.failing self.old.calls.made) → self.new.inner ≡ self.old.inner }
        ensures plan { FollowsPlan
            self.old.calls self.new.calls (A.faults self.old.inner) (A.faults self.new.inner) result }
    {
        if self.fails() {
            return Err(Failed);
        }
        let made = self.inner.down(index);
        self.noted(made)
    }

    fn up(&mut self) -> Result<(), Failed>
        requires { Allows (A.tree self.old.inner) op.Up }
        ensures tree { OnOk result (Becomes (A.tree self.old.inner) (A.tree self.new.inner) op.Up) }
        ensures spare { A.spare self.old.inner ≤ A.spare self.new.inner }
        ensures cause { HasCause self.old.calls.faults self.new.calls.faults result }
        ensures kept { IsTrue (fails_next self.old.calls.failing self.old.calls.made) → self.new.inner ≡ self.old.inner }
        ensures plan { FollowsPlan
            self.old.calls self.new.calls (A.faults self.old.inner) (A.faults self.new.inner) result }
    {
        if self.fails() {
            return Err(Failed);
        }
        let made = self.inner.up();
        self.noted(made)
    }

    fn insert_top_down(&mut self, index: usize, node: NewNode) -> Result<(), Failed>
        requires inside { Allows (A.tree self.old.inner) (op.InsertTopDown index node) }
        requires room { 0 < A.spare self.old.inner }
        ensures tree { OnOk result (Becomes (A.tree self.old.inner) (A.tree self.new.inner) (op.InsertTopDown index node)) }
        ensures spare { A.spare self.old.inner ≤ A.spare self.new.inner + 1 }
        ensures cause { HasCause self.old.calls.faults self.new.calls.faults result }
        ensures kept { IsTrue (fails_next self.old.calls.failing self.old.calls.made) → self.new.inner ≡ self.old.inner }
        ensures plan { FollowsPlan
            self.old.calls self.new.calls (A.faults self.old.inner) (A.faults self.new.inner) result }
    {
        if self.fails() {
            return Err(Failed);
        }
        let made = self.inner.insert_top_down(index, node);
        self.noted(made)
    }

    fn insert_bottom_up(&mut self, index: usize, node: NewNode) -> Result<(), Failed>
        requires { Allows (A.tree self.old.inner) (op.InsertBottomUp index node) }
        ensures tree { OnOk result (Becomes (A.tree self.old.inner) (A.tree self.new.inner) (op.InsertBottomUp index node)) }
        ensures spare { A.spare self.old.inner ≤ A.spare self.new.inner }
        ensures cause { HasCause self.old.calls.faults self.new.calls.faults result }
        ensures kept { IsTrue (fails_next self.old.calls.failing self.old.calls.made) → self.new.inner ≡ self.old.inner }
        ensures plan { FollowsPlan
            self.old.calls self.new.calls (A.faults self.old.inner) (A.faults self.new.inner) result }
    {
        if self.fails() {
            return Err(Failed);
        }
        let made = self.inner.insert_bottom_up(index, node);
        self.noted(made)
    }

    fn remove(&mut self, index: usize, count: usize) -> Result<(), Failed>
        requires { Allows (A.tree self.old.inner) (op.Remove index count) }
        ensures tree { OnOk result (Becomes (A.tree self.old.inner) (A.tree self.new.inner) (op.Remove index count)) }
        ensures spare { A.spare self.old.inner ≤ A.spare self.new.inner }
        ensures cause { HasCause self.old.calls.faults self.new.calls.faults result }
        ensures kept { IsTrue (fails_next self.old.calls.failing self.old.calls.made) → self.new.inner ≡ self.old.inner }
        ensures plan { FollowsPlan
            self.old.calls self.new.calls (A.faults self.old.inner) (A.faults self.new.inner) result }
    {
        if self.fails() {
            return Err(Failed);
        }
        let made = self.inner.remove(index, count);
        self.noted(made)
    }

    fn move_range(&mut self, from: usize, to: usize, count: usize) -> Result<(), Failed>
        requires { Allows (A.tree self.old.inner) (op.Move from to count) }
        ensures tree { OnOk result (Becomes (A.tree self.old.inner) (A.tree self.new.inner) (op.Move from to count)) }
        ensures spare { A.spare self.old.inner ≤ A.spare self.new.inner }
        ensures cause { HasCause self.old.calls.faults self.new.calls.faults result }
        ensures kept { IsTrue (fails_next self.old.calls.failing self.old.calls.made) → self.new.inner ≡ self.old.inner }
        ensures plan { FollowsPlan
            self.old.calls self.new.calls (A.faults self.old.inner) (A.faults self.new.inner) result }
    {
        if self.fails() {
            return Err(Failed);
        }
        let made = self.inner.move_range(from, to, count);
        self.noted(made)
    }

    fn set(&mut self, name: Word, value: Value) -> Result<(), Failed>
        requires { Allows (A.tree self.old.inner) (op.Set name value) }
        ensures tree { OnOk result (Becomes (A.tree self.old.inner) (A.tree self.new.inner) (op.Set name value)) }
        ensures spare { A.spare self.old.inner ≤ A.spare self.new.inner }
        ensures cause { HasCause self.old.calls.faults self.new.calls.faults result }
        ensures kept { IsTrue (fails_next self.old.calls.failing self.old.calls.made) → self.new.inner ≡ self.old.inner }
        ensures plan { FollowsPlan
            self.old.calls self.new.calls (A.faults self.old.inner) (A.faults self.new.inner) result }
    {
        if self.fails() {
            return Err(Failed);
        }
        let made = self.inner.set(name, value);
        self.noted(made)
    }

    fn clear(&mut self) -> Result<(), Failed>
        ensures tree { OnOk result (Becomes (A.tree self.old.inner) (A.tree self.new.inner) op.Clear) }
        ensures spare { A.spare self.old.inner ≤ A.spare self.new.inner }
        ensures cause { HasCause self.old.calls.faults self.new.calls.faults result }
        ensures kept { IsTrue (fails_next self.old.calls.failing self.old.calls.made) → self.new.inner ≡ self.old.inner }
        ensures plan { FollowsPlan
            self.old.calls self.new.calls (A.faults self.old.inner) (A.faults self.new.inner) result }
    {
        if self.fails() {
            return Err(Failed);
        }
        let made = self.inner.clear();
        self.noted(made)
    }
}
