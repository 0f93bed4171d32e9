//! Anchors: handles for groups that stay valid when groups are inserted, moved and removed.
//!
//! An `Anchor` is Compose's `Anchor`, and `Anchors` the anchors of one `SlotTable`. Each anchor has the index of its
//! group in preorder, and none after the group was removed. An edit calls `follow`. Contracts see a list of indexes
//! (`specs/Anchors.antt`).
//! Promises: after an edit each anchor has the new index of its group. `place` and `follow` take no memory.
#![tactic(auto)]

ghost use Rattle.std.specs.Prelude.{◌≡◌, ◌≤◌, ◌<◌, ◌++◌, ◌∷◌, [], Some, None, length, map, slice_index_or, IfOk, OnOk, OnErr};
ghost use Rattle.slot_anchors.specs.Anchors.{index_after_edit, AreInverse};

use rt_values::NoMemory;
use std::alloc::Global;
use std::marker::Model;

/// A handle for a group of a table. It is the number of the anchor, from 0 in the order of the `mark` calls.
#[derive(Clone, Copy, Debug, PartialEq, Eq)]
pub struct Anchor {
    pub number: usize,
}

/// The anchors of one table, with the indexes of their groups.
#[derive(Drop)]
pub struct Anchors {
    indexes: Vec<Option<usize>>,
}

impl Model for Anchors {
    ghost use Rattle.std.specs.Prelude.{◌-◌, vec_len, vec_capacity};
    ghost use Rattle.slot_anchors.specs.Anchors.{AnchorIndexes};

    ghost Value = { AnchorIndexes };

    ghost view = { λ a. record { indexes = a.indexes.items; spare = vec_capacity a.indexes - vec_len a.indexes } };
}

impl Anchors {
    /// Returns no anchors.
    pub fn new(alloc: Global) -> Self
        ensures { result.indexes ≡ [] }
    {
        Anchors {
            indexes: Vec::new(alloc),
        }
    }

    /// Returns the number of anchors.
    pub fn len(&self) -> usize
        ensures { result ≡ length self.now.indexes }
    {
        self.indexes.len()
    }

    /// Adds and returns an anchor for the group at index `group` in preorder. After `NoMemory` the anchors are
    /// unchanged.
    pub fn mark(&mut self, group: usize) -> Result<Anchor, NoMemory>
        ensures number { IfOk result (λ a. a.number ≡ length self.old.indexes) }
        ensures marked { OnOk result (self.new.indexes ≡ self.old.indexes ++ Some group ∷ []) }
        ensures err { OnErr result (self.new.indexes ≡ self.old.indexes) }
    {
        let number = self.indexes.len();
        self.indexes.push(Some(group))?;
        Ok(Anchor { number })
    }

    /// Returns the index of the anchor's group in preorder, or `None` if the group was removed.
    pub fn place(&self, anchor: Anchor) -> Option<usize>
        requires { anchor.number < length self.now.indexes }
        ensures { result ≡ slice_index_or self.now.indexes anchor.number None }
    {
        self.indexes[anchor.number]
    }

    /// Makes the spare capacity at least `n` anchors. The anchors stay.
    pub fn reserve(&mut self, n: usize) -> Result<(), NoMemory>
        ensures indexes { self.new.indexes ≡ self.old.indexes }
        ensures room { OnOk result (n ≤ self.new.spare) }
    {
        self.indexes.reserve(n)?;
        Ok(())
    }

    /// Moves each anchor to the new index of its group. `olds` has for each new group its old index, and `news` for
    /// each old group its new index.
    pub fn follow(&mut self, olds: &[Option<usize>], news: &[Option<usize>])
        requires { AreInverse olds.now news.now }
        ensures indexes { self.new.indexes ≡ map (λ p. index_after_edit olds.now p) self.old.indexes }
        ensures spare { self.new.spare ≡ self.old.spare }
    {
        follow_all(&mut self.indexes, olds, news);
    }
}

// Returns the new index of the group that was at `index`.
fn follow(olds: &[Option<usize>], news: &[Option<usize>], index: Option<usize>) -> Option<usize>
    requires { AreInverse olds.now news.now }
    ensures { result ≡ index_after_edit olds.now index }
{
    match index {
        Some(old) if old < news.len() => news[old],
        _ => None,
    }
}

// Replaces each index by the new one.
fn follow_all(indexes: &mut [Option<usize>], olds: &[Option<usize>], news: &[Option<usize>])
    requires { AreInverse olds.now news.now }
    ensures { indexes.new ≡ map (λ p. index_after_edit olds.now p) indexes.old }
{
    let mut at = 0;
    while at < indexes.len() {
        indexes[at] = follow(olds, news, indexes[at]);
        at += 1;
    }
}
