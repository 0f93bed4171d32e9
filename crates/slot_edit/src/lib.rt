//! The edit that takes a table from one forest to the next, with its anchors.
//!
//! A `Patch` is what Compose's `ChangeList` is to its `SlotTable`: composing makes it, and `apply` edits the table only
//! after composing has succeeded. `specs/Patches.antt` states which forest a patch is for and which it gives. At
//! present a patch has all new groups and replaces the table's.
//! Promises: after `reserve`, `apply` takes no memory and is not refused. A group is removed exactly if no new group
//! has its path; otherwise its anchors have the index of the new group with this path.
#![tactic(auto)]

ghost use Rattle.std.specs.Prelude.{◌≡◌, ◌≤◌, length, map, IfOk, OnOk};
ghost use Rattle.rt_groups.specs.GroupForest.{GroupForest};
ghost use Rattle.rt_groups.specs.PreorderGroups.{preorder};
ghost use Rattle.slot_edit.specs.Patches.{Patches, anchor_index};

mod inverse;

use rt_values::NoMemory;
use slot_anchors::Anchors;
use slot_table::{Table, TableBuilder};
use std::alloc::Global;
use std::marker::Model;

/// The edit that takes one forest to another.
#[derive(Drop)]
pub struct Patch {
    table: Table,
    // For each new group its old index.
    olds: Vec<Option<usize>>,
    // For each old group its new index.
    news: Vec<Option<usize>>,
    // The spare capacity of the table and of the anchors that the edit needs.
    need: usize,
}

impl Model for Patch {
    ghost use Rattle.slot_edit.specs.Patches.{PatchData};
    ghost use Rattle.slot_anchors.specs.Anchors.{AreInverse};

    ghost Value = { PatchData };

    ghost view = { λ p. record { groups = p.table.groups; olds = p.olds.items; need = p.need } };

    ghost invariant = { λ p. AreInverse p.olds.items p.news.items };
}

impl Patch {
    /// Returns the patch that gives `groups`, which are in preorder. `olds` has for each of them the index of the old
    /// group with its path, or `None` if the group is new. Takes all the memory that `apply` needs, so the patch needs
    /// no spare capacity of the table and of the anchors.
    pub fn new(
        alloc: Global,
        groups: TableBuilder,
        olds: Vec<Option<usize>>,
    ) -> Result<Patch, NoMemory>
        ensures groups { IfOk result (λ p. p.groups ≡ groups) }
        ensures olds { IfOk result (λ p. p.olds ≡ olds.items) }
        ensures need { IfOk result (λ p. p.need ≡ 0) }
    {
        let table = Table::from_groups(alloc, groups)?;
        let news = inverse::invert(alloc, &olds)?;
        Ok(Patch {
            table,
            olds,
            news,
            need: 0,
        })
    }
}

/// Makes the spare capacity of the table and of the anchors at least what the patch needs. Groups and anchors stay.
pub fn reserve(table: &mut Table, anchors: &mut Anchors, patch: &Patch) -> Result<(), NoMemory>
    ensures groups { table.new.groups ≡ table.old.groups }
    ensures indexes { anchors.new.indexes ≡ anchors.old.indexes }
    ensures room { OnOk result ((patch.now.need ≤ table.new.spare) × (patch.now.need ≤ anchors.new.spare)) }
{
    table.reserve(patch.need)?;
    anchors.reserve(patch.need)?;
    Ok(())
}

/// Edits the table, and moves each anchor to the new index of its group, or to no index if the group is removed
/// (`ChangeList.executeAndFlushAllPendingChanges`). Takes no memory.
pub fn apply(table: &mut Table, anchors: &mut Anchors, patch: Patch)
    requires spare { (patch.need ≤ table.old.spare) × (patch.need ≤ anchors.old.spare) }
    ensures groups { table.new.groups ≡ patch.groups }
    ensures count { length anchors.new.indexes ≡ length anchors.old.indexes }
    ensures table { (t u : GroupForest) → Patches patch t u → table.old.groups ≡ preorder 0 t →
        table.new.groups ≡ preorder 0 u }
    ensures anchors { (t u : GroupForest) → Patches patch t u → table.old.groups ≡ preorder 0 t →
        anchors.new.indexes ≡ map (λ a. anchor_index t u a) anchors.old.indexes }
{
    anchors.follow(&patch.olds, &patch.news);
    *table = patch.table;
}
