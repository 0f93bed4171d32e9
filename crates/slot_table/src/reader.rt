// Reads groups in preorder.
ghost use Rattle.std.specs.Prelude.{◌≡◌, ◌<◌, ◌+◌, ◌∷◌, [], List, IsTrue, length, drop, slice_index_or, IfSome, OnOk, OnErr};
ghost use Rattle.std.specs.Option.{option_map};
ghost use Rattle.rt_groups.specs.declared.groups.Group.{Group as group_data};
ghost use Rattle.slot_table.specs.TableGroups.{group_at};
ghost use Rattle.slot_table.specs.ReaderStates.{OpenGroup, after_deep, inner_depth, begins_at, has_more, group_key, payloads, open_payloads, innermost_group};
ghost use Rattle.slot_table.specs.InnerCounts.{open_groups_at, AreIndexes};

use crate::table::Table;
use rt_groups::GroupKind;
use rt_values::{NoMemory, ObjectNo, Steps, Value};
use std::alloc::Global;
use std::marker::Model;
use std::sync::ledger::Ledger;

/// A position among the groups of a table, which it goes through in preorder (`SlotReader`).
#[derive(Drop)]
pub struct Reader<'a> {
    table: &'a Table,
    // The index of the next group.
    next: usize,
    // The indexes of the open groups, from the outermost on.
    opens: Vec<usize>,
}

impl<'a> Model for Reader<'a> {
    ghost use Rattle.std.specs.Prelude.{[], drop};
    ghost use Rattle.slot_table.specs.ReaderStates.{ReaderState};
    ghost use Rattle.slot_table.specs.InnerCounts.{open_groups_at, AreIndexes};

    ghost Value = { ReaderState };

    ghost view = { λ r. record {
      left = drop r.next r.table.now.groups;
      open_groups = open_groups_at r.table.now.groups [] r.opens.items;
    } };

    ghost invariant = { λ r. AreIndexes r.table.now.groups r.opens.items };
}

impl<'a> Reader<'a> {
    /// Returns a reader before the first group of `table`.
    pub fn new(alloc: Global, table: &'a Table) -> Reader<'a>
        ensures { result ≡ record { left = table.now.groups; open_groups = [] } }
    {
        Reader {
            table,
            next: 0,
            opens: Vec::new(alloc),
        }
    }

    /// Skips the next group and all groups inside it, in constant time (`skipGroup`).
    pub fn skip_group(&mut self)
        requires { IsTrue (has_more self.old) }
        ensures left { (g : group_data) (rest : List group_data) → self.old.left ≡ g ∷ rest →
            self.new.left ≡ after_deep (g.depth + 1) rest }
        ensures same { self.new.open_groups ≡ self.old.open_groups }
    {
        self.next = self.table.index_after(self.next);
    }

    /// Returns whether the next group is inside the innermost open group, or whether there is a next group if no group
    /// is open.
    pub fn more(&self) -> bool
        ensures { result ≡ has_more self.now }
    {
        is_next(self.table, self.next, depth_of(self.table, &self.opens))
    }

    /// Opens the next group, so that the first group inside it is next (`startGroup`). Counts one step. After
    /// `NoMemory` the reader is unchanged.
    pub fn open_group<L: Ledger>(&mut self, steps: &mut Steps<L>) -> Result<(), NoMemory>
        requires { IsTrue (has_more self.old) }
        ensures opened { (g : group_data) (rest : List group_data) → self.old.left ≡ g ∷ rest
            → OnOk result (self.new ≡ record {
              left = rest;
              open_groups = record { group = g; after = after_deep (g.depth + 1) rest } ∷ self.old.open_groups;
            }) }
        ensures count { OnOk result (length self.new.open_groups ≡ length self.old.open_groups + 1) }
        ensures same { OnErr result (self.new ≡ self.old) }
        ensures step { steps.new ≡ steps.old + 1 }
    {
        steps.tick();
        self.opens.push(self.next)?;
        let _length = self.table.len();
        self.next += 1;
        Ok(())
    }

    /// Closes the innermost open group, so that the group after it is next, whether all groups inside it were read or
    /// not (`endGroup`, `skipToGroupEnd`).
    pub fn close_group(&mut self)
        requires { 0 < length self.old.open_groups }
        ensures closed { (o : OpenGroup) (os : List OpenGroup) → self.old.open_groups ≡ o ∷ os →
            self.new ≡ record { left = o.after; open_groups = os } }
        ensures count { length self.new.open_groups + 1 ≡ length self.old.open_groups }
    {
        if let Some(index) = self.opens.pop() {
            self.next = self.table.index_after(index);
        }
    }

    /// Returns the number of values in the slots of the innermost open group, or 0 if no group is open.
    pub fn payload_count(&self) -> usize
        ensures { result ≡ length (open_payloads self.now.open_groups) }
    {
        match innermost(self.table, &self.opens) {
            None => 0,
            Some(index) => count_payloads(self.table.kind(index)),
        }
    }

    /// Returns the value at index `i` in the slots of the innermost open group: an argument, the value of an attribute,
    /// the key, or the keys and then the value of a cell.
    pub fn payload(&self, i: usize) -> &'a Value
        requires { i < length (open_payloads self.now.open_groups) }
        ensures { result.now ≡ slice_index_or (open_payloads self.now.open_groups) i result.now }
    {
        match innermost(self.table, &self.opens) {
            None => unreachable!(),
            Some(index) => payload_at(self.table.kind(index), i),
        }
    }

    /// Returns the kind of the innermost open group, with its values.
    pub fn kind(&self) -> &'a GroupKind
        requires { 0 < length self.now.open_groups }
        ensures { (o : OpenGroup) (os : List OpenGroup) → self.now.open_groups ≡ o ∷ os → result.now ≡ o.group.what }
    {
        match innermost(self.table, &self.opens) {
            None => unreachable!(),
            Some(index) => self.table.kind(index),
        }
    }

    /// Returns the number of the innermost open group: that of a node, or 0.
    pub fn number(&self) -> u64
        requires { 0 < length self.now.open_groups }
        ensures { (o : OpenGroup) (os : List OpenGroup) → self.now.open_groups ≡ o ∷ os → result ≡ o.group.number }
    {
        match innermost(self.table, &self.opens) {
            None => unreachable!(),
            Some(index) => self.table.number(index),
        }
    }

    /// Returns what the innermost open group depends on itself, in the order of its reads.
    pub fn reads(&self) -> &'a [ObjectNo]
        requires { 0 < length self.now.open_groups }
        ensures { (o : OpenGroup) (os : List OpenGroup) → self.now.open_groups ≡ o ∷ os → result.now ≡ o.group.reads }
    {
        match innermost(self.table, &self.opens) {
            None => unreachable!(),
            Some(index) => self.table.reads(index),
        }
    }

    /// Returns the site of the next group (`groupKey`).
    pub fn site(&self) -> u32
        requires { IsTrue (has_more self.now) }
        ensures { (g : group_data) (rest : List group_data) → self.now.left ≡ g ∷ rest → result ≡ g.site }
    {
        self.table.site(self.next)
    }

    /// Returns the key of the next group if it is a key group (`groupObjectKey`).
    pub fn key(&self) -> Option<&'a Value>
        requires { IsTrue (has_more self.now) }
        ensures { (g : group_data) (rest : List group_data) → self.now.left ≡ g ∷ rest →
            option_map (λ v. v.now) result ≡ group_key g.what }
    {
        key_in(self.table.kind(self.next))
    }
}

// Returns the value of a key group.
fn key_in(what: &GroupKind) -> Option<&Value>
    ensures { option_map (λ v. v.now) result ≡ group_key what.now }
{
    match what {
        GroupKind::Key(value) => Some(value),
        _ => None,
    }
}

// Returns the value at index `i` in the slots of a group.
fn payload_at(what: &GroupKind, i: usize) -> &Value
    requires { i < length (payloads what.now) }
    ensures { result.now ≡ slice_index_or (payloads what.now) i result.now }
{
    match what {
        GroupKind::Call { arguments, .. } => &arguments.items()[i],
        GroupKind::Node { attributes, .. } => &attributes.items()[i].value,
        GroupKind::Key(value) => value,
        GroupKind::Cell { keys, value } => {
            if i < keys.items().len() {
                &keys.items()[i]
            } else {
                value
            }
        }
    }
}

// Returns the index of the innermost open group.
fn innermost(table: &Table, opens: &[usize]) -> Option<usize>
    requires { AreIndexes table.now.groups opens.now }
    ensures group { option_map (λ i. group_at table.now.groups i) result
        ≡ innermost_group (open_groups_at table.now.groups [] opens.now) }
    ensures inside { IfSome result (λ i. i < length table.now.groups) }
{
    if opens.is_empty() {
        return None;
    }
    let _groups = table.len();
    Some(opens[opens.len() - 1])
}

// Returns the depth of the groups directly inside the innermost open group.
fn depth_of(table: &Table, opens: &[usize]) -> usize
    requires { AreIndexes table.now.groups opens.now }
    ensures { result ≡ inner_depth (open_groups_at table.now.groups [] opens.now) }
{
    match innermost(table, opens) {
        None => 0,
        Some(index) => table.depth(index) as usize + 1,
    }
}

// Returns whether there is a group at index `at` and its depth is at least `depth`.
fn is_next(table: &Table, at: usize, depth: usize) -> bool
    ensures { result ≡ begins_at depth (drop at table.now.groups) }
{
    if table.len() <= at {
        return false;
    }
    depth <= table.depth(at) as usize
}

// Returns the number of values in the slots of a group.
fn count_payloads(what: &GroupKind) -> usize
    ensures { result ≡ length (payloads what.now) }
{
    match what {
        GroupKind::Call { arguments, .. } => arguments.items().len(),
        GroupKind::Node { attributes, .. } => attributes.items().len(),
        GroupKind::Key(_) => 1,
        GroupKind::Cell { keys, .. } => keys.items().len() + 1,
    }
}
