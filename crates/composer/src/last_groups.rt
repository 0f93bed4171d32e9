// The groups of the last frame, and what a new frame owes.
ghost use Rattle.std.specs.Prelude.{◌≡◌, ◌≤◌, ◌<◌, ◌+◌, ◌∷◌, List, length, drop, IfOk};
ghost use Rattle.rt_values.specs.Maps.{contains};
ghost use Rattle.rt_groups.specs.declared.groups.Group.{Group as group_data};
ghost use Rattle.slot_table.specs.TableGroups.{group_at};
ghost use Rattle.slot_table.specs.ReaderStates.{after_deep};
ghost use Rattle.composer.specs.QuietRuns.{IsQuietUpTo};

use crate::draft::Held;
use crate::old_groups::OldGroup;
use crate::owed::Owed;
use recompose_scopes::OwedCalls;
use rt_values::{NoMemory, ObjectNo};
use slot_table::Table;
use std::alloc::Global;
use std::marker::Model;

/// The groups of the last frame, what a new frame owes, and the indexes of the calls that are owed.
#[derive(Drop)]
pub struct LastGroups<'a> {
    table: &'a Table,
    owed: &'a Owed,
    calls: OwedCalls,
}

impl<'a> Model for LastGroups<'a> {
    ghost use Rattle.recompose_scopes.specs.Scopes.{own_reads};
    ghost use Rattle.recompose_scopes.specs.Owed.{IsOwedList};
    ghost use Rattle.composer.specs.OldSiblings.{LastFrameGroups};

    ghost Value = { LastFrameGroups };

    ghost view = { λ l. record { groups = l.table.now.groups; owed = l.owed.now } };

    ghost invariant = { λ l. IsOwedList (own_reads l.table.now.groups) l.owed.now.objects l.calls };
}

impl<'a> LastGroups<'a> {
    /// Returns the groups that are held, with what is owed.
    pub fn new(alloc: Global, held: &'a Held, owed: &'a Owed) -> Result<Self, NoMemory>
        ensures { IfOk result (λ l. l ≡ record { groups = held.now.groups; owed = owed.now }) }
    {
        let calls = held.owed_calls(alloc, owed)?;
        Ok(LastGroups {
            table: held.table(),
            owed,
            calls,
        })
    }

    /// Returns the table of the groups.
    pub fn table(&self) -> &'a Table
        ensures { result.now.groups ≡ self.now.groups }
    {
        self.table
    }

    /// Returns whether every object is owed, because there is no last frame.
    pub fn owes_all(&self) -> bool
        ensures { result ≡ self.now.owed.all }
    {
        self.owed.is_all()
    }

    /// Returns whether object `x` is owed.
    #[inline(always)]
    pub fn owes(&self, x: ObjectNo) -> bool
        ensures { result ≡ contains x self.now.owed.objects }
    {
        self.owed.has(x)
    }

    /// Returns the number of groups.
    #[inline(always)]
    pub fn len(&self) -> usize
        ensures { result ≡ length self.now.groups }
    {
        self.table.len()
    }

    /// Returns the group at index `i`.
    #[inline(always)]
    pub fn group(&self, i: usize) -> OldGroup<'a>
        requires { i < length self.now.groups }
        ensures { result ≡ record { groups = self.now.groups; index = i } }
    {
        OldGroup::new(self.table, i)
    }

    /// Returns the depth of the group at index `i`.
    #[inline(always)]
    pub fn depth(&self, i: usize) -> u32
        requires { i < length self.now.groups }
        ensures { result ≡ (group_at self.now.groups i).depth }
    {
        self.table.depth(i)
    }

    /// Returns the index after the group at index `i` and all groups inside it.
    #[inline(always)]
    pub fn index_after(&self, i: usize) -> usize
        requires { i < length self.now.groups }
        ensures after { (g : group_data) (rest : List group_data) → drop i self.now.groups ≡ g ∷ rest →
            drop result self.now.groups ≡ after_deep (g.depth + 1) rest }
        ensures inside { result ≤ length self.now.groups }
    {
        self.table.index_after(i)
    }

    /// Returns an index before which no call from index `at` on is owed: that of the next owed call, if there is one.
    #[inline(always)]
    pub fn next_owed(&self, at: usize) -> usize
        ensures { IsQuietUpTo self.now at result }
    {
        self.calls.next_from(at)
    }
}
