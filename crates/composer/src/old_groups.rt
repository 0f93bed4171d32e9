// The groups of the last frame.
ghost use Rattle.std.specs.Prelude.{◌≡◌, ◌<◌, ◌+◌, length, IfOk};
ghost use Rattle.rt_groups.specs.declared.groups.Group.{Group as group_data};
ghost use Rattle.composer.specs.OldSiblings.{old_group};

use rt_groups::GroupKind;
use rt_values::{NoMemory, ObjectNo};
use slot_table::{SharedGroup, Table};
use std::marker::Model;

/// A group of the last frame's slot table (`KeyInfo`).
#[derive(Drop)]
pub struct OldGroup<'a> {
    table: &'a Table,
    index: usize,
}

impl<'a> Model for OldGroup<'a> {
    ghost use Rattle.std.specs.Prelude.{◌<◌, length};
    ghost use Rattle.composer.specs.OldSiblings.{KeyInfo};

    ghost Value = { KeyInfo };

    ghost view = { λ o. record { groups = o.table.now.groups; index = o.index } };

    ghost invariant = { λ o. o.index < length o.table.now.groups };
}

impl<'a> OldGroup<'a> {
    /// Returns the group at `index`.
    pub fn new(table: &'a Table, index: usize) -> OldGroup<'a>
        requires { index < length table.now.groups }
        ensures { result ≡ record { groups = table.now.groups; index = index } }
    {
        OldGroup { table, index }
    }

    /// Returns a copy, which borrows the same table.
    pub fn copy(&self) -> OldGroup<'a>
        ensures { result ≡ self.now }
    {
        OldGroup {
            table: self.table,
            index: self.index,
        }
    }

    /// Returns the table that contains the group.
    pub fn table(&self) -> &'a Table
        ensures { result.now.groups ≡ self.now.groups }
    {
        self.table
    }

    /// Returns the index of the group in its table.
    pub fn index(&self) -> usize
        ensures index { result ≡ self.now.index }
        ensures inside { result < length self.now.groups }
    {
        self.index
    }

    /// Returns the index after the group, that of the first group inside it if there is any.
    pub fn first_inside(&self) -> usize
        ensures { result ≡ self.now.index + 1 }
    {
        let _groups = self.table.len();
        self.index + 1
    }

    /// Returns the kind of the group, with its values.
    pub fn kind(&self) -> &'a GroupKind
        ensures { result.now ≡ (old_group self.now).what }
    {
        self.table.kind(self.index)
    }

    /// Returns the depth of the group.
    pub fn depth(&self) -> u32
        ensures { result ≡ (old_group self.now).depth }
    {
        self.table.depth(self.index)
    }

    /// Returns the site of the group.
    pub fn site(&self) -> u32
        ensures { result ≡ (old_group self.now).site }
    {
        self.table.site(self.index)
    }

    /// Returns the number of a node, or 0 for the other kinds.
    pub fn number(&self) -> u64
        ensures { result ≡ (old_group self.now).number }
    {
        self.table.number(self.index)
    }

    /// Returns what the group depends on itself.
    pub fn reads(&self) -> &'a [ObjectNo]
        ensures { result.now ≡ (old_group self.now).reads }
    {
        self.table.reads(self.index)
    }

    /// Returns the group, which shares its slots with the table.
    pub fn share(&self) -> Result<SharedGroup, NoMemory>
        ensures { IfOk result (λ g. g ≡ old_group self.now) }
    {
        self.table.share(self.index)
    }
}
