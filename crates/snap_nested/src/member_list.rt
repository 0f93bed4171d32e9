// The list of the members of open names.
ghost use Rattle.std.specs.Prelude.{◌≡◌, ◌++◌, ◌∷◌, ◌<◌, [], ℕ, true, false, List, length, slice_set, IfOk, IfSome, IfNone, OnOk, OnErr};
ghost use Rattle.snap_ids.specs.IdLists.{with_id, with_ids};
ghost use Rattle.snap_nested.specs.Members.{member, no_member, without_invalid, global};
ghost use Rattle.snap_nested.specs.Unused.{without_unused};
ghost use Rattle.snap_nested.specs.declared.family.Member.{Member as Datum};

use crate::Member;
use rt_values::{Kind, Name, NoMemory};
use snap_ids::{IdList, IdSet};
use std::alloc::Global;
use std::marker::Model;

/// The members of the open names, in the order of their names, and how many names were given. Contracts see the list of
/// members by name, in which a name that is not open has `no_member`.
#[derive(Drop)]
pub struct MemberList {
    count: u64,
    names: IdList,
    opened: Vec<Member>,
}

impl Model for MemberList {
    ghost use Rattle.std.specs.Prelude.{List};
    ghost use Rattle.snap_nested.specs.declared.family.Member.{Member as Datum};

    ghost Value = { List Datum };

    ghost use Rattle.snap_nested.specs.ByName.{by_name, AreListed};

    ghost view = { λ s. by_name s.count s.names s.opened.items };

    ghost invariant = { λ s. AreListed s.count s.names s.opened.items };
}

// Removes `own` from the invalid ids of the member at an index.
fn remove_invalid_at(opened: &mut Vec<Member>, at: usize, own: &IdSet)
    requires { at < length opened.old.items }
    ensures { opened.new.items ≡ slice_set opened.old.items at (without_invalid own.now (member opened.old.items at)) }
{
    opened[at].invalid.remove_all(own);
}

// Removes `own` from the invalid ids of the members.
fn remove_all_invalid(opened: &mut Vec<Member>, own: &IdSet)
    ensures count { length opened.new.items ≡ length opened.old.items }
    ensures each { (j : ℕ) → member opened.new.items j ≡ without_invalid own.now (member opened.old.items j) }
{
    for at in 0..opened.len() {
        remove_invalid_at(opened, at, own);
    }
}

// Removes `unused` from the own and the invalid ids of the member at an index.
fn remove_unused_at(opened: &mut Vec<Member>, at: usize, unused: &IdSet)
    requires { at < length opened.old.items }
    ensures { opened.new.items ≡ slice_set opened.old.items at (without_unused unused.now (member opened.old.items at)) }
{
    let member = &mut opened[at];
    member.ids.remove_all(unused);
    member.invalid.remove_all(unused);
}

// Removes `unused` from the own and the invalid ids of the members.
fn remove_all_unused(opened: &mut Vec<Member>, unused: &IdSet)
    ensures count { length opened.new.items ≡ length opened.old.items }
    ensures each { (j : ℕ) → member opened.new.items j ≡ without_unused unused.now (member opened.old.items j) }
{
    for at in 0..opened.len() {
        remove_unused_at(opened, at, unused);
    }
}

impl MemberList {
    /// Returns the list with only global.
    pub fn of_global(alloc: Global) -> Result<MemberList, NoMemory>
        ensures { IfOk result (λ ms. ms ≡ global ∷ []) }
    {
        let names = IdList::of(alloc, 0)?;
        let mut opened = Vec::new(alloc);
        opened.push(Member {
            is_live: true,
            parent: 0,
            owner: 0,
            kind: Kind::Mutable,
            first: 1,
            id: 1,
            ids: IdSet::of(alloc, 1)?,
            invalid: IdSet::new(alloc),
        })?;
        Ok(MemberList {
            count: 1,
            names,
            opened,
        })
    }

    /// Returns how many names were given.
    pub fn count(&self) -> u64
        ensures { result ≡ length self.now }
    {
        self.count
    }

    // Returns the member of an open name. Uses binary search.
    fn search(&self, name: Name) -> Option<&Member>
        ensures some { IfSome result (λ m. m.now ≡ member self.now name) }
        ensures none { IfNone result (member self.now name ≡ no_member) }
    {
        match self.names.find(name) {
            Some(at) => Some(&self.opened[at]),
            None => None,
        }
    }

    /// Returns an index at which a name often is among the open names: `name` itself, if there is such an index, and
    /// else the last one.
    #[inline]
    pub fn likely_index(&self, name: Name) -> usize {
        let index = name as usize;
        let len = self.opened.len();
        if index < len {
            return index;
        }
        len.saturating_sub(1)
    }

    /// Returns the member of an open name. Looks first where the name is likely to be.
    #[inline]
    pub fn get(&self, name: Name) -> Option<&Member>
        ensures some { IfSome result (λ m. m.now ≡ member self.now name) }
        ensures none { IfNone result (member self.now name ≡ no_member) }
    {
        self.get_near(self.likely_index(name), name)
    }

    /// Returns the member of an open name. Does not search if the name has this index among the open names.
    #[inline]
    pub fn get_near(&self, index: usize, name: Name) -> Option<&Member>
        ensures some { IfSome result (λ m. m.now ≡ member self.now name) }
        ensures none { IfNone result (member self.now name ≡ no_member) }
    {
        let names = self.names.ids();
        if index < names.len() && names[index] == name {
            return Some(&self.opened[index]);
        }
        self.search(name)
    }

    /// Appends a member, which gets the next name. After `NoMemory` the list is unchanged.
    pub fn push(&mut self, new: Member) -> Result<(), NoMemory>
        ensures ok { OnOk result (self.new ≡ self.old ++ new ∷ []) }
        ensures err { OnErr result (self.new ≡ self.old) }
    {
        let Some(count) = self.count.checked_add(1) else {
            return Err(NoMemory);
        };
        let Ok(()) = self.opened.reserve(1) else {
            return Err(NoMemory);
        };
        let Ok(()) = self.names.set(self.count) else {
            return Err(NoMemory);
        };
        let Ok(()) = self.opened.push(new) else {
            unreachable!();
        };
        self.count = count;
        Ok(())
    }

    /// Removes the last name and its member, which is live.
    pub fn pop(&mut self)
        ensures { (ms : List Datum) (m : Datum) → self.old ≡ ms ++ m ∷ [] → m.is_live ≡ true → self.new ≡ ms }
    {
        if self.count == 0 {
            return;
        }
        let name = self.count - 1;
        if let Some(at) = self.names.find(name) {
            self.names.clear(name);
            self.opened.remove(at);
            self.count = name;
        }
    }

    /// Gives a live member a new id, and replaces its invalid ids. After `NoMemory` the list is unchanged.
    pub fn advance(&mut self, name: Name, id: u64, invalid: IdSet) -> Result<(), NoMemory>
        requires { (member self.old name).is_live ≡ true }
        ensures ok { OnOk result (self.new ≡ slice_set self.old name (record (member self.old name) {
          id = id;
          ids = with_id id (member self.old name).ids;
          invalid = invalid;
        })) }
        ensures err { OnErr result (self.new ≡ self.old) }
    {
        let Some(at) = self.names.find(name) else {
            unreachable!();
        };
        let member = &mut self.opened[at];
        let Ok(()) = member.ids.set(id) else {
            return Err(NoMemory);
        };
        member.id = id;
        member.invalid = invalid;
        Ok(())
    }

    /// Gives a live member a new id and the ids of `below`, and replaces its invalid ids. After `NoMemory` the list is
    /// unchanged.
    pub fn merge(
        &mut self,
        name: Name,
        id: u64,
        below: &IdSet,
        invalid: IdSet,
    ) -> Result<(), NoMemory>
        requires { (member self.old name).is_live ≡ true }
        ensures ok { OnOk result (self.new ≡ slice_set self.old name (record (member self.old name) {
          id = id;
          ids = with_ids (with_id id (member self.old name).ids) below.now;
          invalid = invalid;
        })) }
        ensures err { OnErr result (self.new ≡ self.old) }
    {
        let Some(at) = self.names.find(name) else {
            unreachable!();
        };
        let member = &mut self.opened[at];
        let Ok(()) = member.ids.set_and_add_all(id, below) else {
            return Err(NoMemory);
        };
        member.id = id;
        member.invalid = invalid;
        Ok(())
    }

    /// Closes a live member, which keeps its ids.
    pub fn close(&mut self, name: Name)
        requires { (member self.old name).is_live ≡ true }
        ensures { self.new ≡ slice_set self.old name (record (member self.old name) { is_live = false; invalid = [] }) }
    {
        let Some(at) = self.names.find(name) else {
            unreachable!();
        };
        let alloc = *self.opened.allocator();
        let member = &mut self.opened[at];
        member.is_live = false;
        member.invalid = IdSet::new(alloc);
    }

    /// Removes the member of an open name.
    pub fn remove(&mut self, name: Name) -> Option<Member>
        ensures some { IfSome result (λ m. m ≡ member self.old name) }
        ensures none { IfNone result (member self.old name ≡ no_member) }
        ensures gone { self.new ≡ slice_set self.old name no_member }
    {
        let Some(at) = self.names.find(name) else {
            return None;
        };
        self.names.clear(name);
        Some(self.opened.remove(at))
    }

    /// Removes `own` from the invalid ids of all members.
    pub fn remove_invalid(&mut self, own: &IdSet)
        ensures count { length self.new ≡ length self.old }
        ensures each { (n : ℕ) → member self.new n ≡ without_invalid own.now (member self.old n) }
    {
        remove_all_invalid(&mut self.opened, own);
    }

    /// Removes `unused` from the own and the invalid ids of all members.
    pub fn remove_unused(&mut self, unused: &IdSet)
        ensures count { length self.new ≡ length self.old }
        ensures each { (n : ℕ) → member self.new n ≡ without_unused unused.now (member self.old n) }
    {
        remove_all_unused(&mut self.opened, unused);
    }
}
