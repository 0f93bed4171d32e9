// The list of the objects that snapshots wrote.
ghost use Rattle.std.specs.Prelude.{◌≡◌, ◌≢◌, ◌++◌, ◌∷◌, ℕ, true, false, List, [], IfSome, IfNone, OnOk, OnErr};
ghost use Rattle.rt_values.specs.Maps.{contains};
ghost use Rattle.snap_world.specs.Noting.{noted_of};

use rt_values::{Name, NoMemory, ObjectNo, Objects};
use snap_ids::IdList;
use std::alloc::Global;
use std::marker::Model;

/// The objects that each snapshot wrote, for the names that have such a list, in the order of the names. Contracts see
/// the names and their lists.
#[derive(Drop)]
pub struct Notes {
    names: IdList,
    lists: Vec<Objects>,
}

impl Model for Notes {
    ghost use Rattle.std.specs.Prelude.{List, ℕ};
    ghost use Rattle.snap_world.specs.Noting.{AreNotes};

    ghost Value = { List ℕ × List (List ℕ) };

    ghost view = { λ s. (s.names, s.lists.items) };

    ghost invariant = { λ s. AreNotes s.names s.lists.items };
}

impl Notes {
    /// Returns no notes.
    pub fn new(alloc: Global) -> Notes
        ensures { result ≡ ([], []) }
    {
        Notes {
            names: IdList::new(alloc),
            lists: Vec::new(alloc),
        }
    }

    /// Returns the list of a name. Uses binary search.
    pub fn find(&self, name: Name) -> Option<&Objects>
        ensures some { IfSome result (λ noted. noted.now ≡ noted_of self.now name) }
        ensures none { IfNone result (noted_of self.now name ≡ []) }
    {
        match self.names.find(name) {
            Some(at) => Some(&self.lists[at]),
            None => None,
        }
    }

    /// Adds an empty list for a name, unless the name has a list. After `NoMemory` the notes are unchanged.
    pub fn add(&mut self, alloc: Global, name: Name) -> Result<(), NoMemory>
        ensures same { (n : ℕ) → noted_of self.new n ≡ noted_of self.old n }
        ensures there { OnOk result (contains name self.new.0 ≡ true) }
    {
        if self.names.find(name).is_some() {
            return Ok(());
        }
        self.insert(alloc, name)
    }

    // Adds an empty list for a name that has none. After `NoMemory` the notes are unchanged.
    fn insert(&mut self, alloc: Global, name: Name) -> Result<(), NoMemory>
        requires { contains name self.old.0 ≡ false }
        ensures same { (n : ℕ) → noted_of self.new n ≡ noted_of self.old n }
        ensures there { OnOk result (contains name self.new.0 ≡ true) }
    {
        let Ok(()) = self.lists.reserve(1) else {
            return Err(NoMemory);
        };
        let Ok(()) = self.names.set(name) else {
            return Err(NoMemory);
        };
        let Some(at) = self.names.find(name) else {
            unreachable!();
        };
        let Ok(()) = self.lists.insert(at, Objects::new(alloc)) else {
            unreachable!();
        };
        Ok(())
    }

    /// Replaces the list of a name.
    pub fn set(&mut self, name: Name, noted: Objects)
        requires { contains name self.old.0 ≡ true }
        ensures here { noted_of self.new name ≡ noted }
        ensures others { (n : ℕ) → n ≢ name → noted_of self.new n ≡ noted_of self.old n }
        ensures names { self.new.0 ≡ self.old.0 }
    {
        let Some(at) = self.names.find(name) else {
            unreachable!();
        };
        self.lists[at] = noted;
    }

    /// Appends an object to the list of a name. After `NoMemory` the notes are unchanged.
    pub fn push(&mut self, name: Name, object: ObjectNo) -> Result<(), NoMemory>
        requires { contains name self.old.0 ≡ true }
        ensures here { OnOk result (noted_of self.new name ≡ noted_of self.old name ++ object ∷ []) }
        ensures others { (n : ℕ) → n ≢ name → noted_of self.new n ≡ noted_of self.old n }
        ensures err { OnErr result ((n : ℕ) → noted_of self.new n ≡ noted_of self.old n) }
        ensures names { self.new.0 ≡ self.old.0 }
    {
        let Some(at) = self.names.find(name) else {
            unreachable!();
        };
        let Ok(()) = self.lists[at].push(object) else {
            return Err(NoMemory);
        };
        Ok(())
    }

    /// Removes the last object of the list of a name.
    pub fn pop(&mut self, name: Name)
        requires { contains name self.old.0 ≡ true }
        ensures last { (xs : List ℕ) (x : ℕ) → noted_of self.old name ≡ xs ++ x ∷ [] → noted_of self.new name ≡ xs }
        ensures others { (n : ℕ) → n ≢ name → noted_of self.new n ≡ noted_of self.old n }
    {
        let Some(at) = self.names.find(name) else {
            unreachable!();
        };
        self.lists[at].pop();
    }

    /// Removes the list of a name.
    pub fn remove(&mut self, name: Name)
        ensures here { noted_of self.new name ≡ [] }
        ensures others { (n : ℕ) → n ≢ name → noted_of self.new n ≡ noted_of self.old n }
    {
        if let Some(at) = self.names.find(name) {
            self.names.clear(name);
            self.lists.remove(at);
        }
    }
}
