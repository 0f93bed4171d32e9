// The recompose scopes of a composition.
ghost use Rattle.std.specs.Prelude.{◌≡◌, ℕ, List, [], None, true, slice_index_or, IfOk, OnOk};
ghost use Rattle.rt_values.specs.Maps.{contains};
ghost use Rattle.read_links.specs.LinkLists.{scopes_in};
ghost use Rattle.recompose_scopes.specs.Scopes.{own_reads, AreScopesOf};
ghost use Rattle.recompose_scopes.specs.Owed.{IsOwedList};
ghost use Rattle.recompose_scopes.specs.Building.{with_call, with_places, with_owed};

use crate::owed_calls::OwedCalls;
use read_links::{Links, Scope};
use rt_groups::Dep;
use rt_values::{NoMemory, ObjectNo};
use slot_anchors::{Anchor, Anchors};
use slot_table::{ShrunkReads, Table};
use std::alloc::Global;
use std::marker::Model;

/// The recompose scopes of the calls that read something themselves (`RecomposeScopeImpl`), numbered from 0 in the
/// order of their groups.
#[derive(Drop)]
pub struct RecomposeScopes {
    // For each scope the index of its call's group (`anchor`).
    anchors: Anchors,
    // For each object the scopes that depend on it (`observations`).
    links: Links,
}

impl Model for RecomposeScopes {
    ghost use Rattle.recompose_scopes.specs.Scopes.{ScopeLists};

    ghost Value = { ScopeLists };

    ghost view = { λ s. record { anchors = s.anchors.indexes; links = s.links.links } };
}

impl RecomposeScopes {
    // Returns no anchors and no links.
    fn empty(alloc: Global) -> Self
        ensures { result ≡ record { anchors = []; links = [] } }
    {
        RecomposeScopes {
            anchors: Anchors::new(alloc),
            links: Links::new(alloc),
        }
    }

    /// Returns no scopes, as a `CompositionImpl` has before its first composition.
    pub fn new(alloc: Global) -> Self
        ensures { AreScopesOf [] result }
    {
        RecomposeScopes::empty(alloc)
    }

    /// Returns the scopes of the groups of `table` that have reads. Takes time linear in the groups and their reads,
    /// each of which is hashed at most three times.
    pub fn of(alloc: Global, table: &Table) -> Result<Self, NoMemory>
        ensures { IfOk result (λ s. AreScopesOf (own_reads table.now.groups) s) }
    {
        let mut scopes = RecomposeScopes::empty(alloc);
        for group in 0..table.len() {
            scopes.add(alloc, group, table.reads(group))?;
        }
        Ok(scopes)
    }

    /// Returns the scopes of the groups of a new frame that have reads, where `reads` are the reads of all groups.
    /// Takes time linear in the groups and their reads, each of which is hashed at most three times. A rule of this
    /// project.
    pub fn of_reads(alloc: Global, reads: ShrunkReads<'_>) -> Result<Self, NoMemory>
        ensures { IfOk result (λ s. AreScopesOf reads.entry s) }
    {
        let mut reads = reads;
        let mut scopes = RecomposeScopes::empty(alloc);
        let mut group: usize = 0;
        while let Some(own) = reads.next() {
            scopes.add(alloc, group, own)?;
            let Some(next) = group.checked_add(1) else {
                return Err(NoMemory); // No memory holds so many groups.
            };
            group = next;
        }
        Ok(scopes)
    }

    // Adds a scope for the group at index `group`, unless it has no reads: Compose, too, makes the anchor of a scope
    // only when the scope is used.
    fn add(&mut self, alloc: Global, group: usize, reads: &[ObjectNo]) -> Result<(), NoMemory>
        ensures { OnOk result (self.new ≡ with_call group reads.now self.old) }
    {
        if reads.is_empty() {
            return Ok(());
        }
        let anchor = self.anchors.mark(group)?;
        self.links.put(alloc, anchor.number, reads)
    }

    /// Returns the scopes that depend on `object`, in the order of their groups (the scopes that `observations` has
    /// for it).
    pub fn scopes_of(&self, object: Dep) -> &[Scope]
        ensures { result.now ≡ scopes_in object self.now.links }
    {
        self.links.scopes_of(object)
    }

    /// Returns the index of the group of `scope` (its `anchor`), or `None` if there is no such scope or its group was
    /// removed.
    pub fn place(&self, scope: Scope) -> Option<usize>
        ensures { result ≡ slice_index_or self.now.anchors scope None }
    {
        if scope < self.anchors.len() {
            self.anchors.place(Anchor { number: scope })
        } else {
            None
        }
    }

    // Appends the indexes of the groups of `scopes`.
    fn append_places(&self, scopes: &[Scope], places: &mut Vec<usize>) -> Result<(), NoMemory>
        ensures { OnOk result
            (places.new.items ≡ with_places self.now.anchors scopes.now places.old.items) }
    {
        for scope in scopes {
            if let Some(place) = self.place(*scope) {
                places.push(place)?;
            }
        }
        Ok(())
    }

    // Returns the indexes of the groups that depend on each of `objects`, one object after another.
    fn collect_places(&self, alloc: Global, objects: &[ObjectNo]) -> Result<Vec<usize>, NoMemory>
        ensures { IfOk result (λ p. p.items ≡ with_owed self.now objects.now []) }
    {
        let mut places = Vec::new(alloc);
        for object in objects {
            self.append_places(self.scopes_of(*object), &mut places)?;
        }
        Ok(places)
    }

    /// Returns whether no call reads anything.
    pub fn is_empty(&self) -> bool
        ensures { result ≡ true → self.now.anchors ≡ [] }
    {
        self.anchors.len() == 0
    }

    /// Returns the calls that are owed, whatever changes: none, since no call reads anything.
    #[tactic(auto, using(crate::proofs::CollectedPlaces::none_owed))]
    pub fn no_calls(&self, alloc: Global) -> OwedCalls
        requires { self.now.anchors ≡ [] }
        ensures { (reads : List (List ℕ)) (objects : List ℕ) → AreScopesOf reads self.now →
            IsOwedList reads objects result }
    {
        OwedCalls::of(Vec::new(alloc))
    }

    /// Returns the calls whose own reads contain one of `objects`, by the indexes of their groups, as
    /// `addPendingInvalidationsLocked` finds the scopes and `updateComposerInvalidations` sorts their anchors. Takes
    /// time linear in the scopes of `objects`, and for several objects the time of a sort.
    pub fn owed_calls(&self, alloc: Global, objects: &[ObjectNo]) -> Result<OwedCalls, NoMemory>
        ensures { IfOk result (λ c. (reads : List (List ℕ)) → AreScopesOf reads self.now →
            IsOwedList reads objects.now c) }
    {
        Ok(OwedCalls::of(self.collect_places(alloc, objects)?))
    }
}
