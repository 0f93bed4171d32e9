//! Links from state objects to the calls that read them.
//!
//! When an object changes, composing must find the calls that depend on it: `Links` lists for each object the scopes
//! that read it, as the `observations` of `CompositionImpl` and the `scopeMap` of `SnapshotStateObserver` do.
//! Contracts see a list of objects with their scopes (`specs/LinkLists.antt`).
//! Promises: `scopes_of` lists exactly the scopes that were put with the object and not dropped. After `reserve(n)`,
//! putting `n` pairs takes no memory. `put` takes all memory first: after `NoMemory` the links are as before.
//! `scopes_of` and `drop_scope` never take memory.
#![tactic(auto)]

ghost use Rattle.read_links.specs.LinkLists.{PuttingLinksOneObject, DroppingUnlinksOneScope};

mod links;
mod lists;

pub use links::{Links, Scope};

/// States that putting a scope with an object changes the scopes of this object only.
#[tactic(auto, using(crate::proofs::Laws::putting_links_one_object))]
pub fn putting_links_one_object()
    ensures { PuttingLinksOneObject }
{}

/// States that dropping a scope removes this scope from each object, and no other.
#[tactic(auto, using(crate::proofs::Laws::dropping_unlinks_one_scope))]
pub fn dropping_unlinks_one_scope()
    ensures { DroppingUnlinksOneScope }
{}
