//! The recompose scopes of a composition: which calls are owed when objects change.
//!
//! A call that reads something itself has a recompose scope (`RecomposeScopeImpl`). `RecomposeScopes` keeps for each
//! scope its anchor, with the index of the call's group, and for each object the scopes that depend on it (the
//! `observations` of `CompositionImpl`). Contracts see these two lists (`specs/Scopes.antt`).
//! Promises: for given objects, `owed_calls` returns exactly the groups whose own reads contain one of the objects, in
//! time that depends on the scopes of these objects only. `next_from` finds the first owed call from an index on.
#![tactic(auto)]

mod owed_calls;
mod scopes;

pub use owed_calls::OwedCalls;
pub use scopes::RecomposeScopes;
