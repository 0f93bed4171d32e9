//! Policies of state objects: when two values count as equal, and how two changes are merged.
//!
//! This is `SnapshotMutationPolicy` of `androidx.compose.runtime`. A write of an equivalent value changes
//! nothing. An apply asks the policy for a merge if both snapshots changed the same object. Worlds of
//! snapshots are generic over `Policy`; programs use the policies of `BuiltIn`.
//! Promises: each method computes the policy's `rules`. A merge keeps the type of its three values. A merge
//! of `BuiltIn` takes memory only where `Append` makes a list.
#![tactic(auto)]

mod merges;
mod policy;

pub use policy::{BuiltIn, Policy};
