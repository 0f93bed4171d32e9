//! Trees of nodes, the calls that turn one tree into the next, and the appliers that make these calls.
//!
//! `Applier` is the trait `Applier` of Compose, and `NodeTree` an applier over a tree in memory (`AbstractApplier`).
//! `Ops` is the part of Compose's `ChangeList` that changes nodes. `place` compares two trees by the numbers of
//! their nodes, and `carry` makes the calls. A composition calls `place` with the nodes of the last frame and the
//! new ones, takes memory with `Applier::reserve`, and then calls `carry`.
//!
//! Contracts see a tree as plain data with a current node (`specs/NodeTrees.antt`). `specs/Calls.antt` has the calls
//! and the tree after each, `specs/Placing.antt` the calls between two trees, and `specs/Premises.antt` what two trees
//! need.
//! Promises: the calls of `place` turn the old tree into the new one. Each call of an applier does to its tree what the
//! definitions say, and fails only if the count of faults rises. After `reserve` no call takes memory.
#![tactic(auto)]

mod applier;
mod carrying;
mod copies;
mod counts;
mod failing;
mod flat;
mod kept;
mod kept_nodes;
mod laws;
mod level;
mod listing;
mod lists;
mod ops;
mod placing;
mod sibling_index;
mod siblings;
mod tree;
mod unit;

pub use applier::Applier;
pub use carrying::carry;
pub use failing::{FailingApplier, FailingTree};
pub use flat::NodeRef;
pub use laws::{ops_turn_the_old_tree_into_the_new, unchanged_tree_needs_no_calls};
pub use listing::list_nodes;
pub use ops::{NewNode, NodeAttributes, Op, Ops};
pub use placing::{place, place_anew};
pub use tree::NodeTree;
pub use unit::UnitApplier;
