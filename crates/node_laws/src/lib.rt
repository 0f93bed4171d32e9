//! Laws of the nodes, the groups and the reads of a composition.
//!
//! Each law is the contract of a function without a body. `node_tree` turns one tree of nodes into the next, if siblings
//! have distinct numbers and a node that keeps its number keeps its kind and its attribute names. The laws on trees
//! state that the trees of a checked program meet this: a node keeps its number only at its path, so at one statement,
//! and a statement makes nodes of one shape. In Compose the same follows from the keys that the compiler gives to the
//! calls of a composable. The law on groups needs no premise on sites, unlike `nodes_are_at_node_sites` of
//! `recompose_laws`: a checked program has one statement at each site. The law on reads joins two definitions of what a
//! call reads itself. `own_part` removes the contents of the calls inside the call. `trace` lists the reads of a forest,
//! each with the innermost call that contains the read, as Compose records a read for the scope that is being composed.
//! Promises: the node tree of a frame can follow that of the last good frame, and a number is given once
//! (`specs/FollowingTrees.antt`). A group is a node exactly if a node statement is at its site
//! (`specs/NodeSites.antt`). The reads with the path of a call are its own reads (`specs/OwnReads.antt`).
#![tactic(auto)]

mod laws;

pub use laws::{
    kept_tree_is_distinct, next_tree_can_follow, nodes_are_at_sites_of_programs,
    numbers_are_not_given_again, own_reads_are_traced,
};
