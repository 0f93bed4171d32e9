//! Groups, frames and reports as plain data, the values of `rt_values` in them.
//!
//! A composition is an ordered forest of groups, as the `SlotTable` of Compose is: calls, nodes, keys and cells. The
//! code keeps it as a list in preorder with depths (`Groups`). Contracts see a forest (`specs/GroupForest.antt`) or
//! that list (`specs/PreorderGroups.antt`). `specs/Paths.antt` gives the path of a group, `specs/Frames.antt` the
//! numbers, calls, cells and reads of a frame, and `specs/Nodes.antt` the tree of nodes.
//! Promises: contracts see lists of groups and of values as plain lists.
#![tactic(auto)]

mod groups;
mod report;

pub use groups::{Attribute, Attributes, Dep, Deps, Group, GroupKind, Groups, Values};
pub use report::Report;
