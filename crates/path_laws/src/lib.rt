//! The path of a group, which identifies it from frame to frame.
//!
//! A path has the site, the key and the occurrence of each group from the root down, as the compound key of Compose.
//! `specs/GroupPaths.antt` lists the paths of a forest, and gives the index of the group at a path and which old
//! group each new group is. The laws are functions without effect, whose clauses state them.
//! Promises: no two groups of a forest have one path, and a lookup by a path finds the group that has it.
#![tactic(auto)]

ghost use Rattle.path_laws.specs.GroupPaths.{EachGroupHasAPath, EachPathFindsItsGroup, EachFoundGroupHasThePath, NoTwoGroupsHaveOnePath, IndexesAreOfFoundGroups, GroupsFollowTheirPaths, MatchingFindsTheOldPath};

/// States that a forest has one path for each group of its list in preorder.
#[tactic(auto, using(crate::proofs::Indexes::each_group_has_a_path))]
pub fn each_group_has_a_path()
    ensures { EachGroupHasAPath }
{}

/// States that looking up the path of a group finds this group.
#[tactic(auto, using(crate::proofs::SiblingMatches::each_path_finds_its_group))]
pub fn each_path_finds_its_group()
    ensures { EachPathFindsItsGroup }
{}

/// States that the group that a lookup finds at a path has this path.
#[tactic(auto, using(crate::proofs::FoundPaths::each_found_group_has_the_path))]
pub fn each_found_group_has_the_path()
    ensures { EachFoundGroupHasThePath }
{}

/// States that no two groups of a forest have one path.
#[tactic(auto, using(crate::proofs::FoundPaths::no_two_groups_have_one_path))]
pub fn no_two_groups_have_one_path()
    ensures { NoTwoGroupsHaveOnePath }
{}

/// States that the lookup of an index finds a group exactly if the forest has a group at the path.
#[tactic(auto, using(crate::proofs::IndexedGroups::indexes_are_of_found_groups))]
pub fn indexes_are_of_found_groups()
    ensures { IndexesAreOfFoundGroups }
{}

/// States that a group is removed exactly if no new group has its path, and otherwise has the new index of the group
/// with this path.
#[tactic(auto, using(crate::proofs::FoundPaths::groups_follow_their_paths))]
pub fn groups_follow_their_paths()
    ensures { GroupsFollowTheirPaths }
{}

/// States that matching each new group among the old siblings, level by level, finds the old group with its path. So
/// composing needs no path.
#[tactic(auto, using(crate::proofs::SiblingMatches::matching_finds_the_old_path))]
pub fn matching_finds_the_old_path()
    ensures { MatchingFindsTheOldPath }
{}
