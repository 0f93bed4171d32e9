// Laws of the node trees, the groups and the reads of compositions.
ghost use Rattle.node_laws.specs.FollowingTrees.{KeptTreeIsDistinct, NextTreeCanFollow, NumbersAreNotGivenAgain};
ghost use Rattle.node_laws.specs.NodeSites.{NodesAreAtSitesOfPrograms};
ghost use Rattle.node_laws.specs.OwnReads.{OwnReadsAreTraced};

/// Law: in a node tree whose numbers are unique, siblings have distinct numbers at every level.
pub fn kept_tree_is_distinct()
    ensures { KeptTreeIsDistinct }
{}

/// Law: the node tree of a frame of a checked program can follow the kept one, and its numbers are unique. A rule of
/// this project.
pub fn next_tree_can_follow()
    ensures { NextTreeCanFollow }
{}

/// Law: no frame of a checked program gives a number again that an earlier node had, and the number of the next new
/// node does not fall. A rule of this project.
pub fn numbers_are_not_given_again()
    ensures { NumbersAreNotGivenAgain }
{}

/// Law: in each composition of a checked program a group is a node exactly if a node statement is at its site. In
/// Compose the compiler gives each call of a composable a positional key.
pub fn nodes_are_at_sites_of_programs()
    ensures { NodesAreAtSitesOfPrograms }
{}

/// Law: the reads of a forest whose innermost call has a path are exactly the own reads of the call at this path, in
/// order. So the calls for which an object is read are those with the object among their own reads.
pub fn own_reads_are_traced()
    ensures { OwnReadsAreTraced }
{}
