// Laws of the calls between two trees.
ghost use Rattle.node_tree.specs.Premises.{OpsTurnTheOldTreeIntoTheNew, UnchangedTreeNeedsNoCalls};

/// States that the calls between two trees turn the old tree into the new one, and that each call may come.
pub fn ops_turn_the_old_tree_into_the_new()
    ensures { OpsTurnTheOldTreeIntoTheNew }
{}

/// States that there is no call between a tree and itself.
pub fn unchanged_tree_needs_no_calls()
    ensures { UnchangedTreeNeedsNoCalls }
{}
