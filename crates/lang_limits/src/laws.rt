// Laws of the limits, each the contract of a function that does nothing.
ghost use Rattle.lang_limits.specs.Laws.{LeastIsLeast, NoLeastNoOffset, SmallTreesStay};

/// The least offset is one of the offsets, and no offset is before it. A rule of this project.
pub fn least_is_least()
    ensures { LeastIsLeast }
{}

/// If there is no least offset, there are no offsets. A rule of this project.
pub fn no_least_no_offset()
    ensures { NoLeastNoOffset }
{}

/// A forest without oversized tokens stays as it is. A rule of this project.
pub fn small_trees_stay()
    ensures { SmallTreesStay }
{}
