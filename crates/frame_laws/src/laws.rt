// Laws of frames that follow one another.
ghost use Rattle.frame_laws.specs.IdleFrames.{SecondFrameIsIdle, SecondFrameMakesNoCall, UnreadChangesDoNothing};
ghost use Rattle.frame_laws.specs.RefusedFrames.{RefusedLeavesNoTrace, RefusedThenGoodIsOneFrame};
ghost use Rattle.frame_laws.specs.FollowedPaths.{NumbersFollowPaths};

use snap_policy::Policy;

/// A second frame of the same map runs nothing and keeps every node: all groups and numbers are those of the first frame,
/// and no call runs, no cell is calculated and no object is read.
pub fn second_frame_is_idle()
    ensures { SecondFrameIsIdle }
{}

/// A second frame of the same map of a checked program makes no call on the applier.
pub fn second_frame_makes_no_call()
    ensures { SecondFrameMakesNoCall }
{}

/// A change that no kept call has read does nothing: the frame after such a change keeps all groups and node numbers, and
/// runs, calculates and reads nothing.
pub fn unread_changes_do_nothing()
    ensures { UnreadChangesDoNothing }
{}

/// A refused frame leaves no trace: each later frame is as if there had been no such frame.
pub fn refused_leaves_no_trace()
    ensures { RefusedLeavesNoTrace }
{}

/// A frame that is refused for its size and the good frame after it show what one good frame would have shown, and
/// together their takes list what one take would have listed.
pub fn refused_then_good_is_one_frame<P: Policy>()
    ensures { RefusedThenGoodIsOneFrame P.rules }
{}

/// The number of a node follows its path: a row with a key keeps its number when it moves. A node at a new path gets a
/// number that no frame has given.
pub fn numbers_follow_paths()
    ensures { NumbersFollowPaths }
{}
