// Laws of every composition that is made from an earlier one.
ghost use Rattle.recompose_laws.specs.Distinct.{NodesAreAtNodeSites, NumbersStayDistinct};
ghost use Rattle.recompose_laws.specs.Numbering.{ComposingAgainIsTheFrame, KeptTrailIsTheForest, PathNumbersAreSiblingNumbers};
ghost use Rattle.recompose_laws.specs.Refreshing.{OwedIsWhatChanged, RefreshingIsScratch};
ghost use Rattle.recompose_laws.specs.Walking.{WalkDoesTheFrame};
ghost use Rattle.recompose_laws.specs.Work.{PathWorkIsSiblingWork, WorkGoesInOrder};

/// Law: two snapshots can differ in value only at the state objects whose stamps differ, if equal stamps of one
/// object carry equal values. Stamps replace the original's comparison of state records.
pub fn owed_is_what_changed()
    ensures { OwedIsWhatChanged }
{}

/// Law: one walk over the groups of the last frame gives exactly what composing from scratch gives. The walk
/// composes again the calls whose own reads include an owed object, and keeps the rest.
pub fn refreshing_is_scratch()
    ensures { RefreshingIsScratch }
{}

/// Law: the walk runs, calculates and reads exactly what the frame owes. A frame owes the calls whose path is
/// new, whose arguments differ or whose own reads include an owed object; in those calls, the cells that are
/// new or whose keys differ; and the reads of those calls in the order of evaluation.
pub fn walk_does_the_frame()
    ensures { WalkDoesTheFrame }
{}

/// Law: the work of a frame, defined by paths from the root, is the work found by matching each group with an
/// old sibling. Siblings match by site, key and the count of equal siblings before them.
pub fn path_work_is_sibling_work()
    ensures { PathWorkIsSiblingWork }
{}

/// Law: work adds up in statement order. Later statements are matched as if the groups of earlier statements
/// were earlier siblings.
pub fn work_goes_in_order()
    ensures { WorkGoesInOrder }
{}

/// Law: a node keeps its number if its path was in the old tree. Matching each group with an old sibling gives
/// the same numbers.
pub fn path_numbers_are_sibling_numbers()
    ensures { PathNumbersAreSiblingNumbers }
{}

/// Law: the groups that are kept after a frame are those of composing from scratch, with node numbers.
pub fn kept_trail_is_the_forest()
    ensures { KeptTrailIsTheForest }
{}

/// Law: one walk over the groups that the last frame kept, with their numbers, gives the groups that the new
/// frame keeps (`recompose`). Its work is what the frame's report counts.
pub fn composing_again_is_the_frame()
    ensures { ComposingAgainIsTheFrame }
{}

/// Law: if node numbers were unique and unused numbers were at least `next` before a frame, the same is true
/// after it. Nodes must be at the sites of node statements, as in one program.
pub fn numbers_stay_distinct()
    ensures { NumbersStayDistinct }
{}

/// Law: a program's nodes are at the sites of its node statements, and its other groups at other sites, if
/// statements of different kinds have different sites.
pub fn nodes_are_at_node_sites()
    ensures { NodesAreAtNodeSites }
{}
