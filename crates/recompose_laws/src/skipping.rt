// Laws of calls that are skipped and of cells that are kept, stated of the definitions.
ghost use Rattle.recompose_laws.specs.Skipping.{CallsReachEarlierFunctions, CellsMayBeKept, EvaluationAgrees, OwnPartsAgree, SkippingIsRight};

/// States that an expression has the same value and reads the same state objects in two snapshots, if the objects
/// that it reads have equal values in both.
pub fn evaluation_agrees()
    ensures { EvaluationAgrees }
{}

/// States that the own part of a call is the same if its arguments are equal and the state objects of its own reads
/// have equal values. The own part leaves out the forests of inner calls. The own reads are what a restart scope
/// observes.
pub fn own_parts_agree()
    ensures { OwnPartsAgree }
{}

/// States that a call can be skipped (`skipToGroupEnd`) if its arguments are equal and the state objects of its own
/// reads have equal values: composing it again gives its old groups, in which only the inner calls are composed
/// again.
pub fn skipping_is_right()
    ensures { SkippingIsRight }
{}

/// States that a call makes the forest of the body of its function, which sees only the earlier functions. By this
/// rule of the project no composable calls itself, directly or through others.
pub fn calls_reach_earlier_functions()
    ensures { CallsReachEarlierFunctions }
{}

/// States that a calculation without reads has one value for one list of keys in all snapshots. So a cell with equal
/// keys can keep its value (`remember`).
pub fn cells_may_be_kept()
    ensures { CellsMayBeKept }
{}
