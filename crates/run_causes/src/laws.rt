// Laws of causes, each the contract of a function without a body.
ghost use Rattle.run_causes.specs.CauseLaws.{CausesTellTheRunning, RanAreThoseWithACause, ReportCountsCauses, MarksHaveTheCauses, MarksTellTheCalculated};

/// States that a call counts as run exactly if its cause is not `Skipped`.
#[tactic(auto, using(crate::proofs::CausesOfRuns::causes_tell_the_running))]
pub fn causes_tell_the_running()
    ensures { CausesTellTheRunning }
{}

/// States that the calls of a frame that run are those whose cause is not `Skipped`, in the same order.
#[tactic(auto, using(crate::proofs::CausesOfRuns::ran_are_those_with_a_cause))]
pub fn ran_are_those_with_a_cause()
    ensures { RanAreThoseWithACause }
{}

/// States that the report of a frame counts the causes other than `Skipped`.
#[tactic(auto, using(crate::proofs::CausesOfRuns::report_counts_causes))]
pub fn report_counts_causes()
    ensures { ReportCountsCauses }
{}

/// States that the marks of a frame have the causes of its calls, in order.
#[tactic(auto, using(crate::proofs::MarksOfGroups::marks_have_the_causes))]
pub fn marks_have_the_causes()
    ensures { MarksHaveTheCauses }
{}

/// States that the marks of a frame say of each cell, in order, whether it counts as calculated.
#[tactic(auto, using(crate::proofs::MarksOfGroups::marks_tell_the_calculated))]
pub fn marks_tell_the_calculated()
    ensures { MarksTellTheCalculated }
{}
