// Laws of the fault that is reported.
ghost use Rattle.lang_checks.specs.Laws.{AnswerIsLeast, NoAnswerNoFault};

/// The fault that is reported for a list is in the list, and no fault of the list is before it. A rule of this project.
pub fn answer_is_least()
    ensures { AnswerIsLeast }
{}

/// A list for which no fault is reported is empty. A rule of this project.
pub fn no_answer_no_fault()
    ensures { NoAnswerNoFault }
{}
