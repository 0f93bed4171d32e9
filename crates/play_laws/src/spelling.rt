// Laws of an actor's steps, call by call, and of which of a caller's calls are printed.
ghost use Rattle.play_laws.specs.Laws.{AllIsSpelled, CallIsPrinted, CallIsSpelled, FrameReadsAreLeftOut, NothingIsSpelled, PartIsPassed, PartsAreOfScript};

/// Law: how far an actor has come. Each call of its next part is one call more, a part without a call is passed, and at
/// the end the calls are all that its steps make.
pub fn steps_are_spelled()
    ensures none { NothingIsSpelled }
    ensures call { CallIsSpelled }
    ensures passed { PartIsPassed }
    ensures all { AllIsSpelled }
{}

/// Law: a call of a caller is printed unless it reads the snapshot of an open frame of this caller.
pub fn calls_are_printed()
    ensures call { CallIsPrinted }
    ensures reads { FrameReadsAreLeftOut }
{}

/// Law: the parts of one actor are those of the steps that the script has for this actor, in the order of the text.
pub fn parts_are_of_script()
    ensures { PartsAreOfScript }
{}
