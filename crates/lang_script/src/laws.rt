// Laws of scripts.
ghost use Rattle.lang_script.specs.StepLaws.{SequentialIsSpelled, SequentialIsTheOnly};

/// Law: the history of a run has the plain world's replies, its calls are those that the script's steps make given
/// these replies, and no other history has both properties.
pub fn sequential_is_spelled()
    ensures spelled { SequentialIsSpelled }
    ensures only { SequentialIsTheOnly }
{}
