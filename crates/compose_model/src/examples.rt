// The definitions computed on small programs.
ghost use Rattle.compose_model.specs.SmallPrograms.{ExamplesHold};

/// States what the definitions give on small programs: rows with keys follow their items, a change runs only the call
/// that reads it, a remembered value is calculated again if its key changes, a loop reads its list in each turn of an
/// outer loop, and `pick` reads only the operand that it takes. The function does nothing. The check computes its
/// promise.
pub fn the_examples_hold()
    ensures { ExamplesHold }
{}
