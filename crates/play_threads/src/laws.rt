// Laws of what `threads` writes.
ghost use Rattle.play_threads.specs.WovenText.{TextTellsItsHistory};

/// Law: two histories with the same written lines are equal, if both are legal and woven and no name of an actor has a
/// colon. So the lines show how the actors took turns.
pub fn woven_text_tells_its_history()
    ensures { TextTellsItsHistory }
{}
