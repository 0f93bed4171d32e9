// Laws of what is accepted and what the commands write.
ghost use Rattle.text_laws.specs.WovenRuns.{RunIsWoven, RunAcceptsTextsOfThreads, RunWritesAnOutputOfThreads};
ghost use Rattle.text_laws.specs.CanonicalTexts.{CheckIsIdempotent, OffsetsChangeNoOutput};

/// A run is woven: in a script that `threads` accepts, the steps of all actors in the order of the text, with one table of
/// snapshot names, make the calls that each actor would make with a table of its own.
pub fn run_is_woven()
    ensures { RunIsWoven }
{}

/// Each text that `threads` accepts, `run` accepts.
pub fn run_accepts_texts_of_threads()
    ensures { RunAcceptsTextsOfThreads }
{}

/// What `run` writes for a text that `threads` accepts is one of the outputs of `threads`.
pub fn run_writes_an_output_of_threads()
    ensures { RunWritesAnOutputOfThreads }
{}

/// The canonical text is accepted again, as the same program and script at other offsets, and is its own canonical text.
pub fn check_is_idempotent()
    ensures { CheckIsIdempotent }
{}

/// Offsets change no output: each command has the same outputs for a program and a script at other offsets, so for a text
/// and for its canonical text.
pub fn offsets_change_no_output()
    ensures { OffsetsChangeNoOutput }
{}
