// A law of lines, the contract of a function without a body.
ghost use Rattle.trace_lines.specs.LineLaws.{LinesReadBack};

/// States that reading a line gives its tokens back.
#[tactic(auto, using(crate::proofs::Reading::lines_read_back))]
pub fn lines_read_back()
    ensures { LinesReadBack }
{}
