// Laws of calls that are skipped, and of frames that owe nothing.
ghost use Rattle.recompose_laws.specs.Idle.{KeptTrailIsNumbered, NothingOwedNothingDone, QuietPartIsKept};
ghost use Rattle.recompose_laws.specs.Skipped.{SkippedCallIsRenewed};

/// Law: a frame that owes nothing keeps all groups and node numbers of the last frame, and runs, calculates and
/// reads nothing. Composition can be skipped.
pub fn nothing_owed_nothing_done()
    ensures { NothingOwedNothingDone }
{}

/// Law: among the groups that a frame keeps, only nodes have numbers; all other groups have 0.
pub fn kept_trail_is_numbered()
    ensures { KeptTrailIsNumbered }
{}

/// Law: a part of the kept groups in which no call is owed is kept as it is, with its numbers, and causes no work.
pub fn quiet_part_is_kept()
    ensures { QuietPartIsKept }
{}

/// Law: a call with equal arguments whose own reads do not include an owed object need not run (`skipToGroupEnd`). The
/// walk over its old groups gives the groups, the numbers and the work of composing the call again.
pub fn skipped_call_is_renewed()
    ensures { SkippedCallIsRenewed }
{}
