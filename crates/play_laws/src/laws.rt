// Laws of woven histories, and of what is printed of a history.
ghost use Rattle.play_laws.specs.Laws.{ActorNamesAreDistinct, FramesAreInTurn, LinesTellTheHistory, PartIsCompleted, PrintedByCaller, PrintedIsLegal, PrintedIsWoven, PrintedPartIsCompleted, SequentialIsWoven, TextGoesOn, WovenIsSequential};

use snap_policy::Policy;

/// Law: the printed calls of a legal history are legal and leave the same world. A frame's reads change no world.
pub fn printed_is_legal<P: Policy>()
    ensures { PrintedIsLegal P.rules }
{}

/// Law: of each caller the printed history has what is printed of its own calls.
pub fn printed_by_caller()
    ensures { PrintedByCaller }
{}

/// Law: if each actor's own calls, as printed, are those that its steps make, and no one else calls, then the printed
/// calls of a legal history are legal and woven.
pub fn printed_is_woven<P: Policy>()
    ensures { PrintedIsWoven P.rules }
{}

/// Law: a legal history in which each actor has made the calls of a first part of its steps can be continued to a legal
/// and woven one. A run that ends early has printed a prefix of the lines of a whole run.
pub fn part_is_completed()
    ensures part { PartIsCompleted }
    ensures printed { PrintedPartIsCompleted }
{}

/// Law: the printed bytes of a history that goes on begin with those of its first part.
pub fn text_goes_on()
    ensures { TextGoesOn }
{}

/// Law: no two histories that are legal and woven of the same actors have the same printed bytes, if the actors have
/// distinct names without a colon.
pub fn lines_tell_the_history()
    ensures { LinesTellTheHistory }
{}

/// Law: the actors of a script have distinct names.
pub fn actor_names_are_distinct()
    ensures { ActorNamesAreDistinct }
{}

/// Law: the sequential history of a single actor is woven, and no other history of this actor is legal and woven. So
/// one actor on a thread prints what a run in order prints.
pub fn one_actor_is_sequential()
    ensures woven { SequentialIsWoven }
    ensures only { WovenIsSequential }
{}

/// Law: in a script that `threads` accepts, at most one frame is open at a time in a legal and woven history, and the
/// actor that began it ends it.
pub fn frames_are_in_turn()
    ensures { FramesAreInTurn }
{}
