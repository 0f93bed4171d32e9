// Laws of worlds, for those who watch and those who apply.
ghost use Rattle.world_laws.specs.Watching.{FrameShowsItsTake, FrameReadsItsTake, WatcherMissesNothing, WatcherHearsNothingTwice, ListsAddUp};
ghost use Rattle.world_laws.specs.CleanApplies.{CleanApplyIsSerial};
ghost use Rattle.world_laws.specs.SerialHistories.{CleanHistoryIsSerial, CleanHistoriesAreWoven};
ghost use Rattle.world_laws.specs.WriteSkew.{WriteSkewIsAllowed};

use snap_policy::Policy;

/// A frame never tears: a snapshot that is taken for a watcher shows and reads the values that global had at the take,
/// whatever is called before its dispose.
pub fn frame_shows_its_take<P: Policy>()
    ensures shows { FrameShowsItsTake P.rules }
    ensures reads { FrameReadsItsTake P.rules }
{}

/// A watcher misses nothing and hears nothing twice: the list of a take has each object that has changed since the
/// watcher's last take, and no other object. A second take right after it returns an empty list.
pub fn watcher_misses_nothing<P: Policy>()
    ensures misses_nothing { WatcherMissesNothing P.rules }
    ensures nothing_twice { WatcherHearsNothingTwice P.rules }
{}

/// The lists of two takes add up to the list of one: an object is in one of them exactly if the list of a single later
/// take would have it.
pub fn lists_add_up()
    ensures { ListsAddUp }
{}

/// An apply that meets no other write is one step of a serial order: the parent gets exactly the written values, and the
/// snapshot began with the values that these replace.
pub fn clean_apply_is_serial<P: Policy>()
    ensures { CleanApplyIsSerial P.rules }
{}

/// A history whose applies are all clean gives the answers of the order of its applies, if every snapshot reads only
/// what it changed. Calls on global itself are steps of that order.
pub fn clean_history_is_serial<P: Policy>()
    ensures { CleanHistoryIsSerial P.rules }
{}

/// Snapshots of clean applies may be open at the same time, as in a computed history of two callers.
pub fn clean_histories_are_woven()
    ensures { CleanHistoriesAreWoven }
{}

/// Snapshots are isolated, but not serializable: two snapshots that each read what the other writes can both be applied,
/// though no serial order gives both reads (write skew).
pub fn write_skew_is_allowed()
    ensures { WriteSkewIsAllowed }
{}
