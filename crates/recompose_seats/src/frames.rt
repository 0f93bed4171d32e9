// Frames through a seat.
ghost use Rattle.std.specs.Prelude.{◌≡◌, ℕ, List, Option, Some, None, IfOk, IfErr, OnErr};
ghost use Rattle.rt_values.specs.Maps.{Map};
ghost use Rattle.rt_values.specs.declared.value.Ty.{Ty};
ghost use Rattle.rt_groups.specs.Frames.{LastFrame};
ghost use Rattle.recomposer.specs.AppliedFrames.{MayCall, Applies};
ghost use Rattle.recomposer.specs.Compositions.{IsAt, StopsAtEnd, GrowsFor, MakesNoFrame, LogsNoFrame};
ghost use Rattle.recomposer.specs.FrameContracts.{KeepsSettings, KeepsCalls, ComposesShown, LeavesApplier, DrivesApplier, AsksOwed, LogsEnd, StopsBefore, ReadsInFrame};
ghost use Rattle.snap_shared.specs.SeatDesk.{IsOnlyTaker, objects_read};
ghost use Rattle.snap_shared.specs.Seats.{seat_number, seen_by, mine_of};
ghost use Rattle.recompose_seats.specs.SeatFrames.{ReturnsSeat, HasLast, HasClock, HasBegun, ShowsIn, MayCompose, BeginsThrough, TakesThrough, MakesThrough};

use node_tree::Applier;
use recomposer::{Begun, Composition, FrameStop};
use rt_groups::Report;
use rt_streams::Gate;
use rt_values::Steps;
use snap_api::Versions;
use snap_shared::{Seat, SeatView};
use std::alloc::Global;
use std::sync::Wait;
use std::sync::ledger::Ledger;

/// Begins a frame through a seat's desk, and returns the seat and the number of its next call at the gate
/// (`Composition::begin`). The composition has then marked what changed up to the map of its take. Waits while other
/// seats have the turn. Fails like `begin`.
pub fn begin_among<W: Versions + Drop, R: Wait, G: Gate>(
    mut view: SeatView<'_, W, R, G>,
    alloc: Global,
    composition: &mut Composition,
) -> (Seat<W>, u64, Result<Begun, FrameStop>)
    ensures returns { ReturnsSeat W.P.rules W.stands view.entry.shared.now view.entry.seat result.0 }
    ensures good { (k : LastFrame) (types : List Ty) (l : Option Map) →
        MayCompose W.P.rules W.stands view.entry.shared.now composition.old k view.entry.seat result.0 types l →
        IfOk result.2 (λ b. BeginsThrough W.P.rules W.stands view.entry.shared.now composition.new k
        view.entry.seat result.0 types l b.name b.changed) }
    ensures last { (k : LastFrame) (types : List Ty) (l : Option Map) →
        MayCompose W.P.rules W.stands view.entry.shared.now composition.old k view.entry.seat result.0 types l →
        OnErr result.2 (HasLast W.P.rules W.stands view.entry.shared.now result.0 composition.old.watcher types l) }
    ensures spent { (n : ℕ) → HasClock W.P.rules W.stands view.entry.shared.now view.entry.seat n →
        StopsAtEnd (HasClock W.P.rules W.stands view.entry.shared.now result.0) n result.2 }
    ensures stops { StopsBefore composition.old composition.new result.2 }
    ensures calls { KeepsCalls composition.old composition.new }
    ensures take { TakesThrough W.P.rules W.stands view.entry.shared.now view.entry.seat result.0
        composition.old.watcher result.2 }
    ensures draws { GrowsFor composition.old.watcher (Some (mine_of view.entry.seat)) (Some (mine_of result.0)) }
    ensures asks { objects_read (mine_of result.0) ≡ objects_read (mine_of view.entry.seat) }
{
    let outcome = composition.begin(alloc, &mut view);
    let (seat, step) = view.into_seat();
    (seat, step, outcome)
}

/// Ends a frame that has begun, through a desk of its snapshot, and returns the seat and the number of its next call at
/// the gate (`Composition::finish`). Calls that other callers made since the take do not change the frame's map. Waits
/// while other seats have the turn. Fails like `finish`, and disposes the snapshot then too.
pub fn finish_among<W: Versions + Drop, R: Wait, G: Gate, A: Applier, L: Ledger>(
    mut view: SeatView<'_, W, R, G>,
    alloc: Global,
    composition: &mut Composition,
    begun: Begun,
    applier: &mut A,
    steps: &mut Steps<L>,
) -> (Seat<W>, u64, Result<Report, FrameStop>)
    requires opened { view.opened ≡ Some begun.name }
    requires tree { MayCall (A.tree applier.old) (λ k. (m : Map) ×
        HasBegun W.P.rules W.stands view.shared.now composition.old k view.seat begun.name m) }
    ensures returns { ReturnsSeat W.P.rules W.stands view.entry.shared.now view.entry.seat result.0 }
    ensures frame { ComposesShown composition.old composition.new
        (ShowsIn W.P.rules W.stands view.entry.shared.now view.entry.seat begun.name) result.2 }
    ensures applier { DrivesApplier A.tree A.faults applier.old applier.new composition.old composition.new
        (ShowsIn W.P.rules W.stands view.entry.shared.now view.entry.seat begun.name) result.2 }
    ensures reads { AsksOwed composition.old
        (ShowsIn W.P.rules W.stands view.entry.shared.now view.entry.seat begun.name)
        (objects_read (mine_of view.entry.seat)) (objects_read (mine_of result.0)) result.2 }
    ensures log { LogsEnd composition.old
        (ShowsIn W.P.rules W.stands view.entry.shared.now view.entry.seat begun.name)
        (objects_read (mine_of view.entry.seat)) (objects_read (mine_of result.0)) (Some (mine_of view.entry.seat))
        (Some (mine_of result.0)) (seat_number view.entry.seat, begun.name) result.2 }
    ensures last { (n : ℕ) (types : List Ty) (l : Option Map) →
        HasLast W.P.rules W.stands view.entry.shared.now view.entry.seat n types l →
        IsOnlyTaker (seat_number result.0) n (seen_by result.0) →
        HasLast W.P.rules W.stands view.entry.shared.now result.0 n types l }
{
    let outcome = composition.finish(alloc, begun, &mut view, applier, steps);
    let (seat, step) = view.into_seat();
    (seat, step, outcome)
}

/// Makes a frame through a seat's desk, and returns the seat and the number of its next call at the gate
/// (`Composition::frame`). Waits while other seats have the turn. Fails like `frame`. The applier is one that knows no
/// tree, since a caller cannot know before the frame that no one else takes for the watcher. `finish_among` takes any
/// applier.
pub fn frame_among<W: Versions + Drop, R: Wait, G: Gate, A: Applier, L: Ledger>(
    mut view: SeatView<'_, W, R, G>,
    alloc: Global,
    composition: &mut Composition,
    applier: &mut A,
    steps: &mut Steps<L>,
) -> (Seat<W>, u64, Result<Report, FrameStop>)
    requires tree { A.tree applier.old ≡ None }
    ensures returns { ReturnsSeat W.P.rules W.stands view.entry.shared.now view.entry.seat result.0 }
    ensures good { (k : LastFrame) (types : List Ty) (l : Option Map) →
        MayCompose W.P.rules W.stands view.entry.shared.now composition.old k view.entry.seat result.0 types l →
        IfOk result.2 (MakesThrough W.P.rules W.stands view.entry.shared.now composition.new k
        view.entry.seat result.0 types
        (λ good. Applies (A.tree applier.old) (A.tree applier.new) composition.new.ops k good)) }
    ensures err { (k : LastFrame) (types : List Ty) (l : Option Map) →
        MayCompose W.P.rules W.stands view.entry.shared.now composition.old k view.entry.seat result.0 types l →
        IfErr result.2 (MakesNoFrame composition.old.program.now k (IsAt composition.new)
        (HasLast W.P.rules W.stands view.entry.shared.now result.0 composition.old.watcher types)
        (ReadsInFrame (objects_read (mine_of view.entry.seat)) (objects_read (mine_of result.0))
        (Some (mine_of view.entry.seat)) (Some (mine_of result.0)) (seat_number view.entry.seat)
        composition.old.watcher)
        (LogsNoFrame composition.old.program.now k (Some (mine_of view.entry.seat)) (Some (mine_of result.0))
        (seat_number view.entry.seat) composition.old.watcher)) }
    ensures applier { LeavesApplier A.tree A.faults applier.old applier.new composition.old composition.new result.2 }
    ensures spent { (n : ℕ) → HasClock W.P.rules W.stands view.entry.shared.now view.entry.seat n →
        StopsAtEnd (HasClock W.P.rules W.stands view.entry.shared.now result.0) n result.2 }
    ensures settings { KeepsSettings composition.old composition.new }
{
    let outcome = composition.frame(alloc, &mut view, applier, steps);
    let (seat, step) = view.into_seat();
    (seat, step, outcome)
}
