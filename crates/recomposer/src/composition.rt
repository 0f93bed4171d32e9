// A composition of one program, frame by frame.
ghost use Rattle.std.specs.Prelude.{◌≡◌, ◌≤◌, ◌<◌, [], ℕ, List, Option, Some, None, Ok, Err, IfOk, IfErr, OnOk, OnErr, IsOk, IsTrue, length, slice_get};
ghost use Rattle.std.specs.Option.{unwrap_or};
ghost use Rattle.rt_values.specs.Maps.{Map, differ, differs, entry_at};
ghost use Rattle.rt_values.specs.declared.value.Ty.{Ty};
ghost use Rattle.rt_groups.specs.Frames.{LastFrame, no_last_frame, is_detached};
ghost use Rattle.rt_groups.specs.PreorderGroups.{preorder};
ghost use Rattle.composer.specs.FrameDrafts.{DraftGroups};
ghost use Rattle.snap_api.specs.Calls.{Calls};
ghost use Rattle.snap_api.specs.Desks.{FollowsLast};
ghost use Rattle.snap_api.specs.World.{World};
ghost use Rattle.node_tree.specs.Calls.{insert_count};
ghost use Rattle.recompose_scopes.specs.Scopes.{AreScopesOf, own_reads};
ghost use Rattle.recomposer.specs.AppliedFrames.{MayCall, Applies, OwesNothing, kept_after_fault, ops_of};
ghost use Rattle.recomposer.specs.Composed.{IsComposed, IsForHeld};
ghost use Rattle.recomposer.specs.Compositions.{IsAt, StopsAtEnd, GrowsFor, MakesFrame, MakesNoFrame, LogsNoFrame, world_of_frame};
ghost use Rattle.recomposer.specs.FrameContracts.{frame_result, InShownFrames, InWatchedFrames, KnowsLast, KeepsSettings, KeepsCalls, ComposesShown, LeavesApplier, DrivesApplier, AsksOwed, LogsEnd, IsSameDesk, KeepsDesk, BeginsShown, StopsBefore, CallsAndLogs, RepliesToTake, OpensSnapshot, ReadsInFrame, LogsCalls};
ghost use Rattle.recomposer.specs.FrameEnds.{InFrames, AsksComposed, AreCalls, KeepsGroups, IsReport, StopsUncomposed, EndsComposed};

use composer::{ComposeStop, Draft, Held, Owed, compose};
use lang_checks::Checked;
use node_tree::{Applier, Ops, carry, list_nodes, place, place_anew};
use recompose_scopes::RecomposeScopes;
use rt_groups::Report;
use rt_values::{Name, NoMemory, ObjectNo, Objects, Steps, View, WatcherNo};
use slot_table::Table;
use snap_api::{Desk, Refusal, Reply, Request};
use std::alloc::Global;
use std::sync::ledger::Ledger;
use thiserror::Error;

/// A frame that has begun: the number of its snapshot, and the objects that changed since the last frame of its
/// watcher, in ascending order.
#[derive(Drop)]
pub struct Begun {
    pub name: Name,
    pub changed: Objects,
}

/// Why a frame did not happen.
#[derive(Clone, Copy, Debug, PartialEq, Eq, Error)]
pub enum FrameStop {
    /// The composition would have more than 1,000,000 groups.
    #[error("the composition has too many groups")]
    TooManyGroups,
    /// A call on the applier failed. The composition has kept nothing then: the next frame clears the applier's tree
    /// and makes all nodes again, with new numbers.
    #[error("a call on the applier failed")]
    ApplierFault,
    /// The world's clock is at its limit.
    #[error("the clock of the world is at its limit")]
    Spent,
    /// Out of memory.
    #[error("out of memory")]
    NoMemory,
}

// Returns why the frame of this composition did not happen.
fn frame_stop(stop: ComposeStop) -> FrameStop
    ensures many { result ≡ FrameStop.TooManyGroups → stop ≡ ComposeStop.TooManyGroups }
    ensures not_spent { result ≡ FrameStop.Spent → ⊥ }
    ensures no_fault { result ≡ FrameStop.ApplierFault → ⊥ }
{
    match stop {
        ComposeStop::TooManyGroups => FrameStop::TooManyGroups,
        ComposeStop::NoMemory => FrameStop::NoMemory,
    }
}

// Returns what was composed in a snapshot that was disposed, or why the frame did not happen. The shown snapshot is
// always disposed.
fn composed_frame(
    composed: Result<Option<Draft>, ComposeStop>,
    disposed: Result<(), Refusal>,
) -> Result<Option<Draft>, FrameStop>
    ensures good { IfOk result (λ draft. (composed ≡ Ok draft) × IsOk disposed) }
    ensures many { result ≡ Err FrameStop.TooManyGroups → composed ≡ Err ComposeStop.TooManyGroups }
    ensures not_spent { result ≡ Err FrameStop.Spent → ⊥ }
    ensures no_fault { result ≡ Err FrameStop.ApplierFault → ⊥ }
{
    let Ok(()) = disposed else {
        return Err(FrameStop::NoMemory);
    };
    match composed {
        Ok(draft) => Ok(draft),
        Err(stop) => Err(frame_stop(stop)),
    }
}

// Takes all memory for calls on the applier: copies the calls, because the applier takes them by value, and reserves
// its nodes.
fn take_memory<A: Applier>(alloc: Global, ops: &Ops, applier: &mut A) -> Result<Ops, NoMemory>
    ensures same { IfOk result (λ calls. calls ≡ ops.now) }
    ensures room { IfOk result (λ calls. insert_count calls ≤ A.spare applier.new) }
    ensures tree { A.tree applier.new ≡ A.tree applier.old }
    ensures faults { A.faults applier.new ≡ A.faults applier.old }
{
    let calls = ops.copy(alloc)?;
    applier.reserve(alloc, &calls)?;
    Ok(calls)
}

/// A composition of one program (`CompositionImpl` with what `Recomposer` knows of it): the groups of the last good
/// frame with the calls that it made on the applier, and what is owed since then. It takes its snapshots as a watcher.
#[derive(Drop)]
pub struct Composition<'p> {
    program: &'p Checked,
    watcher: WatcherNo,
    held: Held,
    owed: Owed,
    ops: Ops,
    // The numbers of groups and of nodes of the last good frame.
    groups: u64,
    nodes: u64,
}

impl<'p> Composition<'p> {
    /// Returns a composition before its first frame.
    pub fn new(alloc: Global, program: &'p Checked, watcher: WatcherNo) -> Result<Self, NoMemory>
        ensures before { (l : Option Map) → IfOk result (λ c. IsAt c no_last_frame l) }
        ensures program { IfOk result (λ c. c.program.now ≡ program.now) }
        ensures watcher { IfOk result (λ c. c.watcher ≡ watcher) }
        ensures ops { IfOk result (λ c. c.ops ≡ []) }
    {
        let owed = Owed::new(alloc, program.states().len())?;
        Ok(Composition {
            program,
            watcher,
            held: Held::new(alloc),
            owed,
            ops: Ops::new(alloc),
            groups: 0,
            nodes: 0,
        })
    }

    /// Returns the groups of the last good frame.
    pub fn table(&self) -> &Table
        ensures { (k : LastFrame) (l : Option Map) → IsAt self.now k l → result.now.groups ≡ preorder 0 k.trail }
    {
        self.held.table()
    }

    /// Returns the scopes of the calls of the last good frame, each with its anchor and with the objects that the call
    /// read itself (`observations`).
    pub fn scopes(&self) -> &RecomposeScopes
        ensures { (k : LastFrame) (l : Option Map) → IsAt self.now k l →
            AreScopesOf (own_reads (preorder 0 k.trail)) result.now }
    {
        self.held.scopes()
    }

    /// Returns the number of the next new node.
    pub fn next(&self) -> u64
        ensures { (k : LastFrame) (l : Option Map) → IsAt self.now k l → result ≡ k.next }
    {
        self.held.next()
    }

    /// Returns the calls on the applier that the last good frame made (`ChangeList`). There are none before a good
    /// frame and after one without an applier.
    pub fn ops(&self) -> &Ops
        ensures { result.now ≡ self.now.ops }
    {
        &self.ops
    }

    // Returns whether the next frame owes state `x`.
    fn owes(&self, x: ObjectNo) -> bool
        ensures { (k : LastFrame) (m : Map) → IsAt self.now k (Some m) → x < length m →
            length m ≡ length self.now.program.now.states.items →
            result ≡ differs (slice_get (unwrap_or k.seen []) x) (entry_at m x) }
    {
        self.owed.is_all() || self.owed.has(x)
    }

    /// Returns the states that the next frame owes, in ascending order: those that changed between the last good frame
    /// and the watcher's last map, or all states before the first good frame (`invalidations`).
    pub fn owed(&self, alloc: Global) -> Result<Vec<ObjectNo>, NoMemory>
        ensures { (k : LastFrame) (m : Map) → IsAt self.now k (Some m) →
            length m ≡ length self.now.program.now.states.items → IfOk result (λ xs. xs.items ≡ differ k.seen m) }
    {
        let mut owed = Vec::new(alloc);
        for x in 0..self.program.states().len() as u64 {
            if self.owes(x) {
                owed.push(x)?;
            }
        }
        Ok(owed)
    }

    /// Marks the states that changed since the watcher's last map as owed (`recordModificationsOf`). For callers that
    /// take and dispose the snapshot themselves: `changed` has the objects that the take for the watcher listed.
    pub fn note(&mut self, changed: &[ObjectNo])
        ensures noted { (k : LastFrame) (l : Option Map) (m : Map) → IsAt self.old k l → FollowsLast l m →
            changed.now ≡ differ l m → IsAt self.new k (Some m) }
        ensures calls { KeepsCalls self.old self.new }
    {
        self.owed.mark(changed);
    }

    /// Begins a frame: takes its snapshot, and marks the states that changed since the last frame as owed. Fails with
    /// `Spent` exactly if the world's clock is at its limit, or out of memory, and then changes nothing. The desk then
    /// shows the same snapshot as before.
    pub fn begin<D: Desk>(&mut self, alloc: Global, desk: &mut D) -> Result<Begun, FrameStop>
        ensures frame { BeginsShown self.old self.new (D.shows desk.new) (D.last desk.old self.old.watcher)
            (D.last desk.new self.old.watcher) (D.alone desk.new self.old.watcher) result }
        ensures stops { StopsBefore self.old self.new result }
        ensures spent { (k : ℕ) → D.clock desk.old k → StopsAtEnd (D.clock desk.new) k result }
        ensures take { RepliesToTake (CallsAndLogs D.P.rules (D.behind desk.old) (D.behind desk.new)
            (D.log desk.old) (D.log desk.new) (D.caller desk.old) (Request.TakeFor self.old.watcher))
            (KnowsLast (D.last desk.old self.old.watcher) (D.alone desk.new self.old.watcher)) result }
        ensures draws { GrowsFor self.old.watcher (D.log desk.old) (D.log desk.new) }
        ensures calls { KeepsCalls self.old self.new }
        ensures opened { OpensSnapshot (D.opened desk.old) (D.opened desk.new) (D.shows desk.old) (D.shows desk.new)
            result }
        ensures desk { IsSameDesk D.lends D.alone D.caller desk.old desk.new }
        ensures asks { D.asked desk.new ≡ D.asked desk.old }
    {
        match desk.take_for(alloc, self.watcher) {
            Ok((name, changed)) => {
                self.note(changed.numbers());
                Ok(Begun { name, changed })
            }
            Err(Refusal::Spent) => Err(FrameStop::Spent),
            Err(_) => Err(FrameStop::NoMemory),
        }
    }

    // Returns the report of a frame that owes nothing: it keeps all groups and runs nothing.
    fn idle_report(&self) -> Report
        ensures { result ≡
            record { ran = 0; calculated = 0; reads = 0; groups = self.now.groups; nodes = self.now.nodes } }
    {
        Report {
            ran: 0,
            calculated: 0,
            reads: 0,
            groups: self.groups,
            nodes: self.nodes,
        }
    }

    // Composes what the frame owes: nothing if nothing is owed. What is kept stays as it is.
    fn compose_owed<V: View, L: Ledger>(
        &self,
        alloc: Global,
        view: &mut V,
        steps: &mut Steps<L>,
    ) -> Result<Option<Draft>, ComposeStop>
        ensures keeps { V.keeps view.old view.new }
        ensures same { (m : Map) → V.shows view.old m → V.shows view.new m }
        ensures made { InShownFrames self.now (V.shows view.old) (λ k m. IfOk result (IsComposed self.now k m)) }
        ensures many { InShownFrames self.now (V.shows view.old)
            (λ k m. result ≡ Err ComposeStop.TooManyGroups → frame_result self.now.program.now k m ≡ None) }
        ensures reads { AsksComposed self.now (V.shows view.old) (V.asked view.old) (V.asked view.new) result }
        ensures idle { OwesNothing self.now → (result ≡ Ok None) × (view.new ≡ view.old) × (steps.new ≡ steps.old) }
        ensures olds { IfOk result (λ composed. IsForHeld self.now composed) }
    {
        if self.owed.is_nothing() {
            return Ok(None);
        }
        match compose(alloc, self.program, &self.held, &self.owed, view, steps) {
            Ok(draft) => Ok(Some(draft)),
            Err(stop) => Err(stop),
        }
    }

    // Composes what the frame owes in the snapshot of the frame that has begun, and disposes the snapshot. Returns what
    // was composed, or why the frame does not happen. What is kept stays as it is.
    fn compose_and_dispose<D: Desk, L: Ledger>(
        &self,
        alloc: Global,
        begun: Begun,
        desk: &mut D,
        steps: &mut Steps<L>,
    ) -> Result<Option<Draft>, FrameStop>
        requires opened { D.opened desk.old ≡ Some begun.name }
        ensures made { InShownFrames self.now (D.shows desk.old) (λ k m. IfOk result (IsComposed self.now k m)) }
        ensures stops { StopsUncomposed self.now (D.shows desk.old) result }
        ensures olds { IfOk result (IsForHeld self.now) }
        ensures reads { AsksComposed self.now (D.shows desk.old) (D.asked desk.old) (D.asked desk.new) result }
        ensures idle { OwesNothing self.now → IfOk result (λ composed. composed ≡ None)
            × (D.asked desk.new ≡ D.asked desk.old) × (steps.new ≡ steps.old) }
        ensures world { (m : Map) → D.shows desk.old m → 0 < begun.name →
            Calls D.P.rules (D.behind desk.old) (D.behind desk.new) (D.caller desk.old)
            (Request.Dispose begun.name) Reply.Disposed }
        ensures log { LogsEnd self.now (D.shows desk.old) (D.asked desk.old) (D.asked desk.new) (D.log desk.old)
            (D.log desk.new) (D.caller desk.old, begun.name) result }
        ensures desk { KeepsDesk D.lends D.alone D.caller D.last desk.old desk.new }
    {
        let composed = self.compose_owed(alloc, desk, steps);
        let disposed = desk.dispose();
        composed_frame(composed, disposed)
    }

    // Returns whether an applier failed in an earlier frame, so that nothing is kept though nodes had numbers.
    fn is_detached(&self) -> bool
        ensures { (k : LastFrame) (l : Option Map) → IsAt self.now k l → result ≡ is_detached k }
    {
        self.owed.is_all() && self.held.next() > 1
    }

    // Returns whether the frame of the draft keeps all groups: a good frame was kept before it, and no call ran.
    fn keeps_all(&self, draft: &Draft) -> bool
        ensures { InFrames self.now (Some draft.now)
            (λ k m. IsTrue result → ops_of k (frame_result self.now.program.now k m) ≡ []) }
    {
        if self.owed.is_all() {
            return false;
        }
        draft.report().ran == 0
    }

    // Lists the calls on the applier that turn the kept node tree into that of the draft. The nodes are not compared if
    // the frame keeps all groups.
    fn list_calls(&self, alloc: Global, draft: &Draft) -> Result<Ops, NoMemory>
        requires { draft.now.olds ≡ self.now.held.groups }
        ensures { InFrames self.now (Some draft.now)
            (λ k m. IfOk result (λ ops. ops ≡ ops_of k (frame_result self.now.program.now k m))) }
    {
        if self.keeps_all(draft) {
            return Ok(Ops::new(alloc));
        }
        let preview = draft.preview(alloc, &self.held)?;
        self.calls_to(alloc, preview.table())
    }

    // Lists the calls on the applier that turn the kept node tree into that of the new groups.
    fn calls_to(&self, alloc: Global, groups: &Table) -> Result<Ops, NoMemory>
        ensures { (k : LastFrame) (m : Map) (d : DraftGroups) → IsAt self.now k (Some m) →
            IsComposed self.now k m (Some d) → groups.now.groups ≡ d.groups →
            IfOk result (λ ops. ops ≡ ops_of k (frame_result self.now.program.now k m)) }
    {
        let new = list_nodes(alloc, groups)?;
        if self.is_detached() {
            return place_anew(alloc, &new);
        }
        let old = list_nodes(alloc, self.held.table())?;
        place(alloc, &old, &new)
    }

    // Keeps the groups of a composed frame and the calls that it made on the applier. Nothing is owed then. Returns the
    // report.
    fn keep(&mut self, draft: Draft, ops: Ops) -> Report
        requires { draft.olds ≡ self.old.held.groups }
        ensures settings { KeepsSettings self.old self.new }
        ensures ops { self.new.ops ≡ ops }
        ensures good { KeepsGroups self.old (Some draft) self.new }
        ensures report { IsReport self.old (Some draft) result }
    {
        let report = draft.report();
        self.held.apply(draft);
        self.ops = ops;
        self.groups = report.groups;
        self.nodes = report.nodes;
        self.owed.clear();
        report
    }

    // Keeps nothing of the frame whose applier failed, except that the numbers of its nodes are used. Everything is
    // owed.
    fn detach(&mut self, alloc: Global, draft: Draft)
        ensures calls { KeepsCalls self.old self.new }
        ensures fault { InFrames self.old (Some draft)
            (λ k m. IsAt self.new (kept_after_fault k (frame_result self.old.program.now k m)) (Some m)) }
    {
        self.held.detach(alloc, draft);
        self.owed.owe_all();
        self.groups = 0;
        self.nodes = 0;
    }

    // Keeps a frame that owed nothing: all groups stay, and no call was made on the applier.
    fn keep_idle(&mut self, alloc: Global) -> Report
        ensures settings { KeepsSettings self.old self.new }
        ensures ops { self.new.ops ≡ [] }
        ensures good { KeepsGroups self.old None self.new }
        ensures report { IsReport self.old None result }
    {
        self.ops = Ops::new(alloc);
        self.idle_report()
    }

    // Applies a frame that is composed: takes all memory, makes the calls on the applier, and then keeps the groups
    // (`applyChanges`). The applier is not called if there is no call to make. Without a draft the frame owed nothing.
    fn apply<A: Applier>(
        &mut self,
        alloc: Global,
        composed: Option<Draft>,
        applier: &mut A,
    ) -> Result<Report, FrameStop>
        requires tree { MayCall (A.tree applier.old)
            (λ k. (m : Map) × IsAt self.old k (Some m) × IsComposed self.old k m composed) }
        requires olds { IsForHeld self.old composed }
        ensures { EndsComposed self.old self.new composed (A.tree applier.old) (A.tree applier.new)
            (A.faults applier.old) (A.faults applier.new) (applier.new ≡ applier.old) result }
    {
        let Some(draft) = composed else {
            return Ok(self.keep_idle(alloc));
        };
        let Ok(ops) = self.list_calls(alloc, &draft) else {
            drop(draft);
            return Err(FrameStop::NoMemory);
        };
        if ops.len() == 0 {
            return Ok(self.keep(draft, ops));
        }
        self.apply_calls(alloc, draft, ops, applier)
    }

    // Applies a composed frame that has calls to make: takes all memory, makes the calls `ops` on the applier, and then
    // keeps the groups. If a call fails, keeps nothing except the number of the next new node.
    fn apply_calls<A: Applier>(
        &mut self,
        alloc: Global,
        draft: Draft,
        ops: Ops,
        applier: &mut A,
    ) -> Result<Report, FrameStop>
        requires tree { MayCall (A.tree applier.old)
            (λ k. (m : Map) × IsAt self.old k (Some m) × IsComposed self.old k m (Some draft)) }
        requires olds { draft.olds ≡ self.old.held.groups }
        requires some { ops ≡ [] → ⊥ }
        requires ops { AreCalls self.old (Some draft) ops }
        ensures { EndsComposed self.old self.new (Some draft) (A.tree applier.old) (A.tree applier.new)
            (A.faults applier.old) (A.faults applier.new) (applier.new ≡ applier.old) result }
    {
        let Ok(calls) = take_memory(alloc, &ops, applier) else {
            drop(draft);
            return Err(FrameStop::NoMemory);
        };
        match carry(applier, calls) {
            Ok(()) => Ok(self.keep(draft, ops)),
            Err(_) => {
                self.detach(alloc, draft);
                Err(FrameStop::ApplierFault)
            }
        }
    }

    // Keeps a frame that is composed and makes no call on an applier. Without a draft the frame owed nothing.
    fn keep_composed(&mut self, alloc: Global, composed: Option<Draft>) -> Report
        requires { IsForHeld self.old composed }
        ensures settings { KeepsSettings self.old self.new }
        ensures ops { self.new.ops ≡ [] }
        ensures good { KeepsGroups self.old composed self.new }
        ensures report { IsReport self.old composed result }
    {
        let Some(draft) = composed else {
            return self.keep_idle(alloc);
        };
        self.keep(draft, Ops::new(alloc))
    }

    /// Composes what the frame owes in the open snapshot that the view shows, and keeps the new groups (`recompose`,
    /// `applyChanges`). For callers that take and dispose the snapshot themselves and keep no node tree. A frame that
    /// owes nothing composes nothing. A frame in which no kept call read a changed state runs no call and reads
    /// nothing.
    ///
    /// Fails with `TooManyGroups` exactly if the program makes more than 1,000,000 groups in the snapshot, or out of
    /// memory. The composition is then unchanged, and what is owed stays owed.
    pub fn recompose<V: View, L: Ledger>(
        &mut self,
        alloc: Global,
        view: &mut V,
        steps: &mut Steps<L>,
    ) -> Result<Report, FrameStop>
        ensures keeps { V.keeps view.old view.new }
        ensures same { (m : Map) → V.shows view.old m → V.shows view.new m }
        ensures frame { ComposesShown self.old self.new (V.shows view.old) result }
        ensures reads { AsksOwed self.old (V.shows view.old) (V.asked view.old) (V.asked view.new) result }
        ensures err { OnErr result (self.new ≡ self.old) }
        ensures no_fault { result ≡ Err FrameStop.ApplierFault → ⊥ }
        ensures ops { OnOk result (self.new.ops ≡ []) }
        ensures idle { OwesNothing self.old → (view.new ≡ view.old) × (steps.new ≡ steps.old) }
    {
        match self.compose_owed(alloc, view, steps) {
            Ok(composed) => Ok(self.keep_composed(alloc, composed)),
            Err(stop) => Err(frame_stop(stop)),
        }
    }

    /// Composes what the frame owes in the open snapshot that the view shows, changes the applier's tree, and keeps the
    /// new groups (`recompose`, `applyChanges`). For callers that take and dispose the snapshot themselves. A frame
    /// that owes nothing composes nothing. A frame in which no kept call read a changed state runs no call and reads
    /// nothing. Neither calls the applier. All memory is taken before the first call on the applier.
    ///
    /// Fails with `TooManyGroups` exactly if the program makes more than 1,000,000 groups in the snapshot, or out of
    /// memory. The composition and the applier's tree are then unchanged, and what is owed stays owed. Fails with
    /// `ApplierFault` only if a call on the applier failed. Nothing is kept then except the number of the next new
    /// node, and the next frame clears the applier's tree and makes all nodes again.
    pub fn recompose_with<V: View, A: Applier, L: Ledger>(
        &mut self,
        alloc: Global,
        view: &mut V,
        applier: &mut A,
        steps: &mut Steps<L>,
    ) -> Result<Report, FrameStop>
        requires tree { MayCall (A.tree applier.old)
            (λ k. (m : Map) × IsAt self.old k (Some m) × V.shows view.old m) }
        ensures keeps { V.keeps view.old view.new }
        ensures same { (m : Map) → V.shows view.old m → V.shows view.new m }
        ensures frame { ComposesShown self.old self.new (V.shows view.old) result }
        ensures applier { DrivesApplier A.tree A.faults applier.old applier.new self.old self.new
            (V.shows view.old) result }
        ensures reads { AsksOwed self.old (V.shows view.old) (V.asked view.old) (V.asked view.new) result }
        ensures idle { OwesNothing self.old → (view.new ≡ view.old) × (steps.new ≡ steps.old) }
    {
        match self.compose_owed(alloc, view, steps) {
            Ok(composed) => self.apply(alloc, composed, applier),
            Err(stop) => Err(frame_stop(stop)),
        }
    }

    /// Ends a frame that has begun: composes the program in the frame's snapshot, disposes the snapshot, changes the
    /// applier's tree, and keeps the new groups (`recompose`, `applyChanges`). A frame that owes nothing composes
    /// nothing. A frame in which no kept call read a changed state runs no call and reads nothing. Neither calls the
    /// applier. All memory is taken before the first call on the applier. The snapshot is disposed after a failure too.
    ///
    /// Fails like `recompose_with`. After `ApplierFault` the reads and the log are those of a good frame.
    pub fn finish<D: Desk, A: Applier, L: Ledger>(
        &mut self,
        alloc: Global,
        begun: Begun,
        desk: &mut D,
        applier: &mut A,
        steps: &mut Steps<L>,
    ) -> Result<Report, FrameStop>
        requires opened { D.opened desk.old ≡ Some begun.name }
        requires tree { MayCall (A.tree applier.old)
            (λ k. (m : Map) × IsAt self.old k (Some m) × D.shows desk.old m) }
        ensures frame { ComposesShown self.old self.new (D.shows desk.old) result }
        ensures applier { DrivesApplier A.tree A.faults applier.old applier.new self.old self.new
            (D.shows desk.old) result }
        ensures reads { AsksOwed self.old (D.shows desk.old) (D.asked desk.old) (D.asked desk.new) result }
        ensures idle { OwesNothing self.old → (D.asked desk.new ≡ D.asked desk.old) × (steps.new ≡ steps.old) }
        ensures world { (m : Map) → D.shows desk.old m → 0 < begun.name →
            Calls D.P.rules (D.behind desk.old) (D.behind desk.new) (D.caller desk.old)
            (Request.Dispose begun.name) Reply.Disposed }
        ensures log { LogsEnd self.old (D.shows desk.old) (D.asked desk.old) (D.asked desk.new) (D.log desk.old)
            (D.log desk.new) (D.caller desk.old, begun.name) result }
        ensures desk { KeepsDesk D.lends D.alone D.caller D.last desk.old desk.new }
    {
        match self.compose_and_dispose(alloc, begun, desk, steps) {
            Ok(draft) => self.apply(alloc, draft, applier),
            Err(stop) => Err(stop),
        }
    }

    /// Makes a frame: begins it and ends it (`recompose`).
    ///
    /// Fails like `begin` and `finish`, with `Spent` exactly if the world's clock is at its limit. What is kept stays
    /// then except after `ApplierFault`, and what is owed stays owed. An applier that knows its tree needs a desk on
    /// whose world no one else takes for the watcher from now on, as one over a borrowed world.
    pub fn frame<D: Desk, A: Applier, L: Ledger>(
        &mut self,
        alloc: Global,
        desk: &mut D,
        applier: &mut A,
        steps: &mut Steps<L>,
    ) -> Result<Report, FrameStop>
        requires tree { MayCall (A.tree applier.old) (λ k. (types : List Ty) × (l : Option Map) × IsAt self.old k l
            × D.last desk.old self.old.watcher types l
            × ((d : D) → D.lends desk.old d → D.alone d self.old.watcher)) }
        ensures good { InWatchedFrames self.old (D.last desk.old self.old.watcher) (D.alone desk.new self.old.watcher)
            (λ k types l. IfOk result (MakesFrame self.old.program.now k (IsAt self.new)
            (D.last desk.new self.old.watcher types)
            (ReadsInFrame (D.asked desk.old) (D.asked desk.new) (D.log desk.old) (D.log desk.new)
            (D.caller desk.old) self.old.watcher)
            (λ good. Applies (A.tree applier.old) (A.tree applier.new) self.new.ops k good))) }
        ensures err { InWatchedFrames self.old (D.last desk.old self.old.watcher) (D.alone desk.new self.old.watcher)
            (λ k types l. IfErr result (MakesNoFrame self.old.program.now k (IsAt self.new)
            (D.last desk.new self.old.watcher types)
            (ReadsInFrame (D.asked desk.old) (D.asked desk.new) (D.log desk.old) (D.log desk.new)
            (D.caller desk.old) self.old.watcher)
            (LogsNoFrame self.old.program.now k (D.log desk.old) (D.log desk.new) (D.caller desk.old)
            self.old.watcher))) }
        ensures applier { LeavesApplier A.tree A.faults applier.old applier.new self.old self.new result }
        ensures spent { (k : ℕ) → D.clock desk.old k → StopsAtEnd (D.clock desk.new) k result }
        ensures log { LogsCalls (D.asked desk.old) (D.asked desk.new) (D.log desk.old) (D.log desk.new)
            (D.caller desk.old) self.old.watcher result }
        ensures world { InWatchedFrames self.old (D.last desk.old self.old.watcher) (D.alone desk.new self.old.watcher)
            (λ k types l. (w : World D.P) → D.behind desk.old w →
            OnOk result (D.behind desk.new (world_of_frame D.P.rules w (D.caller desk.old) self.old.watcher))) }
        ensures settings { KeepsSettings self.old self.new }
        ensures desk { IsSameDesk D.lends D.alone D.caller desk.old desk.new }
    {
        let begun = match self.begin(alloc, desk) {
            Ok(begun) => begun,
            Err(stop) => return Err(stop),
        };
        match self.finish(alloc, begun, desk, applier, steps) {
            Ok(report) => Ok(report),
            Err(stop) => Err(stop),
        }
    }
}
