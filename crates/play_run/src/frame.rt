// Frames, each composed in its own snapshot.
ghost use Rattle.std.specs.Prelude.{◌≡◌, ◌≢◌, ◌<◌, ◌++◌, ◌∷◌, [], List, ℕ, true, Option, Some, None, Err, IfOk, OnOk, OnErr, codes, length};
ghost use Rattle.std.specs.List.{flat_map};
ghost use Rattle.std.specs.Option.{option_map};
ghost use Rattle.rt_values.specs.Maps.{Map, differ};
ghost use Rattle.rt_groups.specs.PreorderGroups.{preorder};
ghost use Rattle.rt_groups.specs.Frames.{LastFrame};
ghost use Rattle.compose_model.specs.Frame.{FrameResult, kept_after};
ghost use Rattle.slot_table.specs.TableGroups.{group_at};
ghost use Rattle.lang_ast.specs.Programs.{functions_of};
ghost use Rattle.recomposer.specs.Compositions.{IsAt, frame_reads};
ghost use Rattle.recomposer.specs.FrameContracts.{frame_result, InShownFrames, ComposesShown, AsksOwed};
ghost use Rattle.snap_policy.specs.declared.policy.BuiltIn.{BuiltIn as built_in};
ghost use Rattle.snap_policy.specs.Table.{table};
ghost use Rattle.snap_api.specs.World.{World};
ghost use Rattle.snap_api.specs.ShownMap.{ShownMap};
ghost use Rattle.snap_api.specs.Desks.{FollowsLast};
ghost use Rattle.snap_api.specs.declared.data.Reply.TheVariants as reply_data;
ghost use Rattle.lang_script.specs.StepCalls.{BeginFrame, EndFrame, calls_parts, frame_begun};
ghost use Rattle.script_lang.specs.Lines.{line, report_line, op_line, frame_lines};
ghost use Rattle.script_lang.specs.GroupLines.{group_lines, open_after, group_line};
ghost use Rattle.script_lang.specs.GroupJson.{group_json, json_after_group};
ghost use Rattle.play_run.specs.RunOutput.{Run, shown_ops, json_line, shown_groups};
ghost use Rattle.play_run.specs.RunState.{HasAsked, MadeCalls, LogsFrameReads, LogsLegalReads, ComposesForRun, IsActorRun, ActorRuns, ActorStopsAt, scene, actor_lines, after_parts, flat};
ghost use Rattle.play_run.specs.RunPromise.{WritesBytes, FaultsAfter};

use crate::calls::{JobActor, make_call, run_calls};
use crate::memory::RunMemory;
use crate::write_lines::{Stop, write_piece};
use lang_ast::CallForm;
use node_tree::{Op, UnitApplier};
use play_steps::WATCHER;
use recomposer::{Composition, FrameStop};
use rt_groups::Report;
use rt_streams::Sink;
use rt_values::{Caller, Name, NoMemory, Objects, Steps, View};
use script_lang::{Flags, OpenGroups, TreeWriter, add_op, add_refused, add_report};
use slot_table::Table;
use snap_api::{OwnDesk, Reply, Request, Versions};
use snap_policy::BuiltIn;
use std::alloc::Global;
use std::marker::Brand;
use std::sync::ledger::{Blank, Ledger};

// Composes what the frame owes in the open snapshot that the view shows, and keeps the new groups. With `--ops` the
// composition lists the calls on an applier. No frame needs their tree, so they are made on an applier without one.
fn recompose<V: View, L: Ledger>(
    alloc: Global,
    flags: Flags,
    composition: &mut Composition,
    view: &mut V,
    steps: &mut Steps<L>,
) -> Result<Report, FrameStop>
    ensures keeps { V.keeps view.old view.new }
    ensures frame { ComposesShown composition.old composition.new (V.shows view.old) result }
    ensures calls { InShownFrames composition.old (V.shows view.old)
        (λ k m. OnOk result (MadeCalls flags k (frame_result composition.old.program.now k m) composition.new.ops)) }
    ensures err { OnErr result (composition.new ≡ composition.old) }
    ensures no_fault { flags.ops ≡ true → result ≡ Err FrameStop.ApplierFault → ⊥ }
    ensures reads { AsksOwed composition.old (V.shows view.old) (V.asked view.old) (V.asked view.new) result }
{
    if flags.ops {
        return composition.recompose_with(alloc, view, &mut UnitApplier, steps);
    }
    composition.recompose(alloc, view, steps)
}

// Composes the program in the open snapshot that the view shows (`Recomposer.recompose`). Returns the report of a good
// frame, or `None` if there are too many groups. In that case everything kept stays, and the objects stay owed. `blank`
// is the ledger of the steps, which nothing reads.
pub fn compose_in<V: View, L: Ledger>(
    alloc: Global,
    flags: Flags,
    composition: &mut Composition,
    view: &mut V,
    blank: Blank,
) -> Result<Option<Report>, Stop>
    requires ledger { blank.name ≡ L.name }
    requires parts { blank.parts ≡ L.parts }
    requires some { 0 < L.parts }
    ensures keeps { V.keeps view.old view.new }
    ensures frame { ComposesForRun flags composition.old composition.new (V.shows view.old) result }
    ensures asks { InShownFrames composition.old (V.shows view.old) (λ k m. IfOk result
        (HasAsked (V.asked view.old) (V.asked view.new) (frame_reads composition.old.program.now k m))) }
    ensures fault { result ≢ Err Stop.WriteFault }
{
    let (book, share) = blank.open();
    let mut steps: Steps<L> = Steps::new(book, share);
    match recompose(alloc, flags, composition, view, &mut steps) {
        Ok(report) => Ok(Some(report)),
        Err(FrameStop::TooManyGroups) => Ok(None),
        Err(_) => Err(Stop::NoMemory),
    }
}

/// Composes the program in the caller's open snapshot `name` (`Recomposer.recompose`). Returns the report of a good
/// frame, or `None` if there are too many groups. In that case everything kept stays, and the objects stay owed.
/// `blank` is the ledger of the steps, which nothing reads.
pub fn compose<V: Versions<P = BuiltIn>, L: Ledger>(
    alloc: Global,
    flags: Flags,
    caller: Caller,
    name: Name,
    memory: &mut RunMemory,
    world: &mut V,
    blank: Blank,
) -> Result<Option<Report>, Stop>
    requires ledger { blank.name ≡ L.name }
    requires parts { blank.parts ≡ L.parts }
    requires some { 0 < L.parts }
    ensures same { (w : World built_in) → V.stands world.old w → V.stands world.new w }
    ensures frame { ComposesForRun flags memory.old.composition memory.new.composition
        (ShownMap table (V.stands world.old) caller (Some name)) result }
    ensures log { InShownFrames memory.old.composition (ShownMap table (V.stands world.old) caller (Some name))
        (λ k m. OnOk result (LogsFrameReads (functions_of memory.old.composition.program.now) (V.stands world.old)
        caller name k m (V.log world.old) (V.log world.new))) }
    ensures reads { LogsLegalReads (V.stands world.old) (V.log world.old) (V.log world.new) caller name }
    ensures names { memory.new.names ≡ memory.old.names }
    ensures fault { result ≢ Err Stop.WriteFault }
{
    memory.reads.clear();
    let mut desk = OwnDesk::new(world, &mut memory.reads, caller, Some(name));
    compose_in::<_, L>(alloc, flags, &mut memory.composition, &mut desk, blank)
}

// Writes the line of a report. `text` is the line buffer.
fn write_report<K: Sink>(report: &Report, text: &mut Vec<u8>, sink: &mut K) -> Result<(), Stop>
    ensures says { WritesBytes (K.written sink.old) (K.written sink.new) (report_line report.now) result }
    ensures faults { FaultsAfter (K.faults sink.old) (K.faults sink.new) result }
{
    text.clear();
    let Ok(()) = add_report(text, report) else {
        return Err(Stop::NoMemory);
    };
    write_piece(sink, text)
}

// Writes the line of a frame that was refused because it has too many groups.
fn write_refused<K: Sink>(text: &mut Vec<u8>, sink: &mut K) -> Result<(), Stop>
    ensures says { WritesBytes (K.written sink.old) (K.written sink.new) (line (codes "refused: too many groups"))
        result }
    ensures faults { FaultsAfter (K.faults sink.old) (K.faults sink.new) result }
{
    text.clear();
    let Ok(()) = add_refused(text) else {
        return Err(Stop::NoMemory);
    };
    write_piece(sink, text)
}

// Writes the line of the group at index `i` if it is a node.
fn write_group<K: Sink>(
    table: &Table,
    i: usize,
    open_groups: &mut OpenGroups,
    text: &mut Vec<u8>,
    sink: &mut K,
) -> Result<(), Stop>
    requires { i < length table.now.groups }
    ensures says { let this = group_line open_groups.old (group_at table.now.groups i) in
        WritesBytes (K.written sink.old) (K.written sink.new) this result }
    ensures opened { OnOk result (open_groups.new ≡ open_after open_groups.old (group_at table.now.groups i)) }
    ensures faults { FaultsAfter (K.faults sink.old) (K.faults sink.new) result }
{
    if !table.is_node(i) {
        let Ok(()) = open_groups.open_other(table.depth(i)) else {
            return Err(Stop::NoMemory);
        };
        return Ok(());
    }
    text.clear();
    let Ok(()) = open_groups.add_group(text, table.depth(i), table.number(i), table.kind(i)) else {
        return Err(Stop::NoMemory);
    };
    write_piece(sink, text)
}

// Writes one line for each node.
fn write_tree<K: Sink>(
    alloc: Global,
    table: &Table,
    text: &mut Vec<u8>,
    sink: &mut K,
) -> Result<(), Stop>
    ensures says { WritesBytes (K.written sink.old) (K.written sink.new) (group_lines [] table.now.groups) result }
    ensures faults { FaultsAfter (K.faults sink.old) (K.faults sink.new) result }
{
    let mut open_groups = OpenGroups::new(alloc);
    let mut i = 0;
    while i < table.len() {
        match write_group(table, i, &mut open_groups, text, sink) {
            Ok(()) => i += 1,
            Err(stop) => return Err(stop),
        }
    }
    Ok(())
}

// Appends the JSON of the group at index `i`.
#[tactic(auto, using(crate::proofs::Written::nothing_after))]
fn add_json_group<'t>(
    table: &'t Table,
    i: usize,
    writer: &mut TreeWriter<'t>,
    text: &mut Vec<u8>,
) -> Result<(), NoMemory>
    requires { i < length table.now.groups }
    ensures text { let this = group_json writer.old (group_at table.now.groups i) in
        OnOk result (text.new.items ≡ text.old.items ++ this) }
    ensures state { OnOk result (writer.new ≡ json_after_group writer.old (group_at table.now.groups i)) }
{
    if !table.is_node(i) {
        return writer.add_other(text, table.depth(i));
    }
    writer.add_group(text, table.depth(i), table.number(i), table.kind(i))
}

// Appends the line of the tree as JSON.
fn add_json(alloc: Global, table: &Table, text: &mut Vec<u8>) -> Result<(), NoMemory>
    ensures { OnOk result (text.new.items ≡ text.old.items ++ json_line table.now.groups) }
{
    let mut writer = TreeWriter::begin(alloc, text)?;
    let mut i = 0;
    while i < table.len() {
        add_json_group(table, i, &mut writer, text)?;
        i += 1;
    }
    writer.finish(text)
}

// Writes the line of the tree as JSON.
fn write_json<K: Sink>(
    alloc: Global,
    table: &Table,
    text: &mut Vec<u8>,
    sink: &mut K,
) -> Result<(), Stop>
    ensures says { WritesBytes (K.written sink.old) (K.written sink.new) (json_line table.now.groups) result }
    ensures faults { FaultsAfter (K.faults sink.old) (K.faults sink.new) result }
{
    text.clear();
    let Ok(()) = add_json(alloc, table, text) else {
        return Err(Stop::NoMemory);
    };
    write_piece(sink, text)
}

// Writes the tree as the flags say.
fn write_shown_tree<K: Sink>(
    alloc: Global,
    flags: Flags,
    table: &Table,
    text: &mut Vec<u8>,
    sink: &mut K,
) -> Result<(), Stop>
    ensures says { WritesBytes (K.written sink.old) (K.written sink.new) (shown_groups flags table.now.groups) result }
    ensures faults { FaultsAfter (K.faults sink.old) (K.faults sink.new) result }
{
    if flags.json {
        return write_json(alloc, table, text, sink);
    }
    write_tree(alloc, table, text, sink)
}

// Writes the line of a call on an applier.
fn write_op<K: Sink>(op: &Op, text: &mut Vec<u8>, sink: &mut K) -> Result<(), Stop>
    ensures says { WritesBytes (K.written sink.old) (K.written sink.new) (op_line op.now) result }
    ensures faults { FaultsAfter (K.faults sink.old) (K.faults sink.new) result }
{
    text.clear();
    let Ok(()) = add_op(text, op) else {
        return Err(Stop::NoMemory);
    };
    write_piece(sink, text)
}

// Writes one line for each call on an applier.
fn write_ops<K: Sink>(ops: &[Op], text: &mut Vec<u8>, sink: &mut K) -> Result<(), Stop>
    ensures says { WritesBytes (K.written sink.old) (K.written sink.new) (flat_map op_line ops.now) result }
    ensures faults { FaultsAfter (K.faults sink.old) (K.faults sink.new) result }
{
    let mut rest = ops;
    while let Some((op, more)) = rest.split_first() {
        match write_op(op, text, sink) {
            Ok(()) => rest = more,
            Err(stop) => return Err(stop),
        }
    }
    Ok(())
}

// Writes the calls on an applier as the flags say.
fn write_shown_ops<K: Sink>(
    flags: Flags,
    ops: &[Op],
    text: &mut Vec<u8>,
    sink: &mut K,
) -> Result<(), Stop>
    ensures says { WritesBytes (K.written sink.old) (K.written sink.new) (shown_ops flags ops.now) result }
    ensures faults { FaultsAfter (K.faults sink.old) (K.faults sink.new) result }
{
    if flags.ops {
        return write_ops(ops, text, sink);
    }
    Ok(())
}

// Writes the calls on an applier and the tree of a composition.
fn write_composition<K: Sink>(
    alloc: Global,
    flags: Flags,
    composition: &Composition,
    text: &mut Vec<u8>,
    sink: &mut K,
) -> Result<(), Stop>
    ensures says { (k : LastFrame) (l : Option Map) → IsAt composition.now k l →
        let lines = shown_ops flags composition.now.ops ++ shown_groups flags (preorder 0 k.trail) in
        WritesBytes (K.written sink.old) (K.written sink.new) lines result }
    ensures faults { FaultsAfter (K.faults sink.old) (K.faults sink.new) result }
{
    match write_shown_ops(flags, composition.ops().items(), text, sink) {
        Ok(()) => write_shown_tree(alloc, flags, composition.table(), text, sink),
        Err(stop) => Err(stop),
    }
}

// Writes the lines of a good frame.
fn write_good_frame<K: Sink>(
    alloc: Global,
    flags: Flags,
    report: &Report,
    composition: &Composition,
    text: &mut Vec<u8>,
    sink: &mut K,
) -> Result<(), Stop>
    ensures says { (k : LastFrame) (l : Option Map) → IsAt composition.now k l →
        let lines = shown_ops flags composition.now.ops ++ shown_groups flags (preorder 0 k.trail) in
        WritesBytes (K.written sink.old) (K.written sink.new) (report_line report.now ++ lines) result }
    ensures faults { FaultsAfter (K.faults sink.old) (K.faults sink.new) result }
{
    match write_report(report, text, sink) {
        Ok(()) => write_composition(alloc, flags, composition, text, sink),
        Err(stop) => Err(stop),
    }
}

/// Writes what a frame prints: the report, the calls on an applier and the tree of a good frame, or the line of a
/// refused one.
pub fn write_frame<K: Sink>(
    alloc: Global,
    flags: Flags,
    report: &Option<Report>,
    composition: &Composition,
    text: &mut Vec<u8>,
    sink: &mut K,
) -> Result<(), Stop>
    ensures says { (k : LastFrame) (l : Option Map) (good : Option FrameResult) →
        report.now ≡ option_map (λ g. g.told) good → IsAt composition.now (kept_after k good) l →
        MadeCalls flags k good composition.now.ops →
        WritesBytes (K.written sink.old) (K.written sink.new) (flat (frame_lines flags k good)) result }
    ensures faults { FaultsAfter (K.faults sink.old) (K.faults sink.new) result }
{
    match report {
        Some(report) => write_good_frame(alloc, flags, report, composition, text, sink),
        None => write_refused(text, sink),
    }
}

/// Marks what changed since the last frame as owed (`Composition.recordModificationsOf`). Returns the number of the
/// frame's snapshot, or `None` if its take was refused.
pub fn note_frame(reply: Reply, composition: &mut Composition) -> Option<Name>
    ensures frame { result ≡ frame_begun reply }
    ensures noted { (name : ℕ) (changed : List ℕ) (k : LastFrame) (l : Option Map) (m : Map) →
        reply ≡ reply_data.TakenFor name changed → IsAt composition.old k l → FollowsLast l m → changed ≡ differ l m →
        IsAt composition.new k (Some m) }
    ensures refused { frame_begun reply ≡ None → composition.new ≡ composition.old }
    ensures program { composition.new.program ≡ composition.old.program }
{
    match reply {
        Reply::TakenFor(name, changed) => {
            composition.note(changed.numbers());
            Some(name)
        }
        _ => None,
    }
}

// Takes a frame's snapshot, and marks what changed since the last frame as owed. Returns the number of the snapshot, or
// `None` if the take was refused.
fn begin_frame<V: Versions<P = BuiltIn>, K: Sink>(
    alloc: Global,
    actor: JobActor,
    memory: &mut RunMemory,
    world: &mut V,
    sink: &mut K,
) -> Result<Option<Name>, Stop>
    ensures says { (r : Run) → IsActorRun actor.entry V.stands V.log world.old memory.old None r →
        WritesBytes (K.written sink.old) (K.written sink.new) (actor_lines actor.entry (BeginFrame ∷ []) r) result }
    ensures left { (r : Run) → IsActorRun actor.entry V.stands V.log world.old memory.old None r →
        IfOk result (λ frame. IsActorRun actor.entry V.stands V.log world.new memory.new frame
        (after_parts actor.entry (BeginFrame ∷ []) r)) }
    ensures stops { (r : Run) → IsActorRun actor.entry V.stands V.log world.old memory.old None r →
        OnErr result (ActorStopsAt actor.entry (BeginFrame ∷ []) (V.log world.new)
        (K.written sink.old) (K.written sink.new) r) }
    ensures faults { FaultsAfter (K.faults sink.old) (K.faults sink.new) result }
{
    let request = Request::TakeFor { watcher: WATCHER };
    match make_call(alloc, actor, request, &mut memory.text, world, sink) {
        Ok(reply) => Ok(note_frame(reply, &mut memory.composition)),
        Err(stop) => Err(stop),
    }
}

// Composes the program in the frame's snapshot and disposes the snapshot. Writes the line of the dispose and the lines
// of the frame.
pub fn finish_frame<V: Versions<P = BuiltIn>, K: Sink>(
    alloc: Global,
    actor: JobActor,
    name: Name,
    memory: &mut RunMemory,
    world: &mut V,
    sink: &mut K,
) -> Result<(), Stop>
    ensures runs { ActorRuns actor.entry V.stands V.log (EndFrame ∷ [])
        (scene world.old memory.old (Some name) (K.written sink.old))
        (scene world.new memory.new None (K.written sink.new)) result }
    ensures faults { FaultsAfter (K.faults sink.old) (K.faults sink.new) result }
{
    let composed = compose::<V, Brand>(
        alloc,
        actor.flags,
        actor.number,
        name,
        memory,
        world,
        Blank::new(1),
    );
    match make_call(
        alloc,
        actor,
        Request::Dispose { name },
        &mut memory.text,
        world,
        sink,
    ) {
        Ok(_) => match composed {
            Ok(report) => write_frame(
                alloc,
                actor.flags,
                &report,
                &memory.composition,
                &mut memory.text,
                sink,
            ),
            Err(stop) => Err(stop),
        },
        Err(stop) => Err(stop),
    }
}

// Ends a frame. The frame of a refused take has nothing to end.
fn end_frame<V: Versions<P = BuiltIn>, K: Sink>(
    alloc: Global,
    actor: JobActor,
    frame: Option<Name>,
    memory: &mut RunMemory,
    world: &mut V,
    sink: &mut K,
) -> Result<(), Stop>
    ensures runs { ActorRuns actor.entry V.stands V.log (EndFrame ∷ [])
        (scene world.old memory.old frame (K.written sink.old))
        (scene world.new memory.new None (K.written sink.new)) result }
    ensures faults { FaultsAfter (K.faults sink.old) (K.faults sink.new) result }
{
    match frame {
        Some(name) => finish_frame(alloc, actor, name, memory, world, sink),
        None => Ok(()),
    }
}

/// Makes a frame: takes its snapshot, makes the steps of `during`, composes the program in the snapshot and disposes
/// it.
/// If the take is refused, only the steps of `during` follow. Writes all lines.
pub fn run_frame<V: Versions<P = BuiltIn>, K: Sink>(
    alloc: Global,
    actor: JobActor,
    during: &[CallForm],
    memory: &mut RunMemory,
    world: &mut V,
    sink: &mut K,
) -> Result<(), Stop>
    ensures runs { ActorRuns actor.entry V.stands V.log (BeginFrame ∷ (calls_parts during.now ++ EndFrame ∷ []))
        (scene world.old memory.old None (K.written sink.old))
        (scene world.new memory.new None (K.written sink.new)) result }
    ensures faults { FaultsAfter (K.faults sink.old) (K.faults sink.new) result }
{
    let frame = match begin_frame(alloc, actor, memory, world, sink) {
        Ok(frame) => frame,
        Err(stop) => return Err(stop),
    };
    match run_calls(alloc, actor, during, memory, world, sink) {
        Ok(()) => end_frame(alloc, actor, frame, memory, world, sink),
        Err(stop) => Err(stop),
    }
}
