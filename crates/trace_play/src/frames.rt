// The line of a frame, which is composed again from its reads.
ghost use Rattle.std.specs.Prelude.{◌≡◌, ◌+◌, [], zero, Option, Some, IfOk, OnOk, length, map};
ghost use Rattle.std.specs.Option.{option_map};
ghost use Rattle.rt_values.specs.Maps.{Map, differ};
ghost use Rattle.rt_groups.specs.Frames.{LastFrame};
ghost use Rattle.rt_groups.specs.GroupForest.{GroupForest};
ghost use Rattle.rt_groups.specs.PreorderGroups.{preorder};
ghost use Rattle.lang_ast.specs.Programs.{functions_of};
ghost use Rattle.compose_model.specs.Frame.{FrameResult, frame as frame_at, kept_after};
ghost use Rattle.recomposer.specs.Compositions.{IsAt};
ghost use Rattle.script_lang.specs.Lines.{actor_name, op_text};
ghost use Rattle.run_causes.specs.Causes.{marks};
ghost use Rattle.trace_lines.specs.TraceLines.{program_names, head_view, good_frame_line, refused_frame_line};
ghost use Rattle.play_run.specs.RecordedReads.{AgreesWith};
ghost use Rattle.play_run.specs.RunPromise.{WritesBytes, FaultsAfter, job_titles, job_functions};
ghost use Rattle.play_run.specs.RunState.{MadeCalls};
ghost use Rattle.trace_play.specs.TraceText.{frame_line};
ghost use Rattle.trace_play.specs.TraceState.{frame_head};

use crate::line_buffers::{begin_line, end_line};
use crate::memory::TraceMemory;
use play_run::{Job, ReplayFrame, Stop, compose_recorded};
use rt_groups::Report;
use rt_streams::Sink;
use rt_values::{Caller, NoMemory, ObjectNo, Objects, Word};
use run_causes::find_marks;
use script_lang::Flags;
use slot_table::{Table, TableBuilder};
use std::alloc::Global;
use std::mem;
use trace_lines::{FrameHead, GoodFrame, put_good_frame, put_refused_frame};

// How a frame is composed for a trace: with the calls on an applier.
const FLAGS: Flags = Flags {
    json: false,
    ops: true,
};

// Returns the name of an actor, which is empty if there is none with this number.
fn actor_name(actors: &[Word], number: Caller) -> &[u8]
    ensures { result.now ≡ actor_name actors.now number }
{
    match actors.get(number as usize) {
        Some(name) => name.bytes(),
        None => &[],
    }
}

// Returns a table of the same groups, which share their slots.
fn copy_of(alloc: Global, table: &Table) -> Result<Table, NoMemory>
    ensures { IfOk result (λ t. t.groups ≡ table.now.groups) }
{
    let mut groups = TableBuilder::new(alloc);
    for i in 0..table.len() {
        groups.push(table.share(i)?)?;
    }
    Table::from_groups(alloc, groups)
}

// Writes the line of a good frame. The groups before it were those of `last`.
fn write_good_frame<K: Sink>(
    alloc: Global,
    job: &Job,
    head: &FrameHead,
    report: &Report,
    memory: &mut TraceMemory,
    sink: &mut K,
) -> Result<(), Stop>
    ensures says { (before after : GroupForest) (k : LastFrame) (l : Option Map) →
        memory.old.last.groups ≡ preorder 0 before → IsAt memory.old.replay.composition k l → k.trail ≡ after →
        WritesBytes (K.written sink.old) (K.written sink.new)
        (good_frame_line (program_names job.now.program) (head_view head.now) report.now (preorder 0 after)
        (marks head.now.owed.now before after) (map op_text memory.old.replay.composition.ops)) result }
    ensures replay { memory.new.replay.composition ≡ memory.old.replay.composition }
    ensures reads { memory.new.replay.reads ≡ memory.old.replay.reads }
    ensures changed { memory.new.changed ≡ memory.old.changed }
    ensures count { memory.new.frames ≡ memory.old.frames }
    ensures faults { FaultsAfter (K.faults sink.old) (K.faults sink.new) result }
{
    let composition = &memory.replay.composition;
    let table = composition.table();
    let Ok(marks) = find_marks(alloc, head.owed, &memory.last, table) else {
        return Err(Stop::NoMemory);
    };
    let frame = GoodFrame {
        report,
        table,
        marks: &marks,
        ops: composition.ops(),
    };
    let mut line = begin_line(alloc, &mut memory.text);
    let Ok(()) = put_good_frame(&mut line, &job.program, head, &frame, &mut memory.part) else {
        return Err(Stop::NoMemory);
    };
    end_line(line, &mut memory.text, sink)
}

// Writes the line of a refused frame. `text` is the line buffer.
fn write_refused_frame<K: Sink>(
    alloc: Global,
    job: &Job,
    head: &FrameHead,
    text: &mut Vec<u8>,
    sink: &mut K,
) -> Result<(), Stop>
    ensures says { WritesBytes (K.written sink.old) (K.written sink.new)
        (refused_frame_line (program_names job.now.program) (head_view head.now)) result }
    ensures faults { FaultsAfter (K.faults sink.old) (K.faults sink.new) result }
{
    let mut line = begin_line(alloc, text);
    let Ok(()) = put_refused_frame(&mut line, &job.program, head) else {
        return Err(Stop::NoMemory);
    };
    end_line(line, text, sink)
}

// Writes the line of a good frame, and keeps a copy of its groups.
fn tell_good_frame<K: Sink>(
    alloc: Global,
    job: &Job,
    head: &FrameHead,
    report: &Report,
    memory: &mut TraceMemory,
    sink: &mut K,
) -> Result<(), Stop>
    ensures says { (before after : GroupForest) (k : LastFrame) (l : Option Map) →
        memory.old.last.groups ≡ preorder 0 before → IsAt memory.old.replay.composition k l → k.trail ≡ after →
        WritesBytes (K.written sink.old) (K.written sink.new)
        (good_frame_line (program_names job.now.program) (head_view head.now) report.now (preorder 0 after)
        (marks head.now.owed.now before after) (map op_text memory.old.replay.composition.ops)) result }
    ensures last { (k : LastFrame) (l : Option Map) → IsAt memory.old.replay.composition k l →
        OnOk result (memory.new.last.groups ≡ preorder 0 k.trail) }
    ensures replay { memory.new.replay.composition ≡ memory.old.replay.composition }
    ensures reads { memory.new.replay.reads ≡ memory.old.replay.reads }
    ensures changed { memory.new.changed ≡ memory.old.changed }
    ensures count { memory.new.frames ≡ memory.old.frames }
    ensures faults { FaultsAfter (K.faults sink.old) (K.faults sink.new) result }
{
    match write_good_frame(alloc, job, head, report, memory, sink) {
        Ok(()) => {
            let Ok(last) = copy_of(alloc, memory.replay.composition.table()) else {
                return Err(Stop::NoMemory);
            };
            memory.last = last;
            Ok(())
        }
        Err(stop) => Err(stop),
    }
}

// Writes the line of a frame with this report, or of a refused frame.
fn tell_composed<K: Sink>(
    alloc: Global,
    job: &Job,
    head: &FrameHead,
    report: &Option<Report>,
    memory: &mut TraceMemory,
    sink: &mut K,
) -> Result<(), Stop>
    ensures says { (k : LastFrame) (l : Option Map) (good : Option FrameResult) →
        report.now ≡ option_map (λ g. g.told) good → IsAt memory.old.replay.composition (kept_after k good) l →
        MadeCalls FLAGS k good memory.old.replay.composition.ops → memory.old.last.groups ≡ preorder 0 k.trail →
        WritesBytes (K.written sink.old) (K.written sink.new)
        (frame_line (job_titles job.now) (job_functions job.now) (head_view head.now) k good) result }
    ensures last { (k : LastFrame) (l : Option Map) (good : Option FrameResult) →
        report.now ≡ option_map (λ g. g.told) good → IsAt memory.old.replay.composition (kept_after k good) l →
        memory.old.last.groups ≡ preorder 0 k.trail →
        OnOk result (memory.new.last.groups ≡ preorder 0 (kept_after k good).trail) }
    ensures replay { memory.new.replay.composition ≡ memory.old.replay.composition }
    ensures reads { memory.new.replay.reads ≡ memory.old.replay.reads }
    ensures changed { memory.new.changed ≡ memory.old.changed }
    ensures count { memory.new.frames ≡ memory.old.frames }
    ensures faults { FaultsAfter (K.faults sink.old) (K.faults sink.new) result }
{
    match report {
        Some(report) => tell_good_frame(alloc, job, head, report, memory, sink),
        None => write_refused_frame(alloc, job, head, &mut memory.text, sink),
    }
}

/// Composes the open frame again from its recorded reads, and writes its line. Fails with `NoMemory` also at frame 2^64.
pub fn tell_frame<K: Sink>(
    alloc: Global,
    job: &Job,
    frame: ReplayFrame,
    memory: &mut TraceMemory,
    sink: &mut K,
) -> Result<(), Stop>
    ensures says { (k : LastFrame) (m : Map) → IsAt memory.old.replay.composition k (Some m) →
        length m ≡ length memory.old.replay.composition.program.now.states.items →
        AgreesWith m memory.old.replay.reads.reads.items → memory.old.replay.reads.given ≡ zero →
        memory.old.last.groups ≡ preorder 0 k.trail →
        let good = frame_at (functions_of memory.old.replay.composition.program.now) k m in
        let head = frame_head (memory.old.frames + 1) (actor_name job.now.script.actors.items frame.caller)
        frame.name memory.old.changed (differ k.seen m) in
        WritesBytes (K.written sink.old) (K.written sink.new)
        (frame_line (job_titles job.now) (job_functions job.now) head k good) result }
    ensures left { (k : LastFrame) (m : Map) → IsAt memory.old.replay.composition k (Some m) →
        AgreesWith m memory.old.replay.reads.reads.items → memory.old.replay.reads.given ≡ zero →
        let good = frame_at (functions_of memory.old.replay.composition.program.now) k m in
        OnOk result (IsAt memory.new.replay.composition (kept_after k good) (Some m)) }
    ensures last { (k : LastFrame) (m : Map) → IsAt memory.old.replay.composition k (Some m) →
        AgreesWith m memory.old.replay.reads.reads.items → memory.old.replay.reads.given ≡ zero →
        memory.old.last.groups ≡ preorder 0 k.trail →
        let good = frame_at (functions_of memory.old.replay.composition.program.now) k m in
        OnOk result (memory.new.last.groups ≡ preorder 0 (kept_after k good).trail) }
    ensures program { OnOk result
        (memory.new.replay.composition.program ≡ memory.old.replay.composition.program) }
    ensures reads { OnOk result (memory.new.replay.reads.reads.items ≡ []) }
    ensures given { OnOk result (memory.new.replay.reads.given ≡ zero) }
    ensures changed { OnOk result (memory.new.changed ≡ []) }
    ensures count { OnOk result (memory.new.frames ≡ memory.old.frames + 1) }
    ensures faults { FaultsAfter (K.faults sink.old) (K.faults sink.new) result }
{
    let Some(number) = memory.frames.checked_add(1) else {
        return Err(Stop::NoMemory);
    };
    let Ok(owed) = memory.replay.composition.owed(alloc) else {
        return Err(Stop::NoMemory);
    };
    let changed = mem::replace(&mut memory.changed, Objects::new(alloc));
    let head = FrameHead {
        number,
        actor: actor_name(job.script.actors.as_slice(), frame.caller),
        snapshot: frame.name,
        changed: changed.numbers(),
        owed: &owed,
    };
    memory.frames = number;
    match compose_recorded(alloc, FLAGS, &mut memory.replay) {
        Ok(report) => tell_composed(alloc, job, &head, &report, memory, sink),
        Err(stop) => Err(stop),
    }
}
