// The lines of a history, from its calls and their replies.
ghost use Rattle.std.specs.Prelude.{◌≡◌, [], ◌++◌, ℕ, List, true, false, Option, Some, None, OnOk};
ghost use Rattle.rt_values.specs.Maps.{Map, differ};
ghost use Rattle.rt_groups.specs.Frames.{LastFrame};
ghost use Rattle.recomposer.specs.Compositions.{IsAt};
ghost use Rattle.snap_policy.specs.Table.{table};
ghost use Rattle.snap_api.specs.World.{IsLegal};
ghost use Rattle.snap_api.specs.Desks.{FollowsLast};
ghost use Rattle.snap_api.specs.declared.data.Reply.TheVariants as reply_data;
ghost use Rattle.lang_script.specs.StepCalls.{opening_world, frame_begun};
ghost use Rattle.script_lang.specs.Lines.{call_text, reply_text};
ghost use Rattle.script_lang.specs.PrintedCalls.{printed_calls};
ghost use Rattle.play_run.specs.CallsInFrames.{IsInTurn};
ghost use Rattle.play_run.specs.ReplayState.{as_open, frame_of, IsAnswered};
ghost use Rattle.play_run.specs.RunPromise.{WritesBytes, FaultsAfter, job_titles, job_functions};
ghost use Rattle.play_run.specs.RunState.{flat};
ghost use Rattle.trace_lines.specs.TraceLines.{call_line};
ghost use Rattle.trace_lines.specs.ProgramLine.{program_line};
ghost use Rattle.trace_play.specs.TraceText.{TraceStanding, changed_after, initial_trace, trace_lines};
ghost use Rattle.trace_play.specs.TraceState.{reads_open, IsOwnRead, IsTrace, TellsCall};

use crate::frames::tell_frame;
use crate::line_buffers::{begin_line, end_line};
use crate::memory::TraceMemory;
use play_run::{Job, ReplayFrame, Stop, begun_frame, into_value, is_dispose, object_asked};
use rt_streams::Sink;
use rt_values::{Name, NoMemory};
use script_lang::add_line;
use snap_api::{Entry, Reply, Request};
use std::alloc::Global;
use std::mem;
use trace_lines::{put_call, put_program};

// Appends the line of a call as `run` prints it, without LF.
fn add_call(part: &mut Vec<u8>, job: &Job, call: &Entry) -> Result<(), NoMemory>
    ensures { let titles = job_titles job.now in OnOk result (part.new.items ≡ part.old.items
        ++ (call_text titles call.now.caller call.now.request ++ reply_text titles call.now.reply)) }
{
    add_line(part, &job.program, &job.script, call)?;
    let _ = part.pop();
    Ok(())
}

// Writes the line of a call. `text` is the line buffer, and `part` one for the call as `run` prints it.
fn write_call<K: Sink>(
    alloc: Global,
    job: &Job,
    call: &Entry,
    text: &mut Vec<u8>,
    part: &mut Vec<u8>,
    sink: &mut K,
) -> Result<(), Stop>
    ensures says { let titles = job_titles job.now in
        let words = call_text titles call.now.caller call.now.request ++ reply_text titles call.now.reply in
        WritesBytes (K.written sink.old) (K.written sink.new) (call_line words) result }
    ensures faults { FaultsAfter (K.faults sink.old) (K.faults sink.new) result }
{
    part.clear();
    let Ok(()) = add_call(part, job, call) else {
        return Err(Stop::NoMemory);
    };
    let mut line = begin_line(alloc, text);
    let Ok(()) = put_call(&mut line, part) else {
        return Err(Stop::NoMemory);
    };
    end_line(line, text, sink)
}

// Notes what changed for the frame that a reply begins. Returns the number of the frame's snapshot, or `None` if the
// reply begins no frame.
fn open_frame(reply: Reply, memory: &mut TraceMemory) -> Option<Name>
    ensures frame { result ≡ frame_begun reply }
    ensures noted { (name : ℕ) (changed : List ℕ) (k : LastFrame) (l : Option Map) (m : Map) →
        reply ≡ reply_data.TakenFor name changed → IsAt memory.old.replay.composition k l → FollowsLast l m →
        changed ≡ differ l m → IsAt memory.new.replay.composition k (Some m) }
    ensures refused { frame_begun reply ≡ None → memory.new.replay.composition ≡ memory.old.replay.composition }
    ensures program { memory.new.replay.composition.program ≡ memory.old.replay.composition.program }
    ensures reads { memory.new.replay.reads ≡ memory.old.replay.reads }
    ensures last { memory.new.last ≡ memory.old.last }
    ensures changed { memory.new.changed ≡ changed_after memory.old.changed reply }
    ensures count { memory.new.frames ≡ memory.old.frames }
{
    match reply {
        Reply::TakenFor(name, changed) => {
            memory.replay.composition.note(changed.numbers());
            memory.changed = changed;
            Some(name)
        }
        _ => None,
    }
}

// Handles a call while no frame is open: writes its line. Returns the frame that the call begins, if it begins one.
fn tell_outside<K: Sink>(
    alloc: Global,
    job: &Job,
    call: Entry,
    memory: &mut TraceMemory,
    sink: &mut K,
) -> Result<Option<ReplayFrame>, Stop>
    ensures tells { (t : TraceStanding) → IsTrace (job_functions job.now) memory.old None t → IsAnswered t.at.world call →
        TellsCall (job_titles job.now) (job_functions job.now) memory.new (K.written sink.old) (K.written sink.new)
        None t call result }
    ensures faults { FaultsAfter (K.faults sink.old) (K.faults sink.new) result }
{
    match write_call(alloc, job, &call, &mut memory.text, &mut memory.part, sink) {
        Ok(()) => {
            let name = open_frame(call.reply, memory);
            Ok(begun_frame(call.caller, name))
        }
        Err(stop) => Err(stop),
    }
}

// Returns whether a call is in turn while a frame is open: a read and the dispose of the frame's snapshot are calls of its
// caller, and no other frame begins.
fn is_in_turn(frame: ReplayFrame, call: &Entry) -> bool
    ensures own { result ≡ true → IsOwnRead (Some (as_open frame)) call.now }
    ensures turn { result ≡ true → IsInTurn (Some (as_open frame)) call.now }
{
    match &call.request {
        Request::Read { name, .. } => *name != frame.name || call.caller == frame.caller,
        Request::Dispose { name } => *name != frame.name || call.caller == frame.caller,
        Request::TakeFor { .. } => !matches!(call.reply, Reply::TakenFor(..)),
        _ => true,
    }
}

// Handles a printed call while a frame is open: writes its line, and that of the frame if the call ends it. Returns the
// frame if it stays open.
fn tell_printed<K: Sink>(
    alloc: Global,
    job: &Job,
    frame: ReplayFrame,
    call: &Entry,
    memory: &mut TraceMemory,
    sink: &mut K,
) -> Result<Option<ReplayFrame>, Stop>
    ensures tells { (t : TraceStanding) → IsTrace (job_functions job.now) memory.old (Some (as_open frame)) t →
        IsAnswered t.at.world call.now → IsInTurn (Some (as_open frame)) call.now →
        reads_open (Some (as_open frame)) call.now ≡ false →
        TellsCall (job_titles job.now) (job_functions job.now) memory.new (K.written sink.old) (K.written sink.new)
        (Some (as_open frame)) t call.now result }
    ensures faults { FaultsAfter (K.faults sink.old) (K.faults sink.new) result }
{
    match write_call(alloc, job, call, &mut memory.text, &mut memory.part, sink) {
        Ok(()) => {
            if !is_dispose(&call.request, frame.name) {
                return Ok(Some(frame));
            }
            match tell_frame(alloc, job, frame, memory, sink) {
                Ok(()) => Ok(None),
                Err(stop) => Err(stop),
            }
        }
        Err(stop) => Err(stop),
    }
}

// Handles a call while a frame is open: records the call if it is a read of the frame, or else tells it. Returns the
// frame if it stays open. Fails with `NoMemory` also if the call is out of turn.
fn tell_inside<K: Sink>(
    alloc: Global,
    job: &Job,
    frame: ReplayFrame,
    call: Entry,
    memory: &mut TraceMemory,
    sink: &mut K,
) -> Result<Option<ReplayFrame>, Stop>
    ensures tells { (t : TraceStanding) → IsTrace (job_functions job.now) memory.old (Some (as_open frame)) t →
        IsAnswered t.at.world call →
        TellsCall (job_titles job.now) (job_functions job.now) memory.new (K.written sink.old) (K.written sink.new)
        (Some (as_open frame)) t call result }
    ensures faults { FaultsAfter (K.faults sink.old) (K.faults sink.new) result }
{
    if !is_in_turn(frame, &call) {
        return Err(Stop::NoMemory); // in the history of a script each call is in turn
    }
    if let Some(object) = object_asked(frame, &call) {
        let Ok(()) = memory.replay.reads.record(object, into_value(call.reply)) else {
            return Err(Stop::NoMemory);
        };
        return Ok(Some(frame));
    }
    tell_printed(alloc, job, frame, &call, memory, sink)
}

// Handles a call. Returns the frame that is open then.
fn tell_call<K: Sink>(
    alloc: Global,
    job: &Job,
    frame: Option<ReplayFrame>,
    call: Entry,
    memory: &mut TraceMemory,
    sink: &mut K,
) -> Result<Option<ReplayFrame>, Stop>
    ensures tells { (t : TraceStanding) → IsTrace (job_functions job.now) memory.old (frame_of frame) t →
        IsAnswered t.at.world call →
        TellsCall (job_titles job.now) (job_functions job.now) memory.new (K.written sink.old) (K.written sink.new)
        (frame_of frame) t call result }
    ensures faults { FaultsAfter (K.faults sink.old) (K.faults sink.new) result }
{
    match frame {
        Some(frame) => tell_inside(alloc, job, frame, call, memory, sink),
        None => tell_outside(alloc, job, call, memory, sink),
    }
}

// Handles all calls of a history, one after the other.
fn tell_calls<K: Sink>(
    alloc: Global,
    job: &Job,
    calls: Vec<Entry>,
    memory: &mut TraceMemory,
    sink: &mut K,
) -> Result<(), Stop>
    ensures says { (t : TraceStanding) → IsTrace (job_functions job.now) memory.old None t →
        IsLegal table t.at.world calls.items → WritesBytes (K.written sink.old) (K.written sink.new)
        (flat (trace_lines (job_titles job.now) (job_functions job.now) t (printed_calls [] calls.items))) result }
    ensures faults { FaultsAfter (K.faults sink.old) (K.faults sink.new) result }
{
    let mut frame = None;
    for call in calls {
        match tell_call(alloc, job, frame, call, memory, sink) {
            Ok(left) => frame = left,
            Err(stop) => return Err(stop),
        }
    }
    Ok(())
}

// Writes the line of the program with its source text. `text` is the line buffer.
fn write_program<K: Sink>(
    alloc: Global,
    job: &Job,
    source: &[u8],
    text: &mut Vec<u8>,
    sink: &mut K,
) -> Result<(), Stop>
    ensures says { let titles = job_titles job.now in WritesBytes (K.written sink.old) (K.written sink.new)
        (program_line titles.states (job_functions job.now) titles.actors source.now) result }
    ensures faults { FaultsAfter (K.faults sink.old) (K.faults sink.new) result }
{
    let mut line = begin_line(alloc, text);
    let Ok(()) = put_program(
        &mut line,
        &job.program,
        job.script.actors.as_slice(),
        source,
    ) else {
        return Err(Stop::NoMemory);
    };
    end_line(line, text, sink)
}

// Writes the lines of a history. The memory of the composition is left to the end of the process.
fn tell_history<K: Sink>(
    alloc: Global,
    job: &Job,
    calls: Vec<Entry>,
    sink: &mut K,
) -> Result<(), Stop>
    requires { IsLegal table (opening_world job.now.program.states.items) calls.items }
    ensures says { let titles = job_titles job.now in let functions = job_functions job.now in
        WritesBytes (K.written sink.old) (K.written sink.new)
        (flat (trace_lines titles functions (initial_trace titles.states) (printed_calls [] calls.items))) result }
    ensures faults { FaultsAfter (K.faults sink.old) (K.faults sink.new) result }
{
    let Ok(mut memory) = TraceMemory::new(alloc, &job.program) else {
        return Err(Stop::NoMemory);
    };
    let done = tell_calls(alloc, job, calls, &mut memory, sink);
    mem::forget(memory);
    done
}

/// Writes the trace of a history: the line of the program with its source text, the line of each printed call from its
/// request and its reply, and the line of each frame, which is composed again from the values that its reads gave. No
/// call is made.
///
/// `calls` is a whole legal history, with the reads of frames. Fails if the sink fails, if the process is out of memory,
/// or with `NoMemory` if a frame ends without all the reads of its composition or if the frames are not in turn: at most
/// one is open at a time, and its own caller reads and disposes its snapshot. The memory of the composition is left to
/// the end of the process. A rule of this project.
pub fn tell<K: Sink>(
    alloc: Global,
    job: &Job,
    source: &[u8],
    calls: Vec<Entry>,
    sink: &mut K,
) -> Result<(), Stop>
    requires { IsLegal table (opening_world job.now.program.states.items) calls.items }
    ensures says { let titles = job_titles job.now in let functions = job_functions job.now in
        WritesBytes (K.written sink.old) (K.written sink.new)
        (program_line titles.states functions titles.actors source.now
        ++ flat (trace_lines titles functions (initial_trace titles.states) (printed_calls [] calls.items))) result }
    ensures faults { FaultsAfter (K.faults sink.old) (K.faults sink.new) result }
{
    let mut text = Vec::new(alloc);
    match write_program(alloc, job, source, &mut text, sink) {
        Ok(()) => tell_history(alloc, job, calls, sink),
        Err(stop) => Err(stop),
    }
}
