// The lines of a history, written from its calls and their replies.
ghost use Rattle.std.specs.Prelude.{◌≡◌, ◌≢◌, ◌∷◌, [], zero, false, Option, Some, None, Err, IfOk, OnOk};
ghost use Rattle.std.specs.Option.{option_map};
ghost use Rattle.rt_groups.specs.Frames.{no_last_frame};
ghost use Rattle.compose_model.specs.Frame.{kept_after};
ghost use Rattle.recomposer.specs.Compositions.{IsAt};
ghost use Rattle.recomposer.specs.FrameContracts.{frame_result, InShownFrames};
ghost use Rattle.snap_policy.specs.Table.{table};
ghost use Rattle.snap_api.specs.World.{IsLegal};
ghost use Rattle.lang_script.specs.StepCalls.{opening_world};
ghost use Rattle.script_lang.specs.Lines.{Standing, initial_standing, lines, frame_lines, ends_frame};
ghost use Rattle.play_laws.specs.FramesInTurn.{AreInTurn};
ghost use Rattle.play_laws.specs.PrintedHistory.{printed_history};
ghost use Rattle.play_run.specs.RunPromise.{WritesBytes, FaultsAfter, job_style, job_functions};
ghost use Rattle.play_run.specs.RunState.{ComposesForRun, flat};
ghost use Rattle.play_run.specs.CallsInFrames.{frame_by, is_frame_read, object_asked, value_given, IsInTurn};
ghost use Rattle.play_run.specs.ReplayState.{as_open, frame_of, IsAnswered, IsRecordedMap, IsReplay, PlaysCall};

use crate::calls::write_call;
use crate::frame::{compose_in, note_frame, write_frame};
use crate::job::Job;
use crate::recorded::RecordedReads;
use crate::write_lines::Stop;
use lang_checks::Checked;
use play_steps::WATCHER;
use recomposer::Composition;
use rt_groups::Report;
use rt_streams::Sink;
use rt_values::{Caller, Name, NoMemory, ObjectNo, Value};
use script_lang::Flags;
use snap_api::{Entry, Reply, Request};
use std::alloc::Global;
use std::marker::Brand;
use std::mem;
use std::sync::ledger::Blank;

/// An open frame: the caller that took its snapshot, and the number of the snapshot.
#[derive(Clone, Copy)]
pub struct ReplayFrame {
    pub caller: Caller,
    pub name: Name,
}

/// What a replay keeps between calls: the composition, the line buffer, and the reads of the open frame so far.
#[derive(Drop)]
pub struct ReplayMemory<'p> {
    pub composition: Composition<'p>,
    pub text: Vec<u8>,
    pub reads: RecordedReads,
}

impl<'p> ReplayMemory<'p> {
    /// Creates the state before the first call.
    pub fn new(alloc: Global, program: &'p Checked) -> Result<Self, NoMemory>
        ensures composition { IfOk result (λ m. IsAt m.composition no_last_frame None) }
        ensures program { IfOk result (λ m. m.composition.program.now ≡ program.now) }
        ensures reads { IfOk result (λ m. m.reads.reads.items ≡ []) }
        ensures given { IfOk result (λ m. m.reads.given ≡ zero) }
    {
        let composition = Composition::new(alloc, program, WATCHER)?;
        Ok(ReplayMemory {
            composition,
            text: Vec::new(alloc),
            reads: RecordedReads::new(alloc),
        })
    }
}

/// Returns whether a request disposes the snapshot `name`. A rule of this project.
pub fn is_dispose(request: &Request, name: Name) -> bool
    ensures { result ≡ ends_frame (name ∷ []) request.now }
{
    match request {
        Request::Dispose { name: disposed } => name == *disposed,
        _ => false,
    }
}

/// Returns the object that a call reads in the snapshot of the open frame, if it is such a read of the frame's caller.
/// A rule of this project.
pub fn object_asked(frame: ReplayFrame, call: &Entry) -> Option<ObjectNo>
    ensures { result ≡ object_asked (as_open frame) call.now.caller call.now.request }
{
    match &call.request {
        Request::Read { name, object } => {
            if frame.caller == call.caller && frame.name == *name {
                return Some(*object);
            }
            None
        }
        _ => None,
    }
}

/// Returns the frame that `caller` began with the snapshot `name`, if there is one. A rule of this project.
pub fn begun_frame(caller: Caller, name: Option<Name>) -> Option<ReplayFrame>
    ensures { frame_of result ≡ option_map (frame_by caller) name }
{
    match name {
        Some(name) => Some(ReplayFrame { caller, name }),
        None => None,
    }
}

/// Returns the value that a read gave, or the number 0 if there is no such object. A rule of this project.
pub fn into_value(reply: Reply) -> Value
    ensures { result ≡ value_given reply }
{
    match reply {
        Reply::Got(value) => value,
        _ => Value::Int(0),
    }
}

/// Composes a frame again from its recorded reads, and forgets them (`Recomposer.recompose`). Returns the report of a good
/// frame, or `None` if there are too many groups.
pub fn compose_recorded(
    alloc: Global,
    flags: Flags,
    memory: &mut ReplayMemory,
) -> Result<Option<Report>, Stop>
    ensures frame { ComposesForRun flags memory.old.composition memory.new.composition
        (IsRecordedMap memory.old.reads) result }
    ensures reads { memory.new.reads.reads.items ≡ [] }
    ensures given { memory.new.reads.given ≡ zero }
    ensures fault { result ≢ Err Stop.WriteFault }
{
    let composed = compose_in::<RecordedReads, Brand>(
        alloc,
        flags,
        &mut memory.composition,
        &mut memory.reads,
        Blank::new(1),
    );
    memory.reads.clear();
    composed
}

// Composes a frame from its reads, and writes its lines.
fn compose_again<K: Sink>(
    alloc: Global,
    flags: Flags,
    memory: &mut ReplayMemory,
    sink: &mut K,
) -> Result<(), Stop>
    ensures says { InShownFrames memory.old.composition (IsRecordedMap memory.old.reads)
        (λ k m. WritesBytes (K.written sink.old) (K.written sink.new)
        (flat (frame_lines flags k (frame_result memory.old.composition.program.now k m))) result) }
    ensures left { InShownFrames memory.old.composition (IsRecordedMap memory.old.reads) (λ k m. OnOk result
        (IsAt memory.new.composition (kept_after k (frame_result memory.old.composition.program.now k m)) (Some m))) }
    ensures program { memory.new.composition.program ≡ memory.old.composition.program }
    ensures reads { memory.new.reads.reads.items ≡ [] }
    ensures given { memory.new.reads.given ≡ zero }
    ensures faults { FaultsAfter (K.faults sink.old) (K.faults sink.new) result }
{
    match compose_recorded(alloc, flags, memory) {
        Ok(report) => write_frame(
            alloc,
            flags,
            &report,
            &memory.composition,
            &mut memory.text,
            sink,
        ),
        Err(stop) => Err(stop),
    }
}

// Handles a call while no frame is open: writes its line. Returns the frame that the call begins, if it begins one.
fn replay_outside<K: Sink>(
    job: &Job,
    flags: Flags,
    call: Entry,
    memory: &mut ReplayMemory,
    sink: &mut K,
) -> Result<Option<ReplayFrame>, Stop>
    ensures plays { (s : Standing) → IsReplay (job_functions job.now) memory.old None s →
        IsAnswered s.world call →
        PlaysCall (job_style job.now flags) (job_functions job.now) memory.new
        (K.written sink.old) (K.written sink.new) None s call result }
    ensures faults { FaultsAfter (K.faults sink.old) (K.faults sink.new) result }
{
    let Entry {
        caller,
        request,
        reply,
    } = call;
    match write_call(job, caller, &request, &reply, &mut memory.text, sink) {
        Ok(()) => {
            let name = note_frame(reply, &mut memory.composition);
            Ok(begun_frame(caller, name))
        }
        Err(stop) => Err(stop),
    }
}

// Handles a printed call while a frame is open: writes its line, and composes the frame if the call ends it. Returns
// the frame if it stays open.
fn print_inside<K: Sink>(
    alloc: Global,
    job: &Job,
    flags: Flags,
    frame: ReplayFrame,
    call: &Entry,
    memory: &mut ReplayMemory,
    sink: &mut K,
) -> Result<Option<ReplayFrame>, Stop>
    ensures plays { (s : Standing) → IsReplay (job_functions job.now) memory.old (Some (as_open frame)) s →
        IsAnswered s.world call.now → IsInTurn (Some (as_open frame)) call.now →
        is_frame_read (Some (as_open frame)) call.now ≡ false →
        PlaysCall (job_style job.now flags) (job_functions job.now) memory.new
        (K.written sink.old) (K.written sink.new) (Some (as_open frame)) s call.now result }
    ensures faults { FaultsAfter (K.faults sink.old) (K.faults sink.new) result }
{
    match write_call(
        job,
        call.caller,
        &call.request,
        &call.reply,
        &mut memory.text,
        sink,
    ) {
        Ok(()) => {
            if !is_dispose(&call.request, frame.name) {
                return Ok(Some(frame));
            }
            match compose_again(alloc, flags, memory, sink) {
                Ok(()) => Ok(None),
                Err(stop) => Err(stop),
            }
        }
        Err(stop) => Err(stop),
    }
}

// Handles a call while a frame is open: records the call if it is a read of the frame, or else prints it. Returns the
// frame if it stays open.
fn replay_inside<K: Sink>(
    alloc: Global,
    job: &Job,
    flags: Flags,
    frame: ReplayFrame,
    call: Entry,
    memory: &mut ReplayMemory,
    sink: &mut K,
) -> Result<Option<ReplayFrame>, Stop>
    ensures plays { (s : Standing) → IsReplay (job_functions job.now) memory.old (Some (as_open frame)) s →
        IsAnswered s.world call → IsInTurn (Some (as_open frame)) call →
        PlaysCall (job_style job.now flags) (job_functions job.now) memory.new
        (K.written sink.old) (K.written sink.new) (Some (as_open frame)) s call result }
    ensures faults { FaultsAfter (K.faults sink.old) (K.faults sink.new) result }
{
    if let Some(object) = object_asked(frame, &call) {
        let Ok(()) = memory.reads.record(object, into_value(call.reply)) else {
            return Err(Stop::NoMemory);
        };
        return Ok(Some(frame));
    }
    print_inside(alloc, job, flags, frame, &call, memory, sink)
}

// Handles a call. Returns the frame that is open then.
fn replay_call<K: Sink>(
    alloc: Global,
    job: &Job,
    flags: Flags,
    frame: Option<ReplayFrame>,
    call: Entry,
    memory: &mut ReplayMemory,
    sink: &mut K,
) -> Result<Option<ReplayFrame>, Stop>
    ensures plays { (s : Standing) → IsReplay (job_functions job.now) memory.old (frame_of frame) s →
        IsAnswered s.world call → IsInTurn (frame_of frame) call →
        PlaysCall (job_style job.now flags) (job_functions job.now) memory.new
        (K.written sink.old) (K.written sink.new) (frame_of frame) s call result }
    ensures faults { FaultsAfter (K.faults sink.old) (K.faults sink.new) result }
{
    match frame {
        Some(frame) => replay_inside(alloc, job, flags, frame, call, memory, sink),
        None => replay_outside(job, flags, call, memory, sink),
    }
}

// Handles all calls of a history, one after the other.
fn replay_calls<K: Sink>(
    alloc: Global,
    job: &Job,
    flags: Flags,
    calls: Vec<Entry>,
    memory: &mut ReplayMemory,
    sink: &mut K,
) -> Result<(), Stop>
    ensures says { (s : Standing) → IsReplay (job_functions job.now) memory.old None s →
        IsLegal table s.world calls.items → AreInTurn None (printed_history calls.items) →
        WritesBytes (K.written sink.old) (K.written sink.new)
        (flat (lines (job_style job.now flags) (job_functions job.now) s (printed_history calls.items))) result }
    ensures faults { FaultsAfter (K.faults sink.old) (K.faults sink.new) result }
{
    let mut frame = None;
    for call in calls {
        match replay_call(alloc, job, flags, frame, call, memory, sink) {
            Ok(left) => frame = left,
            Err(stop) => return Err(stop),
        }
    }
    Ok(())
}

/// Writes the lines of a history: the line of each printed call from its request and its reply, and the lines of each
/// frame, which is composed again from the values that its reads gave. No call is made.
///
/// `calls` is a whole legal history, with the reads of frames, and its frames are in turn. `flags` say what is printed
/// of a frame. Fails if the sink fails, if the process is out of memory, or with `NoMemory` if a frame ends without all
/// the reads of its composition. The memory of the composition is left to the end of the process.
pub fn replay<K: Sink>(
    alloc: Global,
    job: &Job,
    flags: Flags,
    calls: Vec<Entry>,
    sink: &mut K,
) -> Result<(), Stop>
    requires legal { IsLegal table (opening_world job.now.program.states.items) calls.items }
    requires turn { AreInTurn None (printed_history calls.items) }
    ensures says { let standing = initial_standing job.now.program.states.items in
        WritesBytes (K.written sink.old) (K.written sink.new)
        (flat (lines (job_style job.now flags) (job_functions job.now) standing (printed_history calls.items))) result }
    ensures faults { FaultsAfter (K.faults sink.old) (K.faults sink.new) result }
{
    let Ok(mut memory) = ReplayMemory::new(alloc, &job.program) else {
        return Err(Stop::NoMemory);
    };
    let done = replay_calls(alloc, job, flags, calls, &mut memory, sink);
    mem::forget(memory);
    done
}
