// The calls of steps, with their lines.
ghost use Rattle.std.specs.Prelude.{◌≡◌, ◌≤◌, ◌++◌, List, ℕ, [], ◌∷◌, Option, Some, Err, IfOk, OnOk, OnErr};
ghost use Rattle.snap_policy.specs.declared.policy.BuiltIn.{BuiltIn as built_in};
ghost use Rattle.snap_policy.specs.Table.{table};
ghost use Rattle.snap_api.specs.World.{World, call};
ghost use Rattle.snap_api.specs.declared.data.Request.TheVariants as request_data;
ghost use Rattle.rt_values.specs.declared.names.Kind.{Kind as kind_data};
ghost use Rattle.lang_ast.specs.declared.script.SnapshotRef.{SnapshotRef as snapshot_ref};
ghost use Rattle.lang_script.specs.SnapshotNames.{snapshot_number};
ghost use Rattle.lang_script.specs.StepCalls.{Part, Take, Read, WriteSum, request_of, value_read, sum_request, entry, call_parts, calls_parts};
ghost use Rattle.script_lang.specs.Lines.{call_text, reply_text, line, entry_line};
ghost use Rattle.play_run.specs.RunOutput.{Run};
ghost use Rattle.play_run.specs.RunPromise.{job_titles};
ghost use Rattle.play_run.specs.RunState.{KeepsNames, AddsEntry, MayAddEntry, IsActorRun, ActorRunsAt, ActorRuns, scene};
ghost use Rattle.play_run.specs.RunPromise.{WritesBytes, FaultsAfter};

use crate::job::Job;
use crate::memory::RunMemory;
use crate::write_lines::{Stop, write_piece};
use lang_ast::CallForm;
use play_steps::number_taken;
use rt_streams::Sink;
use rt_values::operators::add;
use rt_values::{Caller, Name, NoMemory, ObjectNo, Value, Word};
use script_lang::{Flags, add_reply_line, add_request_line};
use snap_api::{Reply, Request, Versions};
use snap_policy::BuiltIn;
use std::alloc::Global;

/// An actor of a job, with the flags of the run.
#[derive(Clone, Copy)]
pub struct JobActor<'a> {
    pub job: &'a Job,
    pub flags: Flags,
    pub number: Caller,
}

// Begins the line of a call in the line buffer `text`: writes all that is before the reply.
fn begin_line(
    job: &Job,
    caller: Caller,
    request: &Request,
    text: &mut Vec<u8>,
) -> Result<(), NoMemory>
    ensures { OnOk result (text.new.items ≡ call_text (job_titles job.now) caller request.now) }
{
    text.clear();
    add_request_line(text, &job.program, &job.script, caller, request)
}

// Ends the line in the line buffer `text` with the reply, and writes the line.
fn end_line<K: Sink>(job: &Job, reply: &Reply, text: &mut Vec<u8>, sink: &mut K) -> Result<(), Stop>
    ensures says { let all = text.old.items ++ line (reply_text (job_titles job.now) reply.now) in
        WritesBytes (K.written sink.old) (K.written sink.new) all result }
    ensures faults { FaultsAfter (K.faults sink.old) (K.faults sink.new) result }
{
    let Ok(()) = add_reply_line(text, &job.program, &job.script, reply) else {
        return Err(Stop::NoMemory);
    };
    write_piece(sink, text)
}

/// Writes the line of a call that has this reply. `text` is the line buffer.
pub fn write_call<K: Sink>(
    job: &Job,
    caller: Caller,
    request: &Request,
    reply: &Reply,
    text: &mut Vec<u8>,
    sink: &mut K,
) -> Result<(), Stop>
    ensures says { let titles = job_titles job.now in
        let all = line (call_text titles caller request.now ++ reply_text titles reply.now) in
        WritesBytes (K.written sink.old) (K.written sink.new) all result }
    ensures faults { FaultsAfter (K.faults sink.old) (K.faults sink.new) result }
{
    let Ok(()) = begin_line(job, caller, request, text) else {
        return Err(Stop::NoMemory);
    };
    end_line(job, reply, text, sink)
}

/// Makes a call and writes its line. `text` is the line buffer. After an error the world may have made the call.
pub fn make_call<V: Versions<P = BuiltIn>, K: Sink>(
    alloc: Global,
    actor: JobActor,
    request: Request,
    text: &mut Vec<u8>,
    world: &mut V,
    sink: &mut K,
) -> Result<Reply, Stop>
    ensures says { (w : World built_in) → V.stands world.old w →
        let line = entry_line (job_titles actor.entry.job.now) (entry w actor.entry.number request) in
        WritesBytes (K.written sink.old) (K.written sink.new) line result }
    ensures reply { (w : World built_in) → V.stands world.old w →
        IfOk result (λ r. r ≡ (call table w actor.entry.number request).1) }
    ensures left { (w : World built_in) → V.stands world.old w →
        OnOk result (V.stands world.new (call table w actor.entry.number request).0) }
    ensures log { (w : World built_in) → V.stands world.old w →
        OnOk result (AddsEntry (V.log world.old) (V.log world.new) (entry w actor.entry.number request)) }
    ensures stops { (w : World built_in) → V.stands world.old w →
        OnErr result (MayAddEntry (V.log world.old) (V.log world.new) (entry w actor.entry.number request)) }
    ensures faults { FaultsAfter (K.faults sink.old) (K.faults sink.new) result }
{
    let Ok(()) = begin_line(actor.job, actor.number, &request, text) else {
        return Err(Stop::NoMemory);
    };
    let reply = world.call(alloc, actor.number, request);
    if reply.is_no_memory() {
        return Err(Stop::NoMemory);
    }
    match end_line(actor.job, &reply, text, sink) {
        Ok(()) => Ok(reply),
        Err(stop) => Err(stop),
    }
}

// Makes the call of a part that keeps the names.
fn run_part<V: Versions<P = BuiltIn>, K: Sink>(
    alloc: Global,
    actor: JobActor,
    request: Request,
    memory: &mut RunMemory,
    world: &mut V,
    sink: &mut K,
) -> Result<Reply, Stop>
    ensures runs { (frame : Option ℕ) (r : Run) (p : Part) → KeepsNames p →
        IsActorRun actor.entry V.stands V.log world.old memory.old frame r →
        request_of r.notes p ≡ Some request →
        ActorRunsAt actor.entry V.stands V.log (p ∷ [])
        (scene world.new memory.new frame (K.written sink.new)) (K.written sink.old) r result }
    ensures reply { (w : World built_in) → V.stands world.old w →
        IfOk result (λ y. y ≡ (call table w actor.entry.number request).1) }
    ensures faults { FaultsAfter (K.faults sink.old) (K.faults sink.new) result }
{
    make_call(alloc, actor, request, &mut memory.text, world, sink)
}

// Takes a snapshot, and notes its number under `name`.
fn run_take<V: Versions<P = BuiltIn>, K: Sink>(
    alloc: Global,
    actor: JobActor,
    name: &Word,
    request: Request,
    memory: &mut RunMemory,
    world: &mut V,
    sink: &mut K,
) -> Result<(), Stop>
    ensures runs { (frame : Option ℕ) (r : Run) (kind : kind_data) (parent : snapshot_ref) →
        IsActorRun actor.entry V.stands V.log world.old memory.old frame r →
        request_of r.notes (Take name.now kind parent) ≡ Some request →
        ActorRunsAt actor.entry V.stands V.log (Take name.now kind parent ∷ [])
        (scene world.new memory.new frame (K.written sink.new)) (K.written sink.old) r result }
    ensures faults { FaultsAfter (K.faults sink.old) (K.faults sink.new) result }
{
    match make_call(alloc, actor, request, &mut memory.text, world, sink) {
        Ok(reply) => match memory.names.put(alloc, name.bytes(), number_taken(&reply)) {
            Ok(()) => Ok(()),
            Err(_) => Err(Stop::NoMemory),
        },
        Err(stop) => Err(stop),
    }
}

/// Returns the write of the sum of `amount` and the number in `reply`, if there is one. A rule of this project.
pub fn sum_request(name: Name, object: ObjectNo, amount: i64, reply: &Reply) -> Option<Request>
    ensures { result ≡ sum_request name object amount (value_read reply.now) }
{
    match reply {
        Reply::Got(Value::Int(z)) => Some(Request::Write {
            name,
            object,
            value: Value::Int(add(*z, amount)),
        }),
        _ => None,
    }
}

// Reads an object, and if the read gives a number writes the sum of it and `amount`.
fn run_add<V: Versions<P = BuiltIn>, K: Sink>(
    alloc: Global,
    actor: JobActor,
    name: Name,
    object: ObjectNo,
    amount: i64,
    memory: &mut RunMemory,
    world: &mut V,
    sink: &mut K,
) -> Result<(), Stop>
    ensures runs { (frame : Option ℕ) (r : Run) (snapshot : snapshot_ref) →
        IsActorRun actor.entry V.stands V.log world.old memory.old frame r →
        snapshot_number r.notes.names snapshot ≡ name →
        ActorRunsAt actor.entry V.stands V.log (Read snapshot object ∷ WriteSum snapshot object amount ∷ [])
        (scene world.new memory.new frame (K.written sink.new)) (K.written sink.old) r result }
    ensures faults { FaultsAfter (K.faults sink.old) (K.faults sink.new) result }
{
    let reply = match run_part(
        alloc,
        actor,
        Request::Read { name, object },
        memory,
        world,
        sink,
    ) {
        Ok(reply) => reply,
        Err(stop) => return Err(stop),
    };
    match sum_request(name, object, amount, &reply) {
        Some(request) => match run_part(alloc, actor, request, memory, world, sink) {
            Ok(_) => Ok(()),
            Err(stop) => Err(stop),
        },
        None => Ok(()),
    }
}

// Makes a call whose reply is only printed.
fn run_single<V: Versions<P = BuiltIn>, K: Sink>(
    alloc: Global,
    actor: JobActor,
    request: Request,
    memory: &mut RunMemory,
    world: &mut V,
    sink: &mut K,
) -> Result<(), Stop>
    ensures runs { (frame : Option ℕ) (r : Run) (p : Part) → KeepsNames p →
        IsActorRun actor.entry V.stands V.log world.old memory.old frame r →
        request_of r.notes p ≡ Some request →
        ActorRunsAt actor.entry V.stands V.log (p ∷ [])
        (scene world.new memory.new frame (K.written sink.new)) (K.written sink.old) r result }
    ensures faults { FaultsAfter (K.faults sink.old) (K.faults sink.new) result }
{
    match run_part(alloc, actor, request, memory, world, sink) {
        Ok(_) => Ok(()),
        Err(stop) => Err(stop),
    }
}

// Writes a copy of `value`.
fn run_write<V: Versions<P = BuiltIn>, K: Sink>(
    alloc: Global,
    actor: JobActor,
    name: Name,
    object: ObjectNo,
    value: &Value,
    memory: &mut RunMemory,
    world: &mut V,
    sink: &mut K,
) -> Result<(), Stop>
    ensures runs { (frame : Option ℕ) (r : Run) (p : Part) → KeepsNames p →
        IsActorRun actor.entry V.stands V.log world.old memory.old frame r →
        request_of r.notes p ≡ Some (request_data.Write name object value.now) →
        ActorRunsAt actor.entry V.stands V.log (p ∷ [])
        (scene world.new memory.new frame (K.written sink.new)) (K.written sink.old) r result }
    ensures faults { FaultsAfter (K.faults sink.old) (K.faults sink.new) result }
{
    let Ok(value) = value.copy(alloc) else {
        return Err(Stop::NoMemory);
    };
    let request = Request::Write {
        name,
        object,
        value,
    };
    run_single(alloc, actor, request, memory, world, sink)
}

// Makes a step without inner steps.
pub fn run_call<V: Versions<P = BuiltIn>, K: Sink>(
    alloc: Global,
    actor: JobActor,
    form: &CallForm,
    memory: &mut RunMemory,
    world: &mut V,
    sink: &mut K,
) -> Result<(), Stop>
    ensures runs { (frame : Option ℕ) → ActorRuns actor.entry V.stands V.log (call_parts form.now)
        (scene world.old memory.old frame (K.written sink.old))
        (scene world.new memory.new frame (K.written sink.new)) result }
    ensures faults { FaultsAfter (K.faults sink.old) (K.faults sink.new) result }
{
    match form {
        CallForm::Take {
            name,
            kind,
            parent,
            ..
        } => {
            let parent = memory.names.number_of(parent);
            let request = Request::Take {
                parent,
                kind: *kind,
            };
            run_take(alloc, actor, &name.text, request, memory, world, sink)
        }
        CallForm::Read {
            snapshot,
            object,
            ..
        } => {
            let name = memory.names.number_of(snapshot);
            let request = Request::Read {
                name,
                object: *object,
            };
            run_single(alloc, actor, request, memory, world, sink)
        }
        CallForm::Write {
            snapshot,
            object,
            value,
            ..
        } => {
            let name = memory.names.number_of(snapshot);
            run_write(alloc, actor, name, *object, value, memory, world, sink)
        }
        CallForm::Add {
            snapshot,
            object,
            amount,
            ..
        } => {
            let name = memory.names.number_of(snapshot);
            run_add(alloc, actor, name, *object, *amount, memory, world, sink)
        }
        CallForm::Apply { snapshot, .. } => {
            let name = memory.names.number_of(snapshot);
            run_single(alloc, actor, Request::Apply { name }, memory, world, sink)
        }
        CallForm::Dispose { snapshot, .. } => {
            let name = memory.names.number_of(snapshot);
            run_single(alloc, actor, Request::Dispose { name }, memory, world, sink)
        }
    }
}

// Makes steps without inner steps, one after the other.
pub fn run_calls<V: Versions<P = BuiltIn>, K: Sink>(
    alloc: Global,
    actor: JobActor,
    forms: &[CallForm],
    memory: &mut RunMemory,
    world: &mut V,
    sink: &mut K,
) -> Result<(), Stop>
    ensures runs { (frame : Option ℕ) → ActorRuns actor.entry V.stands V.log (calls_parts forms.now)
        (scene world.old memory.old frame (K.written sink.old))
        (scene world.new memory.new frame (K.written sink.new)) result }
    ensures faults { FaultsAfter (K.faults sink.old) (K.faults sink.new) result }
{
    let mut rest = forms;
    while let Some((form, more)) = rest.split_first() {
        match run_call(alloc, actor, form, memory, world, sink) {
            Ok(()) => rest = more,
            Err(stop) => return Err(stop),
        }
    }
    Ok(())
}
