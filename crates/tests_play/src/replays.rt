// Histories whose lines are written from their calls and replies.
ghost use Rattle.std.specs.Prelude.{◌≡◌, ◌≤◌, [], ◌∷◌, Option, Some, None, true, length, IfOk, IfSome};
ghost use Rattle.std.specs.Option.{option_map};
ghost use Rattle.snap_policy.specs.Table.{table};
ghost use Rattle.snap_api.specs.World.{IsLegal, start};
ghost use Rattle.lang_script.specs.StepCalls.{opening_world};
ghost use Rattle.script_lang.specs.Lines.{ends_frame, frame_taken};
ghost use Rattle.play_laws.specs.FramesInTurn.{AreInTurn, frame_opened};
ghost use Rattle.play_laws.specs.PrintedHistory.{printed_history};
ghost use Rattle.play_run.specs.CallsInFrames.{frame_by, frame_after, IsInTurn};

use crate::memory_runs::{logged_world, sink_failing};
use crate::programs::parse_program;
use lang_checks::check;
use play_run::{Job, replay, set_up_world};
use rt_values::{Caller, Kind, Name, Value};
use script_lang::{Flags, add_line, script_of};
use snap_api::{Entry, Refusal, Reply, Request, Versions, run_calls};
use snap_policy::BuiltIn;
use std::alloc::Global;
use std::test::Fail;

// Two actors, whose frames have steps between their take and their dispose.
const TWO_ACTORS: &[u8] = b"(compose 1)
(state a Int Counter 1)
(state t Text Structural \"x\")
(fun leaf ((n Int)) (node Leaf ((n n) (a (get a)))))
(fun root () (node Top ((t (get t)))) (call leaf 7))
(do main (frame) (write global a 2) (frame (during (take s mutable global) (add s a 5) (write s t \"yz\"))))
(do other (take r mutable global) (add r a 3) (apply r) (dispose r) (read global t))
(do main (frame) (apply s) (frame) (dispose s))
(do other (frame (during (read global a))) (repeat 2 (add global a 1) (frame)))
";

// The lines of a history in which calls of `other` are made while a frame of `main` is open.
const INTERLEAVED_LINES: &[u8] = b"main: frame = @1 changed a t
other: write @0 a 5 = changed
other: take mutable @0 = @2
other: write @2 a 6 = changed
other: apply @2 = applied
main: read @0 a = 6
other: frame = unknown watcher
other: write @1 a 9 = owned by main
other: read @1 a = owned by main
main: dispose @1 = disposed
report: ran 2, calculated 0, reads 2, groups 4, nodes 2
#1 Top t=\"x\"
#2 Leaf n=7 a=1
other: frame = @3 changed a
other: dispose @3 = disposed
report: ran 1, calculated 0, reads 1, groups 4, nodes 2
#1 Top t=\"x\"
#2 Leaf n=7 a=6
";

// Returns the caller and the snapshot of the frame that `call` begins.
fn begun_frame(call: &Entry) -> Option<(Caller, Name)>
    ensures { option_map (λ f. frame_by f.0 f.1) result
        ≡ frame_opened call.now.caller (frame_taken call.now.request call.now.reply) }
{
    match (&call.request, &call.reply) {
        (Request::TakeFor { .. }, Reply::TakenFor(name, _)) => Some((call.caller, *name)),
        _ => None,
    }
}

// Checks whether `call` disposes the snapshot `name`.
fn disposes(call: &Entry, name: Name) -> bool
    ensures { result ≡ ends_frame (name ∷ []) call.now.request }
{
    match &call.request {
        Request::Dispose { name: disposed } => name == *disposed,
        _ => false,
    }
}

// Returns the frame that is open after `call`, or `None` if the call is out of turn.
fn next_frame(frame: Option<(Caller, Name)>, call: &Entry) -> Option<Option<(Caller, Name)>>
    ensures { let before = option_map (λ f. frame_by f.0 f.1) frame in
        IfSome result (λ next. IsInTurn before call.now
        × (option_map (λ f. frame_by f.0 f.1) next ≡ frame_after before call.now)) }
{
    let begun = begun_frame(call);
    let Some((caller, name)) = frame else {
        return Some(begun);
    };
    if disposes(call, name) {
        return if call.caller == caller {
            Some(None)
        } else {
            None
        };
    }
    if begun.is_none() { Some(frame) } else { None }
}

// Checks whether frames are in turn.
fn is_in_turn(calls: &[Entry]) -> bool
    ensures { result ≡ true → AreInTurn None (printed_history calls.now) }
{
    let mut frame = None;
    let mut rest = calls;
    while let Some((call, more)) = rest.split_first() {
        match next_frame(frame, call) {
            Some(next) => {
                frame = next;
                rest = more;
            }
            None => return false,
        }
    }
    true
}

// Makes calls in the opening world of a job. Returns them with their replies.
fn make_calls(alloc: Global, job: &Job, calls: &Vec<(Caller, Request)>) -> Result<Vec<Entry>, Fail>
    ensures legal { IfOk result (λ made. IsLegal table (opening_world job.now.program.states.items) made.items) }
{
    let mut world = logged_world(alloc)?;
    set_up_world(alloc, &job.program, &mut world)?;
    run_calls(alloc, &mut world, calls)?;
    let (_, entries) = world.into_parts();
    Ok(entries)
}

// Writes the lines of a history. Returns the bytes that are written.
fn lines_of(alloc: Global, job: &Job, calls: Vec<Entry>) -> Result<Vec<u8>, Fail>
    requires legal { IsLegal table (opening_world job.now.program.states.items) calls.items }
    requires turn { AreInTurn None (printed_history calls.items) }
{
    let mut sink = sink_failing(alloc, 0)?;
    let _ = replay(alloc, job, PLAIN, calls, &mut sink);
    Ok(sink.bytes().to_vec(alloc)?)
}

// Returns calls of `other` while a frame of `main` is open and between the reads of this frame, and a frame of `other`
// after it.
fn interleaved_calls(alloc: Global) -> Result<Vec<(Caller, Request)>, Fail> {
    let (a, t, main, other) = (0, 1, 0, 1);
    let frame = || Request::TakeFor { watcher: 0 };
    let read = |name| Request::Read { name, object: a };
    let read_text = |name| Request::Read { name, object: t };
    let write = |name, value| Request::Write {
        name,
        object: a,
        value: Value::Int(value),
    };
    let take = Request::Take {
        parent: 0,
        kind: Kind::Mutable,
    };
    Ok(vec![in alloc;
        (main, frame()),
        (other, write(0, 5)),
        (other, take),
        (other, write(2, 6)),
        (other, Request::Apply { name: 2 }),
        (main, read(0)),
        (main, read_text(1)),
        (other, Request::TakeFor { watcher: 1 }),
        (other, write(1, 9)),
        (other, read(1)),
        (main, read(1)),
        (main, Request::Dispose { name: 1 }),
        (other, frame()),
        (other, read(3)),
        (other, Request::Dispose { name: 3 }),
    ]?)
}

// Checks whether a call reads the state `t` in the snapshot of the first frame.
fn reads_text(call: &(Caller, Request)) -> bool {
    match &call.1 {
        Request::Read { name, object } => *name == 1 && *object == 1,
        _ => false,
    }
}

// Parses a job.
fn parse_job(alloc: Global, text: &[u8]) -> Result<Job, Fail> {
    let (program, rest) = parse_program(alloc, text)?;
    let program = check(alloc, program)?;
    let script = script_of(alloc, rest, &program, false)?;
    Ok(Job { program, script })
}

// Flags for trees, without JSON and without calls on an applier.
const PLAIN: Flags = Flags {
    ops: false,
    json: false,
};

// Makes calls in the opening world of a job, and writes the lines of this history. Returns them, or nothing if its
// frames are not in turn.
fn replayed(alloc: Global, job: &Job, calls: &Vec<(Caller, Request)>) -> Result<Vec<u8>, Fail> {
    let made = make_calls(alloc, job, calls)?;
    if is_in_turn(&made) {
        lines_of(alloc, job, made)
    } else {
        Ok(Vec::new(alloc))
    }
}

// Writes the lines of calls of the two actors.
fn lines_of_calls(alloc: Global, calls: &Vec<(Caller, Request)>) -> Result<Vec<u8>, Fail> {
    let job = parse_job(alloc, TWO_ACTORS)?;
    replayed(alloc, &job, calls)
}

#[test]
fn calls_of_others_stand_between_those_of_a_frame(rt: HostRuntime) -> Result<(), Fail> {
    let calls = interleaved_calls(rt.alloc())?;
    assert!(rt; lines_of_calls(rt.alloc(), &calls)?.as_slice() == INTERLEAVED_LINES);
    Ok(())
}

#[test]
fn lines_end_at_a_frame_that_lacks_a_read(rt: HostRuntime) -> Result<(), Fail> {
    let mut calls = interleaved_calls(rt.alloc())?;
    calls.retain(|call| !reads_text(call));
    let lines = lines_of_calls(rt.alloc(), &calls)?;
    assert!(rt; INTERLEAVED_LINES.starts_with(&lines));
    assert!(rt; lines.ends_with(b"main: dispose @1 = disposed\n"));
    Ok(())
}

// Returns the line of a take by the first actor that is refused because the clock is spent.
fn line_of_spent(alloc: Global) -> Result<Vec<u8>, Fail> {
    let job = parse_job(alloc, TWO_ACTORS)?;
    let take = Entry {
        caller: 0,
        request: Request::Take {
            parent: 0,
            kind: Kind::Mutable,
        },
        reply: Reply::Refused(Refusal::Spent),
    };
    let mut text = Vec::new(alloc);
    add_line(&mut text, &job.program, &job.script, &take)?;
    Ok(text)
}

#[test]
fn a_spent_take_has_its_line(rt: HostRuntime) -> Result<(), Fail> {
    let line = line_of_spent(rt.alloc())?;
    assert!(rt; line.as_slice() == b"main: take mutable @0 = spent\n".as_slice());
    Ok(())
}
