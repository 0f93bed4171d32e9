// The log of the world after a run.
ghost use Rattle.snap_api.specs.World.{start};

use crate::memory_runs::{logged_world, sink_failing, source_failing};
use play_core::{Status, play_alone};
use rt_values::Value;
use snap_api::{Entry, Reply, Request, Versions};
use snap_policy::BuiltIn;
use std::alloc::Global;
use std::test::Fail;

// Three nested calls. The write changes what the innermost call reads, and no other call reads a state.
const NESTED: &[u8] = b"(compose 1)
(state a Int Structural 1)
(fun leaf () (node Leaf ((a (get a)))))
(fun mid ((n Int)) (node Mid ((n n)) (call leaf)))
(fun root () (call mid 7))
(do main (frame) (write global a 2) (frame))
";

// Two calls with three reads. The write changes what the second call reads, and the last frame owes nothing.
const TWO_CALLS: &[u8] = b"(compose 1)
(state a Int Structural 1)
(state b Int Structural 2)
(fun left () (node Left ((a (get a)))))
(fun right () (node Right ((b (get b)) (c (get b)))))
(fun root () (call left) (call right))
(do main (frame) (write global b 3) (frame (during (read global a))) (frame))
";

// Runs `input` on a new world. The write with the number `failing`, counted from 1, fails, or none if that is 0.
fn run_on<V: Versions<P = BuiltIn>>(
    alloc: Global,
    world: &mut V,
    input: &[u8],
    failing: u64,
) -> Result<Status, Fail>
    requires { V.stands world.old (start 0) }
{
    let mut words = Vec::new(alloc);
    words.push("run".to_string(alloc)?)?;
    let mut source = source_failing(alloc, input, 0)?;
    let mut sink = sink_failing(alloc, failing)?;
    Ok(play_alone(alloc, &words, world, &mut source, &mut sink))
}

// Runs `input` on an empty plain world. The write with the number `failing`, counted from 1, fails, or none if that is 0.
// Returns the status and the log of the world.
fn run_with_log(alloc: Global, input: &[u8], failing: u64) -> Result<(Status, Vec<Entry>), Fail> {
    let mut world = logged_world(alloc)?;
    let status = run_on(alloc, &mut world, input, failing)?;
    let (_, entries) = world.into_parts();
    Ok((status, entries))
}

// What a test sees of an entry: a letter for the kind of the call, its snapshot, and the number read or 0.
type EntryData = (char, u64, i64);

fn entry_data(entry: &Entry) -> EntryData {
    match (&entry.request, &entry.reply) {
        (Request::TakeFor { .. }, Reply::TakenFor(name, _)) => ('t', *name, 0),
        (Request::Read { name, .. }, Reply::Got(Value::Int(value))) => ('r', *name, *value),
        (Request::Write { name, .. }, Reply::Wrote { changed: true }) => ('w', *name, 0),
        (Request::Dispose { name }, Reply::Disposed) => ('d', *name, 0),
        _ => ('x', 0, 0),
    }
}

// Whether a run is done, and these are the entries of its log.
fn has_log(alloc: Global, input: &[u8], wanted: &[EntryData]) -> Result<bool, Fail> {
    let (status, entries) = run_with_log(alloc, input, 0)?;
    Ok(
        status == Status::Done
            && entries.len() == wanted.len()
            && entries
                .iter()
                .zip(wanted)
                .all(|(entry, row)| entry_data(entry) == *row),
    )
}

// Inputs, and the entries of the log of a run.
static LOGS: [(&[u8], &[EntryData]); 2] = [
    (
        NESTED,
        &[
            ('t', 1, 0),
            ('r', 1, 1),
            ('d', 1, 0),
            ('w', 0, 0),
            ('t', 2, 0),
            ('r', 2, 2),
            ('d', 2, 0),
        ],
    ),
    (
        TWO_CALLS,
        &[
            ('t', 1, 0),
            ('r', 1, 1),
            ('r', 1, 2),
            ('r', 1, 2),
            ('d', 1, 0),
            ('w', 0, 0),
            ('t', 2, 0),
            ('r', 0, 1),
            ('r', 2, 3),
            ('r', 2, 3),
            ('d', 2, 0),
            ('t', 3, 0),
            ('d', 3, 0),
        ],
    ),
];

#[test]
fn each_frame_logs_the_reads_of_the_calls_that_run(rt: HostRuntime) -> Result<(), Fail> {
    for (input, wanted) in LOGS.as_slice() {
        assert!(rt; has_log(rt.alloc(), input, wanted)?);
    }
    Ok(())
}

// Whether a run stops at the write `failing`, and its log has `wanted` entries.
fn stops_at(alloc: Global, failing: u64, wanted: usize) -> Result<bool, Fail> {
    let (status, entries) = run_with_log(alloc, NESTED, failing)?;
    Ok(status == Status::WriteFault && entries.len() == wanted)
}

// The number of the write that fails, and the length of the log then. Each line is one write, and a good frame writes its
// report and its tree after the dispose.
static FAILING: [(u64, usize); 7] = [(1, 1), (2, 3), (3, 3), (5, 3), (6, 4), (7, 5), (8, 7)];

#[test]
fn no_call_is_made_after_a_failed_write(rt: HostRuntime) -> Result<(), Fail> {
    for (failing, wanted) in FAILING.as_slice() {
        assert!(rt; stops_at(rt.alloc(), *failing, *wanted)?);
    }
    Ok(())
}
