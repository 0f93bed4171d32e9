// Runs over streams that fail.
use crate::memory_runs::{Run, play_on};
use play_core::Status;
use rt_streams::OpenGate;
use snap_plain::PlainWorld;
use snap_policy::BuiltIn;
use std::alloc::Global;
use std::sync::Wait;
use std::test::Fail;
use std::thread::Threads;

const COUNTER: &[u8] = b"(compose 1)
(state count Int Structural 0)
(fun root () (node Text ((value (get count)))))
(do main (frame) (write global count 1) (frame))
";

// The lines of the run.
static COUNTER_LINES: [&[u8]; 9] = [
    b"main: frame = @1 changed count\n",
    b"main: dispose @1 = disposed\n",
    b"report: ran 1, calculated 0, reads 1, groups 2, nodes 1\n",
    b"#1 Text value=0\n",
    b"main: write @0 count 1 = changed\n",
    b"main: frame = @2 changed count\n",
    b"main: dispose @2 = disposed\n",
    b"report: ran 1, calculated 0, reads 1, groups 2, nodes 1\n",
    b"#1 Text value=1\n",
];

// The lines of the canonical text.
static CANONICAL_LINES: [&[u8]; 4] = [
    b"(compose 1)\n",
    b"(state count Int Structural 0)\n",
    b"(fun root () (node Text ((value (get count)))))\n",
    b"(do main (frame) (write global count 1) (frame))\n",
];

// Concatenates the first `count` lines.
fn first_lines(alloc: Global, lines: &[&[u8]], count: usize) -> Result<Vec<u8>, Fail> {
    let mut text = Vec::new(alloc);
    for line in lines.iter().take(count) {
        text.extend_from_slice(line)?;
    }
    Ok(text)
}

// Runs `play` on an empty plain world. Returns the status and the bytes that are written.
fn play_on_new<R: Threads + Wait + Sync>(
    rt: &R,
    alloc: Global,
    run: Run,
) -> Result<(Status, Vec<u8>), Fail> {
    let mut world = PlainWorld::<BuiltIn>::new(alloc)?;
    play_on(rt, alloc, &mut world, run, &OpenGate)
}

// Lets the write after the first `count` lines fail. Returns whether exactly these lines are written.
fn ends_after<R: Threads + Wait + Sync>(
    rt: &R,
    alloc: Global,
    word: &str,
    lines: &[&[u8]],
    count: usize,
) -> Result<bool, Fail> {
    let run = Run {
        word,
        input: COUNTER,
        failing_read: 0,
        failing_write: (count as u64).saturating_add(1),
        room: 4096,
    };
    let (status, written) = play_on_new(rt, alloc, run)?;
    Ok(status == Status::WriteFault && written == first_lines(alloc, lines, count)?)
}

// Each line reaches the sink as one piece.
#[test]
fn a_failing_write_leaves_the_lines_before_it(rt: HostRuntime) -> Result<(), Fail> {
    for count in 0..9 {
        assert!(rt; ends_after(&rt, rt.alloc(), "run", COUNTER_LINES.as_slice(), count)?);
    }
    for count in 0..4 {
        assert!(rt; ends_after(&rt, rt.alloc(), "check", CANONICAL_LINES.as_slice(), count)?);
    }
    Ok(())
}

// Lets a read fail. Returns whether nothing is written.
fn writes_nothing<R: Threads + Wait + Sync>(
    rt: &R,
    alloc: Global,
    failing_read: u64,
) -> Result<bool, Fail> {
    let run = Run {
        word: "run",
        input: COUNTER,
        failing_read,
        failing_write: 0,
        room: 4096,
    };
    let (status, written) = play_on_new(rt, alloc, run)?;
    Ok(status == Status::ReadFault && written.is_empty())
}

// The input is read in seven pieces, and the eighth read finds its end.
#[test]
fn a_failing_read_writes_nothing(rt: HostRuntime) -> Result<(), Fail> {
    for failing_read in 1..9 {
        assert!(rt; writes_nothing(&rt, rt.alloc(), failing_read)?);
    }
    Ok(())
}

// A sink that takes no byte is a write fault, although none of its calls fails.
#[test]
fn a_sink_without_room_is_a_write_fault(rt: HostRuntime) -> Result<(), Fail> {
    let run = Run {
        word: "run",
        input: COUNTER,
        failing_read: 0,
        failing_write: 0,
        room: 0,
    };
    let (status, written) = play_on_new(&rt, rt.alloc(), run)?;
    assert!(rt; status == Status::WriteFault);
    assert!(rt; written.is_empty());
    Ok(())
}
