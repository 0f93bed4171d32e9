// Actors of `threads` who take turns in an order that a gate fixes.
use crate::memory_runs::{Run, play_on};
use play_core::Status;
use rt_streams::Gate;
use snap_plain::PlainWorld;
use snap_policy::BuiltIn;
use std::alloc::Global;
use std::hint;
use std::sync::Wait;
use std::sync::atomic::AtomicBool;
use std::sync::atomic::Ordering::SeqCst;
use std::test::Fail;
use std::thread::Threads;

// The frame of actor c reads both states. Actor d writes one of them meanwhile.
const PAIR: &[u8] = b"(compose 1)
(state a Int Structural 1)
(state b Int Structural 10)
(fun root () (node Pair ((a (get a)) (b (get b)))))
(do c (frame))
(do d (write global b 11) (read global b))
";

// What actor a has written, actor b reads.
const WRITTEN: &[u8] = b"(compose 1)
(state x Int Structural 0)
(fun root ())
(do a (write global x 1) (read global x))
(do b (read global x))
";

// How often a gate looks before it gives up.
const LOOKS: usize = 100_000_000;

// A call of an actor: the actor, and the number of the call.
type Call = (usize, u64);

// Two calls, each of which waits until another one has come to the gate.
#[derive(Drop)]
struct OrderGate {
    waiting: [Call; 2],
    awaited: [Call; 2],
    first_came: AtomicBool,
    second_came: AtomicBool,
    given_up: AtomicBool,
}

impl OrderGate {
    fn new(waiting: [Call; 2], awaited: [Call; 2]) -> Self {
        OrderGate {
            waiting,
            awaited,
            first_came: AtomicBool::new(false),
            second_came: AtomicBool::new(false),
            given_up: AtomicBool::new(false),
        }
    }

    // Waits until the flag is set, for a limited time.
    fn wait_for(&self, came: &AtomicBool) {
        for _ in 0..LOOKS {
            if came.load(SeqCst) {
                return;
            }
            hint::spin_loop();
        }
        self.given_up.store(true, SeqCst);
    }
}

impl Gate for OrderGate {
    fn pass(&self, actor: usize, step: u64) {
        let call = (actor, step);
        if call == self.awaited[0] {
            self.first_came.store(true, SeqCst);
        }
        if call == self.awaited[1] {
            self.second_came.store(true, SeqCst);
        }
        if call == self.waiting[0] {
            self.wait_for(&self.first_came);
        }
        if call == self.waiting[1] {
            self.wait_for(&self.second_came);
        }
    }
}

// Returns whether a line is among the lines of a text.
fn has_line(text: &[u8], line: &[u8]) -> bool {
    text.split(|b| *b == b'\n').any(|it| it == line)
}

// Runs `threads` on an empty plain world and an input through a gate. Returns the status and the bytes that are
// written.
fn play_through<R: Threads + Wait + Sync>(
    rt: &R,
    alloc: Global,
    input: &[u8],
    gate: &OrderGate,
) -> Result<(Status, Vec<u8>), Fail> {
    let mut world = PlainWorld::<BuiltIn>::new(alloc)?;
    let run = Run {
        word: "threads",
        input,
        failing_read: 0,
        failing_write: 0,
        room: 4096,
    };
    play_on(rt, alloc, &mut world, run, gate)
}

// Runs `threads` on an input through a gate. Returns whether the run is done, no wait was given up, and these lines are
// written.
fn takes_turns<R: Threads + Wait + Sync>(
    rt: &R,
    alloc: Global,
    input: &[u8],
    gate: &OrderGate,
    lines: &[&[u8]],
) -> Result<bool, Fail> {
    let (status, written) = play_through(rt, alloc, input, gate)?;
    let is_done = status == Status::Done && !gate.given_up.load(SeqCst);
    Ok(is_done && lines.iter().all(|line| has_line(&written, line)))
}

// Inputs, with the calls that wait, the calls that they wait for, and lines of the run.
static TURNS: [(&[u8], [Call; 2], [Call; 2], &[&[u8]]); 2] = [
    (
        PAIR,
        [(1, 0), (0, 2)],
        [(0, 1), (1, 1)],
        &[
            b"c: frame = @1 changed a b",
            b"d: write @0 b 11 = changed",
            b"d: read @0 b = 11",
            b"#1 Pair a=1 b=10",
        ],
    ),
    (
        WRITTEN,
        [(1, 0), (1, 0)],
        [(0, 1), (0, 1)],
        &[b"a: write @0 x 1 = changed", b"b: read @0 x = 1"],
    ),
];

#[test]
fn actors_take_turns_as_the_gate_lets_them(rt: HostRuntime) -> Result<(), Fail> {
    for (input, waiting, awaited, lines) in TURNS.as_slice() {
        let gate = OrderGate::new(*waiting, *awaited);
        assert!(rt; takes_turns(&rt, rt.alloc(), input, &gate, lines)?);
    }
    Ok(())
}
