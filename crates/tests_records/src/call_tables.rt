// Tables of calls on both worlds, with the replies that copied maps give.

use self::Answer::{Applied, Changed, Disposed, Got, Refused, Same, Taken, TakenFor};
use self::Call::{Apply, Dispose, Read, Take, Write};
use self::Literal::{Bool, Int, Ints};
use rt_values::Kind::{Mutable, Readonly};
use rt_values::{IntList, Kind, Name, NoMemory, ObjectNo, Ty, Value};
use snap_api::{CLOCK_LIMIT, Refusal, Reply, Request, Versions, run_calls};
use snap_plain::PlainWorld;
use snap_policy::BuiltIn;
use snap_world::RecordWorld;
use std::alloc::Global;
use std::test::Fail;

/// A value as a table writes it.
#[derive(Clone, Copy)]
pub enum Literal {
    Int(i64),
    Bool(bool),
    Ints(&'static [i64]),
}

impl Literal {
    fn value(self, alloc: Global) -> Result<Value, NoMemory> {
        match self {
            Literal::Int(number) => Ok(Value::Int(number)),
            Literal::Bool(truth) => Ok(Value::Bool(truth)),
            Literal::Ints(items) => {
                let mut list = IntList::new(alloc)?;
                list.extend(items)?;
                Ok(Value::Ints(list))
            }
        }
    }

    // Whether a value is this one.
    fn is(self, value: &Value) -> bool {
        match (self, value) {
            (Literal::Int(number), Value::Int(other)) => number == *other,
            (Literal::Bool(truth), Value::Bool(other)) => truth == *other,
            (Literal::Ints(items), Value::Ints(other)) => items == other.items(),
            _ => false,
        }
    }
}

// A call as a table writes it.
#[derive(Clone, Copy)]
enum Call {
    Take(Name, Kind),
    TakeFor(u64),
    Read(Name, ObjectNo),
    Write(Name, ObjectNo, Literal),
    Apply(Name),
    Dispose(Name),
}

impl Call {
    fn request(self, alloc: Global) -> Result<Request, NoMemory> {
        let request = match self {
            Call::Take(parent, kind) => Request::Take { parent, kind },
            Call::TakeFor(watcher) => Request::TakeFor { watcher },
            Call::Read(name, object) => Request::Read { name, object },
            Call::Write(name, object, literal) => Request::Write {
                name,
                object,
                value: literal.value(alloc)?,
            },
            Call::Apply(name) => Request::Apply { name },
            Call::Dispose(name) => Request::Dispose { name },
        };
        Ok(request)
    }
}

// A reply as a table writes it.
#[derive(Clone, Copy)]
enum Answer {
    Taken(Name),
    TakenFor(Name, &'static [ObjectNo]),
    Got(Literal),
    Changed,
    Same,
    Applied,
    Disposed,
    Refused(Refusal),
}

impl Answer {
    // Whether a reply is this one.
    fn is(self, reply: &Reply) -> bool {
        match (self, reply) {
            (Answer::Taken(name), Reply::Taken(other)) => name == *other,
            (Answer::TakenFor(name, changed), Reply::TakenFor(other, objects)) => {
                name == *other && changed == objects.numbers()
            }
            (Answer::Got(literal), Reply::Got(value)) => literal.is(value),
            (Answer::Changed, Reply::Wrote { changed }) => *changed,
            (Answer::Same, Reply::Wrote { changed }) => !*changed,
            (Answer::Applied, Reply::Applied) => true,
            (Answer::Disposed, Reply::Disposed) => true,
            (Answer::Refused(refusal), Reply::Refused(other)) => refusal == *other,
            _ => false,
        }
    }
}

/// An object's type, policy and initial value.
pub type State = (Ty, BuiltIn, Literal);

// Calls with their callers and the expected replies, in a world at a clock with one
// watcher and these objects.
struct Row {
    what: &'static str,
    clock: u64,
    states: &'static [State],
    calls: &'static [(u64, Call, Answer)],
}

/// A number, which is 1.
pub const ONE: State = (Ty::Int, BuiltIn::Structural, Int(1));

const ZERO: State = (Ty::Int, BuiltIn::Structural, Int(0));

const TEN: State = (Ty::Int, BuiltIn::Counter, Int(10));

// Calls that both worlds answer alike.
static ROWS: [Row; 17] = [
    // Changes that conflict.
    Row {
        what: "a snapshot keeps what it was taken with, and conflicts with a later change",
        clock: 0,
        states: &[ONE],
        calls: &[
            (0, Take(0, Mutable), Taken(1)),
            (0, Read(1, 0), Got(Int(1))),
            (0, Write(0, 0, Int(2)), Changed),
            (0, Read(1, 0), Got(Int(1))),
            (0, Write(1, 0, Int(3)), Changed),
            (0, Read(1, 0), Got(Int(3))),
            (0, Read(0, 0), Got(Int(2))),
            (0, Apply(1), Refused(Refusal::Conflict { object: 0 })),
            (0, Dispose(1), Disposed),
        ],
    },
    Row {
        what: "a value that came back counts as changed",
        clock: 0,
        states: &[ONE],
        calls: &[
            (0, Take(0, Mutable), Taken(1)),
            (0, Write(0, 0, Int(2)), Changed),
            (0, Write(0, 0, Int(1)), Changed),
            (0, Write(1, 0, Int(5)), Changed),
            (0, Apply(1), Refused(Refusal::Conflict { object: 0 })),
        ],
    },
    Row {
        what: "with a conflict nothing is applied, and a second dispose answers as the first",
        clock: 0,
        states: &[ZERO, ZERO],
        calls: &[
            (0, Take(0, Mutable), Taken(1)),
            (0, Write(1, 0, Int(5)), Changed),
            (0, Write(1, 1, Int(6)), Changed),
            (0, Write(0, 1, Int(1)), Changed),
            (0, Apply(1), Refused(Refusal::Conflict { object: 1 })),
            (0, Read(0, 0), Got(Int(0))),
            (0, Read(1, 0), Got(Int(5))),
            (0, Dispose(1), Disposed),
            (0, Dispose(1), Disposed),
        ],
    },
    Row {
        what: "the conflict with the least object is reported",
        clock: 0,
        states: &[ZERO, ZERO],
        calls: &[
            (0, Take(0, Mutable), Taken(1)),
            (0, Write(1, 1, Int(6)), Changed),
            (0, Write(1, 0, Int(5)), Changed),
            (0, Write(0, 1, Int(1)), Changed),
            (0, Write(0, 0, Int(1)), Changed),
            (0, Apply(1), Refused(Refusal::Conflict { object: 0 })),
        ],
    },
    Row {
        what: "changes of an object that is never equal conflict",
        clock: 0,
        states: &[(Ty::Int, BuiltIn::Never, Int(0))],
        calls: &[
            (0, Take(0, Mutable), Taken(1)),
            (0, Take(1, Mutable), Taken(2)),
            (0, Write(1, 0, Int(1)), Changed),
            (0, Write(2, 0, Int(2)), Changed),
            (0, Apply(2), Refused(Refusal::Conflict { object: 0 })),
        ],
    },
    // Changes that are merged.
    Row {
        what: "two additions to a counter add up",
        clock: 0,
        states: &[TEN],
        calls: &[
            (0, Take(0, Mutable), Taken(1)),
            (0, Take(0, Mutable), Taken(2)),
            (0, Read(1, 0), Got(Int(10))),
            (0, Write(1, 0, Int(11)), Changed),
            (0, Read(2, 0), Got(Int(10))),
            (0, Write(2, 0, Int(15)), Changed),
            (0, Apply(1), Applied),
            (0, Apply(2), Applied),
            (0, Read(0, 0), Got(Int(16))),
        ],
    },
    Row {
        what: "a counter wraps",
        clock: 0,
        states: &[(Ty::Int, BuiltIn::Counter, Int(9223372036854775807))],
        calls: &[
            (0, Take(0, Mutable), Taken(1)),
            (0, Take(0, Mutable), Taken(2)),
            (0, Write(1, 0, Int(-9223372036854775808)), Changed),
            (0, Write(2, 0, Int(-9223372036854775804)), Changed),
            (0, Apply(1), Applied),
            (0, Apply(2), Applied),
            (0, Read(0, 0), Got(Int(-9223372036854775803))),
        ],
    },
    Row {
        what: "equal values keep the parent's, in a counter too",
        clock: 0,
        states: &[TEN],
        calls: &[
            (0, Take(0, Mutable), Taken(1)),
            (0, Take(0, Mutable), Taken(2)),
            (0, Write(1, 0, Int(11)), Changed),
            (0, Write(2, 0, Int(11)), Changed),
            (0, Apply(1), Applied),
            (0, Apply(2), Applied),
            (0, Read(0, 0), Got(Int(11))),
        ],
    },
    Row {
        what: "a kept value keeps its stamp",
        clock: 0,
        states: &[ZERO],
        calls: &[
            (0, Take(0, Mutable), Taken(1)),
            (0, Take(0, Mutable), Taken(2)),
            (0, Write(1, 0, Int(7)), Changed),
            (0, Write(2, 0, Int(7)), Changed),
            (0, Apply(1), Applied),
            (0, Take(0, Mutable), Taken(3)),
            (0, Write(3, 0, Int(9)), Changed),
            (0, Apply(2), Applied),
            (0, Apply(3), Applied),
            (0, Read(0, 0), Got(Int(9))),
        ],
    },
    Row {
        what: "the largest of two values stays",
        clock: 0,
        states: &[(Ty::Int, BuiltIn::Largest, Int(0))],
        calls: &[
            (0, Take(0, Mutable), Taken(1)),
            (0, Take(1, Mutable), Taken(2)),
            (0, Write(1, 0, Int(5)), Changed),
            (0, Write(2, 0, Int(3)), Changed),
            (0, Apply(2), Applied),
            (0, Read(1, 0), Got(Int(5))),
        ],
    },
    Row {
        what: "what two snapshots append is concatenated, and a replacement conflicts",
        clock: 0,
        states: &[(Ty::Ints, BuiltIn::Append, Ints(&[1]))],
        calls: &[
            (0, Take(0, Mutable), Taken(1)),
            (0, Take(0, Mutable), Taken(2)),
            (0, Take(0, Mutable), Taken(3)),
            (0, Write(1, 0, Ints(&[1, 2])), Changed),
            (0, Write(2, 0, Ints(&[1, 3])), Changed),
            (0, Write(3, 0, Ints(&[9])), Changed),
            (0, Apply(1), Applied),
            (0, Apply(2), Applied),
            (0, Apply(3), Refused(Refusal::Conflict { object: 0 })),
            (0, Read(0, 0), Got(Ints(&[1, 2, 3]))),
        ],
    },
    // What snapshots show, and what writes and takes for a watcher answer.
    Row {
        what: "a nested snapshot is applied to its parent",
        clock: 0,
        states: &[ZERO],
        calls: &[
            (0, Take(0, Mutable), Taken(1)),
            (0, Take(1, Mutable), Taken(2)),
            (0, Write(2, 0, Int(4)), Changed),
            (0, Read(1, 0), Got(Int(0))),
            (0, Apply(2), Applied),
            (0, Read(1, 0), Got(Int(4))),
            (0, Apply(1), Applied),
            (0, Read(0, 0), Got(Int(4))),
        ],
    },
    Row {
        what: "a snapshot whose parent was disposed reads on and is not applied",
        clock: 0,
        states: &[ZERO],
        calls: &[
            (0, Take(0, Mutable), Taken(1)),
            (0, Write(1, 0, Int(1)), Changed),
            (0, Take(1, Mutable), Taken(2)),
            (0, Dispose(1), Disposed),
            (0, Write(0, 0, Int(2)), Changed),
            (0, Write(0, 0, Int(3)), Changed),
            (0, Write(0, 0, Int(4)), Changed),
            (0, Read(2, 0), Got(Int(1))),
            (0, Apply(2), Refused(Refusal::ParentClosed)),
            (0, Read(0, 0), Got(Int(4))),
        ],
    },
    Row {
        what: "an equal write changes nothing, and one that is never equal always does",
        clock: 0,
        states: &[ZERO, (Ty::Int, BuiltIn::Never, Int(0))],
        calls: &[
            (0, Write(0, 0, Int(0)), Same),
            (0, Write(0, 1, Int(0)), Changed),
        ],
    },
    Row {
        what: "a watcher lists what changed since its last take",
        clock: 0,
        states: &[ZERO, ZERO],
        calls: &[
            (0, Call::TakeFor(0), TakenFor(1, &[0, 1])),
            (0, Call::TakeFor(0), TakenFor(2, &[])),
            (0, Write(0, 1, Int(1)), Changed),
            (0, Write(0, 1, Int(0)), Changed),
            (0, Call::TakeFor(0), TakenFor(3, &[1])),
        ],
    },
    // Calls that are refused.
    Row {
        what: "each refusal has its cause",
        clock: 0,
        states: &[ZERO],
        calls: &[
            (0, Take(0, Readonly), Taken(1)),
            (0, Write(1, 0, Int(1)), Refused(Refusal::ReadOnly)),
            (0, Take(1, Mutable), Refused(Refusal::ReadOnly)),
            (0, Apply(0), Refused(Refusal::Global)),
            (1, Dispose(1), Refused(Refusal::NotYours { owner: 0 })),
            (0, Read(1, 0), Got(Int(0))),
            (
                0,
                Write(18446744073709551615, 0, Int(1)),
                Refused(Refusal::Closed {
                    name: 18446744073709551615,
                }),
            ),
            (
                0,
                Write(0, 0, Bool(true)),
                Refused(Refusal::WrongType { kept: Ty::Int }),
            ),
            (0, Read(1, 1), Refused(Refusal::UnknownObject)),
            (0, Write(1, 1, Bool(true)), Refused(Refusal::UnknownObject)),
            (0, Write(1, 0, Bool(true)), Refused(Refusal::ReadOnly)),
            (0, Apply(1), Refused(Refusal::ReadOnly)),
            (0, Dispose(2), Refused(Refusal::Closed { name: 2 })),
            (0, Dispose(0), Refused(Refusal::Global)),
            (0, Call::TakeFor(1), Refused(Refusal::UnknownWatcher)),
        ],
    },
    Row {
        what: "at its last value the clock lets nothing be taken, written or applied",
        clock: CLOCK_LIMIT - 1,
        states: &[ZERO],
        calls: &[
            (0, Take(0, Mutable), Taken(1)),
            (0, Write(1, 0, Int(1)), Refused(Refusal::Spent)),
            (0, Apply(1), Refused(Refusal::Spent)),
            (0, Take(0, Mutable), Refused(Refusal::Spent)),
            (0, Call::TakeFor(0), Refused(Refusal::Spent)),
            (0, Read(1, 0), Got(Int(0))),
            (0, Dispose(1), Disposed),
        ],
    },
];

// Makes an object. Returns whether that succeeds.
fn makes<V: Versions<P = BuiltIn>>(alloc: Global, world: &mut V, state: &State) -> bool {
    let (ty, policy, initial) = *state;
    match initial.value(alloc) {
        Ok(value) => world.objects() < 65536 && world.make(alloc, ty, policy, value).is_ok(),
        Err(_) => false,
    }
}

/// Makes one watcher and these objects. Returns whether that succeeds.
pub fn make_objects<V: Versions<P = BuiltIn>>(
    alloc: Global,
    world: &mut V,
    states: &[State],
) -> bool {
    let mut is_made = world.watchers() < 65536 && world.watch(alloc).is_ok();
    for state in states {
        is_made = makes(alloc, world, state) && is_made;
    }
    is_made
}

// The calls of a row, each with its caller.
fn calls_of(alloc: Global, row: &Row) -> Result<Vec<(u64, Request)>, NoMemory> {
    let mut calls = Vec::new(alloc);
    for (caller, call, _) in row.calls {
        calls.push((*caller, call.request(alloc)?))?;
    }
    Ok(calls)
}

// Whether these are the replies that a row expects.
fn are_expected(replies: &[Reply], row: &Row) -> bool {
    replies.len() == row.calls.len()
        && replies
            .iter()
            .zip(row.calls)
            .all(|(reply, (_, _, answer))| answer.is(reply))
}

// Makes the calls of a row. Returns whether the replies are those that it expects.
fn are_answered<V: Versions>(alloc: Global, world: &mut V, row: &Row) -> bool {
    let Ok(calls) = calls_of(alloc, row) else {
        return false;
    };
    match run_calls(alloc, world, &calls) {
        Ok(replies) => are_expected(&replies, row),
        Err(_) => false,
    }
}

// Whether copied maps give the replies of a row.
fn maps_reply(alloc: Global, row: &Row) -> bool {
    if row.clock > CLOCK_LIMIT {
        return false;
    }
    match PlainWorld::<BuiltIn>::starting_at(alloc, row.clock) {
        Ok(mut world) => {
            make_objects(alloc, &mut world, row.states) && are_answered(alloc, &mut world, row)
        }
        Err(_) => false,
    }
}

// Whether records give the replies of a row.
fn records_reply(alloc: Global, row: &Row) -> bool {
    if row.clock > CLOCK_LIMIT {
        return false;
    }
    match RecordWorld::<BuiltIn>::starting_at(alloc, row.clock) {
        Ok(mut world) => {
            make_objects(alloc, &mut world, row.states) && are_answered(alloc, &mut world, row)
        }
        Err(_) => false,
    }
}

#[test]
fn calls_get_the_replies_of_copied_maps(rt: HostRuntime) -> Result<(), Fail> {
    for row in ROWS.as_slice() {
        assert!(rt; maps_reply(rt.alloc(), row), "{}", row.what);
        assert!(rt; records_reply(rt.alloc(), row), "{}", row.what);
    }
    Ok(())
}
