// Frames through a seat, while another thread writes.
ghost use Rattle.std.specs.Prelude.{◌≡◌, ◌<◌, ◌∷◌, [], IfOk};
ghost use Rattle.lang_ast.specs.SyntaxView.{stmt_view, functions_view};
ghost use Rattle.lang_ast.specs.Programs.{program_view};
ghost use Rattle.lang_checks.specs.Numbers.{IsNumberedProgram};
ghost use Rattle.snap_shared.specs.Seats.{IsSeat};
ghost use Rattle.tests_shared.specs.CounterProgram.{ident, counter_states, key_statement, counter_functions};

use crate::fixture::{World, counter_world, history_of, two_seats, write};
use lang_ast::{Expression, Function, Head, Ident, Program, Source, State, Statement, Version};
use lang_checks::{Checked, check};
use node_tree::UnitApplier;
use recompose_seats::{begin_among, finish_among, frame_among};
use recomposer::{Begun, Composition, FrameStop};
use rt_groups::{GroupKind, Report};
use rt_streams::OpenGate;
use rt_values::{Steps, Ty, Value, Word};
use slot_table::Table;
use snap_api::{Entry, Request, Versions};
use snap_policy::BuiltIn;
use snap_shared::{Seat, SeatView, Shared};
use std::alloc::Global;
use std::marker::Brand;
use std::sync::Wait;
use std::sync::ledger::{Blank, Ledger};
use std::test::Fail;
use std::thread::{self, Threads};

const FRAMES: u64 = 200;

const WRITES: i64 = 2000;

// Returns the identifier with these letters.
fn ident(alloc: Global, name: &[u8]) -> Result<Ident, Fail>
    ensures { IfOk result (λ n. n ≡ ident name.now) }
{
    let text = Word::of(alloc, name)?;
    Ok(Ident { at: 0, text })
}

// Returns the statement `(key (get total))`.
#[tactic(auto, using(crate::proofs::Parts::parts))]
fn key_statement(alloc: Global) -> Result<Statement, Fail>
    ensures { IfOk result (λ s. stmt_view s ≡ key_statement) }
{
    let name = ident(alloc, b"total")?;
    let key = Expression::Get {
        at: 0,
        name,
        source: Source::State(0),
    };
    Ok(Statement::Block {
        at: 0,
        site: 1,
        head: Head::Key { key },
        body: Vec::new(alloc),
    })
}

// Returns the state `(state total Int Counter 0)`.
fn counter_states(alloc: Global) -> Result<Vec<State>, Fail>
    ensures { IfOk result (λ v. v.items ≡ counter_states) }
{
    let total = State {
        at: 0,
        name: ident(alloc, b"total")?,
        ty: Ty::Int,
        policy: BuiltIn::Counter,
        initial: Value::Int(0),
    };
    Ok(vec![in alloc; total]?)
}

// Returns the function `(fun root () (key (get total)))`.
fn counter_functions(alloc: Global) -> Result<Vec<Function>, Fail>
    ensures { IfOk result (λ v. functions_view v.items ≡ counter_functions) }
{
    let root = Function {
        at: 0,
        name: ident(alloc, b"root")?,
        parameters: Vec::new(alloc),
        body: vec![in alloc; key_statement(alloc)?]?,
    };
    Ok(vec![in alloc; root]?)
}

// Returns the program `(compose 1) (state total Int Counter 0) (fun root () (key (get total)))`.
fn counter_program(alloc: Global) -> Result<Program, Fail>
    ensures { IfOk result (λ p. IsNumberedProgram (program_view p)) }
{
    let states = counter_states(alloc)?;
    let functions = counter_functions(alloc)?;
    Ok(Program {
        header: 0,
        version: Version::One,
        states,
        functions,
    })
}

fn checked_program(alloc: Global) -> Result<Checked, Fail> {
    let program = counter_program(alloc)?;
    Ok(check(alloc, program)?)
}

// Returns the number in the root's group with a key, or -1 without such a group.
fn shown_number(table: &Table) -> i64 {
    if table.len() < 2 {
        return -1;
    }
    match table.kind(1) {
        GroupKind::Key(Value::Int(number)) => *number,
        _ => -1,
    }
}

// Makes a frame through the seat. `blank` is the ledger of the steps, which no test reads.
fn frame_counting<R: Wait, W: Versions + Drop, L: Ledger>(
    rt: &R,
    alloc: Global,
    shared: &Shared<W>,
    seat: Seat<W>,
    step: u64,
    composition: &mut Composition,
    blank: Blank,
) -> (Seat<W>, u64, Result<Report, FrameStop>)
    requires seat { IsSeat shared.now seat }
    requires name { blank.name ≡ L.name }
    requires parts { blank.parts ≡ L.parts }
    requires some { 0 < L.parts }
    ensures { IsSeat shared.now result.0 }
{
    let (book, share) = blank.open();
    let mut steps: Steps<L> = Steps::new(book, share);
    let view = SeatView::new(rt, shared, seat, &OpenGate, step, None);
    let mut applier = UnitApplier;
    frame_among(view, alloc, composition, &mut applier, &mut steps)
}

// Makes a frame through the seat, and appends the number that it shows, unless it fails. Returns the seat and the
// number of its next call at the gate.
fn make_frame<R: Wait, W: Versions + Drop>(
    rt: &R,
    alloc: Global,
    shared: &Shared<W>,
    seat: Seat<W>,
    step: u64,
    composition: &mut Composition,
    numbers: &mut Vec<i64>,
) -> (Seat<W>, u64)
    requires { IsSeat shared.now seat }
    ensures { IsSeat shared.now result.0 }
{
    let (seat, step, outcome) = frame_counting::<R, W, Brand>(
        rt,
        alloc,
        shared,
        seat,
        step,
        composition,
        Blank::new(1),
    );
    if outcome.is_ok() {
        let _ = numbers.push(shown_number(composition.table()));
    }
    (seat, step)
}

// Makes frames of a composition through the seat. Returns the seat with the number that each frame shows.
fn make_frames<R: Wait, W: Versions + Drop>(
    rt: &R,
    alloc: Global,
    shared: &Shared<W>,
    seat: Seat<W>,
    composition: &mut Composition,
) -> (Seat<W>, Vec<i64>)
    requires { IsSeat shared.now seat }
    ensures { IsSeat shared.now result.0 }
{
    let mut numbers = Vec::new(alloc);
    let mut held = seat;
    let mut step = 0;
    for _ in 0..FRAMES {
        let (next, after) = make_frame(rt, alloc, shared, held, step, composition, &mut numbers);
        held = next;
        step = after;
    }
    (held, numbers)
}

// Makes frames of the composition through the seat. Returns the seat with the number that each frame shows.
fn frames_of<R: Wait, W: Versions + Drop>(
    rt: &R,
    alloc: Global,
    shared: &Shared<W>,
    seat: Seat<W>,
    composition: Composition<'_>,
) -> (Seat<W>, Vec<i64>)
    requires { IsSeat shared.now seat }
    ensures { IsSeat shared.now result.0 }
{
    let mut composition = composition;
    let made = make_frames(rt, alloc, shared, seat, &mut composition);
    drop(composition);
    made
}

// Makes frames of the program through the seat. Returns the seat with the number that each frame shows.
fn compose_frames<R: Wait, W: Versions + Drop>(
    rt: &R,
    alloc: Global,
    shared: &Shared<W>,
    seat: Seat<W>,
    program: &Checked,
) -> (Seat<W>, Vec<i64>)
    requires { IsSeat shared.now seat }
    ensures { IsSeat shared.now result.0 }
{
    match Composition::new(alloc, program, 0) {
        Ok(composition) => frames_of(rt, alloc, shared, seat, composition),
        Err(_) => (seat, Vec::new(alloc)),
    }
}

// Writes the numbers 1 to `WRITES` to the counter in global, one after another.
fn write_numbers<R: Wait, W: Versions + Drop>(
    rt: &R,
    alloc: Global,
    shared: &Shared<W>,
    seat: Seat<W>,
) -> Seat<W>
    requires { IsSeat shared.now seat }
    ensures { IsSeat shared.now result }
{
    let mut held = seat;
    for number in 0..WRITES {
        shared.call(rt, alloc, &mut held, write(number.wrapping_add(1)));
    }
    held
}

// Lets one seat write in another thread while the other seat's composition makes its frames in this one.
fn compose_while_writing<R: Threads + Wait + Sync>(
    rt: &R,
    alloc: Global,
    shared: &Shared<World>,
    writer: Seat<World>,
    reader: Seat<World>,
    program: &Checked,
) -> (Seat<World>, Seat<World>, Vec<i64>)
    requires writer { IsSeat shared.now writer }
    requires reader { IsSeat shared.now reader }
    ensures writer { IsSeat shared.now result.0 }
    ensures reader { IsSeat shared.now result.1 }
{
    let (writer, (reader, shown)) = thread::join(
        rt,
        || write_numbers(rt, alloc, shared, writer),
        || compose_frames(rt, alloc, shared, reader, program),
    );
    (writer, reader, shown)
}

// Composes frames of a program while another seat writes. Returns the numbers that the frames show, and the history.
fn history_while_writing<R: Threads + Wait + Sync>(
    rt: &R,
    alloc: Global,
    program: &Checked,
) -> Result<(Vec<i64>, Vec<Entry>), Fail> {
    let (shared, writer, reader) = two_seats(rt, alloc, counter_world(alloc)?)?;
    let (writer, reader, shown) = compose_while_writing(
        rt, alloc, &shared, writer, reader, program,
    );
    let history = history_of(alloc, shared, writer, reader)?;
    Ok((shown, history))
}

// Composes frames of the program of the counter while another seat writes.
fn frames_while_writing<R: Threads + Wait + Sync>(
    rt: &R,
    alloc: Global,
) -> Result<(Vec<i64>, Vec<Entry>), Fail> {
    let program = checked_program(alloc)?;
    history_while_writing(rt, alloc, &program)
}

// Lists the number in global at each take of a frame, and then the last one.
fn numbers_at_takes(alloc: Global, history: &[Entry]) -> Result<Vec<i64>, Fail> {
    let mut numbers = Vec::new(alloc);
    let mut global = 0;
    for entry in history {
        match &entry.request {
            Request::Write {
                value: Value::Int(number),
                ..
            } => global = *number,
            Request::TakeFor { .. } => numbers.push(global)?,
            _ => {}
        }
    }
    numbers.push(global)?;
    Ok(numbers)
}

#[test]
fn each_frame_shows_the_value_at_its_take(rt: HostRuntime) -> Result<(), Fail> {
    let alloc = rt.alloc();
    let (mut shown, history) = frames_while_writing(&rt, alloc)?;
    assert!(rt; shown.len() == 200);
    shown.push(WRITES)?;
    assert!(rt; shown == numbers_at_takes(alloc, &history)?);
    Ok(())
}

// Begins a frame through the seat. Returns the seat with the number of its next call at the gate, and the begun frame.
fn begin_frame<R: Wait, W: Versions + Drop>(
    rt: &R,
    alloc: Global,
    shared: &Shared<W>,
    seat: Seat<W>,
    composition: &mut Composition,
) -> (Seat<W>, u64, Result<Begun, FrameStop>)
    requires { IsSeat shared.now seat }
    ensures { IsSeat shared.now result.0 }
{
    let view = SeatView::new(rt, shared, seat, &OpenGate, 0, None);
    begin_among(view, alloc, composition)
}

// Ends a frame through the seat. `blank` is the ledger of the steps, which no test reads.
fn finish_counting<R: Wait, W: Versions + Drop, L: Ledger>(
    rt: &R,
    alloc: Global,
    shared: &Shared<W>,
    seat: Seat<W>,
    begun: Begun,
    composition: &mut Composition,
    blank: Blank,
) -> (Seat<W>, u64, Result<Report, FrameStop>)
    requires seat { IsSeat shared.now seat }
    requires name { blank.name ≡ L.name }
    requires parts { blank.parts ≡ L.parts }
    requires some { 0 < L.parts }
    ensures { IsSeat shared.now result.0 }
{
    let (book, share) = blank.open();
    let mut steps: Steps<L> = Steps::new(book, share);
    let view = SeatView::new(rt, shared, seat, &OpenGate, 0, Some(begun.name));
    finish_among(
        view,
        alloc,
        composition,
        begun,
        &mut UnitApplier,
        &mut steps,
    )
}

// Ends a frame through the seat, unless it did not begin. Returns the seat with the number that the frame shows.
fn finish_frame<R: Wait, W: Versions + Drop>(
    rt: &R,
    alloc: Global,
    shared: &Shared<W>,
    seat: Seat<W>,
    begun: Result<Begun, FrameStop>,
    composition: &mut Composition,
) -> (Seat<W>, i64)
    requires { IsSeat shared.now seat }
    ensures { IsSeat shared.now result.0 }
{
    let Ok(begun) = begun else {
        return (seat, -1);
    };
    let (seat, _, outcome) = finish_counting::<R, W, Brand>(
        rt,
        alloc,
        shared,
        seat,
        begun,
        composition,
        Blank::new(1),
    );
    let number = if outcome.is_ok() {
        shown_number(composition.table())
    } else {
        -1
    };
    (seat, number)
}

// Begins a frame of the composition, writes through the other seat, and ends the frame. Returns both seats with the
// number that the frame shows.
fn frame_around_writes<R: Wait, W: Versions + Drop>(
    rt: &R,
    alloc: Global,
    shared: &Shared<W>,
    writer: Seat<W>,
    reader: Seat<W>,
    composition: &mut Composition,
) -> (Seat<W>, Seat<W>, i64)
    requires writer { IsSeat shared.now writer }
    requires reader { IsSeat shared.now reader }
    ensures writer { IsSeat shared.now result.0 }
    ensures reader { IsSeat shared.now result.1 }
{
    let (reader, _, begun) = begin_frame(rt, alloc, shared, reader, composition);
    let writer = write_numbers(rt, alloc, shared, writer);
    let (reader, number) = finish_frame(rt, alloc, shared, reader, begun, composition);
    (writer, reader, number)
}

#[test]
fn a_frame_in_two_parts_shows_the_value_at_its_take(rt: HostRuntime) -> Result<(), Fail> {
    let alloc = rt.alloc();
    let program = checked_program(alloc)?;
    let mut composition = Composition::new(alloc, &program, 0)?;
    let (shared, writer, reader) = two_seats(&rt, alloc, counter_world(alloc)?)?;
    let (writer, reader, first) = frame_around_writes(
        &rt,
        alloc,
        &shared,
        writer,
        reader,
        &mut composition,
    );
    let (writer, reader, second) = frame_around_writes(
        &rt,
        alloc,
        &shared,
        writer,
        reader,
        &mut composition,
    );
    let history = history_of(alloc, shared, writer, reader)?;
    drop(composition);
    assert!(rt; first == 0);
    assert!(rt; second == WRITES);
    assert!(rt; history.len() == 4006);
    Ok(())
}
