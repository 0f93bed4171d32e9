// Lines of calls.
ghost use Rattle.std.specs.Prelude.{◌≡◌, ◌≤◌, ◌<◌, ◌+◌, ◌%◌, ◌++◌, ◌∷◌, [], List, ℕ, OnOk, OnErr, codes, length, vec_len, vec_capacity};
ghost use Rattle.std.specs.Fmt.{decimal};
ghost use Rattle.rt_values.specs.Values.{value_text};
ghost use Rattle.rt_values.specs.Keywords.{kind_word};
ghost use Rattle.script_lang.specs.LastDigits.{last_two_digits};
ghost use Rattle.script_lang.specs.Lines.{Titles, titles_of, actor_name, state_name, state_names, snapshot, snapshot_number_text, request_text, refusal_text, reply_text, call_text, entry_line, line};

use itoa::Buffer;
use lang_ast::State;
use lang_checks::Checked;
use lang_script::{NEVER_TAKEN, Script};
use rt_values::{Caller, Kind, Name, NoMemory, ObjectNo, Value, Word};
use snap_api::{Entry, Refusal, Reply, Request};

// Appends `piece`. A piece of known length is copied without a call.
#[inline(always)]
pub fn add(text: &mut Vec<u8>, piece: &[u8]) -> Result<(), NoMemory>
    ensures { OnOk result (text.new.items ≡ text.old.items ++ piece.now) }
{
    text.extend_from_slice(piece)?;
    Ok(())
}

// Passes on whether a line was appended. If it was not, the line buffer `text` becomes empty.
#[inline(always)]
pub fn or_empty(text: &mut Vec<u8>, done: Result<(), NoMemory>) -> Result<(), NoMemory>
    ensures same { result ≡ done }
    ensures ok { OnOk result (text.new ≡ text.old) }
    ensures err { OnErr result (text.new.items ≡ []) }
{
    if done.is_err() {
        text.clear();
    }
    done
}

// Appends the decimal digits of `number`.
#[inline(always)]
#[tactic(auto, using(crate::proofs::Texts::one_digit))]
pub fn add_number(text: &mut Vec<u8>, number: u64) -> Result<(), NoMemory>
    ensures { OnOk result (text.new.items ≡ text.old.items ++ decimal number) }
{
    if number < 10 {
        text.push(b'0' + number as u8)?;
        return Ok(());
    }
    add_digits(text, number)
}

// Returns the last decimal digit of a number.
#[inline(always)]
fn last_digit(number: u64) -> u8
    ensures { result ≡ 48 + number % 10 }
{
    b'0' + (number % 10) as u8
}

// Appends the last two decimal digits of a number, for which there is capacity.
#[inline(always)]
#[tactic(auto, using(crate::proofs::Texts::joins))]
fn put_last_two(text: &mut Vec<u8>, number: u64)
    requires { vec_len text.old + 2 ≤ vec_capacity text.old }
    ensures items { text.new.items ≡ text.old.items ++ last_two_digits number }
    ensures len { vec_len text.new ≡ vec_len text.old + 2 }
    ensures capacity { vec_capacity text.new ≡ vec_capacity text.old }
{
    text.push_reserved(last_digit(number / 10));
    text.push_reserved(last_digit(number));
}

// Appends the decimal digits of a number below 100, for which there is capacity.
#[inline(always)]
#[tactic(auto, using(crate::proofs::Texts::joins, crate::proofs::Digits::only_digit, crate::proofs::Digits::two_digits))]
fn put_one_or_two(text: &mut Vec<u8>, number: u64)
    requires few { number < 100 }
    requires room { vec_len text.old + 2 ≤ vec_capacity text.old }
    ensures items { text.new.items ≡ text.old.items ++ decimal number }
    ensures len { vec_len text.new ≤ vec_len text.old + 2 }
    ensures capacity { vec_capacity text.new ≡ vec_capacity text.old }
{
    if number < 10 {
        text.push_reserved(last_digit(number));
    } else {
        put_last_two(text, number);
    }
}

// Appends the decimal digits of a number below 10,000, for which there is capacity.
#[inline(always)]
#[tactic(auto, using(crate::proofs::Texts::joins, crate::proofs::Digits::two_more))]
fn put_few_digits(text: &mut Vec<u8>, number: u64)
    requires few { number < 10000 }
    requires room { vec_len text.old + 4 ≤ vec_capacity text.old }
    ensures items { text.new.items ≡ text.old.items ++ decimal number }
    ensures len { vec_len text.new ≤ vec_len text.old + 4 }
    ensures capacity { vec_capacity text.new ≡ vec_capacity text.old }
{
    if number < 100 {
        put_one_or_two(text, number);
    } else {
        put_one_or_two(text, number / 100);
        put_last_two(text, number);
    }
}

// Appends the decimal digits of a number with several digits. Most numbers are small, and need no buffer.
#[tactic(auto, using(crate::proofs::Texts::joins, crate::proofs::Digits::four_more))]
fn add_digits(text: &mut Vec<u8>, number: u64) -> Result<(), NoMemory>
    ensures { OnOk result (text.new.items ≡ text.old.items ++ decimal number) }
{
    if number >= 100000000 {
        return add_many_digits(text, number);
    }
    text.reserve(8)?;
    if number < 10000 {
        put_few_digits(text, number);
    } else {
        put_few_digits(text, number / 10000);
        put_last_two(text, number / 100);
        put_last_two(text, number);
    }
    Ok(())
}

// Appends the decimal digits of any number.
#[inline(never)]
fn add_many_digits(text: &mut Vec<u8>, number: u64) -> Result<(), NoMemory>
    ensures { OnOk result (text.new.items ≡ text.old.items ++ decimal number) }
{
    let mut buffer = Buffer::new();
    let digits = buffer.format(number).as_bytes();
    text.reserve(digits.len())?;
    put_bytes(text, digits);
    Ok(())
}

// Appends bytes, for which there is capacity. Most names have few bytes, which a loop copies faster than a call does.
#[inline(always)]
pub fn put_bytes(text: &mut Vec<u8>, bytes: &[u8])
    requires { vec_len text.old + length bytes.now ≤ vec_capacity text.old }
    ensures items { text.new.items ≡ text.old.items ++ bytes.now }
    ensures len { vec_len text.new ≡ vec_len text.old + length bytes.now }
    ensures capacity { vec_capacity text.new ≡ vec_capacity text.old }
{
    for byte in bytes {
        text.push_reserved(*byte);
    }
}

/// Appends a name.
#[inline(always)]
pub fn add_name(text: &mut Vec<u8>, name: &Word) -> Result<(), NoMemory>
    ensures { OnOk result (text.new.items ≡ text.old.items ++ name.now) }
{
    let bytes = name.bytes();
    text.reserve(bytes.len())?;
    put_bytes(text, bytes);
    Ok(())
}

// Appends the name of a state.
#[inline(always)]
fn add_state(text: &mut Vec<u8>, states: &[State], x: ObjectNo) -> Result<(), NoMemory>
    ensures { OnOk result (text.new.items ≡ text.old.items ++ state_name states.now x) }
{
    match states.get(x as usize) {
        Some(state) => add_name(text, &state.name.text),
        None => Ok(()),
    }
}

// Appends the name of an actor.
#[inline(always)]
fn add_actor(text: &mut Vec<u8>, actors: &[Word], number: Caller) -> Result<(), NoMemory>
    ensures { OnOk result (text.new.items ≡ text.old.items ++ actor_name actors.now number) }
{
    match actors.get(number as usize) {
        Some(name) => add_name(text, name),
        None => Ok(()),
    }
}

// Appends the names of the states, each after a blank.
#[tactic(auto, using(crate::proofs::Texts::joins))]
fn add_states(text: &mut Vec<u8>, states: &[State], numbers: &[ObjectNo]) -> Result<(), NoMemory>
    ensures { OnOk result (text.new.items ≡ text.old.items ++ state_names states.now numbers.now) }
{
    let mut rest = numbers;
    while let Some((x, more)) = rest.split_first() {
        add(text, b" ")?;
        add_state(text, states, *x)?;
        rest = more;
    }
    Ok(())
}

// Appends `words`, which end with @, and the number of a snapshot.
#[inline(always)]
#[tactic(auto, using(crate::proofs::Texts::joins))]
fn add_named(text: &mut Vec<u8>, words: &[u8], name: Name) -> Result<(), NoMemory>
    ensures { OnOk result (text.new.items ≡ text.old.items ++ (words.now ++ snapshot_number_text name)) }
{
    add(text, words)?;
    if name == NEVER_TAKEN {
        return add(text, b"-");
    }
    add_number(text, name)
}

/// Appends the printed form of a value. A number of one digit needs no buffer.
pub fn add_printed(text: &mut Vec<u8>, value: &Value) -> Result<(), NoMemory>
    ensures { OnOk result (text.new.items ≡ text.old.items ++ value_text value.now) }
{
    match value {
        Value::Int(number) if 0 <= *number => add_number(text, *number as u64),
        _ => value.put(text),
    }
}

// Appends what precedes a request, and the request.
fn add_request(text: &mut Vec<u8>, states: &[State], request: &Request) -> Result<(), NoMemory>
    ensures { let words = codes ": " ++ request_text states.now request.now in
        OnOk result (text.new.items ≡ text.old.items ++ words) }
{
    match request {
        Request::Take { parent, kind } => add_take(text, *parent, *kind),
        Request::TakeFor { watcher: _ } => add(text, b": frame"),
        Request::Read { name, object } => add_read(text, states, *name, *object),
        Request::Write {
            name,
            object,
            value,
        } => add_write(text, states, *name, *object, value),
        Request::Apply { name } => add_named(text, b": apply @", *name),
        Request::Dispose { name } => add_named(text, b": dispose @", *name),
    }
}

fn add_take(text: &mut Vec<u8>, parent: Name, kind: Kind) -> Result<(), NoMemory>
    ensures { let words = codes ": take " ++ kind_word kind ++ 32 ∷ snapshot parent in
        OnOk result (text.new.items ≡ text.old.items ++ words) }
{
    match kind {
        Kind::Mutable => add_named(text, b": take mutable @", parent),
        Kind::Readonly => add_named(text, b": take readonly @", parent),
    }
}

#[tactic(auto, using(crate::proofs::Texts::joins))]
fn add_read(
    text: &mut Vec<u8>,
    states: &[State],
    name: Name,
    object: ObjectNo,
) -> Result<(), NoMemory>
    ensures { let words = codes ": read " ++ snapshot name ++ 32 ∷ state_name states.now object in
        OnOk result (text.new.items ≡ text.old.items ++ words) }
{
    add_named(text, b": read @", name)?;
    add(text, b" ")?;
    add_state(text, states, object)
}

#[tactic(auto, using(crate::proofs::Texts::joins))]
fn add_write(
    text: &mut Vec<u8>,
    states: &[State],
    name: Name,
    object: ObjectNo,
    value: &Value,
) -> Result<(), NoMemory>
    ensures { let words =
        codes ": write " ++ snapshot name ++ 32 ∷ state_name states.now object ++ 32 ∷ value_text value.now in
        OnOk result (text.new.items ≡ text.old.items ++ words) }
{
    add_named(text, b": write @", name)?;
    add(text, b" ")?;
    add_state(text, states, object)?;
    add(text, b" ")?;
    add_printed(text, value)
}

// Appends a reply, and LF.
fn add_reply(
    text: &mut Vec<u8>,
    states: &[State],
    actors: &[Word],
    reply: &Reply,
) -> Result<(), NoMemory>
    ensures { let titles : Titles = record { states = states.now; actors = actors.now } in
        OnOk result (text.new.items ≡ text.old.items ++ line (reply_text titles reply.now)) }
{
    match reply {
        Reply::Taken(name) => add_taken(text, *name),
        Reply::TakenFor(name, changed) => add_changed(text, states, *name, changed.numbers()),
        Reply::Got(value) => add_value(text, value),
        Reply::Wrote { changed } => {
            if *changed {
                add(text, b"changed\n")
            } else {
                add(text, b"same\n")
            }
        }
        Reply::Applied => add(text, b"applied\n"),
        Reply::Disposed => add(text, b"disposed\n"),
        Reply::Refused(refusal) => add_refusal_line(text, states, actors, *refusal),
    }
}

// Appends a snapshot that was taken, and LF.
#[tactic(auto, using(crate::proofs::Texts::joins))]
fn add_taken(text: &mut Vec<u8>, name: Name) -> Result<(), NoMemory>
    ensures { OnOk result (text.new.items ≡ text.old.items ++ line (snapshot name)) }
{
    add_named(text, b"@", name)?;
    add(text, b"\n")
}

// Appends a snapshot that was taken for a watcher, the states that changed, and LF.
#[tactic(auto, using(crate::proofs::Texts::joins))]
fn add_changed(
    text: &mut Vec<u8>,
    states: &[State],
    name: Name,
    changed: &[ObjectNo],
) -> Result<(), NoMemory>
    ensures { let words = snapshot name ++ codes " changed" ++ state_names states.now changed.now in
        OnOk result (text.new.items ≡ text.old.items ++ line words) }
{
    add_named(text, b"@", name)?;
    add(text, b" changed")?;
    add_states(text, states, changed)?;
    add(text, b"\n")
}

// Appends a value that was read, and LF.
#[tactic(auto, using(crate::proofs::Texts::joins))]
fn add_value(text: &mut Vec<u8>, value: &Value) -> Result<(), NoMemory>
    ensures { OnOk result (text.new.items ≡ text.old.items ++ line (value_text value.now)) }
{
    add_printed(text, value)?;
    add(text, b"\n")
}

// Appends a refusal, and LF.
#[tactic(auto, using(crate::proofs::Texts::joins))]
fn add_refusal_line(
    text: &mut Vec<u8>,
    states: &[State],
    actors: &[Word],
    refusal: Refusal,
) -> Result<(), NoMemory>
    ensures { let titles : Titles = record { states = states.now; actors = actors.now } in
        OnOk result (text.new.items ≡ text.old.items ++ line (refusal_text titles refusal)) }
{
    add_refusal(text, states, actors, refusal)?;
    add(text, b"\n")
}

fn add_refusal(
    text: &mut Vec<u8>,
    states: &[State],
    actors: &[Word],
    refusal: Refusal,
) -> Result<(), NoMemory>
    ensures { let titles : Titles = record { states = states.now; actors = actors.now } in
        OnOk result (text.new.items ≡ text.old.items ++ refusal_text titles refusal) }
{
    match refusal {
        Refusal::Spent => add(text, b"spent"),
        Refusal::Closed { name: _ } => add(text, b"closed"),
        Refusal::Global => add(text, b"global"),
        Refusal::NotYours { owner } => add_owner(text, actors, owner),
        Refusal::UnknownObject => add(text, b"unknown object"),
        Refusal::UnknownWatcher => add(text, b"unknown watcher"),
        Refusal::ReadOnly => add(text, b"read only"),
        Refusal::WrongType { kept } => add_two(text, b"wrong type ", kept.word()),
        Refusal::BadPolicy => add(text, b"bad policy"),
        Refusal::ParentClosed => add(text, b"parent closed"),
        Refusal::Conflict { object } => add_conflict(text, states, object),
        Refusal::NoMemory => add(text, b"no memory"),
    }
}

#[tactic(auto, using(crate::proofs::Texts::joins))]
fn add_two(text: &mut Vec<u8>, first: &[u8], second: &[u8]) -> Result<(), NoMemory>
    ensures { OnOk result (text.new.items ≡ text.old.items ++ (first.now ++ second.now)) }
{
    add(text, first)?;
    add(text, second)
}

// Appends the words for a snapshot of another actor.
#[tactic(auto, using(crate::proofs::Texts::joins))]
fn add_owner(text: &mut Vec<u8>, actors: &[Word], owner: Caller) -> Result<(), NoMemory>
    ensures { OnOk result (text.new.items ≡ text.old.items ++ (codes "owned by " ++ actor_name actors.now owner)) }
{
    add(text, b"owned by ")?;
    add_actor(text, actors, owner)
}

#[tactic(auto, using(crate::proofs::Texts::joins))]
fn add_conflict(text: &mut Vec<u8>, states: &[State], object: ObjectNo) -> Result<(), NoMemory>
    ensures { OnOk result (text.new.items ≡ text.old.items ++ (codes "conflict " ++ state_name states.now object)) }
{
    add(text, b"conflict ")?;
    add_state(text, states, object)
}

// Appends the first part of the line of a call: the actor, the request and what precedes the reply.
#[tactic(auto, using(crate::proofs::Texts::joins))]
fn append_request(
    text: &mut Vec<u8>,
    program: &Checked,
    script: &Script,
    caller: Caller,
    request: &Request,
) -> Result<(), NoMemory>
    ensures { OnOk result (text.new.items ≡ text.old.items ++
        call_text (titles_of program.now script.now) caller request.now) }
{
    add_actor(text, script.actors.as_slice(), caller)?;
    add_request(text, program.states(), request)?;
    add(text, b" = ")
}

// Appends the line of a call and its reply: the actor, the request and the reply, with LF at the end.
#[tactic(auto, using(crate::proofs::Texts::joins))]
fn append_line(
    text: &mut Vec<u8>,
    program: &Checked,
    script: &Script,
    entry: &Entry,
) -> Result<(), NoMemory>
    ensures { OnOk result (text.new.items ≡ text.old.items ++ entry_line (titles_of program.now script.now) entry.now) }
{
    append_request(text, program, script, entry.caller, &entry.request)?;
    add_reply(
        text,
        program.states(),
        script.actors.as_slice(),
        &entry.reply,
    )
}

/// Appends the first part of the line of a call: the actor, the request and what precedes the reply. If the process is
/// out of memory, `text` is empty afterwards.
pub fn add_request_line(
    text: &mut Vec<u8>,
    program: &Checked,
    script: &Script,
    caller: Caller,
    request: &Request,
) -> Result<(), NoMemory>
    ensures ok { OnOk result (text.new.items ≡ text.old.items ++
        call_text (titles_of program.now script.now) caller request.now) }
    ensures err { OnErr result (text.new.items ≡ []) }
{
    let done = append_request(text, program, script, caller, request);
    or_empty(text, done)
}

/// Appends the rest of the line of a call: the reply, and LF. If the process is out of memory, `text` is empty
/// afterwards.
pub fn add_reply_line(
    text: &mut Vec<u8>,
    program: &Checked,
    script: &Script,
    reply: &Reply,
) -> Result<(), NoMemory>
    ensures ok { OnOk result (text.new.items ≡ text.old.items ++
        line (reply_text (titles_of program.now script.now) reply.now)) }
    ensures err { OnErr result (text.new.items ≡ []) }
{
    let done = add_reply(text, program.states(), script.actors.as_slice(), reply);
    or_empty(text, done)
}

/// Appends the line of a call and its reply: the actor, the request and the reply, with LF at the end. If the process
/// is out of memory, `text` is empty afterwards.
pub fn add_line(
    text: &mut Vec<u8>,
    program: &Checked,
    script: &Script,
    entry: &Entry,
) -> Result<(), NoMemory>
    ensures ok { OnOk result (text.new.items ≡
        text.old.items ++ entry_line (titles_of program.now script.now) entry.now) }
    ensures err { OnErr result (text.new.items ≡ []) }
{
    let done = append_line(text, program, script, entry);
    or_empty(text, done)
}
