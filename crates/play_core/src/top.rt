// The top call.
ghost use Rattle.std.specs.Prelude.{◌≡◌, ◌≢◌, ◌⊎◌, ◌<◌, ◌≤◌, ◌+◌, ℕ, List, false, true, Option, Some, None, Ok, Err, IfOk, IfErr, OnOk, OnErr, IfSome, length};
ghost use Rattle.std.specs.Io.KnownBytes.{Appends, Keeps, IsAtEnd};
ghost use Rattle.rt_streams.specs.Streams.{Rose, AppendsPart, rise};
ghost use Rattle.lang_forms.specs.Sources.{Source as source_data};
ghost use Rattle.snap_api.specs.World.{start};
ghost use Rattle.script_lang.specs.declared.flags.Flags.{Flags as flags_data};
ghost use Rattle.play_args.specs.CommandWords.{command_of_args, texts};
ghost use Rattle.play_core.specs.CommandOutput.{SaysOutput, run_status, IsRefusal, ReadsInput};
ghost use Rattle.play_core.specs.Texts.{IsText, IsInput, IsNoText, IsOutput, has_threads, has_input, gen_output, usage_line, long_line, input_limit};
ghost use Rattle.play_core.specs.Faults.{IsFault, WritesPart, fault_line};
ghost use Rattle.play_core.specs.Promise.{streams, TextMeets, exactly, CommandMeets, IsUsage, GenMeets, PlayMeets, NeedsNoInput, KeepsWorld, LeavesWorld, LogsText, LogsCommand, StopsText, StopsCommand};
ghost use Rattle.play_core.specs.declared.fault.Fault.{Fault as fault_data};
ghost use Rattle.play_run.specs.RunPromise.{FaultsAfter};

use crate::canonical::write_canonical;
use crate::fault::Fault;
use crate::text::{Input, TextEnd, parse_input};
use play_args::{Command, parse_args};
use play_gen::{count_input, summary_text};
use play_run::{Stop, run_script};
use play_threads::run_threads;
use rt_streams::{Gate, ReadStop, Sink, Source, read_all, write_all};
use rt_values::NoMemory;
use script_lang::Flags;
use snap_api::Versions;
use snap_policy::BuiltIn;
use std::alloc::Global;
use std::sync::Wait;
use std::thread::Threads;

/// How a run of the program ended.
#[derive(Clone, Copy, Debug, PartialEq, Eq)]
pub enum Status {
    /// The command was done, and all its output was written.
    Done,
    /// The arguments ask for no command.
    Usage,
    /// The input is not a source text.
    BadInput,
    /// A read failed.
    ReadFault,
    /// A write failed.
    WriteFault,
    /// The process is out of memory.
    NoMemory,
    /// The input has more than 1,048,576 bytes.
    TooLong,
}

// The greatest length of an input, in bytes.
const INPUT_LIMIT: u64 = 1048576;

// Writes the one line of a status. Returns the status, or `WriteFault` if the sink failed.
fn write_status_line<K: Sink>(sink: &mut K, line: &[u8], status: Status) -> Status
    requires { status ≢ Status.WriteFault }
    ensures answers { (result ≡ status) ⊎ (result ≡ Status.WriteFault) }
    ensures all { result ≡ status → Appends (K.written sink.old) (K.written sink.new) line.now }
    ensures part { result ≡ Status.WriteFault → AppendsPart (K.written sink.old) (K.written sink.new) line.now }
    ensures fault { result ≡ Status.WriteFault → Rose (K.faults sink.old) (K.faults sink.new) }
    ensures clean { result ≢ Status.WriteFault → K.faults sink.new ≡ K.faults sink.old }
{
    match write_all(sink, line) {
        Ok(()) => status,
        Err(_) => Status::WriteFault,
    }
}

// Writes the one line of a fault.
fn refuse<K: Sink>(alloc: Global, fault: Fault, sink: &mut K) -> Status
    ensures answers { (result ≡ Status.BadInput) ⊎ ((result ≡ Status.WriteFault) ⊎ (result ≡ Status.NoMemory)) }
    ensures all { result ≡ Status.BadInput → Appends (K.written sink.old) (K.written sink.new) (fault_line fault) }
    ensures part { (result ≡ Status.WriteFault) ⊎ (result ≡ Status.NoMemory) →
        AppendsPart (K.written sink.old) (K.written sink.new) (fault_line fault) }
    ensures write_fault { result ≡ Status.WriteFault → Rose (K.faults sink.old) (K.faults sink.new) }
    ensures clean { result ≢ Status.WriteFault → K.faults sink.new ≡ K.faults sink.old }
{
    let mut line = Vec::new(alloc);
    let Ok(()) = fault.put(&mut line) else {
        return Status::NoMemory;
    };
    write_status_line(sink, &line, Status::BadInput)
}

// Does what `run` or `check` asks for with an input. A run discards the trees before its first step.
fn do_command<V: Versions<P = BuiltIn>, K: Sink>(
    alloc: Global,
    command: Command,
    world: &mut V,
    input: Input,
    sink: &mut K,
) -> Result<(), Stop>
    requires start { V.stands world.old (start 0) }
    requires alone { has_threads command ≡ false }
    requires reads { has_input command ≡ true }
    ensures says { (bytes : List ℕ) (t : source_data) → IsInput false bytes input → IsText false bytes t →
        SaysOutput (K.written sink.old) (K.written sink.new) (IsOutput command (Some t)) result }
    ensures faults { FaultsAfter (K.faults sink.old) (K.faults sink.new) result }
    ensures world { KeepsWorld command → world.new ≡ world.old }
    ensures log { (bytes : List ℕ) (t : source_data) (flags : flags_data) → command ≡ Command.Run flags →
        IsInput false bytes input → IsText false bytes t →
        OnOk result (LogsText t (V.log world.old) (V.log world.new)) }
    ensures stops { (bytes : List ℕ) (t : source_data) (flags : flags_data) → command ≡ Command.Run flags →
        IsInput false bytes input → IsText false bytes t →
        OnErr result (StopsText flags t (V.log world.old) (V.log world.new) (K.written sink.old) (K.written sink.new)) }
{
    match command {
        Command::Run(flags) => {
            drop(input.trees);
            run_script(alloc, &input.job, flags, world, sink)
        }
        Command::Threads(_) => unreachable!(),
        Command::Check => write_canonical(alloc, &input.trees, sink),
        Command::Gen { .. } => unreachable!(),
    }
}

/// Returns the status of a run that ended so. A rule of this project.
pub fn status_of(end: Result<(), Stop>) -> Status
    ensures { result ≡ run_status end }
{
    match end {
        Ok(()) => Status::Done,
        Err(Stop::WriteFault) => Status::WriteFault,
        Err(Stop::NoMemory) => Status::NoMemory,
    }
}

// Parses bytes. If they are no source text, writes the line of their fault. Returns the status of a failure.
fn parse_or_refuse<K: Sink>(
    alloc: Global,
    threads: bool,
    bytes: &[u8],
    sink: &mut K,
) -> Result<Input, Status>
    ensures parsed { IfOk result (λ input. IsInput threads bytes.now input) }
    ensures good { OnOk result ((fault : fault_data) → IsFault threads bytes.now fault → ⊥) }
    ensures still { OnOk result ((K.written sink.new ≡ K.written sink.old) × (K.faults sink.new ≡ K.faults sink.old)) }
    ensures bad_input { result ≡ Err Status.BadInput → IsNoText threads bytes.now ×
        ((fault : fault_data) × IsFault threads bytes.now fault ×
        Appends (K.written sink.old) (K.written sink.new) (fault_line fault)) }
    ensures part { (output : List ℕ → source_data → List ℕ) →
        (result ≡ Err Status.WriteFault) ⊎ (result ≡ Err Status.NoMemory) →
        WritesPart threads (exactly output) bytes.now (K.written sink.old) (K.written sink.new) }
    ensures write_fault { result ≡ Err Status.WriteFault → Rose (K.faults sink.old) (K.faults sink.new) }
    ensures clean { result ≢ Err Status.WriteFault → K.faults sink.new ≡ K.faults sink.old }
    ensures others { IfErr result IsRefusal }
{
    match parse_input(alloc, bytes, threads) {
        Ok(input) => Ok(input),
        Err(TextEnd::Bad(fault)) => Err(refuse(alloc, fault, sink)),
        Err(TextEnd::NoMemory) => Err(Status::NoMemory),
    }
}

/// Reads and parses the source. Returns its bytes and the input that they are. If that fails, writes the line of the
/// failure, if it has one, and returns its status. `threads`: whether each actor has a thread and snapshot names of its
/// own. A rule of this project.
pub fn read_input<S: Source, K: Sink>(
    alloc: Global,
    threads: bool,
    source: &mut S,
    sink: &mut K,
) -> Result<(Vec<u8>, Input), Status>
    ensures failed { let shown = streams S.left S.taken S.faults K.written K.faults in
        (output : List ℕ → source_data → List ℕ) →
        IfErr result (TextMeets threads (exactly output) (shown source.old sink.old) (shown source.new sink.new)) }
    ensures parsed { let shown = streams S.left S.taken S.faults K.written K.faults in
        IfOk result (λ r. ReadsInput threads (shown source.old sink.old) (shown source.new sink.new) r.0.items r.1) }
    ensures undone { result ≢ Err Status.Done }
    ensures reads { result ≢ Err Status.ReadFault → S.faults source.new ≡ S.faults source.old }
    ensures clean { result ≢ Err Status.WriteFault → K.faults sink.new ≡ K.faults sink.old }
{
    match read_all(alloc, source, INPUT_LIMIT) {
        Err(ReadStop::NoMemory) => Err(Status::NoMemory),
        Err(ReadStop::ReadFault) => Err(Status::ReadFault),
        Err(ReadStop::TooLong) => Err(write_status_line(sink, b"too long\n", Status::TooLong)),
        Ok(bytes) => match parse_or_refuse(alloc, threads, &bytes, sink) {
            Ok(input) => Ok((bytes, input)),
            Err(status) => Err(status),
        },
    }
}

// Reads the source, then runs `run` or `check`.
fn play_input<V: Versions<P = BuiltIn>, S: Source, K: Sink>(
    alloc: Global,
    command: Command,
    world: &mut V,
    source: &mut S,
    sink: &mut K,
) -> Status
    requires start { V.stands world.old (start 0) }
    requires alone { has_threads command ≡ false }
    requires reads { has_input command ≡ true }
    ensures meets { let shown = streams S.left S.taken S.faults K.written K.faults in
        CommandMeets command (shown source.old sink.old) (shown source.new sink.new) result }
    ensures reads { result ≢ Status.ReadFault → S.faults source.new ≡ S.faults source.old }
    ensures clean { result ≢ Status.WriteFault → K.faults sink.new ≡ K.faults sink.old }
    ensures keeps { KeepsWorld command → world.new ≡ world.old }
    ensures refused { (result ≡ Status.BadInput) ⊎ ((result ≡ Status.TooLong) ⊎ (result ≡ Status.ReadFault)) →
        world.new ≡ world.old }
    ensures log { (flags : flags_data) → command ≡ Command.Run flags → result ≡ Status.Done →
        IfSome (S.left source.old) (λ bytes. (t : source_data) → IsText false bytes t →
        LogsText t (V.log world.old) (V.log world.new)) }
    ensures stops { (flags : flags_data) → command ≡ Command.Run flags →
        (result ≡ Status.WriteFault) ⊎ (result ≡ Status.NoMemory) →
        IfSome (S.left source.old) (λ bytes. (t : source_data) → IsText false bytes t →
        StopsText flags t (V.log world.old) (V.log world.new) (K.written sink.old) (K.written sink.new)) }
{
    match read_input(alloc, false, source, sink) {
        Ok((bytes, input)) => {
            drop(bytes);
            status_of(do_command(alloc, command, world, input, sink))
        }
        Err(status) => status,
    }
}

// Reads the source, then writes the lines of a history of all actors.
fn play_threads<R: Threads + Wait + Sync, S: Source, K: Sink, G: Gate + Sync>(
    rt: &R,
    alloc: Global,
    flags: Flags,
    source: &mut S,
    sink: &mut K,
    gate: &G,
) -> Status
    ensures meets { let shown = streams S.left S.taken S.faults K.written K.faults in
        CommandMeets (Command.Threads flags) (shown source.old sink.old) (shown source.new sink.new) result }
    ensures reads { result ≢ Status.ReadFault → S.faults source.new ≡ S.faults source.old }
    ensures clean { result ≢ Status.WriteFault → K.faults sink.new ≡ K.faults sink.old }
{
    match read_input(alloc, true, source, sink) {
        Ok((bytes, input)) => {
            drop(bytes);
            status_of(run_threads(rt, alloc, &input.job, flags, gate, sink))
        }
        Err(status) => status,
    }
}

// Runs the input that is generated from `number` with `size` rows, and writes the summary as one piece.
fn write_summary<V: Versions<P = BuiltIn>, K: Sink>(
    alloc: Global,
    number: u32,
    size: u32,
    world: &mut V,
    sink: &mut K,
) -> Status
    requires some { 1 ≤ size }
    requires few { size ≤ 1000 }
    requires start { V.stands world.old (start 0) }
    ensures answers { (result ≡ Status.Done) ⊎ ((result ≡ Status.WriteFault) ⊎ (result ≡ Status.NoMemory)) }
    ensures all { result ≡ Status.Done → Appends (K.written sink.old) (K.written sink.new) (gen_output number size) }
    ensures part { (result ≡ Status.WriteFault) ⊎ (result ≡ Status.NoMemory) →
        AppendsPart (K.written sink.old) (K.written sink.new) (gen_output number size) }
    ensures write_fault { result ≡ Status.WriteFault → Rose (K.faults sink.old) (K.faults sink.new) }
    ensures clean { result ≢ Status.WriteFault → K.faults sink.new ≡ K.faults sink.old }
{
    let Ok(tally) = count_input(alloc, number, size, world) else {
        return Status::NoMemory;
    };
    let Ok(text) = summary_text(alloc, &tally) else {
        return Status::NoMemory;
    };
    write_status_line(sink, &text, Status::Done)
}

// Writes the usage line.
fn write_usage<K: Sink>(sink: &mut K) -> Status
    ensures meets { IsUsage (K.written sink.old) (K.faults sink.old) (K.written sink.new) (K.faults sink.new) result }
    ensures clean { result ≢ Status.WriteFault → K.faults sink.new ≡ K.faults sink.old }
{
    write_status_line(
        sink,
        b"usage: compose_play run|threads [--json] [--ops] | check | gen NUMBER SIZE\n",
        Status::Usage,
    )
}

/// Runs the command that the arguments ask for, if it is not `threads`.
///
/// Reads a program with its script from `source`, and writes to `sink`. `run` writes the lines of the calls and frames
/// that the script's steps make in a new world, one step after another, as its flags say. `check` writes the canonical
/// text of the program and the script. `gen` reads nothing, and writes the counts of the run of a generated script.
/// Never blocks.
///
/// `specs/Promise.antt` says what each status means: what was written, and what was taken from the source. In Compose
/// this is the work of `Recomposer` and a test driver; the program and its lines are rules of this project.
pub fn play_alone<V: Versions<P = BuiltIn>, S: Source, K: Sink>(
    alloc: Global,
    words: &Vec<String>,
    world: &mut V,
    source: &mut S,
    sink: &mut K,
) -> Status
    requires start { V.stands world.old (start 0) }
    requires alone { (flags : flags_data) → command_of_args (texts words.now.items) ≡ Some (Command.Threads flags) → ⊥ }
    // The result is what `PlayMeets` promises.
    ensures meets { let shown = streams S.left S.taken S.faults K.written K.faults in
        PlayMeets (texts words.now.items) (shown source.old sink.old) (shown source.new sink.new) result }
    // Without a command, and for `gen`, the source is unchanged.
    ensures unread { NeedsNoInput (command_of_args (texts words.now.items)) → source.new ≡ source.old }
    // Without a command, after `check` and after each rejected input the world is unchanged.
    ensures world { LeavesWorld (command_of_args (texts words.now.items)) result → world.new ≡ world.old }
    // After `run` the log of the world, if it has one, grew by the calls of the run.
    ensures log { LogsCommand (command_of_args (texts words.now.items)) result (S.left source.old) (V.log world.old)
        (V.log world.new) }
    // If `run` failed at a write or is out of memory, no call was made after the line that was not written.
    ensures stops { StopsCommand (command_of_args (texts words.now.items)) result (S.left source.old) (V.log world.old)
        (V.log world.new) (K.written sink.old) (K.written sink.new) }
{
    match parse_args(alloc, words) {
        Ok(Some(Command::Gen { number, size })) => write_summary(alloc, number, size, world, sink),
        Ok(Some(command)) => play_input(alloc, command, world, source, sink),
        Ok(None) => write_usage(sink),
        Err(NoMemory) => Status::NoMemory,
    }
}

/// Runs the command that the arguments ask for, as `play_alone` does, and `threads` too.
///
/// `threads` writes the lines of a history of calls on one new world that all actors share: each actor's calls are those
/// that its own steps make, and the actors take turns in some order. `gate` may delay a call of an actor; the code calls
/// it with the number of the actor and the number of the call. While it waits for its turn a thread blocks.
pub fn play<R: Threads + Wait + Sync, V: Versions<P = BuiltIn>, S: Source, K: Sink, G: Gate + Sync>(
    rt: &R,
    alloc: Global,
    words: &Vec<String>,
    world: &mut V,
    source: &mut S,
    sink: &mut K,
    gate: &G,
) -> Status
    requires start { V.stands world.old (start 0) }
    // The result is what `PlayMeets` promises.
    ensures meets { let shown = streams S.left S.taken S.faults K.written K.faults in
        PlayMeets (texts words.now.items) (shown source.old sink.old) (shown source.new sink.new) result }
    // Without a command, and for `gen`, the source is unchanged.
    ensures unread { NeedsNoInput (command_of_args (texts words.now.items)) → source.new ≡ source.old }
    // Without a command, after `check`, after `threads` and after each rejected input the world is unchanged.
    ensures world { LeavesWorld (command_of_args (texts words.now.items)) result → world.new ≡ world.old }
    // After `run` the log of the world, if it has one, grew by the calls of the run.
    ensures log { LogsCommand (command_of_args (texts words.now.items)) result (S.left source.old) (V.log world.old)
        (V.log world.new) }
    // If `run` failed at a write or is out of memory, no call was made after the line that was not written.
    ensures stops { StopsCommand (command_of_args (texts words.now.items)) result (S.left source.old) (V.log world.old)
        (V.log world.new) (K.written sink.old) (K.written sink.new) }
{
    match parse_args(alloc, words) {
        Ok(Some(Command::Threads(flags))) => play_threads(rt, alloc, flags, source, sink, gate),
        Ok(Some(Command::Gen { number, size })) => write_summary(alloc, number, size, world, sink),
        Ok(Some(command)) => play_input(alloc, command, world, source, sink),
        Ok(None) => write_usage(sink),
        Err(NoMemory) => Status::NoMemory,
    }
}
