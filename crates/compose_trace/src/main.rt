//! The program: runs the source text on standard input, and writes the trace of the run to standard output.
//!
//! `trace_play::trace` does all the work. This file connects it to the process, as that of `compose_play` does. No
//! contract can state what the process reads and writes.
#![tactic(auto)]

ghost use Rattle.std.specs.Prelude.{◌≡◌};
ghost use Rattle.compose_trace.specs.Numbers.{number};

use fault_notes::{Keeping, find_note};
use play_core::Status;
use rt_streams::{ReadStop, Reading, WriteFault, Writing};
use snap_policy::BuiltIn;
use snap_world::RecordWorld;
use std::io;
use std::io::{BufReader, BufWriter};
use std::process::ExitCode;
use trace_play::trace;

// The size of the input and output buffers, in bytes.
const BUFFER_SIZE: usize = 65536;

// Flushes the output buffer at the end. A failed flush is a write fault.
fn main(rt: HostRuntime) -> ExitCode {
    let alloc = rt.alloc();
    let Ok(world) = RecordWorld::<BuiltIn>::new(alloc) else {
        return without_memory(&rt);
    };
    let Ok(input) = BufReader::with_capacity(alloc, BUFFER_SIZE, rt.reader()) else {
        return without_memory(&rt);
    };
    let Ok(output) = BufWriter::with_capacity(alloc, BUFFER_SIZE, io::writer(&rt)) else {
        return without_memory(&rt);
    };
    let mut source = Keeping::new(alloc, Reading::new(input));
    let mut sink = Writing::new(output);
    let status = trace(alloc, world, &mut source, &mut sink);
    let status = match sink.flush() {
        Ok(()) => status,
        Err(_) => Status::WriteFault,
    };
    say_why(&rt, status, source.kept());
    ExitCode::from(number_of(status))
}

// Says that the process is out of memory, and returns its status.
fn without_memory(rt: &HostRuntime) -> ExitCode {
    let _ = eprintln!(rt; "compose_trace: out of memory");
    ExitCode::from(number_of(Status::NoMemory))
}

// Says on standard error why a run was not done. A failure to write there has no effect.
fn say_why(rt: &HostRuntime, status: Status, input: Option<&[u8]>) {
    let _ = match status {
        Status::Done => Ok(()),
        Status::Usage => Ok(()),
        Status::BadInput => say_note(rt, input),
        Status::ReadFault => eprintln!(rt; "compose_trace: {}", ReadStop::ReadFault),
        Status::WriteFault => eprintln!(rt; "compose_trace: {}", WriteFault),
        Status::NoMemory => eprintln!(rt; "compose_trace: out of memory"),
        Status::TooLong => eprintln!(rt; "compose_trace: the input has more than 1,048,576 bytes"),
    };
}

// Says where the input is wrong and what is expected there.
fn say_note(rt: &HostRuntime, input: Option<&[u8]>) -> io::Result<()> {
    let Some(bytes) = input else {
        return Ok(());
    };
    match find_note(rt.alloc(), bytes, false) {
        Ok(Some(note)) => eprintln!(rt; "{note}"),
        _ => Ok(()),
    }
}

// Returns the exit status of the process.
fn number_of(status: Status) -> u8
    ensures { result ≡ number status }
{
    match status {
        Status::Done => 0,
        Status::Usage => 2,
        Status::BadInput => 3,
        Status::ReadFault => 4,
        Status::WriteFault => 5,
        Status::NoMemory => 6,
        Status::TooLong => 7,
    }
}
