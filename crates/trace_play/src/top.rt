// The top call of the program `compose_trace`.
ghost use Rattle.std.specs.Prelude.{◌≡◌, ◌≢◌, ◌++◌};
ghost use Rattle.snap_api.specs.World.{start};
ghost use Rattle.play_run.specs.RunPromise.{WritesBytes, FaultsAfter, job_titles, job_functions};
ghost use Rattle.lang_script.specs.StepCalls.{script_parts};
ghost use Rattle.trace_lines.specs.ProgramLine.{program_line};
ghost use Rattle.play_core.specs.Promise.{streams};
ghost use Rattle.trace_play.specs.TraceText.{trace_text};
ghost use Rattle.trace_play.specs.TraceOutput.{TraceMeets};

use crate::telling::tell;
use play_core::{Status, read_input, status_of};
use play_run::{Job, Stop, run_script};
use rt_streams::{Failed, Sink, Source};
use script_lang::Flags;
use snap_api::{LogWorld, Versions};
use snap_policy::BuiltIn;
use std::alloc::Global;

// How the script is run: nothing is printed of its frames.
const FLAGS: Flags = Flags {
    json: false,
    ops: false,
};

// A sink that keeps nothing and never fails.
#[derive(Drop)]
struct Nowhere;

impl Sink for Nowhere {
    ghost use Rattle.std.specs.Prelude.{None};

    ghost written = { λ s. None };

    ghost faults = { λ s. 0 };

    fn write(&mut self, piece: &[u8]) -> Result<usize, Failed> {
        Ok(piece.len())
    }
}

// Runs the script of an input on the world, and writes the trace of its history.
fn trace_input<V: Versions<P = BuiltIn> + Drop, K: Sink>(
    alloc: Global,
    world: V,
    bytes: &[u8],
    job: &Job,
    sink: &mut K,
) -> Result<(), Stop>
    requires { V.stands world (start 0) }
    ensures says { let titles = job_titles job.now in let functions = job_functions job.now in
        let parts = script_parts job.now.script.actors.items job.now.script.forms.items in
        WritesBytes (K.written sink.old) (K.written sink.new)
        (program_line titles.states functions titles.actors bytes.now ++ trace_text titles functions parts) result }
    ensures faults { FaultsAfter (K.faults sink.old) (K.faults sink.new) result }
{
    let mut world = LogWorld::new(alloc, world);
    let Ok(()) = run_script(alloc, job, FLAGS, &mut world, &mut Nowhere) else {
        return Err(Stop::NoMemory);
    };
    let (_, calls) = world.into_parts();
    tell(alloc, job, bytes, calls, sink)
}

/// Reads a program with its script from `source`, makes the script's steps on `world`, which must be new, and writes the
/// trace of the run to `sink`, each line with its LF as one piece, after the last step. An input that is no source text
/// is refused with the line of `compose_play`. A rule of this project.
///
/// `TraceMeets` (`specs/TraceOutput.antt`) says what each status means.
pub fn trace<V: Versions<P = BuiltIn> + Drop, S: Source, K: Sink>(
    alloc: Global,
    world: V,
    source: &mut S,
    sink: &mut K,
) -> Status
    requires { V.stands world (start 0) }
    ensures meets { let shown = streams S.left S.taken S.faults K.written K.faults in
        TraceMeets (shown source.old sink.old) (shown source.new sink.new) result }
    ensures reads { result ≢ Status.ReadFault → S.faults source.new ≡ S.faults source.old }
    ensures clean { result ≢ Status.WriteFault → K.faults sink.new ≡ K.faults sink.old }
{
    match read_input(alloc, false, source, sink) {
        Ok((bytes, input)) => {
            drop(input.trees);
            status_of(trace_input(alloc, world, &bytes, &input.job, sink))
        }
        Err(status) => status,
    }
}
