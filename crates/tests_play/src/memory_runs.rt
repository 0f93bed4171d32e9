// Runs of `play` over streams in memory.
ghost use Rattle.std.specs.Prelude.{◌≡◌, [], Some, IfOk};
ghost use Rattle.snap_api.specs.World.{start};

use play_core::{Status, play};
use rt_streams::{Gate, MemSink, MemSource};
use snap_api::{LogWorld, Versions};
use snap_plain::PlainWorld;
use snap_policy::BuiltIn;
use std::alloc::Global;
use std::sync::Wait;
use std::test::Fail;
use std::thread::Threads;

/// A plain world with a log.
pub type LoggedWorld = LogWorld<PlainWorld<BuiltIn>>;

/// Makes an empty world with a log.
pub fn logged_world(alloc: Global) -> Result<LoggedWorld, Fail>
    ensures stands { IfOk result (λ w. ⟦<LogWorld<PlainWorld<BuiltIn>> as Versions>⟧.stands w (start 0)) }
    ensures log { IfOk result (λ w. ⟦<LogWorld<PlainWorld<BuiltIn>> as Versions>⟧.log w ≡ Some []) }
{
    let plain = PlainWorld::<BuiltIn>::new(alloc)?;
    let world = LogWorld::new(alloc, plain);
    Ok(world)
}

/// Makes a source of these bytes, which hands out at most 20 bytes a call. The call with the number `failing`, counted
/// from 1, fails, or none if that is 0.
pub fn source_failing(alloc: Global, bytes: &[u8], failing: u64) -> Result<MemSource, Fail> {
    Ok(MemSource::new(bytes.to_vec(alloc)?, 20, [failing].to_vec(alloc)?))
}

/// Makes an empty sink. The call with the number `failing`, counted from 1, fails, or none if that is 0.
pub fn sink_failing(alloc: Global, failing: u64) -> Result<MemSink, Fail> {
    sink_with_room(alloc, 4096, failing)
}

/// Makes an empty sink that takes `room` bytes in all. The call with the number `failing`, counted from 1, fails, or
/// none if that is 0.
pub fn sink_with_room(alloc: Global, room: usize, failing: u64) -> Result<MemSink, Fail> {
    Ok(MemSink::new(alloc, room, 4096, [failing].to_vec(alloc)?)?)
}

/// What `play` is called with: its one argument, its input, the numbers of the read and of the write that fail, counted
/// from 1, or 0 for none, and how many bytes the sink takes.
#[derive(Clone, Copy)]
pub struct Run<'a> {
    pub word: &'a str,
    pub input: &'a [u8],
    pub failing_read: u64,
    pub failing_write: u64,
    pub room: usize,
}

/// Runs `play` on a new world through a gate. Returns the status and the bytes that are written.
pub fn play_on<R: Threads + Wait + Sync, V: Versions<P = BuiltIn>, G: Gate + Sync>(
    rt: &R,
    alloc: Global,
    world: &mut V,
    run: Run,
    gate: &G,
) -> Result<(Status, Vec<u8>), Fail>
    requires { V.stands world.old (start 0) }
{
    let words = vec![in alloc; run.word.to_string(alloc)?]?;
    let mut source = source_failing(alloc, run.input, run.failing_read)?;
    let mut sink = sink_with_room(alloc, run.room, run.failing_write)?;
    let status = play(rt, alloc, &words, world, &mut source, &mut sink, gate);
    Ok((status, sink.bytes().to_vec(alloc)?))
}
