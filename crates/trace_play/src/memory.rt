// What a trace keeps between calls.
ghost use Rattle.std.specs.Prelude.{◌≡◌, [], zero, None, IfOk};
ghost use Rattle.rt_groups.specs.Frames.{no_last_frame};
ghost use Rattle.recomposer.specs.Compositions.{IsAt};

use lang_checks::Checked;
use play_run::ReplayMemory;
use rt_values::{NoMemory, Objects};
use slot_table::Table;
use std::alloc::Global;

/// What a trace keeps between calls: the replay of the history, the groups of the last good frame, what the take of the
/// open frame listed as changed, the number of frames so far, and two buffers, for the current line and for a part of it.
#[derive(Drop)]
pub struct TraceMemory<'p> {
    pub replay: ReplayMemory<'p>,
    pub last: Table,
    pub changed: Objects,
    pub frames: u64,
    pub text: Vec<u8>,
    pub part: Vec<u8>,
}

impl<'p> TraceMemory<'p> {
    /// Creates the state before the first call.
    pub fn new(alloc: Global, program: &'p Checked) -> Result<Self, NoMemory>
        ensures composition { IfOk result (λ m. IsAt m.replay.composition no_last_frame None) }
        ensures program { IfOk result (λ m. m.replay.composition.program.now ≡ program.now) }
        ensures reads { IfOk result (λ m. m.replay.reads.reads.items ≡ []) }
        ensures given { IfOk result (λ m. m.replay.reads.given ≡ zero) }
        ensures last { IfOk result (λ m. m.last.groups ≡ []) }
        ensures changed { IfOk result (λ m. m.changed ≡ []) }
        ensures frames { IfOk result (λ m. m.frames ≡ zero) }
    {
        let replay = ReplayMemory::new(alloc, program)?;
        Ok(TraceMemory {
            replay,
            last: Table::new(alloc),
            changed: Objects::new(alloc),
            frames: 0,
            text: Vec::new(alloc),
            part: Vec::new(alloc),
        })
    }
}
