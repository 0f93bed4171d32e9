// What a run keeps between calls.
ghost use Rattle.std.specs.Prelude.{◌≡◌, [], None, IfOk};
ghost use Rattle.rt_groups.specs.Frames.{no_last_frame};
ghost use Rattle.recomposer.specs.Compositions.{IsAt};
ghost use Rattle.lang_script.specs.NamesInMemory.{Holds};

use lang_checks::Checked;
use play_steps::WATCHER;
use recomposer::Composition;
use rt_values::{NoMemory, Objects};
use script_lang::NameTable;
use std::alloc::Global;

/// What a run keeps between calls: the composition, the numbers of the snapshot names, and two buffers that each call
/// and each frame reuse, for the current line and for the objects that were read.
#[derive(Drop)]
pub struct RunMemory<'p> {
    pub composition: Composition<'p>,
    pub names: NameTable,
    pub text: Vec<u8>,
    pub reads: Objects,
}

impl<'p> RunMemory<'p> {
    /// Creates the state before the first call.
    pub fn new(alloc: Global, program: &'p Checked) -> Result<Self, NoMemory>
        ensures composition { IfOk result (λ m. IsAt m.composition no_last_frame None) }
        ensures program { IfOk result (λ m. m.composition.program.now ≡ program.now) }
        ensures names { IfOk result (λ m. Holds m.names []) }
    {
        let composition = Composition::new(alloc, program, WATCHER)?;
        Ok(RunMemory {
            composition,
            names: NameTable::new(alloc),
            text: Vec::new(alloc),
            reads: Objects::new(alloc),
        })
    }
}
