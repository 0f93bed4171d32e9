// Programs with their scripts.
ghost use Rattle.std.specs.Prelude.{◌≡◌, []};
ghost use Rattle.lang_ast.specs.Programs.{program_view};
ghost use Rattle.lang_checks.specs.ProgramFaults.{program_faults};

use lang_checks::Checked;
use script_lang::Script;

/// A checked program with its script. The type keeps that the program has no fault.
#[derive(Drop)]
pub struct Job {
    pub program: Checked,
    pub script: Script,
    ghost fine: { program_faults (program_view program) ≡ [] },
}
