// Program and script from a number.
ghost use Rattle.std.specs.Prelude.{◌≡◌, ◌<◌, ◌≤◌, [], ◌∷◌, length, None, false, codes, IfOk};
ghost use Rattle.lang_ast.specs.Programs.{program_view};
ghost use Rattle.lang_checks.specs.ProgramFaults.{program_faults};
ghost use Rattle.lang_script.specs.ScriptFaults.{script_faults};
ghost use Rattle.play_gen.specs.GeneratedProgram.{first_items, generated_states, generated_program};
ghost use Rattle.lang_script.specs.Scripts.{actors_of};
ghost use Rattle.play_gen.specs.Draws.{initial_state};
ghost use Rattle.play_gen.specs.GeneratedScript.{frame_step, rounds, generated_script};

use crate::draws::Draws;
use crate::program::{first_items, generated_program, ident};
use crate::rounds::{add_rounds, frame_step};
use lang_ast::{DoForm, ScriptForms};
use lang_checks::{CheckStop, Checked, check};
use rt_values::{Items, NoMemory, Word};
use script_lang::Script;
use std::alloc::Global;

/// Returns the checked program. A rule of this project.
pub fn checked_program(alloc: Global, size: u32) -> Result<Checked, NoMemory>
    ensures { IfOk result (λ c. program_view c ≡ generated_program size) }
{
    match check(alloc, generated_program(alloc, size)?) {
        Ok(program) => Ok(program),
        Err(CheckStop::NoMemory) => Err(NoMemory),
        Err(CheckStop::ProgramFault(_)) => unreachable!(),
    }
}

// Returns the steps of the script.
fn generated_steps(alloc: Global, number: u32, size: u32) -> Result<ScriptForms, NoMemory>
    requires some { 0 < size }
    requires few { size ≤ 1000 }
    ensures { IfOk result (λ s. s ≡ frame_step ∷ rounds size size (initial_state number) (first_items size)) }
{
    let mut steps = Items::new(alloc);
    steps.push(frame_step())?;
    let mut items = first_items(alloc, size)?;
    add_rounds(alloc, size, &mut Draws::new(number), &mut items, &mut steps)?;
    Ok(steps)
}

// Returns the script.
fn generated_script(alloc: Global, number: u32, size: u32) -> Result<Script, NoMemory>
    requires some { 0 < size }
    requires few { size ≤ 1000 }
    ensures actors { IfOk result (λ s. s.actors.items ≡ codes "main" ∷ []) }
    ensures forms { IfOk result (λ s. s.forms.items ≡ generated_script number size) }
{
    let form = DoForm {
        at: 0,
        actor: ident(alloc, b"main")?,
        steps: generated_steps(alloc, number, size)?,
    };
    Ok(Script {
        actors: vec![in alloc; Word::of(alloc, b"main")?]?,
        forms: vec![in alloc; form]?,
    })
}

/// Returns a program with `size` rows, and a script of `size` rounds whose changes are drawn from `number`.
///
/// A rule of this project. Offsets are 0, since there is no text. Fails only if the process is out of memory.
pub fn generate(alloc: Global, number: u32, size: u32) -> Result<(Checked, Script), NoMemory>
    requires some { 1 ≤ size }
    requires few { size ≤ 1000 }
    ensures program { IfOk result (λ p. program_view p.0 ≡ generated_program size) }
    ensures actors { IfOk result (λ p. p.1.actors.items ≡ actors_of (generated_script number size)) }
    ensures script { IfOk result (λ p. p.1.forms.items ≡ generated_script number size) }
    ensures sound { program_faults (generated_program size) ≡ [] }
    ensures runs { script_faults false (generated_states size) None (generated_script number size) ≡ [] }
{
    let program = checked_program(alloc, size)?;
    let script = generated_script(alloc, number, size)?;
    Ok((program, script))
}
