// Programs from their text.
ghost use Rattle.std.specs.Prelude.{IfOk};
ghost use Rattle.lang_ast.specs.Programs.{program_view};
ghost use Rattle.lang_checks.specs.Numbers.{IsNumberedProgram};

use lang_ast::{Program, Rest};
use lang_checks::{Checked, check};
use lang_forms::{FormStop, program};
use sexp_text::Tree;
use std::alloc::Global;
use std::test::Fail;

// Parses the trees of a source text of `end` bytes. The program is numbered, as `check` requires.
fn parse_trees(alloc: Global, trees: &[Tree], end: usize) -> Result<(Program, Rest), FormStop>
    ensures numbered { IfOk result (λ r. IsNumberedProgram (program_view r.0)) }
{
    program(alloc, trees, end)
}

/// Parses a source text. The program is numbered.
pub fn parse_program(alloc: Global, text: &[u8]) -> Result<(Program, Rest), Fail>
    ensures numbered { IfOk result (λ r. IsNumberedProgram (program_view r.0)) }
{
    let trees = sexp_text::read(alloc, text)?;
    let (program, rest) = parse_trees(alloc, &trees, text.len())?;
    Ok((program, rest))
}

/// Parses and checks the program of a source text.
pub fn checked_program(alloc: Global, text: &[u8]) -> Result<Checked, Fail> {
    let (program, _) = parse_program(alloc, text)?;
    Ok(check(alloc, program)?)
}
