// Programs from their texts.
ghost use Rattle.std.specs.Prelude.{◌≡◌, ◌≤◌, [], ℕ, List, IfOk, OnOk};
ghost use Rattle.sexp_text.specs.Forest.{list_nesting};
ghost use Rattle.sexp_text.specs.Grammar.{Spells};
ghost use Rattle.sexp_text.specs.View.{forest_view};
ghost use Rattle.lang_ast.specs.Programs.{program_view};
ghost use Rattle.lang_checks.specs.Numbers.{IsNumberedProgram};
ghost use Rattle.lang_forms.specs.Forms.{HasForms};
ghost use Rattle.lang_forms.specs.Sources.{parsed_source_view};
ghost use Rattle.lang_limits.specs.Clamped.{clamped_trees};
ghost use Rattle.lang_limits.specs.Sizes.{program_limits};
ghost use Rattle.compose_app.specs.Programs.{IsProgramOf};

use crate::stops::OpenStop;
use lang_ast::{Program, Rest};
use lang_checks::{Checked, check};
use lang_forms::FormStop;
use sexp_text::{Tree, read};
use std::alloc::Global;

// Parses the trees of a text of `end` bytes. The program is numbered, as `check` requires.
fn parse_trees(alloc: Global, trees: &[Tree], end: usize) -> Result<(Program, Rest), FormStop>
    ensures forms { IfOk result (λ r. HasForms (clamped_trees (forest_view trees.now)) (parsed_source_view r)) }
    ensures small { IfOk result (λ r. program_limits (forest_view trees.now) (program_view r.0) ≡ []) }
    ensures numbered { IfOk result (λ r. IsNumberedProgram (program_view r.0)) }
{
    lang_forms::program(alloc, trees, end)
}

// Parses and checks the program of a text of `end` bytes with these trees.
fn check_trees(alloc: Global, trees: Vec<Tree>, end: usize) -> Result<Checked, OpenStop>
    ensures { (bytes : List ℕ) → Spells bytes (forest_view trees.items) → list_nesting (forest_view trees.items) ≤ 100 →
        IfOk result (λ p. IsProgramOf bytes p) }
{
    let (program, _) = parse_trees(alloc, &trees, end)?;
    Ok(check(alloc, program)?)
}

/// Parses and checks the program of a source text. A script after the program is not looked at.
///
/// Fails with the first of these that goes wrong, at its offset: the lists of the text, the forms, the limits, the
/// names and types. Fails too if memory runs out.
pub fn open(alloc: Global, text: &[u8]) -> Result<Checked, OpenStop>
    ensures { IfOk result (λ p. IsProgramOf text.now p) }
{
    let trees = read(alloc, text)?;
    check_trees(alloc, trees, text.len())
}
