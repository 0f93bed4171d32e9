// Parsing of a source text into a checked program and its script.
ghost use Rattle.std.specs.Prelude.{◌≡◌, ◌⊎◌, ◌≤◌, [], ℕ, List, Some, None, Err, IfOk, OnOk, length};
ghost use Rattle.sexp_text.specs.Forest.{list_nesting};
ghost use Rattle.sexp_text.specs.Grammar.{Spells};
ghost use Rattle.sexp_text.specs.View.{forest_view};
ghost use Rattle.play_core.specs.declared.fault.Fault.{Fault as fault_data};
ghost use Rattle.lang_ast.specs.Programs.{program_view};
ghost use Rattle.lang_limits.specs.LeastOffset.{least};
ghost use Rattle.lang_limits.specs.Sizes.{program_limits};
ghost use Rattle.lang_limits.specs.Tokens.{oversized_script_offsets};
ghost use Rattle.lang_limits.specs.Clamped.{clamped_trees};
ghost use Rattle.lang_forms.specs.TextAnswers.{text_answer};
ghost use Rattle.lang_forms.specs.Forms.{HasForms};
ghost use Rattle.lang_forms.specs.Sources.{parsed_source_view};
ghost use Rattle.lang_forms.specs.FirstWrong.{Answers};
ghost use Rattle.lang_checks.specs.Numbers.{IsNumberedProgram};
ghost use Rattle.play_core.specs.Texts.{IsInput, IsNoText};
ghost use Rattle.play_core.specs.Faults.{IsFault};
ghost use Rattle.play_core.specs.ParserRefusal.{refusal};

use crate::fault::{Fault, FaultKind};
use lang_ast::{Program, Rest};
use lang_checks::{CheckKind, CheckStop, check};
use lang_forms::FormStop;
use play_run::Job;
use script_lang::{ScriptStop, script_of};
use sexp_text::{TextStop, Tree, read};
use std::alloc::Global;

/// Why an input is rejected.
#[derive(Clone, Copy, Debug, PartialEq, Eq)]
pub enum TextEnd {
    /// The input is not a source text.
    Bad(Fault),
    NoMemory,
}

impl From<TextStop> for TextEnd {
    ghost use Rattle.std.specs.Prelude.{◌≡◌};
    ghost use Rattle.play_core.specs.StageFaults.{text_end};

    ghost from_gives = { λ stop end. end ≡ text_end stop };

    fn from(stop: TextStop) -> Self {
        let (kind, at) = match stop {
            TextStop::NotUtf8 { at } => (FaultKind::Utf8, at),
            TextStop::Bad { at } => (FaultKind::Text, at),
            TextStop::TooDeep { at } => (FaultKind::Deep, at),
            TextStop::NoMemory => return TextEnd::NoMemory,
        };
        TextEnd::Bad(Fault { kind, at })
    }
}

impl From<FormStop> for TextEnd {
    ghost use Rattle.std.specs.Prelude.{◌≡◌};
    ghost use Rattle.play_core.specs.StageFaults.{form_end};

    ghost from_gives = { λ stop end. end ≡ form_end stop };

    fn from(stop: FormStop) -> Self {
        let (kind, at) = match stop {
            FormStop::Form { at } => (FaultKind::Form, at),
            FormStop::Limit { at } => (FaultKind::Limit, at),
            FormStop::NoMemory => return TextEnd::NoMemory,
        };
        TextEnd::Bad(Fault { kind, at })
    }
}

impl From<CheckKind> for FaultKind {
    ghost use Rattle.std.specs.Prelude.{◌≡◌};
    ghost use Rattle.play_core.specs.StageFaults.{check_kind};

    ghost from_gives = { λ kind same. same ≡ check_kind kind };

    fn from(kind: CheckKind) -> Self {
        match kind {
            CheckKind::Double => FaultKind::Double,
            CheckKind::Unknown => FaultKind::Unknown,
            CheckKind::Order => FaultKind::Order,
            CheckKind::Type => FaultKind::Type,
            CheckKind::Remember => FaultKind::Remember,
        }
    }
}

impl From<CheckStop> for TextEnd {
    ghost use Rattle.std.specs.Prelude.{◌≡◌};
    ghost use Rattle.play_core.specs.StageFaults.{check_end};

    ghost from_gives = { λ stop end. end ≡ check_end stop };

    fn from(stop: CheckStop) -> Self {
        match stop {
            CheckStop::ProgramFault(fault) => TextEnd::Bad(Fault {
                kind: FaultKind::from(fault.kind),
                at: fault.at,
            }),
            CheckStop::NoMemory => TextEnd::NoMemory,
        }
    }
}

impl From<ScriptStop> for TextEnd {
    ghost use Rattle.std.specs.Prelude.{◌≡◌};
    ghost use Rattle.play_core.specs.StageFaults.{script_end};

    ghost from_gives = { λ stop end. end ≡ script_end stop };

    fn from(stop: ScriptStop) -> Self {
        let (kind, at) = match stop {
            ScriptStop::Limit { at } => (FaultKind::Limit, at),
            ScriptStop::Unknown { at } => (FaultKind::Unknown, at),
            ScriptStop::Type { at } => (FaultKind::Type, at),
            ScriptStop::Actor { at } => (FaultKind::Actor, at),
            ScriptStop::NoMemory => return TextEnd::NoMemory,
        };
        TextEnd::Bad(Fault { kind, at })
    }
}

/// A parsed input: its trees, and the program and the script whose forms they are.
#[derive(Drop)]
pub struct Input {
    pub trees: Vec<Tree>,
    pub job: Job,
}

// Parses trees, with the answer of the parser in its clauses.
fn parse_trees(alloc: Global, trees: &[Tree], end: usize) -> Result<(Program, Rest), FormStop>
    ensures read { Answers parsed_source_view result (text_answer end (forest_view trees.now)) }
    ensures forms { IfOk result (λ r. HasForms (clamped_trees (forest_view trees.now)) (parsed_source_view r)) }
    ensures small { IfOk result (λ r. program_limits (forest_view trees.now) (program_view r.0) ≡ []) }
    ensures numbered { IfOk result (λ r. IsNumberedProgram (program_view r.0)) }
    ensures first_oversized { IfOk result (λ r. r.1.first_oversized
        ≡ least (oversized_script_offsets (forest_view trees.now))) }
{
    lang_forms::program(alloc, trees, end)
}

// Parses the program and the script from the trees of an input of `end` bytes.
fn parse_forms(alloc: Global, trees: Vec<Tree>, end: usize, threads: bool) -> Result<Input, TextEnd>
    ensures ok { (bytes : List ℕ) → Spells bytes (forest_view trees.items) → list_nesting (forest_view trees.items) ≤ 100 →
        IfOk result (λ input. IsInput threads bytes input) }
    ensures fine { OnOk result (refusal threads end (forest_view trees.items) ≡ None) }
    ensures bad { (fault : fault_data) → result ≡ Err (TextEnd.Bad fault) →
        refusal threads end (forest_view trees.items) ≡ Some (TextEnd.Bad fault) }
{
    let (program, rest) = parse_trees(alloc, &trees, end)?;
    let program = check(alloc, program)?;
    let script = script_of(alloc, rest, &program, threads)?;
    Ok(Input {
        trees,
        job: Job { program, script },
    })
}

/// Parses a source text: its trees, its program and its script. `threads`: whether each actor has a thread and snapshot
/// names of its own.
pub fn parse_input(alloc: Global, bytes: &[u8], threads: bool) -> Result<Input, TextEnd>
    ensures ok { IfOk result (λ input. IsInput threads bytes.now input) }
    ensures bad { (fault : fault_data) → result ≡ Err (TextEnd.Bad fault) →
        IsNoText threads bytes.now × IsFault threads bytes.now fault }
    ensures told { (fault : fault_data) → IsFault threads bytes.now fault →
        (result ≡ Err (TextEnd.Bad fault)) ⊎ (result ≡ Err TextEnd.NoMemory) }
{
    let trees = match read(alloc, bytes) {
        Ok(trees) => trees,
        Err(stop) => return Err(TextEnd::from(stop)),
    };
    parse_forms(alloc, trees, bytes.len(), threads)
}
