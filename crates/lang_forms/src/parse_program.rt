// The parser of whole source texts: the header, the program and the script.
ghost use Rattle.std.specs.Prelude.{◌≡◌, ℕ, [], Some, Result, Ok, Err, IfOk};
ghost use Rattle.sexp_text.specs.Forest.{Forest};
ghost use Rattle.sexp_text.specs.View.{forest_view};
ghost use Rattle.lang_ast.specs.Programs.{program_view};
ghost use Rattle.lang_limits.specs.LeastOffset.{least};
ghost use Rattle.lang_limits.specs.Sizes.{program_limits};
ghost use Rattle.lang_limits.specs.Tokens.{oversized_offsets, program_trees, oversized_script_offsets};
ghost use Rattle.lang_limits.specs.Clamped.{clamped_trees};
ghost use Rattle.lang_forms.specs.TextAnswers.{parsed_answer, text_answer};
ghost use Rattle.lang_forms.specs.Sources.{Source, parsed_source_view};
ghost use Rattle.lang_forms.specs.Forms.{HasForms};
ghost use Rattle.lang_forms.specs.Readings.{seen_trees};
ghost use Rattle.lang_forms.specs.TextReading.{source, tops_of, text_of};
ghost use Rattle.lang_forms.specs.FirstWrong.{IsFirstWrong, IsAnswerFor, Answers};
ghost use Rattle.lang_forms.specs.Views.{seen_all, partial_source_view, Gives};

use crate::FormStop;
use crate::partial_source::PartialSource;
use crate::stop::ParseStop;
use crate::top_forms::{offset_of, parse_header};
use lang_ast::{Program, Rest};
use lang_limits::{TokenLimits, clamped_trees, size_limit, token_limits};
use sexp_text::Tree;
use std::alloc::Global;

// Parses the top forms after those of `front`.
#[tactic(auto, unfolding(crate::specs::TextReading::tops_of))]
fn parse_top_forms(
    alloc: Global,
    front: PartialSource,
    trees: &[Tree],
) -> Result<PartialSource, FormStop>
    ensures { Gives partial_source_view result (tops_of (partial_source_view front) (seen_all trees.now)) }
{
    let mut read = front;
    for tree in trees {
        match read.with_tree(alloc, tree) {
            Ok(more) => {
                read = more;
            }
            Err(ParseStop::NoForm) => {
                return Err(FormStop::Form {
                    at: offset_of(tree),
                });
            }
            Err(ParseStop::NoMemory) => {
                return Err(FormStop::NoMemory);
            }
        }
    }
    Ok(read)
}

// Parses the header and the top forms after it.
#[tactic(auto, unfolding(crate::specs::TextReading::text_of))]
fn parse_text(alloc: Global, trees: &[Tree], end: usize) -> Result<PartialSource, FormStop>
    ensures { Gives partial_source_view result (text_of end (seen_all trees.now)) }
{
    let Some((header, rest)) = trees.split_first() else {
        return Err(FormStop::Form { at: end });
    };
    let Some(version) = parse_header(header) else {
        return Err(FormStop::Form {
            at: offset_of(header),
        });
    };
    let front = PartialSource::new(alloc, offset_of(header), version);
    parse_top_forms(alloc, front, rest)
}

// Parses the trees clamped to the limits. Copies them only if a token is oversized.
#[tactic(auto, using(crate::proofs::SeenIs::seen_is, crate::proofs::Limits::all_within))]
fn parse_clamped_text(
    alloc: Global,
    trees: &[Tree],
    end: usize,
    limits: TokenLimits,
) -> Result<PartialSource, FormStop>
    requires program { limits.program ≡ least (oversized_offsets (program_trees (forest_view trees.now))) }
    requires script { limits.script ≡ least (oversized_script_offsets (forest_view trees.now)) }
    ensures { Gives partial_source_view result (text_of end (seen_trees (clamped_trees (forest_view trees.now)))) }
{
    if limits.program.is_none() && limits.script.is_none() {
        return parse_text(alloc, trees, end);
    }
    let small = clamped_trees(alloc, trees)?;
    parse_text(alloc, &small, end)
}

// Returns the parsed text, or the first offset of its program that exceeds a limit. The clauses hold for all trees with
// these limits, since only the least offset counts.
#[tactic(auto, using(lang_limits::proofs::Lesser::least_append, lang_limits::proofs::Lesser::none_exceeds))]
fn unless_beyond(front: PartialSource, limits: TokenLimits) -> Result<(Program, Rest), FormStop>
    ensures read { (f : Forest) → limits.program ≡ least (oversized_offsets (program_trees f)) →
        Answers parsed_source_view result (parsed_answer f (Ok (source (partial_source_view front)))) }
    ensures beyond { IfOk result (λ r. r.1.first_oversized ≡ limits.script) }
{
    match size_limit(&front.states, &front.functions, limits.program) {
        Some(at) => Err(FormStop::Limit { at }),
        None => Ok((
            Program {
                header: front.header,
                version: front.version,
                states: front.states,
                functions: front.functions,
            },
            Rest {
                forms: front.script,
                first_oversized: limits.script,
            },
        )),
    }
}

// Parses the trees clamped to the limits, and refuses a program that exceeds a limit.
fn text_or_limit(alloc: Global, trees: &[Tree], end: usize) -> Result<(Program, Rest), FormStop>
    ensures read { Answers parsed_source_view result (text_answer end (forest_view trees.now)) }
    ensures beyond { IfOk result (λ r. r.1.first_oversized ≡ least (oversized_script_offsets (forest_view trees.now))) }
{
    let limits = token_limits(trees);
    let front = parse_clamped_text(alloc, trees, end, limits)?;
    unless_beyond(front, limits)
}

/// Parses trees as a program with its script. `end` is the length of the input in bytes.
///
/// A `get` of an unknown state has the number of states as its number, and a call of an unknown function the number of
/// functions before it. `Rest` has the offset of the first oversized token of the script. A rule of this project. Fails
/// at the first top form that is wrong or out of order, or at `end` if there are no trees; at the first offset of the
/// program that exceeds a limit, if the forms are right; and if memory runs out.
pub fn program(alloc: Global, trees: &[Tree], end: usize) -> Result<(Program, Rest), FormStop>
    ensures answer { (a : Result Source FormStop) → IsAnswerFor end (forest_view trees.now) a →
        Answers parsed_source_view result a }
    ensures forms { IfOk result (λ r. HasForms (clamped_trees (forest_view trees.now)) (parsed_source_view r)) }
    ensures small { IfOk result (λ r. program_limits (forest_view trees.now) (program_view r.0)
        ≡ []) }
    ensures beyond { IfOk result (λ r. r.1.first_oversized ≡ least (oversized_script_offsets (forest_view trees.now))) }
    ensures stop { (at : ℕ) → result ≡ Err (FormStop.Form at) →
        IsFirstWrong end (clamped_trees (forest_view trees.now)) at }
    ensures limit { (at : ℕ) → result ≡ Err (FormStop.Limit at) →
        (t : Source) × HasForms (clamped_trees (forest_view trees.now)) t
        × (least (program_limits (forest_view trees.now) t.program) ≡ Some at) }
{
    text_or_limit(alloc, trees, end)
}
