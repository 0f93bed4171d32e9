// The parser of scripts: frames, repeats, and the steps of actors.
ghost use Rattle.std.specs.Prelude.{◌≡◌, List, codes};
ghost use Rattle.lang_forms.specs.Readings.{during_form, during_at, during_of, frame_form, step_form, step_at, steps_of, repeat_form, actor_step_form, actor_step_at, actor_steps_of, do_form};
ghost use Rattle.lang_forms.specs.Views.{seen_tree, seen_all, state_names, Reads};

use crate::cursor::{is_at_end, parse_name, skip_keyword};
use crate::literals::parse_first_int;
use crate::plain_steps::{parse_plain_step_list, parse_plain_steps};
use crate::stop::ParseStop;
use lang_ast::{CallForms, DoForm, ScriptForm, ScriptForms, State, StepForm, StepForms};
use rt_values::Items;
use sexp_text::Tree;
use std::alloc::Global;

// Parses a list as `during STEP..`.
#[tactic(auto, unfolding(crate::specs::Readings::during_form))]
fn parse_during_list(
    alloc: Global,
    states: &[State],
    trees: &[Tree],
) -> Result<CallForms, ParseStop>
    ensures { Reads (λ v. v) result (during_form (state_names states.now) (seen_all trees.now)) }
{
    match skip_keyword(b"during", trees) {
        Some(rest) => parse_plain_steps(alloc, states, rest),
        None => Err(ParseStop::NoForm),
    }
}

// Parses a tree as `(during STEP..)`.
#[tactic(auto, using(crate::proofs::Trees::trees))]
fn parse_during_tree(alloc: Global, states: &[State], tree: &Tree) -> Result<CallForms, ParseStop>
    ensures { Reads (λ v. v) result (during_at (state_names states.now) (seen_tree tree.now)) }
{
    match tree {
        Tree::List(_, inner) => parse_during_list(alloc, states, inner),
        Tree::Atom(..) => Err(ParseStop::NoForm),
        Tree::Text(..) => Err(ParseStop::NoForm),
    }
}

// Parses the first tree as `(during STEP..)`, and returns the trees after it.
fn parse_during<'a>(
    alloc: Global,
    states: &[State],
    trees: &'a [Tree],
) -> Result<(CallForms, &'a [Tree]), ParseStop>
    ensures { Reads (λ p. (p.0, seen_all p.1.now)) result
        (during_of (state_names states.now) (seen_all trees.now)) }
{
    match trees.split_first() {
        None => Err(ParseStop::NoForm),
        Some((tree, rest)) => {
            let during = parse_during_tree(alloc, states, tree)?;
            Ok((during, rest))
        }
    }
}

// Parses nothing, or `(during STEP..)`, after the word `frame`.
#[tactic(auto, unfolding(crate::specs::Readings::frame_form))]
fn parse_frame(
    alloc: Global,
    states: &[State],
    at: usize,
    trees: &[Tree],
) -> Result<StepForm, ParseStop>
    ensures { Reads (λ s. s) result (frame_form (state_names states.now) at (seen_all trees.now)) }
{
    if is_at_end(trees) {
        return Ok(StepForm::Frame { at });
    }
    let (during, rest) = parse_during(alloc, states, trees)?;
    if is_at_end(rest) {
        Ok(StepForm::FrameDuring { at, during })
    } else {
        Err(ParseStop::NoForm)
    }
}

// Parses a list as a step of a repeat.
#[tactic(auto, unfolding(crate::specs::Readings::step_form))]
fn parse_step_list(
    alloc: Global,
    states: &[State],
    at: usize,
    trees: &[Tree],
) -> Result<StepForm, ParseStop>
    ensures { Reads (λ s. s) result (step_form (state_names states.now) at (seen_all trees.now)) }
{
    if let Some(rest) = skip_keyword(b"frame", trees) {
        return parse_frame(alloc, states, at, rest);
    }
    let call = parse_plain_step_list(alloc, states, at, trees)?;
    Ok(StepForm::Call(call))
}

// Parses a tree as a step of a repeat.
#[tactic(auto, using(crate::proofs::Trees::trees))]
fn parse_step(alloc: Global, states: &[State], tree: &Tree) -> Result<StepForm, ParseStop>
    ensures { Reads (λ s. s) result (step_at (state_names states.now) (seen_tree tree.now)) }
{
    match tree {
        Tree::List(at, inner) => parse_step_list(alloc, states, *at, inner),
        Tree::Atom(..) => Err(ParseStop::NoForm),
        Tree::Text(..) => Err(ParseStop::NoForm),
    }
}

// Parses each of the trees as a step of a repeat.
#[tactic(auto, unfolding(crate::specs::Readings::steps_of))]
fn parse_steps(alloc: Global, states: &[State], trees: &[Tree]) -> Result<StepForms, ParseStop>
    ensures { Reads (λ v. v) result (steps_of (state_names states.now) (seen_all trees.now)) }
{
    let mut steps = Items::new(alloc);
    for tree in trees {
        steps.push(parse_step(alloc, states, tree)?)?;
    }
    Ok(steps)
}

// Parses `INT STEP..` after the word `repeat`.
#[tactic(auto, unfolding(crate::specs::Readings::repeat_form))]
fn parse_repeat(
    alloc: Global,
    states: &[State],
    at: usize,
    trees: &[Tree],
) -> Result<ScriptForm, ParseStop>
    ensures { Reads (λ s. s) result (repeat_form (state_names states.now) at (seen_all trees.now)) }
{
    let (times, rest) = parse_first_int(alloc, trees)?;
    let steps = parse_steps(alloc, states, rest)?;
    Ok(ScriptForm::Repeat { at, times, steps })
}

// Parses a list as a step of an actor.
#[tactic(auto, unfolding(crate::specs::Readings::actor_step_form))]
fn parse_actor_step_list(
    alloc: Global,
    states: &[State],
    at: usize,
    trees: &[Tree],
) -> Result<ScriptForm, ParseStop>
    ensures { Reads (λ s. s) result
        (actor_step_form (state_names states.now) at (seen_all trees.now)) }
{
    if let Some(rest) = skip_keyword(b"repeat", trees) {
        return parse_repeat(alloc, states, at, rest);
    }
    let step = parse_step_list(alloc, states, at, trees)?;
    Ok(ScriptForm::Once(step))
}

// Parses a tree as a step of an actor.
#[tactic(auto, using(crate::proofs::Trees::trees))]
fn parse_actor_step(alloc: Global, states: &[State], tree: &Tree) -> Result<ScriptForm, ParseStop>
    ensures { Reads (λ s. s) result (actor_step_at (state_names states.now) (seen_tree tree.now)) }
{
    match tree {
        Tree::List(at, inner) => parse_actor_step_list(alloc, states, *at, inner),
        Tree::Atom(..) => Err(ParseStop::NoForm),
        Tree::Text(..) => Err(ParseStop::NoForm),
    }
}

// Parses each of the trees as a step of an actor.
#[tactic(auto, unfolding(crate::specs::Readings::actor_steps_of))]
fn parse_actor_steps(
    alloc: Global,
    states: &[State],
    trees: &[Tree],
) -> Result<ScriptForms, ParseStop>
    ensures { Reads (λ v. v) result (actor_steps_of (state_names states.now) (seen_all trees.now)) }
{
    let mut steps = Items::new(alloc);
    for tree in trees {
        steps.push(parse_actor_step(alloc, states, tree)?)?;
    }
    Ok(steps)
}

// Parses `NAME STEP..` after the word `do`.
#[tactic(auto, unfolding(crate::specs::Readings::do_form))]
pub fn parse_do_form(
    alloc: Global,
    states: &[State],
    at: usize,
    trees: &[Tree],
) -> Result<DoForm, ParseStop>
    ensures { Reads (λ d. d) result (do_form (state_names states.now) at (seen_all trees.now)) }
{
    let (actor, rest) = parse_name(alloc, trees)?;
    let steps = parse_actor_steps(alloc, states, rest)?;
    Ok(DoForm { at, actor, steps })
}
