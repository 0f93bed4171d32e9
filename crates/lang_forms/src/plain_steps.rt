// The parser of steps without inner steps.
ghost use Rattle.std.specs.Prelude.{◌≡◌, List, codes};
ghost use Rattle.lang_forms.specs.Readings.{snapshot_of, state_in_snapshot, take_form, read_form, write_form, add_form, only_snapshot, plain_step_form, plain_step_at, plain_steps_of};
ghost use Rattle.lang_forms.specs.Views.{seen_tree, seen_all, state_names, Reads};

use crate::cursor::{is_at_end, parse_name, skip_keyword};
use crate::keywords::parse_keyword;
use crate::known_names::state_number;
use crate::literals::{parse_first_int, parse_literal};
use crate::stop::ParseStop;
use lang_ast::{CallForm, CallForms, Ident, SnapshotRef, State};
use rt_values::Items;
use sexp_text::Tree;
use std::alloc::Global;

// Parses the first tree as a snapshot, and returns the trees after it.
#[tactic(auto, unfolding(crate::specs::Readings::snapshot_of))]
fn parse_snapshot(alloc: Global, trees: &[Tree]) -> Result<(SnapshotRef, &[Tree]), ParseStop>
    ensures { Reads (λ p. (p.0, seen_all p.1.now)) result (snapshot_of (seen_all trees.now)) }
{
    if let Some(rest) = skip_keyword(b"global", trees) {
        return Ok((SnapshotRef::Global, rest));
    }
    let (name, rest) = parse_name(alloc, trees)?;
    Ok((SnapshotRef::Named(name), rest))
}

// Parses `SNAP NAME`, and returns the trees after it.
#[tactic(auto, unfolding(crate::specs::Readings::state_in_snapshot))]
fn parse_state_in_snapshot(
    alloc: Global,
    trees: &[Tree],
) -> Result<(SnapshotRef, Ident, &[Tree]), ParseStop>
    ensures { Reads (λ p. ((p.0, p.1), seen_all p.2.now)) result
        (state_in_snapshot (seen_all trees.now)) }
{
    let (snapshot, rest) = parse_snapshot(alloc, trees)?;
    let (state, rest) = parse_name(alloc, rest)?;
    Ok((snapshot, state, rest))
}

// Parses `NAME mutable SNAP` or `NAME readonly SNAP` after the word `take`.
#[tactic(auto, unfolding(crate::specs::Readings::take_form))]
fn parse_take(alloc: Global, at: usize, trees: &[Tree]) -> Result<CallForm, ParseStop>
    ensures { Reads (λ s. s) result (take_form at (seen_all trees.now)) }
{
    let (name, rest) = parse_name(alloc, trees)?;
    let Some((kind, rest)) = parse_keyword(rest) else {
        return Err(ParseStop::NoForm);
    };
    let (parent, rest) = parse_snapshot(alloc, rest)?;
    if !is_at_end(rest) {
        return Err(ParseStop::NoForm);
    }
    Ok(CallForm::Take {
        at,
        name,
        kind,
        parent,
    })
}

// Parses `SNAP NAME` after the word `read`.
#[tactic(auto, unfolding(crate::specs::Readings::read_form))]
fn parse_read(
    alloc: Global,
    states: &[State],
    at: usize,
    trees: &[Tree],
) -> Result<CallForm, ParseStop>
    ensures { Reads (λ s. s) result (read_form (state_names states.now) at (seen_all trees.now)) }
{
    let (snapshot, state, rest) = parse_state_in_snapshot(alloc, trees)?;
    if !is_at_end(rest) {
        return Err(ParseStop::NoForm);
    }
    let object = state_number(states, &state.text) as u64;
    Ok(CallForm::Read {
        at,
        snapshot,
        state,
        object,
    })
}

// Parses `SNAP NAME LITERAL` after the word `write`.
#[tactic(auto, unfolding(crate::specs::Readings::write_form))]
fn parse_write(
    alloc: Global,
    states: &[State],
    at: usize,
    trees: &[Tree],
) -> Result<CallForm, ParseStop>
    ensures { Reads (λ s. s) result (write_form (state_names states.now) at (seen_all trees.now)) }
{
    let (snapshot, state, rest) = parse_state_in_snapshot(alloc, trees)?;
    let (value, rest) = parse_literal(alloc, rest)?;
    if !is_at_end(rest) {
        return Err(ParseStop::NoForm);
    }
    let object = state_number(states, &state.text) as u64;
    Ok(CallForm::Write {
        at,
        snapshot,
        state,
        object,
        value,
    })
}

// Parses `SNAP NAME INT` after the word `add`.
#[tactic(auto, unfolding(crate::specs::Readings::add_form))]
fn parse_add(
    alloc: Global,
    states: &[State],
    at: usize,
    trees: &[Tree],
) -> Result<CallForm, ParseStop>
    ensures { Reads (λ s. s) result (add_form (state_names states.now) at (seen_all trees.now)) }
{
    let (snapshot, state, rest) = parse_state_in_snapshot(alloc, trees)?;
    let (amount, rest) = parse_first_int(alloc, rest)?;
    if !is_at_end(rest) {
        return Err(ParseStop::NoForm);
    }
    let object = state_number(states, &state.text) as u64;
    Ok(CallForm::Add {
        at,
        snapshot,
        state,
        object,
        amount,
    })
}

// Parses `SNAP` and nothing after it.
#[tactic(auto, unfolding(crate::specs::Readings::only_snapshot))]
fn parse_only_snapshot(alloc: Global, trees: &[Tree]) -> Result<SnapshotRef, ParseStop>
    ensures { Reads (λ s. s) result (only_snapshot (seen_all trees.now)) }
{
    let (snapshot, rest) = parse_snapshot(alloc, trees)?;
    if is_at_end(rest) {
        Ok(snapshot)
    } else {
        Err(ParseStop::NoForm)
    }
}

// Parses a list as a step without inner steps.
#[tactic(auto, unfolding(crate::specs::Readings::plain_step_form))]
pub fn parse_plain_step_list(
    alloc: Global,
    states: &[State],
    at: usize,
    trees: &[Tree],
) -> Result<CallForm, ParseStop>
    ensures { Reads (λ s. s) result
        (plain_step_form (state_names states.now) at (seen_all trees.now)) }
{
    if let Some(rest) = skip_keyword(b"take", trees) {
        return parse_take(alloc, at, rest);
    }
    if let Some(rest) = skip_keyword(b"read", trees) {
        return parse_read(alloc, states, at, rest);
    }
    if let Some(rest) = skip_keyword(b"write", trees) {
        return parse_write(alloc, states, at, rest);
    }
    if let Some(rest) = skip_keyword(b"add", trees) {
        return parse_add(alloc, states, at, rest);
    }
    if let Some(rest) = skip_keyword(b"apply", trees) {
        let snapshot = parse_only_snapshot(alloc, rest)?;
        return Ok(CallForm::Apply { at, snapshot });
    }
    if let Some(rest) = skip_keyword(b"dispose", trees) {
        let snapshot = parse_only_snapshot(alloc, rest)?;
        return Ok(CallForm::Dispose { at, snapshot });
    }
    Err(ParseStop::NoForm)
}

// Parses a tree as a step without inner steps.
#[tactic(auto, using(crate::proofs::Trees::trees))]
fn parse_plain_step(alloc: Global, states: &[State], tree: &Tree) -> Result<CallForm, ParseStop>
    ensures { Reads (λ s. s) result (plain_step_at (state_names states.now) (seen_tree tree.now)) }
{
    match tree {
        Tree::List(at, inner) => parse_plain_step_list(alloc, states, *at, inner),
        Tree::Atom(..) => Err(ParseStop::NoForm),
        Tree::Text(..) => Err(ParseStop::NoForm),
    }
}

// Parses each of the trees as a step without inner steps.
#[tactic(auto, unfolding(crate::specs::Readings::plain_steps_of))]
pub fn parse_plain_steps(
    alloc: Global,
    states: &[State],
    trees: &[Tree],
) -> Result<CallForms, ParseStop>
    ensures { Reads (λ v. v) result
        (plain_steps_of (state_names states.now) (seen_all trees.now)) }
{
    let mut steps = Items::new(alloc);
    for tree in trees {
        steps.push(parse_plain_step(alloc, states, tree)?)?;
    }
    Ok(steps)
}
