// The parser of expressions.
ghost use Rattle.std.specs.Prelude.{◌≡◌, ◌≤◌, IfOk, map};
ghost use Rattle.std.specs.Option.{option_map};
ghost use Rattle.lang_ast.specs.SyntaxView.{expr_view, exprs_view, named_view, nameds_view};
ghost use Rattle.lang_ast.specs.Terms.{Literal};
ghost use Rattle.lang_forms.specs.Readings.{string_of, leaf_of, expr_at, expr_of, exprs_of, get_form, apply_form, expr_form, pair_form, pair_at, pairs_form, pairs_of, binding_of, named_pairs_of};
ghost use Rattle.lang_forms.specs.Views.{widest, seen_tree, seen_all, state_names, Reads};

use crate::cursor::{is_at_end, is_good_name, parse_name, skip_keyword};
use crate::keywords::{has_operands, parse_keyword};
use crate::known_names::state_number;
use crate::literals::{parse_plain_literal, parse_string};
use crate::stop::ParseStop;
use lang_ast::{Expression, Ident, Named, Source, State};
use rt_values::Word;
use sexp_text::Tree;
use std::alloc::Global;

// Parses an atom as an expression.
#[tactic(auto, unfolding(crate::specs::Readings::leaf_of), using(lang_ast::proofs::Views::views))]
fn parse_leaf(alloc: Global, at: usize, atom: &[u8]) -> Result<Expression, ParseStop>
    ensures { Reads expr_view result (leaf_of at atom.now) }
{
    if is_good_name(atom) {
        let text = Word::of(alloc, atom)?;
        return Ok(Expression::Variable {
            name: Ident { at, text },
        });
    }
    let value = parse_plain_literal(alloc, atom)?;
    Ok(Expression::Literal { at, value })
}

// Parses a string as an expression.
#[tactic(auto, using(lang_ast::proofs::Views::views))]
fn parse_string_expression(alloc: Global, at: usize, chars: &[u8]) -> Result<Expression, ParseStop>
    ensures { Reads expr_view result (option_map (Literal at) (string_of chars.now)) }
{
    let value = parse_string(alloc, chars)?;
    Ok(Expression::Literal { at, value })
}

// Parses `NAME` after the word `get`.
#[tactic(auto, unfolding(crate::specs::Readings::get_form), using(lang_ast::proofs::Views::views))]
fn parse_get(
    alloc: Global,
    states: &[State],
    at: usize,
    trees: &[Tree],
) -> Result<Expression, ParseStop>
    ensures { Reads expr_view result (get_form (state_names states.now) at (seen_all trees.now)) }
{
    let (name, rest) = parse_name(alloc, trees)?;
    if is_at_end(rest) {
        let source = Source::State(state_number(states, &name.text) as u64);
        Ok(Expression::Get { at, name, source })
    } else {
        Err(ParseStop::NoForm)
    }
}

// Parses a tree as an expression.
#[tactic(auto, using(crate::proofs::Trees::trees))]
#[cycle(expressions)]
fn parse_expression(alloc: Global, states: &[State], tree: &Tree) -> Result<Expression, ParseStop>
    ensures { Reads expr_view result (expr_at (state_names states.now) (seen_tree tree.now)) }
{
    match tree {
        Tree::Atom(at, atom) => parse_leaf(alloc, *at, atom.bytes()),
        Tree::Text(at, chars) => parse_string_expression(alloc, *at, chars),
        Tree::List(at, inner) => parse_expression_list(alloc, states, *at, inner),
    }
}

// Parses a list as an expression.
#[tactic(auto, unfolding(crate::specs::Readings::expr_form))]
#[cycle(expressions)]
fn parse_expression_list(
    alloc: Global,
    states: &[State],
    at: usize,
    trees: &[Tree],
) -> Result<Expression, ParseStop>
    ensures { Reads expr_view result (expr_form (state_names states.now) at (seen_all trees.now)) }
{
    match skip_keyword(b"get", trees) {
        Some(rest) => parse_get(alloc, states, at, rest),
        None => parse_apply(alloc, states, at, trees),
    }
}

// Parses `OPERATOR EXPR..`.
#[tactic(auto, unfolding(crate::specs::Readings::apply_form), using(lang_ast::proofs::Views::views))]
#[cycle(expressions)]
fn parse_apply(
    alloc: Global,
    states: &[State],
    at: usize,
    trees: &[Tree],
) -> Result<Expression, ParseStop>
    ensures { Reads expr_view result (apply_form (state_names states.now) at (seen_all trees.now)) }
{
    let Some((operator, rest)) = parse_keyword(trees) else {
        return Err(ParseStop::NoForm);
    };
    let operands = parse_expressions(alloc, states, rest)?;
    if has_operands(operator, operands.len()) {
        Ok(Expression::Apply {
            at,
            operator,
            operands,
        })
    } else {
        Err(ParseStop::NoForm)
    }
}

// Parses each of the trees as an expression.
#[tactic(auto, unfolding(crate::specs::Readings::exprs_of))]
#[cycle(expressions)]
pub fn parse_expressions(
    alloc: Global,
    states: &[State],
    trees: &[Tree],
) -> Result<Vec<Expression>, ParseStop>
    ensures { Reads (λ v. map expr_view v.items) result
        (exprs_of (state_names states.now) (seen_all trees.now)) }
{
    let mut exprs = Vec::new(alloc);
    for tree in trees {
        exprs.push(parse_expression(alloc, states, tree)?)?;
    }
    Ok(exprs)
}

// Parses the first tree as an expression, and returns the trees after it.
pub fn parse_first_expression<'a>(
    alloc: Global,
    states: &[State],
    trees: &'a [Tree],
) -> Result<(Expression, &'a [Tree]), ParseStop>
    ensures seen { Reads (λ p. (expr_view p.0, seen_all p.1.now)) result
        (expr_of (state_names states.now) (seen_all trees.now)) }
    ensures within { IfOk result (λ p. widest p.1.now ≤ widest trees.now) }
{
    match trees.split_first() {
        None => Err(ParseStop::NoForm),
        Some((tree, rest)) => {
            let expr = parse_expression(alloc, states, tree)?;
            Ok((expr, rest))
        }
    }
}

// Parses `NAME EXPR`.
#[tactic(auto, unfolding(crate::specs::Readings::pair_form))]
fn parse_pair(alloc: Global, states: &[State], trees: &[Tree]) -> Result<Named, ParseStop>
    ensures { Reads named_view result (pair_form (state_names states.now) (seen_all trees.now)) }
{
    let (name, rest) = parse_name(alloc, trees)?;
    let (value, rest) = parse_first_expression(alloc, states, rest)?;
    if is_at_end(rest) {
        Ok(Named { name, value })
    } else {
        Err(ParseStop::NoForm)
    }
}

// Parses a tree as a name with an expression.
#[tactic(auto, using(crate::proofs::Trees::trees))]
fn parse_pair_tree(alloc: Global, states: &[State], tree: &Tree) -> Result<Named, ParseStop>
    ensures { Reads named_view result (pair_at (state_names states.now) (seen_tree tree.now)) }
{
    match tree {
        Tree::List(_, inner) => parse_pair(alloc, states, inner),
        Tree::Atom(..) => Err(ParseStop::NoForm),
        Tree::Text(..) => Err(ParseStop::NoForm),
    }
}

// Parses each of the trees as a name with an expression.
#[tactic(auto, unfolding(crate::specs::Readings::pairs_form))]
fn parse_pair_list(alloc: Global, states: &[State], trees: &[Tree]) -> Result<Vec<Named>, ParseStop>
    ensures { Reads (λ v. nameds_view v.items) result
        (pairs_form (state_names states.now) (seen_all trees.now)) }
{
    let mut pairs = Vec::new(alloc);
    for tree in trees {
        pairs.push(parse_pair_tree(alloc, states, tree)?)?;
    }
    Ok(pairs)
}

// Parses the first tree as a list of names with expressions, and returns the trees after it.
#[tactic(auto, using(crate::proofs::Trees::trees))]
pub fn parse_pairs<'a>(
    alloc: Global,
    states: &[State],
    trees: &'a [Tree],
) -> Result<(Vec<Named>, &'a [Tree]), ParseStop>
    ensures seen { Reads (λ p. (nameds_view p.0.items, seen_all p.1.now)) result
        (pairs_of (state_names states.now) (seen_all trees.now)) }
    ensures within { IfOk result (λ p. widest p.1.now ≤ widest trees.now) }
{
    match trees.split_first() {
        Some((Tree::List(_, inner), rest)) => {
            let pairs = parse_pair_list(alloc, states, inner)?;
            Ok((pairs, rest))
        }
        _ => Err(ParseStop::NoForm),
    }
}

// Parses `NAME EXPR`, and returns the trees after it.
#[tactic(auto, unfolding(crate::specs::Readings::binding_of))]
pub fn parse_binding<'a>(
    alloc: Global,
    states: &[State],
    trees: &'a [Tree],
) -> Result<(Ident, Expression, &'a [Tree]), ParseStop>
    ensures seen { Reads (λ p. ((p.0, expr_view p.1), seen_all p.2.now)) result
        (binding_of (state_names states.now) (seen_all trees.now)) }
    ensures within { IfOk result (λ p. widest p.2.now ≤ widest trees.now) }
{
    let (name, rest) = parse_name(alloc, trees)?;
    let (value, rest) = parse_first_expression(alloc, states, rest)?;
    Ok((name, value, rest))
}

// Parses `NAME ((NAME EXPR)..)`, and returns the trees after it.
#[tactic(auto, unfolding(crate::specs::Readings::named_pairs_of))]
pub fn parse_named_pairs<'a>(
    alloc: Global,
    states: &[State],
    trees: &'a [Tree],
) -> Result<(Ident, Vec<Named>, &'a [Tree]), ParseStop>
    ensures seen { Reads (λ p. ((p.0, nameds_view p.1.items), seen_all p.2.now)) result
        (named_pairs_of (state_names states.now) (seen_all trees.now)) }
    ensures within { IfOk result (λ p. widest p.2.now ≤ widest trees.now) }
{
    let (name, rest) = parse_name(alloc, trees)?;
    let (pairs, rest) = parse_pairs(alloc, states, rest)?;
    Ok((name, pairs, rest))
}
