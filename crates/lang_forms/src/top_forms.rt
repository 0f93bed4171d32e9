// The parser of top forms: states, functions and scripts.
ghost use Rattle.std.specs.Prelude.{◌≡◌, Bool, List, codes};
ghost use Rattle.lang_ast.specs.SyntaxView.{function_view};
ghost use Rattle.lang_forms.specs.Readings.{parameter_form, parameter_at, parameters_form, parameters_of, state_form, function_form, top_form, header_form, top_at, header_at, offset_of};
ghost use Rattle.lang_forms.specs.Views.{seen_tree, seen_all, known_names_view, top_view, Reads};

use crate::cursor::{is_at_end, parse_name, skip_keyword};
use crate::keywords::parse_keyword;
use crate::known_names::KnownNames;
use crate::literals::parse_literal;
use crate::script::parse_do_form;
use crate::statements::parse_statements;
use crate::stop::ParseStop;
use lang_ast::{DoForm, Function, Parameter, State, Version};
use sexp_text::Tree;
use std::alloc::Global;

// A top form after the header.
#[derive(Drop)]
pub enum TopForm {
    State(State),
    Function(Function),
    Do(DoForm),
}

// Parses `NAME TYPE`.
#[tactic(auto, unfolding(crate::specs::Readings::parameter_form))]
fn parse_parameter(alloc: Global, trees: &[Tree]) -> Result<Parameter, ParseStop>
    ensures { Reads (λ p. p) result (parameter_form (seen_all trees.now)) }
{
    let (name, rest) = parse_name(alloc, trees)?;
    let Some((ty, rest)) = parse_keyword(rest) else {
        return Err(ParseStop::NoForm);
    };
    if is_at_end(rest) {
        Ok(Parameter { name, ty })
    } else {
        Err(ParseStop::NoForm)
    }
}

// Parses a tree as a parameter.
#[tactic(auto, using(crate::proofs::Trees::trees))]
fn parse_parameter_tree(alloc: Global, tree: &Tree) -> Result<Parameter, ParseStop>
    ensures { Reads (λ p. p) result (parameter_at (seen_tree tree.now)) }
{
    match tree {
        Tree::List(_, inner) => parse_parameter(alloc, inner),
        Tree::Atom(..) => Err(ParseStop::NoForm),
        Tree::Text(..) => Err(ParseStop::NoForm),
    }
}

// Parses each of the trees as a parameter.
#[tactic(auto, unfolding(crate::specs::Readings::parameters_form))]
fn parse_parameter_list(alloc: Global, trees: &[Tree]) -> Result<Vec<Parameter>, ParseStop>
    ensures { Reads (λ v. v.items) result (parameters_form (seen_all trees.now)) }
{
    let mut parameters = Vec::new(alloc);
    for tree in trees {
        parameters.push(parse_parameter_tree(alloc, tree)?)?;
    }
    Ok(parameters)
}

// Parses the first tree as a list of parameters, and returns the trees after it.
#[tactic(auto, using(crate::proofs::Trees::trees))]
fn parse_parameters(alloc: Global, trees: &[Tree]) -> Result<(Vec<Parameter>, &[Tree]), ParseStop>
    ensures { Reads (λ p. (p.0.items, seen_all p.1.now)) result
        (parameters_of (seen_all trees.now)) }
{
    match trees.split_first() {
        Some((Tree::List(_, inner), rest)) => {
            let parameters = parse_parameter_list(alloc, inner)?;
            Ok((parameters, rest))
        }
        _ => Err(ParseStop::NoForm),
    }
}

// Parses `NAME TYPE POLICY LITERAL` after the word `state`.
#[tactic(auto, unfolding(crate::specs::Readings::state_form))]
fn parse_state(alloc: Global, at: usize, trees: &[Tree]) -> Result<State, ParseStop>
    ensures { Reads (λ s. s) result (state_form at (seen_all trees.now)) }
{
    let (name, rest) = parse_name(alloc, trees)?;
    let Some((ty, rest)) = parse_keyword(rest) else {
        return Err(ParseStop::NoForm);
    };
    let Some((policy, rest)) = parse_keyword(rest) else {
        return Err(ParseStop::NoForm);
    };
    let (initial, rest) = parse_literal(alloc, rest)?;
    if !is_at_end(rest) {
        return Err(ParseStop::NoForm);
    }
    Ok(State {
        at,
        name,
        ty,
        policy,
        initial,
    })
}

// Parses `NAME ((NAME TYPE)..) STMT..` after the word `fun`, and returns the number of the next statement.
#[tactic(auto, unfolding(crate::specs::Readings::function_form))]
fn parse_function(
    alloc: Global,
    known: &KnownNames,
    site: u32,
    at: usize,
    trees: &[Tree],
) -> Result<(Function, u32), ParseStop>
    ensures { Reads (λ p. (function_view p.0, p.1)) result
        (function_form (known_names_view known.now) site at (seen_all trees.now)) }
{
    let (name, rest) = parse_name(alloc, trees)?;
    let (parameters, rest) = parse_parameters(alloc, rest)?;
    let (body, next) = parse_statements(alloc, known, site, rest)?;
    Ok((
        Function {
            at,
            name,
            parameters,
            body,
        },
        next,
    ))
}

// Parses a list as a top form, and returns the number of the next statement.
#[tactic(auto, unfolding(crate::specs::Readings::top_form))]
fn parse_top_list(
    alloc: Global,
    known: &KnownNames,
    site: u32,
    at: usize,
    trees: &[Tree],
) -> Result<(TopForm, u32), ParseStop>
    ensures { Reads (λ p. (top_view p.0, p.1)) result
        (top_form (known_names_view known.now) site at (seen_all trees.now)) }
{
    if let Some(rest) = skip_keyword(b"state", trees) {
        let state = parse_state(alloc, at, rest)?;
        return Ok((TopForm::State(state), site));
    }
    if let Some(rest) = skip_keyword(b"fun", trees) {
        let (function, next) = parse_function(alloc, known, site, at, rest)?;
        return Ok((TopForm::Function(function), next));
    }
    if let Some(rest) = skip_keyword(b"do", trees) {
        let script = parse_do_form(alloc, known.states, at, rest)?;
        return Ok((TopForm::Do(script), site));
    }
    Err(ParseStop::NoForm)
}

// Parses a tree as a top form, and returns the number of the next statement.
#[tactic(auto, using(crate::proofs::Trees::trees))]
pub fn parse_top_form(
    alloc: Global,
    known: &KnownNames,
    site: u32,
    tree: &Tree,
) -> Result<(TopForm, u32), ParseStop>
    ensures { Reads (λ p. (top_view p.0, p.1)) result
        (top_at (known_names_view known.now) site (seen_tree tree.now)) }
{
    match tree {
        Tree::List(at, inner) => parse_top_list(alloc, known, site, *at, inner),
        Tree::Atom(..) => Err(ParseStop::NoForm),
        Tree::Text(..) => Err(ParseStop::NoForm),
    }
}

// Parses `compose VERSION`.
#[tactic(auto, unfolding(crate::specs::Readings::header_form))]
fn parse_header_list(trees: &[Tree]) -> Option<Version>
    ensures { result ≡ header_form (seen_all trees.now) }
{
    let rest = skip_keyword(b"compose", trees)?;
    let (version, rest) = parse_keyword(rest)?;
    if is_at_end(rest) { Some(version) } else { None }
}

// Parses a tree as the header, and returns the version of the notation.
#[tactic(auto, using(crate::proofs::Trees::trees))]
pub fn parse_header(tree: &Tree) -> Option<Version>
    ensures { result ≡ header_at (seen_tree tree.now) }
{
    match tree {
        Tree::List(_, inner) => parse_header_list(inner),
        Tree::Atom(..) => None,
        Tree::Text(..) => None,
    }
}

// Returns the offset of a tree.
#[tactic(auto, using(crate::proofs::Trees::trees))]
pub fn offset_of(tree: &Tree) -> usize
    ensures { result ≡ offset_of (seen_tree tree.now) }
{
    match tree {
        Tree::Atom(at, _) => *at,
        Tree::Text(at, _) => *at,
        Tree::List(at, _) => *at,
    }
}
