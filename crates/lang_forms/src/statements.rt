// The parser of statements.
ghost use Rattle.std.specs.Prelude.{◌≡◌, ◌≢◌, ◌+◌, ◌≤◌, Err, IfOk, map};
ghost use Rattle.lang_ast.specs.SyntaxView.{stmt_view};
ghost use Rattle.lang_forms.specs.Readings.{stmt_at, stmts_of, block_of, block_form, branches_of, call_form, if_form, stmt_form};
ghost use Rattle.lang_forms.specs.Views.{widest, seen_tree, seen_all, known_names_view, Reads};

use crate::cursor::{is_at_end, parse_name};
use crate::expressions::{parse_expressions, parse_first_expression};
use crate::keywords::parse_keyword;
use crate::known_names::{KnownNames, function_number};
use crate::statement_heads::{BodyWord, StatementWord, parse_head};
use crate::stop::ParseStop;
use lang_ast::Statement;
use sexp_text::Tree;
use std::alloc::Global;

// Returns the next statement number. Fails with `NoMemory` at `u32::MAX`, which no 1 MiB input reaches.
fn site_after(site: u32) -> Result<u32, ParseStop>
    ensures next { IfOk result (λ n. n ≡ site + 1) }
    ensures form { result ≢ Err ParseStop.NoForm }
{
    match site.checked_add(1) {
        Some(next) => Ok(next),
        None => Err(ParseStop::NoMemory),
    }
}

// Parses `NAME EXPR..` after the word `call`.
#[tactic(auto, unfolding(crate::specs::Readings::call_form), using(lang_ast::proofs::Views::views))]
fn parse_call(
    alloc: Global,
    known: &KnownNames,
    site: u32,
    at: usize,
    trees: &[Tree],
) -> Result<(Statement, u32), ParseStop>
    ensures { Reads (λ p. (stmt_view p.0, p.1)) result
        (call_form (known_names_view known.now) site at (seen_all trees.now)) }
{
    let (name, rest) = parse_name(alloc, trees)?;
    let next = site_after(site)?;
    let arguments = parse_expressions(alloc, known.states, rest)?;
    let function = function_number(known.functions, &name.text);
    Ok((
        Statement::Call {
            at,
            site,
            name,
            function,
            arguments,
        },
        next,
    ))
}

// Parses a tree as a statement, and returns the number of the next statement.
#[tactic(auto, using(crate::proofs::Trees::trees))]
#[cycle(statements)]
fn parse_statement(
    alloc: Global,
    known: &KnownNames,
    site: u32,
    tree: &Tree,
) -> Result<(Statement, u32), ParseStop>
    ensures { Reads (λ p. (stmt_view p.0, p.1)) result
        (stmt_at (known_names_view known.now) site (seen_tree tree.now)) }
{
    match tree {
        Tree::List(at, inner) => parse_statement_list(alloc, known, site, *at, inner),
        Tree::Atom(..) => Err(ParseStop::NoForm),
        Tree::Text(..) => Err(ParseStop::NoForm),
    }
}

// Parses a list as a statement, and returns the number of the next statement.
#[tactic(auto, unfolding(crate::specs::Readings::stmt_form))]
#[cycle(statements)]
fn parse_statement_list(
    alloc: Global,
    known: &KnownNames,
    site: u32,
    at: usize,
    trees: &[Tree],
) -> Result<(Statement, u32), ParseStop>
    ensures { Reads (λ p. (stmt_view p.0, p.1)) result
        (stmt_form (known_names_view known.now) site at (seen_all trees.now)) }
{
    match parse_keyword(trees) {
        Some((StatementWord::Call, rest)) => parse_call(alloc, known, site, at, rest),
        Some((StatementWord::If, rest)) => parse_if(alloc, known, site, at, rest),
        Some((StatementWord::WithBody(word), rest)) => {
            parse_with_body(alloc, known, site, at, word, rest)
        }
        None => Err(ParseStop::NoForm),
    }
}

// Parses the parts of a statement with a body after its keyword.
#[tactic(auto, unfolding(crate::specs::Readings::block_form), using(lang_ast::proofs::Views::views))]
#[cycle(statements)]
fn parse_with_body(
    alloc: Global,
    known: &KnownNames,
    site: u32,
    at: usize,
    word: BodyWord,
    trees: &[Tree],
) -> Result<(Statement, u32), ParseStop>
    ensures { Reads (λ p. (stmt_view p.0, p.1)) result
        (block_form (known_names_view known.now) site at word (seen_all trees.now)) }
{
    let (head, rest) = parse_head(alloc, known.states, word, trees)?;
    let (body, next) = parse_body(alloc, known, site, rest)?;
    Ok((
        Statement::Block {
            at,
            site,
            head,
            body,
        },
        next,
    ))
}

// Parses `EXPR (STMT..) (STMT..)` after the word `if`.
#[tactic(auto, unfolding(crate::specs::Readings::if_form), using(lang_ast::proofs::Views::views))]
#[cycle(statements)]
fn parse_if(
    alloc: Global,
    known: &KnownNames,
    site: u32,
    at: usize,
    trees: &[Tree],
) -> Result<(Statement, u32), ParseStop>
    ensures { Reads (λ p. (stmt_view p.0, p.1)) result
        (if_form (known_names_view known.now) site at (seen_all trees.now)) }
{
    let (condition, rest) = parse_first_expression(alloc, known.states, trees)?;
    let (then_branch, else_branch, next) = parse_branches(alloc, known, site, rest)?;
    Ok((
        Statement::If {
            at,
            site,
            condition,
            then_branch,
            else_branch,
        },
        next,
    ))
}

// Parses `(STMT..) (STMT..)` inside the statement with the number `site`, and returns the number of the next statement.
#[tactic(auto, unfolding(crate::specs::Readings::branches_of))]
#[cycle(statements)]
fn parse_branches(
    alloc: Global,
    known: &KnownNames,
    site: u32,
    trees: &[Tree],
) -> Result<(Vec<Statement>, Vec<Statement>, u32), ParseStop>
    ensures { Reads (λ p. ((map stmt_view p.0.items, map stmt_view p.1.items), p.2)) result
        (branches_of (known_names_view known.now) (site + 1) (seen_all trees.now)) }
{
    let first = site_after(site)?;
    let (then_branch, next, rest) = parse_block(alloc, known, first, trees)?;
    let (else_branch, next, rest) = parse_block(alloc, known, next, rest)?;
    if is_at_end(rest) {
        Ok((then_branch, else_branch, next))
    } else {
        Err(ParseStop::NoForm)
    }
}

// Parses the first tree as a list of statements. Returns the number of the next statement and the trees after the
// first.
#[tactic(auto, using(crate::proofs::Trees::trees))]
#[cycle(statements)]
fn parse_block<'a>(
    alloc: Global,
    known: &KnownNames,
    site: u32,
    trees: &'a [Tree],
) -> Result<(Vec<Statement>, u32, &'a [Tree]), ParseStop>
    ensures seen { Reads (λ p. ((map stmt_view p.0.items, p.1), seen_all p.2.now)) result
        (block_of (known_names_view known.now) site (seen_all trees.now)) }
    ensures within { IfOk result (λ p. widest p.2.now ≤ widest trees.now) }
{
    match trees.split_first() {
        Some((Tree::List(_, inner), rest)) => {
            let (stmts, next) = parse_statements(alloc, known, site, inner)?;
            Ok((stmts, next, rest))
        }
        _ => Err(ParseStop::NoForm),
    }
}

// Parses the statements inside the statement with the number `site`, and returns the number of the next statement.
#[cycle(statements)]
fn parse_body(
    alloc: Global,
    known: &KnownNames,
    site: u32,
    trees: &[Tree],
) -> Result<(Vec<Statement>, u32), ParseStop>
    ensures { Reads (λ p. (map stmt_view p.0.items, p.1)) result
        (stmts_of (known_names_view known.now) (site + 1) (seen_all trees.now)) }
{
    let first = site_after(site)?;
    parse_statements(alloc, known, first, trees)
}

// Parses each of the trees as a statement, and returns the number of the next statement.
#[tactic(auto, unfolding(crate::specs::Readings::stmts_of))]
#[cycle(statements)]
pub fn parse_statements(
    alloc: Global,
    known: &KnownNames,
    site: u32,
    trees: &[Tree],
) -> Result<(Vec<Statement>, u32), ParseStop>
    ensures { Reads (λ p. (map stmt_view p.0.items, p.1)) result
        (stmts_of (known_names_view known.now) site (seen_all trees.now)) }
{
    let mut stmts = Vec::new(alloc);
    let mut next = site;
    for tree in trees {
        let (stmt, site_after) = parse_statement(alloc, known, next, tree)?;
        stmts.push(stmt)?;
        next = site_after;
    }
    Ok((stmts, next))
}
