// The parser of keywords and heads of statements, which parses all parts but inner statements.
ghost use Rattle.std.specs.Prelude.{◌≡◌, ◌≤◌, IfOk};
ghost use Rattle.lang_ast.specs.SyntaxView.{head_view};
ghost use Rattle.lang_forms.specs.Readings.{statement_for_word, head_of};
ghost use Rattle.lang_forms.specs.Views.{widest, seen_all, state_names, Reads};

use crate::cursor::same_bytes;
use crate::expressions::{parse_binding, parse_first_expression, parse_named_pairs};
use crate::keywords::Keyword;
use crate::stop::ParseStop;
use lang_ast::{Head, State};
use sexp_text::Tree;
use std::alloc::Global;

/// The keyword of a statement with a body.
#[derive(Clone, Copy)]
pub enum BodyWord {
    Node,
    Key,
    For,
    Let,
    Remember,
}

/// The keyword of a statement.
#[derive(Clone, Copy)]
pub enum StatementWord {
    Call,
    If,
    WithBody(BodyWord),
}

#[tactic(auto, unfolding(crate::specs::Readings::statement_for_word))]
impl Keyword for StatementWord {
    ghost table = { statement_for_word };

    fn from_word(word: &[u8]) -> Option<StatementWord> {
        if same_bytes(word, b"node") {
            Some(StatementWord::WithBody(BodyWord::Node))
        } else if same_bytes(word, b"call") {
            Some(StatementWord::Call)
        } else if same_bytes(word, b"key") {
            Some(StatementWord::WithBody(BodyWord::Key))
        } else if same_bytes(word, b"if") {
            Some(StatementWord::If)
        } else if same_bytes(word, b"for") {
            Some(StatementWord::WithBody(BodyWord::For))
        } else if same_bytes(word, b"let") {
            Some(StatementWord::WithBody(BodyWord::Let))
        } else if same_bytes(word, b"remember") {
            Some(StatementWord::WithBody(BodyWord::Remember))
        } else {
            None
        }
    }
}

// Parses `NAME ((NAME EXPR)..) EXPR` after the word `remember`, and returns the trees after it.
#[tactic(auto, unfolding(crate::specs::Readings::head_of))]
fn parse_remember_head<'a>(
    alloc: Global,
    states: &[State],
    trees: &'a [Tree],
) -> Result<(Head, &'a [Tree]), ParseStop>
    ensures seen { Reads (λ p. (head_view p.0, seen_all p.1.now)) result
        (head_of (state_names states.now) BodyWord.Remember (seen_all trees.now)) }
    ensures within { IfOk result (λ p. widest p.1.now ≤ widest trees.now) }
{
    let (name, keys, rest) = parse_named_pairs(alloc, states, trees)?;
    let (value, rest) = parse_first_expression(alloc, states, rest)?;
    Ok((Head::Remember { name, keys, value }, rest))
}

// Parses the parts between the keyword of a statement and its body, and returns the trees of the body.
#[tactic(auto, unfolding(crate::specs::Readings::head_of))]
pub fn parse_head<'a>(
    alloc: Global,
    states: &[State],
    word: BodyWord,
    trees: &'a [Tree],
) -> Result<(Head, &'a [Tree]), ParseStop>
    ensures seen { Reads (λ p. (head_view p.0, seen_all p.1.now)) result
        (head_of (state_names states.now) word (seen_all trees.now)) }
    ensures within { IfOk result (λ p. widest p.1.now ≤ widest trees.now) }
{
    match word {
        BodyWord::Node => {
            let (kind, attributes, rest) = parse_named_pairs(alloc, states, trees)?;
            Ok((Head::Node { kind, attributes }, rest))
        }
        BodyWord::Key => {
            let (key, rest) = parse_first_expression(alloc, states, trees)?;
            Ok((Head::Key { key }, rest))
        }
        BodyWord::For => {
            let (name, list, rest) = parse_binding(alloc, states, trees)?;
            Ok((Head::For { name, list }, rest))
        }
        BodyWord::Let => {
            let (name, value, rest) = parse_binding(alloc, states, trees)?;
            Ok((Head::Let { name, value }, rest))
        }
        BodyWord::Remember => parse_remember_head(alloc, states, trees),
    }
}
