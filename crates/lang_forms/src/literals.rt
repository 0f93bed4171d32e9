// The parser of literals: numbers, truth values, strings and lists of numbers.
ghost use Rattle.std.specs.Prelude.{◌≡◌, Bool, Option, List, ℤ, IfOk, codes};
ghost use Rattle.std.specs.Str.{is_utf8};
ghost use Rattle.lang_forms.specs.Readings.{int_of, truth_of, plain_of, string_of, int_at, number_of_first, ints_of, literal_form, literal_at, literal_of};
ghost use Rattle.lang_forms.specs.Views.{seen_tree, seen_all, Reads};

use crate::cursor::{same_bytes, skip_keyword};
use crate::stop::ParseStop;
use rt_values::{IntList, Txt, Value};
use sexp_text::Tree;
use std::alloc::{AllocError, Global};

// Parses the decimals of a number. Returns `None` for all other bytes.
#[tactic(auto, unfolding(crate::specs::Readings::int_of))]
fn parse_int(alloc: Global, digits: &[u8]) -> Result<Option<i64>, AllocError>
    ensures { IfOk result (λ o. o ≡ int_of digits.now) }
{
    let Ok(text) = std::str::from_utf8(digits) else {
        return Ok(None);
    };
    let Ok(number) = text.parse::<i64>() else {
        return Ok(None);
    };
    let decimals = number.to_string(alloc)?;
    if same_bytes(decimals.as_bytes(), digits) {
        Ok(Some(number))
    } else {
        Ok(None)
    }
}

// Parses `true` and `false`.
#[tactic(auto, unfolding(crate::specs::Readings::truth_of))]
fn parse_truth(atom: &[u8]) -> Option<Value>
    ensures { result ≡ truth_of atom.now }
{
    if same_bytes(atom, b"true") {
        Some(Value::Bool(true))
    } else if same_bytes(atom, b"false") {
        Some(Value::Bool(false))
    } else {
        None
    }
}

// Parses an atom as a literal.
#[tactic(auto, unfolding(crate::specs::Readings::plain_of))]
pub fn parse_plain_literal(alloc: Global, atom: &[u8]) -> Result<Value, ParseStop>
    ensures { Reads (λ v. v) result (plain_of atom.now) }
{
    if let Some(number) = parse_int(alloc, atom)? {
        return Ok(Value::Int(number));
    }
    match parse_truth(atom) {
        Some(truth) => Ok(truth),
        None => Err(ParseStop::NoForm),
    }
}

// Returns whether the bytes are UTF-8.
fn is_text(chars: &[u8]) -> bool
    ensures { result ≡ is_utf8 chars.now }
{
    match std::str::from_utf8(chars) {
        Ok(_) => true,
        Err(_) => false,
    }
}

// Parses a string as a literal.
#[tactic(auto, unfolding(crate::specs::Readings::string_of), using(crate::proofs::Ints::characters))]
pub fn parse_string(alloc: Global, chars: &[u8]) -> Result<Value, ParseStop>
    ensures { Reads (λ v. v) result (string_of chars.now) }
{
    if is_text(chars) && chars.len() <= Txt::MOST_BYTES {
        Ok(Value::Text(Txt::of(alloc, chars)?))
    } else {
        Err(ParseStop::NoForm)
    }
}

// Parses a tree as a number.
#[tactic(auto, using(crate::proofs::Trees::trees))]
fn parse_int_tree(alloc: Global, tree: &Tree) -> Result<i64, ParseStop>
    ensures { Reads (λ z. z) result (int_at (seen_tree tree.now)) }
{
    match tree {
        Tree::Atom(_, digits) => match parse_int(alloc, digits.bytes())? {
            Some(number) => Ok(number),
            None => Err(ParseStop::NoForm),
        },
        Tree::Text(..) => Err(ParseStop::NoForm),
        Tree::List(..) => Err(ParseStop::NoForm),
    }
}

// Parses the first tree as a number, and returns the trees after it.
pub fn parse_first_int(alloc: Global, trees: &[Tree]) -> Result<(i64, &[Tree]), ParseStop>
    ensures { Reads (λ p. (p.0, seen_all p.1.now)) result
        (number_of_first (seen_all trees.now)) }
{
    match trees.split_first() {
        None => Err(ParseStop::NoForm),
        Some((tree, rest)) => {
            let number = parse_int_tree(alloc, tree)?;
            Ok((number, rest))
        }
    }
}

// Parses each of the trees as a number.
#[tactic(auto, unfolding(crate::specs::Readings::ints_of))]
fn parse_int_list(alloc: Global, trees: &[Tree]) -> Result<Vec<i64>, ParseStop>
    ensures { Reads (λ v. v.items) result (ints_of (seen_all trees.now)) }
{
    let mut ints = Vec::new(alloc);
    for tree in trees {
        ints.push(parse_int_tree(alloc, tree)?)?;
    }
    Ok(ints)
}

// Parses `INT..` after the word `ints`, which is the first tree.
#[tactic(auto, unfolding(crate::specs::Readings::literal_form))]
fn parse_literal_list(alloc: Global, trees: &[Tree]) -> Result<Value, ParseStop>
    ensures { Reads (λ v. v) result (literal_form (seen_all trees.now)) }
{
    let Some(rest) = skip_keyword(b"ints", trees) else {
        return Err(ParseStop::NoForm);
    };
    let items = parse_int_list(alloc, rest)?;
    if items.len() <= IntList::MOST_ITEMS {
        Ok(Value::Ints(IntList::of(alloc, &items)?))
    } else {
        Err(ParseStop::NoForm)
    }
}

// Parses a tree as a literal.
#[tactic(auto, using(crate::proofs::Trees::trees))]
fn parse_literal_tree(alloc: Global, tree: &Tree) -> Result<Value, ParseStop>
    ensures { Reads (λ v. v) result (literal_at (seen_tree tree.now)) }
{
    match tree {
        Tree::Atom(_, atom) => parse_plain_literal(alloc, atom.bytes()),
        Tree::Text(_, chars) => parse_string(alloc, chars),
        Tree::List(_, inner) => parse_literal_list(alloc, inner),
    }
}

// Parses the first tree as a literal, and returns the trees after it.
pub fn parse_literal(alloc: Global, trees: &[Tree]) -> Result<(Value, &[Tree]), ParseStop>
    ensures { Reads (λ p. (p.0, seen_all p.1.now)) result (literal_of (seen_all trees.now)) }
{
    match trees.split_first() {
        None => Err(ParseStop::NoForm),
        Some((tree, rest)) => {
            let value = parse_literal_tree(alloc, tree)?;
            Ok((value, rest))
        }
    }
}
