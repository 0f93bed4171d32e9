// Trees clamped to the limits.
ghost use Rattle.std.specs.Prelude.{◌≡◌, IfOk, OnOk};
ghost use Rattle.sexp_text.specs.Forest.{joined_trees};
ghost use Rattle.sexp_text.specs.View.{tree_view, forest_view};
ghost use Rattle.lang_limits.specs.Clamped.{nearest_int, clamped_atom, clamped_string, are_ints, is_oversized_ints, clamped_list, clamped_trees};

use crate::numbers::{is_int, is_oversized_int};
use crate::tokens::{is_oversized_list, is_oversized_string};
use rt_values::{NoMemory, Word};
use sexp_text::Tree;
use std::alloc::Global;

// Returns the number of 64 bits that is nearest to a number that does not fit.
fn nearest_int(number: &[u8]) -> &'static [u8]
    ensures { result.now ≡ nearest_int number.now }
{
    match number.first() {
        Some(b'-') => b"-9223372036854775808",
        _ => b"9223372036854775807",
    }
}

// Copies an atom, or returns the nearest number for one that does not fit into 64 bits.
fn clamped_atom(alloc: Global, atom: &Word) -> Result<Word, NoMemory>
    ensures { IfOk result (λ w. w ≡ clamped_atom atom.now) }
{
    if is_oversized_int(atom.bytes()) {
        return Word::of(alloc, nearest_int(atom.bytes()));
    }
    atom.copy()
}

// Copies a string, or returns the empty string for one that is too long.
fn clamped_string(alloc: Global, chars: &[u8]) -> Result<Vec<u8>, NoMemory>
    ensures { IfOk result (λ v. v.items ≡ clamped_string chars.now) }
{
    if is_oversized_string(chars) {
        return Ok(Vec::new(alloc));
    }
    Ok(chars.to_vec(alloc)?)
}

// Returns whether a tree is a number.
#[tactic(auto, using(crate::proofs::Walks::walks))]
fn is_int_tree(tree: &Tree) -> bool
    ensures { result ≡ are_ints (tree_view tree.now) }
{
    match tree {
        Tree::Atom(_, atom) => is_int(atom.bytes()),
        Tree::Text(..) => false,
        Tree::List(..) => false,
    }
}

// Returns whether all trees are numbers.
#[tactic(auto, using(crate::proofs::Copies::numbers))]
fn are_ints(trees: &[Tree]) -> bool
    ensures { result ≡ are_ints (forest_view trees.now) }
{
    let mut rest = trees;
    while let Some((tree, more)) = rest.split_first() {
        if !is_int_tree(tree) {
            return false;
        }
        rest = more;
    }
    true
}

// Returns whether a list is an `ints` list of too many numbers and nothing else.
#[tactic(auto, using(crate::proofs::Walks::walks))]
fn is_oversized_ints(trees: &[Tree]) -> bool
    ensures { result ≡ is_oversized_ints (forest_view trees.now) }
{
    match trees.split_first() {
        None => false,
        Some((Tree::Atom(..), rest)) => is_oversized_list(trees) && are_ints(rest),
        Some((Tree::Text(..), _)) => false,
        Some((Tree::List(..), _)) => false,
    }
}

// Returns the trees of a list, or the word and the first two numbers if they are an `ints` list of too many numbers.
#[tactic(auto, using(crate::proofs::Copies::numbers))]
fn clamped_list(mut trees: Vec<Tree>) -> Vec<Tree>
    ensures { forest_view result.items ≡ clamped_list (forest_view trees.items) }
{
    if is_oversized_ints(&trees) {
        trees.truncate(3);
    }
    trees
}

// Appends a clamped copy of a tree.
#[tactic(auto, using(crate::proofs::Copies::copies))]
#[cycle(copies)]
fn put_tree(alloc: Global, tree: &Tree, out: &mut Vec<Tree>) -> Result<(), NoMemory>
    ensures { OnOk result (forest_view out.new.items
        ≡ joined_trees (forest_view out.old.items) (clamped_trees (tree_view tree.now))) }
{
    let kept = match tree {
        Tree::Atom(at, atom) => Tree::Atom(*at, clamped_atom(alloc, atom)?),
        Tree::Text(at, chars) => Tree::Text(*at, clamped_string(alloc, chars)?),
        Tree::List(at, trees) => Tree::List(*at, clamped_list(clamped_trees(alloc, trees)?)),
    };
    out.push(kept)?;
    Ok(())
}

/// Copies trees and clamps each oversized token.
///
/// A number becomes the nearest number of 64 bits, a string the empty string, and an `ints` list of too many numbers
/// the list of the first two. Names stay as they are. A rule of this project. Fails if memory runs out.
#[tactic(auto, using(crate::proofs::Copies::within_step, crate::proofs::Copies::copies))]
#[cycle(copies)]
pub fn clamped_trees(alloc: Global, trees: &[Tree]) -> Result<Vec<Tree>, NoMemory>
    ensures { IfOk result (λ v. forest_view v.items ≡ clamped_trees (forest_view trees.now)) }
{
    let mut out = Vec::new(alloc);
    for tree in trees {
        put_tree(alloc, tree, &mut out)?;
    }
    Ok(out)
}
