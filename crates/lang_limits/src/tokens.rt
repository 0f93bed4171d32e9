// Tokens that exceed their limits.
ghost use Rattle.std.specs.Prelude.{◌≡◌};
ghost use Rattle.sexp_text.specs.View.{tree_view, forest_view};
ghost use Rattle.lang_limits.specs.LeastOffset.{least_offset_from, least};
ghost use Rattle.lang_limits.specs.Tokens.{is_oversized_atom, is_oversized_string, is_oversized_list, is_do, is_script, oversized_offsets, program_trees, script_trees, oversized_script_offsets};

use crate::least::note_excess;
use crate::lengths::MOST_NAME_BYTES;
use crate::numbers::is_oversized_int;
use rt_values::{IntList, Txt};
use sexp_text::Tree;

/// The offsets of the first oversized tokens of the program and of the script.
#[derive(Clone, Copy, Debug, PartialEq, Eq)]
pub struct TokenLimits {
    /// The first oversized token before the script, if any.
    pub program: Option<usize>,
    /// The first oversized token in the script, if any.
    pub script: Option<usize>,
}

// Returns whether an atom is a name that is too long, or a number that does not fit into 64 bits.
fn is_oversized_atom(atom: &[u8]) -> bool
    ensures { result ≡ is_oversized_atom atom.now }
{
    atom.len() > MOST_NAME_BYTES || is_oversized_int(atom)
}

/// Returns whether a string is too long.
pub fn is_oversized_string(chars: &[u8]) -> bool
    ensures { result ≡ is_oversized_string chars.now }
{
    chars.len() > Txt::MOST_BYTES
}

/// Returns whether a list is an `ints` list with too many items.
#[tactic(auto, using(crate::proofs::Walks::walks))]
pub fn is_oversized_list(trees: &[Tree]) -> bool
    ensures { result ≡ is_oversized_list (forest_view trees.now) }
{
    match trees.split_first() {
        None => false,
        Some((Tree::Atom(_, word), rest)) => {
            word.is(b"ints") && rest.len() > IntList::MOST_ITEMS
        }
        Some((Tree::Text(..), _)) => false,
        Some((Tree::List(..), _)) => false,
    }
}

// Updates `least` with the offsets of the oversized tokens of a tree.
#[tactic(auto, using(crate::proofs::Walks::walks))]
#[cycle(tokens)]
fn tree_limit(tree: &Tree, least: Option<usize>) -> Option<usize>
    ensures { result ≡ least_offset_from least (oversized_offsets (tree_view tree.now)) }
{
    match tree {
        Tree::Atom(at, atom) => note_excess(is_oversized_atom(atom.bytes()), *at, least),
        Tree::Text(at, chars) => note_excess(is_oversized_string(chars), *at, least),
        Tree::List(at, trees) => {
            let least = note_excess(is_oversized_list(trees), *at, least);
            trees_limit(trees, least)
        }
    }
}

// Updates `least` with the offsets of the oversized tokens of trees.
#[tactic(auto, using(crate::proofs::Walks::beyond_step))]
#[cycle(tokens)]
fn trees_limit(trees: &[Tree], least: Option<usize>) -> Option<usize>
    ensures { result ≡ least_offset_from least (oversized_offsets (forest_view trees.now)) }
{
    let mut least = least;
    for tree in trees {
        least = tree_limit(tree, least);
    }
    least
}

// Returns whether the first tree is the word `do`.
#[tactic(auto, using(crate::proofs::Walks::walks))]
fn is_do(trees: &[Tree]) -> bool
    ensures { result ≡ is_do (forest_view trees.now) }
{
    match trees.split_first() {
        None => false,
        Some((Tree::Atom(_, word), _)) => word.is(b"do"),
        Some((Tree::Text(..), _)) => false,
        Some((Tree::List(..), _)) => false,
    }
}

// Returns whether a tree is a part of the script.
#[tactic(auto, using(crate::proofs::Walks::walks))]
fn is_script(tree: &Tree) -> bool
    ensures { result ≡ is_script (tree_view tree.now) }
{
    match tree {
        Tree::Atom(..) => false,
        Tree::Text(..) => false,
        Tree::List(_, trees) => is_do(trees),
    }
}

// Returns the least offset of the oversized tokens before the script, and the trees of the script.
#[tactic(auto, using(crate::proofs::Walks::splits))]
fn before_script(trees: &[Tree]) -> (Option<usize>, &[Tree])
    ensures program { result.0 ≡ least (oversized_offsets (program_trees (forest_view trees.now))) }
    ensures script { forest_view result.1.now ≡ script_trees (forest_view trees.now) }
{
    let mut least = None;
    let mut rest = trees;
    while let Some((tree, more)) = rest.split_first() {
        if is_script(tree) {
            return (least, rest);
        }
        least = tree_limit(tree, least);
        rest = more;
    }
    (least, rest)
}

/// Returns the offsets of the first oversized tokens of the program and of the script.
///
/// Oversized are a name of more than 64 bytes, a number beyond 64 bits with a sign, a string of more than 4,096 bytes,
/// and an `ints` list of more than 4,096 items. A rule of this project.
pub fn token_limits(trees: &[Tree]) -> TokenLimits
    ensures program { result.program ≡ least (oversized_offsets (program_trees (forest_view trees.now))) }
    ensures script { result.script ≡ least (oversized_script_offsets (forest_view trees.now)) }
{
    let (program, script) = before_script(trees);
    TokenLimits {
        program,
        script: trees_limit(script, None),
    }
}
