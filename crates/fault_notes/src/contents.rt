// Parts of trees that messages look up.

use crate::words::text_of;
use sexp_text::Tree;
use std::alloc::AllocError;

/// Returns the offset of a tree.
pub fn offset_of(tree: &Tree) -> usize {
    match tree {
        Tree::Atom(at, _) => *at,
        Tree::Text(at, _) => *at,
        Tree::List(at, _) => *at,
    }
}

/// Returns the atom at an index as text, or an empty text if there is none.
pub fn atom_at(trees: &[Tree], index: usize) -> &str {
    match trees.get(index) {
        Some(Tree::Atom(_, word)) => text_of(word.bytes()),
        _ => "",
    }
}

/// Returns the trees of the list at an index, or no trees if there is none.
pub fn list_at(trees: &[Tree], index: usize) -> &[Tree] {
    match trees.get(index) {
        Some(Tree::List(_, inner)) => inner,
        _ => &[],
    }
}

/// Returns the offset of the tree at an index, or `otherwise` if there is none.
pub fn offset_at(trees: &[Tree], index: usize, otherwise: usize) -> usize {
    match trees.get(index) {
        Some(tree) => offset_of(tree),
        None => otherwise,
    }
}

/// Returns the trees of the top form with this word and this name, or no trees if there is none.
pub fn find_named<'a>(trees: &'a [Tree], word: &str, name: &str) -> &'a [Tree] {
    for tree in trees {
        if let Tree::List(_, inner) = tree {
            if atom_at(inner, 0) == word && atom_at(inner, 1) == name {
                return inner;
            }
        }
    }
    &[]
}

// Appends the second atom of each list in a tree that begins with `word`.
#[cycle(names)]
fn add_names_in<'a>(
    names: &mut Vec<&'a str>,
    tree: &'a Tree,
    word: &str,
) -> Result<(), AllocError> {
    match tree {
        Tree::List(_, inner) => {
            if atom_at(inner, 0) == word {
                names.push(atom_at(inner, 1))?;
            }
            add_names(names, inner, word)
        }
        Tree::Atom(..) => Ok(()),
        Tree::Text(..) => Ok(()),
    }
}

/// Appends the second atom of each list in these trees that begins with `word`.
#[cycle(names)]
pub fn add_names<'a>(
    names: &mut Vec<&'a str>,
    trees: &'a [Tree],
    word: &str,
) -> Result<(), AllocError> {
    for tree in trees {
        add_names_in(names, tree, word)?;
    }
    Ok(())
}

// Appends the lists from `tree` to the tree at the offset `at`, and returns whether that tree is in `tree`.
#[cycle(paths)]
fn enter_tree<'a>(
    path: &mut Vec<&'a [Tree]>,
    tree: &'a Tree,
    at: usize,
) -> Result<bool, AllocError> {
    let here = offset_of(tree) == at;
    match tree {
        Tree::List(_, inner) => {
            path.push(inner.as_slice())?;
            if here || enter_trees(path, inner, at)? {
                return Ok(true);
            }
            path.pop();
            Ok(false)
        }
        Tree::Atom(..) => Ok(here),
        Tree::Text(..) => Ok(here),
    }
}

/// Appends the lists from `trees` to the tree at the offset `at`, that tree last if it is a list. Returns whether there is
/// such a tree.
#[cycle(paths)]
pub fn enter_trees<'a>(
    path: &mut Vec<&'a [Tree]>,
    trees: &'a [Tree],
    at: usize,
) -> Result<bool, AllocError> {
    for tree in trees {
        if enter_tree(path, tree, at)? {
            return Ok(true);
        }
    }
    Ok(false)
}
