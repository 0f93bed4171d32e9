// Comparison of trees.
ghost use Rattle.std.specs.Prelude.{◌≡◌, true};
ghost use Rattle.sexp_text.specs.Forest.{without_offsets};
ghost use Rattle.sexp_text.specs.View.{tree_view, forest_view};
ghost use Rattle.sexp_text.specs.Same.{same_forest};

use crate::Tree;

// Whether two trees are equal except for their offsets.
#[tactic(auto, using(crate::proofs::Sames::pairs))]
#[cycle(comparison)]
fn is_same_tree(left: &Tree, right: &Tree) -> bool
    ensures { result ≡ same_forest (tree_view left.now) (tree_view right.now) }
{
    match left {
        Tree::Atom(_, name) => match right {
            Tree::Atom(_, other) => name.is(other.bytes()),
            Tree::Text(..) => false,
            Tree::List(..) => false,
        },
        Tree::Text(_, chars) => match right {
            Tree::Atom(..) => false,
            Tree::Text(_, other) => chars.as_slice() == other.as_slice(),
            Tree::List(..) => false,
        },
        Tree::List(_, inner) => match right {
            Tree::Atom(..) => false,
            Tree::Text(..) => false,
            Tree::List(_, other) => are_same_trees(inner, other),
        },
    }
}

// Whether two lists of trees are equal except for their offsets.
#[tactic(auto, using(crate::proofs::Sames::walks))]
#[cycle(comparison)]
fn are_same_trees(left: &[Tree], right: &[Tree]) -> bool
    ensures { result ≡ same_forest (forest_view left.now) (forest_view right.now) }
{
    let mut rest = right;
    for tree in left {
        let Some((other, more)) = rest.split_first() else {
            return false;
        };
        if !is_same_tree(tree, other) {
            return false;
        }
        rest = more;
    }
    rest.is_empty()
}

/// Whether two forests are equal except for the offsets of their trees. A rule of this project.
pub fn same_trees(left: &[Tree], right: &[Tree]) -> bool
    ensures same { result ≡ true → without_offsets (forest_view left.now) ≡ without_offsets (forest_view right.now) }
    ensures other { without_offsets (forest_view left.now) ≡ without_offsets (forest_view right.now) → result ≡ true }
{
    are_same_trees(left, right)
}
