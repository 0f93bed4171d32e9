// Printing of trees.
ghost use Rattle.std.specs.Prelude.{◌≡◌, ◌++◌, ◌∷◌, [], false, IfOk, OnOk};
ghost use Rattle.sexp_text.specs.View.{tree_view, forest_view};
ghost use Rattle.rt_values.specs.Values.{escape, escape_all};
ghost use Rattle.sexp_text.specs.Layout.{separator, inline_form, lines, CanBeSpelled, SpellsUnplaced};

use crate::Tree;
use std::alloc::{AllocError, Global};

// Appends a byte of a string, escaped if it needs to be.
fn print_char(out: &mut Vec<u8>, c: u8) -> Result<(), AllocError>
    ensures { OnOk result (out.new.items ≡ out.old.items ++ escape c) }
{
    match c {
        b'"' => out.extend_from_slice(b"\\\""),
        b'\\' => out.extend_from_slice(b"\\\\"),
        b'\n' => out.extend_from_slice(b"\\n"),
        _ => out.extend_from_slice(&[c]),
    }
}

// Appends a string in its quotes.
#[tactic(auto, using(crate::proofs::Layouts::quotes))]
fn print_text(out: &mut Vec<u8>, chars: &[u8]) -> Result<(), AllocError>
    ensures { OnOk result (out.new.items ≡ out.old.items ++ 34 ∷ escape_all chars.now ++ 34 ∷ []) }
{
    out.push(b'"')?;
    for c in chars {
        print_char(out, *c)?;
    }
    out.push(b'"')?;
    Ok(())
}

// Appends a blank if `due`.
fn print_blank(out: &mut Vec<u8>, due: bool) -> Result<(), AllocError>
    ensures { OnOk result (out.new.items ≡ out.old.items ++ separator due) }
{
    if due {
        out.push(b' ')?;
    }
    Ok(())
}

// Appends a tree on one line.
#[cycle(print_trees)]
#[tactic(auto, using(crate::proofs::Trees::views))]
fn print_tree(out: &mut Vec<u8>, tree: &Tree) -> Result<(), AllocError>
    ensures ok { OnOk result (out.new.items ≡ out.old.items ++ inline_form false (tree_view tree.now)) }
{
    match tree {
        Tree::Atom(_, name) => out.extend_from_slice(name.bytes()),
        Tree::Text(_, chars) => print_text(out, chars),
        Tree::List(_, trees) => {
            out.push(b'(')?;
            print_row(out, trees)?;
            out.push(b')')?;
            Ok(())
        }
    }
}

// Appends the trees of a list, separated by one blank.
#[cycle(print_trees)]
fn print_row(out: &mut Vec<u8>, trees: &Vec<Tree>) -> Result<(), AllocError>
    ensures ok { OnOk result (out.new.items ≡ out.old.items
        ++ inline_form false (forest_view trees.now.items)) }
{
    for (i, tree) in trees.iter().enumerate() {
        print_blank(out, i > 0)?;
        print_tree(out, tree)?;
    }
    Ok(())
}

/// Prints trees, each on a line of its own that LF ends.
///
/// The trees of a list are separated by one blank, with none inside the parentheses. Strings have
/// escapes only where they need them. A rule of this project. Fails only if memory runs out. The
/// stack grows with the nesting of the trees.
pub fn print(alloc: Global, trees: &[Tree]) -> Result<Vec<u8>, AllocError>
    ensures text { IfOk result (λ v. v.items ≡ lines (forest_view trees.now)) }
    ensures spells { IfOk result (λ v. CanBeSpelled (forest_view trees.now) →
        SpellsUnplaced v.items (forest_view trees.now)) }
{
    let mut out = Vec::new(alloc);
    for tree in trees {
        print_tree(&mut out, tree)?;
        out.push(b'\n')?;
    }
    Ok(out)
}
