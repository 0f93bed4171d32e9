// The search for the innermost part of a top form that is not as the notation wants it.

use crate::contents::{atom_at, offset_of};
use crate::expected::{begins_a_number, is_expected_atom};
use crate::forms::{Form, GET, Part, Shape, find_form};
use crate::types::find_operator;
use crate::words::text_of;
use sexp_text::Tree;

/// A mistake in a form.
#[derive(Clone, Copy)]
pub enum Mistake<'a> {
    /// Something else than this part.
    Expected(Part),
    /// A word where this part is expected.
    WrongAtom(Part, &'a str),
    /// A list that begins with a word of no form, where this part is expected.
    UnknownWord(Part, &'a str),
    /// A list with other parts than those of its form, which a message writes so.
    OtherParts(&'static str),
    /// An operator that takes another number of operands than are given.
    OtherCount {
        word: &'a str,
        taken: usize,
        given: usize,
    },
    /// A statement where a list of statements is expected.
    LoneStatement(&'a str),
    /// A form after forms that come later in a source text.
    LateForm,
    /// A source text that begins with another form than the header.
    NoHeader,
}

/// A mistake, with the offset that a note points at.
#[derive(Clone, Copy)]
pub struct Wrong<'a> {
    pub at: usize,
    pub mistake: Mistake<'a>,
}

// Returns the shape of a list of this form, if it has the right number of parts.
fn shape_of_form<'a>(form: Form, inner: &'a [Tree]) -> Result<Shape, Mistake<'a>> {
    let too_many = form.word == "frame" && inner.len() > 2;
    if form.shape.fits(inner.len()) && !too_many {
        Ok(form.shape)
    } else {
        Err(Mistake::OtherParts(form.text))
    }
}

// Returns the shape of a list that is expected as a form.
fn shape_in_place<'a>(part: Part, inner: &'a [Tree]) -> Result<Shape, Mistake<'a>> {
    let word = atom_at(inner, 0);
    if word == "" {
        return Err(Mistake::Expected(part));
    }
    match find_form(part.forms(), word) {
        Some(form) => shape_of_form(form, inner),
        None => Err(Mistake::UnknownWord(part, word)),
    }
}

// Returns the shape of a list that is expected as an expression.
fn shape_of_expression<'a>(inner: &'a [Tree]) -> Result<Shape, Mistake<'a>> {
    let word = atom_at(inner, 0);
    if word == "get" {
        return shape_of_form(GET, inner);
    }
    if word == "ints" {
        return Ok(Shape::words_and(Part::Expression));
    }
    let Some(operator) = find_operator(word) else {
        return Err(if word == "" {
            Mistake::Expected(Part::Expression)
        } else {
            Mistake::UnknownWord(Part::Expression, word)
        });
    };
    let taken = operator.operands.len();
    let given = inner.len().saturating_sub(1);
    if taken == given {
        Ok(Shape::operands(taken))
    } else {
        Err(Mistake::OtherCount { word, taken, given })
    }
}

// Returns the shape of a list that is expected as a list of statements.
fn shape_of_statements<'a>(inner: &'a [Tree]) -> Result<Shape, Mistake<'a>> {
    let word = atom_at(inner, 0);
    match find_form(Part::Statement.forms(), word) {
        Some(_) => Err(Mistake::LoneStatement(word)),
        None => Ok(Shape::list_of(Part::Statement)),
    }
}

// Returns the shape of a list that is expected as a part.
fn shape_of<'a>(part: Part, inner: &'a [Tree]) -> Result<Shape, Mistake<'a>> {
    match part {
        Part::Attributes => Ok(Shape::list_of(Part::Attribute)),
        Part::Parameters => Ok(Shape::list_of(Part::Parameter)),
        Part::Attribute | Part::Parameter if inner.len() == 2 => Ok(Shape::pair(part)),
        Part::Statements => shape_of_statements(inner),
        Part::Literal if atom_at(inner, 0) == "ints" => Ok(Shape::words_and(Part::Int)),
        Part::Expression => shape_of_expression(inner),
        Part::TopForm
        | Part::Statement
        | Part::Step
        | Part::RepeatedStep
        | Part::InnerStep
        | Part::During => shape_in_place(part, inner),
        _ => Err(Mistake::Expected(part)),
    }
}

// Returns the mistake of an atom that is expected as a part.
fn wrong_atom<'a>(part: Part, word: &'a [u8]) -> Option<Mistake<'a>> {
    if is_expected_atom(part, word) {
        return None;
    }
    let meant = match part {
        Part::Expression | Part::Literal if begins_a_number(word) => Part::Int,
        _ => part,
    };
    Some(Mistake::WrongAtom(meant, text_of(word)))
}

// Returns the mistake of a string that is expected as a part.
fn wrong_string<'a>(part: Part) -> Option<Mistake<'a>> {
    match part {
        Part::Literal => None,
        Part::Expression => None,
        _ => Some(Mistake::Expected(part)),
    }
}

// Returns the first mistake in a tree that is expected as a part.
#[cycle(walk)]
fn wrong_tree<'a>(part: Part, tree: &'a Tree) -> Option<Wrong<'a>> {
    let at = offset_of(tree);
    let mistake = match tree {
        Tree::Atom(_, word) => wrong_atom(part, word.bytes())?,
        Tree::Text(..) => wrong_string(part)?,
        Tree::List(_, inner) => match shape_of(part, inner) {
            Ok(shape) => return wrong_trees(shape, inner),
            Err(mistake) => mistake,
        },
    };
    Some(Wrong { at, mistake })
}

// Returns the first mistake in the trees of a list of this shape.
#[cycle(walk)]
fn wrong_trees<'a>(shape: Shape, trees: &'a [Tree]) -> Option<Wrong<'a>> {
    for (index, tree) in trees.iter().enumerate() {
        if let Some(wrong) = wrong_tree(shape.part(index), tree) {
            return Some(wrong);
        }
    }
    None
}

// Returns the rank of a top form in the order of a source text, or of a form with another word.
fn rank_of(tree: &Tree) -> u8 {
    let Tree::List(_, inner) = tree else {
        return 0;
    };
    match atom_at(inner, 0) {
        "state" => 1,
        "fun" => 2,
        "do" => 3,
        _ => 0,
    }
}

// Whether a tree is a list that begins with `compose`.
fn is_header(tree: &Tree) -> bool {
    match tree {
        Tree::List(_, inner) => atom_at(inner, 0) == "compose",
        Tree::Atom(..) => false,
        Tree::Text(..) => false,
    }
}

/// Returns the first mistake in the top form at the offset `at`.
pub fn wrong_top_form(trees: &[Tree], at: usize) -> Option<Wrong<'_>> {
    let mut last = 0u8;
    for (index, tree) in trees.iter().enumerate() {
        let rank = rank_of(tree);
        if offset_of(tree) == at {
            if index == 0 && !is_header(tree) {
                return Some(Wrong {
                    at,
                    mistake: Mistake::NoHeader,
                });
            }
            let late = rank < last && rank > 0 || index > 0 && is_header(tree);
            return if late {
                Some(Wrong {
                    at,
                    mistake: Mistake::LateForm,
                })
            } else {
                wrong_tree(Part::TopForm, tree)
            };
        }
        last = last.max(rank);
    }
    Some(Wrong {
        at,
        mistake: Mistake::NoHeader,
    })
}
