// The types of expressions, as far as messages need them.

use crate::contents::{atom_at, find_named, list_at, offset_at};
use crate::expected::{is_number, is_truth};
use crate::words::text_of;
use rt_values::Ty;
use sexp_text::Tree;
use std::alloc::AllocError;

/// What an operator takes as an operand.
#[derive(Clone, Copy)]
pub enum Operand {
    /// A value of this type.
    Of(Ty),
    /// A value of any type.
    Any,
    /// A value of the type of the operand before it.
    Same,
    /// An Int or a Bool.
    Plain,
}

/// An operator with a fixed number of operands. Without a result type its result is that of its second operand.
#[derive(Clone, Copy)]
pub struct Operator {
    pub word: &'static str,
    pub operands: &'static [Operand],
    pub result: Option<Ty>,
}

// The operators with a fixed number of operands: all but `ints`.
static OPERATORS: [Operator; 18] = [
    Operator {
        word: "+",
        operands: &[Operand::Of(Ty::Int), Operand::Of(Ty::Int)],
        result: Some(Ty::Int),
    },
    Operator {
        word: "-",
        operands: &[Operand::Of(Ty::Int), Operand::Of(Ty::Int)],
        result: Some(Ty::Int),
    },
    Operator {
        word: "*",
        operands: &[Operand::Of(Ty::Int), Operand::Of(Ty::Int)],
        result: Some(Ty::Int),
    },
    Operator {
        word: "/",
        operands: &[Operand::Of(Ty::Int), Operand::Of(Ty::Int)],
        result: Some(Ty::Int),
    },
    Operator {
        word: "%",
        operands: &[Operand::Of(Ty::Int), Operand::Of(Ty::Int)],
        result: Some(Ty::Int),
    },
    Operator {
        word: "=",
        operands: &[Operand::Any, Operand::Same],
        result: Some(Ty::Bool),
    },
    Operator {
        word: "<",
        operands: &[Operand::Of(Ty::Int), Operand::Of(Ty::Int)],
        result: Some(Ty::Bool),
    },
    Operator {
        word: "not",
        operands: &[Operand::Of(Ty::Bool)],
        result: Some(Ty::Bool),
    },
    Operator {
        word: "and",
        operands: &[Operand::Of(Ty::Bool), Operand::Of(Ty::Bool)],
        result: Some(Ty::Bool),
    },
    Operator {
        word: "or",
        operands: &[Operand::Of(Ty::Bool), Operand::Of(Ty::Bool)],
        result: Some(Ty::Bool),
    },
    Operator {
        word: "pick",
        operands: &[Operand::Of(Ty::Bool), Operand::Any, Operand::Same],
        result: None,
    },
    Operator {
        word: "join",
        operands: &[Operand::Of(Ty::Text), Operand::Of(Ty::Text)],
        result: Some(Ty::Text),
    },
    Operator {
        word: "text",
        operands: &[Operand::Plain],
        result: Some(Ty::Text),
    },
    Operator {
        word: "range",
        operands: &[Operand::Of(Ty::Int), Operand::Of(Ty::Int)],
        result: Some(Ty::Ints),
    },
    Operator {
        word: "push",
        operands: &[Operand::Of(Ty::Ints), Operand::Of(Ty::Int)],
        result: Some(Ty::Ints),
    },
    Operator {
        word: "concat",
        operands: &[Operand::Of(Ty::Ints), Operand::Of(Ty::Ints)],
        result: Some(Ty::Ints),
    },
    Operator {
        word: "len",
        operands: &[Operand::Of(Ty::Ints)],
        result: Some(Ty::Int),
    },
    Operator {
        word: "at",
        operands: &[Operand::Of(Ty::Ints), Operand::Of(Ty::Int)],
        result: Some(Ty::Int),
    },
];

/// Returns the operator with this word.
pub fn find_operator(word: &str) -> Option<Operator> {
    for operator in &OPERATORS {
        if operator.word == word {
            return Some(*operator);
        }
    }
    None
}

/// Appends the words of all operators, and `get`.
pub fn add_operator_words(words: &mut Vec<&str>) -> Result<(), AllocError> {
    for operator in &OPERATORS {
        words.push(operator.word)?;
    }
    words.push("ints")?;
    words.push("get")?;
    Ok(())
}

/// Returns the word of a type.
pub fn word_of_type(ty: Ty) -> &'static str {
    match ty {
        Ty::Int => "Int",
        Ty::Bool => "Bool",
        Ty::Text => "Text",
        Ty::Ints => "Ints",
    }
}

/// Returns the type with this word.
pub fn type_of_word(word: &str) -> Option<Ty> {
    match word {
        "Int" => Some(Ty::Int),
        "Bool" => Some(Ty::Bool),
        "Text" => Some(Ty::Text),
        "Ints" => Some(Ty::Ints),
        _ => None,
    }
}

/// A variable with its type, where that is known.
#[derive(Clone, Copy)]
pub struct Variable<'a> {
    pub name: &'a str,
    pub ty: Option<Ty>,
}

/// What an expression may name: the states of the source text, and the variables around it.
#[derive(Drop)]
pub struct Scope<'a> {
    pub trees: &'a [Tree],
    pub variables: Vec<Variable<'a>>,
}

impl<'a> Scope<'a> {
    // Returns the type of the last variable with this name.
    fn type_of_variable(&self, name: &str) -> Option<Ty> {
        let mut found = None;
        for variable in &self.variables {
            if variable.name == name {
                found = variable.ty;
            }
        }
        found
    }

    // Returns the type of an atom.
    fn type_of_atom(&self, word: &[u8]) -> Option<Ty> {
        if is_number(word) {
            return Some(Ty::Int);
        }
        if is_truth(word) {
            return Some(Ty::Bool);
        }
        self.type_of_variable(text_of(word))
    }

    // Returns the type of a list that is no `pick`.
    fn type_of_list(&self, inner: &[Tree]) -> Option<Ty> {
        match atom_at(inner, 0) {
            "get" => self.type_of_state(atom_at(inner, 1)),
            "ints" => Some(Ty::Ints),
            word => find_operator(word)?.result,
        }
    }

    /// Returns the type of the state with this name.
    pub fn type_of_state(&self, name: &str) -> Option<Ty> {
        type_of_word(atom_at(find_named(self.trees, "state", name), 2))
    }
}

/// Returns the type of an expression, if it is known.
#[cycle(types)]
pub fn type_of(scope: &Scope<'_>, tree: &Tree) -> Option<Ty> {
    match tree {
        Tree::Atom(_, word) => scope.type_of_atom(word.bytes()),
        Tree::Text(..) => Some(Ty::Text),
        Tree::List(_, inner) => {
            if atom_at(inner, 0) == "pick" {
                type_at(scope, inner, 2)
            } else {
                scope.type_of_list(inner)
            }
        }
    }
}

/// Returns the type of the expression at an index, if it is known.
#[cycle(types)]
pub fn type_at(scope: &Scope<'_>, trees: &[Tree], index: usize) -> Option<Ty> {
    for (i, tree) in trees.iter().enumerate() {
        if i == index {
            return type_of(scope, tree);
        }
    }
    None
}

// Appends the parameters of a function.
fn bind_parameters<'a>(scope: &mut Scope<'a>, pairs: &'a [Tree]) -> Result<(), AllocError> {
    for pair in pairs {
        if let Tree::List(_, inner) = pair {
            scope.variables.push(Variable {
                name: atom_at(inner, 0),
                ty: type_of_word(atom_at(inner, 1)),
            })?;
        }
    }
    Ok(())
}

// Appends the keys of a remember.
fn bind_keys<'a>(scope: &mut Scope<'a>, pairs: &'a [Tree]) -> Result<(), AllocError> {
    for pair in pairs {
        if let Tree::List(_, inner) = pair {
            let ty = type_at(scope, inner, 1);
            scope.variables.push(Variable {
                name: atom_at(inner, 0),
                ty,
            })?;
        }
    }
    Ok(())
}

// Appends the variable that a `let`, `for` or `remember` binds, with the type of its expression at `index`.
fn bind_value<'a>(
    scope: &mut Scope<'a>,
    inner: &'a [Tree],
    index: usize,
) -> Result<(), AllocError> {
    let ty = match atom_at(inner, 0) {
        "for" => Some(Ty::Int),
        _ => type_at(scope, inner, index),
    };
    scope.variables.push(Variable {
        name: atom_at(inner, 1),
        ty,
    })?;
    Ok(())
}

/// Appends the variables that a form binds at the offset `at` in it.
pub fn bind<'a>(scope: &mut Scope<'a>, inner: &'a [Tree], at: usize) -> Result<(), AllocError> {
    match atom_at(inner, 0) {
        "fun" => bind_parameters(scope, list_at(inner, 2)),
        "let" | "for" if offset_at(inner, 3, usize::MAX) <= at => bind_value(scope, inner, 2),
        "remember" if offset_at(inner, 4, usize::MAX) <= at => bind_value(scope, inner, 3),
        "remember" if offset_at(inner, 3, usize::MAX) <= at => bind_keys(scope, list_at(inner, 2)),
        _ => Ok(()),
    }
}
