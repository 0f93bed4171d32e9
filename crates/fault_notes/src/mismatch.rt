// Sentences on values of a wrong type.

use crate::contents::{atom_at, find_named, list_at, offset_at};
use crate::hint::Hint;
use crate::types::{Operand, Scope, find_operator, type_at, word_of_type};
use crate::words::counted;
use rt_values::Ty;
use sexp_text::Tree;
use std::alloc::{AllocError, Global};

// Returns the word for a type that may be unknown.
fn shown(ty: Option<Ty>) -> &'static str {
    match ty {
        Some(ty) => word_of_type(ty),
        None => "another type",
    }
}

// Returns the hint that the expression at `index` has the type `found` where `wanted` is expected by `whose`.
fn mismatch(
    alloc: Global,
    inner: &[Tree],
    index: usize,
    whose: &str,
    types: (&str, Option<Ty>),
) -> Result<Hint, AllocError> {
    let (wanted, found) = types;
    let found = shown(found);
    Ok(Hint {
        at: offset_at(inner, index, 0),
        sentence: format!(in alloc; "{whose} is of type {wanted}, and this is of type {found}")?,
    })
}

// Returns the type that an operand must have after an operand of the type `before`, or `None` if `found` is such a type.
fn wanted_type(operand: Operand, before: Option<Ty>, found: Option<Ty>) -> Option<&'static str> {
    let wanted = match operand {
        Operand::Of(ty) => Some(ty),
        Operand::Same => before,
        Operand::Any => return None,
        Operand::Plain => {
            return match found {
                Some(Ty::Int) => None,
                Some(Ty::Bool) => None,
                _ => Some("Int or Bool"),
            };
        }
    };
    if wanted == found {
        None
    } else {
        Some(shown(wanted))
    }
}

// Returns the hint on the first operand of a wrong type.
fn wrong_operand(
    alloc: Global,
    scope: &Scope<'_>,
    inner: &[Tree],
    operands: &[Operand],
) -> Result<Option<Hint>, AllocError> {
    let mut before = None;
    let word = atom_at(inner, 0);
    for (i, operand) in operands.iter().enumerate() {
        let index = i + 1;
        let found = type_at(scope, inner, index);
        if let Some(wanted) = wanted_type(*operand, before, found) {
            let whose = format!(in alloc; "operand {index} of `{word}`")?;
            return Ok(Some(mismatch(alloc, inner, index, &whose, (wanted, found))?));
        }
        before = found;
    }
    Ok(None)
}

// Returns the hint on the first item of an `ints` that is not an Int.
fn wrong_item(
    alloc: Global,
    scope: &Scope<'_>,
    inner: &[Tree],
) -> Result<Option<Hint>, AllocError> {
    for index in 1..inner.len() {
        let found = type_at(scope, inner, index);
        if found != Some(Ty::Int) {
            return Ok(Some(mismatch(alloc, inner, index, "an item of `ints`", ("Int", found))?));
        }
    }
    Ok(None)
}

// Returns the sentence on a call with another number of arguments than the function has parameters.
fn wrong_count(
    alloc: Global,
    name: &str,
    taken: usize,
    given: usize,
) -> Result<String, AllocError> {
    let arguments = counted(alloc, taken, "argument")?;
    format!(in alloc; "`{name}` takes {arguments}, and {given} are given")
}

// Returns the hint on a call with other arguments than the function has parameters.
fn wrong_call(
    alloc: Global,
    scope: &Scope<'_>,
    inner: &[Tree],
) -> Result<Option<Hint>, AllocError> {
    let name = atom_at(inner, 1);
    let parameters = list_at(find_named(scope.trees, "fun", name), 2);
    let taken = parameters.len();
    let given = inner.len().saturating_sub(2);
    if taken != given {
        return Ok(Some(Hint {
            at: offset_at(inner, 1, 0),
            sentence: wrong_count(alloc, name, taken, given)?,
        }));
    }
    for (i, parameter) in parameters.iter().enumerate() {
        let index = i + 2;
        if let Tree::List(_, pair) = parameter {
            let wanted = atom_at(pair, 1);
            let found = type_at(scope, inner, index);
            if wanted != shown(found) {
                let whose = format!(in alloc; "parameter `{}` of `{name}`", atom_at(pair, 0))?;
                return Ok(Some(mismatch(alloc, inner, index, &whose, (wanted, found))?));
            }
        }
    }
    Ok(None)
}

// Returns the hint on a state whose value or policy does not fit its type.
fn wrong_state(
    alloc: Global,
    scope: &Scope<'_>,
    inner: &[Tree],
) -> Result<Option<Hint>, AllocError> {
    let wanted = atom_at(inner, 2);
    let found = type_at(scope, inner, 4);
    if wanted != shown(found) {
        return Ok(Some(mismatch(alloc, inner, 4, "the state", (wanted, found))?));
    }
    let policy = atom_at(inner, 3);
    let fitting = if policy == "Append" { "Ints" } else { "Int" };
    Ok(Some(Hint {
        at: offset_at(inner, 3, 0),
        sentence: format!(in alloc;
            "the policy {policy} is for states of type {fitting}, and this state is of type {wanted}"
        )?,
    }))
}

// Returns the hint on a step with a state of another type.
fn wrong_step(
    alloc: Global,
    scope: &Scope<'_>,
    inner: &[Tree],
) -> Result<Option<Hint>, AllocError> {
    let name = atom_at(inner, 2);
    let wanted = scope.type_of_state(name);
    let whose = format!(in alloc; "the state `{name}`")?;
    let found = type_at(scope, inner, 3);
    Ok(Some(mismatch(alloc, inner, 3, &whose, (shown(wanted), found))?))
}

/// Returns the hint on a form whose parts have wrong types.
pub fn wrong_type(
    alloc: Global,
    scope: &Scope<'_>,
    inner: &[Tree],
) -> Result<Option<Hint>, AllocError> {
    match atom_at(inner, 0) {
        "if" => {
            let found = type_at(scope, inner, 1);
            Ok(Some(mismatch(alloc, inner, 1, "the condition of an `if`", ("Bool", found))?))
        }
        "for" => {
            let found = type_at(scope, inner, 2);
            Ok(Some(mismatch(alloc, inner, 2, "the list of a `for`", ("Ints", found))?))
        }
        "fun" => Ok(Some(Hint {
            at: offset_at(inner, 2, 0),
            sentence: String::from_str(alloc, "`root` has no parameters: write `()`")?,
        })),
        "call" => wrong_call(alloc, scope, inner),
        "state" => wrong_state(alloc, scope, inner),
        "add" | "write" => wrong_step(alloc, scope, inner),
        "ints" => wrong_item(alloc, scope, inner),
        word => match find_operator(word) {
            Some(operator) => wrong_operand(alloc, scope, inner, operator.operands),
            None => Ok(None),
        },
    }
}
