// Sentences on names that are not declared, and on words of no form.

use crate::contents::{add_names, atom_at, find_named, offset_at};
use crate::expected::{POLICIES, TYPES};
use crate::forms::Part;
use crate::hint::Hint;
use crate::types::{Scope, add_operator_words};
use crate::words::with_guess;
use sexp_text::Tree;
use std::alloc::{AllocError, Global};

// Appends the words that are expected as a part, or with which it begins.
fn add_words(words: &mut Vec<&str>, part: Part) -> Result<(), AllocError> {
    for form in part.forms() {
        words.push(form.word)?;
    }
    match part {
        Part::Expression => add_operator_words(words)?,
        Part::Type => {
            for word in &TYPES {
                words.push(word)?;
            }
        }
        Part::Policy => {
            for word in &POLICIES {
                words.push(word)?;
            }
        }
        Part::SnapshotKind => {
            words.push("mutable")?;
            words.push("readonly")?;
        }
        _ => {}
    }
    Ok(())
}

// Whether a word occurs as the name of a function.
fn is_function(trees: &[Tree], word: &str) -> bool {
    !find_named(trees, "fun", word).is_empty()
}

/// Returns the sentence on a list that begins with a word of no form.
pub fn unknown_word(
    alloc: Global,
    trees: &[Tree],
    part: Part,
    word: &str,
) -> Result<String, AllocError> {
    let noun = part.noun();
    if is_function(trees, word) {
        return format!(in alloc;
            "`{word}` is not {noun}; the statement (call {word} EXPR..) calls the function `{word}`"
        );
    }
    let mut words = Vec::new(alloc);
    add_words(&mut words, part)?;
    let phrase = part.phrase();
    let sentence = format!(in alloc; "`{word}` is not {noun}")?;
    let expected = format!(in alloc; "; expected is {phrase}")?;
    with_guess(alloc, &sentence, word, &words, &expected)
}

/// Returns the sentence on an atom that is expected as a part.
pub fn wrong_word(alloc: Global, part: Part, word: &str) -> Result<String, AllocError> {
    let mut words = Vec::new(alloc);
    if part != Part::Expression {
        add_words(&mut words, part)?;
    }
    let phrase = part.phrase();
    let sentence = format!(in alloc; "`{word}` is not {phrase}")?;
    with_guess(alloc, &sentence, word, &words, "")
}

// How names of one kind are declared: the noun and the verb of a message, and the word of the form.
#[derive(Clone, Copy)]
struct Declaration {
    noun: &'static str,
    verb: &'static str,
    word: &'static str,
}

static STATE: Declaration = Declaration {
    noun: "state",
    verb: "declared",
    word: "state",
};

static FUNCTION: Declaration = Declaration {
    noun: "function",
    verb: "declared",
    word: "fun",
};

static SNAPSHOT: Declaration = Declaration {
    noun: "snapshot",
    verb: "taken",
    word: "take",
};

// Returns the hint that the atom of `inner` at `index` is not declared.
fn undeclared(
    alloc: Global,
    trees: &[Tree],
    inner: &[Tree],
    index: usize,
    declaration: Declaration,
) -> Result<Hint, AllocError> {
    let Declaration { noun, verb, word } = declaration;
    let name = atom_at(inner, index);
    let mut names = Vec::new(alloc);
    add_names(&mut names, trees, word)?;
    let sentence = format!(in alloc; "no {noun} `{name}` is {verb} above")?;
    Ok(Hint {
        at: offset_at(inner, index, 0),
        sentence: with_guess(alloc, &sentence, name, &names, "")?,
    })
}

// Returns the hint on a step with an unknown state or an unknown snapshot.
fn unknown_in_step(alloc: Global, scope: &Scope<'_>, inner: &[Tree]) -> Result<Hint, AllocError> {
    let index = match atom_at(inner, 0) {
        "take" => 3,
        "read" | "write" | "add" if scope.type_of_state(atom_at(inner, 2)).is_none() => {
            return undeclared(alloc, scope.trees, inner, 2, STATE);
        }
        _ => 1,
    };
    undeclared(alloc, scope.trees, inner, index, SNAPSHOT)
}

// Returns the hint on a variable that is not in scope.
fn unknown_variable(
    alloc: Global,
    scope: &Scope<'_>,
    name: &str,
    at: usize,
) -> Result<Hint, AllocError> {
    let mut names = Vec::new(alloc);
    for variable in &scope.variables {
        names.push(variable.name)?;
    }
    if scope.type_of_state(name).is_some() {
        let sentence = format!(in alloc;
            "no variable `{name}` is in scope here; (get {name}) reads the state"
        )?;
        return Ok(Hint { at, sentence });
    }
    let sentence = format!(in alloc; "no variable `{name}` is in scope here")?;
    Ok(Hint {
        at,
        sentence: with_guess(alloc, &sentence, name, &names, "")?,
    })
}

/// Returns the hint on a name that is not declared. `inner` is the list around the name, and `atom` the name if the fault
/// is reported at a variable.
pub fn unknown_name(
    alloc: Global,
    scope: &Scope<'_>,
    inner: &[Tree],
    atom: Option<&str>,
    at: usize,
) -> Result<Hint, AllocError> {
    if let Some(name) = atom {
        return unknown_variable(alloc, scope, name, at);
    }
    match atom_at(inner, 0) {
        "get" => undeclared(alloc, scope.trees, inner, 1, STATE),
        "call" => undeclared(alloc, scope.trees, inner, 1, FUNCTION),
        "compose" => Ok(Hint {
            at,
            sentence: String::from_str(
                alloc,
                "no function is named `root`: each frame composes (fun root () STMT..)",
            )?,
        }),
        _ => unknown_in_step(alloc, scope, inner),
    }
}
