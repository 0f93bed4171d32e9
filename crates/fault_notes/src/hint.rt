// What a note says of a fault, and where it points.

use crate::contents::{atom_at, enter_trees, offset_at};
use crate::expected::is_number;
use crate::mismatch::wrong_type;
use crate::names::{unknown_name, unknown_word, wrong_word};
use crate::text_hint::text_sentence;
use crate::types::{Scope, bind};
use crate::walk::{Mistake, wrong_top_form};
use crate::words::{counted, text_of};
use play_core::{Fault, FaultKind};
use sexp_text::{TextStop, Tree, read};
use std::alloc::{AllocError, Global};

/// A sentence, with the offset that a note points at.
#[derive(Debug, Drop)]
pub struct Hint {
    pub at: usize,
    pub sentence: String,
}

// Returns a hint at an offset.
fn fixed(alloc: Global, at: usize, sentence: &str) -> Result<Hint, AllocError> {
    Ok(Hint {
        at,
        sentence: String::from_str(alloc, sentence)?,
    })
}

// Returns the sentence on a mistake in a form.
fn mistake_sentence(
    alloc: Global,
    trees: &[Tree],
    mistake: Mistake<'_>,
) -> Result<String, AllocError> {
    match mistake {
        Mistake::Expected(part) => {
            let phrase = part.phrase();
            format!(in alloc; "expected here is {phrase}")
        }
        Mistake::WrongAtom(part, word) => wrong_word(alloc, part, word),
        Mistake::UnknownWord(part, word) => unknown_word(alloc, trees, part, word),
        Mistake::OtherParts(form) => format!(in alloc; "the form is {form}"),
        Mistake::OtherCount { word, taken, given } => {
            let operands = counted(alloc, taken, "operand")?;
            format!(in alloc; "`{word}` takes {operands}, and {given} are given")
        }
        Mistake::LoneStatement(word) => {
            format!(in alloc;
                "expected here is a list of statements: write (({word} ..)), with one more pair of parentheses"
            )
        }
        Mistake::LateForm => String::from_str(
            alloc,
            "this form comes too late: first (compose 1), then all state, then all fun, then all do forms",
        ),
        Mistake::NoHeader => {
            String::from_str(alloc, "an input begins with the header (compose 1)")
        }
    }
}

// Returns the hint on a fault of the forms.
fn form_hint(alloc: Global, trees: &[Tree], at: usize) -> Result<Hint, AllocError> {
    match wrong_top_form(trees, at) {
        Some(wrong) => Ok(Hint {
            at: wrong.at,
            sentence: mistake_sentence(alloc, trees, wrong.mistake)?,
        }),
        None => fixed(alloc, at, "docs/LANGUAGE.md has no such form"),
    }
}

// Returns the sentence on a part that exceeds a limit. `word` is the first word of the list, or the atom, at the fault.
fn limit_sentence(word: &str) -> &'static str {
    if is_number(word.as_bytes()) {
        return "a number has 64 bits: it is -9223372036854775808 to 9223372036854775807";
    }
    match word {
        "node" => "a node has at most 16 attributes, and statements nest at most 16 deep",
        "remember" => "a remember has at most 16 keys, and statements nest at most 16 deep",
        "call" | "key" | "if" | "for" | "let" => "statements nest at most 16 deep",
        "fun" => "a function has at most 16 parameters, and there are at most 256 functions",
        "state" => "there are at most 256 states",
        "do" => "there are at most 8 actors, and at most 65,536 steps",
        "repeat" => "a repeat is made 1 to 1,000 times",
        "ints" => "a list has at most 4,096 items, and expressions nest at most 64 deep",
        "" => "a string has at most 4,096 bytes",
        "..." => "a name has at most 64 bytes, and a number 64 bits",
        _ => "expressions nest at most 64 deep",
    }
}

// Returns the sentence on the call of a function that is not above, or of too many functions in a chain.
fn order_sentence(word: &str) -> &'static str {
    match word {
        "call" => "a function calls only functions above its own form: move the called function up",
        _ => "a chain of calls has at most 32 functions",
    }
}

// The lists around a fault, the innermost last, and the atom at the fault if it is one.
#[derive(Drop)]
struct Surroundings<'a> {
    path: Vec<&'a [Tree]>,
    atom: Option<&'a str>,
}

impl<'a> Surroundings<'a> {
    // Returns the innermost list.
    fn inner(&self) -> &'a [Tree] {
        match self.path.last() {
            Some(inner) => inner,
            None => &[],
        }
    }

    // Returns the atom at the fault, or the first word of its list.
    fn word(&self) -> &'a str {
        match self.atom {
            Some(word) => word,
            None => atom_at(self.inner(), 0),
        }
    }
}

// Returns the atom among these trees at the offset `at`.
fn atom_with_offset<'a>(trees: &'a [Tree], at: usize) -> Option<&'a str> {
    for tree in trees {
        match tree {
            Tree::Atom(offset, word) if *offset == at => return Some(text_of(word.bytes())),
            Tree::Text(offset, _) if *offset == at => return Some(""),
            _ => {}
        }
    }
    None
}

// Returns the lists around the offset `at`.
fn find_surroundings<'a>(
    alloc: Global,
    trees: &'a [Tree],
    at: usize,
) -> Result<Surroundings<'a>, AllocError> {
    let mut path = Vec::new(alloc);
    enter_trees(&mut path, trees, at)?;
    let inner: &'a [Tree] = match path.last() {
        Some(inner) => inner,
        None => &[],
    };
    Ok(Surroundings {
        path,
        atom: atom_with_offset(inner, at),
    })
}

// Returns the variables at the offset `at` in these lists.
fn scope_at<'a>(
    alloc: Global,
    trees: &'a [Tree],
    path: &[&'a [Tree]],
    at: usize,
) -> Result<Scope<'a>, AllocError> {
    let mut scope = Scope {
        trees,
        variables: Vec::new(alloc),
    };
    for inner in path {
        bind(&mut scope, inner, at)?;
    }
    Ok(scope)
}

// Returns the hint on a fault of the program or the script.
fn program_hint(alloc: Global, trees: &[Tree], fault: Fault) -> Result<Hint, AllocError> {
    let at = fault.at;
    let around = find_surroundings(alloc, trees, at)?;
    let scope = scope_at(alloc, trees, &around.path, at)?;
    let inner = around.inner();
    let word = around.word();
    match fault.kind {
        FaultKind::Limit => fixed(alloc, at, limit_sentence(word)),
        FaultKind::Double => Ok(Hint {
            at,
            sentence: format!(in alloc; "the name `{word}` is already taken here")?,
        }),
        FaultKind::Unknown => unknown_name(alloc, &scope, inner, around.atom, at),
        FaultKind::Order => Ok(Hint {
            at: offset_at(inner, 1, at),
            sentence: String::from_str(alloc, order_sentence(word))?,
        }),
        FaultKind::Type => match wrong_type(alloc, &scope, inner)? {
            Some(hint) => Ok(hint),
            None => fixed(alloc, at, "the types of these parts do not fit"),
        },
        FaultKind::Remember => fixed(
            alloc,
            at,
            "a calculation sees only its keys: add a key, as in ((k EXPR)), and use `k`",
        ),
        FaultKind::Actor => fixed(
            alloc,
            at,
            "with threads each actor has snapshot names of its own, and only one actor has frames",
        ),
        _ => fixed(alloc, at, "the input is rejected here"),
    }
}

// Returns the hint on a fault of trees.
fn tree_hint(alloc: Global, trees: &[Tree], fault: Fault) -> Result<Hint, AllocError> {
    match fault.kind {
        FaultKind::Form => form_hint(alloc, trees, fault.at),
        _ => program_hint(alloc, trees, fault),
    }
}

/// Returns what a note says of a fault.
pub fn hint_for(alloc: Global, bytes: &[u8], fault: Fault) -> Result<Hint, AllocError> {
    let at = fault.at;
    match fault.kind {
        FaultKind::Text => Ok(Hint {
            at,
            sentence: text_sentence(alloc, bytes, at)?,
        }),
        FaultKind::Utf8 => fixed(alloc, at, "the input is not UTF-8 from here on"),
        FaultKind::Deep => fixed(alloc, at, "lists nest at most 100 deep"),
        _ => match read(alloc, bytes) {
            Ok(trees) => tree_hint(alloc, &trees, fault),
            Err(TextStop::NoMemory) => Err(AllocError),
            Err(_) => fixed(alloc, at, "the input is rejected here"),
        },
    }
}
