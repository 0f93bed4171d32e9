// Which atoms are expected as a part.

use crate::forms::Part;

/// The words of types.
pub static TYPES: [&str; 4] = ["Int", "Bool", "Text", "Ints"];

/// The words of policies.
pub static POLICIES: [&str; 5] = ["Structural", "Never", "Counter", "Largest", "Append"];

// Whether an atom is a name.
fn is_name(word: &[u8]) -> bool {
    let Some((first, rest)) = word.split_first() else {
        return false;
    };
    first.is_ascii_alphabetic()
        && !has_word(&["global", "true", "false"], word)
        && rest.iter().all(|b| b.is_ascii_alphanumeric() || *b == b'_')
}

/// Whether an atom is a truth value.
pub fn is_truth(word: &[u8]) -> bool {
    has_word(&["true", "false"], word)
}

/// Whether an atom is a number.
pub fn is_number(word: &[u8]) -> bool {
    let digits = match word.split_first() {
        Some((b'-', rest)) => rest,
        _ => word,
    };
    if has_word(&["0"], word) {
        return true;
    }
    match digits.split_first() {
        Some((b'0', _)) => false,
        Some(_) => digits.iter().all(|b| b.is_ascii_digit()),
        None => false,
    }
}

/// Whether an atom begins like a number: with a digit, or with a sign and a digit.
pub fn begins_a_number(word: &[u8]) -> bool {
    match word {
        [b'+' | b'-', digit, ..] => digit.is_ascii_digit(),
        [digit, ..] => digit.is_ascii_digit(),
        [] => false,
    }
}

// Whether one of the words is `word`.
fn has_word(words: &[&str], word: &[u8]) -> bool {
    words.iter().any(|other| other.as_bytes() == word)
}

/// Whether an atom is expected as a part.
pub fn is_expected_atom(part: Part, word: &[u8]) -> bool {
    match part {
        Part::Word => true,
        Part::One => has_word(&["1"], word),
        Part::Name => is_name(word),
        Part::Type => has_word(&TYPES, word),
        Part::Policy => has_word(&POLICIES, word),
        Part::SnapshotKind => has_word(&["mutable", "readonly"], word),
        Part::Snapshot => has_word(&["global"], word) || is_name(word),
        Part::Int => is_number(word),
        Part::Literal => is_number(word) || is_truth(word),
        Part::Expression => is_number(word) || is_truth(word) || is_name(word),
        _ => false,
    }
}
