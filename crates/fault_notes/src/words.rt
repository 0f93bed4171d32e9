// Words of messages: how a word of the source is shown, the word that was probably meant, and numbers with their nouns.

use std::alloc::{AllocError, Global};
use std::str;
use strsim::osa_distance;

// The length in bytes of the longest word that is shown or compared.
const LONGEST: usize = 64;

/// Returns a word of the source as text, or three dots if the word is too long to be shown.
pub fn text_of(word: &[u8]) -> &str {
    if word.len() > LONGEST {
        return "...";
    }
    match str::from_utf8(word) {
        Ok(text) => text,
        Err(_) => "...",
    }
}

/// Returns the word that is most like `word`, if at most a third of its letters differ, or one letter.
pub fn nearest<'a>(
    alloc: Global,
    word: &str,
    words: &[&'a str],
) -> Result<Option<&'a str>, AllocError> {
    let mut best = None;
    let mut bound = (word.len() / 3).max(1) + 1;
    for other in words {
        if other.len() > LONGEST || *other == word {
            continue;
        }
        let distance = osa_distance(alloc, word, other)?;
        if distance < bound {
            bound = distance;
            best = Some(*other);
        }
    }
    Ok(best)
}

/// Returns the sentence, and after it either the word among `words` that is most like `word`, as a question, or `otherwise`.
pub fn with_guess(
    alloc: Global,
    sentence: &str,
    word: &str,
    words: &[&str],
    otherwise: &str,
) -> Result<String, AllocError> {
    match nearest(alloc, word, words)? {
        Some(near) => format!(in alloc; "{sentence}; did you mean `{near}`?"),
        None => format!(in alloc; "{sentence}{otherwise}"),
    }
}

/// Returns a number with its noun, as `1 operand` or `2 operands`.
pub fn counted(alloc: Global, count: usize, noun: &str) -> Result<String, AllocError> {
    if count == 1 {
        format!(in alloc; "1 {noun}")
    } else {
        format!(in alloc; "{count} {noun}s")
    }
}
