// Sentences on bytes that are no source text.

use crate::position::position_of;
use crate::scanner::{Mode, next_mode};
use std::alloc::{AllocError, Global};

// The open lists and the open string after some bytes.
#[derive(Drop)]
struct Opened {
    lists: Vec<usize>,
    string: usize,
    mode: Mode,
}

// Returns what is open after all bytes.
fn opened_after(alloc: Global, bytes: &[u8]) -> Result<Opened, AllocError> {
    let mut opened = Opened {
        lists: Vec::new(alloc),
        string: 0,
        mode: Mode::Plain,
    };
    for (at, byte) in bytes.iter().enumerate() {
        if opened.mode == Mode::Plain {
            match *byte {
                b'(' => opened.lists.push(at)?,
                b')' => {
                    opened.lists.pop();
                }
                b'"' => opened.string = at,
                _ => {}
            }
        }
        opened.mode = next_mode(opened.mode, *byte);
    }
    Ok(opened)
}

// Returns the sentence on an input that ends too soon.
fn at_the_end(alloc: Global, bytes: &[u8]) -> Result<String, AllocError> {
    let opened = opened_after(alloc, bytes)?;
    let in_string = opened.mode == Mode::Quoted || opened.mode == Mode::Escaped;
    let (what, start) = match opened.lists.first() {
        Some(list) if !in_string => ("list", *list),
        _ => ("string", opened.string),
    };
    let position = position_of(bytes, start);
    let line = position.line;
    let column = position.column;
    format!(in alloc;
        "the input ends inside the {what} that begins in line {line}, column {column}"
    )
}

// Returns the sentence on a byte after the bytes `before`.
fn at_a_byte(before: Mode, byte: u8) -> &'static str {
    if before == Mode::Escaped {
        return r#"the escapes in a string are \", \\ and \n"#;
    }
    if before == Mode::Quoted {
        return r#"a string has no line break, tab or other control character: \n is a line break"#;
    }
    match byte {
        b')' => "this `)` closes nothing",
        b'#' => "a comment begins with `;`",
        b'\'' => "a string is in double quotes",
        b'`' => "a string is in double quotes",
        b'.' => "numbers are whole, and names have letters, digits and `_`",
        b',' => "the parts of a list have blanks between them, and no commas",
        b'[' | b'{' => "a list is in parentheses",
        _ =>
            "names have letters, digits and `_`; other characters occur only in strings and comments",
    }
}

/// Returns the sentence on the offset at which bytes stop being a source text.
pub fn text_sentence(alloc: Global, bytes: &[u8], at: usize) -> Result<String, AllocError> {
    if at == 0 && bytes.starts_with(&[0xef, 0xbb, 0xbf]) {
        return String::from_str(
            alloc,
            "the input begins with a byte order mark: save it as UTF-8 without one",
        );
    }
    if at >= bytes.len() {
        return at_the_end(alloc, bytes);
    }
    let opened = opened_after(alloc, &bytes[..at])?;
    String::from_str(alloc, at_a_byte(opened.mode, bytes[at]))
}
