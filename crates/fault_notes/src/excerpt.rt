// The line of a source text around an offset, as a terminal shows it.
ghost use Rattle.std.specs.Prelude.{◌≤◌, length};

use crate::position::is_continuation;
use std::alloc::{AllocError, Global};
use std::str;
use unicode_width::UnicodeWidthChar;

// The most bytes that are shown before and after an offset.
const BEFORE: usize = 72;

const AFTER: usize = 48;

/// A part of one line of a source text, with the number of terminal columns before an offset in it.
#[derive(Debug, Drop)]
pub struct Excerpt {
    pub text: String,
    pub caret: usize,
}

// Returns the first offset that is shown before `at`: after the last line break, and at the start of a character.
fn start_of(bytes: &[u8], at: usize) -> usize
    requires { at ≤ length bytes.now }
{
    let mut start = at.saturating_sub(BEFORE);
    for i in start..at {
        if bytes[i] == b'\n' {
            start = i + 1;
        }
    }
    for i in start..at {
        if !is_continuation(bytes[i]) {
            return i;
        }
    }
    at
}

// Returns the offset after what is shown from `at` on: the next line break, or the start of a character.
fn end_of(bytes: &[u8], at: usize) -> usize
    requires { at ≤ length bytes.now }
{
    let most = bytes.len().min(at.saturating_add(AFTER));
    let mut end = at;
    for i in at..most {
        if bytes[i] == b'\n' {
            return i;
        }
        if !is_continuation(bytes[i]) {
            end = i;
        }
    }
    if most == bytes.len() || !is_continuation(bytes[most]) {
        return most;
    }
    end
}

// Appends the bytes as a terminal shows them, with a blank for each control character. Returns their columns.
fn put_shown(text: &mut String, bytes: &[u8]) -> Result<usize, AllocError> {
    let Ok(chars) = str::from_utf8(bytes) else {
        text.push('?')?;
        return Ok(1);
    };
    let mut columns = 0usize;
    for c in chars.chars() {
        match c.width() {
            Some(width) => {
                text.push(c)?;
                columns = columns.saturating_add(width);
            }
            None => {
                text.push(' ')?;
                columns = columns.saturating_add(1);
            }
        }
    }
    Ok(columns)
}

/// Returns the line around an offset. Three dots replace what is too long to be shown.
pub fn excerpt_at(alloc: Global, bytes: &[u8], offset: usize) -> Result<Excerpt, AllocError> {
    let at = offset.min(bytes.len());
    let start = start_of(bytes, at).min(at);
    let end = end_of(bytes, at).max(at).min(bytes.len());
    let mut text = String::new(alloc);
    let mut caret = 0usize;
    if start > 0 && bytes[start - 1] != b'\n' {
        text.push_str("...")?;
        caret = 3;
    }
    caret = caret.saturating_add(put_shown(&mut text, &bytes[start..at])?);
    put_shown(&mut text, &bytes[at..end])?;
    if end < bytes.len() && bytes[end] != b'\n' {
        text.push_str("...")?;
    }
    Ok(Excerpt { text, caret })
}
