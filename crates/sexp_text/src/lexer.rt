// Lengths and characters of the tokens of a source text.
ghost use Rattle.std.specs.Prelude.{◌≡◌, ◌≤◌, ◌<◌, ◌∷◌, ◌++◌, [], ℕ, suc, List, Some, None, true, false, length, take, slice_index, IfOk, IfErr, OnOk};
ghost use Rattle.std.specs.List.{list_all};
ghost use Rattle.sexp_text.specs.Forest.{Forest};
ghost use Rattle.sexp_text.specs.Grammar.{is_blank, is_atom_byte, is_comment};
ghost use Rattle.sexp_text.specs.Machine.{OpenLists, in_text, in_escape, step, is_plain, Leads, EndsText, RefusesAfter};

use crate::TextStop;
use std::alloc::Global;

pub fn is_blank_byte(b: u8) -> bool
    ensures { result ≡ is_blank b }
{
    matches!(b, b' ' | b'\t' | b'\n' | b'\r')
}

pub fn is_byte_of_atom(b: u8) -> bool
    ensures { result ≡ is_atom_byte b }
{
    matches!(b, b'a'..=b'z' | b'A'..=b'Z' | b'0'..=b'9')
        || matches!(
            b,
            b'+' | b'-' | b'*' | b'/' | b'%' | b'<' | b'>' | b'=' | b'!' | b'?' | b'_'
        )
}

// Returns whether a string has this byte unescaped.
fn is_plain_byte(b: u8) -> bool
    ensures { result ≡ is_plain b }
{
    b >= b' ' && b != b'"' && b != b'\\'
}

// Counts the bytes before the first that is not a byte of an atom.
pub fn atom_len(bytes: &[u8]) -> usize
    ensures within { result ≤ length bytes.now }
    ensures atom { list_all is_atom_byte (take result bytes.now) ≡ true }
    ensures after { result < length bytes.now → is_atom_byte (slice_index bytes.now result) ≡ false }
{
    for (len, b) in bytes.iter().enumerate() {
        if !is_byte_of_atom(*b) {
            return len;
        }
    }
    bytes.len()
}

// Counts the bytes before the first LF.
pub fn comment_len(bytes: &[u8]) -> usize
    ensures within { result ≤ length bytes.now }
    ensures comment { is_comment (take result bytes.now) ≡ true }
    ensures after { result < length bytes.now → slice_index bytes.now result ≡ 10 }
{
    for (len, b) in bytes.iter().enumerate() {
        if *b == b'\n' {
            return len;
        }
    }
    bytes.len()
}

// Counts the bytes before the first that a string has only escaped.
fn plain_len(bytes: &[u8]) -> usize
    ensures within { result ≤ length bytes.now }
    ensures plain { list_all is_plain (take result bytes.now) ≡ true }
    ensures after { result < length bytes.now → is_plain (slice_index bytes.now result) ≡ false }
{
    for (len, b) in bytes.iter().enumerate() {
        if !is_plain_byte(*b) {
            return len;
        }
    }
    bytes.len()
}

// Returns the byte that the escape with its letter at `at` represents.
fn unescape(bytes: &[u8], at: usize) -> Result<u8, TextStop>
    requires { at ≤ length bytes.now }
    ensures within { OnOk result (at < length bytes.now) }
    ensures ok { (from : ℕ) → (chars : List ℕ) → (os : OpenLists) → (f : Forest) →
        IfOk result (λ c. step (in_escape from chars) os f at (slice_index bytes.now at)
        ≡ Some (in_text from (chars ++ c ∷ []), os, f)) }
    ensures err { IfErr result (λ e. e ≡ TextStop.Bad at) }
    ensures none { (from : ℕ) → (chars : List ℕ) → (os : OpenLists) → (f : Forest) → at < length bytes.now →
        IfErr result (λ _. step (in_escape from chars) os f at (slice_index bytes.now at) ≡ None) }
{
    if at >= bytes.len() {
        return Err(TextStop::Bad { at });
    }
    match bytes[at] {
        b'"' => Ok(b'"'),
        b'\\' => Ok(b'\\'),
        b'n' => Ok(b'\n'),
        _ => Err(TextStop::Bad { at }),
    }
}

// Appends the unescaped bytes from `at` on, and returns the offset after them.
fn push_plain(chars: &mut Vec<u8>, bytes: &[u8], at: usize) -> Result<usize, TextStop>
    requires { at ≤ length bytes.now }
    ensures within { IfOk result (λ end. (at ≤ end) × (end ≤ length bytes.now)) }
    ensures some { IfOk result (λ end. at < length bytes.now → is_plain (slice_index bytes.now at) ≡ true → at < end) }
    ensures ok { (from : ℕ) → IfOk result (λ end.
        Leads bytes.now at (in_text from chars.old.items) end (in_text from chars.new.items)) }
    ensures err { IfErr result (λ e. e ≡ TextStop.NoMemory) }
{
    let rest = &bytes[at..];
    let plain = &rest[..plain_len(rest)];
    chars.extend_from_slice(plain)?;
    Ok(at + plain.len())
}

// Parses the string whose first quote is at `from`. Returns its bytes with the escapes resolved, and the offset
// after its last quote.
pub fn parse_string(alloc: Global, bytes: &[u8], from: usize) -> Result<(Vec<u8>, usize), TextStop>
    requires { from < length bytes.now }
    ensures within { IfOk result (λ r. (from < r.1) × (r.1 ≤ length bytes.now)) }
    ensures ok { IfOk result (λ r. EndsText bytes.now from r.0.items r.1) }
    ensures err { IfErr result (λ e. RefusesAfter bytes.now (suc from) (in_text from []) e) }
{
    let mut chars = Vec::new(alloc);
    let mut at = from + 1;
    while at < bytes.len() {
        let b = bytes[at];
        if b < b' ' {
            return Err(TextStop::Bad { at });
        }
        match b {
            b'"' => return Ok((chars, at + 1)),
            b'\\' => {
                chars.push(unescape(bytes, at + 1)?)?;
                at += 2;
            }
            _ => at = push_plain(&mut chars, bytes, at)?,
        }
    }
    Err(TextStop::Bad { at })
}
