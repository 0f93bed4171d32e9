// A scanner that follows the lists, strings and comments of a source text byte by byte.
ghost use Rattle.std.specs.Prelude.{◌≡◌, ◌<◌, ◌+◌, ◌^◌};
ghost use Rattle.fault_notes.specs.Extents.{next_mode, next_depth, is_complete, form_length};

/// What the next byte of a source text belongs to.
#[derive(Clone, Copy, Debug, PartialEq, Eq)]
pub enum Mode {
    /// No string and no comment.
    Plain,
    /// A string.
    Quoted,
    /// A string, after a backslash.
    Escaped,
    /// A comment.
    Comment,
}

/// Returns the mode after a byte.
pub fn next_mode(mode: Mode, byte: u8) -> Mode
    ensures { result ≡ next_mode mode byte }
{
    match mode {
        Mode::Plain => match byte {
            b'"' => Mode::Quoted,
            b';' => Mode::Comment,
            _ => Mode::Plain,
        },
        Mode::Quoted => match byte {
            b'"' => Mode::Plain,
            b'\\' => Mode::Escaped,
            _ => Mode::Quoted,
        },
        Mode::Escaped => Mode::Quoted,
        Mode::Comment => match byte {
            b'\n' => Mode::Plain,
            _ => Mode::Comment,
        },
    }
}

// Returns the number of open lists after a byte. A `)` that closes nothing changes nothing.
fn next_depth(depth: usize, mode: Mode, byte: u8) -> usize
    requires { depth + 1 < 2 ^ 64 }
    ensures { result ≡ next_depth depth mode byte }
{
    match mode {
        Mode::Plain => match byte {
            b'(' => depth + 1,
            b')' => depth.saturating_sub(1),
            _ => depth,
        },
        Mode::Quoted => depth,
        Mode::Escaped => depth,
        Mode::Comment => depth,
    }
}

// Whether a form has ended.
fn is_closed(depth: usize, mode: Mode) -> bool
    ensures { result ≡ is_complete depth mode }
{
    match mode {
        Mode::Plain => depth == 0,
        Mode::Quoted => false,
        Mode::Escaped => false,
        Mode::Comment => false,
    }
}

/// Returns the length of the form with which the bytes begin: a list to its `)`, a string to its quote, and of an atom
/// one byte. A form that is not closed has all bytes.
pub fn form_len(bytes: &[u8]) -> usize
    ensures { result ≡ form_length bytes.now }
{
    let mut mode = Mode::Plain;
    let mut depth = 0;
    let mut length = 0;
    let mut rest = bytes;
    while let Some((byte, more)) = rest.split_first() {
        depth = next_depth(depth, mode, *byte);
        mode = next_mode(mode, *byte);
        length += 1;
        if is_closed(depth, mode) {
            return length;
        }
        rest = more;
    }
    length
}
