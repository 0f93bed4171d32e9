// Lines and columns.
ghost use Rattle.std.specs.Prelude.{◌≡◌, ◌<◌, ◌+◌, ◌^◌};
ghost use Rattle.fault_notes.specs.Lines.{is_continuation, next_line, next_column, line_after, column_after};
ghost use Rattle.fault_notes.specs.Pointing.{IsPosition};

/// A position in a source text: an offset in bytes, from 0, with its line and its column, from 1. The column counts characters:
/// a tab is one, and so is an emoji.
#[derive(Clone, Copy, Debug, PartialEq, Eq)]
pub struct Position {
    pub offset: usize,
    pub line: usize,
    pub column: usize,
}

/// Whether a byte continues a character of UTF-8.
pub fn is_continuation(byte: u8) -> bool
    ensures { result ≡ is_continuation byte }
{
    128 <= byte && byte <= 191
}

// Returns the line after a byte.
fn next_line(line: usize, byte: u8) -> usize
    requires { line + 1 < 2 ^ 64 }
    ensures { result ≡ next_line line byte }
{
    if byte == b'\n' { line + 1 } else { line }
}

// Returns the column after a byte.
fn next_column(column: usize, byte: u8) -> usize
    requires { column + 1 < 2 ^ 64 }
    ensures { result ≡ next_column column byte }
{
    if byte == b'\n' {
        1
    } else if is_continuation(byte) {
        column
    } else {
        column + 1
    }
}

// Returns the line after some bytes.
fn line_after(bytes: &[u8]) -> usize
    ensures { result ≡ line_after 1 bytes.now }
{
    let mut line = 1;
    let mut rest = bytes;
    while let Some((byte, more)) = rest.split_first() {
        line = next_line(line, *byte);
        rest = more;
    }
    line
}

// Returns the column after some bytes.
fn column_after(bytes: &[u8]) -> usize
    ensures { result ≡ column_after 1 bytes.now }
{
    let mut column = 1;
    let mut rest = bytes;
    while let Some((byte, more)) = rest.split_first() {
        column = next_column(column, *byte);
        rest = more;
    }
    column
}

/// Returns the position of an offset. An offset after the end has the line and the column of the end.
pub fn position_of(bytes: &[u8], offset: usize) -> Position
    ensures offset { result.offset ≡ offset }
    ensures position { IsPosition bytes.now result }
{
    let before = &bytes[..offset.min(bytes.len())];
    Position {
        offset,
        line: line_after(before),
        column: column_after(before),
    }
}
