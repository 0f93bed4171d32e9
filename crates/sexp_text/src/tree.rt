// The trees of a source text.

use rt_values::Word;

/// A tree of a source text, with the offset of its first byte, counted in bytes from 0.
///
/// A notation of this project for programs and scripts. Compose has none.
#[derive(Drop)]
pub enum Tree {
    /// An atom: its offset, and its bytes, at least one. Up to 14 bytes need no allocation.
    Atom(usize, Word),
    /// A string: the offset of its first quote, and its bytes with the escapes resolved.
    Text(usize, Vec<u8>),
    /// A list: the offset of its `(`, and its trees.
    List(usize, Vec<Tree>),
}
