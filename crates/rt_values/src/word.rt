// Identifiers of programs, stored compactly.
ghost use Rattle.std.specs.Prelude.{◌≡◌, ◌≤◌, Bool, List, ℕ, length, IfOk};
ghost use Rattle.std.specs.Str.{bytes_eq};
ghost use Rattle.rt_values.specs.WordLetters.{letter_bytes};

use crate::NoMemory;
use std::alloc::Global;
use std::marker::Model;
use std::sync::Arc;

// The maximum number of bytes that a word stores inline.
const ROOM: usize = 14;

// The bytes of a word: inline, as the first `len` bytes of `room`, or in a list that the word shares with its copies.
#[derive(Drop)]
enum Letters {
    Short { len: u8, room: [u8; ROOM] },
    Long(Arc<Vec<u8>>),
}

/// The letters of an identifier: the name of a state, a function, a variable, a node's kind, an attribute or an
/// actor. A short word is copied byte by byte, and copies of a long word share its bytes.
#[derive(Drop)]
pub struct Word {
    letters: Letters,
}

impl Model for Word {
    ghost use Rattle.std.specs.Prelude.{List, ℕ};
    ghost use Rattle.rt_values.specs.WordLetters.{letter_bytes, IsSound};

    ghost Value = { List ℕ };

    ghost view = { λ w. letter_bytes w.letters };

    ghost invariant = { λ w. IsSound w.letters };
}

impl Word {
    /// Returns the word with these bytes.
    pub fn of(alloc: Global, bytes: &[u8]) -> Result<Self, NoMemory>
        ensures { IfOk result (λ w. w ≡ bytes.now) }
    {
        if bytes.len() > ROOM {
            return Ok(Word {
                letters: Letters::Long(Arc::new(alloc, bytes.to_vec(alloc)?)?),
            });
        }
        let mut room = [0; ROOM];
        room[..bytes.len()].copy_from_slice(bytes);
        Ok(Word {
            letters: Letters::Short {
                len: bytes.len() as u8,
                room,
            },
        })
    }

    /// Returns the bytes.
    #[inline(always)]
    pub fn bytes(&self) -> &[u8]
        ensures { result.now ≡ self.now }
    {
        match &self.letters {
            Letters::Short { len, room } => &room[..*len as usize],
            Letters::Long(bytes) => bytes,
        }
    }

    /// Returns a copy. A word of more than 14 bytes shares its bytes with the copy.
    #[inline(always)]
    pub fn copy(&self) -> Result<Self, NoMemory>
        ensures { IfOk result (λ w. w ≡ self.now) }
    {
        let letters = match &self.letters {
            Letters::Short { len, room } => Letters::Short {
                len: *len,
                room: *room,
            },
            Letters::Long(bytes) => Letters::Long(bytes.clone()?),
        };
        Ok(Word { letters })
    }

    /// Returns whether the word has exactly these bytes.
    #[inline(always)]
    pub fn is(&self, bytes: &[u8]) -> bool
        ensures { result ≡ bytes_eq self.now bytes.now }
    {
        same_bytes(self.bytes(), bytes)
    }
}

// Returns whether both lists have the same bytes. For words of at most four bytes a plain loop is cheaper than the
// comparison of slices.
#[inline(always)]
fn same_bytes(a: &[u8], b: &[u8]) -> bool
    ensures { result ≡ bytes_eq a.now b.now }
{
    if a.len() != b.len() {
        return false;
    }
    if a.len() > 4 {
        return same_slices(a, b);
    }
    let mut place = 0;
    while place < a.len() {
        if a[place] != b[place] {
            return false;
        }
        place += 1;
    }
    true
}

// Returns whether both lists have the same bytes. It is not inlined, so that short words need no memory for the slices.
#[inline(never)]
fn same_slices(a: &[u8], b: &[u8]) -> bool
    ensures { result ≡ bytes_eq a.now b.now }
{
    a == b
}
