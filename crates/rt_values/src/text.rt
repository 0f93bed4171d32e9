// The string type behind values of the type Text.
ghost use Rattle.std.specs.Prelude.{◌≡◌, ◌≤◌, Bool, List, ℕ, length, [], IfOk, IsUtf8};
ghost use Rattle.std.specs.Str.{bytes_eq};
ghost use Rattle.std.specs.Fmt.{signed_decimal};
ghost use Rattle.rt_values.specs.Limits.{most_bytes};
ghost use Rattle.rt_values.specs.Values.{truth_text};
ghost use Rattle.rt_values.specs.Operators.{front, joined_text};

use crate::NoMemory;
use itoa::Buffer;
use std::alloc::Global;
use std::marker::Model;
use std::sync::Arc;

/// A text of at most `Txt::MOST_BYTES` bytes of UTF-8. Copies share it.
#[derive(Drop)]
pub struct Txt {
    text: Arc<String>,
}

impl Model for Txt {
    ghost use Rattle.std.specs.Prelude.{List, ℕ, ◌≤◌, length, string_bytes};
    ghost use Rattle.rt_values.specs.Limits.{most_bytes};

    ghost Value = { List ℕ };

    ghost view = { λ t. string_bytes t.text.value };

    ghost invariant = { λ t. length (string_bytes t.text.value) ≤ most_bytes };
}

impl Txt {
    /// The maximum number of bytes, a rule of this project.
    pub const MOST_BYTES: usize = 4096;

    /// Returns a copy of `text`.
    pub fn from_str(alloc: Global, text: &str) -> Result<Self, NoMemory>
        requires { length text.now ≤ most_bytes }
        ensures { IfOk result (λ t. t ≡ text.now) }
    {
        let text = String::from_str(alloc, text)?;
        Ok(Txt {
            text: Arc::new(alloc, text)?,
        })
    }

    /// Returns the text with these bytes, which are UTF-8.
    pub fn of(alloc: Global, bytes: &[u8]) -> Result<Self, NoMemory>
        requires utf8 { IsUtf8 bytes.now }
        requires fits { length bytes.now ≤ most_bytes }
        ensures { IfOk result (λ t. t ≡ bytes.now) }
    {
        match std::str::from_utf8(bytes) {
            Ok(text) => Txt::from_str(alloc, text),
            Err(_) => unreachable!(),
        }
    }

    /// Returns the empty text.
    pub fn new(alloc: Global) -> Result<Self, NoMemory>
        ensures { IfOk result (λ t. t ≡ []) }
    {
        Ok(Txt {
            text: Arc::new(alloc, String::new(alloc))?,
        })
    }

    /// Returns the decimal digits of a number, with a minus sign if it is negative.
    pub fn of_number(alloc: Global, number: i64) -> Result<Self, NoMemory>
        ensures { IfOk result (λ t. t ≡ signed_decimal number) }
    {
        Txt::from_str(alloc, Buffer::new().format(number))
    }

    /// Returns `true` or `false`.
    pub fn of_truth(alloc: Global, truth: bool) -> Result<Self, NoMemory>
        ensures { IfOk result (λ t. t ≡ truth_text truth) }
    {
        Txt::from_str(alloc, if truth { "true" } else { "false" })
    }

    /// Returns `first` followed by `second`, cut to the longest prefix of whole characters with at most
    /// `Txt::MOST_BYTES` bytes.
    pub fn join(alloc: Global, first: &Txt, second: &Txt) -> Result<Self, NoMemory>
        ensures { IfOk result (λ t. t ≡ joined_text first.now second.now) }
    {
        let first = first.text.as_str();
        let more = front(second.as_str(), Txt::MOST_BYTES - first.len());
        let mut text = String::from_str(alloc, first)?;
        text.push_str(more)?;
        Ok(Txt {
            text: Arc::new(alloc, text)?,
        })
    }

    /// Returns the characters.
    pub fn as_str(&self) -> &str
        ensures { result.now ≡ self.now }
    {
        self.text.as_str()
    }

    /// Returns the bytes: UTF-8, at most `Txt::MOST_BYTES` of them.
    pub fn bytes(&self) -> &[u8]
        ensures bytes { result.now ≡ self.now }
        ensures utf8 { IsUtf8 self.now }
        ensures fits { length self.now ≤ most_bytes }
    {
        self.text.as_str().as_bytes()
    }

    /// Returns a copy, which shares the text.
    pub fn copy(&self) -> Result<Self, NoMemory>
        ensures { IfOk result (λ t. t ≡ self.now) }
    {
        Ok(Txt {
            text: self.text.clone()?,
        })
    }

    /// Returns whether both texts have the same characters.
    pub fn same(&self, other: &Txt) -> bool
        ensures { result ≡ bytes_eq self.now other.now }
    {
        self.text.as_str() == other.text.as_str()
    }
}

// Returns the longest prefix of whole characters with at most `room` bytes.
fn front(text: &str, room: usize) -> &str
    ensures { result.now ≡ front room text.now }
{
    let (front, _) = text.split_at(text.floor_char_boundary(room));
    front
}
