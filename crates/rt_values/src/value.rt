// Values of states and expressions, with their types and printed forms.
ghost use Rattle.std.specs.Prelude.{◌≡◌, ◌++◌, ◌∷◌, [], ◌↔◌, List, ℕ, codes, true, IfOk, OnOk, OnErr};
ghost use Rattle.std.specs.Fmt.{signed_decimal};
ghost use Rattle.rt_values.specs.Keywords.{type_word};
ghost use Rattle.rt_values.specs.Values.{type_of, same_type, same_value, value_text, truth_text, escape, escape_all, items_text, is_flat};

use crate::{IntList, NoMemory, Txt};
use itoa::Buffer;
use std::alloc::Global;

/// The type of a state's values.
#[derive(Clone, Copy, Debug, PartialEq, Eq)]
pub enum Ty {
    /// Signed whole numbers of 64 bits.
    Int,
    /// Truth values.
    Bool,
    /// Texts of at most `Txt::MOST_BYTES` bytes of UTF-8.
    Text,
    /// Lists of at most `IntList::MOST_ITEMS` whole numbers.
    Ints,
}

impl Ty {
    /// Returns the keyword of the type.
    pub fn word(self) -> &'static [u8]
        ensures { result.now ≡ type_word self }
    {
        match self {
            Ty::Int => b"Int",
            Ty::Bool => b"Bool",
            Ty::Text => b"Text",
            Ty::Ints => b"Ints",
        }
    }

    /// Returns whether both types are equal.
    pub fn same(self, other: Ty) -> bool
        ensures { result ≡ same_type self other }
    {
        match self {
            Ty::Int => matches!(other, Ty::Int),
            Ty::Bool => matches!(other, Ty::Bool),
            Ty::Text => matches!(other, Ty::Text),
            Ty::Ints => matches!(other, Ty::Ints),
        }
    }
}

/// A value of a state object or an expression.
#[derive(Drop)]
pub enum Value {
    Int(i64),
    Bool(bool),
    Text(Txt),
    Ints(IntList),
}

const _: () = prove!(size_of::<Value>() == 16);

impl Value {
    /// Returns the type of the value.
    pub fn ty(&self) -> Ty
        ensures { result ≡ type_of self.now }
    {
        match self {
            Value::Int(_) => Ty::Int,
            Value::Bool(_) => Ty::Bool,
            Value::Text(_) => Ty::Text,
            Value::Ints(_) => Ty::Ints,
        }
    }

    /// Returns a copy, which shares a text or a list. Copying a number or a truth value takes no memory.
    #[inline(always)]
    pub fn copy(&self, alloc: Global) -> Result<Value, NoMemory>
        ensures same { IfOk result (λ v. v ≡ self.now) }
        ensures flat { is_flat self.now ≡ true → OnErr result ⊥ }
    {
        if let Value::Int(number) = self {
            return Ok(Value::Int(*number));
        }
        self.copy_any()
    }

    // Returns a copy of any value. `copy` calls it for all values but numbers, which are most frequent.
    #[inline(never)]
    fn copy_any(&self) -> Result<Value, NoMemory>
        ensures same { IfOk result (λ v. v ≡ self.now) }
        ensures flat { is_flat self.now ≡ true → OnErr result ⊥ }
    {
        match self {
            Value::Int(number) => Ok(Value::Int(*number)),
            Value::Bool(truth) => Ok(Value::Bool(*truth)),
            Value::Text(text) => Ok(Value::Text(text.copy()?)),
            Value::Ints(list) => Ok(Value::Ints(list.copy()?)),
        }
    }

    /// Returns whether both values are equal, as `structuralEqualityPolicy` tests it. Values of two types differ.
    #[inline(always)]
    pub fn same(&self, other: &Value) -> bool
        ensures value { result ≡ same_value self.now other.now }
        ensures equal { (result ≡ true) ↔ (self.now ≡ other.now) }
    {
        if let (Value::Int(a), Value::Int(b)) = (self, other) {
            return *a == *b;
        }
        self.same_any(other)
    }

    // Returns whether any two values are equal. `same` calls it unless both are numbers, which is most frequent.
    #[inline(never)]
    fn same_any(&self, other: &Value) -> bool
        ensures value { result ≡ same_value self.now other.now }
        ensures equal { (result ≡ true) ↔ (self.now ≡ other.now) }
    {
        match (self, other) {
            (Value::Int(a), Value::Int(b)) => *a == *b,
            (Value::Bool(a), Value::Bool(b)) => *a == *b,
            (Value::Text(a), Value::Text(b)) => a.same(b),
            (Value::Ints(a), Value::Ints(b)) => a.same(b),
            _ => false,
        }
    }

    /// Appends the printed form to the output buffer `text`: the literal that a program writes for the value. After
    /// `NoMemory` the buffer is empty.
    pub fn put(&self, text: &mut Vec<u8>) -> Result<(), NoMemory>
        ensures ok { OnOk result (text.new.items ≡ text.old.items ++ value_text self.now) }
        ensures err { OnErr result (text.new.items ≡ []) }
    {
        let done = match self {
            Value::Int(number) => append_number(text, *number),
            Value::Bool(truth) => append_truth(text, *truth),
            Value::Text(chars) => append_string(text, chars),
            Value::Ints(list) => append_list(text, list),
        };
        if done.is_err() {
            text.clear();
        }
        done
    }
}

// Appends the decimal digits of `number`.
fn append_number(text: &mut Vec<u8>, number: i64) -> Result<(), NoMemory>
    ensures { OnOk result (text.new.items ≡ text.old.items ++ signed_decimal number) }
{
    let mut digits = Buffer::new();
    text.extend_from_slice(digits.format(number).as_bytes())?;
    Ok(())
}

// Appends `true` or `false`.
fn append_truth(text: &mut Vec<u8>, truth: bool) -> Result<(), NoMemory>
    ensures { OnOk result (text.new.items ≡ text.old.items ++ truth_text truth) }
{
    let word: &[u8] = if truth { b"true" } else { b"false" };
    text.extend_from_slice(word)?;
    Ok(())
}

// Appends one byte of a string literal, with a backslash escape for a quote, a backslash and a line feed.
fn append_escaped(text: &mut Vec<u8>, c: u8) -> Result<(), NoMemory>
    ensures { OnOk result (text.new.items ≡ text.old.items ++ escape c) }
{
    match c {
        b'"' => text.extend_from_slice(b"\\\"")?,
        b'\\' => text.extend_from_slice(b"\\\\")?,
        b'\n' => text.extend_from_slice(b"\\n")?,
        _ => text.push(c)?,
    }
    Ok(())
}

// Appends a string literal with its quotes.
#[tactic(auto, using(crate::proofs::PrintedForms::strings))]
fn append_string(text: &mut Vec<u8>, chars: &Txt) -> Result<(), NoMemory>
    ensures { OnOk result (text.new.items ≡ text.old.items ++ 34 ∷ escape_all chars.now ++ 34 ∷ []) }
{
    text.push(b'"')?;
    for c in chars.bytes() {
        append_escaped(text, *c)?;
    }
    text.push(b'"')?;
    Ok(())
}

// Appends the numbers of a list, each after a space.
#[tactic(auto, using(crate::proofs::PrintedForms::lists))]
fn append_items(text: &mut Vec<u8>, items: &[i64]) -> Result<(), NoMemory>
    ensures { OnOk result (text.new.items ≡ text.old.items ++ items_text items.now) }
{
    for item in items {
        text.push(b' ')?;
        append_number(text, *item)?;
    }
    Ok(())
}

// Appends a list as the form `(ints 1 2)`.
fn append_list(text: &mut Vec<u8>, list: &IntList) -> Result<(), NoMemory>
    ensures { OnOk result (text.new.items ≡ text.old.items ++ (codes "(ints" ++ items_text list.now ++ 41 ∷ [])) }
{
    text.extend_from_slice(b"(ints")?;
    append_items(text, list.items())?;
    text.push(b')')?;
    Ok(())
}
