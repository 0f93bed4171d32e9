// Conversions of operands to the type that an operator needs. A value of another type counts as 0, false, the empty
// text or the empty list. By this rule of the project no operator fails.
ghost use Rattle.std.specs.Prelude.{◌≡◌, IfOk};
ghost use Rattle.rt_values.specs.Operators.{number_of, is_true, text_of, items_of, plain_text};

use crate::{IntList, NoMemory, Txt, Value};
use std::alloc::Global;

impl Value {
    /// Returns the number, or 0 for a value of another type.
    pub fn number(&self) -> i64
        ensures { result ≡ number_of self.now }
    {
        match self {
            Value::Int(number) => *number,
            Value::Bool(_) | Value::Text(_) | Value::Ints(_) => 0,
        }
    }

    /// Returns the truth value, or false for a value of another type.
    pub fn is_true(&self) -> bool
        ensures { result ≡ is_true self.now }
    {
        match self {
            Value::Bool(truth) => *truth,
            Value::Int(_) | Value::Text(_) | Value::Ints(_) => false,
        }
    }

    /// Returns the characters of the text, or the empty string for a value of another type.
    pub fn chars(&self) -> &str
        ensures { result.now ≡ text_of self.now }
    {
        match self {
            Value::Text(text) => text.as_str(),
            Value::Int(_) | Value::Bool(_) | Value::Ints(_) => "",
        }
    }

    /// Returns the items of the list, or an empty slice for a value of another type.
    pub fn items(&self) -> &[i64]
        ensures { result.now ≡ items_of self.now }
    {
        match self {
            Value::Ints(list) => list.items(),
            Value::Int(_) | Value::Bool(_) | Value::Text(_) => &[],
        }
    }

    /// Returns the text, or the empty text for a value of another type.
    pub fn into_text(self, alloc: Global) -> Result<Txt, NoMemory>
        ensures { IfOk result (λ t. t ≡ text_of self) }
    {
        match self {
            Value::Text(text) => Ok(text),
            Value::Int(_) | Value::Bool(_) | Value::Ints(_) => Txt::new(alloc),
        }
    }

    /// Returns the list, or the empty list for a value of another type.
    pub fn into_list(self, alloc: Global) -> Result<IntList, NoMemory>
        ensures { IfOk result (λ l. l ≡ items_of self) }
    {
        match self {
            Value::Ints(list) => Ok(list),
            Value::Int(_) | Value::Bool(_) | Value::Text(_) => IntList::new(alloc),
        }
    }

    /// Returns the decimal digits of a number, or `true` or `false`. A text or a list gives the empty text.
    pub fn to_text(&self, alloc: Global) -> Result<Txt, NoMemory>
        ensures { IfOk result (λ t. t ≡ plain_text self.now) }
    {
        match self {
            Value::Int(number) => Txt::of_number(alloc, *number),
            Value::Bool(truth) => Txt::of_truth(alloc, *truth),
            Value::Text(_) | Value::Ints(_) => Txt::new(alloc),
        }
    }
}
