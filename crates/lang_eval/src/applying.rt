// Applying operators to the values of their operands.
ghost use Rattle.std.specs.Prelude.{◌≡◌, ◌∷◌, [], true, false, IfOk, OnErr, pos, length};
ghost use Rattle.rt_values.specs.Values.{no_value, is_flat};
ghost use Rattle.rt_values.specs.Operators.{joined_text, list_with_item, concatenation, item_at, text_of, items_of};
ghost use Rattle.lang_ast.specs.Evaluation.{is_pick, operand_taken, apply};
ghost use Rattle.lang_eval.specs.Operands.{is_list, is_plain, makes_list, pair, pair_with};

use lang_ast::Operator;
use rt_values::{IntList, NoMemory, Txt, Value, operators};
use std::alloc::Global;

/// The values of the first and the second operand.
#[derive(Drop)]
pub struct Pair {
    pub first: Value,
    pub second: Value,
}

impl Pair {
    /// Returns a pair of missing operands, which count as 0.
    pub fn none() -> Self
        ensures { result ≡ pair no_value no_value }
    {
        Pair {
            first: Value::Int(0),
            second: Value::Int(0),
        }
    }

    /// Returns the pair with the operand at index `place` replaced. Operands after the first two are discarded.
    #[inline(always)]
    pub fn with(self, place: usize, value: Value) -> Self
        ensures { result ≡ pair_with self place value }
    {
        match place {
            0 => Pair {
                first: value,
                second: self.second,
            },
            1 => Pair {
                first: self.first,
                second: value,
            },
            _ => self,
        }
    }
}

/// Returns whether the operator evaluates only some of its operands.
pub fn is_pick(operator: Operator) -> bool
    ensures { result ≡ is_pick operator }
{
    matches!(operator, Operator::Pick)
}

/// Returns the index of the operand that a `pick` evaluates, by its condition.
pub fn choose_operand(condition: &Value) -> usize
    ensures { result ≡ operand_taken condition.now }
{
    if condition.is_true() { 1 } else { 2 }
}

/// Returns whether the operator takes any number of operands.
pub fn is_list(operator: Operator) -> bool
    ensures { result ≡ is_list operator }
{
    matches!(operator, Operator::Ints)
}

/// Returns whether the operator makes a number or a truth value of its operands without reading a list or a text.
pub fn is_plain(operator: Operator) -> bool
    ensures { result ≡ is_plain operator }
{
    !matches!(
        operator,
        Operator::Join
            | Operator::Text
            | Operator::Ints
            | Operator::Range
            | Operator::Push
            | Operator::Concat
            | Operator::Length
            | Operator::At
    )
}

/// Applies an operator of one or two operands, using the memory of the first operand again. An operator that gives a
/// number or a truth value takes no memory.
#[inline(always)]
pub fn apply(
    alloc: Global,
    operator: Operator,
    first: Value,
    second: Value,
) -> Result<Value, NoMemory>
    requires { is_list operator ≡ false }
    ensures value { IfOk result (λ v. v ≡ apply operator (first ∷ second ∷ [])) }
    ensures free { is_flat (apply operator (first ∷ second ∷ [])) ≡ true → OnErr result ⊥ }
{
    if is_plain(operator) {
        return Ok(apply_plain(operator, &first, &second));
    }
    match operator {
        Operator::Join => Ok(Value::Text(join(alloc, first, second)?)),
        Operator::Text => Ok(Value::Text(first.to_text(alloc)?)),
        _ => apply_to_list(alloc, operator, first, &second),
    }
}

// Applies an operator on numbers, truth values or any values. Takes no memory.
fn apply_plain(operator: Operator, first: &Value, second: &Value) -> Value
    requires { is_plain operator ≡ true }
    ensures { result ≡ apply operator (first.now ∷ second.now ∷ []) }
{
    let a = first.number();
    let b = second.number();
    match operator {
        Operator::Add => Value::Int(operators::add(a, b)),
        Operator::Subtract => Value::Int(operators::subtract(a, b)),
        Operator::Multiply => Value::Int(operators::multiply(a, b)),
        Operator::Divide => Value::Int(operators::divide(a, b)),
        Operator::Remainder => Value::Int(operators::remainder(a, b)),
        Operator::Equal => Value::Bool(first.same(second)),
        Operator::Less => Value::Bool(operators::is_less(a, b)),
        Operator::Not => Value::Bool(!first.is_true()),
        Operator::And => Value::Bool(first.is_true() & second.is_true()),
        Operator::Or => Value::Bool(first.is_true() | second.is_true()),
        Operator::Pick => Value::Int(0),
        _ => unreachable!(),
    }
}

// Applies an operator that takes or makes a list.
fn apply_to_list(
    alloc: Global,
    operator: Operator,
    first: Value,
    second: &Value,
) -> Result<Value, NoMemory>
    requires { makes_list operator ≡ true }
    ensures value { IfOk result (λ v. v ≡ apply operator (first ∷ second.now ∷ [])) }
    ensures free { is_flat (apply operator (first ∷ second.now ∷ [])) ≡ true → OnErr result ⊥ }
{
    let b = second.number();
    match operator {
        Operator::Range => Ok(Value::Ints(IntList::range(alloc, first.number(), b)?)),
        Operator::Push => Ok(Value::Ints(push(alloc, first, b)?)),
        Operator::Concat => Ok(Value::Ints(concat(alloc, first, second)?)),
        Operator::Length => Ok(Value::Int(length(first.items()))),
        Operator::At => Ok(Value::Int(item(&first, b))),
        _ => unreachable!(),
    }
}

// Joins two texts.
fn join(alloc: Global, first: Value, second: Value) -> Result<Txt, NoMemory>
    ensures { IfOk result (λ t. t ≡ joined_text (text_of first) (text_of second)) }
{
    Txt::join(alloc, &first.into_text(alloc)?, &second.into_text(alloc)?)
}

// Appends a number to a list.
fn push(alloc: Global, list: Value, number: i64) -> Result<IntList, NoMemory>
    ensures { IfOk result (λ l. l ≡ list_with_item (items_of list) number) }
{
    let mut list = list.into_list(alloc)?;
    list.push(number)?;
    Ok(list)
}

// Concatenates two lists.
fn concat(alloc: Global, first: Value, second: &Value) -> Result<IntList, NoMemory>
    ensures { IfOk result (λ l. l ≡ concatenation (items_of first) (items_of second.now)) }
{
    let mut list = first.into_list(alloc)?;
    list.extend(second.items())?;
    Ok(list)
}

// Returns the number of items of a list.
fn length(items: &[i64]) -> i64
    ensures { result ≡ pos (length items.now) }
{
    items.len() as i64
}

// Returns the item of a list at an index, or 0 if there is no such index or the value is no list.
fn item(list: &Value, place: i64) -> i64
    ensures { result ≡ item_at (items_of list.now) place }
{
    match list {
        Value::Ints(list) => list.at(place),
        Value::Int(_) | Value::Bool(_) | Value::Text(_) => 0,
    }
}
