// An old cell, and what composing does with it.
use rt_values::Value;

/// A cell of the last frame, as the slot table lends it.
#[derive(Clone, Copy)]
pub struct Cell<'a> {
    /// The values of the keys that `value` was calculated for, in order.
    pub keys: &'a [Value],
    pub value: &'a Value,
}

/// The action of composing at a `remember`.
#[derive(Clone, Copy, Debug, PartialEq, Eq)]
pub enum CellAnswer {
    /// Keeps the value of the old cell.
    Kept,
    /// Calculates the value.
    Calculate,
}
