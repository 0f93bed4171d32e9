// Variables of composables.

use rt_values::{Value, Word};

/// A variable with its value: a parameter with its argument, or the name in a `let`, a `for` or a `remember`.
#[derive(Drop)]
pub struct Binding {
    pub name: Word,
    pub value: Value,
}
