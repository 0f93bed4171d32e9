//! Whether a remembered value is kept or calculated again.
//!
//! A cell is what `remember(keys) { .. }` keeps in the slots: its keys and its value. `cell` is the test of `cache` in
//! Compose: it compares the old keys with the new ones as `changed` does.
//! Promises: a value is kept exactly if there is an old cell and its keys are equal to the new ones.
#![tactic(auto)]

ghost use Rattle.std.specs.Prelude.{◌≡◌, ◌↔◌, Some};
ghost use Rattle.std.specs.Option.{option_map};
ghost use Rattle.rt_values.specs.Values.{same_values};
ghost use Rattle.remember_cells.specs.Cells.{cell_answer};
ghost use Rattle.remember_cells.specs.declared.answers.CellAnswer.TheVariants as answer;

mod answers;

pub use answers::{Cell, CellAnswer};
use rt_values::Value;

// Returns whether both lists have equal values in the same order.
fn same_keys(keys: &[Value], others: &[Value]) -> bool
    ensures { result ≡ same_values keys.now others.now }
{
    let mut rest = others;
    for key in keys {
        let Some((other, more)) = rest.split_first() else {
            return false;
        };
        if !key.same(other) {
            return false;
        }
        rest = more;
    }
    rest.is_empty()
}

/// Returns whether the value of `old`, the cell at the same path in the last frame, is kept for `keys`.
#[tactic(auto, using(crate::proofs::EqualKeys::kept_for_equal_keys))]
pub fn cell(old: Option<&Cell>, keys: &[Value]) -> CellAnswer
    ensures answer { result ≡ cell_answer (option_map (λ c. c.now.keys.now) old.entry) keys.now }
    ensures kept { (result ≡ answer.Kept) ↔ (option_map (λ c. c.now.keys.now) old.entry ≡ Some keys.now) }
{
    match old {
        Some(old) if same_keys(old.keys, keys) => CellAnswer::Kept,
        _ => CellAnswer::Calculate,
    }
}
