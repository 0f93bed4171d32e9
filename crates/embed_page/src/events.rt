// Events, which write states.

use crate::Board;
use compose_app::AppStop;
use rt_values::{IntList, Value};
use std::alloc::Global;

// Returns the items without `number`, and with `number` at the end if `is_added`.
fn items_after(
    alloc: Global,
    board: &mut Board,
    number: i64,
    is_added: bool,
) -> Result<IntList, AppStop> {
    let mut items = IntList::new(alloc)?;
    for item in board.read(alloc, 0, "items")?.items() {
        if *item != number {
            items.push(*item)?;
        }
    }
    if is_added {
        items.push(number)?;
    }
    Ok(items)
}

/// Makes an event: `add N`, `drop N` or `pick N`. Ignores any other line.
pub fn make_event(alloc: Global, board: &mut Board, line: &str) -> Result<(), AppStop> {
    let mut words = line.split_whitespace();
    let Some(verb) = words.next() else {
        return Ok(());
    };
    let Some(number) = words.next().and_then(|word| word.parse::<i64>().ok()) else {
        return Ok(());
    };
    if verb == "pick" {
        board.write(alloc, 0, "picked", Value::Int(number))?;
    } else if verb == "add" || verb == "drop" {
        let items = items_after(alloc, board, number, verb == "add")?;
        board.write(alloc, 0, "items", Value::Ints(items))?;
    }
    Ok(())
}
