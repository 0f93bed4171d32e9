// Cells that are kept or calculated again.
use remember_cells::{Cell, CellAnswer, cell};
use rt_values::Value;
use std::test::Fail;

// Returns six answers of `cell`. In the first four the old cell has `keys`, and the new keys are the same, the first
// two of `others`, the first of `others`, and all of `others`. In the fifth there is no old cell. In the last neither
// cell has keys.
fn answers<'a>(value: &'a Value, keys: &'a [Value], others: &[Value; 3]) -> [CellAnswer; 6] {
    let old = Cell { keys, value };
    let none = Cell { keys: &[], value };
    [
        cell(Some(&old), keys),
        cell(Some(&old), &others[..2]),
        cell(Some(&old), &others[..1]),
        cell(Some(&old), others),
        cell(None, keys),
        cell(Some(&none), &[]),
    ]
}

#[test]
fn cells_are_kept_for_equal_keys(rt: HostRuntime) -> Result<(), Fail> {
    let keys = [Value::Int(2), Value::Bool(true)];
    let others = [Value::Int(2), Value::Bool(false), Value::Int(2)];
    assert!(rt;
        answers(&Value::Int(6), &keys, &others).as_slice()
            == [
                CellAnswer::Kept,
                CellAnswer::Calculate,
                CellAnswer::Calculate,
                CellAnswer::Calculate,
                CellAnswer::Calculate,
                CellAnswer::Kept,
            ]
            .as_slice()
    );
    Ok(())
}
