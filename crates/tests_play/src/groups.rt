// A whole program composed from scratch, and an expression evaluated.
use crate::map_view::view_of;
use crate::programs::parse_program;
use lang_ast::{Expression, Head, Program, Statement};
use lang_meaning::{Env, eval, scratch};
use rt_groups::{GroupKind, Groups};
use rt_values::Value;
use std::alloc::Global;
use std::test::Fail;

// A leaf that shows state `b` plus its parameter; rows under keys; a remembered square; a choice between two states.
const PROGRAM: &str = "(compose 1)
(state list Ints Structural (ints))
(state a Int Structural 0)
(state b Int Structural 0)
(state c Int Structural 0)
(fun leaf ((n Int)) (node Leaf ((value (+ n (get b))))))
(fun root ()
  (for i (ints 3 4) (key i (call leaf (+ i (get a)))))
  (remember v ((k (get a))) (* k k) (node Square ((value v))))
  (let p (pick (< (get a) 5) (get b) (get c)) (node Choice ((value p)))))";

// Returns the number that a key, a cell or the one attribute of a node shows, or the one argument of a call.
fn shown_number(what: &GroupKind) -> i64 {
    match what {
        GroupKind::Call { arguments, .. } => arguments.items().first().map_or(-1, Value::number),
        GroupKind::Node { attributes, .. } => attributes
            .items()
            .first()
            .map_or(-1, |a| a.value.number()),
        GroupKind::Key(value) => value.number(),
        GroupKind::Cell { value, .. } => value.number(),
    }
}

// Composes the root of the program from scratch. The states after the list are `numbers`.
fn composed(alloc: Global, numbers: &[i64]) -> Result<Groups, Fail> {
    let mut view = view_of(alloc, &[], numbers)?;
    let (program, _) = parse_program(alloc, PROGRAM.as_bytes())?;
    Ok(scratch(alloc, &program.functions, 1, Groups::new(alloc), &mut view)?)
}

// The depth, the site and the shown number of each group of the program.
static GROUPS: [(u32, u32, i64); 10] = [
    (0, 0, -1),
    (1, 3, 3),
    (2, 4, 5),
    (3, 1, 12),
    (1, 3, 4),
    (2, 4, 6),
    (3, 1, 13),
    (1, 5, 4),
    (1, 6, 4),
    (1, 8, 7),
];

#[test]
fn groups_are_in_preorder_with_depths(rt: HostRuntime) -> Result<(), Fail> {
    let groups = composed(rt.alloc(), &[2, 7, 9])?;
    assert!(rt; groups.len() == GROUPS.len());
    for (group, row) in groups.items().iter().zip(GROUPS.as_slice()) {
        assert!(rt; (group.depth, group.site, shown_number(&group.what)) == *row);
    }
    Ok(())
}

// The key reads both states.
const BOTH: &str = "(compose 1)
(state list Ints Structural (ints))
(state a Bool Structural true)
(state b Bool Structural true)
(fun root () (key (and (get a) (get b))))";

// Returns the key that is the first statement of the first function.
fn first_key(program: &Program) -> Option<&Expression> {
    match program.functions.first()?.body.first()? {
        Statement::Block {
            head: Head::Key { key },
            ..
        } => Some(key),
        _ => None,
    }
}

// Evaluates the key of the program, where the first state is false. Returns whether the value is false, and both states
// are read.
fn reads_both(alloc: Global) -> Result<bool, Fail> {
    let mut view = view_of(alloc, &[], &[0, 1])?;
    let (program, _) = parse_program(alloc, BOTH.as_bytes())?;
    let Some(key) = first_key(&program) else {
        return Ok(false);
    };
    let value = eval(alloc, key, &Env::new(alloc), &mut view)?;
    Ok(value.same(&Value::Bool(false)) && view.asked.numbers() == [1u64, 2].as_slice())
}

#[test]
fn both_operands_of_and_are_read(rt: HostRuntime) -> Result<(), Fail> {
    assert!(rt; reads_both(rt.alloc())?);
    Ok(())
}
