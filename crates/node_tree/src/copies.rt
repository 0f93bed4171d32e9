// Copies of calls on an applier.
ghost use Rattle.std.specs.Prelude.{◌≡◌, IfOk};

use crate::level::copy_attributes;
use crate::ops::{NewNode, Op, Ops};
use rt_values::NoMemory;
use std::alloc::Global;

// Returns a copy of a node to insert.
fn copy_new_node(alloc: Global, node: &NewNode) -> Result<NewNode, NoMemory>
    ensures { IfOk result (λ n. n ≡ node.now) }
{
    Ok(NewNode {
        number: node.number,
        kind: node.kind.copy()?,
        attributes: copy_attributes(alloc, node.attributes.items())?,
    })
}

// Returns a copy of a call.
fn copy_op(alloc: Global, op: &Op) -> Result<Op, NoMemory>
    ensures { IfOk result (λ o. o ≡ op.now) }
{
    match op {
        Op::Down { index } => Ok(Op::Down { index: *index }),
        Op::Up => Ok(Op::Up),
        Op::InsertTopDown { index, node } => Ok(Op::InsertTopDown {
            index: *index,
            node: copy_new_node(alloc, node)?,
        }),
        Op::InsertBottomUp { index, node } => Ok(Op::InsertBottomUp {
            index: *index,
            node: copy_new_node(alloc, node)?,
        }),
        Op::Remove { index, count } => Ok(Op::Remove {
            index: *index,
            count: *count,
        }),
        Op::Move { from, to, count } => Ok(Op::Move {
            from: *from,
            to: *to,
            count: *count,
        }),
        Op::Set { name, value } => Ok(Op::Set {
            name: name.copy()?,
            value: value.copy(alloc)?,
        }),
        Op::Clear => Ok(Op::Clear),
    }
}

impl Ops {
    /// Returns a copy. `carry` uses up the calls that it makes, and a composition also keeps them.
    pub fn copy(&self, alloc: Global) -> Result<Ops, NoMemory>
        ensures { IfOk result (λ ops. ops ≡ self.now) }
    {
        let mut copied = Ops::new(alloc);
        for op in self.items() {
            copied.push(copy_op(alloc, op)?)?;
        }
        Ok(copied)
    }
}
