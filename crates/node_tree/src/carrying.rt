// Calls on an applier, in order.
ghost use Rattle.std.specs.Prelude.{◌≡◌, ◌+◌, ◌≤◌, OnOk};
ghost use Rattle.rt_streams.specs.Streams.{HasCause};
ghost use Rattle.node_tree.specs.Calls.{Allows, Becomes, AllAllowed, BecomesAfter, inserts_of, insert_count};

use crate::applier::Applier;
use crate::ops::{Op, Ops};
use rt_streams::Failed;

// Makes one call on `applier`.
fn make_call<A: Applier>(applier: &mut A, op: Op) -> Result<(), Failed>
    requires may { Allows (A.tree applier.old) op }
    requires room { inserts_of op ≤ A.spare applier.old }
    ensures tree { OnOk result (Becomes (A.tree applier.old) (A.tree applier.new) op) }
    ensures spare { A.spare applier.old ≤ A.spare applier.new + inserts_of op }
    ensures cause { HasCause (A.faults applier.old) (A.faults applier.new) result }
{
    match op {
        Op::Down { index } => applier.down(index),
        Op::Up => applier.up(),
        Op::InsertTopDown { index, node } => applier.insert_top_down(index, node),
        Op::InsertBottomUp { index, node } => applier.insert_bottom_up(index, node),
        Op::Remove { index, count } => applier.remove(index, count),
        Op::Move { from, to, count } => applier.move_range(from, to, count),
        Op::Set { name, value } => applier.set(name, value),
        Op::Clear => applier.clear(),
    }
}

/// Makes the calls of `ops` on `applier`, in order (`ChangeList.executeAndFlushAllPendingChanges`). Stops at the first
/// call that fails. Takes no memory.
pub fn carry<A: Applier>(applier: &mut A, ops: Ops) -> Result<(), Failed>
    requires may { AllAllowed (A.tree applier.old) ops }
    requires room { insert_count ops ≤ A.spare applier.old }
    ensures tree { OnOk result (BecomesAfter (A.tree applier.old) (A.tree applier.new) ops) }
    ensures cause { HasCause (A.faults applier.old) (A.faults applier.new) result }
{
    // The first call is last, where it can be taken off without a shift of the others.
    let mut rest = ops.into_vec();
    rest.reverse();
    while let Some(op) = rest.pop() {
        if make_call(applier, op).is_err() {
            return Err(Failed);
        }
    }
    Ok(())
}
