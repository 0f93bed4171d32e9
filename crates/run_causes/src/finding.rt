// The marks of the groups of a frame.
ghost use Rattle.std.specs.Prelude.{◌≡◌, ◌<◌, length, IfOk, IfSome};
ghost use Rattle.rt_groups.specs.GroupForest.{GroupForest};
ghost use Rattle.rt_groups.specs.PreorderGroups.{preorder};
ghost use Rattle.run_causes.specs.Causes.{marks};
ghost use Rattle.run_causes.specs.TableCauses.{found_mark, runs_inside};

use crate::causes::{Cause, Mark, cause_of, has_other_keys};
use crate::olds::find_olds;
use rt_groups::GroupKind;
use rt_values::{NoMemory, ObjectNo};
use slot_table::Table;
use std::alloc::Global;

// Returns the mark of a group whose old group is at the index `found` of the old table. `runs` is whether its innermost
// call runs.
fn mark_at(
    alloc: Global,
    owed: &[ObjectNo],
    old: &Table,
    found: Option<usize>,
    runs: bool,
    what: &GroupKind,
) -> Result<Mark, NoMemory>
    requires { IfSome found (λ i. i < length old.now.groups) }
    ensures { IfOk result (λ m. m ≡ found_mark owed.now old.now.groups found runs what.now) }
{
    match what {
        GroupKind::Call {
            function,
            arguments,
        } => {
            let cause = cause_of(alloc, owed, old, found, *function, arguments.items())?;
            Ok(Mark::Call(cause))
        }
        GroupKind::Cell { keys, .. } => Ok(Mark::Cell {
            calculated: runs && has_other_keys(old, found, keys.items()),
        }),
        GroupKind::Node { .. } => Ok(Mark::Other),
        GroupKind::Key(_) => Ok(Mark::Other),
    }
}

// Returns whether the innermost call of what is inside a group with this mark runs.
fn runs_inside(mark: &Mark, runs: bool) -> bool
    ensures { result ≡ runs_inside mark.now runs }
{
    match mark {
        Mark::Call(cause) => cause.runs(),
        _ => runs,
    }
}

/// Returns the marks of the new groups in preorder. `owed` are the objects that the frame owed, in ascending order, and
/// `old` are the groups of the last good frame. Takes time linear in the number of groups, except that a long key takes
/// longer, and a call compares each owed object with each of its old reads.
pub fn find_marks(
    alloc: Global,
    owed: &[ObjectNo],
    old: &Table,
    new: &Table,
) -> Result<Vec<Mark>, NoMemory>
    ensures { (before after : GroupForest) →
        old.now.groups ≡ preorder 0 before → new.now.groups ≡ preorder 0 after →
        IfOk result (λ all. all.items ≡ marks owed.now before after) }
{
    let olds = find_olds(alloc, old, new)?;
    let mut marks = Vec::new(alloc);
    // Outside all groups everything runs.
    let mut runs = vec![in alloc; true]?;
    for i in 0..new.len() {
        runs.truncate(new.depth(i) as usize + 1);
        let around = runs[runs.len() - 1];
        let mark = mark_at(alloc, owed, old, olds[i], around, new.kind(i))?;
        runs.push(runs_inside(&mark, around))?;
        marks.push(mark)?;
    }
    Ok(marks)
}
