// Frames over appliers whose calls fail: one whose tree is known, and one without a tree.
ghost use Rattle.std.specs.Prelude.{◌≡◌, ◌<◌, ◌+◌, IfOk, OnOk};
ghost use Rattle.rt_values.specs.Maps.{Map};
ghost use Rattle.recomposer.specs.AppliedFrames.{MayCall};
ghost use Rattle.recomposer.specs.Compositions.{IsAt};
ghost use Rattle.recomposer.specs.FrameContracts.{ComposesShown, DrivesApplier};
ghost use Rattle.tests_play.specs.KnownTrees.{HasOneObject, IsBefore};

use crate::map_view::MapView;
use crate::programs::checked_program;
use lang_checks::Checked;
use node_tree::{Applier, FailingApplier, NodeRef, NodeTree, Op, Ops, UnitApplier};
use recomposer::{Composition, FrameStop};
use rt_groups::{Attribute, Report};
use rt_values::{IntList, Map, Objects, StampedValue, Steps, Value};
use std::alloc::Global;
use std::marker::Brand;
use std::sync::ledger::{Blank, Ledger};
use std::test::Fail;

// A row for each item, without keys.
const PROGRAM: &str = "(compose 1)
(state list Ints Structural (ints))
(fun root () (for i (get list) (node Row ((item i)))))";

// The calls of the first frame of three items: an insert of each row and the report that it is complete.
const FIRST: u64 = 6;

// The calls of the frame in which the three items are in another order: for each row `down`, `set` and `up`.
const SECOND: u64 = 9;

// Returns a view of the map in which object 0 is a list of `items` with this stamp.
fn view_at(alloc: Global, items: &[i64], stamp: u64) -> Result<MapView, Fail>
    ensures { IfOk result (λ v. HasOneObject stamp v.map) }
{
    let mut list = IntList::new(alloc)?;
    list.extend(items)?;
    let mut map = Map::new(alloc);
    map.push(StampedValue {
        value: Value::Ints(list),
        stamp,
    })?;
    Ok(MapView {
        map,
        asked: Objects::new(alloc),
    })
}

// Composes what the frame owes, and makes its calls on the applier. `blank` is the ledger of the steps, which no test
// reads.
fn recompose_counting<A: Applier, L: Ledger>(
    alloc: Global,
    composition: &mut Composition,
    view: &mut MapView,
    applier: &mut A,
    blank: Blank,
) -> Result<Report, FrameStop>
    requires tree { MayCall (A.tree applier.old)
        (λ k. (m : Map) × IsAt composition.old k (Some m) × (view.old.map ≡ m)) }
    requires name { blank.name ≡ L.name }
    requires parts { blank.parts ≡ L.parts }
    requires some { 0 < L.parts }
    ensures frame { ComposesShown composition.old composition.new (λ m. view.old.map ≡ m) result }
    ensures applier { DrivesApplier A.tree A.faults applier.old applier.new composition.old composition.new
        (λ m. view.old.map ≡ m) result }
{
    let (book, share) = blank.open();
    let mut steps: Steps<L> = Steps::new(book, share);
    composition.recompose_with(alloc, view, applier, &mut steps)
}

// Makes a frame in which the list has these items, with a higher stamp than in the frame before it.
fn frame_with<A: Applier>(
    alloc: Global,
    composition: &mut Composition,
    items: &[i64],
    stamp: u64,
    applier: &mut A,
) -> Result<Result<Report, FrameStop>, Fail>
    requires { IsBefore stamp composition.old (A.tree applier.old) }
    ensures { OnOk result (IsBefore (stamp + 1) composition.new (A.tree applier.new)) }
{
    let mut view = view_at(alloc, items, stamp)?;
    composition.note(&[0]);
    Ok(recompose_counting::<A, Brand>(alloc, composition, &mut view, applier, Blank::new(1)))
}

// Whether this call inserts the node with this number at this index.
fn is_insert(op: Option<&Op>, at: usize, number: u64) -> bool {
    matches!(op, Some(Op::InsertTopDown { index, node }) if *index == at && node.number == number)
}

// Whether this call reports that the node with this number, at this index, is complete.
fn is_report(op: Option<&Op>, at: usize, number: u64) -> bool {
    matches!(op, Some(Op::InsertBottomUp { index, node }) if *index == at && node.number == number)
}

// Whether the calls insert three rows with these numbers, and then report each.
fn inserts_three(calls: &[Op], numbers: [u64; 3]) -> bool {
    let [a, b, c] = numbers;
    calls.len() == 6
        && is_insert(calls.get(0), 0, a)
        && is_insert(calls.get(1), 1, b)
        && is_insert(calls.get(2), 2, c)
        && is_report(calls.get(3), 0, a)
        && is_report(calls.get(4), 1, b)
        && is_report(calls.get(5), 2, c)
}

// Whether the calls clear the tree and then insert three rows with these numbers.
fn clears_and_inserts(ops: &Ops, numbers: [u64; 3]) -> bool {
    let Some((clear, calls)) = ops.items().split_first() else {
        return false;
    };
    matches!(clear, Op::Clear) && inserts_three(calls, numbers)
}

// Whether the attributes are one item, of this value.
fn is_item(attributes: &[Attribute], item: i64) -> bool {
    match attributes.first() {
        Some(
            Attribute {
                name,
                value: Value::Int(number),
            },
        ) => attributes.len() == 1 && name.bytes() == b"item".as_slice() && *number == item,
        _ => false,
    }
}

// Whether the nodes are rows of these items, in order, with the numbers from `first` on.
fn are_rows(nodes: &[NodeRef], items: &[i64], first: u64) -> bool {
    let mut number = first;
    for (node, item) in nodes.iter().zip(items) {
        if node.inner != 0
            || node.number != number
            || node.kind.bytes() != b"Row".as_slice()
            || !is_item(node.attributes, *item)
        {
            return false;
        }
        number = number.wrapping_add(1);
    }
    nodes.len() == items.len()
}

// Makes a frame whose call fails. Returns whether nothing but the next number is kept, and the calls of the last good
// frame are lent.
fn fails_and_keeps_the_number<A: Applier>(
    alloc: Global,
    composition: &mut Composition,
    applier: &mut A,
) -> Result<bool, Fail>
    requires { IsBefore 2 composition.old (A.tree applier.old) }
    ensures { OnOk result (IsBefore 3 composition.new (A.tree applier.new)) }
{
    let refused = frame_with(alloc, composition, &[3, 1, 2], 2, applier)?;
    Ok(
        matches!(refused, Err(FrameStop::ApplierFault))
            && composition.next() == 4
            && composition.table().len() == 0
            && inserts_three(composition.ops().items(), [1, 2, 3]),
    )
}

// Makes a good frame, one after it, whose call fails, and a third one. Returns whether the last one clears the tree and
// makes all nodes again with new numbers.
fn recovers<A: Applier>(
    alloc: Global,
    composition: &mut Composition,
    applier: &mut A,
) -> Result<bool, Fail>
    requires { IsBefore 1 composition.old (A.tree applier.old) }
{
    let first = frame_with(alloc, composition, &[1, 2, 3], 1, applier)?;
    if !matches!(first, Ok(Report { nodes: 3, .. }))
        || !inserts_three(composition.ops().items(), [1, 2, 3])
    {
        return Ok(false);
    }
    if !fails_and_keeps_the_number(alloc, composition, applier)? {
        return Ok(false);
    }
    let last = frame_with(alloc, composition, &[3, 1, 2], 3, applier)?;
    Ok(
        matches!(last, Ok(Report { nodes: 3, .. }))
            && clears_and_inserts(composition.ops(), [4, 5, 6]),
    )
}

// Lists the nodes of the tree. Returns whether they are rows of these items, with the numbers from `first` on.
fn lists_rows(alloc: Global, tree: &NodeTree, items: &[i64], first: u64) -> Result<bool, Fail> {
    Ok(are_rows(&tree.list(alloc)?, items, first))
}

// Makes the first frame of a composition from scratch. Returns whether its tree has the rows of these items, with the
// numbers from 1 on.
fn makes_rows(alloc: Global, program: &Checked, items: &[i64]) -> Result<bool, Fail> {
    let mut composition = Composition::new(alloc, program, 0)?;
    let mut tree = NodeTree::new(alloc);
    let made = frame_with(alloc, &mut composition, items, 1, &mut tree)?;
    Ok(matches!(made, Ok(_)) && lists_rows(alloc, &tree, items, 1)?)
}

// Makes frames over a tree whose call number `failing` fails. Returns whether the frame after the fault begins anew,
// and the tree has its rows, with new numbers.
fn fails_and_recovers(alloc: Global, program: &Checked, failing: u64) -> Result<bool, Fail> {
    let mut composition = Composition::new(alloc, program, 0)?;
    let mut applier = FailingApplier::new(NodeTree::new(alloc), vec![in alloc; failing]?);
    Ok(
        recovers(alloc, &mut composition, &mut applier)?
            && lists_rows(alloc, applier.inner(), &[3, 1, 2], 4)?,
    )
}

// Makes the three frames over an applier without a tree. Returns whether the last one begins anew.
fn recovers_without_tree(alloc: Global, program: &Checked, failing: u64) -> Result<bool, Fail> {
    let mut composition = Composition::new(alloc, program, 0)?;
    let mut applier = FailingApplier::new(UnitApplier, vec![in alloc; failing]?);
    recovers(alloc, &mut composition, &mut applier)
}

// Whichever call of a frame fails, the frame after it clears the tree, and makes all nodes again with new numbers.
#[test]
fn fault_of_the_applier_clears_the_tree_and_uses_up_numbers(rt: HostRuntime) -> Result<(), Fail> {
    let program = checked_program(rt.alloc(), PROGRAM.as_bytes())?;
    assert!(rt; makes_rows(rt.alloc(), &program, &[3, 1, 2])?);
    for failing in FIRST + 1..=FIRST + SECOND {
        assert!(rt;
            fails_and_recovers(rt.alloc(), &program, failing)?,
            "{failing}"
        );
        assert!(rt;
            recovers_without_tree(rt.alloc(), &program, failing)?,
            "{failing}"
        );
    }
    Ok(())
}
