// The nodes of a slot table as a list.
ghost use Rattle.std.specs.Prelude.{◌≡◌, ◌<◌, ◌≤◌, ◌+◌, ◌++◌, ◌∷◌, [], length, drop, slice_index_or, IfOk, OnOk, if◌then◌else◌};
ghost use Rattle.rt_groups.specs.GroupForest.{GroupForest};
ghost use Rattle.rt_groups.specs.Nodes.{nodes};
ghost use Rattle.rt_groups.specs.PreorderGroups.{preorder};
ghost use Rattle.slot_table.specs.TableGroups.{group_at, is_node_kind};
ghost use Rattle.node_tree.specs.FlatNodes.{flat_nodes};
ghost use Rattle.node_tree.specs.NodeGroups.{later_counts, node_of_kind, inner_nodes, nodes_among};

use crate::flat::NodeRef;
use rt_groups::GroupKind;
use rt_values::NoMemory;
use slot_table::{Table, skipping_leaves_the_siblings};
use std::alloc::Global;

// Returns the count at `index`, or 0 after the last one.
fn count_at(counts: &[usize], index: usize) -> usize
    ensures { result ≡ slice_index_or counts.now index 0 }
{
    if index < counts.len() {
        counts[index]
    } else {
        0
    }
}

// Returns 1 if the group at index `at` is a node, else 0.
fn count_node(table: &Table, at: usize) -> usize
    requires { at < length table.now.groups }
    ensures { result ≡ (if is_node_kind (group_at table.now.groups at).what then 1 else 0) }
{
    if table.is_node(at) { 1 } else { 0 }
}

// Counts for each group of the table the nodes from there on.
fn count_later_nodes(alloc: Global, table: &Table) -> Result<Vec<usize>, NoMemory>
    ensures { IfOk result (λ counts. counts.items ≡ later_counts table.now.groups) }
{
    let mut at = table.len();
    let mut counts = vec![in alloc; 0; at]?;
    while 0 < at {
        let later = count_at(&counts, at);
        at -= 1;
        counts[at] = later + count_node(table, at);
    }
    Ok(counts)
}

// Returns the number of nodes inside the group at index `at`. `counts` has for each group the nodes from there on.
fn count_inside(table: &Table, counts: &[usize], at: usize) -> usize
    requires inside { at < length table.now.groups }
    requires counts { counts.now ≡ later_counts table.now.groups }
    ensures { result ≡ inner_nodes (group_at table.now.groups at).depth (drop (at + 1) table.now.groups) }
{
    let _length = table.len();
    count_at(counts, at + 1).saturating_sub(count_at(counts, table.index_after(at)))
}

// Appends the group at index `at` if it is a node. `inner` is the number of nodes inside it.
fn push_node<'t>(
    table: &'t Table,
    at: usize,
    inner: usize,
    nodes: &mut Vec<NodeRef<'t>>,
) -> Result<(), NoMemory>
    requires { at < length table.now.groups }
    ensures { let group = group_at table.now.groups at in
        OnOk result (nodes.new.items ≡ nodes.old.items ++ node_of_kind inner group.number group.what) }
{
    if let GroupKind::Node { kind, attributes } = table.kind(at) {
        nodes.push(NodeRef {
            inner,
            number: table.number(at),
            kind,
            attributes: attributes.items(),
        })?;
    }
    Ok(())
}

// Appends the group at index `at` if it is a node. `counts` has for each group the nodes from there on.
fn push_group<'t>(
    table: &'t Table,
    counts: &[usize],
    at: usize,
    nodes: &mut Vec<NodeRef<'t>>,
) -> Result<(), NoMemory>
    requires inside { at < length table.now.groups }
    requires counts { counts.now ≡ later_counts table.now.groups }
    ensures { let group = group_at table.now.groups at in
        let inner = inner_nodes group.depth (drop (at + 1) table.now.groups) in
        OnOk result (nodes.new.items ≡ nodes.old.items ++ node_of_kind inner group.number group.what) }
{
    if !table.is_node(at) {
        return Ok(());
    }
    push_node(table, at, count_inside(table, counts, at), nodes)
}

// Returns the nodes among the groups of the table.
fn list_among<'t>(alloc: Global, table: &'t Table) -> Result<Vec<NodeRef<'t>>, NoMemory>
    ensures { IfOk result (λ v. v.items ≡ nodes_among table.now.groups) }
{
    let counts = count_later_nodes(alloc, table)?;
    let mut nodes = Vec::with_capacity(alloc, count_at(&counts, 0))?;
    for at in 0..table.len() {
        push_group(table, &counts, at, &mut nodes)?;
    }
    Ok(nodes)
}

/// Returns the nodes of a composition in preorder, without its calls, keys and cells. Takes time linear in the number
/// of groups, and copies no values.
pub fn list_nodes<'t>(alloc: Global, table: &'t Table) -> Result<Vec<NodeRef<'t>>, NoMemory>
    ensures { (t : GroupForest) → table.now.groups ≡ preorder 0 t → IfOk result (λ v. v.items ≡ flat_nodes (nodes t)) }
{
    skipping_leaves_the_siblings();
    Ok(list_among(alloc, table)?)
}
