// The nodes of a node tree in memory as a list.
ghost use Rattle.std.specs.Prelude.{◌≡◌, ◌++◌, ◌∷◌, [], map, OnOk};
ghost use Rattle.node_tree.specs.Calls.{attribute_of};
ghost use Rattle.node_tree.specs.FlatNodes.{flat_node, flat_nodes};
ghost use Rattle.node_tree.specs.KeptNodes.{kept_of, nodes_kept};

use crate::flat::NodeRef;
use crate::kept::KeptNode;
use rt_values::NoMemory;
use std::collections::LinkedList;

// Returns a node, which has `inner` nodes inside it.
fn node_ref(node: &KeptNode, inner: usize) -> NodeRef<'_>
    ensures { result ≡ flat_node inner node.now.number node.now.kind (map attribute_of node.now.attributes) }
{
    NodeRef {
        inner,
        number: node.number,
        kind: &node.kind,
        attributes: node.attributes.items(),
    }
}

// Appends a node and the nodes inside it, in preorder.
#[cycle(listing)]
fn push_node<'t>(node: &'t KeptNode, nodes: &mut Vec<NodeRef<'t>>) -> Result<(), NoMemory>
    ensures { OnOk result (nodes.new.items ≡ nodes.old.items ++ flat_nodes (nodes_kept (kept_of (node.now ∷ [])))) }
{
    let at = nodes.len();
    nodes.push(node_ref(node, 0))?;
    push_nodes(&node.children, nodes)?;
    let inner = nodes.len() - at - 1;
    nodes[at] = node_ref(node, inner);
    Ok(())
}

// Appends the nodes of a list and the nodes inside them, in preorder.
#[cycle(listing)]
pub(crate) fn push_nodes<'t>(
    list: &'t LinkedList<KeptNode>,
    nodes: &mut Vec<NodeRef<'t>>,
) -> Result<(), NoMemory>
    ensures { OnOk result (nodes.new.items ≡ nodes.old.items ++ flat_nodes (nodes_kept (kept_of list.now))) }
{
    for node in list {
        push_node(node, nodes)?;
    }
    Ok(())
}
