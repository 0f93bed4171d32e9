// Trees of nodes as lists in preorder.

use rt_groups::Attribute;
use rt_values::Word;
use std::marker::Model;

/// A node of a tree that is a list in preorder, without a copy of its values. The list has each node before the nodes
/// inside it. A rule of this project: `place` reads both trees from such lists.
#[derive(Drop)]
pub struct NodeRef<'a> {
    /// The number of nodes inside it.
    pub inner: usize,
    /// The number of the node.
    pub number: u64,
    /// The kind of the node.
    pub kind: &'a Word,
    /// The attributes of the node, in order.
    pub attributes: &'a [Attribute],
}

impl<'a> Model for NodeRef<'a> {
    ghost use Rattle.std.specs.Prelude.{map};
    ghost use Rattle.node_tree.specs.FlatNodes.{FlatNode, flat_node};
    ghost use Rattle.node_tree.specs.Calls.{attribute_of};

    ghost Value = { FlatNode };

    ghost view = { λ n. flat_node n.inner n.number n.kind.now (map attribute_of n.attributes.now) };
}
