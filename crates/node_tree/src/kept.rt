// The nodes of a node tree.
ghost use Rattle.std.specs.Prelude.{◌≡◌, [], IfOk};
ghost use Rattle.node_tree.specs.KeptNodes.{kept_value, NoNode};

use crate::ops::NodeAttributes;
use rt_values::{NoMemory, Word};
use std::alloc::Global;
use std::collections::LinkedList;
use std::marker::Model;

// A node with its children, and with its siblings before and after it while it is open.
#[derive(Drop)]
pub(crate) struct KeptNode {
    pub(crate) number: u64,
    pub(crate) kind: Word,
    pub(crate) attributes: NodeAttributes,
    pub(crate) children: LinkedList<KeptNode>,
    pub(crate) before: LinkedList<KeptNode>,
    pub(crate) after: LinkedList<KeptNode>,
}

impl Model for KeptNode {
    ghost use Rattle.std.specs.Prelude.{◌+◌, ◌∷◌, ℕ, List, []};
    ghost use Rattle.std.specs.Coded.{codes};
    ghost use Rattle.node_tree.specs.KeptNodes.{KeptValue, kept_of, kept_value_code, inner_weight};

    ghost Value = { KeptValue };

    ghost coded = { kept_value_code (Prim.hlevel codes) };

    ghost view = { λ a. record {
      number = a.number;
      kind = a.kind;
      attributes = a.attributes;
      children = kept_of a.children;
      before = kept_of a.before;
      after = kept_of a.after;
    } };

    ghost size = { inner_weight };

    ghost use Rattle.std.proofs.Common.{arith};
    ghost use Rattle.node_tree.specs.KeptNodes.{most_weight};

    ghost size_decreases = { λ a h.
        omega (arith, most_weight a.children, most_weight a.before, most_weight a.after) };
}

impl KeptNode {
    // Returns a node that holds nothing.
    pub(crate) fn empty(alloc: Global) -> Result<Self, NoMemory>
        ensures { IfOk result (λ k. k ≡ kept_value 0 [] [] NoNode NoNode NoNode) }
    {
        Ok(KeptNode {
            number: 0,
            kind: Word::of(alloc, &[])?,
            attributes: NodeAttributes::new(alloc),
            children: LinkedList::new(alloc),
            before: LinkedList::new(alloc),
            after: LinkedList::new(alloc),
        })
    }
}
