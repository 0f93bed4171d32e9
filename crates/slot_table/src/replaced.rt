// Memory of earlier frames that new groups take.
ghost use Rattle.std.specs.Prelude.{◌≡◌, [], IfOk, IfSome};

use crate::storage::{Slots, TableBuilder};
use rt_groups::{Attributes, GroupKind};
use rt_values::{NoMemory, Value};
use std::alloc::Global;
use std::mem;
use std::rc::Rc;

/// Nodes of a table that new groups replaced, whose memory new nodes take instead of memory of the allocator: the list
/// of the attributes, and the block that holds the node. A node that a table still shares is left alone. The lists in
/// which the new groups of the last frame were written serve again too. A rule of this project.
#[derive(Drop)]
pub struct ReplacedGroups {
    // Nodes with their attributes.
    nodes: Vec<Slots>,
    // Blocks whose node was removed, each for one new node.
    blocks: Vec<Rc<GroupKind>>,
    lists: Option<WriterLists>,
}

// The lists in which new groups are written: the groups, and the index of each among the groups of its frame.
#[derive(Drop)]
pub(crate) struct WriterLists {
    pub(crate) fresh: TableBuilder,
    pub(crate) places: Vec<usize>,
}

impl ReplacedGroups {
    /// Returns the empty list. Takes no memory.
    pub fn none(alloc: Global) -> Self {
        ReplacedGroups {
            nodes: Vec::new(alloc),
            blocks: Vec::new(alloc),
            lists: None,
        }
    }

    // Keeps the memory of lists in which new groups were written.
    pub(crate) fn keep_lists(&mut self, lists: WriterLists) {
        self.lists = Some(lists);
    }

    // Returns empty lists for new groups.
    pub(crate) fn take_lists(&mut self, alloc: Global) -> WriterLists
        ensures fresh { result.fresh ≡ [] }
        ensures places { result.places.items ≡ [] }
    {
        match self.lists.take() {
            Some(mut lists) => {
                lists.fresh.clear();
                lists.places.clear();
                lists
            }
            None => WriterLists {
                fresh: TableBuilder::new(alloc),
                places: Vec::new(alloc),
            },
        }
    }

    // Adds the node with these slots, or drops the node when out of memory.
    #[inline(always)]
    pub(crate) fn add(&mut self, slots: Slots) {
        let _ = self.nodes.push(slots);
    }

    /// Returns the empty list of attributes: that of a replaced node if there is any, or a new one with capacity for
    /// `count` attributes.
    pub fn take_attributes(&mut self, alloc: Global, count: usize) -> Result<Attributes, NoMemory>
        ensures { IfOk result (λ all. all ≡ []) }
    {
        if let Some(slots) = self.nodes.pop() {
            if let Some(mut block) = slots.into_plain() {
                if let Some(attributes) = empty_node(&mut block) {
                    let _ = self.blocks.push(block);
                    return Ok(attributes);
                }
            }
        }
        Attributes::with_room(alloc, count)
    }

    // Returns a block that holds `what`: that of a replaced node if there is any, or a new one.
    #[inline(always)]
    pub(crate) fn take_block(
        &mut self,
        alloc: Global,
        what: GroupKind,
    ) -> Result<Rc<GroupKind>, NoMemory>
        ensures { IfOk result (λ block. block.value ≡ what) }
    {
        if let Some(mut block) = self.blocks.pop() {
            if let Some(kind) = Rc::get_mut(&mut block) {
                *kind = what;
                return Ok(block);
            }
        }
        Ok(Rc::new(alloc, what)?)
    }
}

// Removes and returns the node in `block`, and returns its attributes without items, unless a table shares the block.
#[inline(always)]
fn empty_node(block: &mut Rc<GroupKind>) -> Option<Attributes>
    ensures { IfSome result (λ all. all ≡ []) }
{
    let kind = Rc::get_mut(block)?;
    match mem::replace(kind, GroupKind::Key(Value::Int(0))) {
        GroupKind::Node {
            kind: _kind,
            mut attributes,
        } => {
            attributes.clear();
            Some(attributes)
        }
        _ => None,
    }
}
