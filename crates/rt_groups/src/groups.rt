// A composition as a list of groups, and the lists that groups contain.
ghost use Rattle.std.specs.Prelude.{◌≡◌, ◌<◌, ◌++◌, ◌∷◌, [], List, length, IfOk, OnOk, OnErr};
ghost use Rattle.rt_groups.specs.PreorderGroups.{flat_group};
ghost use Rattle.rt_groups.specs.declared.groups.Group.{Group as group_data};

use rt_values::{Items, NoMemory, ObjectNo, Objects, Value, Word};
use std::alloc::Global;
use std::marker::Model;

/// The number of a state object that a call depends on. A rule of this project; other kinds of values that a call
/// can read may join later.
pub type Dep = ObjectNo;

/// The dependencies of a call in the order of its reads, repeats included.
pub type Deps = Objects;

/// A list of values: the arguments of a call, or the keys of a cell.
pub type Values = Items<Value>;

/// An attribute of a node: a name with a value.
#[derive(Drop)]
pub struct Attribute {
    pub name: Word,
    pub value: Value,
}

/// The attributes of a node, in order.
pub type Attributes = Items<Attribute>;

/// The kind of a group, with what the kind records.
#[derive(Drop)]
pub enum GroupKind {
    /// A call of the function with this number, with its arguments (`startRestartGroup`).
    Call { function: usize, arguments: Values },
    /// A node with its kind and attributes (`startNode`).
    Node { kind: Word, attributes: Attributes },
    /// A key with its value (`startMovableGroup`).
    Key(Value),
    /// A cell that remembers `value`, which was calculated for `keys` (`cache`).
    Cell { keys: Values, value: Value },
}

/// A group of a composition, as a group of the `SlotTable`. A composition lists its groups in preorder, each with its
/// depth.
#[derive(Drop)]
pub struct Group {
    /// The number of groups that contain it.
    pub depth: u32,
    /// The number of its statement in the program, from 1, or 0 for the call of the root.
    pub site: u32,
    /// The number of a node, or 0 if the group has no number yet.
    pub number: u64,
    pub what: GroupKind,
    /// The reads of the call itself, in order and with repeats (observed by its `RecomposeScope`). The list is empty
    /// for the other kinds.
    pub reads: Deps,
}

// Returns the attributes of a node, whose memory can be used again. Discards everything else.
fn take_attributes(what: GroupKind) -> Option<Attributes> {
    match what {
        GroupKind::Node {
            kind: _kind,
            attributes,
        } => Some(attributes),
        GroupKind::Call {
            arguments: _arguments,
            ..
        } => None,
        GroupKind::Key(_value) => None,
        GroupKind::Cell {
            keys: _keys,
            value: _value,
        } => None,
    }
}

/// The groups of a composition in preorder.
#[derive(Drop)]
pub struct Groups {
    items: Vec<Group>,
    // Lists of attributes without items, whose capacity new nodes use.
    spare: Vec<Attributes>,
}

impl Model for Groups {
    ghost use Rattle.std.specs.Prelude.{List};
    ghost use Rattle.rt_groups.specs.declared.groups.Group.{Group};

    ghost Value = { List Group };

    ghost view = { λ g. g.items.items };
}

impl Groups {
    /// Returns the empty list.
    pub fn new(alloc: Global) -> Self
        ensures { result ≡ [] }
    {
        Groups {
            items: Vec::new(alloc),
            spare: Vec::new(alloc),
        }
    }

    /// Returns the groups, in preorder.
    pub fn items(&self) -> &[Group]
        ensures { result.now ≡ self.now }
    {
        &self.items
    }

    /// Returns the number of groups.
    pub fn len(&self) -> usize
        ensures { result ≡ length self.now }
    {
        self.items.len()
    }

    /// Appends `group`. After `NoMemory` the list is unchanged.
    pub fn push(&mut self, group: Group) -> Result<(), NoMemory>
        ensures ok { OnOk result (self.new ≡ self.old ++ group ∷ []) }
        ensures err { OnErr result (self.new ≡ self.old) }
    {
        self.items.reserve(1)?;
        self.items.push_reserved(group);
        Ok(())
    }

    /// Removes all groups. Keeps the capacity, and that of the nodes' attributes as far as memory allows.
    pub fn clear(&mut self)
        ensures { self.new ≡ [] }
    {
        while let Some(group) = self.items.pop() {
            if let Some(mut attributes) = take_attributes(group.what) {
                attributes.clear();
                let _ = self.spare.push(attributes);
            }
        }
    }

    /// Returns an empty list of attributes, either one that `clear` kept or a new one with capacity for `count`
    /// items.
    pub fn take_spare_attributes(
        &mut self,
        alloc: Global,
        count: usize,
    ) -> Result<Attributes, NoMemory>
        ensures none { IfOk result (λ all. all ≡ []) }
        ensures same { self.new ≡ self.old }
    {
        match self.spare.pop() {
            Some(mut room) => {
                room.clear();
                Ok(room)
            }
            None => Attributes::with_room(alloc, count),
        }
    }

    /// Replaces the reads of the group at index `place`.
    #[tactic(auto, using(crate::proofs::ReplacedItems::set_seam, crate::proofs::ReplacedItems::got_seam))]
    pub fn set_reads(&mut self, place: usize, reads: Objects)
        requires { place < length self.old }
        ensures len { length self.new ≡ length self.old }
        ensures reads { (before after : List group_data) (g : group_data) →
            length before ≡ place → self.old ≡ before ++ (g ∷ after) →
            self.new ≡ before ++ (flat_group g.depth g.site g.number g.what reads ∷ after) }
    {
        self.items[place].reads = reads;
    }
}
