// The parts of the groups of a table, in two lists.
ghost use Rattle.std.specs.Prelude.{◌≡◌, ◌≤◌, ◌<◌, ◌-◌, ◌++◌, ◌∷◌, [], IfOk, IfSome, OnOk, OnErr, MatchOption, length, take, drop, slice_set, vec_len, vec_capacity, true};
ghost use Rattle.rt_groups.specs.PreorderGroups.{flat_group};
ghost use Rattle.rt_groups.specs.declared.groups.GroupKind.TheVariants as kinds;
ghost use Rattle.slot_table.specs.Storage.{AreParts, IsPopped};
ghost use Rattle.slot_table.specs.TableGroups.{group_at, is_node_kind, with_reads};

use crate::changes::same_reads;
use crate::replaced::ReplacedGroups;
use rt_groups::{Attributes, Deps, Group, GroupKind};
use rt_values::{NoMemory, ObjectNo, Word};
use std::alloc::Global;
use std::marker::Model;
use std::rc::Rc;

/// The fields of a group that have a fixed size.
#[derive(Clone, Copy)]
pub struct GroupHead {
    pub depth: u32,
    pub site: u32,
    pub number: u64,
    pub is_node: bool,
}

/// The head of a group as a table stores it, in 16 bytes.
#[derive(Drop)]
pub struct PackedHead {
    depth: u32,
    site: u32,
    // Twice the number, plus 1 if the group is a node.
    number_and_node: u64,
}

const _: () = prove!(size_of::<PackedHead>() == 16);

impl Model for PackedHead {
    ghost use Rattle.std.specs.Prelude.{◌/◌, ◌%◌, nat_eq};
    ghost use Rattle.slot_table.specs.declared.storage.GroupHead.{GroupHead as head_data};

    ghost Value = { head_data };

    ghost view = { λ h. record {
      depth = h.depth;
      site = h.site;
      number = h.number_and_node / 2;
      is_node = nat_eq (h.number_and_node % 2) 1;
    } };
}

impl PackedHead {
    // Packs `head`. Returns `NoMemory` for a number of 2^63 or more: no memory holds so many nodes.
    #[inline(always)]
    fn new(head: GroupHead) -> Result<Self, NoMemory>
        ensures { IfOk result (λ h. h ≡ head) }
    {
        if u64::MAX / 2 < head.number {
            return Err(NoMemory);
        }
        let node = if head.is_node { 1 } else { 0 };
        Ok(PackedHead {
            depth: head.depth,
            site: head.site,
            number_and_node: head.number * 2 + node,
        })
    }

    // Returns a copy.
    #[inline(always)]
    fn copy(&self) -> Self
        ensures { result ≡ self.now }
    {
        PackedHead {
            depth: self.depth,
            site: self.site,
            number_and_node: self.number_and_node,
        }
    }

    /// Returns the head with its fields apart.
    #[inline(always)]
    pub fn unpacked(&self) -> GroupHead
        ensures { result ≡ self.now }
    {
        GroupHead {
            depth: self.depth,
            site: self.site,
            number: self.number(),
            is_node: self.is_node(),
        }
    }

    /// Returns the number of groups that contain the group.
    #[inline(always)]
    pub fn depth(&self) -> u32
        ensures { result ≡ self.now.depth }
    {
        self.depth
    }

    /// Returns the site of the group.
    #[inline(always)]
    pub fn site(&self) -> u32
        ensures { result ≡ self.now.site }
    {
        self.site
    }

    /// Returns the number of the group: that of a node, or 0.
    #[inline(always)]
    pub fn number(&self) -> u64
        ensures { result ≡ self.now.number }
    {
        self.number_and_node / 2
    }

    /// Returns whether the group is a node.
    #[inline(always)]
    pub fn is_node(&self) -> bool
        ensures { result ≡ self.now.is_node }
    {
        self.number_and_node % 2 == 1
    }
}

/// The slots of a group: its kind with its values, and its reads. Tables that have the same group share them. A table
/// stores a handle of 16 bytes.
#[derive(Drop)]
pub struct Slots {
    parts: Parts,
}

const _: () = prove!(size_of::<Slots>() == 16);

// The two forms of slots.
#[derive(Drop)]
enum Parts {
    // The kind of a group without reads.
    Plain(Rc<GroupKind>),
    WithReads(Rc<ReadSlots>),
}

// The kind of a group with reads, which other slots may share, and the reads.
#[derive(Drop)]
struct ReadSlots {
    what: Rc<GroupKind>,
    reads: Deps,
}

impl Model for Slots {
    ghost use Rattle.slot_table.specs.SharedSlots.{GroupSlots, slots_in};

    ghost Value = { GroupSlots };

    ghost view = { λ s. slots_in s.parts };
}

impl Slots {
    // Returns the slots of a group.
    #[inline(always)]
    fn new(alloc: Global, what: GroupKind, reads: Deps) -> Result<Self, NoMemory>
        ensures { IfOk result (λ s. s ≡ record { what = what; reads = reads }) }
    {
        Slots::from_kind(alloc, Rc::new(alloc, what)?, reads)
    }

    // Returns the slots of a group that shares the kind `what`. Takes memory only for reads.
    #[inline(always)]
    fn from_kind(alloc: Global, what: Rc<GroupKind>, reads: Deps) -> Result<Self, NoMemory>
        ensures { IfOk result (λ s. s ≡ record { what = what.value; reads = reads }) }
    {
        if reads.numbers().is_empty() {
            return Ok(Slots {
                parts: Parts::Plain(what),
            });
        }
        let both = Rc::new(alloc, ReadSlots { what, reads })?;
        Ok(Slots {
            parts: Parts::WithReads(both),
        })
    }

    // Returns a copy, which shares the values and the reads.
    #[inline(always)]
    fn copy(&self) -> Result<Self, NoMemory>
        ensures { IfOk result (λ s. s ≡ self.now) }
    {
        let parts = match &self.parts {
            Parts::Plain(what) => Parts::Plain(what.clone()?),
            Parts::WithReads(both) => Parts::WithReads(both.clone()?),
        };
        Ok(Slots { parts })
    }

    // Returns the kind if the group has no reads.
    #[inline(always)]
    pub(crate) fn into_plain(self) -> Option<Rc<GroupKind>>
        ensures what { IfSome result (λ what. what.value ≡ self.what) }
        ensures reads { IfSome result (λ _. self.reads ≡ []) }
    {
        match self.parts {
            Parts::Plain(what) => Some(what),
            Parts::WithReads(_both) => None,
        }
    }

    // Returns the kind for other slots, which share it.
    fn share_kind(&self) -> Result<Rc<GroupKind>, NoMemory>
        ensures { IfOk result (λ what. what.value ≡ self.now.what) }
    {
        match &self.parts {
            Parts::Plain(what) => Ok(what.clone()?),
            Parts::WithReads(both) => Ok(both.what.clone()?),
        }
    }

    // Returns the slots with other reads. They share the kind.
    fn with_reads(&self, alloc: Global, reads: Deps) -> Result<Self, NoMemory>
        ensures { IfOk result (λ s. s ≡ record { what = self.now.what; reads = reads }) }
    {
        let what = self.share_kind()?;
        Slots::from_kind(alloc, what, reads)
    }

    /// Returns the kind of the group, with its values.
    #[inline]
    pub fn what(&self) -> &GroupKind
        ensures { result.now ≡ self.now.what }
    {
        match &self.parts {
            Parts::Plain(what) => what,
            Parts::WithReads(both) => &both.what,
        }
    }

    /// Returns what the group depends on itself.
    #[inline]
    pub fn reads(&self) -> &[ObjectNo]
        ensures { result.now ≡ self.now.reads }
    {
        match &self.parts {
            Parts::Plain(_) => &[],
            Parts::WithReads(both) => both.reads.numbers(),
        }
    }

    // Returns whether both groups have the same reads in the same order. Two groups without reads need no comparison.
    #[inline(always)]
    pub(crate) fn has_reads_of(&self, other: &Slots) -> bool
        ensures { result ≡ true → self.now.reads ≡ other.now.reads }
    {
        match (&self.parts, &other.parts) {
            (Parts::Plain(_), Parts::Plain(_)) => true,
            _ => same_reads(self.reads(), other.reads()),
        }
    }
}

/// A group for a table. Copies share its slots.
#[derive(Drop)]
pub struct SharedGroup {
    head: GroupHead,
    slots: Slots,
}

impl Model for SharedGroup {
    ghost use Rattle.rt_groups.specs.declared.groups.Group.{Group as group_data};
    ghost use Rattle.std.specs.Prelude.{◌≡◌};
    ghost use Rattle.rt_groups.specs.PreorderGroups.{flat_group};
    ghost use Rattle.slot_table.specs.TableGroups.{is_node_kind};

    ghost Value = { group_data };

    ghost view = { λ g. flat_group g.head.depth g.head.site g.head.number g.slots.what g.slots.reads };

    ghost invariant = { λ g. g.head.is_node ≡ is_node_kind g.slots.what };
}

// Returns whether the kind is that of a node.
fn is_node_kind(what: &GroupKind) -> bool
    ensures { result ≡ is_node_kind what.now }
{
    matches!(what, GroupKind::Node { .. })
}

impl SharedGroup {
    /// Returns `group`, whose slots can be shared.
    #[inline(always)]
    pub fn new(alloc: Global, group: Group) -> Result<Self, NoMemory>
        ensures { IfOk result (λ g. g ≡ group) }
    {
        let Group {
            depth,
            site,
            number,
            what,
            reads,
        } = group;
        let head = GroupHead {
            depth,
            site,
            number,
            is_node: is_node_kind(&what),
        };
        let slots = Slots::new(alloc, what, reads)?;
        Ok(SharedGroup { head, slots })
    }

    /// Returns a node without reads, which has no place yet. It takes the memory of a node of `replaced` if there is
    /// any.
    #[inline(always)]
    pub fn new_node(
        alloc: Global,
        kind: Word,
        attributes: Attributes,
        replaced: &mut ReplacedGroups,
    ) -> Result<Self, NoMemory>
        ensures kind { IfOk result (λ g. g.what ≡ kinds.Node kind attributes) }
        ensures reads { IfOk result (λ g. g.reads ≡ []) }
    {
        let head = GroupHead {
            depth: 0,
            site: 0,
            number: 0,
            is_node: true,
        };
        let what = replaced.take_block(alloc, GroupKind::Node { kind, attributes })?;
        let parts = Parts::Plain(what);
        Ok(SharedGroup {
            head,
            slots: Slots { parts },
        })
    }

    // Returns the group with this head, which shares `slots`.
    #[inline(always)]
    pub(crate) fn sharing(head: GroupHead, slots: &Slots) -> Result<Self, NoMemory>
        requires { head.is_node ≡ is_node_kind slots.now.what }
        ensures { IfOk result (λ g. g ≡ flat_group head.depth head.site head.number slots.now.what slots.now.reads) }
    {
        let slots = slots.copy()?;
        Ok(SharedGroup { head, slots })
    }

    /// Returns the number of groups that contain it.
    pub fn depth(&self) -> u32
        ensures { result ≡ self.now.depth }
    {
        self.head.depth
    }

    /// Returns whether the group is a node.
    pub fn is_node(&self) -> bool
        ensures { result ≡ is_node_kind self.now.what }
    {
        self.head.is_node
    }

    /// Returns the group at another depth and site, with another number.
    #[inline(always)]
    pub fn placed(self, depth: u32, site: u32, number: u64) -> Self
        ensures { result ≡ flat_group depth site number self.what self.reads }
    {
        SharedGroup {
            head: GroupHead {
                depth,
                site,
                number,
                is_node: self.head.is_node,
            },
            slots: self.slots,
        }
    }
}

// Makes capacity for one more item. Checks for spare capacity inline, since most calls find some.
#[inline(always)]
pub(crate) fn make_room<T>(items: &mut Vec<T>) -> Result<(), NoMemory>
    ensures items { items.new.items ≡ items.old.items }
    ensures room { OnOk result (vec_len items.new < vec_capacity items.new) }
{
    if items.len() < items.capacity() {
        return Ok(());
    }
    items.reserve(1)?;
    Ok(())
}

// Gives spare capacity back if it is more than an eighth of the length. Keeps the capacity when out of memory.
fn give_back_spare<T>(items: &mut Vec<T>)
    ensures { items.new.items ≡ items.old.items }
{
    if items.len() / 8 < items.capacity() - items.len() {
        items.shrink_to_fit();
    }
}

/// Groups in preorder that become a table.
#[derive(Drop)]
pub struct TableBuilder {
    heads: Vec<PackedHead>,
    slots: Vec<Slots>,
}

impl Model for TableBuilder {
    ghost use Rattle.rt_groups.specs.declared.groups.Group.{Group as group_data};
    ghost use Rattle.std.specs.Prelude.{◌≡◌, List, length};
    ghost use Rattle.slot_table.specs.Storage.{joined_groups, KnowNodes};

    ghost Value = { List group_data };

    ghost view = { λ b. joined_groups b.heads.items b.slots.items };

    ghost invariant = { λ b. (length b.heads.items ≡ length b.slots.items) × KnowNodes b.heads.items b.slots.items };
}

impl TableBuilder {
    /// Returns a builder without groups.
    pub fn new(alloc: Global) -> Self
        ensures { result ≡ [] }
    {
        TableBuilder {
            heads: Vec::new(alloc),
            slots: Vec::new(alloc),
        }
    }

    /// Returns the number of groups.
    #[tactic(auto, using(crate::proofs::JoinedGroups::joined_count))]
    pub fn len(&self) -> usize
        ensures { result ≡ length self.now }
    {
        self.heads.len()
    }

    // Returns the fields of the group at index `i` that have a fixed size.
    fn head(&self, i: usize) -> &PackedHead
        requires { i < length self.now }
        ensures depth { result.now.depth ≡ (group_at self.now i).depth }
        ensures site { result.now.site ≡ (group_at self.now i).site }
        ensures number { result.now.number ≡ (group_at self.now i).number }
        ensures node { result.now.is_node ≡ is_node_kind (group_at self.now i).what }
    {
        let _length = self.heads.len();
        &self.heads[i]
    }

    // Returns the slots of the group at index `i`.
    pub(crate) fn slot(&self, i: usize) -> &Slots
        requires { i < length self.now }
        ensures what { result.now.what ≡ (group_at self.now i).what }
        ensures reads { result.now.reads ≡ (group_at self.now i).reads }
    {
        let _length = self.slots.len();
        &self.slots[i]
    }

    /// Returns the depth of the group at index `i`.
    pub fn depth(&self, i: usize) -> u32
        requires { i < length self.now }
        ensures { result ≡ (group_at self.now i).depth }
    {
        self.head(i).depth()
    }

    // Returns what the group at index `i` depends on itself.
    pub(crate) fn reads(&self, i: usize) -> &[ObjectNo]
        requires { i < length self.now }
        ensures { result.now ≡ (group_at self.now i).reads }
    {
        self.slot(i).reads()
    }

    /// Makes the spare capacity at least `n` groups. The groups stay.
    pub fn reserve(&mut self, n: usize) -> Result<(), NoMemory>
        ensures { self.new ≡ self.old }
    {
        self.heads.reserve(n)?;
        self.slots.reserve(n)?;
        Ok(())
    }

    // Removes all groups and keeps the capacity.
    pub(crate) fn clear(&mut self)
        ensures { self.new ≡ [] }
    {
        self.heads.clear();
        self.slots.clear();
    }

    // Gives spare capacity back where it is more than an eighth of the number of groups. The groups stay.
    pub(crate) fn give_back_spare(&mut self)
        ensures { self.new ≡ self.old }
    {
        give_back_spare(&mut self.heads);
        give_back_spare(&mut self.slots);
    }

    /// Appends a group. After `NoMemory` the groups are unchanged.
    #[inline(always)]
    pub fn push(&mut self, group: SharedGroup) -> Result<(), NoMemory>
        ensures added { OnOk result (self.new ≡ self.old ++ group ∷ []) }
        ensures same { OnErr result (self.new ≡ self.old) }
    {
        let head = PackedHead::new(group.head)?;
        self.push_parts(head, group.slots)
    }

    // Appends the group with this head and these slots. After `NoMemory` the groups are unchanged.
    #[inline(always)]
    fn push_parts(&mut self, head: PackedHead, slots: Slots) -> Result<(), NoMemory>
        requires { head.is_node ≡ is_node_kind slots.what }
        ensures added { OnOk result (self.new ≡ self.old
            ++ flat_group head.depth head.site head.number slots.what slots.reads ∷ []) }
        ensures same { OnErr result (self.new ≡ self.old) }
    {
        make_room(&mut self.heads)?;
        make_room(&mut self.slots)?;
        self.heads.push_reserved(head);
        self.slots.push_reserved(slots);
        Ok(())
    }

    // Appends the group with this head, which shares `slots`. After `NoMemory` the groups are unchanged.
    #[inline(always)]
    pub(crate) fn push_sharing(&mut self, head: &PackedHead, slots: &Slots) -> Result<(), NoMemory>
        requires { head.now.is_node ≡ is_node_kind slots.now.what }
        ensures added { OnOk result (self.new ≡ self.old
            ++ flat_group head.now.depth head.now.site head.now.number slots.now.what slots.now.reads ∷ []) }
        ensures same { OnErr result (self.new ≡ self.old) }
    {
        let slots = slots.copy()?;
        self.push_parts(head.copy(), slots)
    }

    /// Gives the group at index `i` these reads in place of its own. After `NoMemory` the groups are unchanged.
    pub fn set_reads(&mut self, alloc: Global, i: usize, reads: Deps) -> Result<(), NoMemory>
        requires { i < length self.old }
        ensures set { OnOk result (self.new ≡ slice_set self.old i (with_reads (group_at self.old i) reads)) }
        ensures same { OnErr result (self.new ≡ self.old) }
    {
        let _length = self.slots.len();
        let slots = self.slots[i].with_reads(alloc, reads)?;
        self.slots[i] = slots;
        Ok(())
    }

    // Appends the groups of this builder from index `from` to before index `to` to `groups`. They share their slots.
    pub(crate) fn share_run(
        &self,
        from: usize,
        to: usize,
        groups: &mut TableBuilder,
    ) -> Result<(), NoMemory>
        requires order { from ≤ to }
        requires inside { to ≤ length self.now }
        ensures { OnOk result (groups.new ≡ groups.old ++ take (to - from) (drop from self.now)) }
    {
        for i in from..to {
            groups.push_sharing(self.head(i), self.slot(i))?;
        }
        Ok(())
    }

    // Replaces the group at index `place` by the group at index `i` of `groups`, which shares its slots.
    pub(crate) fn set_sharing(
        &mut self,
        place: usize,
        groups: &TableBuilder,
        i: usize,
    ) -> Result<(), NoMemory>
        requires place { place < length self.old }
        requires index { i < length groups.now }
        ensures { OnOk result (self.new ≡ slice_set self.old place (group_at groups.now i)) }
    {
        let slots = groups.slot(i).copy()?;
        self.set_parts(place, groups.head(i).copy(), slots);
        Ok(())
    }

    // Replaces the group at index `i` by the group with this head and these slots.
    fn set_parts(&mut self, i: usize, head: PackedHead, slots: Slots)
        requires index { i < length self.old }
        requires node { head.is_node ≡ is_node_kind slots.what }
        ensures { self.new ≡ slice_set self.old i (flat_group head.depth head.site head.number slots.what slots.reads) }
    {
        let _length = self.heads.len();
        let _slots = self.slots.len();
        self.heads[i] = head;
        self.slots[i] = slots;
    }

    // Removes and returns the parts of the last group.
    #[inline(always)]
    pub(crate) fn pop(&mut self) -> Option<(PackedHead, Slots)>
        ensures { MatchOption result (self.old ≡ []) (λ p. IsPopped p.0 p.1 self.old self.new) }
    {
        let Some(head) = self.heads.pop() else {
            return None;
        };
        let Some(slots) = self.slots.pop() else {
            unreachable!();
        };
        Some((head, slots))
    }

    // Returns the parts of all groups.
    pub(crate) fn into_parts(self) -> (Vec<PackedHead>, Vec<Slots>)
        ensures { AreParts result.0.items result.1.items self }
    {
        let TableBuilder { heads, slots } = self;
        (heads, slots)
    }
}
