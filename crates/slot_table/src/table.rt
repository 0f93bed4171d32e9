// The groups of a composition.
ghost use Rattle.std.specs.Prelude.{◌≡◌, ◌≤◌, ◌<◌, ◌+◌, ◌-◌, ◌^◌, ◌++◌, ◌∷◌, [], List, length, drop, take, slice_index_or, slice_set, IfOk, OnOk, true};
ghost use Rattle.rt_groups.specs.declared.groups.Group.{Group as group_data};
ghost use Rattle.slot_table.specs.TableGroups.{group_at, is_node_kind};
ghost use Rattle.rt_groups.specs.PreorderGroups.{flat_group};
ghost use Rattle.slot_table.specs.ChangeLists.{nodes_in};
ghost use Rattle.slot_table.specs.ReaderStates.{after_deep};
ghost use Rattle.slot_table.specs.InnerCounts.{leading_deep, inner_counts, bare_groups};
ghost use Rattle.slot_table.specs.KeptRuns.{patched, IsShrunk, HasBlocks, after_exchange};

use crate::runs::{Exchange, KeptRun, exchange_items, shrink_items};
use crate::storage::{PackedHead, SharedGroup, Slots, TableBuilder};
use gap_buffer::GapBuf;
use rt_groups::GroupKind;
use rt_values::{NoMemory, ObjectNo};
use std::alloc::Global;
use std::marker::Model;

/// The groups of a composition in preorder (`SlotTable`).
#[derive(Drop)]
pub struct Table {
    groups: GapBuf<PackedHead>,
    // For each group its slots, which other tables may share.
    slots: GapBuf<Slots>,
    // For each group the number of groups inside it (`groupSize` less 1).
    counts: Vec<u32>,
}

impl Model for Table {
    ghost use Rattle.std.specs.Prelude.{◌≡◌, length, min};
    ghost use Rattle.slot_table.specs.TableGroups.{TableGroups};
    ghost use Rattle.slot_table.specs.InnerCounts.{inner_counts as counts_of};
    ghost use Rattle.slot_table.specs.Storage.{joined_groups as joined, KnowNodes};

    ghost Value = { TableGroups };

    ghost view = { λ t. record {
      groups = joined t.groups.items t.slots.items;
      spare = min t.groups.spare t.slots.spare;
    } };

    ghost invariant = { λ t. (length t.groups.items ≡ length t.slots.items)
        × (t.counts.items ≡ counts_of (joined t.groups.items t.slots.items))
        × KnowNodes t.groups.items t.slots.items };
}

impl Table {
    /// Returns the table without groups.
    pub fn new(alloc: Global) -> Self
        ensures { result.groups ≡ [] }
    {
        Table {
            groups: GapBuf::new(alloc),
            slots: GapBuf::new(alloc),
            counts: Vec::new(alloc),
        }
    }

    /// Returns the table of `groups`, which are in preorder. Takes time linear in their number.
    pub fn from_groups(alloc: Global, groups: TableBuilder) -> Result<Self, NoMemory>
        ensures { IfOk result (λ t. t.groups ≡ groups) }
    {
        let mut groups = groups;
        groups.give_back_spare();
        let (heads, slots) = groups.into_parts();
        let groups = GapBuf::from_vec(heads);
        let counts = count_all_inside(alloc, &groups)?;
        Ok(Table {
            groups,
            slots: GapBuf::from_vec(slots),
            counts,
        })
    }

    /// Returns the number of groups.
    #[tactic(auto, using(crate::proofs::JoinedGroups::joined_count))]
    pub fn len(&self) -> usize
        ensures { result ≡ length self.now.groups }
    {
        self.groups.len()
    }

    /// Makes the spare capacity at least `n` groups. The groups stay.
    pub fn reserve(&mut self, n: usize) -> Result<(), NoMemory>
        ensures groups { self.new.groups ≡ self.old.groups }
        ensures room { OnOk result (n ≤ self.new.spare) }
    {
        self.groups.reserve(n)?;
        self.slots.reserve(n)?;
        Ok(())
    }

    // Returns the fields of the group at index `i` that have a fixed size.
    fn head(&self, i: usize) -> &PackedHead
        requires { i < length self.now.groups }
        ensures depth { result.now.depth ≡ (group_at self.now.groups i).depth }
        ensures site { result.now.site ≡ (group_at self.now.groups i).site }
        ensures number { result.now.number ≡ (group_at self.now.groups i).number }
        ensures node { result.now.is_node ≡ is_node_kind (group_at self.now.groups i).what }
    {
        self.groups.get(i)
    }

    // Returns the slots of the group at index `i`.
    pub(crate) fn slot(&self, i: usize) -> &Slots
        requires { i < length self.now.groups }
        ensures what { result.now.what ≡ (group_at self.now.groups i).what }
        ensures reads { result.now.reads ≡ (group_at self.now.groups i).reads }
    {
        self.slots.get(i)
    }

    /// Returns the depth of the group at index `i`.
    pub fn depth(&self, i: usize) -> u32
        requires { i < length self.now.groups }
        ensures { result ≡ (group_at self.now.groups i).depth }
    {
        self.head(i).depth()
    }

    /// Returns the site of the group at index `i`.
    pub fn site(&self, i: usize) -> u32
        requires { i < length self.now.groups }
        ensures { result ≡ (group_at self.now.groups i).site }
    {
        self.head(i).site()
    }

    /// Returns the number of the group at index `i`: that of a node, or 0.
    pub fn number(&self, i: usize) -> u64
        requires { i < length self.now.groups }
        ensures { result ≡ (group_at self.now.groups i).number }
    {
        self.head(i).number()
    }

    /// Returns whether the group at index `i` is a node.
    pub fn is_node(&self, i: usize) -> bool
        requires { i < length self.now.groups }
        ensures { result ≡ is_node_kind (group_at self.now.groups i).what }
    {
        self.head(i).is_node()
    }

    /// Returns the kind of the group at index `i`, with its values.
    pub fn kind(&self, i: usize) -> &GroupKind
        requires { i < length self.now.groups }
        ensures { result.now ≡ (group_at self.now.groups i).what }
    {
        self.slot(i).what()
    }

    /// Returns what the group at index `i` depends on itself.
    pub fn reads(&self, i: usize) -> &[ObjectNo]
        requires { i < length self.now.groups }
        ensures { result.now ≡ (group_at self.now.groups i).reads }
    {
        self.slot(i).reads()
    }

    // Returns whether the group at index `i` has the reads of `slots`, in the same order.
    #[inline(always)]
    pub(crate) fn has_reads_of(&self, i: usize, slots: &Slots) -> bool
        requires { i < length self.now.groups }
        ensures { result ≡ true → slots.now.reads ≡ (group_at self.now.groups i).reads }
    {
        slots.has_reads_of(self.slot(i))
    }

    /// Returns the group at index `i`, which shares its slots with this table.
    #[inline(always)]
    pub fn share(&self, i: usize) -> Result<SharedGroup, NoMemory>
        requires { i < length self.now.groups }
        ensures { IfOk result (λ g. g ≡ group_at self.now.groups i) }
    {
        SharedGroup::sharing(self.head(i).unpacked(), self.slot(i))
    }

    // Appends the groups from index `from` to before index `to` to `groups`. They share their slots with this table.
    pub(crate) fn share_run(
        &self,
        from: usize,
        to: usize,
        groups: &mut TableBuilder,
    ) -> Result<(), NoMemory>
        requires order { from ≤ to }
        requires inside { to ≤ length self.now.groups }
        ensures { OnOk result (groups.new ≡ groups.old ++ take (to - from) (drop from self.now.groups)) }
    {
        groups.reserve(to - from)?;
        for i in from..to {
            groups.push_sharing(self.head(i), self.slot(i))?;
        }
        Ok(())
    }

    // Counts the nodes among the groups from index `from` to before index `to`.
    #[inline]
    pub(crate) fn count_nodes(&self, from: usize, to: usize) -> usize
        requires order { from ≤ to }
        requires inside { to ≤ length self.now.groups }
        ensures { result ≡ nodes_in (take (to - from) (drop from self.now.groups)) }
    {
        let mut nodes = 0;
        for i in from..to {
            nodes += self.count_node(i);
        }
        nodes
    }

    // Counts the group at index `i` if it is a node.
    #[inline(always)]
    fn count_node(&self, i: usize) -> usize
        requires { i < length self.now.groups }
        ensures { result ≡ nodes_in (group_at self.now.groups i ∷ []) }
    {
        if self.is_node(i) { 1 } else { 0 }
    }

    // Replaces the group at index `i` by the group with this head and these slots, which has the same depth. Returns
    // the slots that were replaced.
    #[inline(always)]
    pub(crate) fn set_group(&mut self, i: usize, head: PackedHead, slots: Slots) -> Slots
        requires index { i < length self.old.groups }
        requires node { head.is_node ≡ is_node_kind slots.what }
        requires depth { head.depth ≡ (group_at self.old.groups i).depth }
        ensures { self.new.groups
            ≡ slice_set self.old.groups i (flat_group head.depth head.site head.number slots.what slots.reads) }
    {
        self.groups.set(i, head);
        self.slots.replace(i, slots)
    }

    // Removes the groups that no run keeps, and puts the new groups before, between and after the runs. `len` is the
    // number of groups afterwards. Takes no memory.
    pub(crate) fn shrink(&mut self, fresh: TableBuilder, runs: &[KeptRun], len: usize)
        requires shrunk { IsShrunk self.old.groups fresh runs.now len }
        requires small { len < 2 ^ 32 }
        ensures { self.new.groups ≡ patched self.old.groups fresh runs.now }
    {
        let (heads, slots) = fresh.into_parts();
        shrink_items(&mut self.groups, heads, runs, len);
        shrink_items(&mut self.slots, slots, runs, len);
        self.counts.truncate(len);
        set_counts(&self.groups, &mut self.counts);
    }

    // Exchanges two blocks of groups that follow each other. Takes no memory. Takes time linear in the number of groups
    // of both blocks if each block is siblings with all groups inside them, and else in the number of all groups.
    pub(crate) fn exchange(&mut self, exchange: Exchange)
        requires blocks { HasBlocks self.old.groups exchange }
        requires small { length self.old.groups < 2 ^ 32 }
        ensures { self.new.groups ≡ after_exchange exchange self.old.groups }
    {
        let from = first_recount(&self.groups, exchange);
        exchange_items(&mut self.groups, exchange);
        exchange_items(&mut self.slots, exchange);
        set_counts_between(&self.groups, &mut self.counts, from, exchange.to);
    }

    /// Returns the index after the group at index `i` and all groups inside it.
    #[tactic(auto, using(crate::proofs::InnerCounts::length_counts))]
    pub fn index_after(&self, i: usize) -> usize
        requires { i < length self.now.groups }
        ensures after { (g : group_data) (rest : List group_data) → drop i self.now.groups ≡ g ∷ rest →
            drop result self.now.groups ≡ after_deep (g.depth + 1) rest }
        ensures inside { result ≤ length self.now.groups }
    {
        let _length = self.len();
        i + 1 + self.counts[i] as usize
    }
}

// Returns the depth of the head at index `i`.
#[inline(always)]
fn depth_at(heads: &GapBuf<PackedHead>, i: usize) -> u32
    requires { i < length heads.now.items }
    ensures { result ≡ (group_at (bare_groups heads.now.items) i).depth }
{
    heads.get(i).depth()
}

// Counts the groups inside the group at index `i`. The counts of the groups after it are known.
fn count_inside(heads: &GapBuf<PackedHead>, counts: &[u32], i: usize) -> usize
    requires inside { i < length heads.now.items }
    requires long { length counts.now ≡ length heads.now.items }
    requires after { drop (i + 1) counts.now ≡ inner_counts (drop (i + 1) (bare_groups heads.now.items)) }
    ensures count { (g : group_data) (rest : List group_data) → drop i (bare_groups heads.now.items) ≡ g ∷ rest →
        result ≡ length (leading_deep (g.depth + 1) rest) }
    ensures fewer { result < length heads.now.items }
{
    let depth = depth_at(heads, i);
    let mut next = i + 1;
    while next < heads.len() {
        if depth_at(heads, next) <= depth {
            return next - i - 1;
        }
        next = next + 1 + counts[next] as usize;
    }
    next - i - 1
}

// Counts for each group the groups inside it.
fn set_counts(heads: &GapBuf<PackedHead>, counts: &mut [u32])
    requires long { length counts.old ≡ length heads.now.items }
    requires small { length heads.now.items ≤ 2 ^ 32 }
    ensures { counts.new ≡ inner_counts (bare_groups heads.now.items) }
{
    set_counts_between(heads, counts, 0, heads.len());
}

// Counts for each group from index `from` to before index `to` the groups inside it, from the last group to the first.
// The counts of the groups from index `to` on are known.
fn set_counts_between(heads: &GapBuf<PackedHead>, counts: &mut [u32], from: usize, to: usize)
    requires long { length counts.old ≡ length heads.now.items }
    requires small { length heads.now.items ≤ 2 ^ 32 }
    requires order { from ≤ to }
    requires inside { to ≤ length heads.now.items }
    requires known { drop to counts.old ≡ inner_counts (drop to (bare_groups heads.now.items)) }
    ensures before { take from counts.new ≡ take from counts.old }
    ensures after { drop from counts.new ≡ inner_counts (drop from (bare_groups heads.now.items)) }
{
    let mut at = to;
    while from < at {
        at -= 1;
        counts[at] = count_inside(heads, counts, at) as u32;
    }
}

// Returns the index of the first group whose count may change in the exchange: the first group of the blocks if the
// first groups of both blocks have the same depth and no group of the blocks has a lower depth, and else the first
// group of the table. Takes time linear in the number of groups of both blocks.
fn first_recount(heads: &GapBuf<PackedHead>, exchange: Exchange) -> usize
    requires { HasBlocks heads.now.items exchange }
    ensures inside { result ≤ exchange.to }
    ensures same { take result (inner_counts (bare_groups heads.now.items))
        ≡ take result (inner_counts (after_exchange exchange (bare_groups heads.now.items))) }
{
    let Exchange { from, middle, to } = exchange;
    let depth = depth_at(heads, from);
    if depth_at(heads, middle) != depth {
        return 0;
    }
    for i in from..to {
        if depth_at(heads, i) < depth {
            return 0;
        }
    }
    from
}

// Returns for each group the number of groups inside it. Returns `NoMemory` for 2^32 groups or more: no memory holds
// them.
fn count_all_inside(alloc: Global, heads: &GapBuf<PackedHead>) -> Result<Vec<u32>, NoMemory>
    ensures { IfOk result (λ counts. counts.items ≡ inner_counts (bare_groups heads.now.items)) }
{
    let len = heads.len();
    if len > u32::MAX as usize {
        return Err(NoMemory);
    }
    let mut counts = vec![in alloc; 0; len]?;
    set_counts(heads, &mut counts);
    Ok(counts)
}
