// The changes that take a table to the groups of a new frame.
ghost use Rattle.std.specs.Prelude.{◌≡◌, ◌≤◌, ◌<◌, ◌+◌, ◌-◌, ◌^◌, ◌++◌, ◌∷◌, [], List, length, map, drop, take, slice_set, slice_index_or, true, false, ℕ, IfOk, IfSome, IsNone, OnOk, OnErr};
ghost use Rattle.rt_groups.specs.declared.groups.Group.{Group as group_data};
ghost use Rattle.rt_groups.specs.PreorderGroups.{flat_group};
ghost use Rattle.slot_table.specs.TableGroups.{group_at, is_node_kind, with_reads};
ghost use Rattle.slot_table.specs.ChangeLists.{nodes_in};
ghost use Rattle.slot_table.specs.KeptRuns.{patched, gaps, AreInside, AreOrdered, HaveOwnIndexes, IsRunAdded, set_all, KeepDepths, MoveDown, HasBlocks, AreExchanged, AreOutside, after_exchange};

use crate::change_forms::{find_exchange, fits_around, fits_in_place, shrinks};
use crate::groups_before::GroupsBefore;
use crate::replaced::{ReplacedGroups, WriterLists};
use crate::runs::{Exchange, KeptRun};
use crate::shrunk_reads::ShrunkReads;
use crate::storage::{PackedHead, SharedGroup, Slots, TableBuilder, make_room};
use crate::table::Table;
use rt_groups::Deps;
use rt_values::{NoMemory, ObjectNo};
use std::alloc::Global;
use std::marker::Model;

/// Writes the groups of a new frame in preorder, as changes of a table (`ComposerChangeListWriter`). Groups of the
/// table that stay are not copied, and the other groups are new.
#[derive(Drop)]
pub struct ChangeListWriter<'t> {
    table: &'t Table,
    fresh: TableBuilder,
    // For each new group its index among the groups of the new frame.
    places: Vec<usize>,
    runs: Vec<KeptRun>,
    // The number of new groups before the last run.
    before: usize,
    len: usize,
    nodes: usize,
}

impl<'t> Model for ChangeListWriter<'t> {
    ghost use Rattle.slot_table.specs.ChangeLists.{ChangedGroups};

    ghost Value = { ChangedGroups };

    ghost use Rattle.slot_table.specs.KeptRuns.{patched, IsWritten};

    ghost view = { λ w. record {
      olds = w.table.now.groups;
      news = patched w.table.now.groups w.fresh w.runs.items;
    } };

    ghost invariant = { λ w.
        IsWritten w.table.now.groups w.fresh w.runs.items w.places.items w.before w.len w.nodes };
}

impl<'t> ChangeListWriter<'t> {
    /// Returns a writer without groups, for changes of `table`.
    pub fn new(alloc: Global, table: &'t Table) -> Self
        ensures { result ≡ record { olds = table.now.groups; news = [] } }
    {
        ChangeListWriter {
            table,
            fresh: TableBuilder::new(alloc),
            places: Vec::new(alloc),
            runs: Vec::new(alloc),
            before: 0,
            len: 0,
            nodes: 0,
        }
    }

    /// Returns a writer as `new` does, which uses memory of the last frame's writer again.
    pub fn with_memory_of(alloc: Global, table: &'t Table, replaced: &mut ReplacedGroups) -> Self
        ensures { result ≡ record { olds = table.now.groups; news = [] } }
    {
        let WriterLists { fresh, places } = replaced.take_lists(alloc);
        ChangeListWriter {
            table,
            fresh,
            places,
            runs: Vec::new(alloc),
            before: 0,
            len: 0,
            nodes: 0,
        }
    }

    /// Returns the table that the changes are for.
    #[inline(always)]
    pub fn table(&self) -> &'t Table
        ensures { result.now.groups ≡ self.now.olds }
    {
        self.table
    }

    /// Returns the number of groups, in constant time.
    #[inline(always)]
    pub fn len(&self) -> usize
        ensures { result ≡ length self.now.news }
    {
        self.len
    }

    /// Returns the number of nodes, in constant time.
    #[inline(always)]
    pub fn nodes(&self) -> usize
        ensures { result ≡ nodes_in self.now.news }
    {
        self.nodes
    }

    /// Appends a new group. After `NoMemory` the groups are unchanged.
    #[inline(always)]
    pub fn push(&mut self, group: SharedGroup) -> Result<(), NoMemory>
        ensures added { OnOk result (self.new ≡ record {
          olds = self.old.olds;
          news = self.old.news ++ group ∷ [];
        }) }
        ensures same { OnErr result (self.new ≡ self.old) }
    {
        let Some(nodes) = self.nodes.checked_add(count_node(&group)) else {
            return Err(NoMemory); // No memory holds so many groups.
        };
        let Some(len) = self.len.checked_add(1) else {
            return Err(NoMemory); // No memory holds so many groups.
        };
        make_room(&mut self.places)?;
        self.fresh.push(group)?;
        self.places.push_reserved(self.len);
        self.len = len;
        self.nodes = nodes;
        Ok(())
    }

    /// Appends the groups of the table from index `from` to before index `to`, which stay as they are. They are not
    /// copied. After `NoMemory` the groups are unchanged.
    #[inline(always)]
    pub fn keep(&mut self, from: usize, to: usize) -> Result<(), NoMemory>
        requires order { from ≤ to }
        requires inside { to ≤ length self.old.olds }
        ensures added { OnOk result (self.new ≡ record {
          olds = self.old.olds;
          news = self.old.news ++ take (to - from) (drop from self.old.olds);
        }) }
        ensures same { OnErr result (self.new ≡ self.old) }
    {
        let Some(nodes) = self.nodes.checked_add(self.table.count_nodes(from, to)) else {
            return Err(NoMemory); // No table has so many groups.
        };
        let Some(len) = self.len.checked_add(to - from) else {
            return Err(NoMemory); // No table has so many groups.
        };
        let fresh = self.fresh.len();
        add_run(&mut self.runs, fresh - self.before, from, to)?;
        self.before = fresh;
        self.len = len;
        self.nodes = nodes;
        Ok(())
    }

    /// Gives the group at index `place`, which was pushed, these reads in place of its own. Takes logarithmic time.
    /// Returns `NoMemory` for a group that is kept. After `NoMemory` the groups are unchanged.
    pub fn set_reads(&mut self, alloc: Global, place: usize, reads: Deps) -> Result<(), NoMemory>
        requires { place < length self.old.news }
        ensures olds { OnOk result (self.new.olds ≡ self.old.olds) }
        ensures set { OnOk result
            (self.new.news ≡ slice_set self.old.news place (with_reads (group_at self.old.news place) reads)) }
        ensures same { OnErr result (self.new ≡ self.old) }
    {
        let kept = self.len.saturating_sub(self.fresh.len());
        let Some(i) = find_place(&self.places, place, kept) else {
            return Err(NoMemory); // A group that is kept gets no reads.
        };
        self.fresh.set_reads(alloc, i, reads)?;
        Ok(())
    }

    /// Returns the changes. Changes only the new groups if each kept group keeps its index and each new group has the
    /// depth of the old group at its index. Also exchanges two blocks of kept groups that follow each other, if each
    /// kept group has its new index then and no new group is between or inside the blocks. Shrinks the table if there
    /// are fewer groups than before and no kept group moves to a later index. Else the changes have a whole new table,
    /// which shares the slots of kept groups. Takes time linear in the number of new groups and of kept runs, or for a
    /// whole new table in the number of groups.
    pub fn into_change_list(self, alloc: Global) -> Result<ChangeList, NoMemory>
        ensures { IfOk result (λ c. c ≡ self.entry) }
    {
        let olds = GroupsBefore::of(self.table);
        if self.runs.is_empty() {
            let change = Change::Whole(Table::from_groups(alloc, self.fresh)?);
            return Ok(ChangeList { olds, change });
        }
        if fits_in_place(self.table, &self.fresh, &self.places, &self.runs, self.len) {
            let change = Change::InPlace(self.fresh, self.places);
            return Ok(ChangeList { olds, change });
        }
        self.into_moves(alloc)
    }

    // Returns the changes of a table that has kept groups and in which the new groups do not fit in place: two blocks
    // are exchanged, or the table shrinks, or there is a new table.
    fn into_moves(self, alloc: Global) -> Result<ChangeList, NoMemory>
        ensures { IfOk result (λ c. c ≡ self.entry) }
    {
        let olds = GroupsBefore::of(self.table);
        if let Some(exchange) = find_exchange(&self.runs) {
            if fits_around(self.table, &self.fresh, &self.places, exchange, self.len) {
                let change = Change::Exchanged {
                    fresh: self.fresh,
                    places: self.places,
                    exchange,
                };
                return Ok(ChangeList { olds, change });
            }
        }
        if shrinks(self.table, &self.runs, self.len) {
            let change = Change::Shrunk {
                fresh: self.fresh,
                runs: self.runs,
                len: self.len,
            };
            return Ok(ChangeList { olds, change });
        }
        let whole = share_table(alloc, self.table, &self.fresh, &self.runs, self.len)?;
        let change = Change::Whole(whole);
        Ok(ChangeList { olds, change })
    }
}

// Counts the group if it is a node.
#[inline(always)]
fn count_node(group: &SharedGroup) -> usize
    ensures { result ≡ nodes_in (group.now ∷ []) }
{
    if group.is_node() { 1 } else { 0 }
}

// Adds the run from index `from` to before index `to` after `gap` new groups, or extends the last run if the new run
// continues the last run. After `NoMemory` the runs are unchanged.
#[inline(always)]
fn add_run(runs: &mut Vec<KeptRun>, gap: usize, from: usize, to: usize) -> Result<(), NoMemory>
    ensures added { OnOk result ((olds : List group_data) → AreInside olds runs.old.items → from ≤ to →
        to ≤ length olds → IsRunAdded olds runs.old.items runs.new.items gap from to) }
    ensures same { OnErr result (runs.new.items ≡ runs.old.items) }
{
    if extend_last(runs, gap, from, to) {
        return Ok(());
    }
    runs.push(KeptRun { gap, from, to })?;
    Ok(())
}

// Extends the last run to index `to` if the run ends at index `from` and `gap` is 0. Returns whether the run is
// extended.
#[inline(always)]
fn extend_last(runs: &mut Vec<KeptRun>, gap: usize, from: usize, to: usize) -> bool
    ensures extended { result ≡ true → (olds : List group_data) → AreInside olds runs.old.items → from ≤ to →
        to ≤ length olds → IsRunAdded olds runs.old.items runs.new.items gap from to }
    ensures same { result ≡ false → runs.new.items ≡ runs.old.items }
{
    if gap != 0 {
        return false;
    }
    let Some(last) = runs.pop() else {
        return false;
    };
    if last.to != from {
        runs.push_reserved(last);
        return false;
    }
    runs.push_reserved(KeptRun {
        gap: last.gap,
        from: last.from,
        to,
    });
    true
}

// Returns the index of `place` in `places`, which are in increasing order, or `None` if `places` do not contain it. Only
// an index from `place` less `kept` to `place` may be that of `place`.
fn find_place(places: &[usize], place: usize, kept: usize) -> Option<usize>
    requires { AreOrdered kept places.now }
    ensures found { IfSome result (λ i. (i < length places.now) × (slice_index_or places.now i 0 ≡ place)) }
    ensures none { IsNone result → (i : ℕ) → i < length places.now → slice_index_or places.now i 0 ≡ place → ⊥ }
{
    let mut low = place.saturating_sub(kept);
    let mut high = places.len();
    if place < high {
        high = place + 1;
    }
    while low < high {
        let middle = low + (high - low) / 2;
        let found = places[middle];
        if found == place {
            return Some(middle);
        }
        if found < place {
            low = middle + 1;
        } else {
            high = middle;
        }
    }
    None
}

// Returns the table of the groups of the new frame, which share their slots. `len` is their number.
fn share_table(
    alloc: Global,
    table: &Table,
    fresh: &TableBuilder,
    runs: &[KeptRun],
    len: usize,
) -> Result<Table, NoMemory>
    requires inside { AreInside table.now.groups runs.now }
    requires gaps { gaps runs.now ≤ length fresh.now }
    ensures { IfOk result (λ t. t.groups ≡ patched table.now.groups fresh.now runs.now) }
{
    let mut all = TableBuilder::new(alloc);
    all.reserve(len)?;
    share_all(table, fresh, runs, &mut all)?;
    Table::from_groups(alloc, all)
}

// Appends the groups of the new frame to `groups`. They share their slots.
fn share_all(
    table: &Table,
    fresh: &TableBuilder,
    runs: &[KeptRun],
    groups: &mut TableBuilder,
) -> Result<(), NoMemory>
    requires inside { AreInside table.now.groups runs.now }
    requires gaps { gaps runs.now ≤ length fresh.now }
    ensures { OnOk result (groups.new ≡ groups.old ++ patched table.now.groups fresh.now runs.now) }
{
    let len = fresh.len();
    let mut next = 0;
    for run in runs {
        fresh.share_run(next, next + run.gap, groups)?;
        table.share_run(run.from, run.to, groups)?;
        next += run.gap;
    }
    fresh.share_run(next, len, groups)
}

// The four forms of changes.
#[derive(Drop)]
enum Change {
    // A whole new table.
    Whole(Table),
    // New groups, and for each the index of the old group that the new group replaces.
    InPlace(TableBuilder, Vec<usize>),
    // New groups, for each the index of the old group that the new group replaces, and two blocks of groups that are
    // exchanged afterwards.
    Exchanged {
        fresh: TableBuilder,
        places: Vec<usize>,
        exchange: Exchange,
    },
    // New groups, the runs of groups that stay, and the number of groups of the new frame, which is less than before.
    // No kept group moves to a later index.
    Shrunk {
        fresh: TableBuilder,
        runs: Vec<KeptRun>,
        len: usize,
    },
}

/// Changes that take a table to the groups of a new frame (`ChangeList`).
#[derive(Drop)]
pub struct ChangeList {
    olds: GroupsBefore,
    change: Change,
}

impl Model for ChangeList {
    ghost use Rattle.slot_table.specs.ChangeLists.{ChangedGroups};

    ghost Value = { ChangedGroups };

    ghost use Rattle.slot_table.specs.AppliedChanges.{changed_groups, IsChange};

    ghost view = { λ c. record { olds = c.olds.groups; news = changed_groups c.olds.groups c.change } };

    ghost invariant = { λ c. IsChange c.olds.groups c.change };
}

impl ChangeList {
    /// Returns the new groups as a table, which shares their slots.
    pub fn preview<'c>(&'c self, alloc: Global, table: &Table) -> Result<Preview<'c>, NoMemory>
        requires { table.now.groups ≡ self.now.olds }
        ensures { IfOk result (λ p. p.groups ≡ self.now.news) }
    {
        let form = match &self.change {
            Change::Whole(table) => PreviewForm::Held(table),
            Change::InPlace(fresh, places) => {
                PreviewForm::Made(share_in_place(alloc, table, fresh, places)?)
            }
            Change::Exchanged {
                fresh,
                places,
                exchange,
            } => {
                let mut made = share_in_place(alloc, table, fresh, places)?;
                made.exchange(*exchange);
                PreviewForm::Made(made)
            }
            Change::Shrunk { fresh, runs, len } => {
                PreviewForm::Made(share_table(alloc, table, fresh, runs, *len)?)
            }
        };
        Ok(Preview { form })
    }

    /// Returns the reads of the new groups in preorder if the table shrinks, and else `None`. Takes no memory, and
    /// constant time. A rule of this project.
    pub fn shrunk_reads<'c>(&'c self, table: &'c Table) -> Option<ShrunkReads<'c>>
        requires { table.now.groups ≡ self.now.olds }
        ensures { IfSome result (λ reads. reads ≡ map (λ g. g.reads) self.now.news) }
    {
        match &self.change {
            Change::Whole(_) | Change::InPlace(..) | Change::Exchanged { .. } => None,
            Change::Shrunk { fresh, runs, .. } => Some(ShrunkReads::new(table, fresh, runs)),
        }
    }

    /// Returns whether the new frame has the same number of groups as `table`, and each group has
    /// the reads of the group of `table` at its index. Takes no memory. Takes time linear in the
    /// number of new groups and their reads if only new groups change, also in the number of groups
    /// of exchanged blocks and their reads if there are any. Else takes time linear in the number of
    /// all groups and their reads. A table that shrinks has fewer groups, so the answer is `false`.
    pub fn keeps_reads(&self, table: &Table) -> bool
        requires { table.now.groups ≡ self.now.olds }
        ensures { result ≡ true →
            map (λ g. g.reads) self.now.news ≡ map (λ g. g.reads) self.now.olds }
    {
        match &self.change {
            Change::Whole(other) => have_same_reads(table, other),
            Change::InPlace(fresh, places) => keep_reads_in_place(table, fresh, places),
            Change::Exchanged {
                fresh,
                places,
                exchange,
            } => {
                keep_reads_in_place(table, fresh, places) && exchange_keeps_reads(table, *exchange)
            }
            Change::Shrunk { .. } => false,
        }
    }
}

/// Returns whether both lists have the same objects in the same order. Two lists of one object, as most calls have,
/// need no loop.
#[inline(always)]
pub fn same_reads(reads: &[ObjectNo], others: &[ObjectNo]) -> bool
    ensures { result ≡ true → reads.now ≡ others.now }
{
    match (reads, others) {
        ([read], [other]) => read == other,
        _ => reads == others,
    }
}

// Returns whether both tables have the same number of groups, and the groups at each index have the
// same reads.
fn have_same_reads(table: &Table, other: &Table) -> bool
    ensures { result ≡ true →
        map (λ g. g.reads) other.now.groups ≡ map (λ g. g.reads) table.now.groups }
{
    if table.len() != other.len() {
        return false;
    }
    for i in 0..table.len() {
        if !table.has_reads_of(i, other.slot(i)) {
            return false;
        }
    }
    true
}

// Returns whether each new group has the reads of the old group at its place.
fn keep_reads_in_place(table: &Table, fresh: &TableBuilder, places: &[usize]) -> bool
    requires long { length places.now ≡ length fresh.now }
    requires depths { KeepDepths table.now.groups places.now fresh.now }
    ensures { result ≡ true →
        map (λ g. g.reads) (set_all table.now.groups places.now fresh.now)
        ≡ map (λ g. g.reads) table.now.groups }
{
    for i in 0..fresh.len() {
        if !table.has_reads_of(places[i], fresh.slot(i)) {
            return false;
        }
    }
    true
}

// Returns whether the groups of the table at each index have the same reads before and after the exchange.
fn exchange_keeps_reads(table: &Table, exchange: Exchange) -> bool
    requires { HasBlocks table.now.groups exchange }
    ensures { result ≡ true →
        after_exchange exchange (map (λ g. g.reads) table.now.groups)
        ≡ map (λ g. g.reads) table.now.groups }
{
    let Exchange { from, middle, to } = exchange;
    let count = to - middle;
    have_reads_of_run(table, from, middle, count)
        && have_reads_of_run(table, from + count, from, middle - from)
}

// Returns whether the `count` groups of the table from index `at` have the reads of the `count` groups from index
// `from`, in the same order.
fn have_reads_of_run(table: &Table, at: usize, from: usize, count: usize) -> bool
    requires at { at + count ≤ length table.now.groups }
    requires from { from + count ≤ length table.now.groups }
    ensures { result ≡ true →
        take count (drop at (map (λ g. g.reads) table.now.groups))
        ≡ take count (drop from (map (λ g. g.reads) table.now.groups)) }
{
    let _length = table.len();
    for i in 0..count {
        if !table.has_reads_of(at + i, table.slot(from + i)) {
            return false;
        }
    }
    true
}

// Returns the table with the new groups at their places. All groups share their slots.
fn share_in_place(
    alloc: Global,
    table: &Table,
    fresh: &TableBuilder,
    places: &[usize],
) -> Result<Table, NoMemory>
    requires long { length places.now ≡ length fresh.now }
    requires depths { KeepDepths table.now.groups places.now fresh.now }
    ensures { IfOk result (λ t. t.groups ≡ set_all table.now.groups places.now fresh.now) }
{
    let mut all = TableBuilder::new(alloc);
    table.share_run(0, table.len(), &mut all)?;
    set_sharing(&mut all, fresh, places)?;
    Table::from_groups(alloc, all)
}

// Puts the new groups at their places. They share their slots.
fn set_sharing(
    groups: &mut TableBuilder,
    fresh: &TableBuilder,
    places: &[usize],
) -> Result<(), NoMemory>
    requires long { length places.now ≡ length fresh.now }
    requires depths { KeepDepths groups.old places.now fresh.now }
    ensures { OnOk result (groups.new ≡ set_all groups.old places.now fresh.now) }
{
    let mut i = fresh.len();
    while 0 < i {
        i -= 1;
        groups.set_sharing(places[i], fresh, i)?;
    }
    Ok(())
}

// The two forms of a preview.
#[derive(Drop)]
enum PreviewForm<'c> {
    // The table of the change list.
    Held(&'c Table),
    // A table that was made for the preview.
    Made(Table),
}

/// The groups of a new frame before its changes are applied.
#[derive(Drop)]
pub struct Preview<'c> {
    form: PreviewForm<'c>,
}

impl<'c> Model for Preview<'c> {
    ghost use Rattle.slot_table.specs.TableGroups.{TableGroups};

    ghost Value = { TableGroups };

    ghost use Rattle.slot_table.specs.AppliedChanges.{preview_table};

    ghost view = { λ p. preview_table p.form };
}

impl<'c> Preview<'c> {
    /// Returns the table of the groups.
    pub fn table(&self) -> &Table
        ensures { result.now.groups ≡ self.now.groups }
    {
        match &self.form {
            PreviewForm::Held(table) => table,
            PreviewForm::Made(table) => table,
        }
    }
}

impl Table {
    /// Changes the groups to those of the new frame (`executeAndFlushAllPendingChanges`). Cannot fail. If only new
    /// groups change, also if two blocks of kept groups are exchanged, adds the nodes that new groups replace to
    /// `replaced`, or drops them when out of memory. Drops all other old groups at once. Takes time linear in the
    /// number of new groups if only new groups change. An exchange also takes time linear in the number of groups of
    /// both blocks if each block is siblings with all groups inside them, and else in the number of all groups.
    /// Shrinking takes time linear in the number of old groups. A whole new table takes the time of dropping the old
    /// table.
    pub fn apply(&mut self, changes: ChangeList, replaced: &mut ReplacedGroups)
        requires { changes.olds ≡ self.old.groups }
        ensures { self.new.groups ≡ changes.news }
    {
        let ChangeList { olds: _, change } = changes;
        match change {
            Change::Whole(table) => *self = table,
            Change::InPlace(fresh, places) => self.set_groups(fresh, places, replaced),
            Change::Exchanged {
                fresh,
                places,
                exchange,
            } => {
                self.set_groups(fresh, places, replaced);
                self.exchange(exchange);
            }
            Change::Shrunk { fresh, runs, len } => self.shrink(fresh, &runs, len),
        }
    }

    // Puts the new groups at their places, and adds the nodes that they replace to `replaced`.
    fn set_groups(&mut self, fresh: TableBuilder, places: Vec<usize>, replaced: &mut ReplacedGroups)
        requires long { length places.items ≡ length fresh }
        requires depths { KeepDepths self.old.groups places.items fresh }
        ensures { self.new.groups ≡ set_all self.old.groups places.items fresh }
    {
        let mut fresh = fresh;
        let mut places = places;
        while let Some(place) = places.pop() {
            match fresh.pop() {
                Some((head, slots)) => self.replace_group(place, head, slots, replaced),
                None => unreachable!(),
            }
        }
        replaced.keep_lists(WriterLists { fresh, places });
    }

    // Replaces the group at index `i` by the group with this head and these slots, which has the same depth. Adds a
    // node that was there to `replaced`, since nodes own lists of attributes. Drops a group of another kind.
    #[inline(always)]
    fn replace_group(
        &mut self,
        i: usize,
        head: PackedHead,
        slots: Slots,
        replaced: &mut ReplacedGroups,
    )
        requires index { i < length self.old.groups }
        requires node { head.is_node ≡ is_node_kind slots.what }
        requires depth { head.depth ≡ (group_at self.old.groups i).depth }
        ensures { self.new.groups
            ≡ slice_set self.old.groups i (flat_group head.depth head.site head.number slots.what slots.reads) }
    {
        let is_node = self.is_node(i);
        let old = self.set_group(i, head, slots);
        if is_node {
            replaced.add(old);
        }
    }
}
