// The groups of a new frame, as they are written.
ghost use Rattle.std.specs.Prelude.{◌≡◌, ◌≤◌, ◌<◌, ◌+◌, ◌-◌, ◌^◌, ◌++◌, ◌∷◌, [], List, ℕ, Some, Err, length, map, Bool, true, IfOk, IfSome, OnOk};
ghost use Rattle.std.specs.Option.{option_map};
ghost use Rattle.rt_values.specs.declared.value.Value.{Value as value_data};
ghost use Rattle.rt_groups.specs.declared.groups.Group.{Group as group_data};
ghost use Rattle.rt_groups.specs.declared.groups.GroupKind.TheVariants as kinds;
ghost use Rattle.rt_groups.specs.PreorderGroups.{flat_group};
ghost use Rattle.rt_groups.specs.Frames.{most_groups};
ghost use Rattle.slot_table.specs.TableGroups.{group_at};
ghost use Rattle.slot_table.specs.ReaderStates.{group_key};
ghost use Rattle.composer.specs.ComposerState.{one_if};
ghost use Rattle.composer.specs.OldSiblings.{old_group, IsFoundIn};
ghost use Rattle.composer.specs.QuietRuns.{group_run};
ghost use Rattle.composer.specs.WrittenGroups.{group_kind, arguments_of, AreArguments, first_reads, number_for, enter_group, with_call, running_call, written_kept, written_run, kept_of, value_kept, IsDraftOf, IsPlacedAt, IsKeptAt};

use crate::compared::{is_same_key, is_same_node};
use crate::draft::Draft;
use crate::old_groups::OldGroup;
use crate::spares::Spares;
use crate::stop::ComposeStop;
use lang_eval::Env;
use rt_groups::{Attribute, Attributes, Deps, Group, GroupKind, Report, Values};
use rt_values::{NoMemory, ObjectNo, Value, Word};
use slot_table::{ChangeListWriter, SharedGroup, Table, same_reads};
use std::alloc::Global;
use std::marker::Model;

// The maximum number of groups.
const MOST_GROUPS: usize = 1000000;

/// The kind of a new group that contains other groups, with what the kind records.
#[derive(Drop)]
pub enum NewKind<'a> {
    /// A node with its kind and attributes.
    Node {
        kind: &'a Word,
        attributes: Attributes,
    },
    /// A key with its value.
    Key(Value),
}

impl<'a> NewKind<'a> {
    /// Returns the value of a key.
    pub fn key(&self) -> Option<&Value>
        ensures { option_map (λ v. v.now) result ≡ group_key (group_kind self.now) }
    {
        match self {
            NewKind::Key(value) => Some(value),
            NewKind::Node { .. } => None,
        }
    }
}

/// The arguments of a call that runs.
#[derive(Drop)]
pub enum CallArguments<'a> {
    /// New arguments.
    New(Values),
    /// The arguments of the old call that the new call is matched with.
    Old(&'a Values),
}

impl<'a> CallArguments<'a> {
    /// Returns the arguments.
    pub fn values(&self) -> &Values
        ensures { result.now ≡ arguments_of self.now }
    {
        match self {
            CallArguments::New(values) => values,
            CallArguments::Old(values) => values,
        }
    }

    /// Returns the reads that the group of the call has until the call ends: those of `found` if the group shares its
    /// slots.
    pub fn first_reads<'b>(&self, found: &Option<OldGroup<'b>>) -> &'b [ObjectNo]
        ensures { result.now ≡ first_reads self.now found.now }
    {
        match self {
            CallArguments::New(_) => &[],
            CallArguments::Old(_) => match found {
                Some(old) => old.reads(),
                None => &[],
            },
        }
    }
}

/// The value of a cell, and whether it is that of the old cell.
#[derive(Drop)]
pub struct CellValue {
    pub value: Value,
    pub is_kept: bool,
}

// Where a new group goes, and its number: that of a node, or 0.
#[derive(Clone, Copy)]
struct Place {
    depth: u32,
    site: u32,
    number: u64,
}

impl Place {
    // Returns the place of a group that is no node.
    #[inline(always)]
    fn without_number(depth: u32, site: u32) -> Self
        ensures { result ≡ record { depth = depth; site = site; number = 0 } }
    {
        Place {
            depth,
            site,
            number: 0,
        }
    }
}

/// Writes the groups of a new frame in preorder (`SlotWriter`). It keeps the number of the next new node, and counts
/// the calls that ran, the cells that were calculated, and the reads of the calls that ran and ended.
#[derive(Drop)]
pub struct Writer<'t> {
    groups: ChangeListWriter<'t>,
    next: u64,
    ran: u64,
    calculated: u64,
    reads: u64,
}

impl<'t> Model for Writer<'t> {
    ghost use Rattle.composer.specs.WrittenGroups.{WrittenGroups};

    ghost Value = { WrittenGroups };

    ghost view = { λ w. record {
      olds = w.groups.olds;
      groups = w.groups.news;
      next = w.next;
      ran = w.ran;
      calculated = w.calculated;
      reads = w.reads;
    } };
}

impl<'t> Writer<'t> {
    /// Returns a writer without groups, which changes `table`. `next` is the number of the next new node. The lists of
    /// the groups take memory of `spares`.
    pub fn new(alloc: Global, table: &'t Table, next: u64, spares: &mut Spares) -> Self
        ensures { result ≡ record {
          olds = table.now.groups;
          groups = [];
          next = next;
          ran = 0;
          calculated = 0;
          reads = 0;
        } }
    {
        Writer {
            groups: spares.change_list_writer(alloc, table),
            next,
            ran: 0,
            calculated: 0,
            reads: 0,
        }
    }

    /// Returns the number of groups.
    pub fn len(&self) -> usize
        ensures { result ≡ length self.now.groups }
    {
        self.groups.len()
    }

    /// Returns the draft of the frame whose groups are written.
    pub fn into_draft(self, alloc: Global) -> Result<Draft, NoMemory>
        ensures draft { IfOk result (λ d. IsDraftOf self.entry d) }
        ensures bound { self.entry.reads ≤ 2 ^ 64 - 1 }
    {
        let report = Report {
            ran: self.ran,
            calculated: self.calculated,
            reads: self.reads,
            groups: self.groups.len() as u64,
            nodes: self.groups.nodes() as u64,
        };
        let table = self.groups.table();
        let changes = self.groups.into_change_list(alloc)?;
        Draft::new(alloc, table, changes, self.next, report)
    }

    // Appends a group. Fails if there are 1,000,000 groups already.
    #[inline(always)]
    fn push(&mut self, group: SharedGroup) -> Result<(), ComposeStop>
        requires { length self.old.groups ≤ most_groups }
        ensures added { OnOk result (self.new ≡ record {
          olds = self.old.olds;
          groups = self.old.groups ++ group ∷ [];
          next = self.old.next;
          ran = self.old.ran;
          calculated = self.old.calculated;
          reads = self.old.reads;
        }) }
        ensures fits { OnOk result (length self.new.groups ≤ most_groups) }
        ensures full { result ≡ Err ComposeStop.TooManyGroups → length self.old.groups ≡ most_groups }
    {
        if self.groups.len() >= MOST_GROUPS {
            return Err(ComposeStop::TooManyGroups);
        }
        Ok(self.groups.push(group)?)
    }

    // Appends a new group without reads.
    #[inline(always)]
    fn push_new(&mut self, alloc: Global, place: Place, what: GroupKind) -> Result<(), ComposeStop>
        requires { length self.old.groups ≤ most_groups }
        ensures added { OnOk result (self.new
            ≡ written_run (flat_group place.depth place.site place.number what [] ∷ []) self.old) }
        ensures fits { OnOk result (length self.new.groups ≤ most_groups) }
        ensures full { result ≡ Err ComposeStop.TooManyGroups → length self.old.groups ≡ most_groups }
    {
        let group = new_group(alloc, what)?;
        self.push(group.placed(place.depth, place.site, place.number))
    }

    // Appends the group of the table at index `at`, which stays as it is.
    #[inline(always)]
    fn keep_one(&mut self, at: usize) -> Result<(), ComposeStop>
        requires room { length self.old.groups ≤ most_groups }
        requires inside { at < length self.old.olds }
        ensures added { OnOk result (self.new ≡ written_run (group_at self.old.olds at ∷ []) self.old) }
        ensures fits { OnOk result (length self.new.groups ≤ most_groups) }
        ensures full { result ≡ Err ComposeStop.TooManyGroups → length self.old.groups ≡ most_groups }
    {
        if self.groups.len() >= MOST_GROUPS {
            return Err(ComposeStop::TooManyGroups);
        }
        let _length = self.groups.table().len();
        Ok(self.groups.keep(at, at + 1)?)
    }

    // Appends a node without reads, which is matched with `found`. The list of the attributes is spare if the old node
    // stays as it is.
    #[inline(always)]
    fn put_node(
        &mut self,
        alloc: Global,
        place: Place,
        kind: &Word,
        attributes: Attributes,
        found: &Option<OldGroup>,
        spares: &mut Spares,
    ) -> Result<(), ComposeStop>
        requires { length self.old.groups ≤ most_groups }
        ensures added { OnOk result (self.new ≡ written_run
            (flat_group place.depth place.site place.number (kinds.Node kind.now attributes) [] ∷ []) self.old) }
        ensures fits { OnOk result (length self.new.groups ≤ most_groups) }
        ensures full { result ≡ Err ComposeStop.TooManyGroups → length self.old.groups ≡ most_groups }
    {
        match kept_node(self.groups.table(), found, place, kind, attributes.items()) {
            Some(at) => {
                spares.keep_attributes(attributes);
                self.keep_one(at)
            }
            None => {
                let node = spares.new_node(alloc, kind.copy()?, attributes)?;
                self.push(node.placed(place.depth, place.site, place.number))
            }
        }
    }

    /// Appends a node or a key that is matched with `found`. A node gets the number of `found`, or the next number.
    /// The list of the attributes is spare if the group does not need it.
    #[inline(always)]
    pub fn enter(
        &mut self,
        alloc: Global,
        depth: u32,
        site: u32,
        what: NewKind,
        found: &Option<OldGroup>,
        spares: &mut Spares,
    ) -> Result<(), ComposeStop>
        requires { length self.old.groups ≤ most_groups }
        ensures entered { OnOk result (self.new ≡ enter_group depth site (group_kind what.entry) found.now self.old) }
        ensures fits { OnOk result (length self.new.groups ≤ most_groups) }
        ensures full { result ≡ Err ComposeStop.TooManyGroups → length self.old.groups ≡ most_groups }
    {
        match what {
            NewKind::Node { kind, attributes } => {
                let (number, next) = node_number(found, self.next)?;
                let place = Place {
                    depth,
                    site,
                    number,
                };
                self.put_node(alloc, place, kind, attributes, found, spares)?;
                self.next = next;
                Ok(())
            }
            NewKind::Key(value) => {
                let place = Place::without_number(depth, site);
                match kept_key(self.groups.table(), found, place, &value) {
                    Some(at) => self.keep_one(at),
                    None => self.push_new(alloc, place, GroupKind::Key(value)),
                }
            }
        }
    }

    // Appends a cell, which is matched with `found`. The list of the keys is spare if the old cell stays as it is.
    #[inline(always)]
    fn put_cell(
        &mut self,
        alloc: Global,
        spares: &mut Spares,
        place: Place,
        keys: Env,
        remembered: &CellValue,
        found: &Option<OldGroup>,
    ) -> Result<(), ComposeStop>
        requires room { length self.old.groups ≤ most_groups }
        requires table { IsFoundIn self.old.olds found.now }
        requires kept { kept_of found.now (map (λ b. b.value) keys) ≡ value_kept remembered.now }
        ensures added { OnOk result (self.new ≡ written_run (flat_group place.depth place.site place.number
            (kinds.Cell (map (λ b. b.value) keys) remembered.now.value) [] ∷ []) self.old) }
        ensures fits { OnOk result (length self.new.groups ≤ most_groups) }
        ensures full { result ≡ Err ComposeStop.TooManyGroups → length self.old.groups ≡ most_groups }
    {
        match kept_cell(self.groups.table(), found, place, remembered) {
            Some(at) => {
                spares.keep_scope(keys);
                self.keep_one(at)
            }
            None => {
                let keys = keys.into_values(alloc)?;
                let value = remembered.value.copy(alloc)?;
                self.push_new(alloc, place, GroupKind::Cell { keys, value })
            }
        }
    }

    /// Appends a cell with the value of `remembered` for the values of `keys`, which is matched with `found`. The cell
    /// counts if it is calculated.
    #[tactic(auto, using(crate::proofs::KeptCells::kept_keys))]
    #[inline(always)]
    pub fn enter_cell(
        &mut self,
        alloc: Global,
        spares: &mut Spares,
        depth: u32,
        site: u32,
        keys: Env,
        remembered: &CellValue,
        found: &Option<OldGroup>,
    ) -> Result<(), ComposeStop>
        requires room { length self.old.groups ≤ most_groups }
        requires table { IsFoundIn self.old.olds found.now }
        requires kept { kept_of found.now (map (λ b. b.value) keys) ≡ value_kept remembered.now }
        ensures entered { OnOk result (self.new
            ≡ enter_group depth site (kinds.Cell (map (λ b. b.value) keys) remembered.now.value) found.now self.old) }
        ensures fits { OnOk result (length self.new.groups ≤ most_groups) }
        ensures full { result ≡ Err ComposeStop.TooManyGroups → length self.old.groups ≡ most_groups }
    {
        let counts = one_where(!remembered.is_kept);
        let Some(calculated) = self.calculated.checked_add(counts) else {
            return Err(ComposeStop::NoMemory); // There are fewer cells than groups.
        };
        let place = Place::without_number(depth, site);
        self.put_cell(alloc, spares, place, keys, remembered, found)?;
        self.calculated = calculated;
        Ok(())
    }

    /// Appends the group of a call, without reads. It counts if it runs.
    pub fn enter_call(
        &mut self,
        alloc: Global,
        depth: u32,
        site: u32,
        call: GroupKind,
        runs: bool,
    ) -> Result<(), ComposeStop>
        requires { length self.old.groups ≤ most_groups }
        ensures added { OnOk result (self.new ≡ with_call depth site call runs self.old) }
        ensures fits { OnOk result (length self.new.groups ≤ most_groups) }
        ensures full { result ≡ Err ComposeStop.TooManyGroups → length self.old.groups ≡ most_groups }
    {
        let Some(ran) = self.ran.checked_add(one_where(runs)) else {
            return Err(ComposeStop::NoMemory); // There are fewer calls than groups.
        };
        self.push_new(alloc, Place::without_number(depth, site), call)?;
        self.ran = ran;
        Ok(())
    }

    /// Appends the group of a call that runs and is matched with `found`. The group shares the slots of `found`, with
    /// the reads of the last frame, if the arguments are those of `found`. Else it has no reads. `end_call` sets its
    /// reads.
    #[inline(always)]
    pub fn enter_running(
        &mut self,
        alloc: Global,
        depth: u32,
        site: u32,
        function: usize,
        arguments: CallArguments,
        found: &Option<OldGroup>,
    ) -> Result<(), ComposeStop>
        requires room { length self.old.groups ≤ most_groups }
        requires arguments { AreArguments function arguments found.now }
        ensures added { OnOk result (self.new
            ≡ running_call depth site (kinds.Call function (arguments_of arguments.entry))
            (first_reads arguments.entry found.now) self.old) }
        ensures fits { OnOk result (length self.new.groups ≤ most_groups) }
        ensures full { result ≡ Err ComposeStop.TooManyGroups → length self.old.groups ≡ most_groups }
    {
        match arguments {
            CallArguments::New(arguments) => {
                let call = GroupKind::Call {
                    function,
                    arguments,
                };
                self.enter_call(alloc, depth, site, call, true)
            }
            CallArguments::Old(_) => match found {
                Some(old) => self.enter_again(depth, site, old),
                None => unreachable!(),
            },
        }
    }

    /// Appends the group of a call that runs and has no body, without reads. It is matched with `found`.
    #[tactic(auto, using(rt_groups::proofs::ReplacedItems::set_seam, rt_groups::proofs::ReplacedItems::got_seam))]
    pub fn enter_empty(
        &mut self,
        alloc: Global,
        depth: u32,
        site: u32,
        function: usize,
        arguments: CallArguments,
        found: &Option<OldGroup>,
    ) -> Result<(), ComposeStop>
        requires room { length self.old.groups ≤ most_groups }
        requires arguments { AreArguments function arguments found.now }
        ensures added { OnOk result (self.new
            ≡ with_call depth site (kinds.Call function (arguments_of arguments.entry)) true self.old) }
        ensures fits { OnOk result (length self.new.groups ≤ most_groups) }
        ensures full { result ≡ Err ComposeStop.TooManyGroups → length self.old.groups ≡ most_groups }
    {
        let place = self.groups.len();
        self.enter_running(alloc, depth, site, function, arguments, found)?;
        self.groups.set_reads(alloc, place, Deps::new(alloc))?;
        Ok(())
    }

    // Appends the group of an old call that runs again. It shares the slots of `old`.
    #[inline(always)]
    fn enter_again(&mut self, depth: u32, site: u32, old: &OldGroup) -> Result<(), ComposeStop>
        requires { length self.old.groups ≤ most_groups }
        ensures added { OnOk result (self.new
            ≡ running_call depth site (old_group old.now).what (old_group old.now).reads self.old) }
        ensures fits { OnOk result (length self.new.groups ≤ most_groups) }
        ensures full { result ≡ Err ComposeStop.TooManyGroups → length self.old.groups ≡ most_groups }
    {
        let Some(ran) = self.ran.checked_add(1) else {
            return Err(ComposeStop::NoMemory); // There are fewer calls than groups.
        };
        self.push(old.share()?.placed(depth, site, 0))?;
        self.ran = ran;
        Ok(())
    }

    /// Appends an old group that is kept, with its reads.
    #[inline(always)]
    pub fn keep(
        &mut self,
        depth: u32,
        site: u32,
        number: u64,
        old: &OldGroup,
    ) -> Result<(), ComposeStop>
        requires room { length self.old.groups ≤ most_groups }
        requires table { old.now.groups ≡ self.old.olds }
        ensures added { OnOk result (self.new
            ≡ written_kept depth site number (old_group old.now).what (old_group old.now).reads self.old) }
        ensures fits { OnOk result (length self.new.groups ≤ most_groups) }
        ensures full { result ≡ Err ComposeStop.TooManyGroups → length self.old.groups ≡ most_groups }
    {
        if old.depth() == depth && old.site() == site && old.number() == number {
            return self.keep_one(old.index());
        }
        self.push(old.share()?.placed(depth, site, number))
    }

    /// Appends the groups of the table from index `from` to before index `to`, which are kept as they are. Fails if
    /// there would be more than 1,000,000 groups.
    #[inline(always)]
    pub fn keep_run(&mut self, from: usize, to: usize) -> Result<(), ComposeStop>
        requires room { length self.old.groups ≤ most_groups }
        requires order { from ≤ to }
        requires inside { to ≤ length self.old.olds }
        ensures added { OnOk result (self.new ≡ written_run (group_run self.old.olds from to) self.old) }
        ensures longer { OnOk result (length self.old.groups ≤ length self.new.groups) }
        ensures fits { OnOk result (length self.new.groups ≤ most_groups) }
        ensures full { result ≡ Err ComposeStop.TooManyGroups →
            most_groups < length self.old.groups + length (group_run self.old.olds from to) }
    {
        if from == to {
            return Ok(());
        }
        if to - from > MOST_GROUPS - self.groups.len() {
            return Err(ComposeStop::TooManyGroups);
        }
        Ok(self.groups.keep(from, to)?)
    }

    /// Gives the call at index `place`, which ran, its own reads, and counts them. `first` has the reads of its group
    /// so far, which stay if they are equal: other tables share them.
    #[tactic(auto, using(rt_groups::proofs::ReplacedItems::set_seam, rt_groups::proofs::ReplacedItems::got_seam))]
    #[inline(always)]
    pub fn end_call(
        &mut self,
        alloc: Global,
        spares: &mut Spares,
        place: usize,
        first: &[ObjectNo],
        own: Deps,
    ) -> Result<(), NoMemory>
        requires { place < length self.old.groups }
        ensures len { OnOk result (length self.new.groups ≡ length self.old.groups) }
        ensures groups { (before after : List group_data) (g : group_data) →
            length before ≡ place → self.old.groups ≡ before ++ (g ∷ after) → g.reads ≡ first.now →
            OnOk result (self.new.groups ≡ before ++ (flat_group g.depth g.site g.number g.what own ∷ after)) }
        ensures olds { OnOk result (self.new.olds ≡ self.old.olds) }
        ensures next { OnOk result (self.new.next ≡ self.old.next) }
        ensures ran { OnOk result (self.new.ran ≡ self.old.ran) }
        ensures calculated { OnOk result (self.new.calculated ≡ self.old.calculated) }
        ensures reads { OnOk result (self.new.reads ≡ self.old.reads + length own) }
    {
        let Some(reads) = self.reads.checked_add(own.numbers().len() as u64) else {
            return Err(NoMemory); // No memory holds so many reads.
        };
        if same_reads(first, own.numbers()) {
            spares.keep_reads(own);
        } else {
            self.groups.set_reads(alloc, place, own)?;
        }
        self.reads = reads;
        Ok(())
    }
}

// Returns a group without reads, which has no place yet.
#[inline(always)]
fn new_group(alloc: Global, what: GroupKind) -> Result<SharedGroup, NoMemory>
    ensures kind { IfOk result (λ g. g.what ≡ what) }
    ensures reads { IfOk result (λ g. g.reads ≡ []) }
{
    let group = Group {
        depth: 0,
        site: 0,
        number: 0,
        what,
        reads: Deps::new(alloc),
    };
    SharedGroup::new(alloc, group)
}

// Returns the index of the old group that was found if it is at this place in the table and has no reads.
#[inline(always)]
fn kept_index(table: &Table, found: &Option<OldGroup>, place: Place) -> Option<usize>
    ensures placed { IfSome result (λ at. IsPlacedAt table.now.groups at place.depth place.site place.number) }
    ensures index { IfSome result (λ at. option_map (λ k. k.index) found.now ≡ Some at) }
{
    let Some(old) = found else {
        return None;
    };
    let at = old.index();
    if at >= table.len() || table.depth(at) != place.depth || table.site(at) != place.site {
        return None;
    }
    if table.number(at) != place.number || !table.reads(at).is_empty() {
        return None;
    }
    Some(at)
}

// Returns the index of the old node that was found if it stays as it is: at this place, with this kind and equal
// attributes.
#[inline(always)]
fn kept_node(
    table: &Table,
    found: &Option<OldGroup>,
    place: Place,
    kind: &Word,
    attributes: &[Attribute],
) -> Option<usize>
    ensures { IfSome result (λ at. IsKeptAt table.now.groups at place.depth place.site place.number
        (kinds.Node kind.now attributes.now)) }
{
    let Some(at) = kept_index(table, found, place) else {
        return None;
    };
    if is_same_node(table.kind(at), kind, attributes) {
        return Some(at);
    }
    None
}

// Returns the index of the old key that was found if it stays as it is: at this place, with an equal value.
#[inline(always)]
fn kept_key(table: &Table, found: &Option<OldGroup>, place: Place, value: &Value) -> Option<usize>
    ensures { IfSome result (λ at. IsKeptAt table.now.groups at place.depth place.site place.number
        (kinds.Key value.now)) }
{
    let Some(at) = kept_index(table, found, place) else {
        return None;
    };
    if is_same_key(table.kind(at), value) {
        return Some(at);
    }
    None
}

// Returns the index of the old cell that was found if it stays as it is: at this place, with its value kept.
#[tactic(auto, using(crate::proofs::KeptCells::kept_kind))]
#[inline(always)]
fn kept_cell(
    table: &Table,
    found: &Option<OldGroup>,
    place: Place,
    remembered: &CellValue,
) -> Option<usize>
    requires { IsFoundIn table.now.groups found.now }
    ensures { (ks : List value_data) → kept_of found.now ks ≡ value_kept remembered.now →
        IfSome result (λ at. IsKeptAt table.now.groups at place.depth place.site place.number
        (kinds.Cell ks remembered.now.value)) }
{
    if !remembered.is_kept {
        return None;
    }
    kept_index(table, found, place)
}

// Returns the number of a node and the next unused number: the number of the old group, or the next one.
// Returns `NoMemory` at 2^64 - 1 nodes, which no memory can hold.
fn node_number(found: &Option<OldGroup>, next: u64) -> Result<(u64, u64), NoMemory>
    ensures { IfOk result (λ n. n ≡ number_for found.now next) }
{
    match found {
        Some(old) => Ok((old.number(), next)),
        None => {
            if next == u64::MAX {
                return Err(NoMemory);
            }
            Ok((next, next + 1))
        }
    }
}

// Returns 1 if it is true, else 0.
fn one_where(truth: bool) -> u64
    ensures { result ≡ one_if truth }
{
    if truth { 1 } else { 0 }
}
