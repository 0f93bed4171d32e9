// The world of records and its calls.
ghost use Rattle.std.specs.Prelude.{◌≡◌, ℕ, Bool, ◌+◌, ◌*◌, ◌≤◌, ◌<◌, ◌==◌, ◌^◌, not, if◌then◌else◌, slice_get, List, [], true, false, length, slice_index_or, IfOk, IfSome, IfNone, OnOk, OnErr};
ghost use Rattle.rt_values.specs.Maps.{contains};
ghost use Rattle.snap_nested.specs.Members.{ids_of, member};
ghost use Rattle.snap_world.specs.Noting.{noted_of};

use crate::kept_ids::find_kept_ids;
use crate::moving::{clear_noted, find_changed_objects, stamp_object};
use crate::notes::Notes;
use crate::noting::{add_list, note_object, unnote_object};
use crate::stamp_list::{StampList, replace_last};
use crate::used_ids::{add_record_ids, count_records};
use rt_values::{Caller, Kind, Name, NoMemory, ObjectNo, Objects, Ty, Value, WatcherNo};
use snap_api::{CLOCK_LIMIT, Object, Refusal, Versions};
use snap_ids::IdSet;
use snap_nested::{Family, Member};
use snap_policy::Policy;
use snap_records::{Chains, KeptIds, RecordNo};
use snap_reuse::put;
use std::alloc::Global;
use std::mem::replace;

// How many ids are handed out at least between two sweeps of the ids that no record and no open snapshot needs.
const SWEPT_IDS: u64 = 64;

/// A world of snapshots with state records: the clock, the objects, the ids of the snapshots, the chains of records,
/// the objects that each snapshot wrote, the stamps of global's view, and the stamps of each watcher's last map. The
/// next take for a watcher copies global's stamps into the memory of `spare`. A take that hands out id `next_sweep` or
/// a later one drops the ids that no record and no open snapshot needs.
#[derive(Drop)]
pub struct RecordWorld<P> {
    pub(crate) clock: u64,
    pub(crate) objects: Vec<Object<P>>,
    pub(crate) family: Family,
    pub(crate) chains: Chains,
    pub(crate) wrote: Notes,
    pub(crate) stamps: Vec<u64>,
    pub(crate) lasts: Vec<Option<StampList>>,
    spare: Vec<u64>,
    next_sweep: u64,
    ghost in_time: { clock ≤ 2 ^ 60 },
    ghost few: { family.handed ≤ 3 * clock + 1 },
    ghost many: { length chains.heads.items ≡ length objects.items },
    ghost stamped: { length stamps.items ≡ length objects.items },
    ghost blank: { (n : ℕ) → length family.members ≤ n → noted_of wrote n ≡ [] },
}

// Returns whether the snapshot with this member belongs to another caller. Global belongs to every caller.
fn is_foreign(member: &Member, caller: Caller, name: Name) -> bool
    ensures { result ≡ (if name == 0 then false else not (member.now.owner == caller)) }
{
    name != 0 && member.owner != caller
}

impl<P: Policy> RecordWorld<P> {
    ghost use Rattle.std.specs.Prelude.{None, IsOk, IsSome};
    ghost use Rattle.slab.specs.Slab.{get};
    ghost use Rattle.snap_api.specs.World.{make_refusal, world_after_write};
    ghost use Rattle.snap_laws.specs.TakesFor.{take_for_refusal, IsTakeFor};
    ghost use Rattle.snap_laws.specs.Steps.{MakesTo};
    ghost use Rattle.snap_laws.specs.Coverage.{AreReadWithin, IsSwept};
    ghost use Rattle.snap_world.specs.Sorted.{AreRecordsOwned};
    ghost use Rattle.snap_laws.specs.Reads.{read_refusal};
    ghost use Rattle.snap_records.specs.Chains.{record_at};
    ghost use Rattle.snap_api.specs.World.{World};
    ghost use Rattle.snap_world.specs.Overwrites.{SparesReadRecords};
    ghost use Rattle.snap_nested.specs.Members.{is_free};
    ghost use Rattle.snap_ids.specs.IdLists.{without_id};
    ghost use Rattle.snap_laws.specs.Unused.{AreUnused};
    ghost use Rattle.snap_laws.specs.Disposes.{dispose_refusal};
    ghost use Rattle.snap_laws.specs.Steps.{DisposesTo};
    ghost use Rattle.snap_laws.specs.Applies.{apply_refusal};
    ghost use Rattle.snap_laws.specs.Represents.{Represents};
    ghost use Rattle.snap_laws.specs.Steps.{IsUnchanged, IsTake, take_refusal, WritesTo};
    ghost use Rattle.snap_laws.specs.Writes.{write_refusal, object_refusal};
    ghost use Rattle.snap_world.specs.Holding.{world_parts, IsComparison, IsWithin};
    ghost use Rattle.snap_records.specs.Records.{AreApart, Reads};
    ghost use Rattle.snap_records.specs.Chains.{chain_of};
    ghost use Rattle.rt_values.specs.declared.maps.StampedValue.{StampedValue};
    ghost use Rattle.snap_api.specs.World.{start};

    /// Makes a world with only the global snapshot, without objects and watchers, at clock 0.
    pub fn new(alloc: Global) -> Result<Self, NoMemory>
        ensures { IfOk result (λ s. Represents (world_parts s) (start 0)) }
    {
        Self::starting_at(alloc, 0)
    }

    /// Makes such a world at a later clock. At `CLOCK_LIMIT` every take, write and apply is refused.
    pub fn starting_at(alloc: Global, clock: u64) -> Result<Self, NoMemory>
        requires { clock ≤ 2 ^ 60 }
        ensures { IfOk result (λ s. Represents (world_parts s) (start clock)) }
    {
        Ok(RecordWorld {
            clock,
            objects: Vec::new(alloc),
            family: Family::new(alloc)?,
            chains: Chains::new(alloc),
            wrote: Notes::new(alloc),
            stamps: Vec::new(alloc),
            lasts: Vec::new(alloc),
            spare: Vec::new(alloc),
            next_sweep: SWEPT_IDS,
        })
    }

    /// Returns the records of all objects.
    pub fn chains(&self) -> &Chains
        ensures { result.now ≡ self.now.chains }
    {
        &self.chains
    }

    // Returns the refusal of a take, if there is one.
    fn take_refusal(&self, parent: Name, kind: Kind) -> Option<Refusal>
        ensures { result ≡ take_refusal (world_parts self.now) parent kind }
    {
        if self.clock == CLOCK_LIMIT {
            return Some(Refusal::Spent);
        }
        let Some(member) = self.family.find_live(parent) else {
            return Some(Refusal::Closed { name: parent });
        };
        if !matches!(member.kind, Kind::Mutable) && matches!(kind, Kind::Mutable) {
            return Some(Refusal::ReadOnly);
        }
        None
    }

    // Takes a child of a live snapshot.
    fn push_child(
        &mut self,
        alloc: Global,
        caller: Caller,
        parent: Name,
        kind: Kind,
    ) -> Result<Name, NoMemory>
        requires live { (member self.old.family.members parent).is_live ≡ true }
        requires room { self.old.clock < 2 ^ 60 }
        ensures ok { IfOk result (λ n. IsTake (world_parts self.old) (world_parts self.new) caller parent kind n) }
        ensures err { OnErr result (IsUnchanged (world_parts self.old) (world_parts self.new)) }
    {
        let Ok(name) = self.family.take(alloc, parent, kind, caller) else {
            return Err(NoMemory);
        };
        self.clock += 1;
        Ok(name)
    }

    // Returns the refusal of a write, if there is one.
    fn write_refusal(
        &self,
        caller: Caller,
        name: Name,
        object: ObjectNo,
        value: &Value,
    ) -> Option<Refusal>
        ensures { result ≡ write_refusal (world_parts self.now) caller name object value.now }
    {
        if self.clock == CLOCK_LIMIT {
            return Some(Refusal::Spent);
        }
        let Some(member) = self.family.find_live(name) else {
            return Some(Refusal::Closed { name });
        };
        if is_foreign(member, caller, name) {
            return Some(Refusal::NotYours {
                owner: member.owner,
            });
        }
        self.object_refusal(member.kind, name, object, value)
    }

    // Returns the refusal of a write that depends on the object, if there is one. The snapshot has the given kind.
    fn object_refusal(
        &self,
        kind: Kind,
        name: Name,
        object: ObjectNo,
        value: &Value,
    ) -> Option<Refusal>
        requires { kind ≡ (world_parts self.now).kind name }
        ensures { result ≡ object_refusal (world_parts self.now) name value.now (slice_get
            (world_parts self.now).objects object) }
    {
        let Some(kept) = self.objects.get(object as usize) else {
            return Some(Refusal::UnknownObject);
        };
        if !matches!(kind, Kind::Mutable) {
            return Some(Refusal::ReadOnly);
        }
        if !value.ty().same(kept.ty) {
            return Some(Refusal::WrongType { kept: kept.ty });
        }
        None
    }

    // Returns whether the policy holds the value equivalent to the one that the snapshot reads, if it reads one.
    fn compare(&self, name: Name, object: ObjectNo, value: &Value) -> Option<bool>
        requires live { (member self.now.family.members name).is_live ≡ true }
        requires there { object < length self.now.objects.items }
        ensures is { IfSome result (λ like. IsComparison P.rules (world_parts self.now) name object value.now like) }
        ensures none { IfNone result ((e : StampedValue)
            → Reads ((world_parts self.now).ids.sees name) ((world_parts self.now).chains object) e → ⊥) }
    {
        let member = self.family.member(name);
        match self.chains.readable(object, member.id, &member.invalid) {
            Some(record) => {
                let kept = &self.objects[object as usize];
                Some(kept.policy.equivalent(self.chains.value(record), value))
            }
            None => None,
        }
    }

    // Puts a record of the value into the chain of the object. Records whose ids are not in `kept` are lost.
    fn put_record(
        &mut self,
        alloc: Global,
        name: Name,
        object: ObjectNo,
        value: Value,
        kept: &KeptIds,
    ) -> Result<(), NoMemory>
        requires live { (member self.old.family.members name).is_live ≡ true }
        requires there { object < length self.old.objects.items }
        requires room { self.old.clock < 2 ^ 60 }
        requires own { contains (member self.old.family.members name).id kept.now ≡ true }
        requires read { AreRecordsOwned (world_parts self.old).ids ((world_parts self.old).chains object)
            → AreReadWithin (world_parts self.old).ids name ((world_parts self.old).chains object) kept.now }
        ensures ok { OnOk result ((w : World P) → Represents (world_parts self.old) w
            → WritesTo (world_parts self.old) (world_parts self.new) name object value) }
        ensures swept { OnOk result ((w : World P) → Represents (world_parts self.old) w
            → IsWithin kept.now ((world_parts self.new).chains object)) }
        ensures err { OnErr result (IsUnchanged (world_parts self.old) (world_parts self.new)) }
    {
        let Ok(()) = add_list(alloc, &mut self.wrote, name) else {
            return Err(NoMemory);
        };
        let Ok(is_new) = note_object(&mut self.wrote, name, object) else {
            return Err(NoMemory);
        };
        let id = self.family.id(name);
        let Ok(()) = put(&mut self.chains, object, id, value, self.clock + 1, kept) else {
            unnote_object(&mut self.wrote, name, is_new);
            return Err(NoMemory);
        };
        stamp_object(&mut self.stamps, name, object, self.clock + 1);
        self.clock += 1;
        Ok(())
    }

    // Gives an object another value in a snapshot. The other records of the object that no live snapshot reads get id
    // 0.
    fn put_entry(
        &mut self,
        alloc: Global,
        name: Name,
        object: ObjectNo,
        value: Value,
    ) -> Result<(), NoMemory>
        requires live { (member self.old.family.members name).is_live ≡ true }
        requires there { object < length self.old.objects.items }
        requires room { self.old.clock < 2 ^ 60 }
        ensures ok { OnOk result ((w : World P) → Represents (world_parts self.old) w
            → Represents (world_parts self.new) (world_after_write w name object value)) }
        ensures swept { OnOk result ((w : World P) → Represents (world_parts self.old) w
            → IsSwept (world_parts self.old).ids name self.old.family.held
            ((world_parts self.old).chains object) ((world_parts self.new).chains object)) }
        ensures spared { OnOk result ((w : World P) → Represents (world_parts self.old) w
            → SparesReadRecords (world_parts self.old).ids name
            ((world_parts self.old).chains object) ((world_parts self.new).chains object)) }
        ensures err { OnErr result (IsUnchanged (world_parts self.old) (world_parts self.new)) }
    {
        let mut kept = KeptIds::new(alloc);
        let Ok(()) = find_kept_ids(alloc, &self.family, &self.chains, object, name, &mut kept)
        else {
            return Err(NoMemory);
        };
        self.put_record(alloc, name, object, value, &kept)
    }

    // Returns the refusal of an apply before its objects are settled, if there is one.
    fn apply_refusal(&self, caller: Caller, name: Name) -> Option<Refusal>
        ensures { result ≡ apply_refusal (world_parts self.now) caller name }
    {
        if self.clock == CLOCK_LIMIT {
            return Some(Refusal::Spent);
        }
        let Some(member) = self.family.find_live(name) else {
            return Some(Refusal::Closed { name });
        };
        if name == 0 {
            return Some(Refusal::Global);
        }
        if is_foreign(member, caller, name) {
            return Some(Refusal::NotYours {
                owner: member.owner,
            });
        }
        if !matches!(member.kind, Kind::Mutable) {
            return Some(Refusal::ReadOnly);
        }
        if !self.family.live(member.parent) {
            return Some(Refusal::ParentClosed);
        }
        None
    }

    // Returns the refusal of a dispose, if there is one.
    fn dispose_refusal(&self, caller: Caller, name: Name) -> Option<Refusal>
        ensures { result ≡ dispose_refusal (world_parts self.now) caller name }
    {
        if name as usize >= self.family.names() {
            return Some(Refusal::Closed { name });
        }
        if name == 0 {
            return Some(Refusal::Global);
        }
        let Some(member) = self.family.find_live(name) else {
            return None;
        };
        if is_foreign(member, caller, name) {
            return Some(Refusal::NotYours {
                owner: member.owner,
            });
        }
        None
    }

    // Closes a snapshot, which keeps its records and ids.
    fn close(&mut self, name: Name)
        requires live { (member self.old.family.members name).is_live ≡ true }
        requires inner { 0 < name }
        ensures { DisposesTo (world_parts self.old) (world_parts self.new) name }
    {
        self.family.close_disposed(name);
    }

    // Gives id 0 to the records of a closed snapshot without live descendants, and forgets its ids and what it wrote.
    fn forget(&mut self, name: Name)
        requires there { name < length self.old.family.members }
        requires free { is_free self.old.family.members (member self.old.family.members name) ≡ true }
        ensures stays { (w : World P) → Represents (world_parts self.old) w → Represents (world_parts self.new) w }
        ensures held { self.new.family.held ≡ without_id name self.old.family.held }
        ensures unnoted { (x : ℕ) → (world_parts self.new).noted name x ≡ false }
    {
        let Some(ids) = self.family.find_ids(name) else {
            unreachable!();
        };
        clear_noted(&mut self.chains, &self.wrote, name, self.objects.len(), ids);
        self.family.forget(name);
        self.wrote.remove(name);
    }

    // Forgets the closed snapshots without live descendants.
    fn forget_all(&mut self)
        ensures stays { (w : World P) → Represents (world_parts self.old) w → Represents (world_parts self.new) w }
        ensures none { (n : ℕ) → is_free self.new.family.members
            (member self.new.family.members n) ≡ false }
    {
        let mut next = self.family.freed();
        while let Some(name) = next {
            self.forget(name);
            next = self.family.freed();
        }
    }

    // Returns own ids of snapshots that are neither 1 nor the first or current id of a snapshot nor the id of a record.
    fn find_unused(&self, alloc: Global) -> Result<IdSet, NoMemory>
        ensures { IfOk result (λ unused. AreUnused (world_parts self.now).ids (world_parts self.now).chains
            (λ i. contains i unused)) }
    {
        let mut used = IdSet::of(alloc, 1)?;
        add_record_ids(&self.chains, &mut used)?;
        self.family.add_ends(&mut used)?;
        let unused = self.family.find_unused(alloc, &used)?;
        Ok(unused)
    }

    // Returns how many ids are handed out before the next sweep: twice as many as the records and the open snapshots
    // may need, and some more.
    fn sweep_distance(&self, records: u64) -> u64 {
        let open = (self.family.open_names().len() as u64).saturating_mul(4);
        records
            .saturating_mul(2)
            .saturating_add(open)
            .saturating_add(SWEPT_IDS)
    }

    // Returns how many records there may be for a sweep. To sort their ids takes longer than the copies of large sets, if
    // few snapshots are open.
    fn most_swept(&self) -> u64 {
        (self.family.open_names().len() as u64)
            .saturating_mul(16)
            .saturating_add(200)
    }

    // Drops the ids that no record and no open snapshot needs. Does nothing if the process is out of memory.
    fn drop_unused(&mut self, alloc: Global)
        ensures { (w : World P) → Represents (world_parts self.old) w → Represents (world_parts self.new) w }
    {
        let Ok(unused) = self.find_unused(alloc) else {
            return;
        };
        self.family.drop_unused(&unused);
    }

    // Drops unused ids, if many ids were handed out since the last sweep and there are not too many records.
    fn sweep_ids(&mut self, alloc: Global)
        ensures { (w : World P) → Represents (world_parts self.old) w → Represents (world_parts self.new) w }
    {
        if self.family.handed() < self.next_sweep {
            return;
        }
        let records = count_records(&self.chains);
        self.next_sweep = self
            .family
            .handed()
            .saturating_add(self.sweep_distance(records));
        if records > self.most_swept() {
            return;
        }
        self.drop_unused(alloc);
    }

    // Returns the refusal of a read, if there is one.
    fn read_refusal(&self, caller: Caller, name: Name, object: ObjectNo) -> Option<Refusal>
        ensures { result ≡ read_refusal (world_parts self.now) caller name object }
    {
        let Some(member) = self.family.find_live(name) else {
            return Some(Refusal::Closed { name });
        };
        if is_foreign(member, caller, name) {
            return Some(Refusal::NotYours {
                owner: member.owner,
            });
        }
        if object as usize >= self.objects.len() {
            return Some(Refusal::UnknownObject);
        }
        None
    }

    // Returns the readable record of an object for a live snapshot. There is one in every represented world.
    fn shown(&self, name: Name, object: ObjectNo) -> Option<RecordNo>
        requires live { (member self.now.family.members name).is_live ≡ true }
        requires there { object < length self.now.objects.items }
        ensures is { IfSome result (λ r. Reads ((world_parts self.now).ids.sees name)
            ((world_parts self.now).chains object) (record_at self.now.chains r.0).entry) }
        ensures there { IfSome result (λ r. IsSome (get self.now.chains.slots r.0)) }
        ensures none { IfNone result ((e : StampedValue)
            → Reads ((world_parts self.now).ids.sees name) ((world_parts self.now).chains object) e → ⊥) }
    {
        let member = self.family.member(name);
        self.chains.readable(object, member.id, &member.invalid)
    }

    // Returns the refusal of a make, if there is one.
    fn make_refusal(ty: Ty, policy: &P, value: &Value) -> Option<Refusal>
        ensures { result ≡ make_refusal P.rules ty policy.now value.now }
    {
        if !value.ty().same(ty) {
            return Some(Refusal::WrongType { kept: ty });
        }
        if !policy.fits(ty) {
            return Some(Refusal::BadPolicy);
        }
        None
    }

    // Adds an object, whose record has id 1.
    fn put_object(
        &mut self,
        alloc: Global,
        ty: Ty,
        policy: P,
        value: Value,
    ) -> Result<ObjectNo, NoMemory>
        ensures number { IfOk result (λ x. x ≡ length (world_parts self.old).objects) }
        ensures ok { OnOk result (MakesTo (world_parts self.old) (world_parts self.new) ty policy value) }
        ensures err { OnErr result (IsUnchanged (world_parts self.old) (world_parts self.new)) }
    {
        let Ok(()) = self.objects.reserve(1) else {
            return Err(NoMemory);
        };
        let Ok(()) = self.stamps.reserve(1) else {
            return Err(NoMemory);
        };
        let Ok(x) = self.chains.add_object_with(alloc, 1, value, 0) else {
            return Err(NoMemory);
        };
        let Ok(()) = self.objects.push(Object { ty, policy }) else {
            unreachable!();
        };
        let Ok(()) = self.stamps.push(0) else {
            unreachable!();
        };
        Ok(x)
    }

    // Returns the refusal of a take for a watcher, if there is one.
    fn take_for_refusal(&self, watcher: WatcherNo) -> Option<Refusal>
        ensures { result ≡ take_for_refusal (world_parts self.now) watcher }
    {
        if self.clock == CLOCK_LIMIT {
            return Some(Refusal::Spent);
        }
        if watcher as usize >= self.lasts.len() {
            return Some(Refusal::UnknownWatcher);
        }
        None
    }

    // Takes a readonly child of global, and returns what changed since the watcher's last stamps.
    fn push_child_for(
        &mut self,
        alloc: Global,
        caller: Caller,
        watcher: WatcherNo,
    ) -> Result<(Name, Objects), NoMemory>
        requires known { watcher < length self.old.lasts.items }
        requires room { self.old.clock < 2 ^ 60 }
        ensures ok { IfOk result (λ r. IsTakeFor (world_parts self.old) (world_parts self.new) caller watcher r.0 r.1) }
        ensures err { OnErr result (IsUnchanged (world_parts self.old) (world_parts self.new)) }
    {
        let spare = replace(&mut self.spare, Vec::new(alloc));
        let Ok(stamps) = StampList::copy_into(spare, &self.stamps) else {
            return Err(NoMemory);
        };
        let Ok(changed) = find_changed_objects(alloc, &self.lasts[watcher as usize], &stamps) else {
            return Err(NoMemory);
        };
        let Ok(name) = self.push_child(alloc, caller, 0, Kind::Readonly) else {
            return Err(NoMemory);
        };
        self.spare = replace_last(alloc, &mut self.lasts, watcher, stamps);
        Ok((name, changed))
    }
}

impl<P: Policy> Versions for RecordWorld<P> {
    ghost use Rattle.std.specs.Prelude.{◌≡◌, ◌≢◌, ◌<◌, true, None, Some, length, IsOk, Ok, Err};
    ghost use Rattle.rt_values.specs.Maps.{value_at};
    ghost use Rattle.rt_values.specs.Values.{is_flat};
    ghost use Rattle.snap_api.specs.Calls.{Calls, Makes, Logs, IsOwn, taken_reply, taken_for_reply, read_reply, write_reply, apply_reply, dispose_reply};
    ghost use Rattle.snap_api.specs.World.{World, make_refusal, snapshot_of};
    ghost use Rattle.snap_api.specs.declared.data.Refusal.TheVariants as Refusal;
    ghost use Rattle.snap_api.specs.declared.data.Request.TheVariants as Request;
    ghost use Rattle.snap_laws.specs.Coverage.{IsSwept};
    ghost use Rattle.snap_nested.specs.Members.{is_free};
    ghost use Rattle.snap_laws.specs.FreeRefusals.{IsFreelyRefused, IsApplyFreelyRefused};
    ghost use Rattle.snap_laws.specs.Represents.{Represents};
    ghost use Rattle.snap_world.specs.Holding.{world_parts};
    ghost use Rattle.snap_world.specs.HoldingLaws.{counts_of};
    ghost use Rattle.snap_world.specs.Overwrites.{SparesReadRecords};
    ghost use Rattle.snap_api.specs.declared.data.Refusal.{Refusal as refusal_data};

    type P = P;

    ghost stands = { λ s w. Represents (world_parts s) w };

    ghost log = { λ s. None };

    ghost object_count = { λ s. length s.objects.items };

    ghost watcher_count = { λ s. length s.lasts.items };

    ghost counts = { λ s w h. counts_of s w h };

    fn objects(&self) -> usize {
        self.objects.len()
    }

    fn watchers(&self) -> usize {
        self.lasts.len()
    }

    fn make(&mut self, alloc: Global, ty: Ty, policy: P, value: Value) -> Result<ObjectNo, Refusal>
        requires { ⟦<RecordWorld<P> as Versions>⟧.object_count self.old < 65536 }
        ensures made { Makes P.rules (Represents (world_parts self.old)) (Represents (world_parts self.new)) ty policy
            value result }
        ensures log { ⟦<RecordWorld<P> as Versions>⟧.log self.new ≡ None }
        ensures refused { (e : refusal_data) → make_refusal P.rules ty policy value ≡ Some e → result ≡ Err e }
    {
        if let Some(refusal) = Self::make_refusal(ty, &policy, &value) {
            return Err(refusal);
        }
        let Ok(x) = self.put_object(alloc, ty, policy, value) else {
            return Err(Refusal::NoMemory);
        };
        Ok(x)
    }

    fn watch(&mut self, _alloc: Global) -> Result<WatcherNo, NoMemory> {
        let number = self.lasts.len() as u64;
        let Ok(()) = self.lasts.push(None) else {
            return Err(NoMemory);
        };
        Ok(number)
    }

    fn take(
        &mut self,
        alloc: Global,
        caller: Caller,
        parent: Name,
        kind: Kind,
    ) -> Result<Name, Refusal>
        ensures call { Calls P.rules (Represents (world_parts self.old)) (Represents (world_parts self.new)) caller
            (Request.Take parent kind)
            (taken_reply result) }
        ensures log { Logs None None caller (Request.Take parent kind) (taken_reply result) }
        ensures refused { IsFreelyRefused P.rules (Represents (world_parts self.old)) caller (Request.Take parent kind)
            (taken_reply result) }
    {
        if let Some(refusal) = self.take_refusal(parent, kind) {
            return Err(refusal);
        }
        let Ok(name) = self.push_child(alloc, caller, parent, kind) else {
            return Err(Refusal::NoMemory);
        };
        self.sweep_ids(alloc);
        Ok(name)
    }

    fn take_for(
        &mut self,
        alloc: Global,
        caller: Caller,
        watcher: WatcherNo,
    ) -> Result<(Name, Objects), Refusal>
        ensures call { Calls P.rules (Represents (world_parts self.old)) (Represents (world_parts self.new)) caller
            (Request.TakeFor watcher)
            (taken_for_reply result) }
        ensures log { Logs None None caller (Request.TakeFor watcher) (taken_for_reply result) }
        ensures refused { IsFreelyRefused P.rules (Represents (world_parts self.old)) caller (Request.TakeFor watcher)
            (taken_for_reply result) }
    {
        if let Some(refusal) = self.take_for_refusal(watcher) {
            return Err(refusal);
        }
        let Ok((name, changed)) = self.push_child_for(alloc, caller, watcher) else {
            return Err(Refusal::NoMemory);
        };
        self.sweep_ids(alloc);
        Ok((name, changed))
    }

    fn read(
        &mut self,
        alloc: Global,
        caller: Caller,
        name: Name,
        object: ObjectNo,
    ) -> Result<Value, Refusal>
        ensures call { Calls P.rules (Represents (world_parts self.old)) (Represents (world_parts self.new)) caller
            (Request.Read name object)
            (read_reply result) }
        ensures log { Logs None None caller (Request.Read name object) (read_reply result) }
        ensures refused { IsFreelyRefused P.rules (Represents (world_parts self.old)) caller (Request.Read name object)
            (read_reply result) }
        ensures flat { (w : World P) → Represents (world_parts self.old) w
            → is_flat (value_at (snapshot_of w name).view object) ≡ true → result ≢ Err Refusal.NoMemory }
    {
        if let Some(refusal) = self.read_refusal(caller, name, object) {
            return Err(refusal);
        }
        let Some(record) = self.shown(name, object) else {
            return Err(Refusal::NoMemory);
        };
        let Ok(value) = self.chains.value(record).copy(alloc) else {
            return Err(Refusal::NoMemory);
        };
        Ok(value)
    }

    fn write(
        &mut self,
        alloc: Global,
        caller: Caller,
        name: Name,
        object: ObjectNo,
        value: Value,
    ) -> Result<bool, Refusal>
        ensures call { Calls P.rules (Represents (world_parts self.old)) (Represents (world_parts self.new)) caller
            (Request.Write name object value)
            (write_reply result) }
        ensures log { Logs None None caller (Request.Write name object value) (write_reply result) }
        ensures refused { IsFreelyRefused P.rules (Represents (world_parts self.old)) caller
            (Request.Write name object value)
            (write_reply result) }
        ensures swept { result ≡ Ok true → (w : World P) → Represents (world_parts self.old) w
            → IsSwept (world_parts self.old).ids name self.old.family.held
            ((world_parts self.old).chains object) ((world_parts self.new).chains object) }
        ensures spared { result ≡ Ok true → (w : World P) → Represents (world_parts self.old) w
            → SparesReadRecords (world_parts self.old).ids name
            ((world_parts self.old).chains object) ((world_parts self.new).chains object) }
    {
        if let Some(refusal) = self.write_refusal(caller, name, object, &value) {
            return Err(refusal);
        }
        match self.compare(name, object, &value) {
            Some(true) => Ok(false),
            Some(false) => match self.put_entry(alloc, name, object, value) {
                Ok(()) => Ok(true),
                Err(_) => Err(Refusal::NoMemory),
            },
            None => Err(Refusal::NoMemory),
        }
    }

    fn apply(&mut self, alloc: Global, caller: Caller, name: Name) -> Result<(), Refusal>
        ensures call { Calls P.rules (Represents (world_parts self.old)) (Represents (world_parts self.new)) caller
            (Request.Apply name)
            (apply_reply result) }
        ensures log { Logs None None caller (Request.Apply name) (apply_reply result) }
        ensures refused { IsApplyFreelyRefused P.rules P.is_free_merge (Represents (world_parts self.old)) caller name
            (apply_reply result) }
        ensures unnoted { OnOk result ((x : ℕ) → (world_parts self.new).noted name x ≡ false) }
    {
        if let Some(refusal) = self.apply_refusal(caller, name) {
            return Err(refusal);
        }
        let into = self.family.parent(name);
        let Some(settled) = self.settle(alloc, name, into) else {
            return match self.find_conflict(alloc, name, into) {
                Ok(Some(object)) => Err(Refusal::Conflict { object }),
                Ok(None) => Err(Refusal::NoMemory),
                Err(_) => Err(Refusal::NoMemory),
            };
        };
        match self.put_settled(alloc, name, into, &settled) {
            Ok(()) => Ok(()),
            Err(_) => Err(Refusal::NoMemory),
        }
    }

    fn dispose(&mut self, caller: Caller, name: Name) -> Result<(), Refusal>
        ensures call { Calls P.rules (Represents (world_parts self.old)) (Represents (world_parts self.new)) caller
            (Request.Dispose name)
            (dispose_reply result) }
        ensures log { Logs None None caller (Request.Dispose name) (dispose_reply result) }
        ensures own { (w : World P) → Represents (world_parts self.old) w → IsOwn w caller name → IsOk result }
        ensures free { result ≢ Err Refusal.NoMemory }
        ensures forgot { (member self.old.family.members name).is_live ≡ true → OnOk result ((n : ℕ)
            → is_free self.new.family.members (member self.new.family.members n) ≡ false) }
    {
        if let Some(refusal) = self.dispose_refusal(caller, name) {
            return Err(refusal);
        }
        if !self.family.live(name) {
            return Ok(());
        }
        self.close(name);
        self.forget_all();
        Ok(())
    }
}
