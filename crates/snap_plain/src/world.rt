// The plain world and its calls.
ghost use Rattle.std.specs.Prelude.{◌≡◌, ◌≢◌, ℕ, ◌≤◌, ◌<◌, ◌^◌, true, false, Some, None, IfOk, IsOk, IfNone, OnErr, length};
ghost use Rattle.snap_api.specs.Calls.{Logs, IsOwn, taken_reply, taken_for_reply, read_reply, write_reply, apply_reply, dispose_reply};
ghost use Rattle.snap_api.specs.Shaped.{AreShaped};
ghost use Rattle.snap_api.specs.declared.data.Refusal.{Refusal as refusal_data};
ghost use Rattle.snap_api.specs.World.{World, call, start, world_after_take, world_after_take_for, settled_of, make_refusal, snapshot_of, last_of, is_spent, is_closed, is_foreign, is_mutable};
ghost use Rattle.snap_plain.specs.FreeRefusals.{RefusesFreely, ApplyRefusesFreely, MergesAreFree};
ghost use Rattle.snap_api.specs.Settle.{conflict};
ghost use Rattle.snap_plain.specs.CallParts.{Tested, WriteTested, ObjectTested, ApplyTested, SettlesTo, conflict_of};
ghost use Rattle.rt_values.specs.Maps.{value_at, differ};
ghost use Rattle.rt_values.specs.Values.{is_flat};

use crate::settle_objects::{least_conflict, settle_all};
use crate::snapshots::{
    add_object_to_all, initial_snapshots, push_child, set_entry, set_settled, set_status,
    with_members,
};
use rt_values::{
    Caller, Kind, Map, Name, NoMemory, ObjectNo, Objects, StampedValue, Ty, Value, WatcherNo,
    find_differing,
};
use snap_api::{CLOCK_LIMIT, Object, Refusal, Reply, Request, Snapshot, SnapshotStatus, Versions};
use snap_policy::Policy;
use std::alloc::Global;

/// A world of snapshots with copied maps: the clock, the objects, every snapshot ever taken, and the last map of
/// each watcher.
#[derive(Drop)]
pub struct PlainWorld<P> {
    clock: u64,
    objects: Vec<Object<P>>,
    snapshots: Vec<Snapshot>,
    lasts: Vec<Option<Map>>,
    ghost in_time: { clock ≤ 2 ^ 60 },
    ghost has_global: { 0 < length snapshots.items },
    ghost shaped: { AreShaped (length objects.items) snapshots.items },
}

impl<P: Policy> PlainWorld<P> {
    ghost use Rattle.snap_plain.specs.Plain.{world_of};

    /// Makes a world with only the global snapshot, without objects and watchers, at clock 0.
    pub fn new(alloc: Global) -> Result<Self, NoMemory>
        ensures { IfOk result (λ s. ⟦<PlainWorld<P> as Versions>⟧.stands s (start 0)) }
    {
        Self::starting_at(alloc, 0)
    }

    /// Makes such a world at a later clock. At `CLOCK_LIMIT` every take, write and apply is refused.
    pub fn starting_at(alloc: Global, clock: u64) -> Result<Self, NoMemory>
        requires { clock ≤ 2 ^ 60 }
        ensures { IfOk result (λ s. ⟦<PlainWorld<P> as Versions>⟧.stands s (start clock)) }
    {
        Ok(PlainWorld {
            clock,
            objects: Vec::new(alloc),
            snapshots: initial_snapshots(alloc)?,
            lasts: Vec::new(alloc),
        })
    }

    fn is_spent(&self) -> bool
        ensures { result ≡ is_spent (world_of self.now) }
    {
        self.clock == CLOCK_LIMIT
    }

    fn is_closed(&self, name: Name) -> bool
        ensures closed { result ≡ is_closed (world_of self.now) name }
        ensures known { result ≡ false → name < length self.now.snapshots.items }
    {
        match self.snapshots.get(name as usize) {
            Some(shot) => !matches!(shot.status, SnapshotStatus::Live),
            None => true,
        }
    }

    fn is_mutable(&self, name: Name) -> bool
        ensures { result ≡ is_mutable (snapshot_of (world_of self.now) name).kind }
    {
        match self.snapshots.get(name as usize) {
            Some(shot) => matches!(shot.kind, Kind::Mutable),
            None => false,
        }
    }

    fn owner_of(&self, name: Name) -> Caller
        ensures { result ≡ (snapshot_of (world_of self.now) name).owner }
    {
        match self.snapshots.get(name as usize) {
            Some(shot) => shot.owner,
            None => 0,
        }
    }

    fn parent_of(&self, name: Name) -> Name
        ensures { result ≡ (snapshot_of (world_of self.now) name).parent }
    {
        match self.snapshots.get(name as usize) {
            Some(shot) => shot.parent,
            None => 0,
        }
    }

    fn is_foreign(&self, caller: Caller, name: Name) -> bool
        ensures { result ≡ is_foreign (world_of self.now) caller name }
    {
        name != 0 && self.owner_of(name) != caller
    }

    // Returns the value of an object in a snapshot.
    fn value_in(&self, name: Name, object: ObjectNo) -> &Value
        requires name { name < length self.now.snapshots.items }
        requires object { object < length self.now.objects.items }
        ensures { result.now ≡ value_at (snapshot_of (world_of self.now) name).view object }
    {
        &self.snapshots[name as usize].view.at(object as usize).value
    }

    // Returns the refusal of a take, if there is one.
    fn take_refusal(&self, parent: Name, kind: Kind) -> Option<Refusal>
        ensures tested { (caller : ℕ) → Tested (world_of self.now)
            (call P.rules (world_of self.now) caller (Request.Take parent kind))
            (world_after_take (world_of self.now) caller parent kind, Reply.Taken (length self.now.snapshots.items))
            result }
        ensures known { IfNone result (parent < length self.now.snapshots.items) }
        ensures unspent { IfNone result (self.now.clock < 2 ^ 60) }
    {
        if self.is_spent() {
            return Some(Refusal::Spent);
        }
        if self.is_closed(parent) {
            return Some(Refusal::Closed { name: parent });
        }
        if !self.is_mutable(parent) && matches!(kind, Kind::Mutable) {
            return Some(Refusal::ReadOnly);
        }
        None
    }

    // Returns the refusal of a write, if there is one.
    fn write_refusal(
        &self,
        caller: Caller,
        name: Name,
        object: ObjectNo,
        value: &Value,
    ) -> Option<Refusal>
        ensures tested { WriteTested P.rules (world_of self.now) caller name object value.now result }
        ensures unspent { IfNone result (self.now.clock < 2 ^ 60) }
    {
        if self.is_spent() {
            return Some(Refusal::Spent);
        }
        if self.is_closed(name) {
            return Some(Refusal::Closed { name });
        }
        if self.is_foreign(caller, name) {
            return Some(Refusal::NotYours {
                owner: self.owner_of(name),
            });
        }
        self.object_refusal(name, object, value)
    }

    // Returns the refusal of a write that depends on the object, if there is one.
    fn object_refusal(&self, name: Name, object: ObjectNo, value: &Value) -> Option<Refusal>
        ensures { (caller : ℕ) → ObjectTested P.rules (world_of self.now) caller name object value.now result }
    {
        let Some(kept) = self.objects.get(object as usize) else {
            return Some(Refusal::UnknownObject);
        };
        if !self.is_mutable(name) {
            return Some(Refusal::ReadOnly);
        }
        if !value.ty().same(kept.ty) {
            return Some(Refusal::WrongType { kept: kept.ty });
        }
        None
    }

    // Returns the refusal of an apply before its objects are settled, if there is one.
    fn apply_refusal(&self, caller: Caller, name: Name) -> Option<Refusal>
        ensures tested { ApplyTested P.rules (world_of self.now) caller name result }
        ensures unspent { IfNone result (self.now.clock < 2 ^ 60) }
    {
        if self.is_spent() {
            return Some(Refusal::Spent);
        }
        if self.is_closed(name) {
            return Some(Refusal::Closed { name });
        }
        if name == 0 {
            return Some(Refusal::Global);
        }
        if self.is_foreign(caller, name) {
            return Some(Refusal::NotYours {
                owner: self.owner_of(name),
            });
        }
        if !self.is_mutable(name) {
            return Some(Refusal::ReadOnly);
        }
        if self.is_closed(self.parent_of(name)) {
            return Some(Refusal::ParentClosed);
        }
        None
    }

    // Finds the least object that conflicts in an apply of a snapshot. Takes memory only if a merge does.
    fn find_conflict(&self, alloc: Global, name: Name) -> Result<Option<ObjectNo>, NoMemory>
        requires known { name < length self.now.snapshots.items }
        requires above { (snapshot_of (world_of self.now) name).parent < length self.now.snapshots.items }
        ensures found { IfOk result (λ x. x ≡ conflict_of (settled_of P.rules (world_of self.now) 0 name)) }
        ensures free { MergesAreFree P.is_free_merge (world_of self.now) name → IsOk result }
    {
        let shot = &self.snapshots[name as usize];
        let above = &self.snapshots[shot.parent as usize];
        least_conflict(alloc, &self.objects, shot, &above.view)
    }

    // Settles the objects of a snapshot without a conflict. Returns the parent's new view and the objects written in
    // the parent then.
    fn settle_without_conflict(&self, alloc: Global, name: Name) -> Result<(Map, Objects), NoMemory>
        requires known { name < length self.now.snapshots.items }
        requires above { (snapshot_of (world_of self.now) name).parent < length self.now.snapshots.items }
        requires unspent { self.now.clock < 2 ^ 60 }
        requires fine { conflict_of (settled_of P.rules (world_of self.now) 0 name) ≡ None }
        ensures len { IfOk result (λ r. length r.0 ≡ length self.now.objects.items) }
        ensures settled { IfOk result (λ r. SettlesTo P.rules (world_of self.now) name (Ok r)) }
    {
        let shot = &self.snapshots[name as usize];
        let above = &self.snapshots[shot.parent as usize];
        let (view, changed) = settle_all(alloc, &self.objects, shot, &above.view, self.clock + 1)?;
        let wrote = with_members(alloc, &changed, &above.wrote)?;
        Ok((view, wrote))
    }

    // Settles the objects of a snapshot. Returns the parent's new view and the objects written in the parent then.
    fn settle(&self, alloc: Global, name: Name) -> Result<(Map, Objects), Refusal>
        requires known { name < length self.now.snapshots.items }
        requires above { (snapshot_of (world_of self.now) name).parent < length self.now.snapshots.items }
        requires unspent { self.now.clock < 2 ^ 60 }
        ensures len { IfOk result (λ r. length r.0 ≡ length self.now.objects.items) }
        ensures settled { SettlesTo P.rules (world_of self.now) name result }
        ensures free { MergesAreFree P.is_free_merge (world_of self.now) name →
            (x : ℕ) → settled_of P.rules (world_of self.now) 0 name ≡ conflict x → result ≡ Err (Refusal.Conflict x) }
    {
        if let Some(object) = self.find_conflict(alloc, name)? {
            return Err(Refusal::Conflict { object });
        }
        Ok(self.settle_without_conflict(alloc, name)?)
    }

    // Returns the objects that changed since the watcher's last map, and a copy of global's view.
    fn find_changed(&self, alloc: Global, watcher: WatcherNo) -> Result<(Objects, Map), NoMemory>
        requires { watcher < length self.now.lasts.items }
        ensures changed { IfOk result (λ r. r.0 ≡ differ (last_of (world_of self.now) watcher)
            (snapshot_of (world_of self.now) 0).view) }
        ensures seen { IfOk result (λ r. r.1 ≡ (snapshot_of (world_of self.now) 0).view) }
    {
        let now = &self.snapshots[0].view;
        let changed = find_differing(alloc, &self.lasts[watcher as usize], now)?;
        Ok((changed, now.copy(alloc)?))
    }

    // Takes a readonly child of global for a watcher, whose last map is then `seen`.
    fn push_child_for(
        &mut self,
        alloc: Global,
        caller: Caller,
        watcher: WatcherNo,
        seen: Map,
    ) -> Result<Name, NoMemory>
        requires watcher { watcher < length self.old.lasts.items }
        requires unspent { self.old.clock < 2 ^ 60 }
        requires seen { seen ≡ (snapshot_of (world_of self.old) 0).view }
        ensures name { IfOk result (λ name. name ≡ length self.old.snapshots.items) }
        ensures ok { IfOk result (λ name. world_of self.new ≡ world_after_take_for (world_of self.old) caller watcher) }
        ensures err { OnErr result (world_of self.new ≡ world_of self.old) }
    {
        let name = self.snapshots.len() as u64;
        push_child(alloc, &mut self.snapshots, caller, 0, Kind::Readonly)?;
        self.lasts[watcher as usize] = Some(seen);
        self.clock += 1;
        Ok(name)
    }
}

impl<P: Policy> Versions for PlainWorld<P> {
    ghost use Rattle.std.specs.Prelude.{◌≡◌, None, length};
    ghost use Rattle.snap_plain.specs.Plain.{world_of, PlainCalls, PlainMakes};
    ghost use Rattle.snap_plain.specs.PlainLaws.{counts_of};

    type P = P;

    ghost stands = { λ s w. w ≡ world_of s };

    ghost log = { λ s. None };

    ghost object_count = { λ s. length s.objects.items };

    ghost watcher_count = { λ s. length s.lasts.items };

    ghost counts = { λ s w h. counts_of s w h };

    fn objects(&self) -> usize {
        self.objects.len()
    }

    fn watchers(&self) -> usize {
        self.lasts.len()
    }

    fn make(&mut self, alloc: Global, ty: Ty, policy: P, value: Value) -> Result<ObjectNo, Refusal>
        requires { ⟦<PlainWorld<P> as Versions>⟧.object_count self.old < 65536 }
        ensures made { PlainMakes P.rules self.old self.new ty policy value result }
        ensures log { ⟦<PlainWorld<P> as Versions>⟧.log self.new ≡ None }
        ensures refused { (e : refusal_data) → make_refusal P.rules ty policy value ≡ Some e → result ≡ Err e }
    {
        if !value.ty().same(ty) {
            return Err(Refusal::WrongType { kept: ty });
        }
        if !policy.fits(ty) {
            return Err(Refusal::BadPolicy);
        }
        let snapshots = add_object_to_all(
            alloc,
            &self.snapshots,
            &StampedValue { value, stamp: 0 },
        )?;
        let number = self.objects.len() as u64;
        let Ok(()) = self.objects.push(Object { ty, policy }) else {
            return Err(Refusal::NoMemory);
        };
        self.snapshots = snapshots;
        Ok(number)
    }

    fn watch(&mut self, _alloc: Global) -> Result<WatcherNo, NoMemory> {
        let number = self.lasts.len() as u64;
        self.lasts.push(None)?;
        Ok(number)
    }

    fn take(
        &mut self,
        alloc: Global,
        caller: Caller,
        parent: Name,
        kind: Kind,
    ) -> Result<Name, Refusal>
        ensures call { PlainCalls P.rules self.old self.new caller (Request.Take parent kind) (taken_reply result) }
        ensures log { Logs None None caller (Request.Take parent kind) (taken_reply result) }
        ensures refused { RefusesFreely P.rules (world_of self.old) caller (Request.Take parent kind)
            (taken_reply result) }
    {
        if let Some(refusal) = self.take_refusal(parent, kind) {
            return Err(refusal);
        }
        let name = self.snapshots.len() as u64;
        push_child(alloc, &mut self.snapshots, caller, parent, kind)?;
        self.clock += 1;
        Ok(name)
    }

    fn take_for(
        &mut self,
        alloc: Global,
        caller: Caller,
        watcher: WatcherNo,
    ) -> Result<(Name, Objects), Refusal>
        ensures call { PlainCalls P.rules self.old self.new caller (Request.TakeFor watcher) (taken_for_reply result) }
        ensures log { Logs None None caller (Request.TakeFor watcher) (taken_for_reply result) }
        ensures refused { RefusesFreely P.rules (world_of self.old) caller (Request.TakeFor watcher)
            (taken_for_reply result) }
    {
        if self.is_spent() {
            return Err(Refusal::Spent);
        }
        if watcher as usize >= self.lasts.len() {
            return Err(Refusal::UnknownWatcher);
        }
        let (changed, seen) = self.find_changed(alloc, watcher)?;
        let name = self.push_child_for(alloc, caller, watcher, seen)?;
        Ok((name, changed))
    }

    fn read(
        &mut self,
        alloc: Global,
        caller: Caller,
        name: Name,
        object: ObjectNo,
    ) -> Result<Value, Refusal>
        ensures call { PlainCalls P.rules self.old self.new caller (Request.Read name object) (read_reply result) }
        ensures log { Logs None None caller (Request.Read name object) (read_reply result) }
        ensures refused { RefusesFreely P.rules (world_of self.old) caller (Request.Read name object)
            (read_reply result) }
        ensures flat { (w : World P) → w ≡ world_of self.old
            → is_flat (value_at (snapshot_of w name).view object) ≡ true → result ≢ Err Refusal.NoMemory }
    {
        if self.is_closed(name) {
            return Err(Refusal::Closed { name });
        }
        if self.is_foreign(caller, name) {
            return Err(Refusal::NotYours {
                owner: self.owner_of(name),
            });
        }
        if object as usize >= self.objects.len() {
            return Err(Refusal::UnknownObject);
        }
        Ok(self.value_in(name, object).copy(alloc)?)
    }

    fn write(
        &mut self,
        _alloc: Global,
        caller: Caller,
        name: Name,
        object: ObjectNo,
        value: Value,
    ) -> Result<bool, Refusal>
        ensures call { PlainCalls P.rules self.old self.new caller (Request.Write name object value)
            (write_reply result) }
        ensures log { Logs None None caller (Request.Write name object value) (write_reply result) }
        ensures refused { RefusesFreely P.rules (world_of self.old) caller (Request.Write name object value)
            (write_reply result) }
    {
        if let Some(refusal) = self.write_refusal(caller, name, object, &value) {
            return Err(refusal);
        }
        let kept = &self.objects[object as usize];
        if kept.policy.equivalent(self.value_in(name, object), &value) {
            return Ok(false);
        }
        let now = self.clock + 1;
        set_entry(
            &mut self.snapshots,
            name,
            object,
            StampedValue { value, stamp: now },
        )?;
        self.clock = now;
        Ok(true)
    }

    fn apply(&mut self, alloc: Global, caller: Caller, name: Name) -> Result<(), Refusal>
        ensures call { PlainCalls P.rules self.old self.new caller (Request.Apply name) (apply_reply result) }
        ensures log { Logs None None caller (Request.Apply name) (apply_reply result) }
        ensures refused { ApplyRefusesFreely P.rules P.is_free_merge (world_of self.old) caller name
            (apply_reply result) }
    {
        if let Some(refusal) = self.apply_refusal(caller, name) {
            return Err(refusal);
        }
        let (view, wrote) = self.settle(alloc, name)?;
        let parent = self.parent_of(name);
        set_settled(&mut self.snapshots, parent, view, wrote);
        set_status(&mut self.snapshots, name, SnapshotStatus::Applied);
        self.clock += 1;
        Ok(())
    }

    fn dispose(&mut self, caller: Caller, name: Name) -> Result<(), Refusal>
        ensures call { PlainCalls P.rules self.old self.new caller (Request.Dispose name) (dispose_reply result) }
        ensures log { Logs None None caller (Request.Dispose name) (dispose_reply result) }
        ensures own { (w : World P) → w ≡ world_of self.old → IsOwn w caller name → IsOk result }
        ensures free { result ≢ Err Refusal.NoMemory }
    {
        if name as usize >= self.snapshots.len() {
            return Err(Refusal::Closed { name });
        }
        if name == 0 {
            return Err(Refusal::Global);
        }
        if self.is_closed(name) {
            return Ok(());
        }
        if self.is_foreign(caller, name) {
            return Err(Refusal::NotYours {
                owner: self.owner_of(name),
            });
        }
        set_status(&mut self.snapshots, name, SnapshotStatus::Disposed);
        Ok(())
    }
}
