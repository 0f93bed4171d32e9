// Applies of snapshots: which objects conflict, and what the parent gets.
ghost use Rattle.std.specs.Prelude.{◌≡◌, ℕ, ◌<◌, ◌^◌, true, [], length, slice_index_or, IfOk, IfSome, IfNone, OnOk, OnErr};
ghost use Rattle.snap_nested.specs.Members.{member};
ghost use Rattle.snap_world.specs.Noting.{noted_of};

use crate::RecordWorld;
use crate::moving::{pad_all, raise_noted, stamp_settled};
use crate::noting::{add_list, note_settled, noted, set_noted};
use crate::settling::{ReadRecords, Settled, lesser, settled_of};
use rt_values::{Name, NoMemory, ObjectNo};
use snap_api::{Choice, choose, is_conflict};
use snap_policy::Policy;
use std::alloc::Global;

impl<P: Policy> RecordWorld<P> {
    ghost use Rattle.std.specs.Prelude.{IsOk};
    ghost use Rattle.snap_api.specs.World.{World};
    ghost use Rattle.snap_laws.specs.Applies.{choice_at, HasNoClash, Pads, Merges};
    ghost use Rattle.snap_laws.specs.FreeRefusals.{IsMergeFree};
    ghost use Rattle.snap_laws.specs.Represents.{Represents};
    ghost use Rattle.snap_api.specs.Choices.{is_clash};
    ghost use Rattle.snap_world.specs.Choices.{objects_of, IsLeast};
    ghost use Rattle.snap_world.specs.Holding.{world_parts, AreRead, AreSettled};

    // Returns the records of an object that a snapshot reads for its base, that its parent reads, and that the snapshot
    // reads. There are such records in every represented world.
    fn find_read(&self, name: Name, into: Name, object: ObjectNo) -> Option<ReadRecords>
        requires live { (member self.now.family.members name).is_live ≡ true }
        requires above { (member self.now.family.members into).is_live ≡ true }
        requires there { object < length self.now.objects.items }
        ensures is { IfSome result (AreRead self.now name into object) }
        ensures none { IfNone result ((w : World P) → Represents (world_parts self.now) w → 0 < name → ⊥) }
    {
        let member = self.family.member(name);
        let both = self
            .chains
            .readable_both(object, member.id, &member.invalid, &member.ids);
        let Some(previous) = both.1 else {
            return None;
        };
        let above = self.family.member(into);
        let Some(current) = self.chains.readable(object, above.id, &above.invalid) else {
            return None;
        };
        let Some(applied) = both.0 else {
            return None;
        };
        Some(ReadRecords {
            previous,
            current,
            applied,
        })
    }

    // Returns whether the changes of an object conflict.
    fn is_clash(
        &self,
        alloc: Global,
        name: Name,
        into: Name,
        object: ObjectNo,
    ) -> Result<bool, NoMemory>
        requires live { (member self.now.family.members name).is_live ≡ true }
        requires above { (member self.now.family.members into).is_live ≡ true }
        requires there { object < length self.now.objects.items }
        ensures is { IfOk result (λ found. found ≡ is_clash (choice_at P.rules (world_parts self.now) name into object)) }
        ensures free { (w : World P) → Represents (world_parts self.now) w → 0 < name
            → IsMergeFree P.is_free_merge w name into object → IsOk result }
    {
        let Some(read) = self.find_read(name, into, object) else {
            return Err(NoMemory);
        };
        is_conflict(
            alloc,
            &self.objects[object as usize].policy,
            self.chains.entry(read.previous),
            self.chains.entry(read.current),
            self.chains.entry(read.applied),
        )
    }

    // Decides the verdict on an object that a snapshot wrote.
    fn choose(
        &self,
        alloc: Global,
        name: Name,
        into: Name,
        object: ObjectNo,
    ) -> Result<Choice, NoMemory>
        requires live { (member self.now.family.members name).is_live ≡ true }
        requires above { (member self.now.family.members into).is_live ≡ true }
        requires there { object < length self.now.objects.items }
        ensures { IfOk result (λ choice. choice ≡ choice_at P.rules (world_parts self.now) name into object) }
    {
        let Some(read) = self.find_read(name, into, object) else {
            return Err(NoMemory);
        };
        choose(
            alloc,
            &self.objects[object as usize].policy,
            self.chains.entry(read.previous),
            self.chains.entry(read.current),
            self.chains.entry(read.applied),
            self.clock + 1,
        )
    }

    // Finds the least object that a snapshot wrote and that conflicts. Every such object is known in a represented
    // world.
    pub(crate) fn find_conflict(
        &self,
        alloc: Global,
        name: Name,
        into: Name,
    ) -> Result<Option<ObjectNo>, NoMemory>
        requires live { (member self.now.family.members name).is_live ≡ true }
        requires above { (member self.now.family.members into).is_live ≡ true }
        ensures is { IfOk result (IsLeast (λ x. is_clash (choice_at P.rules (world_parts self.now) name into x))
            (noted_of self.now.wrote name)) }
        ensures free { (w : World P) → Represents (world_parts self.now) w → 0 < name
            → ((x : ℕ) → (world_parts self.now).noted name x ≡ true → IsMergeFree P.is_free_merge w name into x)
            → IsOk result }
    {
        let mut least = None;
        for x in noted(&self.wrote, name) {
            if *x as usize >= self.objects.len() {
                return Err(NoMemory);
            }
            let Ok(found) = self.is_clash(alloc, name, into, *x) else {
                return Err(NoMemory);
            };
            least = lesser(found, *x, least);
        }
        Ok(least)
    }

    // Settles the objects that a snapshot wrote. Returns `None` if one of them conflicts, or if the process is out of
    // memory. Every such object is known in a represented world.
    pub(crate) fn settle(&self, alloc: Global, name: Name, into: Name) -> Option<Vec<Settled>>
        requires live { (member self.now.family.members name).is_live ≡ true }
        requires above { (member self.now.family.members into).is_live ≡ true }
        ensures objects { IfSome result (λ settled. objects_of settled.items
            ≡ noted_of self.now.wrote name) }
        ensures each { IfSome result (λ settled. AreSettled P.rules (world_parts self.now) name into settled.items) }
    {
        let mut settled = Vec::new(alloc);
        for x in noted(&self.wrote, name) {
            if *x as usize >= self.objects.len() {
                return None;
            }
            let Ok(choice) = self.choose(alloc, name, into, *x) else {
                return None;
            };
            let Some(one) = settled_of(*x, choice) else {
                return None;
            };
            let Ok(()) = settled.push(one) else {
                return None;
            };
        }
        Some(settled)
    }

    // Puts the settled values into the parent.
    pub(crate) fn put_settled(
        &mut self,
        alloc: Global,
        name: Name,
        into: Name,
        settled: &[Settled],
    ) -> Result<(), NoMemory>
        requires live { (member self.old.family.members name).is_live ≡ true }
        requires inner { 0 < name }
        requires parent { (member self.old.family.members name).parent ≡ into }
        requires above { (member self.old.family.members into).is_live ≡ true }
        requires room { self.old.clock < 2 ^ 60 }
        requires objects { objects_of settled.now ≡ noted_of self.old.wrote name }
        requires each { AreSettled P.rules (world_parts self.old) name into settled.now }
        ensures ok { OnOk result (Merges (world_parts self.old) (world_parts self.new) name into
            (choice_at P.rules (world_parts self.old) name into)) }
        ensures err { OnErr result (Pads (world_parts self.old) (world_parts self.new)) }
    {
        let Ok(more) = note_settled(alloc, &self.wrote, into, settled) else {
            return Err(NoMemory);
        };
        let Ok(()) = add_list(alloc, &mut self.wrote, into) else {
            return Err(NoMemory);
        };
        let Ok(()) = pad_all(alloc, &mut self.chains, settled) else {
            return Err(NoMemory);
        };
        let Ok(()) = self.family.close_applied(alloc, name, into) else {
            return Err(NoMemory);
        };
        let id = self.family.handed();
        raise_noted(&mut self.chains, &self.wrote, name, self.objects.len(), id);
        stamp_settled(&mut self.stamps, into, settled);
        set_noted(&mut self.wrote, into, more);
        self.wrote.remove(name);
        self.clock += 1;
        Ok(())
    }
}
