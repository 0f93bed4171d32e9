// What an apply and a dispose do to the records, and what changed for a watcher.
ghost use Rattle.std.specs.Prelude.{◌≡◌, ℕ, ◌≤◌, ◌<◌, true, false, ◌≢◌, ◌==◌, length, slice_get, slice_index_or, slice_set, ◌+◌, ◌++◌, drop, Some, [], IfOk, OnOk, if◌then◌else◌};
ghost use Rattle.rt_values.specs.Maps.{contains};
ghost use Rattle.rt_values.specs.declared.maps.StampedValue.{StampedValue};
ghost use Rattle.snap_records.specs.Edits.{Padded, blank, with_head_id, chain_without_ids};
ghost use Rattle.snap_records.specs.Chains.{chain_of};
ghost use Rattle.std.specs.Option.{unwrap_or};
ghost use Rattle.snap_laws.specs.TakesFor.{stamp_differs, differ_stamps};
ghost use Rattle.snap_world.specs.Choices.{EntriesAre, objects_of};
ghost use Rattle.snap_world.specs.Noting.{noted_of};
ghost use Rattle.snap_world.specs.Stamps.{AreSame};

use crate::notes::Notes;
use crate::settling::Settled;
use crate::stamp_list::StampList;
use rt_values::{Name, NoMemory, ObjectNo, Objects, StampedValue};
use snap_ids::IdSet;
use snap_records::Chains;
use std::alloc::Global;

// Returns whether the stamp of object `x` differs from the one in `before`, or `before` lacks it.
fn is_other(before: &[u64], x: usize, now: u64) -> bool
    ensures { result ≡ stamp_differs (slice_get before.now x) now }
{
    match before.get(x) {
        Some(stamp) => *stamp != now,
        None => true,
    }
}

// Returns whether the four stamps from index `i` on are the same in both lists. Compares all of them, without a branch.
#[inline]
fn are_four_same(before: &[u64], now: &[u64], i: usize) -> bool
    requires before { i + 4 ≤ length before.now }
    requires now { i + 4 ≤ length now.now }
    ensures { result ≡ true → AreSame before.now now.now i 4 }
{
    (before[i] == now[i])
        & (before[i + 1] == now[i + 1])
        & (before[i + 2] == now[i + 2])
        & (before[i + 3] == now[i + 3])
}

// Returns whether the sixteen stamps from index `i` on are the same in both lists.
#[inline]
fn are_same(before: &[u64], now: &[u64], i: usize) -> bool
    requires before { i + 16 ≤ length before.now }
    requires now { i + 16 ≤ length now.now }
    ensures { result ≡ true → AreSame before.now now.now i 16 }
{
    are_four_same(before, now, i)
        & are_four_same(before, now, i + 4)
        & are_four_same(before, now, i + 8)
        & are_four_same(before, now, i + 12)
}

// Returns the length of the shorter list.
fn shorter_len(before: &[u64], now: &[u64]) -> usize
    ensures before { result ≤ length before.now }
    ensures now { result ≤ length now.now }
{
    if before.len() < now.len() {
        return before.len();
    }
    now.len()
}

// Returns an index from `from` on before which no stamp differs. Compares sixteen stamps at a time.
fn skip_same(before: &[u64], now: &[u64], from: usize) -> usize
    requires { from ≤ length now.now }
    ensures within { result ≤ length now.now }
    ensures from { from ≤ result }
    ensures same { differ_stamps before.now result (drop result now.now)
        ≡ differ_stamps before.now from (drop from now.now) }
{
    let len = shorter_len(before, now);
    let mut i = from;
    while i < len && len - i >= 16 && are_same(before, now, i) {
        i += 16;
    }
    i
}

// Returns the index after sixteen more stamps, or the end of the list.
fn block_end(now: &[u64], from: usize) -> usize
    requires { from ≤ length now.now }
    ensures within { result ≤ length now.now }
    ensures from { from ≤ result }
    ensures more { from < length now.now → from < result }
{
    if now.len() - from < 16 {
        return now.len();
    }
    from + 16
}

// Appends the objects from `from` to before `end` whose stamps differ from those in `before`, or that `before` lacks.
fn add_differing(
    before: &[u64],
    now: &[u64],
    from: usize,
    end: usize,
    found: &mut Objects,
) -> Result<(), NoMemory>
    requires from { from ≤ end }
    requires end { end ≤ length now.now }
    ensures { OnOk result (found.new ++ differ_stamps before.now end (drop end now.now)
        ≡ found.old ++ differ_stamps before.now from (drop from now.now)) }
{
    let mut x = from;
    while x < end {
        if is_other(before, x, now[x]) {
            found.push(x as u64)?;
        }
        x += 1;
    }
    Ok(())
}

/// Returns the objects whose stamps differ from those in `before`, or that `before` lacks.
pub fn find_differing_stamps(
    alloc: Global,
    before: &[u64],
    now: &[u64],
) -> Result<Objects, NoMemory>
    ensures { IfOk result (λ o. o ≡ differ_stamps before.now 0 now.now) }
{
    let mut found = Objects::new(alloc);
    let mut x = 0;
    while x < now.len() {
        let from = skip_same(before, now, x);
        let end = block_end(now, from);
        add_differing(before, now, from, end, &mut found)?;
        x = end;
    }
    Ok(found)
}

/// Returns the objects whose stamps differ from a watcher's last stamps, or all if it has none.
pub fn find_changed_objects(
    alloc: Global,
    before: &Option<StampList>,
    now: &StampList,
) -> Result<Objects, NoMemory>
    ensures { IfOk result (λ o. o ≡ differ_stamps (unwrap_or before.now []) 0 now.now) }
{
    match before {
        Some(stamps) => find_differing_stamps(alloc, stamps.items(), now.items()),
        None => find_differing_stamps(alloc, &[], now.items()),
    }
}

// Puts a record with id 0 and this value before those of object `x`, if there is such an object.
fn pad_at(
    alloc: Global,
    chains: &mut Chains,
    x: ObjectNo,
    entry: &StampedValue,
) -> Result<(), NoMemory>
    ensures padded { (y : ℕ) → Padded (chain_of chains.old y) (chain_of chains.new y) }
    ensures head { OnOk result (x < length chains.old.heads.items
        → slice_get (chain_of chains.new x) 0 ≡ Some (blank entry.now)) }
    ensures others { (y : ℕ) → y ≢ x → chain_of chains.new y ≡ chain_of chains.old y }
    ensures many { length chains.new.heads.items ≡ length chains.old.heads.items }
{
    if x as usize >= chains.objects() {
        return Ok(());
    }
    let Ok(entry) = entry.copy(alloc) else {
        return Err(NoMemory);
    };
    let Ok(()) = chains.pad(x, entry) else {
        return Err(NoMemory);
    };
    Ok(())
}

/// Puts a record with id 0 and the settled value before those of each settled object.
pub fn pad_all(alloc: Global, chains: &mut Chains, settled: &[Settled]) -> Result<(), NoMemory>
    ensures padded { (x : ℕ) → Padded (chain_of chains.old x) (chain_of chains.new x) }
    ensures head { OnOk result ((f : ℕ → StampedValue) → EntriesAre f settled.now → (x : ℕ)
        → x < length chains.old.heads.items → contains x (objects_of settled.now) ≡ true
        → slice_get (chain_of chains.new x) 0 ≡ Some (blank (f x))) }
    ensures many { length chains.new.heads.items ≡ length chains.old.heads.items }
{
    for s in settled {
        let Ok(()) = pad_at(alloc, chains, s.object, &s.entry) else {
            return Err(NoMemory);
        };
    }
    Ok(())
}

// Gives the first record of object `x` an id, if `x` is below `count`.
fn raise_at(chains: &mut Chains, x: ObjectNo, count: usize, id: u64)
    requires within { count ≤ length chains.old.heads.items }
    requires some { x < count → 0 < length (chain_of chains.old x) }
    ensures put { x < count → chain_of chains.new x ≡ with_head_id id (chain_of chains.old x) }
    ensures past { count ≤ x → chain_of chains.new x ≡ chain_of chains.old x }
    ensures others { (y : ℕ) → y ≢ x → chain_of chains.new y ≡ chain_of chains.old y }
    ensures many { length chains.new.heads.items ≡ length chains.old.heads.items }
{
    if (x as usize) < count {
        chains.raise(x, id);
    }
}

// Gives the first record of each object in `noted` an id.
fn raise_all(chains: &mut Chains, noted: &Objects, count: usize, id: u64)
    requires within { count ≤ length chains.old.heads.items }
    requires some { (x : ℕ) → x < count → contains x noted.now ≡ true → 0 < length (chain_of chains.old x) }
    ensures put { (x : ℕ) → x < count → contains x noted.now ≡ true
        → chain_of chains.new x ≡ with_head_id id (chain_of chains.old x) }
    ensures left { (x : ℕ) → contains x noted.now ≡ false → chain_of chains.new x ≡ chain_of chains.old x }
    ensures many { length chains.new.heads.items ≡ length chains.old.heads.items }
{
    for x in noted.numbers() {
        raise_at(chains, *x, count, id);
    }
}

/// Gives the first record of each object that the snapshot wrote an id.
pub fn raise_noted(chains: &mut Chains, wrote: &Notes, name: Name, count: usize, id: u64)
    requires within { count ≤ length chains.old.heads.items }
    requires some { (x : ℕ) → x < count → contains x (noted_of wrote.now name) ≡ true
        → 0 < length (chain_of chains.old x) }
    ensures put { (x : ℕ) → x < count → contains x (noted_of wrote.now name) ≡ true
        → chain_of chains.new x ≡ with_head_id id (chain_of chains.old x) }
    ensures left { (x : ℕ) → contains x (noted_of wrote.now name) ≡ false
        → chain_of chains.new x ≡ chain_of chains.old x }
    ensures many { length chains.new.heads.items ≡ length chains.old.heads.items }
{
    if let Some(noted) = wrote.find(name) {
        raise_all(chains, noted, count, id);
    }
}

/// Gives object `x` a stamp in global's view, if the snapshot `name` is global.
pub fn stamp_object(stamps: &mut Vec<u64>, name: Name, x: ObjectNo, stamp: u64)
    requires { x < length stamps.old.items }
    ensures { stamps.new.items ≡ (if name == 0 then slice_set stamps.old.items x stamp else stamps.old.items) }
{
    if name == 0 {
        stamps[x as usize] = stamp;
    }
}

/// Gives the settled objects their stamps in global's view, if the parent `into` is global.
pub fn stamp_settled(stamps: &mut Vec<u64>, into: Name, settled: &[Settled])
    ensures put { into ≡ 0 → (f : ℕ → StampedValue) → EntriesAre f settled.now → (x : ℕ) → x < length stamps.old.items
        → contains x (objects_of settled.now) ≡ true → slice_index_or stamps.new.items x 0 ≡ (f x).stamp }
    ensures left { (x : ℕ) → contains x (objects_of settled.now) ≡ false
        → slice_index_or stamps.new.items x 0 ≡ slice_index_or stamps.old.items x 0 }
    ensures other { 0 < into → stamps.new.items ≡ stamps.old.items }
    ensures many { length stamps.new.items ≡ length stamps.old.items }
{
    if into == 0 {
        set_stamps(stamps, settled);
    }
}

// Replaces the stamp of object `x`, if there is such an object.
fn set_stamp(stamps: &mut Vec<u64>, x: ObjectNo, stamp: u64)
    ensures here { x < length stamps.old.items → slice_index_or stamps.new.items x 0 ≡ stamp }
    ensures others { (y : ℕ) → y ≢ x → slice_index_or stamps.new.items y 0 ≡ slice_index_or stamps.old.items y 0 }
    ensures many { length stamps.new.items ≡ length stamps.old.items }
{
    if (x as usize) < stamps.len() {
        stamps[x as usize] = stamp;
    }
}

// Replaces the stamps of the settled objects.
fn set_stamps(stamps: &mut Vec<u64>, settled: &[Settled])
    ensures put { (f : ℕ → StampedValue) → EntriesAre f settled.now → (x : ℕ) → x < length stamps.old.items
        → contains x (objects_of settled.now) ≡ true → slice_index_or stamps.new.items x 0 ≡ (f x).stamp }
    ensures left { (x : ℕ) → contains x (objects_of settled.now) ≡ false
        → slice_index_or stamps.new.items x 0 ≡ slice_index_or stamps.old.items x 0 }
    ensures many { length stamps.new.items ≡ length stamps.old.items }
{
    for s in settled {
        set_stamp(stamps, s.object, s.entry.stamp);
    }
}

// Gives id 0 to the records of object `x` with these ids, if `x` is below `count`.
fn clear_at(chains: &mut Chains, x: ObjectNo, count: usize, ids: &IdSet)
    requires { count ≤ length chains.old.heads.items }
    ensures put { x < count → chain_of chains.new x ≡ chain_without_ids ids.now (chain_of chains.old x) }
    ensures past { count ≤ x → chain_of chains.new x ≡ chain_of chains.old x }
    ensures others { (y : ℕ) → y ≢ x → chain_of chains.new y ≡ chain_of chains.old y }
    ensures many { length chains.new.heads.items ≡ length chains.old.heads.items }
{
    if (x as usize) < count {
        chains.clear(x, ids);
    }
}

// Gives id 0 to the records with these ids of each object in `noted`.
fn clear_all(chains: &mut Chains, noted: &Objects, count: usize, ids: &IdSet)
    requires { count ≤ length chains.old.heads.items }
    ensures put { (x : ℕ) → x < count → contains x noted.now ≡ true
        → chain_of chains.new x ≡ chain_without_ids ids.now (chain_of chains.old x) }
    ensures left { (x : ℕ) → contains x noted.now ≡ false → chain_of chains.new x ≡ chain_of chains.old x }
    ensures many { length chains.new.heads.items ≡ length chains.old.heads.items }
{
    for x in noted.numbers() {
        clear_at(chains, *x, count, ids);
    }
}

/// Gives id 0 to the records with these ids of each object that the snapshot wrote.
pub fn clear_noted(chains: &mut Chains, wrote: &Notes, name: Name, count: usize, ids: &IdSet)
    requires { count ≤ length chains.old.heads.items }
    ensures put { (x : ℕ) → x < count → contains x (noted_of wrote.now name) ≡ true
        → chain_of chains.new x ≡ chain_without_ids ids.now (chain_of chains.old x) }
    ensures left { (x : ℕ) → contains x (noted_of wrote.now name) ≡ false
        → chain_of chains.new x ≡ chain_of chains.old x }
    ensures many { length chains.new.heads.items ≡ length chains.old.heads.items }
{
    if let Some(noted) = wrote.find(name) {
        clear_all(chains, noted, count, ids);
    }
}
