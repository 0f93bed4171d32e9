// The records of an object that a write must keep, by a search in the sorted ids of its chain.
//
// A snapshot's base sees what its parent's base sees, and the parent's own ids that are valid for the snapshot. So the
// snapshots are searched in the order of their names, parents first, and a child needs only a search in the own ids of
// its parent.
ghost use Rattle.std.specs.Prelude.{◌≡◌, ◌≢◌, ℕ, suc, true, false, ◌+◌, ◌*◌, ◌<◌, ◌≤◌, ◌⊎◌, if◌then◌else◌, length, slice_index_or, List, IfOk, IfSome, OnOk};
ghost use Rattle.rt_values.specs.Maps.{contains};
ghost use Rattle.snap_ids.specs.IdLists.{IsRising, with_id};
ghost use Rattle.snap_records.specs.Chains.{chain_of};
ghost use Rattle.snap_records.specs.Edits.{is_valid_except};
ghost use Rattle.snap_records.specs.Records.{Rec};
ghost use Rattle.snap_nested.specs.Ids.{valid_for_base};
ghost use Rattle.snap_nested.specs.Members.{ids_of, member};
ghost use Rattle.snap_reuse.specs.Readers.{IsReadWithin};
ghost use Rattle.snap_laws.specs.Coverage.{AreReadWithin, AreLiveNames, IsNeeded, live_count};
ghost use Rattle.snap_world.specs.Sorted.{AreIdsOf, AreOwned, AreRecordsOwned, AreOwnIn, IsLastSeen, IsHighest, IsSearched, AreSearched, IsFound};

use rt_values::{Name, NoMemory, ObjectNo};
use snap_ids::{IdList, IdSet};
use snap_nested::Family;
use snap_records::{Chains, KeptIds};
use std::alloc::Global;

// What the search finds for a snapshot among the ids of the chain: the snapshot's own ids, and the highest id that is
// valid for its base, or 0.
#[derive(Drop)]
pub struct Searched {
    pub own: IdList,
    pub base: u64,
}

/// Puts into `ids` the ids of the records of object `x` that a write in the snapshot `name` must keep, and no others:
/// the current id of `name`, the ids of the records that the other live snapshots read, and of those that all but
/// global read for their bases. Sorts the ids of the chain once. After `NoMemory` the list may have some of them.
pub fn find_searched_ids(
    alloc: Global,
    family: &Family,
    chains: &Chains,
    x: ObjectNo,
    name: Name,
    ids: &mut KeptIds,
) -> Result<(), NoMemory>
    requires live { (member family.now.members name).is_live ≡ true }
    requires there { x < length chains.now.heads.items }
    ensures own { OnOk result (contains (member family.now.members name).id ids.new ≡ true) }
    ensures read { OnOk result (AreRecordsOwned (ids_of family.now.members) (chain_of chains.now x)
        → AreReadWithin (ids_of family.now.members) name (chain_of chains.now x) ids.new) }
    ensures needed { OnOk result (AreRecordsOwned (ids_of family.now.members) (chain_of chains.now x)
        → (i : ℕ) → contains i ids.new ≡ true
        → IsNeeded (ids_of family.now.members) name (chain_of chains.now x) i) }
    ensures few { OnOk result (length ids.new
        ≤ 2 * live_count (ids_of family.now.members).live family.now.held + 1) }
    ensures names { OnOk result (AreLiveNames (ids_of family.now.members) family.now.held) }
{
    let order = sorted_ids(alloc, chains, x)?;
    find_ids_in(alloc, family, &order, name, ids)?;
    Ok(())
}

// Puts into `ids` what `find_searched_ids` does, for a chain with the ids `order`.
fn find_ids_in(
    alloc: Global,
    family: &Family,
    order: &IdList,
    name: Name,
    ids: &mut KeptIds,
) -> Result<(), NoMemory>
    requires { (member family.now.members name).is_live ≡ true }
    ensures own { OnOk result (contains (member family.now.members name).id ids.new ≡ true) }
    ensures read { OnOk result ((c : List Rec) → AreIdsOf c order.now
        → AreRecordsOwned (ids_of family.now.members) c
        → AreReadWithin (ids_of family.now.members) name c ids.new) }
    ensures needed { OnOk result ((c : List Rec) → AreIdsOf c order.now
        → AreRecordsOwned (ids_of family.now.members) c → (i : ℕ) → contains i ids.new ≡ true
        → IsNeeded (ids_of family.now.members) name c i) }
    ensures few { OnOk result (length ids.new
        ≤ 2 * live_count (ids_of family.now.members).live family.now.held + 1) }
    ensures names { OnOk result (AreLiveNames (ids_of family.now.members) family.now.held) }
{
    let mut found = Vec::new(alloc);
    ids.set_only(family.id(name))?;
    for reader in family.open_names() {
        let next = search(alloc, family, order, &found, *reader)?;
        add_read_ids(family, &next, name, *reader, ids)?;
        found.push(next)?;
    }
    Ok(())
}

// Returns 0 and the ids of the records of object `x` in increasing order. Adds the last record of the chain first: it
// is an early one, so most ids come to the end of the list.
fn sorted_ids(alloc: Global, chains: &Chains, x: ObjectNo) -> Result<IdList, NoMemory>
    requires { x < length chains.now.heads.items }
    ensures { IfOk result (λ order. AreIdsOf (chain_of chains.now x) order) }
{
    let mut order = IdList::of(alloc, 0)?;
    let mut i = chains.count(x);
    while i > 0 {
        i -= 1;
        order.set(chains.id_at(x, i))?;
    }
    Ok(order)
}

// Adds `id` to `own` if `order` contains it.
fn add_common(order: &IdList, id: u64, own: &mut IdList) -> Result<(), NoMemory>
    ensures { OnOk result (own.new ≡ (if contains id order.now then with_id id own.old else own.old)) }
{
    if order.has(id) {
        own.set(id)?;
    }
    Ok(())
}

// Returns the ids of `order` that `own` contains. Goes over `own`, of which most snapshots have few.
fn common_ids(alloc: Global, order: &IdList, own: &IdSet) -> Result<IdList, NoMemory>
    ensures { IfOk result (λ ids. AreOwnIn (λ i. contains i own.now) order.now ids) }
{
    let mut ids = IdList::new(alloc);
    let mut next = own.first();
    while let Some(id) = next {
        add_common(order, id, &mut ids)?;
        next = own.next_above(id);
    }
    Ok(ids)
}

// Adds `id` to `ids` if `own` contains it.
fn add_if_own(own: &IdSet, id: u64, ids: &mut IdList) -> Result<(), NoMemory>
    ensures { OnOk result (ids.new ≡ (if contains id own.now then with_id id ids.old else ids.old)) }
{
    if own.get(id) {
        ids.set(id)?;
    }
    Ok(())
}

// Returns the ids of `order` that `own` contains. Goes over `order`: global has many own ids without records.
fn global_ids(alloc: Global, order: &IdList, own: &IdSet) -> Result<IdList, NoMemory>
    ensures { IfOk result (λ ids. AreOwnIn (λ i. contains i own.now) order.now ids) }
{
    let mut ids = IdList::new(alloc);
    for id in order.ids() {
        add_if_own(own, *id, &mut ids)?;
    }
    Ok(ids)
}

// Returns the ids of `order` that a live snapshot owns.
fn own_ids(alloc: Global, family: &Family, order: &IdList, reader: Name) -> Result<IdList, NoMemory>
    requires { (member family.now.members reader).is_live ≡ true }
    ensures { IfOk result (λ ids. AreOwnIn ((ids_of family.now.members).owns reader) order.now ids) }
{
    if reader == 0 {
        return global_ids(alloc, order, family.ids(reader));
    }
    common_ids(alloc, order, family.ids(reader))
}

// Returns a number of ids of `ids` after which all are greater than `id`.
fn count_to(ids: &[u64], id: u64) -> usize
    requires { IsRising ids.now }
    ensures within { result ≤ length ids.now }
    ensures above { (j : ℕ) → result ≤ j → j < length ids.now → id < slice_index_or ids.now j 0 }
{
    let mut low = 0;
    let mut high = ids.len();
    while low < high {
        let middle = low + (high - low) / 2;
        if ids[middle] <= id {
            low = middle + 1;
        } else {
            high = middle;
        }
    }
    high
}

// Returns whether `at` is not 0 and the last of the first `at` ids is not valid for the base of a snapshot with these own
// ids, this current id and these invalid ids.
fn is_hidden(ids: &[u64], at: usize, own: &IdSet, id: u64, invalid: &IdSet) -> bool
    requires { at ≤ length ids.now }
    ensures some { result ≡ true → 0 < at }
    ensures hidden { result ≡ true → (k : ℕ) → suc k ≡ at
        → is_valid_except own.now id invalid.now (slice_index_or ids.now k 0) ≡ false }
    ensures seen { result ≡ false → (k : ℕ) → suc k ≡ at
        → is_valid_except own.now id invalid.now (slice_index_or ids.now k 0) ≡ true }
{
    if at == 0 {
        return false;
    }
    let last = ids[at - 1];
    !(0 < last && last <= id && !invalid.get(last) && !own.get(last))
}

// Returns how many ids there are up to the last one that is valid for the base of a snapshot with these own ids, this
// current id and these invalid ids.
fn last_seen(ids: &[u64], own: &IdSet, id: u64, invalid: &IdSet) -> usize
    requires { IsRising ids.now }
    ensures { IsLastSeen (is_valid_except own.now id invalid.now) ids.now result }
{
    let mut at = count_to(ids, id);
    while is_hidden(ids, at, own, id, invalid) {
        at -= 1;
    }
    at
}

// Returns the highest of the ids that is valid for the base of a snapshot with these own ids, this current id and these
// invalid ids, or 0.
fn highest_seen(ids: &[u64], own: &IdSet, id: u64, invalid: &IdSet) -> u64
    requires { IsRising ids.now }
    ensures { IsHighest (is_valid_except own.now id invalid.now) ids.now result }
{
    let at = last_seen(ids, own, id, invalid);
    if at == 0 {
        return 0;
    }
    ids[at - 1]
}

// Returns the highest of the ids that is valid for the base of a live snapshot, or 0.
fn highest_for_base(family: &Family, ids: &[u64], reader: Name) -> u64
    requires live { (member family.now.members reader).is_live ≡ true }
    requires rising { IsRising ids.now }
    ensures { IsHighest (valid_for_base (ids_of family.now.members) reader) ids.now result }
{
    highest_seen(
        ids,
        family.ids(reader),
        family.id(reader),
        family.invalid(reader),
    )
}

// Returns the last of the ids, or 0.
fn last_id(ids: &[u64]) -> u64
    requires { IsRising ids.now }
    ensures { IsHighest (λ i. true) ids.now result }
{
    if ids.is_empty() {
        return 0;
    }
    ids[ids.len() - 1]
}

// Returns the higher of two ids.
fn higher(a: u64, b: u64) -> u64
    ensures first { a ≤ result }
    ensures second { b ≤ result }
    ensures one { (result ≡ a) ⊎ (result ≡ b) }
{
    if a < b { b } else { a }
}

// Returns the index of the parent of a live snapshot among the first `searched` open names, if the parent is live.
fn parent_index(family: &Family, reader: Name, searched: usize) -> Option<usize>
    ensures within { IfSome result (λ at. at < searched) }
    ensures parent { IfSome result (λ at. slice_index_or family.now.held at 0
        ≡ (member family.now.members reader).parent) }
    ensures live { IfSome result (λ at. (ids_of family.now.members).live
        (member family.now.members reader).parent ≡ true) }
    ensures inner { IfSome result (λ at. 0 < reader) }
{
    let parent = family.parent(reader);
    if reader == 0 || !family.live(parent) {
        return None;
    }
    let names = family.open_names();
    let at = count_to(names, parent);
    if at == 0 || searched < at || names[at - 1] != parent {
        return None;
    }
    Some(at - 1)
}

// Returns the highest id of `order` that is valid for the base of a live snapshot, or 0.
fn find_base(family: &Family, order: &IdList, found: &[Searched], reader: Name) -> u64
    requires live { (member family.now.members reader).is_live ≡ true }
    requires found { AreSearched (ids_of family.now.members) order.now family.now.held found.now }
    ensures { AreOwned (ids_of family.now.members) order.now
        → IsHighest (valid_for_base (ids_of family.now.members) reader) order.now result }
{
    let Some(at) = parent_index(family, reader, found.len()) else {
        return highest_for_base(family, order.ids(), reader);
    };
    let parent = &found[at];
    let own = highest_for_base(family, parent.own.ids(), reader);
    higher(own, parent.base)
}

// Returns what the search finds for a live snapshot, given what it found for the open names before.
fn search_live(
    alloc: Global,
    family: &Family,
    order: &IdList,
    found: &[Searched],
    reader: Name,
) -> Result<Searched, NoMemory>
    requires live { (member family.now.members reader).is_live ≡ true }
    requires found { AreSearched (ids_of family.now.members) order.now family.now.held found.now }
    ensures { IfOk result (λ s. IsSearched (ids_of family.now.members) order.now reader s) }
{
    let own = own_ids(alloc, family, order, reader)?;
    let base = find_base(family, order, found, reader);
    Ok(Searched { own, base })
}

// Returns what the search finds for an open name, given what it found for the open names before. Finds nothing for a
// closed snapshot.
fn search(
    alloc: Global,
    family: &Family,
    order: &IdList,
    found: &[Searched],
    reader: Name,
) -> Result<Searched, NoMemory>
    requires { AreSearched (ids_of family.now.members) order.now family.now.held found.now }
    ensures { IfOk result (λ s. (ids_of family.now.members).live reader ≡ true
        → IsSearched (ids_of family.now.members) order.now reader s) }
{
    if !family.live(reader) {
        return Ok(Searched {
            own: IdList::new(alloc),
            base: 0,
        });
    }
    search_live(alloc, family, order, found, reader)
}

// Adds the ids of the records that the snapshot `reader` reads, if it is live: for its view, unless it is `name`, and
// for its base, unless it is global.
fn add_read_ids(
    family: &Family,
    found: &Searched,
    name: Name,
    reader: Name,
    ids: &mut KeptIds,
) -> Result<(), NoMemory>
    ensures more { OnOk result ((i : ℕ) → contains i ids.old ≡ true → contains i ids.new ≡ true) }
    ensures view { OnOk result ((c : List Rec) → IsFound (ids_of family.now.members) c reader found.now
        → (ids_of family.now.members).live reader ≡ true → reader ≢ name
        → IsReadWithin ((ids_of family.now.members).sees reader) c ids.new) }
    ensures base { OnOk result ((c : List Rec) → IsFound (ids_of family.now.members) c reader found.now
        → (ids_of family.now.members).live reader ≡ true → 0 < reader
        → IsReadWithin (valid_for_base (ids_of family.now.members) reader) c ids.new) }
    ensures needed { OnOk result ((c : List Rec) → ((ids_of family.now.members).live reader ≡ true
        → IsFound (ids_of family.now.members) c reader found.now) → (i : ℕ) → contains i ids.new ≡ true
        → (contains i ids.old ≡ true) ⊎ IsNeeded (ids_of family.now.members) name c i) }
    ensures few { OnOk result (length ids.new
        ≤ length ids.old + (if (ids_of family.now.members).live reader then 2 else 0)) }
{
    if !family.live(reader) {
        return Ok(());
    }
    add_live_ids(family, found, name, reader, ids)?;
    Ok(())
}

// Adds the ids of the records that a live snapshot reads: for its view, unless it is `name`, and for its base, unless
// it is global.
fn add_live_ids(
    family: &Family,
    found: &Searched,
    name: Name,
    reader: Name,
    ids: &mut KeptIds,
) -> Result<(), NoMemory>
    requires live { (member family.now.members reader).is_live ≡ true }
    ensures more { OnOk result ((i : ℕ) → contains i ids.old ≡ true → contains i ids.new ≡ true) }
    ensures view { OnOk result ((c : List Rec) → IsFound (ids_of family.now.members) c reader found.now
        → reader ≢ name → IsReadWithin ((ids_of family.now.members).sees reader) c ids.new) }
    ensures base { OnOk result ((c : List Rec) → IsFound (ids_of family.now.members) c reader found.now
        → 0 < reader → IsReadWithin (valid_for_base (ids_of family.now.members) reader) c ids.new) }
    ensures needed { OnOk result ((c : List Rec) → IsFound (ids_of family.now.members) c reader found.now
        → (i : ℕ) → contains i ids.new ≡ true
        → (contains i ids.old ≡ true) ⊎ IsNeeded (ids_of family.now.members) name c i) }
    ensures few { OnOk result (length ids.new ≤ length ids.old + 2) }
{
    let view = higher(last_id(found.own.ids()), found.base);
    add_unless(reader == name, view, ids)?;
    add_unless(reader == 0, found.base, ids)?;
    Ok(())
}

// Adds `id`, unless `skip` is true or `id` is 0.
fn add_unless(skip: bool, id: u64, ids: &mut KeptIds) -> Result<(), NoMemory>
    ensures more { OnOk result ((i : ℕ) → contains i ids.old ≡ true → contains i ids.new ≡ true) }
    ensures added { OnOk result (skip ≡ false → 0 < id → contains id ids.new ≡ true) }
    ensures only { OnOk result ((i : ℕ) → contains i ids.new ≡ true → (contains i ids.old ≡ true)
        ⊎ ((skip ≡ false) × (0 < id) × (i ≡ id))) }
    ensures few { OnOk result (length ids.new ≤ length ids.old + 1) }
{
    if skip || id == 0 {
        return Ok(());
    }
    ids.add(id)?;
    Ok(())
}
