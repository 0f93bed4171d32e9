// The records of an object that a write must keep.
ghost use Rattle.std.specs.Prelude.{◌≡◌, ◌≢◌, ℕ, Bool, true, ◌+◌, ◌*◌, ◌<◌, ◌≤◌, ◌⊎◌, if◌then◌else◌, length, OnOk, IfSome, IsSome};
ghost use Rattle.std.specs.Option.{option_map};
ghost use Rattle.slab.specs.Slab.{get};
ghost use Rattle.rt_values.specs.Maps.{contains};
ghost use Rattle.snap_records.specs.Chains.{record_at, chain_of};
ghost use Rattle.snap_nested.specs.Ids.{valid_for_base};
ghost use Rattle.snap_nested.specs.Members.{ids_of, member};
ghost use Rattle.snap_reuse.specs.Readers.{has_id, IsReadWithin};
ghost use Rattle.snap_laws.specs.Coverage.{AreReadWithin, AreLiveNames, IsNeeded, live_count};
ghost use Rattle.snap_world.specs.Sorted.{AreRecordsOwned};

use crate::searched_ids::find_searched_ids;
use rt_values::{Name, NoMemory, ObjectNo};
use snap_nested::{Family, Member};
use snap_records::{Chains, KeptIds, RecordNo};
use std::alloc::Global;

// The records of a chain that each reader goes over. The ids of a longer chain are sorted first.
const WALKED: usize = 16;

/// Puts into `ids` the ids of the records of object `x` that a write in the snapshot `name` must keep, and no others:
/// the current id of `name`, the ids of the records that the other live snapshots read, and of those that all but
/// global read for their bases. After `NoMemory` the list may have some of them.
pub fn find_kept_ids(
    alloc: Global,
    family: &Family,
    chains: &Chains,
    x: ObjectNo,
    name: Name,
    ids: &mut KeptIds,
) -> Result<(), NoMemory>
    requires live { (member family.now.members name).is_live ≡ true }
    requires there { x < length chains.now.heads.items }
    ensures own { OnOk result (contains (member family.now.members name).id ids.new ≡ true) }
    ensures read { OnOk result (AreRecordsOwned (ids_of family.now.members) (chain_of chains.now x)
        → AreReadWithin (ids_of family.now.members) name (chain_of chains.now x) ids.new) }
    ensures needed { OnOk result (AreRecordsOwned (ids_of family.now.members) (chain_of chains.now x)
        → (i : ℕ) → contains i ids.new ≡ true
        → IsNeeded (ids_of family.now.members) name (chain_of chains.now x) i) }
    ensures few { OnOk result (length ids.new
        ≤ 2 * live_count (ids_of family.now.members).live family.now.held + 1) }
    ensures names { OnOk result (AreLiveNames (ids_of family.now.members) family.now.held) }
{
    if chains.count(x) <= WALKED {
        return find_walked_ids(family, chains, x, name, ids);
    }
    find_searched_ids(alloc, family, chains, x, name, ids)
}

// Puts the ids of the records that a write must keep into `ids`. Each reader goes over the chain.
fn find_walked_ids(
    family: &Family,
    chains: &Chains,
    x: ObjectNo,
    name: Name,
    ids: &mut KeptIds,
) -> Result<(), NoMemory>
    requires live { (member family.now.members name).is_live ≡ true }
    requires there { x < length chains.now.heads.items }
    ensures own { OnOk result (contains (member family.now.members name).id ids.new ≡ true) }
    ensures read { OnOk result (AreReadWithin (ids_of family.now.members) name
        (chain_of chains.now x) ids.new) }
    ensures needed { OnOk result ((i : ℕ) → contains i ids.new ≡ true
        → IsNeeded (ids_of family.now.members) name (chain_of chains.now x) i) }
    ensures few { OnOk result (length ids.new
        ≤ 2 * live_count (ids_of family.now.members).live family.now.held + 1) }
    ensures names { OnOk result (AreLiveNames (ids_of family.now.members) family.now.held) }
{
    ids.set_only(family.id(name))?;
    let readers = family.open_names();
    for index in 0..readers.len() {
        add_read_ids(family, chains, x, name, index, readers[index], ids)?;
    }
    Ok(())
}

// Adds the ids of the records of object `x` that the snapshot `reader` reads, if it is live: for its view, unless it is
// `name`, and for its base. The snapshot is looked for at `index` first.
fn add_read_ids(
    family: &Family,
    chains: &Chains,
    x: ObjectNo,
    name: Name,
    index: usize,
    reader: Name,
    ids: &mut KeptIds,
) -> Result<(), NoMemory>
    requires { x < length chains.now.heads.items }
    ensures more { (i : ℕ) → contains i ids.old ≡ true → contains i ids.new ≡ true }
    ensures view { OnOk result ((ids_of family.now.members).live reader ≡ true → reader ≢ name
        → IsReadWithin ((ids_of family.now.members).sees reader) (chain_of chains.now x) ids.new) }
    ensures base { OnOk result ((ids_of family.now.members).live reader ≡ true → 0 < reader
        → IsReadWithin (valid_for_base (ids_of family.now.members) reader) (chain_of chains.now x) ids.new) }
    ensures needed { OnOk result ((i : ℕ) → contains i ids.new ≡ true → (contains i ids.old ≡ true)
        ⊎ IsNeeded (ids_of family.now.members) name (chain_of chains.now x) i) }
    ensures few { OnOk result (length ids.new
        ≤ length ids.old + (if (ids_of family.now.members).live reader then 2 else 0)) }
{
    let Some(opened) = family.find_live_near(index, reader) else {
        return Ok(());
    };
    if reader == 0 || reader == name {
        return add_one_id(family, chains, x, name, reader, opened, ids);
    }
    add_both_ids(family, chains, x, reader, opened, ids)
}

// Adds the ids of the records of object `x` that a live snapshot reads for its view and for its base. The snapshot is
// not global, and `opened` is its member.
fn add_both_ids(
    family: &Family,
    chains: &Chains,
    x: ObjectNo,
    reader: Name,
    opened: &Member,
    ids: &mut KeptIds,
) -> Result<(), NoMemory>
    requires is { opened.now ≡ member family.now.members reader }
    requires live { (member family.now.members reader).is_live ≡ true }
    requires inner { 0 < reader }
    requires there { x < length chains.now.heads.items }
    ensures more { (i : ℕ) → contains i ids.old ≡ true → contains i ids.new ≡ true }
    ensures view { OnOk result
        (IsReadWithin ((ids_of family.now.members).sees reader) (chain_of chains.now x) ids.new) }
    ensures base { OnOk result
        (IsReadWithin (valid_for_base (ids_of family.now.members) reader) (chain_of chains.now x) ids.new) }
    ensures needed { OnOk result ((name i : ℕ) → reader ≢ name → contains i ids.new ≡ true
        → (contains i ids.old ≡ true) ⊎ IsNeeded (ids_of family.now.members) name (chain_of chains.now x) i) }
    ensures few { OnOk result (length ids.new ≤ length ids.old + 2) }
{
    let read = chains.readable_both(x, opened.id, &opened.invalid, &opened.ids);
    add_record_id(chains, read.0, ids)?;
    add_record_id(chains, read.1, ids)
}

// Adds the ids of the records of object `x` that a live snapshot reads: for its view, unless it is `name`, and for its
// base, unless it is global. `opened` is the member of the snapshot.
fn add_one_id(
    family: &Family,
    chains: &Chains,
    x: ObjectNo,
    name: Name,
    reader: Name,
    opened: &Member,
    ids: &mut KeptIds,
) -> Result<(), NoMemory>
    requires is { opened.now ≡ member family.now.members reader }
    requires live { (member family.now.members reader).is_live ≡ true }
    requires there { x < length chains.now.heads.items }
    ensures more { (i : ℕ) → contains i ids.old ≡ true → contains i ids.new ≡ true }
    ensures view { OnOk result (reader ≢ name
        → IsReadWithin ((ids_of family.now.members).sees reader) (chain_of chains.now x) ids.new) }
    ensures base { OnOk result (0 < reader
        → IsReadWithin (valid_for_base (ids_of family.now.members) reader) (chain_of chains.now x) ids.new) }
    ensures needed { OnOk result ((i : ℕ) → contains i ids.new ≡ true → (contains i ids.old ≡ true)
        ⊎ IsNeeded (ids_of family.now.members) name (chain_of chains.now x) i) }
    ensures few { OnOk result (length ids.new ≤ length ids.old + 2) }
{
    add_view_id(family, chains, x, name, reader, opened, ids)?;
    add_base_id(family, chains, x, reader, opened, ids)?;
    Ok(())
}

// Adds the id of the record of object `x` that a live snapshot reads, unless the snapshot is `name`. `opened` is the
// member of the snapshot.
fn add_view_id(
    family: &Family,
    chains: &Chains,
    x: ObjectNo,
    name: Name,
    reader: Name,
    opened: &Member,
    ids: &mut KeptIds,
) -> Result<(), NoMemory>
    requires is { opened.now ≡ member family.now.members reader }
    requires live { (member family.now.members reader).is_live ≡ true }
    requires there { x < length chains.now.heads.items }
    ensures more { (i : ℕ) → contains i ids.old ≡ true → contains i ids.new ≡ true }
    ensures view { OnOk result (reader ≢ name
        → IsReadWithin ((ids_of family.now.members).sees reader) (chain_of chains.now x) ids.new) }
    ensures needed { OnOk result ((i : ℕ) → contains i ids.new ≡ true → (contains i ids.old ≡ true)
        ⊎ IsNeeded (ids_of family.now.members) name (chain_of chains.now x) i) }
    ensures few { OnOk result (length ids.new ≤ length ids.old + 1) }
{
    if reader == name {
        return Ok(());
    }
    let found = chains.readable(x, opened.id, &opened.invalid);
    add_record_id(chains, found, ids)
}

// Adds the id of the record of object `x` that a live snapshot reads for its base, unless the snapshot is global.
// `opened` is the member of the snapshot.
fn add_base_id(
    family: &Family,
    chains: &Chains,
    x: ObjectNo,
    reader: Name,
    opened: &Member,
    ids: &mut KeptIds,
) -> Result<(), NoMemory>
    requires is { opened.now ≡ member family.now.members reader }
    requires live { (member family.now.members reader).is_live ≡ true }
    requires there { x < length chains.now.heads.items }
    ensures more { (i : ℕ) → contains i ids.old ≡ true → contains i ids.new ≡ true }
    ensures base { OnOk result (0 < reader
        → IsReadWithin (valid_for_base (ids_of family.now.members) reader) (chain_of chains.now x) ids.new) }
    ensures needed { OnOk result ((name i : ℕ) → contains i ids.new ≡ true → (contains i ids.old ≡ true)
        ⊎ IsNeeded (ids_of family.now.members) name (chain_of chains.now x) i) }
    ensures few { OnOk result (length ids.new ≤ length ids.old + 1) }
{
    if reader == 0 {
        return Ok(());
    }
    let read = chains.readable_both(x, opened.id, &opened.invalid, &opened.ids);
    add_record_id(chains, read.1, ids)
}

// Adds the id of a record, if there is one.
fn add_record_id(
    chains: &Chains,
    found: Option<RecordNo>,
    ids: &mut KeptIds,
) -> Result<(), NoMemory>
    requires { IfSome found (λ r. IsSome (get chains.now.slots r.0)) }
    ensures more { (i : ℕ) → contains i ids.old ≡ true → contains i ids.new ≡ true }
    ensures added { OnOk result ((i : ℕ) → has_id i (option_map (λ r. record_at chains.now r.0) found) ≡ true
        → contains i ids.new ≡ true) }
    ensures only { OnOk result ((i : ℕ) → contains i ids.new ≡ true → (contains i ids.old ≡ true)
        ⊎ (has_id i (option_map (λ r. record_at chains.now r.0) found) ≡ true)) }
    ensures few { OnOk result (length ids.new ≤ length ids.old + 1) }
{
    match found {
        Some(r) => {
            ids.push(chains.id(r))?;
            Ok(())
        }
        None => Ok(()),
    }
}
