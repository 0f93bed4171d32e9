// Changes of the snapshots of a plain world.
ghost use Rattle.std.specs.Prelude.{◌≡◌, ℕ, ◌<◌, ◌++◌, ◌∷◌, [], List, map, length, slice_set, slice_index_or, IfOk, OnOk, OnErr, vec_len};
ghost use Rattle.snap_api.specs.World.{no_snapshot, global_snapshot, child_of, with_status, with_entry, with_members, with_object};
ghost use Rattle.snap_api.specs.Shaped.{AreShaped};
ghost use Rattle.snap_plain.specs.CallParts.{with_view};

use rt_values::{Caller, Kind, Map, Name, NoMemory, ObjectNo, Objects, StampedValue};
use snap_api::{Snapshot, SnapshotStatus};
use std::alloc::Global;

/// Makes the list with only the global snapshot of a world without objects.
pub fn initial_snapshots(alloc: Global) -> Result<Vec<Snapshot>, NoMemory>
    ensures { IfOk result (λ s. s.items ≡ global_snapshot ∷ []) }
{
    let mut snapshots = Vec::new(alloc);
    snapshots.push(Snapshot {
        parent: 0,
        owner: 0,
        kind: Kind::Mutable,
        status: SnapshotStatus::Live,
        base: Map::new(alloc),
        view: Map::new(alloc),
        wrote: Objects::new(alloc),
    })?;
    Ok(snapshots)
}

// Makes a live snapshot of the parent's view.
fn new_child(
    alloc: Global,
    above: &Snapshot,
    caller: Caller,
    parent: Name,
    kind: Kind,
) -> Result<Snapshot, NoMemory>
    ensures { IfOk result (λ s. s ≡ child_of caller parent kind above.now) }
{
    Ok(Snapshot {
        parent,
        owner: caller,
        kind,
        status: SnapshotStatus::Live,
        base: above.view.copy(alloc)?,
        view: above.view.copy(alloc)?,
        wrote: Objects::new(alloc),
    })
}

/// Appends a live snapshot of the parent's view.
pub fn push_child(
    alloc: Global,
    snapshots: &mut Vec<Snapshot>,
    caller: Caller,
    parent: Name,
    kind: Kind,
) -> Result<(), NoMemory>
    requires { parent < length snapshots.old.items }
    ensures ok { OnOk result (snapshots.new.items
        ≡ snapshots.old.items ++ child_of caller parent kind
        (slice_index_or snapshots.old.items parent no_snapshot) ∷ []) }
    ensures err { OnErr result (snapshots.new.items ≡ snapshots.old.items) }
{
    let new_child = new_child(alloc, &snapshots[parent as usize], caller, parent, kind)?;
    snapshots.push(new_child)?;
    Ok(())
}

/// Sets the status of a snapshot.
pub fn set_status(snapshots: &mut Vec<Snapshot>, name: Name, status: SnapshotStatus)
    requires { name < length snapshots.old.items }
    ensures is { snapshots.new.items ≡ slice_set snapshots.old.items name
        (with_status (slice_index_or snapshots.old.items name no_snapshot) status) }
    ensures shaped { (n : ℕ) → AreShaped n snapshots.old.items → AreShaped n snapshots.new.items }
{
    let shot = &mut snapshots[name as usize];
    shot.status = status;
}

/// Sets the stamped value of an object, and adds the object to those that the snapshot wrote.
pub fn set_entry(
    snapshots: &mut Vec<Snapshot>,
    name: Name,
    object: ObjectNo,
    entry: StampedValue,
) -> Result<(), NoMemory>
    requires name { name < length snapshots.old.items }
    requires object { object < length (slice_index_or snapshots.old.items name no_snapshot).view }
    ensures ok { OnOk result (snapshots.new.items
        ≡ slice_set snapshots.old.items name
        (with_entry (slice_index_or snapshots.old.items name no_snapshot) object entry)) }
    ensures err { OnErr result (snapshots.new.items ≡ snapshots.old.items) }
{
    let shot = &mut snapshots[name as usize];
    shot.wrote.put(object)?;
    shot.view.set(object as usize, entry);
    Ok(())
}

/// Sets the view of a snapshot and the objects that it wrote.
pub fn set_settled(snapshots: &mut Vec<Snapshot>, name: Name, view: Map, wrote: Objects)
    requires { name < length snapshots.old.items }
    ensures is { snapshots.new.items ≡ slice_set snapshots.old.items name
        (with_view (slice_index_or snapshots.old.items name no_snapshot) view wrote) }
    ensures shaped { (n : ℕ) → AreShaped n snapshots.old.items → length view ≡ n → AreShaped n snapshots.new.items }
{
    let shot = &mut snapshots[name as usize];
    shot.view = view;
    shot.wrote = wrote;
}

/// Returns `first`, followed by the members of `more` that `first` does not contain.
#[tactic(auto, using(crate::proofs::Settles::members_more))]
pub fn with_members(alloc: Global, more: &Objects, first: &Objects) -> Result<Objects, NoMemory>
    ensures { IfOk result (λ o. o ≡ with_members more.now first.now) }
{
    let mut all = first.copy(alloc)?;
    for x in more.numbers() {
        all.put(*x)?;
    }
    Ok(all)
}

// Copies the snapshot and appends the stamped value of a new object.
fn add_object(alloc: Global, shot: &Snapshot, entry: &StampedValue) -> Result<Snapshot, NoMemory>
    ensures { IfOk result (λ s. s ≡ with_object entry.now shot.now) }
{
    let mut base = shot.base.copy(alloc)?;
    base.push(entry.copy(alloc)?)?;
    let mut view = shot.view.copy(alloc)?;
    view.push(entry.copy(alloc)?)?;
    Ok(Snapshot {
        parent: shot.parent,
        owner: shot.owner,
        kind: shot.kind,
        status: shot.status,
        base,
        view,
        wrote: shot.wrote.copy(alloc)?,
    })
}

/// Copies all snapshots and appends the stamped value of a new object to each.
pub fn add_object_to_all(
    alloc: Global,
    snapshots: &[Snapshot],
    entry: &StampedValue,
) -> Result<Vec<Snapshot>, NoMemory>
    ensures { IfOk result (λ wide. wide.items ≡ map (with_object entry.now) snapshots.now) }
{
    let mut wide = Vec::with_capacity(alloc, snapshots.len())?;
    for shot in snapshots {
        wide.push(add_object(alloc, shot, entry)?)?;
    }
    Ok(wide)
}
