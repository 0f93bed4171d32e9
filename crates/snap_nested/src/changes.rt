// Changes of the list of members: each function returns an error only if memory ran out.
ghost use Rattle.std.specs.Prelude.{◌≡◌, ◌≢◌, ℕ, ◌+◌, ◌≤◌, ◌<◌, ◌^◌, true, false, List, length, slice_set, slice_index_or, drop, [], ◌∷◌, IfOk, IfSome, IfNone, OnOk, OnErr, if◌then◌else◌};
ghost use Rattle.rt_values.specs.Maps.{contains};
ghost use Rattle.snap_ids.specs.IdLists.{IsRising, with_id};
ghost use Rattle.std.specs.List.{list_any};
ghost use Rattle.snap_nested.specs.Kept.{AreKept, Gathers};
ghost use Rattle.snap_nested.specs.Later.{AreSeenLater};
ghost use Rattle.snap_nested.specs.Unused.{without_unused};
ghost use Rattle.snap_nested.specs.Members.{member, members_after_enter, members_after_advance, members_after_close, members_after_merge, sees, is_owned, invalid_after_advance, ids_of, AreMembers, is_free, without_invalid, AreOpen, IsForgotten, global};

use crate::{Member, MemberList};
use rt_values::{Caller, Kind, Name, NoMemory};
use snap_ids::{IdList, IdSet};
use std::alloc::Global;

// Adds the ids of `own` that are greater than `from` to `all`.
fn add_ids_above(own: &IdSet, from: u64, all: &mut IdSet) -> Result<(), NoMemory>
    requires { IsRising all.old }
    ensures { OnOk result (Gathers (λ i. (from < i) × (contains i own.now ≡ true)) all.old all.new) }
{
    let mut next = own.next_above(from);
    while let Some(id) = next {
        all.set(id)?;
        next = own.next_above(id);
    }
    Ok(())
}

// Adds the ids of a member that are greater than `from` to `all`. The member is looked for at `index` first.
fn add_member_ids(
    members: &MemberList,
    index: usize,
    name: Name,
    from: u64,
    all: &mut IdSet,
) -> Result<(), NoMemory>
    requires { IsRising all.old }
    ensures { OnOk result (Gathers (λ i. (from < i) × (contains i (member members.now name).ids ≡ true))
        all.old all.new) }
{
    let Some(member) = members.get_near(index, name) else {
        return Ok(());
    };
    add_ids_above(&member.ids, from, all)
}

// Adds the ids greater than `from` that members have to `all`. Looks at the open names only.
fn add_owned(
    members: &MemberList,
    held: &IdList,
    from: u64,
    all: &mut IdSet,
) -> Result<(), NoMemory>
    requires open_names { AreOpen held.now members.now }
    requires rising { IsRising all.old }
    ensures { OnOk result (Gathers (λ i. (from < i) × (is_owned members.now i ≡ true)) all.old all.new) }
{
    let names = held.ids();
    for index in 0..names.len() {
        add_member_ids(members, index, names[index], from, all)?;
    }
    Ok(())
}

// Adds the ids greater than `from` that members have to `all`. Looks at no member if `from` is the last id that was
// handed out.
fn add_new(
    members: &MemberList,
    held: &IdList,
    handed: u64,
    from: u64,
    all: &mut IdSet,
) -> Result<(), NoMemory>
    requires open_names { AreOpen held.now members.now }
    requires sound { AreMembers members.now handed }
    requires rising { IsRising all.old }
    ensures { OnOk result (Gathers (λ i. (from < i) × (is_owned members.now i ≡ true)) all.old all.new) }
{
    if from >= handed {
        return Ok(());
    }
    add_owned(members, held, from, all)
}

// Returns the invalid ids of a member that gets a new id. Looks only for ids that were handed out since the member's
// last one: members have all of its invalid ids already.
fn seal(
    alloc: Global,
    members: &MemberList,
    held: &IdList,
    handed: u64,
    name: Name,
) -> Result<IdSet, NoMemory>
    requires open_names { AreOpen held.now members.now }
    requires sound { AreMembers members.now handed }
    requires kept { AreKept members.now }
    requires live { (member members.now name).is_live ≡ true }
    requires room { handed < 2 ^ 62 }
    requires low { (member members.now name).id ≤ handed }
    ensures { IfOk result (λ s. s ≡ invalid_after_advance members.now (member members.now name) handed) }
{
    let Some(member) = members.get(name) else {
        unreachable!();
    };
    let mut all = member.invalid.copy(alloc)?;
    add_new(members, held, handed, member.id, &mut all)?;
    Ok(all)
}

// Returns a copy of a set with one more id.
fn copy_with(alloc: Global, ids: &IdSet, id: u64) -> Result<IdSet, NoMemory>
    ensures { IfOk result (λ s. s ≡ with_id id ids.now) }
{
    let mut more = ids.copy(alloc)?;
    more.set(id)?;
    Ok(more)
}

// Returns the invalid ids of a new member of this parent, and those of the parent after it, for which the new id is
// invalid too.
fn seal_both(
    alloc: Global,
    members: &MemberList,
    held: &IdList,
    handed: u64,
    parent: Name,
) -> Result<(IdSet, IdSet), NoMemory>
    requires open_names { AreOpen held.now members.now }
    requires sound { AreMembers members.now handed }
    requires kept { AreKept members.now }
    requires live { (member members.now parent).is_live ≡ true }
    requires room { handed + 1 < 2 ^ 62 }
    requires low { (member members.now parent).id ≤ handed }
    ensures { IfOk result (λ s. (s.0 ≡ invalid_after_advance members.now (member members.now parent) handed)
        × (s.1 ≡ with_id (handed + 1) s.0)) }
{
    let invalid = seal(alloc, members, held, handed, parent)?;
    let sealed = copy_with(alloc, &invalid, handed + 1)?;
    Ok((invalid, sealed))
}

// Appends a member with these invalid ids.
fn push_member(
    alloc: Global,
    members: &mut MemberList,
    handed: u64,
    parent: Name,
    kind: Kind,
    owner: Caller,
    invalid: IdSet,
) -> Result<(), NoMemory>
    requires sealed { invalid ≡ invalid_after_advance members.old (member members.old parent) handed }
    requires room { handed < 2 ^ 62 }
    ensures ok { OnOk result (members.new ≡ members_after_enter members.old handed parent kind owner) }
    ensures err { OnErr result (members.new ≡ members.old) }
{
    let id = handed + 1;
    let ids = IdSet::of(alloc, id)?;
    members.push(Member {
        is_live: true,
        parent,
        owner,
        kind,
        first: id,
        id,
        ids,
        invalid,
    })?;
    Ok(())
}

// Gives a member a new id, and replaces its invalid ids.
fn add_id(members: &mut MemberList, handed: u64, name: Name, invalid: IdSet) -> Result<(), NoMemory>
    requires sealed { invalid ≡ invalid_after_advance members.old (member members.old name) handed }
    requires live { (member members.old name).is_live ≡ true }
    requires room { handed < 2 ^ 62 }
    ensures ok { OnOk result (members.new ≡ members_after_advance members.old handed name) }
    ensures err { OnErr result (members.new ≡ members.old) }
{
    members.advance(name, handed + 1, invalid)
}

/// Appends a member for which the ids are valid that are valid for its parent.
pub fn enter_member(
    alloc: Global,
    members: &mut MemberList,
    held: &IdList,
    handed: u64,
    parent: Name,
    kind: Kind,
    owner: Caller,
) -> Result<(), NoMemory>
    requires open_names { AreOpen held.now members.old }
    requires sound { AreMembers members.old handed }
    requires kept { AreKept members.old }
    requires live { (member members.old parent).is_live ≡ true }
    requires room { handed < 2 ^ 62 }
    requires low { (member members.old parent).id ≤ handed }
    ensures ok { OnOk result (members.new ≡ members_after_enter members.old handed parent kind owner) }
    ensures err { OnErr result (members.new ≡ members.old) }
{
    let invalid = seal(alloc, members, held, handed, parent)?;
    push_member(alloc, members, handed, parent, kind, owner, invalid)
}

/// Gives a member a new id.
pub fn advance_member(
    alloc: Global,
    members: &mut MemberList,
    held: &IdList,
    handed: u64,
    name: Name,
) -> Result<(), NoMemory>
    requires open_names { AreOpen held.now members.old }
    requires sound { AreMembers members.old handed }
    requires kept { AreKept members.old }
    requires live { (member members.old name).is_live ≡ true }
    requires room { handed < 2 ^ 62 }
    requires low { (member members.old name).id ≤ handed }
    ensures ok { OnOk result (members.new ≡ members_after_advance members.old handed name) }
    ensures err { OnErr result (members.new ≡ members.old) }
{
    let invalid = seal(alloc, members, held, handed, name)?;
    add_id(members, handed, name, invalid)
}

/// Gives the member `into` a new id and the ids of the member `name`, and closes `name`.
pub fn merge_member(
    alloc: Global,
    members: &mut MemberList,
    held: &IdList,
    handed: u64,
    name: Name,
    into: Name,
) -> Result<(), NoMemory>
    requires open_names { AreOpen held.now members.old }
    requires sound { AreMembers members.old handed }
    requires kept { AreKept members.old }
    requires live { (member members.old name).is_live ≡ true }
    requires above { (member members.old into).is_live ≡ true }
    requires room { handed < 2 ^ 62 }
    requires low { (member members.old into).id ≤ handed }
    ensures ok { OnOk result (members.new ≡ members_after_merge members.old handed name into) }
    ensures err { OnErr result (members.new ≡ members.old) }
{
    let Some(child) = members.get(name) else {
        unreachable!();
    };
    let below = child.ids.copy(alloc)?;
    let mut invalid = seal(alloc, members, held, handed, into)?;
    invalid.remove_all(&below);
    members.merge(into, handed + 1, &below, invalid)?;
    members.remove(name);
    Ok(())
}

/// Appends a member, and gives its parent a new id. Both have the same invalid ids, except that the child's id is
/// invalid for the parent.
pub fn take_members(
    alloc: Global,
    members: &mut MemberList,
    held: &IdList,
    handed: u64,
    parent: Name,
    kind: Kind,
    owner: Caller,
) -> Result<(), NoMemory>
    requires open_names { AreOpen held.now members.old }
    requires sound { AreMembers members.old handed }
    requires kept { AreKept members.old }
    requires live { (member members.old parent).is_live ≡ true }
    requires room { handed + 1 < 2 ^ 62 }
    requires low { (member members.old parent).id ≤ handed }
    ensures ok { OnOk result (members.new ≡ members_after_advance
        (members_after_enter members.old handed parent kind owner) (handed + 1) parent) }
    ensures err { OnErr result (members.new ≡ members.old) }
{
    let (invalid, sealed) = seal_both(alloc, members, held, handed, parent)?;
    push_member(alloc, members, handed, parent, kind, owner, invalid)?;
    let Ok(()) = add_id(members, handed + 1, parent, sealed) else {
        members.pop();
        return Err(NoMemory);
    };
    Ok(())
}

// Returns whether the member with this name is live and the id is valid for it. The member is looked for at `index`
// first.
fn sees(members: &MemberList, index: usize, name: Name, id: u64) -> bool
    ensures { result ≡ sees id (member members.now name) }
{
    match members.get_near(index, name) {
        Some(member) => { member.is_live && 0 < id && id <= member.id && !member.invalid.get(id) }
        None => false,
    }
}

// Returns whether the id is valid for a live member with one of the names from index `from` on.
fn is_seen_from(members: &MemberList, names: &[Name], from: usize, id: u64) -> bool
    requires { from ≤ length names.now }
    ensures { result ≡ list_any (λ n. sees id (member members.now n)) (drop from names.now) }
{
    for index in from..names.len() {
        if sees(members, index, names[index], id) {
            return true;
        }
    }
    false
}

// Returns whether the member with the open name at `index` is closed and keeps ids, of which the first is valid for no
// live member. Looks only at the names from `index` on: the id is valid for no member with a lower name.
fn is_free(members: &MemberList, names: &[Name], index: usize) -> bool
    requires open_names { AreOpen names.now members.now }
    requires rising { IsRising names.now }
    requires later { AreSeenLater (ids_of members.now) }
    requires there { index < length names.now }
    ensures { result ≡ is_free members.now (member members.now (slice_index_or names.now index 0)) }
{
    let Some(member) = members.get_near(index, names[index]) else {
        return false;
    };
    if member.is_live || member.ids.is_empty() {
        return false;
    }
    !is_seen_from(members, names, index, member.first)
}

/// Returns the first name that is free: closed, with ids that no live member needs.
pub fn first_free(members: &MemberList, held: &IdList) -> Option<Name>
    requires open_names { AreOpen held.now members.now }
    requires later { AreSeenLater (ids_of members.now) }
    ensures within { IfSome result (λ n. n < length members.now) }
    ensures free { IfSome result (λ n. is_free members.now (member members.now n) ≡ true) }
    ensures first { IfSome result (λ n. (k : ℕ) → k < n → is_free members.now (member members.now k) ≡ false) }
    ensures none { IfNone result ((k : ℕ) → is_free members.now (member members.now k) ≡ false) }
{
    let names = held.ids();
    for index in 0..names.len() {
        if is_free(members, names, index) {
            return Some(names[index]);
        }
    }
    None
}

/// Removes a member, and removes its ids from the invalid ids of all others.
pub fn forget_member(members: &mut MemberList, name: Name)
    ensures { IsForgotten members.old members.new name }
{
    let Some(gone) = members.remove(name) else {
        return;
    };
    members.remove_invalid(&gone.ids);
}
