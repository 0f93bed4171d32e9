// The ids that no record and no open snapshot needs.
ghost use Rattle.std.specs.Prelude.{◌≡◌, ◌⊎◌, ℕ, ◌<◌, length, true, false, IfOk, OnOk};
ghost use Rattle.rt_values.specs.Maps.{contains};
ghost use Rattle.snap_nested.specs.Members.{member, AreOpen};

use crate::MemberList;
use rt_values::{Name, NoMemory};
use snap_ids::{IdList, IdSet};
use std::alloc::Global;

// Adds the first and the current id of a member to `used`.
fn add_ends(members: &MemberList, name: Name, used: &mut IdSet) -> Result<(), NoMemory>
    ensures more { OnOk result ((i : ℕ) → contains i used.old ≡ true → contains i used.new ≡ true) }
    ensures first { OnOk result ((i : ℕ) → contains i (member members.now name).ids ≡ true
        → contains (member members.now name).first used.new ≡ true) }
    ensures current { OnOk result ((member members.now name).is_live ≡ true
        → contains (member members.now name).id used.new ≡ true) }
{
    let Some(member) = members.get(name) else {
        return Ok(());
    };
    used.set(member.first)?;
    used.set(member.id)?;
    Ok(())
}

/// Adds the first and the current ids of the open names to `used`. After `NoMemory` the set may have some of them.
pub fn add_all_ends(members: &MemberList, held: &IdList, used: &mut IdSet) -> Result<(), NoMemory>
    requires { AreOpen held.now members.now }
    ensures more { OnOk result ((i : ℕ) → contains i used.old ≡ true → contains i used.new ≡ true) }
    ensures first { OnOk result ((n i : ℕ) → contains i (member members.now n).ids ≡ true
        → contains (member members.now n).first used.new ≡ true) }
    ensures current { OnOk result ((n : ℕ) → (member members.now n).is_live ≡ true
        → contains (member members.now n).id used.new ≡ true) }
{
    for name in held.ids() {
        add_ends(members, *name, used)?;
    }
    Ok(())
}

// Adds `id` to `unused`, unless `used` contains it.
fn add_unless_used(id: u64, used: &IdSet, unused: &mut IdSet) -> Result<(), NoMemory>
    ensures { OnOk result ((i : ℕ) → contains i unused.new ≡ true
        → (contains i unused.old ≡ true) ⊎ (contains i used.now ≡ false)) }
{
    if used.get(id) {
        return Ok(());
    }
    unused.set(id)?;
    Ok(())
}

// Adds the ids of `own` that `used` lacks to `unused`.
fn add_unused(own: &IdSet, used: &IdSet, unused: &mut IdSet) -> Result<(), NoMemory>
    ensures { OnOk result ((i : ℕ) → contains i unused.new ≡ true
        → (contains i unused.old ≡ true) ⊎ (contains i used.now ≡ false)) }
{
    let mut next = own.first();
    while let Some(id) = next {
        add_unless_used(id, used, unused)?;
        next = own.next_above(id);
    }
    Ok(())
}

// Adds the own ids of a member that `used` lacks to `unused`.
fn add_member_unused(
    members: &MemberList,
    name: Name,
    used: &IdSet,
    unused: &mut IdSet,
) -> Result<(), NoMemory>
    ensures { OnOk result ((i : ℕ) → contains i unused.new ≡ true
        → (contains i unused.old ≡ true) ⊎ (contains i used.now ≡ false)) }
{
    match members.get(name) {
        Some(member) => add_unused(&member.ids, used, unused),
        None => Ok(()),
    }
}

/// Returns the own ids of the members that `used` lacks.
pub fn collect_unused(
    alloc: Global,
    members: &MemberList,
    held: &IdList,
    used: &IdSet,
) -> Result<IdSet, NoMemory>
    ensures { IfOk result (λ unused. (i : ℕ) → contains i unused ≡ true → contains i used.now ≡ false) }
{
    let mut unused = IdSet::new(alloc);
    for name in held.ids() {
        add_member_unused(members, *name, used, &mut unused)?;
    }
    Ok(unused)
}
