// The parent's view after an apply.
ghost use Rattle.std.specs.Prelude.{Bool, true, ◌+◌, ◌≡◌, ℕ, ◌<◌, length, [], Some, None, IfOk, OnOk, IsOk, if◌then◌else◌};
ghost use Rattle.std.specs.Bool.{MatchBool};
ghost use Rattle.snap_api.specs.Settle.{Settled, settled, conflict};
ghost use Rattle.snap_plain.specs.Choices.{choice_verdict, put_all};
ghost use Rattle.snap_plain.specs.CallParts.{settle_one, settle_shot, conflict_of, AreFree};

use rt_values::{Map, NoMemory, ObjectNo, Objects, StampedValue};
use snap_api::{Choice, Object, Snapshot};
use snap_policy::Policy;
use std::alloc::Global;

// Checks whether the snapshot wrote an object, and the two changes of it conflict.
#[tactic(auto, using(crate::proofs::Settles::conflicts))]
fn is_conflict<P: Policy>(
    alloc: Global,
    policy: &P,
    wrote: bool,
    previous: &StampedValue,
    current: &StampedValue,
    applied: &StampedValue,
) -> Result<bool, NoMemory>
    ensures found { IfOk result (λ found. (now x : ℕ) (rest : Settled) →
        conflict_of (settle_one P.rules wrote policy.now previous.now current.now applied.now now x rest)
        ≡ (if found then Some x else conflict_of rest)) }
    ensures free { (wrote ≡ true → P.is_free_merge policy.now previous.now.value current.now.value
        applied.now.value) → IsOk result }
{
    if !wrote {
        return Ok(false);
    }
    snap_api::is_conflict(alloc, policy, previous, current, applied)
}

/// Finds the least object that conflicts, by the snapshot's base, its parent's view and its own view. Takes
/// memory only if a merge does.
pub fn least_conflict<P: Policy>(
    alloc: Global,
    objects: &[Object<P>],
    shot: &Snapshot,
    current: &Map,
) -> Result<Option<ObjectNo>, NoMemory>
    requires base { length shot.now.base ≡ length objects.now }
    requires current { length current.now ≡ length objects.now }
    requires own { length shot.now.view ≡ length objects.now }
    ensures found { IfOk result (λ x. (now : ℕ)
        → x ≡ conflict_of (settle_shot P.rules now shot.now current.now objects.now)) }
    ensures free { AreFree P.is_free_merge shot.now current.now objects.now → IsOk result }
{
    for (i, object) in objects.iter().enumerate() {
        let x = i as u64;
        let wrote = shot.wrote.has(x);
        let found = is_conflict(
            alloc,
            &object.policy,
            wrote,
            shot.base.at(i),
            current.at(i),
            shot.view.at(i),
        )?;
        if found {
            return Ok(Some(x));
        }
    }
    Ok(None)
}

// Decides the verdict on an object, written or not.
fn choose<P: Policy>(
    alloc: Global,
    policy: &P,
    wrote: bool,
    previous: &StampedValue,
    current: &StampedValue,
    applied: &StampedValue,
    now: u64,
) -> Result<Choice, NoMemory>
    ensures { IfOk result (λ ch. (x : ℕ) (rest : Settled) →
        choice_verdict x ch rest ≡ settle_one P.rules wrote policy.now previous.now current.now applied.now now x
        rest) }
{
    if wrote {
        snap_api::choose(alloc, policy, previous, current, applied, now)
    } else {
        Ok(Choice::Kept(current.copy(alloc)?))
    }
}

// Appends the verdict on object `x`. Returns false if the verdict is a conflict.
#[tactic(auto, using(crate::proofs::Settles::puts))]
fn put_choice(
    view: &mut Map,
    changed: &mut Objects,
    x: ObjectNo,
    choice: Choice,
) -> Result<bool, NoMemory>
    ensures len { IfOk result (λ goes_on. goes_on ≡ true → length view.new ≡ length view.old + 1) }
    ensures put { IfOk result (λ goes_on. MatchBool goes_on ((rest : Settled)
        → put_all view.old changed.old (choice_verdict x choice rest) ≡ put_all view.new changed.new rest)
        ((rest : Settled) → choice_verdict x choice rest ≡ conflict x)) }
{
    match choice {
        Choice::Changed(entry) => {
            view.push(entry)?;
            changed.push(x)?;
            Ok(true)
        }
        Choice::Kept(entry) => {
            view.push(entry)?;
            Ok(true)
        }
        Choice::Clash => Ok(false),
    }
}

// Settles the objects in turn: appends the parent's new values to `view`, and the objects that change to `changed`.
// Both are empty before. No object may conflict.
fn settle_into<P: Policy>(
    alloc: Global,
    objects: &[Object<P>],
    shot: &Snapshot,
    current: &Map,
    now: u64,
    view: &mut Map,
    changed: &mut Objects,
) -> Result<(), NoMemory>
    requires base { length shot.now.base ≡ length objects.now }
    requires current { length current.now ≡ length objects.now }
    requires own { length shot.now.view ≡ length objects.now }
    requires fine { conflict_of (settle_shot P.rules now shot.now current.now objects.now) ≡ None }
    requires empty { (view.old ≡ []) × (changed.old ≡ []) }
    ensures len { OnOk result (length view.new ≡ length objects.now) }
    ensures settled { OnOk result
        (settled view.new changed.new ≡ settle_shot P.rules now shot.now current.now objects.now) }
{
    for (i, object) in objects.iter().enumerate() {
        let x = i as u64;
        let wrote = shot.wrote.has(x);
        let choice = choose(
            alloc,
            &object.policy,
            wrote,
            shot.base.at(i),
            current.at(i),
            shot.view.at(i),
            now,
        )?;
        if !put_choice(view, changed, x, choice)? {
            unreachable!();
        }
    }
    Ok(())
}

/// Returns the parent's new view and the objects that changed in it. No object may conflict.
pub fn settle_all<P: Policy>(
    alloc: Global,
    objects: &[Object<P>],
    shot: &Snapshot,
    current: &Map,
    now: u64,
) -> Result<(Map, Objects), NoMemory>
    requires base { length shot.now.base ≡ length objects.now }
    requires current { length current.now ≡ length objects.now }
    requires own { length shot.now.view ≡ length objects.now }
    requires fine { conflict_of (settle_shot P.rules now shot.now current.now objects.now) ≡ None }
    ensures len { IfOk result (λ r. length r.0 ≡ length objects.now) }
    ensures settled { IfOk result (λ r. settled r.0 r.1 ≡ settle_shot P.rules now shot.now current.now objects.now) }
{
    let mut view = Map::new(alloc);
    let mut changed = Objects::new(alloc);
    settle_into(alloc, objects, shot, current, now, &mut view, &mut changed)?;
    Ok((view, changed))
}
