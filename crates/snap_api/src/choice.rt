// The verdict on one object.
ghost use Rattle.std.specs.Prelude.{◌≡◌, ℕ, IfOk, IsOk};
ghost use Rattle.snap_api.specs.Settle.{verdict};
ghost use Rattle.snap_api.specs.Choices.{choice_of, is_clash};

use rt_values::{NoMemory, StampedValue};
use snap_policy::Policy;
use std::alloc::Global;

/// The verdict on one object: a new stamped value for the parent, the parent's own one, or a conflict.
#[derive(Drop)]
pub enum Choice {
    Changed(StampedValue),
    Kept(StampedValue),
    Clash,
}

/// Returns whether the two changes of an object conflict. Takes memory only if the merge does.
pub fn is_conflict<P: Policy>(
    alloc: Global,
    policy: &P,
    previous: &StampedValue,
    current: &StampedValue,
    applied: &StampedValue,
) -> Result<bool, NoMemory>
    ensures found { IfOk result (λ found. (now : ℕ)
        → found ≡ is_clash
        (choice_of (verdict P.rules policy.now previous.now current.now applied.now now) current.now)) }
    ensures free { P.is_free_merge policy.now previous.now.value current.now.value applied.now.value → IsOk result }
{
    if previous.stamp == current.stamp || policy.equivalent(&current.value, &applied.value) {
        return Ok(false);
    }
    match policy.merge(alloc, &previous.value, &current.value, &applied.value)? {
        Some(_) => Ok(false),
        None => Ok(true),
    }
}

/// Decides the verdict on an object that the snapshot wrote, by its base, its parent's view and its own view. A merged
/// value gets the stamp `now`.
pub fn choose<P: Policy>(
    alloc: Global,
    policy: &P,
    previous: &StampedValue,
    current: &StampedValue,
    applied: &StampedValue,
    now: u64,
) -> Result<Choice, NoMemory>
    ensures { IfOk result (λ choice. choice
        ≡ choice_of (verdict P.rules policy.now previous.now current.now applied.now now) current.now) }
{
    if previous.stamp == current.stamp {
        return Ok(Choice::Changed(applied.copy(alloc)?));
    }
    if policy.equivalent(&current.value, &applied.value) {
        return Ok(Choice::Kept(current.copy(alloc)?));
    }
    match policy.merge(alloc, &previous.value, &current.value, &applied.value)? {
        Some(value) => Ok(Choice::Changed(StampedValue { value, stamp: now })),
        None => Ok(Choice::Clash),
    }
}
