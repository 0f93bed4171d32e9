// Runs of old groups in which no call is owed.
ghost use Rattle.std.specs.Prelude.{◌≡◌, ◌≤◌, ◌<◌, length, drop, true, false, IfSome};
ghost use Rattle.slot_table.specs.TableGroups.{group_at};
ghost use Rattle.composer.specs.OldGroups.{Ends};
ghost use Rattle.composer.specs.QuietRuns.{Layers, AreLayers, IsLevelEnd, IsQuietGroup, IsQuietUpTo, QuietWalk};
ghost use Rattle.composer.specs.Recomposes.{is_call_kept};

use crate::last_groups::LastGroups;
use crate::old_groups::OldGroup;
use rt_groups::GroupKind;

// Returns the index after the groups at `depth` and inside them from index `first` on, if these are inside the group at
// index `around` or are the groups of a whole frame.
#[inline(always)]
fn level_end(last: &LastGroups, depth: u32, around: usize, first: usize) -> Option<usize>
    ensures { IfSome result (λ end. IsLevelEnd depth last.now.groups first end) }
{
    if first > last.len() {
        return None;
    }
    if depth == 0 {
        return Some(last.len());
    }
    if around >= first || last.depth(around) != depth - 1 {
        return None;
    }
    let end = last.index_after(around);
    if end < first {
        return None;
    }
    Some(end)
}

/// Returns an index up to which no call is owed from index `first` on: that of the next group that is or contains an
/// owed call and is skipped by itself, or of the next group that is less deep than `depth`, or the number of groups. The
/// groups before the index are kept. Takes constant time if no call is owed from `first` on in the groups inside the
/// group at index `around`, and else time linear in the number of siblings and of groups around the group that is found.
#[inline(always)]
pub fn next_call(last: &LastGroups, depth: u32, around: usize, first: usize) -> usize
    requires { first ≤ length last.now.groups }
    ensures order { first ≤ result }
    ensures inside { result ≤ length last.now.groups }
    ensures quiet { (ls : Layers) → AreLayers depth ls (drop first last.now.groups) →
        QuietWalk last.now.owed.objects depth last.now.groups first result ls }
{
    let owed = last.next_owed(first);
    if let Some(end) = level_end(last, depth, around, first) {
        if end <= owed {
            return end;
        }
    }
    next_call_around(last, depth, first, owed)
}

// Returns the index of the next group from index `first` on that ends after index `owed` and is skipped by itself, or
// that of the next group that is less deep than `depth`, or the number of groups.
#[inline(always)]
fn next_call_around(last: &LastGroups, depth: u32, first: usize, owed: usize) -> usize
    requires inside { first ≤ length last.now.groups }
    requires quiet { IsQuietUpTo last.now first owed }
    ensures order { first ≤ result }
    ensures inside { result ≤ length last.now.groups }
    ensures quiet { (ls : Layers) → AreLayers depth ls (drop first last.now.groups) →
        QuietWalk last.now.owed.objects depth last.now.groups first result ls }
{
    let mut next = first;
    while next < last.len() {
        if last.depth(next) < depth {
            return next;
        }
        let after = last.index_after(next);
        if after <= owed {
            next = after;
        } else if is_skipped_alone(last, next, after) {
            return next;
        } else {
            next += 1;
        }
    }
    next
}

// Returns whether the group at index `at`, which ends before index `after`, is skipped by itself: a call, whose groups
// reach fewer functions, or a group with several groups directly inside, which are a level of their own.
#[inline(always)]
fn is_skipped_alone(last: &LastGroups, at: usize, after: usize) -> bool
    requires { at < length last.now.groups }
    ensures { result ≡ false → is_call_kept (group_at last.now.groups at).what ≡ false }
{
    match last.group(at).kind() {
        GroupKind::Call { .. } => true,
        GroupKind::Node { .. } => !has_one_inside(last, at, after),
        GroupKind::Key(_) => !has_one_inside(last, at, after),
        GroupKind::Cell { .. } => !has_one_inside(last, at, after),
    }
}

// Returns whether exactly one group is directly inside the group at index `at`, which ends before index `after`.
#[inline(always)]
fn has_one_inside(last: &LastGroups, at: usize, after: usize) -> bool
    requires { at < length last.now.groups }
{
    let len = last.len();
    let inside = at + 1;
    inside < len && last.index_after(inside) == after
}

/// Returns the index after an old call and the groups inside it if no call is owed there, and the call stays at this
/// depth and site.
#[inline(always)]
pub fn quiet_call_end(last: &LastGroups, depth: u32, site: u32, old: &OldGroup) -> Option<usize>
    requires { old.now.groups ≡ last.now.groups }
    ensures { IfSome result (λ after. IsQuietGroup last.now depth site old.now.index after) }
{
    let index = old.index();
    if old.depth() != depth || old.site() != site || old.number() != 0 {
        return None;
    }
    let after = last.index_after(index);
    if last.next_owed(index) < after {
        return None;
    }
    Some(after)
}

/// Returns whether the group at index `at` is less deep, or there is no such group.
#[inline(always)]
pub fn is_end(last: &LastGroups, depth: u32, at: usize) -> bool
    ensures end { result ≡ true → Ends depth (drop at last.now.groups) }
    ensures more { result ≡ false → (at < length last.now.groups) × (depth ≤ (group_at last.now.groups at).depth) }
{
    if at >= last.len() {
        return true;
    }
    last.depth(at) < depth
}
