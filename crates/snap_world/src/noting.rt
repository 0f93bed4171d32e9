// The objects that each snapshot wrote, by name. Global's are not kept, since global is never applied.
ghost use Rattle.std.specs.Prelude.{◌≡◌, ◌≢◌, ◌∷◌, ◌++◌, ℕ, ◌<◌, ◌&&◌, not, nat_lt, true, false, List, [], length, slice_index_or, IfOk, IfSome, OnOk, OnErr, if◌then◌else◌};
ghost use Rattle.std.specs.Option.{unwrap_or};
ghost use Rattle.rt_values.specs.Maps.{contains, with_member};
ghost use Rattle.snap_world.specs.Choices.{with_taken};
ghost use Rattle.snap_world.specs.Noting.{IsNoted, noted_of};

use crate::notes::Notes;
use crate::settling::Settled;
use rt_values::{Name, NoMemory, ObjectNo, Objects};
use std::alloc::Global;

/// Returns the objects that a snapshot wrote.
pub fn noted(wrote: &Notes, name: Name) -> &[ObjectNo]
    ensures { result.now ≡ noted_of wrote.now name }
{
    match wrote.find(name) {
        Some(noted) => noted.numbers(),
        None => &[],
    }
}

// Returns whether the parent takes the value of the object, and `noted` lacks the object.
fn is_more(noted: &[ObjectNo], s: &Settled) -> bool
    ensures { result ≡ (s.now.is_changed && not (contains s.now.object noted.now)) }
{
    s.is_changed && !noted.contains(&s.object)
}

// Returns whether the parent takes a value of an object that is not in `noted`.
fn has_more(noted: &[ObjectNo], settled: &[Settled]) -> bool
    ensures { result ≡ false → with_taken settled.now noted.now ≡ noted.now }
{
    for s in settled {
        if is_more(noted, s) {
            return true;
        }
    }
    false
}

// Returns `noted` with the objects that the parent takes.
fn with_taken(alloc: Global, noted: &[ObjectNo], settled: &[Settled]) -> Result<Objects, NoMemory>
    ensures { IfOk result (λ o. o ≡ with_taken settled.now noted.now) }
{
    let mut all = Objects::of(Vec::from_slice(alloc, noted)?);
    for s in settled {
        if s.is_changed {
            all.put(s.object)?;
        }
    }
    Ok(all)
}

/// Returns the objects that a snapshot wrote with those that it takes from a child, or `None` if they are the same.
pub fn note_settled(
    alloc: Global,
    wrote: &Notes,
    into: Name,
    settled: &[Settled],
) -> Result<Option<Objects>, NoMemory>
    ensures is { IfOk result (λ o. unwrap_or o (noted_of wrote.now into)
        ≡ (if nat_lt 0 into then with_taken settled.now (noted_of wrote.now into) else noted_of wrote.now into)) }
    ensures inner { IfOk result (λ o. IfSome o (λ all. 0 < into)) }
{
    if into == 0 {
        return Ok(None);
    }
    let before = noted(wrote, into);
    if has_more(before, settled) {
        let Ok(all) = with_taken(alloc, before, settled) else {
            return Err(NoMemory);
        };
        return Ok(Some(all));
    }
    Ok(None)
}

// Returns whether the list of a snapshot has the object.
fn has_noted(wrote: &Notes, name: Name, object: ObjectNo) -> bool
    ensures { result ≡ contains object (noted_of wrote.now name) }
{
    match wrote.find(name) {
        Some(noted) => noted.has(object),
        None => false,
    }
}

/// Adds an empty list for a snapshot, unless it has a list or is global. After `NoMemory` the notes are unchanged.
pub fn add_list(alloc: Global, wrote: &mut Notes, name: Name) -> Result<(), NoMemory>
    ensures same { (n : ℕ) → noted_of wrote.new n ≡ noted_of wrote.old n }
    ensures there { OnOk result (0 < name → contains name wrote.new.0 ≡ true) }
{
    if name == 0 {
        return Ok(());
    }
    wrote.add(alloc, name)
}

/// Notes that a snapshot wrote an object, unless the snapshot is global. Returns whether the object is new in its list.
pub fn note_object(wrote: &mut Notes, name: Name, object: ObjectNo) -> Result<bool, NoMemory>
    requires { 0 < name → contains name wrote.old.0 ≡ true }
    ensures ok { IfOk result (IsNoted wrote.old wrote.new name object) }
    ensures there { IfOk result (λ is_new. is_new ≡ true → contains name wrote.new.0 ≡ true) }
    ensures err { OnErr result ((n : ℕ) → noted_of wrote.new n ≡ noted_of wrote.old n) }
    ensures names { wrote.new.0 ≡ wrote.old.0 }
{
    if name == 0 || has_noted(wrote, name, object) {
        return Ok(false);
    }
    let Ok(()) = wrote.push(name, object) else {
        return Err(NoMemory);
    };
    Ok(true)
}

/// Removes the last object of a snapshot's list, if the object was new in it.
pub fn unnote_object(wrote: &mut Notes, name: Name, is_new: bool)
    requires { is_new ≡ true → contains name wrote.old.0 ≡ true }
    ensures last { is_new ≡ true → (xs : List ℕ) (x : ℕ) → noted_of wrote.old name ≡ xs ++ x ∷ []
        → noted_of wrote.new name ≡ xs }
    ensures kept { is_new ≡ false → noted_of wrote.new name ≡ noted_of wrote.old name }
    ensures others { (n : ℕ) → n ≢ name → noted_of wrote.new n ≡ noted_of wrote.old n }
{
    if is_new {
        wrote.pop(name);
    }
}

/// Replaces the objects that a snapshot wrote, if there are others. There are none for global.
pub fn set_noted(wrote: &mut Notes, name: Name, more: Option<Objects>)
    requires inner { IfSome more (λ all. 0 < name) }
    requires there { 0 < name → contains name wrote.old.0 ≡ true }
    ensures here { noted_of wrote.new name ≡ unwrap_or more (noted_of wrote.old name) }
    ensures others { (n : ℕ) → n ≢ name → noted_of wrote.new n ≡ noted_of wrote.old n }
    ensures names { wrote.new.0 ≡ wrote.old.0 }
{
    if let Some(noted) = more {
        wrote.set(name, noted);
    }
}
