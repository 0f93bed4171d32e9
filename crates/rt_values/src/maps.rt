// Maps from state objects to stamped values, and lists of objects.
ghost use Rattle.std.specs.Prelude.{◌≡◌, ◌<◌, List, ℕ, [], ◌∷◌, ◌++◌, length, slice_get, slice_set, Bool, IfOk, OnOk, OnErr};
ghost use Rattle.rt_values.specs.Maps.{differ, differ_from, differs, entry_at, contains, with_member};

use crate::{NoMemory, ObjectNo, Value};
use std::alloc::Global;
use std::marker::Model;

/// The value of one object with its stamp: the clock of the write or merge that changed it last, or 0 for the initial
/// value. It takes the place of a `StateRecord`.
#[derive(Drop)]
pub struct StampedValue {
    pub value: Value,
    pub stamp: u64,
}

impl StampedValue {
    /// Returns a copy.
    pub fn copy(&self, alloc: Global) -> Result<StampedValue, NoMemory>
        ensures { IfOk result (λ e. e ≡ self.now) }
    {
        Ok(StampedValue {
            value: self.value.copy(alloc)?,
            stamp: self.stamp,
        })
    }
}

/// A map from state objects to stamped values. The list index is the number of the object.
#[derive(Drop)]
pub struct Map {
    entries: Vec<StampedValue>,
}

impl Model for Map {
    ghost use Rattle.std.specs.Prelude.{List};
    ghost use Rattle.rt_values.specs.declared.maps.StampedValue.{StampedValue};

    ghost Value = { List StampedValue };

    ghost view = { λ m. m.entries.items };
}

impl Map {
    /// Returns the map without objects.
    pub fn new(alloc: Global) -> Self
        ensures { result ≡ [] }
    {
        Map {
            entries: Vec::new(alloc),
        }
    }

    /// Returns the stamped values of all objects, in the order of their numbers.
    pub fn entries(&self) -> &[StampedValue]
        ensures { result.now ≡ self.now }
    {
        &self.entries
    }

    /// Returns the number of objects.
    pub fn len(&self) -> usize
        ensures { result ≡ length self.now }
    {
        self.entries.len()
    }

    /// Returns the stamped value of object `x`.
    pub fn at(&self, x: usize) -> &StampedValue
        requires { x < length self.now }
        ensures { result.now ≡ entry_at self.now x }
    {
        &self.entries[x]
    }

    /// Returns a copy.
    pub fn copy(&self, alloc: Global) -> Result<Map, NoMemory>
        ensures { IfOk result (λ m. m ≡ self.now) }
    {
        let mut entries = Vec::with_capacity(alloc, self.entries.len())?;
        for stamped in &self.entries {
            entries.push(stamped.copy(alloc)?)?;
        }
        Ok(Map { entries })
    }

    /// Appends the stamped value of a new object. After `NoMemory` the map is unchanged.
    pub fn push(&mut self, stamped: StampedValue) -> Result<(), NoMemory>
        ensures ok { OnOk result (self.new ≡ self.old ++ stamped ∷ []) }
        ensures err { OnErr result (self.new ≡ self.old) }
    {
        self.entries.push(stamped)?;
        Ok(())
    }

    /// Replaces the stamped value of object `x`.
    pub fn set(&mut self, x: usize, stamped: StampedValue)
        requires { x < length self.old }
        ensures { self.new ≡ slice_set self.old x stamped }
    {
        self.entries[x] = stamped;
    }
}

/// A list of numbers of state objects.
#[derive(Drop)]
pub struct Objects {
    numbers: Vec<ObjectNo>,
}

impl Model for Objects {
    ghost use Rattle.std.specs.Prelude.{List, ℕ};

    ghost Value = { List ℕ };

    ghost view = { λ o. o.numbers.items };
}

impl Objects {
    /// Returns the empty list.
    pub fn new(alloc: Global) -> Self
        ensures { result ≡ [] }
    {
        Objects {
            numbers: Vec::new(alloc),
        }
    }

    /// Returns the list of `numbers`, without a copy.
    pub fn of(numbers: Vec<ObjectNo>) -> Self
        ensures { result ≡ numbers.items }
    {
        Objects { numbers }
    }

    /// Returns the numbers, in order.
    pub fn numbers(&self) -> &[ObjectNo]
        ensures { result.now ≡ self.now }
    {
        &self.numbers
    }

    /// Returns whether the list contains `x`.
    pub fn has(&self, x: ObjectNo) -> bool
        ensures { result ≡ contains x self.now }
    {
        self.numbers.contains(&x)
    }

    /// Appends `x`. After `NoMemory` the list is unchanged.
    pub fn push(&mut self, x: ObjectNo) -> Result<(), NoMemory>
        ensures ok { OnOk result (self.new ≡ self.old ++ x ∷ []) }
        ensures err { OnErr result (self.new ≡ self.old) }
    {
        self.numbers.push(x)?;
        Ok(())
    }

    /// Appends `x` unless the list contains it. After `NoMemory` the list is unchanged.
    pub fn put(&mut self, x: ObjectNo) -> Result<(), NoMemory>
        ensures ok { OnOk result (self.new ≡ with_member x self.old) }
        ensures err { OnErr result (self.new ≡ self.old) }
    {
        if !self.has(x) {
            self.numbers.push(x)?;
        }
        Ok(())
    }

    /// Removes the last number. An empty list remains empty.
    pub fn pop(&mut self)
        ensures last { (xs : List ℕ) (x : ℕ) → self.old ≡ xs ++ x ∷ [] → self.new ≡ xs }
        ensures none { self.old ≡ [] → self.new ≡ [] }
    {
        let _ = self.numbers.pop();
    }

    /// Removes all numbers and keeps the capacity.
    pub fn clear(&mut self)
        ensures { self.new ≡ [] }
    {
        self.numbers.clear();
    }

    /// Returns a copy.
    pub fn copy(&self, alloc: Global) -> Result<Objects, NoMemory>
        ensures { IfOk result (λ o. o ≡ self.now) }
    {
        Ok(Objects {
            numbers: self.numbers.to_vec(alloc)?,
        })
    }
}

/// Returns the objects whose stamps differ between `before` and `now` or that only `now` has, by increasing number.
/// Returns all objects if there is no map `before`.
pub fn find_differing(alloc: Global, before: &Option<Map>, now: &Map) -> Result<Objects, NoMemory>
    ensures { IfOk result (λ o. o ≡ differ before.now now.now) }
{
    match before {
        Some(map) => find_differing_entries(alloc, map.entries(), now.entries()),
        None => find_differing_entries(alloc, &[], now.entries()),
    }
}

// Returns the objects of `now` whose stamps differ from those in `before` or that `before` lacks.
fn find_differing_entries(
    alloc: Global,
    before: &[StampedValue],
    now: &[StampedValue],
) -> Result<Objects, NoMemory>
    ensures { IfOk result (λ o. o ≡ differ_from before.now 0 now.now) }
{
    let mut found = Objects::new(alloc);
    for (x, stamped) in now.iter().enumerate() {
        if is_other(before, x, stamped) {
            found.push(x as u64)?;
        }
    }
    Ok(found)
}

// Returns whether the stamp of `now` differs from that of object `x` in `before`. Returns true if `before` lacks `x`.
fn is_other(before: &[StampedValue], x: usize, now: &StampedValue) -> bool
    ensures { result ≡ differs (slice_get before.now x) now.now }
{
    match before.get(x) {
        None => true,
        Some(stamped) => stamped.stamp != now.stamp,
    }
}
