// The objects that changed since the last frame.
ghost use Rattle.std.specs.Prelude.{◌≡◌, ◌<◌, ℕ, [], true, false, not, ◌&&◌, ◌||◌, ◌==◌, length, IfOk};
ghost use Rattle.rt_values.specs.Maps.{contains};
ghost use Rattle.composer.specs.OwedObjects.{marked_numbers, marks_after};

use rt_values::{NoMemory, ObjectNo};
use std::alloc::Global;
use std::marker::Model;

/// The objects whose changes the last frame does not show (invalidations).
#[derive(Drop)]
pub struct Owed {
    all: bool,
    // For each state object whether it changed.
    marks: Vec<bool>,
}

impl Model for Owed {
    ghost use Rattle.std.specs.Prelude.{length};
    ghost use Rattle.composer.specs.OwedObjects.{OwedObjects, marked_numbers};

    ghost Value = { OwedObjects };

    ghost view = { λ o. record {
      all = o.all;
      objects = marked_numbers 0 o.marks.items;
      states = length o.marks.items;
    } };
}

impl Owed {
    /// Returns what is owed before the first frame: every object, of which none is marked.
    #[tactic(auto, using(crate::proofs::Marks::no_marks))]
    pub fn new(alloc: Global, states: usize) -> Result<Owed, NoMemory>
        ensures { IfOk result (λ owed. owed ≡ record { all = true; objects = []; states = states }) }
    {
        let marks = vec![in alloc; false; states]?;
        Ok(Owed { all: true, marks })
    }

    /// Marks the given objects whose number is less than the number of state objects. Takes no memory.
    #[tactic(auto, using(crate::proofs::Marks::marked_after, crate::proofs::Marks::marks_stay))]
    pub fn mark(&mut self, objects: &[ObjectNo])
        ensures all { self.new.all ≡ self.old.all }
        ensures states { self.new.states ≡ self.old.states }
        ensures marked { (x : ℕ) → x < self.old.states →
            contains x self.new.objects ≡ (contains x self.old.objects || contains x objects.now) }
    {
        set_marks(&mut self.marks, objects);
    }

    /// Owes every object, as before the first frame. The marks stay.
    pub fn owe_all(&mut self)
        ensures { self.new ≡ record { all = true; objects = self.old.objects; states = self.old.states } }
    {
        self.all = true;
    }

    /// Removes all marks. Afterwards nothing is owed.
    #[tactic(auto, using(crate::proofs::Marks::no_marks, crate::proofs::Marks::count_marks))]
    pub fn clear(&mut self)
        ensures { self.new ≡ record { all = false; objects = []; states = self.old.states } }
    {
        self.all = false;
        self.marks.fill(false);
    }

    /// Returns whether every object is owed, because there is no last frame.
    pub fn is_all(&self) -> bool
        ensures { result ≡ self.now.all }
    {
        self.all
    }

    /// Returns whether object `x` is marked.
    #[tactic(auto, using(crate::proofs::Marks::mark_of, crate::proofs::Marks::no_mark))]
    pub fn has(&self, x: ObjectNo) -> bool
        ensures { result ≡ contains x self.now.objects }
    {
        x < self.marks.len() as u64 && self.marks[x as usize]
    }

    /// Returns the marked objects in ascending order.
    pub fn objects(&self, alloc: Global) -> Result<Vec<ObjectNo>, NoMemory>
        ensures { IfOk result (λ xs. xs.items ≡ self.now.objects) }
    {
        marked_objects(alloc, &self.marks)
    }

    /// Returns whether no object is owed.
    pub fn is_nothing(&self) -> bool
        ensures { result ≡ (not self.now.all && (length self.now.objects == 0)) }
    {
        !self.all && is_unmarked(&self.marks)
    }
}

// Sets the marks of `objects`.
#[tactic(auto, using(crate::proofs::Marks::set_past))]
fn set_marks(marks: &mut Vec<bool>, objects: &[ObjectNo])
    ensures { marks.new.items ≡ marks_after marks.old.items objects.now }
{
    for x in objects {
        if *x < marks.len() as u64 {
            marks[*x as usize] = true;
        }
    }
}

// Returns the numbers of the marks that are set.
fn marked_objects(alloc: Global, marks: &[bool]) -> Result<Vec<ObjectNo>, NoMemory>
    ensures { IfOk result (λ xs. xs.items ≡ marked_numbers 0 marks.now) }
{
    let mut objects = Vec::new(alloc);
    for x in 0..marks.len() {
        if marks[x] {
            objects.push(x as u64)?;
        }
    }
    Ok(objects)
}

// Returns whether no mark is set.
fn is_unmarked(marks: &[bool]) -> bool
    ensures { result ≡ (length (marked_numbers 0 marks.now) == 0) }
{
    for mark in marks {
        if *mark {
            return false;
        }
    }
    true
}
