// The reads of a frame with their values, as a view that answers the same reads again.
ghost use Rattle.std.specs.Prelude.{◌≡◌, ◌++◌, ◌∷◌, ◌<◌, ◌+◌, [], OnOk, length, take, drop, zero, true, slice_index_or};
ghost use Rattle.rt_values.specs.Views.{Extends};
ghost use Rattle.play_run.specs.RecordedReads.{AgreesWith, objects_read};
ghost use Rattle.play_run.specs.RecordedReadsLaws.{extends_itself, extends_on};

use rt_values::{NoMemory, ObjectNo, Value, View};
use std::alloc::Global;
use std::mem::replace;

/// The reads of a frame with the values that they gave, in order. As a view, it gives these values to the same reads in
/// the same order.
#[derive(Drop)]
pub struct RecordedReads {
    // A value that was given is replaced by the number 0.
    reads: Vec<(ObjectNo, Value)>,
    // How many of the values were given.
    given: usize,
}

impl RecordedReads {
    /// Returns the empty list of reads.
    pub fn new(alloc: Global) -> Self
        ensures reads { result.reads.items ≡ [] }
        ensures given { result.given ≡ zero }
    {
        RecordedReads {
            reads: Vec::new(alloc),
            given: 0,
        }
    }

    /// Appends a read of `object` that gave `value`.
    pub fn record(&mut self, object: ObjectNo, value: Value) -> Result<(), NoMemory>
        ensures reads { OnOk result (self.new.reads.items ≡ self.old.reads.items ++ (object, value) ∷ []) }
        ensures given { self.new.given ≡ self.old.given }
    {
        match self.reads.push((object, value)) {
            Ok(()) => Ok(()),
            Err(_) => Err(NoMemory),
        }
    }

    // Checks whether the next read that was not given is of object `x`.
    fn is_next(&self, x: ObjectNo) -> bool
        ensures within { result ≡ true → self.now.given < length self.now.reads.items }
        ensures object { (d : _) → result ≡ true →
            (slice_index_or self.now.reads.items self.now.given d).0 ≡ x }
    {
        match self.reads.get(self.given) {
            Some(read) => read.0 == x,
            None => false,
        }
    }

    /// Removes all reads.
    pub fn clear(&mut self)
        ensures reads { self.new.reads.items ≡ [] }
        ensures given { self.new.given ≡ zero }
    {
        self.reads.clear();
        self.given = 0;
    }
}

impl View for RecordedReads {
    ghost shows = { λ s m. AgreesWith m (drop s.given s.reads.items) };

    ghost asked = { λ s. take s.given (objects_read s.reads.items) };

    ghost keeps = { λ s t. Extends (take s.given (objects_read s.reads.items))
        (take t.given (objects_read t.reads.items)) };

    ghost reads_free = { λ s. ⊥ };

    ghost keeps_itself = { λ s. extends_itself (take s.given (objects_read s.reads.items)) };

    ghost keeps_on = { λ r s t h k. extends_on h k };

    ghost asked_grows = { λ s t k. k };

    ghost free_kept = { λ s t k f. f };

    // What is composed again reads the same objects in the same order, so the next read is of this object.
    fn read(&mut self, _alloc: Global, x: ObjectNo) -> Result<Value, NoMemory> {
        if !self.is_next(x) {
            return Err(NoMemory); // no composition of this frame asks for other objects
        }
        let next = self.given;
        self.given = next + 1;
        Ok(replace(&mut self.reads[next].1, Value::Int(0)))
    }
}
