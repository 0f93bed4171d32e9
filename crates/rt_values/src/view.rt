// The trait through which a composition reads state objects.
ghost use Rattle.std.specs.Prelude.{◌≡◌, ◌++◌, ◌∷◌, [], List, ℕ, true, IfOk, OnOk, OnErr};
ghost use Rattle.rt_values.specs.Maps.{Map as map_data, value_at};
ghost use Rattle.rt_values.specs.Values.{is_flat};
ghost use Rattle.rt_values.specs.Views.{Extends, Grew};

use crate::{NoMemory, ObjectNo, Value};
use std::alloc::Global;

/// A map of state objects that is read, as a composition reads its snapshot's states through the snapshot's
/// read observer.
pub trait View {
    // The maps that the view shows: the map of its snapshot in each plain world that the world below represents.
    ghost shows: { Self → map_data → Type 0 };

    // The objects read so far, repeats included.
    ghost asked: { Self → List ℕ };

    // `keeps a b`: reads may turn view `a` into `b`, which differs only in the list of reads.
    ghost keeps: { Self → Self → Type 0 };

    // Reads of numbers and truth values take no memory.
    ghost reads_free: { Self → Type 0 };

    /// Returns the value of object `x`, or the number 0 if there is no such object, and appends `x` to the list of
    /// reads. After `NoMemory` the list may contain this read or not.
    fn read(&mut self, alloc: Global, x: ObjectNo) -> Result<Value, NoMemory>
        ensures value { (m : map_data) → shows self.old m → IfOk result (λ v. v ≡ value_at m x) }
        ensures same { (m : map_data) → shows self.old m → shows self.new m }
        ensures asks { OnOk result (asked self.new ≡ asked self.old ++ x ∷ []) }
        ensures part { OnErr result (Grew (asked self.old) (asked self.new) (x ∷ [])) }
        ensures free { (m : map_data) → shows self.old m → reads_free self.old →
            is_flat (value_at m x) ≡ true → OnErr result ⊥ }
        ensures keeps { keeps self.old self.new };

    ghost keeps_itself: { (s : Self) → keeps s s };

    ghost keeps_on: { (r s t : Self) → keeps r s → keeps s t → keeps r t };

    ghost asked_grows: { (s t : Self) → keeps s t → Extends (asked s) (asked t) };

    ghost free_kept: { (s t : Self) → keeps s t → reads_free s → reads_free t };
}
